// The record that is kept of a macroblock, and a block of it as a neighbour.
ghost use Rattle.std.specs.Prelude.{◌≡◌, ◌<◌, ◌≤◌, drop, get_or, length, pos};
ghost use Rattle.record.specs.Refusals.{block_due, block_tests, first_bad, quantiser_due, quantiser_tests, recorded_outcome, unless};
ghost use Rattle.record.specs.Record.{blank, fifteen, kept_of, known_of, missing_of, quantiser_of, seven_from, with_block};

use crate::refusal::RecordError;
use prediction::BlockPredictors;

// What a block takes of one neighbour; `has` is false outside the picture.
#[derive(Clone, Copy)]
pub struct Side {
    pub has: bool,
    pub dc: i32,
    pub qp: u32,
    pub row: [i32; 7],
    pub column: [i32; 7],
}

// A stored quantiser; a negative number is read as 0.
pub fn quantiser(z: i32) -> u32
    ensures { result ≡ quantiser_of z }
{
    z.max(0) as u32
}

// A number of the store, 0 past its end: the one function that reads one.
pub fn number(s: &[i32], at: usize) -> i32
    ensures { result ≡ get_or s.now at (pos 0) }
{
    s.get(at).copied().unwrap_or(0)
}

// The seven numbers from `at` on, 0 past the store's end; all at once where they are there.
pub fn seven(s: &[i32], at: usize) -> [i32; 7]
    ensures { result ≡ seven_from s.now at }
{
    let mut out = [0i32; 7];
    if s.len() <= at {
        return out;
    }
    if at + 7 <= s.len() {
        out.copy_from_slice(&s[at..at + 7]);
        return out;
    }
    // an index: any of them may lie past the end
    for k in 0..7 {
        out[k] = number(s, at + k);
    }
    out
}

// The DC of block `b` of what stands in the store from `at` on.
pub fn known_dc(s: &[i32], at: u32, b: u32) -> i32
    ensures { result ≡ (known_of (drop at s.now) b).dc }
{
    number(s, at as usize + 15 * b as usize)
}

// Block `b` of what stands in the store from `at` on: of the record there, where `b` is one of six.
pub fn known(s: &[i32], at: u32, b: u32) -> Side
    ensures { result ≡ known_of (drop at s.now) b }
{
    let start = at as usize;
    let base = start + 15 * b as usize;
    let dc = number(s, base);
    let qp = quantiser(number(s, start + 90));
    let row = seven(s, base + 1);
    let column = seven(s, base + 8);
    Side {
        has: true,
        dc,
        qp,
        row,
        column,
    }
}

// A neighbour outside the picture.
pub fn missing(bits_per_pixel: u32, quantiser_scale: u32) -> Side
    ensures { result ≡ missing_of bits_per_pixel quantiser_scale }
{
    let outside = BlockPredictors::outside(bits_per_pixel, quantiser_scale);
    Side {
        has: false,
        dc: outside.fa_dc,
        qp: quantiser_scale,
        row: [0i32; 7],
        column: [0i32; 7],
    }
}

// The record before its first block into `own`; or 12, and `own` as it was.
pub fn new_record(quantiser_scale: u32, own: &mut [i32; 91]) -> Result<(), RecordError>
    ensures value { (result ≡ first_bad (quantiser_tests quantiser_scale)) × (own.new ≡ unless (first_bad (quantiser_tests quantiser_scale)) (blank quantiser_scale) own.old) }
    ensures outcome { recorded_outcome result ≡ quantiser_due quantiser_scale }
{
    if !ranges::Quantiser::fine(quantiser_scale) {
        return Err(RecordError::Context);
    }
    let mut fresh = [0i32; 91];
    fresh[90] = quantiser_scale as i32;
    *own = fresh;
    Ok(())
}

// Number `u` of the fifteen that are kept of a block.
fn kept(dc: i32, qf: [[i32; 8]; 8], u: usize) -> i32
    requires { u < 15 }
    ensures { result ≡ kept_of dc qf u }
{
    match u {
        0 => dc,
        1..=7 => qf[0][u],
        _ => qf[u - 7][0],
    }
}

fn kept_numbers(dc: i32, qf: [[i32; 8]; 8]) -> [i32; 15]
    ensures { result ≡ fifteen dc qf }
{
    let mut out = [0i32; 15];
    // an index: it tells which number is kept
    for u in 0..15 {
        out[u] = kept(dc, qf, u);
    }
    out
}

// Block `i` of six into a record that is whole.
fn put_block(own: &mut [i32], i: usize, dc: i32, qf: [[i32; 8]; 8])
    requires { (i < 6) × (91 ≤ length own.old) }
    ensures { own.new ≡ with_block own.old i dc qf }
{
    let numbers = kept_numbers(dc, qf);
    own[15 * i..15 * i + 15].copy_from_slice(&numbers);
}

// Block `i` into the record `own`; or 11, 14, and `own` as it was.
pub fn with_block(own: &mut [i32], i: usize, dc: i32, qf: [[i32; 8]; 8]) -> Result<(), RecordError>
    ensures value { (result ≡ first_bad (block_tests (length own.old) i)) × (own.new ≡ unless (first_bad (block_tests (length own.old) i)) (with_block own.old i dc qf) own.old) }
    ensures outcome { recorded_outcome result ≡ block_due (length own.old) i }
{
    if 6 <= i {
        return Err(RecordError::OutOfRange);
    }
    if own.len() < 91 {
        return Err(RecordError::TooShort);
    }
    put_block(own, i, dc, qf);
    Ok(())
}
