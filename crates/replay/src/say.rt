// What is printed, and lent memory before and after a call.
use headers::{DerivedMbType, HeaderFields};
use std::io;

// In lent memory before a call: a number that no call gives.
const LENT: i32 = 9999;

fn text(rt: &impl Print, s: &[u8]) -> io::Result<()> {
    rt.write_all(s)
}

// The first number of a line.
fn first(rt: &impl Print, n: u32) -> io::Result<()> {
    rt.print(n)
}

pub(crate) fn number(rt: &impl Print, n: u64) -> io::Result<()> {
    text(rt, b" ")?;
    rt.print(n)
}

fn signed(rt: &impl Print, z: i32) -> io::Result<()> {
    text(rt, b" ")?;
    rt.print(z)
}

fn flag(rt: &impl Print, set: bool) -> io::Result<()> {
    number(rt, u64::from(set))
}

// Each of these begins the line of an accepted call.
pub(crate) fn dc_part(
    rt: &impl Print,
    size: u32,
    differential: i32,
    position: usize,
) -> io::Result<()> {
    first(rt, 0)?;
    number(rt, u64::from(size))?;
    signed(rt, differential)?;
    number(rt, position as u64)
}

pub(crate) fn event(
    rt: &impl Print,
    last: bool,
    run: u32,
    level: i32,
    position: usize,
) -> io::Result<()> {
    first(rt, 0)?;
    flag(rt, last)?;
    number(rt, u64::from(run))?;
    signed(rt, level)?;
    number(rt, position as u64)
}

pub(crate) fn read(rt: &impl Print, position: usize) -> io::Result<()> {
    first(rt, 0)?;
    number(rt, position as u64)
}

pub(crate) fn decoded(rt: &impl Print, value: i32, position: usize) -> io::Result<()> {
    first(rt, 0)?;
    signed(rt, value)?;
    number(rt, position as u64)
}

pub(crate) fn taken(rt: &impl Print, bits: usize, position: usize) -> io::Result<()> {
    first(rt, 0)?;
    number(rt, bits as u64)?;
    number(rt, position as u64)
}

pub(crate) fn opened(
    rt: &impl Print,
    width: u32,
    height: u32,
    bits_per_pixel: u32,
    quant_type: bool,
) -> io::Result<()> {
    first(rt, 0)?;
    number(rt, u64::from(width))?;
    number(rt, u64::from(height))?;
    number(rt, u64::from(bits_per_pixel))?;
    flag(rt, quant_type)
}

pub(crate) fn transformed(rt: &impl Print) -> io::Result<()> {
    first(rt, 0)
}

pub(crate) fn refused(rt: &impl Print, n: u32, figure: u32) -> io::Result<()> {
    first(rt, n)?;
    number(rt, u64::from(figure))
}

// A type's place in Table B.1, 0 the missing one.
fn place(t: DerivedMbType) -> u64 {
    match t {
        DerivedMbType::Missing => 0,
        DerivedMbType::Inter => 1,
        DerivedMbType::InterQ => 2,
        DerivedMbType::Inter4V => 3,
        DerivedMbType::Intra => 4,
        DerivedMbType::IntraQ => 5,
    }
}

// What is read of a header in bits.
pub(crate) fn fields(rt: &impl Print, f: HeaderFields) -> io::Result<()> {
    let header = f.header;
    flag(rt, header.not_coded)?;
    number(rt, place(header.mb_type))?;
    number(rt, u64::from(header.cbpc))?;
    flag(rt, header.ac_pred_flag)?;
    number(rt, u64::from(header.cbpy))?;
    signed(rt, f.dquant_delta)?;
    number(rt, u64::from(f.quantiser_scale))
}

// Of a kind that there is not.
pub(crate) fn none(rt: &impl Print) -> io::Result<()> {
    text(rt, b"?")
}

pub(crate) fn end(rt: &impl Print) -> io::Result<()> {
    text(rt, b"\n")
}

pub(crate) fn all(rt: &impl Print, s: &[i32]) -> io::Result<()> {
    for z in s {
        signed(rt, *z)?;
    }
    Ok(())
}

pub(crate) fn lent_samples() -> [i32; 512] {
    [LENT; 512]
}

fn kept(s: &[i32]) -> bool {
    s.iter().all(|z| *z == LENT)
}

pub(crate) fn all_kept(rt: &impl Print, s: &[i32]) -> io::Result<()> {
    flag(rt, kept(s))
}

pub(crate) fn lent_places() -> [i32; 64] {
    [LENT; 64]
}

pub(crate) fn places(rt: &impl Print, qfs: [i32; 64]) -> io::Result<()> {
    all(rt, &qfs)
}

pub(crate) fn places_kept(rt: &impl Print, qfs: [i32; 64]) -> io::Result<()> {
    flag(rt, kept(&qfs))
}

pub(crate) fn lent_block() -> [[i32; 8]; 8] {
    let row = [LENT; 8];
    [row; 8]
}

pub(crate) fn block(rt: &impl Print, b: [[i32; 8]; 8]) -> io::Result<()> {
    for row in &b {
        all(rt, row)?;
    }
    Ok(())
}

fn block_is_kept(b: [[i32; 8]; 8]) -> bool {
    b.iter().all(|row| kept(row))
}

pub(crate) fn block_kept(rt: &impl Print, b: [[i32; 8]; 8]) -> io::Result<()> {
    flag(rt, block_is_kept(b))
}

pub(crate) fn blocks_kept(rt: &impl Print, b: [[i32; 8]; 8], d: [[i32; 8]; 8]) -> io::Result<()> {
    flag(rt, block_is_kept(b) && block_is_kept(d))
}
