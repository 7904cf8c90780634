// How the six blocks of a macroblock lie in its 384 samples (IntraMacroblock of block.rs): luma 16 wide, blocks 0 and 1 above 2 and 3; Cb; Cr.
#![tactic(auto)]

ghost use Rattle.std.specs.Prelude.{cond, ◌≡◌, ◌≤◌, ◌<◌, ◌+◌, ◌*◌, ltb, length};
ghost use Rattle.samples.specs.Samples.{block_after, block_due, block_outcome, block_written, macroblock_samples, mb_samples, place_of, samples_after, written, written_by, written_due, written_outcome};

// The samples of a macroblock: 256 of luma, 64 of Cb and 64 of Cr.
pub const SAMPLES: usize = 384;

// The eight rows of a block, `row_length` apart, from the start of `part`.
fn write_block(part: &mut [i32], row_length: usize, block: [[i32; 8]; 8])
    requires { (8 ≤ row_length) × (row_length ≤ 16) × (row_length * 7 + 8 ≤ length part.old) }
    ensures { part.new ≡ written part.old row_length block }
{
    for y in 0..8 {
        for x in 0..8 {
            part[y * row_length + x] = block[y][x];
        }
    }
}

// The six blocks, each into its part.
fn write_all(samples: &mut [i32], blocks: [[[i32; 8]; 8]; 6])
    requires { length samples.old ≡ macroblock_samples }
    ensures { samples.new ≡ mb_samples blocks }
{
    write_block(&mut samples[0..256], 16, blocks[0]);
    write_block(&mut samples[8..256], 16, blocks[1]);
    write_block(&mut samples[128..256], 16, blocks[2]);
    write_block(&mut samples[136..256], 16, blocks[3]);
    write_block(&mut samples[256..320], 8, blocks[4]);
    write_block(&mut samples[320..SAMPLES], 8, blocks[5]);
}

// Why samples are not written.
#[derive(Clone, Copy, Debug, PartialEq, Eq)]
pub enum SamplesError {
    // 11: a block above 5
    OutOfRange,
    // 14: fewer than 384 samples are lent
    TooShort,
}

// The first 384 samples, where there are as many; otherwise nothing is written.
pub fn write_macroblock(samples: &mut [i32], blocks: [[[i32; 8]; 8]; 6]) -> Result<(), SamplesError>
    ensures value { (result ≡ written_by samples.old) × (samples.new ≡ samples_after blocks samples.old) }
    ensures outcome { written_outcome result ≡ written_due samples.old }
{
    if samples.len() < SAMPLES {
        return Err(SamplesError::TooShort);
    }
    write_all(&mut samples[0..SAMPLES], blocks);
    Ok(())
}

// Where block i of six begins.
fn begin_of(i: usize) -> usize
    requires { i < 6 }
    ensures { result ≡ place_of i 0 0 }
{
    match i {
        0 => 0,
        1 => 8,
        2 => 128,
        3 => 136,
        4 => 256,
        _ => 320,
    }
}

// How far apart its rows are.
fn row_length(i: usize) -> usize
    ensures { result ≡ cond (ltb i 4) 16 8 }
{
    if i < 4 {
        return 16;
    }
    8
}

// Block i into its part of the first 384 samples, where there are as many; otherwise nothing is written.
pub fn write_one(samples: &mut [i32], i: usize, block: [[i32; 8]; 8]) -> Result<(), SamplesError>
    ensures value { (result ≡ block_written i samples.old) × (samples.new ≡ block_after i block samples.old) }
    ensures outcome { block_outcome result ≡ block_due i samples.old }
{
    if 6 <= i {
        return Err(SamplesError::OutOfRange);
    }
    if samples.len() < SAMPLES {
        return Err(SamplesError::TooShort);
    }
    let begin = begin_of(i);
    write_block(&mut samples[begin..SAMPLES], row_length(i), block);
    Ok(())
}
