// What is read at a position of the data, and the position after it: the work of the reader's methods.
ghost use Rattle.std.specs.Prelude.{◌≡◌};
ghost use Rattle.bits.specs.Cursor.{remaining, skipped, read_bits, next_bits};
ghost use Rattle.bit_reader.specs.BitReader.{position_after, moved_to};

use bits::{BitReaderError, Cursor};

// What was read, and the position after it.
#[derive(Clone, Copy)]
pub struct ReadAt {
    pub answer: Result<u32, BitReaderError>,
    pub bit_pos: usize,
}

// Whether bits were skipped, and the position after them.
#[derive(Clone, Copy)]
pub struct SkippedAt {
    pub answer: Result<Cursor, BitReaderError>,
    pub bit_pos: usize,
}

// How many bits are left.
pub(crate) fn remaining_at(data: &[u8], at: usize) -> Result<usize, BitReaderError>
    ensures { result ≡ remaining «data».now at }
{
    let c = Cursor { bit_pos: at };
    c.remaining_bits(data)
}

// The next n bits as a number.
pub(crate) fn next_at(data: &[u8], at: usize, n: usize) -> Result<u32, BitReaderError>
    ensures { result ≡ next_bits «data».now at n }
{
    let c = Cursor { bit_pos: at };
    c.next_bits(data, n)
}

// The next n bits as a number, and the position after them.
pub(crate) fn read_at(data: &[u8], at: usize, n: usize) -> ReadAt
    ensures { (result.answer ≡ next_bits «data».now at n) × (result.bit_pos ≡ position_after (read_bits «data».now at n) at) }
{
    let c = Cursor { bit_pos: at };
    match c.read_bits(data, n) {
        Err(e) => ReadAt {
            answer: Err(e),
            bit_pos: at,
        },
        Ok((v, next)) => ReadAt {
            answer: Ok(v),
            bit_pos: next.bit_pos,
        },
    }
}

// Where a skip that began at a position ends.
fn moved_to(m: Result<Cursor, BitReaderError>, at: usize) -> usize
    ensures { result ≡ moved_to m at }
{
    match m {
        Err(_) => at,
        Ok(next) => next.bit_pos,
    }
}

// Past n bits, and the position after them.
pub(crate) fn skip_at(data: &[u8], at: usize, n: usize) -> SkippedAt
    ensures { (result.answer ≡ skipped «data».now at n) × (result.bit_pos ≡ moved_to (skipped «data».now at n) at) }
{
    let c = Cursor { bit_pos: at };
    let answer = c.skip_bits(data, n);
    SkippedAt {
        answer,
        bit_pos: moved_to(answer, at),
    }
}
