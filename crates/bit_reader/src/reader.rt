// The reader: bytes that are lent to it and the position of the next bit, taken apart by each method
// for a function over a plain slice.
ghost use Rattle.std.specs.Prelude.{◌≡◌};
ghost use Rattle.bits.specs.Cursor.{next_bits, read_bits, remaining, skipped};
ghost use Rattle.bits.specs.Outcomes.{count_outcome, moved_outcome, peek_due, peeked_outcome, remaining_due, skip_due};
ghost use Rattle.bit_reader.specs.BitReader.{position_after, moved_to};

use crate::place::{next_at, read_at, remaining_at, skip_at};
use bits::{BitReaderError, Cursor};

// The bytes, and a bit position counted from their first bit.
#[derive(Clone, Copy)]
pub struct BitReader<'a> {
    pub data: &'a [u8],
    pub bit_pos: usize,
}

impl<'a> BitReader<'a> {
    // At the first bit.
    pub fn new(data: &'a [u8]) -> BitReader<'a>
        ensures { (result.«data» ≡ «data».entry) × (result.bit_pos ≡ 0) }
    {
        BitReader { data, bit_pos: 0 }
    }

    // The position.
    pub fn bit_position(self) -> usize
        ensures { result ≡ self.entry.bit_pos }
    {
        self.bit_pos
    }

    // How many bits are left.
    pub fn remaining_bits(self) -> Result<usize, BitReaderError>
        ensures { (result ≡ remaining self.entry.«data».now self.entry.bit_pos) × (count_outcome result ≡ remaining_due self.entry.«data».now self.entry.bit_pos) }
    {
        remaining_at(self.data, self.bit_pos)
    }

    // The next n bits as a number, first bit highest; the position moves past them.
    pub fn read_bits(&mut self, n: usize) -> Result<u32, BitReaderError>
        ensures value { (result ≡ next_bits self.old.«data».now self.old.bit_pos n) × (peeked_outcome result ≡ peek_due self.old.«data».now self.old.bit_pos n) }
        ensures bytes { self.new.«data» ≡ self.old.«data» }
        ensures position { self.new.bit_pos ≡ position_after (read_bits self.old.«data».now self.old.bit_pos n) self.old.bit_pos }
    {
        let got = read_at(self.data, self.bit_pos, n);
        self.bit_pos = got.bit_pos;
        got.answer
    }

    // The next n bits as a number, first bit highest; the position stays.
    pub fn next_bits(self, n: usize) -> Result<u32, BitReaderError>
        ensures { (result ≡ next_bits self.entry.«data».now self.entry.bit_pos n) × (peeked_outcome result ≡ peek_due self.entry.«data».now self.entry.bit_pos n) }
    {
        next_at(self.data, self.bit_pos, n)
    }

    // Past n bits.
    pub fn skip_bits(&mut self, n: usize) -> Result<Cursor, BitReaderError>
        ensures value { (result ≡ skipped self.old.«data».now self.old.bit_pos n) × (moved_outcome result ≡ skip_due self.old.«data».now self.old.bit_pos n) }
        ensures bytes { self.new.«data» ≡ self.old.«data» }
        ensures position { self.new.bit_pos ≡ moved_to (skipped self.old.«data».now self.old.bit_pos n) self.old.bit_pos }
    {
        let got = skip_at(self.data, self.bit_pos, n);
        self.bit_pos = got.bit_pos;
        got.answer
    }
}
