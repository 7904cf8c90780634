// The cursor: a bit position by value. Its methods take the data beside it and hand back the moved
// cursor with what was read; a refusal hands back nothing, so the caller's position stays.
ghost use Rattle.std.specs.Prelude.{◌≡◌, ◌+◌, ◌*◌, ◌/◌, ◌%◌, ◌<◌, ◌≤◌, eqb, length, take};
ghost use Rattle.bits.specs.Bits.{val, bits_from};
ghost use Rattle.bits.specs.Outcomes.{align_due, bits_outcome, bool_due, bool_outcome, count_outcome, moved_outcome, peek_due, peeked_outcome, read_due, remaining_due, skip_due, window_due, window_outcome};
ghost use Rattle.bits.specs.Cursor.{in_data, remaining, skipped, aligned, read_bits, read_bool, next_bits, next_window};

use crate::error::BitReaderError;

// A bit position, counted from the first bit of the data.
#[derive(Clone, Copy)]
pub struct Cursor {
    pub bit_pos: usize,
}

// The number that `count` bytes from `first` on write.
pub(crate) fn gather(data: &[u8], first: usize, count: usize) -> u64
    requires { (count ≤ 8) × (first + count ≤ length «data».now) }
    ensures { result ≡ val (take (8 * count) (bits_from «data».now (8 * first))) }
{
    let mut v = 0;
    for &b in &data[first..first + count] {
        v = v * 256 + u64::from(b);
    }
    v
}

// The next n bits as a number, cut out of `count` bytes that hold them.
fn cut(data: &[u8], at: usize, n: usize, count: usize) -> u32
    requires { (0 < n) × (n ≤ 32) × (at % 8 + n ≤ 8 * count) × (count ≤ 8) × (at / 8 + count ≤ length «data».now) }
    ensures { result ≡ val (take n (bits_from «data».now at)) }
{
    let under = 8 * count - (at % 8 + n);
    let v = gather(data, at / 8, count);
    ((v >> under as u32) % (1u64 << n as u32)) as u32
}

// The next n bits as a number, first bit highest. Eight bytes are read where so many are left, which
// compiles to one load; at the end of the data only those that hold the bits.
fn peek(data: &[u8], at: usize, n: usize) -> u32
    requires { (n ≤ 32) × (at + n ≤ 8 * length «data».now) × (length «data».now ≤ 1048576) }
    ensures { result ≡ val (take n (bits_from «data».now at)) }
{
    if n == 0 {
        return 0;
    }
    if at / 8 + 8 <= data.len() {
        return cut(data, at, n, 8);
    }
    cut(data, at, n, (at % 8 + n + 7) / 8)
}

// Whether data of a length may be read from a position on.
fn in_data(len: usize, at: usize) -> bool
    ensures { result ≡ in_data len at }
{
    len <= Cursor::MOST_BYTES && at <= 8 * len
}

impl Cursor {
    pub const MOST_BYTES: usize = 1048576;

    pub const MOST_BITS: usize = 32;

    // At the first bit.
    pub fn new() -> Self
        ensures { result.bit_pos ≡ 0 }
    {
        Cursor { bit_pos: 0 }
    }

    // The position.
    pub fn bit_position(self) -> usize
        ensures { result ≡ self.bit_pos }
    {
        self.bit_pos
    }

    // Whether the position is that of a byte's first bit.
    pub fn is_byte_aligned(self) -> bool
        ensures { result ≡ eqb (self.bit_pos % 8) 0 }
    {
        self.bit_pos % 8 == 0
    }

    // How many bits are left.
    pub fn remaining_bits(self, data: &[u8]) -> Result<usize, BitReaderError>
        ensures value { result ≡ remaining «data».now self.bit_pos }
        ensures outcome { count_outcome result ≡ remaining_due «data».now self.bit_pos }
    {
        let at = self.bit_pos;
        if !in_data(data.len(), at) {
            return Err(BitReaderError::OutOfRange);
        }
        Ok(8 * data.len() - at)
    }

    // Past n bits.
    pub fn skip_bits(self, data: &[u8], n: usize) -> Result<Cursor, BitReaderError>
        ensures value { result ≡ skipped «data».now self.bit_pos n }
        ensures outcome { moved_outcome result ≡ skip_due «data».now self.bit_pos n }
    {
        let at = self.bit_pos;
        if !in_data(data.len(), at) {
            return Err(BitReaderError::OutOfRange);
        }
        if 8 * data.len() - at < n {
            return Err(BitReaderError::EndOfStream);
        }
        Ok(Cursor { bit_pos: at + n })
    }

    // To the next first bit of a byte, or where it is if it stands at one.
    pub fn align_to_byte(self, data: &[u8]) -> Result<Cursor, BitReaderError>
        ensures value { result ≡ aligned «data».now self.bit_pos }
        ensures outcome { moved_outcome result ≡ align_due «data».now self.bit_pos }
    {
        let at = self.bit_pos;
        if !in_data(data.len(), at) {
            return Err(BitReaderError::OutOfRange);
        }
        Ok(Cursor {
            bit_pos: (at + 7) / 8 * 8,
        })
    }

    // The next n bits as a number, first bit highest, and the cursor after them.
    pub fn read_bits(self, data: &[u8], n: usize) -> Result<(u32, Cursor), BitReaderError>
        ensures value { result ≡ read_bits «data».now self.bit_pos n }
        ensures outcome { bits_outcome result ≡ read_due «data».now self.bit_pos n }
    {
        let at = self.bit_pos;
        if !in_data(data.len(), at) {
            return Err(BitReaderError::OutOfRange);
        }
        if Cursor::MOST_BITS < n {
            return Err(BitReaderError::OutOfRange);
        }
        if 8 * data.len() - at < n {
            return Err(BitReaderError::EndOfStream);
        }
        Ok((peek(data, at, n), Cursor { bit_pos: at + n }))
    }

    // The next bit, and the cursor after it.
    pub fn read_bool(self, data: &[u8]) -> Result<(bool, Cursor), BitReaderError>
        ensures value { result ≡ read_bool «data».now self.bit_pos }
        ensures outcome { bool_outcome result ≡ bool_due «data».now self.bit_pos }
    {
        let (v, next) = self.read_bits(data, 1)?;
        Ok((v == 1, next))
    }

    // The next n bits as a number, first bit highest; the cursor stays.
    pub fn next_bits(self, data: &[u8], n: usize) -> Result<u32, BitReaderError>
        ensures value { result ≡ next_bits «data».now self.bit_pos n }
        ensures outcome { peeked_outcome result ≡ peek_due «data».now self.bit_pos n }
    {
        let (v, _) = self.read_bits(data, n)?;
        Ok(v)
    }

    // The next `most` bits, or fewer if fewer remain, as a number, and how many they are.
    pub fn next_window(self, data: &[u8], most: usize) -> Result<(u32, u32), BitReaderError>
        ensures value { result ≡ next_window «data».now self.bit_pos most }
        ensures outcome { window_outcome result ≡ window_due «data».now self.bit_pos most }
    {
        let at = self.bit_pos;
        if !in_data(data.len(), at) {
            return Err(BitReaderError::OutOfRange);
        }
        if Cursor::MOST_BITS < most {
            return Err(BitReaderError::OutOfRange);
        }
        let left = 8 * data.len() - at;
        if left == 0 {
            return Err(BitReaderError::EndOfStream);
        }
        let n = most.min(left);
        Ok((peek(data, at, n), n as u32))
    }
}
