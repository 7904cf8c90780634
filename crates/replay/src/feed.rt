// Bytes of a line into its numbers.
use picture::Picture;

// Between two bytes: the open picture, the numbers of the line so far, the one that is being read, and whether the input ended.
#[derive(Clone, Copy)]
pub(crate) struct Reading {
    pub picture: Picture,
    pub n: usize,
    pub magnitude: u64,
    pub negative: bool,
    pub ended: bool,
}

// Before a line.
pub(crate) fn start(picture: Picture) -> Reading {
    Reading {
        picture,
        n: 0,
        magnitude: 0,
        negative: false,
        ended: false,
    }
}

// After the last byte.
pub(crate) fn end(r: Reading) -> Reading {
    Reading { ended: true, ..r }
}

// With a digit more; a magnitude that needs more than 31 bits stays.
fn with_digit(magnitude: u64, b: u8) -> u64 {
    if magnitude > 214748364 || b < b'0' {
        return magnitude;
    }
    magnitude * 10 + u64::from(b - b'0')
}

fn signed(magnitude: u64, negative: bool) -> i32 {
    if magnitude > 2147483647 {
        return if negative { i32::MIN } else { i32::MAX };
    }
    let z = magnitude as i32;
    if negative { 0 - z } else { z }
}

// A number more, if there is room.
fn put(line: &mut [i32], n: usize, z: i32) -> usize {
    if n < line.len() {
        line[n] = z;
        return n + 1;
    }
    n
}

pub(crate) fn feed(r: Reading, b: u8, line: &mut [i32]) -> Reading {
    let mut next = r;
    if b == b'-' {
        next.negative = true;
        return next;
    }
    if b != b' ' && b != b'\n' {
        next.magnitude = with_digit(r.magnitude, b);
        return next;
    }
    next.n = put(line, r.n, signed(r.magnitude, r.negative));
    next.magnitude = 0;
    next.negative = false;
    next
}
