// The numbers of a line, as the calls take them.
ghost use Rattle.std.specs.Prelude.{◌≡◌, ◌≤◌, length, take};

use std::array;

// Number k from `base` on; 0 where it is missing.
pub(crate) fn number(line: &[i32], base: usize, k: usize) -> i32 {
    if base >= line.len() || k >= line.len() - base {
        return 0;
    }
    line[base + k]
}

pub(crate) fn flag(line: &[i32], base: usize, k: usize) -> bool {
    number(line, base, k) != 0
}

pub(crate) fn unsigned(line: &[i32], base: usize, k: usize) -> u32 {
    number(line, base, k).unsigned_abs()
}

pub(crate) fn size(line: &[i32], base: usize, k: usize) -> usize {
    unsigned(line, base, k) as usize
}

pub(crate) fn byte(line: &[i32], base: usize, k: usize) -> u8 {
    (unsigned(line, base, k) % 256) as u8
}

// So many numbers on; a line is shorter than a million.
pub(crate) fn later(base: usize, by: usize) -> usize {
    if base > 1000000 || by > 1000000 {
        return base;
    }
    base + by
}

pub(crate) fn eight(line: &[i32], base: usize) -> [i32; 8] {
    array::from_fn(|k| number(line, base, k))
}

pub(crate) fn eight_bytes(line: &[i32], base: usize) -> [u8; 8] {
    array::from_fn(|k| byte(line, base, k))
}

// Room for the data of a line.
pub(crate) fn space() -> [u8; 4096]
    ensures { 4096 ≡ length result }
{
    [0; 4096]
}

// The numbers from `from` on as bytes, and how many they are.
pub(crate) fn data_of(line: &[i32], from: usize, data: &mut [u8]) -> usize
    ensures { (result ≤ length «data».new) × (result ≡ length (take result «data».new)) }
{
    let n = line.len().saturating_sub(from).min(data.len());
    for k in 0..n {
        data[k] = byte(line, from, k);
    }
    n
}

// At most as many as there are, for a part of them.
pub(crate) fn within(n: usize, s: &[i32]) -> usize
    ensures { (result ≤ length s.now) × (result ≡ length (take result s.now)) }
{
    n.min(s.len())
}
