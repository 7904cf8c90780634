// The search for a code in a window of bits, one for every table, and for one that the window ends in.
ghost use Rattle.std.specs.Prelude.{◌≡◌, ◌-◌, ◌≤◌, min, length};
ghost use Rattle.codes.specs.Table.{Found, cut, cut_in, hit, hit_at, seek};

// Whether a code of `len` bits stands at the front of a window of n bits.
fn hits(window: u32, n: u32, code: u32, len: u32) -> bool
    ensures { result ≡ hit window n code len }
{
    len <= n && window.checked_shr(n - len).unwrap_or(0) == code
}

// The first row of `from..to` whose code begins a window of n bits; `to` where none does.
fn search(codes: &[u32], lens: &[u32], from: usize, to: usize, window: u32, n: u32) -> usize
    requires { (from ≤ to) × (to ≤ length codes.now) × (to ≤ length lens.now) }
    ensures { result ≡ seek (hit_at codes.now lens.now window n) (to - from) from }
{
    for i in from..to {
        if hits(window, n, codes[i], lens[i]) {
            return i;
        }
    }
    to
}

// For each seven bits a row of Tables B.16 and B.17 that agrees with them.
const TCOEF_HINTS: [u8; 128] = [
    5, 30, 22, 102, 14, 43, 3, 92, 46, 10, 35, 31, 27, 25, 38, 8, 23, 21, 19, 17, 86, 84, 80, 6,
    15, 15, 13, 13, 11, 11, 7, 7, 76, 76, 72, 72, 68, 68, 62, 62, 26, 26, 4, 4, 56, 56, 56, 56, 50,
    50, 50, 50, 44, 44, 44, 44, 1, 1, 1, 1, 1, 1, 1, 1, 0, 0, 0, 0, 0, 0, 0, 0, 0, 0, 0, 0, 0, 0,
    0, 0, 0, 0, 0, 0, 0, 0, 0, 0, 0, 0, 0, 0, 0, 0, 0, 0, 24, 24, 24, 24, 24, 24, 24, 24, 24, 24,
    24, 24, 24, 24, 24, 24, 36, 36, 36, 36, 36, 36, 36, 36, 2, 2, 2, 2, 2, 2, 2, 2,
];

// The same for Table B.23.
const RVLC_HINTS: [u8; 128] = [
    0, 0, 0, 0, 169, 169, 169, 169, 2, 2, 2, 2, 2, 2, 2, 2, 5, 5, 5, 5, 6, 6, 6, 6, 11, 11, 12, 12,
    19, 20, 29, 41, 7, 7, 7, 7, 8, 8, 8, 8, 13, 13, 14, 14, 21, 22, 31, 43, 15, 15, 16, 16, 23, 24,
    33, 45, 25, 26, 35, 47, 37, 49, 51, 67, 53, 39, 27, 28, 17, 17, 18, 18, 9, 9, 9, 9, 10, 10, 10,
    10, 3, 3, 3, 3, 3, 3, 3, 3, 4, 4, 4, 4, 4, 4, 4, 4, 0, 0, 0, 0, 0, 0, 0, 0, 0, 0, 0, 0, 0, 0,
    0, 0, 1, 1, 1, 1, 1, 1, 1, 1, 1, 1, 1, 1, 1, 1, 1, 1,
];

fn hint_at(hints: &[u8], first: usize) -> usize {
    usize::from(hints.get(first).copied().unwrap_or(0))
}

// A row to begin with, by the first seven bits of a window. Which row it is changes no answer.
fn hint(rows: usize, window: u32, n: u32) -> usize {
    if !(7..=32).contains(&n) {
        return 0;
    }
    let first = ((window >> (n - 7)) % 128) as usize;
    match rows {
        0..=101 => 0,
        102..=103 => hint_at(&TCOEF_HINTS, first),
        _ => hint_at(&RVLC_HINTS, first),
    }
}

// A row, of the first `rows` of a table, whose code begins a window of n bits; that many where none
// does. A table lent shorter than that has as many rows as both its lists.
pub fn find_row(codes: &[u32], lens: &[u32], rows: usize, window: u32, n: u32) -> usize
    ensures { Found codes.now lens.now (min rows (min (length codes.now) (length lens.now))) window n result }
{
    let most = rows.min(codes.len().min(lens.len()));
    let from = hint(rows, window, n).min(most);
    let row = search(codes, lens, from, most, window, n);
    if row < most {
        return row;
    }
    search(codes, lens, 0, most, window, n)
}

// Whether a window of n bits begins a code of `len` bits that has more.
fn ends_in(window: u32, n: u32, code: u32, len: u32) -> bool
    ensures { result ≡ cut window n code len }
{
    n < len && window == code.checked_shr(len - n).unwrap_or(0)
}

// Whether a window of n bits, in which no code is found, ends inside one of the first `rows` of a table.
pub fn ends_inside(codes: &[u32], lens: &[u32], rows: usize, window: u32, n: u32) -> bool
    ensures { result ≡ cut_in codes.now lens.now (min rows (min (length codes.now) (length lens.now))) window n }
{
    let to = rows.min(codes.len().min(lens.len()));
    for i in 0..to {
        if ends_in(window, n, codes[i], lens[i]) {
            return true;
        }
    }
    false
}
