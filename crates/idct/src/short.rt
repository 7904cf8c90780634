// The samples lo..=hi of a block: both passes add the terms of even and of odd places apart, since a
// place and its mirror 7 - x have the same cosines but for the sign of the odd ones. Each value goes to
// the nearest whole number, and one test for the block tells whether the rule is to be asked.
ghost use Rattle.std.specs.Prelude.{cond, true, ◌≡◌, ℕ, ◌+◌, ◌≤◌, ◌<◌, pos, get_or, length};
ghost use Rattle.numbers.specs.Every.{every};
ghost use Rattle.numbers.specs.Grid.{block, build};
ghost use Rattle.numbers.specs.Limit.{clamp_z};
ghost use Rattle.ranges.specs.Range.{within};
ghost use Rattle.rounding.specs.Near.{Roundable, Sure, near_z};
ghost use Rattle.rounding.specs.Rounding.{whole_of};
ghost use Rattle.cosines.specs.Cosines.{cos_f, half_table};
ghost use Rattle.exact_transform.specs.EvenOdd.{sum_of_kept, value_of_both};
ghost use Rattle.exact_transform.specs.Exact.{Modest};
ghost use Rattle.idct.specs.ShortWays.{Kept, ToldHalf, half_of_kept, samples_in};

use crate::limits::row_within;
use crate::rows::{clipped_row, paired_terms, row_terms, ruled_row, zero_row};
use cosines::cos_table;
use eights::{add_row, farther, minus, near_row, plus, settled};
use rounding::HalfIntegerRounding;

// ---- by even and odd halves

// The first pass over the even rows: the terms of those that are kept, by their even and odd terms, and
// which rows they are. A value outside least..=most ends it.
fn even_rows(
    f: &[[i32; 8]; 8],
    table: &[[f64; 4]; 8],
    least: i32,
    most: i32,
    terms: &mut [[f64; 8]; 4],
    which: &mut [usize; 4],
) -> Option<usize>
    requires { (table.now ≡ half_table) × (length f.now ≡ 8) × (length terms.old ≡ 4) × (length which.old ≡ 4) × (within least most (pos 0) ≡ true) }
    ensures { ToldHalf 0 f.now least most terms.new which.new result }
{
    let mut n: usize = 0;
    for k in 0..4 {
        let v = 2 * k;
        let row = f[v];
        if !zero_row(row) {
            if !row_within(row, least, most) {
                return None;
            }
            paired_terms(&f[v], v, table, &mut terms[n]);
            which[n] = v;
            n += 1;
        }
    }
    Some(n)
}

// The same for the odd rows: one function for both would not be unrolled.
fn odd_rows(
    f: &[[i32; 8]; 8],
    table: &[[f64; 4]; 8],
    least: i32,
    most: i32,
    terms: &mut [[f64; 8]; 4],
    which: &mut [usize; 4],
) -> Option<usize>
    requires { (table.now ≡ half_table) × (length f.now ≡ 8) × (length terms.old ≡ 4) × (length which.old ≡ 4) × (within least most (pos 0) ≡ true) }
    ensures { ToldHalf 1 f.now least most terms.new which.new result }
{
    let mut n: usize = 0;
    for k in 0..4 {
        let v = 2 * k + 1;
        let row = f[v];
        if !zero_row(row) {
            if !row_within(row, least, most) {
                return None;
            }
            paired_terms(&f[v], v, table, &mut terms[n]);
            which[n] = v;
            n += 1;
        }
    }
    Some(n)
}

// The sums of the second pass at y, over the rows that are kept of a half.
fn sums_of(
    terms: &[[f64; 8]; 4],
    which: &[usize; 4],
    n: usize,
    table: &[[f64; 4]; 8],
    y: usize,
) -> [f64; 8]
    requires { (table.now ≡ half_table) × (n ≤ 4) × (y < 4) × ((j : ℕ) → j < n → get_or which.now j 0 < 8) }
    ensures { result ≡ build 8 (sum_of_kept terms.now which.now n y) }
{
    let mut sums = [0.0f64; 8];
    for j in 0..n {
        let t = terms[j];
        let v = which[j];
        let added = add_row(sums, t, table[v][y]);
        sums = added;
    }
    sums
}

// That a block has eight rows: behind a reference only a slice of it tells. It leaves no machine code.
fn eight_rows(rows: &[[i32; 8]; 8])
    ensures { length rows.now ≡ 8 }
{
    let _all: &[[i32; 8]] = rows;
}

// The samples by the nearest whole numbers, and whether these are the rule's. Every row of `out` is
// written, two a turn: row y from the sum of both halves, row 7 - y from the difference.
fn near_samples(
    evens: &[[f64; 8]; 4],
    even: &[usize; 4],
    m: usize,
    odds: &[[f64; 8]; 4],
    odd: &[usize; 4],
    n: usize,
    table: &[[f64; 4]; 8],
    lo: i32,
    hi: i32,
    out: &mut [[i32; 8]; 8],
) -> bool
    requires { (table.now ≡ half_table) × (m ≤ 4) × (n ≤ 4) × ((j : ℕ) → j < m → get_or even.now j 0 < 8) × ((j : ℕ) → j < n → get_or odd.now j 0 < 8) × ((y x : ℕ) → y < 8 → x < 8 → Roundable (value_of_both evens.now even.now m odds.now odd.now n y x)) }
    ensures out_after { out.new ≡ block (λ (y x : ℕ). clamp_z (near_z (value_of_both evens.now even.now m odds.now odd.now n y x)) lo hi) }
    ensures sure { result ≡ true → (y x : ℕ) → y < 8 → x < 8 → Sure (value_of_both evens.now even.now m odds.now odd.now n y x) }
{
    eight_rows(out);
    let mut worst = [0.0f64; 8];
    for y in 0..4 {
        let e = sums_of(evens, even, m, table, y);
        let o = sums_of(odds, odd, n, table, y);
        let sums = plus(e, o);
        let near = near_row(sums);
        let far = farther(worst, sums, near);
        out[y] = clipped_row(near, lo, hi);
        let more = minus(e, o);
        let next = near_row(more);
        worst = farther(far, more, next);
        out[7 - y] = clipped_row(next, lo, hi);
    }
    settled(worst)
}

// ---- by the rule

// The first pass: the terms of the rows that are kept, which rows they are, and how many.
fn kept_rows(
    f: &[[i32; 8]; 8],
    table: &[[f64; 8]; 8],
    terms: &mut [[f64; 8]; 8],
    which: &mut [usize; 8],
) -> usize
    requires { (table.now ≡ block cos_f) × (length f.now ≡ 8) × (length terms.old ≡ 8) × (length which.old ≡ 8) }
    ensures { Kept f.now 8 terms.new which.new result }
{
    let mut n: usize = 0;
    for v in 0..8 {
        let row = f[v];
        if !zero_row(row) {
            let more = row_terms(row, v, table);
            terms[n] = more;
            which[n] = v;
            n += 1;
        }
    }
    n
}

// The sums of a row, and of the next one.
#[derive(Clone, Copy)]
struct TwoRows {
    sums: [f64; 8],
    more: [f64; 8],
}

// The second pass at y and y + 1, over the rows that are kept.
fn two_rows(
    terms: &[[f64; 8]; 8],
    which: &[usize; 8],
    n: usize,
    table: &[[f64; 8]; 8],
    y: usize,
) -> TwoRows
    requires { (table.now ≡ block cos_f) × (n ≤ 8) × (y + 1 < 8) × ((j : ℕ) → j < n → get_or which.now j 0 < 8) }
    ensures { (result.sums ≡ build 8 (sum_of_kept terms.now which.now n y)) × (result.more ≡ build 8 (sum_of_kept terms.now which.now n (y + 1))) }
{
    let mut sums = [0.0f64; 8];
    let mut more = [0.0f64; 8];
    for j in 0..n {
        let t = terms[j];
        let v = which[j];
        let first = add_row(sums, t, table[v][y]);
        sums = first;
        let second = add_row(more, t, table[v][y + 1]);
        more = second;
    }
    TwoRows { sums, more }
}

// The samples by the rule.
fn ruled(
    terms: &[[f64; 8]; 8],
    which: &[usize; 8],
    n: usize,
    table: &[[f64; 8]; 8],
    lo: i32,
    hi: i32,
    rounding: HalfIntegerRounding,
    out: &mut [[i32; 8]; 8],
)
    requires { (table.now ≡ block cos_f) × (n ≤ 8) × ((j : ℕ) → j < n → get_or which.now j 0 < 8) × ((y x : ℕ) → y < 8 → x < 8 → Roundable (half_of_kept terms.now which.now n y x)) }
    ensures { out.new ≡ block (λ (y x : ℕ). clamp_z (whole_of rounding (half_of_kept terms.now which.now n y x)) lo hi) }
{
    eight_rows(out);
    for p in 0..4 {
        let y = 2 * p;
        let pair = two_rows(terms, which, n, table, y);
        let sums = pair.sums;
        out[y] = ruled_row(sums, lo, hi, rounding);
        let more = pair.more;
        out[y + 1] = ruled_row(more, lo, hi, rounding);
    }
}

// Both passes of `f` by the rule, one row after another.
fn slow(f: &[[i32; 8]; 8], lo: i32, hi: i32, rounding: HalfIntegerRounding, out: &mut [[i32; 8]; 8])
    requires { (length f.now ≡ 8) × Modest f.now }
    ensures { out.new ≡ samples_in rounding lo hi f.now }
{
    let table = cos_table();
    let mut terms = [[0.0f64; 8]; 8];
    let mut which = [0usize; 8];
    let n = kept_rows(f, &table, &mut terms, &mut which);
    ruled(&terms, &which, n, &table, lo, hi, rounding, out);
}

// ---- both

// Both passes of `f`, whose samples go into `out`; or false where a value is outside least..=most.
pub(crate) fn transform(
    f: &[[i32; 8]; 8],
    table: &[[f64; 4]; 8],
    lo: i32,
    hi: i32,
    rounding: HalfIntegerRounding,
    least: i32,
    most: i32,
    out: &mut [[i32; 8]; 8],
) -> bool
    requires { (table.now ≡ half_table) × (length f.now ≡ 8) × (within least most (pos 0) ≡ true) × (every (every (within least most)) f.now ≡ true → Modest f.now) }
    ensures { (result ≡ every (every (within least most)) f.now) × (out.new ≡ cond result (samples_in rounding lo hi f.now) out.old) }
{
    let mut evens = [[0.0f64; 8]; 4];
    let mut even = [0usize; 4];
    let Some(m) = even_rows(f, table, least, most, &mut evens, &mut even) else {
        return false;
    };
    let mut odds = [[0.0f64; 8]; 4];
    let mut odd = [0usize; 4];
    let Some(n) = odd_rows(f, table, least, most, &mut odds, &mut odd) else {
        return false;
    };
    if !near_samples(&evens, &even, m, &odds, &odd, n, table, lo, hi, out) {
        slow(f, lo, hi, rounding, out);
    }
    true
}
