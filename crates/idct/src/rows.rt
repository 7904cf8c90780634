// A row of the transform: its terms in order, or by even and odd places; and its values as samples.
ghost use Rattle.std.specs.Prelude.{◌≡◌, ℕ, ◌<◌, get_or};
ghost use Rattle.std.specs.Float.{nan, binary64};
ghost use Rattle.std.specs.Float.Ieee.{mul, to_signed};
ghost use Rattle.numbers.specs.Every.{every};
ghost use Rattle.numbers.specs.Grid.{block, build};
ghost use Rattle.numbers.specs.Limit.{clamp_z};
ghost use Rattle.f64_error.specs.Series.{half};
ghost use Rattle.rounding.specs.Near.{Roundable};
ghost use Rattle.rounding.specs.Rounding.{whole_of};
ghost use Rattle.cosines.specs.Cosines.{cos_f, half_table};
ghost use Rattle.exact_transform.specs.EvenOdd.{half_sum, is_zero, paired_at};
ghost use Rattle.idct.specs.ShortWays.{Castable, dc_pass, idct1d, row_terms};

use cosines::c;
use eights::{add_term, both_terms, four_terms, halves, row_in, scaled};
use rounding::{HalfIntegerRounding, round_to_integer};

// Whether a row has zeros only.
pub(crate) fn zero_row(row: [i32; 8]) -> bool
    ensures { result ≡ every is_zero row }
{
    // no early end: no test waits for another
    let mut some: i32 = 0;
    for u in 0..8 {
        some = some | row[u];
    }
    some == 0
}

// ---- terms in order

// The 1-D transform: at x, half the sum over u of C(u) F(u) cos((2x + 1) u pi / 16). The terms are added
// from u = 0 up, at every x in one go, since C(u) F(u) serves every x. One that is zero
// changes no sum, and is left out.
fn idct_1d(input: [f64; 8], cos: &[[f64; 8]; 8]) -> [f64; 8]
    requires { cos.now ≡ block cos_f }
    ensures { result ≡ idct1d input }
{
    let mut sums = [0.0f64; 8];
    for u in 0..8 {
        let f = c(u) * input[u];
        if f != 0.0 {
            let cosines = cos[u];
            let more = add_term(sums, f, cosines);
            sums = more;
        }
    }
    halves(sums)
}

// Row v transformed, each value times C(v).
pub(crate) fn row_terms(row: [i32; 8], v: usize, cos: &[[f64; 8]; 8]) -> [f64; 8]
    requires { cos.now ≡ block cos_f }
    ensures { result ≡ row_terms row v }
{
    let input = row_in(row);
    let transformed = idct_1d(input, cos);
    scaled(transformed, c(v))
}

// The 1-D transform of `value` and seven zeros, at any x: the cosine is 1.0 at each.
pub(crate) fn dc_pass(value: f64) -> f64
    ensures { result ≡ dc_pass value }
{
    0.5 * (0.0 + c(0) * value * 1.0)
}

// ---- terms by even and odd places

// The sums of the terms of a row at u = 2k + p.
fn half_sums(row: &[i32; 8], p: usize, table: &[[f64; 4]; 8]) -> [f64; 4]
    requires { (table.now ≡ half_table) × (p < 2) }
    ensures { result ≡ build 4 (half_sum row.now p 4) }
{
    let mut sums = [0.0f64; 4];
    for k in 0..4 {
        let u = 2 * k + p;
        let f = c(u) * (row[u] as f64);
        let cosines = table[u];
        let more = four_terms(sums, f, cosines);
        sums = more;
    }
    sums
}

// Row v transformed by its even and its odd terms, each value times C(v) / 4: the factor of both passes,
// so that the second one has none.
pub(crate) fn paired_terms(row: &[i32; 8], v: usize, table: &[[f64; 4]; 8], terms: &mut [f64; 8])
    requires { table.now ≡ half_table }
    ensures { terms.new ≡ build 8 (paired_at row.now v) }
{
    let e = half_sums(row, 0, table);
    let o = half_sums(row, 1, table);
    *terms = both_terms(e, o, 0.25 * c(v));
}

// ---- samples

// Whole numbers brought into lo..=hi.
pub(crate) fn clipped_row(near: [f64; 8], lo: i32, hi: i32) -> [i32; 8]
    requires { (x : ℕ) → x < 8 → Castable (get_or near x nan) }
    ensures { result ≡ build 8 (λ (x : ℕ). clamp_z (to_signed 31 (get_or near x nan)) lo hi) }
{
    let mut out = [0i32; 8];
    for x in 0..8 {
        let n = near[x] as i32;
        // not `i32::clamp`, which asks that `lo` be at most `hi`
        out[x] = numbers::clamp(n, lo, hi);
    }
    out
}

// A value rounded by the rule, which never refuses it, and brought into lo..=hi.
pub(crate) fn ruled_sample(value: f64, lo: i32, hi: i32, rounding: HalfIntegerRounding) -> i32
    requires { Roundable value }
    ensures { result ≡ clamp_z (whole_of rounding value) lo hi }
{
    let rounded = round_to_integer(value, rounding);
    match rounded {
        None => lo,
        Some(n) => numbers::clamp(n, lo, hi),
    }
}

// Each sum of a row halved, rounded by the rule and brought into lo..=hi.
pub(crate) fn ruled_row(sums: [f64; 8], lo: i32, hi: i32, rounding: HalfIntegerRounding) -> [i32; 8]
    requires { (x : ℕ) → x < 8 → Roundable (mul binary64 half (get_or sums x nan)) }
    ensures { result ≡ build 8 (λ (x : ℕ). clamp_z (whole_of rounding (mul binary64 half (get_or sums x nan))) lo hi) }
{
    let mut out = [0i32; 8];
    for x in 0..8 {
        let value = 0.5 * sums[x];
        out[x] = ruled_sample(value, lo, hi, rounding);
    }
    out
}
