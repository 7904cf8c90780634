// Operations on eight f64s at once, and on four: sums, products, and whole numbers near to them.
//
// No function has a `requires`: each answers every input.
#![tactic(auto)]

ghost use Rattle.std.specs.Prelude.{◌≡◌, ℕ, Float, get_or};
ghost use Rattle.std.specs.Float.{nan, binary64};
ghost use Rattle.std.specs.Float.Ieee.{add, lt, mul, sub};
ghost use Rattle.numbers.specs.Every.{every};
ghost use Rattle.numbers.specs.Grid.{build};
ghost use Rattle.f64_error.specs.Series.{half};
ghost use Rattle.rounding.specs.Near.{near_f, square_f, well_within_square};
ghost use Rattle.eights.specs.Eights.{both_at, greater_f, row_in};

use rounding::SHIFT;

// ---- sums and products

// A row of whole numbers, as f64s.
pub fn row_in(row: [i32; 8]) -> [f64; 8]
    ensures { result ≡ row_in row }
{
    let mut input = [0.0f64; 8];
    for u in 0..8 {
        input[u] = row[u] as f64;
    }
    input
}

// Each value times k.
pub fn scaled(row: [f64; 8], k: f64) -> [f64; 8]
    ensures { result ≡ build 8 (λ (x : ℕ). mul binary64 k (get_or row x nan)) }
{
    let mut output = [0.0f64; 8];
    for x in 0..8 {
        output[x] = k * row[x];
    }
    output
}

// Half of each sum.
pub fn halves(sums: [f64; 8]) -> [f64; 8]
    ensures { result ≡ build 8 (λ (x : ℕ). mul binary64 half (get_or sums x nan)) }
{
    let mut output = [0.0f64; 8];
    for x in 0..8 {
        output[x] = 0.5 * sums[x];
    }
    output
}

// Each sum, and each difference.
pub fn plus(a: [f64; 8], b: [f64; 8]) -> [f64; 8]
    ensures { result ≡ build 8 (λ (x : ℕ). add binary64 (get_or a x nan) (get_or b x nan)) }
{
    let mut out = [0.0f64; 8];
    for x in 0..8 {
        out[x] = a[x] + b[x];
    }
    out
}

pub fn minus(a: [f64; 8], b: [f64; 8]) -> [f64; 8]
    ensures { result ≡ build 8 (λ (x : ℕ). sub binary64 (get_or a x nan) (get_or b x nan)) }
{
    let mut out = [0.0f64; 8];
    for x in 0..8 {
        out[x] = a[x] - b[x];
    }
    out
}

// A term added at each x: f times the cosine there.
pub fn add_term(sums: [f64; 8], f: f64, cosines: [f64; 8]) -> [f64; 8]
    ensures { result ≡ build 8 (λ (x : ℕ). add binary64 (get_or sums x nan) (mul binary64 f (get_or cosines x nan))) }
{
    let mut output = [0.0f64; 8];
    for x in 0..8 {
        output[x] = sums[x] + f * cosines[x];
    }
    output
}

// The same at each x below 4. A clause over arrays of any length would speak of them at two moments, so this one is written out.
pub fn four_terms(sums: [f64; 4], f: f64, cosines: [f64; 4]) -> [f64; 4]
    ensures { result ≡ build 4 (λ (x : ℕ). add binary64 (get_or sums x nan) (mul binary64 f (get_or cosines x nan))) }
{
    let mut out = [0.0f64; 4];
    for x in 0..4 {
        out[x] = sums[x] + f * cosines[x];
    }
    out
}

// The sums of both at x below 4, and their differences at 7 - x, times s.
pub fn both_terms(e: [f64; 4], o: [f64; 4], s: f64) -> [f64; 8]
    ensures { result ≡ build 8 (λ (x : ℕ). mul binary64 s (both_at (λ (i : ℕ). get_or e i nan) (λ (i : ℕ). get_or o i nan) x)) }
{
    let mut out = [0.0f64; 8];
    for x in 0..4 {
        out[x] = s * (e[x] + o[x]);
    }
    for x in 4..8 {
        out[x] = s * (e[7 - x] - o[7 - x]);
    }
    out
}

// Terms, each times k, added to the sums of a row.
pub fn add_row(sums: [f64; 8], terms: [f64; 8], k: f64) -> [f64; 8]
    ensures { result ≡ build 8 (λ (x : ℕ). add binary64 (get_or sums x nan) (mul binary64 (get_or terms x nan) k)) }
{
    let mut output = [0.0f64; 8];
    for x in 0..8 {
        output[x] = sums[x] + terms[x] * k;
    }
    output
}

// ---- near whole numbers

// Each sum, to the nearest whole number.
pub fn near_row(sums: [f64; 8]) -> [f64; 8]
    ensures { result ≡ build 8 (λ (x : ℕ). near_f (get_or sums x nan)) }
{
    let mut out = [0.0f64; 8];
    for x in 0..8 {
        out[x] = sums[x] + SHIFT - SHIFT;
    }
    out
}

// The greater.
fn greater(a: f64, b: f64) -> f64
    ensures { result ≡ greater_f a b }
{
    if a < b { b } else { a }
}

// The square of how far each sum was from its whole number, where that is more than the worst so far.
pub fn farther(worst: [f64; 8], sums: [f64; 8], near: [f64; 8]) -> [f64; 8]
    ensures { result ≡ build 8 (λ (x : ℕ). greater_f (get_or worst x nan) (square_f (sub binary64 (get_or sums x nan) (get_or near x nan)))) }
{
    let mut out = [0.0f64; 8];
    for x in 0..8 {
        let d = sums[x] - near[x];
        out[x] = greater(worst[x], d * d);
    }
    out
}

// 1/4 - 2^-24.
const WELL_WITHIN_SQUARE: f64 = 0.249_999_940_395_355_22;

// Whether each is well within the square of a half.
pub fn settled(worst: [f64; 8]) -> bool
    ensures { result ≡ every (λ (w : Float). lt w well_within_square) worst }
{
    let mut fine = true;
    for x in 0..8 {
        let within = worst[x] < WELL_WITHIN_SQUARE;
        fine = fine & within;
    }
    fine
}
