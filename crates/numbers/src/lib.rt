// Limits, magnitudes and rounding of signed numbers. The laws of this crate hold of any number, list,
// grid or signed expression, and serve every crate above it.
//
// No function has a `requires`: each answers every input.
#![tactic(auto)]

ghost use Rattle.std.specs.Prelude.{◌≡◌, ◌<◌, min, nat_abs, neg_ℤ, pos};
ghost use Rattle.numbers.specs.Limit.{clamp_z};
ghost use Rattle.numbers.specs.Rounding.{div_away, Nearest};

// v, moved to the nearer end of lo..=hi where it lies outside.
pub fn clamp(v: i32, lo: i32, hi: i32) -> i32
    ensures { result ≡ clamp_z v lo hi }
{
    if v < lo {
        lo
    } else if hi < v {
        hi
    } else {
        v
    }
}

// The lesser of two.
pub fn least(a: usize, b: usize) -> usize
    ensures { result ≡ min a b }
{
    if a < b {
        return a;
    }
    b
}

// |x|, the Rust's `unsigned_abs`.
pub fn abs(x: i32) -> u32
    ensures { result ≡ nat_abs x }
{
    if x < 0 {
        (-(x + 1)) as u32 + 1
    } else {
        x as u32
    }
}

// -m, of a magnitude that is at most 2^31.
fn negative(m: u32) -> i32
    requires { m < 2147483649 }
    ensures { result ≡ neg_ℤ (pos m) }
{
    if m == 0 { 0 } else { -((m - 1) as i32) - 1 }
}

// The operator `//` of clause 4.1: n / d to the nearest, halves away from zero; 0 where d is 0.
pub fn div_round_half_away(n: i32, d: u32) -> i32
    ensures value { result ≡ div_away n d }
    ensures nearest { 0 < d → Nearest n d result }
{
    if d == 0 {
        return 0;
    }
    let q = (abs(n) + d / 2) / d;
    if n < 0 { negative(q) } else { q as i32 }
}
