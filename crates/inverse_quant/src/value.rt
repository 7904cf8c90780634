// One value by either method, and the limit.
ghost use Rattle.std.specs.Prelude.{false, ◌≡◌, ◌≤◌, nat_abs, pos, ◌*ℤ◌};
ghost use Rattle.dequantise.specs.Methods.{limited_f, method1, method2, signum};
ghost use Rattle.inverse_quant.specs.ByRows.{ContextGood};

use dequantise::InverseQuantContext;
use ranges::Depth;

// The product of a level, its weight and the quantiser, at most 2048 * 255 * 31. So it is exact in an f32, as is each product on the
// way, and four are taken at a time; 0 is added so that no -0 is left.
fn product(level: i32, weight: u8, quantiser_scale: u32) -> i32
    requires { (nat_abs level ≤ 2048) × (quantiser_scale ≤ 31) }
    ensures { result ≡ level *ℤ pos weight *ℤ pos quantiser_scale }
{
    let p = (level as f32) * (weight as f32) * (quantiser_scale as f32) + 0.0;
    p as i32
}

// 7.4.4.4: a value limited by the depth, which is one.
pub(crate) fn saturate_fprime(value: i32, bits_per_pixel: u32) -> i32
    requires { (4 ≤ bits_per_pixel) × (bits_per_pixel ≤ 12) }
    ensures { result ≡ limited_f bits_per_pixel value }
{
    match Depth::value_limits(bits_per_pixel) {
        None => value,
        Some((lo, hi)) => numbers::clamp(value, lo, hi),
    }
}

// A small number with the sign of a level, and 0 for a level of 0.
fn signed_as(level: i32, n: i32) -> i32
    requires { nat_abs n ≤ 31 }
    ensures { (result ≡ signum level *ℤ n) × (nat_abs result ≤ 31) }
{
    match level {
        ..0 => -n,
        0 => 0,
        1.. => n,
    }
}

// By method 1 in a macroblock that is not intra, limited.
fn other1(level: i32, weight: u8, ctx: InverseQuantContext) -> i32
    requires { (nat_abs level ≤ 2048) × ContextGood ctx }
    ensures { result ≡ limited_f ctx.bits_per_pixel (method1 false level weight ctx.quantiser_scale) }
{
    let sign = signed_as(level, 1);
    let f = ((2 * level + sign) * (weight as i32) * (ctx.quantiser_scale as i32)) / 16;
    saturate_fprime(f, ctx.bits_per_pixel)
}

// By method 1, limited: in an intra macroblock by that product, since twice it over 16 is an eighth of it.
pub(crate) fn value1(level: i32, weight: u8, ctx: InverseQuantContext) -> i32
    requires { (nat_abs level ≤ 2048) × ContextGood ctx }
    ensures { result ≡ limited_f ctx.bits_per_pixel (method1 ctx.macroblock_intra level weight ctx.quantiser_scale) }
{
    if !ctx.macroblock_intra {
        return other1(level, weight, ctx);
    }
    let f = product(level, weight, ctx.quantiser_scale) / 8;
    saturate_fprime(f, ctx.bits_per_pixel)
}

// By method 2, limited: the product of twice the level and the quantiser, and with the level's sign the greatest odd number up to
// the quantiser.
pub(crate) fn value2(level: i32, ctx: InverseQuantContext) -> i32
    requires { (nat_abs level ≤ 2048) × ContextGood ctx }
    ensures { result ≡ limited_f ctx.bits_per_pixel (method2 level ctx.quantiser_scale) }
{
    let q = ctx.quantiser_scale;
    let odd = (q - 1 + q % 2) as i32;
    let f = product(level, 2, q) + signed_as(level, odd);
    saturate_fprime(f, ctx.bits_per_pixel)
}
