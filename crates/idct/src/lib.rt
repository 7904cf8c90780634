// The inverse transform of an 8x8 block (ISO/IEC 14496-2, 7.4.5 and Annex A.1) in f64: rows, then
// columns, each value rounded to a whole number and saturated.
//
// No public function has a `requires`: each answers every input.
#![tactic(auto)]

mod clipped;
mod depth;
mod limits;
mod rows;
mod short;

ghost use Rattle.std.specs.Prelude.{[], ◌∷◌, ◌≡◌, ℕ, ◌<◌, Ok};
ghost use Rattle.numbers.specs.Outcome.{accepted, checked};
ghost use Rattle.ranges.specs.Range.{depth_fine};
ghost use Rattle.exact_transform.specs.Exact.{Near, exact};
ghost use Rattle.exact_transform.specs.Transform.{whole};
ghost use Rattle.idct.specs.Clipped.{idct8x8};
ghost use Rattle.idct.specs.Limits.{block_after, idct_outcome, values_fine};

pub use clipped::{idct_8x8_clipped, idct_dc_and_last_clipped, idct_dc_clipped};
pub use limits::{IdctError, answer_number, idct_saturation_bounds, saturate_idct_sample};
pub use rounding::HalfIntegerRounding;

// The transform of `coefficients` into `out`, each value saturated to -2^bits_per_pixel ..=
// 2^bits_per_pixel - 1. A depth outside its bounds is refused (12), then a value outside the
// depth's limits (13); `out` is then left as it was.
pub fn idct_8x8_rounded(
    coefficients: [[i32; 8]; 8],
    bits_per_pixel: u32,
    rounding: HalfIntegerRounding,
    out: &mut [[i32; 8]; 8],
) -> Result<(), IdctError>
    ensures result_value { idct_outcome result ≡ checked ((depth_fine bits_per_pixel, 12) ∷ (values_fine bits_per_pixel coefficients, 13) ∷ []) (accepted tt) }
    ensures block { out.new ≡ block_after result (idct8x8 rounding bits_per_pixel coefficients) out.old }
    ensures near { result ≡ Ok tt → (y x : ℕ) → y < 8 → x < 8 → Near (whole rounding coefficients y x) (exact coefficients y x) }
{
    depth::at_depth(&coefficients, bits_per_pixel, true, rounding, out)
}

// The same, a half away from zero.
pub fn idct_8x8(
    coefficients: [[i32; 8]; 8],
    bits_per_pixel: u32,
    out: &mut [[i32; 8]; 8],
) -> Result<(), IdctError>
    ensures result_value { idct_outcome result ≡ checked ((depth_fine bits_per_pixel, 12) ∷ (values_fine bits_per_pixel coefficients, 13) ∷ []) (accepted tt) }
    ensures block { out.new ≡ block_after result (idct8x8 HalfIntegerRounding.AwayFromZero bits_per_pixel coefficients) out.old }
    ensures near { result ≡ Ok tt → (y x : ℕ) → y < 8 → x < 8 → Near (whole HalfIntegerRounding.AwayFromZero coefficients y x) (exact coefficients y x) }
{
    idct_8x8_rounded(
        coefficients,
        bits_per_pixel,
        HalfIntegerRounding::AWAY_FROM_ZERO,
        out,
    )
}
