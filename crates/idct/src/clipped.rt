// Samples by the short ways: whole numbers limited to 0 ..= 2^bits_per_pixel - 1.
ghost use Rattle.std.specs.Prelude.{[], ◌∷◌, ◌≡◌, ◌+◌};
ghost use Rattle.numbers.specs.Outcome.{accepted, checked};
ghost use Rattle.ranges.specs.Range.{depth_fine};
ghost use Rattle.idct.specs.Clipped.{clipped, dc_and_last, dc_block};
ghost use Rattle.idct.specs.Limits.{block_after, idct_outcome, in_bounds, values_fine};

use crate::depth::at_depth;
use crate::limits::IdctError;
use crate::rows::{dc_pass, ruled_sample};
use ranges::Depth;
use rounding::HalfIntegerRounding;

// The samples of `coefficients` into `out`. A depth outside its bounds is refused (12), then a value
// outside the depth's limits (13); `out` is then left as it was.
pub fn idct_8x8_clipped(
    coefficients: [[i32; 8]; 8],
    bits_per_pixel: u32,
    rounding: HalfIntegerRounding,
    out: &mut [[i32; 8]; 8],
) -> Result<(), IdctError>
    ensures result_value { idct_outcome result ≡ checked ((depth_fine bits_per_pixel, 12) ∷ (values_fine bits_per_pixel coefficients, 13) ∷ []) (accepted tt) }
    ensures block { out.new ≡ block_after result (clipped rounding bits_per_pixel coefficients) out.old }
{
    at_depth(&coefficients, bits_per_pixel, false, rounding, out)
}

// The same of a DC alone.
pub fn idct_dc_clipped(
    dc: i32,
    bits_per_pixel: u32,
    rounding: HalfIntegerRounding,
    out: &mut [[i32; 8]; 8],
) -> Result<(), IdctError>
    ensures result_value { idct_outcome result ≡ checked ((depth_fine bits_per_pixel, 12) ∷ (in_bounds (bits_per_pixel + 3) dc, 13) ∷ []) (accepted tt) }
    ensures block { out.new ≡ block_after result (clipped rounding bits_per_pixel (dc_block dc)) out.old }
{
    let Some((least, most)) = Depth::value_limits(bits_per_pixel) else {
        return Err(IdctError::DepthOutOfRange);
    };
    if !ranges::inside(dc, least, most) {
        return Err(IdctError::ValueOutOfLimits);
    }
    let Some((_, hi)) = Depth::saturation_limits(bits_per_pixel) else {
        return Err(IdctError::DepthOutOfRange);
    };
    let value = dc_pass(dc_pass(dc as f64));
    let sample = ruled_sample(value, 0, hi, rounding);
    *out = [[sample; 8]; 8];
    Ok(())
}

// The same of a DC and 1 at (7, 7). Its values are within the limits where the DC is.
pub fn idct_dc_and_last_clipped(
    dc: i32,
    bits_per_pixel: u32,
    rounding: HalfIntegerRounding,
    out: &mut [[i32; 8]; 8],
) -> Result<(), IdctError>
    ensures result_value { idct_outcome result ≡ checked ((depth_fine bits_per_pixel, 12) ∷ (in_bounds (bits_per_pixel + 3) dc, 13) ∷ []) (accepted tt) }
    ensures block { out.new ≡ block_after result (clipped rounding bits_per_pixel (dc_and_last dc)) out.old }
{
    let mut f = [[0i32; 8]; 8];
    f[0][0] = dc;
    f[7][7] = 1;
    at_depth(&f, bits_per_pixel, false, rounding, out)
}
