// The samples of a block at a depth: saturated, or from 0 on.
ghost use Rattle.std.specs.Prelude.{cond, [], ◌∷◌, ◌≡◌, pos, length};
ghost use Rattle.numbers.specs.Outcome.{accepted, checked};
ghost use Rattle.ranges.specs.Range.{depth_fine, highest, lowest};
ghost use Rattle.idct.specs.Limits.{block_after, idct_outcome, values_fine};
ghost use Rattle.idct.specs.ShortWays.{samples_in};

use crate::limits::IdctError;
use crate::short::transform;
use cosines::half_table;
use ranges::Depth;
use rounding::HalfIntegerRounding;

// The least sample: `lo`, or 0.
fn least_sample(signed: bool, lo: i32) -> i32
    ensures { result ≡ cond signed lo (pos 0) }
{
    if signed { lo } else { 0 }
}

// The samples of `f` into `out`. A depth outside its bounds is refused (12), then a value outside the
// depth's limits (13); `out` is then left as it was.
pub(crate) fn at_depth(
    f: &[[i32; 8]; 8],
    bits_per_pixel: u32,
    signed: bool,
    rounding: HalfIntegerRounding,
    out: &mut [[i32; 8]; 8],
) -> Result<(), IdctError>
    requires { length f.now ≡ 8 }
    ensures result_value { idct_outcome result ≡ checked ((depth_fine bits_per_pixel, 12) ∷ (values_fine bits_per_pixel f.now, 13) ∷ []) (accepted tt) }
    ensures block { out.new ≡ block_after result (samples_in rounding (cond signed (lowest bits_per_pixel) (pos 0)) (highest bits_per_pixel) f.now) out.old }
{
    let Some((least, most)) = Depth::value_limits(bits_per_pixel) else {
        return Err(IdctError::DepthOutOfRange);
    };
    let Some((lo, hi)) = Depth::saturation_limits(bits_per_pixel) else {
        return Err(IdctError::DepthOutOfRange);
    };
    let table = half_table();
    let low = least_sample(signed, lo);
    if !transform(f, &table, low, hi, rounding, least, most, out) {
        return Err(IdctError::ValueOutOfLimits);
    }
    Ok(())
}
