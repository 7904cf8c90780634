// What the transform takes and gives: the limits of a depth, and what is refused.
ghost use Rattle.std.specs.Prelude.{[], ◌∷◌, ◌≡◌, Err};
ghost use Rattle.numbers.specs.Every.{every};
ghost use Rattle.numbers.specs.Outcome.{accepted, checked};
ghost use Rattle.ranges.specs.Range.{depth_fine, limits_outcome, saturation_limits, within};
ghost use Rattle.idct.specs.Limits.{number_of, sample_outcome, saturated};

use ranges::Depth;

// Why a transform refuses.
#[derive(Clone, Copy, Debug, PartialEq, Eq)]
pub enum IdctError {
    // 12: no depth
    DepthOutOfRange,
    // 13: a value outside the limits
    ValueOutOfLimits,
}

impl IdctError {
    // Document 01's number.
    pub fn number(self) -> u32
        ensures { result ≡ number_of (Err self) }
    {
        match self {
            IdctError::DepthOutOfRange => 12,
            IdctError::ValueOutOfLimits => 13,
        }
    }
}

// Document 01's number of an answer; 0 where nothing was refused.
pub fn answer_number(answer: Result<(), IdctError>) -> u32
    ensures { result ≡ number_of answer }
{
    match answer {
        Ok(()) => 0,
        Err(e) => e.number(),
    }
}

// -2^bits_per_pixel and 2^bits_per_pixel - 1 (7.4.5), or 12.
pub fn idct_saturation_bounds(bits_per_pixel: u32) -> Option<(i32, i32)>
    ensures { limits_outcome result ≡ saturation_limits bits_per_pixel }
{
    Depth::saturation_limits(bits_per_pixel)
}

// `value` brought into them, or 12.
pub fn saturate_idct_sample(value: i32, bits_per_pixel: u32) -> Option<i32>
    ensures { sample_outcome result ≡ checked ((depth_fine bits_per_pixel, 12) ∷ []) (accepted (saturated bits_per_pixel value)) }
{
    let (lo, hi) = idct_saturation_bounds(bits_per_pixel)?;
    Some(numbers::clamp(value, lo, hi))
}

// Whether each value of a row is within lo..=hi.
pub(crate) fn row_within(row: [i32; 8], lo: i32, hi: i32) -> bool
    ensures { result ≡ every (within lo hi) row }
{
    // no early end: no test waits for another
    let mut fine = true;
    for u in 0..8 {
        let within = ranges::inside(row[u], lo, hi);
        fine = fine & within;
    }
    fine
}
