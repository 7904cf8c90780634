// The ranges of document 01, each named once: depth, quantiser scale, level, difference and DC of a
// neighbour. Bounds are constants of their type.
#![tactic(auto)]

ghost use Rattle.std.specs.Prelude.{◌≡◌, ◌<◌, Some};
ghost use Rattle.ranges.specs.Range.{dc_fine, depth_fine, difference_fine, highest, level_fine, limited_quantiser, limits_outcome, lowest, quantiser_fine, saturation_limits, value_limits, within};

// Whether lo <= z <= hi.
pub fn inside(z: i32, lo: i32, hi: i32) -> bool
    ensures { result ≡ within lo hi z }
{
    lo <= z && z <= hi
}

// -2^bits ..= 2^bits - 1
fn limits_of(bits: u32) -> Option<(i32, i32)>
    requires { bits < 31 }
    ensures { result ≡ Some (lowest bits, highest bits) }
{
    let top = (1u32 << bits) as i32;
    Some((-top, top - 1))
}

// Bits per pixel (6.3.3).
#[derive(Clone, Copy)]
pub struct Depth {
    pub bits_per_pixel: u32,
}

impl Depth {
    pub const LEAST: u32 = 4;

    pub const GREATEST: u32 = 12;

    // Whether a depth is one.
    pub fn fine(bits_per_pixel: u32) -> bool
        ensures { result ≡ depth_fine bits_per_pixel }
    {
        (Depth::LEAST..=Depth::GREATEST).contains(&bits_per_pixel)
    }

    // The limits of dequantised values (7.4.4.4), or 12.
    pub fn value_limits(bits_per_pixel: u32) -> Option<(i32, i32)>
        ensures { limits_outcome result ≡ value_limits bits_per_pixel }
    {
        if !Depth::fine(bits_per_pixel) {
            return None;
        }
        limits_of(bits_per_pixel + 3)
    }

    // The limits of what the transform gives (7.4.5), or 12.
    pub fn saturation_limits(bits_per_pixel: u32) -> Option<(i32, i32)>
        ensures { limits_outcome result ≡ saturation_limits bits_per_pixel }
    {
        if !Depth::fine(bits_per_pixel) {
            return None;
        }
        limits_of(bits_per_pixel)
    }
}

// A quantiser scale, the present one or a neighbour's.
#[derive(Clone, Copy)]
pub struct Quantiser {
    pub quantiser_scale: u32,
}

impl Quantiser {
    pub const LEAST: u32 = 1;

    pub const GREATEST: u32 = 31;

    // Whether a quantiser scale is one.
    pub fn fine(quantiser_scale: u32) -> bool
        ensures { result ≡ quantiser_fine quantiser_scale }
    {
        (Quantiser::LEAST..=Quantiser::GREATEST).contains(&quantiser_scale)
    }

    // The quantiser scale that a change makes, limited to those that are one.
    pub fn limited(changed: i32) -> u32
        ensures { result ≡ limited_quantiser changed }
    {
        changed
            .clamp(Quantiser::LEAST as i32, Quantiser::GREATEST as i32)
            .unsigned_abs()
    }
}

// A level QF (7.4.3.4).
#[derive(Clone, Copy)]
pub struct Level {
    pub qf: i32,
}

impl Level {
    pub const LEAST: i32 = -2048;

    pub const GREATEST: i32 = 2047;

    // Whether a level is one.
    pub fn fine(qf: i32) -> bool
        ensures { result ≡ level_fine qf }
    {
        inside(qf, Level::LEAST, Level::GREATEST)
    }
}

// A difference of DC levels, within what 12 bits can say (Table B.15).
#[derive(Clone, Copy)]
pub struct Difference {
    pub value: i32,
}

impl Difference {
    pub const LEAST: i32 = -4095;

    pub const GREATEST: i32 = 4095;

    // Whether a difference may be handed in.
    pub fn fine(value: i32) -> bool
        ensures { result ≡ difference_fine value }
    {
        inside(value, Difference::LEAST, Difference::GREATEST)
    }
}

// A neighbour's dequantised DC, as it may be handed in.
#[derive(Clone, Copy)]
pub struct NeighbourDc {
    pub dc: i32,
}

impl NeighbourDc {
    pub const LEAST: i32 = -65536;

    pub const GREATEST: i32 = 65536;

    // Whether a DC may be handed in.
    pub fn fine(dc: i32) -> bool
        ensures { result ≡ dc_fine dc }
    {
        inside(dc, NeighbourDc::LEAST, NeighbourDc::GREATEST)
    }
}
