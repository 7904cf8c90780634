// How an f64 becomes a whole number: the nearest, or by a chosen rule where it counts as half-way.
//
// No public function has a `requires`: each answers every input.
#![tactic(auto)]

ghost use Rattle.std.specs.Prelude.{[], ◌∷◌, ◌≡◌, ◌≤◌, nat_abs};
ghost use Rattle.numbers.specs.Outcome.{accepted, checked};
ghost use Rattle.f64_error.specs.Wholes.{floor_z, mag_f};
ghost use Rattle.rounding.specs.Near.{Roundable, roundable};
ghost use Rattle.rounding.specs.Rounding.{rounded_outcome, tied, whole_of};

// How a value half-way between two whole numbers is rounded.
#[derive(Clone, Copy)]
pub enum HalfIntegerRounding {
    AwayFromZero,
    ToEven,
}

impl HalfIntegerRounding {
    pub const DEFAULT: HalfIntegerRounding = HalfIntegerRounding::AwayFromZero;

    pub const AWAY_FROM_ZERO: HalfIntegerRounding = HalfIntegerRounding::AwayFromZero;

    pub const TO_EVEN: HalfIntegerRounding = HalfIntegerRounding::ToEven;
}

// The distance from one half below which a value counts as half-way.
const HALF_INTEGER_TOLERANCE: f64 = 1e-8;

// 2^20.
const LARGEST: f64 = 1_048_576.0;

// 3 * 2^51. Added to an f64 below 2^51 in size and taken off again, it leaves a whole number at most a
// half away: from 2^52 on an f64 is a whole number.
pub const SHIFT: f64 = 6_755_399_441_055_744.0;

// The whole number at or below x.
fn floor_of(x: f64) -> i32
    requires { Roundable x }
    ensures { result ≡ floor_z x }
{
    let near = x + SHIFT - SHIFT;
    let t = near as i32;
    if x < near { t - 1 } else { t }
}

// |x|
fn magnitude(x: f64) -> f64
    ensures { result ≡ mag_f x }
{
    if x < 0.0 { -x } else { x }
}

// The neighbour of `below` and a half that the rule picks.
fn tie(below: i32, rounding: HalfIntegerRounding) -> i32
    requires { nat_abs below ≤ 1048577 }
    ensures { result ≡ tied rounding below }
{
    match rounding {
        HalfIntegerRounding::AwayFromZero => if below < 0 { below } else { below + 1 },
        HalfIntegerRounding::ToEven => if below % 2 == 0 { below } else { below + 1 },
    }
}

// The whole number nearest to `value`, or 13. One that is half-way, within the tolerance, goes by `rounding`.
pub fn round_to_integer(value: f64, rounding: HalfIntegerRounding) -> Option<i32>
    ensures { rounded_outcome result ≡ checked ((roundable value, 13) ∷ []) (accepted (whole_of rounding value)) }
{
    if !(magnitude(value) <= LARGEST) {
        return None;
    }
    let below = floor_of(value);
    let d = value - (below as f64) - 0.5;
    if magnitude(d) < HALF_INTEGER_TOLERANCE {
        return Some(tie(below, rounding));
    }
    if d < 0.0 {
        return Some(below);
    }
    Some(below + 1)
}
