// Mismatch control (ISO/IEC 14496-2, 7.4.4.5), the value that it changes.
//
// No function has a `requires`: each answers every input.
#![tactic(auto)]

ghost use Rattle.std.specs.Prelude.{◌≡◌};
ghost use Rattle.mismatch.specs.Mismatch.{last_value, odd};

// Whether a number is odd, a negative one too: the remainder is then 1 or -1.
pub fn is_odd(z: i32) -> bool
    ensures { result ≡ odd z }
{
    z % 2 != 0
}

// 7.4.4.5, from F' to F, in its order, where `control` asks for it: where the sum is odd, F[7][7] = F'[7][7]; where it is even,
// F[7][7] = F'[7][7] - 1 if F'[7][7] is odd, else F'[7][7] + 1. The least i32 is even and the greatest odd, so neither overflows.
pub fn last_value(control: bool, sum: i32, last: i32) -> i32
    ensures { result ≡ last_value control sum last }
{
    if !control {
        return last;
    }
    if is_odd(sum) {
        return last;
    }
    if is_odd(last) {
        return last - 1;
    }
    last + 1
}
