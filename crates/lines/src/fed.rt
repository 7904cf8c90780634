// What a byte, and the end of the input, does to a line of which `n` bytes came.
ghost use Rattle.std.specs.Prelude.{◌≡◌};
ghost use Rattle.lines.specs.Fed.{fed_of, rest_of};

use forms::Line;

// One byte was kept and so many are there; or a line of so many bytes ended; or one that is too long did.
#[derive(Clone, Copy)]
pub enum Fed {
    Kept(usize),
    Ended(usize),
    Skipped,
}

// The byte that comes after `n` bytes of a line.
pub fn feed(n: usize, b: u8) -> Fed
    ensures { result ≡ fed_of n b }
{
    if b == 10 {
        if n <= Line::LONGEST {
            return Fed::Ended(n);
        }
        return Fed::Skipped;
    }
    if n <= Line::LONGEST {
        return Fed::Kept(n + 1);
    }
    Fed::Kept(n)
}

// The end of the input after `n` bytes of a line.
pub fn rest(n: usize) -> Fed
    ensures { result ≡ rest_of n }
{
    if n == 0 {
        return Fed::Kept(0);
    }
    if n <= Line::LONGEST {
        return Fed::Ended(n);
    }
    Fed::Skipped
}
