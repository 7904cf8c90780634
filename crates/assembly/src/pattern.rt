// Which blocks of a macroblock are coded.
ghost use Rattle.std.specs.Prelude.{◌≡◌};
ghost use Rattle.assembly.specs.Pattern.{pattern_of};

pub fn pattern_code(cbpy: u8, cbpc: u8) -> [bool; 6]
    ensures { result ≡ pattern_of cbpy cbpc }
{
    [
        cbpy / 8 % 2 == 1,
        cbpy / 4 % 2 == 1,
        cbpy / 2 % 2 == 1,
        cbpy / 1 % 2 == 1,
        cbpc / 2 % 2 == 1,
        cbpc / 1 % 2 == 1,
    ]
}
