// The tables of a macroblock's header in an I-VOP (macroblock.rs; Table B.6 and the intra column of Table B.8), made once and
// lent to what searches them, and a short way by the first bits of a window.
ghost use Rattle.std.specs.Prelude.{◌≡◌};
ghost use Rattle.codes.specs.Header.{cbpy_codes, cbpy_lens, cbpy_short, mcbpc_codes, mcbpc_lens, mcbpc_short};

use crate::first_bits::small_number;

// Codes of Table B.6: rows 0 to 3 are intra with cbpc 0 to 3, rows 4 to 7 intra with a quantiser change, row 8 is stuffing.
const MCBPC_CODE: [u32; 9] = [
    0b1,
    0b001,
    0b010,
    0b011,
    0b0001,
    0b000001,
    0b000010,
    0b000011,
    0b000000001,
];

// Their lengths.
const MCBPC_LEN: [u32; 9] = [1, 3, 3, 3, 4, 6, 6, 6, 9];

// Codes of Table B.8: row i says cbpy i of an intra macroblock.
const CBPY_CODE: [u32; 16] = [
    0b0011, 0b00101, 0b00100, 0b1001, 0b00011, 0b0111, 0b000010, 0b1011, 0b00010, 0b000011, 0b0101,
    0b1010, 0b0100, 0b1000, 0b0110, 0b11,
];

// Their lengths.
const CBPY_LEN: [u32; 16] = [4, 5, 5, 4, 5, 4, 6, 4, 5, 6, 4, 4, 4, 4, 4, 2];

pub fn mcbpc_codes() -> [u32; 9]
    ensures { result ≡ mcbpc_codes }
{
    MCBPC_CODE
}

pub fn mcbpc_lens() -> [u32; 9]
    ensures { result ≡ mcbpc_lens }
{
    MCBPC_LEN
}

pub fn cbpy_codes() -> [u32; 16]
    ensures { result ≡ cbpy_codes }
{
    CBPY_CODE
}

pub fn cbpy_lens() -> [u32; 16]
    ensures { result ≡ cbpy_lens }
{
    CBPY_LEN
}

// Rows of Table B.6 by six bits: length + 16 row; 0 where no code of so few begins them.
const MCBPC_SHORT: [u8; 64] = [
    0, 86, 102, 118, 68, 68, 68, 68, 19, 19, 19, 19, 19, 19, 19, 19, 35, 35, 35, 35, 35, 35, 35,
    35, 51, 51, 51, 51, 51, 51, 51, 51, 1, 1, 1, 1, 1, 1, 1, 1, 1, 1, 1, 1, 1, 1, 1, 1, 1, 1, 1, 1,
    1, 1, 1, 1, 1, 1, 1, 1, 1, 1, 1, 1,
];

// The row of mcbpc that begins a window; 0 where none but stuffing does.
pub fn mcbpc_short(window: u32) -> u32
    ensures { result ≡ mcbpc_short window }
{
    small_number(&MCBPC_SHORT, (window / 67108864) as usize)
}

// Rows of Table B.8 by six bits: length + 16 row; 0 where no code begins them.
const CBPY_SHORT: [u8; 64] = [
    0, 0, 102, 150, 133, 133, 69, 69, 37, 37, 21, 21, 4, 4, 4, 4, 196, 196, 196, 196, 164, 164,
    164, 164, 228, 228, 228, 228, 84, 84, 84, 84, 212, 212, 212, 212, 52, 52, 52, 52, 180, 180,
    180, 180, 116, 116, 116, 116, 242, 242, 242, 242, 242, 242, 242, 242, 242, 242, 242, 242, 242,
    242, 242, 242,
];

// The row of cbpy that begins a window; 0 where none does.
pub fn cbpy_short(window: u32) -> u32
    ensures { result ≡ cbpy_short window }
{
    small_number(&CBPY_SHORT, (window / 67108864) as usize)
}
