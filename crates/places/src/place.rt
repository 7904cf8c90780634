// Where the neighbours of a macroblock's blocks lie (Figure 7-5).
ghost use Rattle.std.specs.Prelude.{◌≡◌, ◌<◌, get_or};
ghost use Rattle.places.specs.Places.{a_source, a_block, b_source, b_block, c_source, c_block};

// The macroblock that a neighbour lies in.
#[derive(Clone, Copy)]
pub enum Source {
    Own,
    Left,
    AboveLeft,
    Above,
}

// Where the macroblock that is due finds the records around it, and what a missing neighbour has.
#[derive(Clone, Copy)]
pub struct Place {
    pub left: u32,
    pub has_left: bool,
    pub above_left: u32,
    pub has_above_left: bool,
    pub above: u32,
    pub has_above: bool,
    pub bits_per_pixel: u32,
    pub quantiser_scale: u32,
}

const A_SOURCE: [Source; 6] = [
    Source::Left,
    Source::Own,
    Source::Left,
    Source::Own,
    Source::Left,
    Source::Left,
];

const A_BLOCK: [u32; 6] = [1, 0, 3, 2, 4, 5];

const B_SOURCE: [Source; 6] = [
    Source::AboveLeft,
    Source::Above,
    Source::Left,
    Source::Own,
    Source::AboveLeft,
    Source::AboveLeft,
];

const B_BLOCK: [u32; 6] = [3, 2, 1, 0, 4, 5];

const C_SOURCE: [Source; 6] = [
    Source::Above,
    Source::Above,
    Source::Own,
    Source::Own,
    Source::Above,
    Source::Above,
];

const C_BLOCK: [u32; 6] = [2, 3, 0, 1, 4, 5];

// An entry of a table, told by tests: so a table that is known is not stored to be read. Past its end `past`.
fn entry<T: Copy>(table: [T; 6], i: usize, past: T) -> T
    ensures { result ≡ get_or table i past }
{
    match i {
        0 => table[0],
        1 => table[1],
        2 => table[2],
        3 => table[3],
        4 => table[4],
        5 => table[5],
        _ => past,
    }
}

// Of block `i` of six the macroblock that A, B and C lie in, and which block each is there; past 5 own, and block 0.
pub fn a_source(i: usize) -> Source
    ensures { result ≡ a_source i }
{
    entry(A_SOURCE, i, Source::Own)
}

pub fn a_block(i: usize) -> u32
    ensures { (result ≡ a_block i) × (result < 6) }
{
    entry(A_BLOCK, i, 0)
}

pub fn b_source(i: usize) -> Source
    ensures { result ≡ b_source i }
{
    entry(B_SOURCE, i, Source::Own)
}

pub fn b_block(i: usize) -> u32
    ensures { (result ≡ b_block i) × (result < 6) }
{
    entry(B_BLOCK, i, 0)
}

pub fn c_source(i: usize) -> Source
    ensures { result ≡ c_source i }
{
    entry(C_SOURCE, i, Source::Own)
}

pub fn c_block(i: usize) -> u32
    ensures { (result ≡ c_block i) × (result < 6) }
{
    entry(C_BLOCK, i, 0)
}
