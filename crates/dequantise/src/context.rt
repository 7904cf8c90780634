// What inverse quantisation takes: the parameters of a block, and the tests of 12 and 13.
ghost use Rattle.std.specs.Prelude.{◌≡◌};
ghost use Rattle.numbers.specs.Every.{every};
ghost use Rattle.ranges.specs.Range.{level_fine};
ghost use Rattle.dequantise.specs.Methods.{context_fine, non_zero};

use codes::DcComponent;

// The parameters of a block's inverse quantisation.
#[derive(Clone, Copy)]
pub struct InverseQuantContext {
    pub macroblock_intra: bool,
    pub component: DcComponent,
    pub quantiser_scale: u32,
    pub bits_per_pixel: u32,
    pub short_video_header: bool,
}

// Whether a quantiser and a depth are in range.
pub fn context_fine(ctx: InverseQuantContext) -> bool
    ensures { result ≡ context_fine ctx }
{
    ranges::Quantiser::fine(ctx.quantiser_scale) && ranges::Depth::fine(ctx.bits_per_pixel)
}

// Whether a matrix has no zero.
pub fn matrix_fine(w: [[u8; 8]; 8]) -> bool
    ensures { result ≡ every (every non_zero) w }
{
    let mut fine = true;
    for row in &w {
        for x in row {
            fine &= *x != 0;
        }
    }
    fine
}

// Whether each value of a row is a level.
pub fn row_fine(row: [i32; 8]) -> bool
    ensures { result ≡ every level_fine row }
{
    let mut fine = true;
    for x in &row {
        fine &= ranges::Level::fine(*x);
    }
    fine
}
