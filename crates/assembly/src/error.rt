// Why a block, or a macroblock, is refused.
ghost use Rattle.std.specs.Prelude.{◌≡◌};
ghost use Rattle.assembly.specs.Answer.{check_of, figure_of, number_of};
ghost use Rattle.assembly.specs.Outcomes.{check_due, checked_outcome};
ghost use Rattle.assembly.specs.Values.{context_fine};
ghost use Rattle.assembly.specs.declared.error.BlockAssemblyError.TheVariants.{Texture};

use crate::context::MacroblockTextureContext;
use bits::Cursor;
use fields::TextureParseError;
use prediction::BlockPredictors;

#[derive(Clone, Copy)]
pub enum BlockAssemblyError {
    // 11: a block index above 5, data too long, or a start past its end
    OutOfRange,
    // 12: quantiser, depth, or a zero in the matrix under method 1
    Context,
    // 13: a predictor
    Predictor,
    // 14: samples or store too short
    TooShort,
    // 15: width times height macroblocks were accepted
    Complete,
    // 9: the header says that nothing is coded
    NotCoded,
    // 10: no type, or an inter type
    NotIntra,
    // 1 to 8, 16, 17
    Texture(TextureParseError),
}

impl BlockAssemblyError {
    // Document 01's number.
    pub fn number(self) -> u32
        ensures { result ≡ number_of self }
    {
        match self {
            BlockAssemblyError::OutOfRange => 11,
            BlockAssemblyError::Context => 12,
            BlockAssemblyError::Predictor => 13,
            BlockAssemblyError::TooShort => 14,
            BlockAssemblyError::Complete => 15,
            BlockAssemblyError::NotCoded => 9,
            BlockAssemblyError::NotIntra => 10,
            BlockAssemblyError::Texture(e) => e.number(),
        }
    }

    // Its figure: a window or a landing; 0 where there is none.
    pub fn figure(self) -> u32
        ensures { result ≡ figure_of self }
    {
        match self {
            BlockAssemblyError::OutOfRange => 0,
            BlockAssemblyError::Context => 0,
            BlockAssemblyError::Predictor => 0,
            BlockAssemblyError::TooShort => 0,
            BlockAssemblyError::Complete => 0,
            BlockAssemblyError::NotCoded => 0,
            BlockAssemblyError::NotIntra => 0,
            BlockAssemblyError::Texture(e) => e.figure(),
        }
    }
}

// A refusal of what the bits hold.
impl From<TextureParseError> for BlockAssemblyError {
    ghost from_gives = { λ e r. r ≡ Texture e };

    fn from(e: TextureParseError) -> BlockAssemblyError {
        BlockAssemblyError::Texture(e)
    }
}

// What 12 asks of the context.
pub fn context_fine(ctx: MacroblockTextureContext, w: [[u8; 8]; 8]) -> bool
    ensures { result ≡ context_fine ctx w }
{
    if !ranges::Quantiser::fine(ctx.quantiser_scale) {
        return false;
    }
    if !ranges::Depth::fine(ctx.bits_per_pixel) {
        return false;
    }
    if ctx.quant_type {
        return dequantise::matrix_fine(w);
    }
    true
}

// The state, before any bit: 11, 12, 13.
pub fn check(
    data: &[u8],
    c: Cursor,
    ctx: MacroblockTextureContext,
    predictors: BlockPredictors,
    w: [[u8; 8]; 8],
) -> Result<(), BlockAssemblyError>
    ensures value { result ≡ check_of «data».now c.bit_pos ctx predictors w }
    ensures outcome { checked_outcome result ≡ check_due «data».now c.bit_pos ctx predictors w }
{
    let Ok(_) = c.remaining_bits(data) else {
        return Err(BlockAssemblyError::OutOfRange);
    };
    if !context_fine(ctx, w) {
        return Err(BlockAssemblyError::Context);
    }
    if !coefficients::predictors_fine(predictors) {
        return Err(BlockAssemblyError::Predictor);
    }
    Ok(())
}
