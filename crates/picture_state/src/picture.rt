// A picture that is being decoded, its opening, and what each call brings.
ghost use Rattle.std.specs.Prelude.{◌≡◌};
ghost use Rattle.picture_state.specs.Outcomes.{open_due, opened_outcome};
ghost use Rattle.picture_state.specs.Picture.{context_of, open_of, size_fine};

use block::{BlockAssemblyError, MacroblockTextureContext};
use idct::HalfIntegerRounding;

// Width and height in macroblocks, and how many were accepted.
#[derive(Clone, Copy)]
pub struct Picture {
    pub width: u32,
    pub height: u32,
    pub bits_per_pixel: u32,
    // method 1 where set
    pub quant_type: bool,
    pub accepted: u32,
}

// The context fields that a call brings; depth and method are the picture's.
#[derive(Clone, Copy)]
pub struct MacroblockContext {
    pub quantiser_scale: u32,
    pub ac_pred_flag: bool,
    pub alternate_vertical_scan: bool,
    // no mismatch control where set
    pub intra_mismatch_exempt: bool,
    pub idct_rounding: HalfIntegerRounding,
    pub use_intra_dc_vlc: bool,
    pub reversible_vlc: bool,
}

impl Picture {
    pub const WIDEST: u32 = 45;

    pub const HIGHEST: u32 = 36;

    // The numbers of the store for each macroblock of width: two slots.
    pub const STORE: usize = 192;

    // From one record in the store to the next.
    pub const SLOT: u32 = 96;

    // A picture with nothing decoded: 11 or 12 where there is none.
    pub fn open(
        width: u32,
        height: u32,
        bits_per_pixel: u32,
        quant_type: bool,
    ) -> Result<Picture, BlockAssemblyError>
        ensures value { result ≡ open_of width height bits_per_pixel quant_type }
        ensures outcome { opened_outcome result ≡ open_due width height bits_per_pixel quant_type }
    {
        if !size_fine(width, height) {
            return Err(BlockAssemblyError::OutOfRange);
        }
        if !ranges::Depth::fine(bits_per_pixel) {
            return Err(BlockAssemblyError::Context);
        }
        Ok(Picture {
            width,
            height,
            bits_per_pixel,
            quant_type,
            accepted: 0,
        })
    }
}

pub(crate) fn size_fine(width: u32, height: u32) -> bool
    ensures { result ≡ size_fine width height }
{
    (1..=Picture::WIDEST).contains(&width) && (1..=Picture::HIGHEST).contains(&height)
}

// The whole context of a macroblock.
pub(crate) fn texture_context(p: Picture, m: MacroblockContext) -> MacroblockTextureContext
    ensures { result ≡ context_of p m }
{
    MacroblockTextureContext {
        quantiser_scale: m.quantiser_scale,
        bits_per_pixel: p.bits_per_pixel,
        quant_type: p.quant_type,
        ac_pred_flag: m.ac_pred_flag,
        alternate_vertical_scan: m.alternate_vertical_scan,
        intra_mismatch_exempt: m.intra_mismatch_exempt,
        idct_rounding: m.idct_rounding,
    }
}
