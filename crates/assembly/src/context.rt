// What a macroblock hands to each of its blocks.
use rounding::HalfIntegerRounding;

#[derive(Clone, Copy)]
pub struct MacroblockTextureContext {
    pub quantiser_scale: u32,
    pub bits_per_pixel: u32,
    // method 1 where set
    pub quant_type: bool,
    pub ac_pred_flag: bool,
    pub alternate_vertical_scan: bool,
    // no mismatch control where set
    pub intra_mismatch_exempt: bool,
    pub idct_rounding: HalfIntegerRounding,
}
