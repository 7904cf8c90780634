// The context, the neighbours, the header and the matrix out of a line.
use block::MacroblockTextureContext;
use coefficients::BlockPredictors;
use idct::HalfIntegerRounding;
use macroblock::{DerivedMbType, MacroblockHeader};
use picture::MacroblockContext;
use std::array;

pub(crate) fn rule(to_even: bool) -> HalfIntegerRounding {
    if to_even {
        HalfIntegerRounding::TO_EVEN
    } else {
        HalfIntegerRounding::AWAY_FROM_ZERO
    }
}

// Seven numbers.
pub(crate) fn context(line: &[i32], base: usize) -> MacroblockTextureContext {
    let idct_rounding = rule(crate::line::flag(line, base, 6));
    MacroblockTextureContext {
        quantiser_scale: crate::line::unsigned(line, base, 0),
        bits_per_pixel: crate::line::unsigned(line, base, 1),
        quant_type: crate::line::flag(line, base, 2),
        ac_pred_flag: crate::line::flag(line, base, 3),
        alternate_vertical_scan: crate::line::flag(line, base, 4),
        intra_mismatch_exempt: crate::line::flag(line, base, 5),
        idct_rounding,
    }
}

// Nine numbers of kinds 7 and 11, from DC_CODED on.
pub(crate) fn context_in_picture(line: &[i32], base: usize) -> MacroblockContext {
    let idct_rounding = rule(crate::line::flag(line, base, 8));
    MacroblockContext {
        quantiser_scale: crate::line::unsigned(line, base, 4),
        ac_pred_flag: crate::line::flag(line, base, 5),
        alternate_vertical_scan: crate::line::flag(line, base, 6),
        intra_mismatch_exempt: crate::line::flag(line, base, 7),
        idct_rounding,
        use_intra_dc_vlc: crate::line::flag(line, base, 0),
        reversible_vlc: crate::line::flag(line, base, 1),
    }
}

fn seven(line: &[i32], base: usize) -> [i32; 7] {
    array::from_fn(|k| crate::line::number(line, base, k))
}

// 21 numbers.
pub(crate) fn predictors(line: &[i32], base: usize) -> BlockPredictors {
    let a_first_column = seven(line, crate::line::later(base, 7));
    let c_first_row = seven(line, crate::line::later(base, 14));
    BlockPredictors {
        fa_dc: crate::line::number(line, base, 0),
        fb_dc: crate::line::number(line, base, 1),
        fc_dc: crate::line::number(line, base, 2),
        qp_a: crate::line::unsigned(line, base, 3),
        qp_c: crate::line::unsigned(line, base, 4),
        a_has_column: crate::line::flag(line, base, 5),
        a_first_column,
        c_has_row: crate::line::flag(line, base, 6),
        c_first_row,
    }
}

fn mb_type(place: u32) -> DerivedMbType {
    match place {
        1 => DerivedMbType::Inter,
        2 => DerivedMbType::InterQ,
        3 => DerivedMbType::Inter4V,
        4 => DerivedMbType::Intra,
        5 => DerivedMbType::IntraQ,
        _ => DerivedMbType::Missing,
    }
}

// Five numbers, from the second of a line on.
pub(crate) fn header(line: &[i32]) -> MacroblockHeader {
    MacroblockHeader {
        not_coded: crate::line::flag(line, 1, 0),
        mb_type: mb_type(crate::line::unsigned(line, 2, 0)),
        cbpc: crate::line::byte(line, 3, 0),
        ac_pred_flag: crate::line::flag(line, 4, 0),
        cbpy: crate::line::byte(line, 5, 0),
    }
}

// A flag, and 64 numbers where it is set.
pub(crate) fn matrix(line: &[i32], base: usize) -> [[u8; 8]; 8] {
    if !crate::line::flag(line, base, 0) {
        return block::default_intra_quant_matrix();
    }
    [
        crate::line::eight_bytes(line, crate::line::later(base, 1)),
        crate::line::eight_bytes(line, crate::line::later(base, 9)),
        crate::line::eight_bytes(line, crate::line::later(base, 17)),
        crate::line::eight_bytes(line, crate::line::later(base, 25)),
        crate::line::eight_bytes(line, crate::line::later(base, 33)),
        crate::line::eight_bytes(line, crate::line::later(base, 41)),
        crate::line::eight_bytes(line, crate::line::later(base, 49)),
        crate::line::eight_bytes(line, crate::line::later(base, 57)),
    ]
}

// Where the numbers after the matrix begin.
pub(crate) fn after_matrix(line: &[i32], base: usize) -> usize {
    let numbers = if crate::line::flag(line, base, 0) {
        65
    } else {
        1
    };
    crate::line::later(base, numbers)
}

pub(crate) fn values(line: &[i32], base: usize) -> [[i32; 8]; 8] {
    [
        crate::line::eight(line, crate::line::later(base, 0)),
        crate::line::eight(line, crate::line::later(base, 8)),
        crate::line::eight(line, crate::line::later(base, 16)),
        crate::line::eight(line, crate::line::later(base, 24)),
        crate::line::eight(line, crate::line::later(base, 32)),
        crate::line::eight(line, crate::line::later(base, 40)),
        crate::line::eight(line, crate::line::later(base, 48)),
        crate::line::eight(line, crate::line::later(base, 56)),
    ]
}
