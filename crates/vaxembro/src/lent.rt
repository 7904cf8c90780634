// What lent numbers say.
ghost use Rattle.std.specs.Prelude.{cond, ◌≡◌, ◌<◌, ◌≤◌, length};
ghost use Rattle.record.specs.Record.{quantiser_of, seven_from};
ghost use Rattle.vaxembro.specs.Lent.{ac_pred, alternate_scan, context_by, dc_coded, flag_at, header_by, matrix_of, method_one, mismatch_exempt, neighbours_of, not_coded, picture_of, reversible, rounding, state_after, texture_context_by, there, type_of};

use block::MacroblockTextureContext;
use coefficients::BlockPredictors;
use idct::HalfIntegerRounding;
use macroblock::{DerivedMbType, MacroblockHeader};
use picture::{MacroblockContext, Picture};

// Whether bit k is set.
fn flag(flags: u32, k: u32) -> bool
    requires { k < 32 }
    ensures { result ≡ flag_at flags k }
{
    (flags >> k) % 2 == 1
}

fn not_coded(flags: u32) -> bool
    ensures { result ≡ not_coded flags }
{
    flag(flags, 0)
}

fn ac_pred_flag(flags: u32) -> bool
    ensures { result ≡ ac_pred flags }
{
    flag(flags, 1)
}

fn alternate_vertical_scan(flags: u32) -> bool
    ensures { result ≡ alternate_scan flags }
{
    flag(flags, 2)
}

fn intra_mismatch_exempt(flags: u32) -> bool
    ensures { result ≡ mismatch_exempt flags }
{
    flag(flags, 3)
}

fn rounding_of(flags: u32) -> HalfIntegerRounding
    ensures { result ≡ rounding flags }
{
    if flag(flags, 4) {
        return HalfIntegerRounding::TO_EVEN;
    }
    HalfIntegerRounding::AWAY_FROM_ZERO
}

pub(crate) fn use_intra_dc_vlc(flags: u32) -> bool
    ensures { result ≡ dc_coded flags }
{
    flag(flags, 5)
}

pub(crate) fn reversible_vlc(flags: u32) -> bool
    ensures { result ≡ reversible flags }
{
    flag(flags, 6)
}

fn method_one(flags: u32) -> bool
    ensures { result ≡ method_one flags }
{
    flag(flags, 7)
}

// 1 to 5; no other number is a type.
fn type_of(mb_type: u32) -> DerivedMbType
    ensures { result ≡ type_of mb_type }
{
    match mb_type {
        1 => DerivedMbType::Inter,
        2 => DerivedMbType::InterQ,
        3 => DerivedMbType::Inter4V,
        4 => DerivedMbType::Intra,
        5 => DerivedMbType::IntraQ,
        _ => DerivedMbType::Missing,
    }
}

pub(crate) fn header_of(mb_type: u32, cbpy: u8, cbpc: u8, flags: u32) -> MacroblockHeader
    ensures { result ≡ header_by mb_type cbpy cbpc flags }
{
    let kind = type_of(mb_type);
    MacroblockHeader {
        not_coded: not_coded(flags),
        mb_type: kind,
        cbpc,
        ac_pred_flag: ac_pred_flag(flags),
        cbpy,
    }
}

// The context of a call in a picture.
pub(crate) fn context_of(quantiser_scale: u32, flags: u32) -> MacroblockContext
    ensures { result ≡ context_by quantiser_scale flags }
{
    let idct_rounding = rounding_of(flags);
    MacroblockContext {
        quantiser_scale,
        ac_pred_flag: ac_pred_flag(flags),
        alternate_vertical_scan: alternate_vertical_scan(flags),
        intra_mismatch_exempt: intra_mismatch_exempt(flags),
        idct_rounding,
        use_intra_dc_vlc: use_intra_dc_vlc(flags),
        reversible_vlc: reversible_vlc(flags),
    }
}

// The context of a macroblock read alone.
pub(crate) fn texture_context_of(
    quantiser_scale: u32,
    bits_per_pixel: u32,
    flags: u32,
) -> MacroblockTextureContext
    ensures { result ≡ texture_context_by quantiser_scale bits_per_pixel flags }
{
    let idct_rounding = rounding_of(flags);
    MacroblockTextureContext {
        quantiser_scale,
        bits_per_pixel,
        quant_type: method_one(flags),
        ac_pred_flag: ac_pred_flag(flags),
        alternate_vertical_scan: alternate_vertical_scan(flags),
        intra_mismatch_exempt: intra_mismatch_exempt(flags),
        idct_rounding,
    }
}

// 64 numbers, row by row.
pub(crate) fn matrix_of(lent: &[u8]) -> [[u8; 8]; 8]
    requires { 64 ≤ length lent.now }
    ensures { result ≡ matrix_of lent.now }
{
    let mut w = [[0u8; 8]; 8];
    for v in 0..8 {
        for u in 0..8 {
            w[v][u] = lent[8 * v + u];
        }
    }
    w
}

// Width, height, depth, whether method 1, and how many macroblocks were accepted.
pub(crate) fn picture_of(state: &[u32]) -> Picture
    requires { 5 ≤ length state.now }
    ensures { result ≡ picture_of state.now }
{
    Picture {
        width: state[0],
        height: state[1],
        bits_per_pixel: state[2],
        quant_type: state[3] != 0,
        accepted: state[4],
    }
}

fn number_of(set: bool) -> u32
    ensures { result ≡ cond set 1 0 }
{
    u32::from(set)
}

pub(crate) fn put_picture(state: &mut [u32], p: Picture)
    requires { 5 ≤ length state.old }
    ensures { state.new ≡ state_after p state.old }
{
    state[0] = p.width;
    state[1] = p.height;
    state[2] = p.bits_per_pixel;
    state[3] = number_of(p.quant_type);
    state[4] = p.accepted;
}

// A negative number counts as 0.
fn quantiser_of(z: i32) -> u32
    ensures { result ≡ quantiser_of z }
{
    z.max(0) as u32
}

// Any number but 0 is yes.
fn is_there(z: i32) -> bool
    ensures { result ≡ there z }
{
    z != 0
}

// The seven numbers from `at` on.
fn seven(lent: &[i32], at: usize) -> [i32; 7]
    requires { (at ≤ 14) × (21 ≤ length lent.now) }
    ensures { result ≡ seven_from lent.now at }
{
    let mut out = [0i32; 7];
    out.copy_from_slice(&lent[at..at + 7]);
    out
}

// The DCs of A, B and C, the quantisers of A and C, whether A's column and C's row are there, and both.
pub(crate) fn neighbours_of(lent: &[i32]) -> BlockPredictors
    requires { 21 ≤ length lent.now }
    ensures { result ≡ neighbours_of lent.now }
{
    let column = seven(lent, 7);
    let row = seven(lent, 14);
    BlockPredictors {
        fa_dc: lent[0],
        fb_dc: lent[1],
        fc_dc: lent[2],
        qp_a: quantiser_of(lent[3]),
        qp_c: quantiser_of(lent[4]),
        a_has_column: is_there(lent[5]),
        a_first_column: column,
        c_has_row: is_there(lent[6]),
        c_first_row: row,
    }
}
