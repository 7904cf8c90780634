// A picture whose state is lent: its opening, and the macroblock that is due.
ghost use Rattle.std.specs.Prelude.{cond, ◌≡◌, ◌≤◌, length};
ghost use Rattle.vaxembro.specs.Calls.{left, left_in, lent, opened_by, opened_number, opened_state, state_long, state_out};

use bits::Cursor;
use block::BlockAssemblyError;
use picture::{Picture, PictureDecoded};

// The opened picture into the state; a refusal leaves it, and its number is the answer.
fn opened(state: &mut [u32], o: Result<Picture, BlockAssemblyError>) -> u32
    requires { 5 ≤ length state.old }
    ensures { (result ≡ opened_number o) × (state.new ≡ opened_state o state.old) }
{
    match o {
        Err(e) => e.number(),
        Ok(p) => {
            crate::lent::put_picture(state, p);
            0
        }
    }
}

// Opens a picture. 11 or 12 where there is none, 14 where the state is too short.
pub fn vaxembro_open(
    width: u32,
    height: u32,
    bits_per_pixel: u32,
    quant_type: u32,
    state: &mut [u32],
) -> u32
    ensures value { result ≡ cond (state_long state.old) (opened_number (opened_by width height bits_per_pixel quant_type)) 14 }
    ensures state { state.new ≡ cond (state_long state.old) (opened_state (opened_by width height bits_per_pixel quant_type) state.old) state.old }
{
    if state.len() < 5 {
        return 14;
    }
    let o = Picture::open(width, height, bits_per_pixel, quant_type != 0);
    opened(state, o)
}

// The picture with one more accepted into the state; a refusal leaves it.
fn onward(state: &mut [u32], d: Result<PictureDecoded, BlockAssemblyError>)
    requires { 5 ≤ length state.old }
    ensures { state.new ≡ state_out d state.old }
{
    if let Ok(told) = d {
        crate::lent::put_picture(state, told.picture);
    }
}

// The macroblock that is due. 14 where state, matrix or answer is too short: then nothing is written but the answer.
pub fn vaxembro_decode_macroblock(
    state: &mut [u32],
    data: &[u8],
    at: usize,
    mb_type: u32,
    cbpy: u8,
    cbpc: u8,
    quantiser_scale: u32,
    flags: u32,
    matrix: &[u8],
    samples: &mut [i32],
    store: &mut [i32],
    answer: &mut [usize],
) -> u32
    ensures { left result state.new samples.new store.new answer.new ≡ left_in (lent state.old «data».now at mb_type cbpy cbpc quantiser_scale flags matrix.now samples.old store.old answer.old) }
{
    if !crate::answer::long_enough(5, state.len(), matrix.len(), answer.len()) {
        let short = crate::answer::refused(BlockAssemblyError::TooShort, at);
        return crate::answer::tell(answer, short);
    }
    let p = crate::lent::picture_of(&*state);
    let header = crate::lent::header_of(mb_type, cbpy, cbpc, flags);
    let m = crate::lent::context_of(quantiser_scale, flags);
    let w = crate::lent::matrix_of(matrix);
    let c = Cursor { bit_pos: at };
    let d = picture::decode_macroblock(p, data, c, header, m, w, samples, store);
    onward(state, d);
    let t = crate::answer::told_in_picture(d, at);
    crate::answer::tell(answer, t)
}
