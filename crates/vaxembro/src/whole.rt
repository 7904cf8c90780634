// Calls whose header is in their bits; its fields go into six lent numbers. Of the flags the first two are not looked at.
ghost use Rattle.std.specs.Prelude.{◌≡◌, ◌≤◌, length};
ghost use Rattle.vaxembro.specs.Fields.{left_header, left_of_header, left_whole, left_whole_in, lent_header, lent_whole, lent_whole_in, whole_in, whole_left, whole_state_out};

use bits::Cursor;
use block::BlockAssemblyError;
use picture::PictureWholeDecoded;

// Reads a header. 14 where header or answer is too short: then nothing is written but the answer.
pub fn vaxembro_parse_macroblock_header(
    data: &[u8],
    at: usize,
    quantiser_scale: u32,
    header: &mut [i32],
    answer: &mut [usize],
) -> u32
    ensures { left_header result header.new answer.new ≡ left_of_header (lent_header «data».now at quantiser_scale header.old answer.old) }
{
    if !crate::answer::long_enough(crate::header::HEADER, header.len(), 64, answer.len()) {
        let short = crate::answer::refused(BlockAssemblyError::TooShort, at);
        return crate::answer::tell(answer, short);
    }
    let c = Cursor { bit_pos: at };
    let r = headers::parse_macroblock_header(data, c, quantiser_scale);
    crate::header::put_read(header, r);
    let t = crate::header::told_of_header(r, at);
    crate::answer::tell(answer, t)
}

// A whole macroblock read alone. 14 where neighbours, matrix, header or answer is too short: then nothing is written but the answer.
pub fn vaxembro_decode_intra_macroblock_with_header(
    data: &[u8],
    at: usize,
    quantiser_scale: u32,
    bits_per_pixel: u32,
    flags: u32,
    neighbours: &[i32],
    matrix: &[u8],
    samples: &mut [i32],
    header: &mut [i32],
    answer: &mut [usize],
) -> u32
    ensures { whole_left result samples.new header.new answer.new ≡ left_whole (lent_whole «data».now at quantiser_scale bits_per_pixel flags neighbours.now matrix.now samples.old header.old answer.old) }
{
    if !crate::answer::long_enough(21, neighbours.len(), matrix.len(), answer.len()) {
        let short = crate::answer::refused(BlockAssemblyError::TooShort, at);
        return crate::answer::tell(answer, short);
    }
    if header.len() < crate::header::HEADER {
        let short = crate::answer::refused(BlockAssemblyError::TooShort, at);
        return crate::answer::tell(answer, short);
    }
    let dc_coded = crate::lent::use_intra_dc_vlc(flags);
    let rev = crate::lent::reversible_vlc(flags);
    let ctx = crate::lent::texture_context_of(quantiser_scale, bits_per_pixel, flags);
    let near = crate::lent::neighbours_of(neighbours);
    let w = crate::lent::matrix_of(matrix);
    let c = Cursor { bit_pos: at };
    let d = macroblock::decode_intra_macroblock_with_header(
        data, c, dc_coded, rev, ctx, near, w, samples,
    );
    crate::header::put_whole(header, d);
    let t = crate::header::told_whole(d, at);
    crate::answer::tell(answer, t)
}

// The picture with one more accepted into the state; a refusal leaves it.
fn onward(state: &mut [u32], d: Result<PictureWholeDecoded, BlockAssemblyError>)
    requires { 5 ≤ length state.old }
    ensures { state.new ≡ whole_state_out d state.old }
{
    if let Ok(told) = d {
        crate::lent::put_picture(state, told.picture);
    }
}

// The macroblock that is due, with its header. 14 where state, matrix, header or answer is too short: then nothing is written but the
// answer.
pub fn vaxembro_decode_macroblock_with_header(
    state: &mut [u32],
    data: &[u8],
    at: usize,
    quantiser_scale: u32,
    flags: u32,
    matrix: &[u8],
    samples: &mut [i32],
    store: &mut [i32],
    header: &mut [i32],
    answer: &mut [usize],
) -> u32
    ensures { whole_in result state.new samples.new store.new header.new answer.new ≡ left_whole_in (lent_whole_in state.old «data».now at quantiser_scale flags matrix.now samples.old store.old header.old answer.old) }
{
    if !crate::answer::long_enough(5, state.len(), matrix.len(), answer.len()) {
        let short = crate::answer::refused(BlockAssemblyError::TooShort, at);
        return crate::answer::tell(answer, short);
    }
    if header.len() < crate::header::HEADER {
        let short = crate::answer::refused(BlockAssemblyError::TooShort, at);
        return crate::answer::tell(answer, short);
    }
    let p = crate::lent::picture_of(&*state);
    let m = crate::lent::context_of(quantiser_scale, flags);
    let w = crate::lent::matrix_of(matrix);
    let c = Cursor { bit_pos: at };
    let d = picture::decode_macroblock_with_header(p, data, c, m, w, samples, store);
    onward(state, d);
    crate::header::put_whole_in(header, d);
    let t = crate::header::told_whole_in(d, at);
    crate::answer::tell(answer, t)
}
