// A macroblock read alone, with neighbours that are lent.
ghost use Rattle.std.specs.Prelude.{◌≡◌};
ghost use Rattle.vaxembro.specs.Calls.{left_alone, left_over, lent_alone};

use bits::Cursor;
use block::BlockAssemblyError;

// 14 where neighbours, matrix or answer is too short: then nothing is written but the answer.
pub fn vaxembro_decode_intra_macroblock(
    data: &[u8],
    at: usize,
    mb_type: u32,
    cbpy: u8,
    cbpc: u8,
    quantiser_scale: u32,
    bits_per_pixel: u32,
    flags: u32,
    neighbours: &[i32],
    matrix: &[u8],
    samples: &mut [i32],
    answer: &mut [usize],
) -> u32
    ensures { left_over result samples.new answer.new ≡ left_alone (lent_alone «data».now at mb_type cbpy cbpc quantiser_scale bits_per_pixel flags neighbours.now matrix.now samples.old answer.old) }
{
    if !crate::answer::long_enough(21, neighbours.len(), matrix.len(), answer.len()) {
        let short = crate::answer::refused(BlockAssemblyError::TooShort, at);
        return crate::answer::tell(answer, short);
    }
    let header = crate::lent::header_of(mb_type, cbpy, cbpc, flags);
    let dc_coded = crate::lent::use_intra_dc_vlc(flags);
    let rev = crate::lent::reversible_vlc(flags);
    let ctx = crate::lent::texture_context_of(quantiser_scale, bits_per_pixel, flags);
    let near = crate::lent::neighbours_of(neighbours);
    let w = crate::lent::matrix_of(matrix);
    let c = Cursor { bit_pos: at };
    let d = macroblock::decode_intra_macroblock(
        data, c, header, dc_coded, rev, ctx, near, w, samples,
    );
    let t = crate::answer::told_alone(d, at);
    crate::answer::tell(answer, t)
}
