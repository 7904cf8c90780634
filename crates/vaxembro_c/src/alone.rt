// A macroblock read alone, with neighbours that are lent.
ghost use Rattle.std.specs.Prelude.{◌≡◌};
ghost use Rattle.vaxembro.specs.Calls.{left_alone, left_over, lent_alone};

// 14 where neighbours, matrix or answer is too short: then nothing is written but the answer.
#[unsafe(no_mangle)]
pub extern "C" fn vaxembro_decode_intra_macroblock(
    data: &[u8],
    at: usize,
    mb_type: u32,
    cbpy: u8,
    cbpc: u8,
    quantiser_scale: u32,
    bits_per_pixel: u32,
    flags: u32,
    neighbours: &[i32],
    matrix: &[u8],
    samples: &mut [i32],
    answer: &mut [usize],
) -> u32
    ensures { left_over result samples.new answer.new ≡ left_alone (lent_alone «data».now at mb_type cbpy cbpc quantiser_scale bits_per_pixel flags neighbours.now matrix.now samples.old answer.old) }
{
    vaxembro::vaxembro_decode_intra_macroblock(
        data,
        at,
        mb_type,
        cbpy,
        cbpc,
        quantiser_scale,
        bits_per_pixel,
        flags,
        neighbours,
        matrix,
        samples,
        answer,
    )
}
