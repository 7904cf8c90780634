// Calls whose header is in their bits; its fields go into six lent numbers. Of the flags the first two are not looked at.
ghost use Rattle.std.specs.Prelude.{◌≡◌};
ghost use Rattle.vaxembro.specs.Fields.{left_header, left_of_header, left_whole, left_whole_in, lent_header, lent_whole, lent_whole_in, whole_in, whole_left};

// Reads a header. 14 where header or answer is too short: then nothing is written but the answer.
#[unsafe(no_mangle)]
pub extern "C" fn vaxembro_parse_macroblock_header(
    data: &[u8],
    at: usize,
    quantiser_scale: u32,
    header: &mut [i32],
    answer: &mut [usize],
) -> u32
    ensures { left_header result header.new answer.new ≡ left_of_header (lent_header «data».now at quantiser_scale header.old answer.old) }
{
    vaxembro::vaxembro_parse_macroblock_header(data, at, quantiser_scale, header, answer)
}

// A whole macroblock read alone. 14 where neighbours, matrix, header or answer is too short: then nothing is written but the answer.
#[unsafe(no_mangle)]
pub extern "C" fn vaxembro_decode_intra_macroblock_with_header(
    data: &[u8],
    at: usize,
    quantiser_scale: u32,
    bits_per_pixel: u32,
    flags: u32,
    neighbours: &[i32],
    matrix: &[u8],
    samples: &mut [i32],
    header: &mut [i32],
    answer: &mut [usize],
) -> u32
    ensures { whole_left result samples.new header.new answer.new ≡ left_whole (lent_whole «data».now at quantiser_scale bits_per_pixel flags neighbours.now matrix.now samples.old header.old answer.old) }
{
    vaxembro::vaxembro_decode_intra_macroblock_with_header(
        data,
        at,
        quantiser_scale,
        bits_per_pixel,
        flags,
        neighbours,
        matrix,
        samples,
        header,
        answer,
    )
}

// The macroblock that is due, with its header. 14 where state, matrix, header or answer is too short: then nothing is written but the
// answer.
#[unsafe(no_mangle)]
pub extern "C" fn vaxembro_decode_macroblock_with_header(
    state: &mut [u32],
    data: &[u8],
    at: usize,
    quantiser_scale: u32,
    flags: u32,
    matrix: &[u8],
    samples: &mut [i32],
    store: &mut [i32],
    header: &mut [i32],
    answer: &mut [usize],
) -> u32
    ensures { whole_in result state.new samples.new store.new header.new answer.new ≡ left_whole_in (lent_whole_in state.old «data».now at quantiser_scale flags matrix.now samples.old store.old header.old answer.old) }
{
    vaxembro::vaxembro_decode_macroblock_with_header(
        state,
        data,
        at,
        quantiser_scale,
        flags,
        matrix,
        samples,
        store,
        header,
        answer,
    )
}
