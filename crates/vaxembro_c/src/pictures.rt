// A picture whose state is lent: its opening, and the macroblock that is due.
ghost use Rattle.std.specs.Prelude.{cond, ◌≡◌};
ghost use Rattle.vaxembro.specs.Calls.{left, left_in, lent, opened_by, opened_number, opened_state, state_long};

// Opens a picture. 11 or 12 where there is none, 14 where the state is too short.
#[unsafe(no_mangle)]
pub extern "C" fn vaxembro_open(
    width: u32,
    height: u32,
    bits_per_pixel: u32,
    quant_type: u32,
    state: &mut [u32],
) -> u32
    ensures value { result ≡ cond (state_long state.old) (opened_number (opened_by width height bits_per_pixel quant_type)) 14 }
    ensures state { state.new ≡ cond (state_long state.old) (opened_state (opened_by width height bits_per_pixel quant_type) state.old) state.old }
{
    vaxembro::vaxembro_open(width, height, bits_per_pixel, quant_type, state)
}

// The macroblock that is due. 14 where state, matrix or answer is too short: then nothing is written but the answer.
#[unsafe(no_mangle)]
pub extern "C" fn vaxembro_decode_macroblock(
    state: &mut [u32],
    data: &[u8],
    at: usize,
    mb_type: u32,
    cbpy: u8,
    cbpc: u8,
    quantiser_scale: u32,
    flags: u32,
    matrix: &[u8],
    samples: &mut [i32],
    store: &mut [i32],
    answer: &mut [usize],
) -> u32
    ensures { left result state.new samples.new store.new answer.new ≡ left_in (lent state.old «data».now at mb_type cbpy cbpc quantiser_scale flags matrix.now samples.old store.old answer.old) }
{
    vaxembro::vaxembro_decode_macroblock(
        state,
        data,
        at,
        mb_type,
        cbpy,
        cbpc,
        quantiser_scale,
        flags,
        matrix,
        samples,
        store,
        answer,
    )
}
