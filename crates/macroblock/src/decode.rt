// A macroblock out of bits into 384 samples.
ghost use Rattle.std.specs.Prelude.{◌≡◌, length, Ok};
ghost use Rattle.macroblock.specs.Answer.{macroblock_answer, room_of, samples_out, samples_told, sentence_of, state_of, told};
ghost use Rattle.macroblock.specs.Alone.{DemandAlone, StoppedAlone};
ghost use Rattle.macroblock.specs.Outcomes.{macroblock_due, macroblock_outcome};

use bits::Cursor;
use block::{BlockAssemblyError, MacroblockTextureContext};
use coefficients::BlockPredictors;
use headers::MacroblockHeader;
use texture::Spellings;

// The number of bits taken, the cursor after them and the number of events of each spelling.
#[derive(Clone, Copy)]
pub struct MacroblockDecoded {
    pub bits: usize,
    pub next: Cursor,
    pub spellings: Spellings,
}

// The state without a header: 11, 12, 13, 14.
pub(crate) fn check_room(
    data: &[u8],
    c: Cursor,
    ctx: MacroblockTextureContext,
    predictors: BlockPredictors,
    w: [[u8; 8]; 8],
    room: usize,
) -> Result<(), BlockAssemblyError>
    ensures { result ≡ room_of «data».now c.bit_pos ctx predictors w room }
{
    block::check(data, c, ctx, predictors, w)?;
    if room < samples::SAMPLES {
        return Err(BlockAssemblyError::TooShort);
    }
    Ok(())
}

// The state, before any bit: 11, 12, 13, 14, 9, 10.
fn check_state(
    data: &[u8],
    c: Cursor,
    header: MacroblockHeader,
    ctx: MacroblockTextureContext,
    predictors: BlockPredictors,
    w: [[u8; 8]; 8],
    room: usize,
) -> Result<(), BlockAssemblyError>
    ensures { result ≡ state_of «data».now c.bit_pos header ctx predictors w room }
{
    check_room(data, c, ctx, predictors, w, room)?;
    headers::check_header(header)
}

// Once the state is checked: all bits first, then the samples.
pub(crate) fn decode_checked(
    data: &[u8],
    c: Cursor,
    header: MacroblockHeader,
    use_intra_dc_vlc: bool,
    reversible_vlc: bool,
    ctx: MacroblockTextureContext,
    predictors: BlockPredictors,
    w: [[u8; 8]; 8],
    samples: &mut [i32],
) -> Result<MacroblockDecoded, BlockAssemblyError>
    requires { state_of «data».now c.bit_pos header ctx predictors w (length samples.old) ≡ Ok tt }
    ensures value { result ≡ told «data».now c.bit_pos (sentence_of «data».now c.bit_pos header use_intra_dc_vlc reversible_vlc) }
    ensures samples { samples.new ≡ samples_told header use_intra_dc_vlc ctx predictors w (sentence_of «data».now c.bit_pos header use_intra_dc_vlc reversible_vlc) samples.old }
{
    let pattern = block::pattern_code(header.cbpy, header.cbpc);
    let mut rows = [[0i32; 64]; 6];
    let mut ends = [0usize; 6];
    let (next, spellings) = window_reader::read_six(
        data,
        c,
        pattern,
        use_intra_dc_vlc,
        reversible_vlc,
        &mut rows,
        &mut ends,
    )?;
    crate::six::samples_of_six(&rows, ends, ctx, predictors, w, samples)?;
    let bits = next.bit_pos - c.bit_pos;
    Ok(MacroblockDecoded {
        bits,
        next,
        spellings,
    })
}

// A macroblock read alone: what is answered, what the samples hold, demand 3, the answer by number, and what is told
// where its sentence breaks off.
pub fn decode_intra_macroblock(
    data: &[u8],
    c: Cursor,
    header: MacroblockHeader,
    use_intra_dc_vlc: bool,
    reversible_vlc: bool,
    ctx: MacroblockTextureContext,
    predictors: BlockPredictors,
    quant_matrix: [[u8; 8]; 8],
    samples: &mut [i32],
) -> Result<MacroblockDecoded, BlockAssemblyError>
    ensures value { result ≡ macroblock_answer «data».now c.bit_pos header use_intra_dc_vlc reversible_vlc ctx predictors quant_matrix samples.old }
    ensures samples { samples.new ≡ samples_out «data».now c.bit_pos header use_intra_dc_vlc reversible_vlc ctx predictors quant_matrix samples.old }
    ensures demand { DemandAlone «data».now c.bit_pos header use_intra_dc_vlc reversible_vlc ctx predictors quant_matrix samples.old result samples.new }
    ensures outcome { macroblock_outcome result ≡ macroblock_due «data».now c.bit_pos header use_intra_dc_vlc reversible_vlc ctx predictors quant_matrix (length samples.old) }
    ensures stopped { StoppedAlone «data».now c.bit_pos header use_intra_dc_vlc reversible_vlc ctx predictors quant_matrix (length samples.old) result }
{
    let room = samples.len();
    check_state(data, c, header, ctx, predictors, quant_matrix, room)?;
    decode_checked(
        data,
        c,
        header,
        use_intra_dc_vlc,
        reversible_vlc,
        ctx,
        predictors,
        quant_matrix,
        samples,
    )
}
