// A whole macroblock out of bits: its header, then its blocks with the header's quantiser and flag.
ghost use Rattle.std.specs.Prelude.{◌≡◌, length, Ok};
ghost use Rattle.headers.specs.Answer.{header_told};
ghost use Rattle.headers.specs.Fields.{context_with};
ghost use Rattle.headers.specs.HeaderReader.{read_header};
ghost use Rattle.bits.specs.Bits.{bits_from};
ghost use Rattle.macroblock.specs.Answer.{room_of};
ghost use Rattle.macroblock.specs.WholeAnswer.{WholeAnswered, samples_whole, whole_of, whole_told};

use bits::Cursor;
use block::{BlockAssemblyError, MacroblockTextureContext};
use coefficients::BlockPredictors;
use headers::HeaderFields;
use texture::Spellings;

// The number of bits taken, the header's among them, the cursor after them, the number of events of each spelling and the
// header's fields.
#[derive(Clone, Copy)]
pub struct WholeDecoded {
    pub bits: usize,
    pub next: Cursor,
    pub spellings: Spellings,
    pub fields: HeaderFields,
}

// The context with a header's quantiser and flag.
fn context_with(ctx: MacroblockTextureContext, fields: HeaderFields) -> MacroblockTextureContext
    ensures { result ≡ context_with fields ctx }
{
    let header = fields.header;
    let mut x = ctx;
    x.quantiser_scale = fields.quantiser_scale;
    x.ac_pred_flag = header.ac_pred_flag;
    x
}

// Once the header is read up to `next`: its blocks.
fn decode_after(
    data: &[u8],
    c: Cursor,
    next: Cursor,
    fields: HeaderFields,
    use_intra_dc_vlc: bool,
    reversible_vlc: bool,
    ctx: MacroblockTextureContext,
    predictors: BlockPredictors,
    w: [[u8; 8]; 8],
    samples: &mut [i32],
) -> Result<WholeDecoded, BlockAssemblyError>
    requires { (room_of «data».now c.bit_pos ctx predictors w (length samples.old) ≡ Ok tt) × (Ok (fields, next) ≡ header_told «data».now ctx.quantiser_scale (read_header (bits_from «data».now c.bit_pos))) }
    ensures value { result ≡ whole_told «data».now c.bit_pos ctx.quantiser_scale (whole_of «data».now c.bit_pos use_intra_dc_vlc reversible_vlc) }
    ensures samples { samples.new ≡ samples_whole use_intra_dc_vlc ctx predictors w (whole_of «data».now c.bit_pos use_intra_dc_vlc reversible_vlc) samples.old }
{
    let header = fields.header;
    let x = context_with(ctx, fields);
    let pattern = block::pattern_code(header.cbpy, header.cbpc);
    let mut rows = [[0i32; 64]; 6];
    let mut ends = [0usize; 6];
    let (after, spellings) = window_reader::read_six(
        data,
        next,
        pattern,
        use_intra_dc_vlc,
        reversible_vlc,
        &mut rows,
        &mut ends,
    )?;
    crate::six::samples_of_six(&rows, ends, x, predictors, w, samples)?;
    let bits = after.bit_pos - c.bit_pos;
    Ok(WholeDecoded {
        bits,
        next: after,
        spellings,
        fields,
    })
}

// A macroblock read alone with its header in its bits; the context's quantiser is the one before the header, its flag is not
// looked at. All that is promised is in `WholeAnswered`.
pub fn decode_intra_macroblock_with_header(
    data: &[u8],
    c: Cursor,
    use_intra_dc_vlc: bool,
    reversible_vlc: bool,
    ctx: MacroblockTextureContext,
    predictors: BlockPredictors,
    quant_matrix: [[u8; 8]; 8],
    samples: &mut [i32],
) -> Result<WholeDecoded, BlockAssemblyError>
    ensures { WholeAnswered «data».now c.bit_pos use_intra_dc_vlc reversible_vlc ctx predictors quant_matrix samples.old result samples.new }
{
    let room = samples.len();
    crate::decode::check_room(data, c, ctx, predictors, quant_matrix, room)?;
    let (fields, next) = headers::parse_macroblock_header(data, c, ctx.quantiser_scale)?;
    decode_after(
        data,
        c,
        next,
        fields,
        use_intra_dc_vlc,
        reversible_vlc,
        ctx,
        predictors,
        quant_matrix,
        samples,
    )
}
