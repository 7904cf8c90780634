// One call whose header is in its bits: the header, then the macroblock that is due with the header's quantiser and flag.
ghost use Rattle.std.specs.Prelude.{◌≡◌, Ok};
ghost use Rattle.headers.specs.Answer.{header_told};
ghost use Rattle.headers.specs.HeaderReader.{read_header};
ghost use Rattle.bits.specs.Bits.{bits_from};
ghost use Rattle.picture_state.specs.Picture.{context_of};
ghost use Rattle.picture_state.specs.State.{due_of};
ghost use Rattle.picture.specs.Whole.{bare, call_with, due_with, state_bare};
ghost use Rattle.picture.specs.WholeAnswered.{WholeAnswered};

use bits::Cursor;
use block::{BlockAssemblyError, MacroblockTextureContext};
use headers::HeaderFields;
use neighbours::Place;
use picture_state::{Due, MacroblockContext, Picture};
use texture::Spellings;

// The number of bits taken, the header's among them, the cursor after them, the number of events of each spelling, the picture
// with one more accepted and the header's fields.
#[derive(Clone, Copy)]
pub struct PictureWholeDecoded {
    pub bits: usize,
    pub next: Cursor,
    pub spellings: Spellings,
    pub picture: Picture,
    pub fields: HeaderFields,
}

// What a call brings, with a header's quantiser and flag.
fn context_with(m: MacroblockContext, fields: HeaderFields) -> MacroblockContext
    ensures { result ≡ call_with fields m }
{
    MacroblockContext {
        quantiser_scale: fields.quantiser_scale,
        ac_pred_flag: fields.header.ac_pred_flag,
        ..m
    }
}

// The macroblock that is due, with a header's quantiser and flag.
fn due_with(due: Due, fields: HeaderFields) -> Due
    ensures { result ≡ due_with fields due }
{
    Due {
        context: MacroblockTextureContext {
            quantiser_scale: fields.quantiser_scale,
            ac_pred_flag: fields.header.ac_pred_flag,
            ..due.context
        },
        place: Place {
            quantiser_scale: fields.quantiser_scale,
            ..due.place
        },
        own: due.own,
    }
}

// Once the header is read up to `next`: its blocks.
fn decode_after(
    p: Picture,
    data: &[u8],
    c: Cursor,
    next: Cursor,
    fields: HeaderFields,
    m: MacroblockContext,
    w: [[u8; 8]; 8],
    due: Due,
    samples: &mut [i32],
    store: &mut [i32],
) -> Result<PictureWholeDecoded, BlockAssemblyError>
    requires { (state_bare p (bare «data».now c.bit_pos m w samples.old) store.old ≡ Ok tt) × (due ≡ due_of p (context_of p m)) × (Ok (fields, next) ≡ header_told «data».now m.quantiser_scale (read_header (bits_from «data».now c.bit_pos))) }
    ensures { WholeAnswered p (bare «data».now c.bit_pos m w samples.old) store.old result samples.new store.new }
{
    let header = fields.header;
    let x = context_with(m, fields);
    let there = due_with(due, fields);
    let pattern = block::pattern_code(header.cbpy, header.cbpc);
    let mut rows = [[0i32; 64]; 6];
    let mut ends = [0usize; 6];
    let (after, spellings) = window_reader::read_six(
        data,
        next,
        pattern,
        x.use_intra_dc_vlc,
        x.reversible_vlc,
        &mut rows,
        &mut ends,
    )?;
    crate::reconstruct::reconstruct(there, &rows, ends, w, samples, store);
    let mut onward = p;
    onward.accepted = p.accepted + 1;
    let bits = after.bit_pos - c.bit_pos;
    Ok(PictureWholeDecoded {
        bits,
        next: after,
        spellings,
        picture: onward,
        fields,
    })
}

// The macroblock that is due, with its header in its bits; the context's quantiser is the one before the header, its flag is not
// looked at. All that is promised is in `WholeAnswered`.
pub fn decode_macroblock_with_header(
    p: Picture,
    data: &[u8],
    c: Cursor,
    m: MacroblockContext,
    quant_matrix: [[u8; 8]; 8],
    samples: &mut [i32],
    store: &mut [i32],
) -> Result<PictureWholeDecoded, BlockAssemblyError>
    ensures { WholeAnswered p (bare «data».now c.bit_pos m quant_matrix samples.old) store.old result samples.new store.new }
{
    let room = samples.len();
    let due = picture_state::check_before_header(p, data, c, m, quant_matrix, room, &*store)?;
    let (fields, next) = headers::parse_macroblock_header(data, c, m.quantiser_scale)?;
    decode_after(
        p,
        data,
        c,
        next,
        fields,
        m,
        quant_matrix,
        due,
        samples,
        store,
    )
}
