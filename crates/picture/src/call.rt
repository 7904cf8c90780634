// One call: the macroblock that is due.
ghost use Rattle.std.specs.Prelude.{◌≡◌, Ok};
ghost use Rattle.picture_state.specs.Picture.{context_of};
ghost use Rattle.picture_state.specs.State.{due_of};
ghost use Rattle.picture.specs.Answered.{Answered};
ghost use Rattle.picture.specs.Call.{given, state_here};

use bits::Cursor;
use block::BlockAssemblyError;
use headers::MacroblockHeader;
use picture_state::{Due, MacroblockContext, Picture};
use texture::Spellings;

// The number of bits taken, the cursor after them, the number of events of each spelling and the picture with one more
// accepted.
#[derive(Clone, Copy)]
pub struct PictureDecoded {
    pub bits: usize,
    pub next: Cursor,
    pub spellings: Spellings,
    pub picture: Picture,
}

// Once the state is checked: all bits first, then the samples, then the record.
pub(crate) fn decode_due(
    p: Picture,
    data: &[u8],
    c: Cursor,
    header: MacroblockHeader,
    m: MacroblockContext,
    w: [[u8; 8]; 8],
    due: Due,
    samples: &mut [i32],
    store: &mut [i32],
) -> Result<PictureDecoded, BlockAssemblyError>
    requires { (state_here p (given «data».now c.bit_pos header m w samples.old) store.old ≡ Ok tt) × (due ≡ due_of p (context_of p m)) }
    ensures { Answered p (given «data».now c.bit_pos header m w samples.old) store.old result samples.new store.new }
{
    let pattern = block::pattern_code(header.cbpy, header.cbpc);
    let mut rows = [[0i32; 64]; 6];
    let mut ends = [0usize; 6];
    let (next, spellings) = window_reader::read_six(
        data,
        c,
        pattern,
        m.use_intra_dc_vlc,
        m.reversible_vlc,
        &mut rows,
        &mut ends,
    )?;
    crate::reconstruct::reconstruct(due, &rows, ends, w, samples, store);
    let mut onward = p;
    onward.accepted = p.accepted + 1;
    let bits = next.bit_pos - c.bit_pos;
    Ok(PictureDecoded {
        bits,
        next,
        spellings,
        picture: onward,
    })
}

// The macroblock that is due: what is answered, what samples and store hold, demand 3, and the answer by number.
pub fn decode_macroblock(
    p: Picture,
    data: &[u8],
    c: Cursor,
    header: MacroblockHeader,
    m: MacroblockContext,
    quant_matrix: [[u8; 8]; 8],
    samples: &mut [i32],
    store: &mut [i32],
) -> Result<PictureDecoded, BlockAssemblyError>
    ensures { Answered p (given «data».now c.bit_pos header m quant_matrix samples.old) store.old result samples.new store.new }
{
    let room = samples.len();
    let due = picture_state::check_state(p, data, c, header, m, quant_matrix, room, &*store)?;
    decode_due(p, data, c, header, m, quant_matrix, due, samples, store)
}
