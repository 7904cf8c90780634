// Codes of lent tables: a row whose code begins the bits.
ghost use Rattle.std.specs.Prelude.{cond, ◌≡◌};
ghost use Rattle.fields.specs.Answer.{CodeRead};
ghost use Rattle.fields.specs.Inside.{invalid};
ghost use Rattle.fields.specs.Outcomes.{CodeDue, got_outcome};
ghost use Rattle.fields.specs.declared.error.TextureParseError.TheVariants.{EndedInsideCode};

use crate::error::TextureParseError;
use bits::Cursor;

// Which table a code is of: what its refusal is called.
#[derive(Clone, Copy)]
pub enum CodeKind {
    DcSize,
    Tcoef,
    Header,
}

// The refusal of a window in which no code stands, but one may end.
fn no_code(kind: CodeKind, window: u32, ends_inside: bool) -> TextureParseError
    ensures { result ≡ cond ends_inside EndedInsideCode (invalid kind window) }
{
    if ends_inside {
        return TextureParseError::EndedInsideCode;
    }
    match kind {
        CodeKind::DcSize => TextureParseError::InvalidDcSize { window },
        CodeKind::Tcoef => TextureParseError::InvalidTcoef { window },
        CodeKind::Header => TextureParseError::InvalidHeader,
    }
}

// A code among the first `rows` of lent tables, of which 256 are asked at most, sought in `width` bits: its
// row. Where the codes of several rows begin the bits it is one of these.
pub fn read_code(
    data: &[u8],
    c: Cursor,
    codes: &[u32],
    lens: &[u32],
    width: usize,
    rows: usize,
    kind: CodeKind,
) -> Result<(u32, Cursor), TextureParseError>
    ensures code_read { CodeRead «data».now c.bit_pos codes.now lens.now width rows (invalid kind) result }
    ensures outcome { CodeDue «data».now c.bit_pos codes.now lens.now width rows (invalid kind) (got_outcome result) }
{
    let at = c.bit_pos;
    let most = rows.min(256).min(codes.len().min(lens.len()));
    let (window, n) = c.next_window(data, width)?;
    let row = codes::find_row(codes, lens, most, window, n);
    if row < most {
        return Ok((
            row as u32,
            Cursor {
                bit_pos: at + lens[row] as usize,
            },
        ));
    }
    let ends_inside = codes::ends_inside(codes, lens, most, window, n);
    Err(no_code(kind, window, ends_inside))
}
