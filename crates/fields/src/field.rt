// Fields and markers.
ghost use Rattle.std.specs.Prelude.{◌≡◌, length};
ghost use Rattle.bits.specs.Cursor.{in_data};
ghost use Rattle.fields.specs.Answer.{field_answer, marker_answer};
ghost use Rattle.fields.specs.Outcomes.{field_due, got_outcome, marker_due};

use crate::error::TextureParseError;
use bits::Cursor;

// Whether data may be read from a cursor on.
pub fn readable(data: &[u8], c: Cursor) -> bool
    ensures { result ≡ in_data (length «data».now) c.bit_pos }
{
    data.len() <= Cursor::MOST_BYTES && c.bit_pos <= 8 * data.len()
}

// n bits.
pub fn read_field(data: &[u8], c: Cursor, n: usize) -> Result<(u32, Cursor), TextureParseError>
    ensures value { result ≡ field_answer «data».now c.bit_pos n }
    ensures outcome { got_outcome result ≡ field_due «data».now c.bit_pos n }
{
    Ok(c.read_bits(data, n)?)
}

// A bit that must be 1.
pub fn read_marker(
    data: &[u8],
    c: Cursor,
    missing: TextureParseError,
) -> Result<(u32, Cursor), TextureParseError>
    ensures value { result ≡ marker_answer «data».now c.bit_pos missing }
    ensures outcome { got_outcome result ≡ marker_due «data».now c.bit_pos missing }
{
    let (m, next) = read_field(data, c, 1)?;
    if m == 1 {
        return Ok((m, next));
    }
    Err(missing)
}
