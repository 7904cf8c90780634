// Escapes of reversible codes (7.4.1.3): last, run, magnitude, a delimiter and the sign in fields of their own.
ghost use Rattle.std.specs.Prelude.{◌≡◌, ◌<◌};
ghost use Rattle.bits.specs.Bits.{bits_from};
ghost use Rattle.events.specs.Answer.{rvlc_escape_answer};
ghost use Rattle.events.specs.Event.{value_of};
ghost use Rattle.events.specs.EventReader.{rvlc_delimiter, rvlc_magnitude, rvlc_sign};
ghost use Rattle.events.specs.Inside.{SaysEvent, rvlc_settled};
ghost use Rattle.events.specs.Outcomes.{event_outcome, rvlc_escape_due};
ghost use Rattle.fields.specs.Inside.{Readable};
ghost use Rattle.fields.specs.Reader.{mapped};

use crate::event::AcEvent;
use crate::spelling::Spelling;
use bits::Cursor;
use codes::TcoefTable;
use fields::TextureParseError;

// The event of a reversible escape, or 6.
fn settle(
    last: u32,
    run: u32,
    magnitude: u32,
    sign: u32,
    next: Cursor,
) -> Result<(AcEvent, Cursor), TextureParseError>
    requires { magnitude < 2048 }
    ensures { result ≡ rvlc_settled last run magnitude sign next }
{
    if magnitude == 0 {
        return Err(TextureParseError::ReservedEscapeLevel);
    }
    let level = crate::row::signed_level(sign, magnitude);
    Ok((
        AcEvent {
            last: last == 1,
            run,
            level,
            spelling: Spelling::RvlcEscape,
        },
        next,
    ))
}

// The sign of an escape.
fn read_escape_sign(
    data: &[u8],
    c: Cursor,
    table: TcoefTable,
    last: u32,
    run: u32,
    magnitude: u32,
) -> Result<(AcEvent, Cursor), TextureParseError>
    requires { Readable «data».now c × (magnitude < 2048) }
    ensures { SaysEvent «data».now result (mapped (value_of table) (rvlc_sign last run magnitude (bits_from «data».now c.bit_pos))) }
{
    let (sign, next) = fields::read_field(data, c, 1)?;
    settle(last, run, magnitude, sign, next)
}

// The delimiter 0000 and the sign.
fn read_delimiter(
    data: &[u8],
    c: Cursor,
    table: TcoefTable,
    last: u32,
    run: u32,
    magnitude: u32,
) -> Result<(AcEvent, Cursor), TextureParseError>
    requires { Readable «data».now c × (magnitude < 2048) }
    ensures { SaysEvent «data».now result (mapped (value_of table) (rvlc_delimiter last run magnitude (bits_from «data».now c.bit_pos))) }
{
    let (window, next) = fields::read_field(data, c, 4)?;
    if window == 0 {
        return read_escape_sign(data, next, table, last, run, magnitude);
    }
    Err(TextureParseError::RvlcEscapeDelimiterMissing { window })
}

// The magnitude, its second marker and the rest.
fn read_magnitude(
    data: &[u8],
    c: Cursor,
    table: TcoefTable,
    last: u32,
    run: u32,
) -> Result<(AcEvent, Cursor), TextureParseError>
    requires { Readable «data».now c }
    ensures { SaysEvent «data».now result (mapped (value_of table) (rvlc_magnitude last run (bits_from «data».now c.bit_pos))) }
{
    let (m, next) = crate::fixed::read_marked(data, c, 11)?;
    read_delimiter(data, next, table, last, run, m)
}

// What follows the escape code: last, the run and its marker, and the rest.
pub fn read_rvlc_escape(
    data: &[u8],
    c: Cursor,
    table: TcoefTable,
) -> Result<(AcEvent, Cursor), TextureParseError>
    ensures value { result ≡ rvlc_escape_answer «data».now c.bit_pos table }
    ensures outcome { event_outcome result ≡ rvlc_escape_due «data».now c.bit_pos table }
{
    let (last, next) = fields::read_field(data, c, 1)?;
    let (run, after) = crate::fixed::read_marked(data, next, 6)?;
    read_magnitude(data, after, table, last, run)
}
