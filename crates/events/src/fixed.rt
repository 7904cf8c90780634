// Escapes of type 3 (7.4.1.3): last, run and level in fields of their own, each but last with a marker.
ghost use Rattle.std.specs.Prelude.{◌≡◌, ◌<◌, ◌≤◌};
ghost use Rattle.bits.specs.Bits.{bits_from};
ghost use Rattle.events.specs.Answer.{fixed_answer};
ghost use Rattle.events.specs.Event.{value_of};
ghost use Rattle.events.specs.EventReader.{level};
ghost use Rattle.events.specs.Inside.{SaysEvent, marked, settled};
ghost use Rattle.events.specs.Outcomes.{event_outcome, fixed_due};
ghost use Rattle.fields.specs.Inside.{Readable, SaysNumber};
ghost use Rattle.fields.specs.Reader.{mapped};

use crate::event::AcEvent;
use crate::spelling::Spelling;
use bits::Cursor;
use codes::TcoefTable;
use fields::TextureParseError;

// n bits of an escape and the marker after them.
pub(crate) fn read_marked(
    data: &[u8],
    c: Cursor,
    n: usize,
) -> Result<(u32, Cursor), TextureParseError>
    requires { Readable «data».now c × (n ≤ 32) }
    ensures { SaysNumber «data».now result (marked n (bits_from «data».now c.bit_pos)) }
{
    let (v, next) = fields::read_field(data, c, n)?;
    let missing = TextureParseError::EscapeMarkerBitMissing;
    let (_, after) = fields::read_marker(data, next, missing)?;
    Ok((v, after))
}

// The event of a type 3 escape, or 6.
fn settle(last: u32, run: u32, v: u32, next: Cursor) -> Result<(AcEvent, Cursor), TextureParseError>
    requires { v < 4096 }
    ensures { result ≡ settled last run v next }
{
    if v == 0 || v == 2048 {
        return Err(TextureParseError::ReservedEscapeLevel);
    }
    let level = crate::row::sign_extend12(v);
    Ok((
        AcEvent {
            last: last == 1,
            run,
            level,
            spelling: Spelling::Type3,
        },
        next,
    ))
}

// A type 3 level and its second marker.
fn read_level(
    data: &[u8],
    c: Cursor,
    table: TcoefTable,
    last: u32,
    run: u32,
) -> Result<(AcEvent, Cursor), TextureParseError>
    requires { Readable «data».now c }
    ensures { SaysEvent «data».now result (mapped (value_of table) (level last run (bits_from «data».now c.bit_pos))) }
{
    let (v, next) = read_marked(data, c, 12)?;
    settle(last, run, v, next)
}

// A type 3 escape, after its mode: last, the run and its marker, and the rest.
pub fn read_fixed(
    data: &[u8],
    c: Cursor,
    table: TcoefTable,
) -> Result<(AcEvent, Cursor), TextureParseError>
    ensures value { result ≡ fixed_answer «data».now c.bit_pos table }
    ensures outcome { event_outcome result ≡ fixed_due «data».now c.bit_pos table }
{
    let (last, next) = fields::read_field(data, c, 1)?;
    let (run, after) = read_marked(data, next, 6)?;
    read_level(data, after, table, last, run)
}
