// A row of a lent table and its sign as an event.
ghost use Rattle.std.specs.Prelude.{◌≡◌, ◌<◌, ◌≤◌, get_or};
ghost use Rattle.events.specs.Answer.{sign_answer};
ghost use Rattle.events.specs.Event.{signed12, signed_by};
ghost use Rattle.events.specs.Outcomes.{event_outcome, sign_due};
ghost use Rattle.events.specs.Rows.{row_event, row_of};

use crate::event::{AcEvent, RowForm};
use crate::spelling::Spelling;
use bits::Cursor;
use fields::TextureParseError;

// A magnitude with a sign, 1 for minus.
pub(crate) fn signed_level(sign: u32, size: u32) -> i32
    requires { size ≤ 4096 }
    ensures { result ≡ signed_by sign size }
{
    let x = size as i32;
    if sign == 1 { -x } else { x }
}

// A 12-bit field, read as two's complement.
pub(crate) fn sign_extend12(raw: u32) -> i32
    requires { raw < 4096 }
    ensures { result ≡ signed12 raw }
{
    if 2048 <= raw {
        (raw as i32) - 4096
    } else {
        raw as i32
    }
}

// A number of a lent table; 0 past its end.
fn number(events: &[u8], at: usize) -> u32
    ensures { (result ≡ get_or events.now at 0) × (result < 256) }
{
    u32::from(events.get(at).copied().unwrap_or(0))
}

// The event of a row and a sign: columns of `rows` numbers hold last, run and level, and the magnitude
// and the run are raised.
fn row_event(
    events: &[u8],
    rows: usize,
    row: usize,
    sign: u32,
    more_level: u32,
    more_run: u32,
    spelling: Spelling,
) -> AcEvent
    requires { (rows ≤ 169) × (row ≤ 4294967295) × (more_level ≤ 256) × (more_run ≤ 256) }
    ensures { result ≡ row_event events.now rows row sign more_level more_run spelling }
{
    let last = number(events, row) == 1;
    let run = number(events, rows + row) + more_run;
    let level = signed_level(sign, number(events, 2 * rows + row) + more_level);
    AcEvent {
        last,
        run,
        level,
        spelling,
    }
}

// The event of a row and a sign: type 1 raises the magnitude by LMAX, type 2 the run by RMAX + 1.
fn event_of(events: &[u8], row: usize, sign: u32, form: RowForm) -> AcEvent
    requires { row ≤ 4294967295 }
    ensures { result ≡ row_of events.now form row sign }
{
    match form {
        RowForm::Plain => row_event(events, 102, row, sign, 0, 0, Spelling::Plain),
        RowForm::Type1 => {
            let more = number(events, 306 + row);
            row_event(events, 102, row, sign, more, 0, Spelling::Type1)
        }
        RowForm::Type2 => {
            let more = number(events, 408 + row) + 1;
            row_event(events, 102, row, sign, 0, more, Spelling::Type2)
        }
        RowForm::Reversible => row_event(events, 169, row, sign, 0, 0, Spelling::Plain),
    }
}

// The sign of a row of a lent table, and the event.
pub fn read_sign(
    data: &[u8],
    c: Cursor,
    events: &[u8],
    row: u32,
    form: RowForm,
) -> Result<(AcEvent, Cursor), TextureParseError>
    ensures value { result ≡ sign_answer «data».now c.bit_pos events.now form row }
    ensures outcome { event_outcome result ≡ sign_due «data».now c.bit_pos events.now form row }
{
    let (sign, next) = fields::read_field(data, c, 1)?;
    let v = event_of(events, row as usize, sign, form);
    Ok((v, next))
}
