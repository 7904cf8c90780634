// One event: a code and its sign, or an escape (7.4.1.3), by lent tables.
ghost use Rattle.std.specs.Prelude.{◌≡◌, false, true};
ghost use Rattle.bits.specs.Bits.{bits_from};
ghost use Rattle.events.specs.Answer.{event_answer};
ghost use Rattle.events.specs.Event.{value_of};
ghost use Rattle.events.specs.EventReader.{escaped, longer, signed};
ghost use Rattle.events.specs.Inside.{SaysEvent};
ghost use Rattle.events.specs.Outcomes.{event_due, event_outcome};
ghost use Rattle.events.specs.Rows.{PlainForm};
ghost use Rattle.fields.specs.Inside.{Readable};
ghost use Rattle.fields.specs.Reader.{mapped};
ghost use Rattle.texture.specs.Inside.{TablesOf};

use bits::Cursor;
use codes::TcoefTable;
use events::{AcEvent, RowForm};
use fields::{CodeKind, TextureParseError};

// A code and its sign, with no escape among the codes.
fn read_signed(
    data: &[u8],
    c: Cursor,
    table: TcoefTable,
    codes: &[u32],
    lens: &[u32],
    events: &[u8],
    form: RowForm,
) -> Result<(AcEvent, Cursor), TextureParseError>
    requires { Readable «data».now c × TablesOf false table codes.now lens.now events.now × PlainForm form }
    ensures { SaysEvent «data».now result (mapped (value_of table) (signed form (bits_from «data».now c.bit_pos))) }
{
    let (row, next) = fields::read_code(data, c, codes, lens, 13, 102, CodeKind::Tcoef)?;
    events::read_sign(data, next, events, row, form)
}

// What follows the escape code and a 1.
fn read_longer(
    data: &[u8],
    c: Cursor,
    table: TcoefTable,
    codes: &[u32],
    lens: &[u32],
    events: &[u8],
) -> Result<(AcEvent, Cursor), TextureParseError>
    requires { Readable «data».now c × TablesOf false table codes.now lens.now events.now }
    ensures { SaysEvent «data».now result (mapped (value_of table) (longer (bits_from «data».now c.bit_pos))) }
{
    let (a, next) = fields::read_field(data, c, 1)?;
    if a == 0 {
        return read_signed(data, next, table, codes, lens, events, RowForm::Type2);
    }
    events::read_fixed(data, next, table)
}

// What follows the escape code.
fn read_escape(
    data: &[u8],
    c: Cursor,
    table: TcoefTable,
    codes: &[u32],
    lens: &[u32],
    events: &[u8],
) -> Result<(AcEvent, Cursor), TextureParseError>
    requires { Readable «data».now c × TablesOf false table codes.now lens.now events.now }
    ensures { SaysEvent «data».now result (mapped (value_of table) (escaped (bits_from «data».now c.bit_pos))) }
{
    let (a, next) = fields::read_field(data, c, 1)?;
    if a == 0 {
        return read_signed(data, next, table, codes, lens, events, RowForm::Type1);
    }
    read_longer(data, next, table, codes, lens, events)
}

// One plain event.
pub(crate) fn read_plain(
    data: &[u8],
    c: Cursor,
    table: TcoefTable,
    codes: &[u32],
    lens: &[u32],
    events: &[u8],
) -> Result<(AcEvent, Cursor), TextureParseError>
    requires { TablesOf false table codes.now lens.now events.now }
    ensures { result ≡ event_answer «data».now c.bit_pos false table }
{
    let (row, next) = fields::read_code(data, c, codes, lens, 13, 103, CodeKind::Tcoef)?;
    if row == 102 {
        return read_escape(data, next, table, codes, lens, events);
    }
    events::read_sign(data, next, events, row, RowForm::Plain)
}

// One reversible event (Table B.23).
pub(crate) fn read_rvlc(
    data: &[u8],
    c: Cursor,
    table: TcoefTable,
    codes: &[u32],
    lens: &[u32],
    events: &[u8],
) -> Result<(AcEvent, Cursor), TextureParseError>
    requires { TablesOf true table codes.now lens.now events.now }
    ensures { result ≡ event_answer «data».now c.bit_pos true table }
{
    let (row, next) = fields::read_code(data, c, codes, lens, 16, 170, CodeKind::Tcoef)?;
    if row == 169 {
        return events::read_rvlc_escape(data, next, table);
    }
    events::read_sign(data, next, events, row, RowForm::Reversible)
}

// One plain event at a cursor.
pub fn decode_ac_event(
    data: &[u8],
    c: Cursor,
    table: TcoefTable,
) -> Result<(AcEvent, Cursor), TextureParseError>
    ensures value { result ≡ event_answer «data».now c.bit_pos false table }
    ensures outcome { event_outcome result ≡ event_due «data».now c.bit_pos false table }
{
    let codes = codes::tcoef_codes();
    let lens = codes::tcoef_lens();
    let events = codes::tcoef_events(table);
    read_plain(data, c, table, &codes, &lens, &events)
}

// One reversible event at a cursor.
pub fn decode_ac_event_rvlc(
    data: &[u8],
    c: Cursor,
    table: TcoefTable,
) -> Result<(AcEvent, Cursor), TextureParseError>
    ensures value { result ≡ event_answer «data».now c.bit_pos true table }
    ensures outcome { event_outcome result ≡ event_due «data».now c.bit_pos true table }
{
    let codes = codes::rvlc_codes();
    let lens = codes::rvlc_lens();
    let events = codes::rvlc_events(table);
    read_rvlc(data, c, table, &codes, &lens, &events)
}
