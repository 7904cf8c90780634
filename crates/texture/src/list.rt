// Event lists into 64 places.
ghost use Rattle.std.specs.Prelude.{◌≡◌, false, true, ◌≤◌, nat_abs, length};
ghost use Rattle.bits.specs.Bits.{bits_from};
ghost use Rattle.events.specs.Answer.{event_answer};
ghost use Rattle.events.specs.Spellings.{one_more, total_of};
ghost use Rattle.fields.specs.Inside.{Readable};
ghost use Rattle.texture.specs.Answer.{list_answer, places_after};
ghost use Rattle.texture.specs.Events.{first_place};
ghost use Rattle.texture.specs.Inside.{TablesOf, closed, kept_of, listed_by, put_of, refused_by, state_of};
ghost use Rattle.texture.specs.Outcomes.{list_due, list_outcome};

use bits::Cursor;
use codes::TcoefTable;
use events::{AcEvent, Spelling, Spellings};
use fields::TextureParseError;

// What a list gave: the answer and its 64 places, zeros where it refused.
#[derive(Clone, Copy)]
pub struct ListRead {
    pub answer: Result<(Cursor, Spellings), TextureParseError>,
    pub qfs: [i32; 64],
}

// Where a list stands: the next place, the first bad landing or 0, and how many events of each spelling were put.
#[derive(Clone, Copy)]
pub struct Landing {
    pub place: usize,
    pub bad: usize,
    pub spellings: Spellings,
}

// One event of the coding in use.
fn read_event(
    data: &[u8],
    c: Cursor,
    reversible: bool,
    table: TcoefTable,
    codes: &[u32],
    lens: &[u32],
    events: &[u8],
) -> Result<(AcEvent, Cursor), TextureParseError>
    requires { TablesOf reversible table codes.now lens.now events.now }
    ensures { result ≡ event_answer «data».now c.bit_pos reversible table }
{
    if reversible {
        crate::event::read_rvlc(data, c, table, codes, lens, events)
    } else {
        crate::event::read_plain(data, c, table, codes, lens, events)
    }
}

// One event more of a spelling.
fn counted(n: Spellings, spelling: Spelling) -> Spellings
    requires { total_of n ≤ 64 }
    ensures { result ≡ one_more spelling n }
{
    let mut more = n;
    match spelling {
        Spelling::Plain => more.plain += 1,
        Spelling::Type1 => more.type1 += 1,
        Spelling::Type2 => more.type2 += 1,
        Spelling::Type3 => more.type3 += 1,
        Spelling::RvlcEscape => more.rvlc_escape += 1,
    }
    more
}

// One event into its place; the first bad landing is remembered, and from it on none is counted.
fn put(qfs: &mut [i32; 64], l: Landing, v: AcEvent) -> Landing
    requires { (l.place ≤ 64) × (total_of l.spellings ≤ l.place) × (v.run ≤ 1024) × (nat_abs v.level ≤ 2047) × (length qfs.old ≡ 64) }
    ensures { state_of result qfs.new ≡ put_of (state_of l qfs.old) v }
{
    if l.bad != 0 {
        return l;
    }
    let land = l.place + v.run as usize;
    if land < 64 {
        qfs[land] = v.level;
        Landing {
            place: land + 1,
            bad: 0,
            spellings: counted(l.spellings, v.spelling),
        }
    } else {
        Landing { bad: land, ..l }
    }
}

fn refusal(e: TextureParseError) -> ListRead
    ensures { result ≡ refused_by e }
{
    ListRead {
        answer: Err(e),
        qfs: [0i32; 64],
    }
}

// The answer once the list is read through.
fn close(l: Landing, qfs: [i32; 64], next: Cursor) -> ListRead
    requires { l.bad ≤ 2000 }
    ensures { result ≡ closed (state_of l qfs) next }
{
    if l.bad == 0 {
        ListRead {
            answer: Ok((next, l.spellings)),
            qfs,
        }
    } else {
        refusal(TextureParseError::Overflow {
            position: l.bad as u32,
        })
    }
}

// A list through its last event.
fn read_list(
    data: &[u8],
    c: Cursor,
    reversible: bool,
    table: TcoefTable,
    codes: &[u32],
    lens: &[u32],
    events: &[u8],
    first: usize,
) -> ListRead
    requires { Readable «data».now c × TablesOf reversible table codes.now lens.now events.now × (first ≤ 1) }
    ensures { result ≡ listed_by «data».now reversible table first (bits_from «data».now c.bit_pos) }
{
    let mut qfs = [0i32; 64];
    let mut l = Landing {
        place: first,
        bad: 0,
        spellings: Spellings::none(),
    };
    let mut at = c;
    loop {
        match read_event(data, at, reversible, table, codes, lens, events) {
            Err(why) => return refusal(why),
            Ok((v, next)) => {
                l = put(&mut qfs, l, v);
                at = next;
                if v.last {
                    return close(l, qfs, at);
                }
            }
        }
    }
}

// The first place of a list: 1 after a DC code, 0 without one.
fn first_place(dc_coded: bool) -> usize
    ensures { (result ≡ first_place dc_coded) × (result ≤ 1) }
{
    usize::from(dc_coded)
}

// The places of a list that was accepted, into lent ones.
fn keep(one: ListRead, qfs: &mut [i32; 64]) -> Result<(Cursor, Spellings), TextureParseError>
    ensures { (result ≡ one.answer) × (qfs.new ≡ kept_of one qfs.old) }
{
    let (next, spellings) = one.answer?;
    // a variable: an array that is a field is not stored straight
    let places = one.qfs;
    *qfs = places;
    Ok((next, spellings))
}

// A list of either coding at a cursor, into 64 places that start at 1 after a DC code.
fn read_events(
    data: &[u8],
    c: Cursor,
    reversible: bool,
    table: TcoefTable,
    codes: &[u32],
    lens: &[u32],
    events: &[u8],
    dc_coded: bool,
    qfs: &mut [i32; 64],
) -> Result<(Cursor, Spellings), TextureParseError>
    requires { TablesOf reversible table codes.now lens.now events.now }
    ensures { (result ≡ list_answer «data».now c.bit_pos reversible table dc_coded) × (qfs.new ≡ places_after «data».now c.bit_pos reversible table dc_coded qfs.old) }
{
    if !fields::readable(data, c) {
        return Err(TextureParseError::OutOfRange);
    }
    let first = first_place(dc_coded);
    let one = read_list(data, c, reversible, table, codes, lens, events, first);
    keep(one, qfs)
}

// A list of plain events at a cursor, into 64 places that start at 1 after a DC code.
pub fn decode_ac_events(
    data: &[u8],
    c: Cursor,
    table: TcoefTable,
    dc_coded: bool,
    qfs: &mut [i32; 64],
) -> Result<(Cursor, Spellings), TextureParseError>
    ensures value { result ≡ list_answer «data».now c.bit_pos false table dc_coded }
    ensures places { qfs.new ≡ places_after «data».now c.bit_pos false table dc_coded qfs.old }
    ensures outcome { list_outcome result ≡ list_due «data».now c.bit_pos false table dc_coded }
{
    let codes = codes::tcoef_codes();
    let lens = codes::tcoef_lens();
    let events = codes::tcoef_events(table);
    read_events(data, c, false, table, &codes, &lens, &events, dc_coded, qfs)
}

// A list of reversible events at a cursor, into 64 places that start at 1 after a DC code.
pub fn decode_ac_events_rvlc(
    data: &[u8],
    c: Cursor,
    table: TcoefTable,
    dc_coded: bool,
    qfs: &mut [i32; 64],
) -> Result<(Cursor, Spellings), TextureParseError>
    ensures value { result ≡ list_answer «data».now c.bit_pos true table dc_coded }
    ensures places { qfs.new ≡ places_after «data».now c.bit_pos true table dc_coded qfs.old }
    ensures outcome { list_outcome result ≡ list_due «data».now c.bit_pos true table dc_coded }
{
    let codes = codes::rvlc_codes();
    let lens = codes::rvlc_lens();
    let events = codes::rvlc_events(table);
    read_events(data, c, true, table, &codes, &lens, &events, dc_coded, qfs)
}
