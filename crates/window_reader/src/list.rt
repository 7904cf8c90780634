// A plain list, event after event. A next position 0 says nothing.
ghost use Rattle.std.specs.Prelude.{cond, ◌≡◌, ◌+◌, ◌≤◌, ltb, nat_abs, length, set};
ghost use Rattle.texture.specs.Places.{zeros};
ghost use Rattle.window_reader.specs.Told.{ListSettled, Readable, Tables, up_to};

use crate::symbol::{EventAt, event_at, second_at};

// The position after a list or a block, an end of its places, and the sum of what counts its events.
#[derive(Clone, Copy)]
pub struct ListAt {
    pub next: usize,
    pub end: usize,
    pub spelled: u64,
}

// Says nothing.
pub(crate) fn no_list() -> ListAt
    ensures { result.next ≡ 0 }
{
    ListAt {
        next: 0,
        end: 0,
        spelled: 0,
    }
}

// A list with an event at least: its level is not 0.
fn list_to(next: usize, spelled: u64) -> ListAt
    ensures { result ≡ up_to next spelled }
{
    ListAt {
        next,
        end: 64,
        spelled,
    }
}

// An event into its place: the place after it; or 0 where that lies past the end.
fn put_at(e: EventAt, place: usize, places: &mut [i32; 64]) -> usize
    requires { (place ≤ 64) × (e.run ≤ 1024) × (nat_abs e.level ≤ 2047) × (length places.old ≡ 64) }
    ensures value { result ≡ cond (ltb (place + e.run) 64) (place + e.run + 1) 0 }
    ensures places { places.new ≡ cond (ltb (place + e.run) 64) (set places.old (place + e.run) e.level) places.old }
{
    let land = place + e.run as usize;
    if 64 <= land {
        return 0;
    }
    places[land] = e.level;
    land + 1
}

// The list at a position, from place 1 on, into 64 places that are 0. A plain event that follows another is taken out of the same
// window.
pub(crate) fn list_at(
    data: &[u8],
    short: &[u16],
    long: &[u16],
    start: usize,
    places: &mut [i32; 64],
) -> ListAt
    requires { Readable «data».now start × Tables short.now long.now × (places.old ≡ zeros) }
    ensures { ListSettled «data».now start result places.new }
{
    let mut at = start;
    let mut place: usize = 1;
    let mut spelled: u64 = 0;
    loop {
        let w = bits::ahead(data, at);
        let e = event_at(data, short, long, at, w);
        if e.next == 0 {
            return no_list();
        }
        let after = put_at(e, place, places);
        if after == 0 {
            return no_list();
        }
        spelled += e.spelled;
        if e.last {
            return list_to(e.next, spelled);
        }
        let f = second_at(data, short, long, at, w, e.next);
        at = e.next;
        place = after;
        if f.next == 0 {
            continue;
        }
        let more = put_at(f, place, places);
        if more == 0 {
            return no_list();
        }
        spelled += f.spelled;
        if f.last {
            return list_to(f.next, spelled);
        }
        at = f.next;
        place = more;
    }
}
