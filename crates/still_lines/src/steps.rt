// One step of reading: a byte of the input, or its end. What is said goes into lent bytes.
ghost use Rattle.std.specs.Prelude.{◌≡◌, ◌≤◌, length};
ghost use Rattle.forms.specs.Forms.{longest};
ghost use Rattle.forms.specs.Reading.{data_after, room_for_data};
ghost use Rattle.still_lines.specs.Still.{samples_after, still_after, store_after, text_after};
ghost use Rattle.still_lines.specs.Steps.{Inside, at_start, count_fed, data_fed, finish_by, left, lent, line_after, room_for_text, roomy, said_into, samples_fed, step_by, still_fed, store_fed, text_fed};

use crate::still::Still;
use forms::Line;
use lines::Fed;

// Between two bytes: the state, and how many bytes of a line came.
#[derive(Clone, Copy)]
pub struct Reading {
    pub still: Still,
    pub n: usize,
}

// Where reading stands, and how many bytes were said; or 14: fewer than 32,768 bytes lent for a line, 16,384 for its
// data or 512 for what is said.
#[derive(Clone, Copy)]
pub enum Stepped {
    Went(Reading, usize),
    TooShort,
}

// The same, where there is room.
#[derive(Clone, Copy)]
struct Answered {
    still: Still,
    n: usize,
    said: usize,
}

const OUT: usize = 512;

// Whether a line, its data and what is said to it have room.
fn has_room(line: &[u8], data: &[u8], out: &[u8]) -> bool
    ensures { result ≡ roomy line.now «data».now out.now }
{
    Line::LONGEST <= line.len() && Line::DATA <= data.len() && OUT <= out.len()
}

// A line that ended.
fn ended(
    s: Still,
    line: &[u8],
    data: &mut [u8],
    samples: &mut [i32],
    store: &mut [i32],
    out: &mut [u8],
) -> Answered
    requires { (room_for_data ≤ length «data».old) × (room_for_text ≤ length out.old) }
    ensures still_value { (result.still ≡ still_after s samples.old store.old line.now) × ((result.n ≡ 0) × ((result.said ≡ length (text_after s samples.old store.old line.now)) × (result.said ≤ 256))) }
    ensures bytes { «data».new ≡ data_after line.now «data».old }
    ensures samples { samples.new ≡ samples_after s samples.old store.old line.now }
    ensures store { store.new ≡ store_after s samples.old store.old line.now }
    ensures out { out.new ≡ said_into (text_after s samples.old store.old line.now) out.old }
{
    let answer = crate::still::answer(s, line, data, samples, store);
    let text = answer.text;
    let still = answer.still;
    let said = crate::text::put(text, 0, out);
    Answered { still, n: 0, said }
}

// After a byte, or at the end of the input.
fn told(
    s: Still,
    fed: Fed,
    line: &[u8],
    data: &mut [u8],
    samples: &mut [i32],
    store: &mut [i32],
    out: &mut [u8],
) -> Answered
    requires { Inside (length line.now) fed × ((room_for_data ≤ length «data».old) × (room_for_text ≤ length out.old)) }
    ensures still_value { (result.still ≡ still_fed s line.now samples.old store.old fed) × ((result.n ≡ count_fed fed) × ((result.said ≡ length (text_fed s line.now samples.old store.old fed)) × (result.said ≤ 256))) }
    ensures bytes { «data».new ≡ data_fed line.now «data».old fed }
    ensures samples { samples.new ≡ samples_fed s line.now samples.old store.old fed }
    ensures store { store.new ≡ store_fed s line.now samples.old store.old fed }
    ensures out { out.new ≡ said_into (text_fed s line.now samples.old store.old fed) out.old }
{
    match fed {
        Fed::Kept(n) => Answered {
            still: s,
            n,
            said: 0,
        },
        Fed::Skipped => Answered {
            still: s,
            n: 0,
            said: 0,
        },
        Fed::Ended(k) => ended(s, &line[..k], data, samples, store, out),
    }
}

// Before the first byte.
pub fn start() -> Reading
    ensures { result ≡ at_start }
{
    let still = crate::still::start();
    Reading { still, n: 0 }
}

// A byte that is no newline into the lent line, where there is room.
fn keep(line: &mut [u8], n: usize, b: u8)
    requires { longest ≤ length line.old }
    ensures { line.new ≡ line_after line.old n b }
{
    if b != b'\n' && n < Line::LONGEST {
        line[n] = b;
    }
}

// The next byte of the input.
pub fn step(
    r: Reading,
    b: u8,
    line: &mut [u8],
    data: &mut [u8],
    samples: &mut [i32],
    store: &mut [i32],
    out: &mut [u8],
) -> Stepped
    ensures { left result (lent line.new «data».new samples.new store.new out.new) ≡ step_by r b (lent line.old «data».old samples.old store.old out.old) }
{
    if !has_room(&*line, &*data, &*out) {
        return Stepped::TooShort;
    }
    let still = r.still;
    let fed = lines::feed(r.n, b);
    keep(line, r.n, b);
    let t = told(still, fed, &*line, data, samples, store, out);
    let next = t.still;
    Stepped::Went(
        Reading {
            still: next,
            n: t.n,
        },
        t.said,
    )
}

// The end of the input.
pub fn finish(
    r: Reading,
    line: &[u8],
    data: &mut [u8],
    samples: &mut [i32],
    store: &mut [i32],
    out: &mut [u8],
) -> Stepped
    ensures { left result (lent line.now «data».new samples.new store.new out.new) ≡ finish_by r (lent line.now «data».old samples.old store.old out.old) }
{
    if !has_room(line, &*data, &*out) {
        return Stepped::TooShort;
    }
    let still = r.still;
    let fed = lines::rest(r.n);
    let t = told(still, fed, line, data, samples, store, out);
    let next = t.still;
    let end = crate::still::ended(next);
    let said = crate::text::put(end, t.said, out);
    Stepped::Went(Reading { still: next, n: 0 }, said)
}
