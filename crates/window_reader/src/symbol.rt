// A DC part and a plain event by one window each. A next position 0 says nothing.
ghost use Rattle.std.specs.Prelude.{cond, ◌≡◌, ◌+◌, ◌*◌, ◌/◌, ◌%◌, ◌<◌, ◌≤◌, ◌^◌, leb, length};
ghost use Rattle.bits.specs.Ahead.{ahead_of};
ghost use Rattle.bits.specs.Bits.{val};
ghost use Rattle.dc_parts.specs.Dc.{differential_of};
ghost use Rattle.events.specs.Event.{signed12, signed_by};
ghost use Rattle.window_reader.specs.Told.{DcSettled, EventSettled, Readable, RowSettled, Tables, moved};

use codes::DcComponent;

// A difference and the position after it.
#[derive(Clone, Copy)]
pub struct DcAt {
    pub next: usize,
    pub difference: i32,
}

// What a row of Table B.16 and its sign say, and the position after them.
#[derive(Clone, Copy)]
pub struct RowAt {
    pub next: usize,
    pub last: u32,
    pub run: u32,
    pub size: u32,
    pub sign: u32,
}

// An event and the position after it. `spelled` counts it: 1 if it is plain, 2^16, 2^32 or 2^48 if it is of type 1, 2 or 3.
#[derive(Clone, Copy)]
pub struct EventAt {
    pub next: usize,
    pub last: bool,
    pub run: u32,
    pub level: i32,
    pub spelled: u64,
}

// A position in the data; else 0.
fn within(data: &[u8], next: usize) -> usize
    requires { length «data».now ≤ 1048576 }
    ensures { result ≡ cond (leb next (8 * length «data».now)) next 0 }
{
    if next <= 8 * data.len() { next } else { 0 }
}

// Table B.15: the difference of `size` bits.
fn difference_of(size: u32, additional: u32) -> i32
    requires { (size ≤ 7) × (additional < 2 ^ size) }
    ensures { result ≡ differential_of size additional }
{
    if size == 0 {
        return 0;
    }
    let half_range = 1u32 << (size - 1);
    if half_range <= additional {
        additional as i32
    } else {
        (additional as i32) + 1 - 2 * (half_range as i32)
    }
}

// The DC part at a position, of a size up to 7.
pub(crate) fn dc_at(data: &[u8], at: usize, component: DcComponent) -> DcAt
    requires { Readable «data».now at }
    ensures { DcSettled «data».now at component result }
{
    let w = bits::ahead(data, at);
    let e = codes::dc_plain(component, w);
    if e == 0 {
        return DcAt {
            next: 0,
            difference: 0,
        };
    }
    let len = e % 16;
    let size = e / 16;
    let additional = (w >> (32 - len - size)) % (1u32 << size);
    let difference = difference_of(size, additional);
    DcAt {
        next: within(data, at + (len + size) as usize),
        difference,
    }
}

// A magnitude with a sign, 1 for minus.
fn with_sign(sign: u32, size: u32) -> i32
    requires { size ≤ 64 }
    ensures { result ≡ signed_by sign size }
{
    let x = size as i32;
    if sign == 1 { -x } else { x }
}

// A 12-bit field, read as two's complement.
fn two_s_complement(raw: u32) -> i32
    requires { raw < 4096 }
    ensures { result ≡ signed12 raw }
{
    if 2048 <= raw {
        (raw as i32) - 4096
    } else {
        raw as i32
    }
}

// The code and sign that stand `skip` bits after a position; w is its window moved on by these.
fn row_at(data: &[u8], short: &[u16], long: &[u16], at: usize, w: u32, skip: u32) -> RowAt
    requires { Readable «data».now at × Tables short.now long.now × (skip ≤ 19) × (w ≡ val (moved «data».now at skip)) }
    ensures { RowSettled «data».now at skip result }
{
    let e = codes::tcoef_plain(short, long, w);
    if e == 0 {
        return RowAt {
            next: 0,
            last: 0,
            run: 0,
            size: 0,
            sign: 0,
        };
    }
    let len = e % 16;
    RowAt {
        next: within(data, at + (skip + len + 1) as usize),
        last: e / 16 % 2,
        run: e / 32 % 64,
        size: e / 2048,
        sign: (w >> (31 - len)) % 2,
    }
}

fn unsettled() -> EventAt
    ensures { result.next ≡ 0 }
{
    EventAt {
        next: 0,
        last: true,
        run: 0,
        level: 0,
        spelled: 0,
    }
}

// A type 1 escape: the magnitude raised by LMAX.
fn type1_at(data: &[u8], short: &[u16], long: &[u16], at: usize, w: u32) -> EventAt
    requires { Readable «data».now at × Tables short.now long.now × (w ≡ ahead_of «data».now at) × (w / 33554432 ≡ 3) × (w / 16777216 % 2 ≡ 0) }
    ensures { EventSettled «data».now at result }
{
    let one = row_at(data, short, long, at, w % 16777216 * 256, 8);
    if one.next == 0 {
        return unsettled();
    }
    let more = codes::lmax_intra((64 * one.last + one.run) as usize);
    EventAt {
        next: one.next,
        last: one.last == 1,
        run: one.run,
        level: with_sign(one.sign, one.size + more),
        spelled: 65536,
    }
}

// A type 2 escape: the run raised by RMAX + 1.
fn type2_at(data: &[u8], short: &[u16], long: &[u16], at: usize, w: u32) -> EventAt
    requires { Readable «data».now at × Tables short.now long.now × (w ≡ ahead_of «data».now at) × (w / 33554432 ≡ 3) × (w / 8388608 % 4 ≡ 2) }
    ensures { EventSettled «data».now at result }
{
    let one = row_at(data, short, long, at, w % 8388608 * 512, 9);
    if one.next == 0 {
        return unsettled();
    }
    let more = codes::rmax_intra((32 * one.last + one.size) as usize);
    EventAt {
        next: one.next,
        last: one.last == 1,
        run: one.run + more + 1,
        level: with_sign(one.sign, one.size),
        spelled: 4294967296,
    }
}

// A type 3 escape with both markers and a level that is not reserved.
fn type3_at(data: &[u8], at: usize, w: u32) -> EventAt
    requires { Readable «data».now at × (w ≡ ahead_of «data».now at) × (w / 33554432 ≡ 3) × (w / 8388608 % 4 ≡ 3) }
    ensures { EventSettled «data».now at result }
{
    let raw = w / 8 % 4096;
    if w / 32768 % 2 == 0 || w / 4 % 2 == 0 || raw % 2048 == 0 {
        return unsettled();
    }
    EventAt {
        next: within(data, at + 30),
        last: w / 4194304 % 2 == 1,
        run: w / 65536 % 64,
        level: two_s_complement(raw),
        spelled: 281474976710656,
    }
}

// An escape.
fn escape_at(data: &[u8], short: &[u16], long: &[u16], at: usize, w: u32) -> EventAt
    requires { Readable «data».now at × Tables short.now long.now × (w ≡ ahead_of «data».now at) }
    ensures { EventSettled «data».now at result }
{
    if w / 33554432 != 3 {
        return unsettled();
    }
    match w / 8388608 % 4 {
        0 | 1 => type1_at(data, short, long, at, w),
        2 => type2_at(data, short, long, at, w),
        _ => type3_at(data, at, w),
    }
}

// The plain event that stands `skip` bits after a position; w is its window moved on by these.
fn plain_at(data: &[u8], short: &[u16], long: &[u16], at: usize, w: u32, skip: u32) -> EventAt
    requires { Readable «data».now at × Tables short.now long.now × (skip ≤ 19) × (w ≡ val (moved «data».now at skip)) }
    ensures { EventSettled «data».now (at + skip) result }
{
    let one = row_at(data, short, long, at, w, skip);
    if one.next == 0 {
        return unsettled();
    }
    EventAt {
        next: one.next,
        last: one.last == 1,
        run: one.run,
        level: with_sign(one.sign, one.size),
        spelled: 1,
    }
}

// The event at a position, by its window.
pub(crate) fn event_at(data: &[u8], short: &[u16], long: &[u16], at: usize, w: u32) -> EventAt
    requires { Readable «data».now at × Tables short.now long.now × (w ≡ ahead_of «data».now at) }
    ensures { EventSettled «data».now at result }
{
    let one = plain_at(data, short, long, at, w, 0);
    if one.next == 0 {
        return escape_at(data, short, long, at, w);
    }
    one
}

// The plain event at `next`, by the window of a position before it, where that has 13 bits for it.
pub(crate) fn second_at(
    data: &[u8],
    short: &[u16],
    long: &[u16],
    at: usize,
    w: u32,
    next: usize,
) -> EventAt
    requires { Readable «data».now at × Tables short.now long.now × (w ≡ ahead_of «data».now at) × (at ≤ next) }
    ensures { EventSettled «data».now next result }
{
    let used = next - at;
    if 19 < used {
        return unsettled();
    }
    let skip = used as u32;
    plain_at(data, short, long, at, w << skip, skip)
}
