// The six blocks of a macroblock, each into its row of 64 places, with the end of each row.
ghost use Rattle.std.specs.Prelude.{◌≡◌, length, replicate};
ghost use Rattle.block_reader.specs.Outcomes.{blocks_due};
ghost use Rattle.block_reader.specs.Rows.{blocks_answer, rows_after};
ghost use Rattle.codes.specs.Component.{component_at};
ghost use Rattle.texture.specs.Outcomes.{list_outcome};
ghost use Rattle.texture.specs.Places.{zeros};
ghost use Rattle.window_reader.specs.Ends.{end_of, ends_of};
ghost use Rattle.window_reader.specs.Packed.{apart};
ghost use Rattle.window_reader.specs.Told.{BlockSettled, Readable, SixSettled, Tables};

use crate::list::ListAt;
use bits::Cursor;
use codes::DcComponent;
use fields::TextureParseError;
use texture::Spellings;

// The component of block i of six.
fn component(i: usize) -> DcComponent
    ensures { result ≡ component_at i }
{
    if i < 4 {
        DcComponent::Luminance
    } else {
        DcComponent::Chrominance
    }
}

// One block into 64 places that are 0.
fn block_at(
    data: &[u8],
    short: &[u16],
    long: &[u16],
    at: usize,
    component: DcComponent,
    coded: bool,
    places: &mut [i32; 64],
) -> ListAt
    requires { Readable «data».now at × Tables short.now long.now × (places.old ≡ zeros) }
    ensures { BlockSettled «data».now at component coded result places.new }
{
    let dc = crate::symbol::dc_at(data, at, component);
    if dc.next == 0 {
        return crate::list::no_list();
    }
    let difference = dc.difference;
    if !coded {
        places[0] = difference;
        return ListAt {
            next: dc.next,
            end: 1,
            spelled: 0,
        };
    }
    let one = crate::list::list_at(data, short, long, dc.next, places);
    if one.next == 0 {
        return one;
    }
    places[0] = difference;
    one
}

// The position after six blocks, and the sum of what counts their events.
#[derive(Clone, Copy)]
pub struct SixAt {
    pub next: usize,
    pub spelled: u64,
}

// Six blocks into rows of zeros.
fn six_at(
    data: &[u8],
    short: &[u16],
    long: &[u16],
    start: usize,
    pattern: [bool; 6],
    rows: &mut [[i32; 64]; 6],
    ends: &mut [usize; 6],
) -> SixAt
    requires { Readable «data».now start × Tables short.now long.now × (rows.old ≡ replicate 6 zeros) × (length ends.old ≡ 6) }
    ensures { SixSettled «data».now start pattern result rows.new ends.new }
{
    let mut at = start;
    let mut spelled: u64 = 0;
    // an index: the component goes by it too
    for i in 0..6 {
        let one = block_at(
            data,
            short,
            long,
            at,
            component(i),
            pattern[i],
            &mut rows[i],
        );
        if one.next == 0 {
            return SixAt {
                next: 0,
                spelled: 0,
            };
        }
        at = one.next;
        ends[i] = one.end;
        spelled += one.spelled;
    }
    SixAt { next: at, spelled }
}

// The end of a row.
fn end_of(qfs: [i32; 64]) -> usize
    ensures { result ≡ end_of qfs }
{
    for q in &qfs[1..] {
        if *q != 0 {
            return 64;
        }
    }
    1
}

// The ends of six rows.
fn ends_of(rows: [[i32; 64]; 6], ends: &mut [usize; 6])
    requires { length ends.old ≡ 6 }
    ensures { ends.new ≡ ends_of rows }
{
    // an index: two arrays go by it
    for i in 0..6 {
        let row = rows[i];
        ends[i] = end_of(row);
    }
}

// The plain way, from the start.
fn six_plainly(
    data: &[u8],
    c: Cursor,
    pattern: [bool; 6],
    dc_coded: bool,
    reversible: bool,
    rows: &mut [[i32; 64]; 6],
    ends: &mut [usize; 6],
) -> Result<(Cursor, Spellings), TextureParseError>
    ensures { (result ≡ blocks_answer «data».now c.bit_pos pattern dc_coded reversible) × (rows.new ≡ rows_after «data».now c.bit_pos pattern dc_coded reversible (replicate 6 zeros)) × (ends.new ≡ ends_of rows.new) }
{
    *rows = [[0i32; 64]; 6];
    *ends = [1usize; 6];
    let answer = block_reader::read_blocks(data, c, pattern, dc_coded, reversible, rows);
    let read = *rows;
    ends_of(read, ends);
    answer
}

// By windows.
fn six_by_windows(
    data: &[u8],
    start: usize,
    pattern: [bool; 6],
    rows: &mut [[i32; 64]; 6],
    ends: &mut [usize; 6],
) -> SixAt
    requires { Readable «data».now start }
    ensures { SixSettled «data».now start pattern result rows.new ends.new }
{
    *rows = [[0i32; 64]; 6];
    *ends = [1usize; 6];
    let short = codes::tcoef_short();
    let long = codes::tcoef_long();
    six_at(data, &short, &long, start, pattern, rows, ends)
}

// The number of events of each spelling, out of their sum. No plain list has a reversible escape.
fn spellings_of(spelled: u64) -> Spellings
    ensures { result ≡ apart spelled }
{
    Spellings {
        plain: (spelled % 65536) as u32,
        type1: (spelled / 65536 % 65536) as u32,
        type2: (spelled / 4294967296 % 65536) as u32,
        type3: (spelled / 281474976710656) as u32,
        rvlc_escape: 0,
    }
}

// The bits of six blocks into `rows`, and the end of each row into `ends`; where they are refused, rows of zeros.
pub fn read_six(
    data: &[u8],
    c: Cursor,
    pattern: [bool; 6],
    dc_coded: bool,
    reversible: bool,
    rows: &mut [[i32; 64]; 6],
    ends: &mut [usize; 6],
) -> Result<(Cursor, Spellings), TextureParseError>
    ensures value { result ≡ blocks_answer «data».now c.bit_pos pattern dc_coded reversible }
    ensures rows { rows.new ≡ rows_after «data».now c.bit_pos pattern dc_coded reversible (replicate 6 zeros) }
    ensures ends { ends.new ≡ ends_of rows.new }
    ensures outcome { list_outcome result ≡ blocks_due «data».now c.bit_pos pattern dc_coded reversible }
{
    if dc_coded && !reversible && fields::readable(data, c) {
        let six = six_by_windows(data, c.bit_pos, pattern, rows, ends);
        if six.next != 0 {
            let next = Cursor { bit_pos: six.next };
            return Ok((next, spellings_of(six.spelled)));
        }
    }
    six_plainly(data, c, pattern, dc_coded, reversible, rows, ends)
}
