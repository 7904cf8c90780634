// A short way to refusal 13: each record that is there is tested once, in the store.
ghost use Rattle.std.specs.Prelude.{◌≡◌, cond, true, ◌+◌, ◌<◌, ◌≤◌, length};
ghost use Rattle.numbers.specs.Every.{every};
ghost use Rattle.ranges.specs.Range.{level_fine};
ghost use Rattle.record.specs.Record.{blank, record_at, seven_from};
ghost use Rattle.record.specs.Refusals.{lies};
ghost use Rattle.neighbours.specs.Neighbours.{around_by, found, neighbours_fine};
ghost use Rattle.needed.specs.Stored.{above_fine, above_left_fine, block_fine, if_there, left_fine};

use places::Place;

// Whether the seven numbers from `at` on are levels.
fn seven_levels(s: &[i32], at: usize) -> bool
    requires { at + 7 ≤ length s.now }
    ensures { result ≡ every level_fine (seven_from s.now at) }
{
    let mut fine = true;
    for x in &s[at..at + 7] {
        fine &= ranges::Level::fine(*x);
    }
    fine
}

// Whether block b's DC, and its row or column, may be handed in.
fn block_fine(s: &[i32], b: usize, from: usize) -> bool
    requires { (length s.now ≡ 91) × (b < 6) × (from ≤ 8) }
    ensures { result ≡ block_fine s.now b from }
{
    let dc = ranges::NeighbourDc::fine(s[15 * b]);
    let levels = seven_levels(s, 15 * b + from);
    dc & levels
}

// A, on the left: blocks 1, 3, 4 and 5 with their columns.
fn left_fine(s: &[i32]) -> bool
    requires { length s.now ≡ 91 }
    ensures { result ≡ left_fine s.now }
{
    let one = block_fine(s, 1, 8);
    let three = block_fine(s, 3, 8);
    let four = block_fine(s, 4, 8);
    let five = block_fine(s, 5, 8);
    let qp = ranges::inside(s[90], 1, 31);
    one & three & four & five & qp
}

// C, above: blocks 2, 3, 4 and 5 with their rows.
fn above_fine(s: &[i32]) -> bool
    requires { length s.now ≡ 91 }
    ensures { result ≡ above_fine s.now }
{
    let two = block_fine(s, 2, 1);
    let three = block_fine(s, 3, 1);
    let four = block_fine(s, 4, 1);
    let five = block_fine(s, 5, 1);
    let qp = ranges::inside(s[90], 1, 31);
    two & three & four & five & qp
}

// B, above left: the DCs of blocks 3, 4 and 5.
fn above_left_fine(s: &[i32]) -> bool
    requires { length s.now ≡ 91 }
    ensures { result ≡ above_left_fine s.now }
{
    let three = ranges::NeighbourDc::fine(s[45]);
    let four = ranges::NeighbourDc::fine(s[60]);
    let five = ranges::NeighbourDc::fine(s[75]);
    three & four & five
}

// Each of the three where it is there, in a store that it lies in.
fn left_if(there: bool, store: &[i32], at: u32) -> bool
    requires { cond there (lies (length store.now) at) true ≡ true }
    ensures { result ≡ if_there left_fine (found there (record_at store.now at)) }
{
    let start = at as usize;
    !there || left_fine(&store[start..start + 91])
}

fn above_left_if(there: bool, store: &[i32], at: u32) -> bool
    requires { cond there (lies (length store.now) at) true ≡ true }
    ensures { result ≡ if_there above_left_fine (found there (record_at store.now at)) }
{
    let start = at as usize;
    !there || above_left_fine(&store[start..start + 91])
}

fn above_if(there: bool, store: &[i32], at: u32) -> bool
    requires { cond there (lies (length store.now) at) true ≡ true }
    ensures { result ≡ if_there above_fine (found there (record_at store.now at)) }
{
    let start = at as usize;
    !there || above_fine(&store[start..start + 91])
}

// The plain way, for a record that does not lie wholly in the store. A quantiser that is none has no new record, and its neighbours are not in range.
fn plainly(store: &[i32], p: Place) -> bool
    ensures { result ≡ neighbours_fine p.bits_per_pixel p.quantiser_scale (around_by p store.now) (blank p.quantiser_scale) }
{
    let mut own = [0i32; 91];
    match record::new_record(p.quantiser_scale, &mut own) {
        Err(_) => false,
        Ok(()) => neighbours::neighbours_fine(store, &own, p),
    }
}

// Refusal 13 before the first block, when the macroblock's own record is a new one: whether the stored numbers that the six blocks take are in range.
pub fn stored_fine(store: &[i32], p: Place) -> bool
    ensures { result ≡ neighbours_fine p.bits_per_pixel p.quantiser_scale (around_by p store.now) (blank p.quantiser_scale) }
{
    if !ranges::Quantiser::fine(p.quantiser_scale) {
        return false;
    }
    if !neighbours::place_lies(store.len(), p) {
        return plainly(store, p);
    }
    left_if(p.has_left, store, p.left)
        && above_left_if(p.has_above_left, store, p.above_left)
        && above_if(p.has_above, store, p.above)
}
