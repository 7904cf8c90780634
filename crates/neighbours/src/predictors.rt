// What each block takes of its neighbours, and refusal 13.
ghost use Rattle.std.specs.Prelude.{◌≡◌, cond, true, length};
ghost use Rattle.prediction.specs.Prediction.{outside_of};
ghost use Rattle.record.specs.Record.{missing_of, record_at};
ghost use Rattle.record.specs.Refusals.{first_bad, lies, recorded_outcome, unless};
ghost use Rattle.neighbours.specs.Neighbours.{around_by, around_from, joined_by, neighbours_fine, predictors, side_of};
ghost use Rattle.neighbours.specs.Taken.{place_lies, taken_due, taken_tests};

use places::{Place, Source};
use prediction::BlockPredictors;
use record::{RecordError, Side};

// Block `b` of a source.
fn neighbour(store: &[i32], own: &[i32], p: Place, source: Source, b: u32) -> Side
    ensures { result ≡ side_of p.bits_per_pixel p.quantiser_scale (around_from p store.now) own.now source b }
{
    match source {
        Source::Own => record::known(own, 0, b),
        Source::Left if p.has_left => record::known(store, p.left, b),
        Source::AboveLeft if p.has_above_left => record::known(store, p.above_left, b),
        Source::Above if p.has_above => record::known(store, p.above, b),
        _ => record::missing(p.bits_per_pixel, p.quantiser_scale),
    }
}

// The DC of a missing neighbour.
fn no_dc(p: Place) -> i32
    ensures { result ≡ (missing_of p.bits_per_pixel p.quantiser_scale).dc }
{
    record::missing(p.bits_per_pixel, p.quantiser_scale).dc
}

// The DC of block `b` of a source.
pub fn neighbour_dc(store: &[i32], own: &[i32], p: Place, source: Source, b: u32) -> i32
    ensures { result ≡ (side_of p.bits_per_pixel p.quantiser_scale (around_from p store.now) own.now source b).dc }
{
    match source {
        Source::Own => record::known_dc(own, 0, b),
        Source::Left if p.has_left => record::known_dc(store, p.left, b),
        Source::AboveLeft if p.has_above_left => record::known_dc(store, p.above_left, b),
        Source::Above if p.has_above => record::known_dc(store, p.above, b),
        _ => no_dc(p),
    }
}

fn join(a: Side, fb_dc: i32, c: Side) -> BlockPredictors
    ensures { result ≡ joined_by a fb_dc c }
{
    let column = a.column;
    let row = c.row;
    BlockPredictors {
        fa_dc: a.dc,
        fb_dc,
        fc_dc: c.dc,
        qp_a: a.qp,
        qp_c: c.qp,
        a_has_column: a.has,
        a_first_column: column,
        c_has_row: c.has,
        c_first_row: row,
    }
}

// What block `i` of six takes, out of the store and the macroblock's own record so far.
fn taken_by(store: &[i32], own: &[i32], p: Place, i: usize) -> BlockPredictors
    ensures { result ≡ predictors p.bits_per_pixel p.quantiser_scale (around_by p store.now) (record_at own.now 0) i }
{
    let a = neighbour(store, own, p, places::a_source(i), places::a_block(i));
    let b = neighbour_dc(store, own, p, places::b_source(i), places::b_block(i));
    let c = neighbour(store, own, p, places::c_source(i), places::c_block(i));
    join(a, b, c)
}

// Whether a record at a place, where it is there, lies in a store of `stored` numbers.
fn lies_if(there: bool, stored: usize, at: u32) -> bool
    ensures { result ≡ cond there (lies stored at) true }
{
    !there || at as usize + 91 <= stored
}

// Whether the records around the macroblock that is due do.
pub fn place_lies(stored: usize, p: Place) -> bool
    ensures { result ≡ place_lies stored p }
{
    lies_if(p.has_left, stored, p.left)
        && lies_if(p.has_above_left, stored, p.above_left)
        && lies_if(p.has_above, stored, p.above)
}

// 11, 12, 14.
pub fn check_taken(stored: usize, owned: usize, p: Place, i: usize) -> Result<(), RecordError>
    ensures value { result ≡ first_bad (taken_tests stored owned p i) }
    ensures outcome { recorded_outcome result ≡ taken_due stored owned p i }
{
    if 6 <= i {
        return Err(RecordError::OutOfRange);
    }
    if !ranges::Quantiser::fine(p.quantiser_scale) || !ranges::Depth::fine(p.bits_per_pixel) {
        return Err(RecordError::Context);
    }
    if !place_lies(stored, p) || owned < 91 {
        return Err(RecordError::TooShort);
    }
    Ok(())
}

// What a block takes; beside a refusal, what it would take with all neighbours missing.
#[derive(Clone, Copy)]
pub struct Taken {
    pub answer: Result<(), RecordError>,
    pub predictors: BlockPredictors,
}

// What block `i` takes, out of the store and the macroblock's own record so far; or 11, 12, 14.
pub fn block_predictors(store: &[i32], own: &[i32], p: Place, i: usize) -> Taken
    ensures answer_value { (result.answer ≡ first_bad (taken_tests (length store.now) (length own.now) p i)) × (result.predictors ≡ unless (first_bad (taken_tests (length store.now) (length own.now) p i)) (predictors p.bits_per_pixel p.quantiser_scale (around_by p store.now) (record_at own.now 0) i) (outside_of p.bits_per_pixel p.quantiser_scale)) }
    ensures outcome { recorded_outcome result.answer ≡ taken_due (length store.now) (length own.now) p i }
{
    let answer = check_taken(store.len(), own.len(), p, i);
    let predictors = match answer {
        Err(_) => BlockPredictors::outside(p.bits_per_pixel, p.quantiser_scale),
        Ok(()) => taken_by(store, own, p, i),
    };
    Taken { answer, predictors }
}

// Refusal 13: whether the stored numbers that the six blocks take are in range.
pub fn neighbours_fine(store: &[i32], own: &[i32], p: Place) -> bool
    ensures { result ≡ neighbours_fine p.bits_per_pixel p.quantiser_scale (around_by p store.now) (record_at own.now 0) }
{
    // a loop: what a block takes is named before it is tested
    for i in 0..6 {
        let taken = taken_by(store, own, p, i);
        if !coefficients::predictors_fine(taken) {
            return false;
        }
    }
    true
}
