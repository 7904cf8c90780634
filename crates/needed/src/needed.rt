// A short way to what a block takes, as eleven numbers that are lent: the three DCs, and with AC prediction the quantiser and the
// values of the side that the DCs choose.
ghost use Rattle.std.specs.Prelude.{true, ◌≡◌, ◌≤◌, pos, get_or, length, replicate};
ghost use Rattle.coefficients.specs.Needed.{needed_of, numbers_of};
ghost use Rattle.record.specs.Record.{quantiser_of, record_at, seven_from};
ghost use Rattle.record.specs.Refusals.{first_bad, recorded_outcome, unless};
ghost use Rattle.neighbours.specs.Neighbours.{around_by, from, predictors};
ghost use Rattle.neighbours.specs.Taken.{taken_due, taken_tests};
ghost use Rattle.needed.specs.Sides.{DcsAre, numbers_at};

use places::{Place, Source};
use record::RecordError;
use scan::DcPredictionDirection;

// Three DCs, with the quantiser of the record at `start` and its seven values from `at` on.
fn put_values(s: &[i32], start: usize, at: usize, a: i32, b: i32, c: i32, numbers: &mut [i32; 11])
    requires { (start ≤ 4294967296) × (at ≤ 84) }
    ensures { numbers.new ≡ numbers_of a b c (quantiser_of (get_or (record_at s.now start) 90 (pos 0))) (seven_from (record_at s.now start) at) }
{
    let values = record::seven(s, start + at);
    let qp = record::quantiser(record::number(s, start + 90));
    coefficients::put_numbers(a, b, c, qp, values, numbers);
}

// Three DCs under the present quantiser, with no values.
fn put_none(p: Place, a: i32, b: i32, c: i32, numbers: &mut [i32; 11])
    ensures { numbers.new ≡ numbers_of a b c p.quantiser_scale (replicate 7 (pos 0)) }
{
    coefficients::put_numbers(a, b, c, p.quantiser_scale, [0i32; 7], numbers);
}

// Three DCs with the values of a source; a missing neighbour has none, and the present quantiser.
fn put_side(
    store: &[i32],
    own: &[i32],
    p: Place,
    source: Source,
    at: usize,
    a: i32,
    b: i32,
    c: i32,
    numbers: &mut [i32; 11],
)
    requires { at ≤ 84 }
    ensures { numbers.new ≡ numbers_at p.quantiser_scale (from (around_by p store.now) (record_at own.now 0) source) at a b c }
{
    match source {
        Source::Own => put_values(own, 0, at, a, b, c, numbers),
        Source::Left if p.has_left => put_values(store, p.left as usize, at, a, b, c, numbers),
        Source::AboveLeft if p.has_above_left => {
            put_values(store, p.above_left as usize, at, a, b, c, numbers)
        }
        Source::Above if p.has_above => put_values(store, p.above as usize, at, a, b, c, numbers),
        _ => put_none(p, a, b, c, numbers),
    }
}

// Three DCs with the values of the side that they choose.
fn put_chosen(
    store: &[i32],
    own: &[i32],
    p: Place,
    i: usize,
    a: i32,
    b: i32,
    c: i32,
    numbers: &mut [i32; 11],
)
    requires { DcsAre (predictors p.bits_per_pixel p.quantiser_scale (around_by p store.now) (record_at own.now 0) i) a b c }
    ensures { numbers.new ≡ needed_of p.quantiser_scale true (predictors p.bits_per_pixel p.quantiser_scale (around_by p store.now) (record_at own.now 0) i) }
{
    match coefficients::select_dc_direction(a, b, c) {
        Err(_) => put_none(p, a, b, c, numbers),
        Ok(DcPredictionDirection::FromLeft) => {
            let at = 15 * places::a_block(i) as usize + 8;
            put_side(store, own, p, places::a_source(i), at, a, b, c, numbers)
        }
        Ok(DcPredictionDirection::FromAbove) => {
            let at = 15 * places::c_block(i) as usize + 1;
            put_side(store, own, p, places::c_source(i), at, a, b, c, numbers)
        }
    }
}

// What is needed of that which block `i` of six takes.
fn put_needed(
    store: &[i32],
    own: &[i32],
    p: Place,
    i: usize,
    ac_pred: bool,
    numbers: &mut [i32; 11],
)
    ensures { numbers.new ≡ needed_of p.quantiser_scale ac_pred (predictors p.bits_per_pixel p.quantiser_scale (around_by p store.now) (record_at own.now 0) i) }
{
    let from_a = places::a_source(i);
    let a = neighbours::neighbour_dc(store, own, p, from_a, places::a_block(i));
    let from_b = places::b_source(i);
    let b = neighbours::neighbour_dc(store, own, p, from_b, places::b_block(i));
    let from_c = places::c_source(i);
    let c = neighbours::neighbour_dc(store, own, p, from_c, places::c_block(i));
    if ac_pred {
        put_chosen(store, own, p, i, a, b, c, numbers)
    } else {
        put_none(p, a, b, c, numbers)
    }
}

// What the levels of block `i` need of that which it takes, out of the store and the macroblock's own record so far; or 11, 12, 14,
// and `numbers` as they were.
pub fn predictors_needed(
    store: &[i32],
    own: &[i32],
    p: Place,
    i: usize,
    ac_pred: bool,
    numbers: &mut [i32; 11],
) -> Result<(), RecordError>
    ensures value { (result ≡ first_bad (taken_tests (length store.now) (length own.now) p i)) × (numbers.new ≡ unless (first_bad (taken_tests (length store.now) (length own.now) p i)) (needed_of p.quantiser_scale ac_pred (predictors p.bits_per_pixel p.quantiser_scale (around_by p store.now) (record_at own.now 0) i)) numbers.old) }
    ensures outcome { recorded_outcome result ≡ taken_due (length store.now) (length own.now) p i }
{
    neighbours::check_taken(store.len(), own.len(), p, i)?;
    put_needed(store, own, p, i, ac_pred, numbers);
    Ok(())
}
