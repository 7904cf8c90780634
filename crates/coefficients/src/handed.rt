// A short way to hand predictors over: what the levels of a block need of them, as eleven numbers that are lent. First the DCs
// of A, B and C, then a quantiser and seven values, those of the side that the DCs choose.
ghost use Rattle.std.specs.Prelude.{◌≡◌};
ghost use Rattle.coefficients.specs.Level.{predictors_fine};
ghost use Rattle.coefficients.specs.Needed.{dcs_only, needed_of, numbered, numbers_of, seven_in, some_value, told, with_side};
ghost use Rattle.scan.specs.declared.DcPredictionDirection.TheVariants.{FromAbove, FromLeft};

use prediction::BlockPredictors;
use ranges::{NeighbourDc, Quantiser};
use scan::DcPredictionDirection;

// A quantiser as a number.
fn told_as(q: u32) -> i32
    ensures { result ≡ told q }
{
    if Quantiser::fine(q) { q as i32 } else { 0 }
}

// The numbers of three DCs, a quantiser and seven values.
pub fn put_numbers(fa: i32, fb: i32, fc: i32, qp: u32, v: [i32; 7], numbers: &mut [i32; 11])
    ensures { numbers.new ≡ numbers_of fa fb fc qp v }
{
    let q = told_as(qp);
    *numbers = [fa, fb, fc, q, v[0], v[1], v[2], v[3], v[4], v[5], v[6]];
}

// The seven values.
pub(crate) fn seven_in(n: &[i32; 11]) -> [i32; 7]
    ensures { result ≡ seven_in n.now }
{
    [n[4], n[5], n[6], n[7], n[8], n[9], n[10]]
}

// Whether some of seven values is not 0.
fn some_value(values: [i32; 7]) -> bool
    ensures { result ≡ some_value values }
{
    // no early end: no test waits for another
    let mut zeros = true;
    for k in 0..7 {
        let zero = values[k] == 0;
        zeros = zeros & zero;
    }
    !zeros
}

// Whether some value is added to the levels where AC prediction is set.
pub fn adds_values(numbers: &[i32; 11]) -> bool
    ensures { result ≡ some_value (seven_in numbers.now) }
{
    some_value(seven_in(numbers))
}

// Whether the numbers may be handed in (13).
pub fn needed_fine(n: &[i32; 11]) -> bool
    ensures { result ≡ predictors_fine (numbered n.now) }
{
    // an `if` for each: joined by `&&`, so many tests had no proof
    if !NeighbourDc::fine(n[0]) {
        return false;
    }
    if !NeighbourDc::fine(n[1]) {
        return false;
    }
    if !NeighbourDc::fine(n[2]) {
        return false;
    }
    if !Quantiser::fine(numbers::abs(n[3])) {
        return false;
    }
    prediction::all_levels(seven_in(n))
}

// The numbers of the DCs alone.
fn put_dcs(p: BlockPredictors, q: u32, numbers: &mut [i32; 11])
    ensures { numbers.new ≡ dcs_only q p }
{
    put_numbers(p.fa_dc, p.fb_dc, p.fc_dc, q, [0i32; 7], numbers);
}

// The numbers with the side of a direction.
fn put_side(p: BlockPredictors, q: u32, direction: DcPredictionDirection, numbers: &mut [i32; 11])
    ensures { numbers.new ≡ with_side q p direction }
{
    match direction {
        DcPredictionDirection::FromLeft => {
            if !p.a_has_column {
                put_dcs(p, q, numbers);
                return;
            }
            let column = p.a_first_column;
            put_numbers(p.fa_dc, p.fb_dc, p.fc_dc, p.qp_a, column, numbers);
        }
        DcPredictionDirection::FromAbove => {
            if !p.c_has_row {
                put_dcs(p, q, numbers);
                return;
            }
            let row = p.c_first_row;
            put_numbers(p.fa_dc, p.fb_dc, p.fc_dc, p.qp_c, row, numbers);
        }
    }
}

// What the levels of a block with predictors `p` need.
pub fn needed(p: BlockPredictors, q: u32, ac_pred: bool, numbers: &mut [i32; 11])
    ensures { numbers.new ≡ needed_of q ac_pred p }
{
    if !ac_pred {
        put_dcs(p, q, numbers);
        return;
    }
    match prediction::select_dc_direction(p.fa_dc, p.fb_dc, p.fc_dc) {
        Err(_) => put_dcs(p, q, numbers),
        Ok(direction) => put_side(p, q, direction, numbers),
    }
}
