// A row of levels by either method; a row of zeros is not dequantised.
ghost use Rattle.std.specs.Prelude.{◌≡◌};
ghost use Rattle.numbers.specs.Every.{every};
ghost use Rattle.numbers.specs.Sum.{sum_z};
ghost use Rattle.inverse_quant.specs.ByRows.{ContextGood, is_zero, LevelsRow, row_by1, row_by2, SumsAll, SumsRow, ValuesRow, with_row, zeros};

use crate::value::{value1, value2};
use dequantise::InverseQuantContext;

// Whether a row has zeros only.
fn row_zero(row: [i32; 8]) -> bool
    ensures { result ≡ every is_zero row }
{
    let mut some: i32 = 0;
    for x in &row {
        some |= *x;
    }
    some == 0
}

// A row of levels by method 1, limited.
fn row1(levels: [i32; 8], weights: [u8; 8], ctx: InverseQuantContext) -> [i32; 8]
    requires { LevelsRow levels × ContextGood ctx }
    ensures { result ≡ row_by1 ctx weights levels }
{
    let mut row = [0i32; 8];
    // an index: three rows go together
    for u in 0..8 {
        row[u] = value1(levels[u], weights[u], ctx);
    }
    row
}

// A row of levels by method 2, limited.
fn row2(levels: [i32; 8], ctx: InverseQuantContext) -> [i32; 8]
    requires { LevelsRow levels × ContextGood ctx }
    ensures { result ≡ row_by2 ctx levels }
{
    let mut row = [0i32; 8];
    // an index, as in `row1`
    for u in 0..8 {
        row[u] = value2(levels[u], ctx);
    }
    row
}

// A row added to sums, value by value.
fn added(sums: [i32; 8], row: [i32; 8]) -> [i32; 8]
    requires { SumsRow sums × ValuesRow row }
    ensures { result ≡ with_row sums row }
{
    let mut out = [0i32; 8];
    // an index: three rows go together
    for u in 0..8 {
        out[u] = sums[u] + row[u];
    }
    out
}

// The sum of sums.
pub(crate) fn sum_of(sums: [i32; 8]) -> i32
    requires { SumsAll sums }
    ensures { result ≡ sum_z sums }
{
    let mut sum: i32 = 0;
    for x in &sums {
        sum += *x;
    }
    sum
}

// A row by method 1 into `row`, of zeros, and added to the sums. Levels that are all zero leave it, since 0 gives 0.
pub(crate) fn put1(
    levels: [i32; 8],
    weights: [u8; 8],
    ctx: InverseQuantContext,
    row: &mut [i32; 8],
    sums: [i32; 8],
) -> [i32; 8]
    requires { LevelsRow levels × ContextGood ctx × (row.old ≡ zeros) × SumsRow sums }
    ensures { (row.new ≡ row_by1 ctx weights levels) × (result ≡ with_row sums (row_by1 ctx weights levels)) }
{
    if row_zero(levels) {
        return sums;
    }
    let values = row1(levels, weights, ctx);
    let more = added(sums, values);
    *row = values;
    more
}

// A row by method 2 into `row`, of zeros.
pub(crate) fn put2(levels: [i32; 8], ctx: InverseQuantContext, row: &mut [i32; 8])
    requires { LevelsRow levels × ContextGood ctx × (row.old ≡ zeros) }
    ensures { row.new ≡ row_by2 ctx levels }
{
    if !row_zero(levels) {
        *row = row2(levels, ctx);
    }
}
