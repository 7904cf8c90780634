// Every row of a block by either method, and the test of its levels.
ghost use Rattle.std.specs.Prelude.{true, ◌≡◌, ℕ, length};
ghost use Rattle.numbers.specs.Grid.{build};
ghost use Rattle.mismatch.specs.Mismatch.{sum_of};
ghost use Rattle.coefficients.specs.Level.{block_fine};
ghost use Rattle.inverse_quant.specs.ByRows.{ContextGood, rows_by1, rows_by2, zeros};

use crate::row::{put1, put2, sum_of};
use dequantise::InverseQuantContext;

// Whether a block's every value is a level.
pub(crate) fn block_fine(qf: &[[i32; 8]; 8]) -> bool
    requires { length qf.now ≡ 8 }
    ensures { result ≡ block_fine qf.now }
{
    let mut fine = true;
    for row in qf {
        fine &= dequantise::row_fine(*row);
    }
    fine
}

// Every row by method 1 into `f`, of zeros, and the sum.
pub(crate) fn fill1(
    qf: &[[i32; 8]; 8],
    w: &[[u8; 8]; 8],
    ctx: InverseQuantContext,
    f: &mut [[i32; 8]; 8],
) -> i32
    requires { ContextGood ctx × (length qf.now ≡ 8) × (block_fine qf.now ≡ true) × (f.old ≡ build 8 (λ (v : ℕ). zeros)) }
    ensures { (f.new ≡ rows_by1 ctx w.now qf.now) × (result ≡ sum_of (rows_by1 ctx w.now qf.now)) }
{
    let mut sums = [0i32; 8];
    // an index: three blocks go together
    for v in 0..8 {
        let levels = qf[v];
        let weights = w[v];
        let more = put1(levels, weights, ctx, &mut f[v], sums);
        sums = more;
    }
    sum_of(sums)
}

// Every row by method 2 into `f`, of zeros.
pub(crate) fn fill2(qf: &[[i32; 8]; 8], ctx: InverseQuantContext, f: &mut [[i32; 8]; 8])
    requires { ContextGood ctx × (length qf.now ≡ 8) × (block_fine qf.now ≡ true) × (f.old ≡ build 8 (λ (v : ℕ). zeros)) }
    ensures { f.new ≡ rows_by2 ctx qf.now }
{
    // an index: two blocks go together
    for v in 0..8 {
        let levels = qf[v];
        put2(levels, ctx, &mut f[v]);
    }
}
