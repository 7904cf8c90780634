// The inverse quantisation of a block (7.4.4), by either method.
ghost use Rattle.std.specs.Prelude.{true, false, ◌≡◌, length};
ghost use Rattle.ranges.specs.Range.{level_fine};
ghost use Rattle.coefficients.specs.Level.{block_fine};
ghost use Rattle.prediction.specs.Outcomes.{stage_outcome};
ghost use Rattle.prediction.specs.Refusal.{after, first_bad};
ghost use Rattle.inverse_quant.specs.ByRows.{ContextGood, first_value};
ghost use Rattle.inverse_quant.specs.Dequantised.{answer1, answer2, dequantised1, dequantised2};
ghost use Rattle.inverse_quant.specs.Either.{answer_by, dequantised_by, due_by};
ghost use Rattle.inverse_quant.specs.Outcomes.{due1, due2};

use crate::rows::{block_fine, fill1, fill2};
use crate::value::saturate_fprime;
use dequantise::{InverseQuantContext, context_fine, matrix_fine};
use mismatch::last_value;
use prediction::CoefficientError;

// The first value: the DC's rule in an intra block, which is never refused here, else `value`, which is the method's.
fn first_value(level: i32, value: i32, ctx: InverseQuantContext) -> i32
    requires { (level_fine level ≡ true) × ContextGood ctx }
    ensures { result ≡ first_value ctx level value }
{
    if !ctx.macroblock_intra {
        return value;
    }
    let component = ctx.component;
    let q = ctx.quantiser_scale;
    match dequantise::inverse_quant_intra_dc(level, component, q, ctx.short_video_header) {
        Err(_) => 0,
        Ok(z) => saturate_fprime(z, ctx.bits_per_pixel),
    }
}

// 7.4.4 by method 1 into `out`, with or without mismatch control; or 13, and `out` as it was.
fn rows1(
    qf: &[[i32; 8]; 8],
    w: &[[u8; 8]; 8],
    ctx: InverseQuantContext,
    control: bool,
    out: &mut [[i32; 8]; 8],
) -> Result<(), CoefficientError>
    requires { ContextGood ctx × (length qf.now ≡ 8) }
    ensures { (result ≡ first_bad true (block_fine qf.now)) × (out.new ≡ after (first_bad true (block_fine qf.now)) (dequantised1 control ctx w.now qf.now) out.old) }
{
    if !block_fine(qf) {
        return Err(CoefficientError::HandedIn);
    }
    *out = [[0i32; 8]; 8];
    let filled = fill1(qf, w, ctx, out);
    let dc = first_value(qf[0][0], out[0][0], ctx);
    let sum = filled - out[0][0] + dc;
    out[0][0] = dc;
    out[7][7] = last_value(control, sum, out[7][7]);
    Ok(())
}

// 7.4.4 by method 2 into `out`; or 13, and `out` as it was.
fn rows2(
    qf: &[[i32; 8]; 8],
    ctx: InverseQuantContext,
    out: &mut [[i32; 8]; 8],
) -> Result<(), CoefficientError>
    requires { ContextGood ctx × (length qf.now ≡ 8) }
    ensures { (result ≡ first_bad true (block_fine qf.now)) × (out.new ≡ after (first_bad true (block_fine qf.now)) (dequantised2 ctx qf.now) out.old) }
{
    if !block_fine(qf) {
        return Err(CoefficientError::HandedIn);
    }
    *out = [[0i32; 8]; 8];
    fill2(qf, ctx, out);
    out[0][0] = first_value(qf[0][0], out[0][0], ctx);
    Ok(())
}

// 7.4.4 by method 1, with or without mismatch control, or by method 2, into `out`; or 12 or 13, and `out` as it was.
pub fn inverse_quant_rows(
    qf: [[i32; 8]; 8],
    w: [[u8; 8]; 8],
    ctx: InverseQuantContext,
    method1: bool,
    control: bool,
    out: &mut [[i32; 8]; 8],
) -> Result<(), CoefficientError>
    ensures value { (result ≡ answer_by method1 ctx w qf) × (out.new ≡ after (answer_by method1 ctx w qf) (dequantised_by method1 control ctx w qf) out.old) }
    ensures outcome { stage_outcome result ≡ due_by method1 ctx w qf }
{
    if !context_fine(ctx) {
        return Err(CoefficientError::Context);
    }
    if !method1 {
        return rows2(&qf, ctx, out);
    }
    if !matrix_fine(w) {
        return Err(CoefficientError::Context);
    }
    rows1(&qf, &w, ctx, control, out)
}

// 7.4.4 by method 1, with mismatch control.
pub fn inverse_quant_method1(
    qf: [[i32; 8]; 8],
    w: [[u8; 8]; 8],
    ctx: InverseQuantContext,
    out: &mut [[i32; 8]; 8],
) -> Result<(), CoefficientError>
    ensures value { (result ≡ answer1 ctx w qf) × (out.new ≡ after (answer1 ctx w qf) (dequantised1 true ctx w qf) out.old) }
    ensures outcome { stage_outcome result ≡ due1 ctx w qf }
{
    inverse_quant_rows(qf, w, ctx, true, true, out)
}

// 7.4.4 by method 1, without mismatch control.
pub fn inverse_quant_method1_no_mismatch(
    qf: [[i32; 8]; 8],
    w: [[u8; 8]; 8],
    ctx: InverseQuantContext,
    out: &mut [[i32; 8]; 8],
) -> Result<(), CoefficientError>
    ensures value { (result ≡ answer1 ctx w qf) × (out.new ≡ after (answer1 ctx w qf) (dequantised1 false ctx w qf) out.old) }
    ensures outcome { stage_outcome result ≡ due1 ctx w qf }
{
    inverse_quant_rows(qf, w, ctx, true, false, out)
}

// 7.4.4 by method 2 into `out`, which takes no matrix: any stands in its place; or 12 or 13, and `out` as it was.
pub fn inverse_quant_method2(
    qf: [[i32; 8]; 8],
    ctx: InverseQuantContext,
    out: &mut [[i32; 8]; 8],
) -> Result<(), CoefficientError>
    ensures value { (result ≡ answer2 ctx qf) × (out.new ≡ after (answer2 ctx qf) (dequantised2 ctx qf) out.old) }
    ensures outcome { stage_outcome result ≡ due2 ctx qf }
{
    let unused = [[1u8; 8]; 8];
    inverse_quant_rows(qf, unused, ctx, false, false, out)
}
