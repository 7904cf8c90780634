// Six blocks from places to samples.
ghost use Rattle.std.specs.Prelude.{true, [], ◌≡◌, ℕ, ◌<◌, ◌≤◌, get_or, length, Ok};
ghost use Rattle.codes.specs.Component.{component_at};
ghost use Rattle.coefficients.specs.Level.{places_fine, predictors_fine};
ghost use Rattle.coefficients.specs.Needed.{numbered};
ghost use Rattle.scan_rows.specs.UpTo.{up_to};
ghost use Rattle.block.specs.Rebuilt.{values_here};
ghost use Rattle.assembly.specs.Values.{context_fine, samples_of};
ghost use Rattle.samples.specs.Samples.{block_after, macroblock_samples, samples_after};
ghost use Rattle.window_reader.specs.Ends.{ends_of};
ghost use Rattle.macroblock.specs.Six.{samples_of_six, values_of_six};

use block::{BlockAssemblyError, MacroblockTextureContext};
use coefficients::BlockPredictors;
use samples::SamplesError;

// Block `i` out of its places below `end`, with what it needs of its predictors, into its part of the samples. The state is fine and the places are a sentence's,
// so nothing is refused.
fn block_into(
    i: usize,
    qfs: &[i32],
    end: usize,
    ctx: MacroblockTextureContext,
    n: &[i32; 11],
    w: [[u8; 8]; 8],
    samples: &mut [i32],
) -> Result<(), BlockAssemblyError>
    requires { (i < 6) × (macroblock_samples ≤ length samples.old) × (context_fine ctx w ≡ true) × (predictors_fine (numbered n.now) ≡ true) × (places_fine qfs.now ≡ true) × (up_to end qfs.now ≡ qfs.now) }
    ensures { (result ≡ Ok tt) × (samples.new ≡ block_after i (samples_of ctx (values_here (component_at i) ctx (numbered n.now) w qfs.now)) samples.old) }
{
    let mut spatial = [[0i32; 8]; 8];
    let mut qf = [[0i32; 8]; 8];
    block::reconstruct_up_to(i, qfs, end, ctx, n, w, &mut spatial, &mut qf)?;
    let put = samples::write_one(samples, i, spatial);
    match put {
        Err(SamplesError::OutOfRange) => Err(BlockAssemblyError::OutOfRange),
        Err(SamplesError::TooShort) => Err(BlockAssemblyError::TooShort),
        Ok(()) => Ok(()),
    }
}

// The samples of six blocks with the same predictors, each row with its end.
pub(crate) fn samples_of_six(
    rows: &[[i32; 64]; 6],
    ends: [usize; 6],
    ctx: MacroblockTextureContext,
    predictors: BlockPredictors,
    w: [[u8; 8]; 8],
    samples: &mut [i32],
) -> Result<(), BlockAssemblyError>
    requires { (macroblock_samples ≤ length samples.old) × (context_fine ctx w ≡ true) × (predictors_fine predictors ≡ true) × (ends ≡ ends_of rows.now) × ((i : ℕ) → i < 6 → (places_fine (get_or rows.now i []) ≡ true) × (length (get_or rows.now i []) ≡ 64)) }
    ensures { (result ≡ Ok tt) × (samples.new ≡ samples_after (samples_of_six ctx (values_of_six ctx predictors w rows.now)) samples.old) }
{
    let mut n = [0i32; 11];
    coefficients::needed(predictors, ctx.quantiser_scale, ctx.ac_pred_flag, &mut n);
    for i in 0..6 {
        block_into(i, &rows[i], ends[i], ctx, &n, w, samples)?;
    }
    Ok(())
}
