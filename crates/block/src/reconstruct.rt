// From the 64 places of a block, and all its predictors, to its levels and samples.
ghost use Rattle.std.specs.Prelude.{◌≡◌};
ghost use Rattle.assembly.specs.Values.{quant_of};
ghost use Rattle.block.specs.Rebuilt.{rebuilt_answer, rebuilt_due, rebuilt_levels, rebuilt_outcome, rebuilt_samples};
ghost use Rattle.block.specs.Short.{handed_of};

use assembly::{BlockAssemblyError, MacroblockTextureContext};
use codes::DcComponent;
use coefficients::BlockPredictors;
use inverse_quant::InverseQuantContext;

// An intra block under inverse quantisation.
pub(crate) fn quant_of(component: DcComponent, ctx: MacroblockTextureContext) -> InverseQuantContext
    ensures { result ≡ quant_of component ctx }
{
    InverseQuantContext {
        macroblock_intra: true,
        component,
        quantiser_scale: ctx.quantiser_scale,
        bits_per_pixel: ctx.bits_per_pixel,
        short_video_header: false,
    }
}

// What the levels need of fine predictors; of others zeros, which 13 refuses too.
fn handed(predictors: BlockPredictors, ctx: MacroblockTextureContext) -> [i32; 11]
    ensures { result ≡ handed_of ctx predictors }
{
    let mut numbers = [0i32; 11];
    if !coefficients::predictors_fine(predictors) {
        return numbers;
    }
    coefficients::needed(
        predictors,
        ctx.quantiser_scale,
        ctx.ac_pred_flag,
        &mut numbers,
    );
    numbers
}

// Block `i` out of its 64 places: 11, 12, 13, or its samples, its levels and its dequantised DC.
pub fn reconstruct_block(
    i: usize,
    qfs: [i32; 64],
    ctx: MacroblockTextureContext,
    predictors: BlockPredictors,
    w: [[u8; 8]; 8],
    spatial: &mut [[i32; 8]; 8],
    qf: &mut [[i32; 8]; 8],
) -> Result<i32, BlockAssemblyError>
    ensures value { result ≡ rebuilt_answer i ctx predictors w qfs }
    ensures samples { spatial.new ≡ rebuilt_samples i ctx predictors w qfs spatial.old }
    ensures levels { qf.new ≡ rebuilt_levels i ctx predictors w qfs qf.old }
    ensures outcome { rebuilt_outcome result ≡ rebuilt_due i ctx predictors w qfs }
{
    let numbers = handed(predictors, ctx);
    crate::short::reconstruct_up_to(i, &qfs, 64, ctx, &numbers, w, spatial, qf)
}
