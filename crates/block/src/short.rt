// A short way from places to samples: places up to an end, rows of zeros left out, and a block with a DC alone as one level,
// one value and 64 equal samples.
ghost use Rattle.std.specs.Prelude.{not, true, ◌&&◌, [], ◌∷◌, ◌≡◌, ◌+◌, Ok};
ghost use Rattle.numbers.specs.Grid.{cell};
ghost use Rattle.ranges.specs.Range.{depth_fine, difference_fine, level_fine, quantiser_fine};
ghost use Rattle.coefficients.specs.Level.{block_fine, predictors_fine};
ghost use Rattle.coefficients.specs.Needed.{numbered};
ghost use Rattle.prediction.specs.Prediction.{direction_by};
ghost use Rattle.scan_rows.specs.UpTo.{up_to};
ghost use Rattle.idct.specs.Clipped.{dc_block};
ghost use Rattle.idct.specs.Limits.{in_bounds};
ghost use Rattle.mismatch.specs.Mismatch.{even};
ghost use Rattle.dequantise.specs.Methods.{limited_f};
ghost use Rattle.assembly.specs.Answer.{first_bad};
ghost use Rattle.block.specs.Rebuilt.{dc_here, handed_tests, kept_by, levels_here, rebuilt_answer, rebuilt_by, rebuilt_due, rebuilt_levels, rebuilt_outcome, rebuilt_samples, values_here};
ghost use Rattle.block.specs.Short.{adds, dc_level, dc_value, dc_values};
ghost use Rattle.assembly.specs.Values.{context_fine, samples_of, values_of};
ghost use Rattle.assembly.specs.declared.error.BlockAssemblyError.TheVariants.{Predictor};

use assembly::{BlockAssemblyError, MacroblockTextureContext};
use codes::DcComponent;
use coefficients::DcPredictionDirection;
use idct::IdctError;
use ranges::Depth;

// Whether AC values of a neighbour are added.
fn adds_values(ac_pred_flag: bool, n: &[i32; 11]) -> bool
    ensures { result ≡ adds ac_pred_flag n.now }
{
    if !ac_pred_flag {
        return false;
    }
    coefficients::adds_values(n)
}

// A value within the limits of a depth.
fn limited(value: i32, bits_per_pixel: u32) -> i32
    requires { depth_fine bits_per_pixel ≡ true }
    ensures { result ≡ limited_f bits_per_pixel value }
{
    match Depth::value_limits(bits_per_pixel) {
        None => value,
        Some((lo, hi)) => numbers::clamp(value, lo, hi),
    }
}

// The dequantised DC of a level.
fn value_of(level: i32, component: DcComponent, ctx: MacroblockTextureContext) -> i32
    requires { (quantiser_fine ctx.quantiser_scale ≡ true) × (depth_fine ctx.bits_per_pixel ≡ true) × (level_fine level ≡ true) }
    ensures { result ≡ dc_value component ctx level }
{
    match inverse_quant::inverse_quant_intra_dc(level, component, ctx.quantiser_scale, false) {
        Err(_) => 0,
        Ok(z) => limited(z, ctx.bits_per_pixel),
    }
}

// Whether mismatch control leaves a DC alone.
fn stays_alone(dc: i32, ctx: MacroblockTextureContext) -> bool
    ensures { result ≡ not (ctx.quant_type && (not ctx.intra_mismatch_exempt && even dc)) }
{
    if !ctx.quant_type {
        return true;
    }
    if ctx.intra_mismatch_exempt {
        return true;
    }
    dc % 2 != 0
}

// The samples of a DC.
fn dc_samples(
    dc: i32,
    ctx: MacroblockTextureContext,
    spatial: &mut [[i32; 8]; 8],
) -> Result<(), IdctError>
    requires { (depth_fine ctx.bits_per_pixel ≡ true) × (in_bounds (ctx.bits_per_pixel + 3) dc ≡ true) }
    ensures { (result ≡ Ok tt) × (spatial.new ≡ samples_of ctx (dc_values ctx dc)) }
{
    let depth = ctx.bits_per_pixel;
    let rounding = ctx.idct_rounding;
    if stays_alone(dc, ctx) {
        return idct::idct_dc_clipped(dc, depth, rounding, spatial);
    }
    idct::idct_dc_and_last_clipped(dc, depth, rounding, spatial)
}

// A block of one level.
fn from_level(
    level: i32,
    component: DcComponent,
    ctx: MacroblockTextureContext,
    spatial: &mut [[i32; 8]; 8],
    qf: &mut [[i32; 8]; 8],
) -> Result<i32, BlockAssemblyError>
    requires { (quantiser_fine ctx.quantiser_scale ≡ true) × (depth_fine ctx.bits_per_pixel ≡ true) × (level_fine level ≡ true) }
    ensures value { result ≡ Ok (dc_value component ctx level) }
    ensures samples { spatial.new ≡ samples_of ctx (dc_values ctx (dc_value component ctx level)) }
    ensures levels { qf.new ≡ dc_block level }
{
    let dc = value_of(level, component, ctx);
    match dc_samples(dc, ctx, spatial) {
        Err(IdctError::DepthOutOfRange) => Err(BlockAssemblyError::Context),
        Err(IdctError::ValueOutOfLimits) => Err(BlockAssemblyError::Predictor),
        Ok(()) => {
            let mut levels = [[0i32; 8]; 8];
            levels[0][0] = level;
            *qf = levels;
            Ok(dc)
        }
    }
}

// A block with no place but its first, to which no neighbour adds.
fn dc_alone(
    difference: i32,
    direction: DcPredictionDirection,
    component: DcComponent,
    ctx: MacroblockTextureContext,
    n: &[i32; 11],
    spatial: &mut [[i32; 8]; 8],
    qf: &mut [[i32; 8]; 8],
) -> Result<i32, BlockAssemblyError>
    requires { (quantiser_fine ctx.quantiser_scale ≡ true) × (depth_fine ctx.bits_per_pixel ≡ true) × (predictors_fine (numbered n.now) ≡ true) × (direction ≡ direction_by (numbered n.now)) }
    ensures value { result ≡ rebuilt_by (first_bad ((difference_fine difference, Predictor) ∷ [])) (dc_value component ctx (dc_level component ctx.quantiser_scale (numbered n.now) difference)) }
    ensures samples { spatial.new ≡ kept_by (first_bad ((difference_fine difference, Predictor) ∷ [])) (samples_of ctx (dc_values ctx (dc_value component ctx (dc_level component ctx.quantiser_scale (numbered n.now) difference)))) spatial.old }
    ensures levels { qf.new ≡ kept_by (first_bad ((difference_fine difference, Predictor) ∷ [])) (dc_block (dc_level component ctx.quantiser_scale (numbered n.now) difference)) qf.old }
{
    let Ok(scaler) = coefficients::dc_scaler(component, ctx.quantiser_scale) else {
        return Err(BlockAssemblyError::Context);
    };
    let Ok(z) = coefficients::predict_intra_dc(difference, direction, n[0], n[2], scaler) else {
        return Err(BlockAssemblyError::Predictor);
    };
    let level = coefficients::saturate_qf(z);
    from_level(level, component, ctx, spatial, qf)
}

// Levels that were worked out, through values to samples.
fn from_levels(
    levels: [[i32; 8]; 8],
    component: DcComponent,
    ctx: MacroblockTextureContext,
    w: [[u8; 8]; 8],
    spatial: &mut [[i32; 8]; 8],
) -> Result<i32, BlockAssemblyError>
    requires { (context_fine ctx w ≡ true) × (block_fine levels ≡ true) }
    ensures { (result ≡ Ok (cell (values_of component ctx w levels) 0 0)) × (spatial.new ≡ samples_of ctx (values_of component ctx w levels)) }
{
    let mut values = [[0i32; 8]; 8];
    let quant = crate::reconstruct::quant_of(component, ctx);
    let control = !ctx.intra_mismatch_exempt;
    let Ok(()) = inverse_quant::inverse_quant_rows(
        levels,
        w,
        quant,
        ctx.quant_type,
        control,
        &mut values,
    ) else {
        return Err(BlockAssemblyError::Context);
    };
    let rounding = ctx.idct_rounding;
    match idct::idct_8x8_clipped(values, ctx.bits_per_pixel, rounding, spatial) {
        Err(IdctError::DepthOutOfRange) => Err(BlockAssemblyError::Context),
        Err(IdctError::ValueOutOfLimits) => { Err(BlockAssemblyError::Predictor) }
        Ok(()) => Ok(values[0][0]),
    }
}

// A block by its places below `end`.
fn coded(
    component: DcComponent,
    qfs: &[i32],
    end: usize,
    ctx: MacroblockTextureContext,
    n: &[i32; 11],
    w: [[u8; 8]; 8],
    spatial: &mut [[i32; 8]; 8],
    qf: &mut [[i32; 8]; 8],
) -> Result<i32, BlockAssemblyError>
    requires { context_fine ctx w ≡ true }
    ensures value { result ≡ rebuilt_by (first_bad (handed_tests component ctx (numbered n.now) w (up_to end qfs.now))) (dc_here component ctx (numbered n.now) w (up_to end qfs.now)) }
    ensures samples { spatial.new ≡ kept_by (first_bad (handed_tests component ctx (numbered n.now) w (up_to end qfs.now))) (samples_of ctx (values_here component ctx (numbered n.now) w (up_to end qfs.now))) spatial.old }
    ensures levels { qf.new ≡ kept_by (first_bad (handed_tests component ctx (numbered n.now) w (up_to end qfs.now))) (levels_here component ctx (numbered n.now) w (up_to end qfs.now)) qf.old }
{
    let q = ctx.quantiser_scale;
    let ac_pred = ctx.ac_pred_flag;
    let alternate = ctx.alternate_vertical_scan;
    let Ok(()) = coefficients::intra_levels_up_to(qfs, end, component, q, ac_pred, alternate, n, qf)
    else {
        return Err(BlockAssemblyError::Predictor);
    };
    let levels = *qf;
    from_levels(levels, component, ctx, w, spatial)
}

// Once the context is fine, of the places below `end`: levels into `qf`, samples into `spatial`; or 13, and both as they were.
pub(crate) fn rebuild_up_to(
    component: DcComponent,
    qfs: &[i32],
    end: usize,
    ctx: MacroblockTextureContext,
    n: &[i32; 11],
    w: [[u8; 8]; 8],
    spatial: &mut [[i32; 8]; 8],
    qf: &mut [[i32; 8]; 8],
) -> Result<i32, BlockAssemblyError>
    requires { context_fine ctx w ≡ true }
    ensures value { result ≡ rebuilt_by (first_bad (handed_tests component ctx (numbered n.now) w (up_to end qfs.now))) (dc_here component ctx (numbered n.now) w (up_to end qfs.now)) }
    ensures samples { spatial.new ≡ kept_by (first_bad (handed_tests component ctx (numbered n.now) w (up_to end qfs.now))) (samples_of ctx (values_here component ctx (numbered n.now) w (up_to end qfs.now))) spatial.old }
    ensures levels { qf.new ≡ kept_by (first_bad (handed_tests component ctx (numbered n.now) w (up_to end qfs.now))) (levels_here component ctx (numbered n.now) w (up_to end qfs.now)) qf.old }
{
    if !coefficients::needed_fine(n) {
        return Err(BlockAssemblyError::Predictor);
    }
    let Ok(direction) = coefficients::select_dc_direction(n[0], n[1], n[2]) else {
        return Err(BlockAssemblyError::Predictor);
    };
    let adds = adds_values(ctx.ac_pred_flag, n);
    if (end == 1) & (1 <= qfs.len()) & !adds {
        return dc_alone(qfs[0], direction, component, ctx, n, spatial, qf);
    }
    coded(component, qfs, end, ctx, n, w, spatial, qf)
}

// Block `i` out of its places below `end`, the others taken as 0: 11, 12, 13, or its samples, its levels and its dequantised DC.
pub fn reconstruct_up_to(
    i: usize,
    qfs: &[i32],
    end: usize,
    ctx: MacroblockTextureContext,
    n: &[i32; 11],
    w: [[u8; 8]; 8],
    spatial: &mut [[i32; 8]; 8],
    qf: &mut [[i32; 8]; 8],
) -> Result<i32, BlockAssemblyError>
    ensures value { result ≡ rebuilt_answer i ctx (numbered n.now) w (up_to end qfs.now) }
    ensures samples { spatial.new ≡ rebuilt_samples i ctx (numbered n.now) w (up_to end qfs.now) spatial.old }
    ensures levels { qf.new ≡ rebuilt_levels i ctx (numbered n.now) w (up_to end qfs.now) qf.old }
    ensures outcome { rebuilt_outcome result ≡ rebuilt_due i ctx (numbered n.now) w (up_to end qfs.now) }
{
    let Some(m) = DcComponent::from_block_index(i) else {
        return Err(BlockAssemblyError::OutOfRange);
    };
    if !assembly::context_fine(ctx, w) {
        return Err(BlockAssemblyError::Context);
    }
    rebuild_up_to(m, qfs, end, ctx, n, w, spatial, qf)
}
