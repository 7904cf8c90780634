// One intra block, from its bits to its samples (decode_intra_block_full and its reversible form).
ghost use Rattle.std.specs.Prelude.{◌≡◌, true};
ghost use Rattle.bits.specs.Bits.{bits_from};
ghost use Rattle.coefficients.specs.Level.{predictors_fine};
ghost use Rattle.fields.specs.Inside.{Readable};
ghost use Rattle.sentences.specs.MacroblockReader.{read_block};
ghost use Rattle.block.specs.Decoded.{block_answer, decoded_by, levels_after, levels_told, samples_after, samples_told, told};
ghost use Rattle.block.specs.Outcomes.{block_due, block_outcome};
ghost use Rattle.assembly.specs.Values.{context_fine};

use assembly::{BlockAssemblyError, MacroblockTextureContext};
use bits::Cursor;
use codes::DcComponent;
use coefficients::BlockPredictors;
use texture::Spellings;

// The dequantised DC, the cursor after the block and the number of its events of each spelling.
#[derive(Clone, Copy)]
pub struct BlockDecoded {
    pub dc: i32,
    pub next: Cursor,
    pub spellings: Spellings,
}

// A block that was rebuilt, with what its reading told.
fn decoded(
    rebuilt: Result<i32, BlockAssemblyError>,
    next: Cursor,
    spellings: Spellings,
) -> Result<BlockDecoded, BlockAssemblyError>
    ensures { result ≡ decoded_by rebuilt next spellings }
{
    let dc = rebuilt?;
    Ok(BlockDecoded {
        dc,
        next,
        spellings,
    })
}

// A block of a component, once the state is checked.
fn decode_checked(
    data: &[u8],
    c: Cursor,
    component: DcComponent,
    coded: bool,
    dc_coded: bool,
    reversible: bool,
    ctx: MacroblockTextureContext,
    predictors: BlockPredictors,
    w: [[u8; 8]; 8],
    spatial: &mut [[i32; 8]; 8],
    qf: &mut [[i32; 8]; 8],
) -> Result<BlockDecoded, BlockAssemblyError>
    requires { Readable «data».now c × (context_fine ctx w ≡ true) × (predictors_fine predictors ≡ true) }
    ensures value { result ≡ told «data».now component dc_coded ctx predictors w (read_block dc_coded reversible (component, coded) (bits_from «data».now c.bit_pos)) }
    ensures samples { spatial.new ≡ samples_told «data».now component dc_coded ctx predictors w (read_block dc_coded reversible (component, coded) (bits_from «data».now c.bit_pos)) spatial.old }
    ensures levels { qf.new ≡ levels_told «data».now component dc_coded ctx predictors w (read_block dc_coded reversible (component, coded) (bits_from «data».now c.bit_pos)) qf.old }
{
    let one = block_reader::read_block(data, c, component, coded, dc_coded, reversible);
    let (next, spellings) = one.answer?;
    let places = one.qfs;
    let mut numbers = [0i32; 11];
    coefficients::needed(
        predictors,
        ctx.quantiser_scale,
        ctx.ac_pred_flag,
        &mut numbers,
    );
    let rebuilt = crate::short::rebuild_up_to(
        component, &places, 64, ctx, &numbers, w, spatial, qf,
    );
    decoded(rebuilt, next, spellings)
}

// Block i of a macroblock: its DC part, where `use_intra_dc_vlc` is set, and its list, where it is coded.
pub fn decode_intra_block_full(
    data: &[u8],
    c: Cursor,
    i: usize,
    coded: bool,
    use_intra_dc_vlc: bool,
    reversible_vlc: bool,
    ctx: MacroblockTextureContext,
    predictors: BlockPredictors,
    quant_matrix: [[u8; 8]; 8],
    spatial: &mut [[i32; 8]; 8],
    qf: &mut [[i32; 8]; 8],
) -> Result<BlockDecoded, BlockAssemblyError>
    ensures value { result ≡ block_answer «data».now c.bit_pos coded use_intra_dc_vlc reversible_vlc ctx predictors quant_matrix i }
    ensures samples { spatial.new ≡ samples_after «data».now c.bit_pos coded use_intra_dc_vlc reversible_vlc ctx predictors quant_matrix i spatial.old }
    ensures levels { qf.new ≡ levels_after «data».now c.bit_pos coded use_intra_dc_vlc reversible_vlc ctx predictors quant_matrix i qf.old }
    ensures outcome { block_outcome result ≡ block_due «data».now c.bit_pos ctx predictors quant_matrix i coded use_intra_dc_vlc reversible_vlc }
{
    let Some(m) = DcComponent::from_block_index(i) else {
        return Err(BlockAssemblyError::OutOfRange);
    };
    assembly::check(data, c, ctx, predictors, quant_matrix)?;
    decode_checked(
        data,
        c,
        m,
        coded,
        use_intra_dc_vlc,
        reversible_vlc,
        ctx,
        predictors,
        quant_matrix,
        spatial,
        qf,
    )
}
