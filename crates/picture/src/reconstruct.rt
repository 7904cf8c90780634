// Six blocks, one after the other, each with its own neighbours. The state is fine and the places are a sentence's, so
// nothing is refused.
ghost use Rattle.std.specs.Prelude.{◌≡◌, length};
ghost use Rattle.macroblock.specs.Six.{samples_of_six};
ghost use Rattle.neighbours.specs.Neighbours.{around_by};
ghost use Rattle.record.specs.Record.{stored_at, with_block};
ghost use Rattle.record.specs.Refusals.{block_tests, first_bad, unless};
ghost use Rattle.samples.specs.Samples.{block_after, samples_after};
ghost use Rattle.picture.specs.Serial.{record_of, values_in_turn};
ghost use Rattle.picture.specs.Turn.{SixReady, TurnReady, record_turn, samples_turn};

use block::MacroblockTextureContext;
use neighbours::Place;
use picture_state::Due;

// The samples of block `i` into their part, and what is kept of it into the record `own`.
fn put(
    samples: &mut [i32],
    spatial: [[i32; 8]; 8],
    own: &mut [i32],
    i: usize,
    dc: i32,
    qf: [[i32; 8]; 8],
)
    ensures record { own.new ≡ unless (first_bad (block_tests (length own.old) i)) (with_block own.old i dc qf) own.old }
    ensures samples { samples.new ≡ block_after i spatial samples.old }
{
    let _ = samples::write_one(samples, i, spatial);
    let _ = neighbours::with_block(own, i, dc, qf);
}

// Block `i` out of its places below `end`: its samples into its part, and what is kept of it into the record `own`.
fn one_block(
    store: &[i32],
    place: Place,
    qfs: &[i32],
    end: usize,
    ctx: MacroblockTextureContext,
    w: [[u8; 8]; 8],
    i: usize,
    own: &mut [i32],
    samples: &mut [i32],
)
    requires { TurnReady ctx w place store.now own.old qfs.now i end (length samples.old) }
    ensures record { own.new ≡ record_turn ctx w place store.now own.old qfs.now i }
    ensures samples { samples.new ≡ samples_turn ctx w place store.now own.old qfs.now i samples.old }
{
    let mut n = [0i32; 11];
    let _ = needed::predictors_needed(store, &*own, place, i, ctx.ac_pred_flag, &mut n);
    let mut spatial = [[0i32; 8]; 8];
    let mut qf = [[0i32; 8]; 8];
    let Ok(dc) = block::reconstruct_up_to(i, qfs, end, ctx, &n, w, &mut spatial, &mut qf) else {
        return;
    };
    put(samples, spatial, own, i, dc, qf);
}

// The macroblock that is due, out of six rows of places and their ends: its samples into their parts, and what is kept of it
// into the store.
pub(crate) fn reconstruct(
    due: Due,
    rows: &[[i32; 64]; 6],
    ends: [usize; 6],
    w: [[u8; 8]; 8],
    samples: &mut [i32],
    store: &mut [i32],
)
    requires { SixReady due.context w due.place store.old rows.now ends (length samples.old) }
    ensures samples { samples.new ≡ samples_after (samples_of_six due.context (values_in_turn due.context w (around_by due.place store.old) rows.now)) samples.old }
    ensures store { store.new ≡ stored_at store.old due.own (record_of due.context w (around_by due.place store.old) rows.now) }
{
    let ctx = due.context;
    let place = due.place;
    let mut own = [0i32; 91];
    let _ = neighbours::new_record(ctx.quantiser_scale, &mut own);
    // an index: the block's number is passed too
    for i in 0..6 {
        one_block(
            &*store, place, &rows[i], ends[i], ctx, w, i, &mut own, samples,
        );
    }
    let _ = neighbours::put_record(store, due.own, own);
}
