// The checks before any bit: 11, 12, 14, 15, 13, 9, 10.
ghost use Rattle.std.specs.Prelude.{◌≡◌, ◌≤◌, length};
ghost use Rattle.assembly.specs.Answer.{first_bad};
ghost use Rattle.picture_state.specs.Picture.{context_of};
ghost use Rattle.picture_state.specs.Ring.{around_due};
ghost use Rattle.picture_state.specs.Outcomes.{state_before_due, state_due, state_outcome};
ghost use Rattle.picture_state.specs.State.{checked_by, first_tests, neighbour_tests, state_before, state_by};

use crate::picture::{MacroblockContext, Picture};
use bits::Cursor;
use block::{BlockAssemblyError, MacroblockTextureContext};
use headers::MacroblockHeader;
use neighbours::Place;

// The macroblock that is due: its context, the records around it, and where its own is kept.
#[derive(Clone, Copy)]
pub struct Due {
    pub context: MacroblockTextureContext,
    pub place: Place,
    pub own: u32,
}

// 11, 12, 14, 15.
fn check_first(
    p: Picture,
    data: &[u8],
    c: Cursor,
    ctx: MacroblockTextureContext,
    w: [[u8; 8]; 8],
    room: usize,
    stored: usize,
) -> Result<(), BlockAssemblyError>
    ensures { result ≡ first_bad (first_tests p «data».now c.bit_pos ctx w room stored) }
{
    if !crate::picture::size_fine(p.width, p.height) || c.remaining_bits(data).is_err() {
        return Err(BlockAssemblyError::OutOfRange);
    }
    if !block::context_fine(ctx, w) {
        return Err(BlockAssemblyError::Context);
    }
    if room < samples::SAMPLES || stored < Picture::STORE * (p.width as usize) {
        return Err(BlockAssemblyError::TooShort);
    }
    if p.width * p.height <= p.accepted {
        return Err(BlockAssemblyError::Complete);
    }
    Ok(())
}

// 13, of a picture that can be: then the macroblock is due.
fn check_neighbours(
    p: Picture,
    ctx: MacroblockTextureContext,
    store: &[i32],
) -> Result<Due, BlockAssemblyError>
    requires { (1 ≤ p.width) × (p.width ≤ 45) × (p.accepted ≤ 1620) }
    ensures { result ≡ checked_by p ctx (first_bad (neighbour_tests p ctx (around_due p ctx.quantiser_scale store.now))) }
{
    let place = crate::ring::place_of(p, ctx.quantiser_scale);
    if !needed::stored_fine(store, place) {
        return Err(BlockAssemblyError::Predictor);
    }
    let own = crate::ring::offset_of(p.width, p.accepted, 0);
    Ok(Due {
        context: ctx,
        place,
        own,
    })
}

// Those that ask no header: 11, 12, 14, 15, 13, for `room` lent samples.
pub fn check_before_header(
    p: Picture,
    data: &[u8],
    c: Cursor,
    m: MacroblockContext,
    w: [[u8; 8]; 8],
    room: usize,
    store: &[i32],
) -> Result<Due, BlockAssemblyError>
    ensures value { result ≡ checked_by p (context_of p m) (state_before p «data».now c.bit_pos (context_of p m) w room (length store.now) (around_due p m.quantiser_scale store.now)) }
    ensures outcome { state_outcome result ≡ state_before_due p «data».now c.bit_pos m w room store.now }
{
    let ctx = crate::picture::texture_context(p, m);
    check_first(p, data, c, ctx, w, room, store.len())?;
    check_neighbours(p, ctx, store)
}

// All of them: the header's 9 and 10 come last.
pub fn check_state(
    p: Picture,
    data: &[u8],
    c: Cursor,
    header: MacroblockHeader,
    m: MacroblockContext,
    w: [[u8; 8]; 8],
    room: usize,
    store: &[i32],
) -> Result<Due, BlockAssemblyError>
    ensures value { result ≡ checked_by p (context_of p m) (state_by p «data».now c.bit_pos header (context_of p m) w room (length store.now) (around_due p m.quantiser_scale store.now)) }
    ensures outcome { state_outcome result ≡ state_due p «data».now c.bit_pos header m w room store.now }
{
    let due = check_before_header(p, data, c, m, w, room, store)?;
    headers::check_header(header)?;
    Ok(due)
}
