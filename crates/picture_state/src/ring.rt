// Where the records lie in the store: a ring of two rows of macroblocks.
ghost use Rattle.std.specs.Prelude.{◌≡◌, ◌+◌, ◌≤◌};
ghost use Rattle.picture_state.specs.Ring.{offset, place_of};
ghost use Rattle.picture_state.specs.Sizes.{slot_length, store_for};

use crate::picture::Picture;
use neighbours::Place;

// The record of the macroblock that came `back` before macroblock n.
pub(crate) fn offset_of(w: u32, n: u32, back: u32) -> u32
    requires { (1 ≤ w) × (w ≤ 45) × (n ≤ 1620) × (back ≤ w + 1) }
    ensures { (result ≡ offset w n back) × (result + slot_length ≤ store_for w) }
{
    (n + 2 * w - back) % (2 * w) * Picture::SLOT
}

// The neighbours of the macroblock that is due: missing only outside the picture.
pub(crate) fn place_of(p: Picture, quantiser_scale: u32) -> Place
    requires { (1 ≤ p.width) × (p.width ≤ 45) × (p.accepted ≤ 1620) }
    ensures { result ≡ place_of p quantiser_scale }
{
    let w = p.width;
    let n = p.accepted;
    let left = offset_of(w, n, 1);
    let above_left = offset_of(w, n, w + 1);
    let above = offset_of(w, n, w);
    let inside = 0 < n % w;
    let below = w <= n;
    Place {
        left,
        has_left: inside,
        above_left,
        has_above_left: inside && below,
        above,
        has_above: below,
        bits_per_pixel: p.bits_per_pixel,
        quantiser_scale,
    }
}
