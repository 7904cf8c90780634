// DC parts and event lists out of bits (texture.rs; 7.4.1, Annex B). The steps of reading are those of
// `fields`, DC parts those of `dc_parts`, and what follows a code those of `events`.
//
// No public function has a `requires`. Data of more than 1,048,576 bytes or a start past the end of the
// data is refused by 11; what the bits hold is refused by 1 to 8 or 17. A refusal hands back no position and
// leaves lent places as they were.
#![tactic(auto)]

mod event;
mod list;

pub use dc_parts::{IntraDcDifferential, decode_intra_dc};
pub use event::{decode_ac_event, decode_ac_event_rvlc};
pub use events::{AcEvent, Spelling, Spellings};
pub use fields::TextureParseError;
pub use list::{decode_ac_events, decode_ac_events_rvlc};
