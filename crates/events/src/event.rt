// An event, what reading one answers, and how a row and its sign stand for one.
use crate::spelling::Spelling;
use bits::Cursor;
use fields::TextureParseError;

// Last, run and signed level, and how they were spelled.
#[derive(Clone, Copy)]
pub struct AcEvent {
    pub last: bool,
    pub run: u32,
    pub level: i32,
    pub spelling: Spelling,
}

// How a row and its sign stand for an event.
#[derive(Clone, Copy)]
pub enum RowForm {
    Plain,
    Type1,
    Type2,
    Reversible,
}
