// How an event is spelled (7.4.1.3), and how many events of a list are spelled in each way.
ghost use Rattle.std.specs.Prelude.{◌≡◌};
ghost use Rattle.events.specs.Spellings.{no_spellings};

// A code and its sign, or an escape. A reversible code that is no escape is plain.
#[derive(Clone, Copy)]
pub enum Spelling {
    Plain,
    Type1,
    Type2,
    Type3,
    RvlcEscape,
}

// The number of events of each spelling.
#[derive(Clone, Copy)]
pub struct Spellings {
    pub plain: u32,
    pub type1: u32,
    pub type2: u32,
    pub type3: u32,
    pub rvlc_escape: u32,
}

impl Spellings {
    // Of no event.
    pub fn none() -> Spellings
        ensures { result ≡ no_spellings }
    {
        Spellings {
            plain: 0,
            type1: 0,
            type2: 0,
            type3: 0,
            rvlc_escape: 0,
        }
    }
}
