// Why a record or a neighbour is refused.
ghost use Rattle.std.specs.Prelude.{◌≡◌};
ghost use Rattle.record.specs.Refusals.{number_of};

#[derive(Clone, Copy)]
pub enum RecordError {
    // 11: a block above 5
    OutOfRange,
    // 12: a quantiser or a depth that is none
    Context,
    // 14: a record that does not lie in the store
    TooShort,
}

impl RecordError {
    // Document 01's number.
    pub fn number(self) -> u32
        ensures { result ≡ number_of self }
    {
        match self {
            RecordError::OutOfRange => 11,
            RecordError::Context => 12,
            RecordError::TooShort => 14,
        }
    }
}
