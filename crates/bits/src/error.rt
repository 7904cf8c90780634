// Why the bit layer refuses.
ghost use Rattle.std.specs.Prelude.{◌≡◌};
ghost use Rattle.bits.specs.Cursor.{number_of};

#[derive(Clone, Copy)]
pub enum BitReaderError {
    // 1: fewer bits are left than were asked for
    EndOfStream,
    // 11: data too long, a position past its end, or more than 32 bits asked for
    OutOfRange,
}

impl BitReaderError {
    // Document 01's number.
    pub fn number(self) -> u32
        ensures { result ≡ number_of self }
    {
        match self {
            BitReaderError::EndOfStream => 1,
            BitReaderError::OutOfRange => 11,
        }
    }
}
