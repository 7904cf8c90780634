// Why reading refuses.
ghost use Rattle.std.specs.Prelude.{◌≡◌};
ghost use Rattle.fields.specs.Inside.{refusal_of};
ghost use Rattle.fields.specs.Refusal.{figure_of, number_of};

use bits::BitReaderError;

#[derive(Clone, Copy)]
pub enum TextureParseError {
    // 1: no bits are left, or they ended inside a field
    Truncated,
    // 2: no code of a DC size begins the window
    InvalidDcSize { window: u32 },
    // 3: the marker of a DC part is 0
    MarkerBitMissing,
    // 4: no code of a coefficient begins the window
    InvalidTcoef { window: u32 },
    // 5: a marker of an escape is 0
    EscapeMarkerBitMissing,
    // 6: a type 3 level 0 or -2048, an RVLC magnitude 0
    ReservedEscapeLevel,
    // 7: the delimiter of an RVLC escape is not 0000
    RvlcEscapeDelimiterMissing { window: u32 },
    // 8: a landing of 64 or more (the Rust's InverseScanError)
    Overflow { position: u32 },
    // 11: data too long, or a start past its end
    OutOfRange,
    // 17: the bits ended inside a code
    EndedInsideCode,
    // 16: bits are left, but no code of mcbpc or cbpy begins them
    InvalidHeader,
}

impl TextureParseError {
    // Document 01's number.
    pub fn number(self) -> u32
        ensures { result ≡ number_of self }
    {
        match self {
            TextureParseError::Truncated => 1,
            TextureParseError::InvalidDcSize { window: _ } => 2,
            TextureParseError::MarkerBitMissing => 3,
            TextureParseError::InvalidTcoef { window: _ } => 4,
            TextureParseError::EscapeMarkerBitMissing => 5,
            TextureParseError::ReservedEscapeLevel => 6,
            TextureParseError::RvlcEscapeDelimiterMissing { window: _ } => 7,
            TextureParseError::Overflow { position: _ } => 8,
            TextureParseError::OutOfRange => 11,
            TextureParseError::EndedInsideCode => 17,
            TextureParseError::InvalidHeader => 16,
        }
    }

    // Its figure: a window or a landing; 0 where there is none.
    pub fn figure(self) -> u32
        ensures { result ≡ figure_of self }
    {
        match self {
            TextureParseError::Truncated => 0,
            TextureParseError::InvalidDcSize { window } => window,
            TextureParseError::MarkerBitMissing => 0,
            TextureParseError::InvalidTcoef { window } => window,
            TextureParseError::EscapeMarkerBitMissing => 0,
            TextureParseError::ReservedEscapeLevel => 0,
            TextureParseError::RvlcEscapeDelimiterMissing { window } => window,
            TextureParseError::Overflow { position } => position,
            TextureParseError::OutOfRange => 0,
            TextureParseError::EndedInsideCode => 0,
            TextureParseError::InvalidHeader => 0,
        }
    }
}

// A refusal of the bit layer.
impl From<BitReaderError> for TextureParseError {
    ghost from_gives = { λ e r. r ≡ refusal_of e };

    fn from(e: BitReaderError) -> TextureParseError {
        match e {
            BitReaderError::EndOfStream => TextureParseError::Truncated,
            BitReaderError::OutOfRange => TextureParseError::OutOfRange,
        }
    }
}
