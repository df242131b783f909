//! Why a header is rejected.

ghost use Rattle.std.specs.Prelude.{◌≡◌, ◌<◌, ◌+◌, ◌^◌};

/// What is wrong with a header.
#[derive(Clone, Copy, PartialEq, Eq)]
pub enum Cause {
    /// The file begins with none of `RIFF`, `RF64` and `BW64`.
    NotRiff,
    /// It is a RIFF file of another kind than `WAVE`.
    NotWave,
    /// The `ds64` chunk is too short for the length of `data`.
    ShortSizes,
    /// The `fmt ` chunk is too short.
    ShortFormat,
    /// The samples are not PCM: the number of their format, as 3 for floating point or 6 for A-law.
    NotPcm { format: u16 },
    /// The samples have no channels.
    NoChannels,
    /// A sample has another number of bits than 8, 16, 20, 24 or 32, or more bits than its octets
    /// hold.
    WrongBits { bits: u16 },
    /// A frame has another number of octets than the samples of its channels.
    WrongFrame { octets: u16 },
    /// The samples come before their format.
    NoFormat,
    /// The file ends before its samples.
    Ended,
}

/// Why a header is rejected, and where.
#[derive(Clone, Copy, PartialEq, Eq)]
pub struct HeaderError {
    pub cause: Cause,
    /// The first wrong octet of the file. At the end of the file it is how many octets the file
    /// has.
    pub at: u64,
}

impl HeaderError {
    /// The same error, with places counted from `at` on.
    pub(crate) fn behind(self, at: u64) -> Self
        requires { at + self.at < 2 ^ 64 }
        ensures cause { result.cause ≡ self.cause }
        ensures at { result.at ≡ at + self.at }
    {
        HeaderError {
            cause: self.cause,
            at: at + self.at,
        }
    }
}
