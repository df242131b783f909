//! Why a run or a command line is rejected, and the number of each refusal, 1 to 13.

ghost use Rattle.std.specs.Prelude.{◌≡◌};
ghost use Rattle.aes3_refusals.specs.Refusals.{number_of, place_of};

use std::fmt::{self, Debug, Display, Formatter, Write};
use thiserror::Error;

/// The thirteen errors of a run or a command line.
#[derive(Clone, Copy, PartialEq, Eq, Error)]
pub enum RunError {
    #[error("byte {at} is neither cell nor separator")]
    BadCell { at: u64 },
    #[error("the input ends {left} bytes into a block or a frame")]
    BadLength { left: u64 },
    #[error("bits 0 to 3 of word {at} are not zero")]
    BadCode { at: u64 },
    #[error("the parity bit of word {at} is wrong")]
    BadParity { at: u64 },
    #[error("the input can't be read")]
    Read,
    #[error("the output can't be written")]
    Write,
    #[error("the input is too long")]
    TooLong,
    #[error("there is not enough memory")]
    Memory,
    #[error("a status is not 48 hexadecimal digits")]
    BadStatusText,
    #[error("the packed cells end wrongly at octet {at}")]
    BadPadding { at: u64 },
    #[error("the sample word that begins at byte {at} has bits below the highest 24")]
    BadSample { at: u64 },
    #[error("the samples begin with the header of a sound file")]
    SoundHeader,
    #[error("the block that begins at cell {at} can't be given exactly as it is asked for")]
    Inexact { at: u64 },
}

/// Its message.
impl Debug for RunError {
    fn fmt<W: Write>(&self, f: &mut Formatter<W>) -> fmt::Result {
        Display::fmt(self, f)
    }
}

impl RunError {
    /// The number of the error, 1 to 13, as the program prints it.
    pub fn number(&self) -> u8
        ensures { result ≡ number_of self.now }
    {
        match self {
            RunError::BadCell { .. } => 1,
            RunError::BadLength { .. } => 2,
            RunError::BadCode { .. } => 3,
            RunError::BadParity { .. } => 4,
            RunError::Read => 5,
            RunError::Write => 6,
            RunError::TooLong => 7,
            RunError::Memory => 8,
            RunError::BadStatusText => 9,
            RunError::BadPadding { .. } => 10,
            RunError::BadSample { .. } => 11,
            RunError::SoundHeader => 12,
            RunError::Inexact { .. } => 13,
        }
    }

    /// The place of the fault, in bytes, words, octets or cells from 0. For `BadLength` it is how
    /// many bytes are left over.
    pub fn place(&self) -> Option<u64>
        ensures { result ≡ place_of self.now }
    {
        match *self {
            RunError::BadCell { at }
            | RunError::BadCode { at }
            | RunError::BadParity { at }
            | RunError::BadPadding { at }
            | RunError::BadSample { at }
            | RunError::Inexact { at } => Some(at),
            RunError::BadLength { left } => Some(left),
            RunError::SoundHeader => Some(0),
            _ => None,
        }
    }
}
