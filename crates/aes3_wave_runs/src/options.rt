//! The options of a run over a WAV file, and its results.

use crate::status_use::StatusUse;
use aes3_cell::Counts;
use aes3_engine::{Exact, Filled};
use aes3_forms_words::Words;
use aes3_status::Change;
use aes3_wave::{Channels, Mono, WaveHeader};

/// The options of `from_wav`.
#[derive(Clone, Copy)]
pub struct WaveOptions {
    /// The two channels that are taken. `None` takes the first two, or a single channel as `mono`
    /// says.
    pub channels: Option<Channels>,
    /// Which channels a single channel of a file is for, if none are chosen.
    pub mono: Mono,
    /// Whether samples of more than 24 bits are errors.
    pub exact: bool,
    /// The use of the channel status that is made for the header.
    pub status_use: StatusUse,
    /// The change of blocks with that status. A status that is given here replaces it, and settings
    /// are set after it.
    pub change: Change,
    /// The form of the words that are written.
    pub words: Words,
}

/// The result of `from_wav`.
#[derive(Clone, Copy)]
pub struct Converted {
    /// The header of the file.
    pub header: WaveHeader,
    /// How many octets the file has, and how many blocks are written.
    pub counts: Counts,
}

/// The result of `to_wav`.
#[derive(Clone, Copy)]
pub struct WaveWritten {
    /// The counts of any run over cells.
    pub counts: Counts,
    /// The sampling frequency that the first block names, in hertz; `None` if it names no
    /// frequency, or there was no block.
    pub named: Option<u32>,
}

/// The result of `to_exact_wav`.
#[derive(Clone, Copy)]
pub struct ExactWave {
    /// The result of `to_exact_pcm`.
    pub exact: Exact,
    /// The sampling frequency that the first block names, as in [`WaveWritten`].
    pub named: Option<u32>,
}

/// The result of `to_filled_wav`.
#[derive(Clone, Copy)]
pub struct FilledWave {
    /// The result of `to_filled_pcm`.
    pub filled: Filled,
    /// The sampling frequency that the first block names, as in [`WaveWritten`]. A marked block
    /// names no frequency.
    pub named: Option<u32>,
}
