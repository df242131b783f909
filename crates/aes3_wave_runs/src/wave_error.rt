//! Why a run over a WAV file is rejected.

use aes3_cell::RunError;
use aes3_wave::HeaderError;

/// Why a run over a WAV file is rejected.
#[derive(Clone, Copy, PartialEq, Eq)]
pub enum WaveError {
    /// What is wrong with its header, and where.
    Header(HeaderError),
    /// It has fewer channels than the options ask for; `channels` is how many it has.
    NoChannel { channels: u16 },
    /// An error of a run over samples.
    Run(RunError),
}
