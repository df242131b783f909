//! Sound files: from WAV files to block files, and from cells to WAV files.
#![tactic(auto)]

/// The samples of frames.
mod frames;
/// The header of a WAV file, and the samples after it.
mod headed;
/// Reading the header of a WAV file from a source.
mod header;
/// The laws of sound files.
pub mod laws;
/// The options of the runs, and their results.
mod options;
/// The channel status for a format of samples.
mod status_use;
/// Why a run over a WAV file is rejected.
mod wave_error;
/// The octets after the header as an input.
mod wave_input;
/// From a WAV file to a block file.
mod wave_reading;
/// What an input of frames keeps.
mod wave_state;
/// From cells to a WAV file.
mod wave_writing;

pub use header::read_header;
pub use options::{Converted, ExactWave, FilledWave, WaveOptions, WaveWritten};
pub use status_use::{MissingCodes, StatusUse, missing_codes, rate_of_status, status_of};
pub use wave_error::WaveError;
pub use wave_reading::from_wav;
pub use wave_writing::{to_exact_wav, to_filled_wav, to_valid_wav, to_wav};
