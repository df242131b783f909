//! Refusals: why a run or a command line is rejected, and the number of each, 1 to 13. Those of WAV
//! files, 14 and 15, are in `aes3_cli_jobs`.
#![tactic(auto)]

/// The errors of a run or a command line, with their numbers and places.
mod run_error;

pub use run_error::RunError;
