//! The jobs of the program, and observers of their progress besides the streams.
#![tactic(auto)]

/// The jobs.
mod job;
/// Observers of a job.
mod observer;
/// Why a job is rejected: the refusals of runs, 1 to 13, and those of WAV files, 14 and 15.
mod wave_refusal;
/// What is done with the cells that a job reads.
mod work;

pub use job::Job;
pub use observer::{Nobody, Observer};
pub use wave_refusal::Refusal;
pub use work::{ReadWork, StreamWork};
