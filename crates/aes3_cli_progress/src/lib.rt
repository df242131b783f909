//! The progress of reading a long file, on a terminal, and erasing that line.
#![tactic(auto)]

/// A sink that clears the line of progress before it writes.
mod clearing;
/// How far a file has been read.
mod progress;
/// Bytes of a file that count.
mod unit;

pub use clearing::Clearing;
pub use progress::{Course, Progress};
pub use unit::Unit;
