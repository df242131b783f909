//! A command line run for a person at a terminal: its progress, and a sentence about what was
//! wrong.
#![tactic(auto)]

/// A line, and the explanation after it.
mod explained;
/// The form of a recording by its first octets.
mod recognised;

pub use explained::{report_unread, run_and_explain};
pub use recognised::recognise;
