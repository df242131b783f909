//! The account of all cells of an input, and a watched line: where no whole block is, line by line
//! (AES3-3, IEC 60958-1).
#![tactic(auto)]

/// The account of all cells, line by line.
mod accounting;
/// The line of a gap.
mod gap_line;
/// What is accounted for among all cells.
mod ledger;
/// A period of a line whose sums are written: what is counted in it.
mod period;
/// What the whole blocks of a line say of their samples, and where that changes.
mod signals;
/// The state of a line whose sums are written.
mod summed;
/// A watched line, with a sum for each period of it.
mod summing;
/// A watched line: what changes, in a few lines.
mod watching;

pub use accounting::account;
pub use gap_line::line_of_gap;
pub use period::Period;
pub use signals::{ChannelSignals, EVENTS, Signals};
pub use summed::Summed;
pub use summing::{changes_in, watch_sums};
pub use watching::{Watched, watch};
