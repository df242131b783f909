//! One page about a recording: its blocks, faults and gaps, its rate and length, and the status and
//! the level of each channel (AES3-1, AES3-2, AES3-3, IEC 60958-1, IEC 60958-3).
#![tactic(auto)]

/// The counts of a channel.
mod channel_facts;
/// Levels below full scale.
mod decibels;
/// All facts on the page.
mod facts;
/// The counts of the gaps between whole blocks.
mod gaps;
/// Counting cells as they come, and the page at their end.
mod inspector;
/// The page, field by field.
mod page;
/// The sampling frequency that a channel status names.
mod rate;
/// The counts of the reports on cells.
mod reports;
/// The magnitudes of a block's samples.
mod samples;
/// Counts that stop at the greatest number.
mod saturating;

pub use decibels::{FULL_POWER, full_energy, level_of};
pub use inspector::info;
pub use samples::{SampleFacts, square};
