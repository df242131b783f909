//! The places of cells in a capture: which sample a cell of the recovered line begins at.
#![tactic(auto)]

/// The cell that a printed line of a report names.
mod cell_name;
/// Pairs of a cell and a sample at which the same stretch of the line ends.
mod marks;
/// A sink that counts octets.
mod octet_count;
/// A capture whose cells are recovered, to find where they are.
mod places;
/// The run from a report to the same report with the samples.
mod placing;

pub use places::Places;
pub use placing::{Capture, Outcome};
