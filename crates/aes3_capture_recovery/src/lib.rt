//! Cells recovered from samples of a line: the samples' levels, the period measured, and the run
//! from samples to cells.
#![tactic(auto)]

/// The levels of a line among samples of several lines, and the edges among them.
mod edges;
/// What was found of a line.
mod figures;
/// A line followed from an edge on, from the levels of its samples to its cells.
mod line_follower;
/// The length of a cell and the position of a line's grid, measured from the samples between edges.
mod period;
/// A queue of cells for a sink.
mod queue;
/// Cells recovered from the levels of samples.
mod recovery;
/// The run from samples to cells.
mod recovery_run;

pub use edges::{Edges, Piece, Unit, levels_of};
pub use figures::Figures;
pub use line_follower::{LineFollower, LineParts};
pub use period::{LONGEST_PERIOD, SHORTEST_PERIOD, follower_of_runs};
pub use queue::{CellQueue, QueueParts, bits_of_cells, put_last};
pub use recovery::{Recovery, RecoveryParts};
pub use recovery_run::{Progress, Refusal, feed, recover};
