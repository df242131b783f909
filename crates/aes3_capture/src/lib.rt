//! From samples of a line to its cells: a follower of edges that tolerates jitter, within bounds
//! that are proved.
#![tactic(auto)]

/// The cells of a whole capture.
mod count;
/// A follower of edges, and the possible length of a cell.
mod follower;

pub use count::{count_cells, count_cells_behind};
pub use follower::{Bounds, Follower, FollowerParts, PARTS, TRACKED};
