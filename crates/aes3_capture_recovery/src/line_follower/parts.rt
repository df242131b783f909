//! The numbers of a line that is followed.

ghost use Rattle.std.specs.Prelude.{◌≡◌};
ghost use Rattle.aes3_capture_recovery.specs.Flags.{flag, is_set};

use crate::edges::Edges;
use crate::line_follower::LineFollower;
use crate::queue::{CellQueue, QueueParts};
use aes3_capture::{Follower, FollowerParts};

/// The numbers of a line that is followed, for one that keeps it in a form of its own: `LineFollower::parts` gives them,
/// and `LineFollower::of_parts` makes the same of them.
#[repr(C)]
#[derive(Clone, Copy)]
pub struct LineParts {
    pub follower: FollowerParts,
    pub queue: QueueParts,
    /// How many cells were given.
    pub cells: u64,
    /// How many samples wait to be told, and not 0 if their level is high.
    pub run: u32,
    pub high: u8,
}

/// Whether a flag is set.
pub(crate) fn is_set(octet: u8) -> bool
    ensures { result ≡ is_set octet }
{
    octet != 0
}

/// A flag.
pub(crate) fn flag(set: bool) -> u8
    ensures { result ≡ flag set }
{
    if set { 1 } else { 0 }
}

impl LineFollower {
    ghost use Rattle.aes3_capture_recovery.specs.Parts.{line_parts};
    ghost use Rattle.aes3_capture_recovery.specs.declared.line_follower.LineFollower.{LineFollower};

    /// The line of these numbers.
    pub(crate) fn of_parts(parts: &LineParts) -> LineFollower
        ensures { (line : LineFollower) → line_parts line ≡ parts.now → result ≡ line }
    {
        LineFollower {
            edges: Edges::standing(is_set(parts.high), parts.run),
            follower: Follower::of_parts(parts.follower),
            queue: CellQueue::of_parts(&parts.queue),
            cells: parts.cells,
        }
    }

    /// Its numbers.
    pub(crate) fn parts(&self) -> LineParts
        ensures { result ≡ line_parts self.now }
    {
        LineParts {
            follower: self.follower.parts(),
            queue: self.queue.parts(),
            cells: self.cells,
            run: self.edges.waiting(),
            high: flag(self.edges.is_high()),
        }
    }
}
