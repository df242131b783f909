//! The numbers of a follower.

ghost use Rattle.std.specs.Prelude.{◌≡◌};

use crate::follower::{Bounds, Follower};

/// The numbers of a follower, for a caller that keeps it in a form of its own: [`Follower::parts`] gives them, and
/// [`Follower::of_parts`] makes the same follower of them.
#[repr(C)]
#[derive(Clone, Copy)]
pub struct FollowerParts {
    /// How long a cell may be.
    pub low: u64,
    pub high: u64,
    /// How long a cell is.
    pub period: u64,
    /// What passed since the latest edge, less the cells that were told.
    pub elapsed: u64,
    /// Where the latest edge lies on the grid of its direction, and on that of the other.
    pub same: u64,
    pub other: u64,
}

/// The shortest and the longest of the shortest cells that bounds have.
const LEAST: u64 = 131_072;

const MOST: u64 = 1 << 29;

impl Follower {
    ghost use Rattle.aes3_capture.specs.Parts.{parts_of};
    ghost use Rattle.aes3_capture.specs.declared.follower.Follower.{Follower};

    /// The follower of these numbers. If no follower has them, it has the nearest that one has.
    pub fn of_parts(parts: FollowerParts) -> Follower
        ensures { (follower : Follower) → parts_of follower ≡ parts → result ≡ follower }
    {
        let low = parts.low.clamp(LEAST, MOST);
        let high = parts.high.clamp(low, 2 * low);
        let period = parts.period.clamp(low, high);
        Follower {
            bounds: Bounds { low, high },
            period,
            elapsed: parts.elapsed.min(period - 1),
            same: parts.same.min(3 * low),
            other: parts.other.min(3 * low),
        }
    }

    /// Its numbers.
    pub fn parts(&self) -> FollowerParts
        ensures { result ≡ parts_of self.now }
    {
        FollowerParts {
            low: self.bounds.low,
            high: self.bounds.high,
            period: self.period,
            elapsed: self.elapsed,
            same: self.same,
            other: self.other,
        }
    }
}
