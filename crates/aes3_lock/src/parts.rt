//! What a lock keeps.

use crate::candidate::Candidate;
use aes3_frame::SUBFRAMES;

/// All that a lock keeps, for a caller that stores it in a form of its own. `Lock::parts` gives it,
/// and `Lock::of_parts` makes the same lock from it.
#[derive(Drop)]
pub struct LockParts<'a> {
    /// How many cells it has seen.
    pub seen: u64,
    /// The last eight of them, the earliest in bit 0.
    pub recent: u8,
    /// The current candidate.
    pub candidate: Option<Candidate>,
    /// The cells of its last, incomplete subframe, the earliest in bit 0.
    pub subframe: u64,
    /// The cells of its whole subframes, as they came, the earliest in bit 0.
    pub words: &'a [u64; SUBFRAMES],
}
