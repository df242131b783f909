//! The cells of a whole capture.

ghost use Rattle.std.specs.Prelude.{◌≡◌, ◌+◌, ◌-◌, ◌/◌, ◌<◌, ◌≤◌, ℕ, List, length};
ghost use Rattle.aes3_capture.specs.Captures.{Captures, IsAbout, IsBetween, IsEnough, Spreads, SpreadsLate};
ghost use Rattle.aes3_capture.specs.Captures.{margin, tolerance, wander};
ghost use Rattle.aes3_capture.specs.Following.{Follows};

use crate::follower::{Bounds, Follower};

/// Counts the cells between the edges of a capture, from the numbers of samples between them.
///
/// They are the line's if each edge is near the mean of the edges of its direction before it. It is
/// near if it is displaced from the mean by less than half a cell, less a margin. This holds if no
/// edge is displaced against another by half a cell less that margin, whatever form the jitter has.
///
/// AES3 asks a receiver to tolerate jitter at high frequencies of a quarter of a unit interval,
/// peak to peak (AES3, tolerance of a receiver). It is tolerated from the numbers of samples in a
/// cell on that `IsEnough` has.
pub fn count_cells(bounds: Bounds, period: u64, runs: &[u32], cells: &mut [u64])
    requires longest { period ≤ bounds.high }
    requires shortest { bounds.low ≤ period }
    requires room { length runs.now ≡ length cells.old }
    ensures mean { (counts : List ℕ) (displaced : ℕ)
        → Captures bounds displaced displaced displaced counts runs.now → cells.new ≡ counts }
    ensures spread { (counts : List ℕ) (spread displaced : ℕ) → spread < bounds.low / 2 - margin bounds
        → Spreads bounds spread displaced counts runs.now → cells.new ≡ counts }
    ensures tolerance { (counts : List ℕ) (cell part displaced : ℕ) → IsAbout bounds cell part → IsEnough part cell
        → Spreads bounds (tolerance cell) displaced counts runs.now → cells.new ≡ counts }
{
    count_cells_behind(Follower::new(bounds, period), runs, cells)
}

/// Counts the cells between the edges of a capture, from an edge on. A follower knows the position
/// of that edge on the grids of both directions, as `Follower::at` begins.
///
/// They are the line's also if all edges of one direction are late by any constant. The two
/// directions must be apart by less than a cell, less a margin. This reduces in no way the jitter
/// that each direction may have.
pub fn count_cells_behind(follower: Follower, runs: &[u32], cells: &mut [u64])
    requires room { length runs.now ≡ length cells.old }
    ensures mean { (counts : List ℕ) (same other displaced : ℕ)
        → Follows follower same other displaced 0 0
        → Captures follower.bounds same other displaced counts runs.now → cells.new ≡ counts }
    ensures late { (counts : List ℕ) (spread late later same other displaced : ℕ)
        → spread < follower.bounds.low / 2 - margin follower.bounds
        → late + spread < later + (follower.bounds.low - wander follower.bounds)
        → later + spread < late + (follower.bounds.low - wander follower.bounds)
        → Follows follower same other displaced 0 0
        → IsBetween late same spread → IsBetween later other spread
        → SpreadsLate follower.bounds spread late later displaced counts runs.now
        → cells.new ≡ counts }
{
    let mut follower = follower;
    for i in 0..runs.len() {
        cells[i] = follower.run(runs[i]);
    }
}
