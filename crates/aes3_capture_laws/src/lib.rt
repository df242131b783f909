//! Laws of the runs of cells of a line (AES3-3, IEC 60958-1), and of its captures, for all blocks.
#![tactic(auto)]

ghost use Rattle.std.specs.Prelude.{ℕ, List, Bool, ◌≡◌, IsSomeAnd, take};
ghost use Rattle.aes3_capture.specs.declared.follower.Bounds.{Bounds};
ghost use Rattle.aes3_capture_recovery.specs.Finding.{CountsLine};
ghost use Rattle.aes3_capture_laws.specs.RunLaws.{AreOfBlocks, RunsAreOfSubframes};

use aes3_capture::Follower;
use aes3_capture_recovery::follower_of_runs;

/// Any 256 runs in a row of a line of whole blocks are runs of subframes. They have the form that
/// the measuring of a line needs. All preambles begin at run numbers that are all even or all odd;
/// at least one of any 64 runs begins one, and they are 32 to 60 runs apart. Among all runs, only
/// the first two of an X preamble have six cells together, and there are such two.
pub fn runs_are_of_subframes()
    ensures { RunsAreOfSubframes }
{}

/// The follower of the line of whole blocks in a capture, found in the first 256 runs of samples
/// from any of its edges on. All cells that it counts, to the end of the capture, are the line's.
pub fn follower_of_blocks(runs: &[u32]) -> Option<Follower>
    ensures { (narrow : Bounds) (spread late later displaced : ℕ) (bs : List (List (List Bool))) (line all : List ℕ)
        → AreOfBlocks narrow spread late later displaced bs line all → runs.now ≡ take 256 all
        → IsSomeAnd result (CountsLine line all) }
{
    follower_of_runs(runs, None)
}
