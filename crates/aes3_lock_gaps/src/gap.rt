//! A gap, and the place up to which gaps are due.

ghost use Rattle.std.specs.Prelude.{◌≡◌, ◌-◌, Some, None, false, List, Bool};
ghost use Rattle.aes3_frame.specs.Blocks.{block_len};
ghost use Rattle.aes3_lock_gaps.specs.Told.{due_before, report_with};

use aes3_frame::BLOCK_CELLS;
use aes3_lock::Ending;

/// A gap: cells in a row that lie in no whole block, 1 to 24,576.
#[derive(Clone, Copy)]
pub struct Gap {
    /// The place of its first cell.
    pub at: u64,
    pub cells: u64,
    /// Whether it counts as a fault; if not, the input is cut there.
    pub counts: bool,
}

/// The place up to which gaps are due.
#[derive(Clone, Copy)]
pub struct Due {
    /// The place after their last cell.
    pub to: u64,
    /// Whether a last gap of fewer cells than a block has counts; `None` if there is none yet.
    pub short: Option<bool>,
}

impl Due {
    /// The gaps before the report of an ending. Before a whole block they are all gaps up to it; a
    /// short one counts if a whole block was `found` before. Before any other report they are only
    /// gaps of a block's length.
    pub fn before_report(ending: Ending, found: bool) -> Self
        ensures { (block : List (List Bool)) → result ≡ due_before found (report_with block ending) }
    {
        match ending {
            Ending::Whole { at, .. } => Due {
                to: at,
                short: Some(found),
            },
            Ending::Marked { at, .. } => Due {
                to: at,
                short: None,
            },
            Ending::Fault { at, .. } => Due {
                to: at,
                short: None,
            },
            Ending::Unfinished { at, .. } => Due {
                to: at,
                short: None,
            },
        }
    }

    /// The gaps after `seen` cells if no report is left to give: those of a block's length with a
    /// block's length of cells after them.
    pub fn passed(seen: u64) -> Self
        ensures to { result.to ≡ seen - block_len }
        ensures short { result.short ≡ None }
    {
        Due {
            to: seen.saturating_sub(BLOCK_CELLS),
            short: None,
        }
    }

    /// The gaps at the end of `seen` cells if no report is left to give: all of them.
    pub fn end(seen: u64) -> Self
        ensures to { result.to ≡ seen }
        ensures short { result.short ≡ Some false }
    {
        Due {
            to: seen,
            short: Some(false),
        }
    }
}
