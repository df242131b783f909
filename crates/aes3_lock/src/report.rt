//! What a lock reports of a place at which a block may begin.

use aes3_frame::{Block, GatheredCells};
use aes3_level::Level;

/// Why a cell refutes a candidate.
#[derive(Clone, Copy, PartialEq, Eq, Debug)]
pub enum Why {
    /// It isn't the cell that the preamble of its subframe has there (AES3-3; IEC 60958-1).
    Preamble,
    /// A time slot doesn't begin with a change of level (AES3-3, IEC 60958-1: biphase-mark coding).
    Biphase,
    /// The cell after the last subframe of a block doesn't change the level.
    Unclosed,
}

/// The outcome of a candidate, which is a place where preamble Z occurs, counted in cells from the
/// first of all.
#[derive(Drop)]
pub enum Report {
    /// A whole block with right parity bits, and the level before its first cell.
    Whole {
        at: u64,
        before: Level,
        block: Block,
    },
    /// A whole block in which `wrong` subframes, 1 to 384, have a wrong parity bit, and the level
    /// before its first cell.
    Marked {
        at: u64,
        before: Level,
        wrong: u16,
    },
    /// `cell` is the first cell at which the cells from `at` on begin no block. It is counted from
    /// the first of all.
    Fault {
        at: u64,
        cell: u64,
        why: Why,
    },
    /// The cells end before the block does: the `cells` cells from `at` on, 8 to 24,575, begin a
    /// block.
    Unfinished {
        at: u64,
        cells: u64,
    },
}

/// The ending of a candidate by a cell, or by the end of the cells: its report without the block,
/// which is in the lock.
#[derive(Clone, Copy)]
pub enum Ending {
    /// A whole block with right parity bits, and the level before its first cell.
    Whole { at: u64, before: Level },
    /// A whole block in which `wrong` subframes have a wrong parity bit.
    Marked { at: u64, before: Level, wrong: u16 },
    /// `cell` is the first cell at which the cells from `at` on begin no block.
    Fault { at: u64, cell: u64, why: Why },
    /// The cells end before the block does: the `cells` cells from `at` on, 8 to 24,575, begin a
    /// block.
    Unfinished { at: u64, cells: u64 },
}

/// What a lock took of the front of a word.
#[derive(Clone, Copy)]
pub(crate) struct Pushed {
    /// How many cells it took.
    pub(crate) taken: u32,
    /// How the last of them ended a candidate, if it ended one.
    pub(crate) ending: Option<Ending>,
}

ghost use Rattle.std.specs.Prelude.{◌≡◌, None, Some};
ghost use Rattle.aes3_slot.specs.ReadWords.{read_words};
ghost use Rattle.aes3_lock.specs.Reports.{ending_report};

impl Pushed {
    /// `taken` cells that ended no candidate.
    pub(crate) fn quiet(taken: u32) -> Self
        ensures taken { result.taken ≡ taken }
        ensures ending { result.ending ≡ None }
    {
        Pushed {
            taken,
            ending: None,
        }
    }

    /// One cell, and how it ended a candidate.
    pub(crate) fn one(ending: Ending) -> Self
        ensures taken { result.taken ≡ 1 }
        ensures ending { result.ending ≡ Some ending }
    {
        Pushed {
            taken: 1,
            ending: Some(ending),
        }
    }
}

impl Default for Report {
    ghost use Rattle.std.specs.Prelude.{◌≡◌};
    ghost use Rattle.aes3_lock.specs.declared.report.Report.TheVariants.{Unfinished};

    ghost is_default = { λ report. report ≡ Unfinished 0 0 };

    fn default() -> Self {
        Report::Unfinished { at: 0, cells: 0 }
    }
}

/// The report of an ending, with the block whose subframes have these cells.
// Inlined, as `block` is, so that no caller has copies of a block on its stack.
#[inline(always)]
pub(crate) fn report_with(ending: Ending, words: &GatheredCells) -> Report
    ensures { result ≡ ending_report (read_words words.now) ending }
{
    match ending {
        Ending::Whole { at, before } => Report::Whole {
            at,
            before,
            block: words.block(),
        },
        Ending::Marked { at, before, wrong } => Report::Marked { at, before, wrong },
        Ending::Fault { at, cell, why } => Report::Fault { at, cell, why },
        Ending::Unfinished { at, cells } => Report::Unfinished { at, cells },
    }
}
