//! A place at which a block may begin, how such a place is found, and how the block there ends.

use crate::begun_subframe::PREAMBLE_CELLS;
use crate::report::{Ending, Why};
use aes3_frame::{BLOCK_CELLS, GatheredCells};
use aes3_level::Level;
use aes3_slot::{Mark, SUBFRAME_CELLS, match_mark};

/// A place where preamble Z occurs and the cells so far are those of a block.
#[derive(Clone, Copy)]
pub struct Candidate {
    /// The place of its first cell.
    pub at: u64,
    /// The level before that cell.
    pub before: Level,
    /// The level before the subframe of the next cell.
    pub level: Level,
}

ghost use Rattle.std.specs.Prelude.{◌≡◌, ◌+◌, ◌-◌, ◌<◌, ◌≤◌, ◌^◌};
ghost use Rattle.std.specs.Option.{ForSome};
ghost use Rattle.aes3_level.specs.Words.{low_cells};
ghost use Rattle.aes3_slot.specs.ReadWords.{read_words};
ghost use Rattle.aes3_slot.specs.Reading.{differs, same};
ghost use Rattle.aes3_lock.specs.declared.report.Ending.TheVariants.{Fault};
ghost use Rattle.aes3_lock.specs.Outcomes.{block_outcome, why_of};
ghost use Rattle.aes3_lock.specs.Reports.{ending_report, report_of};
ghost use Rattle.aes3_lock.specs.Steps.{begins_a_block, begun, ended, left};

impl Candidate {
    /// The candidate that begins with the last eight of all `seen` cells, if they are preamble Z.
    pub(crate) fn in_last_eight(seen: u64, recent: u8) -> Option<Candidate>
        ensures value { result ≡ begun seen (low_cells 8 recent) }
        ensures placed { ForSome result (λ t. t.at ≤ seen) }
    {
        if seen < PREAMBLE_CELLS {
            return None;
        }
        let Some((mark, before)) = match_mark(recent) else {
            return None;
        };
        if !is_z(mark) {
            return None;
        }
        Some(Candidate {
            at: seen - PREAMBLE_CELLS,
            before,
            level: before,
        })
    }

    /// Its ending by the cell at place `cell`, which refutes it.
    pub(crate) fn refuted_at(self, cell: u64) -> Ending
        requires { self.at ≤ cell }
        ensures { result ≡ Fault self.at cell (why_of (cell - self.at)) }
    {
        Ending::Fault {
            at: self.at,
            cell,
            why: reason(cell - self.at),
        }
    }

    /// How a cell at this offset ends it.
    pub(crate) fn ended_by(
        self,
        offset: u64,
        cell: Level,
        previous: Level,
        words: &GatheredCells,
    ) -> Ending
        requires { self.at + offset < 2 ^ 64 }
        ensures { ending_report (read_words words.now) result
            ≡ report_of self.at (ended self.before offset (same cell previous)
            (read_words words.now)) }
    {
        if offset >= BLOCK_CELLS && turns(previous, cell) {
            self.closed(words)
        } else {
            self.refuted_at(self.at + offset)
        }
    }

    /// How the end of the cells ends it, if only `cells` cells of it came.
    pub(crate) fn cut_after(self, cells: u64, words: &GatheredCells) -> Ending
        ensures { ending_report (read_words words.now) result
            ≡ report_of self.at (left self.before cells (read_words words.now)) }
    {
        if cells >= BLOCK_CELLS {
            self.closed(words)
        } else {
            Ending::Unfinished { at: self.at, cells }
        }
    }

    /// Its ending once it is closed and has all its subframes.
    fn closed(self, words: &GatheredCells) -> Ending
        ensures { ending_report (read_words words.now) result
            ≡ report_of self.at (block_outcome self.before (read_words words.now)) }
    {
        let wrong = words.wrong_parities();
        let Candidate { at, before, .. } = self;
        if wrong == 0 {
            Ending::Whole { at, before }
        } else {
            Ending::Marked { at, before, wrong }
        }
    }
}

/// Whether a preamble is that of a block's first subframe.
fn is_z(mark: Mark) -> bool
    ensures { result ≡ begins_a_block mark }
{
    match mark {
        Mark::Z => true,
        Mark::X | Mark::Y => false,
    }
}

/// Why the cell at `offset` refutes a candidate.
fn reason(offset: u64) -> Why
    ensures { result ≡ why_of offset }
{
    if offset == BLOCK_CELLS {
        Why::Unclosed
    } else if offset % SUBFRAME_CELLS < PREAMBLE_CELLS {
        Why::Preamble
    } else {
        Why::Biphase
    }
}

/// Whether the level changes between two cells.
fn turns(previous: Level, cell: Level) -> bool
    ensures { result ≡ differs previous cell }
{
    cell != previous
}
