//! A period of a line whose sums are written: what is counted in it.

ghost use Rattle.std.specs.Prelude.{◌≡◌, ◌+◌, ◌*◌, ◌-◌, ◌≤◌, ◌^◌, if◌then◌else◌};
ghost use Rattle.aes3_frame.specs.Blocks.{block_len};
ghost use Rattle.aes3_lock_gaps.specs.Gaps.{behind_full, full_count};
ghost use Rattle.aes3_watch.specs.Sums.{first_period, more, no_figures, with_fault, with_lost, with_marked};
ghost use Rattle.aes3_watch.specs.Sums.{with_whole};

use aes3_frame::BLOCK_CELLS;
use aes3_lock::Why;
use aes3_text_lines::{Figures, Sum};

/// Counts that are all zero.
fn no_figures() -> Figures
    ensures { result ≡ no_figures }
{
    Figures {
        whole: 0,
        marked: 0,
        fault: 0,
        preamble: 0,
        biphase: 0,
        unclosed: 0,
        lost: 0,
        invalid_first: 0,
        invalid_second: 0,
        changes: 0,
    }
}

/// The sum of two counts, which stops at the greatest number.
#[tactic(auto, unfolding(crate::specs::Sums::more))]
fn more(count: u64, new: u64) -> u64
    ensures { result ≡ more count new }
{
    count.saturating_add(new)
}

/// Counts cells of gaps.
fn with_lost(mut figures: Figures, cells: u64) -> Figures
    ensures { result ≡ with_lost figures cells }
{
    figures.lost = more(figures.lost, cells);
    figures
}

/// Counts a whole block, its validity bits of 1 in each channel and its events of a change.
fn with_whole(mut figures: Figures, first: u64, second: u64, changes: u64) -> Figures
    ensures { result ≡ with_whole figures first second changes }
{
    figures.whole = more(figures.whole, 1);
    figures.invalid_first = more(figures.invalid_first, first);
    figures.invalid_second = more(figures.invalid_second, second);
    figures.changes = more(figures.changes, changes);
    figures
}

/// Counts a block with a wrong parity bit in a subframe.
fn with_marked(mut figures: Figures) -> Figures
    ensures { result ≡ with_marked figures }
{
    figures.marked = more(figures.marked, 1);
    figures
}

/// Counts a fault.
fn with_fault(mut figures: Figures, why: Why) -> Figures
    ensures { result ≡ with_fault figures why }
{
    let (preamble, biphase, unclosed) = match why {
        Why::Preamble => (1, 0, 0),
        Why::Biphase => (0, 1, 0),
        Why::Unclosed => (0, 0, 1),
    };
    figures.fault = more(figures.fault, 1);
    figures.preamble = more(figures.preamble, preamble);
    figures.biphase = more(figures.biphase, biphase);
    figures.unclosed = more(figures.unclosed, unclosed);
    figures
}

/// The current period of a line after some cells.
#[derive(Clone, Copy)]
pub struct Period {
    /// Its first cell.
    pub from: u64,
    /// All cells before it are in a whole block or in a gap that is decided.
    pub place: u64,
    /// What is counted in the period.
    pub figures: Figures,
}

impl Period {
    /// The first period, before the first cell.
    pub fn new() -> Self
        ensures { result ≡ first_period }
    {
        Period {
            from: 0,
            place: 0,
            figures: no_figures(),
        }
    }

    /// Counts the gaps of a block's length before cell `to`. No whole block begins before it.
    pub fn count_gaps(&mut self, to: u64)
        ensures from { self.new.from ≡ self.old.from }
        ensures place { self.new.place ≡ behind_full self.old.place to }
        ensures figures { self.new.figures
            ≡ with_lost self.old.figures (block_len * full_count self.old.place to) }
    {
        let cells = to.saturating_sub(self.place) / BLOCK_CELLS * BLOCK_CELLS;
        self.figures = with_lost(self.figures, cells);
        self.place += cells;
    }

    /// The sum of the period, which ends before cell `to`.
    pub fn sum(&self, to: u64) -> Sum
        ensures from { result.from ≡ self.now.from }
        ensures to { result.to ≡ to }
        ensures figures { result.figures ≡ self.now.figures }
    {
        Sum {
            from: self.from,
            to,
            figures: self.figures,
        }
    }

    /// Begins the next period, at cell `from`.
    pub fn begin(&mut self, from: u64)
        ensures from { self.new.from ≡ from }
        ensures place { self.new.place ≡ self.old.place }
        ensures figures { self.new.figures ≡ no_figures }
    {
        self.from = from;
        self.figures = no_figures();
    }

    /// Counts a whole block at cell `at`, and a gap before it if `found` says that there was a whole
    /// block before. `first` and `second` are how many validity bits of its channels are 1, and
    /// `changes` of its events report a change.
    pub fn count_whole(&mut self, at: u64, found: bool, first: u64, second: u64, changes: u64)
        requires near { at ≤ 2 ^ 43 }
        ensures from { self.new.from ≡ self.old.from }
        ensures place { self.new.place ≡ at + block_len }
        ensures figures { self.new.figures ≡ with_whole
            (if found then with_lost self.old.figures (at - self.old.place) else self.old.figures)
            first second changes }
    {
        if found {
            let cells = at.saturating_sub(self.place);
            self.figures = with_lost(self.figures, cells);
        }
        self.figures = with_whole(self.figures, first, second, changes);
        self.place = at + BLOCK_CELLS;
    }

    /// Counts a block with a wrong parity bit in a subframe.
    pub fn count_marked(&mut self)
        ensures from { self.new.from ≡ self.old.from }
        ensures place { self.new.place ≡ self.old.place }
        ensures figures { self.new.figures ≡ with_marked self.old.figures }
    {
        self.figures = with_marked(self.figures);
    }

    /// Counts a fault.
    pub fn count_fault(&mut self, why: Why)
        ensures from { self.new.from ≡ self.old.from }
        ensures place { self.new.place ≡ self.old.place }
        ensures figures { self.new.figures ≡ with_fault self.old.figures why }
    {
        self.figures = with_fault(self.figures, why);
    }
}
