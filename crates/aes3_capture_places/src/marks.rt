//! Pairs of a cell and a sample at which the same stretch of the line ends.

ghost use Rattle.std.specs.Prelude.{◌≡◌, ◌+◌, ◌%◌, ◌<◌, ◌≤◌, ◌⊎◌, ℕ, List, IfNone, IfSome, None, get_or, set};
ghost use Rattle.aes3_capture_places.specs.Marks.{IsFirst, IsLast, IsPlaced, between, no_mark};
ghost use Rattle.aes3_capture_places.specs.declared.marks.Mark.{Mark};

/// How many marks are kept.
const KEPT: usize = 4096;

/// The first `cells` cells of a line are those of the first `samples` samples.
#[derive(Clone, Copy)]
pub(crate) struct Mark {
    pub cells: u64,
    pub samples: u64,
}

/// The latest marks of a line.
#[derive(Drop)]
pub(crate) struct Marks {
    kept: [Mark; KEPT],
    /// The one that is replaced next.
    next: usize,
    ghost within: { next < 4096 },
}

impl Marks {
    /// Marks of a line before its first cell and its first sample.
    pub(crate) fn new() -> Self
        ensures { (i : ℕ) → i < 4096 → get_or result.kept i no_mark ≡ no_mark }
    {
        Marks {
            kept: [Mark {
                cells: 0,
                samples: 0,
            }; KEPT],
            next: 0,
        }
    }

    /// Keeps a mark in place of the oldest.
    pub(crate) fn add(&mut self, mark: Mark)
        ensures kept { self.new.kept ≡ set self.old.kept self.old.next mark }
        ensures next { self.new.next ≡ (self.old.next + 1) % 4096 }
    {
        self.kept[self.next] = mark;
        self.next = (self.next + 1) % KEPT;
    }

    /// The sample of a cell, between the last mark before the cell and the first after it. `None` if
    /// one of them is not kept.
    pub(crate) fn sample_of(&self, cell: u64) -> Option<u64>
        ensures place { IfSome result (IsPlaced self.now.kept cell) }
        ensures none { IfNone result (IsLast self.now.kept 4096 cell None ⊎ IsFirst self.now.kept 4096 cell None) }
    {
        let before = self.last_before(cell)?;
        let after = self.first_after(cell)?;
        Some(sample_between(before, after, cell))
    }

    /// The last mark up to the cell.
    pub(crate) fn last_before(&self, cell: u64) -> Option<Mark>
        ensures { IsLast self.now.kept 4096 cell result }
    {
        let mut last: Option<Mark> = None;
        for i in 0..KEPT {
            last = later(last, self.kept[i], cell);
        }
        last
    }

    /// The first mark after the cell.
    fn first_after(&self, cell: u64) -> Option<Mark>
        ensures { IsFirst self.now.kept 4096 cell result }
    {
        let mut first: Option<Mark> = None;
        for i in 0..KEPT {
            first = earlier(first, self.kept[i], cell);
        }
        first
    }
}

/// Of two marks, the later that is not after the cell.
#[inline(always)]
fn later(last: Option<Mark>, mark: Mark, cell: u64) -> Option<Mark>
    ensures { (kept : List Mark) (count : ℕ) → get_or kept count no_mark ≡ mark → IsLast kept count cell last
        → IsLast kept (count + 1) cell result }
{
    match last {
        _ if mark.cells > cell => last,
        Some(other) if other.cells >= mark.cells => last,
        _ => Some(mark),
    }
}

/// Of two marks, the earlier that is after the cell.
#[inline(always)]
fn earlier(first: Option<Mark>, mark: Mark, cell: u64) -> Option<Mark>
    ensures { (kept : List Mark) (count : ℕ) → get_or kept count no_mark ≡ mark → IsFirst kept count cell first
        → IsFirst kept (count + 1) cell result }
{
    match first {
        _ if mark.cells <= cell => first,
        Some(other) if other.cells <= mark.cells => first,
        _ => Some(mark),
    }
}

/// The sample of a cell between two marks, where the cells between them are of one length.
fn sample_between(before: Mark, after: Mark, cell: u64) -> u64
    requires from { before.cells ≤ cell }
    requires to { cell < after.cells }
    ensures { result ≡ between before after cell }
{
    let samples = u128::from(after.samples.saturating_sub(before.samples));
    let cells = u128::from(cell - before.cells);
    let part = samples * cells / u128::from(after.cells - before.cells);
    before.samples + part as u64
}
