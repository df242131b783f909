//! A line followed from an edge on, from the levels of its samples to its cells.

/// The numbers of a line that is followed.
mod parts;

ghost use Rattle.std.specs.Prelude.{ℕ, ◌≡◌, ◌<◌, ◌≤◌, ◌+◌, ◌-◌, ◌/◌, ◌^◌, ◌++◌, [], List, Some, get_or, length, replicate};
ghost use Rattle.std.specs.Prelude.{IfOk, OnErr, IfSome, IfNone};
ghost use Rattle.aes3_level.specs.declared.level.Level.{Level};
ghost use Rattle.aes3_level.specs.Cells.{line, other};
ghost use Rattle.aes3_level.specs.Words.{low_cells};
ghost use Rattle.aes3_capture.specs.declared.follower.Follower.{Follower};
ghost use Rattle.aes3_capture.specs.Captures.{Captures, IsBetween, SpreadsLate, margin, wander};
ghost use Rattle.aes3_capture.specs.Following.{Follows};
ghost use Rattle.aes3_capture_recovery.specs.Endings.{level_if};
ghost use Rattle.aes3_capture_recovery.specs.Runs.{AreCaptured, levels_in};

use crate::edges::{Edges, Piece};
use crate::queue::{CellQueue, bits_of_runs};
use aes3_capture::{Follower, PARTS};
use aes3_cell::{Fault, Form, Sink};
pub use parts::LineParts;
pub(crate) use parts::{flag, is_set};

/// After so many cells without an edge, those that are certain are told.
const LONG: u64 = 64;

/// The cells of this many runs are given at once.
const TOGETHER: usize = 16;

/// Follows a line from an edge on, and gives its cells.
#[derive(Drop)]
pub struct LineFollower {
    edges: Edges,
    follower: Follower,
    queue: CellQueue,
    /// How many cells were given.
    cells: u64,
}

impl LineFollower {
    ghost use Rattle.aes3_capture_recovery.specs.LineFollowing.{Followed, Gives, RunTold, SomeTold};
    ghost use Rattle.aes3_capture_recovery.specs.Queues.{Finishes, Puts, Queued, waiting};
    ghost use Rattle.aes3_capture_recovery.specs.Runs.{EdgeCame, NoEdgeCame};

    /// A line with these edges, the latest of which is the one that the follower begins at.
    pub fn new(form: Form, follower: Follower, edges: Edges) -> Self
        ensures follower { result.follower ≡ follower }
        ensures form { result.queue.form ≡ form }
        ensures edges { result.edges ≡ edges }
        ensures none { waiting result.queue ≡ [] }
        ensures begins { (begun : List ℕ) → edges.run < 2 ^ 31
            → Followed (Some begun) begun [] result follower (other (level_if edges.high))
            (replicate edges.run (level_if edges.high)) [] }
    {
        LineFollower {
            edges,
            follower,
            queue: CellQueue::new(form),
            cells: 0,
        }
    }

    /// Takes the samples of a piece.
    ///
    /// # Errors
    /// The sink's fault.
    pub fn take<T: Sink>(&mut self, sink: &mut T, piece: Piece) -> Result<(), Fault>
        requires room { T.failed sink.old + 1 < 2 ^ 64 }
        ensures no_failure { IfOk result (λ _. T.failed sink.new ≡ T.failed sink.old) }
        ensures one_failure { OnErr result (T.failed sink.new ≡ T.failed sink.old + 1) }
        ensures followed { (begun : List ℕ) (front : List Level) (first : Follower) (before : Level)
            (levels : List Level)
            → Followed (T.taken sink.old) begun front self.old first before levels []
            → IfOk result (λ _. Followed (T.taken sink.new) begun front self.new first before
            (levels ++ levels_in piece) []) }
        ensures mean { (begun : List ℕ) (front : List Level) (first : Follower) (before : Level)
            (levels : List Level) (same other_mean displaced : ℕ) (cells : List Level)
            → Followed (T.taken sink.old) begun front self.old first before levels []
            → Follows first same other_mean displaced 0 0
            → AreCaptured (Captures first.bounds same other_mean displaced) before cells
            (levels ++ levels_in piece)
            → IfOk result (λ _. Gives (T.taken sink.new) begun front self.new cells) }
        ensures late { (begun : List ℕ) (front : List Level) (first : Follower) (before : Level)
            (levels : List Level) (same other_mean displaced spread late later : ℕ) (cells : List Level)
            → Followed (T.taken sink.old) begun front self.old first before levels []
            → Follows first same other_mean displaced 0 0
            → spread < first.bounds.low / 2 - margin first.bounds
            → late + spread < later + (first.bounds.low - wander first.bounds)
            → later + spread < late + (first.bounds.low - wander first.bounds)
            → IsBetween late same spread → IsBetween later other_mean spread
            → AreCaptured (SpreadsLate first.bounds spread late later displaced) before cells
            (levels ++ levels_in piece)
            → IfOk result (λ _. Gives (T.taken sink.new) begun front self.new cells) }
    {
        let mut left = piece;
        while let Some(run) = self.next_edge(&mut left) {
            let high = !self.is_high();
            self.tell(sink, high, run)?;
        }
        self.rest(sink)
    }

    /// Begins at a sample of this level, as if no sample had come before it.
    pub(crate) fn start(&mut self, high: bool)
        ensures high { self.new.edges.high ≡ high }
        ensures none { self.new.edges.run ≡ 0 }
        ensures follower { self.new.follower ≡ self.old.follower }
        ensures queue { self.new.queue ≡ self.old.queue }
    {
        self.edges = Edges::new(high);
    }

    /// Continues at this level, with this many samples since the latest edge that are still
    /// waiting.
    pub(crate) fn stand(&mut self, high: bool, waiting: u32)
        ensures high { self.new.edges.high ≡ high }
        ensures run { self.new.edges.run ≡ waiting }
        ensures follower { self.new.follower ≡ self.old.follower }
        ensures queue { self.new.queue ≡ self.old.queue }
    {
        self.edges = Edges::standing(high, waiting);
    }

    /// Advances to the next edge of a piece, as `Edges::next_edge`.
    #[inline(always)]
    pub(crate) fn next_edge(&mut self, piece: &mut Piece) -> Option<u32>
        ensures edge { IfSome result (λ run.
            EdgeCame self.old.edges piece.old run self.new.edges piece.new) }
        ensures rest { IfNone result (NoEdgeCame self.old.edges piece.old self.new.edges) }
        ensures follower { self.new.follower ≡ self.old.follower }
        ensures queue { self.new.queue ≡ self.old.queue }
    {
        self.edges.next_edge(piece)
    }

    /// Whether the line is high.
    #[inline(always)]
    pub(crate) fn is_high(&self) -> bool
        ensures { result ≡ self.now.edges.high }
    {
        self.edges.is_high()
    }

    /// How many samples since the latest edge are still waiting.
    #[inline(always)]
    pub(crate) fn waiting(&self) -> u32
        ensures { result ≡ self.now.edges.run }
    {
        self.edges.waiting()
    }

    /// Takes the waiting samples, and gives no cells for them.
    pub(crate) fn take_waiting(&mut self) -> u32
        ensures all { result ≡ self.old.edges.run }
        ensures none { self.new.edges.run ≡ 0 }
        ensures level { self.new.edges.high ≡ self.old.edges.high }
        ensures follower { self.new.follower ≡ self.old.follower }
        ensures queue { self.new.queue ≡ self.old.queue }
    {
        self.edges.take_waiting()
    }

    /// The follower at the latest edge whose run was given.
    #[inline(always)]
    pub(crate) fn follower(&self) -> Follower
        ensures { result ≡ self.now.follower }
    {
        self.follower
    }

    /// How many cells were given.
    pub(crate) fn cells(&self) -> u64
        ensures { result ≡ self.now.cells }
    {
        self.cells
    }

    /// How many of the cells that were given wait to be written.
    pub(crate) fn cells_waiting(&self) -> u32
        ensures { result ≡ length (waiting self.now.queue) }
    {
        self.queue.cells_waiting()
    }

    /// Continues with another follower.
    pub(crate) fn follow(&mut self, follower: Follower)
        ensures follower { self.new.follower ≡ follower }
        ensures edges { self.new.edges ≡ self.old.edges }
        ensures queue { self.new.queue ≡ self.old.queue }
    {
        self.follower = follower;
    }

    /// Gives the cells of a run that an edge ended.
    ///
    /// # Errors
    /// The sink's fault.
    #[inline(always)]
    pub(crate) fn tell<T: Sink>(&mut self, sink: &mut T, high: bool, run: u32) -> Result<(), Fault>
        requires room { T.failed sink.old + 1 < 2 ^ 64 }
        ensures no_failure { IfOk result (λ _. T.failed sink.new ≡ T.failed sink.old) }
        ensures one_failure { OnErr result (T.failed sink.new ≡ T.failed sink.old + 1) }
        ensures told { RunTold T.taken self.old self.new sink.old sink.new result run
            (level_if high) }
    {
        let cells = self.follower.run(run);
        self.put(sink, high, cells)
    }

    /// Gives the certain cells of the waiting samples, if there are many.
    #[inline(always)]
    fn rest<T: Sink>(&mut self, sink: &mut T) -> Result<(), Fault>
        requires room { T.failed sink.old + 1 < 2 ^ 64 }
        ensures no_failure { IfOk result (λ _. T.failed sink.new ≡ T.failed sink.old) }
        ensures one_failure { OnErr result (T.failed sink.new ≡ T.failed sink.old + 1) }
        ensures told { SomeTold T.taken self.old self.new sink.old sink.new result }
    {
        if u64::from(self.waiting()) * PARTS / LONG < self.follower.period() {
            return Ok(());
        }
        self.pass(sink)
    }

    /// Gives the certain cells of the waiting samples.
    ///
    /// # Errors
    /// The sink's fault.
    pub(crate) fn pass<T: Sink>(&mut self, sink: &mut T) -> Result<(), Fault>
        requires room { T.failed sink.old + 1 < 2 ^ 64 }
        ensures no_failure { IfOk result (λ _. T.failed sink.new ≡ T.failed sink.old) }
        ensures one_failure { OnErr result (T.failed sink.new ≡ T.failed sink.old + 1) }
        ensures told { SomeTold T.taken self.old self.new sink.old sink.new result }
        ensures all { self.new.edges.run ≡ 0 }
    {
        let samples = self.edges.take_waiting();
        let cells = self.follower.pass(samples);
        let high = self.edges.is_high();
        self.put(sink, high, cells)
    }

    /// Gives this many cells of one level.
    ///
    /// # Errors
    /// The sink's fault.
    #[inline(always)]
    pub(crate) fn put<T: Sink>(&mut self, sink: &mut T, high: bool, cells: u64) -> Result<(), Fault>
        requires room { T.failed sink.old + 1 < 2 ^ 64 }
        ensures no_failure { IfOk result (λ _. T.failed sink.new ≡ T.failed sink.old) }
        ensures one_failure { OnErr result (T.failed sink.new ≡ T.failed sink.old + 1) }
        ensures cells { Puts T.taken self.old.queue self.new.queue sink.old sink.new result
            (replicate cells (level_if high)) }
        ensures edges { self.new.edges ≡ self.old.edges }
        ensures follower { self.new.follower ≡ self.old.follower }
    {
        self.cells = self.cells.saturating_add(cells);
        self.queue.put(sink, high, cells)
    }

    /// Gives the cells of some runs, the first of this level, each of at most three cells.
    ///
    /// # Errors
    /// The sink's fault.
    pub(crate) fn put_runs<T: Sink>(
        &mut self,
        sink: &mut T,
        high: bool,
        runs: &[u32],
    ) -> Result<(), Fault>
        requires short { (i : ℕ) → i < length runs.now → get_or runs.now i 0 ≤ 3 }
        requires room { T.failed sink.old + 1 < 2 ^ 64 }
        ensures no_failure { IfOk result (λ _. T.failed sink.new ≡ T.failed sink.old) }
        ensures one_failure { OnErr result (T.failed sink.new ≡ T.failed sink.old + 1) }
        ensures cells { (before : Level) → level_if high ≡ other before
            → Puts T.taken self.old.queue self.new.queue sink.old sink.new result (line before runs.now) }
        ensures edges { self.new.edges ≡ self.old.edges }
        ensures follower { self.new.follower ≡ self.old.follower }
    {
        let mut at = 0;
        while at + TOGETHER <= runs.len() {
            self.put_some(sink, high, &runs[at..at + TOGETHER])?;
            at += TOGETHER;
        }
        self.put_some(sink, high, &runs[at..])
    }

    /// Gives the cells of at most sixteen runs.
    ///
    /// # Errors
    /// The sink's fault.
    #[inline(always)]
    fn put_some<T: Sink>(&mut self, sink: &mut T, high: bool, runs: &[u32]) -> Result<(), Fault>
        requires few { length runs.now ≤ 16 }
        requires short { (i : ℕ) → i < length runs.now → get_or runs.now i 0 ≤ 3 }
        requires room { T.failed sink.old + 1 < 2 ^ 64 }
        ensures no_failure { IfOk result (λ _. T.failed sink.new ≡ T.failed sink.old) }
        ensures one_failure { OnErr result (T.failed sink.new ≡ T.failed sink.old + 1) }
        ensures cells { (before : Level) → level_if high ≡ other before
            → Puts T.taken self.old.queue self.new.queue sink.old sink.new result (line before runs.now) }
        ensures edges { self.new.edges ≡ self.old.edges }
        ensures follower { self.new.follower ≡ self.old.follower }
    {
        let (bits, len) = bits_of_runs(high, runs);
        self.cells = self.cells.saturating_add(u64::from(len));
        self.queue.put_bits(sink, bits, len)
    }

    /// Passes on the words of cells that are whole.
    ///
    /// # Errors
    /// The sink's fault.
    pub fn pass_on<T: Sink>(&mut self, sink: &mut T) -> Result<(), Fault>
        requires room { T.failed sink.old + 1 < 2 ^ 64 }
        ensures no_failure { IfOk result (λ _. T.failed sink.new ≡ T.failed sink.old) }
        ensures one_failure { OnErr result (T.failed sink.new ≡ T.failed sink.old + 1) }
        ensures cells { Puts T.taken self.old.queue self.new.queue sink.old sink.new result [] }
        ensures few { waiting self.new.queue ≡ low_cells self.new.queue.len self.new.queue.word }
        ensures edges { self.new.edges ≡ self.old.edges }
        ensures follower { self.new.follower ≡ self.old.follower }
    {
        self.queue.pass_on(sink)
    }

    /// Writes the cells that were given.
    ///
    /// # Errors
    /// The sink's fault.
    pub fn finish<T: Sink>(&mut self, sink: &mut T) -> Result<(), Fault>
        requires room { T.failed sink.old + 1 < 2 ^ 64 }
        ensures no_failure { IfOk result (λ _. T.failed sink.new ≡ T.failed sink.old) }
        ensures one_failure { OnErr result (T.failed sink.new ≡ T.failed sink.old + 1) }
        ensures cells { Finishes T.taken self.old.queue sink.old sink.new result }
    {
        self.queue.finish(sink)
    }
}
