//! Cells recovered from the levels of samples.

/// Samples of a block taken at once.
mod block;
/// The numbers of a recovery.
mod parts;

ghost use Rattle.std.specs.Prelude.{ℕ, List, [], ◌∷◌, ◌++◌, ◌+◌, ◌*◌, ◌/◌, ◌-◌, ◌%◌, ◌<◌, ◌≤◌, ◌^◌, ◌≡◌, ◌≢◌};
ghost use Rattle.std.specs.Prelude.{IfOk, OnErr, IfSome, None, Some, min, take, length, replicate, true, false, if◌then◌else◌};
ghost use Rattle.aes3_level.specs.declared.level.Level.{Level};
ghost use Rattle.aes3_level.specs.Cells.{after, other};
ghost use Rattle.aes3_capture_recovery.specs.Endings.{level_if};
ghost use Rattle.aes3_capture_recovery.specs.Measuring.{IsAskedFor};

use crate::edges::{Edges, Piece};
use crate::figures::Figures;
use crate::line_follower::LineFollower;
use crate::period::{RUNS, any_follower, follower_of_runs, known_follower};
use aes3_capture::{Follower, PARTS};
use aes3_cell::{Fault, Form, Sink};
pub use parts::RecoveryParts;

/// How many cells without an edge are a dead stretch.
const DEAD: u64 = 64;

/// The length that a cell is taken to have for that before one was measured, in parts of a sample.
const ANY_PERIOD: u64 = 1 << 29;

/// Fewer runs than this are not measured.
const FEW: usize = 128;

/// How far a line is known.
#[derive(Clone, Copy, PartialEq, Eq)]
enum State {
    /// There was no edge for long.
    Still,
    /// Runs of samples are gathered to be measured.
    Measuring,
    /// Its edges are near their places.
    Following,
}

/// Recovers the cells of one line.
#[derive(Drop)]
pub struct Recovery {
    /// The line, its edges and its cells. Its follower is that of a line only once a line is found.
    line: LineFollower,
    found: bool,
    figures: Figures,
    /// The length of a cell, in parts of a sample, if it is given.
    known: Option<u64>,
    state: State,
    /// The samples that wait for the first period.
    held: u64,
    /// The runs of samples that wait to be measured.
    runs: [u32; RUNS],
    count: usize,
    /// The mean distance of edges from their places.
    spread: u64,
    ghost few: { count < 256 },
    ghost narrow: { spread < 2 ^ 40 },
}

impl Recovery {
    ghost use Rattle.aes3_level.specs.Words.{level_of, low_cells};
    ghost use Rattle.aes3_capture.specs.declared.follower.Bounds.{Bounds};
    ghost use Rattle.aes3_capture.specs.declared.follower.Follower.{Follower};
    ghost use Rattle.aes3_capture.specs.Captures.{Captures, IsBetween, SpreadsLate, margin, wander};
    ghost use Rattle.aes3_capture.specs.Following.{Follows};
    ghost use Rattle.aes3_capture_recovery.specs.Runs.{AreCaptured};
    ghost use Rattle.aes3_capture_recovery.specs.LineFollowing.{Followed, Gives, RunTold, SomeTold};
    ghost use Rattle.aes3_capture_recovery.specs.Beginning.{AreFindable, Awaits, Began, BeginsWith, Begun, EndsWith, FollowsFrom, GivesLine};
    ghost use Rattle.aes3_capture_recovery.specs.Beginning.{IsLastingBehind, IsLineBehind, KeepsLine};
    ghost use Rattle.aes3_capture_recovery.specs.Recovering.{first_level};
    ghost use Rattle.aes3_capture_recovery.specs.Endings.{finished};
    ghost use Rattle.aes3_capture_recovery.specs.Keeping.{IsKept, IsOnLine, StaysKept, StaysOnLine};
    ghost use Rattle.aes3_capture_recovery.specs.Recovering.{AreEnded, AreRecovered, AreTold, Holds, Recovered, Setting};
    ghost use Rattle.aes3_capture_recovery.specs.Queues.{Queued, Writes, waiting};
    ghost use Rattle.aes3_capture_recovery.specs.Recovering.{StandsOn, runs_waiting, samples_of};
    ghost use Rattle.aes3_capture_recovery.specs.RecoverySteps.{Gave, KeepsRuns, KeepsTold, Noted, RunsTold};
    ghost use Rattle.aes3_capture_recovery.specs.declared.recovery.State.TheVariants.{Following, Measuring, Still};

    /// A recovery before the first sample. `known` is the length of a cell in parts of a sample, if
    /// it is given.
    pub fn new(form: Form, known: Option<u64>) -> Self
        ensures recovered { (setting : Setting) → setting.form ≡ form → setting.known ≡ known
            → Recovered (Some setting.begun) setting [] [] result }
        ensures unfound { known ≡ None → result.found ≡ false }
        ensures awaits { (setting : Setting) → setting.form ≡ form → setting.known ≡ known → known ≡ None
            → Awaits (Some setting.begun) setting [] [] result }
        ensures unmeasured { result.figures.measured ≡ 0 }
    {
        match known_follower(known) {
            Some(follower) => Recovery::with_follower(form, known, follower, true),
            None => Recovery::with_follower(form, known, any_follower(), false),
        }
    }

    /// A recovery before the first sample, with a follower of its line, if one is found.
    fn with_follower(form: Form, known: Option<u64>, follower: Follower, found: bool) -> Self
        ensures recovered { (setting : Setting) → setting.form ≡ form → setting.known ≡ known
            → (found ≡ true → IsAskedFor known follower)
            → Recovered (Some setting.begun) setting [] [] result }
        ensures found { result.found ≡ found }
        ensures unmeasured { result.figures.measured ≡ 0 }
        ensures none { (result.state ≡ Still) × (result.count ≡ 0) }
    {
        Recovery {
            line: LineFollower::new(form, follower, Edges::new(false)),
            found,
            figures: Figures::default(),
            known,
            state: State::Still,
            held: 0,
            runs: [0; RUNS],
            count: 0,
            spread: 0,
        }
    }

    /// What was found of the line so far.
    pub fn figures(&self) -> Figures
        ensures samples { result.samples ≡ self.now.figures.samples }
        ensures measured { result.measured ≡ self.now.figures.measured }
        ensures misses { result.misses ≡ self.now.figures.misses }
        ensures edges { (result.edges ≡ self.now.figures.edges) × (result.greatest ≡ self.now.figures.greatest)
            × (result.squares ≡ self.now.figures.squares) }
        ensures dead { (result.dead ≡ self.now.figures.dead) × (result.dead_at ≡ self.now.figures.dead_at) }
        ensures cells { result.cells ≡ self.now.line.cells }
        ensures period { self.now.found ≡ true → result.period ≡ self.now.line.follower.period }
    {
        let mut figures = self.figures;
        figures.cells = self.line.cells();
        if self.found {
            figures.period = self.line.follower().period();
        }
        figures
    }

    /// Whether a line was found.
    pub fn is_found(&self) -> bool
        ensures { result ≡ self.now.found }
    {
        self.found
    }

    /// How many of the samples that were taken still wait: their cells were not given.
    pub fn samples_waiting(&self) -> u64
        ensures { result ≡ samples_of (runs_waiting self.now) + self.now.line.edges.run }
    {
        let mut samples = 0;
        for i in 0..self.count {
            samples += u64::from(self.runs[i]);
        }
        samples + u64::from(self.line.waiting())
    }

    /// How many of the cells that were given wait to be written.
    pub fn cells_waiting(&self) -> u32
        ensures { result ≡ length (waiting self.now.line.queue) }
    {
        self.line.cells_waiting()
    }

    /// Takes the levels of at most 64 samples, the first in the lowest bit.
    ///
    /// # Errors
    /// The sink's fault.
    pub fn take<T: Sink>(&mut self, sink: &mut T, levels: u64, len: u32) -> Result<(), Fault>
        requires few { len ≤ 64 }
        requires room { T.failed sink.old + 1 < 2 ^ 64 }
        ensures no_failure { IfOk result (λ _. T.failed sink.new ≡ T.failed sink.old) }
        ensures one_failure { OnErr result (T.failed sink.new ≡ T.failed sink.old + 1) }
        ensures follows { self.old.state ≡ Following → self.new.state ≡ Following
            → self.new.figures.measured ≡ self.old.figures.measured
            → self.old.figures.measured + 1 < 2 ^ 64 → 1 ≤ self.old.figures.samples
            → (begun : List ℕ) (front : List Level) (first : Follower) (before : Level) (seen : List Level)
            → Followed (T.taken sink.old) begun front self.old.line first before seen []
            → IfOk result (λ _. Followed (T.taken sink.new) begun front self.new.line first before
            (seen ++ low_cells len levels) []) }
        ensures mean { self.old.state ≡ Following → self.new.state ≡ Following
            → self.new.figures.measured ≡ self.old.figures.measured
            → self.old.figures.measured + 1 < 2 ^ 64 → 1 ≤ self.old.figures.samples
            → (begun : List ℕ) (front : List Level) (first : Follower) (before : Level) (seen : List Level)
            (same other_mean displaced : ℕ) (cells : List Level)
            → Followed (T.taken sink.old) begun front self.old.line first before seen []
            → Follows first same other_mean displaced 0 0
            → AreCaptured (Captures first.bounds same other_mean displaced) before cells
            (seen ++ low_cells len levels)
            → IfOk result (λ _. Gives (T.taken sink.new) begun front self.new.line cells) }
        ensures late { self.old.state ≡ Following → self.new.state ≡ Following
            → self.new.figures.measured ≡ self.old.figures.measured
            → self.old.figures.measured + 1 < 2 ^ 64 → 1 ≤ self.old.figures.samples
            → (begun : List ℕ) (front : List Level) (first : Follower) (before : Level) (seen : List Level)
            (same other_mean displaced spread late later : ℕ) (cells : List Level)
            → Followed (T.taken sink.old) begun front self.old.line first before seen []
            → Follows first same other_mean displaced 0 0
            → spread < first.bounds.low / 2 - margin first.bounds
            → late + spread < later + (first.bounds.low - wander first.bounds)
            → later + spread < late + (first.bounds.low - wander first.bounds)
            → IsBetween late same spread → IsBetween later other_mean spread
            → AreCaptured (SpreadsLate first.bounds spread late later displaced) before cells
            (seen ++ low_cells len levels)
            → IfOk result (λ _. Gives (T.taken sink.new) begun front self.new.line cells) }
        ensures recovered { (setting : Setting) (seen : List Level)
            → Recovered (T.taken sink.old) setting seen [] self.old
            → IfOk result (λ _. Recovered (T.taken sink.new) setting (seen ++ low_cells len levels) [] self.new) }
        ensures unfound { self.old.figures.measured + 1 < 2 ^ 64
            → self.new.figures.measured ≡ self.old.figures.measured → self.new.found ≡ self.old.found }

        // If no line was found before these samples, and one was found in them and is followed, it
        // is followed from the first edge of the runs in which it was found.
        ensures begins { self.old.found ≡ false → self.new.state ≡ Following → self.new.figures.measured ≡ 1
            → (setting : Setting) (seen : List Level) → Recovered (T.taken sink.old) setting seen [] self.old
            → IfOk result (λ _. Began (T.taken sink.new) setting (seen ++ low_cells len levels) [] self.new) }

        // If 256 runs after the first one are a capture in which a line can be found, then it was
        // found. From these runs on it is followed, as long as it is not measured again.
        ensures awaits { (setting : Setting) (seen : List Level) → Awaits (T.taken sink.old) setting seen [] self.old
            → IfOk result (λ _. Awaits (T.taken sink.new) setting (seen ++ low_cells len levels) [] self.new) }
        ensures finds { (setting : Setting) (seen : List Level) (first : ℕ) (window : List ℕ)
            → Awaits (T.taken sink.old) setting seen [] self.old
            → BeginsWith setting.known (seen ++ low_cells len levels) first window
            → IfOk result (λ _. 1 ≤ self.new.figures.measured) }
        ensures starts { (setting : Setting) (seen : List Level) (first : ℕ) (window : List ℕ)
            → Awaits (T.taken sink.old) setting seen [] self.old
            → EndsWith setting.known (seen ++ low_cells len levels) first window
            → IfOk result (λ _. (self.new.state ≡ Following) × (self.new.figures.measured ≡ 1)) }
        ensures joins { self.new.state ≡ Following → self.new.figures.measured ≡ 1
            → (setting : Setting) (seen : List Level) (first : ℕ) (window : List ℕ)
            → Awaits (T.taken sink.old) setting seen [] self.old
            → BeginsWith setting.known (seen ++ low_cells len levels) first window
            → IfOk result (λ _. FollowsFrom (T.taken sink.new) setting (other (first_level (seen ++ low_cells len levels)))
            (first ∷ []) window (seen ++ low_cells len levels) [] self.new) }
        ensures joined { self.new.state ≡ Following → self.new.figures.measured ≡ 1
            → (setting : Setting) (seen : List Level) (first : ℕ) (counts : List ℕ)
            → Awaits (T.taken sink.old) setting seen [] self.old
            → IsLineBehind setting.known (seen ++ low_cells len levels) first counts
            → IfOk result (λ _. GivesLine (T.taken sink.new) setting (seen ++ low_cells len levels) first counts
            self.new) }
        ensures up { IfOk result (λ _. self.old.figures.measured ≤ self.new.figures.measured) }
        ensures some { 1 ≤ self.old.figures.samples → IfOk result (λ _. 1 ≤ self.new.figures.samples) }
        ensures begun { self.old.state ≢ Following → self.new.state ≡ Following → self.old.figures.measured + 1 < 2 ^ 64
            → IfOk result (λ _. self.old.figures.measured < self.new.figures.measured) }

        // A line that is followed and continues in these samples is followed after them, and was
        // not measured.
        ensures stays { (narrow : Bounds) (spread : ℕ) (more : List Level)
            → IsOnLine narrow spread (low_cells len levels ++ more) self.old
            → IfOk result (λ _. StaysOnLine narrow spread more self.old self.new) }

        // A line that is found in the first of these samples, and lasts to their end, is followed
        // then, and was measured once.
        ensures lasts { (setting : Setting) (seen : List Level) (first : ℕ) (counts : List ℕ)
            → Awaits (T.taken sink.old) setting seen [] self.old
            → IsLastingBehind setting.known (seen ++ low_cells len levels) first counts
            → IfOk result (λ _. KeepsLine (T.taken sink.new) setting (seen ++ low_cells len levels) first counts
            self.new) }
    {
        self.count_samples(levels, len);
        let mut piece = Piece::new(levels, len);
        while let Some(run) = self.line.next_edge(&mut piece) {
            let high = !self.line.is_high();
            self.edge(sink, high, run)?;
        }
        self.rest(sink)
    }

    /// Counts samples. The first of all determines the level at which the line begins.
    #[inline(always)]
    fn count_samples(&mut self, levels: u64, len: u32)
        ensures state { self.new.state ≡ self.old.state }
        ensures measured { self.new.figures.measured ≡ self.old.figures.measured }
        ensures line { 1 ≤ self.old.figures.samples → self.new.line ≡ self.old.line }
        ensures samples { self.new.figures.samples ≡ min (self.old.figures.samples + len) (2 ^ 64 - 1) }
        ensures none { len ≡ 0 → self.new.line ≡ self.old.line }
        ensures begins { self.old.figures.samples ≡ 0 → 1 ≤ len
            → (level_if self.new.line.edges.high ≡ level_of (levels % 2)) × (self.new.line.edges.run ≡ 0) }
        ensures others { KeepsTold self.old self.new }
        ensures distance { self.new.spread ≡ self.old.spread }
    {
        let before = self.figures.samples;
        self.figures.samples = before.saturating_add(u64::from(len));
        if before > 0 || len == 0 {
            return;
        }
        self.line.start(levels & 1 == 1);
    }

    /// Takes an edge after a run of samples of this level.
    #[inline(always)]
    fn edge<T: Sink>(&mut self, sink: &mut T, high: bool, run: u32) -> Result<(), Fault>
        requires room { T.failed sink.old + 1 < 2 ^ 64 }
        ensures no_failure { IfOk result (λ _. T.failed sink.new ≡ T.failed sink.old) }
        ensures one_failure { OnErr result (T.failed sink.new ≡ T.failed sink.old + 1) }
        ensures up { self.old.figures.measured ≤ self.new.figures.measured }
        ensures begun { self.old.state ≢ Following → self.new.state ≡ Following
            → self.old.figures.measured + 1 < 2 ^ 64
            → self.old.figures.measured < self.new.figures.measured }
        ensures told { self.old.state ≡ Following → RunTold T.taken self.old.line self.new.line sink.old sink.new
            result run (level_if high) }
        ensures noted { self.old.state ≡ Following → IfOk result (λ _. Noted self.old self.new) }
        ensures stays { self.old.state ≡ Following → (narrow : Bounds) (spread : ℕ) (ahead : List ℕ)
            → IsKept self.old.line.follower self.old.spread narrow spread (run ∷ ahead)
            → IfOk result (λ _. StaysKept narrow spread ahead self.old self.new) }
        ensures edges { self.new.line.edges ≡ self.old.line.edges }
        ensures samples { self.new.figures.samples ≡ self.old.figures.samples }
        ensures stands { (setting : Setting) (level : Level) (done : List ℕ) (past : ℕ)
            → Holds (T.taken sink.old) setting level done past self.old
            → level_if high ≡ other (after level (done ++ runs_waiting self.old))
            → level_if self.old.line.edges.high ≡ other (level_if high)
            → IfOk result (λ _. StandsOn (T.taken sink.new) setting level
            ((done ++ runs_waiting self.old) ++ (past + run) ∷ []) self.new.line.edges.run self.new) }
        ensures unfound { self.old.figures.measured + 1 < 2 ^ 64
            → self.new.figures.measured ≡ self.old.figures.measured → self.new.found ≡ self.old.found }
        ensures begins { self.old.found ≡ false → self.new.state ≡ Following
            → (setting : Setting) (level : Level) (done : List ℕ) (past : ℕ)
            → Holds (T.taken sink.old) setting level done past self.old
            → level_if high ≡ other (after level (done ++ runs_waiting self.old))
            → level_if self.old.line.edges.high ≡ other (level_if high)
            → IfOk result (λ _. Begun (T.taken sink.new) setting level done
            (runs_waiting self.old ++ (past + run) ∷ []) self.new) }
        ensures within { self.old.count ≤ length self.old.runs }
        ensures still { self.old.state ≡ Still → (self.new.state ≡ Measuring) × (self.new.count ≡ self.old.count)
            × (self.new.found ≡ self.old.found) }
        ensures gathers { self.old.state ≡ Measuring → self.old.count + 1 < 256
            → (self.new.state ≡ Measuring) × (self.new.count ≡ self.old.count + 1)
            × (self.new.found ≡ self.old.found) }
        ensures starts { self.old.state ≡ Measuring → self.old.count + 1 ≡ 256 → self.old.figures.measured ≡ 0
            → AreFindable self.old.known (runs_waiting self.old ++ run ∷ [])
            → (self.new.state ≡ Following) × (self.new.figures.measured ≡ 1) }
    {
        match self.state {
            State::Following => self.follow(sink, high, run),
            State::Still => {
                self.state = State::Measuring;
                self.tell(sink, high, run)
            }
            State::Measuring => self.gather(sink, run),
        }
    }

    /// Gives the cells of a run that an edge ends, by the current follower.
    #[inline(always)]
    fn tell<T: Sink>(&mut self, sink: &mut T, high: bool, run: u32) -> Result<(), Fault>
        requires room { T.failed sink.old + 1 < 2 ^ 64 }
        ensures no_failure { IfOk result (λ _. T.failed sink.new ≡ T.failed sink.old) }
        ensures one_failure { OnErr result (T.failed sink.new ≡ T.failed sink.old + 1) }
        ensures state { self.new.state ≡ self.old.state }
        ensures measured { self.new.figures.measured ≡ self.old.figures.measured }
        ensures distance { self.new.spread ≡ self.old.spread }
        ensures keeps { KeepsRuns self.old self.new }
        ensures told { (level : Level) → level_if high ≡ other level
            → IfOk result (λ _. RunsTold T.taken self.old self.new sink.old sink.new level (run ∷ [])) }
    {
        if self.found {
            return self.line.tell(sink, high, run);
        }
        self.held = self.held.saturating_add(u64::from(run));
        Ok(())
    }

    /// Gives the cells of a run of a line whose edges are near their places.
    #[inline(always)]
    fn follow<T: Sink>(&mut self, sink: &mut T, high: bool, run: u32) -> Result<(), Fault>
        requires room { T.failed sink.old + 1 < 2 ^ 64 }
        ensures no_failure { IfOk result (λ _. T.failed sink.new ≡ T.failed sink.old) }
        ensures one_failure { OnErr result (T.failed sink.new ≡ T.failed sink.old + 1) }
        ensures told { RunTold T.taken self.old.line self.new.line sink.old sink.new result run
            (level_if high) }
        ensures noted { IfOk result (λ _. Noted self.old self.new) }
        ensures stays { self.old.state ≡ Following → (narrow : Bounds) (spread : ℕ) (ahead : List ℕ)
            → IsKept self.old.line.follower self.old.spread narrow spread (run ∷ ahead)
            → IfOk result (λ _. StaysKept narrow spread ahead self.old self.new) }
        ensures measured { self.new.figures.measured ≡ self.old.figures.measured }
        ensures keeps { KeepsRuns self.old self.new }
    {
        self.line.tell(sink, high, run)?;
        self.note();
        Ok(())
    }

    /// Notes how far the latest edge is from its place. A line is lost if edges are as far from
    /// their places as by chance. It is also lost if the grids of rising and falling edges have
    /// slipped.
    #[inline(always)]
    fn note(&mut self)
        ensures line { self.new.line ≡ self.old.line }
        ensures noted { Noted self.old self.new }
    {
        let follower = self.line.follower();
        // The grid has moved a sixteenth of the way to it.
        let left = follower.distance() >> 8;
        let distance = left + left / 15;
        self.figures.edges = self.figures.edges.saturating_add(1);
        self.figures.greatest = self.figures.greatest.max(distance);
        self.figures.squares = self.figures.squares.saturating_add(distance * distance);
        self.spread = (self.spread - (self.spread >> 8) + distance).min(1 << 32);
        if 5 * self.spread > follower.period() || follower.has_slipped() {
            self.state = State::Measuring;
        }
    }

    /// Gathers a run of a line that has to be measured.
    fn gather<T: Sink>(&mut self, sink: &mut T, run: u32) -> Result<(), Fault>
        requires room { T.failed sink.old + 1 < 2 ^ 64 }
        ensures no_failure { IfOk result (λ _. T.failed sink.new ≡ T.failed sink.old) }
        ensures one_failure { OnErr result (T.failed sink.new ≡ T.failed sink.old + 1) }
        ensures up { self.old.figures.measured ≤ self.new.figures.measured }
        ensures begun { self.old.state ≢ Following → self.new.state ≡ Following
            → self.old.figures.measured + 1 < 2 ^ 64
            → self.old.figures.measured < self.new.figures.measured }
        ensures edges { self.new.line.edges ≡ self.old.line.edges }
        ensures samples { self.new.figures.samples ≡ self.old.figures.samples }
        ensures stands { (setting : Setting) (level : Level) (done : List ℕ)
            → self.old.state ≡ Measuring → Holds (T.taken sink.old) setting level done 0 self.old
            → level_if self.old.line.edges.high ≡ after level (done ++ runs_waiting self.old)
            → IfOk result (λ _. StandsOn (T.taken sink.new) setting level
            ((done ++ runs_waiting self.old) ++ run ∷ []) self.new.line.edges.run self.new) }
        ensures unfound { self.old.figures.measured + 1 < 2 ^ 64
            → self.new.figures.measured ≡ self.old.figures.measured → self.new.found ≡ self.old.found }
        ensures begins { self.old.found ≡ false → self.old.state ≡ Measuring → self.new.state ≡ Following
            → (setting : Setting) (level : Level) (done : List ℕ)
            → AreTold (T.taken sink.old) setting level done 0 self.old
            → level_if self.old.line.edges.high ≡ after level (done ++ runs_waiting self.old)
            → IfOk result (λ _. Begun (T.taken sink.new) setting level done
            (runs_waiting self.old ++ run ∷ []) self.new) }
        ensures gathers { self.old.state ≡ Measuring → self.old.count + 1 < 256
            → (self.new.state ≡ Measuring) × (self.new.count ≡ self.old.count + 1)
            × (self.new.found ≡ self.old.found) }
        ensures starts { self.old.state ≡ Measuring → self.old.count + 1 ≡ 256 → self.old.figures.measured ≡ 0
            → AreFindable self.old.known (runs_waiting self.old ++ run ∷ [])
            → (self.new.state ≡ Following) × (self.new.figures.measured ≡ 1) }
    {
        self.runs[self.count] = run;
        if self.count + 1 < RUNS {
            self.count += 1;
            return Ok(());
        }
        self.count = 0;
        self.decide(sink, RUNS)
    }

    /// Measures the runs that were gathered, and gives their cells.
    fn decide<T: Sink>(&mut self, sink: &mut T, count: usize) -> Result<(), Fault>
        requires within { count ≤ 256 }
        requires room { T.failed sink.old + 1 < 2 ^ 64 }
        ensures no_failure { IfOk result (λ _. T.failed sink.new ≡ T.failed sink.old) }
        ensures one_failure { OnErr result (T.failed sink.new ≡ T.failed sink.old + 1) }
        ensures up { self.old.figures.measured ≤ self.new.figures.measured }
        ensures begun { self.old.state ≢ Following → self.new.state ≡ Following
            → self.old.figures.measured + 1 < 2 ^ 64
            → self.old.figures.measured < self.new.figures.measured }
        ensures edges { self.new.line.edges ≡ self.old.line.edges }
        ensures samples { self.new.figures.samples ≡ self.old.figures.samples }
        ensures none { self.new.count ≡ self.old.count }
        ensures followed { self.old.state ≡ Measuring → self.new.state ≡ Following → self.new.found ≡ true }
        ensures told { (setting : Setting) (level : Level) (done : List ℕ)
            → 128 ≤ count
            → AreTold (T.taken sink.old) setting level done 0 self.old
            → level_if self.old.line.edges.high ≡ other (after level (done ++ take count self.old.runs))
            → IfOk result (λ _. AreTold (T.taken sink.new) setting level
            (done ++ take count self.old.runs) 0 self.new) }
        ensures unfound { self.old.figures.measured + 1 < 2 ^ 64
            → self.new.figures.measured ≡ self.old.figures.measured → self.new.found ≡ self.old.found }
        ensures begins { self.old.found ≡ false → self.old.state ≡ Measuring → self.new.state ≡ Following → count ≡ 256
            → (setting : Setting) (level : Level) (done : List ℕ)
            → AreTold (T.taken sink.old) setting level done 0 self.old
            → level_if self.old.line.edges.high ≡ other (after level (done ++ take count self.old.runs))
            → IfOk result (λ _. Begun (T.taken sink.new) setting level done (take count self.old.runs) self.new) }
        ensures starts { self.old.figures.measured ≡ 0 → AreFindable self.old.known (take count self.old.runs)
            → (self.new.state ≡ Following) × (self.new.figures.measured ≡ 1) }
    {
        match follower_of_runs(&self.runs[..count], self.known) {
            None => {
                self.figures.misses = self.figures.misses.saturating_add(1);
                self.release(sink, count)
            }
            Some(follower) => {
                self.begin(sink, follower, count)?;
                self.release(sink, count)
            }
        }
    }

    /// Begins to follow a line. If no cells were given yet, there was no signal before.
    fn begin<T: Sink>(
        &mut self,
        sink: &mut T,
        follower: Follower,
        count: usize,
    ) -> Result<(), Fault>
        requires within { count ≤ 256 }
        requires room { T.failed sink.old + 1 < 2 ^ 64 }
        ensures no_failure { IfOk result (λ _. T.failed sink.new ≡ T.failed sink.old) }
        ensures one_failure { OnErr result (T.failed sink.new ≡ T.failed sink.old + 1) }
        ensures up { self.old.figures.measured ≤ self.new.figures.measured }
        ensures begun { self.old.figures.measured + 1 < 2 ^ 64
            → self.old.figures.measured < self.new.figures.measured }
        ensures edges { self.new.line.edges ≡ self.old.line.edges }
        ensures samples { self.new.figures.samples ≡ self.old.figures.samples }
        ensures none { self.new.count ≡ self.old.count }
        ensures runs { self.new.runs ≡ self.old.runs }
        ensures known { self.new.known ≡ self.old.known }
        ensures found { self.new.found ≡ true }
        ensures state { self.new.state ≡ Following }
        ensures fresh { self.new.spread ≡ 0 }
        ensures once { self.old.figures.measured ≡ 0 → self.new.figures.measured ≡ 1 }
        ensures follower { self.new.line.follower ≡ follower }
        ensures again { self.old.found ≡ true
            → IfOk result (λ _. Gave T.taken self.old.line self.new.line sink.old sink.new []) }
        ensures first { (level : Level) → self.old.found ≡ false
            → level_if self.old.line.edges.high ≡ other (after level (take count self.old.runs))
            → IfOk result (λ _. Gave T.taken self.old.line self.new.line sink.old sink.new
            (replicate (min (65536 * self.old.held) (2 ^ 64 - 1) / follower.period) level)) }
    {
        let is_first = !self.found;
        self.found = true;
        self.line.follow(follower);
        self.state = State::Following;
        self.spread = 0;
        self.figures.measured = self.figures.measured.saturating_add(1);
        if is_first {
            let high = self.is_high_before(count);
            let cells = self.held.saturating_mul(PARTS) / follower.period();
            self.line.put(sink, high, cells)
        } else {
            Ok(())
        }
    }

    /// Whether the line was high before the runs that were gathered: levels alternate, and after
    /// the last run comes the current level.
    fn is_high_before(&self, count: usize) -> bool
        requires within { count ≤ 256 }
        ensures { (level : Level)
            → level_if self.now.line.edges.high ≡ other (after level (take count self.now.runs))
            → level_if result ≡ level }
    {
        if count % 2 == 1 {
            self.line.is_high()
        } else {
            !self.line.is_high()
        }
    }

    /// Gives the cells of the runs that were gathered, by the current follower.
    fn release<T: Sink>(&mut self, sink: &mut T, count: usize) -> Result<(), Fault>
        requires within { count ≤ 256 }
        requires room { T.failed sink.old + 1 < 2 ^ 64 }
        ensures no_failure { IfOk result (λ _. T.failed sink.new ≡ T.failed sink.old) }
        ensures one_failure { OnErr result (T.failed sink.new ≡ T.failed sink.old + 1) }
        ensures state { self.new.state ≡ self.old.state }
        ensures measured { self.new.figures.measured ≡ self.old.figures.measured }
        ensures distance { self.new.spread ≡ self.old.spread }
        ensures keeps { KeepsRuns self.old self.new }
        ensures told { (level : Level)
            → level_if self.old.line.edges.high ≡ other (after level (take count self.old.runs))
            → IfOk result (λ _. RunsTold T.taken self.old self.new sink.old sink.new level
            (take count self.old.runs)) }
    {
        let mut high = !self.is_high_before(count);
        for i in 0..count {
            self.tell(sink, high, self.runs[i])?;
            high = !high;
        }
        Ok(())
    }

    /// The length that a cell is taken to have, in parts of a sample.
    #[inline(always)]
    fn period(&self) -> u64
        ensures most { result ≤ 2 ^ 30 }
        ensures least { 2 ^ 17 ≤ result }
        ensures any { self.now.found ≡ false → result ≡ 2 ^ 29 }
        ensures cell { self.now.line.follower.bounds.low ≤ result }
    {
        if self.found {
            self.line.follower().period()
        } else {
            ANY_PERIOD
        }
    }

    /// If no edge came for long, there is no signal: what waits is given as cells.
    #[inline(always)]
    fn rest<T: Sink>(&mut self, sink: &mut T) -> Result<(), Fault>
        requires room { T.failed sink.old + 1 < 2 ^ 64 }
        ensures no_failure { IfOk result (λ _. T.failed sink.new ≡ T.failed sink.old) }
        ensures one_failure { OnErr result (T.failed sink.new ≡ T.failed sink.old + 1) }
        ensures measured { self.new.figures.measured ≡ self.old.figures.measured }
        ensures found { self.new.found ≡ self.old.found }
        ensures alive { self.old.found ≡ false → self.old.line.edges.run < 524288
            → (self.new.state ≡ self.old.state) × (self.new.count ≡ self.old.count) }
        ensures near { self.old.line.edges.run ≤ 64 → self.new.state ≡ self.old.state }
        ensures awake { 1024 * self.old.line.edges.run < self.old.line.follower.bounds.low → self.new ≡ self.old }
        ensures still { self.old.state ≡ Still → self.old.count ≡ 0
            → (self.new.state ≡ Still) × (self.new.count ≡ 0) }
        ensures state { self.new.state ≡ Following → self.old.state ≡ Following }
        ensures told { self.new.state ≡ Following
            → SomeTold T.taken self.old.line self.new.line sink.old sink.new result }
        ensures high { self.new.line.edges.high ≡ self.old.line.edges.high }
        ensures samples { self.new.figures.samples ≡ self.old.figures.samples }
        ensures short { IfOk result (λ _. self.new.line.edges.run < 2 ^ 31) }
        ensures stands { (setting : Setting) (level : Level) (runs : List ℕ) (behind : ℕ)
            → StandsOn (T.taken sink.old) setting level runs behind self.old
            → IfOk result (λ _. StandsOn (T.taken sink.new) setting level runs behind self.new) }
    {
        if u64::from(self.line.waiting()) * PARTS / DEAD < self.period() {
            return Ok(());
        }
        self.still(sink)
    }

    /// Gives what waits of a line without signal.
    fn still<T: Sink>(&mut self, sink: &mut T) -> Result<(), Fault>
        requires room { T.failed sink.old + 1 < 2 ^ 64 }
        ensures no_failure { IfOk result (λ _. T.failed sink.new ≡ T.failed sink.old) }
        ensures one_failure { OnErr result (T.failed sink.new ≡ T.failed sink.old + 1) }
        ensures state { self.new.state ≡ Still }
        ensures none { self.new.count ≡ 0 }
        ensures measured { self.new.figures.measured ≡ self.old.figures.measured }
        ensures found { self.new.found ≡ self.old.found }
        ensures high { self.new.line.edges.high ≡ self.old.line.edges.high }
        ensures samples { self.new.figures.samples ≡ self.old.figures.samples }
        ensures short { IfOk result (λ _. self.new.line.edges.run ≡ 0) }
        ensures stands { (setting : Setting) (level : Level) (runs : List ℕ) (behind : ℕ)
            → StandsOn (T.taken sink.old) setting level runs behind self.old
            → IfOk result (λ _. StandsOn (T.taken sink.new) setting level runs behind self.new) }
    {
        self.note_dead();
        let count = self.count;
        self.count = 0;
        self.release(sink, count)?;
        self.wait(sink)
    }

    /// Notes that there is no signal, and from where on.
    fn note_dead(&mut self)
        ensures state { self.new.state ≡ Still }
        ensures measured { self.new.figures.measured ≡ self.old.figures.measured }
        ensures keeps { KeepsRuns self.old self.new }
        ensures line { self.new.line ≡ self.old.line }
        ensures held { self.new.held ≡ self.old.held }
    {
        if self.state == State::Still {
            return;
        }
        self.figures.dead = self.figures.dead.saturating_add(1);
        let waiting = u64::from(self.line.waiting());
        self.figures.dead_at = self.figures.samples.saturating_sub(waiting);
        self.state = State::Still;
    }

    /// Gives the cells of samples that no edge follows yet.
    fn wait<T: Sink>(&mut self, sink: &mut T) -> Result<(), Fault>
        requires room { T.failed sink.old + 1 < 2 ^ 64 }
        ensures no_failure { IfOk result (λ _. T.failed sink.new ≡ T.failed sink.old) }
        ensures one_failure { OnErr result (T.failed sink.new ≡ T.failed sink.old + 1) }
        ensures state { self.new.state ≡ self.old.state }
        ensures measured { self.new.figures.measured ≡ self.old.figures.measured }
        ensures high { self.new.line.edges.high ≡ self.old.line.edges.high }
        ensures all { self.new.line.edges.run ≡ 0 }
        ensures samples { self.new.figures.samples ≡ self.old.figures.samples }
        ensures count_is { self.new.count ≡ self.old.count }
        ensures found { self.new.found ≡ self.old.found }
        ensures told { (setting : Setting) (level : Level) (done : List ℕ) (past : ℕ)
            → AreTold (T.taken sink.old) setting level done past self.old
            → level_if self.old.line.edges.high ≡ other (after level done)
            → IfOk result (λ _. AreTold (T.taken sink.new) setting level done
            (past + self.old.line.edges.run) self.new) }
        ensures known { self.new.known ≡ self.old.known }
    {
        if self.found {
            return self.line.pass(sink);
        }
        let run = self.line.take_waiting();
        self.held = self.held.saturating_add(u64::from(run));
        Ok(())
    }

    /// Passes on the words of cells that are whole.
    ///
    /// # Errors
    /// The sink's fault.
    pub fn pass_on<T: Sink>(&mut self, sink: &mut T) -> Result<(), Fault>
        requires room { T.failed sink.old + 1 < 2 ^ 64 }
        ensures no_failure { IfOk result (λ _. T.failed sink.new ≡ T.failed sink.old) }
        ensures one_failure { OnErr result (T.failed sink.new ≡ T.failed sink.old + 1) }
        ensures passed { IfOk result (λ _. T.passed sink.new ≡ T.taken sink.new) }
        ensures recovered { (setting : Setting) (seen : List Level)
            → Recovered (T.taken sink.old) setting seen [] self.old
            → IfOk result (λ _. Recovered (T.taken sink.new) setting seen [] self.new) }
        ensures found { self.new.found ≡ self.old.found }
        ensures measured { self.new.figures.measured ≡ self.old.figures.measured }
        ensures awaits { (setting : Setting) (seen : List Level) → Awaits (T.taken sink.old) setting seen [] self.old
            → IfOk result (λ _. Awaits (T.taken sink.new) setting seen [] self.new) }
        ensures state { self.new.state ≡ self.old.state }
        ensures samples { self.new.figures.samples ≡ self.old.figures.samples }
        ensures follows { (begun : List ℕ) (front : List Level) (first : Follower) (before : Level) (seen : List Level)
            → Followed (T.taken sink.old) begun front self.old.line first before seen []
            → IfOk result (λ _. Followed (T.taken sink.new) begun front self.new.line first before seen []) }
        ensures stays { (narrow : Bounds) (spread : ℕ) (more : List Level) → IsOnLine narrow spread more self.old
            → IfOk result (λ _. StaysOnLine narrow spread more self.old self.new) }
    {
        self.line.pass_on(sink)?;
        sink.flush()
    }

    /// Takes the end: a line that still has to be measured is measured from what there is of it.
    ///
    /// # Errors
    /// The sink's fault.
    pub fn finish<T: Sink>(&mut self, sink: &mut T) -> Result<(), Fault>
        requires room { T.failed sink.old + 1 < 2 ^ 64 }
        ensures no_failure { IfOk result (λ _. T.failed sink.new ≡ T.failed sink.old) }
        ensures one_failure { OnErr result (T.failed sink.new ≡ T.failed sink.old + 1) }
        ensures passed { IfOk result (λ _. T.passed sink.new ≡ T.taken sink.new) }
        ensures recovered { (setting : Setting) (seen : List Level)
            → Recovered (T.taken sink.old) setting seen [] self.old
            → IfOk result (λ _. (cells : List Level) × AreRecovered setting.known seen cells self.new
            × (T.taken sink.new ≡ Some (setting.begun ++ finished setting.form cells))) }
        ensures samples { self.new.figures.samples ≡ self.old.figures.samples }
        ensures up { IfOk result (λ _. self.old.figures.measured ≤ self.new.figures.measured) }
        ensures begun { self.old.state ≢ Following → self.new.state ≡ Following → self.old.figures.measured + 1 < 2 ^ 64
            → IfOk result (λ _. self.old.figures.measured < self.new.figures.measured) }

        ensures kept { self.old.count ≡ 0 → self.new.figures.measured ≡ self.old.figures.measured }

        // If no run waits and a line was found, what was given is at the beginning of what is
        // written.
        ensures writes { self.old.found ≡ true → self.old.count ≡ 0 → (begun : List ℕ) (all : List Level)
            → Queued (T.taken sink.old) begun self.old.line.queue.form (waiting self.old.line.queue) all
            → IfOk result (λ _. Writes (T.taken sink.new) begun self.old.line.queue.form all) }
    {
        let count = self.count;
        self.count = 0;
        self.tell_gathered(sink, count)?;
        self.end(sink)
    }

    /// Gives the cells of the last runs that were gathered; if there are many, they are measured.
    fn tell_gathered<T: Sink>(&mut self, sink: &mut T, count: usize) -> Result<(), Fault>
        requires within { count ≤ 256 }
        requires room { T.failed sink.old + 1 < 2 ^ 64 }
        ensures no_failure { IfOk result (λ _. T.failed sink.new ≡ T.failed sink.old) }
        ensures one_failure { OnErr result (T.failed sink.new ≡ T.failed sink.old + 1) }
        ensures edges { self.new.line.edges ≡ self.old.line.edges }
        ensures told { (setting : Setting) (level : Level) (done : List ℕ) (past : ℕ)
            → (1 ≤ length (take count self.old.runs) → past ≡ 0)
            → AreTold (T.taken sink.old) setting level done past self.old
            → level_if self.old.line.edges.high ≡ other (after level (done ++ take count self.old.runs))
            → IfOk result (λ _. AreTold (T.taken sink.new) setting level
            (done ++ take count self.old.runs) past self.new) }
        ensures samples { self.new.figures.samples ≡ self.old.figures.samples }
        ensures up { self.old.figures.measured ≤ self.new.figures.measured }
        ensures begun { self.old.state ≢ Following → self.new.state ≡ Following
            → self.old.figures.measured + 1 < 2 ^ 64
            → self.old.figures.measured < self.new.figures.measured }
        ensures found { count ≡ 0 → self.new.found ≡ self.old.found }
        ensures kept { count ≡ 0 → self.new.figures.measured ≡ self.old.figures.measured }
        ensures none { count ≡ 0 → self.old.found ≡ true
            → IfOk result (λ _. Gave T.taken self.old.line self.new.line sink.old sink.new []) }
    {
        if count < FEW {
            self.release(sink, count)
        } else {
            self.decide(sink, count)
        }
    }

    /// Gives the last run as if an edge ended it, and writes the cells that are left.
    fn end<T: Sink>(&mut self, sink: &mut T) -> Result<(), Fault>
        requires room { T.failed sink.old + 1 < 2 ^ 64 }
        ensures no_failure { IfOk result (λ _. T.failed sink.new ≡ T.failed sink.old) }
        ensures one_failure { OnErr result (T.failed sink.new ≡ T.failed sink.old + 1) }
        ensures passed { IfOk result (λ _. T.passed sink.new ≡ T.taken sink.new) }
        ensures ended { (setting : Setting) (level : Level) (done : List ℕ) (past : ℕ)
            → AreTold (T.taken sink.old) setting level done past self.old
            → level_if self.old.line.edges.high ≡ other (after level done)
            → IfOk result (λ _. (cells : List Level)
            × AreEnded setting.known level (done ++ (past + self.old.line.edges.run) ∷ []) cells self.new
            × (T.taken sink.new ≡ Some (setting.begun ++ finished setting.form cells))) }
        ensures samples { self.new.figures.samples ≡ self.old.figures.samples }
        ensures state { self.new.state ≡ self.old.state }
        ensures measured { self.new.figures.measured ≡ self.old.figures.measured }
        ensures writes { self.old.found ≡ true → (begun : List ℕ) (all : List Level)
            → Queued (T.taken sink.old) begun self.old.line.queue.form (waiting self.old.line.queue) all
            → IfOk result (λ _. Writes (T.taken sink.new) begun self.old.line.queue.form all) }
    {
        let run = self.line.take_waiting();
        let high = self.line.is_high();
        self.tell(sink, high, run)?;
        self.line.finish(sink)?;
        sink.flush()
    }
}
