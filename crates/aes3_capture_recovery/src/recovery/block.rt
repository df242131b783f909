//! Samples of a block taken at once: the edges in words of levels are found before they are
//! followed.

ghost use Rattle.std.specs.Prelude.{ℕ, List, [], ◌++◌, ◌+◌, ◌*◌, ◌/◌, ◌-◌, ◌<◌, ◌≤◌, ◌^◌, ◌≡◌, ◌≢◌};
ghost use Rattle.std.specs.Prelude.{IfOk, OnErr, min, take, drop, length, replicate, true, false, if◌then◌else◌};
ghost use Rattle.aes3_level.specs.declared.level.Level.{Level};
ghost use Rattle.aes3_level.specs.Cells.{after, other};
ghost use Rattle.aes3_capture_recovery.specs.Endings.{level_if};

use crate::edges::{BEGIN, Distances, Places, are_all_equal, distances_of, spread_behind};
use crate::recovery::{DEAD, Recovery, State};
use aes3_capture::{PARTS, TRACKED};
use aes3_cell::{Fault, Sink};

/// If the shortest cell is longer, edges are so rare that finding them first gains nothing.
const SHORT: u64 = 42 * PARTS;

/// If the shortest cell is longer, 64 samples have at most two edges.
const SPARSE: u64 = 32 * PARTS;

/// This many edges are taken one by one after an edge that is far from its place.
const ALONE: u32 = 8;

/// How many edges still have to be taken one by one, after some were taken.
fn alone_behind(alone: u32, some: usize) -> u32 {
    match (alone, some) {
        (0, 1) => ALONE,
        (0, _) => 0,
        (more, _) => more - 1,
    }
}

/// The level after this many runs, the first of which has this level: levels alternate.
#[inline(always)]
fn level_behind(high: bool, count: usize) -> bool
    ensures { (before : Level) (runs : List ℕ) → length runs ≡ count → level_if high ≡ other before
        → level_if result ≡ other (after before runs) }
{
    if count % 2 == 1 { !high } else { high }
}

impl Recovery {
    ghost use Rattle.std.specs.List.{flat_map};
    ghost use Rattle.aes3_level.specs.Words.{word_cells};
    ghost use Rattle.aes3_capture.specs.declared.follower.Bounds.{Bounds};
    ghost use Rattle.aes3_capture.specs.declared.follower.Follower.{Follower};
    ghost use Rattle.aes3_capture.specs.Captures.{Captures, IsBetween, SpreadsLate, margin, wander};
    ghost use Rattle.aes3_capture.specs.Following.{Follows};
    ghost use Rattle.aes3_capture_recovery.specs.Runs.{AreCaptured};
    ghost use Rattle.aes3_capture_recovery.specs.LineFollowing.{Followed, Gives};
    ghost use Rattle.aes3_capture_recovery.specs.Beginning.{Awaits};
    ghost use Rattle.aes3_capture_recovery.specs.Keeping.{IsKept, IsOnLine, StaysKept, StaysOnLine};
    ghost use Rattle.aes3_capture_recovery.specs.Recovering.{Recovered, Setting, StandsBehind};
    ghost use Rattle.aes3_capture_recovery.specs.Distances.{total};
    ghost use Rattle.aes3_capture_recovery.specs.RecoverySteps.{NotedAll, RunsCounted};
    ghost use Rattle.aes3_capture_recovery.specs.declared.recovery.State.TheVariants.{Following, Still};

    /// Takes words of the levels of 64 samples each, the first in the lowest bit, and returns
    /// whether it did. It does so if the line's edges can be found first, or if there is no signal
    /// and no edge in them. For each word it gives what [`Recovery::take`] gives: this is the fast
    /// way, in which most edges do not wait for others. The contents of `places` are irrelevant.
    ///
    /// # Errors
    /// The sink's fault.
    pub(crate) fn take_words<T: Sink>(
        &mut self,
        sink: &mut T,
        words: &[u64],
        places: &mut Places,
    ) -> Result<bool, Fault>
        requires few { length words.now ≤ 64 }
        requires room { T.failed sink.old + 1 < 2 ^ 64 }
        ensures no_failure { IfOk result (λ _. T.failed sink.new ≡ T.failed sink.old) }
        ensures one_failure { OnErr result (T.failed sink.new ≡ T.failed sink.old + 1) }
        ensures follows { self.old.state ≡ Following → self.new.state ≡ Following
            → self.new.figures.measured ≡ self.old.figures.measured
            → self.old.figures.measured + 1 < 2 ^ 64
            → (begun : List ℕ) (front : List Level) (first : Follower) (before : Level) (seen : List Level)
            → Followed (T.taken sink.old) begun front self.old.line first before seen []
            → IfOk result (λ taken. Followed (T.taken sink.new) begun front self.new.line first before
            (if taken then seen ++ flat_map word_cells words.now else seen) []) }
        ensures mean { self.old.state ≡ Following → self.new.state ≡ Following
            → self.new.figures.measured ≡ self.old.figures.measured
            → self.old.figures.measured + 1 < 2 ^ 64
            → (begun : List ℕ) (front : List Level) (first : Follower) (before : Level) (seen : List Level)
            (same other_mean displaced : ℕ) (cells : List Level)
            → Followed (T.taken sink.old) begun front self.old.line first before seen []
            → Follows first same other_mean displaced 0 0
            → AreCaptured (Captures first.bounds same other_mean displaced) before cells
            (seen ++ flat_map word_cells words.now)
            → IfOk result (λ taken. taken ≡ true → Gives (T.taken sink.new) begun front self.new.line cells) }
        ensures late { self.old.state ≡ Following → self.new.state ≡ Following
            → self.new.figures.measured ≡ self.old.figures.measured
            → self.old.figures.measured + 1 < 2 ^ 64
            → (begun : List ℕ) (front : List Level) (first : Follower) (before : Level) (seen : List Level)
            (same other_mean displaced spread late later : ℕ) (cells : List Level)
            → Followed (T.taken sink.old) begun front self.old.line first before seen []
            → Follows first same other_mean displaced 0 0
            → spread < first.bounds.low / 2 - margin first.bounds
            → late + spread < later + (first.bounds.low - wander first.bounds)
            → later + spread < late + (first.bounds.low - wander first.bounds)
            → IsBetween late same spread → IsBetween later other_mean spread
            → AreCaptured (SpreadsLate first.bounds spread late later displaced) before cells
            (seen ++ flat_map word_cells words.now)
            → IfOk result (λ taken. taken ≡ true → Gives (T.taken sink.new) begun front self.new.line cells) }
        ensures recovered { (setting : Setting) (seen : List Level)
            → Recovered (T.taken sink.old) setting seen [] self.old
            → IfOk result (λ taken. Recovered (T.taken sink.new) setting
            (if taken then seen ++ flat_map word_cells words.now else seen) [] self.new) }
        ensures awaits { (setting : Setting) (seen : List Level)
            → Awaits (T.taken sink.old) setting seen [] self.old
            → IfOk result (λ taken. Awaits (T.taken sink.new) setting
            (if taken then seen ++ flat_map word_cells words.now else seen) [] self.new) }
        ensures up { IfOk result (λ _. self.old.figures.measured ≤ self.new.figures.measured) }
        ensures some { 1 ≤ self.old.figures.samples → IfOk result (λ _. 1 ≤ self.new.figures.samples) }
        ensures begun { IfOk result (λ _. self.old.state ≢ Following → self.new.state ≢ Following) }
        ensures stays { (narrow : Bounds) (spread : ℕ) (more : List Level)
            → IsOnLine narrow spread (flat_map word_cells words.now ++ more) self.old
            → IfOk result (λ taken. taken ≡ true → StaysOnLine narrow spread more self.old self.new) }
        ensures leaves { (narrow : Bounds) (spread : ℕ) (more : List Level) → IsOnLine narrow spread more self.old
            → IfOk result (λ taken. taken ≡ false → StaysOnLine narrow spread more self.old self.new) }
    {
        if self.is_still() {
            return self.take_still(sink, words);
        }
        if !self.is_quick() {
            return Ok(false);
        }
        let high = self.line.is_high();
        let waiting = self.line.waiting();
        let sparse = self.line.follower().bounds().low >= SPARSE;
        let count = places.find(words, high, waiting, sparse);
        let longest = places.measure(count);
        let behind = places.behind(count, words.len());
        if longest.max(behind) >= BEGIN {
            return Ok(false);
        }
        let high = self.follow_edges(sink, high, places, count)?;
        self.line.stand(high, behind);
        let samples = self.figures.samples;
        self.figures.samples = samples.saturating_add(64 * words.len() as u64);
        Ok(true)
    }

    /// Whether the line is followed, and its edges can be found first.
    #[inline(always)]
    pub(crate) fn is_quick(&self) -> bool
        ensures following { result ≡ true → self.now.state ≡ Following }
        ensures some { result ≡ true → 1 ≤ self.now.figures.samples }
        ensures waiting { result ≡ true → self.now.line.edges.run ≤ 128 }
    {
        self.state == State::Following
            && self.figures.samples > 0
            && self.line.waiting() <= BEGIN
            && self.line.follower().bounds().low <= SHORT
    }

    /// Whether samples came, but no edge for long.
    #[inline(always)]
    pub(crate) fn is_still(&self) -> bool
        ensures still { result ≡ true → self.now.state ≡ Still }
        ensures some { result ≡ true → 1 ≤ self.now.figures.samples }
    {
        self.state == State::Still && self.figures.samples > 0
    }

    /// Takes words of a line without signal, if there is no edge in them; returns whether it did.
    /// Most blocks of a capture without signal are like this. After each of them the state is that
    /// after 64 calls of [`Recovery::take`], one for each 64 octets.
    #[inline(never)]
    fn take_still<T: Sink>(&mut self, sink: &mut T, words: &[u64]) -> Result<bool, Fault>
        requires few { length words.now ≤ 64 }
        requires room { T.failed sink.old + 1 < 2 ^ 64 }
        requires still { self.old.state ≡ Still }
        requires some { 1 ≤ self.old.figures.samples }
        ensures no_failure { IfOk result (λ _. T.failed sink.new ≡ T.failed sink.old) }
        ensures one_failure { OnErr result (T.failed sink.new ≡ T.failed sink.old + 1) }
        ensures recovered { (setting : Setting) (seen : List Level)
            → Recovered (T.taken sink.old) setting seen [] self.old
            → IfOk result (λ taken. Recovered (T.taken sink.new) setting
            (if taken then seen ++ flat_map word_cells words.now else seen) [] self.new) }
        ensures awaits { (setting : Setting) (seen : List Level)
            → Awaits (T.taken sink.old) setting seen [] self.old
            → IfOk result (λ taken. Awaits (T.taken sink.new) setting
            (if taken then seen ++ flat_map word_cells words.now else seen) [] self.new) }
        ensures state { IfOk result (λ _. self.new.state ≢ Following) }
        ensures measured { IfOk result (λ _. self.new.figures.measured ≡ self.old.figures.measured) }
        ensures samples { IfOk result (λ _. 1 ≤ self.new.figures.samples) }
    {
        if !are_all_equal(words, self.line.is_high()) {
            return Ok(false);
        }
        let all = 64 * words.len() as u32;
        let last = self.last_waiting(words.len() as u32);
        self.wait_on(sink, all - last)?;
        self.wait_on(sink, last)?;
        Ok(true)
    }

    /// How many of the next samples wait at the end, if 64 pieces of this length come without an
    /// edge. After each piece `rest` gives all that waits, if it is long.
    fn last_waiting(&self, piece: u32) -> u32
        requires few { piece ≤ 64 }
        ensures { result ≤ 64 * piece }
    {
        let period = self.period();
        let mut waiting = self.line.waiting();
        let mut left = 64 * piece;
        let mut last = left;
        'pieces: for _ in 0..64 {
            waiting = waiting.saturating_add(piece);
            left = left.saturating_sub(piece);
            if u64::from(waiting) * PARTS / DEAD >= period {
                waiting = 0;
                last = left;
            }
        }
        last
    }

    /// Takes this many samples of the line's level, after at least one earlier sample.
    #[inline(always)]
    fn wait_on<T: Sink>(&mut self, sink: &mut T, samples: u32) -> Result<(), Fault>
        requires few { samples ≤ 4096 }
        requires room { T.failed sink.old + 1 < 2 ^ 64 }
        ensures no_failure { IfOk result (λ _. T.failed sink.new ≡ T.failed sink.old) }
        ensures one_failure { OnErr result (T.failed sink.new ≡ T.failed sink.old + 1) }
        ensures high { self.new.line.edges.high ≡ self.old.line.edges.high }
        ensures samples { self.new.figures.samples ≡ min (self.old.figures.samples + samples) (2 ^ 64 - 1) }
        ensures still { self.old.state ≡ Still → self.old.count ≡ 0 → self.new.state ≡ Still }
        ensures recovered { 1 ≤ self.old.figures.samples → (setting : Setting) (seen : List Level)
            → Recovered (T.taken sink.old) setting seen [] self.old
            → IfOk result (λ _. Recovered (T.taken sink.new) setting
            (seen ++ replicate samples (level_if self.old.line.edges.high)) [] self.new) }
        ensures awaits { 1 ≤ self.old.figures.samples → self.old.state ≡ Still → (setting : Setting) (seen : List Level)
            → Awaits (T.taken sink.old) setting seen [] self.old
            → IfOk result (λ _. Awaits (T.taken sink.new) setting
            (seen ++ replicate samples (level_if self.old.line.edges.high)) [] self.new) }
        ensures state { self.new.state ≡ Following → self.old.state ≡ Following }
        ensures measured { self.new.figures.measured ≡ self.old.figures.measured }
    {
        let before = self.figures.samples;
        self.figures.samples = before.saturating_add(u64::from(samples));
        let high = self.line.is_high();
        let waiting = self.line.waiting();
        self.line.stand(high, waiting.saturating_add(samples));
        self.rest(sink)
    }

    /// Takes `count` edges that were found, the first after a run of the other level than this one.
    /// Returns the level after the last.
    fn follow_edges<T: Sink>(
        &mut self,
        sink: &mut T,
        high: bool,
        places: &Places,
        count: usize,
    ) -> Result<bool, Fault>
        requires few { count ≤ 4096 }
        requires room { T.failed sink.old + 1 < 2 ^ 64 }
        ensures no_failure { IfOk result (λ _. T.failed sink.new ≡ T.failed sink.old) }
        ensures one_failure { OnErr result (T.failed sink.new ≡ T.failed sink.old + 1) }
        ensures up { self.old.figures.measured ≤ self.new.figures.measured }
        ensures counted { self.old.state ≡ Following → self.new.state ≡ Following
            → self.new.figures.measured ≡ self.old.figures.measured
            → self.old.figures.measured + 1 < 2 ^ 64 → (before : Level) → level_if high ≡ other before
            → IfOk result (λ _. RunsCounted T.taken self.old.line self.new.line sink.old sink.new before
            (take count places.now.runs)) }
        ensures level { (before : Level) → level_if high ≡ other before
            → IfOk result (λ high. level_if high ≡ other (after before (take count places.now.runs))) }
        ensures samples { self.new.figures.samples ≡ self.old.figures.samples }
        ensures told { (setting : Setting) (level : Level) (runs : List ℕ)
            → StandsBehind (T.taken sink.old) setting level runs self.old
            → level_if high ≡ other (after level runs)
            → IfOk result (λ _. StandsBehind (T.taken sink.new) setting level
            (runs ++ take count places.now.runs) self.new) }
        ensures none { count ≡ 0 → (self.new.state ≡ self.old.state)
            × (self.new.figures.measured ≡ self.old.figures.measured) }
        ensures stays { self.old.state ≡ Following → (narrow : Bounds) (spread : ℕ) (more : List ℕ)
            → IsKept self.old.line.follower self.old.spread narrow spread (take count places.now.runs ++ more)
            → IfOk result (λ _. StaysKept narrow spread more self.old self.new) }
    {
        let frequency = self.line.follower().frequency();
        let mut high = high;
        let mut at = 0;
        let mut alone = 0;
        while at < count {
            let some = self.take_edges(sink, high, places, at, count, frequency, alone == 0)?;
            at += some;
            high = level_behind(high, some);
            alone = alone_behind(alone, some);
        }
        Ok(high)
    }

    /// Takes some of the edges that were found, from number `at` on, with this level before the
    /// first: all that are near their places, if they are taken `together`, or else one.
    #[inline(always)]
    fn take_edges<T: Sink>(
        &mut self,
        sink: &mut T,
        high: bool,
        places: &Places,
        at: usize,
        count: usize,
        frequency: u32,
        together: bool,
    ) -> Result<usize, Fault>
        requires within { at < count }
        requires few { count ≤ 4096 }
        requires room { T.failed sink.old + 1 < 2 ^ 64 }
        ensures no_failure { IfOk result (λ _. T.failed sink.new ≡ T.failed sink.old) }
        ensures one_failure { OnErr result (T.failed sink.new ≡ T.failed sink.old + 1) }
        ensures some { IfOk result (λ n. 1 ≤ n) }
        ensures most { IfOk result (λ n. n ≤ count - at) }
        ensures up { self.old.figures.measured ≤ self.new.figures.measured }
        ensures begun { self.old.state ≢ Following → self.new.state ≡ Following
            → self.old.figures.measured + 1 < 2 ^ 64
            → self.old.figures.measured < self.new.figures.measured }
        ensures counted { self.old.state ≡ Following → (before : Level) → level_if high ≡ other before
            → IfOk result (λ n. RunsCounted T.taken self.old.line self.new.line sink.old sink.new before
            (take n (drop at places.now.runs))) }
        ensures samples { self.new.figures.samples ≡ self.old.figures.samples }
        ensures told { (setting : Setting) (level : Level) (runs : List ℕ)
            → StandsBehind (T.taken sink.old) setting level runs self.old
            → level_if high ≡ other (after level runs)
            → IfOk result (λ n. StandsBehind (T.taken sink.new) setting level
            (runs ++ take n (drop at places.now.runs)) self.new) }
        ensures stays { self.old.state ≡ Following → (narrow : Bounds) (spread : ℕ) (more : List ℕ)
            → IsKept self.old.line.follower self.old.spread narrow spread (drop at (take count places.now.runs) ++ more)
            → IfOk result (λ n. StaysKept narrow spread (drop (at + n) (take count places.now.runs) ++ more)
            self.old self.new) }
    {
        if together {
            match self.track(sink, high, places, at, count, frequency) {
                Ok(0) => {}
                tracked => return tracked,
            }
        }
        let run = places.run(at);
        self.line.stand(!high, 1);
        self.edge(sink, high, run)?;
        Ok(1)
    }

    /// Takes at most 32 edges from number `at` on, as long as they are near their places; returns
    /// how many.
    #[inline(always)]
    fn track<T: Sink>(
        &mut self,
        sink: &mut T,
        high: bool,
        places: &Places,
        at: usize,
        count: usize,
        frequency: u32,
    ) -> Result<usize, Fault>
        requires within { at < count }
        requires few { count ≤ 4096 }
        requires room { T.failed sink.old + 1 < 2 ^ 64 }
        ensures no_failure { IfOk result (λ _. T.failed sink.new ≡ T.failed sink.old) }
        ensures one_failure { OnErr result (T.failed sink.new ≡ T.failed sink.old + 1) }
        ensures most { IfOk result (λ n. n ≤ count - at) }
        ensures none { IfOk result (λ n. n ≡ 0 → (self.new ≡ self.old) × (sink.new ≡ sink.old)) }
        ensures unchanged { self.new.state ≡ self.old.state }
        ensures measured { self.new.figures.measured ≡ self.old.figures.measured }
        ensures counted { (before : Level) → level_if high ≡ other before
            → IfOk result (λ n. RunsCounted T.taken self.old.line self.new.line sink.old sink.new before
            (take n (drop at places.now.runs))) }
        ensures samples { self.new.figures.samples ≡ self.old.figures.samples }
        ensures told { (setting : Setting) (level : Level) (runs : List ℕ)
            → StandsBehind (T.taken sink.old) setting level runs self.old
            → level_if high ≡ other (after level runs)
            → IfOk result (λ n. StandsBehind (T.taken sink.new) setting level
            (runs ++ take n (drop at places.now.runs)) self.new) }
        ensures stays { self.old.state ≡ Following → (narrow : Bounds) (spread : ℕ) (more : List ℕ)
            → IsKept self.old.line.follower self.old.spread narrow spread (drop at (take count places.now.runs) ++ more)
            → IfOk result (λ n. StaysKept narrow spread (drop (at + n) (take count places.now.runs) ++ more)
            self.old self.new) }
    {
        if self.state != State::Following {
            return Ok(0);
        }
        let mut follower = self.line.follower();
        let low = follower.bounds().low;
        let cells = follower.guess(places.near(at), frequency);
        let mut grid = [0; TRACKED];
        let some = follower.track(places.runs(at, count), &cells, &mut grid);
        let distances = distances_of(&grid, some, (low + low / 2) as u32);
        // With all of them the mean distance would still be less than a fifth of a cell.
        if some == 0 || 5 * (self.spread + u64::from(distances.sum)) > low {
            return Ok(0);
        }
        self.line.put_runs(sink, high, &cells[..some])?;
        self.line.follow(follower);
        self.note_all(&distances, some);
        Ok(some)
    }

    /// Notes how far `count` edges are from their places, as `note` does for each.
    #[inline(always)]
    fn note_all(&mut self, distances: &Distances, count: usize)
        requires few { count ≤ 32 }
        requires near { self.old.spread + total (take count distances.now.each) ≤ 2 ^ 32 }
        ensures noted { NotedAll distances.now count self.old self.new }
    {
        self.figures.edges = self.figures.edges.saturating_add(count as u64);
        self.figures.greatest = self.figures.greatest.max(u64::from(distances.greatest));
        self.figures.squares = self.figures.squares.saturating_add(distances.squares);
        // Both give the same. LLVM unrolls the first, whose count it knows.
        self.spread = if count == TRACKED {
            spread_behind(self.spread, distances, TRACKED)
        } else {
            spread_behind(self.spread, distances, count)
        };
    }
}
