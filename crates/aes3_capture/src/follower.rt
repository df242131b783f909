//! A follower of edges, one by one or many at once, and the possible length of a cell.

ghost use Rattle.std.specs.Prelude.{◌≡◌, ◌+◌, ◌-◌, ◌*◌, ◌/◌, ◌%◌, ◌^◌, ◌<◌, ◌≤◌, ◌⊎◌, min, max};
ghost use Rattle.std.specs.Prelude.{take, length, ℕ, ◌↔◌, IsTrue, IfSome, drop, get_or};
ghost use Rattle.aes3_capture.specs.Leaps.{IsBounded, IsStep};

/// The numbers of a follower.
mod parts;

pub use parts::FollowerParts;
use std::simd::prelude::*;

/// How many parts a sample has.
pub const PARTS: u64 = 65_536;

/// The possible length of the cells of a line, in parts of a sample: at least two samples, at most
/// 8192, and the longest at most twice the shortest.
#[derive(Clone, Copy)]
pub struct Bounds {
    pub low: u64,
    pub high: u64,
    ghost ordered: { low ≤ high },
    ghost slim: { high ≤ 2 * low },
    ghost least: { 131072 ≤ low },
    ghost most: { low ≤ 2 ^ 29 },
}

/// Follows the edges of a line: the length of a cell, and the position of its grid. Rising and
/// falling edges have a grid each, as a line may be later in one direction; both have one period.
#[derive(Clone, Copy)]
pub struct Follower {
    bounds: Bounds,
    /// The length of a cell.
    period: u64,
    /// The time since the latest edge, less the cells that were counted.
    elapsed: u64,
    /// The position of the latest edge relative to its place on the grid of its direction, plus one
    /// and a half of the shortest cell.
    same: u64,
    /// The same on the grid of the other direction.
    other: u64,
    ghost longest: { period ≤ bounds.high },
    ghost shortest: { bounds.low ≤ period },
    ghost told: { elapsed < period },
    ghost same_bound: { same ≤ 3 * bounds.low },
    ghost other_bound: { other ≤ 3 * bounds.low },
}

/// The longest period, in parts of a sample, whose multiples fit 32 bits.
const SHORT: u64 = 1 << 26;

/// The part of an edge's distance by which its grid moves: a sixteenth.
const GRID_SHIFT: u32 = 4;

/// The part of an edge's distance by which the period changes.
const PERIOD_SHIFT: u32 = 13;

impl Follower {
    ghost use Rattle.aes3_capture.specs.Captures.{margin};
    ghost use Rattle.aes3_capture.specs.Following.{Begins, Passed, Turned, Counted, IsNear, Tracked};
    ghost use Rattle.aes3_capture.specs.Following.{Follows, Passes, Ends, Counts, IsWithin, middle_of};

    /// A follower at the first edge of a line.
    pub fn new(bounds: Bounds, period: u64) -> Self
        requires longest { period ≤ bounds.high }
        requires shortest { bounds.low ≤ period }
        ensures bounds { result.bounds ≡ bounds }
        ensures begins { Begins result bounds period (middle_of bounds) (middle_of bounds) }
        ensures line { (displaced : ℕ) → Follows result displaced displaced displaced 0 0 }
    {
        let middle = bounds.low + bounds.low / 2;
        Follower::at(bounds, period, middle, middle)
    }

    /// A follower at an edge of a line whose position is known on the grid of its direction and on
    /// the other grid. One and a half of the shortest cell is added to each of the two positions.
    pub fn at(bounds: Bounds, period: u64, same: u64, other: u64) -> Self
        requires longest { period ≤ bounds.high }
        requires shortest { bounds.low ≤ period }
        requires same_bound { same ≤ 3 * bounds.low }
        requires other_bound { other ≤ 3 * bounds.low }
        ensures bounds { result.bounds ≡ bounds }
        ensures begins { Begins result bounds period same other }
        ensures line { (displaced first second : ℕ) → same + first ≡ middle_of bounds + displaced
            → other + second ≡ middle_of bounds + displaced
            → IsWithin displaced first (bounds.low / 2 - margin bounds)
            → Follows result first second displaced 0 0 }
    {
        Follower {
            bounds,
            period,
            elapsed: 0,
            same,
            other,
        }
    }

    /// The follower at its latest edge for the same samples in reverse: what was after a place is
    /// before it. Its period is given.
    pub fn reverse(&self, period: u64) -> Self
        requires longest { period ≤ self.now.bounds.high }
        requires shortest { self.now.bounds.low ≤ period }
        ensures bounds { result.bounds ≡ self.now.bounds }
        ensures begins { Begins result self.now.bounds period (2 * middle_of self.now.bounds - self.now.same)
            (2 * middle_of self.now.bounds - self.now.other) }
    {
        let turn = 2 * (self.bounds.low + self.bounds.low / 2);
        let same = turn.saturating_sub(self.same);
        Follower::at(self.bounds, period, same, turn.saturating_sub(self.other))
    }

    /// The possible length of a cell.
    pub fn bounds(&self) -> Bounds
        ensures { result ≡ self.now.bounds }
    {
        self.bounds
    }

    /// Whether the grids of the two directions are more than half a cell apart.
    pub fn has_slipped(&self) -> bool
        ensures { IsTrue result ↔ (self.now.bounds.low / 2
            < (self.now.same - self.now.other) + (self.now.other - self.now.same)) }
    {
        self.same.abs_diff(self.other) > self.bounds.low / 2
    }

    /// The length of a cell, in parts of a sample.
    pub fn period(&self) -> u64
        ensures { result ≡ self.now.period }
    {
        self.period
    }

    /// How far the latest edge is from its place on the grid of its direction, in parts of a
    /// sample.
    pub fn distance(&self) -> u64
        ensures { result ≡ (self.now.same - middle_of self.now.bounds)
            + (middle_of self.now.bounds - self.now.same) }
    {
        self.same.abs_diff(self.bounds.low + self.bounds.low / 2)
    }

    /// How many cells certainly pass with these samples, if no edge follows them yet.
    #[inline(always)]
    pub fn pass(&mut self, samples: u32) -> u64
        ensures bounds { self.new.bounds ≡ self.old.bounds }
        ensures time { result ≡ (self.old.elapsed + 65536 * samples) / self.old.period }
        ensures elapsed { self.new.elapsed
            ≡ (self.old.elapsed + 65536 * samples) % self.old.period }
        ensures period { self.new.period ≡ self.old.period }
        ensures passed { Passed self.old samples result self.new }
        ensures line { Passes self.old samples result self.new }
    {
        let elapsed = self.elapsed + u64::from(samples) * PARTS;
        let (cells, rest) = periods_in(elapsed, self.period);
        self.elapsed = rest;
        cells
    }

    /// Whether one more cell ends at an edge that comes now.
    #[inline(always)]
    pub fn edge(&mut self) -> bool
        ensures bounds { self.new.bounds ≡ self.old.bounds }
        ensures elapsed { self.new.elapsed ≡ 0 }
        ensures turned { Turned self.old result self.new }
        ensures line { Ends self.old result self.new }
    {
        let more = self.elapsed + self.other >= self.period + self.bounds.low;
        let told = if more { self.period } else { 0 };
        let place = self.elapsed + self.other - told;
        let other = (self.elapsed + self.same).saturating_sub(told);
        self.period = period_nearer(self.bounds, self.period, place);
        self.same = place_nearer(self.bounds, place);
        self.other = other.min(3 * self.bounds.low);
        self.elapsed = 0;
        more
    }

    /// How many cells end at an edge after these samples: the time that passed divided by the
    /// period, rounded down, or one more.
    #[inline(always)]
    pub fn run(&mut self, samples: u32) -> u64
        ensures bounds { self.new.bounds ≡ self.old.bounds }
        ensures least { (self.old.elapsed + 65536 * samples) / self.old.period ≤ result }
        ensures most { result ≤ (self.old.elapsed + 65536 * samples) / self.old.period + 1 }
        ensures counted { Counted self.old samples result self.new }
        ensures line { Counts self.old samples result self.new }
    {
        let told = self.pass(samples);
        told + u64::from(self.edge())
    }

    /// Counts the cells of at most 32 runs as `run` does. It goes on as long as each run has the
    /// number of cells in `cells` and its edge is near its place. Returns how many runs were
    /// counted, and writes the position of each edge on its grid.
    ///
    /// It takes a fraction of the time of `run`: it compares where `run` divides and clamps, and
    /// takes most runs 16 at a time.
    pub fn track(
        &mut self,
        runs: &[u32],
        cells: &[u32; TRACKED],
        places: &mut [u32; TRACKED],
    ) -> usize
        ensures some { result ≤ length runs.now }
        ensures few { result ≤ 32 }
        ensures tracked { Tracked self.old (take result runs.now) (take result cells.now)
            (take result places.new) self.new }
    {
        let count = runs.len().min(TRACKED);
        let mut follower = *self;
        let mut at = 0;
        let mut leap = Leap::new();
        while at + LEAP <= count {
            let leapt = follower.leap(&mut leap, &runs[at..at + LEAP], &cells[at..at + LEAP]);
            let Some(next) = leapt else {
                break;
            };
            follower = next;
            places[at..at + LEAP].copy_from_slice(&leap.sames[1..]);
            at += LEAP;
        }
        for i in at..count {
            let Some(next) = follower.near(runs[i], cells[i]) else {
                *self = follower;
                return i;
            };
            follower = next;
            places[i] = follower.same as u32;
        }
        *self = follower;
        count
    }

    /// The follower after 16 runs, if each has the given number of cells and its edge is near its
    /// place. Then `sames` of the leap has the position of each edge on its grid, after that of the
    /// latest edge before them.
    #[inline(always)]
    fn leap(&self, leap: &mut Leap, runs: &[u32], cells: &[u32]) -> Option<Follower>
        requires runs_long { length runs.now ≡ 16 }
        requires cells_long { length cells.now ≡ 16 }
        ensures { IfSome result (λ follower. Tracked self.now runs.now cells.now (drop 1 leap.new.sames) follower) }
    {
        if self.elapsed > 0 || self.bounds.high > SHORT {
            return None;
        }
        let low = self.bounds.low as u32;
        let range = (self.bounds.high - self.bounds.low) as u32;
        let (same, other) = (self.same as u32, self.other as u32);
        leap.make(low + low / 2, same, other, self.period as u32, runs, cells);
        if !leap.is_right(low, range, runs, cells) {
            return None;
        }
        Some(Follower {
            bounds: self.bounds,
            period: u64::from(leap.periods[LEAP]),
            elapsed: self.elapsed,
            same: u64::from(leap.sames[LEAP]),
            other: u64::from(leap.others[LEAP]),
        })
    }

    /// How many cells a sample has, with 2^20 for a cell.
    pub fn frequency(&self) -> u32 {
        ((1u64 << 36) / self.period) as u32
    }

    /// The most likely numbers of cells between each of these places of edges and the next, in
    /// samples; the first place is that of the latest edge. The frequency may be that of an earlier
    /// edge. `track` compares, so nothing depends on these numbers being right.
    pub fn guess(&self, places: &[u32], frequency: u32) -> [u32; TRACKED]
        requires { length places.now ≡ 33 }
    {
        // Places in cells, with 2^20 for a cell, after the last cell that ends before the latest
        // edge.
        let other = cells_of(self.other.saturating_sub(self.bounds.low), frequency);
        let same = cells_of(self.same.saturating_sub(self.bounds.low), frequency);
        let grids = u32x8::from_array([other, same, other, same, other, same, other, same]);
        let from = u32x8::splat(places[0]);
        let frequency = u32x8::splat(frequency);
        // How many cells end before each edge.
        let mut ended = [0; TRACKED + 1];
        ended[0] = same >> CELL_SHIFT;
        for i in 0..TRACKED / 8 {
            let places = u32x8::from_slice(&places[8 * i + 1..]) - from;
            ((places * frequency + grids) >> u32x8::splat(CELL_SHIFT)).copy_to_slice(
                &mut ended[8 * i + 1..],
            );
        }
        let mut cells = [0; TRACKED];
        for i in 0..TRACKED / 8 {
            (u32x8::from_slice(&ended[8 * i + 1..]) - u32x8::from_slice(&ended[8 * i..]))
                .simd_clamp(u32x8::splat(1), u32x8::splat(3))
                .copy_to_slice(&mut cells[8 * i..]);
        }
        cells
    }

    /// The follower after an edge that follows these samples, if `cells` cells end there and the
    /// edge is near its place. It is near if two things hold. The edge is less than half of the
    /// shortest cell from its place. The time is less than the shortest cell from that of the
    /// cells.
    #[inline(always)]
    fn near(&self, samples: u32, cells: u32) -> Option<Follower>
        ensures { IfSome result (IsNear self.now samples cells) }
    {
        if self.elapsed > 0 || cells > 3 {
            return None;
        }
        let low = self.bounds.low;
        let middle = low + low / 2;
        // From here on times and places count from the shortest cell before the given cells.
        let time = u64::from(samples) * PARTS + low;
        let told = u64::from(cells) * self.period;
        if time < told || time - told >= 2 * low {
            return None;
        }
        let since = time - told;
        if !is_within(since + self.other, 2 * low, low) {
            return None;
        }
        let place = since + self.other - low;
        let same = place_nearer(self.bounds, place);
        if !is_within(since + self.same + low / 2, low + same, 2 * (low / 2) + 1) {
            return None;
        }
        let period = self.period + (place >> PERIOD_SHIFT) - (middle >> PERIOD_SHIFT);
        if period < low || period > self.bounds.high {
            return None;
        }
        Some(Follower {
            bounds: self.bounds,
            period,
            elapsed: self.elapsed,
            same,
            other: since + self.same - low,
        })
    }
}

/// How many runs a leap counts.
const LEAP: usize = 16;

/// The longest run, in samples, whose time fits 32 bits together with the others.
const LONGEST_RUN: u32 = (1 << 13) - 1;

/// The edges of a leap, and a follower's numbers at each, in 32 bits. They count only if `is_right`
/// returns true.
#[derive(Drop)]
pub(crate) struct Leap {
    /// The place of each edge on the grid of its direction.
    places: [u32; LEAP],
    /// The follower's numbers before each edge, and after the last.
    pub(crate) sames: [u32; LEAP + 1],
    pub(crate) others: [u32; LEAP + 1],
    pub(crate) periods: [u32; LEAP + 1],
    ghost places_long: { length places ≡ 16 },
    ghost sames_long: { length sames ≡ 17 },
    ghost others_long: { length others ≡ 17 },
    ghost periods_long: { length periods ≡ 17 },
}

impl Leap {
    /// An empty leap.
    pub(crate) fn new() -> Leap {
        Leap {
            places: [0; LEAP],
            sames: [0; LEAP + 1],
            others: [0; LEAP + 1],
            periods: [0; LEAP + 1],
        }
    }

    /// Follows one edge after the other from these numbers of a follower, taking each run to have
    /// the given number of cells. Nothing branches on the place of an edge, so a step takes only as
    /// long as its product and three sums.
    #[inline(always)]
    pub(crate) fn make(
        &mut self,
        middle: u32,
        same: u32,
        other: u32,
        period: u32,
        runs: &[u32],
        cells: &[u32],
    )
        requires runs_long { length runs.now ≡ 16 }
        requires cells_long { length cells.now ≡ 16 }
        ensures begins { (get_or self.new.sames 0 0 ≡ same) × (get_or self.new.others 0 0 ≡ other)
            × (get_or self.new.periods 0 0 ≡ period) }
        ensures steps { (i : ℕ) → i < 16 → IsStep middle (get_or runs.now i 0) (get_or cells.now i 0)
            (get_or self.new.sames i 0) (get_or self.new.others i 0) (get_or self.new.periods i 0) (get_or self.new.places i 0)
            (get_or self.new.sames (i + 1) 0) (get_or self.new.others (i + 1) 0) (get_or self.new.periods (i + 1) 0) }
    {
        let mut same = same;
        let mut other = other;
        let mut period = period;
        self.sames[0] = same;
        self.others[0] = other;
        self.periods[0] = period;
        for i in 0..LEAP {
            let place = (runs[i] << 16)
                .wrapping_add(other)
                .wrapping_sub(cells[i].wrapping_mul(period));
            other = place.wrapping_sub(other).wrapping_add(same);
            same = place.wrapping_sub(place >> 4).wrapping_add(middle >> 4);
            period = period.wrapping_sub(middle >> 13).wrapping_add(place >> 13);
            self.places[i] = place;
            self.sames[i + 1] = same;
            self.others[i + 1] = other;
            self.periods[i + 1] = period;
        }
    }

    /// Whether these numbers are right. Each edge must be less than half of the shortest cell from
    /// its place. The time must be less than the shortest cell from that of the cells. After the
    /// edge the grids are at most half of a shortest cell apart. The period is then at most `range`
    /// longer than the shortest cell.
    #[inline(always)]
    pub(crate) fn is_right(&self, low: u32, range: u32, runs: &[u32], cells: &[u32]) -> bool
        requires runs_long { length runs.now ≡ 16 }
        requires cells_long { length cells.now ≡ 16 }
        requires low_bound { low < 2 ^ 31 }
        ensures { IsTrue result → (i : ℕ) → i < 16 → IsBounded low (get_or runs.now i 0) (get_or cells.now i 0)
            (get_or self.now.others i 0) (get_or self.now.places i 0) (get_or self.now.sames (i + 1) 0)
            (get_or self.now.others (i + 1) 0) (get_or self.now.periods (i + 1) 0)
            8191 3 (low - 1) (2 * low - 1) (2 * (low / 2)) range }
    {
        // Each maximum is a local variable, so that LLVM compares several edges at once.
        let mut run = 0;
        let mut most = 0;
        let mut place = 0;
        let mut time = 0;
        let mut apart = 0;
        let mut period = 0;
        for i in 0..LEAP {
            run = runs[i].max(run);
            most = cells[i].max(most);
            place = self.places[i].wrapping_sub(low).max(place);
            time = self.places[i]
                .wrapping_sub(self.others[i])
                .wrapping_add(low)
                .max(time);
            apart = self.sames[i + 1]
                .wrapping_sub(self.others[i + 1])
                .wrapping_add(low / 2)
                .max(apart);
            period = self.periods[i + 1].wrapping_sub(low).max(period);
        }
        if run > LONGEST_RUN || most > 3 || place >= low || time >= 2 * low {
            return false;
        }
        if apart > 2 * (low / 2) || period > range {
            return false;
        }
        true
    }
}

/// Whether a number is one of `count` numbers from `first` on, by one comparison.
#[inline(always)]
fn is_within(number: u64, first: u64, count: u64) -> bool
    requires number_bound { number < 2 ^ 62 }
    requires first_bound { first < 2 ^ 62 }
    requires count_bound { count < 2 ^ 62 }
    ensures { IsTrue result ↔ ((first ≤ number) × (number < first + count)) }
{
    number.wrapping_sub(first) < count
}

/// How many runs are counted at once.
pub const TRACKED: usize = 32;

/// In places that are given in cells, a cell is 2 to this power.
const CELL_SHIFT: u32 = 20;

/// A number of parts of a sample, in cells, given the number of cells in a sample.
#[inline(always)]
fn cells_of(parts: u64, frequency: u32) -> u32
    requires { parts < 2 ^ 32 }
{
    (parts * u64::from(frequency) >> 16).min(1 << 31) as u32
}

/// How many whole periods have passed, and what is left of the time. Between two edges of a line
/// there are one to three cells: comparisons find these faster than a division. For a longer time
/// it divides.
#[inline(always)]
fn periods_in(time: u64, period: u64) -> (u64, u64)
    requires some { 0 < period }
    requires bound { period ≤ 2 ^ 30 }
    ensures periods { result.0 ≡ time / period }
    ensures rest { result.1 ≡ time % period }
{
    if time >= 4 * period {
        return (time / period, time % period);
    }
    let count = few_periods_in(time, period);
    (count, time - count * period)
}

/// How many whole periods have passed, if these are at most three. No jump depends on the number,
/// since it can't be predicted.
#[inline(always)]
fn few_periods_in(time: u64, period: u64) -> u64
    requires bound { period ≤ 2 ^ 30 }
    requires few { time < 4 * period }
    ensures passed { result * period ≤ time }
    ensures last { time < (result + 1) * period }
{
    one_if_passed(time, period) + one_if_passed(time, 2 * period) + one_if_passed(time, 3 * period)
}

/// 1 if this much time has passed, else 0.
#[inline(always)]
fn one_if_passed(time: u64, least: u64) -> u64
    ensures { ((result ≡ 1) × (least ≤ time)) ⊎ ((result ≡ 0) × (time < least)) }
{
    if time >= least { 1 } else { 0 }
}

/// The place of an edge on its grid, after the grid has moved a part of the way to it.
#[inline(always)]
fn place_nearer(bounds: Bounds, place: u64) -> u64
    requires { place ≤ 3 * bounds.low }
    ensures nearer { result ≡ place - place / 16 + (bounds.low + bounds.low / 2) / 16 }
    ensures bound { result ≤ 3 * bounds.low }
{
    place - (place >> GRID_SHIFT) + ((bounds.low + bounds.low / 2) >> GRID_SHIFT)
}

/// The period, after it has moved a small part of the way to an edge's place.
#[inline(always)]
fn period_nearer(bounds: Bounds, period: u64, place: u64) -> u64
    requires place { place ≤ 3 * bounds.low }
    requires longest { period ≤ bounds.high }
    requires shortest { bounds.low ≤ period }
    ensures nearer { result ≡ min (max (period + place / 8192
        - (bounds.low + bounds.low / 2) / 8192) bounds.low) bounds.high }
    ensures longest { result ≤ bounds.high }
    ensures shortest { bounds.low ≤ result }
{
    let middle = (bounds.low + bounds.low / 2) >> PERIOD_SHIFT;
    (period + (place >> PERIOD_SHIFT) - middle).clamp(bounds.low, bounds.high)
}
