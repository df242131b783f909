//! A clock that follows the edges of a line slowly, and finds the place of each edge.

ghost use Rattle.std.specs.Prelude.{◌≡◌, ◌+◌, ◌*◌, ◌/◌, ◌%◌, ◌^◌, ◌<◌, ◌≤◌};
ghost use Rattle.aes3_capture_picture.specs.Places.{at_of, cells_of, end_of};

use aes3_capture::FollowerParts;

/// A clock counts in 65,536ths of a part of a sample, and a sample has 65,536 parts.
const FINE: u32 = 16;

/// The shortest and the longest cell, in parts of a sample.
const SHORTEST: u64 = 1 << 17;

const LONGEST: u64 = 1 << 30;

/// The longest time between two edges that a clock measures, in samples. Without an edge for 64
/// cells there is no signal.
const LONGEST_RUN: u32 = 1 << 20;

/// A cell in the units in which the place of an edge is given.
pub(crate) const CELL: u64 = 65_536;

/// How many edges the clock averages: at first, and in the end.
const FEW: u64 = 32;

const MANY: u64 = 256;

/// Follows the edges of a line, rising and falling alike. It averages many more edges than the
/// follower that counts cells, so the jitter of edges is visible against it.
#[derive(Clone, Copy)]
pub(crate) struct Clock {
    /// The length of a cell.
    period: u64,
    /// Where the latest edge is in its cell, after the clock has moved toward it. The middle is the
    /// place where the edge is expected.
    ahead: u64,
    /// How many edges the clock has followed.
    edges: u64,
    ghost short: { 2 ^ 33 ≤ period },
    ghost long: { period ≤ 2 ^ 46 },
    ghost within: { ahead < period },
}

/// Where an edge is.
#[derive(Clone, Copy)]
pub(crate) struct Place {
    /// How many cells have passed since the edge before.
    pub cells: u64,
    /// Where the edge is in its cell, in 65,536ths of a cell. It is expected at 32,768.
    pub at: u64,
}

impl Clock {
    /// A clock that begins at the latest edge of a follower.
    pub(crate) fn new(follower: FollowerParts) -> Self {
        let length = follower.period.clamp(SHORTEST, LONGEST);
        let expected = follower.low.saturating_add(follower.low / 2);
        // The mean of the grids of rising and falling edges.
        let place = (follower.same / 2).saturating_add(follower.other / 2);
        let ahead = (length / 2)
            .saturating_add(place)
            .saturating_sub(expected)
            .min(length - 1);
        Clock {
            period: length << FINE,
            ahead: ahead << FINE,
            edges: 0,
        }
    }

    /// The length of a cell, in 2^-32 of a sample.
    pub(crate) fn period(&self) -> u64
        ensures { result ≡ self.now.period }
    {
        self.period
    }

    /// Follows an edge that came this many samples after the edge before, and returns its place.
    pub(crate) fn edge(&mut self, run: u32) -> Place
        ensures cells { result.cells ≡ cells_of self.old.period self.old.ahead run }
        ensures at { result.at ≡ at_of self.old.period self.old.ahead run }
        ensures within { result.at < 65536 }
        ensures few { result.cells ≤ 2 ^ 20 }
    {
        let end = self.ahead + (u64::from(run.min(LONGEST_RUN)) << 32);
        let rest = end % self.period;
        let place = Place {
            cells: end / self.period,
            at: rest * CELL / self.period,
        };
        self.follow(rest);
        place
    }

    /// Moves toward an edge that is here in its cell.
    fn follow(&mut self, rest: u64)
        requires { rest < self.old.period }
    {
        let weight = (self.edges / 4).clamp(FEW, MANY);
        self.edges = self.edges.saturating_add(1);
        let expected = self.period / 2;
        if rest >= expected {
            let late = rest - expected;
            self.period = (self.period + late / (4 * weight * weight)).min(LONGEST << FINE);
            self.ahead = (self.period / 2 + (late - late / weight)).min(self.period - 1);
        } else {
            let early = expected - rest;
            self.period = (self.period - early / (4 * weight * weight)).max(SHORTEST << FINE);
            self.ahead = (self.period / 2).saturating_sub(early - early / weight);
        }
    }
}
