//! How many edges are how far from their places.

ghost use Rattle.std.specs.Prelude.{◌≡◌, ◌+◌, ◌-◌, ◌<◌, ◌≤◌, ◌^◌, length};
ghost use Rattle.aes3_capture_picture.specs.Counts.{edges_in, with_edge};
ghost use Rattle.aes3_capture_picture.specs.Places.{bin_of};

use crate::clock::CELL;

/// How many bars a histogram has: one for each 64th of a cell, from half a cell before the place of
/// an edge to half a cell after it.
pub(crate) const BINS: usize = 65;

/// The place at which an edge is expected in its cell.
const EXPECTED: u64 = CELL / 2;

/// The edges of one direction by their distance from their places.
#[derive(Clone, Copy)]
pub(crate) struct Histogram {
    counts: [u64; BINS],
    edges: u64,
    /// The sums of the distances of late and of early edges, and of the squares of all, in 65,536ths
    /// of a cell.
    late: u128,
    early: u128,
    squares: u128,
    /// The first and the last place in the cell that an edge had.
    first: u64,
    last: u64,
    ghost all: { edges_in counts ≡ edges },
}

/// The bar of an edge that is here in its cell.
fn bin_of(at: u64) -> usize
    requires { at < 65536 }
    ensures bin { result ≡ bin_of at }
    ensures within { result < 65 }
{
    ((at + 512) / 1024) as usize
}

impl Histogram {
    /// A histogram of no edges.
    pub(crate) fn new() -> Self
        ensures { result.edges ≡ 0 }
    {
        Histogram {
            counts: [0; BINS],
            edges: 0,
            late: 0,
            early: 0,
            squares: 0,
            first: CELL,
            last: 0,
        }
    }

    /// Counts an edge that is here in its cell. It counts 2^64 - 1 edges at most.
    pub(crate) fn count(&mut self, at: u64)
        requires { at < 65536 }
        ensures counts { self.old.edges + 1 < 2 ^ 64 → self.new.counts ≡ with_edge self.old.counts at }
        ensures edges { self.old.edges + 1 < 2 ^ 64 → self.new.edges ≡ self.old.edges + 1 }
        ensures full { self.old.edges ≡ 2 ^ 64 - 1 → self.new ≡ self.old }
    {
        if self.edges == u64::MAX {
            return;
        }
        let bin = bin_of(at);
        self.counts[bin] += 1;
        self.edges += 1;
        self.measure(at);
    }

    /// Adds an edge to the sums.
    fn measure(&mut self, at: u64)
        requires { at < 65536 }
        ensures counts { self.new.counts ≡ self.old.counts }
        ensures edges { self.new.edges ≡ self.old.edges }
    {
        let distance = u128::from(at.abs_diff(EXPECTED));
        if at >= EXPECTED {
            self.late = self.late.saturating_add(distance);
        } else {
            self.early = self.early.saturating_add(distance);
        }
        self.squares = self.squares.saturating_add(distance * distance);
        self.first = self.first.min(at);
        self.last = self.last.max(at);
    }
}

/// A distance from where an edge is expected, in 2^-32 of a cell.
#[derive(Clone, Copy)]
pub(crate) struct Distance {
    pub is_early: bool,
    pub size: u64,
}

impl Histogram {
    /// How many edges it has.
    pub(crate) fn edges(&self) -> u64
        ensures { result ≡ self.now.edges }
    {
        self.edges
    }

    /// How many edges the bar of this number has.
    pub(crate) fn bar(&self, bin: usize) -> u64 {
        if bin < BINS { self.counts[bin] } else { 0 }
    }

    /// The greatest number of edges of a bar.
    pub(crate) fn highest(&self) -> u64 {
        let mut highest = 0;
        for count in self.counts.iter() {
            highest = highest.max(*count);
        }
        highest
    }

    /// The mean distance of the edges from their places.
    pub(crate) fn mean(&self) -> Distance {
        let sum = self.late.abs_diff(self.early).saturating_mul(65_536);
        let mean = sum / u128::from(self.edges.max(1));
        Distance {
            is_early: self.early > self.late,
            size: mean.min(1 << 31) as u64,
        }
    }

    /// The root of the mean of the squares of the distances, in ten-thousandths of a cell: those
    /// from the mean distance.
    pub(crate) fn rms_about_mean(&self) -> u64 {
        let mean = self.mean().size.min(1 << 31);
        let square = mean_square(self.squares, self.edges);
        root(square.saturating_sub(u128::from(mean * mean)))
    }

    /// The distance between the earliest and the latest edge, in 65,536ths of a cell.
    pub(crate) fn width(&self) -> u64 {
        self.last.saturating_sub(self.first)
    }

    /// The greatest distance of an edge, in 65,536ths of a cell.
    pub(crate) fn greatest(&self) -> u64 {
        if self.edges == 0 {
            return 0;
        }
        EXPECTED
            .saturating_sub(self.first)
            .max(self.last.saturating_sub(EXPECTED))
    }

    /// The root of the mean of the squares of the distances of these and other edges, in
    /// ten-thousandths of a cell.
    pub(crate) fn rms_with(&self, other: &Histogram) -> u64 {
        let squares = self.squares.saturating_add(other.squares);
        root(mean_square(squares, self.edges.saturating_add(other.edges)))
    }
}

/// The mean of squares that are given in 2^-32 of a cell's square, in 2^-64 of it.
fn mean_square(squares: u128, edges: u64) -> u128 {
    squares.saturating_mul(1 << 32) / u128::from(edges.max(1))
}

/// The root of a square that is given in 2^-64 of a cell's square, in ten-thousandths of a cell.
fn root(square: u128) -> u64 {
    let square = square.saturating_mul(100_000_000) >> 64;
    (square.min(u128::from(u64::MAX)) as u64).isqrt()
}

/// The ten-thousandths of a cell in 65,536ths of it, to the nearest.
pub(crate) fn ten_thousandths(parts: u64) -> u64 {
    (parts.min(CELL) * 10_000 + CELL / 2) / CELL
}
