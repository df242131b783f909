//! The length of a cell over the time of a capture.

ghost use Rattle.std.specs.Prelude.{◌≡◌, ◌<◌, ◌≤◌, ◌^◌};

/// How many stretches of time a curve has at most.
pub(crate) const POINTS: usize = 512;

/// How many samples a point has at first, as a power of two.
const FIRST_SHIFT: u32 = 10;

/// What was measured in a stretch of time.
#[derive(Clone, Copy)]
pub(crate) struct Point {
    /// How many cells passed between edges that were followed.
    pub cells: u64,
    /// The time of these cells, in 2^-32 of a sample.
    pub time: u128,
}

/// No cells.
const NOTHING: Point = Point { cells: 0, time: 0 };

impl Point {
    /// What was measured in this stretch and the next one.
    fn with(self, next: Point) -> Point {
        Point {
            cells: self.cells.saturating_add(next.cells),
            time: self.time.saturating_add(next.time),
        }
    }

    /// The mean length of a cell, in 2^-32 of a sample; `None` without a cell.
    pub(crate) fn period(self) -> Option<u64> {
        if self.cells == 0 {
            return None;
        }
        let period = self.time / u128::from(self.cells);
        Some(period.min(u128::from(u64::MAX)) as u64)
    }
}

/// The length of a cell in stretches of time of equal length, from the first sample on. If all of
/// them are used, each two become one, so any capture fits.
#[derive(Clone, Copy)]
pub(crate) struct Periods {
    points: [Point; POINTS],
    /// How many samples a point has, as a power of two.
    shift: u32,
    ghost few: { shift < 64 },
}

impl Periods {
    /// Periods of no time.
    pub(crate) fn new() -> Self {
        Periods {
            points: [NOTHING; POINTS],
            shift: FIRST_SHIFT,
        }
    }

    /// How many samples a point has.
    pub(crate) fn samples_a_point(&self) -> u64 {
        1 << self.shift
    }

    /// The point of this number.
    pub(crate) fn point(&self, number: usize) -> Point {
        if number < POINTS {
            self.points[number]
        } else {
            NOTHING
        }
    }

    /// All points as one.
    pub(crate) fn whole(&self) -> Point {
        let mut whole = NOTHING;
        for point in self.points.iter() {
            whole = whole.with(*point);
        }
        whole
    }

    /// Adds cells of this length that passed up to an edge at this sample.
    pub(crate) fn add(&mut self, sample: u64, cells: u64, period: u64)
        requires cells { cells ≤ 2 ^ 20 }
        requires period { period ≤ 2 ^ 46 }
    {
        let shift = shift_for(sample);
        if shift > self.shift {
            self.grow(shift);
        }
        let at = (sample >> self.shift).min(POINTS as u64 - 1) as usize;
        let more = Point {
            cells,
            time: u128::from(cells) * u128::from(period),
        };
        self.points[at] = self.points[at].with(more);
    }

    /// Gives a point this many samples, as a power of two.
    fn grow(&mut self, shift: u32)
        requires { shift < 64 }
        ensures { self.new.shift ≡ shift }
    {
        let mut points = self.points;
        for _ in self.shift..shift {
            points = joined(&points);
        }
        self.points = points;
        self.shift = shift;
    }
}

/// How many samples a point has at least, as a power of two, if there is one for this sample.
fn shift_for(sample: u64) -> u32
    ensures { result < 64 }
{
    (64 - sample.leading_zeros()).saturating_sub(POINTS.ilog2())
}

/// Points of two of these points each, and no cells after them.
fn joined(points: &[Point; POINTS]) -> [Point; POINTS] {
    let mut joined = [NOTHING; POINTS];
    for i in 0..POINTS / 2 {
        joined[i] = points[2 * i].with(points[2 * i + 1]);
    }
    joined
}
