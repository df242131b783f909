//! Numbers as a picture has them.

ghost use Rattle.std.specs.Prelude.{◌≤◌};

use std::fmt;

/// A number that is given in tenths, as places in a picture are.
#[derive(Clone, Copy)]
pub(crate) struct Tenths(pub u64);

impl fmt::Display for Tenths {
    fn fmt<W: fmt::Write>(&self, f: &mut fmt::Formatter<W>) -> fmt::Result {
        write!(f, "{}.{}", self.0 / 10, self.0 % 10)
    }
}

/// A number of unit intervals that is given in ten-thousandths.
#[derive(Clone, Copy)]
pub(crate) struct Intervals(pub u64);

impl fmt::Display for Intervals {
    fn fmt<W: fmt::Write>(&self, f: &mut fmt::Formatter<W>) -> fmt::Result {
        write!(f, "{}.{:04}", self.0 / 10_000, self.0 % 10_000)
    }
}

/// A number with its digits in groups of three.
#[derive(Clone, Copy)]
pub(crate) struct Grouped(pub u64);

impl fmt::Display for Grouped {
    fn fmt<W: fmt::Write>(&self, f: &mut fmt::Formatter<W>) -> fmt::Result {
        let mut group: u64 = 1_000_000_000_000_000_000;
        let mut is_begun = false;
        for _ in 0..7 {
            let part = self.0 / group.max(1) % 1000;
            if is_begun {
                write!(f, ",{part:03}")?;
            } else if part > 0 || group <= 1 {
                write!(f, "{part}")?;
                is_begun = true;
            }
            group /= 1000;
        }
        Ok(())
    }
}

/// `len` times `part / whole`, rounded down; at most `len`.
pub(crate) fn share(part: u64, whole: u64, len: u64) -> u64
    ensures { result ≤ len }
{
    let share = u128::from(part) * u128::from(len) / u128::from(whole.max(1));
    share.min(u128::from(len)) as u64
}

/// The least of 1, 2, 5, 10, 20, 50 and so on that is at least this number.
pub(crate) fn round_up(number: u64) -> u64 {
    let mut unit: u64 = 1;
    for _ in 0..19 {
        for first in [1, 2, 5] {
            let round = unit.saturating_mul(first);
            if round >= number {
                return round;
            }
        }
        unit = unit.saturating_mul(10);
    }
    unit
}
