//! Stretches of a capture without signal.

ghost use Rattle.std.specs.Prelude.{◌≡◌, ◌+◌, ◌<◌, ◌≤◌};

/// How many stretches are kept.
pub(crate) const MOST: usize = 256;

/// A stretch without signal, or some of them with signal between.
#[derive(Clone, Copy)]
pub(crate) struct Stretch {
    /// The first sample, and the sample after the last.
    pub from: u64,
    pub to: u64,
    /// How many stretches these are.
    pub count: u64,
}

impl Stretch {
    /// This stretch and the next one.
    fn with(self, next: Stretch) -> Stretch {
        Stretch {
            from: self.from,
            to: next.to,
            count: self.count.saturating_add(next.count),
        }
    }
}

/// The stretches without signal, in their order. If there are too many, those become one that have
/// the least between them.
#[derive(Clone, Copy)]
pub(crate) struct Stretches {
    list: [Stretch; MOST],
    len: usize,
    ghost few: { len ≤ 256 },
}

impl Stretches {
    /// No stretches.
    pub(crate) fn new() -> Self
        ensures { result.len ≡ 0 }
    {
        let none = Stretch {
            from: 0,
            to: 0,
            count: 0,
        };
        Stretches {
            list: [none; MOST],
            len: 0,
        }
    }

    /// The stretches.
    pub(crate) fn list(&self) -> &[Stretch] {
        &self.list[..self.len]
    }

    /// Adds a stretch after the others.
    pub(crate) fn add(&mut self, from: u64, to: u64) {
        if self.len == MOST {
            self.join_nearest();
        }
        self.list[self.len] = Stretch { from, to, count: 1 };
        self.len += 1;
    }

    /// Makes one stretch of the two that have the least between them.
    fn join_nearest(&mut self)
        requires { self.old.len ≡ 256 }
        ensures { self.new.len ≡ 255 }
    {
        let first = nearest(&self.list);
        let mut list = self.list;
        list[first] = list[first].with(list[first + 1]);
        for i in first + 1..MOST - 1 {
            list[i] = list[i + 1];
        }
        self.list = list;
        self.len = MOST - 1;
    }
}

/// The stretch that has the least between it and the next.
fn nearest(list: &[Stretch; MOST]) -> usize
    ensures { result < 255 }
{
    let mut first = 0;
    let mut least = u64::MAX;
    for i in 0..MOST - 1 {
        let between = list[i + 1].from.saturating_sub(list[i].to);
        if between < least {
            least = between;
            first = i;
        }
    }
    first.min(MOST - 2)
}
