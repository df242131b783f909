//! A sink that clears the line of progress before it writes.

ghost use Rattle.std.specs.Prelude.{◌≡◌, ◌≤◌, ◌<◌, ◌+◌, ◌^◌, IfOk, IsFalse, OnErr, length, take};
ghost use Rattle.std.specs.Option.{is_some};
ghost use Rattle.aes3_cell.specs.Ends.{Grew};

use crate::progress::ERASE;
use aes3_cell::{Fault, Sink, write_all};
use std::cell::Cell;

/// A sink that erases a file's line of progress before anything is written in its place.
#[derive(Drop)]
pub struct Clearing<'a, T: Drop, E: Drop> {
    sink: T,
    errors: E,
    shown: &'a Cell<bool>,
    is_on: bool,
}

impl<'a, T: Sink + Drop, E: Sink + Drop> Clearing<'a, T, E> {
    /// Writes to `sink`. If a line is `shown` on standard error, it is erased before, through
    /// `errors`, but only if this sink `is_on`, because it is a terminal.
    pub fn new(sink: T, errors: E, shown: &'a Cell<bool>, is_on: bool) -> Self
        ensures sink { result.sink ≡ sink }
        ensures errors { result.errors ≡ errors }
        ensures on { result.is_on ≡ is_on }
    {
        Clearing {
            sink,
            errors,
            shown,
            is_on,
        }
    }
}

impl<T: Sink + Drop, E: Sink + Drop> Sink for Clearing<'_, T, E> {
    ghost taken = { λ c. T.taken c.sink };

    ghost passed = { λ c. T.passed c.sink };

    ghost failed = { λ c. T.failed c.sink };

    fn write(&mut self, buf: &[u8]) -> Result<usize, Fault>
        requires room { T.failed self.old.sink + 1 < 2 ^ 64 }
        ensures bound { IfOk result (λ n. n ≤ length buf.now) }
        ensures some { IfOk result (λ n. 0 < length buf.now → 0 < n) }
        ensures bytes { IfOk result (λ n. Grew (T.taken self.old.sink) (T.taken self.new.sink)
            (take n buf.now)) }
        ensures no_failure { IfOk result (λ _. T.failed self.new.sink ≡ T.failed self.old.sink) }
        ensures err { OnErr result ((T.failed self.new.sink ≡ T.failed self.old.sink + 1)
            × (T.taken self.new.sink ≡ T.taken self.old.sink)) }
        ensures tells { is_some (T.taken self.new.sink) ≡ is_some (T.taken self.old.sink) }
        ensures silent { IsFalse self.old.is_on
            → E.taken self.new.errors ≡ E.taken self.old.errors }
        ensures on { self.new.is_on ≡ self.old.is_on }
    {
        if self.is_on && self.shown.get() && self.errors.failures() == 0 {
            let _ = write_all(&mut self.errors, ERASE);
            self.shown.set(false);
        }
        self.sink.write(buf)
    }

    fn flush(&mut self) -> Result<(), Fault> {
        self.sink.flush()
    }

    fn failures(&self) -> u64 {
        self.sink.failures()
    }

    fn takes_much(&self) -> bool {
        self.sink.takes_much()
    }
}
