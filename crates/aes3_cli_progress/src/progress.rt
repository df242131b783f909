//! The progress of reading a long file, on a terminal.

ghost use Rattle.std.specs.Prelude.{◌≡◌, ◌≤◌, ◌<◌, ◌+◌, ◌^◌, ◌↔◌, IsTrue, IfOk, OnErr, None, length, take};
ghost use Rattle.aes3_cell.specs.Ends.{Grew};
ghost use Rattle.aes3_cli_progress.specs.Progresses.{percent, rate};

use crate::unit::Unit;
use aes3_cell::{Fault, Sink, Source, write_all};
use std::alloc::Global;
use std::cell::Cell;
use std::time::{Clock, Instant};

/// The sequence that erases a terminal's line from the cursor on.
pub(crate) const ERASE: &[u8] = b"\x1B[K";

/// How many percent of a file of `len` bytes its first `bytes` bytes are.
fn percent(bytes: u64, len: u64) -> u128
    ensures { result ≡ percent bytes len }
{
    (u128::from(bytes) * 100 / u128::from(len.max(1))).min(100)
}

/// How many millions of bytes per second these bytes are, read in `micros` microseconds.
fn rate(bytes: u64, micros: u128) -> u128
    ensures { result ≡ rate bytes micros }
{
    u128::from(bytes) / micros.max(1)
}

/// The progress of reading a file, as it is reported.
#[derive(Clone, Copy)]
pub struct Course {
    begun: Instant,
    len: u64,
    unit: Unit,
    /// How many bytes were read, and how many of them count.
    bytes: u64,
    counted: u64,
    /// The second, from the beginning, in which it was last reported.
    second: u64,
}

impl Course {
    /// The progress of a file of `len` bytes, begun now; `None` without a clock.
    pub fn new(clock: &impl Clock, len: u64, unit: Unit) -> Option<Self> {
        let begun = Instant::now(clock).ok()?;
        Some(Course {
            begun,
            len,
            unit,
            bytes: 0,
            counted: 0,
            second: 0,
        })
    }

    /// The progress after these bytes.
    fn with(self, bytes: &[u8]) -> Self {
        Course {
            bytes: self.bytes.saturating_add(bytes.len() as u64),
            counted: self.counted.saturating_add(self.unit.count(bytes)),
            ..self
        }
    }

    /// The line of progress; the cursor then is at its beginning. `None` if there is no memory.
    fn line(self, alloc: Global, micros: u128) -> Option<String> {
        let percent = percent(self.bytes, self.len);
        let rate = rate(self.bytes, micros);
        let line = match self.unit {
            Unit::Samples => format!(in alloc; "aes3-cells: {percent} %, {rate} MB/s\x1B[K\r"),
            unit => {
                let blocks = unit.blocks(self.counted);
                format!(in alloc; "aes3: {percent} %, {rate} MB/s, {blocks} blocks\x1B[K\r")
            }
        };
        line.ok()
    }
}

/// A source that reports on a terminal how far it has been read, once a second, if it is a file. It
/// erases the line at the end.
#[derive(Drop)]
pub struct Progress<'a, C: Drop, S: Drop, T: Drop> {
    alloc: Global,
    clock: C,
    source: S,
    sink: T,
    shown: &'a Cell<bool>,
    course: Option<Course>,
}

impl<'a, C: Clock + Drop, S: Source + Drop, T: Sink + Drop> Progress<'a, C, S, T> {
    /// Reports to `sink`, which is standard error, on this source, if there is a `course`. `shown`
    /// says whether a line is there.
    pub fn new(
        alloc: Global,
        clock: C,
        source: S,
        sink: T,
        shown: &'a Cell<bool>,
        course: Option<Course>,
    ) -> Self
        ensures source { result.source ≡ source }
        ensures sink { result.sink ≡ sink }
        ensures course { result.course ≡ course }
    {
        Progress {
            alloc,
            clock,
            source,
            sink,
            shown,
            course,
        }
    }

    /// The source that it reports on.
    pub fn source(&self) -> &S
        ensures { result.now ≡ self.now.source }
    {
        &self.source
    }

    /// Erases the line.
    pub fn end(&mut self)
        ensures silent { self.old.course ≡ None → T.taken self.new.sink ≡ T.taken self.old.sink }
        ensures source { self.new.source ≡ self.old.source }
        ensures course { self.new.course ≡ self.old.course }
    {
        if self.course.is_some() && self.shown.get() {
            self.tell(ERASE);
            self.shown.set(false);
        }
    }

    /// Counts the bytes that were read, and reports if a new second has begun.
    fn go_on(&mut self, bytes: &[u8])
        ensures silent { self.old.course ≡ None → T.taken self.new.sink ≡ T.taken self.old.sink }
        ensures off { self.old.course ≡ None → self.new.course ≡ None }
        ensures source { self.new.source ≡ self.old.source }
    {
        let Some(course) = self.course else {
            return;
        };
        let mut course = course.with(bytes);
        if let Ok(passed) = course.begun.elapsed(&self.clock)
            && passed.as_secs() > course.second
        {
            course.second = passed.as_secs();
            if let Some(line) = course.line(self.alloc, passed.as_micros()) {
                self.tell(line.as_bytes());
                self.shown.set(true);
            }
        }
        self.course = Some(course);
    }

    /// Writes these bytes, unless writing has failed before.
    fn tell(&mut self, bytes: &[u8])
        ensures source { self.new.source ≡ self.old.source }
        ensures course { self.new.course ≡ self.old.course }
    {
        if self.sink.failures() == 0 {
            let _ = write_all(&mut self.sink, bytes);
        }
    }
}

impl<C: Clock + Drop, S: Source + Drop, T: Sink + Drop> Source for Progress<'_, C, S, T> {
    ghost given = { λ p. S.given p.source };

    ghost has_ended = { λ p. S.has_ended p.source };

    ghost failed = { λ p. S.failed p.source };

    fn read(&mut self, buf: &mut [u8]) -> Result<usize, Fault>
        requires room { S.failed self.old.source + 1 < 2 ^ 64 }
        ensures bound { IfOk result (λ n. n ≤ length buf.new) }
        ensures bytes { IfOk result (λ n. Grew (S.given self.old.source) (S.given self.new.source) (take n buf.new)) }
        ensures end { IfOk result (λ n. 0 < length buf.new
            → (n ≡ 0 ↔ IsTrue (S.has_ended self.new.source))) }
        ensures no_failure { IfOk result (λ _. S.failed self.new.source ≡ S.failed self.old.source) }
        ensures err { OnErr result ((S.failed self.new.source ≡ S.failed self.old.source + 1)
            × (S.given self.new.source ≡ S.given self.old.source)) }
        ensures silent { self.old.course ≡ None → T.taken self.new.sink ≡ T.taken self.old.sink }
        ensures off { self.old.course ≡ None → self.new.course ≡ None }
    {
        let answer = self.source.read(buf);
        match answer {
            Ok(0) | Err(_) => self.end(),
            Ok(n) => self.go_on(&buf[..n]),
        }
        answer
    }

    fn failures(&self) -> u64 {
        self.source.failures()
    }
}
