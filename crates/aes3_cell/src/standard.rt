//! Sources and sinks over std's readers and writers. They don't report their bytes.

ghost use Rattle.std.specs.Prelude.{◌≡◌, ◌≤◌, ◌<◌, ◌+◌, ◌^◌, ◌↔◌, false};
ghost use Rattle.std.specs.Prelude.{IfOk, IsTrue, OnErr, length, take};
ghost use Rattle.std.specs.Io.KnownBytes.{ReadConsumes, WriteAppends};
ghost use Rattle.std.specs.Option.{is_some};
ghost use Rattle.aes3_cell.specs.Attempts.{Flushed, PassedOn, Retried};
ghost use Rattle.aes3_cell.specs.Ends.{Grew, untold};

use crate::attempts::{Reader, Writer, read_again, write_again};
use crate::ends::{Fault, Sink, Source};

/// A source over a reader.
#[derive(Drop)]
pub struct StdSource<R: Drop> {
    reader: R,
    ended: bool,
    failures: u64,
}

impl<R: Reader + Drop> StdSource<R> {
    /// A source of what the reader gives.
    pub fn new(reader: R) -> Self
        ensures reader { result.reader ≡ reader }
        ensures open { result.ended ≡ false }
        ensures fresh { result.failures ≡ 0 }
    {
        StdSource {
            reader,
            ended: false,
            failures: 0,
        }
    }
}

impl<R: Reader + Drop> Source for StdSource<R> {
    ghost given = { λ _. untold };

    ghost has_ended = { λ s. s.ended };

    ghost failed = { λ s. s.failures };

    /// Gives what the reader gives, and tries again if a signal interrupts it. If the reader
    /// reports which bytes it has left, exactly the first of these are given, and none only at
    /// their end.
    fn read(&mut self, buf: &mut [u8]) -> Result<usize, Fault>
        requires room { self.old.failures + 1 < 2 ^ 64 }
        ensures bound { IfOk result (λ n. n ≤ length buf.new) }
        ensures bytes { IfOk result (λ n. Grew untold untold (take n buf.new)) }
        ensures end { IfOk result (λ n. 0 < length buf.new → (n ≡ 0 ↔ IsTrue self.new.ended)) }
        ensures no_failure { IfOk result (λ _. self.new.failures ≡ self.old.failures) }
        ensures err { OnErr result ((self.new.failures ≡ self.old.failures + 1)
            × (untold ≡ untold)) }
        ensures reads { ReadConsumes (R.left self.old.reader) (R.left self.new.reader) result
            buf.new }
        ensures met { Retried (R.met self.old.reader) (R.met self.new.reader) result }
    {
        match read_again(&mut self.reader, buf) {
            Ok(count) => {
                self.ended = count == 0;
                Ok(count)
            }
            Err(fault) => {
                self.failures += 1;
                Err(fault)
            }
        }
    }

    fn failures(&self) -> u64 {
        self.failures
    }
}

/// A sink over a writer. A write that takes no byte is a failure.
#[derive(Drop)]
pub struct StdSink<W: Drop> {
    writer: W,
    failures: u64,
}

impl<W: Writer + Drop> StdSink<W> {
    /// A sink that passes its bytes on to the writer.
    pub fn new(writer: W) -> Self
        ensures writer { result.writer ≡ writer }
        ensures fresh { result.failures ≡ 0 }
    {
        StdSink {
            writer,
            failures: 0,
        }
    }
}

impl<W: Writer + Drop> Sink for StdSink<W> {
    ghost taken = { λ _. untold };

    ghost passed = { λ _. untold };

    ghost failed = { λ s. s.failures };

    /// Passes bytes on to the writer, and tries again if a signal interrupts it. If the writer
    /// reports which bytes it holds, these grow by exactly the bytes that count as taken.
    fn write(&mut self, buf: &[u8]) -> Result<usize, Fault>
        requires room { self.old.failures + 1 < 2 ^ 64 }
        ensures bound { IfOk result (λ n. n ≤ length buf.now) }
        ensures some { IfOk result (λ n. 0 < length buf.now → 0 < n) }
        ensures bytes { IfOk result (λ n. Grew untold untold (take n buf.now)) }
        ensures no_failure { IfOk result (λ _. self.new.failures ≡ self.old.failures) }
        ensures err { OnErr result ((self.new.failures ≡ self.old.failures + 1)
            × (untold ≡ untold)) }
        ensures tells { is_some untold ≡ is_some untold }
        ensures writes { WriteAppends (W.held self.old.writer) (W.held self.new.writer) result
            buf.now }
        ensures met { Retried (W.met self.old.writer) (W.met self.new.writer) result }
    {
        if buf.is_empty() {
            return Ok(0);
        }
        match write_again(&mut self.writer, buf) {
            Ok(count) => Ok(count),
            Err(fault) => {
                self.failures += 1;
                Err(fault)
            }
        }
    }

    /// Makes the writer pass on what it took.
    fn flush(&mut self) -> Result<(), Fault>
        requires room { self.old.failures + 1 < 2 ^ 64 }
        ensures bytes { untold ≡ untold }
        ensures passed_on { IfOk result (λ _. untold ≡ untold) }
        ensures no_failure { IfOk result (λ _. self.new.failures ≡ self.old.failures) }
        ensures err { OnErr result (self.new.failures ≡ self.old.failures + 1) }
        ensures flushes { IfOk result (λ _. PassedOn (W.held self.new.writer)
            (W.passed self.new.writer)) }
        ensures met { Flushed (W.met self.old.writer) (W.met self.new.writer) result }
    {
        match self.writer.try_flush() {
            Ok(()) => Ok(()),
            Err(_) => {
                self.failures += 1;
                Err(Fault)
            }
        }
    }

    fn failures(&self) -> u64 {
        self.failures
    }

    fn takes_much(&self) -> bool {
        true
    }
}
