//! Sources and sinks in memory that fail from some call on, for tests.

ghost use Rattle.std.specs.Prelude.{◌≡◌, ◌+◌, ◌-◌, ◌≤◌, [], false};

use crate::ends::{Fault, Sink, Source};
use crate::memory::{MemorySink, MemorySource};
use std::alloc::Global;

/// Gives bytes from memory until call `first_fault`, counted from 1. That call and all later ones
/// fail.
#[derive(Drop)]
pub struct FailingSource<'a> {
    inner: MemorySource<'a>,
    calls_left: u64,
    failures: u64,
}

impl<'a> FailingSource<'a> {
    ghost use Rattle.aes3_cell.specs.Memory.{all_bytes, given_bytes, piece_of, source_ended};
    ghost use Rattle.aes3_cell.specs.Memory.{source_within, source_calls_left, source_failures};

    /// A source of these bytes, at most `piece` of them in a call.
    pub fn new(bytes: &'a [u8], piece: usize, first_fault: u64) -> Self
        requires some { 1 ≤ piece }
        requires call { 1 ≤ first_fault }
        ensures bytes { all_bytes (source_within result) ≡ bytes.now }
        ensures start { given_bytes (source_within result) ≡ [] }
        ensures open { source_ended (source_within result) ≡ false }
        ensures piece { piece_of (source_within result) ≡ piece }
        ensures calls { source_calls_left result ≡ first_fault - 1 }
        ensures fresh { source_failures result ≡ 0 }
    {
        FailingSource {
            inner: MemorySource::new(bytes, piece),
            calls_left: first_fault - 1,
            failures: 0,
        }
    }
}

impl<'a> Source for FailingSource<'a> {
    ghost use Rattle.std.specs.Prelude.{Some, ◌≡◌, ◌+◌, ◌-◌, ◌<◌, ◌≤◌, ◌^◌, ◌↔◌, length, take};
    ghost use Rattle.std.specs.Prelude.{IfOk, IsErr, OnErr, IsTrue};
    ghost use Rattle.aes3_cell.specs.Ends.{Grew};
    ghost use Rattle.aes3_cell.specs.Memory.{given_bytes, source_ended, source_within};
    ghost use Rattle.aes3_cell.specs.Memory.{source_calls_left, source_failures};

    ghost given = { λ s. Some (given_bytes (source_within s)) };

    ghost has_ended = { λ s. source_ended (source_within s) };

    ghost failed = { source_failures };

    fn read(&mut self, buf: &mut [u8]) -> Result<usize, Fault>
        requires room { source_failures self.old + 1 < 2 ^ 64 }
        ensures bound { IfOk result (λ n. n ≤ length buf.new) }
        ensures bytes { IfOk result (λ n. Grew (Some (given_bytes (source_within self.old)))
            (Some (given_bytes (source_within self.new))) (take n buf.new)) }
        ensures end { IfOk result (λ n. 0 < length buf.new
            → (n ≡ 0 ↔ IsTrue (source_ended (source_within self.new)))) }
        ensures no_failure { IfOk result (λ _. source_failures self.new ≡ source_failures self.old) }
        ensures err { OnErr result ((source_failures self.new ≡ source_failures self.old + 1)
            × (Some (given_bytes (source_within self.new))
            ≡ Some (given_bytes (source_within self.old)))) }
        ensures fails { IsErr result ↔ (source_calls_left self.old ≡ 0) }
        ensures calls { source_calls_left self.new ≡ source_calls_left self.old - 1 }
    {
        if self.calls_left == 0 {
            self.failures += 1;
            return Err(Fault);
        }
        self.calls_left -= 1;
        self.inner.read(buf)
    }

    fn failures(&self) -> u64 {
        self.failures
    }
}

/// Takes whole buffers into memory until call `first_fault`, counted from 1. That call and all
/// later ones fail.
#[derive(Drop)]
pub struct FailingSink {
    inner: MemorySink,
    calls_left: u64,
    failures: u64,
    ghost counted: { inner.failures ≤ failures },
}

impl FailingSink {
    ghost use Rattle.aes3_cell.specs.Memory.{taken_bytes, sink_within, sink_calls_left};
    ghost use Rattle.aes3_cell.specs.Memory.{failing_sink_failures};

    /// A sink that has taken nothing.
    pub fn new(alloc: Global, first_fault: u64) -> Self
        requires { 1 ≤ first_fault }
        ensures start { taken_bytes (sink_within result) ≡ [] }
        ensures fresh { failing_sink_failures result ≡ 0 }
        ensures calls { sink_calls_left result ≡ first_fault - 1 }
    {
        FailingSink {
            inner: MemorySink::new(alloc),
            calls_left: first_fault - 1,
            failures: 0,
        }
    }

    /// The bytes that it took.
    pub fn bytes(&self) -> &[u8]
        ensures { result.now ≡ taken_bytes (sink_within self.now) }
    {
        self.inner.bytes()
    }
}

impl Sink for FailingSink {
    ghost use Rattle.std.specs.Prelude.{Some, ◌≡◌, ◌+◌, ◌-◌, ◌<◌, ◌≤◌, ◌^◌, length, take, IfOk};
    ghost use Rattle.std.specs.Prelude.{IsErr, OnErr};
    ghost use Rattle.std.specs.Option.{is_some};
    ghost use Rattle.aes3_cell.specs.Ends.{Grew};
    ghost use Rattle.aes3_cell.specs.Memory.{taken_bytes, sink_within, sink_calls_left};
    ghost use Rattle.aes3_cell.specs.Memory.{failing_sink_failures};

    ghost taken = { λ s. Some (taken_bytes (sink_within s)) };

    // it holds nothing back
    ghost passed = { λ s. Some (taken_bytes (sink_within s)) };

    ghost failed = { failing_sink_failures };

    fn write(&mut self, buf: &[u8]) -> Result<usize, Fault>
        requires room { failing_sink_failures self.old + 1 < 2 ^ 64 }
        ensures bound { IfOk result (λ n. n ≤ length buf.now) }
        ensures some { IfOk result (λ n. 0 < length buf.now → 0 < n) }
        ensures bytes { IfOk result (λ n. Grew (Some (taken_bytes (sink_within self.old)))
            (Some (taken_bytes (sink_within self.new))) (take n buf.now)) }
        ensures no_failure { IfOk result (λ _. failing_sink_failures self.new
            ≡ failing_sink_failures self.old) }
        ensures err { OnErr result ((failing_sink_failures self.new
            ≡ failing_sink_failures self.old + 1)
            × (Some (taken_bytes (sink_within self.new))
            ≡ Some (taken_bytes (sink_within self.old)))) }
        ensures tells { is_some (Some (taken_bytes (sink_within self.new)))
            ≡ is_some (Some (taken_bytes (sink_within self.old))) }
        ensures all { IfOk result (λ n. n ≡ length buf.now) }

        // failed allocations are faults at earlier calls too
        ensures fails { sink_calls_left self.old ≡ 0 → IsErr result }
        ensures calls { sink_calls_left self.new ≡ sink_calls_left self.old - 1 }
    {
        if self.calls_left > 0 {
            self.calls_left -= 1;
            // if the inner sink fails to allocate, that counts as this sink's failure
            if let Ok(n) = self.inner.write(buf) {
                return Ok(n);
            }
        }
        self.failures += 1;
        Err(Fault)
    }

    /// It holds nothing back.
    fn flush(&mut self) -> Result<(), Fault> {
        Ok(())
    }

    fn failures(&self) -> u64 {
        self.failures
    }
}
