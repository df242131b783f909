//! A sink in memory that holds what it took until it is flushed, for tests.

ghost use Rattle.std.specs.Prelude.{◌≡◌, ◌≤◌, [], length};

use crate::ends::{Fault, Sink};
use crate::memory::MemorySink;
use std::alloc::Global;

/// Takes bytes into memory, and passes none of them on until it is flushed.
#[derive(Drop)]
pub struct HoldingSink {
    inner: MemorySink,
    passed: usize,
    ghost within: { passed ≤ length inner.bytes.items },
}

impl HoldingSink {
    ghost use Rattle.aes3_cell.specs.Memory.{taken_bytes, sink_failures, holding_within};
    ghost use Rattle.aes3_cell.specs.Memory.{passed_bytes};

    /// A sink that has taken nothing.
    pub fn new(alloc: Global) -> Self
        ensures start { taken_bytes (holding_within result) ≡ [] }
        ensures fresh { sink_failures (holding_within result) ≡ 0 }
    {
        HoldingSink {
            inner: MemorySink::new(alloc),
            passed: 0,
        }
    }

    /// The bytes that it took.
    pub fn bytes(&self) -> &[u8]
        ensures { result.now ≡ taken_bytes (holding_within self.now) }
    {
        self.inner.bytes()
    }

    /// The bytes that it has passed on.
    pub fn passed(&self) -> &[u8]
        ensures { result.now ≡ passed_bytes self.now }
    {
        &self.inner.bytes()[..self.passed]
    }
}

impl Sink for HoldingSink {
    ghost use Rattle.std.specs.Prelude.{Some, ◌≡◌, ◌+◌, ◌<◌, ◌≤◌, ◌^◌, length, take, IfOk, OnErr};
    ghost use Rattle.std.specs.Option.{is_some};
    ghost use Rattle.aes3_cell.specs.Ends.{Grew};
    ghost use Rattle.aes3_cell.specs.Memory.{taken_bytes, sink_failures, holding_within};
    ghost use Rattle.aes3_cell.specs.Memory.{passed_bytes};

    ghost taken = { λ s. Some (taken_bytes (holding_within s)) };

    ghost passed = { λ s. Some (passed_bytes s) };

    ghost failed = { λ s. sink_failures (holding_within s) };

    fn write(&mut self, buf: &[u8]) -> Result<usize, Fault>
        requires room { sink_failures (holding_within self.old) + 1 < 2 ^ 64 }
        ensures bound { IfOk result (λ n. n ≤ length buf.now) }
        ensures some { IfOk result (λ n. 0 < length buf.now → 0 < n) }
        ensures bytes { IfOk result (λ n. Grew (Some (taken_bytes (holding_within self.old)))
            (Some (taken_bytes (holding_within self.new))) (take n buf.now)) }
        ensures no_failure { IfOk result (λ _. sink_failures (holding_within self.new)
            ≡ sink_failures (holding_within self.old)) }
        ensures err { OnErr result ((sink_failures (holding_within self.new)
            ≡ sink_failures (holding_within self.old) + 1)
            × (Some (taken_bytes (holding_within self.new))
            ≡ Some (taken_bytes (holding_within self.old)))) }
        ensures tells { is_some (Some (taken_bytes (holding_within self.new)))
            ≡ is_some (Some (taken_bytes (holding_within self.old))) }
        ensures held { passed_bytes self.new ≡ passed_bytes self.old }
    {
        self.inner.write(buf)
    }

    fn flush(&mut self) -> Result<(), Fault> {
        self.passed = self.inner.bytes().len();
        Ok(())
    }

    fn failures(&self) -> u64 {
        self.inner.failures()
    }
}
