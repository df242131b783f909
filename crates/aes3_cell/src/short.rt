//! A sink in memory that takes few bytes in a call, for tests.

ghost use Rattle.std.specs.Prelude.{◌≡◌, ◌<◌, []};

use crate::ends::{Fault, Sink};
use crate::memory::MemorySink;
use std::alloc::Global;

/// Takes bytes into memory, at most `most` in a call.
#[derive(Drop)]
pub struct ShortSink {
    inner: MemorySink,
    most: usize,
    ghost some: { 0 < most },
}

impl ShortSink {
    ghost use Rattle.aes3_cell.specs.Memory.{taken_bytes, sink_failures, short_within, most_of};

    /// A sink that has taken nothing.
    pub fn new(alloc: Global, most: usize) -> Self
        requires { 0 < most }
        ensures start { taken_bytes (short_within result) ≡ [] }
        ensures fresh { sink_failures (short_within result) ≡ 0 }
        ensures most { most_of result ≡ most }
    {
        ShortSink {
            inner: MemorySink::new(alloc),
            most,
        }
    }

    /// The bytes that it took.
    pub fn bytes(&self) -> &[u8]
        ensures { result.now ≡ taken_bytes (short_within self.now) }
    {
        self.inner.bytes()
    }
}

impl Sink for ShortSink {
    ghost use Rattle.std.specs.Prelude.{Some, ◌≡◌, ◌+◌, ◌<◌, ◌≤◌, ◌^◌, length, take, min, IfOk};
    ghost use Rattle.std.specs.Prelude.{OnErr};
    ghost use Rattle.std.specs.Option.{is_some};
    ghost use Rattle.aes3_cell.specs.Ends.{Grew};
    ghost use Rattle.aes3_cell.specs.Memory.{taken_bytes, sink_failures, short_within, most_of};

    ghost taken = { λ s. Some (taken_bytes (short_within s)) };

    // it holds nothing back
    ghost passed = { λ s. Some (taken_bytes (short_within s)) };

    ghost failed = { λ s. sink_failures (short_within s) };

    fn write(&mut self, buf: &[u8]) -> Result<usize, Fault>
        requires room { sink_failures (short_within self.old) + 1 < 2 ^ 64 }
        ensures bound { IfOk result (λ n. n ≤ length buf.now) }
        ensures some { IfOk result (λ n. 0 < length buf.now → 0 < n) }
        ensures bytes { IfOk result (λ n. Grew (Some (taken_bytes (short_within self.old)))
            (Some (taken_bytes (short_within self.new))) (take n buf.now)) }
        ensures no_failure { IfOk result (λ _. sink_failures (short_within self.new)
            ≡ sink_failures (short_within self.old)) }
        ensures err { OnErr result ((sink_failures (short_within self.new)
            ≡ sink_failures (short_within self.old) + 1)
            × (Some (taken_bytes (short_within self.new))
            ≡ Some (taken_bytes (short_within self.old)))) }
        ensures tells { is_some (Some (taken_bytes (short_within self.new)))
            ≡ is_some (Some (taken_bytes (short_within self.old))) }
        ensures most { IfOk result (λ n. n ≡ min (length buf.now) (most_of self.old)) }
        ensures unchanged { most_of self.new ≡ most_of self.old }
    {
        self.inner.write(&buf[..buf.len().min(self.most)])
    }

    /// It holds nothing back.
    fn flush(&mut self) -> Result<(), Fault> {
        Ok(())
    }

    fn failures(&self) -> u64 {
        self.inner.failures()
    }
}
