//! Sources and sinks in memory. They report their bytes.

ghost use Rattle.std.specs.Prelude.{◌≡◌, ℕ, ◌+◌, ◌<◌, ◌≤◌, ◌^◌, ◌↔◌, [], Some, List, Bool, false};
ghost use Rattle.std.specs.Prelude.{length, take, min, IfOk, OnErr, IsTrue};

use crate::ends::{Fault, Sink, Source};
use std::alloc::Global;

/// Gives bytes from memory, at most `piece` in a call.
#[derive(Drop)]
pub struct MemorySource<'a> {
    bytes: &'a [u8],
    at: usize,
    piece: usize,
    ended: bool,
    ghost within: { at ≤ length bytes.now },
    ghost some: { 0 < piece },
    pub ghost all_given: { IsTrue ended → at ≡ length bytes.now },
}

impl<'a> MemorySource<'a> {
    ghost use Rattle.aes3_cell.specs.Memory.{all_bytes, given_bytes, piece_of, source_ended};

    /// A source of these bytes, none of which it has given.
    pub fn new(bytes: &'a [u8], piece: usize) -> Self
        requires { 0 < piece }
        ensures bytes { all_bytes result ≡ bytes.now }
        ensures start { given_bytes result ≡ [] }
        ensures open { source_ended result ≡ false }
        ensures piece { piece_of result ≡ piece }
    {
        MemorySource {
            bytes,
            at: 0,
            piece,
            ended: false,
        }
    }
}

/// The least of three lengths.
pub(crate) fn smallest(a: usize, b: usize, c: usize) -> usize
    ensures { result ≡ min (min a b) c }
{
    a.min(b).min(c)
}

impl<'a> Source for MemorySource<'a> {
    ghost use Rattle.std.specs.Prelude.{Some, ◌≡◌, ◌+◌, ◌<◌, ◌≤◌, ◌^◌, ◌↔◌, ◌-◌, length, take, min};
    ghost use Rattle.std.specs.Prelude.{IfOk, IsOk, OnErr, IsTrue};
    ghost use Rattle.aes3_cell.specs.Ends.{Grew};
    ghost use Rattle.aes3_cell.specs.Memory.{all_bytes, given_bytes, piece_of, source_ended};
    ghost use Rattle.aes3_cell.specs.Memory.{memory_failures};

    ghost given = { λ s. Some (given_bytes s) };

    ghost has_ended = { source_ended };

    ghost failed = { memory_failures };

    fn read(&mut self, buf: &mut [u8]) -> Result<usize, Fault>
        requires room { memory_failures self.old + 1 < 2 ^ 64 }
        ensures bound { IfOk result (λ n. n ≤ length buf.new) }
        ensures bytes { IfOk result (λ n. Grew (Some (given_bytes self.old))
            (Some (given_bytes self.new)) (take n buf.new)) }
        ensures end { IfOk result (λ n. 0 < length buf.new
            → (n ≡ 0 ↔ IsTrue (source_ended self.new))) }
        ensures no_failure { IfOk result (λ _. memory_failures self.new ≡ memory_failures self.old) }
        ensures err { OnErr result ((memory_failures self.new ≡ memory_failures self.old + 1)
            × (Some (given_bytes self.new) ≡ Some (given_bytes self.old))) }
        ensures ok { IsOk result }
        ensures piece { IfOk result (λ n. n ≤ piece_of self.old) }
        ensures unchanged { all_bytes self.new ≡ all_bytes self.old }
    {
        let n = smallest(self.bytes.len() - self.at, buf.len(), self.piece);
        buf[..n].copy_from_slice(&self.bytes[self.at..self.at + n]);
        if !buf.is_empty() {
            self.ended = n == 0;
        }
        self.at += n;
        Ok(n)
    }

    fn failures(&self) -> u64 {
        0
    }
}

/// Takes bytes into memory, all of each buffer. A failed allocation counts as its failure.
#[derive(Drop)]
pub struct MemorySink {
    bytes: Vec<u8>,
    failures: u64,
}

impl MemorySink {
    ghost use Rattle.aes3_cell.specs.Memory.{taken_bytes, sink_failures};

    /// A sink that has taken nothing.
    pub fn new(alloc: Global) -> Self
        ensures start { taken_bytes result ≡ [] }
        ensures fresh { sink_failures result ≡ 0 }
    {
        MemorySink {
            bytes: Vec::new(alloc),
            failures: 0,
        }
    }

    /// The bytes that it took.
    pub fn bytes(&self) -> &[u8]
        ensures { result.now ≡ taken_bytes self.now }
    {
        self.bytes.as_slice()
    }
}

impl Sink for MemorySink {
    ghost use Rattle.std.specs.Prelude.{Some, ◌≡◌, ◌+◌, ◌<◌, ◌≤◌, ◌^◌, length, take, IfOk, OnErr};
    ghost use Rattle.std.specs.Option.{is_some};
    ghost use Rattle.aes3_cell.specs.Ends.{Grew};
    ghost use Rattle.aes3_cell.specs.Memory.{taken_bytes, sink_failures};

    ghost taken = { λ s. Some (taken_bytes s) };

    // it holds nothing back
    ghost passed = { λ s. Some (taken_bytes s) };

    ghost failed = { sink_failures };

    fn write(&mut self, buf: &[u8]) -> Result<usize, Fault>
        requires room { sink_failures self.old + 1 < 2 ^ 64 }
        ensures bound { IfOk result (λ n. n ≤ length buf.now) }
        ensures some { IfOk result (λ n. 0 < length buf.now → 0 < n) }
        ensures bytes { IfOk result (λ n. Grew (Some (taken_bytes self.old))
            (Some (taken_bytes self.new)) (take n buf.now)) }
        ensures no_failure { IfOk result (λ _. sink_failures self.new ≡ sink_failures self.old) }
        ensures err { OnErr result ((sink_failures self.new ≡ sink_failures self.old + 1)
            × (Some (taken_bytes self.new) ≡ Some (taken_bytes self.old))) }
        ensures tells { is_some (Some (taken_bytes self.new))
            ≡ is_some (Some (taken_bytes self.old)) }
        ensures all { IfOk result (λ n. n ≡ length buf.now) }
    {
        match self.bytes.extend_from_slice(buf) {
            Ok(()) => Ok(buf.len()),
            Err(_) => {
                self.failures += 1;
                Err(Fault)
            }
        }
    }

    /// It holds nothing back.
    fn flush(&mut self) -> Result<(), Fault> {
        Ok(())
    }

    fn failures(&self) -> u64 {
        self.failures
    }
}
