//! Sources and sinks of bytes.

ghost use Rattle.std.specs.Prelude.{◌≡◌, ℕ, ◌+◌, ◌<◌, ◌≤◌, ◌^◌, ◌↔◌, List, Option, Bool, length};
ghost use Rattle.std.specs.Prelude.{take, IfOk, OnErr, IsTrue, if◌then◌else◌, []};
ghost use Rattle.std.specs.Option.{is_some};
ghost use Rattle.std.specs.List.{flat_map};
ghost use Rattle.aes3_cell.specs.Ends.{Grew, GrewFront};
ghost use Rattle.aes3_level.specs.Words.{word_cells};
ghost use Rattle.aes3_cell.specs.Writes.{Wrote};
ghost use Rattle.aes3_cell.specs.Written.{bytes_of};

use crate::form::Form;
use crate::word::MANY;

/// A device's fault. No byte was moved.
#[derive(Clone, Copy, PartialEq, Eq)]
pub struct Fault;

/// Gives bytes, in pieces of any size.
///
/// The contract speaks of all bytes given so far (`given`), if the source reports them. It also
/// speaks of whether the source has ended, and of how often it failed.
pub trait Source {
    ghost given: { Self → Option (List ℕ) };

    ghost has_ended: { Self → Bool };

    ghost failed: { Self → ℕ };

    /// Puts bytes into the front of `buf` and returns how many. If `buf` is not empty, that is at
    /// least one, or none at the end.
    fn read(&mut self, buf: &mut [u8]) -> Result<usize, Fault>
        requires room { failed self.old + 1 < 2 ^ 64 }
        ensures bound { IfOk result (λ n. n ≤ length buf.new) }
        ensures bytes { IfOk result (λ n. Grew (given self.old) (given self.new) (take n buf.new)) }
        ensures end { IfOk result (λ n. 0 < length buf.new → (n ≡ 0 ↔ IsTrue (has_ended self.new))) }
        ensures no_failure { IfOk result (λ _. failed self.new ≡ failed self.old) }
        ensures err { OnErr result ((failed self.new ≡ failed self.old + 1)
            × (given self.new ≡ given self.old)) };

    /// How often the source has failed.
    fn failures(&self) -> u64
        ensures { result ≡ failed self.now };
}

/// Takes bytes, in pieces of any size. It may hold some of them until it is flushed.
///
/// The contract speaks of all bytes taken so far (`taken`), if the sink reports them, which it does
/// always or never. Likewise it speaks of those that the sink has passed on (`passed`). It also
/// speaks of how often the sink failed.
pub trait Sink {
    ghost taken: { Self → Option (List ℕ) };

    ghost passed: { Self → Option (List ℕ) };

    ghost failed: { Self → ℕ };

    /// Takes bytes from the front of `buf` and returns how many: at least one if `buf` is not
    /// empty.
    fn write(&mut self, buf: &[u8]) -> Result<usize, Fault>
        requires room { failed self.old + 1 < 2 ^ 64 }
        ensures bound { IfOk result (λ n. n ≤ length buf.now) }
        ensures some { IfOk result (λ n. 0 < length buf.now → 0 < n) }
        ensures bytes { IfOk result (λ n. Grew (taken self.old) (taken self.new) (take n buf.now)) }
        ensures no_failure { IfOk result (λ _. failed self.new ≡ failed self.old) }
        ensures err { OnErr result ((failed self.new ≡ failed self.old + 1)
            × (taken self.new ≡ taken self.old)) }
        ensures tells { is_some (taken self.new) ≡ is_some (taken self.old) };

    /// Passes on the bytes that it took and still holds.
    fn flush(&mut self) -> Result<(), Fault>
        requires room { failed self.old + 1 < 2 ^ 64 }
        ensures bytes { taken self.new ≡ taken self.old }
        ensures passed_on { IfOk result (λ _. passed self.new ≡ taken self.new) }
        ensures no_failure { IfOk result (λ _. failed self.new ≡ failed self.old) }
        ensures err { OnErr result (failed self.new ≡ failed self.old + 1) };

    /// How often the sink has failed.
    fn failures(&self) -> u64
        ensures { result ≡ failed self.now };

    /// Whether the sink prefers many bytes at once; if so, lines are gathered for it.
    fn takes_much(&self) -> bool {
        false
    }

    /// Takes the cells of 16 words at once, and returns true. This default takes none, and returns
    /// false.
    ///
    /// # Errors
    /// The sink's fault; then it has taken a front of their bytes.
    fn put_many(&mut self, form: Form, words: &[u64; MANY]) -> Result<bool, Fault>
        requires room { failed self.old + 1 < 2 ^ 64 }
        ensures cells { IfOk result (λ took. Grew (taken self.old) (taken self.new)
            (if took then bytes_of form (flat_map word_cells words.now) else [])) }
        ensures no_failure { IfOk result (λ _. failed self.new ≡ failed self.old) }
        ensures err { OnErr result ((failed self.new ≡ failed self.old + 1)
            × GrewFront (taken self.old) (taken self.new)
            (bytes_of form (flat_map word_cells words.now))) }
    {
        Ok(false)
    }
}

/// Writes all the bytes to the sink, with further calls for what it left.
///
/// # Errors
/// The sink's fault; then it has taken a front of the bytes.
pub fn write_all<T: Sink>(sink: &mut T, bytes: &[u8]) -> Result<(), Fault>
    requires room { T.failed sink.old + 1 < 2 ^ 64 }
    ensures { Wrote T.taken T.failed sink.old sink.new bytes.now result }
{
    let mut at = 0;
    while at < bytes.len() {
        at += sink.write(&bytes[at..])?;
    }
    Ok(())
}
