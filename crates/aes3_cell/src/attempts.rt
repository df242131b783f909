//! Reads and writes that are tried again if a signal interrupts them.

ghost use Rattle.std.specs.Prelude.{◌≡◌, ◌<◌, ◌≤◌, ◌↔◌, ℕ, List, Option, length, Ok};
ghost use Rattle.std.specs.Prelude.{IfOk, IfErr, IsErr, IsOk};
ghost use Rattle.std.specs.IoError.{error_kind};
ghost use Rattle.std.specs.Io.KnownBytes.{ReadConsumes, WriteAppends};
ghost use Rattle.aes3_cell.specs.declared.attempts.Trouble.{Trouble};
ghost use Rattle.aes3_cell.specs.Attempts.{Met, PassedOn, Retried, troubles_of, untroubled};
ghost use Rattle.aes3_cell.specs.Ends.{untold};

use crate::ends::Fault;
use std::io;
use std::io::{ErrorKind, Read, Write};

/// How often a read or a write is tried.
const TRIES: u32 = 1_000_000;

/// Why a read or a write moved no byte.
#[derive(Clone, Copy)]
pub enum Trouble {
    /// A signal interrupted it.
    Interrupted,
    /// The device failed.
    Failed,
}

/// Gives bytes; a signal may interrupt it.
///
/// The contract speaks of the bytes that it has left (`left`) and of the troubles so far (`met`),
/// if the reader reports these.
pub trait Reader {
    ghost left: { Self → Option (List ℕ) };

    ghost met: { Self → Option (List Trouble) };

    /// Tries once to put bytes into the front of `buf`, and returns how many.
    fn try_read(&mut self, buf: &mut [u8]) -> Result<usize, Trouble>
        ensures bound { IfOk result (λ n. n ≤ length buf.new) }
        ensures bytes { ReadConsumes (left self.old) (left self.new) result buf.new }
        ensures met { Met (met self.old) (met self.new) (troubles_of result) };
}

/// Takes bytes; a signal may interrupt it.
///
/// The contract speaks of three things, if the writer reports these. They are the bytes that it
/// took (`held`), those that it has passed on (`passed`), and the troubles so far (`met`).
pub trait Writer {
    ghost held: { Self → Option (List ℕ) };

    ghost passed: { Self → Option (List ℕ) };

    ghost met: { Self → Option (List Trouble) };

    /// Tries once to take bytes from the front of `buf`, and returns how many: at least one.
    fn try_write(&mut self, buf: &[u8]) -> Result<usize, Trouble>
        ensures bound { IfOk result (λ n. n ≤ length buf.now) }
        ensures some { IfOk result (λ n. 0 < n) }
        ensures bytes { WriteAppends (held self.old) (held self.new) result buf.now }
        ensures met { Met (met self.old) (met self.new) (troubles_of result) };

    /// Tries once to pass on what it took.
    fn try_flush(&mut self) -> Result<(), Trouble>
        ensures passed_on { IfOk result (λ _. PassedOn (held self.new) (passed self.new)) }
        ensures met { Met (met self.old) (met self.new) (troubles_of result) };
}

/// What an error of std's readers and writers means.
fn trouble_of(error: &io::Error) -> Trouble
    ensures { result ≡ Trouble.Interrupted ↔ error_kind error.now ≡ ErrorKind.Interrupted }
{
    if error.kind() == ErrorKind::Interrupted {
        Trouble::Interrupted
    } else {
        Trouble::Failed
    }
}

/// What the result of a reader means.
fn answer_of_read(answer: io::Result<usize>) -> Result<usize, Trouble>
    ensures ok { IfOk answer (λ n. result ≡ Ok n) }
    ensures err { IfErr answer (λ _. IsErr result) }
    ensures trouble { IfErr answer (λ error. IfErr result (λ trouble. trouble ≡ Trouble.Interrupted
        ↔ error_kind error ≡ ErrorKind.Interrupted)) }
{
    match answer {
        Ok(count) => Ok(count),
        Err(error) => Err(trouble_of(&error)),
    }
}

/// What the result of a writer means: taking no byte is a failure.
fn answer_of_write(answer: io::Result<usize>) -> Result<usize, Trouble>
    ensures ok { IfOk answer (λ n. 0 < n → result ≡ Ok n) }
    ensures none { IfOk answer (λ n. n ≡ 0 → result ≡ Err Trouble.Failed) }
    ensures err { IfErr answer (λ _. IsErr result) }
    ensures trouble { IfErr answer (λ error. IfErr result (λ trouble. trouble ≡ Trouble.Interrupted
        ↔ error_kind error ≡ ErrorKind.Interrupted)) }
{
    match answer {
        Ok(0) => Err(Trouble::Failed),
        Ok(count) => Ok(count),
        Err(error) => Err(trouble_of(&error)),
    }
}

/// What the result of a flush means.
fn answer_of_flush(answer: io::Result<()>) -> Result<(), Trouble>
    ensures ok { IsOk answer → IsOk result }
    ensures err { IfErr answer (λ _. IsErr result) }
    ensures trouble { IfErr answer (λ error. IfErr result (λ trouble. trouble ≡ Trouble.Interrupted
        ↔ error_kind error ≡ ErrorKind.Interrupted)) }
{
    match answer {
        Ok(()) => Ok(()),
        Err(error) => Err(trouble_of(&error)),
    }
}

/// Std's readers don't report the troubles that they met.
impl<R: Read> Reader for R {
    ghost left = { λ r. R.remaining r };

    ghost met = { λ _. untroubled };

    fn try_read(&mut self, buf: &mut [u8]) -> Result<usize, Trouble> {
        answer_of_read(self.read(buf))
    }
}

/// Std's writers don't report the troubles that they met.
impl<W: Write> Writer for W {
    ghost held = { λ w. W.contents w };

    ghost passed = { λ _. untold };

    ghost met = { λ _. untroubled };

    fn try_write(&mut self, buf: &[u8]) -> Result<usize, Trouble> {
        answer_of_write(self.write(buf))
    }

    fn try_flush(&mut self) -> Result<(), Trouble> {
        answer_of_flush(self.flush())
    }
}

/// Reads, and tries again after each read that a signal interrupted.
///
/// # Errors
/// `Fault` after the first failure of the device, or if each of 1,000,000 reads was interrupted.
pub(crate) fn read_again<R: Reader>(reader: &mut R, buf: &mut [u8]) -> Result<usize, Fault>
    ensures bound { IfOk result (λ n. n ≤ length buf.new) }
    ensures bytes { ReadConsumes (R.left reader.old) (R.left reader.new) result buf.new }
    ensures met { Retried (R.met reader.old) (R.met reader.new) result }
{
    let mut interrupted = 0;
    while interrupted < TRIES {
        match reader.try_read(buf) {
            Ok(count) => return Ok(count),
            Err(Trouble::Interrupted) => interrupted += 1,
            Err(Trouble::Failed) => return Err(Fault),
        }
    }
    Err(Fault)
}

/// Writes, and tries again after each write that a signal interrupted.
///
/// # Errors
/// `Fault` after the first failure of the device, or if each of 1,000,000 writes was interrupted.
pub(crate) fn write_again<W: Writer>(writer: &mut W, buf: &[u8]) -> Result<usize, Fault>
    ensures bound { IfOk result (λ n. n ≤ length buf.now) }
    ensures some { IfOk result (λ n. 0 < n) }
    ensures bytes { WriteAppends (W.held writer.old) (W.held writer.new) result buf.now }
    ensures met { Retried (W.met writer.old) (W.met writer.new) result }
{
    let mut interrupted = 0;
    while interrupted < TRIES {
        match writer.try_write(buf) {
            Ok(count) => return Ok(count),
            Err(Trouble::Interrupted) => interrupted += 1,
            Err(Trouble::Failed) => return Err(Fault),
        }
    }
    Err(Fault)
}
