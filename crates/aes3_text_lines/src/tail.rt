//! A short line, written from its end.

ghost use Rattle.std.specs.Prelude.{◌≡◌, ◌<◌, ◌≤◌, ◌+◌, [], ◌++◌, ◌^◌, decimal, length};
ghost use Rattle.aes3_cell.specs.Writes.{Wrote};
ghost use Rattle.aes3_text_lines.specs.MarkLines.{level_digit};

use aes3_cell::{Fault, Level, Sink, write_all};
use itoa::write_digits;
use std::marker::Model;

/// How many bytes a short line has at most.
pub const TAIL_LEN: usize = 96;

/// `0` for the lower level, `1` for the higher.
#[inline]
pub(crate) fn digit_of(level: Level) -> &'static [u8; 1]
    ensures { result.now ≡ level_digit level }
{
    match level {
        Level::Low => b"0",
        Level::High => b"1",
    }
}

/// The end of a short line, as far as it is written. It is written backwards, so that each number's
/// digits are put where they stay, the last first.
#[derive(Drop)]
pub struct Tail {
    bytes: [u8; TAIL_LEN],
    /// The place where it begins.
    at: usize,
}

impl Model for Tail {
    ghost use Rattle.std.specs.Prelude.{List, ℕ, ◌≤◌, drop};

    ghost Value = { List ℕ };

    ghost view = { λ tail. drop tail.at tail.bytes };

    ghost invariant = { λ tail. tail.at ≤ 96 };
}

impl Tail {
    /// The end of an empty line.
    #[inline]
    pub fn new() -> Self
        ensures { result ≡ [] }
    {
        Tail {
            bytes: [0; TAIL_LEN],
            at: TAIL_LEN,
        }
    }

    /// Puts the text before it.
    #[inline]
    pub fn text<const N: usize>(&mut self, text: &[u8; N])
        requires { length self.old + N ≤ TAIL_LEN }
        ensures text { self.new ≡ text.now ++ self.old }
        ensures len { length self.new ≡ N + length self.old }
    {
        // Copied first, so that the compiler need not check whether it is in the line.
        let text = *text;
        let end = self.at;
        self.at -= N;
        self.bytes[self.at..end].copy_from_slice(&text);
    }

    /// Puts the word before it.
    pub(crate) fn word(&mut self, word: &str)
        requires { length self.old + length word.now ≤ TAIL_LEN }
        ensures word { self.new ≡ word.now ++ self.old }
        ensures len { length self.new ≡ length word.now + length self.old }
    {
        let end = self.at;
        self.at -= word.len();
        self.bytes[self.at..end].copy_from_slice(word.as_bytes());
    }

    /// Puts the number before it in decimal.
    #[inline]
    pub fn number(&mut self, number: u64)
        requires { length self.old + 20 ≤ TAIL_LEN }
        ensures digits { self.new ≡ decimal number ++ self.old }
        ensures len { length self.new ≤ 20 + length self.old }
    {
        self.at = write_digits(number, &mut self.bytes, self.at);
    }

    /// Puts `0` before it for the lower level, or `1` for the higher.
    #[inline]
    pub fn level(&mut self, level: Level)
        requires { length self.old + 1 ≤ TAIL_LEN }
        ensures digit { self.new ≡ level_digit level ++ self.old }
        ensures len { length self.new ≡ 1 + length self.old }
    {
        self.text(digit_of(level));
    }

    /// Its bytes so far.
    #[inline]
    pub(crate) fn as_bytes(&self) -> &[u8]
        ensures bytes { result.now ≡ self.now }
        ensures len { length result.now ≤ TAIL_LEN }
    {
        &self.bytes[self.at..]
    }

    /// Writes the line to the sink as one buffer.
    ///
    /// # Errors
    /// The sink's fault; then it has taken a front of the line.
    #[inline]
    pub fn write_to<T: Sink>(&self, sink: &mut T) -> Result<(), Fault>
        requires room { T.failed sink.old + 1 < 2 ^ 64 }
        ensures { Wrote T.taken T.failed sink.old sink.new self.now result }
    {
        write_all(sink, &self.bytes[self.at..])
    }
}
