//! Lines of preambles that are written together.

use crate::mark_line::{LONG, MARK_LEN, UpperDigits, put_mark, text_of_mark};
use aes3_cell::{Fault, Level, Sink, write_all};
use aes3_slot::Mark;
use std::marker::Model;

/// How many bytes are gathered at most.
pub const GATHERED_LEN: usize = 4096;

/// Lines of preambles that will be written as one buffer.
///
/// A contract sees their bytes.
#[derive(Drop)]
pub struct GatheredLines {
    text: [u8; GATHERED_LEN],
    len: usize,
    /// The digits of the latest line's number.
    upper: UpperDigits,
}

impl Model for GatheredLines {
    ghost use Rattle.std.specs.Prelude.{List, ℕ, ◌≤◌, take};

    ghost Value = { List ℕ };

    ghost view = { λ k. take k.len k.text };

    ghost invariant = { λ k. k.len ≤ 4096 };
}

impl GatheredLines {
    ghost use Rattle.std.specs.Prelude.{◌≡◌, ◌<◌, ◌≤◌, ◌+◌, ◌^◌, ◌++◌, [], false, length, IfOk};
    ghost use Rattle.aes3_cell.specs.Writes.{Wrote};
    ghost use Rattle.aes3_text_lines.specs.MarkLines.{mark_line};

    /// No lines.
    pub fn new() -> Self
        ensures { result ≡ [] }
    {
        GatheredLines {
            text: [0; GATHERED_LEN],
            len: 0,
            upper: UpperDigits::new(LONG),
        }
    }

    /// Whether one more line might not fit.
    pub fn is_full(&self) -> bool
        ensures { result ≡ false → length self.now + MARK_LEN ≤ GATHERED_LEN }
    {
        self.len > GATHERED_LEN - MARK_LEN
    }

    /// Adds the line of a preamble whose number has no more than four digits.
    #[cold]
    #[inline(never)]
    fn push_short(&mut self, at: u64, mark: Mark, before: Level)
        requires { length self.old + MARK_LEN ≤ GATHERED_LEN }
        ensures { self.new ≡ self.old ++ mark_line at mark before }
    {
        let mut line = text_of_mark(at, mark, before);
        line.text("\n");
        let bytes = line.as_bytes();
        let end = self.len + bytes.len();
        self.text[self.len..end].copy_from_slice(bytes);
        self.len = end;
    }

    /// Adds the line of a preamble at cell `at` after the level `before`.
    #[inline(always)]
    pub fn push(&mut self, at: u64, mark: Mark, before: Level)
        requires { length self.old + MARK_LEN ≤ GATHERED_LEN }
        ensures { self.new ≡ self.old ++ mark_line at mark before }
    {
        if at < LONG {
            self.push_short(at, mark, before);
            return;
        }
        self.upper.renew(at);
        let room = &mut self.text[self.len..self.len + MARK_LEN];
        let written = put_mark(room, &self.upper, at, mark, before);
        self.len += written;
    }

    /// Writes the lines to the sink as one buffer, and empties itself.
    ///
    /// # Errors
    /// The sink's fault; then it has taken a front of the lines.
    pub fn write_to<T: Sink>(&mut self, sink: &mut T) -> Result<(), Fault>
        requires room { T.failed sink.old + 1 < 2 ^ 64 }
        ensures wrote { Wrote T.taken T.failed sink.old sink.new self.old result }
        ensures none { IfOk result (λ _. self.new ≡ []) }
    {
        write_all(sink, &self.text[..self.len])?;
        self.len = 0;
        Ok(())
    }
}
