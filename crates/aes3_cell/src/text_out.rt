//! Writing cell text.
use std::marker::Model;

/// Writes cells as text: 64 characters `0` and `1` and a line feed, with each 64th cell.
#[derive(Drop)]
pub struct TextOut {
    word: u64,
    len: u32,
    failed: bool,
}

impl Model for TextOut {
    ghost use Rattle.std.specs.Prelude.{◌<◌, ◌^◌};
    ghost use Rattle.aes3_level.specs.Words.{low_cells};
    ghost use Rattle.aes3_cell.specs.Pending.{BegunLine};

    ghost Value = { BegunLine };

    ghost view = { λ t. record { cells = low_cells t.len t.word; failed = t.failed } };

    ghost invariant = { λ t. (t.len < 64) × (t.word < 2 ^ t.len) };
}

ghost use Rattle.std.specs.Prelude.{◌≡◌, ◌+◌, ◌<◌, ◌^◌, [], false, IfOk, IsErr, IsTrue, ◌↔◌};
ghost use Rattle.aes3_cell.specs.Writes.{Wrote};
ghost use Rattle.aes3_cell.specs.Pending.{text_added, begun_after};

use crate::ends::{Fault, Sink, write_all};
use crate::word::{WORD_LEN, line_of_word, with_cell};
use aes3_level::Level;

impl TextOut {
    /// A writer at the beginning of a line.
    pub fn new() -> Self
        ensures start { result.cells ≡ [] }
        ensures open { result.failed ≡ false }
    {
        TextOut {
            word: 0,
            len: 0,
            failed: false,
        }
    }

    /// Whether writing has failed.
    pub fn failed(&self) -> bool
        ensures { result ≡ self.now.failed }
    {
        self.failed
    }

    /// Takes one more cell; each 64th cell writes a line as one buffer.
    ///
    /// # Errors
    /// The sink's fault; then it has taken a front of the line, and `failed` returns true.
    pub fn put<T: Sink>(&mut self, sink: &mut T, level: Level) -> Result<(), Fault>
        requires open { self.old.failed ≡ false }
        requires room { T.failed sink.old + 1 < 2 ^ 64 }
        ensures wrote { Wrote T.taken T.failed sink.old sink.new (text_added self.old.cells level)
            result }
        ensures begun { IfOk result (λ _. self.new.cells ≡ begun_after self.old.cells level) }
        ensures failed { IsTrue self.new.failed ↔ IsErr result }
    {
        let word = with_cell(self.word, self.len, level);
        if self.len + 1 < WORD_LEN {
            self.word = word;
            self.len += 1;
            return Ok(());
        }
        self.word = 0;
        self.len = 0;
        let wrote = write_all(sink, &line_of_word(word));
        self.failed = wrote.is_err();
        wrote
    }
}
