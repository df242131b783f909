//! Cells of words as a lock takes them, with their number.

ghost use Rattle.std.specs.Prelude.{◌≤◌, ◌+◌, ◌*◌, ◌^◌, drop, length};
ghost use Rattle.std.specs.List.{flat_map};
ghost use Rattle.aes3_level.specs.Words.{word_cells};
ghost use Rattle.aes3_c.specs.Taking.{TookFirst};

use aes3_level::Cells;
use aes3_lock::{Ending, Lock};

/// What a lock took of cells.
#[derive(Clone, Copy)]
pub(crate) struct Took {
    /// How many.
    pub(crate) cells: usize,
    /// How the last of them ended a candidate, if it ended one.
    pub(crate) ending: Option<Ending>,
}

/// `Lock::take` of `len` cells of words from cell `first` on.
// Inlined, so that it has no stack of its own.
#[inline(always)]
pub(crate) fn take_first(state: &mut Lock, words: &[u64], first: usize, len: usize) -> Took
    requires within { first + len ≤ 64 * length words.now }
    requires room { state.old.seen + len ≤ 2 ^ 43 }
    ensures { TookFirst state.old state.new (drop first (flat_map word_cells words.now)) len result }
{
    let before = state.seen();
    let mut cells = Cells::of_words(words, first, len);
    let ending = state.take(&mut cells);
    Took {
        cells: (state.seen() - before) as usize,
        ending,
    }
}
