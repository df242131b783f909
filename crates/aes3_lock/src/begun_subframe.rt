//! The cells of an incomplete subframe in a word, the first in the lowest bit, for one subframe and
//! for eight at once. The last eight cells in an octet, likewise.

ghost use Rattle.std.specs.Prelude.{◌≡◌, ◌+◌, ◌-◌, ◌%◌, ◌<◌, ◌≤◌, ◌^◌, [], ◌∷◌, ◌++◌, drop, take};
ghost use Rattle.std.specs.Prelude.{ℕ, true, get_or, length};
ghost use Rattle.aes3_level.specs.Words.{level_of, low_cells, word_cells};
ghost use Rattle.aes3_slot.specs.Rules.{at};
ghost use Rattle.aes3_slot.specs.Fronts.{IsFrontOf};
ghost use Rattle.aes3_frame.specs.Blocks.{mark_at};
ghost use Rattle.aes3_frame.specs.Gathered.{IsRight};
ghost use Rattle.aes3_lock.specs.Steps.{eight_with};
ghost use Rattle.aes3_lock.specs.Eights.{begun_before};

use aes3_level::Level;
use aes3_slot::{mark_of, wrong_cells_of_eight};
use std::simd::prelude::*;

/// How many cells a preamble has.
pub(crate) const PREAMBLE_CELLS: u64 = 8;

/// The first `len` cells of a subframe, and one more.
pub(crate) fn with_next(cells: u64, len: u64, cell: Level) -> u64
    requires { len < 64 }
    ensures cells { cells < 2 ^ len → low_cells (len + 1) result ≡ low_cells len cells
        ++ cell ∷ [] }
    ensures few { cells < 2 ^ len → result < 2 ^ (len + 1) }
{
    match cell {
        Level::Low => cells,
        Level::High => cells | 1 << len,
    }
}

/// The subframe whose first `len` cells are these and whose other cells are the first of `word`.
pub(crate) fn complete_subframe(cells: u64, len: u64, word: u64) -> u64
    requires { len < 64 }
    ensures { cells < 2 ^ len → word_cells result ≡ low_cells len cells
        ++ take (64 - len) (word_cells word) }
{
    cells | word << len
}

/// The first `len` cells of a word.
pub(crate) fn first_of(word: u64, len: u64) -> u64
    requires { len < 64 }
    ensures cells { low_cells len result ≡ low_cells len word }
    ensures few { result < 2 ^ len }
{
    word & (1 << len) - 1
}

/// The first cell of a word.
pub(crate) fn first_cell(word: u64) -> Level
    ensures { result ≡ level_of (word % 2) }
{
    if word % 2 == 0 {
        Level::Low
    } else {
        Level::High
    }
}

/// The last `len` cells of a word.
pub(crate) fn rest_of(word: u64, len: u64) -> u64
    requires { len < 64 }
    ensures cells { low_cells len result ≡ drop (64 - len) (word_cells word) }
    ensures few { result < 2 ^ len }
{
    word >> 1 >> (63 - len)
}

/// The last cell of a word.
pub(crate) fn last_of(word: u64) -> Level
    ensures { result ≡ at (word_cells word) 63 }
{
    if word >> 63 == 0 {
        Level::Low
    } else {
        Level::High
    }
}

/// The last eight of all cells after eight cells and the first `len` of a word.
pub(crate) fn last_behind(recent: u8, word: u64, len: u32) -> u8
    requires { len ≤ 64 }
    ensures { low_cells 8 result ≡ drop len (low_cells 8 recent ++ low_cells len word) }
{
    if len > u64::BITS - 8 {
        return (word >> (len - 8) & 0xFF) as u8;
    }
    ((word << 8 | u64::from(recent)) >> len & 0xFF) as u8
}

/// The last eight cells of a word.
pub(crate) fn last_octet(word: u64) -> u8
    ensures { low_cells 8 result ≡ drop 56 (word_cells word) }
{
    (word >> 56) as u8
}

/// The last eight cells after one more cell.
pub(crate) fn with_cell(recent: u8, cell: Level) -> u8
    ensures { low_cells 8 result ≡ eight_with (low_cells 8 recent) cell }
{
    match cell {
        Level::Low => recent / 2,
        Level::High => recent / 2 + 0x80,
    }
}

/// The last of eight cells.
pub(crate) fn last_cell(recent: u8) -> Level
    ensures { result ≡ at (low_cells 8 recent) 7 }
{
    if recent < 0x80 {
        Level::Low
    } else {
        Level::High
    }
}

/// The cells that begin the eight subframes that eight words complete: the `len` cells of `begun`,
/// and the last `len` cells of each word but the last.
fn fronts_of(begun: u64, len: u64, words: u64x8) -> [u64; 8]
    requires { len < 64 }
    ensures cells { (i : ℕ) → i < 8 → low_cells len (get_or result i 0)
        ≡ begun_before len begun words i }
    ensures few { begun < 2 ^ len → (i : ℕ) → i < 8 → get_or result i 0 < 2 ^ len }
{
    let rests = words >> u64x8::splat(1) >> u64x8::splat(63 - len);
    let mut fronts = rests.rotate_elements_right::<1>().to_array();
    fronts[0] = begun;
    fronts
}

/// The eight subframes that eight words complete. The first begins with the `len` cells of `begun`,
/// each other one with the last `len` cells of the word before.
pub(crate) fn complete_eight(begun: u64, len: u64, words: &[u64; 8]) -> [u64; 8]
    requires { len < 64 }
    ensures { begun < 2 ^ len → (i : ℕ) → i < 8
        → word_cells (get_or result i 0) ≡ begun_before len begun words.now i
        ++ take (64 - len) (word_cells (get_or words.now i 0)) }
{
    let fronts = fronts_of(begun, len, u64x8::from_array(*words));
    let mut subframes = [0; 8];
    for (i, word) in words.iter().enumerate() {
        subframes[i] = complete_subframe(fronts[i], len, *word);
    }
    subframes
}

/// Whether these are subframes after the level `before` that end at it again, as they do if their
/// parity is right. Their preambles are those of a block's subframes from `subframe` on.
pub(crate) fn are_subframes(before: Level, subframe: u64, cells: &[u64; 8]) -> bool
    requires some { 0 < subframe }
    requires room { subframe < 384 }
    ensures fronts { result ≡ true → (i : ℕ) → i < 8
        → IsFrontOf before (mark_at (subframe + i)) (take 64 (word_cells (get_or cells.now i 0))) }
    ensures levels { result ≡ true → (i : ℕ) → i < 8
        → at (word_cells (get_or cells.now i 0)) 63 ≡ before }
    ensures right { result ≡ true → (i : ℕ) → i < 8
        → IsRight before (mark_at (subframe + i)) (get_or cells.now i 0) }
{
    let cells = u64x8::from_array(*cells);
    wrong_cells_of_eight(before, mark_of(subframe), mark_of(subframe + 1), cells).reduce_or() == 0
}
