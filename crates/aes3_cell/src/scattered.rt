//! Cells among separators, 64 bytes at once.

ghost use Rattle.std.specs.Prelude.{◌≡◌, ◌+◌, ◌*◌, ◌/◌, ◌%◌, ◌^◌, ◌<◌, ◌≤◌, ◌++◌, ℕ, List};
ghost use Rattle.std.specs.Prelude.{IfNone, IfSome, OnSome, get_or, length, if◌then◌else◌};
ghost use Rattle.std.specs.Int.{bit_at};
ghost use Rattle.aes3_level.specs.declared.level.Level.{Level};
ghost use Rattle.aes3_cell.specs.CellText.{IsCellText, cells_of_text};
ghost use Rattle.aes3_cell.specs.Scattered.{Holds, is_separator, kept_cells};
ghost use Rattle.aes3_level.specs.Words.{low_cells};

use crate::some_cells::SomeCells;
use crate::word::equal_to;
use aes3_level::even_bits;
use std::simd::prelude::*;

/// The cells among four bytes, moved together, the first in the lowest bit. The low four bits of
/// the index say which of the four are cells, the high four which are high.
const TOGETHER: [u8; 256] = [
    0, 0, 0, 0, 0, 0, 0, 0, 0, 0, 0, 0, 0, 0, 0, 0, 0, 1, 0, 1, 0, 1, 0, 1, 0, 1, 0, 1, 0, 1, 0, 1,
    0, 0, 1, 2, 0, 0, 1, 2, 0, 0, 1, 2, 0, 0, 1, 2, 0, 1, 1, 3, 0, 1, 1, 3, 0, 1, 1, 3, 0, 1, 1, 3,
    0, 0, 0, 0, 1, 2, 2, 4, 0, 0, 0, 0, 1, 2, 2, 4, 0, 1, 0, 1, 1, 3, 2, 5, 0, 1, 0, 1, 1, 3, 2, 5,
    0, 0, 1, 2, 1, 2, 3, 6, 0, 0, 1, 2, 1, 2, 3, 6, 0, 1, 1, 3, 1, 3, 3, 7, 0, 1, 1, 3, 1, 3, 3, 7,
    0, 0, 0, 0, 0, 0, 0, 0, 1, 2, 2, 4, 2, 4, 4, 8, 0, 1, 0, 1, 0, 1, 0, 1, 1, 3, 2, 5, 2, 5, 4, 9,
    0, 0, 1, 2, 0, 0, 1, 2, 1, 2, 3, 6, 2, 4, 5, 10, 0, 1, 1, 3, 0, 1, 1, 3, 1, 3, 3, 7, 2, 5, 5,
    11, 0, 0, 0, 0, 1, 2, 2, 4, 1, 2, 2, 4, 3, 6, 6, 12, 0, 1, 0, 1, 1, 3, 2, 5, 1, 3, 2, 5, 3, 7,
    6, 13, 0, 0, 1, 2, 1, 2, 3, 6, 1, 2, 3, 6, 3, 6, 7, 14, 0, 1, 1, 3, 1, 3, 3, 7, 1, 3, 3, 7, 3,
    7, 7, 15,
];

/// How many cells each entry of `TOGETHER` has.
const COUNTS: [u8; 256] = [
    0, 1, 1, 2, 1, 2, 2, 3, 1, 2, 2, 3, 2, 3, 3, 4, 0, 1, 1, 2, 1, 2, 2, 3, 1, 2, 2, 3, 2, 3, 3, 4,
    0, 1, 1, 2, 1, 2, 2, 3, 1, 2, 2, 3, 2, 3, 3, 4, 0, 1, 1, 2, 1, 2, 2, 3, 1, 2, 2, 3, 2, 3, 3, 4,
    0, 1, 1, 2, 1, 2, 2, 3, 1, 2, 2, 3, 2, 3, 3, 4, 0, 1, 1, 2, 1, 2, 2, 3, 1, 2, 2, 3, 2, 3, 3, 4,
    0, 1, 1, 2, 1, 2, 2, 3, 1, 2, 2, 3, 2, 3, 3, 4, 0, 1, 1, 2, 1, 2, 2, 3, 1, 2, 2, 3, 2, 3, 3, 4,
    0, 1, 1, 2, 1, 2, 2, 3, 1, 2, 2, 3, 2, 3, 3, 4, 0, 1, 1, 2, 1, 2, 2, 3, 1, 2, 2, 3, 2, 3, 3, 4,
    0, 1, 1, 2, 1, 2, 2, 3, 1, 2, 2, 3, 2, 3, 3, 4, 0, 1, 1, 2, 1, 2, 2, 3, 1, 2, 2, 3, 2, 3, 3, 4,
    0, 1, 1, 2, 1, 2, 2, 3, 1, 2, 2, 3, 2, 3, 3, 4, 0, 1, 1, 2, 1, 2, 2, 3, 1, 2, 2, 3, 2, 3, 3, 4,
    0, 1, 1, 2, 1, 2, 2, 3, 1, 2, 2, 3, 2, 3, 3, 4, 0, 1, 1, 2, 1, 2, 2, 3, 1, 2, 2, 3, 2, 3, 3, 4,
];

/// The indices in these tables for four bytes in each eight: those at the low bits of each octet.
#[inline(always)]
fn places(kept: u64, levels: u64) -> [u8; 8]
    ensures { (i : ℕ) → i < 8 → get_or result i 0
        ≡ kept / 2 ^ (8 * i) % 16 + 16 * (levels / 2 ^ (8 * i) % 16) }
{
    let kept = u8x8::from_array(kept.to_le_bytes()) & u8x8::splat(15);
    let levels = u8x8::from_array(levels.to_le_bytes()) << u8x8::splat(4);
    (kept | levels).to_array()
}

/// The cells of the four bytes of an index, followed by those of a word.
#[inline(always)]
fn behind_four(place: u8, word: u64) -> u64
    ensures { (cells : List Level) → length cells ≤ 60 → Holds cells word
        → Holds (kept_cells 4 (place % 16) (place / 16) ++ cells) result }
{
    word << u32::from(COUNTS[usize::from(place)]) | u64::from(TOGETHER[usize::from(place)])
}

/// The bits of `levels` at the ones of `kept`, moved together, the first in the lowest bit. As a
/// function of its own it takes the octets from registers, and builds none of them bit by bit.
#[inline(never)]
fn together(kept: u64, levels: u64) -> SomeCells
    ensures { low_cells result.len result.word ≡ kept_cells 64 kept levels }
{
    let low = places(kept, levels);
    let high = places(kept >> 4, levels >> 4);
    let mut word = 0;
    for i in 0..8 {
        word = behind_four(low[7 - i], behind_four(high[7 - i], word));
    }
    SomeCells {
        word,
        len: kept.count_ones(),
    }
}

/// Up to this number of gaps, closing each by itself costs less than looking all up in the tables,
/// if lines are alike.
const FEW: u32 = 9;

/// The same result as `together`, for text with few separators, as in long lines. It closes each
/// gap by itself, from the lowest one on, by moving all above it down by one.
#[inline(always)]
fn close_up(kept: u64, levels: u64) -> SomeCells
    ensures { low_cells result.len result.word ≡ kept_cells 64 kept levels }
{
    let mut gaps = !kept;
    let mut word = levels & kept;
    let mut len = 64;
    while gaps != 0 {
        let others = gaps & (gaps - 1);
        // What is below the gap is doubled first, so that it keeps its place.
        word = (word + (word & (gaps ^ (gaps - 1)))) >> 1;
        gaps = others >> 1;
        len -= 1;
    }
    SomeCells { word, len }
}

/// Every second one of 64 bytes, from the first on.
const FROM_FIRST: u64 = 0x5555_5555_5555_5555;

/// The same from the second on.
const FROM_SECOND: u64 = 0xaaaa_aaaa_aaaa_aaaa;

/// The same result as `together` for every second byte, as if each cell has a line of its own: half
/// of the bits, without a table.
#[inline(always)]
fn every_second(levels: u64) -> SomeCells
    ensures { low_cells result.len result.word ≡ kept_cells 64 FROM_FIRST levels }
{
    SomeCells {
        word: even_bits(levels),
        len: 32,
    }
}

/// The same result as `together`, in the way that is fastest for these gaps.
#[inline(always)]
fn kept_together(kept: u64, levels: u64) -> SomeCells
    ensures { low_cells result.len result.word ≡ kept_cells 64 kept levels }
{
    if kept.count_zeros() <= FEW {
        return close_up(kept, levels);
    }
    if kept == FROM_FIRST {
        every_second(levels)
    } else if kept == FROM_SECOND {
        every_second(levels >> 1)
    } else {
        together(kept, levels)
    }
}

/// The bytes that are separators, a one for each. Which of the three kinds a separator is doesn't
/// matter, so there is one word for all of them.
#[inline(always)]
fn separators_of(bytes: &[u8; 64]) -> u64
    ensures { (i : ℕ) → i < 64 → bit_at result i
        ≡ (if is_separator (get_or bytes.now i 0) then 1 else 0) }
{
    let bytes = u8x64::from_array(*bytes);
    let ends = bytes.simd_eq(u8x64::splat(b'\n')) | bytes.simd_eq(u8x64::splat(b'\r'));
    (ends | bytes.simd_eq(u8x64::splat(b' '))).to_bitmask()
}

/// The cells of 64 bytes that are all cells or separators; `None` if a byte is neither.
#[inline(always)]
pub(crate) fn cells_among(bytes: &[u8; 64]) -> Option<SomeCells>
    ensures cells { IfSome result (λ cells. cells_of_text bytes.now
        ≡ low_cells cells.len cells.word) }
    ensures lawful { OnSome result (IsCellText bytes.now) }
    ensures owed { IfNone result (¬ IsCellText bytes.now) }
{
    let high = equal_to(bytes, b'1');
    let cells = high | equal_to(bytes, b'0');
    let separators = separators_of(bytes);
    if cells | separators == u64::MAX {
        Some(kept_together(cells, high))
    } else {
        None
    }
}
