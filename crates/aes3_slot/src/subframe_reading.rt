//! A subframe read back from its 64 cells (AES3-3; IEC 60958-1).

ghost use Rattle.std.specs.Prelude.{◌≡◌, ◌==◌, ℕ, Bool, true, false, not, ◌<◌, ◌≤◌, ◌+◌, ◌*◌, ◌%◌};
ghost use Rattle.std.specs.Prelude.{◌^◌, drop, take, slice_index_or, if◌then◌else◌, IfOk, IfErr};
ghost use Rattle.std.specs.Int.{bit_at};
ghost use Rattle.aes3_level.specs.Cells.{line, other};
ghost use Rattle.aes3_level.specs.Words.{word_cells};
ghost use Rattle.aes3_slot.specs.Slots.{payload_bits, slot_runs, slots_bits, subframe_runs};
ghost use Rattle.aes3_slot.specs.Preambles.{InLanes};
ghost use Rattle.aes3_slot.specs.Reading.{read_bits};
ghost use Rattle.aes3_slot.specs.Rules.{at};
ghost use Rattle.aes3_slot.specs.Fronts.{IsFrontOf, IsLawfulFrontOf, stands, stands_even, with_some_parity};

use crate::mark::{Mark, mark_cells};
use crate::subframe_encoding::SLOT_STARTS;
use aes3_level::Level;
use std::simd::prelude::*;

/// Where 64 cells fail to be a subframe.
#[derive(Clone, Copy, PartialEq, Eq)]
pub struct Place {
    /// The first cell that can't be right, 0 to 63.
    pub offset: u8,
}

/// The cells of a preamble in a word.
const PREAMBLE: u64 = 0xFF;

/// The cells at which a subframe can be wrong: those of its preamble, the first of each slot, and
/// the last, which shows the parity bit.
const JUDGED: u64 = PREAMBLE | SLOT_STARTS | 1 << LAST;

/// The bits of a payload in the bits of slots 4 to 31: all but the parity bit.
const PAYLOAD: u32 = 0x07FF_FFFF;

/// The last cell of a subframe, the only one that shows the parity bit.
const LAST: u8 = 63;

/// The wrong cells of a subframe with this preamble after the level `before`, a one for each. A
/// cell is wrong if no bits allow it there (AES3-3, IEC 60958-1: preambles and biphase-mark
/// coding).
pub fn wrong_cells(before: Level, mark: Mark, cells: u64) -> u64
    ensures { (i : ℕ) → i < 64 → bit_at result i
        ≡ (if stands before mark (word_cells cells) i then 0 else 1) }
{
    let preamble = (cells ^ mark_cells(before, mark)) & PREAMBLE;
    let slots = !(cells ^ (cells << 1)) & SLOT_STARTS;
    preamble | slots
}

/// The wrong cells of eight subframes with right parity after the level `before`, whose preambles
/// alternate: `even`, `odd`. These are the cells of `wrong_cells`, and the last cell if it has the
/// other level.
pub fn wrong_cells_of_eight(before: Level, even: Mark, odd: Mark, cells: u64x8) -> u64x8
    ensures { InLanes result (λ i k. not (stands_even before
        (if (i % 2) == 0 then even else odd) (word_cells (slice_index_or cells i 0)) k)) }
{
    let first = mark_cells(before, even) | SLOT_STARTS;
    let second = mark_cells(before, odd) | SLOT_STARTS;
    let right = u64x8::from_array([first, second, first, second, first, second, first, second]);
    let earlier = cells << u64x8::splat(1) & u64x8::splat(SLOT_STARTS);
    (earlier ^ cells ^ right) & u64x8::splat(JUDGED)
}

/// Moves the bits at even places to half their places.
fn gather(word: u64) -> u32
    ensures { (i : ℕ) → i < 32 → bit_at result i ≡ bit_at word (2 * i) }
{
    let word = word & 0x5555_5555_5555_5555;
    let word = (word | (word >> 1)) & 0x3333_3333_3333_3333;
    let word = (word | (word >> 2)) & 0x0F0F_0F0F_0F0F_0F0F;
    let word = (word | (word >> 4)) & 0x00FF_00FF_00FF_00FF;
    let word = (word | (word >> 8)) & 0x0000_FFFF_0000_FFFF;
    let word = (word | (word >> 16)) & 0x0000_0000_FFFF_FFFF;
    word as u32
}

/// The bits of slots 4 to 31 of a subframe, from its 64 cells, slot 4 in bit 0. A bit is one if the
/// two cells of its slot differ.
pub fn slot_bits(cells: u64) -> u32
    ensures bits { slots_bits result ≡ read_bits (drop 8 (word_cells cells)) }
    ensures bound { result < 2 ^ 28 }
{
    gather((cells ^ (cells >> 1)) >> 8)
}

/// The payload, and whether the parity bit above it is right.
fn split_parity(slots: u32) -> (u32, bool)
    requires { slots < 2 ^ 28 }
    ensures bits { slots_bits slots ≡ with_some_parity result.1 (payload_bits result.0) }
    ensures range { result.0 < 2 ^ 27 }
{
    (slots & PAYLOAD, slots.count_ones() % 2 == 0)
}

/// Whether the first `len` of 64 cells begin a subframe with this preamble after the level
/// `before`, whatever its parity bit.
pub fn begins_subframe(before: Level, mark: Mark, cells: u64, len: u32) -> bool
    requires { len ≤ 64 }
    ensures yes { result ≡ true → IsFrontOf before mark (take len (word_cells cells)) }
    ensures no { result ≡ false → ¬ IsFrontOf before mark (take len (word_cells cells)) }
{
    wrong_cells(before, mark, cells).trailing_zeros() >= len
}

/// The payload of the 64 cells of a subframe with this preamble after the level `before`, and
/// whether its parity bit is right. If it is, the last cell has the level `before`, else the other
/// level.
///
/// # Errors
/// The first cell at which the cells so far begin no such subframe, whatever its parity bit.
pub fn take_either(before: Level, mark: Mark, cells: u64) -> Result<(u32, bool), Place>
    ensures ok { IfOk result (λ taken. word_cells cells
        ≡ line before (slot_runs mark (with_some_parity taken.1 (payload_bits taken.0)))) }
    ensures range { IfOk result (λ taken. taken.0 < 2 ^ 27) }
    ensures level { IfOk result (λ taken. at (word_cells cells) 63
        ≡ (if taken.1 then before else other before)) }
    ensures owed { (payload : ℕ) (right : Bool) → payload < 2 ^ 27
        → word_cells cells ≡ line before (slot_runs mark
        (with_some_parity right (payload_bits payload)))
        → result ≡ Ok (payload, right) }
    ensures within { IfErr result (λ place. place.offset < 64) }
    ensures front { IfErr result (λ place. IsFrontOf before mark
        (take place.offset (word_cells cells))) }
    ensures stops { IfErr result (λ place. ¬ IsFrontOf before mark
        (take (place.offset + 1) (word_cells cells))) }
{
    let wrong = wrong_cells(before, mark, cells);
    if wrong != 0 {
        return Err(Place {
            offset: wrong.trailing_zeros() as u8,
        });
    }
    Ok(split_parity(slot_bits(cells)))
}

/// The payload of the 64 cells of a subframe with this preamble after the level `before`.
///
/// # Errors
/// The first cell at which the cells so far begin no such subframe. If only the parity bit is
/// wrong, it is the last cell.
pub fn take_subframe(before: Level, mark: Mark, cells: u64) -> Result<u32, Place>
    ensures ok { IfOk result (λ payload. word_cells cells
        ≡ line before (subframe_runs mark (payload_bits payload))) }
    ensures range { IfOk result (λ payload. payload < 2 ^ 27) }
    ensures owed { (payload : ℕ) → payload < 2 ^ 27
        → word_cells cells ≡ line before (subframe_runs mark (payload_bits payload))
        → result ≡ Ok payload }
    ensures within { IfErr result (λ place. place.offset < 64) }
    ensures front { IfErr result (λ place. IsLawfulFrontOf before mark
        (take place.offset (word_cells cells))) }
    ensures stops { IfErr result (λ place. ¬ IsLawfulFrontOf before mark
        (take (place.offset + 1) (word_cells cells))) }
{
    let (payload, is_right) = take_either(before, mark, cells)?;
    if !is_right {
        return Err(Place { offset: LAST });
    }
    Ok(payload)
}
