//! The cells of a subframe.

ghost use Rattle.std.specs.Prelude.{◌≡◌, ℕ, ◌<◌, ◌^◌, ◌*◌, ◌+◌, ◌%◌, ◌/◌, ◌==◌, if◌then◌else◌};
ghost use Rattle.std.specs.Int.{bit_at};
ghost use Rattle.aes3_level.specs.Cells.{line};
ghost use Rattle.aes3_level.specs.Words.{word_cells};
ghost use Rattle.aes3_bits.specs.Bits.{low_bits, odd_ones};
ghost use Rattle.aes3_slot.specs.Slots.{mark_runs, payload_bits, slot_runs, slots_bits};
ghost use Rattle.aes3_slot.specs.Slots.{subframe_runs};
ghost use Rattle.aes3_slot.specs.Turns.{cells_of_turns, run_turns, word_turns};

use crate::mark::Mark;
use aes3_level::Level;

/// How many cells a subframe has (AES3-3; IEC 60958-1).
pub const SUBFRAME_CELLS: u64 = 64;

/// The parity bit of a payload, time slot 31: it makes the number of ones in slots 4 to 31 even.
///
/// Bit `n` of a payload is time slot `4 + n`: audio in bits 0 to 23, V, U and C in 24 to 26.
pub fn payload_parity(payload: u32) -> bool
    requires { payload < 2 ^ 27 }
    ensures { result ≡ odd_ones (payload_bits payload) }
{
    payload.count_ones() % 2 == 1
}

/// The first half of each slot after the preamble, where the level always changes.
pub(crate) const SLOT_STARTS: u64 = 0x5555_5555_5555_5500;

/// Where the level changes in a preamble.
fn mark_turns(mark: Mark) -> u64
    ensures turns { low_bits 8 result ≡ run_turns (mark_runs mark) }
    ensures bound { result < 2 ^ 8 }
{
    match mark {
        Mark::X => 0b1100_1001,
        Mark::Y => 0b0110_1001,
        Mark::Z => 0b0011_1001,
    }
}

/// Moves each bit to twice its place.
fn spread(bits: u32) -> u64
    ensures { (i : ℕ) → i < 64 → bit_at result i
        ≡ (if (i % 2) == 0 then bit_at bits (i / 2) else 0) }
{
    let word = u64::from(bits);
    let word = (word | (word << 16)) & 0x0000_FFFF_0000_FFFF;
    let word = (word | (word << 8)) & 0x00FF_00FF_00FF_00FF;
    let word = (word | (word << 4)) & 0x0F0F_0F0F_0F0F_0F0F;
    let word = (word | (word << 2)) & 0x3333_3333_3333_3333;
    (word | (word << 1)) & 0x5555_5555_5555_5555
}

/// Where the level changes in a subframe: a one for each cell that differs from the cell before it.
fn slot_turns(mark: Mark, slots: u32) -> u64
    requires { slots < 2 ^ 28 }
    ensures { word_turns result ≡ run_turns (slot_runs mark (slots_bits slots)) }
{
    mark_turns(mark) | SLOT_STARTS | (spread(slots) << 9)
}

/// The cells after `Low` whose level changes at the ones of `turns`: each is the parity of the
/// changes up to it.
fn cells_from_turns(turns: u64) -> u64
    ensures { word_cells result ≡ cells_of_turns Level.Low (word_turns turns) }
{
    let cells = turns ^ (turns << 1);
    let cells = cells ^ (cells << 2);
    let cells = cells ^ (cells << 4);
    let cells = cells ^ (cells << 8);
    let cells = cells ^ (cells << 16);
    cells ^ (cells << 32)
}

/// The 64 cells of a subframe whose slots 4 to 31 carry the bits of `slots`, the earliest cell in
/// bit 0.
pub fn slots_cells(before: Level, mark: Mark, slots: u32) -> u64
    requires { slots < 2 ^ 28 }
    ensures { word_cells result ≡ line before (slot_runs mark (slots_bits slots)) }
{
    let cells = cells_from_turns(slot_turns(mark, slots));
    match before {
        Level::Low => cells,
        Level::High => !cells,
    }
}

/// The 64 cells of the subframe with this payload after the level `before`, the earliest cell in
/// bit 0.
pub fn subframe_cells(before: Level, mark: Mark, payload: u32) -> u64
    requires { payload < 2 ^ 27 }
    ensures { word_cells result ≡ line before (subframe_runs mark (payload_bits payload)) }
{
    let parity = u32::from(payload_parity(payload));
    slots_cells(before, mark, payload | (parity << 27))
}
