//! The cells of four subframes at once.

ghost use Rattle.std.specs.Prelude.{◌≡◌, ℕ, ◌<◌, ◌^◌, ◌+◌, ◌*◌, ◌/◌, ◌%◌, ◌==◌, get_or, length};
ghost use Rattle.std.specs.Prelude.{if◌then◌else◌, map, bit_xor};
ghost use Rattle.std.specs.Int.{bit_at};
ghost use Rattle.aes3_level.specs.Cells.{line};
ghost use Rattle.aes3_level.specs.Words.{word_cells};
ghost use Rattle.aes3_slot.specs.Slots.{slot_runs, slots_bits};

use crate::mark::Mark;
use crate::subframe_encoding::slots_cells;
use aes3_level::Level;
use std::simd::prelude::*;

/// The words with each bit inverted if the bit `distance` below it is a one.
fn invert_from_below(words: u32x4, distance: u32) -> u32x4
    requires { distance < 32 }
    ensures { result ≡ map (λ w. bit_xor w (w * 2 ^ distance % 2 ^ 32)) words }
{
    words ^ words << u32x4::splat(distance)
}

/// Whether the number of ones of a word up to each bit is odd: each bit differs from the one below
/// it if the word has a one there.
fn odd_so_far(words: u32x4) -> u32x4
    ensures first { (i : ℕ) → i < 4
        → bit_at (get_or result i 0) 0 ≡ bit_at (get_or words i 0) 0 }
    ensures next { (i k : ℕ) → i < 4 → k < 31 → (bit_at (get_or result i 0) k
        + bit_at (get_or result i 0) (k + 1)) % 2 ≡ bit_at (get_or words i 0) (k + 1) }
{
    let odd = invert_from_below(words, 1);
    let odd = invert_from_below(odd, 2);
    let odd = invert_from_below(odd, 4);
    let odd = invert_from_below(odd, 8);
    invert_from_below(odd, 16)
}

/// The numbers below 16, with bit `n` of each at `2 n + 1`.
const SPREAD: [u8; 16] = [
    0x00, 0x02, 0x08, 0x0A, 0x20, 0x22, 0x28, 0x2A, 0x80, 0x82, 0x88, 0x8A, 0xA0, 0xA2, 0xA8, 0xAA,
];

/// Moves bit `n` of each number to `2 n + 1`.
fn spread_nibbles(nibbles: u8x16) -> u8x16
    requires { (i : ℕ) → i < 16 → get_or nibbles i 0 < 16 }
    ensures len { length result ≡ 16 }
    ensures fits { (i : ℕ) → i < 16 → get_or result i 0 < 256 }
    ensures bits { (i k : ℕ) → i < 16 → k < 8 → bit_at (get_or result i 0) k
        ≡ (if (k % 2) == 0 then 0 else bit_at (get_or nibbles i 0) (k / 2)) }
{
    u8x16::from_array(SPREAD).swizzle_dyn_within::<16>(nibbles)
}

/// Interleaves two vectors: the first of one, the first of the other, the second of the one, and so
/// on.
const IN_TURN: [usize; 32] = [
    0, 16, 1, 17, 2, 18, 3, 19, 4, 20, 5, 21, 6, 22, 7, 23, 8, 24, 9, 25, 10, 26, 11, 27, 12, 28,
    13, 29, 14, 30, 15, 31,
];

/// Moves bit `n` of each octet to bit `2 n + 1` of two octets.
fn spread_octets(octets: u8x16) -> u8x32
    ensures len { length result ≡ 32 }
    ensures fits { (i : ℕ) → i < 32 → get_or result i 0 < 256 }
    ensures bits { (i k : ℕ) → i < 32 → k < 8 → bit_at (get_or result i 0) k
        ≡ (if (k % 2) == 0 then 0 else bit_at (get_or octets (i / 2) 0) (4 * (i % 2) + k / 2)) }
{
    let low = spread_nibbles(octets & u8x16::splat(15));
    let high = spread_nibbles(octets >> u8x16::splat(4));
    low.shuffle(high, IN_TURN)
}

/// Moves bit `n` of each word to `2 n + 1`.
fn spread_words(words: u32x4) -> u64x4
    ensures len { length result ≡ 4 }
    ensures bits { (i k : ℕ) → i < 4 → k < 64 → bit_at (get_or result i 0) k
        ≡ (if (k % 2) == 0 then 0 else bit_at (get_or words i 0) (k / 2)) }
{
    u64x4::from_le_bytes(spread_octets(words.to_le_bytes()))
}

/// `slots_cells` of four words at once. Their preambles alternate: `even`, `odd`. Bit `n` of a word
/// is time slot `n`, and slots 0 to 3 are zero.
///
/// Each one in a slot inverts the cells of a subframe of zeros from the middle of the slot on.
pub fn slots_cells_of_four(before: Level, even: Mark, odd: Mark, words: u32x4) -> u64x4
    requires { (i : ℕ) → i < 4 → get_or words i 0 % 16 ≡ 0 }
    ensures len { length result ≡ 4 }
    ensures cells { (i : ℕ) → i < 4 → word_cells (get_or result i 0)
        ≡ line before (slot_runs (if (i % 2) == 0 then even else odd)
        (slots_bits (get_or words i 0 / 16))) }
{
    let first = slots_cells(before, even, 0);
    let second = slots_cells(before, odd, 0);
    let of_zeros = u64x4::from_array([first, second, first, second]);
    let turned = spread_words(odd_so_far(words));
    of_zeros ^ turned ^ turned << u64x4::splat(1)
}
