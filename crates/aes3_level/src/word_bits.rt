//! Bits of a word.

ghost use Rattle.std.specs.Prelude.{ℕ, ◌*◌, ◌<◌, ◌^◌, ◌≡◌};
ghost use Rattle.std.specs.Int.{bit_at};

/// The bits at even places, close together.
#[inline(always)]
pub fn even_bits(word: u64) -> u64
    ensures bits { (i : ℕ) → i < 32 → bit_at result i ≡ bit_at word (2 * i) }
    ensures bound { result < 2 ^ 32 }
{
    let word = word & 0x5555_5555_5555_5555;
    let word = (word | word >> 1) & 0x3333_3333_3333_3333;
    let word = (word | word >> 2) & 0x0f0f_0f0f_0f0f_0f0f;
    let word = (word | word >> 4) & 0x00ff_00ff_00ff_00ff;
    let word = (word | word >> 8) & 0x0000_ffff_0000_ffff;
    (word | word >> 16) & 0x0000_0000_ffff_ffff
}
