//! Words of cells as octets, eight words at once.

ghost use Rattle.std.specs.Prelude.{◌≡◌, length, map};
ghost use Rattle.std.specs.List.{flat_map};
ghost use Rattle.aes3_cell.specs.Packed.{cells_of_octets, octet_of, octets_of};
ghost use Rattle.aes3_level.specs.Words.{low_cells, word_cells};

use std::simd::prelude::*;

/// The low four bits of an octet, reversed, as the high four: a table of 16, four times.
const FROM_LOW: [u8; 64] = [
    0, 128, 64, 192, 32, 160, 96, 224, 16, 144, 80, 208, 48, 176, 112, 240, 0, 128, 64, 192, 32,
    160, 96, 224, 16, 144, 80, 208, 48, 176, 112, 240, 0, 128, 64, 192, 32, 160, 96, 224, 16, 144,
    80, 208, 48, 176, 112, 240, 0, 128, 64, 192, 32, 160, 96, 224, 16, 144, 80, 208, 48, 176, 112,
    240,
];

/// The high four bits of an octet, reversed, as the low four: a table of 16, four times.
const FROM_HIGH: [u8; 64] = [
    0, 8, 4, 12, 2, 10, 6, 14, 1, 9, 5, 13, 3, 11, 7, 15, 0, 8, 4, 12, 2, 10, 6, 14, 1, 9, 5, 13,
    3, 11, 7, 15, 0, 8, 4, 12, 2, 10, 6, 14, 1, 9, 5, 13, 3, 11, 7, 15, 0, 8, 4, 12, 2, 10, 6, 14,
    1, 9, 5, 13, 3, 11, 7, 15,
];

/// The octets with the bits of each in reversed order.
#[inline(always)]
fn reverse_octets(octets: u8x64) -> u8x64
    ensures { result ≡ map (λ octet. octet_of (low_cells 8 octet)) octets }
{
    let high = u8x64::from_array(FROM_LOW).swizzle_dyn_within::<16>(octets & u8x64::splat(15));
    let low = u8x64::from_array(FROM_HIGH).swizzle_dyn_within::<16>(octets >> u8x64::splat(4));
    high | low
}

/// The words of 64 octets, the first cell of each in the highest bit of its first octet.
#[inline(always)]
pub(crate) fn eight_words(octets: u8x64) -> u64x8
    ensures len { length result ≡ 8 }
    ensures cells { flat_map word_cells result ≡ cells_of_octets octets }
{
    u64x8::from_le_bytes(reverse_octets(octets))
}

/// The octets of eight words, the first cell of each in the highest bit of its first octet.
#[inline(always)]
pub(crate) fn octets_of_eight(words: u64x8) -> u8x64
    ensures len { length result ≡ 64 }
    ensures octets { result ≡ octets_of (flat_map word_cells words) }
{
    reverse_octets(words.to_le_bytes())
}
