//! Octets of packed cells as words of cells, many at once.

ghost use Rattle.std.specs.Prelude.{◌≡◌, ◌≤◌, ◌*◌, length, take};
ghost use Rattle.std.specs.List.{flat_map};
ghost use Rattle.aes3_cell.specs.Packed.{cells_of_octets};
ghost use Rattle.aes3_level.specs.Words.{word_cells};

use crate::eights::eight_words;
use crate::word::word_of_octets;
use std::simd::prelude::*;

/// Makes words of the first octets, eight words at once; returns how many words it made.
fn words_of_front(octets: &[u8], words: &mut [u64]) -> usize
    requires { length octets.now ≡ 8 * length words.old }
    ensures len { length words.new ≡ length words.old }
    ensures within { result ≤ length words.new }
    ensures cells { flat_map word_cells (take result words.new)
        ≡ cells_of_octets (take (8 * result) octets.now) }
{
    let eights = words.len() / 8;
    for i in 0..eights {
        let eight = eight_words(u8x64::from_slice(&octets[64 * i..]));
        eight.copy_to_slice(&mut words[8 * i..]);
    }
    8 * eights
}

/// Makes words of octets, eight octets for each word.
pub fn words_of_octets(octets: &[u8], words: &mut [u64])
    requires { length octets.now ≡ 8 * length words.old }
    ensures len { length words.new ≡ length words.old }
    ensures cells { flat_map word_cells words.new ≡ cells_of_octets octets.now }
{
    let front = words_of_front(octets, words);
    for i in front..words.len() {
        let eight = u8x8::from_slice(&octets[8 * i..]);
        words[i] = word_of_octets(&eight.to_array());
    }
}
