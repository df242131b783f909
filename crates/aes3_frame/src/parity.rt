//! The parity of subframes, 64 cells each, as they are read from a line.

ghost use Rattle.std.specs.Prelude.{◌≡◌, length};
ghost use Rattle.std.specs.List.{filter};
ghost use Rattle.aes3_bits.specs.Bits.{odd_ones};
ghost use Rattle.aes3_slot.specs.ReadWords.{read_word, read_words};

use crate::block::SUBFRAMES;

/// Whether the number of ones in slots 4 to 31 of a subframe's 64 cells is odd. A one has one high
/// cell, a zero none or two.
pub(crate) fn has_odd_ones(cells: u64) -> bool
    ensures { result ≡ odd_ones (read_word cells) }
{
    (cells >> 8).count_ones() % 2 == 1
}

/// How many of these subframes, 64 cells each, the earliest in bit 0, have a wrong parity bit. Then
/// the number of ones in time slots 4 to 31 is odd (IEC 60958-1: even parity).
pub fn wrong_parities(words: &[u64; SUBFRAMES]) -> u16
    ensures { result ≡ length (filter odd_ones (read_words words.now)) }
{
    let mut wrong = 0;
    for cells in words.iter() {
        if has_odd_ones(*cells) {
            wrong += 1;
        }
    }
    wrong
}
