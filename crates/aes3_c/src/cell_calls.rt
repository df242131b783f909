//! Words of 64 cells, and their written forms.

ghost use Rattle.std.specs.Prelude.{◌≡◌, ◌<◌, ◌^◌, ℕ, true, false, map};
ghost use Rattle.aes3_level.specs.Words.{word_cells};
ghost use Rattle.aes3_cell.specs.Text.{byte_of, line_text};
ghost use Rattle.aes3_cell.specs.Packed.{cells_of_octets, octets_of};

use aes3_cell::{line_of_word, octets_of_word, word_of_octets, word_of_text};

/// Puts the cells of 64 characters, each `0` or `1`, into `word`, the first in bit 0, and returns
/// true. If a character is another one, returns false and changes nothing.
#[unsafe(no_mangle)]
pub extern "C" fn aes3_word_of_text(text: &[u8; 64], word: &mut u64) -> bool
    ensures cells { result ≡ true → text.now ≡ map byte_of (word_cells word.new) }
    ensures owed { (cells : ℕ) → cells < 2 ^ 64 → text.now ≡ map byte_of (word_cells cells)
        → result ≡ true }
    ensures left { result ≡ false → word.new ≡ word.old }
{
    let Some(cells) = word_of_text(text) else {
        return false;
    };
    *word = cells;
    true
}

/// The cells of eight octets of packed cells as a word.
#[unsafe(no_mangle)]
pub extern "C" fn aes3_word_of_octets(octets: &[u8; 8]) -> u64
    ensures { word_cells result ≡ cells_of_octets octets.now }
{
    word_of_octets(octets)
}

/// Puts the cells of a word as a line of text: 64 characters and a line feed.
#[unsafe(no_mangle)]
pub extern "C" fn aes3_line_of_word(word: u64, line: &mut [u8; 65])
    ensures { line.new ≡ line_text (word_cells word) }
{
    *line = line_of_word(word);
}

/// Puts the cells of a word as eight octets of packed cells.
#[unsafe(no_mangle)]
pub extern "C" fn aes3_octets_of_word(word: u64, octets: &mut [u8; 8])
    ensures { octets.new ≡ octets_of (word_cells word) }
{
    *octets = octets_of_word(word);
}
