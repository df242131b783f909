//! The octets of many words, written in a form.

ghost use Rattle.std.specs.Prelude.{◌≡◌, ℕ, ◌<◌, get_or, length};
ghost use Rattle.aes3_forms_words.specs.Forms.{written_word};
ghost use Rattle.aes3_forms_words.specs.Lists.{each_word, written_of};

use crate::alsa_am824::Words;

/// How many subframes a block has.
const BLOCK_WORDS: usize = 384;

/// How many octets a word has.
const WORD_LEN: usize = 4;

/// Gives a proof the fact that octets are below 256. It does nothing.
#[inline(always)]
fn are_octets(octets: &[u8])
    ensures { (i : ℕ) → get_or octets.now i 0 < 256 }
{}

/// Puts each word of a block file into this form. Octets at the end that fill no word are
/// unchanged.
pub fn write_words(octets: &mut [u8], form: Words)
    ensures words { octets.new ≡ written_of form octets.old }
    ensures fits { (i : ℕ) → get_or octets.old i 0 < 256 }
{
    are_octets(octets);
    let words = octets.len() / WORD_LEN;
    for i in 0..words {
        write_one(
            &mut octets[WORD_LEN * i..WORD_LEN * i + WORD_LEN],
            form,
            i % BLOCK_WORDS,
        );
    }
}

/// The same for the octets of one word.
#[inline(always)]
fn write_one(octets: &mut [u8], form: Words, place: usize)
    requires { length octets.old ≡ WORD_LEN }
    ensures { octets.new ≡ each_word (written_word form) place octets.old }
{
    let word = form.written_word(place, octets[0], octets[1], octets[2], octets[3]);
    octets.copy_from_slice(&word);
}
