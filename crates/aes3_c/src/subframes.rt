//! The words of many blocks as other programs have them.

ghost use Rattle.std.specs.Prelude.{◌≡◌, ◌*◌, ◌/◌, ◌<◌, ◌^◌, ℕ, true, false, drop, get_or, length, take};
ghost use Rattle.std.specs.Prelude.{IfErr, IfOk};
ghost use Rattle.std.specs.List.{flat_map};
ghost use Rattle.aes3_forms_words.specs.Forms.{own_word};
ghost use Rattle.aes3_forms_words.specs.Lists.{each_word, written_of};
ghost use Rattle.aes3_frame.specs.Files.{blocks_in, file, is_lawful, word_bytes};
ghost use Rattle.aes3_c.specs.Blocks.{AreBlocks, IsFirstWrong, blocks_within, word_in, word_read};
ghost use Rattle.aes3_c.specs.Blocks.{words_form};
ghost use Rattle.aes3_c.specs.declared.block_form.BlockForm.TheVariants.{Subframes};

use crate::block_form::{BlockForm, words_form};
use crate::blocks::put_blocks;
use crate::wav_samples::word_of_sample;
use aes3_block::{BLOCK_BYTES, Block, SUBFRAMES};
use aes3_forms_words::Words;

/// Puts the words of the blocks of these words in a form, four octets a word: 1 for ALSA's
/// `IEC958_SUBFRAME_LE`, 2 for AM824, any other number for a block file. It takes whole blocks, as
/// long as there is room for their 1,536 octets. Answers how many words these blocks have, or the
/// number of the first that no block file may have; the blocks before that word's are put.
#[unsafe(no_mangle)]
pub extern "C" fn aes3_subframes_of_blocks(words: &[u32], form: u8, octets: &mut [u8]) -> usize
    ensures answer { IsFirstWrong (word_in words.now)
        (blocks_within (length words.now) (length octets.old) 1536) result }

    // They are what `decode` writes of each block in turn.
    ensures each { AreBlocks (Subframes (words_form form)) words.now (result / 384) octets.new }
    ensures others { drop (1536 * (result / 384)) octets.new
        ≡ drop (1536 * (result / 384)) octets.old }
{
    put_blocks(words, BlockForm::Subframes(words_form(form)), octets)
}

/// The words of a block that these octets are read as.
fn own_words(octets: &[u8], form: Words) -> [u32; SUBFRAMES]
    requires { length octets.now ≡ BLOCK_BYTES }
    ensures { flat_map word_bytes result ≡ each_word (own_word form) 0 octets.now }
{
    let mut own = [0; SUBFRAMES];
    for slot in 0..SUBFRAMES {
        let at = 4 * slot;
        let word = [octets[at], octets[at + 1], octets[at + 2], octets[at + 3]];
        own[slot] = word_of_sample(&form.read_word(slot, word));
    }
    own
}

/// Puts the words of a block.
///
/// # Errors
/// The number of the first word that no block file may have; then no word is put.
#[tactic(auto, unfolding(aes3_frame::specs::Blocks::block_subframes))]
fn put_words(own: &[u32; SUBFRAMES], words: &mut [u32]) -> Result<(), usize>
    requires { length words.old ≡ SUBFRAMES }
    ensures put { IfOk result (λ _. words.new ≡ own.now) }
    ensures right { IfOk result (λ _. (i : ℕ) → i < 384 → is_lawful (get_or own.now i 0) ≡ true) }
    ensures within { IfErr result (λ n. n < 384) }
    ensures lawful { IfErr result (λ n. (i : ℕ) → i < n → is_lawful (get_or own.now i 0) ≡ true) }
    ensures unlawful { IfErr result (λ n. is_lawful (get_or own.now n 0) ≡ false) }
    ensures left { IfErr result (λ _. words.new ≡ words.old) }
    ensures fits { (i : ℕ) → i < 384 → get_or own.now i 0 < 2 ^ 32 }
{
    match Block::try_of_words(own) {
        Ok(_) => {
            words.copy_from_slice(own);
            Ok(())
        }
        Err(word) => Err(word),
    }
}

/// Puts the words of the blocks that these octets are read as, in a form as
/// `aes3_subframes_of_blocks` has them. The first of these words is the first of a block. It takes
/// whole blocks, as long as there is room for their words. Answers how many words these blocks
/// have, or the number of the first that no block file may have. Such a word is, for example, one
/// with the code of another preamble. The blocks before that of the first such word are put.
#[unsafe(no_mangle)]
pub extern "C" fn aes3_blocks_of_subframes(octets: &[u8], form: u8, words: &mut [u32]) -> usize
    ensures answer { IsFirstWrong (word_read (words_form form) octets.now)
        (blocks_within (length words.old) (length octets.now) 1536) result }

    // Their octets are what `encode` reads of those octets.
    ensures words { flat_map word_bytes (take (384 * (result / 384)) words.new)
        ≡ each_word (own_word (words_form form)) 0 (take (1536 * (result / 384)) octets.now) }
    ensures others { drop (384 * (result / 384)) words.new
        ≡ drop (384 * (result / 384)) words.old }
{
    let read = words_form(form);
    let count = (words.len() / SUBFRAMES).min(octets.len() / BLOCK_BYTES);
    for i in 0..count {
        let at = BLOCK_BYTES * i;
        let own = own_words(&octets[at..at + BLOCK_BYTES], read);
        if let Err(word) = put_words(&own, &mut words[SUBFRAMES * i..SUBFRAMES * i + SUBFRAMES]) {
            return SUBFRAMES * i + word;
        }
    }
    SUBFRAMES * count
}
