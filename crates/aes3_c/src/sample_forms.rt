//! The samples of many blocks as sound programs have them.

ghost use Rattle.std.specs.Prelude.{◌≡◌, ◌*◌, ◌/◌, ◌<◌, ℕ, true, drop, get_or, length, map};
ghost use Rattle.aes3_forms_samples.specs.Formats.{block_len, widened};
ghost use Rattle.aes3_frame.specs.Files.{is_lawful, payload_of, words_of};
ghost use Rattle.aes3_frame.specs.Sampled.{payload_of_sample};
ghost use Rattle.aes3_c.specs.Blocks.{AreBlocks, AreSampled, IsFirstWrong, blocks_within, sample_form};
ghost use Rattle.aes3_c.specs.Blocks.{word_in};
ghost use Rattle.aes3_c.specs.declared.block_form.BlockForm.TheVariants.{Samples};

use crate::block_form::{BlockForm, sample_form};
use crate::blocks::put_blocks;
use aes3_block::{BLOCK_BYTES, Block, SUBFRAMES};
use aes3_forms_samples::SampleFormat;

/// Puts the samples of the blocks of these words in a form, the lowest octet first. Form 1 is 24
/// bits in three octets, and form 2 is 24 bits in the lowest of 32. Form 3 is the highest 16 bits,
/// and any other number is the highest 24 of 32 bits. It takes whole blocks, as long as there is
/// room for their samples. Answers how many words these blocks have, or the number of the first
/// that no block file may have; the samples of the blocks before that word's are put.
#[unsafe(no_mangle)]
pub extern "C" fn aes3_samples_of_blocks(words: &[u32], form: u8, octets: &mut [u8]) -> usize
    ensures answer { IsFirstWrong (word_in words.now)
        (blocks_within (length words.now) (length octets.old) (block_len (sample_form form))) result }

    // They are what `to-pcm` writes of each block in turn.
    ensures each { AreBlocks (Samples (sample_form form)) words.now (result / 384) octets.new }
    ensures others { drop (block_len (sample_form form) * (result / 384)) octets.new
        ≡ drop (block_len (sample_form form) * (result / 384)) octets.old }
{
    put_blocks(words, BlockForm::Samples(sample_form(form)), octets)
}

/// The words of the block of these samples.
fn sampled_words(octets: &[u8], form: SampleFormat) -> [u32; SUBFRAMES]
    requires { length octets.now ≡ block_len form }
    ensures payloads { map payload_of result
        ≡ map payload_of_sample (words_of (widened form octets.now)) }
    ensures lawful { (i : ℕ) → i < 384 → is_lawful (get_or result i 0) ≡ true }
{
    let mut samples = [0; BLOCK_BYTES];
    samples[..form.block_len()].copy_from_slice(octets);
    let mut wide = [0; BLOCK_BYTES];
    form.widen_into(&samples, &mut wide);
    *Block::of_samples(&wide).words()
}

/// Puts the words of the blocks of these samples, in a form as `aes3_samples_of_blocks` has them:
/// channel 1 and then channel 2 of each frame. V, U and C are 0. It takes whole blocks, as long as there
/// is room for their words. Answers how many words these have.
#[unsafe(no_mangle)]
pub extern "C" fn aes3_blocks_of_samples(octets: &[u8], form: u8, words: &mut [u32]) -> usize
    ensures count { result ≡ 384 * blocks_within (length words.old) (length octets.now)
        (block_len (sample_form form)) }

    // They are what `from-pcm` makes of the samples of each block in turn, but for the channel status.
    ensures each { AreSampled (sample_form form) octets.now (result / 384) words.new }
    ensures lawful { (i : ℕ) → i < result → is_lawful (get_or words.new i 0) ≡ true }
    ensures others { drop result words.new ≡ drop result words.old }
{
    let format = sample_form(form);
    let len = format.block_len();
    let count = (words.len() / SUBFRAMES).min(octets.len() / len);
    let mut at = 0;
    for i in 0..count {
        let block = sampled_words(&octets[at..at + len], format);
        words[SUBFRAMES * i..SUBFRAMES * i + SUBFRAMES].copy_from_slice(&block);
        at += len;
    }
    SUBFRAMES * count
}
