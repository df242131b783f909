//! Samples that would lose bits, as `--exact` finds them.

ghost use Rattle.std.specs.Prelude.{◌≡◌, ◌≢◌, ◌≤◌, ◌<◌, ◌/◌, ◌%◌, ℕ, true, false, get_or, length, take};
ghost use Rattle.aes3_files.specs.Sound.{begins_sound};
ghost use Rattle.aes3_forms_samples.specs.Formats.{asks_exact};
ghost use Rattle.aes3_engine.specs.ExactSamples.{block_fits};
ghost use Rattle.aes3_engine.specs.Sampling.{AllExact, AreSamples, BadSampleAt};
ghost use Rattle.aes3_c.specs.Blocks.{block_at, sample_form, word_in};
ghost use Rattle.aes3_c.specs.Exact.{word_fits};

use crate::block_form::sample_form;
use crate::sample_calls::sample_of_word;
use aes3_forms_samples::SampleFormat;

/// How many octets a sample of 32 bits has.
const SAMPLE_OCTETS: usize = 4;

/// Whether the sample in a word of a block keeps all its bits.
fn word_fits(word: u32, format: SampleFormat) -> bool
    ensures { result ≡ word_fits format word }
{
    format.fits(&sample_of_word(word).to_le_bytes())
}

/// Finds the first of these words of blocks whose sample would lose bits in a form, as
/// `aes3_samples_of_blocks` has it. Only samples of 16 bits lose some: the lowest 8 of 24. Returns
/// the word's number, or how many words there are if no sample loses a bit. Whether a word is valid
/// makes no difference.
#[unsafe(no_mangle)]
pub extern "C" fn aes3_blocks_fit(words: &[u32], form: u8) -> usize
    ensures within { result ≤ length words.now }
    ensures before { (i : ℕ) → i < result
        → word_fits (sample_form form) (word_in words.now i) ≡ true }
    ensures first { result ≢ length words.now
        → word_fits (sample_form form) (word_in words.now result) ≡ false }

    // `to-pcm --exact` writes the blocks before that word's, and rejects that word's.
    ensures written { (i : ℕ) → i < result / 384
        → block_fits (sample_form form) (block_at i words.now) ≡ true }
    ensures rejected { result ≢ length words.now
        → block_fits (sample_form form) (block_at (result / 384) words.now) ≡ false }
{
    let format = sample_form(form);
    for (i, word) in words.iter().enumerate() {
        if !word_fits(*word, format) {
            return i;
        }
    }
    words.len()
}

/// Finds the first of these samples in a form that has more bits than the 24 of a block. Only
/// samples of 32 bits can have more: their lowest octet is not 0 then. Returns the number of that
/// octet, or how many octets there are if no sample has more bits.
#[unsafe(no_mangle)]
pub extern "C" fn aes3_samples_fit(octets: &[u8], form: u8) -> usize
    ensures within { result ≤ length octets.now }
    ensures before { AllExact (asks_exact (sample_form form) true) (take result octets.now) }
    ensures asked { result ≢ length octets.now → asks_exact (sample_form form) true ≡ true }
    ensures lowest { result ≢ length octets.now → result % 4 ≡ 0 }
    ensures some { result ≢ length octets.now → get_or octets.now result 0 ≢ 0 }

    // It is the PLACE of refusal 11 of `from-pcm --exact`, unless they begin as a sound file.
    ensures rejected { result ≢ length octets.now → begins_sound (take result octets.now) ≡ false
        → BadSampleAt (asks_exact (sample_form form) true) octets.now result }
    ensures taken { result ≡ length octets.now → begins_sound octets.now ≡ false
        → AreSamples (asks_exact (sample_form form) true) octets.now }
{
    if !sample_form(form).asks_exact(true) {
        return octets.len();
    }
    for i in 0..octets.len().div_ceil(SAMPLE_OCTETS) {
        if octets[SAMPLE_OCTETS * i] != 0 {
            return SAMPLE_OCTETS * i;
        }
    }
    octets.len()
}
