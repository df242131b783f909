//! The samples of blocks, in the form of sound programs.

ghost use Rattle.std.specs.Prelude.{◌≡◌, ◌≢◌, ◌<◌, ◌≤◌, ℕ, true, false, get_or, map};
ghost use Rattle.std.specs.List.{flat_map};
ghost use Rattle.aes3_frame.specs.Files.{is_lawful, payload_of, word_bytes};
ghost use Rattle.aes3_frame.specs.Sampled.{payload_of_sample};
ghost use Rattle.aes3_frame.specs.Samples.{block_samples, sample_of};

use aes3_block::{BLOCK_BYTES, Block};
use aes3_frame::{AUDIO_LIMIT, payload_of_word};

/// The sample in a word of a block file, in the highest 24 of 32 bits.
pub(crate) fn sample_of_word(word: u32) -> u32
    ensures { result ≡ sample_of (payload_of word) }
{
    (payload_of_word(word) % AUDIO_LIMIT) << 8
}

/// Puts the sample of each word.
fn put_samples(words: &[u32; 384], samples: &mut [u32; 384])
    ensures { samples.new ≡ map sample_of (map payload_of words.now) }
{
    for (slot, word) in words.iter().enumerate() {
        samples[slot] = sample_of_word(*word);
    }
}

/// Puts the samples of the block of these words, channel 1 and then channel 2 of each frame. They
/// are words of 32 bits in two's complement: the 24 audio bits in the highest ones, and 0 in the
/// lowest 8 (AES3-1, IEC 60958-1). Returns 384, or the number of the first word that is not valid;
/// then `samples` is unchanged.
#[unsafe(no_mangle)]
#[tactic(auto, unfolding(aes3_frame::specs::Blocks::block_subframes))]
pub extern "C" fn aes3_block_samples(words: &[u32; 384], samples: &mut [u32; 384]) -> u32
    ensures samples { result ≡ 384 → samples.new ≡ map sample_of (map payload_of words.now) }

    // Their octets, the lowest first, are what `to-pcm` writes of the block.
    ensures octets { result ≡ 384 → flat_map word_bytes samples.new
        ≡ block_samples (map payload_of words.now) }
    ensures within { result ≤ 384 }
    ensures lawful { (i : ℕ) → i < result → is_lawful (get_or words.now i 0) ≡ true }
    ensures unlawful { result ≢ 384 → is_lawful (get_or words.now result 0) ≡ false }
    ensures left { result ≢ 384 → samples.new ≡ samples.old }
{
    match Block::try_of_words(words) {
        Ok(block) => {
            put_samples(block.words(), samples);
            384
        }
        Err(place) => place as u32,
    }
}

/// The octets of samples, each lowest octet first.
fn octets_of_samples(samples: &[u32; 384]) -> [u8; BLOCK_BYTES]
    ensures { result ≡ flat_map word_bytes samples.now }
{
    let mut octets = [0; BLOCK_BYTES];
    for (i, sample) in samples.iter().enumerate() {
        octets[4 * i..4 * i + 4].copy_from_slice(&sample.to_le_bytes());
    }
    octets
}

/// Puts the words of the block of these samples, channel 1 and then channel 2 of each frame. The
/// audio of a subframe is the highest 24 bits of its sample (AES3-1, IEC 60958-1). The lowest 8
/// bits are ignored, and V, U and C are 0.
#[unsafe(no_mangle)]
#[tactic(auto, unfolding(aes3_frame::specs::Blocks::block_subframes))]
pub extern "C" fn aes3_block_of_samples(samples: &[u32; 384], words: &mut [u32; 384])
    ensures payloads { map payload_of words.new ≡ map payload_of_sample samples.now }
    ensures lawful { (i : ℕ) → i < 384 → is_lawful (get_or words.new i 0) ≡ true }
{
    *words = *Block::of_samples(&octets_of_samples(samples)).words();
}
