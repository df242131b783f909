//! Writing samples for sound programs.

ghost use Rattle.std.specs.Prelude.{◌≡◌, map};
ghost use Rattle.std.specs.List.{flat_map};
ghost use Rattle.aes3_frame.specs.Files.{payload_of, word_bytes};
ghost use Rattle.aes3_frame.specs.Samples.{block_samples, sample_of};

use crate::file_out::blank_bytes;
use aes3_frame::{AUDIO_LIMIT, BLOCK_BYTES, Block, SUBFRAMES, payload_of_word};

/// The sample in a word of a block file, in the highest 24 of 32 bits.
fn sample_of_word(word: u32) -> u32
    ensures { result ≡ sample_of (payload_of word) }
{
    (payload_of_word(word) % AUDIO_LIMIT) << 8
}

/// The bytes of the samples in words of a block file, each lowest byte first.
fn bytes_of_samples(words: &[u32; SUBFRAMES]) -> [u8; BLOCK_BYTES]
    ensures { result ≡ flat_map word_bytes (map sample_of (map payload_of words.now)) }
{
    let mut bytes = blank_bytes();
    for (i, word) in words.iter().enumerate() {
        bytes[4 * i..4 * i + 4].copy_from_slice(&sample_of_word(*word).to_le_bytes());
    }
    bytes
}

/// The samples of a block, channel 1 and then channel 2 of each frame: 384 words of 32 bits, lowest
/// byte first. The highest 24 bits of each are the audio bits of its subframe (AES3-1, IEC
/// 60958-1).
pub fn samples_of_block(block: &Block) -> [u8; BLOCK_BYTES]
    ensures { result ≡ block_samples block.now }
{
    bytes_of_samples(block.words())
}
