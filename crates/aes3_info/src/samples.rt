//! The magnitudes of a block's samples.

ghost use Rattle.std.specs.Prelude.{◌≡◌, ◌<◌, ◌≤◌, ◌^◌, [], get_or, map, max};
ghost use Rattle.std.specs.List.{sum_by};
ghost use Rattle.aes3_frame.specs.Files.{payload_of};
ghost use Rattle.aes3_info.specs.Facts.{greatest, magnitude, magnitudes, more_energy, sample_facts, square};

use crate::saturating::more_energy;
use aes3_block::{Channel, SUBFRAMES};
use aes3_frame::{AUDIO_LIMIT, FRAMES, payload_of_word};

/// The magnitude of the sample in a word of a block file.
fn magnitude_of_word(word: u32) -> u32
    ensures magnitude { result ≡ magnitude (payload_of word) }
    ensures few { result ≤ 2 ^ 24 }
{
    let sample = payload_of_word(word) % AUDIO_LIMIT;
    if sample < AUDIO_LIMIT / 2 {
        sample
    } else {
        AUDIO_LIMIT - sample
    }
}

/// The magnitude of the sample of a channel in frame `i` of a block of these words.
fn magnitude_at(words: &[u32; SUBFRAMES], channel: Channel, i: usize) -> u32
    requires { i < FRAMES }
    ensures magnitude { result ≡ get_or (magnitudes channel (map payload_of words.now)) i 0 }
    ensures few { result ≤ 2 ^ 24 }
{
    magnitude_of_word(words[2 * i + channel.first_subframe()])
}

/// The square of a magnitude.
pub fn square(magnitude: u32) -> u64
    ensures { result ≡ square magnitude }
{
    u64::from(magnitude) * u64::from(magnitude)
}

/// What is counted of the samples of a channel of blocks.
#[derive(Clone, Copy)]
pub struct SampleFacts {
    /// The greatest magnitude of a sample of 24 bits.
    pub greatest: u32,
    /// The sum of the squares of the samples.
    pub energy: u128,
}

impl SampleFacts {
    /// The counts without any block.
    #[tactic(auto, unfolding(crate::specs::Facts::total, crate::specs::Facts::most_energy))]
    pub fn none(_channel: Channel) -> Self
        ensures { result ≡ sample_facts _channel [] }
    {
        SampleFacts {
            greatest: 0,
            energy: 0,
        }
    }

    /// Counts the samples of a channel of a block, given its words.
    pub fn count(&mut self, words: &[u32; SUBFRAMES], channel: Channel)
        ensures greatest { self.new.greatest ≡ max self.old.greatest
            (greatest (magnitudes channel (map payload_of words.now))) }
        ensures energy { self.new.energy ≡ more_energy self.old.energy
            (sum_by square (magnitudes channel (map payload_of words.now))) }
    {
        for i in 0..FRAMES {
            let magnitude = magnitude_at(words, channel, i);
            self.greatest = self.greatest.max(magnitude);
            self.energy = more_energy(self.energy, square(magnitude));
        }
    }
}
