//! The counts of a channel.

ghost use Rattle.std.specs.Prelude.{◌≡◌, []};
ghost use Rattle.aes3_frame.specs.Statuses.{status_of};
ghost use Rattle.aes3_info.specs.Facts.{channel_facts, differs, first_with, with_block};

use crate::samples::SampleFacts;
use crate::saturating::more;
use aes3_block::{Block, Channel};
use aes3_frame::ones_in;

/// The counts of a channel of whole blocks.
#[derive(Clone, Copy)]
pub(crate) struct ChannelFacts {
    /// The status of the first block, if there is one.
    pub(crate) first: Option<[u8; 24]>,
    /// The status of the last block, if there is one.
    pub(crate) latest: Option<[u8; 24]>,
    /// How many blocks have another status than the one before.
    pub(crate) changes: u64,
    /// How many validity bits are 1.
    pub(crate) invalid: u64,
    /// Those of its samples.
    pub(crate) samples: SampleFacts,
}

/// Whether a status differs from the one before, if there is one, as a number.
fn differs(before: &Option<[u8; 24]>, status: &[u8; 24]) -> u64
    ensures { result ≡ differs before.now status.now }
{
    match before {
        Some(before) if before != status => 1,
        _ => 0,
    }
}

/// The first status, after one more status.
fn first_with(first: Option<[u8; 24]>, status: [u8; 24]) -> Option<[u8; 24]>
    ensures { result ≡ first_with first status }
{
    match first {
        Some(first) => Some(first),
        None => Some(status),
    }
}

impl ChannelFacts {
    /// The counts without any block.
    #[tactic(auto, unfolding(crate::specs::Facts::total, crate::specs::Facts::most_count, crate::specs::Facts::most_energy))]
    pub(crate) fn none(_channel: Channel) -> Self
        ensures { result ≡ channel_facts _channel [] }
    {
        ChannelFacts {
            first: None,
            latest: None,
            changes: 0,
            invalid: 0,
            samples: SampleFacts::none(_channel),
        }
    }

    /// Counts a channel of a whole block.
    pub(crate) fn count(&mut self, block: &Block, channel: Channel)
        ensures { self.new ≡ with_block self.old channel block.now }
    {
        let status = block.channel_status(channel);
        self.samples.count(block.words(), channel);
        self.changes = more(self.changes, differs(&self.latest, &status));
        self.invalid = more(self.invalid, ones_in(&block.validity(channel)));
        self.first = first_with(self.first, status);
        self.latest = Some(status);
    }
}
