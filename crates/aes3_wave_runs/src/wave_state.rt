//! What an input of frames keeps.

ghost use Rattle.std.specs.Prelude.{◌<◌, ◌≤◌};
ghost use Rattle.std.specs.Option.{ForSome};
ghost use Rattle.aes3_wave.specs.Formats.{frame_len};
ghost use Rattle.aes3_wave_runs.specs.Wave.{frames_most};

use aes3_engine::SampleInput;
use aes3_wave::{Channels, WaveFormat};

/// More octets than a frame has: a header has its length in 16 bits.
pub(crate) const FRAME_MOST: usize = 65_536;

/// The octets after the header of a WAV file, as they come, and the block that their samples have
/// begun.
#[derive(Drop)]
pub(crate) struct WaveInput {
    pub samples: SampleInput,
    pub format: WaveFormat,
    /// The two channels that are taken.
    pub channels: Channels,
    /// How many octets are samples at most, and how many of them are still to come.
    pub len: u64,
    pub left: u64,
    /// The octets of the current frame, and how many there are.
    pub begun: [u8; FRAME_MOST],
    pub at: usize,
    ghost first: { channels.first < format.channels },
    ghost second: { ForSome channels.second (λ n. n < format.channels) },
    ghost few: { at < frame_len format },
    ghost room: { at < 65536 },
    ghost frame: { frame_len format < 65536 },
    ghost most: { len ≤ frames_most format },
}
