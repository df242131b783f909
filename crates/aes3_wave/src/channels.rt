//! The samples of frames.

ghost use Rattle.std.specs.Prelude.{◌≡◌, ◌≤◌, ◌<◌, ◌+◌, length};
ghost use Rattle.std.specs.Option.{ForSome};
ghost use Rattle.aes3_wave.specs.Formats.{container_len, frame_len};
ghost use Rattle.aes3_wave.specs.Samples.{counted, sample_at, sample_of, sample_or_zero, signed};
ghost use Rattle.aes3_wave.specs.Samples.{two_samples, usual_channels, usual_second, wide};

use crate::wave_format::{Container, WaveFormat, Width};

/// How many octets a sample of 32 bits has.
const SAMPLE_LEN: usize = 4;

/// How many octets two of these samples have.
const FRAME_LEN: usize = 8;

/// The channels of a frame whose samples are taken, counted from 0.
#[derive(Clone, Copy, PartialEq, Eq)]
pub struct Channels {
    pub first: u16,
    /// `None` means zero samples in its place.
    pub second: Option<u16>,
}

/// Which channels the samples of a file with one channel are for.
#[derive(Clone, Copy, PartialEq, Eq)]
pub enum Mono {
    /// Both.
    Both,
    /// Channel 1; the samples of channel 2 are zero.
    First,
}

/// The highest octet of a signed number, from an unsigned one with 128 as zero.
fn to_signed(octet: u8) -> u8
    ensures { result ≡ signed octet }
{
    if octet < 128 {
        octet + 128
    } else {
        octet - 128
    }
}

/// A sample of 32 bits with the bits that are not valid set to 0.
fn to_width(width: Width, sample: [u8; SAMPLE_LEN]) -> [u8; SAMPLE_LEN]
    ensures { result ≡ counted width sample }
{
    let [a, b, c, d] = sample;
    match width {
        Width::Bits8 => [0, 0, 0, d],
        Width::Bits16 => [0, 0, c, d],
        Width::Bits20 => [0, b / 16 * 16, c, d],
        Width::Bits24 => [0, b, c, d],
        Width::Bits32 => [a, b, c, d],
    }
}

impl Mono {
    /// The second channel for a file that has one channel.
    fn usual_second(self) -> Option<u16>
        ensures { result ≡ usual_second self }
    {
        match self {
            Mono::Both => Some(0),
            Mono::First => None,
        }
    }
}

impl WaveFormat {
    /// The sample whose octets begin at place `at`, as a sample of 32 bits.
    fn sample_at(self, frame: &[u8], at: usize) -> [u8; SAMPLE_LEN]
        requires { at + container_len self.container ≤ length frame.now }
        ensures { result ≡ sample_at self at frame.now }
    {
        let wide = match self.container {
            Container::Octets1 => [0, 0, 0, to_signed(frame[at])],
            Container::Octets2 => [0, 0, frame[at], frame[at + 1]],
            Container::Octets3 => [0, frame[at], frame[at + 1], frame[at + 2]],
            Container::Octets4 => [frame[at], frame[at + 1], frame[at + 2], frame[at + 3]],
        };
        to_width(self.width, wide)
    }

    /// The sample of a channel, as a sample of 32 bits.
    fn sample_of(self, frame: &[u8], channel: u16) -> [u8; SAMPLE_LEN]
        requires frame { length frame.now ≡ frame_len self }
        requires channel { channel < self.channels }
        ensures { result ≡ sample_of self channel frame.now }
    {
        self.sample_at(frame, channel as usize * self.container.len())
    }

    /// The sample of a channel, or a zero sample if there is no channel.
    fn sample_or_zero(self, frame: &[u8], channel: Option<u16>) -> [u8; SAMPLE_LEN]
        requires frame { length frame.now ≡ frame_len self }
        requires channel { ForSome channel (λ n. n < self.channels) }
        ensures { result ≡ sample_or_zero self channel frame.now }
    {
        match channel {
            Some(channel) => self.sample_of(frame, channel),
            None => [0; SAMPLE_LEN],
        }
    }

    /// The samples of two channels of a frame, each with 32 bits, lowest octet first. The bits of a
    /// sample are the highest ones, and bits that are not valid are 0.
    pub fn two_samples(self, channels: Channels, frame: &[u8]) -> [u8; FRAME_LEN]
        requires frame { length frame.now ≡ frame_len self }
        requires first { channels.first < self.channels }
        requires second { ForSome channels.second (λ n. n < self.channels) }
        ensures { result ≡ two_samples self channels frame.now }
    {
        let [a, b, c, d] = self.sample_of(frame, channels.first);
        let [e, f, g, h] = self.sample_or_zero(frame, channels.second);
        [a, b, c, d, e, f, g, h]
    }

    /// The channels that are taken if none are chosen: the first two. For a file with one channel
    /// `mono` selects them.
    pub fn usual_channels(self, mono: Mono) -> Channels
        ensures { result ≡ usual_channels self mono }
    {
        Channels {
            first: 0,
            second: if self.channels < 2 {
                mono.usual_second()
            } else {
                Some(1)
            },
        }
    }
}
