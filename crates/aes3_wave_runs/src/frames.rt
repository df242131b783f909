//! The samples of frames.

ghost use Rattle.std.specs.Prelude.{◌≡◌, ◌≤◌, ◌<◌, ◌*◌, IfSome, length, take};
ghost use Rattle.std.specs.Option.{ForSome};
ghost use Rattle.aes3_wave.specs.Formats.{frame_len};
ghost use Rattle.aes3_wave.specs.Samples.{two_samples};
ghost use Rattle.aes3_wave_runs.specs.Frames.{IsForm, parts_of};

use aes3_forms_samples::{BLOCK_BYTES, SampleFormat};
use aes3_wave::{Channels, Container, WaveFormat, Width};

/// How many octets two samples of 32 bits have.
pub(crate) const PAIR_LEN: usize = 8;

/// The form in which the octets of frames are already samples for `from_pcm_words`: the frame has
/// two channels, both are taken in order, and all bits are valid.
pub(crate) fn form_of(format: WaveFormat, channels: Channels) -> Option<SampleFormat>
    ensures { IfSome result (IsForm format channels) }
{
    if format.channels != 2 || channels.first != 0 {
        return None;
    }
    match (channels.second, format.container, format.width) {
        (Some(1), Container::Octets2, Width::Bits16) => Some(SampleFormat::S16),
        (Some(1), Container::Octets3, Width::Bits24) => Some(SampleFormat::S24),
        (Some(1), Container::Octets4, Width::Bits32) => Some(SampleFormat::S32),
        _ => None,
    }
}

/// A block that begins with these octets and continues with zeros.
pub(crate) fn block_of(octets: &[u8]) -> [u8; BLOCK_BYTES]
    requires few { length octets.now ≤ 1536 }
    ensures len { length result ≡ 1536 }
    ensures front { take (length octets.now) result ≡ octets.now }
{
    let mut block = [0; BLOCK_BYTES];
    block[..octets.len()].copy_from_slice(octets);
    block
}

/// Puts the samples of two channels of the first frames into the front of a piece, each with 32
/// bits, frame by frame.
pub(crate) fn put_each(
    format: WaveFormat,
    channels: Channels,
    octets: &[u8],
    count: usize,
    wide: &mut [u8],
)
    requires first { channels.first < format.channels }
    requires second { ForSome channels.second (λ n. n < format.channels) }
    requires frames { count * frame_len format ≤ length octets.now }
    requires room { PAIR_LEN * count ≤ length wide.old }
    ensures { take (PAIR_LEN * count) wide.new
        ≡ parts_of (two_samples format channels) (frame_len format) count octets.now }
{
    let len = format.frame_len();
    let mut at = 0;
    for i in 0..count {
        let pair = format.two_samples(channels, &octets[at..at + len]);
        wide[PAIR_LEN * i..PAIR_LEN * i + PAIR_LEN].copy_from_slice(&pair);
        at += len;
    }
}
