//! The samples of a WAV file.

ghost use Rattle.std.specs.Prelude.{◌≡◌, ◌<◌, ◌≤◌, ◌*◌, ◌++◌, drop, get_or, length};
ghost use Rattle.std.specs.Option.{ForSome};
ghost use Rattle.aes3_frame.specs.Files.{word_bytes};
ghost use Rattle.aes3_wave.specs.Formats.{frame_len};
ghost use Rattle.aes3_c.specs.Wav.{ArePairs, channels_of, container_in, format_in, frames_put};
ghost use Rattle.aes3_c.specs.Wav.{has_channels, width_in};

use crate::wav::Aes3Wav;
use aes3_wave::{Channels, Container, WaveFormat, Width};

/// The container of a sample with this number of octets.
fn container_in(octets: u8) -> Container
    ensures { result ≡ container_in octets }
{
    match octets {
        1 => Container::Octets1,
        2 => Container::Octets2,
        3 => Container::Octets3,
        _ => Container::Octets4,
    }
}

/// The width with this number of valid bits.
fn width_in(bits: u8) -> Width
    ensures { result ≡ width_in bits }
{
    match bits {
        8 => Width::Bits8,
        16 => Width::Bits16,
        20 => Width::Bits20,
        24 => Width::Bits24,
        _ => Width::Bits32,
    }
}

/// The format of the samples of a header in numbers.
fn format_in(wav: &Aes3Wav) -> WaveFormat
    ensures { result ≡ format_in wav.now }
{
    WaveFormat {
        channels: wav.channels,
        rate: wav.rate,
        container: container_in(wav.octets),
        width: width_in(wav.bits),
    }
}

/// Two channels by their numbers, from 1 on; 0 means that there is no second one.
fn channels_of(first: u16, second: u16) -> Channels
    ensures { result ≡ channels_of first second }
{
    Channels {
        first: first.saturating_sub(1),
        second: if second == 0 { None } else { Some(second - 1) },
    }
}

/// Whether a frame has both channels.
fn has_channels(wav: &Aes3Wav, first: u16, second: u16) -> bool
    ensures { result ≡ has_channels wav.now first second }
{
    first > 0 && first <= wav.channels && second <= wav.channels
}

/// The word of a sample.
pub(crate) fn word_of_sample(sample: &[u8; 4]) -> u32
    ensures { word_bytes result ≡ sample.now }
{
    u32::from_le_bytes(*sample)
}

/// The words of two samples.
fn words_of_pair(pair: [u8; 8]) -> [u32; 2]
    ensures { word_bytes (get_or result 0 0) ++ word_bytes (get_or result 1 0) ≡ pair }
{
    let [a, b, c, d, e, f, g, h] = pair;
    [word_of_sample(&[a, b, c, d]), word_of_sample(&[e, f, g, h])]
}

/// Puts the samples of two channels of the first frames.
fn put_pairs(
    format: WaveFormat,
    channels: Channels,
    octets: &[u8],
    count: usize,
    samples: &mut [u32],
)
    requires first { channels.first < format.channels }
    requires second { ForSome channels.second (λ n. n < format.channels) }
    requires frames { count * frame_len format ≤ length octets.now }
    requires room { 2 * count ≤ length samples.old }
    ensures pairs { ArePairs format channels octets.now count samples.new }
    ensures others { drop (2 * count) samples.new ≡ drop (2 * count) samples.old }
{
    let len = format.frame_len();
    let mut at = 0;
    for i in 0..count {
        let pair = format.two_samples(channels, &octets[at..at + len]);
        samples[2 * i..2 * i + 2].copy_from_slice(&words_of_pair(pair));
        at += len;
    }
}

/// Puts the samples of two channels of the frames in these octets: for each frame a sample of
/// channel `first` and one of channel `second`, as words of 32 bits in two's complement. The
/// highest bit of a sample is the highest of its word; bits that are not valid are 0. Takes whole
/// frames, as long as there is room for two samples of each. Channels are counted from 1; if
/// `second` is 0, its samples are zero. Returns how many frames it took: none if the file has no
/// such channels.
#[unsafe(no_mangle)]
pub extern "C" fn aes3_wav_samples(
    wav: &Aes3Wav,
    first: u16,
    second: u16,
    octets: &[u8],
    samples: &mut [u32],
) -> usize
    ensures count { result ≡ frames_put wav.now first second (length octets.now) (length samples.old) }
    ensures pairs { ArePairs (format_in wav.now) (channels_of first second) octets.now result
        samples.new }
    ensures others { drop (2 * result) samples.new ≡ drop (2 * result) samples.old }
{
    if !has_channels(wav, first, second) {
        return 0;
    }
    let format = format_in(wav);
    let count = (octets.len() / format.frame_len()).min(samples.len() / 2);
    put_pairs(format, channels_of(first, second), octets, count, samples);
    count
}
