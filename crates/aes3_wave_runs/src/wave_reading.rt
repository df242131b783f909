//! A WAV file to a block file.

ghost use Rattle.std.specs.Prelude.{◌≡◌, ◌<◌, ◌≤◌, ◌+◌, ◌^◌, List, ℕ, IfOk, IsOk, Ok, Some, length};
ghost use Rattle.std.specs.Prelude.{true};
ghost use Rattle.std.specs.Option.{ForSome};
ghost use Rattle.aes3_cell.specs.Ends.{Grew, Told};
ghost use Rattle.aes3_engine.specs.Sampling.{pcm_words};
ghost use Rattle.aes3_input.specs.Running.{ends_of};
ghost use Rattle.aes3_forms_samples.specs.declared.sample_format.SampleFormat.TheVariants.{S32};
ghost use Rattle.aes3_wave_runs.specs.FromWav.{WaveRun, change_for, channels_for, full_width, has_channels};
ghost use Rattle.aes3_wave_runs.specs.FromWav.{has_second, read_by};
ghost use Rattle.aes3_wave.specs.Formats.{frame_len};
ghost use Rattle.aes3_wave_runs.specs.Wave.{IsWave, SamplesRun, file_samples, frames_in, limit_of};
ghost use Rattle.aes3_wave_runs.specs.Wave.{wave_file};
ghost use Rattle.aes3_wave.specs.declared.chunk.WaveHeader.{WaveHeader};
ghost use Rattle.aes3_wave.specs.Headers.{judged};

use crate::frames::PAIR_LEN;
use crate::header::read_header;
use crate::options::{Converted, WaveOptions};
use crate::status_use::status_of;
use crate::wave_error::WaveError;
use crate::wave_input::{frames_most, taken_len};
use crate::wave_state::WaveInput;
use aes3_cell::{Counts, RunError, Sink, Source};
use aes3_forms_samples::SampleFormat;
use aes3_forms_words::Words;
use aes3_input::convert;
use aes3_status::Change;
use aes3_wave::{Channels, Container, WaveFormat, WaveHeader, Width};

/// How many whole frames there are in `octets` octets after a header.
fn frames_in(header: &WaveHeader, octets: u64) -> u64
    requires { 0 < frame_len header.now.format }
    ensures frames { result ≡ frames_in header.now octets }
    ensures few { result ≤ 2 ^ 37 }
{
    octets.min(taken_len(header.format, header.len)) / header.format.frame_len() as u64
}

/// Converts what comes after a header that was read: writes a block file of the samples of two
/// channels, as `from_pcm_words` does with samples of 32 bits.
///
/// # Errors
/// Those of `from_pcm_words`. `BadLength` if the samples end inside a frame. `TooLong` if the file
/// has more than `max_bytes` octets, or if the octets after its header are more than those of 2^37
/// frames.
fn convert_samples<S: Source, T: Sink>(
    source: &mut S,
    sink: &mut T,
    max_bytes: u64,
    header: &WaveHeader,
    channels: Channels,
    exact: bool,
    change: &Change,
    words: Words,
) -> Result<Counts, RunError>
    requires source_room { S.failed source.old + 1 < 2 ^ 64 }
    requires sink_room { T.failed sink.old + 1 < 2 ^ 64 }
    requires limit { max_bytes ≤ 2 ^ 40 }
    requires start { header.now.start ≤ max_bytes }
    requires first { channels.first < header.now.format.channels }
    requires second { ForSome channels.second (λ n. n < header.now.format.channels) }
    requires frame { frame_len header.now.format < 2 ^ 16 }
    ensures { SamplesRun header.now (wave_file header.now channels exact words change.now) max_bytes
        (ends_of S.Source source.old source.new T.Sink sink.old sink.new) result }
{
    let block_len = SampleFormat::S32.block_len() as u64;
    let limit = (max_bytes - header.start).min(frames_most(header.format));
    let mut input = WaveInput::new(header.format, channels, header.len, exact, words);
    let mut change = *change;
    let bytes = convert(source, sink, limit, &mut input, &mut change)?;
    Ok(Counts {
        bytes: header.start + bytes,
        cells: 0,
        blocks: (PAIR_LEN as u64 * frames_in(header, bytes)).div_ceil(block_len),
        faults: 0,
        unfinished: 0,
        marks: 0,
    })
}

/// The channels that are taken.
fn channels_for(options: &WaveOptions, format: WaveFormat) -> Channels
    ensures { result ≡ channels_for options.now format }
{
    options
        .channels
        .unwrap_or(format.usual_channels(options.mono))
}

/// Whether a frame has the second channel, if there is one.
fn has_second(format: WaveFormat, second: Option<u16>) -> bool
    ensures { result ≡ has_second format second }
{
    match second {
        Some(second) => second < format.channels,
        None => true,
    }
}

/// Whether a frame has both channels.
fn has_channels(format: WaveFormat, channels: Channels) -> bool
    ensures { result ≡ has_channels format channels }
{
    channels.first < format.channels && has_second(format, channels.second)
}

/// The change of each block: with the status for the format, if none is given.
fn change_for(options: &WaveOptions, format: WaveFormat) -> Change
    ensures { result ≡ change_for options.now format }
{
    let status = status_of(&format, options.status_use);
    let change = options.change;
    Change {
        status1: Some(change.status1.unwrap_or(status)),
        status2: Some(change.status2.unwrap_or(status)),
        ..change
    }
}

/// The width of all bits of a sample.
fn full_width(container: Container) -> Width
    ensures { result ≡ full_width container }
{
    match container {
        Container::Octets1 => Width::Bits8,
        Container::Octets2 => Width::Bits16,
        Container::Octets3 => Width::Bits24,
        Container::Octets4 => Width::Bits32,
    }
}

/// The header by which the samples are read. With `exact`, bits that the header calls unused are
/// read too, so that none that is not 0 is lost.
fn read_by(exact: bool, header: &WaveHeader) -> WaveHeader
    ensures { result ≡ read_by exact header.now }
{
    let format = header.format;
    WaveHeader {
        format: WaveFormat {
            channels: format.channels,
            rate: format.rate,
            container: format.container,
            width: if exact {
                full_width(format.container)
            } else {
                format.width
            },
        },
        start: header.start,
        len: header.len,
    }
}

/// Writes a block file of the samples of a WAV file: two channels of each frame, as
/// `from_pcm_words` does with samples of 32 bits whose other bits are 0. With `exact`, all bits of a
/// sample are read, also those that the header calls unused. The channel status says the sampling
/// frequency and the width, except for what [`crate::missing_codes`] returns. What comes after the
/// samples is ignored. Each block is written as soon as its samples have come.
///
/// # Errors
/// `Header` if the header is rejected, `NoChannel` if a chosen channel is not in a frame. Then
/// nothing is written.
///
/// `Run` for an error of a run over samples:
/// - `BadLength` if they end inside a frame.
/// - `BadSample` if `exact` is true and a sample has more than 24 bits.
/// - `SoundHeader` if they begin with the header of a sound file.
/// - `TooLong` if the file has more than `max_bytes` octets, or if the octets after its header are
///   more than those of 2^37 frames.
/// - `Read` and `Write` if the input or output failed.
///
/// Then the blocks that were whole before are written; after `Write`, a front of the output.
// Not inlined, so that the stack of other commands has no space for a frame, which can have 65,535
// octets.
#[inline(never)]
pub fn from_wav<S: Source, T: Sink>(
    source: &mut S,
    sink: &mut T,
    max_bytes: u64,
    options: &WaveOptions,
) -> Result<Converted, WaveError>
    requires source_room { S.failed source.old + 1 < 2 ^ 64 }
    requires sink_room { T.failed sink.old + 1 < 2 ^ 64 }
    requires limit { max_bytes ≤ 2 ^ 40 }

    // If it returns Ok, the block file of the samples is written, filled up with zero samples to
    // whole blocks.
    ensures file { IfOk result (λ n. (b : List ℕ) → Told (S.given source.old) (S.given source.new) b
        → Grew (T.taken sink.old) (T.taken sink.new)
        (pcm_words S32 options.now.words (change_for options.now n.header.format)
        (file_samples (read_by options.now.exact n.header) (channels_for options.now n.header.format) b))) }

    // It returns Ok if neither input nor output failed and the file is right. It must have a header
    // with the channels that are taken, end with a whole frame, have samples that `from_pcm` takes,
    // and fit.
    ensures owed { (b : List ℕ) (header : WaveHeader) → Told (S.given source.old) (S.given source.new) b
        → judged b ≡ Ok (Some header)
        → has_channels header.format (channels_for options.now header.format) ≡ true
        → IsWave (read_by options.now.exact header) (channels_for options.now header.format)
        options.now.exact b
        → length b ≤ limit_of header max_bytes
        → S.failed source.new ≡ S.failed source.old → T.failed sink.new ≡ T.failed sink.old
        → IsOk result }

    // What it returns for every file, and what it has written then.
    ensures run { WaveRun options.now max_bytes
        (ends_of S.Source source.old source.new T.Sink sink.old sink.new) result }
{
    let header = read_header(source, max_bytes)?;
    let channels = channels_for(options, header.format);
    if !has_channels(header.format, channels) {
        let channels = header.format.channels;
        return Err(WaveError::NoChannel { channels });
    }
    let change = change_for(options, header.format);
    match convert_samples(
        source,
        sink,
        max_bytes,
        &read_by(options.exact, &header),
        channels,
        options.exact,
        &change,
        options.words,
    ) {
        Ok(counts) => Ok(Converted { header, counts }),
        Err(error) => Err(WaveError::Run(error)),
    }
}
