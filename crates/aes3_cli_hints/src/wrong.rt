//! What is wrong with the header of a WAV file, in words.

use aes3_wave::{Cause, HeaderError};
use std::alloc::Global;

/// What is wrong with a header, and where; `None` if there is no memory.
pub(crate) fn wrong_of(alloc: Global, error: HeaderError) -> Option<String> {
    let at = error.at;
    let text = match error.cause {
        Cause::NotPcm { format } => {
            let name = name_of(format);
            format!(in alloc; "the samples are {name}, format {format}, not PCM (octet {at}): ")
        }
        Cause::WrongBits { bits } => {
            format!(in alloc; "samples of {bits} bits are not read (octet {at}): ")
        }
        Cause::WrongFrame { octets } => {
            format!(in alloc; "frames of {octets} octets do not fit its channels (octet {at}): ")
        }
        cause => {
            let what = what_of(cause);
            format!(in alloc; "{what} (octet {at}): ")
        }
    };
    text.ok()
}

/// What is wrong, for causes without a number.
fn what_of(cause: Cause) -> &'static str {
    match cause {
        Cause::NotRiff => "this does not begin as a WAV file",
        Cause::NotWave => "this RIFF file is no WAV file",
        Cause::ShortSizes => "its chunk `ds64` is too short",
        Cause::ShortFormat => "its chunk `fmt ` is too short",
        Cause::NoChannels => "its samples have no channels",
        Cause::NoFormat => "its samples come before their format",
        Cause::Ended => "the file ends before its samples",
        _ => "its header is wrong",
    }
}

/// What the number of a format says of its samples.
fn name_of(format: u16) -> &'static str {
    match format {
        2 | 17 => "ADPCM",
        3 => "floating point",
        6 => "A-law",
        7 => "mu-law",
        80 => "MPEG audio",
        85 => "MP3",
        _ => "of another kind",
    }
}
