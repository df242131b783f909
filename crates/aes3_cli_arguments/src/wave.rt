//! What `to-wav` and `from-wav` do with WAV files.

ghost use Rattle.std.specs.Prelude.{◌≡◌, codes};
ghost use Rattle.aes3_cli_arguments.specs.Jobs.{AreTaken, AsksToRead, channel_in, channels_by, channels_in};
ghost use Rattle.aes3_cli_arguments.specs.Jobs.{channels_of_two, depth_by, depth_in, has_preset_beside_use};
ghost use Rattle.aes3_cli_arguments.specs.Jobs.{has_mono_beside_channels, has_unknown_use, is_professional};
ghost use Rattle.aes3_cli_arguments.specs.Jobs.{mono_by, mono_in};
ghost use Rattle.aes3_cli_arguments.specs.Jobs.{options_of, use_in, use_named};

use crate::choice::{Choice, chosen};
use crate::event_style::rate;
use crate::fill_option::fill_of_options;
use crate::preset::preset;
use crate::value::flag;
use aes3_cli_jobs::ReadWork;
use aes3_wave::{Channels, Depth, Mono};
use clap::ArgMatches;

/// What `to-wav` does, with its options.
pub(crate) fn to_wav(options: &ArgMatches<'_>) -> ReadWork
    requires { AreTaken (options_of options.now) }
    ensures { AsksToRead (codes "to-wav") (options_of options.now) result }
{
    match fill_of_options(options) {
        Some(fill) => ReadWork::ToFilledWav {
            depth: depth(options),
            rate: rate(options),
            fill,
            marked: flag(options, "marked"),
        },
        None if flag(options, "exact") => ReadWork::ToExactWav {
            depth: depth(options),
            rate: rate(options),
        },
        None => ReadWork::ToWav {
            depth: depth(options),
            rate: rate(options),
            valid: flag(options, "valid"),
        },
    }
}

/// The width of the samples of a WAV file by the options: 24 bits if they name none.
fn depth(options: &ArgMatches<'_>) -> Depth
    ensures { result ≡ depth_by (options_of options.now) }
{
    chosen(options, "bits").unwrap_or(Depth::TwentyFour)
}

impl Choice for Depth {
    ghost chosen_by = { depth_in };

    fn of_word(word: &str) -> Option<Self> {
        match word {
            "16" => Some(Depth::Sixteen),
            "24" => Some(Depth::TwentyFour),
            "32" => Some(Depth::ThirtyTwo),
            _ => None,
        }
    }
}

/// Whether the channel status for a header is for professional use, else for consumer use.
pub(crate) fn is_professional(options: &ArgMatches<'_>) -> bool
    ensures { result ≡ is_professional (options_of options.now) }
{
    use_if_named(options).unwrap_or(false)
}

/// Whether the use that the options name is professional.
fn use_if_named(options: &ArgMatches<'_>) -> Option<bool>
    ensures { result ≡ use_named (options_of options.now) }
{
    let Some(text) = options.get_str("use") else {
        return None;
    };
    use_of_text(text)
}

/// Whether an unknown use is named.
pub(crate) fn has_unknown_use(options: &ArgMatches<'_>) -> bool
    ensures { result ≡ has_unknown_use (options_of options.now) }
{
    let Some(text) = options.get_str("use") else {
        return false;
    };
    use_of_text(text).is_none()
}

/// Whether the use of this name is professional.
fn use_of_text(text: &str) -> Option<bool>
    ensures { result ≡ use_in text.now }
{
    match text {
        "consumer" => Some(false),
        "professional" => Some(true),
        _ => None,
    }
}

/// Which channels a single channel of a WAV file is for by the options: both if they name none.
pub(crate) fn mono(options: &ArgMatches<'_>) -> Mono
    ensures { result ≡ mono_by (options_of options.now) }
{
    chosen(options, "mono").unwrap_or(Mono::Both)
}

impl Choice for Mono {
    ghost chosen_by = { mono_in };

    fn of_word(word: &str) -> Option<Self> {
        match word {
            "both" => Some(Mono::Both),
            "first" => Some(Mono::First),
            _ => None,
        }
    }
}

/// Whether a use is named for the status of a header, although a preset gives another status.
pub(crate) fn has_preset_beside_use(options: &ArgMatches<'_>) -> bool
    ensures { result ≡ has_preset_beside_use (options_of options.now) }
{
    use_if_named(options).is_some() && preset(options).is_some()
}

/// The channels of a WAV file that the options choose.
pub(crate) fn channels(options: &ArgMatches<'_>) -> Option<Channels>
    ensures { result ≡ channels_by (options_of options.now) }
{
    chosen(options, "channels")
}

/// Whether channels are named for a single channel, although two channels are chosen.
pub(crate) fn has_mono_beside_channels(options: &ArgMatches<'_>) -> bool
    ensures { result ≡ has_mono_beside_channels (options_of options.now) }
{
    chosen::<Mono>(options, "mono").is_some() && channels(options).is_some()
}

/// Two numbers, from 1 on, with a comma between them.
impl Choice for Channels {
    ghost chosen_by = { channels_in };

    fn of_word(word: &str) -> Option<Self> {
        let (first, second) = word.split_once(',')?;
        channels_of_two(channel_of_text(first), channel_of_text(second))
    }
}

/// Both channels, if there are both.
fn channels_of_two(first: Option<u16>, second: Option<u16>) -> Option<Channels>
    ensures { result ≡ channels_of_two first second }
{
    match (first, second) {
        (Some(first), Some(second)) => Some(Channels {
            first,
            second: Some(second),
        }),
        (Some(_), None) => None,
        (None, _) => None,
    }
}

/// The channel of a text that is its number, from 1 on.
fn channel_of_text(text: &str) -> Option<u16>
    ensures { result ≡ channel_in text.now }
{
    match text.parse::<u16>() {
        Ok(number) => number.checked_sub(1),
        Err(_) => None,
    }
}
