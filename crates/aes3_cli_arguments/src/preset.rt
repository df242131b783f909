//! The status that a channel begins with.

ghost use Rattle.std.specs.Prelude.{◌≡◌};
ghost use Rattle.std.specs.Option.{option_or};
ghost use Rattle.aes3_cli_arguments.specs.Jobs.{has_unknown_preset, options_of, preset_by, preset_in};
ghost use Rattle.aes3_cli_arguments.specs.Jobs.{begun_with, unknown_status_for};

use aes3_status::{Settings, set_fields};
use clap::ArgMatches;

/// The default status for consumer use (IEC 60958-3): linear PCM, no copyright asserted, no
/// sampling frequency indicated, words of 24 bits.
const CONSUMER: [u8; 24] = [
    0x04, 0, 0, 0x01, 0x0B, 0, 0, 0, 0, 0, 0, 0, 0, 0, 0, 0, 0, 0, 0, 0, 0, 0, 0, 0,
];

/// The default status for professional use (AES3-2), without its check byte: linear PCM, no
/// emphasis, two channels, words of 24 bits in which the auxiliary bits are audio.
const PROFESSIONAL: [u8; 24] = [
    0x05, 0x08, 0x2C, 0, 0, 0, 0, 0, 0, 0, 0, 0, 0, 0, 0, 0, 0, 0, 0, 0, 0, 0, 0, 0,
];

/// The status of samples of which nothing is known (IEC 60958-3): consumer use, no copyright
/// asserted, no sampling frequency indicated, words of at most 24 bits.
const UNKNOWN: [u8; 24] = [
    0x04, 0, 0, 0x01, 0x01, 0, 0, 0, 0, 0, 0, 0, 0, 0, 0, 0, 0, 0, 0, 0, 0, 0, 0, 0,
];

/// The status that a channel begins with if neither a text nor a preset gives one.
#[derive(Clone, Copy)]
pub enum Beginning {
    /// The status of each block.
    OfEachBlock,
    /// A status that indicates nothing.
    Unclaimed,
}

impl Beginning {
    /// The status, given these settings.
    pub(crate) fn status(self, settings: &Option<Settings>) -> Option<[u8; 24]>
        ensures { result ≡ begun_with self settings.now }
    {
        match self {
            Beginning::OfEachBlock => None,
            Beginning::Unclaimed => Some(unknown_status_for(settings)),
        }
    }
}

/// The status of samples of which nothing is known, given these settings. If they make the use
/// professional, all bytes are 0 before, since bytes for consumer use then mean something else.
fn unknown_status_for(settings: &Option<Settings>) -> [u8; 24]
    ensures { result ≡ unknown_status_for settings.now }
{
    match settings {
        Some(settings) => {
            let mut status = UNKNOWN;
            set_fields(&mut status, settings);
            if status[0] % 2 == 1 { [0; 24] } else { UNKNOWN }
        }
        None => UNKNOWN,
    }
}

/// The status that a channel begins with if no text gives one: that of the preset, or `other` if
/// none is named.
pub(crate) fn preset_or(options: &ArgMatches<'_>, other: Option<[u8; 24]>) -> Option<[u8; 24]>
    ensures { result ≡ option_or (preset_by (options_of options.now)) other }
{
    preset(options).or(other)
}

/// The status of the preset that the options name.
pub(crate) fn preset(options: &ArgMatches<'_>) -> Option<[u8; 24]>
    ensures { result ≡ preset_by (options_of options.now) }
{
    let Some(text) = options.get_str("preset") else {
        return None;
    };
    preset_of_text(text)
}

/// Whether an unknown preset is named.
pub(crate) fn has_unknown_preset(options: &ArgMatches<'_>) -> bool
    ensures { result ≡ has_unknown_preset (options_of options.now) }
{
    let Some(text) = options.get_str("preset") else {
        return false;
    };
    preset_of_text(text).is_none()
}

/// The status of the preset of this name.
fn preset_of_text(text: &str) -> Option<[u8; 24]>
    ensures { result ≡ preset_in text.now }
{
    match text {
        "consumer" => Some(CONSUMER),
        "professional" => Some(PROFESSIONAL),
        _ => None,
    }
}
