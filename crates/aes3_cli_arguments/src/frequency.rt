//! The sampling frequency for a status.

ghost use Rattle.std.specs.Prelude.{◌≡◌};
ghost use Rattle.std.specs.Option.{option_map};
ghost use Rattle.aes3_cli_arguments.specs.Jobs.{has_unknown_rate, options_of, rate_in, rate_named};

use clap::ArgMatches;

/// The setting for the sampling frequency of `from-pcm`, if one is named.
pub(crate) fn rate_setting(options: &ArgMatches<'_>) -> Option<&'static str>
    ensures { option_map (λ text. text.now) result ≡ rate_named (options_of options.now) }
{
    let Some(text) = options.get_str("hz") else {
        return None;
    };
    rate_of_text(text)
}

/// Whether a sampling frequency without a code is named.
pub(crate) fn has_unknown_rate(options: &ArgMatches<'_>) -> bool
    ensures { result ≡ has_unknown_rate (options_of options.now) }
{
    let Some(text) = options.get_str("hz") else {
        return false;
    };
    rate_of_text(text).is_none()
}

/// The setting for a sampling frequency in hertz or kilohertz; `None` if no status has a code for
/// it (AES3-2, IEC 60958-3).
fn rate_of_text(text: &str) -> Option<&'static str>
    ensures { option_map (λ text. text.now) result ≡ rate_in text.now }
{
    match text {
        "22050" | "22.05k" => Some("rate=22050"),
        "24000" | "24k" => Some("rate=24000"),
        "32000" | "32k" => Some("rate=32000"),
        "44100" | "44.1k" => Some("rate=44100"),
        "48000" | "48k" => Some("rate=48000"),
        "88200" | "88.2k" => Some("rate=88200"),
        "96000" | "96k" => Some("rate=96000"),
        "176400" | "176.4k" => Some("rate=176400"),
        "192000" | "192k" => Some("rate=192000"),
        "768000" | "768k" => Some("rate=768000"),
        _ => None,
    }
}
