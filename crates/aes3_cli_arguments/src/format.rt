//! The form of samples.

ghost use Rattle.std.specs.Prelude.{◌≡◌};
ghost use Rattle.aes3_cli_arguments.specs.Jobs.{format_by, format_in, options_of};

use crate::choice::{Choice, chosen};
use aes3_forms_samples::SampleFormat;
use clap::ArgMatches;

/// The form of samples by the options: 32 bits if they name none.
pub(crate) fn format(options: &ArgMatches<'_>) -> SampleFormat
    ensures { result ≡ format_by (options_of options.now) }
{
    chosen(options, "pcm").unwrap_or(SampleFormat::S32)
}

impl Choice for SampleFormat {
    ghost chosen_by = { format_in };

    fn of_word(word: &str) -> Option<Self> {
        match word {
            "s32" => Some(SampleFormat::S32),
            "s24" => Some(SampleFormat::S24),
            "s24in32" => Some(SampleFormat::S24In32),
            "s16" => Some(SampleFormat::S16),
            _ => None,
        }
    }
}
