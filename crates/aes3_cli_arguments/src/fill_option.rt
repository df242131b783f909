//! The option `--fill`: what is written for time that no block covers.

ghost use Rattle.std.specs.Prelude.{◌≡◌};
ghost use Rattle.aes3_cli_arguments.specs.Jobs.{fill_by, fill_in, options_of};

use crate::choice::{Choice, chosen};
use aes3_frame::Fill;
use clap::ArgMatches;

/// The filling by the options for time that no block covers, if they name one.
pub(crate) fn fill_of_options(options: &ArgMatches<'_>) -> Option<Fill>
    ensures { result ≡ fill_by (options_of options.now) }
{
    chosen(options, "fill")
}

impl Choice for Fill {
    ghost chosen_by = { fill_in };

    fn of_word(word: &str) -> Option<Self> {
        match word {
            "zero" => Some(Fill::Zero),
            "hold" => Some(Fill::Hold),
            _ => None,
        }
    }
}
