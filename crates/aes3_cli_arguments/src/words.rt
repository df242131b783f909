//! The form of a block file's words.

ghost use Rattle.std.specs.Prelude.{◌≡◌};
ghost use Rattle.aes3_cli_arguments.specs.Jobs.{options_of, words_by, words_in};

use crate::choice::{Choice, chosen};
use aes3_forms_words::Words;
use clap::ArgMatches;

/// The form of a block file's words by the options: its own if they name none.
pub(crate) fn words(options: &ArgMatches<'_>) -> Words
    ensures { result ≡ words_by (options_of options.now) }
{
    chosen(options, "words").unwrap_or(Words::Own)
}

impl Choice for Words {
    ghost chosen_by = { words_in };

    fn of_word(word: &str) -> Option<Self> {
        match word {
            "own" => Some(Words::Own),
            "alsa" => Some(Words::Alsa),
            "am824" => Some(Words::Am824),
            _ => None,
        }
    }
}
