//! Values that an option gives by a word.

ghost use Rattle.std.specs.Prelude.{◌≡◌, Option, false, not, option_and_then};
ghost use Rattle.std.specs.Option.{is_some, option_map_or};
ghost use Rattle.clap.specs.Walk.{Text, first_of};
ghost use Rattle.aes3_cli_arguments.specs.Jobs.{options_of};

use clap::ArgMatches;

/// A value that an option gives by a word.
pub(crate) trait Choice: Copy {
    ghost chosen_by: { Text → Option Self };

    /// The value of this word; `None` if it has none.
    fn of_word(word: &str) -> Option<Self>
        ensures { result ≡ chosen_by word.now };
}

/// The value that this option gives, if it is given with a word of one.
pub(crate) fn chosen<C: Choice>(options: &ArgMatches<'_>, name: &str) -> Option<C>
    ensures { result ≡ option_and_then C.chosen_by (first_of name.now (options_of options.now)) }
{
    match options.get_str(name) {
        Some(word) => C::of_word(word),
        None => None,
    }
}

/// Whether this option is given with a word of no value.
pub(crate) fn has_unknown<C: Choice>(options: &ArgMatches<'_>, name: &str) -> bool
    ensures { result ≡ option_map_or (λ word. not (is_some (C.chosen_by word)))
        (first_of name.now (options_of options.now)) false }
{
    match options.get_str(name) {
        Some(word) => C::of_word(word).is_none(),
        None => false,
    }
}
