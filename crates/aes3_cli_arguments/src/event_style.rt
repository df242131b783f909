//! The style of the lines of events by the options.

ghost use Rattle.std.specs.Prelude.{◌≡◌, codes};
ghost use Rattle.aes3_cli_arguments.specs.Jobs.{MayBeFlag, MayBeRate, notation_by, options_of, rate_by, style_by};

use aes3_status::{Notation, Style};
use clap::ArgMatches;

/// Words or JSON objects.
pub(crate) fn notation(options: &ArgMatches<'_>) -> Notation
    requires { MayBeFlag (options_of options.now) (codes "json") }
    ensures { result ≡ notation_by (options_of options.now) }
{
    if options.get_flag("json") {
        Notation::Json
    } else {
        Notation::Words
    }
}

/// How many frames a second has, if the options say it.
pub(crate) fn rate(options: &ArgMatches<'_>) -> Option<u32>
    requires { MayBeRate (options_of options.now) (codes "rate") }
    ensures { result ≡ rate_by (options_of options.now) }
{
    options.get_one::<u32>("rate")
}

/// How the lines of events are written.
pub(crate) fn style(options: &ArgMatches<'_>) -> Style
    requires json { MayBeFlag (options_of options.now) (codes "json") }
    requires rate { MayBeRate (options_of options.now) (codes "rate") }
    ensures { result ≡ style_by (options_of options.now) }
{
    Style {
        notation: notation(options),
        rate: rate(options),
    }
}
