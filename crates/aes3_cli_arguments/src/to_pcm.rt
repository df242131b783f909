//! What `to-pcm` does.

ghost use Rattle.std.specs.Prelude.{codes};
ghost use Rattle.aes3_cli_arguments.specs.Jobs.{AreTaken, AsksToRead, options_of};

use crate::fill_option::fill_of_options;
use crate::format::format;
use crate::value::flag;
use aes3_cli_jobs::ReadWork;
use clap::ArgMatches;

/// What `to-pcm` does, with its options.
pub(crate) fn to_pcm(options: &ArgMatches<'_>) -> ReadWork
    requires { AreTaken (options_of options.now) }
    ensures { AsksToRead (codes "to-pcm") (options_of options.now) result }
{
    match fill_of_options(options) {
        Some(fill) => ReadWork::ToFilledPcm {
            format: format(options),
            fill,
            marked: flag(options, "marked"),
        },
        None if flag(options, "exact") => ReadWork::ToExactPcm {
            format: format(options),
        },
        None => ReadWork::ToPcm {
            format: format(options),
            valid: flag(options, "valid"),
        },
    }
}
