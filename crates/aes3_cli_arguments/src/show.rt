//! What `show` does.

ghost use Rattle.std.specs.Prelude.{◌≡◌, codes};
ghost use Rattle.aes3_cli_arguments.specs.Jobs.{AreTaken, AsksToRead, detail_by, options_of};

use crate::value::flag;
use aes3_cli_jobs::ReadWork;
use aes3_status::Detail;
use clap::ArgMatches;

/// What `show` does, with its options.
pub(crate) fn show(options: &ArgMatches<'_>) -> ReadWork
    requires { AreTaken (options_of options.now) }
    ensures { AsksToRead (codes "show") (options_of options.now) result }
{
    let detail = detail(options);
    if flag(options, "changes") {
        ReadWork::ShowChanges { detail }
    } else {
        ReadWork::Show { detail }
    }
}

/// What follows each line: `--more` includes the place, and `--names` is by itself.
fn detail(options: &ArgMatches<'_>) -> Detail
    requires { AreTaken (options_of options.now) }
    ensures { result ≡ detail_by (options_of options.now) }
{
    if flag(options, "more") {
        Detail::Carried
    } else if flag(options, "at") {
        Detail::Place
    } else if flag(options, "names") {
        Detail::Names
    } else {
        Detail::Plain
    }
}
