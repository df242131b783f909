//! What `watch` does.

ghost use Rattle.std.specs.Prelude.{◌≡◌, codes};
ghost use Rattle.aes3_cli_arguments.specs.Jobs.{AreTaken, AsksToRead, every_by, options_of};

use crate::event_style::{rate, style};
use crate::value::number_if_given;
use aes3_cli_jobs::ReadWork;
use aes3_frame::FRAME_CELLS;
use clap::ArgMatches;

/// What `watch` does, with its options.
pub(crate) fn watch(options: &ArgMatches<'_>) -> ReadWork
    requires { AreTaken (options_of options.now) }
    ensures { AsksToRead (codes "watch") (options_of options.now) result }
{
    let style = style(options);
    match every(options) {
        Some(every) => ReadWork::WatchSums { style, every },
        None => ReadWork::Watch { style },
    }
}

/// The period of sums in cells, if the options ask for sums.
fn every(options: &ArgMatches<'_>) -> Option<u64>
    requires { AreTaken (options_of options.now) }
    ensures { result ≡ every_by (options_of options.now) }
{
    if let Some(cells) = number_if_given(options, "every") {
        return Some(cells);
    }
    let Some(seconds) = number_if_given(options, "every-seconds") else {
        return None;
    };
    let Some(rate) = rate(options) else {
        return None;
    };
    Some(seconds * u64::from(rate) * FRAME_CELLS)
}
