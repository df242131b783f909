//! The layout of the octets of packed cells.

ghost use Rattle.std.specs.Prelude.{◌≡◌, None};
ghost use Rattle.aes3_cli_arguments.specs.Jobs.{AreOctets, AreTaken, misuse_by, options_of};

use crate::value::flag;
use clap::ArgMatches;

/// The layout of the octets of packed cells.
#[derive(Clone, Copy)]
pub struct Octets {
    /// Whether the octets that are read have no last octet.
    pub raw_in: bool,
    /// Whether the first cell of each octet is in its lowest bit, in packed cells that are read or
    /// written.
    pub lsb_first: bool,
}

/// The layout of the octets by the options.
pub(crate) fn octets_of_options(options: &ArgMatches<'_>) -> Octets
    requires taken { AreTaken (options_of options.now) }
    requires fit { misuse_by (options_of options.now) ≡ None }
    ensures { AreOctets (options_of options.now) result }
{
    Octets {
        raw_in: flag(options, "raw-in"),
        lsb_first: flag(options, "lsb-first"),
    }
}
