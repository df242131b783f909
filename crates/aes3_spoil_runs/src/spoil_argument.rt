//! The options and values that the program takes, each with its line of help.

ghost use Rattle.aes3_cli.specs.CommandLine.{IsOption, flag, settings_option};
ghost use Rattle.aes3_spoil_runs.specs.Faults.{value_name};
ghost use Rattle.aes3_spoil_runs.specs.SpoilLine.{rule};
ghost use Rattle.std.specs.Prelude.{◌≡◌};

use crate::named::NamedError;
use aes3_cli::{Define, flag, repeated_option, text_option};
use clap::Arg;
use std::alloc::Global;

/// An option or a value that the program takes.
#[derive(Clone, Copy)]
pub(crate) enum Argument {
    /// `--packed-in`: the cells that are read are packed.
    PackedIn,
    /// `--packed-out`: the cells that are written are packed.
    PackedOut,
    /// An error at a place.
    Named(NamedError),
    /// `--every N:KIND`: repeated errors.
    Every,
    /// The name of the file that is read instead of standard input.
    File,
}

/// All arguments, in the order in which help lists them.
pub(crate) const ARGUMENTS: [Argument; 12] = [
    Argument::PackedIn,
    Argument::PackedOut,
    Argument::Named(NamedError::Cell),
    Argument::Named(NamedError::Invert),
    Argument::Named(NamedError::Lost),
    Argument::Named(NamedError::Double),
    Argument::Named(NamedError::Parity),
    Argument::Named(NamedError::Biphase),
    Argument::Named(NamedError::Preamble),
    Argument::Named(NamedError::CheckByte),
    Argument::Every,
    Argument::File,
];

impl Define for Argument {
    ghost rule = { rule };

    fn define<'a>(self, alloc: Global) -> Arg<'a> {
        match self {
            Argument::PackedIn => flag(alloc, "packed-in", "Read packed cells, eight an octet"),
            Argument::PackedOut => flag(alloc, "packed-out", "Write packed cells, eight an octet"),
            Argument::Named(named) => {
                repeated_option(alloc, named.name(), value_name(named), help(named))
            }
            Argument::Every => text_option(
                alloc,
                "every",
                "N:KIND",
                "Insert an error at each N-th cell: cell, invert, drop or double",
            ),
            Argument::File => Arg::new(alloc, "FILE").help(
                "The file to read; standard input if it is `-` or left out",
            ),
        }
    }
}

/// The name of the option's value in the help.
pub(crate) fn value_name<'a>(named: NamedError) -> &'a str
    ensures { result.now ≡ value_name named }
{
    match named {
        NamedError::Biphase => "P:SLOT",
        _ => "P",
    }
}

/// The option's line of help.
fn help<'a>(named: NamedError) -> &'a str {
    match named {
        NamedError::Cell => "Invert cell P",
        NamedError::Invert => "Invert cell P and all cells after it",
        NamedError::Lost => "Leave out cell P",
        NamedError::Double => "Write cell P twice",
        NamedError::Parity => "Make the parity of the subframe at cell P wrong",
        NamedError::Biphase => "Begin slot SLOT of the subframe at cell P with no level change",
        NamedError::Preamble => "Make the preamble of the subframe at cell P invalid",
        NamedError::CheckByte => "Make the check byte of channel 1 wrong in the block at cell P",
    }
}
