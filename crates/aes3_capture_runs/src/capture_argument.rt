//! The options and values that the program takes, each with its line of help.

ghost use Rattle.aes3_cli.specs.CommandLine.{IsOption, flag, text_option};
ghost use Rattle.aes3_capture_runs.specs.CellsLine.{rule};

use aes3_cli::{Define, flag, text_option};
use clap::Arg;
use std::alloc::Global;

/// An option or a value that the program takes.
#[derive(Clone, Copy)]
pub(crate) enum Argument {
    /// `--rate HZ`: how many samples a second has.
    Rate,
    /// `--at HZ`: the line's sampling frequency.
    At,
    /// `--unit OCTETS`: how many octets a sample has.
    Unit,
    /// `--bit BIT`: the line's bit in a sample.
    Bit,
    /// `--packed-out`: the cells that are written are packed.
    PackedOut,
    /// `--tell`: what was found is reported during the run.
    Tell,
    /// `--places`: a report is copied, with the samples of the cells that it names.
    Places,
    /// `--picture FILE`: the file to which a picture of the capture is written.
    Picture,
    /// The name of the file that is read instead of standard input.
    File,
}

/// All arguments, in the order in which help lists them.
pub(crate) const ARGUMENTS: [Argument; 9] = [
    Argument::Rate,
    Argument::At,
    Argument::Unit,
    Argument::Bit,
    Argument::PackedOut,
    Argument::Tell,
    Argument::Places,
    Argument::Picture,
    Argument::File,
];

impl Define for Argument {
    ghost rule = { rule };

    fn define<'a>(self, alloc: Global) -> Arg<'a> {
        match self {
            Argument::Rate => text_option(alloc, "rate", "HZ", "Samples a second"),
            Argument::At => {
                text_option(
                    alloc,
                    "at",
                    "HZ",
                    "The sampling frequency of the AES3 line; needs --rate",
                )
            }
            Argument::Unit => {
                text_option(
                    alloc,
                    "unit",
                    "OCTETS",
                    "Octets a sample, 1 or 2; 1 if not given",
                )
            }
            Argument::Bit => text_option(
                alloc,
                "bit",
                "BIT",
                "The bit of a sample that is the AES3 line",
            ),
            Argument::PackedOut => flag(alloc, "packed-out", "Write packed cells, eight an octet"),
            Argument::Tell => {
                flag(
                    alloc,
                    "tell",
                    "Print once a second of the capture what was found; needs --rate",
                )
            }
            Argument::Places => {
                flag(
                    alloc,
                    "places",
                    "Copy a report of aes3, and add the sample at which each cell in it begins",
                )
            }
            Argument::Picture => {
                text_option(
                    alloc,
                    "picture",
                    "FILE",
                    "Draw the jitter of the edges into an SVG file",
                )
            }
            Argument::File => Arg::new(alloc, "FILE").help(
                "The file of samples; standard input if it is `-` or left out",
            ),
        }
    }
}
