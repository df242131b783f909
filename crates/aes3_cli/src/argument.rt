//! The options and values that commands take, each with its line of help.

ghost use Rattle.clap.specs.Walk.{Rule};
ghost use Rattle.aes3_cli.specs.CommandLine.{IsOption, flag, number, rule, settings_option};
ghost use Rattle.aes3_cli.specs.CommandLine.{file_name, file_option, named_option, number_option};
ghost use Rattle.aes3_cli.specs.CommandLine.{text_option, word};

use clap::builder::ValueParser;
use clap::{Arg, ArgAction};
use std::alloc::Global;

/// How many frames a second a line has at most, for `--rate`.
const MOST_FRAMES: u64 = 1_000_000;

/// The greatest number of cells for `--every`. An input has at most this number of bytes.
const MOST_CELLS: u64 = 1 << 40;

/// The greatest number of seconds for `--every-seconds`: an hour.
const MOST_SECONDS: u64 = 3_600;

/// An option or a value that a command takes.
#[derive(Clone, Copy)]
pub(crate) enum Argument {
    /// `--packed-in`: the cells that are read are packed.
    PackedIn,
    /// `--raw-in`: the cells that are read are raw octets.
    RawIn,
    /// `--packed-out`: the cells that are written are packed.
    PackedOut,
    /// `--lsb-first`: the first of eight packed cells is in the lowest bit.
    LsbFirst,
    /// `--faults` of `check`.
    Faults,
    /// `--gaps` of `check`.
    Gaps,
    /// `--changes` of `show`.
    Changes,
    /// `--at` of `show`.
    At,
    /// `--more` of `show`.
    More,
    /// `--names` of `show`.
    Names,
    /// `--json` of `watch`.
    Json,
    /// `--rate HZ` of `watch`.
    Rate,
    /// `--every CELLS` of `watch`.
    Every,
    /// `--every-seconds N` of `watch`.
    EverySeconds,
    /// The number of the first block of `cut`.
    From,
    /// How many blocks `cut` takes.
    Count,
    /// `--status1 HEX48`: the status of channel 1.
    Status1,
    /// `--status2 HEX48`: the status of channel 2.
    Status2,
    /// `--preset consumer|professional`: the default status of a use.
    Preset,
    /// `--rate HZ` of `from-pcm`: the sampling frequency in the status.
    SampleRate,
    /// `--set NAME=WORD`: a field of both channels.
    Set,
    /// `--set1 NAME=WORD`: a field of channel 1.
    Set1,
    /// `--set2 NAME=WORD`: a field of channel 2.
    Set2,
    /// `--mend-check`: check bytes are recalculated.
    MendCheck,
    /// `--valid1 0|1`: the validity bit of channel 1.
    Valid1,
    /// `--valid2 0|1`: the validity bit of channel 2.
    Valid2,
    /// `--clear-user1`: the user bits of channel 1 become 0.
    ClearUser1,
    /// `--clear-user2`: the user bits of channel 2 become 0.
    ClearUser2,
    /// `--valid` of `to-pcm` and `to-wav`.
    Valid,
    /// `--fill zero|hold` of `to-pcm` and `to-wav`.
    Fill,
    /// `--marked` of `to-pcm` and `to-wav`.
    Marked,
    /// `--exact` of `from-pcm`.
    Exact,
    /// `--exact` of `to-pcm` and `to-wav`.
    ExactSamples,
    /// `--exact` of `rewrite`.
    ExactSettings,
    /// `--exact` of `from-wav`.
    ExactWave,
    /// `--channels A,B` of `from-wav`: the two channels that are taken.
    Channels,
    /// `--mono both|first` of `from-wav`: which channels a single channel of a file is for.
    Mono,
    /// `--use consumer|professional` of `from-wav`: the use of the status that is made for the
    /// header.
    Use,
    /// `--bits 16|24|32` of `to-wav`: how many bits a sample has.
    SampleBits,
    /// `--rate HZ` of `to-wav`: the sampling frequency in the header.
    WaveRate,
    /// `--pcm s32|s24|s24in32|s16`: the form of samples.
    Pcm,
    /// `--words own|alsa|am824`: the form of the words of a block file.
    Words,
    /// Which bits `to-bits` writes.
    Bits,
    /// The channel whose bits `to-bits` writes.
    Channel,
    /// `-i FILE`: the file that is read instead of standard input.
    Input,
    /// The name of that file, as a positional argument.
    File,
    /// `-o FILE`: the file that is written instead of standard output.
    Output,
}

/// An option or a value that a program or a command takes.
pub trait Define: Copy {
    ghost rule: { Self → Rule };

    /// The definition, with its line of help.
    fn define<'a>(self, alloc: Global) -> Arg<'a>
        ensures { IsOption (rule self) result };
}

impl Define for Argument {
    ghost rule = { rule };

    fn define<'a>(self, alloc: Global) -> Arg<'a> {
        match self {
            Argument::PackedIn => flag(alloc, "packed-in", "Read packed cells, eight an octet"),
            Argument::RawIn => flag(
                alloc,
                "raw-in",
                "Read packed cells that lack the last octet, which counts unused cells",
            ),
            Argument::PackedOut => flag(alloc, "packed-out", "Write packed cells, eight an octet"),
            Argument::LsbFirst => flag(
                alloc,
                "lsb-first",
                "In packed cells the first of eight is the lowest bit",
            ),
            Argument::Faults => flag(alloc, "faults", "Leave out the `whole` lines"),
            Argument::Gaps => flag(
                alloc,
                "gaps",
                "Print and count cells that are in no whole block",
            ),
            Argument::Changes => flag(
                alloc,
                "changes",
                "Leave out a status that is the same as in the block before",
            ),
            Argument::At => flag(alloc, "at", "Print the cell at which each block begins"),
            Argument::More => flag(
                alloc,
                "more",
                "Print how many V and U bits are 1, and where each block begins",
            ),
            Argument::Names => flag(
                alloc,
                "names",
                "Print the meanings of codes that are printed as numbers",
            ),
            Argument::Json => flag(alloc, "json", "Print JSON objects instead of words"),
            Argument::Rate => number_option(
                alloc,
                "rate",
                "HZ",
                MOST_FRAMES,
                "Print times; a second has HZ frames",
            ),
            Argument::Every => number_option(
                alloc,
                "every",
                "CELLS",
                MOST_CELLS,
                "Print a line of sums after each CELLS cells",
            ),
            Argument::EverySeconds => number_option(
                alloc,
                "every-seconds",
                "N",
                MOST_SECONDS,
                "Print a line of sums after each N seconds; needs --rate",
            ),
            Argument::From => number(
                alloc,
                "FROM",
                0,
                u64::MAX,
                "The number of the first block, counted from 0",
            ),
            Argument::Count => number(alloc, "COUNT", 0, u64::MAX, "How many blocks"),
            Argument::Status1 => text_option(
                alloc,
                "status1",
                "HEX48",
                "The status of channel 1, in hexadecimal",
            ),
            Argument::Status2 => text_option(
                alloc,
                "status2",
                "HEX48",
                "The status of channel 2, in hexadecimal",
            ),
            Argument::Preset => text_option(
                alloc,
                "preset",
                "consumer|professional",
                "Begin with the usual status for this use",
            ),
            Argument::SampleRate => named_text(
                alloc,
                "hz",
                "rate",
                "HZ",
                "The sampling frequency in the status, as 48000 or 48k",
            ),
            Argument::Set => repeated_option(
                alloc,
                "set",
                "NAME=WORD",
                "Set a field of both channels, as `show` prints it; may be repeated",
            ),
            Argument::Set1 => repeated_option(
                alloc,
                "set1",
                "NAME=WORD",
                "Set a field of channel 1, as `show` prints it; may be repeated",
            ),
            Argument::Set2 => repeated_option(
                alloc,
                "set2",
                "NAME=WORD",
                "Set a field of channel 2, as `show` prints it; may be repeated",
            ),
            Argument::MendCheck => flag(
                alloc,
                "mend-check",
                "Write the check byte of each professional status",
            ),
            Argument::Valid1 => bit(
                alloc,
                "valid1",
                "The validity bits of channel 1: 0 = samples valid, 1 = not valid",
            ),
            Argument::Valid2 => bit(
                alloc,
                "valid2",
                "The validity bits of channel 2: 0 = samples valid, 1 = not valid",
            ),
            Argument::ClearUser1 => flag(
                alloc,
                "clear-user1",
                "Set the user bits of channel 1 to 0",
            ),
            Argument::ClearUser2 => flag(
                alloc,
                "clear-user2",
                "Set the user bits of channel 2 to 0",
            ),
            Argument::Valid => flag(
                alloc,
                "valid",
                "Write zero for a sample whose validity bit is 1",
            ),
            Argument::Fill => text_option(
                alloc,
                "fill",
                "zero|hold",
                "Keep time: fill gaps between whole blocks with zeros or the last frame",
            ),
            Argument::Marked => flag(
                alloc,
                "marked",
                "With --fill: also write blocks with parity errors, and fill those samples",
            ),
            Argument::Exact => flag(
                alloc,
                "exact",
                "Reject samples of more than 24 bits, and settings that the status can't take",
            ),
            Argument::ExactSamples => flag(alloc, "exact", "Reject blocks that would lose bits"),
            Argument::ExactSettings => flag(
                alloc,
                "exact",
                "Reject blocks that can't take what --set, --set1 or --set2 sets",
            ),
            Argument::ExactWave => flag(alloc, "exact", "Reject samples of more than 24 bits"),
            Argument::Channels => text_option(
                alloc,
                "channels",
                "A,B",
                "The channels to take, counted from 1; else the first two, or the only one",
            ),
            Argument::Mono => text_option(
                alloc,
                "mono",
                "both|first",
                "If the file has one channel: write it to both (default) or to the first",
            ),
            Argument::Use => text_option(
                alloc,
                "use",
                "consumer|professional",
                "The use of the status that is made from the header; else consumer",
            ),
            Argument::SampleBits => text_option(
                alloc,
                "bits",
                "16|24|32",
                "How many bits a sample has; else 24",
            ),
            Argument::WaveRate => number_option(
                alloc,
                "rate",
                "HZ",
                MOST_FRAMES,
                "The sampling frequency in the header; else that of the first block",
            ),
            Argument::Pcm => text_option(
                alloc,
                "pcm",
                "s32|s24|s24in32|s16",
                "Samples have 32 bits, 24 bits in 3 or 4 bytes, or 16 bits",
            ),
            Argument::Words => text_option(
                alloc,
                "words",
                "own|alsa|am824",
                "The form of the block file's words: our own, ALSA's or AM824",
            ),
            Argument::Bits => word(alloc, "BITS", "Which bits: `user`, `validity` or `status`"),
            Argument::Channel => number(alloc, "CHANNEL", 1, 2, "Of which channel: 1 or 2"),
            Argument::Input => file_option(
                alloc,
                "input",
                'i',
                "The file to read; standard input if it is `-` or left out",
            ),
            Argument::Output => file_option(
                alloc,
                "output",
                'o',
                "The file to write; standard output if it is `-` or left out",
            ),
            Argument::File => file_name(
                alloc,
                "FILE",
                "The file to read; standard input if it is `-` or left out",
            ),
        }
    }
}

/// The flag `--name`.
pub fn flag<'a>(alloc: Global, name: &'a str, help: &'a str) -> Arg<'a>
    ensures { IsOption (flag name.now) result }
{
    Arg::new(alloc, name)
        .long(name)
        .action(ArgAction::SetTrue)
        .help(help)
}

/// The option `--name` with a text; `value` is its name in the help.
pub fn text_option<'a>(alloc: Global, name: &'a str, value: &'a str, help: &'a str) -> Arg<'a>
    ensures { IsOption (text_option name.now) result }
{
    named_text(alloc, name, name, value, help)
}

/// The option `--name` with a text; `value` is its name in the help. Its values are found by `id`.
fn named_text<'a>(
    alloc: Global,
    id: &'a str,
    name: &'a str,
    value: &'a str,
    help: &'a str,
) -> Arg<'a>
    ensures { IsOption (named_option id.now name.now) result }
{
    Arg::new(alloc, id).long(name).value_name(value).help(help)
}

/// The option `--name` with a text, which may be repeated; `value` is its name in the help.
pub fn repeated_option<'a>(alloc: Global, name: &'a str, value: &'a str, help: &'a str) -> Arg<'a>
    ensures { IsOption (settings_option name.now) result }
{
    text_option(alloc, name, value, help).action(ArgAction::Append)
}

/// A required positional argument that is a number from `least` to `most`.
fn number<'a>(alloc: Global, name: &'a str, least: u64, most: u64, help: &'a str) -> Arg<'a>
    ensures { IsOption (number name.now least most) result }
{
    Arg::new(alloc, name)
        .required(true)
        .value_parser(ValueParser::unsigned(least, most))
        .help(help)
}

/// A required positional argument that is a word.
fn word<'a>(alloc: Global, name: &'a str, help: &'a str) -> Arg<'a>
    ensures { IsOption (word name.now) result }
{
    Arg::new(alloc, name).required(true).help(help)
}

/// The option `--name` with a number from 1 to `most`; `value` is its name in the help.
fn number_option<'a>(
    alloc: Global,
    name: &'a str,
    value: &'a str,
    most: u64,
    help: &'a str,
) -> Arg<'a>
    ensures { IsOption (number_option name.now 1 most) result }
{
    Arg::new(alloc, name)
        .long(name)
        .value_name(value)
        .value_parser(ValueParser::unsigned(1, most))
        .help(help)
}

/// The option `--name` with a bit.
fn bit<'a>(alloc: Global, name: &'a str, help: &'a str) -> Arg<'a>
    ensures { IsOption (number_option name.now 0 1) result }
{
    Arg::new(alloc, name)
        .long(name)
        .value_name("0|1")
        .value_parser(ValueParser::unsigned(0, 1))
        .help(help)
}

/// The option `--name` with a file name, whose short form is `short`.
fn file_option<'a>(alloc: Global, name: &'a str, short: char, help: &'a str) -> Arg<'a>
    ensures { IsOption (file_option name.now short) result }
{
    Arg::new(alloc, name)
        .long(name)
        .short(short)
        .value_name("FILE")
        .help(help)
}

/// An optional positional argument that is a file name.
fn file_name<'a>(alloc: Global, name: &'a str, help: &'a str) -> Arg<'a>
    ensures { IsOption (file_name name.now) result }
{
    Arg::new(alloc, name).help(help)
}
