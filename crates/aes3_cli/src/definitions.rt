//! The program's command line, as definitions for `clap`.

ghost use Rattle.std.specs.Prelude.{◌≡◌, [], IfOk, map};
ghost use Rattle.clap.specs.Simple.{App};
ghost use Rattle.aes3_cli.specs.CommandLine.{IsDefinedAs, app_with, command, command_line};
ghost use Rattle.aes3_cli.specs.CommandLine.{program, program_with, rule, shape, with_rules};

use crate::argument::{Argument, Define};
use crate::help::{self, Texts};
use clap::Command;
use std::alloc::{AllocError, Global};

/// A command by its name.
#[derive(Clone, Copy)]
pub(crate) enum Name {
    /// `encode`
    Encode,
    /// `decode`
    Decode,
    /// `normal`
    Normal,
    /// `check`
    Check,
    /// `watch`
    Watch,
    /// `info`
    Info,
    /// `show`
    Show,
    /// `scan`
    Scan,
    /// `cut`
    Cut,
    /// `rewrite`
    Rewrite,
    /// `to-pcm`
    ToPcm,
    /// `from-pcm`
    FromPcm,
    /// `to-wav`
    ToWav,
    /// `from-wav`
    FromWav,
    /// `to-bits`
    ToBits,
}

/// The commands, in the order in which help lists them.
const NAMES: [Name; 15] = [
    Name::Encode,
    Name::Decode,
    Name::Normal,
    Name::Check,
    Name::Watch,
    Name::Info,
    Name::Show,
    Name::Scan,
    Name::Cut,
    Name::Rewrite,
    Name::ToPcm,
    Name::FromPcm,
    Name::ToWav,
    Name::FromWav,
    Name::ToBits,
];

/// The program's command line.
///
/// # Errors
/// `AllocError` if there is no memory.
pub fn command_line<'a>(alloc: Global) -> Result<Command<'a>, AllocError>
    ensures { IfOk result (IsDefinedAs command_line) }
{
    let mut line = program(alloc)?;
    for name in NAMES.iter() {
        line = line.subcommand(name.define(alloc)?)?;
    }
    Ok(line)
}

/// The command line of a program without commands, which takes these arguments.
///
/// # Errors
/// `AllocError` if there is no memory.
pub fn program_line<'a, D: Define>(
    alloc: Global,
    name: &'a str,
    texts: Texts<'a>,
    arguments: &[D],
) -> Result<Command<'a>, AllocError>
    ensures { IfOk result (IsDefinedAs (program_with name.now (map D.rule arguments.now))) }
{
    with_arguments(alloc, bare_program(alloc, name, texts), arguments)
}

/// A program without arguments and commands.
fn bare_program<'a>(alloc: Global, name: &'a str, texts: Texts<'a>) -> Command<'a>
    ensures { IsDefinedAs (program_with name.now []) result }
{
    Command::new(alloc, name)
        .about(texts.about)
        .override_usage(texts.usage)
        .after_help(texts.more)
        .no_binary_name(true)
        .version(help::VERSION)
}

/// The program before any command is added.
fn program<'a>(alloc: Global) -> Result<Command<'a>, AllocError>
    ensures { IfOk result (IsDefinedAs program) }
{
    bare_program(alloc, "aes3", help::PROGRAM)
        .disable_help_subcommand(true)
        .subcommand_required(true)
        .bin_name("aes3")
}

impl Name {
    /// The command's definition, with its help.
    pub(crate) fn define<'a>(self, alloc: Global) -> Result<Command<'a>, AllocError>
        ensures { IfOk result (IsDefinedAs (app_with (shape self))) }
    {
        command(alloc, self.word(), self.texts(), self.arguments())
    }

    /// The name of the command.
    fn word<'a>(self) -> &'a str
        ensures { result.now ≡ (shape self).name }
    {
        match self {
            Name::Encode => "encode",
            Name::Decode => "decode",
            Name::Normal => "normal",
            Name::Check => "check",
            Name::Watch => "watch",
            Name::Info => "info",
            Name::Show => "show",
            Name::Scan => "scan",
            Name::Cut => "cut",
            Name::Rewrite => "rewrite",
            Name::ToPcm => "to-pcm",
            Name::FromPcm => "from-pcm",
            Name::ToWav => "to-wav",
            Name::FromWav => "from-wav",
            Name::ToBits => "to-bits",
        }
    }

    /// The texts of the command.
    fn texts<'a>(self) -> &'a Texts<'a> {
        match self {
            Name::Encode => &help::ENCODE,
            Name::Decode => &help::DECODE,
            Name::Normal => &help::NORMAL,
            Name::Check => &help::CHECK,
            Name::Watch => &help::WATCH,
            Name::Info => &help::INFO,
            Name::Show => &help::SHOW,
            Name::Scan => &help::SCAN,
            Name::Cut => &help::CUT,
            Name::Rewrite => &help::REWRITE,
            Name::ToPcm => &help::TO_PCM,
            Name::FromPcm => &help::FROM_PCM,
            Name::ToWav => &help::TO_WAV,
            Name::FromWav => &help::FROM_WAV,
            Name::ToBits => &help::TO_BITS,
        }
    }

    /// The options and values that the command takes, in the order in which help lists them.
    fn arguments(self) -> &'static [Argument]
        ensures { map rule result.now ≡ (shape self).rules }
    {
        use Argument::*;
        match self {
            Name::Encode => &[PackedOut, LsbFirst, Words, Input, Output],
            Name::Decode => &[PackedIn, RawIn, LsbFirst, Words, Input, Output, File],
            Name::Normal => &[PackedIn, RawIn, PackedOut, LsbFirst, Input, Output, File],
            Name::Check => &[PackedIn, RawIn, LsbFirst, Faults, Gaps, Input, Output, File],
            Name::Watch => &[
                PackedIn,
                RawIn,
                LsbFirst,
                Json,
                Rate,
                Every,
                EverySeconds,
                Input,
                Output,
                File,
            ],
            Name::Info => &[PackedIn, RawIn, LsbFirst, Json, Input, Output, File],
            Name::Show => &[
                PackedIn, RawIn, LsbFirst, Changes, At, More, Names, Input, Output, File,
            ],
            Name::Scan => &[PackedIn, RawIn, LsbFirst, Input, Output, File],
            Name::Cut => &[
                PackedIn, RawIn, PackedOut, LsbFirst, Input, Output, From, Count,
            ],
            Name::Rewrite => &[
                PackedIn,
                RawIn,
                PackedOut,
                LsbFirst,
                Status1,
                Status2,
                Preset,
                Set,
                Set1,
                Set2,
                MendCheck,
                Valid1,
                Valid2,
                ClearUser1,
                ClearUser2,
                ExactSettings,
                Input,
                Output,
                File,
            ],
            Name::ToPcm => &[
                PackedIn,
                RawIn,
                LsbFirst,
                Pcm,
                Valid,
                Fill,
                Marked,
                ExactSamples,
                Input,
                Output,
                File,
            ],
            Name::FromPcm => &[
                Status1, Status2, Preset, SampleRate, Set, Set1, Set2, MendCheck, Exact, Pcm,
                Words, Input, Output, File,
            ],
            Name::ToWav => &[
                PackedIn,
                RawIn,
                LsbFirst,
                SampleBits,
                WaveRate,
                Valid,
                Fill,
                Marked,
                ExactSamples,
                Input,
                Output,
                File,
            ],
            Name::FromWav => &[
                Channels, Mono, Use, Status1, Status2, Preset, SampleRate, Set, Set1, Set2,
                MendCheck, ExactWave, Words, Input, Output, File,
            ],
            Name::ToBits => &[
                PackedIn, RawIn, LsbFirst, Bits, Channel, Input, Output, File,
            ],
        }
    }
}

/// A command that takes these arguments, with its texts.
fn command<'a>(
    alloc: Global,
    name: &'a str,
    texts: &Texts<'a>,
    arguments: &[Argument],
) -> Result<Command<'a>, AllocError>
    ensures { IfOk result (IsDefinedAs (app_with (command name.now (map rule arguments.now)))) }
{
    let command = Command::new(alloc, name)
        .about(texts.about)
        .override_usage(texts.usage)
        .after_help(texts.more);
    with_arguments(alloc, command, arguments)
}

/// The command with these arguments after those that it has.
fn with_arguments<'a, D: Define>(
    alloc: Global,
    bare: Command<'a>,
    arguments: &[D],
) -> Result<Command<'a>, AllocError>
    ensures { (app : App) → IsDefinedAs app bare.entry
        → IfOk result (IsDefinedAs (with_rules app (map D.rule arguments.now))) }
{
    let mut command = bare;
    for argument in arguments.iter() {
        command = command.arg(argument.define(alloc))?;
    }
    Ok(command)
}
