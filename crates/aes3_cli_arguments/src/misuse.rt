//! Misuse of options that are valid each by itself.

ghost use Rattle.std.specs.Prelude.{◌≡◌, IfOk};
ghost use Rattle.aes3_cli_arguments.specs.Jobs.{AreTaken, TellsMisuse, has_no_cells_packed, has_no_rate};
ghost use Rattle.aes3_cli_arguments.specs.Jobs.{has_two_forms, has_two_periods, misuse_by};
ghost use Rattle.aes3_cli_arguments.specs.Jobs.{fills_valid_samples, has_exact_and_others, has_two_details};
ghost use Rattle.aes3_cli_arguments.specs.Jobs.{has_marked_unfilled, has_two_files};
ghost use Rattle.aes3_cli_arguments.specs.Jobs.{misuse_line, misuse_text, options_of};

use crate::choice::has_unknown;
use crate::command_job::LineFault;
use crate::event_style::rate;
use crate::fill_option::fill_of_options;
use crate::frequency::has_unknown_rate;
use crate::preset::has_unknown_preset;
use crate::value::{flag, number_if_given};
use crate::wave::{has_mono_beside_channels, has_preset_beside_use, has_unknown_use};
use aes3_cell::RunError;
use aes3_cli::wording::{add_usage, usage_of};
use aes3_forms_samples::SampleFormat;
use aes3_forms_words::Words;
use aes3_frame::{CarriedBits, Fill};
use aes3_wave::{Channels, Depth, Mono};
use clap::ArgMatches;
use std::alloc::{AllocError, Global};

/// Misuse of options that are valid each by itself.
#[derive(Clone, Copy)]
pub(crate) enum Misuse {
    /// `--raw-in` with `--packed-in`.
    TwoForms,
    /// `--lsb-first` without packed cells.
    NoCellsPacked,
    /// `--every` with `--every-seconds`.
    TwoPeriods,
    /// `--every-seconds` without `--rate`.
    NoRate,
    /// `to-bits` of unknown bits.
    UnknownBits,
    /// `--fill` with an unknown filling.
    UnknownFilling,
    /// `--fill` with `--valid`.
    FillsValidSamples,
    /// `--marked` without `--fill`.
    MarkedUnfilled,
    /// `--exact` with `--valid` or `--fill`.
    ExactAndOthers,
    /// `--names` with `--at` or `--more`.
    TwoDetails,
    /// `--words` with an unknown form.
    UnknownWords,
    /// `--pcm` with an unknown form.
    UnknownFormat,
    /// `--preset` with an unknown use.
    UnknownPreset,
    /// `--rate` of `from-pcm` or `from-wav` with a frequency that no status has a code for.
    UnknownRate,
    /// `--bits` of `to-wav` with an unknown width.
    UnknownDepth,
    /// `--use` with an unknown use.
    UnknownUse,
    /// `--use` with `--preset`.
    PresetBesideUse,
    /// `--channels` with a text that is not two channels.
    UnknownChannels,
    /// `--mono` with an unknown word.
    UnknownMono,
    /// `--mono` with `--channels`.
    MonoBesideChannels,
    /// `--input` with a FILE.
    TwoFiles,
}

/// What is wrong with the options; the first fault if there are more.
pub(crate) fn misuse_of_options(options: &ArgMatches<'_>) -> Option<Misuse>
    requires { AreTaken (options_of options.now) }
    ensures { result ≡ misuse_by (options_of options.now) }
{
    if has_two_forms(options) {
        Some(Misuse::TwoForms)
    } else if has_no_cells_packed(options) {
        Some(Misuse::NoCellsPacked)
    } else if has_two_periods(options) {
        Some(Misuse::TwoPeriods)
    } else if has_no_rate(options) {
        Some(Misuse::NoRate)
    } else if has_unknown::<CarriedBits>(options, "BITS") {
        Some(Misuse::UnknownBits)
    } else if has_unknown::<Fill>(options, "fill") {
        Some(Misuse::UnknownFilling)
    } else if fills_valid_samples(options) {
        Some(Misuse::FillsValidSamples)
    } else if has_marked_unfilled(options) {
        Some(Misuse::MarkedUnfilled)
    } else if has_exact_and_others(options) {
        Some(Misuse::ExactAndOthers)
    } else if has_two_details(options) {
        Some(Misuse::TwoDetails)
    } else if has_unknown::<Words>(options, "words") {
        Some(Misuse::UnknownWords)
    } else if has_unknown::<SampleFormat>(options, "pcm") {
        Some(Misuse::UnknownFormat)
    } else if has_unknown_preset(options) {
        Some(Misuse::UnknownPreset)
    } else if has_unknown_rate(options) {
        Some(Misuse::UnknownRate)
    } else if has_unknown::<Depth>(options, "bits") {
        Some(Misuse::UnknownDepth)
    } else if has_unknown_use(options) {
        Some(Misuse::UnknownUse)
    } else if has_preset_beside_use(options) {
        Some(Misuse::PresetBesideUse)
    } else if has_unknown::<Channels>(options, "channels") {
        Some(Misuse::UnknownChannels)
    } else if has_unknown::<Mono>(options, "mono") {
        Some(Misuse::UnknownMono)
    } else if has_mono_beside_channels(options) {
        Some(Misuse::MonoBesideChannels)
    } else if has_two_files(options) {
        Some(Misuse::TwoFiles)
    } else {
        None
    }
}

/// Whether two forms are given for the cells that are read.
fn has_two_forms(options: &ArgMatches<'_>) -> bool
    requires { AreTaken (options_of options.now) }
    ensures { result ≡ has_two_forms (options_of options.now) }
{
    flag(options, "raw-in") && flag(options, "packed-in")
}

/// Whether the first of eight packed cells has a place, but no cells are packed.
fn has_no_cells_packed(options: &ArgMatches<'_>) -> bool
    requires { AreTaken (options_of options.now) }
    ensures { result ≡ has_no_cells_packed (options_of options.now) }
{
    flag(options, "lsb-first")
        && !flag(options, "raw-in")
        && !flag(options, "packed-in")
        && !flag(options, "packed-out")
}

/// Whether the period of sums is given in cells and in seconds.
fn has_two_periods(options: &ArgMatches<'_>) -> bool
    requires { AreTaken (options_of options.now) }
    ensures { result ≡ has_two_periods (options_of options.now) }
{
    number_if_given(options, "every").is_some()
        && number_if_given(options, "every-seconds").is_some()
}

/// Whether the period is given in seconds, but no rate says how many cells a second has.
fn has_no_rate(options: &ArgMatches<'_>) -> bool
    requires { AreTaken (options_of options.now) }
    ensures { result ≡ has_no_rate (options_of options.now) }
{
    number_if_given(options, "every-seconds").is_some() && rate(options).is_none()
}

/// Whether time is to be filled between samples, and samples that are not valid are to be zero.
fn fills_valid_samples(options: &ArgMatches<'_>) -> bool
    requires { AreTaken (options_of options.now) }
    ensures { result ≡ fills_valid_samples (options_of options.now) }
{
    fill_of_options(options).is_some() && flag(options, "valid")
}

/// Whether marked blocks are to be given, but no filling is named.
fn has_marked_unfilled(options: &ArgMatches<'_>) -> bool
    requires { AreTaken (options_of options.now) }
    ensures { result ≡ has_marked_unfilled (options_of options.now) }
{
    flag(options, "marked") && fill_of_options(options).is_none()
}

/// Whether samples are to be exact, and others are to replace some.
fn has_exact_and_others(options: &ArgMatches<'_>) -> bool
    requires { AreTaken (options_of options.now) }
    ensures { result ≡ has_exact_and_others (options_of options.now) }
{
    flag(options, "exact") && (fill_of_options(options).is_some() || flag(options, "valid"))
}

/// Whether words of codes are to follow a line, and the place of its block too.
fn has_two_details(options: &ArgMatches<'_>) -> bool
    requires { AreTaken (options_of options.now) }
    ensures { result ≡ has_two_details (options_of options.now) }
{
    flag(options, "names") && (flag(options, "at") || flag(options, "more"))
}

/// Whether the file that is read is named twice.
fn has_two_files(options: &ArgMatches<'_>) -> bool
    ensures { result ≡ has_two_files (options_of options.now) }
{
    options.get_str("FILE").is_some() && options.get_str("input").is_some()
}

/// The usage error for a misuse of the options of the command of this name.
pub(crate) fn misuse_fault(alloc: Global, name: &str, misuse: Misuse) -> LineFault
    ensures { TellsMisuse name.now misuse result }
{
    match told_misuse(alloc, usage_of(name), misuse) {
        Ok(text) => LineFault::Usage { text },
        Err(_) => LineFault::Refused(RunError::Memory),
    }
}

/// The text for a misuse, in the form of `clap`'s usage errors; `usage` is the usage of the
/// command.
fn told_misuse(alloc: Global, usage: &str, misuse: Misuse) -> Result<String, AllocError>
    ensures { IfOk result (λ text. text.bytes.items ≡ misuse_text usage.now misuse) }
{
    let mut text = String::new(alloc);
    text.push_str(misuse_line(misuse))?;
    add_usage(&mut text, usage)?;
    Ok(text)
}

/// The line that says what is wrong.
fn misuse_line(misuse: Misuse) -> &'static str
    ensures { result.now ≡ misuse_line misuse }
{
    match misuse {
        Misuse::TwoForms => "error: the argument '--raw-in' cannot be used with '--packed-in'",
        Misuse::NoCellsPacked => {
            "error: the argument '--lsb-first' needs '--packed-in', '--raw-in' or '--packed-out'"
        }
        Misuse::TwoPeriods => {
            "error: the argument '--every <CELLS>' cannot be used with '--every-seconds <N>'"
        }
        Misuse::NoRate => "error: the argument '--every-seconds <N>' needs '--rate <HZ>'",
        Misuse::UnknownBits => {
            "error: invalid value for '<BITS>': it is 'user', 'validity' or 'status'"
        }
        Misuse::UnknownFilling => {
            "error: invalid value for '--fill <zero|hold>': it is 'zero' or 'hold'"
        }
        Misuse::FillsValidSamples => {
            "error: the argument '--fill <zero|hold>' cannot be used with '--valid'"
        }
        Misuse::MarkedUnfilled => "error: the argument '--marked' needs '--fill <zero|hold>'",
        Misuse::ExactAndOthers => {
            "error: the argument '--exact' cannot be used with '--valid' or '--fill <zero|hold>'"
        }
        Misuse::TwoDetails => {
            "error: the argument '--names' cannot be used with '--at' or '--more'"
        }
        Misuse::UnknownWords => {
            "error: invalid value for '--words <own|alsa|am824>': it is 'own', 'alsa' or 'am824'"
        }
        Misuse::UnknownPreset => {
            "error: invalid value for '--preset <consumer|professional>': it is 'consumer' or 'professional'"
        }
        Misuse::UnknownRate => {
            "error: invalid value for '--rate <HZ>': a status has a code for 22050, 24000, 32000, 44100, 48000, 88200, 96000, 176400, 192000 or 768000, also as 48k"
        }
        Misuse::UnknownDepth => {
            "error: invalid value for '--bits <16|24|32>': it is '16', '24' or '32'"
        }
        Misuse::UnknownUse => {
            "error: invalid value for '--use <consumer|professional>': it is 'consumer' or 'professional'"
        }
        Misuse::PresetBesideUse => {
            "error: the argument '--use <consumer|professional>' cannot be used with '--preset <consumer|professional>'"
        }
        Misuse::UnknownChannels => {
            "error: invalid value for '--channels <A,B>': it is two numbers from 1 on with a comma between them, as '1,2'"
        }
        Misuse::UnknownMono => {
            "error: invalid value for '--mono <both|first>': it is 'both' or 'first'"
        }
        Misuse::MonoBesideChannels => {
            "error: the argument '--mono <both|first>' cannot be used with '--channels <A,B>'"
        }
        Misuse::TwoFiles => "error: the argument '--input <FILE>' cannot be used with '[FILE]'",
        Misuse::UnknownFormat => {
            "error: invalid value for '--pcm <s32|s24|s24in32|s16>': it is 's32', 's24', 's24in32' or 's16'"
        }
    }
}
