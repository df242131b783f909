//! What a command line asks for.

ghost use Rattle.std.specs.Prelude.{◌≡◌, List, ℕ, None, IfOk, IfErr, IfSome, map};
ghost use Rattle.std.specs.Option.{option_map};
ghost use Rattle.clap.specs.Values.{kind_of};
ghost use Rattle.aes3_cli_arguments.specs.Jobs.{AreBadOptionsOf, AreOctets, AreTyped, AsksFor, HaveOctets, HaveTyped};
ghost use Rattle.aes3_cli_arguments.specs.Jobs.{IsFaultOf, IsJobOf};
ghost use Rattle.aes3_cli.specs.Options.{file_by, output_by};
ghost use Rattle.aes3_cli_arguments.specs.Jobs.{IsLineFaultOf, IsLineOf, ReadsFile, StandsIn, Tells, TellsUsage, WritesFile};
ghost use Rattle.aes3_cli_arguments.specs.Jobs.{first_word, options_of};
ghost use Rattle.aes3_cli_arguments.specs.Explained.{IsExplanation};

use crate::command_job::{LineFault, job_of_command};
use crate::explain::{asks_to_explain, explained_number, explanation};
use crate::layout::{Octets, octets_of_options};
use crate::misuse::{misuse_fault, misuse_of_options};
use crate::setting_texts::typed;
use aes3_cell::RunError;
use aes3_cli::wording::{own_text, usage_of};
use aes3_cli::{command_line, file_of_options, output_of_options};
use aes3_cli_jobs::Job;
use aes3_status::TypedSettings;
use clap::error::ErrorKind;
use clap::{ArgMatches, Error};
use std::alloc::Global;

/// What a command line asks for.
#[derive(Drop)]
pub struct CommandLine<'a> {
    /// The job.
    pub job: Job,
    /// The settings of a change as typed.
    pub typed: TypedSettings<'a>,
    /// The layout of the octets that the job reads and writes.
    pub octets: Octets,
    /// The name of the file that is read instead of standard input; `None` if the words name no
    /// file, or name it `-`.
    pub file: Option<&'a str>,
    /// The name of the file that is written instead of standard output; `None` if the words name no
    /// file, or name it `-`.
    pub output: Option<&'a str>,
}

/// What a command line without the program's name asks for. It reads no input.
///
/// # Errors
/// - `Usage` if the words don't fit the definitions of the command line or have no command. It is
///   also `Usage` if options are misused, or if a text of `--set`, `--set1` or `--set2` is no
///   setting.
/// - `Help` if `--help` or `--version` is among them.
/// - `Usage` or `Help` if `--explain` is the first of them.
/// - `BadStatusText` if the words are valid, but a status text isn't 48 hexadecimal digits.
/// - `Inexact` if `from-pcm` with `--exact` has a setting that the status does not take.
/// - `Memory` if there is no memory.
pub fn line_of_words<'a>(alloc: Global, words: &'a [&'a str]) -> Result<CommandLine<'a>, LineFault>
    ensures job { IfOk result (λ line. IsJobOf (map (λ word. word.now) words.now) line.job) }
    ensures typed { IfOk result (λ line. HaveTyped (map (λ word. word.now) words.now) line.typed) }
    ensures octets { IfOk result (λ line. HaveOctets (map (λ word. word.now) words.now) line.octets) }
    ensures file { IfOk result (λ line. IfSome line.file
        (λ name. ReadsFile (map (λ word. word.now) words.now) name.now)) }
    ensures standard { IfOk result (λ line. line.file ≡ None → (name : List ℕ)
        → ¬ ReadsFile (map (λ word. word.now) words.now) name) }
    ensures output { IfOk result (λ line. IfSome line.output
        (λ name. WritesFile (map (λ word. word.now) words.now) name.now)) }
    ensures standard_output { IfOk result (λ line. line.output ≡ None → (name : List ℕ)
        → ¬ WritesFile (map (λ word. word.now) words.now) name) }
    ensures fault { IfErr result (IsFaultOf (map (λ word. word.now) words.now)) }
{
    if asks_to_explain(words) {
        return Err(explain(alloc, &words[1..]));
    }
    match explained_number(words) {
        Some(number) => Err(explain(alloc, &[number])),
        None => plain_line(alloc, words),
    }
}

/// The job of a command line without the program's name.
///
/// # Errors
/// Those of [`line_of_words`].
pub fn job_of_words<'a>(alloc: Global, words: &'a [&'a str]) -> Result<Job, LineFault>
    ensures job { IfOk result (IsJobOf (map (λ word. word.now) words.now)) }
    ensures fault { IfErr result (IsFaultOf (map (λ word. word.now) words.now)) }
{
    let line = line_of_words(alloc, words)?;
    Ok(line.job)
}

/// The answer to the words after `--explain`.
fn explain(alloc: Global, words: &[&str]) -> LineFault
    ensures { IsExplanation (map (λ word. word.now) words.now) result }
{
    match explanation(alloc, words) {
        Ok(told) => told,
        Err(_) => LineFault::Refused(RunError::Memory),
    }
}

/// What a command line without `--explain` asks for.
fn plain_line<'a>(alloc: Global, words: &'a [&'a str]) -> Result<CommandLine<'a>, LineFault>
    ensures job { IfOk result (λ line. IsLineOf (map (λ word. word.now) words.now) line.job) }
    ensures typed { IfOk result (λ line. HaveTyped (map (λ word. word.now) words.now) line.typed) }
    ensures octets { IfOk result (λ line. HaveOctets (map (λ word. word.now) words.now) line.octets) }
    ensures file { IfOk result (λ line. IfSome line.file
        (λ name. ReadsFile (map (λ word. word.now) words.now) name.now)) }
    ensures standard { IfOk result (λ line. line.file ≡ None → (name : List ℕ)
        → ¬ ReadsFile (map (λ word. word.now) words.now) name) }
    ensures output { IfOk result (λ line. IfSome line.output
        (λ name. WritesFile (map (λ word. word.now) words.now) name.now)) }
    ensures standard_output { IfOk result (λ line. line.output ≡ None → (name : List ℕ)
        → ¬ WritesFile (map (λ word. word.now) words.now) name) }
    ensures fault { IfErr result (IsLineFaultOf (map (λ word. word.now) words.now)) }
{
    let command = command_line(alloc)?;
    match command.try_get_matches_from(words) {
        Ok(matches) => match matches.subcommand() {
            Some((name, options)) => line_of_command(alloc, name, options),
            None => unreachable!(),
        },
        Err(error) => Err(fault_of(alloc, words, &error)),
    }
}

/// The fault of words that `clap` rejects with this error.
fn fault_of(alloc: Global, words: &[&str], error: &Error) -> LineFault
    ensures { Tells (map (λ word. word.now) words.now) (kind_of error.now) result }
{
    let Ok(text) = error.to_string(alloc) else {
        return LineFault::Refused(RunError::Memory);
    };
    match error.kind() {
        ErrorKind::OutOfMemory => LineFault::Refused(RunError::Memory),
        ErrorKind::DisplayHelp | ErrorKind::DisplayVersion => LineFault::Help { text },
        _ => usage_fault(alloc, words, &text),
    }
}

/// The usage error for words that `clap` rejects with this text.
fn usage_fault(alloc: Global, words: &[&str], text: &str) -> LineFault
    ensures { TellsUsage (map (λ word. word.now) words.now) result }
{
    match own_text(alloc, text, usage_of(first_word(words))) {
        Ok(text) => LineFault::Usage { text },
        Err(_) => LineFault::Refused(RunError::Memory),
    }
}

/// The first word, with which a command begins; empty if there is none.
fn first_word<'a>(words: &[&'a str]) -> &'a str
    ensures { result.now ≡ first_word (map (λ word. word.now) words.now) }
{
    match words.first() {
        Some(word) => word,
        None => "",
    }
}

/// What a command with its options asks for.
fn line_of_command<'a>(
    alloc: Global,
    name: &str,
    options: &ArgMatches<'a>,
) -> Result<CommandLine<'a>, LineFault>
    requires { (words : List (List ℕ)) × StandsIn words name.now (options_of options.now) }
    ensures job { IfOk result (λ line. AsksFor name.now (options_of options.now) line.job) }
    ensures typed { IfOk result (λ line. AreTyped (options_of options.now) line.typed) }
    ensures octets { IfOk result (λ line. AreOctets (options_of options.now) line.octets) }
    ensures file { IfOk result (λ line. option_map (λ name. name.now) line.file
        ≡ file_by (options_of options.now)) }
    ensures output { IfOk result (λ line. option_map (λ name. name.now) line.output
        ≡ output_by (options_of options.now)) }
    ensures fault { IfErr result (AreBadOptionsOf name.now (options_of options.now)) }
{
    if let Some(misuse) = misuse_of_options(options) {
        return Err(misuse_fault(alloc, name, misuse));
    }
    let job = job_of_command(alloc, name, options)?;
    let typed = typed(alloc, options)?;
    Ok(CommandLine {
        job,
        typed,
        octets: octets_of_options(options),
        file: file_of_options(options),
        output: output_of_options(options),
    })
}
