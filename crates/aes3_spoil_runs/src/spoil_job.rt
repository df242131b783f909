//! What the words of a command line ask for.

ghost use Rattle.std.specs.Prelude.{◌≡◌, ◌++◌, [], IfErr, IfOk, IfSome, None, codes, map};
ghost use Rattle.std.specs.List.{All, flat_map};
ghost use Rattle.std.specs.Option.{option_map};
ghost use Rattle.clap.specs.Walk.{first_of};
ghost use Rattle.aes3_cli.specs.Options.{file_by, options_of};
ghost use Rattle.aes3_spoil.specs.Errors.{errors_of};
ghost use Rattle.aes3_spoil_runs.specs.Asks.{AreValues, AsksFor, IsEvery, IsFormOf, IsJobOf, IsValue};
ghost use Rattle.aes3_spoil_runs.specs.Asks.{all_errors, errors_by, errors_in, every_by, named_errors};
ghost use Rattle.aes3_spoil_runs.specs.Faults.{IsFaultOf, IsOptionFault, IsWrongAfter};
ghost use Rattle.aes3_spoil_runs.specs.Faults.{IsWrongAt, IsWrongIn, IsWrongWith};

use crate::named::{NAMED, NamedError};
use crate::spoil_argument::ARGUMENTS;
use crate::spoil_help::PROGRAM;
use crate::value::{every_of_text, spot_of_text};
use crate::wrong::{Wrong, wrong_fault};
use aes3_cell::Form;
use aes3_cli::{LineFault, file_of_options, options_of_words, program_line};
use aes3_spoil::Errors;
use clap::ArgMatches;
use std::alloc::Global;

/// A job of the program.
#[derive(Clone, Copy)]
pub struct Job<'a> {
    /// The form of the cells that are read.
    pub input: Form,
    /// The form of the cells that are written.
    pub output: Form,
    /// The errors that are inserted.
    pub errors: Errors,
    /// The name of the file that is read instead of standard input; `None` if the words name no
    /// file, or name it `-`.
    pub file: Option<&'a str>,
}

/// The job of a command line without the program's name. It reads no input.
///
/// # Errors
/// - `Usage` if the words don't fit the definitions of the command line, a value is wrong, or they
///   name more than 64 errors.
/// - `Help` if they ask for help or the version.
/// - `Memory` if there is no memory.
pub fn job_of_words<'a>(alloc: Global, words: &'a [&'a str]) -> Result<Job<'a>, LineFault>
    ensures job { IfOk result (IsJobOf (map (λ word. word.now) words.now)) }
    ensures fault { IfErr result (IsFaultOf (map (λ word. word.now) words.now)) }
{
    let line = program_line(alloc, "aes3-spoil", PROGRAM, &ARGUMENTS)?;
    let options = options_of_words(alloc, line, PROGRAM.usage, words)?;
    job_of_options(alloc, &options)
}

/// The job of these options.
///
/// # Errors
/// `Usage` if a value of them is wrong or they name more than 64 errors, `Memory` if there is no
/// memory.
fn job_of_options<'a>(alloc: Global, options: &ArgMatches<'a>) -> Result<Job<'a>, LineFault>
    ensures job { IfOk result (AsksFor (options_of options.now)) }
    ensures fault { IfErr result (IsOptionFault (options_of options.now)) }
{
    match errors_of_options(options) {
        Ok(errors) => Ok(job_with(options, errors)),
        Err(wrong) => Err(wrong_fault(alloc, wrong)),
    }
}

/// The job with these errors, in the forms and with the file that the options name.
fn job_with<'a>(options: &ArgMatches<'a>, errors: Errors) -> Job<'a>
    ensures errors { result.errors ≡ errors }
    ensures input { IsFormOf (options_of options.now) (codes "packed-in") result.input }
    ensures output { IsFormOf (options_of options.now) (codes "packed-out") result.output }
    ensures file { option_map (λ name. name.now) result.file ≡ file_by (options_of options.now) }
{
    Job {
        input: form(options, "packed-in"),
        output: form(options, "packed-out"),
        errors,
        file: file_of_options(options),
    }
}

/// The form of cells by a flag.
fn form(options: &ArgMatches<'_>, flag: &str) -> Form
    ensures { IsFormOf (options_of options.now) flag.now result }
{
    if options.get_flag(flag) {
        Form::Packed
    } else {
        Form::Text
    }
}

/// The file that a line's job reads instead of standard input; `None` if the line is no job.
pub fn file_of_line<'a>(line: &Result<Job<'a>, LineFault>) -> Option<&'a str>
    ensures job { IfOk line.now (λ job. result ≡ job.file) }
    ensures fault { IfErr line.now (λ _. result ≡ None) }
{
    match line {
        Ok(job) => job.file,
        Err(_) => None,
    }
}

/// The errors by the options.
///
/// # Errors
/// What is wrong with their values.
fn errors_of_options<'a>(options: &ArgMatches<'a>) -> Result<Errors, Wrong<'a>>
    ensures values { IfOk result (λ _. All (AreValues (options_of options.now)) named_errors) }
    ensures list { IfOk result (λ errors. errors_of errors ≡ all_errors (options_of options.now)) }
    ensures every_value { IfOk result (λ _. IfSome
        (first_of (codes "every") (options_of options.now)) IsEvery) }
    ensures every { IfOk result (λ errors. errors.every ≡ every_by (options_of options.now)) }
    ensures wrong { IfErr result (IsWrongWith (options_of options.now)) }
{
    let mut errors = Errors::new();
    for named in NAMED.iter() {
        add_option(&mut errors, *named, options)?;
    }
    set_every(&mut errors, options)?;
    Ok(errors)
}

/// Adds the errors of an option.
///
/// # Errors
/// What is wrong with its values.
fn add_option<'a>(
    errors: &mut Errors,
    named: NamedError,
    options: &ArgMatches<'a>,
) -> Result<(), Wrong<'a>>
    ensures values { IfOk result (λ _. AreValues (options_of options.now) named) }
    ensures list { IfOk result (λ _. errors_of errors.new
        ≡ errors_of errors.old ++ errors_by (options_of options.now) named) }
    ensures every { errors.new.every ≡ errors.old.every }
    ensures wrong { IfErr result (IsWrongIn (errors_of errors.old) (options_of options.now) named) }
{
    match options.get_strs(named.name()) {
        Some(texts) => add_texts(errors, named, texts),
        None => Ok(()),
    }
}

/// Adds the errors of an option's values.
///
/// # Errors
/// What is wrong with the values.
fn add_texts<'a>(errors: &mut Errors, named: NamedError, texts: &[&'a str]) -> Result<(), Wrong<'a>>
    ensures values { IfOk result (λ _. All (IsValue named) (map (λ text. text.now) texts.now)) }
    ensures list { IfOk result (λ _. errors_of errors.new
        ≡ errors_of errors.old ++ flat_map (errors_in named) (map (λ text. text.now) texts.now)) }
    ensures every { errors.new.every ≡ errors.old.every }
    ensures wrong { IfErr result (IsWrongAfter (errors_of errors.old) named
        (map (λ text. text.now) texts.now)) }
{
    for text in texts.iter() {
        add_text(errors, named, *text)?;
    }
    Ok(())
}

/// Adds the error of one value.
///
/// # Errors
/// What is wrong with the value.
fn add_text<'a>(errors: &mut Errors, named: NamedError, text: &'a str) -> Result<(), Wrong<'a>>
    ensures list { IfOk result (λ _. errors_of errors.new
        ≡ errors_of errors.old ++ errors_in named text.now) }
    ensures value { IfOk result (λ _. IsValue named text.now) }
    ensures every { errors.new.every ≡ errors.old.every }
    ensures wrong { IfErr result (IsWrongAt (errors_of errors.old) named text.now) }
{
    let Some(spot) = spot_of_text(named, text) else {
        return Err(Wrong::Value { error: named, text });
    };
    if named.add(errors, spot) {
        Ok(())
    } else {
        Err(Wrong::TooMany)
    }
}

/// Sets the repeated errors, if the options ask for any.
///
/// # Errors
/// What is wrong with the value.
fn set_every<'a>(errors: &mut Errors, options: &ArgMatches<'a>) -> Result<(), Wrong<'a>>
    requires { errors.old.every ≡ None }
    ensures value { IfOk result (λ _. IfSome
        (first_of (codes "every") (options_of options.now)) IsEvery) }
    ensures list { errors_of errors.new ≡ errors_of errors.old }
    ensures every { IfOk result (λ _. errors.new.every ≡ every_by (options_of options.now)) }
    ensures wrong { IfErr result (IsWrongWith (options_of options.now)) }
{
    let Some(text) = options.get_str("every") else {
        return Ok(());
    };
    match every_of_text(text) {
        Some(every) => {
            errors.set_every(every.cells, every.kind);
            Ok(())
        }
        None => Err(Wrong::Every { text }),
    }
}
