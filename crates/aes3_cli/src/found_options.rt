//! The options that `clap` found among the words.

ghost use Rattle.std.specs.Prelude.{◌≡◌, IfErr, IfOk, map, option_and_then, true};
ghost use Rattle.std.specs.Option.{option_map};
ghost use Rattle.clap.specs.Faults.{fault_of, is_simple_and_free};
ghost use Rattle.clap.specs.Simple.{App};
ghost use Rattle.aes3_cli.specs.CommandLine.{IsDefinedAs};
ghost use Rattle.aes3_cli.specs.LineFaults.{IsWordsFault};
ghost use Rattle.aes3_cli.specs.Options.{AreOptionsIn, file_by, name_by, named_file, options_of, output_by};

use crate::fault::LineFault;
use clap::{ArgMatches, Command};
use std::alloc::Global;

/// The word for a standard stream in place of a file name.
const STANDARD: &str = "-";

/// The options among these words, by the definitions of a program without commands, which has this
/// usage.
///
/// # Errors
/// - `Usage` if the words don't fit the definitions.
/// - `Help` if they ask for help or the version.
/// - `Memory` if there is no memory.
pub fn options_of_words<'a>(
    alloc: Global,
    line: Command<'a>,
    usage: &str,
    words: &'a [&'a str],
) -> Result<ArgMatches<'a>, LineFault>
    ensures options { (app : App) → IsDefinedAs app line.entry → is_simple_and_free app ≡ true
        → IfOk result (AreOptionsIn app (map (λ word. word.now) words.now)) }
    ensures fault { (app : App) → IsDefinedAs app line.entry → is_simple_and_free app ≡ true
        → IfErr result (IsWordsFault (fault_of app (map (λ word. word.now) words.now)) usage.now) }
{
    match line.try_get_matches_from(words) {
        Ok(options) => Ok(options),
        Err(error) => Err(LineFault::of_error(alloc, &error, usage)),
    }
}

/// The name of a file; `None` for a standard stream.
fn named_file<'a>(name: Option<&'a str>) -> Option<&'a str>
    ensures { option_map (λ name. name.now) result
        ≡ option_and_then named_file (option_map (λ name. name.now) name.entry) }
{
    let Some(name) = name else {
        return None;
    };
    if name == STANDARD { None } else { Some(name) }
}

/// The name of the file to read: the positional argument, or the value of `-i`.
fn name_of_options<'a>(options: &ArgMatches<'a>) -> Option<&'a str>
    ensures { option_map (λ name. name.now) result ≡ name_by (options_of options.now) }
{
    match options.get_str("FILE") {
        Some(name) => Some(name),
        None => options.get_str("input"),
    }
}

/// The file that the options name instead of standard input; `None` if they name no file, or name
/// it `-`.
pub fn file_of_options<'a>(options: &ArgMatches<'a>) -> Option<&'a str>
    ensures { option_map (λ name. name.now) result ≡ file_by (options_of options.now) }
{
    named_file(name_of_options(options))
}

/// The file that the options name instead of standard output; `None` if they name no file, or name
/// it `-`.
pub fn output_of_options<'a>(options: &ArgMatches<'a>) -> Option<&'a str>
    ensures { option_map (λ name. name.now) result ≡ output_by (options_of options.now) }
{
    named_file(options.get_str("output"))
}
