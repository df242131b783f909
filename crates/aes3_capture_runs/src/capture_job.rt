//! What the words of a command line ask for, and the layout of the samples of such a job.

ghost use Rattle.std.specs.Prelude.{◌≡◌, ◌<◌, [], IfErr, IfOk, None, Some, codes, false, map, true};
ghost use Rattle.std.specs.Option.{option_map};
ghost use Rattle.aes3_cli.specs.Options.{file_by, options_of};
ghost use Rattle.clap.specs.Walk.{first_of, one_of};
ghost use Rattle.aes3_cell.specs.declared.form.Form.TheVariants as form;
ghost use Rattle.aes3_capture_recovery.specs.Levels.{bit_of_line, bits_of_sample};
ghost use Rattle.aes3_capture_runs.specs.Asks.{AsksFor, FitTogether, IsChosen, IsJobOf, IsValueBy, WritesNoCells};
ghost use Rattle.aes3_capture_runs.specs.Asks.{at_by, octets_by, period_of, rate_by, value_by};
ghost use Rattle.aes3_capture_runs.specs.Faults.{AreApart, HasNoValue, IsFaultOf, IsOptionFault, IsWrongWith};
ghost use Rattle.aes3_capture_runs.specs.Samples.{unit_of, unit_of_job};
ghost use Rattle.aes3_capture_runs.specs.Values.{bit_in, frequency_in, octets_in};

use crate::capture_argument::ARGUMENTS;
use crate::capture_help::PROGRAM;
use crate::pictured_run::picture_of_options;
use crate::value::{bit_of_text, frequency_of_text, octets_of_text, period_of};
use crate::wrong::{Wrong, wrong_fault};
use aes3_capture_recovery::Unit;
use aes3_cell::Form;
use aes3_cli::{LineFault, file_of_options, options_of_words, program_line};
use clap::ArgMatches;
use std::alloc::Global;

/// A job of the program.
#[derive(Clone, Copy)]
pub struct Job<'a> {
    /// The form of the cells that are written.
    pub form: Form,
    /// How many octets a sample has.
    pub octets: usize,
    /// The bit with the line, if an option names it.
    pub bit: Option<u8>,
    /// Samples in a second.
    pub rate: Option<u64>,
    /// The length of a cell, in parts of a sample.
    pub period: Option<u64>,
    /// How many samples come between two lines of what was found, if it is reported during the run.
    pub tell_each: Option<u64>,
    /// Whether a report is copied from standard input, with the samples of the cells that it names.
    pub places: bool,
    /// The name of the file to which a picture of the capture is written.
    pub picture: Option<&'a str>,
    /// The name of the file that is read instead of standard input.
    pub file: Option<&'a str>,
}

/// The job of a command line without the program's name. It reads no input.
///
/// # Errors
/// - `Usage` if the words don't fit the definitions of the command line, or a value is wrong.
/// - `Help` if they ask for help or the version.
/// - `Memory` if there is no memory.
pub fn job_of_words<'a>(alloc: Global, words: &'a [&'a str]) -> Result<Job<'a>, LineFault>
    ensures job { IfOk result (IsJobOf (map (λ word. word.now) words.now)) }
    ensures fault { IfErr result (IsFaultOf (map (λ word. word.now) words.now)) }
{
    let line = program_line(alloc, "aes3-cells", PROGRAM, &ARGUMENTS)?;
    let options = options_of_words(alloc, line, PROGRAM.usage, words)?;
    job_of_options(alloc, &options)
}

/// The job of these options.
///
/// # Errors
/// `Usage` if a value of them is wrong, `Memory` if there is no memory.
fn job_of_options<'a>(alloc: Global, options: &ArgMatches<'a>) -> Result<Job<'a>, LineFault>
    ensures job { IfOk result (AsksFor (options_of options.now)) }
    ensures fault { IfErr result (IsOptionFault (options_of options.now)) }
{
    match job_by(options) {
        Ok(job) => Ok(job),
        Err(wrong) => Err(wrong_fault(alloc, wrong)),
    }
}

/// The same job.
///
/// # Errors
/// What is wrong with the options.
fn job_by<'a>(options: &ArgMatches<'a>) -> Result<Job<'a>, Wrong>
    ensures job { IfOk result (AsksFor (options_of options.now)) }
    ensures wrong { IfErr result (IsWrongWith (options_of options.now)) }
{
    let rate = rate(options)?;
    let at = at(options)?;
    let octets = octets(options)?;
    let bit = bit(options, octets)?;
    want_rate(options)?;
    let period = period(rate, at)?;
    let file = file_of_options(options);
    want_places_alone(options)?;
    let places = places(options, file)?;
    Ok(Job {
        form: form(options),
        octets,
        bit,
        rate,
        period,
        tell_each: tell_each(options, rate),
        places,
        picture: picture_of_options(options),
        file,
    })
}

/// The form of the cells that are written.
fn form(options: &ArgMatches<'_>) -> Form
    ensures { IsChosen (options_of options.now) (codes "packed-out") form.Packed form.Text result }
{
    if options.get_flag("packed-out") {
        Form::Packed
    } else {
        Form::Text
    }
}

/// How many samples come between two lines of what was found, at this rate.
fn tell_each(options: &ArgMatches<'_>, rate: Option<u64>) -> Option<u64>
    ensures { IsChosen (options_of options.now) (codes "tell") rate None result }
{
    if options.get_flag("tell") { rate } else { None }
}

/// Checks that `--places` is given without an option for cells.
///
/// # Errors
/// `PlacesOnly` if there is such an option.
fn want_places_alone(options: &ArgMatches<'_>) -> Result<(), Wrong>
    ensures alone { IfOk result (λ _. one_of (codes "places") (options_of options.now) ≡ Some (codes "true")
        → WritesNoCells (options_of options.now)) }
    ensures wrong { IfErr result (IsWrongWith (options_of options.now)) }
{
    if !options.get_flag("places") {
        return Ok(());
    }
    if options.get_flag("packed-out") {
        return Err(Wrong::PlacesOnly);
    }
    if options.get_flag("tell") {
        return Err(Wrong::PlacesOnly);
    }
    if options.get_str("picture").is_some() {
        return Err(Wrong::PlacesOnly);
    }
    Ok(())
}

/// Whether a report is copied: then the capture is in a file.
///
/// # Errors
/// `PlacesAlone` if there is no file.
fn places(options: &ArgMatches<'_>, file: Option<&str>) -> Result<bool, Wrong>
    requires { option_map (λ name. name.now) file ≡ file_by (options_of options.now) }
    ensures chosen { IfOk result (IsChosen (options_of options.now) (codes "places") true false) }
    ensures file { IfOk result (λ _. file_by (options_of options.now) ≡ None
        → one_of (codes "places") (options_of options.now) ≡ Some (codes "true") → ⊥) }
    ensures wrong { IfErr result (IsWrongWith (options_of options.now)) }
{
    if !options.get_flag("places") {
        return Ok(false);
    }
    if file.is_none() {
        return Err(Wrong::PlacesAlone);
    }
    Ok(true)
}

/// The frequency that the option of this name gives, if it is given.
///
/// # Errors
/// `wrong` if its text is no frequency.
fn frequency(options: &ArgMatches<'_>, name: &str, wrong: Wrong) -> Result<Option<u64>, Wrong>
    ensures value { IfOk result (λ _. IsValueBy frequency_in name.now (options_of options.now)) }
    ensures frequency { IfOk result (λ frequency. frequency
        ≡ value_by frequency_in name.now (options_of options.now)) }
    ensures is { IfErr result (λ error. error ≡ wrong) }
    ensures none { IfErr result (λ _. HasNoValue frequency_in name.now (options_of options.now)) }
{
    let Some(text) = options.get_str(name) else {
        return Ok(None);
    };
    match frequency_of_text(text) {
        Some(frequency) => Ok(Some(frequency)),
        None => Err(wrong),
    }
}

/// How many samples a second has, if an option says it.
///
/// # Errors
/// What is wrong with the option.
fn rate(options: &ArgMatches<'_>) -> Result<Option<u64>, Wrong>
    ensures value { IfOk result (λ _. IsValueBy frequency_in (codes "rate") (options_of options.now)) }
    ensures rate { IfOk result (λ rate. rate ≡ rate_by (options_of options.now)) }
    ensures wrong { IfErr result (IsWrongWith (options_of options.now)) }
{
    frequency(options, "rate", Wrong::Rate)
}

/// The line's sampling frequency, if an option says it.
///
/// # Errors
/// What is wrong with the option.
fn at(options: &ArgMatches<'_>) -> Result<Option<u64>, Wrong>
    ensures value { IfOk result (λ _. IsValueBy frequency_in (codes "at") (options_of options.now)) }
    ensures at { IfOk result (λ at. at ≡ at_by (options_of options.now)) }
    ensures wrong { IfErr result (IsWrongWith (options_of options.now)) }
{
    frequency(options, "at", Wrong::At)
}

/// How many octets a sample has.
///
/// # Errors
/// What is wrong with the option.
fn octets(options: &ArgMatches<'_>) -> Result<usize, Wrong>
    ensures value { IfOk result (λ _. IsValueBy octets_in (codes "unit") (options_of options.now)) }
    ensures octets { IfOk result (λ octets. octets ≡ octets_by (options_of options.now)) }
    ensures wrong { IfErr result (IsWrongWith (options_of options.now)) }
{
    let Some(text) = options.get_str("unit") else {
        return Ok(1);
    };
    match octets_of_text(text) {
        Some(octets) => Ok(octets),
        None => Err(Wrong::Unit),
    }
}

/// The bit with the line in samples of `octets` octets, if an option names it.
///
/// # Errors
/// What is wrong with the option.
fn bit(options: &ArgMatches<'_>, octets: usize) -> Result<Option<u8>, Wrong>
    requires { octets ≡ octets_by (options_of options.now) }
    ensures value { IfOk result (λ _. IsValueBy (bit_in (octets_by (options_of options.now))) (codes "bit")
        (options_of options.now)) }
    ensures bit { IfOk result (λ bit. bit ≡ value_by (bit_in (octets_by (options_of options.now))) (codes "bit")
        (options_of options.now)) }
    ensures wrong { IfErr result (IsWrongWith (options_of options.now)) }
{
    let Some(text) = options.get_str("bit") else {
        return Ok(None);
    };
    match bit_of_text(text, octets) {
        Some(bit) => Ok(Some(bit)),
        None => Err(Wrong::Bit),
    }
}

/// Checks that `--rate` is given if other options need it.
///
/// # Errors
/// The first option that needs it.
fn want_rate(options: &ArgMatches<'_>) -> Result<(), Wrong>
    ensures at { IfOk result (λ _. first_of (codes "rate") (options_of options.now) ≡ None
        → first_of (codes "at") (options_of options.now) ≡ None) }
    ensures tell { IfOk result (λ _. first_of (codes "rate") (options_of options.now) ≡ None
        → one_of (codes "tell") (options_of options.now) ≡ Some (codes "true") → ⊥) }
    ensures wrong { IfErr result (IsWrongWith (options_of options.now)) }
{
    if options.get_str("rate").is_some() {
        return Ok(());
    }
    if options.get_str("at").is_some() {
        return Err(Wrong::AtAlone);
    }
    if options.get_flag("tell") {
        return Err(Wrong::TellAlone);
    }
    Ok(())
}

/// The length of a cell at this rate and sampling frequency, if both are given.
///
/// # Errors
/// The cell is too short or too long.
fn period(rate: Option<u64>, at: Option<u64>) -> Result<Option<u64>, Wrong>
    ensures fit { IfOk result (λ _. FitTogether rate at) }
    ensures period { IfOk result (λ period. period ≡ period_of rate at) }
    ensures wrong { IfErr result (λ error. AreApart rate at error) }
{
    let (Some(rate), Some(at)) = (rate, at) else {
        return Ok(None);
    };
    match period_of(rate, at) {
        Some(period) => Ok(Some(period)),
        None => Err(Wrong::Period),
    }
}

/// The layout of samples of `octets` octets, 1 or 2, with the line in this bit. A bit past the last
/// one is taken modulo 8 or 16.
pub fn unit_of(octets: usize, bit: u8) -> Unit
    ensures { result ≡ unit_of octets bit }
{
    if octets == 1 {
        Unit::Octets(bit % 8)
    } else {
        Unit::Pairs(bit % 16)
    }
}

/// The layout of the samples of a job. The line is in the bit that the job names, else in the one
/// that was found, else in the lowest.
pub fn unit_of_job(job: &Job<'_>, found: Option<u8>) -> Unit
    ensures unit { result ≡ unit_of_job job.now found }
    ensures bit { bit_of_line result < bits_of_sample result }
{
    match (job.bit, found) {
        (Some(bit), _) | (None, Some(bit)) => unit_of(job.octets, bit),
        (None, None) => unit_of(job.octets, 0),
    }
}
