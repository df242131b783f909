//! The remarks on standard error about a job that read its input to the end.

ghost use Rattle.std.specs.Prelude.{◌≡◌, ◌<◌, ◌≤◌, ◌+◌, ◌++◌, ◌^◌, None, codes, decimal, length, map};
ghost use Rattle.aes3_cell.specs.Writes.{Wrote};
ghost use Rattle.aes3_program.specs.Asides.{AsideOfRun, ErrorsLeft};
ghost use Rattle.aes3_program.specs.JobRuns.{end_status};
ghost use Rattle.aes3_status.specs.Untaken.{texts_of, told_line, untaken_line, untaken_lines};
ghost use Rattle.aes3_program.specs.Lines.{cut_short_line, filled_line, left_out_line, met_lines};
ghost use Rattle.aes3_program.specs.Lines.{missing_line, remark_line, wave_lines};
ghost use Rattle.aes3_program.specs.Lines.{no_rate_line, no_width_line, unsaid_lines, unsaid_rate_line};
ghost use Rattle.aes3_program.specs.Lines.{unsaid_width_line, usual_rate_line};
ghost use Rattle.aes3_program.specs.Outcomes.{RemarkTold};
ghost use Rattle.aes3_program.specs.Streams.{PassesOn, moved};

use crate::job_run::exit_status;
use crate::outcome::{Met, Outcome, Remark, UnsaidFormat};
use crate::refusal_line::{put_refusal, refuse};
use aes3_cell::{Fault, RunError, Sink, write_all};
use aes3_cli_jobs::{Job, Observer, Refusal};
use aes3_status::{Line, Settings, TEXTS, Taken, TypedSettings, untaken_remedy};

/// The line of the number of filling frames.
fn line_of_filled(frames: u64) -> Line
    ensures { result ≡ filled_line frames }
{
    let mut line = Line::new();
    line.text("aes3: filled ");
    line.number(frames);
    line.text(" frames\n");
    line
}

/// The line of the number of words that are left out.
fn line_of_left_out(words: u64) -> Line
    ensures { result ≡ left_out_line words }
{
    let mut line = Line::new();
    line.text("aes3: left out ");
    line.number(words);
    line.text(" words before the first block\n");
    line
}

/// The line that says that the sampling frequency of a WAV file is neither given nor named.
fn usual_rate() -> Line
    ensures { result ≡ usual_rate_line }
{
    let mut line = Line::new();
    line.text("aes3: no sampling frequency is known before the first sample: ");
    line.text("the WAV file says 48000 Hz\n");
    line
}

/// Writes the line of the number of filling frames, and then the line of the sampling frequency.
///
/// # Errors
/// The sink's fault; then it has taken a front of the lines.
fn put_filled_at_usual_rate<T: Sink>(frames: u64, sink: &mut T) -> Result<(), Fault>
    requires room { T.failed sink.old + 1 < 2 ^ 64 }
    ensures { Wrote T.taken T.failed sink.old sink.new (filled_line frames ++ usual_rate_line) result }
{
    line_of_filled(frames).write_to(sink)?;
    usual_rate().write_to(sink)
}

/// The line that says that the status has no code for a sampling frequency.
fn no_rate(rate: u32) -> Line
    ensures { result ≡ no_rate_line rate }
{
    let mut line = Line::new();
    line.text("aes3: the status has no code for ");
    line.number(u64::from(rate));
    line.text(" Hz\n");
    line
}

/// The line that says that the status has no code for a width.
fn no_width(bits: u8) -> Line
    ensures { result ≡ no_width_line bits }
{
    let mut line = Line::new();
    line.text("aes3: the status has no code for samples of ");
    line.number(u64::from(bits));
    line.text(" bits\n");
    line
}

/// The line that says that a WAV file ends this number of bytes before its header says.
fn cut_short(missing: u64) -> Line
    ensures { result ≡ cut_short_line missing }
{
    let mut line = Line::new();
    line.text("aes3: the file is cut short: ");
    line.number(missing);
    line.text(" bytes of samples are missing\n");
    line
}

/// The beginning of the line of a setting for a channel.
fn head(channel: u8) -> Line
    ensures { result ≡ codes "aes3: no block took --set" ++ decimal channel ++ codes " " }
{
    let mut line = Line::new();
    line.text("aes3: no block took --set");
    line.number(u64::from(channel));
    line.text(" ");
    line
}

/// Writes a setting as typed, and the rest of its line.
///
/// # Errors
/// The sink's fault; then it has taken a front of this.
fn put_rest<T: Sink>(text: &str, remedy: &str, sink: &mut T) -> Result<(), Fault>
    requires room { T.failed sink.old + 1 < 2 ^ 64 }
    ensures { Wrote T.taken T.failed sink.old sink.new (text.now ++ remedy.now) result }
{
    write_all(sink, text.as_bytes())?;
    write_all(sink, remedy.as_bytes())
}

/// Writes the line of a setting for a channel.
///
/// # Errors
/// The sink's fault; then it has taken a front of the line.
fn put_line<T: Sink>(channel: u8, text: &str, remedy: &str, sink: &mut T) -> Result<(), Fault>
    requires room { T.failed sink.old + 1 < 2 ^ 64 }
    ensures { Wrote T.taken T.failed sink.old sink.new
        (told_line channel text.now remedy.now) result }
{
    head(channel).write_to(sink)?;
    put_rest(text, remedy, sink)
}

/// Writes the line of text number `at` of a channel's settings, if no block took it.
///
/// # Errors
/// The sink's fault; then it has taken a front of the line.
fn put_if_untaken<T: Sink>(
    channel: u8,
    settings: &Settings,
    taken: &Taken,
    at: usize,
    text: &str,
    sink: &mut T,
) -> Result<(), Fault>
    requires room { T.failed sink.old + 1 < 2 ^ 64 }
    requires within { at < TEXTS }
    ensures { Wrote T.taken T.failed sink.old sink.new
        (untaken_line channel settings.now taken.now at text.now) result }
{
    match untaken_remedy(settings, taken, at) {
        Some(remedy) => put_line(channel, text, remedy, sink),
        None => Ok(()),
    }
}

/// Writes the lines of a channel's settings that no block took, in the order in which they were
/// typed.
///
/// # Errors
/// The sink's fault; then it has taken a front of the lines.
fn put_lines<T: Sink>(
    channel: u8,
    texts: &[&str],
    settings: &Settings,
    taken: &Taken,
    sink: &mut T,
) -> Result<(), Fault>
    requires room { T.failed sink.old + 1 < 2 ^ 64 }
    requires few { length texts.now ≤ TEXTS }
    ensures { Wrote T.taken T.failed sink.old sink.new
        (untaken_lines channel settings.now taken.now 0 (map (λ text. text.now) texts.now)) result }
{
    'lines: for (at, text) in texts.iter().enumerate() {
        put_if_untaken(channel, settings, taken, at, text, sink)?;
    }
    Ok(())
}

/// Writes these lines for a channel's settings, if there are any.
///
/// # Errors
/// The sink's fault; then it has taken a front of the lines.
fn put_untaken<T: Sink>(channel: u8, texts: &[&str], met: &Met, sink: &mut T) -> Result<(), Fault>
    requires room { T.failed sink.old + 1 < 2 ^ 64 }
    requires few { length texts.now ≤ TEXTS }
    ensures { Wrote T.taken T.failed sink.old sink.new
        (met_lines channel (map (λ text. text.now) texts.now) met.now) result }
{
    match &met.settings {
        None => Ok(()),
        Some(settings) => put_lines(channel, texts, settings, &met.taken, sink),
    }
}

/// Writes these lines for both channels.
///
/// # Errors
/// The sink's fault; then it has taken a front of the lines.
fn put_settings<T: Sink>(
    typed: &TypedSettings<'_>,
    first: &Met,
    second: &Met,
    sink: &mut T,
) -> Result<(), Fault>
    requires room { T.failed sink.old + 1 < 2 ^ 64 }
    ensures { Wrote T.taken T.failed sink.old sink.new
        (met_lines 1 (texts_of typed.now.first) first.now
        ++ met_lines 2 (texts_of typed.now.second) second.now) result }
{
    put_untaken(1, typed.first.as_slice(), first, sink)?;
    put_untaken(2, typed.second.as_slice(), second, sink)
}

/// Writes the line of a sampling frequency that the status has no code for, if there is one.
///
/// # Errors
/// The sink's fault; then it has taken a front of the line.
fn put_unsaid_rate<T: Sink>(rate: Option<u32>, sink: &mut T) -> Result<(), Fault>
    requires room { T.failed sink.old + 1 < 2 ^ 64 }
    ensures { Wrote T.taken T.failed sink.old sink.new (unsaid_rate_line rate) result }
{
    match rate {
        None => Ok(()),
        Some(rate) => no_rate(rate).write_to(sink),
    }
}

/// Writes the line of a width that the status has no code for, if there is one.
///
/// # Errors
/// The sink's fault; then it has taken a front of the line.
fn put_unsaid_width<T: Sink>(bits: Option<u8>, sink: &mut T) -> Result<(), Fault>
    requires room { T.failed sink.old + 1 < 2 ^ 64 }
    ensures { Wrote T.taken T.failed sink.old sink.new (unsaid_width_line bits) result }
{
    match bits {
        None => Ok(()),
        Some(bits) => no_width(bits).write_to(sink),
    }
}

/// Writes what the status does not say of the format of a WAV file.
///
/// # Errors
/// The sink's fault; then it has taken a front of the lines.
fn put_unsaid<T: Sink>(unsaid: &UnsaidFormat, sink: &mut T) -> Result<(), Fault>
    requires room { T.failed sink.old + 1 < 2 ^ 64 }
    ensures { Wrote T.taken T.failed sink.old sink.new (unsaid_lines unsaid.now) result }
{
    put_unsaid_rate(unsaid.rate, sink)?;
    put_unsaid_width(unsaid.bits, sink)
}

/// Writes the same, and then the settings that no block took.
///
/// # Errors
/// The sink's fault; then it has taken a front of the lines.
fn put_status<T: Sink>(
    typed: &TypedSettings<'_>,
    unsaid: &UnsaidFormat,
    first: &Met,
    second: &Met,
    sink: &mut T,
) -> Result<(), Fault>
    requires room { T.failed sink.old + 1 < 2 ^ 64 }
    ensures { Wrote T.taken T.failed sink.old sink.new
        (wave_lines typed.now unsaid.now first.now second.now) result }
{
    put_unsaid(unsaid, sink)?;
    put_settings(typed, first, second, sink)
}

/// Writes the line of the bytes that a WAV file lacks, if it lacks any.
///
/// # Errors
/// The sink's fault; then it has taken a front of the line.
fn put_missing<T: Sink>(missing: Option<u64>, sink: &mut T) -> Result<(), Fault>
    requires room { T.failed sink.old + 1 < 2 ^ 64 }
    ensures { Wrote T.taken T.failed sink.old sink.new (missing_line missing) result }
{
    match missing {
        None => Ok(()),
        Some(missing) => cut_short(missing).write_to(sink),
    }
}

/// Writes what a WAV file lacks, and what its blocks' status does not say or take.
///
/// # Errors
/// The sink's fault; then it has taken a front of the lines.
fn put_wave<T: Sink>(
    typed: &TypedSettings<'_>,
    missing: Option<u64>,
    unsaid: &UnsaidFormat,
    first: &Met,
    second: &Met,
    sink: &mut T,
) -> Result<(), Fault>
    requires room { T.failed sink.old + 1 < 2 ^ 64 }
    ensures { Wrote T.taken T.failed sink.old sink.new
        (missing_line missing ++ wave_lines typed.now unsaid.now first.now second.now) result }
{
    put_missing(missing, sink)?;
    put_status(typed, unsaid, first, second, sink)
}

/// Writes the remark.
///
/// # Errors
/// The sink's fault; then it has taken a front of the lines.
fn put_remark<T: Sink>(
    remark: &Remark,
    typed: &TypedSettings<'_>,
    sink: &mut T,
) -> Result<(), Fault>
    requires room { T.failed sink.old + 1 < 2 ^ 64 }
    ensures { Wrote T.taken T.failed sink.old sink.new
        (remark_line typed.now remark.now) result }
{
    match remark {
        Remark::Nothing => Ok(()),
        Remark::Filled { frames } => line_of_filled(*frames).write_to(sink),
        Remark::LeftOut { words } => line_of_left_out(*words).write_to(sink),
        Remark::Settings { first, second } => put_settings(typed, first, second, sink),
        Remark::UsualRate => usual_rate().write_to(sink),
        Remark::FilledAtUsualRate { frames } => put_filled_at_usual_rate(*frames, sink),
        Remark::CutShort { missing } => cut_short(*missing).write_to(sink),
        Remark::Wave {
            missing,
            unsaid,
            first,
            second,
        } => put_wave(typed, *missing, unsaid, first, second, sink),
        Remark::Inexact { at } => put_refusal(Refusal::Run(RunError::Inexact { at: *at }), sink),
    }
}

/// Writes the remark on `errors`, and flushes them. Their own faults change nothing.
fn tell_remark<E: Sink>(remark: &Remark, typed: &TypedSettings<'_>, errors: &mut E)
    requires { E.failed errors.old + 1 < 2 ^ 64 }
    ensures told { RemarkTold (remark_line typed.now remark.now)
        (moved E.Sink errors.old errors.new) }
    ensures errors { ErrorsLeft E.Sink errors.old errors.new }
    ensures passed_on { PassesOn E.Sink errors.old errors.new }
{
    if put_remark(remark, typed, errors).is_ok() {
        let _ = errors.flush();
    }
}

/// Reports the outcome of a job on `errors`: its remark, or that it ends with an error after all,
/// of which the observer is informed too. Returns its exit status.
pub(crate) fn tell_outcome<E: Sink, O: Observer>(
    job: &Job,
    typed: &TypedSettings<'_>,
    outcome: &Outcome,
    errors: &mut E,
    observer: &mut O,
) -> u8
    requires { E.failed errors.old + 1 < 2 ^ 64 }
    ensures status { result ≡ end_status job.now outcome.now }
    ensures told { RemarkTold (remark_line typed.now outcome.now.remark)
        (moved E.Sink errors.old errors.new) }
    ensures aside { AsideOfRun None E.Sink errors.old errors.new
        O.Observer observer.old observer.new result }
{
    match outcome.remark {
        Remark::Nothing => exit_status(job, &outcome.counts),
        Remark::Inexact { at } => refuse(Refusal::Run(RunError::Inexact { at }), errors, observer),
        _ => {
            tell_remark(&outcome.remark, typed, errors);
            exit_status(job, &outcome.counts)
        }
    }
}
