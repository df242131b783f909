//! A job between a source and a sink, its final flush and its exit status.

ghost use Rattle.std.specs.Prelude.{◌≡◌, ◌≢◌, ◌<◌, ◌≤◌, ◌+◌, ◌^◌, None, Some};
ghost use Rattle.aes3_refusals.specs.declared.run_error.RunError.TheVariants.{Write};
ghost use Rattle.aes3_input.specs.Running.{ends_of};
ghost use Rattle.aes3_cli_jobs.specs.declared.wave_refusal.Refusal.TheVariants.{Run};
ghost use Rattle.aes3_cli_jobs.specs.declared.work.ReadWork.TheVariants.{ToPcm, ToWav};
ghost use Rattle.aes3_cli_jobs.specs.declared.work.StreamWork.TheVariants.{Rewrite};
ghost use Rattle.aes3_program.specs.Asides.{AsideOfRun};
ghost use Rattle.aes3_program.specs.JobEnds.{JobEnded};
ghost use Rattle.aes3_program.specs.JobRuns.{Answered, Flushed, JobRan, ReadRan, StreamRan, period, status_by};
ghost use Rattle.aes3_program.specs.JobRuns.{use_for};
ghost use Rattle.aes3_program.specs.OctetRuns.{ReadRefused};
ghost use Rattle.aes3_program.specs.Streams.{HasPassed, PassesOn, moved};

use crate::outcome::{
    Outcome, exact, of_file, of_run, outcome_of_exact_wave, outcome_of_fill,
    outcome_of_filled_wave, outcome_of_rewrite, outcome_of_samples, outcome_of_wave,
    outcome_of_words, plain,
};
use crate::refusal_line::refuse;
use crate::remark::tell_outcome;
use aes3_cell::{Counts, Form, RunError, Sink, Source};
use aes3_cli::DONE;
use aes3_cli_jobs::{Job, Observer, ReadWork, Refusal, StreamWork};
use aes3_engine::{
    cut, decode_words, encode_words, from_pcm_words, normalise, rewrite, rewrite_exactly, to_bits,
    to_exact_pcm, to_filled_pcm, to_pcm, to_valid_pcm,
};
use aes3_forms_samples::SampleFormat;
use aes3_info::info;
use aes3_status::{Change, TypedSettings};
use aes3_text::{check, scan, show_changes, show_detail};
use aes3_watch::{account, watch, watch_sums};
use aes3_wave::Depth;
use aes3_wave_runs::{
    StatusUse, WaveOptions, from_wav, to_exact_wav, to_filled_wav, to_valid_wav, to_wav,
};

/// How many bytes an input may have.
const MAX_BYTES: u64 = 1 << 40;

/// The exit status of `check`, `watch` and `info` if they found faults.
pub const FAULTY: u8 = 1;

/// The exit status of a job that succeeded.
pub(crate) fn exit_status(job: &Job, counts: &Counts) -> u8
    ensures { result ≡ status_by job.now counts.now }
{
    if job.finds_faults() && counts.faults > 0 {
        FAULTY
    } else {
        DONE
    }
}

/// The period of sums in cells: at least 1, and at most the number of bytes of an input. A period
/// from the command line is within these limits.
fn period(every: u64) -> u64
    ensures period { result ≡ period every }
    ensures some { 0 < result }
    ensures few { result ≤ 2 ^ 40 }
{
    every.max(1).min(MAX_BYTES)
}

/// Runs `to-pcm`: for all samples, or with zero for those that are not valid.
fn run_samples<S: Source, T: Sink>(
    source: &mut S,
    sink: &mut T,
    input: Form,
    format: SampleFormat,
    valid: bool,
) -> Result<Outcome, RunError>
    requires source_room { S.failed source.old + 1 < 2 ^ 64 }
    requires sink_room { T.failed sink.old + 1 < 2 ^ 64 }
    ensures { ReadRan input (ToPcm format valid)
        (ends_of S.Source source.old source.new T.Sink sink.old sink.new) result }
{
    if valid {
        plain(to_valid_pcm(source, sink, MAX_BYTES, input, format))
    } else {
        plain(to_pcm(source, sink, MAX_BYTES, input, format))
    }
}

/// Runs `to-wav`: for all samples, or with zero for those that are not valid.
fn run_wave<S: Source, T: Sink>(
    source: &mut S,
    sink: &mut T,
    input: Form,
    depth: Depth,
    rate: Option<u32>,
    valid: bool,
) -> Result<Outcome, RunError>
    requires source_room { S.failed source.old + 1 < 2 ^ 64 }
    requires sink_room { T.failed sink.old + 1 < 2 ^ 64 }
    ensures { ReadRan input (ToWav depth rate valid)
        (ends_of S.Source source.old source.new T.Sink sink.old sink.new) result }
{
    if valid {
        outcome_of_wave(
            to_valid_wav(source, sink, MAX_BYTES, input, depth, rate),
            rate,
        )
    } else {
        outcome_of_wave(to_wav(source, sink, MAX_BYTES, input, depth, rate), rate)
    }
}

/// Runs `rewrite`: for all blocks, or up to the first that does not take all settings.
fn run_change<S: Source, T: Sink>(
    source: &mut S,
    sink: &mut T,
    input: Form,
    output: Form,
    change: &Change,
    exactly: bool,
) -> Result<Outcome, RunError>
    requires source_room { S.failed source.old + 1 < 2 ^ 64 }
    requires sink_room { T.failed sink.old + 1 < 2 ^ 64 }
    ensures { StreamRan input output (Rewrite change.now exactly)
        (ends_of S.Source source.old source.new T.Sink sink.old sink.new) result }
{
    if exactly {
        exact(rewrite_exactly(source, sink, MAX_BYTES, input, output, change))
    } else {
        outcome_of_rewrite(
            rewrite(source, sink, MAX_BYTES, input, output, change),
            change,
        )
    }
}

/// Runs a job that writes the normal stream of blocks of its cells.
fn run_stream<S: Source, T: Sink>(
    source: &mut S,
    sink: &mut T,
    input: Form,
    output: Form,
    work: &StreamWork,
) -> Result<Outcome, RunError>
    requires source_room { S.failed source.old + 1 < 2 ^ 64 }
    requires sink_room { T.failed sink.old + 1 < 2 ^ 64 }
    ensures { StreamRan input output work.now
        (ends_of S.Source source.old source.new T.Sink sink.old sink.new) result }
{
    match *work {
        StreamWork::Normal => plain(normalise(source, sink, MAX_BYTES, input, output)),
        StreamWork::Cut { from, count } => {
            plain(cut(source, sink, MAX_BYTES, input, output, from, count))
        }
        StreamWork::Rewrite { change, exact } => {
            run_change(source, sink, input, output, &change, exact)
        }
    }
}

/// Runs a job that reads cells, and writes something else.
fn run_read<S: Source, T: Sink>(
    source: &mut S,
    sink: &mut T,
    input: Form,
    work: &ReadWork,
) -> Result<Outcome, RunError>
    requires source_room { S.failed source.old + 1 < 2 ^ 64 }
    requires sink_room { T.failed sink.old + 1 < 2 ^ 64 }
    ensures { ReadRan input work.now
        (ends_of S.Source source.old source.new T.Sink sink.old sink.new) result }
{
    match *work {
        ReadWork::Decode { words } => plain(decode_words(source, sink, MAX_BYTES, input, words)),
        ReadWork::Check { lines } => plain(check(source, sink, MAX_BYTES, input, lines)),
        ReadWork::Account { lines } => plain(account(source, sink, MAX_BYTES, input, lines)),
        ReadWork::Watch { style } => plain(watch(source, sink, MAX_BYTES, input, style)),
        ReadWork::WatchSums { style, every } => {
            plain(watch_sums(source, sink, MAX_BYTES, input, style, period(every)))
        }
        ReadWork::Info { notation } => plain(info(source, sink, MAX_BYTES, input, notation)),
        ReadWork::Show { detail } => plain(show_detail(source, sink, MAX_BYTES, input, detail)),
        ReadWork::ShowChanges { detail } => {
            plain(show_changes(source, sink, MAX_BYTES, input, detail))
        }
        ReadWork::Scan => plain(scan(source, sink, MAX_BYTES, input)),
        ReadWork::ToPcm { format, valid } => run_samples(source, sink, input, format, valid),
        ReadWork::ToExactPcm { format } => {
            exact(to_exact_pcm(source, sink, MAX_BYTES, input, format))
        }
        ReadWork::ToFilledPcm {
            format,
            fill,
            marked,
        } => outcome_of_fill(to_filled_pcm(source, sink, MAX_BYTES, input, format, fill, marked)),
        ReadWork::ToWav { depth, rate, valid } => {
            run_wave(source, sink, input, depth, rate, valid)
        }
        ReadWork::ToExactWav { depth, rate } => {
            outcome_of_exact_wave(
                to_exact_wav(source, sink, MAX_BYTES, input, depth, rate),
                rate,
            )
        }
        ReadWork::ToFilledWav {
            depth,
            rate,
            fill,
            marked,
        } => outcome_of_filled_wave(
            to_filled_wav(source, sink, MAX_BYTES, input, depth, rate, fill, marked),
            rate,
        ),
        ReadWork::ToBits { bits, channel } => {
            plain(to_bits(source, sink, MAX_BYTES, input, bits, channel))
        }
    }
}

/// The use of a channel status.
fn status_use(professional: bool) -> StatusUse
    ensures { result ≡ use_for professional }
{
    if professional {
        StatusUse::Professional
    } else {
        StatusUse::Consumer
    }
}

/// Runs a job.
///
/// # Errors
/// Those of the call that does the job.
pub fn run_job<S: Source, T: Sink>(
    job: &Job,
    source: &mut S,
    sink: &mut T,
) -> Result<Outcome, Refusal>
    requires source_room { S.failed source.old + 1 < 2 ^ 64 }
    requires sink_room { T.failed sink.old + 1 < 2 ^ 64 }
    ensures { Answered job.now
        (ends_of S.Source source.old source.new T.Sink sink.old sink.new) result }
{
    match *job {
        Job::Encode { output, words } => of_run(outcome_of_words(encode_words(
            source, sink, MAX_BYTES, output, words,
        ))),
        Job::Stream {
            input,
            output,
            work,
        } => of_run(run_stream(source, sink, input, output, &work)),
        Job::Read { input, work } => of_run(run_read(source, sink, input, &work)),
        Job::FromPcm {
            format,
            exact,
            change,
            words,
        } => of_run(outcome_of_samples(
            from_pcm_words(source, sink, MAX_BYTES, format, exact, &change, words),
            &change,
        )),
        Job::FromWav {
            channels,
            mono,
            exact,
            professional,
            change,
            words,
        } => {
            let options = WaveOptions {
                channels,
                mono,
                exact,
                status_use: status_use(professional),
                change,
                words,
            };
            of_file(from_wav(source, sink, MAX_BYTES, &options), &options)
        }
    }
}

/// The error of a run after the sink has passed on what it holds: `Write` if that failed, else
/// `error`.
fn flush_after<T: Sink>(error: Refusal, sink: &mut T) -> Refusal
    requires room { error ≢ Run Write → T.failed sink.old + 1 < 2 ^ 64 }
    ensures told { Flushed error (moved T.Sink sink.old sink.new) result }
    ensures passed_on { T.failed sink.new ≡ T.failed sink.old → error ≢ Run Write
        → HasPassed T.Sink sink.new }
{
    match error {
        Refusal::Run(RunError::Write) => error,
        _ => match sink.flush() {
            Ok(()) => error,
            Err(_) => Refusal::Run(RunError::Write),
        },
    }
}

/// Runs a job, and returns the exit status: 0 success, 1 if `check`, `watch` or `info` found
/// faults, 3 after an error. Unless the sink failed, it has passed on all that it took, also after
/// an error.
///
/// An error is reported on `errors`. For a job that succeeded, remarks are written there, with
/// settings as typed. `errors` is then flushed, and its own faults change nothing. The observer is
/// informed too; a silent one writes nothing.
pub fn finish_job<S: Source, T: Sink, E: Sink, O: Observer>(
    job: &Job,
    typed: &TypedSettings<'_>,
    source: &mut S,
    sink: &mut T,
    errors: &mut E,
    observer: &mut O,
) -> u8
    requires source_room { S.failed source.old + 1 < 2 ^ 64 }
    requires sink_room { T.failed sink.old + 1 < 2 ^ 64 }
    requires errors_room { E.failed errors.old + 1 < 2 ^ 64 }
    ensures { JobEnded (JobRan job.now typed.now) (Some job.now) S.Source source.old source.new
        T.Sink sink.old sink.new E.Sink errors.old errors.new O.Observer observer.old observer.new result }
{
    observer.begins(job);
    finish_begun(job, typed, source, sink, errors, observer)
}

/// Does the same for a job that the observer has been informed of.
pub(crate) fn finish_begun<S: Source, T: Sink, E: Sink, O: Observer>(
    job: &Job,
    typed: &TypedSettings<'_>,
    source: &mut S,
    sink: &mut T,
    errors: &mut E,
    observer: &mut O,
) -> u8
    requires source_room { S.failed source.old + 1 < 2 ^ 64 }
    requires sink_room { T.failed sink.old + 1 < 2 ^ 64 }
    requires errors_room { E.failed errors.old + 1 < 2 ^ 64 }
    ensures { JobEnded (JobRan job.now typed.now) None S.Source source.old source.new
        T.Sink sink.old sink.new E.Sink errors.old errors.new O.Observer observer.old observer.new result }
{
    match run_job(job, source, sink) {
        Ok(outcome) => tell_outcome(job, typed, &outcome, errors, observer),
        Err(error) => refuse(flush_after(error, sink), errors, observer),
    }
}

/// Rejects a job whose input can't be read, before it runs, as [`finish_job`] does after that.
pub(crate) fn refuse_unread<T: Sink, E: Sink, O: Observer>(
    sink: &mut T,
    errors: &mut E,
    observer: &mut O,
) -> u8
    requires sink_room { T.failed sink.old + 1 < 2 ^ 64 }
    requires errors_room { E.failed errors.old + 1 < 2 ^ 64 }
    ensures refused { ReadRefused (moved T.Sink sink.old sink.new)
        (moved E.Sink errors.old errors.new) result }
    ensures passed_on { PassesOn T.Sink sink.old sink.new }
    ensures aside { AsideOfRun None E.Sink errors.old errors.new
        O.Observer observer.old observer.new result }
{
    refuse(
        flush_after(Refusal::Run(RunError::Read), sink),
        errors,
        observer,
    )
}
