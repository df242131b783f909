//! The run of a command line: everything but the system's own streams, also if the input or output
//! octets have another layout than the job reads and writes.

ghost use Rattle.std.specs.Prelude.{◌≡◌, ◌&&◌, ◌<◌, ◌+◌, ◌^◌, IsTrue, None, Some, true, IfOk, List};
ghost use Rattle.std.specs.Prelude.{OnErr, ℕ};
ghost use Rattle.aes3_cli_jobs.specs.Forms.{reads_packed};
ghost use Rattle.aes3_program.specs.Asides.{AsideOfRun, AsideOfWords, job_of};
ghost use Rattle.aes3_program.specs.JobEnds.{JobEnded};
ghost use Rattle.aes3_program.specs.OctetRuns.{BehindRan, OctetsRan, OutputsCanBeReversed};
ghost use Rattle.aes3_program.specs.OctetRuns.{PackedRan, SourceRan};
ghost use Rattle.aes3_program.specs.Streams.{PassesOn, streams_of, HasPassed, moved};
ghost use Rattle.aes3_cell.specs.Ends.{Grew};
ghost use Rattle.aes3_program.specs.StandardErrors.{ErrorsTold};
ghost use Rattle.aes3_program.specs.WordRuns.{FaultRan, IsLineOfWords, LineRan, UnreadTold};
ghost use Rattle.aes3_program.specs.WordRuns.{WordsRan};

use crate::job_run::{finish_begun, finish_job, refuse_unread};
use crate::refusal_line::refuse;
use aes3_cell::{RunError, Sink, Source};
use aes3_cell_octets::{RawSource, ReversedSink, ReversedSource, first_octet};
use aes3_cli::{DONE, USAGE, Unread, put_text};
use aes3_cli_arguments::{CommandLine, LineFault, Octets};
use aes3_cli_jobs::{Job, Observer, Refusal};
use aes3_status::TypedSettings;

/// The exit status of a run, and its source and sink.
#[derive(Drop)]
pub struct Ran<S: Drop, T: Drop> {
    pub status: u8,
    pub source: S,
    pub sink: T,
}

/// The text for words that are not UTF-8, in the form of `clap`'s usage errors.
const NOT_UTF8: &str = "error: the words are not UTF-8

Usage: aes3 COMMAND [OPTIONS] < INPUT > OUTPUT

For more information, try '--help'.
";

/// Reports why words have no job to run, and returns the exit status.
fn tell_fault<T: Sink, E: Sink, O: Observer>(
    fault: LineFault,
    sink: &mut T,
    errors: &mut E,
    observer: &mut O,
) -> u8
    requires sink_room { T.failed sink.old + 1 < 2 ^ 64 }
    requires errors_room { E.failed errors.old + 1 < 2 ^ 64 }
    ensures told { FaultRan fault (moved T.Sink sink.old sink.new)
        (moved E.Sink errors.old errors.new) result }
    ensures passed_on { HasPassed T.Sink sink.old → PassesOn T.Sink sink.old sink.new }
    ensures aside { AsideOfRun None E.Sink errors.old errors.new
        O.Observer observer.old observer.new result }
{
    match fault {
        LineFault::Usage { text } => {
            let _ = put_text(text.as_str(), errors);
            USAGE
        }
        LineFault::Help { text } => match put_text(text.as_str(), sink) {
            Ok(()) => DONE,
            Err(_) => refuse(Refusal::Run(RunError::Write), errors, observer),
        },
        LineFault::Refused(error) => refuse(Refusal::Run(error), errors, observer),
    }
}

/// Reports why the words could not be read, and returns the exit status.
pub fn tell_unread<E: Sink, O: Observer>(fault: Unread, errors: &mut E, observer: &mut O) -> u8
    requires { E.failed errors.old + 1 < 2 ^ 64 }
    ensures told { UnreadTold fault (moved E.Sink errors.old errors.new) result }
    ensures aside { AsideOfRun None E.Sink errors.old errors.new
        O.Observer observer.old observer.new result }
{
    match fault {
        Unread::NotUtf8 => {
            let _ = put_text(NOT_UTF8, errors);
            USAGE
        }
        Unread::Memory => refuse(Refusal::Run(RunError::Memory), errors, observer),
    }
}

/// Runs the job of a command line. If the line has none, it reports why, or prints the help.
/// Returns the exit status: 0 success, 1 if `check`, `watch` or `info` found faults, 2 for a usage
/// error, 3 after any other error. The source is what the line reads.
///
/// A sink that held nothing before and did not fail has passed on all that it took, and so have
/// `errors`. Errors are reported on `errors`, whose own faults change nothing. The observer is
/// informed of the progress; a silent one writes nothing.
///
/// `errors` get only this: with status 0 and 1 the remark on the job, or nothing if there is none;
/// with status 2 the text of the usage error; with status 3 the line of the error.
pub fn run_line<S: Source + Drop, T: Sink + Drop, E: Sink, O: Observer>(
    line: Result<CommandLine<'_>, LineFault>,
    source: S,
    sink: T,
    errors: &mut E,
    observer: &mut O,
) -> Ran<S, T>
    requires source_room { S.failed source + 1 < 2 ^ 64 }
    requires sink_room { T.failed sink + 1 < 2 ^ 64 }
    requires errors_room { E.failed errors.old + 1 < 2 ^ 64 }
    ensures ran { LineRan line.entry (streams_of S.Source source result.source
        T.Sink sink result.sink E.Sink errors.old errors.new) result.status }
    ensures told { ErrorsTold line.entry (moved E.Sink errors.old errors.new) result.status }
    ensures passed_on { HasPassed T.Sink sink → PassesOn T.Sink sink result.sink }
    ensures aside { AsideOfRun (job_of line.entry) E.Sink errors.old errors.new
        O.Observer observer.old observer.new result.status }
    // For the line of any words it does what they ask for.
    ensures words { (words : List (List ℕ)) → IsLineOfWords words line.entry → WordsRan words
        (streams_of S.Source source result.source
        T.Sink sink result.sink E.Sink errors.old errors.new) result.status }
    ensures words_aside { (words : List (List ℕ)) → IsLineOfWords words line.entry
        → AsideOfWords words E.Sink errors.old errors.new
        O.Observer observer.old observer.new result.status }
{
    match line {
        Ok(line) => run_octets(
            line.octets,
            &line.job,
            &line.typed,
            source,
            sink,
            errors,
            observer,
        ),
        Err(fault) => {
            let mut sink = sink;
            let status = tell_fault(fault, &mut sink, errors, observer);
            Ran {
                status,
                source,
                sink,
            }
        }
    }
}

/// Runs a job whose octets have this layout, as [`finish_job`] does. If the first cell of each
/// octet is in the lowest bit, packed cells that it reads or writes are reversed.
pub fn run_octets<S: Source + Drop, T: Sink + Drop, E: Sink, O: Observer>(
    octets: Octets,
    job: &Job,
    typed: &TypedSettings<'_>,
    source: S,
    sink: T,
    errors: &mut E,
    observer: &mut O,
) -> Ran<S, T>
    requires source_room { S.failed source + 1 < 2 ^ 64 }
    requires sink_room { T.failed sink + 1 < 2 ^ 64 }
    requires errors_room { E.failed errors.old + 1 < 2 ^ 64 }
    ensures { JobEnded (OctetsRan octets job.now typed.now) (Some job.now) S.Source source result.source
        T.Sink sink result.sink E.Sink errors.old errors.new O.Observer observer.old observer.new result.status }
{
    if octets.lsb_first && job.writes_packed() {
        let ran = run_source(
            octets,
            job,
            typed,
            source,
            ReversedSink::new(sink),
            errors,
            observer,
        );
        return Ran {
            status: ran.status,
            source: ran.source,
            sink: ran.sink.into_sink(),
        };
    }
    run_source(octets, job, typed, source, sink, errors, observer)
}

/// Whether octets with this layout are reversed before the job reads them.
fn reverses_input(octets: Octets, job: &Job) -> bool
    ensures { result ≡ octets.lsb_first && reads_packed job.now }
{
    octets.lsb_first && job.reads_packed()
}

/// Runs a job that reads octets with this layout, and writes its output unchanged.
fn run_source<S: Source + Drop, T: Sink + Drop, E: Sink, O: Observer>(
    octets: Octets,
    job: &Job,
    typed: &TypedSettings<'_>,
    source: S,
    sink: T,
    errors: &mut E,
    observer: &mut O,
) -> Ran<S, T>
    requires source_room { S.failed source + 1 < 2 ^ 64 }
    requires sink_room { T.failed sink + 1 < 2 ^ 64 }
    requires errors_room { E.failed errors.old + 1 < 2 ^ 64 }
    ensures { JobEnded (SourceRan octets job.now typed.now) (Some job.now) S.Source source result.source
        T.Sink sink result.sink E.Sink errors.old errors.new O.Observer observer.old observer.new result.status }
{
    let is_reversed = reverses_input(octets, job);
    if octets.raw_in {
        let raw = RawSource::new(source);
        let ran = run_packed(is_reversed, job, typed, raw, sink, errors, observer);
        return Ran {
            status: ran.status,
            source: ran.source.into_source(),
            sink: ran.sink,
        };
    }
    run_packed(is_reversed, job, typed, source, sink, errors, observer)
}

/// Runs a job on packed cells whose octets are reversed, or on unchanged input.
fn run_packed<S: Source + Drop, T: Sink + Drop, E: Sink, O: Observer>(
    is_reversed: bool,
    job: &Job,
    typed: &TypedSettings<'_>,
    source: S,
    sink: T,
    errors: &mut E,
    observer: &mut O,
) -> Ran<S, T>
    requires source_room { S.failed source + 1 < 2 ^ 64 }
    requires sink_room { T.failed sink + 1 < 2 ^ 64 }
    requires errors_room { E.failed errors.old + 1 < 2 ^ 64 }
    ensures { JobEnded (PackedRan is_reversed job.now typed.now) (Some job.now) S.Source source result.source
        T.Sink sink result.sink E.Sink errors.old errors.new O.Observer observer.old observer.new result.status }
{
    if is_reversed {
        return run_reversed(job, typed, source, sink, errors, observer);
    }
    let mut source = source;
    let mut sink = sink;
    let status = finish_job(job, typed, &mut source, &mut sink, errors, observer);
    Ran {
        status,
        source,
        sink,
    }
}

/// Runs a job on packed cells with the first of each octet in the lowest bit. The first octet is
/// read before the job runs. If that fails, the error is that of the job.
fn run_reversed<S: Source + Drop, T: Sink + Drop, E: Sink, O: Observer>(
    job: &Job,
    typed: &TypedSettings<'_>,
    source: S,
    sink: T,
    errors: &mut E,
    observer: &mut O,
) -> Ran<S, T>
    requires source_room { S.failed source + 1 < 2 ^ 64 }
    requires sink_room { T.failed sink + 1 < 2 ^ 64 }
    requires errors_room { E.failed errors.old + 1 < 2 ^ 64 }
    ensures { JobEnded (PackedRan true job.now typed.now) (Some job.now) S.Source source result.source
        T.Sink sink result.sink E.Sink errors.old errors.new O.Observer observer.old observer.new result.status }
{
    observer.begins(job);
    let mut source = source;
    match first_octet(&mut source) {
        Ok(first) => run_behind(first, job, typed, source, sink, errors, observer),
        Err(_) => {
            let mut sink = sink;
            let status = refuse_unread(&mut sink, errors, observer);
            Ran {
                status,
                source,
                sink,
            }
        }
    }
}

/// Runs a job on such cells, after `first` was read and the observer was informed of the job.
fn run_behind<S: Source + Drop, T: Sink + Drop, E: Sink, O: Observer>(
    first: Option<u8>,
    job: &Job,
    typed: &TypedSettings<'_>,
    source: S,
    sink: T,
    errors: &mut E,
    observer: &mut O,
) -> Ran<S, T>
    requires source_room { S.failed source + 1 < 2 ^ 64 }
    requires sink_room { T.failed sink + 1 < 2 ^ 64 }
    requires errors_room { E.failed errors.old + 1 < 2 ^ 64 }
    requires end { first ≡ None → IsTrue (S.has_ended source) }
    ensures { JobEnded (BehindRan first job.now typed.now) None S.Source source result.source
        T.Sink sink result.sink E.Sink errors.old errors.new O.Observer observer.old observer.new result.status }
{
    let mut reversed = ReversedSource::new(source, first);
    let mut sink = sink;
    let status = finish_begun(job, typed, &mut reversed, &mut sink, errors, observer);
    Ran {
        status,
        source: reversed.into_source(),
        sink,
    }
}

/// Packed cells that a job writes can be reversed together with the last octet, since they are
/// whole octets.
pub fn outputs_can_be_reversed()
    ensures { OutputsCanBeReversed }
{}
