//! Everything but the system's own streams.

ghost use Rattle.std.specs.Prelude.{◌≡◌, ◌≢◌, ◌<◌, ◌≤◌, ◌+◌, ◌^◌, ◌↔◌, IfOk, List, OnErr, ℕ};
ghost use Rattle.aes3_cell.specs.Ends.{Grew, Told};
ghost use Rattle.aes3_input.specs.Inputs.{cells_of};
ghost use Rattle.aes3_input.specs.Running.{ends_of, movement_of};
ghost use Rattle.aes3_capture_recovery.specs.Endings.{finished};
ghost use Rattle.aes3_spoil.specs.Spoiled.{spoiled};
ghost use Rattle.aes3_spoil_runs.specs.Runs.{FaultRan, Flushed, IsDone, JobRan, LineRan, UnreadReported};

use crate::spoil_job::Job;
use crate::spoil_refusal::refuse;
use aes3_cell::{Fault, RunError, Sink, Source, write_all};
use aes3_cli::{DONE, LineFault, USAGE, Unread, put_text};
use aes3_spoil::spoil;
use std::alloc::AllocError;

/// How many bytes an input may have.
const MAX_BYTES: u64 = 1 << 40;

/// The text for words that are not UTF-8, in the form of `clap`'s usage errors.
const NOT_UTF8: &str = "error: the words are not UTF-8

Usage: aes3-spoil [OPTIONS] [FILE] > CELLS

For more information, try '--help'.
";

/// The error of a run after the sink has passed on what it holds: `Write` if that failed, else
/// `error`.
fn flush_after<T: Sink>(error: RunError, sink: &mut T) -> RunError
    requires room { error ≢ RunError.Write → T.failed sink.old + 1 < 2 ^ 64 }
    ensures last { Flushed error (movement_of T.taken T.failed sink.old sink.new) result }
    ensures passed_on { T.failed sink.new ≡ T.failed sink.old → error ≢ RunError.Write
        → T.passed sink.new ≡ T.taken sink.new }
{
    match error {
        RunError::Write => error,
        _ => match sink.flush() {
            Ok(()) => error,
            Err(_) => RunError::Write,
        },
    }
}

/// Writes the cells with the errors of the job, and returns the exit status: 0 success, 3 after an
/// error. Unless the sink failed, it has passed on all that it took, also after an error. An error
/// is reported on `messages`, which are then flushed. Faults of `messages` change nothing.
pub fn run_job<S: Source, T: Sink, E: Sink>(
    job: &Job<'_>,
    source: &mut S,
    sink: &mut T,
    messages: &mut E,
) -> u8
    requires source_room { S.failed source.old + 1 < 2 ^ 64 }
    requires sink_room { T.failed sink.old + 1 < 2 ^ 64 }
    requires messages_room { E.failed messages.old + 1 < 2 ^ 64 }

    // With status 0, exactly the cells with these errors are written, and nothing is reported.
    ensures cells { result ≡ 0 → (b : List ℕ) → Told (S.given source.old) (S.given source.new) b
        → Grew (T.taken sink.old) (T.taken sink.new)
        (finished job.now.output (spoiled job.now.errors (cells_of job.now.input b))) }
    ensures silent { result ≡ 0 → E.taken messages.new ≡ E.taken messages.old }
    // The status is 0 exactly if the input ended correctly and neither input nor output failed,
    // else 3.
    ensures done { (b : List ℕ) → Told (S.given source.old) (S.given source.new) b
        → (result ≡ 0 ↔ IsDone job.now b
        (ends_of S.Source source.old source.new T.Sink sink.old sink.new)) }
    ensures statuses { result ≢ 0 → result ≡ 3 }
    // What was written before an error, its cause and its line.
    ensures ran { JobRan job.now (ends_of S.Source source.old source.new T.Sink sink.old sink.new)
        (movement_of E.taken E.failed messages.old messages.new) result }
    ensures passed_on { T.failed sink.new ≡ T.failed sink.old
        → T.passed sink.new ≡ T.taken sink.new }
    ensures messages { E.failed messages.new ≤ E.failed messages.old + 1 }
    ensures messages_passed_on { E.passed messages.old ≡ E.taken messages.old
        → E.failed messages.new ≡ E.failed messages.old → E.passed messages.new ≡ E.taken messages.new }
{
    match spoil(source, sink, MAX_BYTES, job.input, job.output, &job.errors) {
        Ok(_) => DONE,
        Err(error) => refuse(flush_after(error, sink), messages),
    }
}

/// Reports why words are no job, and returns the exit status: 0 for help, which is written to the
/// sink; 2 for a usage error; 3 if there is no memory or help can't be written.
fn report_fault<T: Sink, E: Sink>(fault: LineFault, sink: &mut T, messages: &mut E) -> u8
    requires sink_room { T.failed sink.old + 1 < 2 ^ 64 }
    requires messages_room { E.failed messages.old + 1 < 2 ^ 64 }
    ensures ran { FaultRan fault
        (movement_of T.taken T.failed sink.old sink.new)
        (movement_of E.taken E.failed messages.old messages.new) result }
    ensures passed_on { T.passed sink.old ≡ T.taken sink.old → T.failed sink.new ≡ T.failed sink.old
        → T.passed sink.new ≡ T.taken sink.new }
    ensures messages { E.failed messages.new ≤ E.failed messages.old + 1 }
    ensures messages_passed_on { E.passed messages.old ≡ E.taken messages.old
        → E.failed messages.new ≡ E.failed messages.old → E.passed messages.new ≡ E.taken messages.new }
{
    match fault {
        LineFault::Usage { text } => {
            let _ = put_text(text.as_str(), messages);
            USAGE
        }
        LineFault::Help { text } => match put_text(text.as_str(), sink) {
            Ok(()) => DONE,
            Err(_) => refuse(RunError::Write, messages),
        },
        LineFault::Memory => refuse(RunError::Memory, messages),
    }
}

/// Runs the job of the words, or reports why they are no job. Returns the exit status: 0 success, 2
/// for a usage error, 3 after any other error. A sink that held nothing before and did not fail has
/// passed on all that it took. So have the messages, whose own faults change nothing.
pub fn run_line<S: Source, T: Sink, E: Sink>(
    line: Result<Job<'_>, LineFault>,
    source: &mut S,
    sink: &mut T,
    messages: &mut E,
) -> u8
    requires source_room { S.failed source.old + 1 < 2 ^ 64 }
    requires sink_room { T.failed sink.old + 1 < 2 ^ 64 }
    requires messages_room { E.failed messages.old + 1 < 2 ^ 64 }
    ensures ran { LineRan line.entry
        (ends_of S.Source source.old source.new T.Sink sink.old sink.new)
        (movement_of E.taken E.failed messages.old messages.new) result }
    ensures passed_on { T.passed sink.old ≡ T.taken sink.old → T.failed sink.new ≡ T.failed sink.old
        → T.passed sink.new ≡ T.taken sink.new }
    ensures messages { E.failed messages.new ≤ E.failed messages.old + 1 }
    ensures messages_passed_on { E.passed messages.old ≡ E.taken messages.old
        → E.failed messages.new ≡ E.failed messages.old → E.passed messages.new ≡ E.taken messages.new }
{
    match line {
        Ok(job) => run_job(&job, source, sink, messages),
        Err(fault) => report_fault(fault, sink, messages),
    }
}

/// Reports why the words could not be read, and returns the exit status.
pub fn report_unread<E: Sink>(fault: Unread, messages: &mut E) -> u8
    requires { E.failed messages.old + 1 < 2 ^ 64 }
    ensures reported { UnreadReported fault
        (movement_of E.taken E.failed messages.old messages.new) result }
    ensures messages { E.failed messages.new ≤ E.failed messages.old + 1 }
    ensures messages_passed_on { E.failed messages.new ≡ E.failed messages.old
        → E.passed messages.new ≡ E.taken messages.new }
{
    match fault {
        Unread::NotUtf8 => {
            let _ = put_text(NOT_UTF8, messages);
            USAGE
        }
        Unread::Memory => refuse(RunError::Memory, messages),
    }
}
