//! A report that is copied, with the places of its cells in the capture.

ghost use Rattle.std.specs.Prelude.{◌≡◌, ◌+◌, ◌<◌, ◌≤◌, ◌^◌, IfOk};

use crate::capture_job::{Job, unit_of_job};
use crate::figures::no_line_text;
use crate::job_run::{NO_LINE, say, say_memory, say_refusal};
use crate::look::Look;
use aes3_capture_places::{Capture, Outcome};
use aes3_cell::{Sink, Source};
use aes3_cli::DONE;
use std::alloc::{AllocError, Global};

/// Copies a report, and adds to each line that names a cell where the cell is in the capture. The
/// line is in the job's bit, or in the bit that was found. Returns the exit status. It is 0 if each
/// of these cells was found, and 1 if one was not or no line names one. It is 3 if an input, the
/// output or memory failed.
pub fn run_places<R: Source, S: Source, T: Sink, E: Sink>(
    alloc: Global,
    job: &Job<'_>,
    found: Option<u8>,
    look: &Look,
    report: &mut R,
    samples: &mut S,
    sink: &mut T,
    messages: &mut E,
) -> u8
    requires report_room { R.failed report.old + 1 < 2 ^ 64 }
    requires samples_room { S.failed samples.old + 1 < 2 ^ 64 }
    requires sink_room { T.failed sink.old + 1 < 2 ^ 64 }
    requires messages_room { E.failed messages.old + 1 < 2 ^ 64 }
    // With status 0 neither input nor the output failed, and the sink has passed on all that it
    // took.
    ensures well { result ≡ 0 → (R.failed report.new ≡ R.failed report.old)
        × (S.failed samples.new ≡ S.failed samples.old)
        × (T.failed sink.new ≡ T.failed sink.old) × (T.passed sink.new ≡ T.taken sink.new) }
    ensures messages { E.failed messages.new ≤ E.failed messages.old + 1 }
    ensures messages_passed_on { E.passed messages.old ≡ E.taken messages.old
        → E.failed messages.new ≡ E.failed messages.old → E.passed messages.new ≡ E.taken messages.new }
{
    let mut capture = Capture::new(job.period, unit_of_job(job, found), job.rate);
    match capture.place_report(report, samples, sink) {
        Ok(outcome) if is_done(outcome) => DONE,
        Ok(outcome) => match text_of_missing(alloc, job, look, &capture, outcome) {
            Ok(text) => {
                say(&text, messages);
                NO_LINE
            }
            Err(_) => say_memory(messages),
        },
        Err(refusal) => say_refusal(refusal, messages),
    }
}

/// Whether each cell that a report names was found. An empty report names none; another one that
/// names none is no report.
fn is_done(outcome: Outcome) -> bool {
    outcome.missing == 0 && (outcome.found > 0 || outcome.octets == 0)
}

/// How many of the cells that a report names are in no place of the capture, and why.
///
/// # Errors
/// `AllocError` if there is no memory.
fn text_of_missing(
    alloc: Global,
    job: &Job<'_>,
    look: &Look,
    capture: &Capture,
    outcome: Outcome,
) -> Result<String, AllocError> {
    if outcome.missing == 0 {
        return String::from_str(
            alloc,
            "aes3-cells: standard input names no cell: give it a report, such as `aes3 check --gaps` prints\n",
        );
    }
    let figures = capture.figures();
    if figures.measured == 0 && job.period.is_none() {
        let reason = look.reason(alloc)?;
        return no_line_text(alloc, &figures, job.period, &reason);
    }
    format!(in alloc;
        "aes3-cells: {} report lines name a cell that is not in the capture: give the capture and the options that the report was made from\n",
        outcome.missing
    )
}
