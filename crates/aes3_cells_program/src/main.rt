//! The program `aes3-cells`: from the samples of a line, as a logic analyser takes them, to its
//! cells.
#![tactic(auto)]

ghost use Rattle.std.specs.Prelude.{◌+◌, ◌<◌, ◌≤◌, ◌^◌, IfErr};

use aes3_capture_runs::{job_of_words, report_fault, report_unread, run_capture};
use aes3_cell::{Sink, StdSink};
use aes3_cli::{Unread, words_of_line};
use aes3_cli_progress::Clearing;
use std::cell::Cell;
use std::io::IsTerminal;
use std::process::ExitCode;

fn main(rt: HostRuntime) -> ExitCode {
    let shown = Cell::new(false);
    let is_told = rt.stderr().is_terminal();
    let told = StdSink::new(rt.stderr());
    let mut messages = Clearing::new(StdSink::new(rt.stderr()), told, &shown, is_told);
    let status = match run_program(&rt, &shown, &mut messages) {
        Ok(status) => status,
        Err(fault) => report_unread(fault, &mut messages),
    };
    ExitCode::from(status)
}

/// Runs the command line between the standard streams, and returns the exit status. `shown` says
/// whether a line of progress is on standard error.
fn run_program<E: Sink>(
    rt: &HostRuntime,
    shown: &Cell<bool>,
    messages: &mut E,
) -> Result<u8, Unread>
    requires { E.failed messages.old + 5 < 2 ^ 64 }
    ensures { IfErr result (λ _. E.failed messages.new ≤ E.failed messages.old + 1) }
{
    let words = words_of_line(rt)?;
    let words: Vec<&str> = words.iter().map(|word| word.as_str()).collect(rt.alloc())?;
    match job_of_words(rt.alloc(), &words) {
        Ok(job) => run_capture(rt, shown, messages, &job),
        Err(fault) => {
            let mut sink = StdSink::new(rt.stdout().lock());
            Ok(report_fault(fault, &mut sink, messages))
        }
    }
}
