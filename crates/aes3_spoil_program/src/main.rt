//! The program `aes3-spoil`: the cells of a line, with deliberate errors.
#![tactic(auto)]

ghost use Rattle.std.specs.Prelude.{◌≡◌, ◌<◌, ◌+◌, ◌^◌, IfErr};

use aes3_cell::{BufferedSink, Sink, StdSink, StdSource};
use aes3_cli::{Unread, words_of_line};
use aes3_files::{Input, Preview};
use aes3_spoil_runs::{advice_on, file_of_line, job_of_words, report_unread, run_line, say_more};
use std::cell::Cell;
use std::process::ExitCode;

fn main(rt: HostRuntime) -> ExitCode {
    let mut messages = StdSink::new(rt.stderr());
    let status = match run_program(&rt, &mut messages) {
        Ok(status) => status,
        Err(fault) => report_unread(fault, &mut messages),
    };
    ExitCode::from(status)
}

/// Runs the command line between what it reads and standard output, both buffered, and returns the
/// exit status.
fn run_program<E: Sink>(rt: &HostRuntime, messages: &mut E) -> Result<u8, Unread>
    requires { E.failed messages.old + 1 < 2 ^ 64 }
    ensures { IfErr result (λ _. E.failed messages.new ≡ E.failed messages.old) }
{
    let words = words_of_line(rt)?;
    let words: Vec<&str> = words.iter().map(|word| word.as_str()).collect(rt.alloc())?;
    let mut sink = BufferedSink::new(rt.alloc(), StdSink::new(rt.stdout().lock()))?;
    let line = job_of_words(rt.alloc(), &words);
    let file = file_of_line(&line);
    let trouble = Cell::new(None);
    let mut input = Preview::new(rt.alloc(), Input::new(rt, file, &trouble));
    let advice = advice_on(rt, &line, &mut input)?;
    let mut source = StdSource::new(input);
    let status = run_line(line, &mut source, &mut sink, messages);
    say_more(rt, file, trouble.get(), status, advice);
    Ok(status)
}
