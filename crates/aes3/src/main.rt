//! The program `aes3`: an AES3 / IEC 60958 line codec from standard input or a file to
//! standard output.
#![tactic(auto)]

/// Standard output, or the file that is written instead.
mod output;

ghost use Rattle.std.specs.Prelude.{◌+◌, ◌<◌, ◌^◌, ◌≡◌, IfErr};

use aes3_cell::{BufferedSink, Sink, StdSink, StdSource};
use aes3_cli::{REFUSED, Unread, words_of_line};
use aes3_cli_arguments::{CommandLine, LineFault, file_of_line, line_of_words, output_of_line};
use aes3_cli_hints::{Hints, Terminals};
use aes3_cli_jobs::Job;
use aes3_cli_progress::Clearing;
use aes3_files::{Input, PartFile, Preview};
use aes3_program_terminal::{recognise, report_unread, run_and_explain};
use aes3_wave::Depth;
use output::{Output, file_named, finish_file};
use std::cell::Cell;
use std::io::{Error, ErrorKind};
use std::process::ExitCode;

/// What is noted about the streams while they are lent.
#[derive(Drop)]
struct Noted {
    /// Whether a line of progress is on standard error.
    shown: Cell<bool>,
    /// Why the system did not accept the output.
    unwritten: Cell<Option<Error>>,
}

fn main(rt: HostRuntime) -> ExitCode {
    let terminals = Terminals::new(&rt);
    let noted = Noted {
        shown: Cell::new(false),
        unwritten: Cell::new(None),
    };
    let told = StdSink::new(rt.stderr());
    let errors = StdSink::new(rt.stderr());
    let mut errors = Clearing::new(errors, told, &noted.shown, terminals.errors);
    let mut hints = Hints::new(rt.alloc(), StdSink::new(rt.stderr()), terminals);
    let status = run_program(&rt, terminals, &noted, &mut errors, &mut hints);
    ExitCode::from(status)
}

/// Runs the command line, or reports why it can't be read, and returns the exit status.
fn run_program<E: Sink, H: Sink + Drop>(
    rt: &HostRuntime,
    terminals: Terminals,
    noted: &Noted,
    errors: &mut E,
    hints: &mut Hints<H>,
) -> u8
    requires { E.failed errors.old + 1 < 2 ^ 64 }
{
    match run_buffered(rt, terminals, noted, errors, hints) {
        Ok(status) => status,
        Err(fault) => report_unread(fault, errors, hints),
    }
}

/// Runs the command line between what it reads and standard output, both buffered.
fn run_buffered<E: Sink, H: Sink + Drop>(
    rt: &HostRuntime,
    terminals: Terminals,
    noted: &Noted,
    errors: &mut E,
    hints: &mut Hints<H>,
) -> Result<u8, Unread>
    requires { E.failed errors.old + 1 < 2 ^ 64 }
    ensures { IfErr result (λ _. E.failed errors.new ≡ E.failed errors.old) }
{
    let words = words_of_line(rt)?;
    let words: Vec<&str> = words.iter().map(|word| word.as_str()).collect(rt.alloc())?;
    let mut line = line_of_words(rt.alloc(), &words);
    let named = output_of_line(&line);
    let written = file_named(rt, named)?;
    let output = Output::new(rt, written.as_ref(), &noted.unwritten);
    let is_seen = terminals.output && terminals.errors && written.is_none();
    let told = StdSink::new(rt.stderr());
    let output = Clearing::new(StdSink::new(output), told, &noted.shown, is_seen);
    let sink = BufferedSink::new(rt.alloc(), output)?;
    let file = file_of_line(&line);
    if file.is_some() {
        hints.reads_file();
    }
    if written.is_some() {
        hints.writes_file();
    }
    let depth = depth_of_line(&line);
    let trouble = Cell::new(None);
    let input = Input::new(rt, file, &trouble);
    let len = if terminals.errors {
        input.len(rt)
    } else {
        None
    };
    let mut input = Preview::new(rt.alloc(), input);
    recognise(&mut line, &mut input)?;
    let watched = hints.watch(StdSource::new(input));
    let source = hints.follow(
        rt,
        watched,
        StdSink::new(rt.stderr()),
        &noted.shown,
        len,
        &line,
    );
    let status = run_and_explain(line, &words, source, sink, errors, hints).status;
    say_trouble(rt, file, trouble.get());
    let Some(written) = written else {
        return Ok(status);
    };
    say_unwritten(rt, named, &written, noted.unwritten.get());
    match finish_file(rt, &written, status, depth) {
        Ok(()) => Ok(status),
        Err(error) => {
            eprintln!(rt; "aes3: refused 6").unwrap_or(());
            say_trouble(rt, named, Some(error));
            Ok(REFUSED)
        }
    }
}

/// Prints the system's message about a file, if there is one.
fn say_trouble(rt: &HostRuntime, name: Option<&str>, error: Option<Error>) {
    if let (Some(name), Some(error)) = (name, error) {
        eprintln!(rt; "aes3: {name}: {error}").unwrap_or(());
    }
}

/// Prints why a file was not written, if there is a reason: its name with `.part` is that of
/// another file, its name is a link to a file, or else the system's message.
fn say_unwritten(rt: &HostRuntime, name: Option<&str>, file: &PartFile, error: Option<Error>) {
    match (name, error, file.taken()) {
        (Some(name), Some(_), Some(part)) => {
            eprintln!(rt;
                "aes3: {name} can't be written: {part} exists, so remove or rename it, unless a run is writing it"
            ).unwrap_or(());
        }
        (Some(name), Some(error), None) if matches!(error.kind(), ErrorKind::AlreadyExists) => {
            eprintln!(rt;
                "aes3: {name} is a link to a file: give the name of the file itself"
            ).unwrap_or(());
        }
        _ => say_trouble(rt, name, error),
    }
}

/// The depth of the WAV file that a line writes; `None` if it writes none.
fn depth_of_line(line: &Result<CommandLine<'_>, LineFault>) -> Option<Depth> {
    let Ok(line) = line else {
        return None;
    };
    match line.job {
        Job::Read { work, .. } => work.wave_depth(),
        _ => None,
    }
}
