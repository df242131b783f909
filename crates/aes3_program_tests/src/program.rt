//! Worked command lines, run.

use aes3_cell::{MemorySink, MemorySource, Source};
use aes3_cli_arguments::line_of_words;
use aes3_cli_jobs::Nobody;
use aes3_program::{Unread, run_line, tell_unread};
use std::alloc::Global;

/// Words, an input, its output, the line of its error and the exit status.
type Line = (
    &'static [&'static str],
    &'static [u8],
    &'static [u8],
    &'static [u8],
    u8,
);

const LINES: &[Line] = &[
    (&["encode", "--packed-out"], b"", b"\0", b"", 0),
    (
        &["check", "--packed-in"],
        b"\xE8\0",
        b"unfinished at 0 cells 8\n",
        b"",
        0,
    ),
    (
        &["check", "--raw-in"],
        b"\xE8",
        b"unfinished at 0 cells 8\n",
        b"",
        0,
    ),
    (
        &["check", "--packed-in"],
        b"\xE9\x03",
        b"",
        b"aes3: refused 10 at 1\n",
        3,
    ),
];

fn is_run(alloc: Global, line: &Line) -> bool {
    let (words, input, output, errors, status) = *line;
    let source = MemorySource::new(input, 1);
    let sink = MemorySink::new(alloc);
    let mut lines = MemorySink::new(alloc);
    let line = line_of_words(alloc, words);
    let answer = run_line(line, source, sink, &mut lines, &mut Nobody);
    answer.status == status && answer.sink.bytes() == output && lines.bytes() == errors
}

#[test]
fn command_lines_are_run(rt: HostRuntime) {
    for (number, line) in LINES.iter().enumerate() {
        assert!(rt; is_run(rt.alloc(), line), "line {number}");
    }
}

/// How many bytes are left to read after a command line that is rejected.
fn unread_behind_a_bad_status(alloc: Global) -> Option<usize> {
    let words = ["rewrite", "--status1", "0"];
    let source = MemorySource::new(b"2", 1);
    let sink = MemorySink::new(alloc);
    let mut lines = MemorySink::new(alloc);
    let line = line_of_words(alloc, &words);
    let mut answer = run_line(line, source, sink, &mut lines, &mut Nobody);
    if answer.status == 3 && lines.bytes() == b"aes3: refused 9\n".as_slice() {
        answer.source.read(&mut [0]).ok()
    } else {
        None
    }
}

/// A rejected command line leaves its input unread.
#[test]
fn a_bad_status_text_reads_nothing(rt: HostRuntime) {
    assert!(rt; unread_behind_a_bad_status(rt.alloc()) == Some(1));
}

/// Whether this line and status report why words cannot be read.
fn is_told(alloc: Global, fault: Unread, status: u8, line: &[u8]) -> bool {
    let mut lines = MemorySink::new(alloc);
    tell_unread(fault, &mut lines, &mut Nobody) == status && lines.bytes() == line
}

#[test]
fn words_that_cannot_be_read(rt: HostRuntime) {
    let usage =
        b"error: the words are not UTF-8\n\nUsage: aes3 COMMAND [OPTIONS] < INPUT > OUTPUT\n\nFor more information, try '--help'.\n";
    assert!(rt; is_told(rt.alloc(), Unread::NotUtf8, 2, usage));
    assert!(rt; is_told(rt.alloc(), Unread::Memory, 3, b"aes3: refused 8\n"));
}
