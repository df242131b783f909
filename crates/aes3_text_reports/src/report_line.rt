//! The line of a report.

ghost use Rattle.std.specs.Prelude.{◌≡◌, ◌<◌, ◌≤◌, ◌+◌, ◌^◌, ◌++◌, [], length};
ghost use Rattle.aes3_cell.specs.Writes.{Wrote};
ghost use Rattle.aes3_lock.specs.Reports.{ending_report};
ghost use Rattle.aes3_text_reports.specs.Lines.{reason_word, report_line, told_line};

use aes3_cell::{Fault, Sink};
use aes3_lock::{Ending, Report, Why};
use aes3_text_lines::{Lines, TAIL_LEN, Tail};

/// Puts the reason why a cell refutes a candidate, in one word.
fn put_reason(line: &mut Tail, why: Why)
    requires { length line.old + 8 ≤ TAIL_LEN }
    ensures reason { line.new ≡ reason_word why ++ line.old }
    ensures len { length line.new ≤ 8 + length line.old }
{
    match why {
        Why::Preamble => line.text(b"preamble"),
        Why::Biphase => line.text(b"biphase"),
        Why::Unclosed => line.text(b"unclosed"),
    }
}

/// Makes the line of the report of an ending. It contains none of the block's bits.
// Not inlined, so that its callers are, up to the lock, which returns every few cells if many
// candidates end.
#[inline(never)]
fn put_ending(line: &mut Tail, ending: Ending)
    requires none { line.old ≡ [] }
    ensures { line.new ≡ report_line (ending_report [] ending) }
{
    line.text(b"\n");
    match ending {
        Ending::Whole { at, before } => {
            line.level(before);
            line.text(b" before ");
            line.number(at);
            line.text(b"whole at ");
        }
        Ending::Marked { at, before, wrong } => {
            line.number(u64::from(wrong));
            line.text(b" wrong ");
            line.level(before);
            line.text(b" before ");
            line.number(at);
            line.text(b"marked at ");
        }
        Ending::Fault { at, cell, why } => {
            put_reason(line, why);
            line.text(b" ");
            line.number(cell);
            line.text(b" cell ");
            line.number(at);
            line.text(b"fault at ");
        }
        Ending::Unfinished { at, cells } => {
            line.number(cells);
            line.text(b" cells ");
            line.number(at);
            line.text(b"unfinished at ");
        }
    }
}

/// Makes the line of a report.
fn put_report(line: &mut Tail, report: &Report)
    requires none { line.old ≡ [] }
    ensures { line.new ≡ report_line report.now }
{
    match report {
        Report::Whole { at, before, .. } => put_ending(
            line,
            Ending::Whole {
                at: *at,
                before: *before,
            },
        ),
        Report::Marked { at, before, wrong } => put_ending(
            line,
            Ending::Marked {
                at: *at,
                before: *before,
                wrong: *wrong,
            },
        ),
        Report::Fault { at, cell, why } => put_ending(
            line,
            Ending::Fault {
                at: *at,
                cell: *cell,
                why: *why,
            },
        ),
        Report::Unfinished { at, cells } => put_ending(
            line,
            Ending::Unfinished {
                at: *at,
                cells: *cells,
            },
        ),
    }
}

/// Writes the line of the report of an ending as one buffer.
///
/// # Errors
/// The sink's fault; then it has taken a front of the line.
fn line_of_ending<T: Sink>(ending: Ending, sink: &mut T) -> Result<(), Fault>
    requires room { T.failed sink.old + 1 < 2 ^ 64 }
    ensures { Wrote T.taken T.failed sink.old sink.new
        (report_line (ending_report [] ending)) result }
{
    let mut line = Tail::new();
    put_ending(&mut line, ending);
    line.write_to(sink)
}

/// Writes the line of a report as one buffer.
///
/// # Errors
/// The sink's fault; then it has taken a front of the line.
pub fn line_of_report<T: Sink>(report: &Report, sink: &mut T) -> Result<(), Fault>
    requires room { T.failed sink.old + 1 < 2 ^ 64 }
    ensures { Wrote T.taken T.failed sink.old sink.new (report_line report.now) result }
{
    let mut line = Tail::new();
    put_report(&mut line, report);
    line.write_to(sink)
}

/// Writes the line of the report of an ending, if it gets one.
///
/// # Errors
/// The sink's fault; then it has taken a front of the line.
#[inline(always)]
pub fn tell_ending<T: Sink>(lines: Lines, ending: Ending, sink: &mut T) -> Result<(), Fault>
    requires room { T.failed sink.old + 1 < 2 ^ 64 }
    ensures { Wrote T.taken T.failed sink.old sink.new
        (told_line lines (ending_report [] ending)) result }
{
    match lines {
        Lines::All => line_of_ending(ending, sink),
        Lines::Faults => match ending {
            Ending::Whole { .. } => Ok(()),
            Ending::Marked { .. } => line_of_ending(ending, sink),
            Ending::Fault { .. } => line_of_ending(ending, sink),
            Ending::Unfinished { .. } => line_of_ending(ending, sink),
        },
    }
}
