//! The reports on cells, line by line.

ghost use Rattle.std.specs.Prelude.{ℕ, ◌+◌, ◌<◌, ◌≤◌, ◌^◌, List, [], IfOk};
ghost use Rattle.aes3_cell.specs.Ends.{Grew, Told};
ghost use Rattle.aes3_lock.specs.Reports.{decided, reports};
ghost use Rattle.aes3_input.specs.Driving.{CellRun};
ghost use Rattle.aes3_input.specs.Inputs.{cells_of};
ghost use Rattle.aes3_input.specs.Running.{ends_of};
ghost use Rattle.aes3_lock_runs.specs.ReportRuns.{counts_of, report_writing};
ghost use Rattle.aes3_text_reports.specs.Lines.{told_line};
ghost use Rattle.aes3_text_reports.specs.Lines.{report_lines};

use aes3_cell::{Counts, Fault, Form, RunError, Sink, Source};
use aes3_lock::{Ending, Lock};
use aes3_lock_runs::{Reporter, run_reports};
use aes3_text_lines::Lines;
use aes3_text_reports::tell_ending;

/// Writes the line of each report that gets one.
#[derive(Drop)]
struct ReportLines {
    lines: Lines,
}

impl Reporter for ReportLines {
    ghost follows = { λ _ _. Unit {0} };

    ghost writes = { λ k. report_writing (λ _. told_line k.lines) [] };

    #[inline(always)]
    fn tell<T: Sink>(
        &mut self,
        sink: &mut T,
        _blocks: u64,
        _lock: &Lock,
        ending: Ending,
    ) -> Result<(), Fault> {
        tell_ending(self.lines, ending, sink)
    }

    fn finish<T: Sink>(&self, _sink: &mut T) -> Result<(), Fault> {
        Ok(())
    }
}

/// Reads cells from any cell on, and writes a line for each report on them: whole, closed blocks,
/// those with wrong parity bits, and places where a block begins that is faulty or cut off. The
/// lines of whole blocks can be left out.
///
/// # Errors
/// - `BadCell` if a byte of cell text is neither a cell nor a separator.
/// - `BadPadding` if packed cells end wrongly.
/// - `TooLong` if the input has more than `max_bytes` bytes.
/// - `Read` and `Write` if the input or output failed.
///
/// The lines of the reports that were decided before are written; after `Write`, a front of them.
pub fn check<S: Source, T: Sink>(
    source: &mut S,
    sink: &mut T,
    max_bytes: u64,
    input: Form,
    lines: Lines,
) -> Result<Counts, RunError>
    requires source_room { S.failed source.old + 1 < 2 ^ 64 }
    requires sink_room { T.failed sink.old + 1 < 2 ^ 64 }
    requires limit { max_bytes ≤ 2 ^ 40 }

    // If it returns Ok, exactly the lines of the reports are written, in order of place.
    ensures lines { IfOk result (λ _. (b : List ℕ)
        → Told (S.given source.old) (S.given source.new) b
        → Grew (T.taken sink.old) (T.taken sink.new)
        (report_lines lines (reports (cells_of input b)))) }
    // A run over cells: it returns Ok if it can. An error has its cause, and what was decided
    // before it is written.
    ensures run { CellRun max_bytes input (record {
      whole = λ c. report_lines lines (reports c);
      begun = λ c. report_lines lines (decided c);
      counts = counts_of input;
    }) (ends_of S.Source source.old source.new T.Sink sink.old sink.new) result }
{
    let (counts, _lines) = run_reports(source, sink, max_bytes, input, ReportLines { lines })?;
    Ok(counts)
}
