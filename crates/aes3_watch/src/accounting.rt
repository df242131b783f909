//! The account of all cells, line by line: the reports on them, and the gaps between whole blocks.

ghost use Rattle.std.specs.Prelude.{ℕ, ◌+◌, ◌<◌, ◌≤◌, ◌^◌, List, [], IfOk};
ghost use Rattle.aes3_cell.specs.Ends.{Grew, Told};
ghost use Rattle.aes3_input.specs.Driving.{CellRun};
ghost use Rattle.aes3_input.specs.Inputs.{cells_of};
ghost use Rattle.aes3_input.specs.Running.{ends_of};
ghost use Rattle.aes3_lock_gaps.specs.Gaps.{account, begun_account};
ghost use Rattle.aes3_watch.specs.Accounting.{account_counts};
ghost use Rattle.aes3_watch.specs.GapLines.{account_lines};

use crate::ledger::Ledger;
use aes3_cell::{Counts, Fault, Form, RunError, Sink, Source};
use aes3_lock_runs::run_cells;
use aes3_text_lines::Lines;

/// Reads cells from any cell on, and accounts for all of them. It writes a line for each report on
/// them, or only for those not of whole blocks. Between these it writes a line for each gap: at
/// most 24,576 cells that lie in no whole block.
///
/// A gap comes after the reports that begin in it. It is written when a report after it is decided,
/// or when two blocks' cells have come from its first cell on. Gaps of 24,576 cells and those
/// between two whole blocks are counted as faults. Shorter ones before the first whole block and
/// after the last are where the input is cut.
///
/// # Errors
/// Those of `check`. The lines that were certain before, whatever cells follow, are written; after
/// `Write`, a front of them.
pub fn account<S: Source, T: Sink>(
    source: &mut S,
    sink: &mut T,
    max_bytes: u64,
    input: Form,
    lines: Lines,
) -> Result<Counts, RunError>
    requires source_room { S.failed source.old + 1 < 2 ^ 64 }
    requires sink_room { T.failed sink.old + 1 < 2 ^ 64 }
    requires limit { max_bytes ≤ 2 ^ 40 }

    // If it returns Ok, exactly the lines of the account are written.
    ensures lines { IfOk result (λ _. (b : List ℕ)
        → Told (S.given source.old) (S.given source.new) b
        → Grew (T.taken sink.old) (T.taken sink.new)
        (account_lines lines (account (cells_of input b)))) }
    // A run over cells: it returns Ok if it can. An error has its cause, and what was certain
    // before it is written.
    ensures run { CellRun max_bytes input (record {
      whole = λ c. account_lines lines (account c);
      begun = λ c. account_lines lines (begun_account c);
      counts = account_counts input;
    }) (ends_of S.Source source.old source.new T.Sink sink.old sink.new) result }
{
    let (counts, ledger) = run_cells(source, sink, max_bytes, input, Ledger::new(lines))?;
    Ok(Counts {
        faults: counts.faults + ledger.lost,
        ..counts
    })
}
