//! A reporter that writes the channel status of blocks, and the runs with it.

ghost use Rattle.std.specs.Prelude.{◌≡◌, ◌+◌, ◌<◌, ◌^◌, ◌++◌, List, [], ◌∷◌, Bool, Some, length};
ghost use Rattle.std.specs.Prelude.{IfOk, ℕ, ◌≤◌, true, false};
ghost use Rattle.aes3_cell.specs.Writes.{Wrote};
ghost use Rattle.aes3_cell.specs.Ends.{Grew, Told};
ghost use Rattle.aes3_input.specs.Driving.{CellRun};
ghost use Rattle.aes3_input.specs.Inputs.{cells_of};
ghost use Rattle.aes3_input.specs.Running.{ends_of};
ghost use Rattle.aes3_frame.specs.Statuses.{status_of};
ghost use Rattle.aes3_frame.specs.declared.block.Channel.TheVariants as channel;
ghost use Rattle.aes3_text_lines.specs.StatusLines.{detail_text, status_line_with};
ghost use Rattle.aes3_lock.specs.Following.{report_in};
ghost use Rattle.aes3_lock.specs.Reports.{wholes, blocks, decided, reports};
ghost use Rattle.aes3_lock_runs.specs.BlockRuns.{decided_blocks};
ghost use Rattle.aes3_lock_runs.specs.ReportRuns.{counts_of};
ghost use Rattle.aes3_text.specs.Runs.{AreLast, report_details, showing, told, change_details};
ghost use Rattle.aes3_text.specs.Runs.{detail_lines, details_from, status_lines};

use aes3_block::{Block, Channel};
use aes3_cell::{Counts, Fault, Form, RunError, Sink, Source};
use aes3_lock::{Ending, Lock};
use aes3_lock_runs::{Reporter, run_reports};
use aes3_text_lines::{Detail, line_of_status_with, text_of_detail};

/// The place of a block: its number, counted from 0, and the cell at which it begins.
#[derive(Clone, Copy)]
pub(crate) struct Place {
    pub(crate) number: u64,
    pub(crate) at: u64,
}

/// Writes the channel status of blocks.
#[derive(Drop)]
pub(crate) struct StatusLines {
    /// What follows a line.
    pub(crate) detail: Detail,
    /// Whether lines that report no change are left out.
    pub(crate) changes: bool,
    /// The statuses of the block before, if there is one.
    pub(crate) first: Option<[u8; 24]>,
    pub(crate) second: Option<[u8; 24]>,
}

impl StatusLines {
    /// A reporter that has taken no report.
    pub(crate) fn new(detail: Detail, changes: bool) -> Self
        ensures detail { result.detail ≡ detail }
        ensures changes { result.changes ≡ changes }
        ensures begun { AreLast result.first result.second [] }
    {
        StatusLines {
            detail,
            changes,
            first: None,
            second: None,
        }
    }

    /// Writes the line of a channel's status in a block, unless it is left out because of the one
    /// before it.
    ///
    /// # Errors
    /// The sink's fault; then it has taken a front of the line.
    fn put_line<T: Sink>(
        &self,
        sink: &mut T,
        place: Place,
        channel: Channel,
        block: &Block,
        before: Option<[u8; 24]>,
        status: &[u8; 24],
    ) -> Result<(), Fault>
        requires room { T.failed sink.old + 1 < 2 ^ 64 }
        ensures { Wrote T.taken T.failed sink.old sink.new
            (told self.now.changes before status.now
            (status_line_with place.number channel status.now
            (detail_text self.now.detail channel place.at block.now))) result }
    {
        if self.changes
            && let Some(before) = before
            && before == *status
        {
            return Ok(());
        }
        let text = text_of_detail(self.detail, channel, place.at, block);
        line_of_status_with(place.number, channel, status, &text, sink)
    }

    /// Writes the lines of a block, and keeps its statuses.
    ///
    /// # Errors
    /// The sink's fault; then it has taken a front of the lines.
    fn put_block<T: Sink>(&mut self, sink: &mut T, place: Place, block: &Block) -> Result<(), Fault>
        requires room { T.failed sink.old + 1 < 2 ^ 64 }
        ensures detail { self.new.detail ≡ self.old.detail }
        ensures changes { self.new.changes ≡ self.old.changes }
        ensures first { IfOk result (λ _. self.new.first ≡ Some (status_of block.now channel.First)) }
        ensures second { IfOk result (λ _. self.new.second
            ≡ Some (status_of block.now channel.Second)) }
        ensures wrote { Wrote T.taken T.failed sink.old sink.new
            (told self.old.changes self.old.first (status_of block.now channel.First)
            (status_line_with place.number channel.First (status_of block.now channel.First)
            (detail_text self.old.detail channel.First place.at block.now))
            ++ told self.old.changes self.old.second (status_of block.now channel.Second)
            (status_line_with place.number channel.Second (status_of block.now channel.Second)
            (detail_text self.old.detail channel.Second place.at block.now))) result }
    {
        let first = block.channel_status(Channel::First);
        let second = block.channel_status(Channel::Second);
        self.put_line(sink, place, Channel::First, block, self.first, &first)?;
        self.put_line(sink, place, Channel::Second, block, self.second, &second)?;
        self.first = Some(first);
        self.second = Some(second);
        Ok(())
    }

    /// Writes the lines of a report, and keeps the statuses of its block.
    ///
    /// # Errors
    /// The sink's fault; then it has taken a front of the lines.
    fn put<T: Sink>(
        &mut self,
        sink: &mut T,
        blocks: u64,
        lock: &Lock,
        ending: Ending,
    ) -> Result<(), Fault>
        requires room { T.failed sink.old + 1 < 2 ^ 64 }
        ensures detail { self.new.detail ≡ self.old.detail }
        ensures changes { self.new.changes ≡ self.old.changes }
        ensures last { IfOk result (λ _. (bs : List (List (List Bool)))
            → AreLast self.old.first self.old.second bs
            → AreLast self.new.first self.new.second (bs ++ wholes (report_in lock.now ending ∷ []))) }
        ensures wrote { (bs : List (List (List Bool)))
            → AreLast self.old.first self.old.second bs → blocks ≡ length bs
            → Wrote T.taken T.failed sink.old sink.new
            (report_details self.old.changes self.old.detail bs (report_in lock.now ending)) result }
    {
        match ending {
            Ending::Whole { at, .. } => {
                let place = Place { number: blocks, at };
                self.put_block(sink, place, &lock.gathered_cells().block())
            }
            Ending::Marked { .. } => Ok(()),
            Ending::Fault { .. } => Ok(()),
            Ending::Unfinished { .. } => Ok(()),
        }
    }
}

impl Reporter for StatusLines {
    ghost follows = { λ k r. AreLast k.first k.second (wholes r) };

    ghost writes = { λ k. showing k.changes k.detail };

    fn tell<T: Sink>(
        &mut self,
        sink: &mut T,
        blocks: u64,
        lock: &Lock,
        ending: Ending,
    ) -> Result<(), Fault> {
        self.put(sink, blocks, lock, ending)
    }

    fn finish<T: Sink>(&self, _sink: &mut T) -> Result<(), Fault> {
        Ok(())
    }
}

/// Reads cells, and writes the lines of the blocks: all of them, or those of changes.
///
/// # Errors
/// Those of `show`.
fn show_lines<S: Source, T: Sink>(
    source: &mut S,
    sink: &mut T,
    max_bytes: u64,
    input: Form,
    detail: Detail,
    changes: bool,
) -> Result<Counts, RunError>
    requires source_room { S.failed source.old + 1 < 2 ^ 64 }
    requires sink_room { T.failed sink.old + 1 < 2 ^ 64 }
    requires limit { max_bytes ≤ 2 ^ 40 }
    ensures { CellRun max_bytes input (record {
      whole = λ c. details_from changes detail [] (reports c);
      begun = λ c. details_from changes detail [] (decided c);
      counts = counts_of input;
    }) (ends_of S.Source source.old source.new T.Sink sink.old sink.new) result }
{
    let lines = StatusLines::new(detail, changes);
    let (counts, _lines) = run_reports(source, sink, max_bytes, input, lines)?;
    Ok(counts)
}

/// Reads cells from any cell on, and writes two lines for each whole, closed block in them. They
/// are the channel status of channel 1 and that of channel 2 (AES3-2, IEC 60958-3).
///
/// # Errors
/// Those of `check`. The lines of the blocks that were decided before are written; after `Write`, a
/// front of them.
pub fn show<S: Source, T: Sink>(
    source: &mut S,
    sink: &mut T,
    max_bytes: u64,
    input: Form,
) -> Result<Counts, RunError>
    requires source_room { S.failed source.old + 1 < 2 ^ 64 }
    requires sink_room { T.failed sink.old + 1 < 2 ^ 64 }
    requires limit { max_bytes ≤ 2 ^ 40 }

    // If it returns Ok, exactly the lines of the blocks are written, in order of place.
    ensures lines { IfOk result (λ _. (b : List ℕ)
        → Told (S.given source.old) (S.given source.new) b
        → Grew (T.taken sink.old) (T.taken sink.new) (status_lines (blocks (cells_of input b)))) }
    // A run over cells: it returns Ok if it can. An error has its cause, and what was decided
    // before it is written.
    ensures run { CellRun max_bytes input (record {
      whole = λ c. status_lines (blocks c);
      begun = λ c. status_lines (decided_blocks c);
      counts = counts_of input;
    }) (ends_of S.Source source.old source.new T.Sink sink.old sink.new) result }
{
    show_lines(source, sink, max_bytes, input, Detail::Plain, false)
}

/// Does what `show` does, with this detail after each line (AES3-1, IEC 60958-1: validity and user
/// bits).
///
/// # Errors
/// Those of `show`.
pub fn show_detail<S: Source, T: Sink>(
    source: &mut S,
    sink: &mut T,
    max_bytes: u64,
    input: Form,
    detail: Detail,
) -> Result<Counts, RunError>
    requires source_room { S.failed source.old + 1 < 2 ^ 64 }
    requires sink_room { T.failed sink.old + 1 < 2 ^ 64 }
    requires limit { max_bytes ≤ 2 ^ 40 }

    // If it returns Ok, exactly the lines of the whole blocks are written, in order of place.
    ensures lines { IfOk result (λ _. (b : List ℕ)
        → Told (S.given source.old) (S.given source.new) b
        → Grew (T.taken sink.old) (T.taken sink.new)
        (detail_lines detail (reports (cells_of input b)))) }
    // A run over cells: it returns Ok if it can. An error has its cause, and what was decided
    // before it is written.
    ensures run { CellRun max_bytes input (record {
      whole = λ c. detail_lines detail (reports c);
      begun = λ c. detail_lines detail (decided c);
      counts = counts_of input;
    }) (ends_of S.Source source.old source.new T.Sink sink.old sink.new) result }
{
    show_lines(source, sink, max_bytes, input, detail, false)
}

/// Reads cells from any cell on, and writes the channel status of the whole, closed blocks in them
/// if it changes (AES3-2, IEC 60958-3). It writes both lines of the first block. Of each other
/// block it writes a channel's line if its status is not that of the block before. This detail
/// follows each line.
///
/// # Errors
/// Those of `show`. The lines of the blocks that were decided before are written; after `Write`, a
/// front of them.
pub fn show_changes<S: Source, T: Sink>(
    source: &mut S,
    sink: &mut T,
    max_bytes: u64,
    input: Form,
    detail: Detail,
) -> Result<Counts, RunError>
    requires source_room { S.failed source.old + 1 < 2 ^ 64 }
    requires sink_room { T.failed sink.old + 1 < 2 ^ 64 }
    requires limit { max_bytes ≤ 2 ^ 40 }

    // If it returns Ok, exactly the lines of the first block and of changes are written, in order
    // of place.
    ensures lines { IfOk result (λ _. (b : List ℕ)
        → Told (S.given source.old) (S.given source.new) b
        → Grew (T.taken sink.old) (T.taken sink.new)
        (change_details detail (reports (cells_of input b)))) }
    // A run over cells: it returns Ok if it can. An error has its cause, and what was decided
    // before it is written.
    ensures run { CellRun max_bytes input (record {
      whole = λ c. change_details detail (reports c);
      begun = λ c. change_details detail (decided c);
      counts = counts_of input;
    }) (ends_of S.Source source.old source.new T.Sink sink.old sink.new) result }
{
    show_lines(source, sink, max_bytes, input, detail, true)
}
