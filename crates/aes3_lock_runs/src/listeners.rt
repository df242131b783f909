//! Listeners to what a lock makes of cells: to the cells and each report, to the reports alone, and
//! to whole blocks. The runs with them.

ghost use Rattle.std.specs.Prelude.{◌≡◌, ℕ, ◌+◌, ◌<◌, ◌≤◌, ◌^◌, ◌++◌, List, [], ◌∷◌, Bool, IfOk};
ghost use Rattle.std.specs.Prelude.{length, map, take};
ghost use Rattle.aes3_level.specs.declared.level.Level.{Level};
ghost use Rattle.aes3_cell.specs.declared.form.Form.{Form};
ghost use Rattle.aes3_cell.specs.Writes.{Wrote};
ghost use Rattle.aes3_slot.specs.ReadWords.{read_words};
ghost use Rattle.aes3_slot.specs.Slots.{payload_len};
ghost use Rattle.aes3_lock.specs.declared.report.Report.{Report};
ghost use Rattle.aes3_lock.specs.Following.{Follows, report_in};
ghost use Rattle.aes3_lock.specs.Reports.{decided, reports, wholes};
ghost use Rattle.aes3_lock.specs.Tallies.{IsTallyOf};
ghost use Rattle.aes3_input.specs.Inputs.{cells_of};
ghost use Rattle.aes3_input.specs.Running.{InputRun, ends_of};
ghost use Rattle.aes3_input.specs.Taking.{Writing, behind};
ghost use Rattle.aes3_lock_runs.specs.Listening.{reports_in, Heard, HeardEnd};
ghost use Rattle.aes3_lock_runs.specs.ReportRuns.{counts_of, heard_cells, report_writing};
ghost use Rattle.aes3_lock_runs.specs.ReportRuns.{told_reports, ReportRun};
ghost use Rattle.aes3_lock_runs.specs.Reporting.{reporting};
ghost use Rattle.aes3_lock_runs.specs.BlockRuns.{report_bytes};

use aes3_block::GatheredCells;
use aes3_cell::{Counts, Fault, Form, RunError, Sink, Source};
use aes3_input::{Taker, drive};
use aes3_level::Cells;
use aes3_lock::{Ending, Lock, Tally};

/// Listens to the cells that a lock has taken, up to each that decides a report, and to their end.
/// It writes what it makes of them.
///
/// The contract speaks of the cells that it has heard (`follows`), of what cells write (`writes`),
/// and of what holds after the end (`finished`). After a fault or the end it follows no cells.
pub trait Listener {
    ghost follows: { Self → List Level → Type 0 };

    ghost writes: { Self → Writing Level };

    ghost finished: { Self → List Level → Type 0 };

    /// Hears more cells, after cells with `blocks` whole blocks. `ending` is what the lock has just
    /// returned for the last of them, if anything.
    ///
    /// # Errors
    /// The sink's fault; then it has taken a front of what these cells write.
    fn hear<T: Sink>(
        &mut self,
        sink: &mut T,
        lock: &Lock,
        blocks: u64,
        ending: Option<Ending>,
    ) -> Result<(), Fault>
        requires room { T.failed sink.old + 1 < 2 ^ 64 }
        requires few { lock.now.seen ≤ 2 ^ 43 }
        requires following { (c d : List Level) × Heard lock.now blocks ending c d
            × follows self.old c }
        ensures unchanged { IfOk result (λ _. writes self.new ≡ writes self.old) }
        ensures next { IfOk result (λ _. (c d : List Level) → Heard lock.now blocks ending c d
            → follows self.old c → follows self.new (c ++ d)) }
        ensures wrote { (c d : List Level) → Heard lock.now blocks ending c d → follows self.old c
            → Wrote T.taken T.failed sink.old sink.new (behind (writes self.old) c d) result };

    /// Hears the end of the cells, after `blocks` whole blocks. `ending` is what the lock has just
    /// returned for the end, if anything.
    ///
    /// # Errors
    /// The sink's fault; then it has taken a front of what the end writes.
    fn end<T: Sink>(
        &mut self,
        sink: &mut T,
        lock: &Lock,
        blocks: u64,
        ending: Option<Ending>,
    ) -> Result<(), Fault>
        requires room { T.failed sink.old + 1 < 2 ^ 64 }
        requires few { lock.now.seen ≤ 2 ^ 43 }
        requires following { (c : List Level) × HeardEnd lock.now blocks ending c
            × follows self.old c }
        ensures done { IfOk result (λ _. (c : List Level) → HeardEnd lock.now blocks ending c
            → follows self.old c → finished self.new c) }
        ensures wrote { (c : List Level) → HeardEnd lock.now blocks ending c → follows self.old c
            → Wrote T.taken T.failed sink.old sink.new ((writes self.old).ends c) result };
}

/// Takes cells, counts the reports on them, and lets a listener hear of both.
#[derive(Drop)]
pub struct Followed<L> {
    lock: Lock,
    tally: Tally,
    /// The listener.
    pub listener: L,
}

impl<L: Listener> Followed<L> {
    /// A taker that has taken no cell.
    pub fn new(listener: L) -> Self
        ensures lock { Follows result.lock [] }
        ensures tally { IsTallyOf result.tally [] }
        ensures listener { result.listener ≡ listener }
    {
        Followed {
            lock: Lock::new(),
            tally: Tally::new(),
            listener,
        }
    }

    /// The counts of a run that has read this number of bytes and cells.
    pub fn counts(&self, bytes: u64, cells: u64) -> Counts
        ensures { (form : Form) (b : List ℕ) → bytes ≡ length b → cells ≡ length (cells_of form b)
            → IsTallyOf self.now.tally (reports (cells_of form b)) → result ≡ counts_of form b }
    {
        Counts {
            bytes,
            cells,
            blocks: self.tally.blocks,
            faults: self.tally.faults,
            unfinished: self.tally.unfinished,
            marks: 0,
        }
    }
}

/// Counts the report of an ending that a lock has just returned, if any.
#[inline(always)]
fn count(tally: &mut Tally, lock: &Lock, ending: Option<Ending>)
    requires { (r : List Report) × (length r + 1 < 2 ^ 44) × IsTallyOf tally.old r }
    ensures { (r : List Report) → IsTallyOf tally.old r
        → IsTallyOf tally.new (r ++ reports_in lock.now ending) }
{
    match ending {
        Some(ending) => tally.count(lock, ending),
        None => {}
    }
}

impl<L: Listener> Taker for Followed<L> {
    ghost state = { λ k. record {
      writes = L.writes k.listener;
      follows = λ c. Follows k.lock c × IsTallyOf k.tally (decided c) × L.follows k.listener c;
      finished = λ c. IsTallyOf k.tally (reports c) × L.finished k.listener c;
    } };

    // Inlined, as dense preambles end a candidate every few cells.
    #[inline(always)]
    fn take<T: Sink>(&mut self, sink: &mut T, cells: &mut Cells<'_>) -> Result<(), Fault> {
        let ending = self.lock.take(cells);
        self.listener
            .hear(sink, &self.lock, self.tally.blocks, ending)?;
        count(&mut self.tally, &self.lock, ending);
        Ok(())
    }

    fn finish<T: Sink>(&mut self, sink: &mut T) -> Result<(), Fault> {
        let ending = self.lock.end();
        self.listener
            .end(sink, &self.lock, self.tally.blocks, ending)?;
        count(&mut self.tally, &self.lock, ending);
        Ok(())
    }
}

/// Reads cells, lets the listener hear them as they come, and returns the listener with the counts.
///
/// # Errors
/// - `BadCell` and `BadPadding` if the input is not in its form.
/// - `TooLong` if it has more than `max_bytes` bytes.
/// - `Read` and `Write` if the input or output failed.
///
/// What the cells before write is written; after `Write`, a front of the output.
// Not inlined, so that a caller of several runs has only one buffer on its stack.
#[inline(never)]
pub fn run_cells<S: Source, T: Sink, L: Listener + Drop>(
    source: &mut S,
    sink: &mut T,
    max_bytes: u64,
    input: Form,
    listener: L,
) -> Result<(Counts, L), RunError>
    requires source_room { S.failed source.old + 1 < 2 ^ 64 }
    requires sink_room { T.failed sink.old + 1 < 2 ^ 64 }
    requires limit { max_bytes ≤ 2 ^ 40 }
    requires start { L.follows listener [] }
    ensures { InputRun (heard_cells input (L.writes listener) L.finished) max_bytes
        (ends_of S.Source source.old source.new T.Sink sink.old sink.new) result }
{
    let mut taker = Followed::new(listener);
    let (bytes, cells) = drive(source, sink, max_bytes, input, &mut taker)?;
    Ok((taker.counts(bytes, cells), taker.listener))
}

/// Takes the reports on cells one by one, and writes what it makes of them.
///
/// The contract speaks of the reports that it has taken (`follows`), and of what reports write
/// (`writes`). After a fault it follows no reports.
pub trait Reporter {
    ghost follows: { Self → List Report → Type 0 };

    ghost writes: { Self → Writing Report };

    /// Takes one more report, after `blocks` whole blocks: that of an ending that a lock has just
    /// returned. A reporter that needs no block makes none.
    ///
    /// # Errors
    /// The sink's fault; then it has taken a front of what the report writes.
    fn tell<T: Sink>(
        &mut self,
        sink: &mut T,
        blocks: u64,
        lock: &Lock,
        ending: Ending,
    ) -> Result<(), Fault>
        requires room { T.failed sink.old + 1 < 2 ^ 64 }
        ensures unchanged { IfOk result (λ _. writes self.new ≡ writes self.old) }
        ensures next { IfOk result (λ _. (r : List Report) → blocks ≡ length (wholes r)
            → follows self.old r → follows self.new (r ++ report_in lock.now ending ∷ [])) }
        ensures wrote { (r : List Report) → blocks ≡ length (wholes r) → follows self.old r
            → Wrote T.taken T.failed sink.old sink.new
            ((writes self.old).adds r (report_in lock.now ending)) result };

    /// Takes the end of the reports.
    ///
    /// # Errors
    /// The sink's fault; then it has taken a front of what the end writes.
    fn finish<T: Sink>(&self, sink: &mut T) -> Result<(), Fault>
        requires room { T.failed sink.old + 1 < 2 ^ 64 }
        ensures { (r : List Report) → follows self.now r
            → Wrote T.taken T.failed sink.old sink.new ((writes self.now).ends r) result };
}

/// Listens to cells, and gives a reporter the reports on them.
#[derive(Drop)]
pub struct ReportListener<R> {
    /// The reporter.
    pub reporter: R,
}

impl<R: Reporter> Listener for ReportListener<R> {
    ghost follows = { λ k c. R.follows k.reporter (decided c) };

    ghost writes = { λ k. reporting (R.writes k.reporter) };

    ghost finished = { λ k c. R.follows k.reporter (reports c) };

    #[inline(always)]
    fn hear<T: Sink>(
        &mut self,
        sink: &mut T,
        lock: &Lock,
        blocks: u64,
        ending: Option<Ending>,
    ) -> Result<(), Fault> {
        match ending {
            Some(ending) => self.reporter.tell(sink, blocks, lock, ending),
            None => Ok(()),
        }
    }

    fn end<T: Sink>(
        &mut self,
        sink: &mut T,
        lock: &Lock,
        blocks: u64,
        ending: Option<Ending>,
    ) -> Result<(), Fault> {
        match ending {
            Some(ending) => {
                self.reporter.tell(sink, blocks, lock, ending)?;
                self.reporter.finish(sink)
            }
            None => self.reporter.finish(sink),
        }
    }
}

/// Reads cells, gives the reporter each report on them at the cell that decides it, and returns the
/// reporter with the counts.
///
/// # Errors
/// - `BadCell` and `BadPadding` if the input is not in its form.
/// - `TooLong` if it has more than `max_bytes` bytes.
/// - `Read` and `Write` if the input or output failed.
///
/// What the reports decided before give is written; after `Write`, a front of the output.
pub fn run_reports<S: Source, T: Sink, R: Reporter + Drop>(
    source: &mut S,
    sink: &mut T,
    max_bytes: u64,
    input: Form,
    reporter: R,
) -> Result<(Counts, R), RunError>
    requires source_room { S.failed source.old + 1 < 2 ^ 64 }
    requires sink_room { T.failed sink.old + 1 < 2 ^ 64 }
    requires limit { max_bytes ≤ 2 ^ 40 }
    requires start { R.follows reporter [] }
    ensures { InputRun (told_reports input (R.writes reporter) R.follows) max_bytes
        (ends_of S.Source source.old source.new T.Sink sink.old sink.new) result }
{
    let (counts, reports) = run_cells(source, sink, max_bytes, input, ReportListener { reporter })?;
    Ok((counts, reports.reporter))
}

/// Writes something for each whole, closed block.
pub trait BlockWriter {
    ghost writes: { Self → ℕ → List (List Bool) → List ℕ };

    ghost ends: { Self → List ℕ };

    /// Writes what it makes of block `number`, counted from 0, given the cells of its 384
    /// subframes. A writer that needs no bits gathers none.
    ///
    /// # Errors
    /// The sink's fault; then it has taken a front of the bytes.
    fn put<T: Sink>(&self, sink: &mut T, number: u64, cells: &GatheredCells) -> Result<(), Fault>
        requires room { T.failed sink.old + 1 < 2 ^ 64 }
        ensures { Wrote T.taken T.failed sink.old sink.new
            (writes self.now number (map (take payload_len) (read_words cells.now))) result };

    /// Writes what follows the last block.
    ///
    /// # Errors
    /// The sink's fault; then it has taken a front of the bytes.
    fn put_end<T: Sink>(&self, sink: &mut T) -> Result<(), Fault>
        requires room { T.failed sink.old + 1 < 2 ^ 64 }
        ensures { Wrote T.taken T.failed sink.old sink.new (ends self.now) result };
}

/// Passes the blocks of whole reports on to a writer.
#[derive(Drop)]
pub struct BlockReporter<W> {
    /// The writer.
    pub writer: W,
}

impl<W: BlockWriter> Reporter for BlockReporter<W> {
    ghost follows = { λ _ _. Unit {0} };

    ghost writes = { λ k. report_writing (report_bytes (W.writes k.writer)) (W.ends k.writer) };

    fn tell<T: Sink>(
        &mut self,
        sink: &mut T,
        blocks: u64,
        lock: &Lock,
        ending: Ending,
    ) -> Result<(), Fault> {
        match ending {
            Ending::Whole { .. } => self.writer.put(sink, blocks, lock.gathered_cells()),
            Ending::Marked { .. } => Ok(()),
            Ending::Fault { .. } => Ok(()),
            Ending::Unfinished { .. } => Ok(()),
        }
    }

    fn finish<T: Sink>(&self, sink: &mut T) -> Result<(), Fault> {
        self.writer.put_end(sink)
    }
}

/// Reads cells, and passes each whole, closed block in them on to the writer.
///
/// # Errors
/// Those of `run_reports`.
pub fn run_blocks<S: Source, T: Sink, W: BlockWriter + Drop>(
    source: &mut S,
    sink: &mut T,
    max_bytes: u64,
    input: Form,
    writer: W,
) -> Result<Counts, RunError>
    requires source_room { S.failed source.old + 1 < 2 ^ 64 }
    requires sink_room { T.failed sink.old + 1 < 2 ^ 64 }
    requires limit { max_bytes ≤ 2 ^ 40 }
    ensures { ReportRun max_bytes input (report_bytes (W.writes writer)) (W.ends writer)
        (ends_of S.Source source.old source.new T.Sink sink.old sink.new) result }
{
    let (counts, _blocks) = run_reports(source, sink, max_bytes, input, BlockReporter { writer })?;
    Ok(counts)
}
