//! Cells to the normal stream of their blocks, with changed channel status, V and U bits.

ghost use Rattle.std.specs.Prelude.{◌≡◌, ℕ, ◌+◌, ◌<◌, ◌≤◌, ◌^◌, ◌++◌, List, [], ◌∷◌, Bool, false};
ghost use Rattle.std.specs.Prelude.{IfOk, get_or, length, map, take};
ghost use Rattle.aes3_slot.specs.ReadWords.{read_words};
ghost use Rattle.aes3_slot.specs.Slots.{payload_len};
ghost use Rattle.aes3_cell.specs.Ends.{Grew, Told};
ghost use Rattle.aes3_cell.specs.Writes.{Wrote};
ghost use Rattle.aes3_cell.specs.Written.{ending};
ghost use Rattle.aes3_frame.specs.Statuses.{status_bits, status_of};
ghost use Rattle.aes3_status.specs.Taken.{AreKindsOf, telling_bits};
ghost use Rattle.aes3_lock.specs.declared.report.Report.{Report};
ghost use Rattle.aes3_lock.specs.Following.{report_in};
ghost use Rattle.aes3_lock.specs.Reports.{blocks, reports, wholes};
ghost use Rattle.aes3_input.specs.Inputs.{cells_of};
ghost use Rattle.aes3_input.specs.Running.{InputRun, ends_of};
ghost use Rattle.aes3_lock_runs.specs.BlockRuns.{normal_block, report_bytes, written_stream};
ghost use Rattle.aes3_lock_runs.specs.ReportRuns.{counts_of, report_writing};
ghost use Rattle.aes3_engine.specs.Rewriting.{rewritten, rewritten_block, rewritten_blocks};
ghost use Rattle.aes3_engine.specs.RewritingRuns.{AreMet, met_statuses, rewritten_answer};
ghost use Rattle.aes3_engine.specs.RewritingRuns.{rewritten_cells, statuses_of, taken_of};

use crate::rewriting::rewrite_block;
use aes3_block::{Block, Channel, GatheredCells, put_block};
use aes3_cell::{Counts, Fault, Form, Level, RunError, Sink, Source, put_ending};
use aes3_lock::{Ending, Lock};
use aes3_lock_runs::{Reporter, run_reports};
use aes3_status::{Change, Kinds, Settings, TELLING_BITS, Taken};

/// The bit of a channel's status in a frame.
#[inline(always)]
fn status_bit(block: &Block, channel: Channel, frame: usize) -> bool
    requires { frame < 192 }
    ensures { result ≡ get_or (status_bits block.now channel) frame false }
{
    let frame = block.frame(frame);
    match channel {
        Channel::First => frame.first.c,
        Channel::Second => frame.second.c,
    }
}

/// The bits of a channel's status that decide which settings it takes.
#[inline(always)]
pub(crate) fn bits_that_tell(block: &Block, channel: Channel) -> [bool; TELLING_BITS]
    ensures { result ≡ telling_bits (status_of block.now channel) }
{
    [
        status_bit(block, channel, 0),
        status_bit(block, channel, 1),
        status_bit(block, channel, 16),
        status_bit(block, channel, 17),
        status_bit(block, channel, 18),
        status_bit(block, channel, 32),
    ]
}

/// Which kinds of status the blocks of a run have.
#[derive(Clone, Copy)]
struct MetKinds {
    first: Kinds,
    second: Kinds,
}

impl MetKinds {
    /// The kinds of a run without blocks.
    fn new() -> Self
        ensures { AreMet result [] }
    {
        MetKinds {
            first: Kinds::new(),
            second: Kinds::new(),
        }
    }

    /// Notes one more block.
    fn add(&mut self, block: &Block)
        ensures { (bs : List (List (List Bool))) → AreMet self.old bs
            → AreMet self.new (bs ++ block.now ∷ []) }
    {
        self.first.add(bits_that_tell(block, Channel::First));
        self.second.add(bits_that_tell(block, Channel::Second));
    }
}

/// Writes changed blocks as cells in the normal polarity, and notes the statuses that they had
/// before. From these it is derived after the run which settings were taken.
#[derive(Drop)]
struct RewrittenBlocks {
    output: Form,
    change: Change,
    met: MetKinds,
}

impl RewrittenBlocks {
    /// A reporter that has taken no report.
    fn new(output: Form, change: &Change) -> Self
        ensures output { result.output ≡ output }
        ensures change { result.change ≡ change.now }
        ensures met { AreMet result.met [] }
    {
        RewrittenBlocks {
            output,
            change: *change,
            met: MetKinds::new(),
        }
    }

    /// Writes the block of these cells, and notes its statuses.
    ///
    /// # Errors
    /// The sink's fault; then it has taken a front of the cells.
    fn put_cells<T: Sink>(&mut self, sink: &mut T, cells: &GatheredCells) -> Result<(), Fault>
        requires room { T.failed sink.old + 1 < 2 ^ 64 }
        ensures output { self.new.output ≡ self.old.output }
        ensures change { self.new.change ≡ self.old.change }
        ensures met { (bs : List (List (List Bool))) → AreMet self.old.met bs
            → AreMet self.new.met (bs ++ map (take payload_len) (read_words cells.now) ∷ []) }
        ensures wrote { Wrote T.taken T.failed sink.old sink.new
            (normal_block self.old.output 0 (rewritten self.old.change
            (map (take payload_len) (read_words cells.now)))) result }
    {
        let mut block = cells.block();
        self.met.add(&block);
        rewrite_block(&mut block, &self.change);
        put_block(self.output, Level::Low, &block, sink)
    }

    /// Writes what a report gives.
    ///
    /// # Errors
    /// The sink's fault; then it has taken a front of the cells.
    fn put<T: Sink>(&mut self, sink: &mut T, lock: &Lock, ending: Ending) -> Result<(), Fault>
        requires room { T.failed sink.old + 1 < 2 ^ 64 }
        ensures output { self.new.output ≡ self.old.output }
        ensures change { self.new.change ≡ self.old.change }
        ensures met { (r : List Report) → AreMet self.old.met (wholes r)
            → AreMet self.new.met (wholes (r ++ report_in lock.now ending ∷ [])) }
        ensures wrote { Wrote T.taken T.failed sink.old sink.new
            (report_bytes (rewritten_block self.old.output self.old.change) 0
            (report_in lock.now ending)) result }
    {
        match ending {
            Ending::Whole { .. } => self.put_cells(sink, lock.gathered_cells()),
            Ending::Marked { .. } => Ok(()),
            Ending::Fault { .. } => Ok(()),
            Ending::Unfinished { .. } => Ok(()),
        }
    }
}

impl Reporter for RewrittenBlocks {
    ghost follows = { λ k r. AreMet k.met (wholes r) };

    ghost writes = { λ k. report_writing (report_bytes (rewritten_block k.output k.change))
        (ending k.output) };

    #[inline(always)]
    fn tell<T: Sink>(
        &mut self,
        sink: &mut T,
        _blocks: u64,
        lock: &Lock,
        ending: Ending,
    ) -> Result<(), Fault> {
        self.put(sink, lock, ending)
    }

    fn finish<T: Sink>(&self, sink: &mut T) -> Result<(), Fault> {
        put_ending(self.output, sink)
    }
}

/// The result of a run with a change.
#[derive(Clone, Copy, PartialEq, Eq)]
pub struct Rewritten {
    /// Its counts.
    pub counts: Counts,
    /// Which settings of channel 1 some block took.
    pub first: Taken,
    /// Which settings of channel 2 some block took.
    pub second: Taken,
}

/// Which settings of a channel the blocks take, if there are any, given the number of blocks and
/// their kinds of status. Another status may replace theirs.
fn taken_in(
    kinds: &Kinds,
    blocks: u64,
    status: &Option<[u8; 24]>,
    settings: &Option<Settings>,
) -> Taken
    ensures { (channel : Channel) (bs : List (List (List Bool))) → blocks ≡ length bs
        → AreKindsOf kinds.now (statuses_of channel bs)
        → result ≡ taken_of settings.now (met_statuses status.now channel bs) }
{
    match (settings, status) {
        (None, _) => Taken::NOTHING,
        (Some(settings), None) => kinds.taken_by(settings),
        (Some(settings), Some(status)) => {
            let mut taken = Taken::NOTHING;
            if blocks > 0 {
                taken.add(status, settings);
            }
            taken
        }
    }
}

/// The result of a run with these counts, over blocks with these kinds of status.
fn answer(met: &MetKinds, change: &Change, counts: Counts) -> Rewritten
    ensures { (form : Form) (b : List ℕ) → counts ≡ counts_of form b
        → AreMet met.now (wholes (reports (cells_of form b)))
        → result ≡ rewritten_answer form change.now b }
{
    Rewritten {
        counts,
        first: taken_in(
            &met.first,
            counts.blocks,
            &change.status1,
            &change.settings1,
        ),
        second: taken_in(
            &met.second,
            counts.blocks,
            &change.status2,
            &change.settings2,
        ),
    }
}

/// Reads cells from any cell on, and writes the whole, closed blocks in them as `normalise` does,
/// each with the change. First its validity and user bits are set (AES3-1, IEC 60958-1), then its
/// statuses, then its fields. Then, if the change asks for it, professional status gets its check
/// byte (AES3-2); consumer status never does. Everything else in a block is unchanged.
///
/// It returns which settings some block took. A setting that no block took had no code for any
/// status that it was applied to; for example, a field for the other use has none.
///
/// # Errors
/// Those of `normalise`.
pub fn rewrite<S: Source, T: Sink>(
    source: &mut S,
    sink: &mut T,
    max_bytes: u64,
    input: Form,
    output: Form,
    change: &Change,
) -> Result<Rewritten, RunError>
    requires source_room { S.failed source.old + 1 < 2 ^ 64 }
    requires sink_room { T.failed sink.old + 1 < 2 ^ 64 }
    requires limit { max_bytes ≤ 2 ^ 40 }

    // If it returns Ok, exactly the changed blocks are written, as their normal stream.
    ensures rewritten { IfOk result (λ _. (b : List ℕ)
        → Told (S.given source.old) (S.given source.new) b
        → Grew (T.taken sink.old) (T.taken sink.new)
        (written_stream output (rewritten_blocks change.now (blocks (cells_of input b))))) }
    // A run over cells: it returns Ok if it can, with the settings that the blocks take. An error
    // has its cause, and what was decided before it is written.
    ensures run { InputRun (rewritten_cells input output change.now) max_bytes
        (ends_of S.Source source.old source.new T.Sink sink.old sink.new) result }
{
    let blocks = RewrittenBlocks::new(output, change);
    let (counts, blocks) = run_reports(source, sink, max_bytes, input, blocks)?;
    Ok(answer(&blocks.met, change, counts))
}
