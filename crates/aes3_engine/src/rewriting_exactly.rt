//! Cells to the normal stream of their blocks, with a change, up to the first block that does not
//! take all its settings.

ghost use Rattle.std.specs.Prelude.{◌≡◌, ℕ, ◌+◌, ◌<◌, ◌≤◌, ◌^◌, ◌++◌, ◌||◌, List, [], ◌∷◌, Bool, false};
ghost use Rattle.std.specs.Prelude.{IfOk, None, length};
ghost use Rattle.std.specs.Option.{is_some};
ghost use Rattle.aes3_cell.specs.Ends.{Grew, Told};
ghost use Rattle.aes3_cell.specs.Writes.{Wrote};
ghost use Rattle.aes3_status.specs.KindPlaces.{AreFirstsOf, Met, Rising};
ghost use Rattle.aes3_lock.specs.Following.{report_in};
ghost use Rattle.aes3_lock.specs.Reports.{blocks, reports};
ghost use Rattle.aes3_input.specs.Inputs.{cells_of};
ghost use Rattle.aes3_input.specs.Running.{InputRun, ends_of};
ghost use Rattle.aes3_lock_runs.specs.BlockRuns.{normal_block, written_stream};
ghost use Rattle.aes3_lock_runs.specs.ReportRuns.{counts_of};
ghost use Rattle.aes3_engine.specs.Filling.{Placed, placed};
ghost use Rattle.aes3_engine.specs.Rewriting.{rewritten, rewritten_blocks};
ghost use Rattle.aes3_engine.specs.RewritingExactly.{AnswersExactly, AreMetAt, exactly_rewritten_cells};
ghost use Rattle.aes3_engine.specs.RewritingExactly.{exactly_writing, first_refused};
ghost use Rattle.aes3_engine.specs.RewritingExactly.{first_refused_in, met_of, takes_change};
ghost use Rattle.aes3_engine.specs.RewritingExactly.{takes_in, taking_bytes, unless};

use crate::exact_samples::Exact;
use crate::rewriting::rewrite_block;
use crate::rewriting_runs::bits_that_tell;
use aes3_block::{Block, Channel, put_block};
use aes3_cell::{Counts, Fault, Form, Level, RunError, Sink, Source, put_ending};
use aes3_lock::{Ending, Lock};
use aes3_lock_runs::{Reporter, run_reports};
use aes3_status::{Change, KindPlaces, Settings, earlier, takes_all};

/// Whether a block takes all settings of a channel, if there are any. They apply to the status that
/// the change gives, or else to the block's own.
fn takes_in(
    block: &Block,
    channel: Channel,
    status: &Option<[u8; 24]>,
    settings: &Option<Settings>,
) -> bool
    ensures { result ≡ takes_in channel status.now settings.now block.now }
{
    match (settings, status) {
        (None, _) => true,
        (Some(settings), Some(status)) => takes_all(status, settings),
        (Some(settings), None) => takes_all(&block.channel_status(channel), settings),
    }
}

/// Whether a block takes all settings of a change.
fn takes_change(block: &Block, change: &Change) -> bool
    ensures { result ≡ takes_change change.now block.now }
{
    takes_in(block, Channel::First, &change.status1, &change.settings1)
        & takes_in(block, Channel::Second, &change.status2, &change.settings2)
}

/// Writes a block with a change as cells in the normal polarity.
///
/// # Errors
/// The sink's fault; then it has taken a front of the cells.
fn put_rewritten<T: Sink>(
    sink: &mut T,
    output: Form,
    change: &Change,
    block: Block,
) -> Result<(), Fault>
    requires room { T.failed sink.old + 1 < 2 ^ 64 }
    ensures { Wrote T.taken T.failed sink.old sink.new
        (normal_block output 0 (rewritten change.now block)) result }
{
    let mut block = block;
    rewrite_block(&mut block, change);
    put_block(output, Level::Low, &block, sink)
}

/// The places of the first blocks of a run with a status of each kind.
#[derive(Clone, Copy)]
struct MetPlaces {
    first: KindPlaces,
    second: KindPlaces,
}

impl MetPlaces {
    /// The places of a run without blocks.
    fn new() -> Self
        ensures { AreMetAt result [] }
    {
        MetPlaces {
            first: KindPlaces::new(),
            second: KindPlaces::new(),
        }
    }

    /// Notes one more block at a place.
    fn add(&mut self, at: u64, block: &Block)
        ensures { (xs : List Placed) → AreMetAt self.old xs
            → AreMetAt self.new (xs ++ record { place = at; block = block.now } ∷ []) }
    {
        self.first.add(bits_that_tell(block, Channel::First), at);
        self.second.add(bits_that_tell(block, Channel::Second), at);
    }
}

/// The place of the first block that does not take all settings of a channel, if there are any.
fn first_refused_in(
    places: &KindPlaces,
    status: &Option<[u8; 24]>,
    settings: &Option<Settings>,
) -> Option<u64>
    ensures { (channel : Channel) (xs : List Placed)
        → Rising (λ (x : Met). x.place) 0 (met_of channel xs)
        → AreFirstsOf places.now (met_of channel xs)
        → result ≡ first_refused_in channel status.now settings.now xs }
{
    match (settings, status) {
        (None, _) => None,
        (Some(settings), None) => places.first_refusing(settings),
        (Some(settings), Some(status)) => {
            if takes_all(status, settings) {
                None
            } else {
                places.first()
            }
        }
    }
}

/// The place of the first block that does not take all settings of a change.
fn first_refused(met: &MetPlaces, change: &Change) -> Option<u64>
    ensures { (xs : List Placed) → Rising (λ (x : Placed). x.place) 0 xs → AreMetAt met.now xs
        → result ≡ first_refused change.now xs }
{
    earlier(
        first_refused_in(&met.first, &change.status1, &change.settings1),
        first_refused_in(&met.second, &change.status2, &change.settings2),
    )
}

/// Writes changed blocks as cells in the normal polarity, up to the first that does not take all
/// settings. It notes the statuses that all blocks had before the change. The place of that first
/// block is derived from these after the run.
#[derive(Drop)]
struct ExactlyRewrittenBlocks {
    output: Form,
    change: Change,
    refused: bool,
    met: MetPlaces,
}

impl ExactlyRewrittenBlocks {
    /// A reporter that has taken no report.
    fn new(output: Form, change: &Change) -> Self
        ensures output { result.output ≡ output }
        ensures change { result.change ≡ change.now }
        ensures refused { result.refused ≡ false }
        ensures met { AreMetAt result.met [] }
    {
        ExactlyRewrittenBlocks {
            output,
            change: *change,
            refused: false,
            met: MetPlaces::new(),
        }
    }

    /// Writes a block at a place, if it takes all settings and all blocks before did.
    ///
    /// # Errors
    /// The sink's fault; then it has taken a front of the cells.
    #[inline(always)]
    fn put_block<T: Sink>(&mut self, sink: &mut T, at: u64, block: Block) -> Result<(), Fault>
        requires room { T.failed sink.old + 1 < 2 ^ 64 }
        ensures output { self.new.output ≡ self.old.output }
        ensures change { self.new.change ≡ self.old.change }
        ensures refused { self.new.refused ≡ (self.old.refused || is_some (first_refused
            self.old.change (record { place = at; block = block } ∷ []))) }
        ensures met { (xs : List Placed) → AreMetAt self.old.met xs
            → AreMetAt self.new.met (xs ++ record { place = at; block = block } ∷ []) }
        ensures wrote { Wrote T.taken T.failed sink.old sink.new (unless self.old.refused
            (taking_bytes self.old.output self.old.change
            (record { place = at; block = block } ∷ []))) result }
    {
        self.met.add(at, &block);
        self.refused |= !takes_change(&block, &self.change);
        if self.refused {
            return Ok(());
        }
        put_rewritten(sink, self.output, &self.change, block)
    }

    /// Writes what a report gives.
    ///
    /// # Errors
    /// The sink's fault; then it has taken a front of the cells.
    #[inline(always)]
    fn put<T: Sink>(&mut self, sink: &mut T, lock: &Lock, ending: Ending) -> Result<(), Fault>
        requires room { T.failed sink.old + 1 < 2 ^ 64 }
        ensures output { self.new.output ≡ self.old.output }
        ensures change { self.new.change ≡ self.old.change }
        ensures refused { self.new.refused ≡ (self.old.refused || is_some (first_refused
            self.old.change (placed (report_in lock.now ending ∷ [])))) }
        ensures met { (xs : List Placed) → AreMetAt self.old.met xs
            → AreMetAt self.new.met (xs ++ placed (report_in lock.now ending ∷ [])) }
        ensures wrote { Wrote T.taken T.failed sink.old sink.new (unless self.old.refused
            (taking_bytes self.old.output self.old.change
            (placed (report_in lock.now ending ∷ [])))) result }
    {
        match ending {
            Ending::Whole { at, .. } => self.put_block(sink, at, lock.gathered_cells().block()),
            Ending::Marked { .. } => Ok(()),
            Ending::Fault { .. } => Ok(()),
            Ending::Unfinished { .. } => Ok(()),
        }
    }
}

impl Reporter for ExactlyRewrittenBlocks {
    ghost follows = { λ k r. AreMetAt k.met (placed r)
        × (k.refused ≡ is_some (first_refused k.change (placed r))) };

    ghost writes = { λ k. exactly_writing k.output k.change };

    #[inline(always)]
    fn tell<T: Sink>(
        &mut self,
        sink: &mut T,
        _blocks: u64,
        lock: &Lock,
        ending: Ending,
    ) -> Result<(), Fault> {
        self.put(sink, lock, ending)
    }

    fn finish<T: Sink>(&self, sink: &mut T) -> Result<(), Fault> {
        put_ending(self.output, sink)
    }
}

/// The result of a run with these counts, given the places of the first blocks with a status of
/// each kind.
fn answer(met: &MetPlaces, change: &Change, counts: Counts) -> Exact
    ensures { (form : Form) (b : List ℕ) → counts ≡ counts_of form b
        → AreMetAt met.now (placed (reports (cells_of form b)))
        → AnswersExactly form change.now b result }
{
    Exact {
        counts,
        refused: first_refused(met, change),
    }
}

/// Writes blocks as `rewrite` does, but only up to the first block that does not take all settings
/// of the change. It returns the place of that block; neither the block nor what follows it is
/// written. The input is read to its end.
///
/// A block takes all settings of a channel if a status takes one of the two settings of each text.
/// That is the status that the block is given, or else its own. If fields of four bytes are set
/// too, the status also has to be professional after the others.
///
/// # Errors
/// Those of `rewrite`.
pub fn rewrite_exactly<S: Source, T: Sink>(
    source: &mut S,
    sink: &mut T,
    max_bytes: u64,
    input: Form,
    output: Form,
    change: &Change,
) -> Result<Exact, RunError>
    requires source_room { S.failed source.old + 1 < 2 ^ 64 }
    requires sink_room { T.failed sink.old + 1 < 2 ^ 64 }
    requires limit { max_bytes ≤ 2 ^ 40 }

    // If no block is refused, it writes exactly what `rewrite` does.
    ensures all { IfOk result (λ n. (b : List ℕ) → n.refused ≡ None
        → Told (S.given source.old) (S.given source.new) b
        → Grew (T.taken sink.old) (T.taken sink.new)
        (written_stream output (rewritten_blocks change.now (blocks (cells_of input b))))) }
    // What it returns for every input, and what it has written then.
    ensures run { InputRun (exactly_rewritten_cells input output change.now) max_bytes
        (ends_of S.Source source.old source.new T.Sink sink.old sink.new) result }
{
    let blocks = ExactlyRewrittenBlocks::new(output, change);
    let (counts, blocks) = run_reports(source, sink, max_bytes, input, blocks)?;
    Ok(answer(&blocks.met, change, counts))
}
