//! Cells to samples that keep time: frames between whole blocks fill the time that no block covers.

ghost use Rattle.std.specs.Prelude.{◌≡◌, ℕ, ◌+◌, ◌-◌, ◌*◌, ◌/◌, ◌<◌, ◌≤◌, ◌^◌, ◌++◌, List, [], ◌∷◌, Bool};
ghost use Rattle.std.specs.Prelude.{IfOk, Some, None, drop, length};
ghost use Rattle.aes3_cell.specs.Ends.{Grew, Told};
ghost use Rattle.aes3_cell.specs.Writes.{Wrote};
ghost use Rattle.aes3_level.specs.declared.level.Level.{Level};
ghost use Rattle.aes3_frame.specs.Samples.{block_samples, samples};
ghost use Rattle.aes3_lock.specs.Following.{report_in};
ghost use Rattle.aes3_lock.specs.Reports.{blocks, reports};
ghost use Rattle.aes3_input.specs.Inputs.{cells_of};
ghost use Rattle.aes3_input.specs.Running.{InputRun, ends_of, movement_of};
ghost use Rattle.aes3_forms_samples.specs.Formats.{narrowed};
ghost use Rattle.aes3_engine.specs.Filling.{InRow, KeepsTime, Placed, block_frames, filled, filling};
ghost use Rattle.aes3_engine.specs.Filling.{frame_bytes, frames_between, frames_filled, given};
ghost use Rattle.aes3_engine.specs.Filling.{marked_given, placed, repeated};
ghost use Rattle.aes3_engine.specs.FillRuns.{WroteFrames, filled_cells};
ghost use Rattle.aes3_engine.specs.FillSteps.{Apart, bytes_behind, fill_writing, filling_before, first_of};
ghost use Rattle.aes3_engine.specs.FillSteps.{progress_behind, progress_of, reached};

use crate::mended::MendedBlocks;
use crate::samples::put_narrowed;
use aes3_block::{BLOCK_BYTES, Block, samples_of_block};
use aes3_cell::{Counts, Fault, Form, RunError, Sink, Source, write_all};
use aes3_forms_samples::SampleFormat;
use aes3_frame::{FRAME_CELLS, FRAMES, Fill};
use aes3_lock::{Ending, Lock};
use aes3_lock_runs::{Reporter, run_cells, run_reports};

/// The bytes of a frame's samples, and the frames of a block.
const FRAME_BYTES: usize = 8;

const BLOCK_FRAMES: u64 = FRAMES as u64;

/// The counts of a run that fills time between blocks.
#[derive(Clone, Copy)]
pub struct Filled {
    /// The counts of any run over cells.
    pub counts: Counts,
    /// Frames written between blocks, for time that no block covers.
    pub frames: u64,
    /// Marked blocks that are given.
    pub marked: u64,
}

/// The progress of writing samples of 32 bits.
#[derive(Clone, Copy)]
struct Progress {
    /// The place of the first block.
    first: u64,
    /// How many frames there are from it on.
    frames: u64,
    /// The samples of a frame of filling.
    frame: [u8; FRAME_BYTES],
}

/// How many frames there are before a block at place `at`, if the first block is at place `first`.
fn frames_between(first: u64, at: u64) -> u64
    ensures count { result ≡ frames_between first at }
    ensures few { result < 2 ^ 58 }
{
    let cells = at.saturating_sub(first);
    cells / FRAME_CELLS + cells % FRAME_CELLS / (FRAME_CELLS / 2)
}

/// How many of these frames belong neither to a block nor to a marked block.
fn beside_blocks(frames: u64, blocks: u64, marked: u64) -> u64
    ensures { (beside : ℕ) → frames ≡ block_frames * (blocks + marked) + beside
        → result ≡ beside }
{
    frames
        .saturating_sub(BLOCK_FRAMES.saturating_mul(blocks))
        .saturating_sub(BLOCK_FRAMES.saturating_mul(marked))
}

/// The samples of a frame that fills the time after the samples of a block.
fn filling(fill: Fill, samples: &[u8; BLOCK_BYTES]) -> [u8; FRAME_BYTES]
    ensures { (b : List (List Bool)) → samples.now ≡ block_samples b → result ≡ filling fill b }
{
    let mut frame = [0; FRAME_BYTES];
    match fill {
        Fill::Zero => {}
        Fill::Hold => frame.copy_from_slice(&samples[BLOCK_BYTES - FRAME_BYTES..]),
    }
    frame
}

/// Writes a frame `count` times.
///
/// # Errors
/// The sink's fault; then it has taken a front of the bytes.
fn put_frames<T: Sink>(sink: &mut T, frame: &[u8], count: u64) -> Result<(), Fault>
    requires room { T.failed sink.old + 1 < 2 ^ 64 }
    ensures { Wrote T.taken T.failed sink.old sink.new (repeated count frame.now) result }
{
    'frames: for _written in 0..count {
        write_all(sink, frame)?;
    }
    Ok(())
}

/// Writes a frame of samples of 32 bits in this form `count` times.
///
/// # Errors
/// The sink's fault; then it has taken a front of the bytes.
fn put_narrowed_frames<T: Sink>(
    sink: &mut T,
    frame: [u8; FRAME_BYTES],
    format: SampleFormat,
    count: u64,
) -> Result<(), Fault>
    requires room { T.failed sink.old + 1 < 2 ^ 64 }
    ensures { Wrote T.taken T.failed sink.old sink.new (narrowed format (repeated count frame)) result }
{
    let mut frame = frame;
    let len = format.narrow(&mut frame);
    put_frames(sink, &frame[..len], count)
}

/// Writes the samples of blocks, and what fills the time between them.
#[derive(Drop)]
pub struct FilledBlocks {
    /// What fills the time.
    pub fill: Fill,
    /// The form of the samples.
    pub format: SampleFormat,
    progress: Option<Progress>,
}

impl FilledBlocks {
    /// A reporter that has taken no report.
    pub fn new(fill: Fill, format: SampleFormat) -> Self
        ensures fill { result.fill ≡ fill }
        ensures format { result.format ≡ format }
        ensures progress { result.progress ≡ None }
    {
        FilledBlocks {
            fill,
            format,
            progress: None,
        }
    }

    /// How many frames fill the time between the blocks that it has written, `blocks` whole ones
    /// and `marked` marked ones: all frames that belong to no block.
    pub fn frames(&self, blocks: u64, marked: u64) -> u64
        ensures { (xs : List Placed) → Apart 0 xs
            → self.now.progress ≡ progress_of self.now.fill xs
            → blocks + marked ≡ length xs → result ≡ frames_filled xs }
    {
        match self.progress {
            None => 0,
            Some(progress) => beside_blocks(progress.frames, blocks, marked),
        }
    }

    /// Writes what fills the time before a block at a place.
    ///
    /// # Errors
    /// The sink's fault; then it has taken a front of the bytes.
    fn put_filling<T: Sink>(&self, sink: &mut T, at: u64) -> Result<(), Fault>
        requires room { T.failed sink.old + 1 < 2 ^ 64 }
        ensures { Wrote T.taken T.failed sink.old sink.new
            (narrowed self.now.format (filling_before self.now.progress at)) result }
    {
        match self.progress {
            None => Ok(()),
            Some(progress) => {
                let frames = frames_between(progress.first, at).saturating_sub(progress.frames);
                put_narrowed_frames(sink, progress.frame, self.format, frames)
            }
        }
    }

    /// Notes that the samples of a block at a place are written.
    fn note(&mut self, at: u64, samples: &[u8; BLOCK_BYTES])
        ensures fill { self.new.fill ≡ self.old.fill }
        ensures format { self.new.format ≡ self.old.format }
        ensures progress { (b : List (List Bool)) → samples.now ≡ block_samples b
            → self.new.progress ≡ Some (reached self.old.fill (first_of self.old.progress at)
            (record { place = at; block = b })) }
    {
        let first = match self.progress {
            None => at,
            Some(progress) => progress.first,
        };
        self.progress = Some(Progress {
            first,
            frames: frames_between(first, at) + BLOCK_FRAMES,
            frame: filling(self.fill, samples),
        });
    }

    /// Writes what fills the time before a block at a place, and then its samples.
    ///
    /// # Errors
    /// The sink's fault; then it has taken a front of the bytes.
    pub(crate) fn put_block<T: Sink>(
        &mut self,
        sink: &mut T,
        at: u64,
        block: &Block,
    ) -> Result<(), Fault>
        requires room { T.failed sink.old + 1 < 2 ^ 64 }
        ensures fill { self.new.fill ≡ self.old.fill }
        ensures format { self.new.format ≡ self.old.format }
        ensures progress { IfOk result (λ _. self.new.progress
            ≡ Some (reached self.old.fill (first_of self.old.progress at)
            (record { place = at; block = block.now }))) }
        ensures wrote { Wrote T.taken T.failed sink.old sink.new
            (narrowed self.old.format (filling_before self.old.progress at)
            ++ narrowed self.old.format (block_samples block.now)) result }
    {
        self.put_filling(sink, at)?;
        let samples = samples_of_block(block);
        self.note(at, &samples);
        put_narrowed(samples, self.format, sink)
    }

    /// Writes what a report gives.
    ///
    /// # Errors
    /// The sink's fault; then it has taken a front of the bytes.
    fn put<T: Sink>(&mut self, sink: &mut T, lock: &Lock, ending: Ending) -> Result<(), Fault>
        requires room { T.failed sink.old + 1 < 2 ^ 64 }
        ensures fill { self.new.fill ≡ self.old.fill }
        ensures format { self.new.format ≡ self.old.format }
        ensures progress { IfOk result (λ _. self.new.progress ≡ progress_behind self.old.fill
            self.old.progress (placed (report_in lock.now ending ∷ []))) }
        ensures wrote { Wrote T.taken T.failed sink.old sink.new
            (bytes_behind self.old.format self.old.fill self.old.progress
            (placed (report_in lock.now ending ∷ []))) result }
    {
        match ending {
            Ending::Whole { at, .. } => self.put_block(sink, at, &lock.gathered_cells().block()),
            Ending::Marked { .. } => Ok(()),
            Ending::Fault { .. } => Ok(()),
            Ending::Unfinished { .. } => Ok(()),
        }
    }
}

impl Reporter for FilledBlocks {
    ghost follows = { λ k r. k.progress ≡ progress_of k.fill (placed r) };

    ghost writes = { λ k. fill_writing k.format k.fill };

    fn tell<T: Sink>(
        &mut self,
        sink: &mut T,
        _blocks: u64,
        lock: &Lock,
        ending: Ending,
    ) -> Result<(), Fault> {
        self.put(sink, lock, ending)
    }

    fn finish<T: Sink>(&self, _sink: &mut T) -> Result<(), Fault> {
        Ok(())
    }
}

/// Reads cells as `to_filled_pcm` does.
fn fill_given<S: Source, T: Sink>(
    source: &mut S,
    sink: &mut T,
    max_bytes: u64,
    input: Form,
    format: SampleFormat,
    fill: Fill,
    marked: bool,
) -> Result<Filled, RunError>
    requires source_room { S.failed source.old + 1 < 2 ^ 64 }
    requires sink_room { T.failed sink.old + 1 < 2 ^ 64 }
    requires limit { max_bytes ≤ 2 ^ 40 }
    ensures { InputRun (filled_cells input format fill marked) max_bytes
        (ends_of S.Source source.old source.new T.Sink sink.old sink.new) result }
{
    if marked {
        let mended = MendedBlocks::new(fill, format);
        let (counts, mended) = run_cells(source, sink, max_bytes, input, mended)?;
        Ok(Filled {
            counts,
            frames: mended.filled.frames(counts.blocks, mended.marked),
            marked: mended.marked,
        })
    } else {
        let blocks = FilledBlocks::new(fill, format);
        let (counts, blocks) = run_reports(source, sink, max_bytes, input, blocks)?;
        Ok(Filled {
            counts,
            frames: blocks.frames(counts.blocks, 0),
            marked: 0,
        })
    }
}

/// Reads cells from any cell on, and writes samples that keep time. Those of the whole, closed
/// blocks in them are written as by `to_pcm`, with frames of filling before each block but the
/// first. So the number of frames from the first block on is the number of cells from there divided
/// by 128 and rounded to the nearest. A half is rounded up.
///
/// A frame of filling is zero, or the last frame of the block before. After the last block nothing
/// is written, as no later block shows how much time passes. The number of frames of filling is
/// returned too.
///
/// If `marked` is true, a marked block is given like a whole one, but its subframes with wrong
/// parity are filled as time is. The sample of such a subframe is zero, or the one before it in its
/// channel.
///
/// # Errors
/// Those of `to_pcm`.
pub fn to_filled_pcm<S: Source, T: Sink>(
    source: &mut S,
    sink: &mut T,
    max_bytes: u64,
    input: Form,
    format: SampleFormat,
    fill: Fill,
    marked: bool,
) -> Result<Filled, RunError>
    requires source_room { S.failed source.old + 1 < 2 ^ 64 }
    requires sink_room { T.failed sink.old + 1 < 2 ^ 64 }
    requires limit { max_bytes ≤ 2 ^ 40 }

    // If it returns Ok, exactly the blocks of the input that are given are written, as their
    // samples, with what fills the time between them.
    ensures samples { IfOk result (λ _. (b : List ℕ)
        → Told (S.given source.old) (S.given source.new) b
        → Grew (T.taken sink.old) (T.taken sink.new)
        (narrowed format (filled fill (given marked fill (cells_of input b)
        (reports (cells_of input b)))))) }
    // If no marked block is given, they are the whole, closed blocks in it.
    ensures whole { IfOk result (λ n. (b : List ℕ)
        → Told (S.given source.old) (S.given source.new) b
        → marked_given marked (reports (cells_of input b)) ≡ 0
        → Grew (T.taken sink.old) (T.taken sink.new)
        (narrowed format (filled fill (placed (reports (cells_of input b)))))) }
    // If these blocks also follow each other in a row, these are the samples that `to_pcm` writes.
    ensures row { IfOk result (λ _. (b : List ℕ) (p : ℕ)
        → Told (S.given source.old) (S.given source.new) b
        → marked_given marked (reports (cells_of input b)) ≡ 0
        → InRow p (placed (reports (cells_of input b)))
        → Grew (T.taken sink.old) (T.taken sink.new)
        (narrowed format (samples (blocks (cells_of input b))))) }
    // The samples of each block are in time, to half a frame. After those of the last nothing is
    // written.
    ensures time { IfOk result (λ _. (b : List ℕ)
        → Told (S.given source.old) (S.given source.new) b
        → (o : List ℕ) × Grew (T.taken sink.old) (T.taken sink.new) (narrowed format o)
        × KeepsTime o (given marked fill (cells_of input b) (reports (cells_of input b)))) }
    // The frames that are written are those of the blocks and those that it counts as filled.
    ensures frames { IfOk result (λ n. WroteFrames format n
        (movement_of T.taken T.failed sink.old sink.new)) }
    // A run over cells: it returns Ok if it can. An error has its cause, and what was decided
    // before it is written.
    ensures run { InputRun (filled_cells input format fill marked) max_bytes
        (ends_of S.Source source.old source.new T.Sink sink.old sink.new) result }
{
    fill_given(source, sink, max_bytes, input, format, fill, marked)
}
