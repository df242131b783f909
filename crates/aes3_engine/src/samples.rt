//! Cells to the samples of their blocks.

ghost use Rattle.std.specs.Prelude.{◌≡◌, ℕ, ◌+◌, ◌<◌, ◌≤◌, ◌^◌, List, [], Bool, IfOk};
ghost use Rattle.std.specs.List.{All};
ghost use Rattle.aes3_cell.specs.Ends.{Grew, Told};
ghost use Rattle.aes3_cell.specs.Writes.{Wrote};
ghost use Rattle.aes3_cell.specs.Written.{written};
ghost use Rattle.aes3_level.specs.declared.level.Level.{Level};
ghost use Rattle.aes3_frame.specs.Blocks.{IsBlock};
ghost use Rattle.aes3_frame.specs.Samples.{block_samples, samples};
ghost use Rattle.aes3_lock.specs.Reports.{blocks, normal};
ghost use Rattle.aes3_input.specs.Inputs.{cells_of};
ghost use Rattle.aes3_input.specs.Driving.{CellRun};
ghost use Rattle.aes3_input.specs.Running.{ends_of};
ghost use Rattle.aes3_forms_samples.specs.Formats.{narrowed};
ghost use Rattle.aes3_lock_runs.specs.BlockRuns.{decided_blocks, written_stream};
ghost use Rattle.aes3_lock_runs.specs.ReportRuns.{counts_of};

use aes3_block::{BLOCK_BYTES, GatheredCells, samples_of_block};
use aes3_cell::{Counts, Fault, Form, RunError, Sink, Source, write_all};
use aes3_forms_samples::SampleFormat;
use aes3_lock_runs::{BlockWriter, run_blocks};

/// Writes the samples of a block, which have 32 bits, in this form, as one buffer.
///
/// # Errors
/// The sink's fault; then it has taken a front of the bytes.
#[inline(always)]
pub fn put_narrowed<T: Sink>(
    samples: [u8; BLOCK_BYTES],
    format: SampleFormat,
    sink: &mut T,
) -> Result<(), Fault>
    requires room { T.failed sink.old + 1 < 2 ^ 64 }
    ensures { Wrote T.taken T.failed sink.old sink.new (narrowed format samples) result }
{
    let mut samples = samples;
    let len = format.narrow(&mut samples);
    write_all(sink, &samples[..len])
}

/// Writes blocks as their samples in a form.
#[derive(Drop)]
pub struct SampleBlocks {
    /// The form of the samples.
    pub format: SampleFormat,
}

impl BlockWriter for SampleBlocks {
    ghost writes = { λ w n b. narrowed w.format (block_samples b) };

    ghost ends = { λ _. [] };

    fn put<T: Sink>(&self, sink: &mut T, _number: u64, cells: &GatheredCells) -> Result<(), Fault> {
        put_narrowed(samples_of_block(&cells.block()), self.format, sink)
    }

    fn put_end<T: Sink>(&self, _sink: &mut T) -> Result<(), Fault> {
        Ok(())
    }
}

/// Reads cells from any cell on, and writes the samples of the whole, closed blocks in them. For
/// each frame it writes the sample of channel 1, then that of channel 2. A sample is made of the 24
/// audio bits, in this form, lowest byte first (AES3-1, IEC 60958-1). In the form of 16 bits the
/// lowest 8 of them are dropped.
///
/// # Errors
/// Those of `normalise`. The samples of the blocks that were decided before are written; after
/// `Write`, a front of them.
pub fn to_pcm<S: Source, T: Sink>(
    source: &mut S,
    sink: &mut T,
    max_bytes: u64,
    input: Form,
    format: SampleFormat,
) -> Result<Counts, RunError>
    requires source_room { S.failed source.old + 1 < 2 ^ 64 }
    requires sink_room { T.failed sink.old + 1 < 2 ^ 64 }
    requires limit { max_bytes ≤ 2 ^ 40 }

    // If it returns Ok, exactly the whole, closed blocks in the input are written, as their
    // samples.
    ensures samples { IfOk result (λ _. (b : List ℕ)
        → Told (S.given source.old) (S.given source.new) b
        → Grew (T.taken sink.old) (T.taken sink.new)
        (narrowed format (samples (blocks (cells_of input b))))) }
    // They depend on the blocks alone: any line with the same blocks gives the same samples.
    ensures alone { IfOk result (λ _. (b : List ℕ) (bs : List (List (List Bool)))
        → Told (S.given source.old) (S.given source.new) b
        → blocks (cells_of input b) ≡ bs
        → Grew (T.taken sink.old) (T.taken sink.new) (narrowed format (samples bs))) }
    // From what `normalise` writes for cells it writes the samples of the cells.
    ensures normal { IfOk result (λ _. (c : List Level)
        → Told (S.given source.old) (S.given source.new) (written input (normal c))
        → Grew (T.taken sink.old) (T.taken sink.new) (narrowed format (samples (blocks c)))) }
    // From what `encode` writes for blocks it writes their samples.
    ensures back { IfOk result (λ _. (bs : List (List (List Bool))) → All IsBlock bs
        → Told (S.given source.old) (S.given source.new) (written_stream input bs)
        → Grew (T.taken sink.old) (T.taken sink.new) (narrowed format (samples bs))) }
    // A run over cells: it returns Ok if it can. An error has its cause, and what was decided
    // before it is written.
    ensures run { CellRun max_bytes input (record {
      whole = λ c. narrowed format (samples (blocks c));
      begun = λ c. narrowed format (samples (decided_blocks c));
      counts = counts_of input;
    }) (ends_of S.Source source.old source.new T.Sink sink.old sink.new) result }
{
    run_blocks(source, sink, max_bytes, input, SampleBlocks { format })
}
