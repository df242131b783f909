//! Cells to the samples of their blocks, with zero for each sample that is not valid.

ghost use Rattle.std.specs.Prelude.{◌≡◌, ℕ, ◌+◌, ◌<◌, ◌≤◌, ◌^◌, List, [], Bool, IfOk, map};
ghost use Rattle.std.specs.List.{All};
ghost use Rattle.aes3_cell.specs.Ends.{Grew, Told};
ghost use Rattle.aes3_frame.specs.Blocks.{IsBlock};
ghost use Rattle.aes3_frame.specs.Samples.{samples};
ghost use Rattle.aes3_frame.specs.Subframes.{bits_of};
ghost use Rattle.aes3_lock.specs.Reports.{blocks};
ghost use Rattle.aes3_input.specs.Inputs.{cells_of};
ghost use Rattle.aes3_input.specs.Driving.{CellRun};
ghost use Rattle.aes3_input.specs.Running.{ends_of};
ghost use Rattle.aes3_forms_samples.specs.Formats.{narrowed};
ghost use Rattle.aes3_lock_runs.specs.BlockRuns.{decided_blocks, written_stream};
ghost use Rattle.aes3_lock_runs.specs.ReportRuns.{counts_of};
ghost use Rattle.aes3_engine.specs.ValidSamples.{IsAllValid, silenced, valid_block_samples};
ghost use Rattle.aes3_engine.specs.ValidSamples.{valid_samples};

use crate::samples::put_narrowed;
use aes3_block::{Block, Frame, GatheredCells, Subframe, samples_of_block};
use aes3_cell::{Counts, Fault, Form, RunError, Sink, Source};
use aes3_forms_samples::SampleFormat;
use aes3_lock_runs::{BlockWriter, run_blocks};

/// The subframe with zero audio if its validity bit is 1.
fn silence_subframe(subframe: Subframe) -> Subframe
    ensures { bits_of result ≡ silenced (bits_of subframe) }
{
    if !subframe.v {
        return subframe;
    }
    Subframe {
        audio: 0,
        v: subframe.v,
        u: subframe.u,
        c: subframe.c,
    }
}

/// Sets the audio of each subframe whose validity bit is 1 to zero.
fn silence(block: &mut Block)
    ensures { block.new ≡ map silenced block.old }
{
    for i in 0..block.words().len() / 2 {
        let frame = block.frame(i);
        let frame = Frame {
            first: silence_subframe(frame.first),
            second: silence_subframe(frame.second),
        };
        block.set_frame(i, frame);
    }
}

/// Writes blocks as their samples in a form, with zero for each sample that is not valid.
#[derive(Drop)]
pub struct ValidSampleBlocks {
    /// The form of the samples.
    pub format: SampleFormat,
}

impl BlockWriter for ValidSampleBlocks {
    ghost writes = { λ w n b. narrowed w.format (valid_block_samples b) };

    ghost ends = { λ _. [] };

    fn put<T: Sink>(&self, sink: &mut T, _number: u64, cells: &GatheredCells) -> Result<(), Fault> {
        let mut block = cells.block();
        silence(&mut block);
        put_narrowed(samples_of_block(&block), self.format, sink)
    }

    fn put_end<T: Sink>(&self, _sink: &mut T) -> Result<(), Fault> {
        Ok(())
    }
}

/// Writes the samples of blocks as `to_pcm` does, but zero for each sample whose validity bit is 1.
/// Such a sample is not suitable for conversion to analogue (AES3-1, IEC 60958-1).
///
/// # Errors
/// Those of `to_pcm`.
pub fn to_valid_pcm<S: Source, T: Sink>(
    source: &mut S,
    sink: &mut T,
    max_bytes: u64,
    input: Form,
    format: SampleFormat,
) -> Result<Counts, RunError>
    requires source_room { S.failed source.old + 1 < 2 ^ 64 }
    requires sink_room { T.failed sink.old + 1 < 2 ^ 64 }
    requires limit { max_bytes ≤ 2 ^ 40 }

    // If it returns Ok, exactly the whole, closed blocks in the input are written, as their
    // samples, 0 for each with a V bit of 1.
    ensures samples { IfOk result (λ _. (b : List ℕ)
        → Told (S.given source.old) (S.given source.new) b
        → Grew (T.taken sink.old) (T.taken sink.new)
        (narrowed format (valid_samples (blocks (cells_of input b))))) }
    // If none of their V bits is 1, these are the samples that `to_pcm` writes.
    ensures all { IfOk result (λ _. (b : List ℕ) → Told (S.given source.old) (S.given source.new) b
        → All IsAllValid (blocks (cells_of input b))
        → Grew (T.taken sink.old) (T.taken sink.new)
        (narrowed format (samples (blocks (cells_of input b))))) }
    // From what `encode` writes for blocks it writes their valid samples.
    ensures back { IfOk result (λ _. (bs : List (List (List Bool))) → All IsBlock bs
        → Told (S.given source.old) (S.given source.new) (written_stream input bs)
        → Grew (T.taken sink.old) (T.taken sink.new) (narrowed format (valid_samples bs))) }
    // A run over cells: it returns Ok if it can. An error has its cause, and what was decided
    // before it is written.
    ensures run { CellRun max_bytes input (record {
      whole = λ c. narrowed format (valid_samples (blocks c));
      begun = λ c. narrowed format (valid_samples (decided_blocks c));
      counts = counts_of input;
    }) (ends_of S.Source source.old source.new T.Sink sink.old sink.new) result }
{
    run_blocks(source, sink, max_bytes, input, ValidSampleBlocks { format })
}
