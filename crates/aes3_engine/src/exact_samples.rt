//! Cells to the samples of their blocks, up to the first block that would lose bits.

ghost use Rattle.std.specs.Prelude.{◌≡◌, ℕ, ◌+◌, ◌<◌, ◌≤◌, ◌^◌, List, [], ◌∷◌, IfOk, None, ◌≢◌};
ghost use Rattle.aes3_cell.specs.Ends.{Grew, Told};
ghost use Rattle.aes3_cell.specs.Writes.{Wrote};
ghost use Rattle.aes3_frame.specs.Samples.{samples};
ghost use Rattle.aes3_lock.specs.Following.{report_in};
ghost use Rattle.aes3_lock.specs.Reports.{blocks};
ghost use Rattle.aes3_input.specs.Inputs.{cells_of};
ghost use Rattle.aes3_input.specs.Running.{InputRun, ends_of};
ghost use Rattle.aes3_forms_samples.specs.declared.sample_format.SampleFormat.TheVariants.{S16};
ghost use Rattle.aes3_forms_samples.specs.Formats.{narrowed};
ghost use Rattle.aes3_engine.specs.ExactSamples.{exact_cells, exact_samples, exact_writing, first_unfit};
ghost use Rattle.aes3_engine.specs.ExactSamples.{refused_behind, unless_refused};
ghost use Rattle.aes3_engine.specs.Filling.{placed};

use crate::samples::{put_narrowed, to_pcm};
use aes3_block::{Block, samples_of_block};
use aes3_cell::{Counts, Fault, Form, RunError, Sink, Source};
use aes3_forms_samples::SampleFormat;
use aes3_lock::{Ending, Lock};
use aes3_lock_runs::{Reporter, run_reports};

/// The result of a run that gives blocks exactly.
#[derive(Clone, Copy)]
pub struct Exact {
    /// Its counts, including the blocks after the first one that it did not give.
    pub counts: Counts,
    /// The place of the first block that would have lost something: bits of its samples, or
    /// settings for its status. Neither that block nor what follows it is written.
    pub refused: Option<u64>,
}

/// Writes the samples of blocks in 16 bits, up to the first block that would lose bits. It has this
/// form only, so that its result depends on no form.
#[derive(Drop)]
pub struct ExactBlocks {
    /// The place of the first block that would have lost bits.
    pub refused: Option<u64>,
}

impl ExactBlocks {
    /// A reporter that has taken no report.
    pub fn new() -> Self
        ensures { result.refused ≡ None }
    {
        ExactBlocks { refused: None }
    }

    /// Writes the samples of a block at a place, if they lose nothing and no samples before did.
    ///
    /// # Errors
    /// The sink's fault; then it has taken a front of the bytes.
    fn put_block<T: Sink>(&mut self, sink: &mut T, at: u64, block: &Block) -> Result<(), Fault>
        requires room { T.failed sink.old + 1 < 2 ^ 64 }
        ensures refused { IfOk result (λ _. self.new.refused ≡ refused_behind S16 self.old.refused
            (record { place = at; block = block.now } ∷ [])) }
        ensures wrote { Wrote T.taken T.failed sink.old sink.new (unless_refused self.old.refused
            (exact_samples S16 (record { place = at; block = block.now } ∷ []))) result }
    {
        if self.refused.is_some() {
            return Ok(());
        }
        let samples = samples_of_block(block);
        if SampleFormat::S16.fits(&samples) {
            return put_narrowed(samples, SampleFormat::S16, sink);
        }
        self.refused = Some(at);
        Ok(())
    }

    /// Writes what a report gives.
    ///
    /// # Errors
    /// The sink's fault; then it has taken a front of the bytes.
    fn put<T: Sink>(&mut self, sink: &mut T, lock: &Lock, ending: Ending) -> Result<(), Fault>
        requires room { T.failed sink.old + 1 < 2 ^ 64 }
        ensures refused { IfOk result (λ _. self.new.refused ≡ refused_behind S16 self.old.refused
            (placed (report_in lock.now ending ∷ []))) }
        ensures wrote { Wrote T.taken T.failed sink.old sink.new (unless_refused self.old.refused
            (exact_samples S16 (placed (report_in lock.now ending ∷ [])))) result }
    {
        match ending {
            Ending::Whole { at, .. } => self.put_block(sink, at, &lock.gathered_cells().block()),
            Ending::Marked { .. } => Ok(()),
            Ending::Fault { .. } => Ok(()),
            Ending::Unfinished { .. } => Ok(()),
        }
    }
}

impl Reporter for ExactBlocks {
    ghost follows = { λ k r. k.refused ≡ first_unfit S16 (placed r) };

    ghost writes = { λ _. exact_writing S16 };

    fn tell<T: Sink>(
        &mut self,
        sink: &mut T,
        _blocks: u64,
        lock: &Lock,
        ending: Ending,
    ) -> Result<(), Fault> {
        self.put(sink, lock, ending)
    }

    fn finish<T: Sink>(&self, _sink: &mut T) -> Result<(), Fault> {
        Ok(())
    }
}

/// Does what [`to_exact_pcm`] does, in 16 bits.
fn to_exact_16<S: Source, T: Sink>(
    source: &mut S,
    sink: &mut T,
    max_bytes: u64,
    input: Form,
) -> Result<Exact, RunError>
    requires source_room { S.failed source.old + 1 < 2 ^ 64 }
    requires sink_room { T.failed sink.old + 1 < 2 ^ 64 }
    requires limit { max_bytes ≤ 2 ^ 40 }
    ensures { InputRun (exact_cells input S16) max_bytes
        (ends_of S.Source source.old source.new T.Sink sink.old sink.new) result }
{
    let (counts, blocks) = run_reports(source, sink, max_bytes, input, ExactBlocks::new())?;
    Ok(Exact {
        counts,
        refused: blocks.refused,
    })
}

/// Does what [`to_exact_pcm`] does, in a form that holds 24 bits, so that no sample loses any.
fn to_exact_24<S: Source, T: Sink>(
    source: &mut S,
    sink: &mut T,
    max_bytes: u64,
    input: Form,
    format: SampleFormat,
) -> Result<Exact, RunError>
    requires source_room { S.failed source.old + 1 < 2 ^ 64 }
    requires sink_room { T.failed sink.old + 1 < 2 ^ 64 }
    requires limit { max_bytes ≤ 2 ^ 40 }
    requires wide { format ≢ S16 }
    ensures { InputRun (exact_cells input format) max_bytes
        (ends_of S.Source source.old source.new T.Sink sink.old sink.new) result }
{
    let counts = to_pcm(source, sink, max_bytes, input, format)?;
    Ok(Exact {
        counts,
        refused: None,
    })
}

/// Writes the samples of blocks as `to_pcm` does, but only up to the first block whose samples
/// would lose bits in this form. In 16 bits, that is a block with a sample of more than 16 bits.
/// Its place is returned at the end: the input is read to its end.
///
/// # Errors
/// Those of `to_pcm`.
pub fn to_exact_pcm<S: Source, T: Sink>(
    source: &mut S,
    sink: &mut T,
    max_bytes: u64,
    input: Form,
    format: SampleFormat,
) -> Result<Exact, RunError>
    requires source_room { S.failed source.old + 1 < 2 ^ 64 }
    requires sink_room { T.failed sink.old + 1 < 2 ^ 64 }
    requires limit { max_bytes ≤ 2 ^ 40 }

    // If no block is refused, the samples of all blocks are written, as by `to_pcm`.
    ensures all { IfOk result (λ exact. (b : List ℕ) → exact.refused ≡ None
        → Told (S.given source.old) (S.given source.new) b
        → Grew (T.taken sink.old) (T.taken sink.new)
        (narrowed format (samples (blocks (cells_of input b))))) }
    // What it returns for every input, and what it has written then.
    ensures run { InputRun (exact_cells input format) max_bytes
        (ends_of S.Source source.old source.new T.Sink sink.old sink.new) result }
{
    match format {
        SampleFormat::S16 => to_exact_16(source, sink, max_bytes, input),
        _ => to_exact_24(source, sink, max_bytes, input, format),
    }
}
