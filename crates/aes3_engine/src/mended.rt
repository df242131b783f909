//! Cells to samples that keep time, with the marked blocks among them.

ghost use Rattle.std.specs.Prelude.{◌≡◌, ◌+◌, ◌<◌, ◌^◌, [], ◌∷◌, IfOk, None};
ghost use Rattle.aes3_cell.specs.Writes.{Wrote};
ghost use Rattle.aes3_frame.specs.Blocks.{zero_block};
ghost use Rattle.aes3_lock.specs.Reports.{decided, reports};
ghost use Rattle.aes3_engine.specs.FillSteps.{bytes_behind};
ghost use Rattle.aes3_engine.specs.MendSteps.{IsMendedOf, TookBlocks, given_in, marked_in};
ghost use Rattle.aes3_engine.specs.MendSteps.{mend_writing};

use crate::filling::FilledBlocks;
use aes3_block::Block;
use aes3_cell::{Fault, Sink};
use aes3_forms_samples::SampleFormat;
use aes3_frame::Fill;
use aes3_lock::{Ending, Lock};
use aes3_lock_runs::Listener;

/// Listens to cells, and writes the samples of the whole and the marked blocks in them, and what
/// fills the time between.
#[derive(Drop)]
pub struct MendedBlocks {
    /// The writer of samples and filling.
    pub filled: FilledBlocks,
    /// The last block, at first the block of zeros.
    before: Block,
    /// How many of the blocks are marked.
    pub marked: u64,
}

impl MendedBlocks {
    /// A listener before the first cell.
    pub fn new(fill: Fill, format: SampleFormat) -> Self
        ensures fill { result.filled.fill ≡ fill }
        ensures format { result.filled.format ≡ format }
        ensures progress { result.filled.progress ≡ None }
        ensures before { result.before ≡ zero_block }
        ensures marked { result.marked ≡ 0 }
    {
        MendedBlocks {
            filled: FilledBlocks::new(fill, format),
            before: Block::zero(),
            marked: 0,
        }
    }

    /// Writes what fills the time before a block at a place, and then its samples.
    ///
    /// # Errors
    /// The sink's fault; then it has taken a front of the bytes.
    fn put_block<T: Sink>(&mut self, sink: &mut T, at: u64, block: Block) -> Result<(), Fault>
        requires room { T.failed sink.old + 1 < 2 ^ 64 }
        ensures took { IfOk result (λ _. TookBlocks self.old self.new
            (record { place = at; block = block } ∷ []) 0) }
        ensures wrote { Wrote T.taken T.failed sink.old sink.new
            (bytes_behind self.old.filled.format self.old.filled.fill self.old.filled.progress
            (record { place = at; block = block } ∷ [])) result }
    {
        self.filled.put_block(sink, at, &block)?;
        self.before = block;
        Ok(())
    }

    /// Writes what an ending gives that a lock has just returned.
    ///
    /// # Errors
    /// The sink's fault; then it has taken a front of the bytes.
    fn put<T: Sink>(&mut self, sink: &mut T, lock: &Lock, ending: Ending) -> Result<(), Fault>
        requires room { T.failed sink.old + 1 < 2 ^ 64 }
        requires few { self.old.marked + 1 < 2 ^ 64 }
        ensures took { IfOk result (λ _. TookBlocks self.old self.new
            (given_in self.old.filled.fill lock.now.words self.old.before ending)
            (marked_in ending)) }
        ensures wrote { Wrote T.taken T.failed sink.old sink.new
            (bytes_behind self.old.filled.format self.old.filled.fill self.old.filled.progress
            (given_in self.old.filled.fill lock.now.words self.old.before ending)) result }
    {
        match ending {
            Ending::Whole { at, .. } => {
                let block = lock.gathered_cells().block();
                self.put_block(sink, at, block)
            }
            Ending::Marked { at, .. } => {
                let block = lock
                    .gathered_cells()
                    .mended_block(self.filled.fill, &self.before);
                self.marked += 1;
                self.put_block(sink, at, block)
            }
            Ending::Fault { .. } => Ok(()),
            Ending::Unfinished { .. } => Ok(()),
        }
    }
}

impl Listener for MendedBlocks {
    ghost follows = { λ k c. IsMendedOf k c (decided c) };

    ghost writes = { λ k. mend_writing k.filled.format k.filled.fill };

    ghost finished = { λ k c. IsMendedOf k c (reports c) };

    fn hear<T: Sink>(
        &mut self,
        sink: &mut T,
        lock: &Lock,
        _blocks: u64,
        ending: Option<Ending>,
    ) -> Result<(), Fault> {
        match ending {
            Some(ending) => self.put(sink, lock, ending),
            None => Ok(()),
        }
    }

    fn end<T: Sink>(
        &mut self,
        sink: &mut T,
        lock: &Lock,
        _blocks: u64,
        ending: Option<Ending>,
    ) -> Result<(), Fault> {
        match ending {
            Some(ending) => self.put(sink, lock, ending),
            None => Ok(()),
        }
    }
}
