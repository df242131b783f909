//! Cells to blocks, written as cells or as a block file.

ghost use Rattle.std.specs.Prelude.{◌≡◌, ◌≢◌, ℕ, ◌+◌, ◌<◌, ◌≤◌, ◌^◌, ◌↔◌, ◌⊎◌, List, [], Bool, Err};
ghost use Rattle.std.specs.Prelude.{length, map, take, IfOk, IfErr, IsOk, OnErr, IsTrue};
ghost use Rattle.std.specs.List.{All};
ghost use Rattle.aes3_cell.specs.Ends.{Grew, GrewFront, Told};
ghost use Rattle.aes3_cell.specs.Written.{ending, written};
ghost use Rattle.aes3_level.specs.declared.level.Level.{Level};
ghost use Rattle.aes3_frame.specs.Blocks.{IsBlock};
ghost use Rattle.aes3_frame.specs.Files.{file};
ghost use Rattle.aes3_lock.specs.Reports.{blocks, normal};
ghost use Rattle.aes3_lock.specs.Damage.{apart, without};
ghost use Rattle.aes3_lock.specs.FrameLaws.{AreAllLeft, AreClose};
ghost use Rattle.aes3_lock.specs.Laws.{PlacedBlock};
ghost use Rattle.aes3_lock.specs.Remains.{after_changes, after_loss};
ghost use Rattle.aes3_lock.specs.Pieces.{IsPiece, given_blocks, whole_blocks};
ghost use Rattle.aes3_input.specs.Driving.{CellRun, IsCause};
ghost use Rattle.aes3_input.specs.Inputs.{IsInput, cells_before, cells_of};
ghost use Rattle.aes3_input.specs.Running.{Complete, ends_of};
ghost use Rattle.aes3_lock_runs.specs.BlockRuns.{begun_stream, cut_block, cut_blocks, decided_blocks};
ghost use Rattle.aes3_lock_runs.specs.BlockRuns.{normal_block, written_stream};
ghost use Rattle.aes3_lock_runs.specs.ReportRuns.{counts_of};
ghost use Rattle.aes3_engine.specs.Words.{numbered_words, words_file};

use crate::words::put_block_words;
use aes3_block::{GatheredCells, put_read_block};
use aes3_cell::{Counts, Fault, Form, Level, RunError, Sink, Source, put_ending};
use aes3_forms_words::Words;
use aes3_lock_runs::{BlockWriter, run_blocks};

/// Writes blocks as cells in the normal polarity.
#[derive(Drop)]
struct NormalBlocks {
    output: Form,
}

impl BlockWriter for NormalBlocks {
    ghost writes = { λ k. normal_block k.output };

    ghost ends = { λ k. ending k.output };

    fn put<T: Sink>(&self, sink: &mut T, _number: u64, cells: &GatheredCells) -> Result<(), Fault> {
        put_read_block(self.output, Level::Low, cells, sink)
    }

    fn put_end<T: Sink>(&self, sink: &mut T) -> Result<(), Fault> {
        put_ending(self.output, sink)
    }
}

/// Writes blocks as a block file.
#[derive(Drop)]
struct FileBlocks {
    words: Words,
}

impl BlockWriter for FileBlocks {
    ghost writes = { λ k. numbered_words k.words };

    ghost ends = { λ _. [] };

    fn put<T: Sink>(&self, sink: &mut T, _number: u64, cells: &GatheredCells) -> Result<(), Fault> {
        put_block_words(&cells.block(), self.words, sink)
    }

    fn put_end<T: Sink>(&self, _sink: &mut T) -> Result<(), Fault> {
        Ok(())
    }
}

/// Writes `count` blocks from number `from` on as cells in the normal polarity.
#[derive(Drop)]
struct CutBlocks {
    stream: NormalBlocks,
    from: u64,
    count: u64,
}

impl BlockWriter for CutBlocks {
    ghost writes = { λ k. cut_block k.stream.output k.from k.count };

    ghost ends = { λ k. ending k.stream.output };

    fn put<T: Sink>(&self, sink: &mut T, number: u64, cells: &GatheredCells) -> Result<(), Fault> {
        if number >= self.from && number - self.from < self.count {
            self.stream.put(sink, number, cells)
        } else {
            Ok(())
        }
    }

    fn put_end<T: Sink>(&self, sink: &mut T) -> Result<(), Fault> {
        self.stream.put_end(sink)
    }
}

/// Reads cells from any cell on, and writes the whole, closed blocks in them as one valid line in
/// the normal polarity. The level before its first cell is `Low` (AES3-3, IEC 60958-1).
///
/// # Errors
/// - `BadCell` if a byte of cell text is neither a cell nor a separator.
/// - `BadPadding` if packed cells end wrongly.
/// - `TooLong` if the input has more than `max_bytes` bytes.
/// - `Read` and `Write` if the input or output failed.
///
/// The blocks that were decided before are written without an ending; after `Write`, a front of the
/// output.
pub fn normalise<S: Source, T: Sink>(
    source: &mut S,
    sink: &mut T,
    max_bytes: u64,
    input: Form,
    output: Form,
) -> Result<Counts, RunError>
    requires source_room { S.failed source.old + 1 < 2 ^ 64 }
    requires sink_room { T.failed sink.old + 1 < 2 ^ 64 }
    requires limit { max_bytes ≤ 2 ^ 40 }

    // If it returns Ok, exactly the whole, closed blocks in the input are written, as their normal
    // stream.
    ensures normal { IfOk result (λ _. (b : List ℕ)
        → Told (S.given source.old) (S.given source.new) b
        → Grew (T.taken sink.old) (T.taken sink.new) (written output (normal (cells_of input b)))) }
    // From any starting cell of a valid stream these are its whole blocks that begin there or
    // later.
    ensures piece { IfOk result (λ _. (s : Level) (bs : List (List (List Bool))) (i j : ℕ)
        (b : List ℕ) → Told (S.given source.old) (S.given source.new) b
        → IsPiece s bs i j (cells_of input b) → Grew (T.taken sink.old) (T.taken sink.new)
        (written_stream output (whole_blocks bs i j))) }
    // With up to three cells of the piece changed they are those blocks, each as the changed cells
    // in it and directly after it leave it.
    ensures damaged { IfOk result (λ _. (s : Level) (bs : List (List (List Bool))) (i j : ℕ)
        (c : List Level) (b : List ℕ) → Told (S.given source.old) (S.given source.new) b
        → IsPiece s bs i j c → length (cells_of input b) ≡ length c → apart c (cells_of input b) ≤ 3
        → Grew (T.taken sink.old) (T.taken sink.new)
        (written_stream output (given_blocks (after_changes i c (cells_of input b)) bs i j))) }
    // With up to 383 they are all that these leave at the frames of the piece, in order of place.
    ensures all_left { IfOk result (λ _. (s : Level) (bs : List (List (List Bool))) (i j : ℕ)
        (c : List Level) (b : List ℕ) → Told (S.given source.old) (S.given source.new) b
        → IsPiece s bs i j c → length (cells_of input b) ≡ length c → AreClose c (cells_of input b)
        → (found : List PlacedBlock) × AreAllLeft found s bs i c (cells_of input b)
        × Grew (T.taken sink.old) (T.taken sink.new)
        (written_stream output (map (λ f. f.block) found))) }
    // With one cell lost they are all but the block that held it.
    ensures lost { IfOk result (λ _. (s : Level) (bs : List (List (List Bool))) (i j : ℕ)
        (c : List Level) (b : List ℕ) → Told (S.given source.old) (S.given source.new) b
        → IsPiece s bs i j c → (k : ℕ) → k < length c → cells_of input b ≡ without k c
        → Grew (T.taken sink.old) (T.taken sink.new)
        (written_stream output (given_blocks (after_loss (i + k)) bs i j))) }
    // Two inputs have the same blocks exactly if their outputs are equal, and the normal form of an
    // output is that output.
    ensures tells { (c d : List Level) → written output (normal c) ≡ written output (normal d)
        ↔ blocks c ≡ blocks d }
    ensures again { IfOk result (λ _. (c : List Level)
        → Told (S.given source.old) (S.given source.new) (written input (normal c))
        → Grew (T.taken sink.old) (T.taken sink.new) (written output (normal c))) }
    ensures input { IfOk result (λ _. (b : List ℕ)
        → Told (S.given source.old) (S.given source.new) b → IsInput input b) }
    ensures counts { IfOk result (λ counts. (b : List ℕ)
        → Told (S.given source.old) (S.given source.new) b → counts ≡ counts_of input b) }
    ensures fits { IfOk result (λ _. (b : List ℕ) → Told (S.given source.old) (S.given source.new) b
        → length b ≤ max_bytes) }
    ensures ended { IfOk result (λ _. IsTrue (S.has_ended source.new)) }
    ensures quiet { IfOk result (λ _. (S.failed source.new ≡ S.failed source.old)
        × (T.failed sink.new ≡ T.failed sink.old)) }
    ensures passed_on { IfOk result (λ _. T.passed sink.new ≡ T.taken sink.new) }

    // It returns Ok if the input is in its form and fits, and neither input nor output failed.
    ensures owed { (b : List ℕ) → Told (S.given source.old) (S.given source.new) b → IsInput input b
        → length b ≤ max_bytes
        → S.failed source.new ≡ S.failed source.old → T.failed sink.new ≡ T.failed sink.old
        → IsOk result }

    // An error has its cause, and what was decided before it is written.
    ensures cause { IfErr result (λ error. (b : List ℕ)
        → Told (S.given source.old) (S.given source.new) b
        → IsCause input max_bytes b (S.has_ended source.new) error) }
    ensures read { result ≡ Err RunError.Read → S.failed source.new ≡ S.failed source.old + 1 }
    ensures write { result ≡ Err RunError.Write → T.failed sink.new ≡ T.failed sink.old + 1 }
    ensures sink_quiet { result ≢ Err RunError.Write → T.failed sink.new ≡ T.failed sink.old }
    ensures refused { OnErr result (result ≢ Err RunError.Write → (b : List ℕ)
        → Told (S.given source.old) (S.given source.new) b
        → Grew (T.taken sink.old) (T.taken sink.new)
        (begun_stream output (decided_blocks (cells_before input (take max_bytes b))))) }
    ensures front { result ≡ Err RunError.Write → (b : List ℕ)
        → Told (S.given source.old) (S.given source.new) b
        → GrewFront (T.taken sink.old) (T.taken sink.new)
        (begun_stream output (decided_blocks (cells_before input (take max_bytes b))))
        ⊎ (Complete (IsInput input) max_bytes b (S.has_ended source.new)
        × GrewFront (T.taken sink.old) (T.taken sink.new)
        (written output (normal (cells_of input b)))) }
    ensures few { (b : List ℕ) → Told (S.given source.old) (S.given source.new) b
        → length b ≤ max_bytes + 1 }

    // All that in one, also for a source that does not report its bytes: nothing failed but what
    // the error says.
    ensures run { CellRun max_bytes input (record {
      whole = λ c. written output (normal c);
      begun = λ c. begun_stream output (decided_blocks c);
      counts = counts_of input;
    }) (ends_of S.Source source.old source.new T.Sink sink.old sink.new) result }
{
    run_blocks(source, sink, max_bytes, input, NormalBlocks { output })
}

/// Reads cells from any cell on, and writes the whole, closed blocks in them as a block file.
///
/// # Errors
/// Those of `normalise`. The blocks that were decided before are written; after `Write`, a front of
/// their file.
pub fn decode<S: Source, T: Sink>(
    source: &mut S,
    sink: &mut T,
    max_bytes: u64,
    input: Form,
) -> Result<Counts, RunError>
    requires source_room { S.failed source.old + 1 < 2 ^ 64 }
    requires sink_room { T.failed sink.old + 1 < 2 ^ 64 }
    requires limit { max_bytes ≤ 2 ^ 40 }

    // If it returns Ok, exactly the whole, closed blocks in the input are written, as their file.
    ensures file { IfOk result (λ _. (b : List ℕ) → Told (S.given source.old) (S.given source.new) b
        → Grew (T.taken sink.old) (T.taken sink.new) (file (blocks (cells_of input b)))) }
    // From what `encode` writes for blocks it writes their file.
    ensures back { IfOk result (λ _. (bs : List (List (List Bool))) → All IsBlock bs
        → Told (S.given source.old) (S.given source.new) (written_stream input bs)
        → Grew (T.taken sink.old) (T.taken sink.new) (file bs)) }
    // A run over cells: it returns Ok if it can. An error has its cause, and what was decided
    // before it is written.
    ensures run { CellRun max_bytes input (record {
      whole = λ c. file (blocks c);
      begun = λ c. file (decided_blocks c);
      counts = counts_of input;
    }) (ends_of S.Source source.old source.new T.Sink sink.old sink.new) result }
{
    decode_words(source, sink, max_bytes, input, Words::Own)
}

/// Does what `decode` does, and writes a block file whose words are in this form.
///
/// # Errors
/// Those of `decode`.
pub fn decode_words<S: Source, T: Sink>(
    source: &mut S,
    sink: &mut T,
    max_bytes: u64,
    input: Form,
    words: Words,
) -> Result<Counts, RunError>
    requires source_room { S.failed source.old + 1 < 2 ^ 64 }
    requires sink_room { T.failed sink.old + 1 < 2 ^ 64 }
    requires limit { max_bytes ≤ 2 ^ 40 }

    // From what `encode` writes for blocks it writes their file in these words.
    ensures back { IfOk result (λ _. (bs : List (List (List Bool))) → All IsBlock bs
        → Told (S.given source.old) (S.given source.new) (written_stream input bs)
        → Grew (T.taken sink.old) (T.taken sink.new) (words_file words bs)) }
    // A run over cells: if it returns Ok, exactly the whole, closed blocks in the input are
    // written, as their file.
    ensures run { CellRun max_bytes input (record {
      whole = λ c. words_file words (blocks c);
      begun = λ c. words_file words (decided_blocks c);
      counts = counts_of input;
    }) (ends_of S.Source source.old source.new T.Sink sink.old sink.new) result }
{
    run_blocks(source, sink, max_bytes, input, FileBlocks { words })
}

/// Reads cells from any cell on, and writes some of the whole, closed blocks in them as `normalise`
/// does: `count` blocks from number `from` on, counted from 0.
///
/// # Errors
/// Those of `normalise`.
pub fn cut<S: Source, T: Sink>(
    source: &mut S,
    sink: &mut T,
    max_bytes: u64,
    input: Form,
    output: Form,
    from: u64,
    count: u64,
) -> Result<Counts, RunError>
    requires source_room { S.failed source.old + 1 < 2 ^ 64 }
    requires sink_room { T.failed sink.old + 1 < 2 ^ 64 }
    requires limit { max_bytes ≤ 2 ^ 40 }

    // If it returns Ok, exactly the selected blocks are written, as their normal stream.
    ensures cut { IfOk result (λ _. (b : List ℕ) → Told (S.given source.old) (S.given source.new) b
        → Grew (T.taken sink.old) (T.taken sink.new)
        (written_stream output (cut_blocks from count (blocks (cells_of input b))))) }
    // A run over cells: it returns Ok if it can. An error has its cause, and what was decided
    // before it is written.
    ensures run { CellRun max_bytes input (record {
      whole = λ c. written_stream output (cut_blocks from count (blocks c));
      begun = λ c. begun_stream output (cut_blocks from count (decided_blocks c));
      counts = counts_of input;
    }) (ends_of S.Source source.old source.new T.Sink sink.old sink.new) result }
{
    let writer = CutBlocks {
        stream: NormalBlocks { output },
        from,
        count,
    };
    run_blocks(source, sink, max_bytes, input, writer)
}
