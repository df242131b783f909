//! Block files to cells.

ghost use Rattle.std.specs.Prelude.{◌≡◌, ◌≢◌, ℕ, ◌+◌, ◌<◌, ◌≤◌, ◌^◌, ◌⊎◌, List, [], ◌∷◌, Bool};
ghost use Rattle.std.specs.Prelude.{true, false, None, Err, length, take, IfOk, IfErr, IfSome};
ghost use Rattle.std.specs.Prelude.{IsOk, OnErr, IsTrue};
ghost use Rattle.std.specs.List.{All};
ghost use Rattle.aes3_cell.specs.Ends.{Grew, GrewFront, Told};
ghost use Rattle.aes3_cell.specs.Writes.{Wrote};
ghost use Rattle.aes3_cell.specs.Written.{bytes_of, written};
ghost use Rattle.aes3_level.specs.declared.level.Level.{Level};
ghost use Rattle.aes3_frame.specs.Blocks.{IsBlock, block_cells, stream};
ghost use Rattle.aes3_frame.specs.Files.{file, IsBlockFile, file_blocks};
ghost use Rattle.aes3_block.specs.Readers.{TakesBlock, TakesQuietly};
ghost use Rattle.aes3_lock.specs.Reports.{blocks, normal};
ghost use Rattle.aes3_input.specs.Running.{FrontRan, InputRun, PieceRan, ends_of, movement_of};
ghost use Rattle.aes3_engine.specs.Encoding.{Encodes, encoded_file, encoding_state};

use aes3_block::{BLOCK_BYTES, BLOCK_CELLS, Block, BlockFile, SUBFRAMES, fill_block_cells};
use aes3_cell::{Counts, Fault, Form, Level, RunError, Sink, Source, put_ending, put_words};
use aes3_input::{Input, convert};

/// Writes the cells of each block in a form, and counts the blocks. It keeps the words for the
/// cells, so that they are cleared only once.
#[derive(Drop)]
pub(crate) struct Encoder {
    pub(crate) output: Form,
    pub(crate) blocks: u64,
    pub(crate) cells: [u64; SUBFRAMES],
}

pub(crate) fn blank_cells() -> [u64; SUBFRAMES] {
    [0; SUBFRAMES]
}

/// Makes the cells of a block in `cells`, and writes them.
fn put_cells<T: Sink>(
    output: Form,
    block: &Block,
    cells: &mut [u64; SUBFRAMES],
    sink: &mut T,
) -> Result<(), Fault>
    requires room { T.failed sink.old + 1 < 2 ^ 64 }
    ensures { Wrote T.taken T.failed sink.old sink.new
        (bytes_of output (block_cells Level.Low block.now)) result }
{
    fill_block_cells(Level::Low, block, cells);
    put_words(output, cells, sink)
}

/// Takes one byte of a block file, and writes the block that it ends.
fn take_byte<T: Sink>(
    file: &mut BlockFile,
    encoder: &mut Encoder,
    sink: &mut T,
    byte: u8,
) -> Result<(), RunError>
    requires room { T.failed sink.old + 1 < 2 ^ 64 }
    requires following { (b : List ℕ) × (length b < 2 ^ 40)
        × Encodes file.old encoder.old.blocks b }
    ensures { PieceRan (encoding_state encoder.old.output file.old encoder.old.blocks)
        (encoding_state encoder.new.output file.new encoder.new.blocks) (byte ∷ [])
        (movement_of T.taken T.failed sink.old sink.new) result }
{
    match file.feed_byte(byte) {
        Ok(None) => Ok(()),
        Ok(Some(block)) => match put_cells(encoder.output, &block, &mut encoder.cells, sink) {
            Ok(()) => {
                encoder.blocks += 1;
                Ok(())
            }
            Err(_) => Err(RunError::Write),
        },
        Err(fault) => Err(RunError::from(fault)),
    }
}

/// Takes the first four bytes of a piece if the reader takes them as a word. Returns whether it
/// did.
fn feed_front(file: &mut BlockFile, piece: &[u8]) -> bool
    requires { file.old.seen + length piece.now ≤ 2 ^ 40 }
    ensures bound { result ≡ true → 4 ≤ length piece.now }
    ensures quiet { result ≡ true → TakesQuietly file.old (take 4 piece.now) file.new }
    ensures unchanged { result ≡ false → file.new ≡ file.old }
{
    match piece.first_chunk() {
        Some(bytes) => file.feed_word(bytes),
        None => false,
    }
}

/// Takes the bytes of a whole block at the front of a piece, if the reader takes them as one.
fn feed_block(file: &mut BlockFile, piece: &[u8]) -> Option<Block>
    requires { file.old.seen + length piece.now ≤ 2 ^ 40 }
    ensures bound { IfSome result (λ _. BLOCK_BYTES ≤ length piece.now) }
    ensures taken { IfSome result (λ block. TakesBlock file.old (take BLOCK_BYTES piece.now)
        block file.new) }
    ensures unchanged { result ≡ None → file.new ≡ file.old }
{
    match piece.first_chunk() {
        Some(bytes) => file.feed_block(bytes),
        None => None,
    }
}

/// Takes a word's four bytes if they are no fault and end no block, else one byte. Returns how
/// many.
fn take_few<T: Sink>(
    file: &mut BlockFile,
    encoder: &mut Encoder,
    sink: &mut T,
    piece: &[u8],
) -> Result<usize, RunError>
    requires some { 0 < length piece.now }
    requires room { T.failed sink.old + 1 < 2 ^ 64 }
    requires following { (b : List ℕ) × (length b + length piece.now ≤ 2 ^ 40)
        × Encodes file.old encoder.old.blocks b }
    ensures { FrontRan (encoding_state encoder.old.output file.old encoder.old.blocks)
        (encoding_state encoder.new.output file.new encoder.new.blocks) piece.now
        (movement_of T.taken T.failed sink.old sink.new) result }
{
    if feed_front(file, piece) {
        return Ok(4);
    }
    take_byte(file, encoder, sink, piece[0])?;
    Ok(1)
}

impl Input<Encoder> for BlockFile {
    ghost state = { λ file encoder. encoding_state encoder.output file encoder.blocks };

    /// Takes the bytes of a whole block if no block is begun and its words are valid, else those of
    /// a word or one byte.
    fn take_front<T: Sink>(
        &mut self,
        encoder: &mut Encoder,
        sink: &mut T,
        piece: &[u8],
    ) -> Result<usize, RunError> {
        match feed_block(self, piece) {
            Some(block) => match put_cells(encoder.output, &block, &mut encoder.cells, sink) {
                Ok(()) => {
                    encoder.blocks += 1;
                    Ok(BLOCK_BYTES)
                }
                Err(_) => Err(RunError::Write),
            },
            None => take_few(self, encoder, sink, piece),
        }
    }

    fn finish<T: Sink>(&mut self, encoder: &mut Encoder, sink: &mut T) -> Result<(), RunError> {
        match self.end() {
            Ok(()) => match put_ending(encoder.output, sink) {
                Ok(()) => Ok(()),
                Err(_) => Err(RunError::Write),
            },
            Err(fault) => Err(RunError::from(fault)),
        }
    }
}

/// Writes the cells of the blocks of a block file, one after the other, in the normal polarity: the
/// level before the first cell is `Low` (AES3-3, IEC 60958-1).
///
/// # Errors
/// - `BadCode`, `BadParity` and `BadLength` if the input is no block file.
/// - `TooLong` if it has more than `max_bytes` bytes.
/// - `Read` and `Write` if the input or output failed.
///
/// The blocks that were whole before are written without an ending; after `Write`, a front of the
/// output.
pub fn encode<S: Source, T: Sink>(
    source: &mut S,
    sink: &mut T,
    max_bytes: u64,
    output: Form,
) -> Result<Counts, RunError>
    requires source_room { S.failed source.old + 1 < 2 ^ 64 }
    requires sink_room { T.failed sink.old + 1 < 2 ^ 64 }
    requires limit { max_bytes ≤ 2 ^ 40 }

    // If it returns Ok, the input was a block file and the cells of its blocks are written.
    ensures cells { IfOk result (λ _. (blocks : List (List (List Bool))) → All IsBlock blocks
        → Told (S.given source.old) (S.given source.new) (file blocks)
        → Grew (T.taken sink.old) (T.taken sink.new) (written output (stream Level.Low blocks))) }
    ensures whole { IfOk result (λ _. (b : List ℕ)
        → Told (S.given source.old) (S.given source.new) b
        → Grew (T.taken sink.old) (T.taken sink.new)
        (written output (stream Level.Low (file_blocks b)))) }
    // From what `decode` writes for cells it writes what `normalise` writes for them.
    ensures decoded { IfOk result (λ _. (c : List Level)
        → Told (S.given source.old) (S.given source.new) (file (blocks c))
        → Grew (T.taken sink.old) (T.taken sink.new) (written output (normal c))) }

    // It returns Ok if the input is a block file that fits, and neither input nor output failed.
    ensures owed { (b : List ℕ) → Told (S.given source.old) (S.given source.new) b → IsBlockFile b
        → length b ≤ max_bytes
        → S.failed source.new ≡ S.failed source.old → T.failed sink.new ≡ T.failed sink.old
        → IsOk result }

    // What it returns for every input, and what it has written then.
    ensures run { InputRun (encoded_file output) max_bytes
        (ends_of S.Source source.old source.new T.Sink sink.old sink.new) result }
{
    let mut file = BlockFile::new();
    let mut encoder = Encoder {
        output,
        blocks: 0,
        cells: blank_cells(),
    };
    let bytes = convert(source, sink, max_bytes, &mut file, &mut encoder)?;
    Ok(Counts {
        bytes,
        cells: BLOCK_CELLS * encoder.blocks,
        blocks: encoder.blocks,
        faults: 0,
        unfinished: 0,
        marks: 0,
    })
}
