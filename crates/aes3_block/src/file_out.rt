//! Writing block files.

ghost use Rattle.std.specs.Prelude.{◌≡◌, ◌<◌, ◌+◌, ◌^◌, ℕ, get_or, length};
ghost use Rattle.std.specs.List.{flat_map};
ghost use Rattle.aes3_cell.specs.Writes.{Wrote};
ghost use Rattle.aes3_frame.specs.Files.{block_bytes, word_bytes};

use aes3_cell::{Fault, Sink, write_all};
use aes3_frame::{BLOCK_BYTES, Block, SUBFRAMES};

pub(crate) fn blank_bytes() -> [u8; BLOCK_BYTES]
    ensures { length result ≡ BLOCK_BYTES }
{
    [0; BLOCK_BYTES]
}

/// The bytes of words, each lowest byte first.
fn bytes_of_words(words: &[u32; SUBFRAMES]) -> [u8; BLOCK_BYTES]
    ensures bytes { result ≡ flat_map word_bytes words.now }
    ensures fits { (i : ℕ) → i < SUBFRAMES → get_or words.now i 0 < 2 ^ 32 }
{
    let mut bytes = blank_bytes();
    for (i, word) in words.iter().enumerate() {
        bytes[4 * i..4 * i + 4].copy_from_slice(&word.to_le_bytes());
    }
    bytes
}

/// A block as 1,536 bytes of a block file.
pub fn bytes_of_block(block: &Block) -> [u8; BLOCK_BYTES]
    ensures { result ≡ block_bytes block.now }
{
    bytes_of_words(block.words())
}

/// Writes a block as 1,536 bytes, in one buffer.
///
/// # Errors
/// The sink's fault; then it has taken a front of the bytes.
pub fn put_block_file<T: Sink>(block: &Block, sink: &mut T) -> Result<(), Fault>
    requires room { T.failed sink.old + 1 < 2 ^ 64 }
    ensures { Wrote T.taken T.failed sink.old sink.new (block_bytes block.now) result }
{
    write_all(sink, &bytes_of_block(block))
}
