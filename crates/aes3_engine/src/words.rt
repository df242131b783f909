//! Blocks as block files with words in the form of another program.

ghost use Rattle.std.specs.Prelude.{◌≡◌, ◌<◌, ◌+◌, ◌^◌};
ghost use Rattle.aes3_cell.specs.Writes.{Wrote};
ghost use Rattle.aes3_frame.specs.Files.{block_bytes};
ghost use Rattle.aes3_forms_words.specs.Lists.{written_of};
ghost use Rattle.aes3_engine.specs.Words.{block_words};

use aes3_block::{Block, bytes_of_block, put_block_file};
use aes3_cell::{Fault, Sink, write_all};
use aes3_forms_words::{Words, write_words};

/// Writes a block as 1,536 bytes of a block file whose words are in this form, as one buffer.
#[inline(always)]
pub(crate) fn put_block_words<T: Sink>(
    block: &Block,
    words: Words,
    sink: &mut T,
) -> Result<(), Fault>
    requires room { T.failed sink.old + 1 < 2 ^ 64 }
    ensures { Wrote T.taken T.failed sink.old sink.new (block_words words block.now) result }
{
    match words {
        Words::Own => put_block_file(block, sink),
        Words::Alsa => put_written(block, Words::Alsa, sink),
        Words::Am824 => put_written(block, Words::Am824, sink),
    }
}

/// Does the same for a form that the words have to be converted to.
fn put_written<T: Sink>(block: &Block, words: Words, sink: &mut T) -> Result<(), Fault>
    requires room { T.failed sink.old + 1 < 2 ^ 64 }
    ensures { Wrote T.taken T.failed sink.old sink.new
        (written_of words (block_bytes block.now)) result }
{
    let mut bytes = bytes_of_block(block);
    write_words(&mut bytes, words);
    write_all(sink, &bytes)
}
