//! Writing the cells of a block.

ghost use Rattle.std.specs.Prelude.{◌≡◌, ◌<◌, ◌+◌, ◌^◌};
ghost use Rattle.aes3_cell.specs.Writes.{Wrote};
ghost use Rattle.aes3_cell.specs.Text.{text_of};
ghost use Rattle.aes3_cell.specs.Written.{bytes_of};
ghost use Rattle.aes3_frame.specs.Blocks.{block_cells};

use aes3_cell::{Fault, Form, Level, Sink, put_words};
use aes3_frame::{Block, SUBFRAMES, fill_block_cells};

/// Writes the cells of a block after the level `before`: the bytes of the form without its ending.
///
/// # Errors
/// The sink's fault; then it has taken a front of the bytes.
pub fn put_block<T: Sink>(
    form: Form,
    before: Level,
    block: &Block,
    sink: &mut T,
) -> Result<(), Fault>
    requires room { T.failed sink.old + 1 < 2 ^ 64 }
    ensures { Wrote T.taken T.failed sink.old sink.new
        (bytes_of form (block_cells before block.now)) result }
{
    let mut cells = [0; SUBFRAMES];
    fill_block_cells(before, block, &mut cells);
    put_words(form, &cells, sink)
}

/// Writes the cells of a block after the level `before` as 384 lines of cell text.
///
/// # Errors
/// The sink's fault; then it has taken a front of the text.
pub fn put_block_cells<T: Sink>(before: Level, block: &Block, sink: &mut T) -> Result<(), Fault>
    requires room { T.failed sink.old + 1 < 2 ^ 64 }
    ensures { Wrote T.taken T.failed sink.old sink.new
        (text_of (block_cells before block.now)) result }
{
    put_block(Form::Text, before, block, sink)
}
