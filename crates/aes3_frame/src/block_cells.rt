//! The cells of a block.

ghost use Rattle.std.specs.Prelude.{◌≡◌};
ghost use Rattle.std.specs.List.{flat_map};
ghost use Rattle.aes3_level.specs.Words.{word_cells};
ghost use Rattle.aes3_frame.specs.Blocks.{block_cells};

use crate::block::{Block, SUBFRAMES, slots_of_word};
use aes3_level::Level;
use aes3_slot::{Mark, slots_cells, slots_cells_of_four};
use std::simd::prelude::*;

/// Puts the cells of a block after the level `before` into `cells`, a word for each subframe, the
/// earliest cell in bit 0.
pub fn fill_block_cells(before: Level, block: &Block, cells: &mut [u64; SUBFRAMES])
    ensures { flat_map word_cells cells.new ≡ block_cells before block.now }
{
    let words = block.words();
    for i in 0..SUBFRAMES / 4 {
        let four = u32x4::from_slice(&words[4 * i..]);
        let subframes = slots_cells_of_four(before, Mark::X, Mark::Y, four);
        subframes.copy_to_slice(&mut cells[4 * i..]);
    }
    cells[0] = slots_cells(before, Mark::Z, slots_of_word(words[0]));
}
