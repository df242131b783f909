//! Blocks of 192 frames, their cells and their file form (AES3-2, AES3-3, IEC 60958-1).
#![tactic(auto)]

/// Writing the cells of a block.
mod cells_out;
/// Reading block files, byte by byte or a block at a time.
mod file;
/// Writing block files.
mod file_out;
/// Laws over all blocks, their files and their channel status.
pub mod laws;
/// The cells of a block that was read from a line, after either level.
mod read_cells;
/// The samples of a block, as sound programs read them.
mod samples_out;

pub use aes3_frame::{
    BLOCK_BYTES, BLOCK_CELLS, Block, Channel, Frame, GatheredCells, SUBFRAMES, Subframe,
    fill_block_cells, mark_of, wrong_parities,
};
pub use cells_out::{put_block, put_block_cells};
pub use file::{BlockFile, FileFault};
pub use file_out::{bytes_of_block, put_block_file};
pub use read_cells::put_read_block;
pub use samples_out::samples_of_block;
