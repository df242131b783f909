//! Inputs of a run: the one loop that reads them, cell text and packed cells, and the takers of
//! their cells.
#![tactic(auto)]

/// The trait of an input, and the one loop over it.
mod conversion;
/// Packed cells as an input.
mod packed_input;
/// Takers of the cells of an input, and the run over an input in either form.
mod taker;
/// Cell text as an input.
mod text_input;

pub use conversion::{Input, convert, feed_fronts, read_piece};
pub use taker::{Taker, cell, drive, word};
