//! Subframes of an AES3 line: preambles, time slots, parity (AES3-3, IEC 60958-1).
#![tactic(auto)]

/// The cells of the time slots of four subframes at once.
mod four;
/// The three preambles X, Y and Z, which of them a subframe of a block has, and their eight cells.
mod mark;
/// Where preambles occur in words of cells.
mod search;
/// The cells of a subframe, and its parity.
mod subframe_encoding;
/// Reading subframes: which of 64 cells are wrong, and the bits that the others carry.
mod subframe_reading;

pub use four::slots_cells_of_four;
pub use mark::{Mark, mark_cells, mark_of, match_mark};
pub use search::{MarkPlaces, block_preambles, find_marks, mark_places, preambles};
pub use subframe_encoding::{SUBFRAME_CELLS, payload_parity, slots_cells, subframe_cells};
pub use subframe_reading::{
    Place, begins_subframe, slot_bits, take_either, take_subframe, wrong_cells,
    wrong_cells_of_eight,
};
