//! What subframes, frames and blocks of 192 frames carry (AES3-2, AES3-3, IEC 60958-1), and blocks
//! as they are gathered from a line.
#![tactic(auto)]

/// A block: the words of its 384 subframes in a block file, also made of samples. Its two channels,
/// and their validity, user and channel status bits as 24 bytes.
mod block;
/// The cells of a block, made four subframes at a time.
mod block_cells;
/// What fills the place of frames that no block has.
mod fill;
/// A frame: its two subframes.
mod frame;
/// The cells of subframes, gathered from a line and judged, and the block that they make.
mod gathered;
/// Blocks in which some subframes have a wrong parity bit.
mod mending;
/// The parity of subframes, and how many of them have a wrong parity bit.
mod parity;
/// What a subframe carries.
mod subframe;

pub use aes3_slot::mark_of;
pub use block::{
    BLOCK_BYTES, BLOCK_CELLS, Block, CarriedBits, Channel, FRAME_CELLS, FRAMES, PAYLOAD_LIMIT,
    SUBFRAMES, has_right_code, has_right_parity, ones_in, payload_of_word, zero_words,
};
pub use block_cells::fill_block_cells;
pub use fill::Fill;
pub use frame::Frame;
pub use gathered::{GatheredCells, wrong_in};
pub use parity::wrong_parities;
pub use subframe::{AUDIO_LIMIT, Subframe};
