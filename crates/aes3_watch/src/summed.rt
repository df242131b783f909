//! The state of a line whose sums are written.

use crate::watching::Watched;
use aes3_text_lines::Figures;

/// The state of a line whose sums are written, after some cells.
#[derive(Clone, Copy)]
pub struct Summed {
    pub watched: Watched,
    /// The first cell of the current period.
    pub from: u64,
    /// All cells before it are in a whole block or in a gap that is decided.
    pub place: u64,
    /// The counts of the current period.
    pub figures: Figures,
}
