//! The level of a line in each of its cells, and cells as bits of a word.
#![tactic(auto)]

/// Cells of words, taken from the first on.
mod cells;
/// The two levels of a line.
mod level;
/// Bits of a word.
mod word_bits;

pub use cells::Cells;
pub use level::Level;
pub use word_bits::even_bits;
