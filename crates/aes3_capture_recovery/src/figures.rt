//! What was found of a line.

/// What was found of a line.
#[repr(C)]
#[derive(Clone, Copy, Default)]
pub struct Figures {
    /// How many samples there are, and how many cells were recovered.
    pub samples: u64,
    pub cells: u64,
    /// The latest length of a cell, in parts of a sample; 0 if none was given or found.
    pub period: u64,
    /// How many edges were followed, the greatest distance of an edge from its place, and the sum
    /// of the squares of these distances. The distances are in 256ths of a sample.
    pub edges: u64,
    pub greatest: u64,
    pub squares: u64,
    /// How many stretches had no signal, where the latest began, in samples, and how often the line
    /// was measured.
    pub dead: u64,
    pub dead_at: u64,
    pub measured: u64,
    /// How often runs were measured and no line was found.
    pub misses: u64,
}
