//! Which reports get a line.

/// Which reports get a line.
#[derive(Clone, Copy, PartialEq, Eq)]
pub enum Lines {
    /// All of them.
    All,
    /// All but those of whole blocks.
    Faults,
}
