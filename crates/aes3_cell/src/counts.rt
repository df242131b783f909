//! The counts of a run.

/// The counts of a run that was not rejected.
#[derive(Clone, Copy, PartialEq, Eq, Default)]
pub struct Counts {
    /// Bytes read.
    pub bytes: u64,
    /// Cells read; of a block file 24,576 for each block.
    pub cells: u64,
    /// Blocks given.
    pub blocks: u64,
    /// Places where a block began and was faulty.
    pub faults: u64,
    /// Places where a block began that the end of the input cut off.
    pub unfinished: u64,
    /// Preambles shown.
    pub marks: u64,
}
