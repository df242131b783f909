//! What a file consists of, and which of its bytes count.

/// How many cells make a block.
const CELLS: u64 = 24_576;

/// What a file consists of.
#[derive(Clone, Copy)]
pub enum Unit {
    /// Blocks of this number of bytes, which `aes3` reads.
    Bytes(u64),
    /// Cells as text, which `aes3` reads; line ends don't count.
    Cells,
    /// Samples of a capture, which `aes3-cells` reads: the number of blocks is not known.
    Samples,
}

impl Unit {
    /// How many of these bytes count.
    pub(crate) fn count(self, bytes: &[u8]) -> u64 {
        match self {
            Unit::Bytes(_) | Unit::Samples => bytes.len() as u64,
            Unit::Cells => bytes
                .iter()
                .filter(|byte| matches!(**byte, b'0' | b'1'))
                .count() as u64,
        }
    }

    /// How many blocks this number of counted bytes is.
    pub(crate) fn blocks(self, counted: u64) -> u64 {
        let block_len = match self {
            Unit::Bytes(len) => len,
            Unit::Cells | Unit::Samples => CELLS,
        };
        counted / block_len.max(1)
    }
}
