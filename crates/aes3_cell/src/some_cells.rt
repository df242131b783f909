//! A few cells.

ghost use Rattle.std.specs.Prelude.{◌<◌, ◌≤◌, ◌^◌};

/// At most 64 cells, the first in the lowest bit.
#[derive(Clone, Copy, PartialEq, Eq)]
pub struct SomeCells {
    /// The cells; the bits above them are zero.
    pub word: u64,
    /// How many they are.
    pub len: u32,
    ghost few: { len ≤ 64 },
    ghost bound: { word < 2 ^ len },
}
