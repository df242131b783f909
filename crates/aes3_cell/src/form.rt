//! The written forms of cells.

/// How cells are written in a file.
#[derive(Clone, Copy, PartialEq, Eq, Debug)]
pub enum Form {
    /// Cell text: lines of 64 characters `0` and `1`.
    Text,
    /// Packed cells: eight cells in each octet, and one last octet, the number of unused cells.
    Packed,
}
