//! What follows a line of channel status.

/// What follows a line of channel status.
#[derive(Clone, Copy, PartialEq, Eq)]
pub enum Detail {
    /// Nothing.
    Plain,
    /// The cell at which its block begins, as ` at=P`.
    Place,
    /// How many V bits and how many U bits of the channel are 1 in the block, and where the block
    /// begins, as ` v=N u=N at=P`.
    Carried,
    /// The words of codes that are numbers in the line, each as ` NAME=WORD`.
    Names,
}
