//! What fills the place of frames that no block has.

/// What fills the time between two blocks if samples are to keep time.
#[derive(Clone, Copy, PartialEq, Eq)]
pub enum Fill {
    /// Zero samples.
    Zero,
    /// The last sample of each channel, repeated.
    Hold,
}
