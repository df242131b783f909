//! Frames.

use crate::subframe::Subframe;

/// The two subframes of one sampling instant: channel 1 and channel 2.
#[derive(Clone, Copy, PartialEq, Eq)]
pub struct Frame {
    /// The subframe of channel 1.
    pub first: Subframe,
    /// The subframe of channel 2.
    pub second: Subframe,
}
