//! What the channel status, the validity bits and the user bits of a stream are changed to.

use crate::setting::Settings;

/// New channel status for each block of a stream (AES3-2, IEC 60958-3), and new validity and user
/// bits (AES3-1, IEC 60958-1).
#[derive(Clone, Copy, PartialEq, Eq)]
pub struct Change {
    /// The 24 status bytes for channel 1; `None` leaves them unchanged.
    pub status1: Option<[u8; 24]>,
    /// The 24 status bytes for channel 2; `None` leaves them unchanged.
    pub status2: Option<[u8; 24]>,
    /// The fields that are then set in the status of channel 1, one after the other; `None` sets no
    /// field.
    pub settings1: Option<Settings>,
    /// The fields that are then set in the status of channel 2, one after the other; `None` sets no
    /// field.
    pub settings2: Option<Settings>,
    /// The value for the validity bit of each subframe of channel 1; `None` leaves it unchanged.
    pub validity1: Option<bool>,
    /// The value for the validity bit of each subframe of channel 2; `None` leaves it unchanged.
    pub validity2: Option<bool>,
    /// Whether the user bit of each subframe of channel 1 is set to 0.
    pub clear_user1: bool,
    /// Whether the user bit of each subframe of channel 2 is set to 0.
    pub clear_user2: bool,
    /// Whether professional status then gets the right check byte.
    pub mend: bool,
}
