//! The fields of professional channel status that are four whole bytes (AES3-2).

ghost use Rattle.std.specs.Prelude.{◌≡◌, ◌+◌, ◌≤◌};
ghost use Rattle.aes3_status.specs.Wide.{set_four, set_wide};

use crate::field::is_for_professional_use;

/// A field of professional channel status that is four whole bytes (AES3-2).
#[derive(Clone, Copy, PartialEq, Eq)]
pub enum WideField {
    /// The origin of the channel, four characters (bytes 6 to 9).
    Origin,
    /// The destination of the channel, four characters (bytes 10 to 13).
    Destination,
    /// The local sample address code, a number with the lowest byte first (bytes 14 to 17).
    Local,
    /// The time-of-day sample address code, likewise (bytes 18 to 21).
    Time,
}

/// Values for the fields of four bytes; `None` leaves a field unchanged.
#[derive(Clone, Copy, PartialEq, Eq)]
pub struct WideSettings {
    /// The value for the origin.
    pub origin: Option<[u8; 4]>,
    /// The value for the destination.
    pub destination: Option<[u8; 4]>,
    /// The value for the local sample address code.
    pub local: Option<[u8; 4]>,
    /// The value for the time-of-day sample address code.
    pub time: Option<[u8; 4]>,
}

impl WideSettings {
    /// Settings that leave every field unchanged.
    pub const NOTHING: WideSettings = WideSettings {
        origin: None,
        destination: None,
        local: None,
        time: None,
    };
}

/// Writes four bytes from byte `at` on, if any are given.
fn set_four(bytes: &mut [u8; 24], at: usize, four: &Option<[u8; 4]>)
    requires { at + 4 ≤ 24 }
    ensures { bytes.new ≡ set_four at four.now bytes.old }
{
    if let Some(four) = four {
        bytes[at..at + 4].copy_from_slice(four);
    }
}

/// Sets the fields of four bytes. A status for consumer use is unchanged.
#[tactic(auto, unfolding(crate::specs::Wide::set_wide))]
pub(crate) fn set_wide(bytes: &mut [u8; 24], wide: &WideSettings)
    ensures { bytes.new ≡ set_wide wide.now bytes.old }
{
    if is_for_professional_use(bytes) {
        set_four(bytes, 6, &wide.origin);
        set_four(bytes, 10, &wide.destination);
        set_four(bytes, 14, &wide.local);
        set_four(bytes, 18, &wide.time);
    }
}
