//! The sampling frequency that a channel status names (AES3-2, IEC 60958-3).

ghost use Rattle.std.specs.Prelude.{◌≡◌};
ghost use Rattle.aes3_info.specs.Rates.{consumer_rate, professional_rate, rate_of};

use aes3_status::Status;

/// The sampling frequency of a code for consumer use, in hertz.
#[tactic(auto, unfolding(crate::specs::Rates::consumer_rate))]
fn consumer_rate(code: u8) -> Option<u32>
    ensures { result ≡ consumer_rate code }
{
    match code {
        0 => Some(44_100),
        2 => Some(48_000),
        3 => Some(32_000),
        4 => Some(22_050),
        6 => Some(24_000),
        8 => Some(88_200),
        9 => Some(768_000),
        10 => Some(96_000),
        12 => Some(176_400),
        14 => Some(192_000),
        _ => None,
    }
}

/// The sampling frequency of a code for professional use, or of the other code if that names none.
#[tactic(auto, unfolding(crate::specs::Rates::professional_rate))]
fn professional_rate(code: u8, other: u8) -> Option<u32>
    ensures { result ≡ professional_rate code other }
{
    match (code, other) {
        (1, _) => Some(44_100),
        (2, _) => Some(48_000),
        (3, _) => Some(32_000),
        (_, 1) => Some(24_000),
        (_, 2) => Some(96_000),
        (_, 3) => Some(192_000),
        (_, 9) => Some(22_050),
        (_, 10) => Some(88_200),
        (_, 11) => Some(176_400),
        _ => None,
    }
}

/// The sampling frequency that a channel status names, in hertz.
#[tactic(auto, unfolding(crate::specs::Rates::rate_of))]
pub(crate) fn rate_of(status: &[u8; 24]) -> Option<u32>
    ensures { result ≡ rate_of status.now }
{
    match Status::read(status) {
        Status::Professional(fields) => professional_rate(fields.rate(), status[4] / 8 % 16),
        Status::Consumer(fields) => consumer_rate(fields.rate()),
    }
}
