//! Channel status: its use and its check byte.

ghost use Rattle.std.specs.Prelude.{◌≡◌, ◌∷◌, [], ◌++◌, take};
ghost use Rattle.aes3_status.specs.Bits.{status_bits};
ghost use Rattle.aes3_status.specs.Check.{CheckHolds, check_byte_of, check_state_of};
ghost use Rattle.aes3_c.specs.Codes.{check_code};

use aes3_status::{Check, check_byte, check_state};

/// The check byte of a channel status, from its bytes 0 to 22 (AES3-2, byte 23).
#[unsafe(no_mangle)]
pub extern "C" fn aes3_status_check_byte(status: &[u8; 24]) -> u8
    ensures value { result ≡ check_byte_of (take 23 status.now) }
    ensures holds { CheckHolds (status_bits (take 23 status.now ++ result ∷ [])) }
{
    check_byte(status)
}

/// The state of the check byte of a professional channel status: 0 if it holds, 1 if it does not
/// and byte 23 is zero, else 2.
#[unsafe(no_mangle)]
pub extern "C" fn aes3_status_check_state(status: &[u8; 24]) -> u8
    ensures { result ≡ check_code (check_state_of status.now) }
{
    match check_state(status) {
        Check::Good => 0,
        Check::Absent => 1,
        Check::Bad => 2,
    }
}
