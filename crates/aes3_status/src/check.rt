//! The check byte (CRCC), byte 23 of professional channel status (AES3-2).
ghost use Rattle.std.specs.Prelude.{◌≡◌, ◌≢◌, ◌<◌, ℕ, List, [], ◌∷◌, ◌++◌, take, slice_set};
ghost use Rattle.aes3_status.specs.Bits.{byte_bits, status_bits};
ghost use Rattle.aes3_status.specs.Check.{CheckHolds, check_byte_of, check_state_of};
ghost use Rattle.aes3_status.specs.Register.{polynomial, after_bit, after_bits};
ghost use Rattle.aes3_status.specs.Laws.{OneFlipped, TwoFlipped};

/// The state of a channel status's check byte. The standard asks only whether the check holds; the
/// distinction of `Absent` from `Bad` is this crate's.
#[derive(Clone, Copy, PartialEq, Eq, Debug)]
pub enum Check {
    /// The check holds.
    Good,
    /// The check does not hold and byte 23 is zero, as from a source that sends no check byte.
    Absent,
    /// The check does not hold and byte 23 is not zero.
    Bad,
}

/// The place of the check byte.
const CHECK: usize = 23;

/// The register before the first bit.
const PRESET: u8 = 0xFF;

/// The generator x^8 + x^4 + x^3 + x^2 + 1 without x^8. In the register, as in the check byte, bit
/// 0 is the coefficient of x^7.
const GENERATOR: u8 = 0b1011_1000;

/// The register after one more bit of the channel status.
fn shift_bit(register: u8, bit: bool) -> u8
    ensures { polynomial result ≡ after_bit (polynomial register) bit }
{
    let feedback = (register & 1 == 1) != bit;
    if feedback {
        register >> 1 ^ GENERATOR
    } else {
        register >> 1
    }
}

/// The register after one more byte, bit 0 first.
fn shift_byte(mut register: u8, byte: u8) -> u8
    ensures { polynomial result ≡ after_bits (polynomial register) (byte_bits byte) }
{
    for place in 0..8u32 {
        register = shift_bit(register, byte >> place & 1 == 1);
    }
    register
}

/// The check byte of a channel status, from its bytes 0 to 22 (AES3-2, byte 23).
pub fn check_byte(bytes: &[u8; 24]) -> u8
    ensures value { result ≡ check_byte_of (take 23 bytes.now) }
    ensures holds { CheckHolds (status_bits (take 23 bytes.now ++ result ∷ [])) }

    // The check holds with no other byte.
    ensures only { (byte : ℕ) → byte < 256
        → CheckHolds (status_bits (take 23 bytes.now ++ byte ∷ [])) → byte ≡ result }
{
    let mut register = PRESET;
    for byte in &bytes[..CHECK] {
        register = shift_byte(register, *byte);
    }
    register
}

/// The state of the check byte of a channel status (AES3-2, byte 23). Only professional channel
/// status has one.
pub fn check_state(bytes: &[u8; 24]) -> Check
    ensures state { result ≡ check_state_of bytes.now }

    // If one or two bits of a good status are inverted, the result is not good.
    ensures one_flip { (before : List ℕ) → check_state_of before ≡ Check.Good
        → OneFlipped (status_bits before) (status_bits bytes.now) → result ≢ Check.Good }
    ensures two_flips { (before : List ℕ) → check_state_of before ≡ Check.Good
        → TwoFlipped (status_bits before) (status_bits bytes.now) → result ≢ Check.Good }
{
    let sent = bytes[CHECK];
    if sent == check_byte(bytes) {
        Check::Good
    } else if sent == 0 {
        Check::Absent
    } else {
        Check::Bad
    }
}

/// The channel status with the check byte of its bytes 0 to 22 in byte 23 (AES3-2). Only
/// professional channel status has one.
pub fn with_check(mut bytes: [u8; 24]) -> [u8; 24]
    ensures changed { result ≡ slice_set bytes 23 (check_byte_of (take 23 bytes)) }
    ensures holds { CheckHolds (status_bits result) }
{
    bytes[CHECK] = check_byte(&bytes);
    bytes
}
