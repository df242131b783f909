//! Professional channel status.
use crate::field::{ProField, bytes_at, u32_at};
use std::marker::Model;

/// A channel status for professional use (AES3-2): byte 0 bit 0 is 1.
///
/// A field is a number whose lowest bit weighs 1.
#[derive(Clone, Copy)]
pub struct Pro {
    bytes: [u8; 24],
}

impl Model for Pro {
    ghost use Rattle.std.specs.Prelude.{List, ℕ};

    ghost Value = { List ℕ };

    ghost view = { λ p. p.bytes };

    ghost inverse = { λ bytes. record { bytes = bytes } };
}

impl Pro {
    ghost use Rattle.std.specs.Prelude.{◌≡◌};
    ghost use Rattle.aes3_status.specs.Bits.{number_at};
    ghost use Rattle.aes3_status.specs.Professional.{pro_place, payload, emphasis, unlocked, rate, mode, user};
    ghost use Rattle.aes3_status.specs.Professional.{aux, word, b2high, b3, b4, b5, origin};
    ghost use Rattle.aes3_status.specs.Professional.{destination, frequency, local, time, b22low, unreliable};

    /// The status of these bytes.
    pub(crate) fn of_bytes(bytes: &[u8; 24]) -> Pro
        ensures { result ≡ bytes.now }
    {
        Pro { bytes: *bytes }
    }

    /// The bytes that the status was read from.
    pub(crate) fn to_bytes(&self) -> [u8; 24]
        ensures { result ≡ self.now }
    {
        self.bytes
    }

    /// The code of a field.
    pub fn code(&self, field: ProField) -> u8
        ensures { result ≡ number_at (pro_place field) self.now }
    {
        field.number(&self.bytes)
    }

    /// What the sample words carry: 0 linear PCM, 1 other (AES3-2, byte 0 bit 1).
    pub fn payload(&self) -> u8
        ensures { result ≡ payload self.now }
    {
        ProField::Payload.number(&self.bytes)
    }

    /// Pre-emphasis of the audio signal (AES3-2, byte 0 bits 2 to 4).
    pub fn emphasis(&self) -> u8
        ensures { result ≡ emphasis self.now }
    {
        ProField::Emphasis.number(&self.bytes)
    }

    /// Whether the source's sampling frequency is unlocked (AES3-2, byte 0 bit 5).
    pub fn unlocked(&self) -> u8
        ensures { result ≡ unlocked self.now }
    {
        ProField::Unlocked.number(&self.bytes)
    }

    /// The sampling frequency (AES3-2, byte 0 bits 6 and 7).
    pub fn rate(&self) -> u8
        ensures { result ≡ rate self.now }
    {
        ProField::Rate.number(&self.bytes)
    }

    /// The channel mode (AES3-2, byte 1 bits 0 to 3).
    pub fn mode(&self) -> u8
        ensures { result ≡ mode self.now }
    {
        ProField::Mode.number(&self.bytes)
    }

    /// How the user bits are managed (AES3-2, byte 1 bits 4 to 7).
    pub fn user(&self) -> u8
        ensures { result ≡ user self.now }
    {
        ProField::User.number(&self.bytes)
    }

    /// The use of the auxiliary bits, which determines the greatest sample word length (AES3-2,
    /// byte 2 bits 0 to 2).
    pub fn aux(&self) -> u8
        ensures { result ≡ aux self.now }
    {
        ProField::Aux.number(&self.bytes)
    }

    /// The source's sample word length, a code whose meaning depends on `aux` (AES3-2, byte 2 bits
    /// 3 to 5).
    pub fn word(&self) -> u8
        ensures { result ≡ word self.now }
    {
        ProField::Word.number(&self.bytes)
    }

    /// The alignment level (AES3-2, byte 2 bits 6 and 7).
    pub fn b2high(&self) -> u8
        ensures { result ≡ b2high self.now }
    {
        ProField::B2high.number(&self.bytes)
    }

    /// Channel identification in multichannel use (AES3-2, byte 3).
    pub fn b3(&self) -> u8
        ensures { result ≡ b3 self.now }
    {
        ProField::B3.number(&self.bytes)
    }

    /// Digital audio reference signal and further sampling frequencies (AES3-2, byte 4).
    pub fn b4(&self) -> u8
        ensures { result ≡ b4 self.now }
    {
        ProField::B4.number(&self.bytes)
    }

    /// A sampling frequency that `rate` has no code for (AES3-2, byte 4 bits 3 to 6).
    pub fn frequency(&self) -> u8
        ensures { result ≡ frequency self.now }
    {
        ProField::Frequency.number(&self.bytes)
    }

    /// Reserved (AES3-2, byte 5).
    pub fn b5(&self) -> u8
        ensures { result ≡ b5 self.now }
    {
        ProField::B5.number(&self.bytes)
    }

    /// The channel's origin, four characters (AES3-2, bytes 6 to 9).
    pub fn origin(&self) -> [u8; 4]
        ensures { result ≡ origin self.now }
    {
        bytes_at(&self.bytes, 6)
    }

    /// The channel's destination, four characters (AES3-2, bytes 10 to 13).
    pub fn destination(&self) -> [u8; 4]
        ensures { result ≡ destination self.now }
    {
        bytes_at(&self.bytes, 10)
    }

    /// The local sample address code, counted in samples (AES3-2, bytes 14 to 17, lowest byte
    /// first).
    pub fn local(&self) -> u32
        ensures { result ≡ local self.now }
    {
        u32_at(&self.bytes, 14)
    }

    /// The time-of-day sample address code, counted in samples (AES3-2, bytes 18 to 21, lowest byte
    /// first).
    pub fn time(&self) -> u32
        ensures { result ≡ time self.now }
    {
        u32_at(&self.bytes, 18)
    }

    /// Which bytes are unreliable (AES3-2, byte 22 bits 4 to 7). The lowest bit is for bytes 0 to
    /// 5, the others for 6 to 13, 14 to 17, and 18 to 21.
    pub fn unreliable(&self) -> u8
        ensures { result ≡ unreliable self.now }
    {
        ProField::Unreliable.number(&self.bytes)
    }

    /// Reserved (AES3-2, byte 22 bits 0 to 3).
    pub fn b22low(&self) -> u8
        ensures { result ≡ b22low self.now }
    {
        ProField::B22low.number(&self.bytes)
    }
}
