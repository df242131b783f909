//! Consumer channel status.
use crate::field::ConField;
use std::marker::Model;

/// A channel status for consumer use (IEC 60958-3): byte 0 bit 0 is 0.
///
/// A field is a number whose lowest bit weighs 1.
#[derive(Clone, Copy)]
pub struct Con {
    bytes: [u8; 24],
}

impl Model for Con {
    ghost use Rattle.std.specs.Prelude.{List, ℕ};

    ghost Value = { List ℕ };

    ghost view = { λ c. c.bytes };

    ghost inverse = { λ bytes. record { bytes = bytes } };
}

impl Con {
    ghost use Rattle.std.specs.Prelude.{◌≡◌};
    ghost use Rattle.aes3_status.specs.Bits.{number_at};
    ghost use Rattle.aes3_status.specs.Consumer.{con_place, payload, copyright, emphasis, mode, category};
    ghost use Rattle.aes3_status.specs.Consumer.{generation, source, number, rate, accuracy};
    ghost use Rattle.aes3_status.specs.Consumer.{b3high, greatest, word, original, rest};

    /// The status of these bytes.
    pub(crate) fn of_bytes(bytes: &[u8; 24]) -> Con
        ensures { result ≡ bytes.now }
    {
        Con { bytes: *bytes }
    }

    /// The bytes that the status was read from.
    pub(crate) fn to_bytes(&self) -> [u8; 24]
        ensures { result ≡ self.now }
    {
        self.bytes
    }

    /// The code of a field.
    pub fn code(&self, field: ConField) -> u8
        ensures { result ≡ number_at (con_place field) self.now }
    {
        field.number(&self.bytes)
    }

    /// What the sample words carry: 0 linear PCM, 1 other (IEC 60958-3, byte 0 bit 1).
    pub fn payload(&self) -> u8
        ensures { result ≡ payload self.now }
    {
        ConField::Payload.number(&self.bytes)
    }

    /// Copyright: 0 asserted, 1 not asserted (IEC 60958-3, byte 0 bit 2).
    pub fn copyright(&self) -> u8
        ensures { result ≡ copyright self.now }
    {
        ConField::Copyright.number(&self.bytes)
    }

    /// Additional format information; for linear PCM the pre-emphasis (IEC 60958-3, byte 0 bits 3
    /// to 5).
    pub fn emphasis(&self) -> u8
        ensures { result ≡ emphasis self.now }
    {
        ConField::Emphasis.number(&self.bytes)
    }

    /// The channel status mode (IEC 60958-3, byte 0 bits 6 and 7).
    pub fn mode(&self) -> u8
        ensures { result ≡ mode self.now }
    {
        ConField::Mode.number(&self.bytes)
    }

    /// The category code without its last bit (IEC 60958-3, byte 1 bits 0 to 6).
    pub fn category(&self) -> u8
        ensures { result ≡ category self.now }
    {
        ConField::Category.number(&self.bytes)
    }

    /// The generation status, last bit of the category code (IEC 60958-3, byte 1 bit 7).
    pub fn generation(&self) -> u8
        ensures { result ≡ generation self.now }
    {
        ConField::Generation.number(&self.bytes)
    }

    /// The source number (IEC 60958-3, byte 2 bits 0 to 3).
    pub fn source(&self) -> u8
        ensures { result ≡ source self.now }
    {
        ConField::Source.number(&self.bytes)
    }

    /// The channel number (IEC 60958-3, byte 2 bits 4 to 7).
    pub fn number(&self) -> u8
        ensures { result ≡ number self.now }
    {
        ConField::Number.number(&self.bytes)
    }

    /// The sampling frequency (IEC 60958-3, byte 3 bits 0 to 3).
    pub fn rate(&self) -> u8
        ensures { result ≡ rate self.now }
    {
        ConField::Rate.number(&self.bytes)
    }

    /// The clock accuracy (IEC 60958-3, byte 3 bits 4 and 5).
    pub fn accuracy(&self) -> u8
        ensures { result ≡ accuracy self.now }
    {
        ConField::Accuracy.number(&self.bytes)
    }

    /// Byte 3 bits 6 and 7 (IEC 60958-3).
    pub fn b3high(&self) -> u8
        ensures { result ≡ b3high self.now }
    {
        ConField::B3high.number(&self.bytes)
    }

    /// The greatest sample word length: 0 for 20 bits, 1 for 24 (IEC 60958-3, byte 4 bit 0).
    pub fn greatest(&self) -> u8
        ensures { result ≡ greatest self.now }
    {
        ConField::Greatest.number(&self.bytes)
    }

    /// The sample word length, a code whose meaning depends on `greatest` (IEC 60958-3, byte 4 bits
    /// 1 to 3).
    pub fn word(&self) -> u8
        ensures { result ≡ word self.now }
    {
        ConField::Word.number(&self.bytes)
    }

    /// The original sampling frequency (IEC 60958-3, byte 4 bits 4 to 7).
    pub fn original(&self) -> u8
        ensures { result ≡ original self.now }
    {
        ConField::Original.number(&self.bytes)
    }

    /// Bytes 5 to 23, unchanged (IEC 60958-3).
    pub fn rest(&self) -> [u8; 19]
        ensures { result ≡ rest self.now }
    {
        let mut rest = [0; 19];
        rest.copy_from_slice(&self.bytes[5..]);
        rest
    }
}
