//! The fields of channel status that a code can be written to, those within one byte: their places,
//! reading them, and writing a code there.

ghost use Rattle.std.specs.Prelude.{◌≡◌, ◌+◌, ◌<◌, ◌≤◌, ◌^◌};
ghost use Rattle.aes3_bits.specs.Bits.{low_bits, number};
ghost use Rattle.aes3_status.specs.Bits.{byte_bits, number_at, field, bytes_field};
ghost use Rattle.aes3_status.specs.Settings.{with_bits, with_field, is_for, place_of, under};
ghost use Rattle.aes3_status.specs.Statuses.{is_professional};
ghost use Rattle.aes3_status.specs.Consumer.{con_place};
ghost use Rattle.aes3_status.specs.Professional.{pro_place};

/// A field of professional channel status (AES3-2), as `Pro` reads it.
#[derive(Clone, Copy, PartialEq, Eq, Debug)]
pub enum ProField {
    Payload,
    Emphasis,
    Unlocked,
    Rate,
    Mode,
    User,
    Aux,
    Word,
    B2high,
    B3,
    B4,
    B5,
    Unreliable,
    B22low,
    /// A sampling frequency that byte 0 has no code for: bits 3 to 6 of byte 4, which are part of
    /// `B4` too.
    Frequency,
}

/// A field of consumer channel status (IEC 60958-3), as `Con` reads it.
#[derive(Clone, Copy, PartialEq, Eq, Debug)]
pub enum ConField {
    Payload,
    Copyright,
    Emphasis,
    Mode,
    Category,
    Generation,
    Source,
    Number,
    Rate,
    Accuracy,
    B3high,
    Greatest,
    Word,
    Original,
}

/// A field of channel status: the use itself, or a field for one of the two uses.
#[derive(Clone, Copy, PartialEq, Eq, Debug)]
pub enum Field {
    /// The use of a status: 1 professional, 0 consumer (AES3-2, IEC 60958-1, byte 0 bit 0).
    Use,
    /// A field of professional status (AES3-2).
    Professional(ProField),
    /// A field of consumer status (IEC 60958-3).
    Consumer(ConField),
}

/// `count` bits of byte `byte`, from bit `first` on.
#[derive(Clone, Copy)]
pub(crate) struct Place {
    pub(crate) byte: usize,
    pub(crate) first: u32,
    pub(crate) count: u32,
}

impl Place {
    /// `count` bits of byte `byte`, from bit `first` on.
    fn new(byte: usize, first: u32, count: u32) -> Self
        ensures byte { result.byte ≡ byte }
        ensures first { result.first ≡ first }
        ensures count { result.count ≡ count }
    {
        Place { byte, first, count }
    }

    /// The number at this place.
    pub(crate) fn number(self, bytes: &[u8; 24]) -> u8
        requires within { self.byte < 24 }
        requires some { 0 < self.count }
        requires inside { self.first + self.count ≤ 8 }
        ensures { result ≡ number_at self bytes.now }
    {
        bits_at(bytes, self.byte, self.first, self.count)
    }
}

/// The number of `count` bits of byte `byte` from bit `first` on, the first of weight 1.
fn bits_at(bytes: &[u8; 24], byte: usize, first: u32, count: u32) -> u8
    requires within { byte < 24 }
    requires some { 0 < count }
    requires inside { first + count ≤ 8 }
    ensures { result ≡ field byte first count bytes.now }
{
    bytes[byte] >> first & u8::MAX >> (8 - count)
}

/// Whether byte 0 bit 0 is 1, which means professional use.
pub(crate) fn is_for_professional_use(bytes: &[u8; 24]) -> bool
    ensures { result ≡ is_professional bytes.now }
{
    bits_at(bytes, 0, 0, 1) == 1
}

/// The number of the four bytes from byte `byte` on, the lowest first.
pub(crate) fn u32_at(bytes: &[u8; 24], byte: usize) -> u32
    requires { byte + 4 ≤ 24 }
    ensures { result ≡ field byte 0 32 bytes.now }
{
    u32::from_le_bytes(bytes_at(bytes, byte))
}

/// The four bytes from byte `byte` on.
pub(crate) fn bytes_at(bytes: &[u8; 24], byte: usize) -> [u8; 4]
    requires { byte + 4 ≤ 24 }
    ensures { result ≡ bytes_field byte 4 bytes.now }
{
    [
        bytes[byte],
        bytes[byte + 1],
        bytes[byte + 2],
        bytes[byte + 3],
    ]
}

/// The byte with its bits from bit `first` on replaced by the lowest `count` bits of `code`.
fn replace_bits(byte: u8, first: u32, count: u32, code: u8) -> u8
    requires { first + count ≤ 8 }
    ensures { result ≡ number (with_bits first (low_bits count code) (byte_bits byte)) }
{
    let byte = u32::from(byte);
    let low = byte % (1 << first);
    let middle = (u32::from(code) % (1 << count)) << first;
    let high = byte >> (first + count) << (first + count);
    (low + middle + high) as u8
}

/// Writes the lowest bits of `code` to the field at this place.
pub(crate) fn put_code(bytes: &mut [u8; 24], place: Place, code: u8)
    requires within { place.byte < 24 }
    requires inside { place.first + place.count ≤ 8 }
    ensures { bytes.new ≡ with_field place code bytes.old }
{
    bytes[place.byte] = replace_bits(bytes[place.byte], place.first, place.count, code);
}

impl ProField {
    /// The place of the field (AES3-2).
    pub(crate) fn place(self) -> Place
        ensures place { result ≡ pro_place self }
        ensures within { result.byte < 24 }
        ensures some { 0 < result.count }
        ensures inside { result.first + result.count ≤ 8 }
    {
        match self {
            ProField::Payload => Place::new(0, 1, 1),
            ProField::Emphasis => Place::new(0, 2, 3),
            ProField::Unlocked => Place::new(0, 5, 1),
            ProField::Rate => Place::new(0, 6, 2),
            ProField::Mode => Place::new(1, 0, 4),
            ProField::User => Place::new(1, 4, 4),
            ProField::Aux => Place::new(2, 0, 3),
            ProField::Word => Place::new(2, 3, 3),
            ProField::B2high => Place::new(2, 6, 2),
            ProField::B3 => Place::new(3, 0, 8),
            ProField::B4 => Place::new(4, 0, 8),
            ProField::B5 => Place::new(5, 0, 8),
            ProField::Unreliable => Place::new(22, 4, 4),
            ProField::B22low => Place::new(22, 0, 4),
            ProField::Frequency => Place::new(4, 3, 4),
        }
    }

    /// The number in the field.
    pub(crate) fn number(self, bytes: &[u8; 24]) -> u8
        ensures { result ≡ number_at (pro_place self) bytes.now }
    {
        self.place().number(bytes)
    }
}

impl ConField {
    /// The place of the field (IEC 60958-3).
    pub(crate) fn place(self) -> Place
        ensures place { result ≡ con_place self }
        ensures within { result.byte < 24 }
        ensures some { 0 < result.count }
        ensures inside { result.first + result.count ≤ 8 }
    {
        match self {
            ConField::Payload => Place::new(0, 1, 1),
            ConField::Copyright => Place::new(0, 2, 1),
            ConField::Emphasis => Place::new(0, 3, 3),
            ConField::Mode => Place::new(0, 6, 2),
            ConField::Category => Place::new(1, 0, 7),
            ConField::Generation => Place::new(1, 7, 1),
            ConField::Source => Place::new(2, 0, 4),
            ConField::Number => Place::new(2, 4, 4),
            ConField::Rate => Place::new(3, 0, 4),
            ConField::Accuracy => Place::new(3, 4, 2),
            ConField::B3high => Place::new(3, 6, 2),
            ConField::Greatest => Place::new(4, 0, 1),
            ConField::Word => Place::new(4, 1, 3),
            ConField::Original => Place::new(4, 4, 4),
        }
    }

    /// The number in the field.
    pub(crate) fn number(self, bytes: &[u8; 24]) -> u8
        ensures { result ≡ number_at (con_place self) bytes.now }
    {
        self.place().number(bytes)
    }
}

impl Field {
    /// The place of the field.
    pub(crate) fn place(self) -> Place
        ensures place { result ≡ place_of self }
        ensures within { result.byte < 24 }
        ensures inside { result.first + result.count ≤ 8 }
    {
        match self {
            Field::Use => Place::new(0, 0, 1),
            Field::Professional(field) => field.place(),
            Field::Consumer(field) => field.place(),
        }
    }

    /// The number of codes of the field, which are the numbers below it.
    pub fn codes(self) -> u32
        ensures count { result ≡ 2 ^ (place_of self).count }
        ensures few { result ≤ 256 }
    {
        1 << self.place().count
    }

    /// Whether the status has the field: a field for one use only if byte 0 bit 0 says that use.
    pub(crate) fn is_for(self, bytes: &[u8; 24]) -> bool
        ensures { result ≡ is_for self bytes.now }
    {
        let professional = is_for_professional_use(bytes);
        match self {
            Field::Use => true,
            Field::Professional(_) => professional,
            Field::Consumer(_) => !professional,
        }
    }

    /// The number that determines what the field's codes mean. For the sample word length, it is
    /// the use of the auxiliary bits or the greatest length. For the emphasis of consumer use, it
    /// is what the sample words carry. Otherwise it is 0.
    pub(crate) fn under(self, bytes: &[u8; 24]) -> u8
        ensures number { result ≡ under self bytes.now }
        ensures few { result < 8 }
    {
        match self {
            Field::Professional(ProField::Word) => ProField::Aux.number(bytes),
            Field::Consumer(ConField::Emphasis) => ConField::Payload.number(bytes),
            Field::Consumer(ConField::Word) => ConField::Greatest.number(bytes),
            _ => 0,
        }
    }
}
