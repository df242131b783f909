//! A channel status as it is printed: its use and its fields, and the words of their codes.

ghost use Rattle.std.specs.Prelude.{◌≡◌, ◌≤◌, ◌<◌, ◌+◌, ◌*◌, ◌++◌, codes, decimal, length, map};
ghost use Rattle.std.specs.Prelude.{IfSome, IsTrue};
ghost use Rattle.std.specs.Option.{option_copied};
ghost use Rattle.std.specs.Int.{bit_at};
ghost use Rattle.hex.specs.Hex.{encode_lower};
ghost use Rattle.aes3_status.specs.Words.{are_within, rows_of, word_for, word_of};
ghost use Rattle.aes3_status.specs.FieldTexts.{field_text, four_bits, shown, specified};
ghost use Rattle.aes3_status.specs.StatusTexts.{status_text};

use crate::check::check_state;
use crate::consumer_text::put_consumer;
use crate::line::{LINE_LEN, Line};
use crate::professional_text::put_professional;
use crate::status::Status;

/// How many bytes the name of a field has at most.
pub const NAME_LEN: usize = 11;

/// How many bytes a field has at most.
pub(crate) const FIELD_LEN: usize = 40;

/// The digits of the bytes after the fields of consumer use.
const REST_DIGITS: usize = 38;

/// How many bytes a word has at most.
pub const WORD_LEN: usize = 20;

/// How many bytes a printed channel status has at most.
pub const STATUS_LEN: usize = 800;

/// The use (AES3-2, IEC 60958-1, byte 0 bit 0).
pub(crate) const USE: &[(u8, &str)] = &[(0, "consumer"), (1, "professional")];

/// What the sample words carry (AES3-2, IEC 60958-3, byte 0 bit 1).
pub(crate) const PAYLOAD: &[(u8, &str)] = &[(0, "pcm"), (1, "other")];

/// Sample word lengths if the greatest is 24 bits (AES3-2, IEC 60958-3).
pub(crate) const UP_TO_24: &[(u8, &str)] = &[
    (0, "not-indicated"),
    (4, "23"),
    (2, "22"),
    (6, "21"),
    (1, "20"),
    (5, "24"),
];

/// Sample word lengths if the greatest is 20 bits (AES3-2, IEC 60958-3).
pub(crate) const UP_TO_20: &[(u8, &str)] = &[
    (0, "not-indicated"),
    (4, "19"),
    (2, "18"),
    (6, "17"),
    (1, "16"),
    (5, "20"),
];

/// Sample word lengths if the greatest isn't indicated (AES3-2).
pub(crate) const UP_TO_ANY: &[(u8, &str)] = &[(0, "not-indicated")];

/// The word of a code in a table of codes and their words: that of the first row with the code.
pub fn word_of<'a>(words: &[(u8, &'a str)], code: u8) -> Option<&'a str>
    requires { IsTrue (are_within WORD_LEN words.now) }
    ensures word { option_copied result ≡ word_of (rows_of words.now) code }
    ensures len { IfSome result (λ word. length word.now ≤ WORD_LEN) }
{
    for (named, word) in words {
        if *named == code {
            return Some(word);
        }
    }
    None
}

impl Line {
    /// Appends the name of a field, with a space before it and the equals sign.
    pub(crate) fn field(&mut self, name: &str)
        requires name { length name.now ≤ NAME_LEN }
        requires space { length self.old + FIELD_LEN ≤ LINE_LEN }
        ensures name { self.new ≡ self.old ++ (codes " " ++ name.now ++ codes "=") }
        ensures len { length self.new ≤ length self.old + NAME_LEN + 2 }
    {
        self.text(" ");
        self.text(name);
        self.text("=");
    }

    /// Appends a field with this value.
    #[tactic(auto, unfolding(crate::specs::FieldTexts::field_text))]
    pub(crate) fn text_field(&mut self, name: &str, value: &str)
        requires name { length name.now ≤ NAME_LEN }
        requires value { length value.now ≤ WORD_LEN }
        requires space { length self.old + FIELD_LEN ≤ LINE_LEN }
        ensures field { self.new ≡ self.old ++ field_text name.now value.now }
        ensures len { length self.new ≤ length self.old + FIELD_LEN }
    {
        self.field(name);
        self.text(value);
    }

    /// Appends a field with this number.
    #[tactic(auto, unfolding(crate::specs::FieldTexts::field_text))]
    pub(crate) fn number_field(&mut self, name: &str, number: u64)
        requires name { length name.now ≤ NAME_LEN }
        requires space { length self.old + FIELD_LEN ≤ LINE_LEN }
        ensures field { self.new ≡ self.old ++ field_text name.now (decimal number) }
        ensures len { length self.new ≤ length self.old + FIELD_LEN }
    {
        self.field(name);
        self.number(number);
    }

    /// Appends a field with this number, 0 as not specified.
    #[tactic(auto, unfolding(crate::specs::FieldTexts::specified))]
    pub(crate) fn specified_field(&mut self, name: &str, number: u64)
        requires name { length name.now ≤ NAME_LEN }
        requires space { length self.old + FIELD_LEN ≤ LINE_LEN }
        ensures field { self.new ≡ self.old ++ field_text name.now (specified number) }
        ensures len { length self.new ≤ length self.old + FIELD_LEN }
    {
        if number == 0 {
            self.text_field(name, "not-specified");
        } else {
            self.number_field(name, number);
        }
    }

    /// Appends a field with the word of this code, or `code` and the number if the table has no
    /// word for it.
    #[tactic(auto, unfolding(crate::specs::FieldTexts::field_text, crate::specs::Words::word_for))]
    pub(crate) fn word_field(&mut self, name: &str, words: &[(u8, &str)], code: u8)
        requires name { length name.now ≤ NAME_LEN }
        requires words { IsTrue (are_within WORD_LEN words.now) }
        requires space { length self.old + FIELD_LEN ≤ LINE_LEN }
        ensures field { self.new ≡ self.old ++ field_text name.now
            (word_for (rows_of words.now) code) }
        ensures len { length self.new ≤ length self.old + FIELD_LEN }
    {
        self.field(name);
        match word_of(words, code) {
            Some(word) => self.text(word),
            None => {
                self.text("code");
                self.number(u64::from(code));
            }
        }
    }

    /// Appends a field with four characters, with `.` for each byte that is not from `!` to `~`.
    #[tactic(auto, unfolding(crate::specs::FieldTexts::field_text))]
    pub(crate) fn characters_field(&mut self, name: &str, characters: [u8; 4])
        requires name { length name.now ≤ NAME_LEN }
        requires space { length self.old + FIELD_LEN ≤ LINE_LEN }
        ensures field { self.new ≡ self.old ++ field_text name.now (map shown characters) }
        ensures len { length self.new ≤ length self.old + FIELD_LEN }
    {
        let [first, second, third, last] = characters;
        self.field(name);
        self.bytes(&[
            printed_byte(first),
            printed_byte(second),
            printed_byte(third),
            printed_byte(last),
        ]);
    }

    /// Appends a field with the four lowest bits of a number as digits, the lowest first.
    #[tactic(auto, unfolding(crate::specs::FieldTexts::field_text, crate::specs::FieldTexts::four_bits))]
    pub(crate) fn bits_field(&mut self, name: &str, bits: u8)
        requires name { length name.now ≤ NAME_LEN }
        requires space { length self.old + FIELD_LEN ≤ LINE_LEN }
        ensures field { self.new ≡ self.old ++ field_text name.now (four_bits bits) }
        ensures len { length self.new ≤ length self.old + FIELD_LEN }
    {
        self.field(name);
        self.bytes(&[
            digit(bits, 0),
            digit(bits, 1),
            digit(bits, 2),
            digit(bits, 3),
        ]);
    }

    /// Appends a field with these bytes as hexadecimal digits.
    #[tactic(auto, unfolding(crate::specs::FieldTexts::field_text))]
    pub(crate) fn hex_field(&mut self, name: &str, bytes: &[u8; 19])
        requires name { length name.now ≤ NAME_LEN }
        requires space { length self.old + 2 * FIELD_LEN ≤ LINE_LEN }
        ensures field { self.new ≡ self.old ++ field_text name.now (encode_lower bytes.now) }
        ensures len { length self.new ≤ length self.old + 2 * FIELD_LEN }
    {
        let mut digits = [0; REST_DIGITS];
        let _ = hex::encode_to_slice(bytes, &mut digits);
        self.field(name);
        self.bytes(&digits);
    }
}

/// A byte of an origin or a destination as it is printed (AES3-2, bytes 6 to 13).
fn printed_byte(byte: u8) -> u8
    ensures { result ≡ shown byte }
{
    if byte.is_ascii_graphic() { byte } else { b'.' }
}

/// The bit at a place, as a digit.
fn digit(bits: u8, place: u32) -> u8
    requires { place < 8 }
    ensures { result ≡ 48 + bit_at bits place }
{
    b'0' + (bits >> place & 1)
}

/// Appends the use and the fields of a channel status (AES3-2, IEC 60958-3), each with a space
/// before it.
pub fn put_status(line: &mut Line, status: &[u8; 24])
    requires { length line.old + STATUS_LEN ≤ LINE_LEN }
    ensures text { line.new ≡ line.old ++ status_text status.now }
    ensures len { length line.new ≤ length line.old + STATUS_LEN }
{
    match Status::read(status) {
        Status::Professional(fields) => put_professional(line, &fields, check_state(status)),
        Status::Consumer(fields) => put_consumer(line, &fields),
    }
}
