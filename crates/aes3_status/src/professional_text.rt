//! The fields of a status line for professional use (AES3-2).

ghost use Rattle.std.specs.Prelude.{◌≡◌, ◌≤◌, ◌+◌, ◌*◌, ◌++◌, length, IsTrue};
ghost use Rattle.aes3_status.specs.Bits.{number_at};
ghost use Rattle.aes3_status.specs.Professional.{pro_place};
ghost use Rattle.aes3_status.specs.Words.{are_within, rows_of};
ghost use Rattle.aes3_status.specs.ProfessionalText.{address_fields, check_word, length_words};
ghost use Rattle.aes3_status.specs.FieldTexts.{field_text};
ghost use Rattle.aes3_status.specs.ProfessionalText.{is_in_line, mode_fields, name_fields, pro_name};
ghost use Rattle.aes3_status.specs.ProfessionalText.{pro_text, pro_word, professional_text, signal_fields};

use crate::check::Check;
use crate::field::ProField;
use crate::line::{LINE_LEN, Line};
use crate::professional::Pro;
use crate::status_text::{FIELD_LEN, NAME_LEN, PAYLOAD, UP_TO_20, UP_TO_24, UP_TO_ANY, WORD_LEN};

/// Pre-emphasis (byte 0 bits 2 to 4).
const EMPHASIS: &[(u8, &str)] = &[(0, "not-indicated"), (1, "none"), (3, "50/15"), (7, "j17")];

/// Whether the source's sampling frequency is unlocked (byte 0 bit 5).
const UNLOCKED: &[(u8, &str)] = &[(0, "no"), (1, "yes")];

/// The sampling frequency (byte 0 bits 6 and 7).
const RATE: &[(u8, &str)] = &[
    (0, "not-indicated"),
    (1, "44100"),
    (2, "48000"),
    (3, "32000"),
];

/// The channel mode (byte 1 bits 0 to 3).
const MODE: &[(u8, &str)] = &[
    (0, "not-indicated"),
    (8, "two-channel"),
    (4, "single"),
    (12, "primary-secondary"),
    (2, "stereophonic"),
];

/// How the user bits are managed (byte 1 bits 4 to 7).
const USER: &[(u8, &str)] = &[(0, "not-indicated"), (8, "block192"), (12, "user")];

/// The use of the auxiliary bits (byte 2 bits 0 to 2).
const AUX: &[(u8, &str)] = &[
    (0, "undefined"),
    (4, "audio"),
    (2, "coordination"),
    (6, "user"),
];

/// The sample word lengths for this use of the auxiliary bits, which determines the greatest (byte
/// 2).
fn length_words(aux: u8) -> &'static [(u8, &'static str)]
    ensures rows { rows_of result.now ≡ length_words aux }
    ensures short { IsTrue (are_within WORD_LEN result.now) }
{
    match aux {
        4 => UP_TO_24,
        0 | 2 => UP_TO_20,
        _ => UP_TO_ANY,
    }
}

/// The state of the check byte, in one word (byte 23).
fn check_word(check: Check) -> &'static str
    ensures word { result.now ≡ check_word check }
    ensures len { length result.now ≤ WORD_LEN }
{
    match check {
        Check::Good => "good",
        Check::Absent => "absent",
        Check::Bad => "bad",
    }
}

/// The name of a field, as `show` prints it.
pub(crate) fn professional_name(field: ProField) -> &'static str
    ensures name { result.now ≡ pro_name field }
    ensures len { length result.now ≤ NAME_LEN }
{
    match field {
        ProField::Payload => "payload",
        ProField::Emphasis => "emphasis",
        ProField::Unlocked => "unlocked",
        ProField::Rate => "rate",
        ProField::Mode => "mode",
        ProField::User => "user",
        ProField::Aux => "aux",
        ProField::Word => "word",
        ProField::B2high => "b2high",
        ProField::B3 => "b3",
        ProField::B4 => "b4",
        ProField::B5 => "b5",
        ProField::Unreliable => "unreliable",
        ProField::B22low => "b22low",
        ProField::Frequency => "rate",
    }
}

/// Whether the line shows the field by itself. The sampling frequency of byte 4 is shown only as
/// part of the whole byte.
fn is_in_line(field: ProField) -> bool
    ensures { result ≡ is_in_line field }
{
    match field {
        ProField::Frequency => false,
        _ => true,
    }
}

/// Appends a code of a field; `under` determines what its codes mean. Appends nothing if the line
/// does not show the field by itself.
pub(crate) fn put_professional_code(line: &mut Line, field: ProField, under: u8, code: u8)
    requires { length line.old + FIELD_LEN ≤ LINE_LEN }
    ensures code { line.new ≡ line.old ++ pro_text field under code }
    ensures len { length line.new ≤ length line.old + FIELD_LEN }
{
    if is_in_line(field) {
        put_line_code(line, field, under, code);
    }
}

/// Appends a code of a field with its name, likewise.
fn put_line_code(line: &mut Line, field: ProField, under: u8, code: u8)
    requires { length line.old + FIELD_LEN ≤ LINE_LEN }
    ensures code { line.new ≡ line.old ++ field_text (pro_name field) (pro_word field under code) }
    ensures len { length line.new ≤ length line.old + FIELD_LEN }
{
    let name = professional_name(field);
    match field {
        ProField::Payload => line.word_field(name, PAYLOAD, code),
        ProField::Emphasis => line.word_field(name, EMPHASIS, code),
        ProField::Unlocked => line.word_field(name, UNLOCKED, code),
        ProField::Rate => line.word_field(name, RATE, code),
        ProField::Mode => line.word_field(name, MODE, code),
        ProField::User => line.word_field(name, USER, code),
        ProField::Aux => line.word_field(name, AUX, code),
        ProField::Word => line.word_field(name, length_words(under), code),
        ProField::Unreliable => line.bits_field(name, code),
        ProField::B2high
        | ProField::B3
        | ProField::B4
        | ProField::B5
        | ProField::B22low
        | ProField::Frequency => line.number_field(name, u64::from(code)),
    }
}

/// Appends the code of a field of a status; `under` determines what its codes mean.
fn put_field(line: &mut Line, status: &Pro, field: ProField, under: u8)
    requires { length line.old + FIELD_LEN ≤ LINE_LEN }
    ensures field { line.new ≡ line.old ++ pro_text field under (number_at (pro_place field) status.now) }
    ensures len { length line.new ≤ length line.old + FIELD_LEN }
{
    put_professional_code(line, field, under, status.code(field));
}

/// Appends the fields of byte 0.
fn put_signal(line: &mut Line, status: &Pro)
    requires { length line.old + 4 * FIELD_LEN ≤ LINE_LEN }
    ensures fields { line.new ≡ line.old ++ signal_fields status.now }
    ensures len { length line.new ≤ length line.old + 4 * FIELD_LEN }
{
    put_field(line, status, ProField::Payload, 0);
    put_field(line, status, ProField::Emphasis, 0);
    put_field(line, status, ProField::Unlocked, 0);
    put_field(line, status, ProField::Rate, 0);
}

/// Appends the fields of bytes 1 and 2.
fn put_mode(line: &mut Line, status: &Pro)
    requires { length line.old + 5 * FIELD_LEN ≤ LINE_LEN }
    ensures fields { line.new ≡ line.old ++ mode_fields status.now }
    ensures len { length line.new ≤ length line.old + 5 * FIELD_LEN }
{
    put_field(line, status, ProField::Mode, 0);
    put_field(line, status, ProField::User, 0);
    put_field(line, status, ProField::Aux, 0);
    put_field(line, status, ProField::Word, status.code(ProField::Aux));
    put_field(line, status, ProField::B2high, 0);
}

/// Appends the fields of bytes 3 to 13.
#[tactic(auto, unfolding(crate::specs::ProfessionalText::name_fields))]
fn put_names(line: &mut Line, status: &Pro)
    requires { length line.old + 5 * FIELD_LEN ≤ LINE_LEN }
    ensures fields { line.new ≡ line.old ++ name_fields status.now }
    ensures len { length line.new ≤ length line.old + 5 * FIELD_LEN }
{
    put_field(line, status, ProField::B3, 0);
    put_field(line, status, ProField::B4, 0);
    put_field(line, status, ProField::B5, 0);
    line.characters_field("origin", status.origin());
    line.characters_field("destination", status.destination());
}

/// Appends the fields of bytes 14 to 22.
#[tactic(auto, unfolding(crate::specs::ProfessionalText::address_fields))]
fn put_addresses(line: &mut Line, status: &Pro)
    requires { length line.old + 4 * FIELD_LEN ≤ LINE_LEN }
    ensures fields { line.new ≡ line.old ++ address_fields status.now }
    ensures len { length line.new ≤ length line.old + 4 * FIELD_LEN }
{
    line.number_field("local", u64::from(status.local()));
    line.number_field("time", u64::from(status.time()));
    put_field(line, status, ProField::Unreliable, 0);
    put_field(line, status, ProField::B22low, 0);
}

/// Appends a channel status for professional use.
pub(crate) fn put_professional(line: &mut Line, status: &Pro, check: Check)
    requires { length line.old + 20 * FIELD_LEN ≤ LINE_LEN }
    ensures text { line.new ≡ line.old ++ professional_text status.now check }
    ensures len { length line.new ≤ length line.old + 20 * FIELD_LEN }
{
    line.text(" professional");
    put_signal(line, status);
    put_mode(line, status);
    put_names(line, status);
    put_addresses(line, status);
    line.text_field("check", check_word(check));
}
