//! The fields of a status line for consumer use (IEC 60958-3).

ghost use Rattle.std.specs.Prelude.{◌≡◌, ◌≤◌, ◌+◌, ◌*◌, ◌++◌, length, IsTrue};
ghost use Rattle.aes3_status.specs.Bits.{number_at};
ghost use Rattle.aes3_status.specs.Consumer.{con_place};
ghost use Rattle.aes3_status.specs.Words.{are_within, rows_of};
ghost use Rattle.aes3_status.specs.ConsumerText.{con_name, con_text, consumer_text, emphasis_words};
ghost use Rattle.aes3_status.specs.ConsumerText.{length_fields, length_words};
ghost use Rattle.aes3_status.specs.ConsumerText.{rate_fields, signal_fields, source_fields};

use crate::consumer::Con;
use crate::field::ConField;
use crate::line::{LINE_LEN, Line};
use crate::status_text::{FIELD_LEN, NAME_LEN, PAYLOAD, UP_TO_20, UP_TO_24, WORD_LEN};

/// Copyright (byte 0 bit 2).
const COPYRIGHT: &[(u8, &str)] = &[(0, "asserted"), (1, "not-asserted")];

/// Pre-emphasis of linear PCM (byte 0 bits 3 to 5).
const EMPHASIS: &[(u8, &str)] = &[(0, "none"), (1, "50/15")];

/// The category code without its last bit (byte 1 bits 0 to 6).
const CATEGORY: &[(u8, &str)] = &[(0, "general"), (1, "cd"), (3, "dat")];

/// The sampling frequency (byte 3 bits 0 to 3).
const RATE: &[(u8, &str)] = &[
    (0, "44100"),
    (1, "not-indicated"),
    (2, "48000"),
    (3, "32000"),
    (4, "22050"),
    (6, "24000"),
    (8, "88200"),
    (10, "96000"),
    (12, "176400"),
    (14, "192000"),
];

/// The clock accuracy (byte 3 bits 4 and 5).
const ACCURACY: &[(u8, &str)] = &[(0, "level2"), (1, "level1"), (2, "level3")];

/// The greatest sample word length (byte 4 bit 0).
const GREATEST: &[(u8, &str)] = &[(0, "20"), (1, "24")];

/// The words of byte 0 bits 3 to 5, which are the pre-emphasis only for linear PCM.
fn emphasis_words(payload: u8) -> &'static [(u8, &'static str)]
    ensures rows { rows_of result.now ≡ emphasis_words payload }
    ensures short { IsTrue (are_within WORD_LEN result.now) }
{
    if payload == 0 { EMPHASIS } else { &[] }
}

/// The sample word lengths for this code of the greatest length (byte 4).
fn length_words(greatest: u8) -> &'static [(u8, &'static str)]
    ensures rows { rows_of result.now ≡ length_words greatest }
    ensures short { IsTrue (are_within WORD_LEN result.now) }
{
    if greatest == 0 { UP_TO_20 } else { UP_TO_24 }
}

/// The name of a field, as `show` prints it.
pub(crate) fn consumer_name(field: ConField) -> &'static str
    ensures name { result.now ≡ con_name field }
    ensures len { length result.now ≤ NAME_LEN }
{
    match field {
        ConField::Payload => "payload",
        ConField::Copyright => "copyright",
        ConField::Emphasis => "emphasis",
        ConField::Mode => "mode",
        ConField::Category => "category",
        ConField::Generation => "generation",
        ConField::Source => "source",
        ConField::Number => "number",
        ConField::Rate => "rate",
        ConField::Accuracy => "accuracy",
        ConField::B3high => "b3high",
        ConField::Greatest => "greatest",
        ConField::Word => "word",
        ConField::Original => "original",
    }
}

/// Appends a code of a field; `under` determines what its codes mean.
pub(crate) fn put_consumer_code(line: &mut Line, field: ConField, under: u8, code: u8)
    requires { length line.old + FIELD_LEN ≤ LINE_LEN }
    ensures code { line.new ≡ line.old ++ con_text field under code }
    ensures len { length line.new ≤ length line.old + FIELD_LEN }
{
    let name = consumer_name(field);
    match field {
        ConField::Payload => line.word_field(name, PAYLOAD, code),
        ConField::Copyright => line.word_field(name, COPYRIGHT, code),
        ConField::Emphasis => line.word_field(name, emphasis_words(under), code),
        ConField::Category => line.word_field(name, CATEGORY, code),
        ConField::Source | ConField::Number => line.specified_field(name, u64::from(code)),
        ConField::Rate => line.word_field(name, RATE, code),
        ConField::Accuracy => line.word_field(name, ACCURACY, code),
        ConField::Greatest => line.word_field(name, GREATEST, code),
        ConField::Word => line.word_field(name, length_words(under), code),
        ConField::Mode | ConField::Generation | ConField::B3high | ConField::Original =>
            line.number_field(name, u64::from(code)),
    }
}

/// Appends the code of a field of a status; `under` determines what its codes mean.
fn put_field(line: &mut Line, status: &Con, field: ConField, under: u8)
    requires { length line.old + FIELD_LEN ≤ LINE_LEN }
    ensures field { line.new ≡ line.old ++ con_text field under (number_at (con_place field) status.now) }
    ensures len { length line.new ≤ length line.old + FIELD_LEN }
{
    put_consumer_code(line, field, under, status.code(field));
}

/// Appends the fields of byte 0.
#[tactic(auto, unfolding(crate::specs::ConsumerText::signal_fields))]
fn put_signal(line: &mut Line, status: &Con)
    requires { length line.old + 4 * FIELD_LEN ≤ LINE_LEN }
    ensures fields { line.new ≡ line.old ++ signal_fields status.now }
    ensures len { length line.new ≤ length line.old + 4 * FIELD_LEN }
{
    put_field(line, status, ConField::Payload, 0);
    put_field(line, status, ConField::Copyright, 0);
    put_field(
        line,
        status,
        ConField::Emphasis,
        status.code(ConField::Payload),
    );
    put_field(line, status, ConField::Mode, 0);
}

/// Appends the fields of bytes 1 and 2.
#[tactic(auto, unfolding(crate::specs::ConsumerText::source_fields))]
fn put_source(line: &mut Line, status: &Con)
    requires { length line.old + 4 * FIELD_LEN ≤ LINE_LEN }
    ensures fields { line.new ≡ line.old ++ source_fields status.now }
    ensures len { length line.new ≤ length line.old + 4 * FIELD_LEN }
{
    put_field(line, status, ConField::Category, 0);
    put_field(line, status, ConField::Generation, 0);
    put_field(line, status, ConField::Source, 0);
    put_field(line, status, ConField::Number, 0);
}

/// Appends the fields of byte 3.
fn put_rate(line: &mut Line, status: &Con)
    requires { length line.old + 3 * FIELD_LEN ≤ LINE_LEN }
    ensures fields { line.new ≡ line.old ++ rate_fields status.now }
    ensures len { length line.new ≤ length line.old + 3 * FIELD_LEN }
{
    put_field(line, status, ConField::Rate, 0);
    put_field(line, status, ConField::Accuracy, 0);
    put_field(line, status, ConField::B3high, 0);
}

/// Appends the fields of bytes 4 to 23.
#[tactic(auto, unfolding(crate::specs::ConsumerText::length_fields))]
fn put_length(line: &mut Line, status: &Con)
    requires { length line.old + 5 * FIELD_LEN ≤ LINE_LEN }
    ensures fields { line.new ≡ line.old ++ length_fields status.now }
    ensures len { length line.new ≤ length line.old + 5 * FIELD_LEN }
{
    put_field(line, status, ConField::Greatest, 0);
    put_field(
        line,
        status,
        ConField::Word,
        status.code(ConField::Greatest),
    );
    put_field(line, status, ConField::Original, 0);
    line.hex_field("rest", &status.rest());
}

/// Appends a channel status for consumer use.
#[tactic(auto, unfolding(crate::specs::ConsumerText::consumer_text))]
pub(crate) fn put_consumer(line: &mut Line, status: &Con)
    requires { length line.old + 17 * FIELD_LEN ≤ LINE_LEN }
    ensures text { line.new ≡ line.old ++ consumer_text status.now }
    ensures len { length line.new ≤ length line.old + 17 * FIELD_LEN }
{
    line.text(" consumer");
    put_signal(line, status);
    put_source(line, status);
    put_rate(line, status);
    put_length(line, status);
}
