//! The words of codes that are numbers in a line of channel status (AES3-2, IEC 60958-3).
//!
//! The tables are those of ALSA's `alsa/asoundef.h` (`libasound2-dev` 1.2.8), except for the
//! sampling frequencies of byte 4 of professional use, which it does not name. A code without a
//! name in them has no word here.

ghost use Rattle.std.specs.Prelude.{◌≡◌, ◌≤◌, ◌+◌, ◌++◌, length, IfSome, IsTrue};
ghost use Rattle.std.specs.Option.{option_copied};
ghost use Rattle.aes3_status.specs.Words.{are_within, rows_of, word_of};
ghost use Rattle.aes3_status.specs.Names.{category_names, code_names, name_of, name_text};
ghost use Rattle.aes3_status.specs.Names.{original_names};

use crate::consumer_text::consumer_name;
use crate::field::{ConField, Field, ProField};
use crate::line::{LINE_LEN, Line};
use crate::professional_text::professional_name;
use crate::status_text::{FIELD_LEN, NAME_LEN, WORD_LEN, word_of};

/// Channel modes of professional use (byte 1 bits 0 to 3; `IEC958_AES1_PRO_MODE`).
const MODE: &[(u8, &str)] = &[(15, "vector-to-byte-3")];

/// Sampling frequencies of professional use in hertz that byte 0 has no code for (byte 4 bits 3 to
/// 6; AES3-2).
const FREQUENCY: &[(u8, &str)] = &[
    (1, "24000"),
    (2, "96000"),
    (3, "192000"),
    (9, "22050"),
    (10, "88200"),
    (11, "176400"),
    (15, "user-defined"),
];

/// Category codes of consumer use (byte 1 bits 0 to 6; `IEC958_AES1_CON`), by their groups: laser
/// optical, converters, magnetic, broadcast, musical, with and without copyright information,
/// solid state.
const CATEGORY: &[(u8, &str)] = &[
    (9, "non-iec908-cd"),
    (73, "mini-disc"),
    (25, "dvd"),
    (121, "other-laser-optical"),
    (2, "pcm-coder"),
    (18, "mixer"),
    (26, "rate-converter"),
    (34, "sampler"),
    (42, "sound-processor"),
    (122, "other-converter"),
    (11, "video-recorder"),
    (67, "dcc"),
    (27, "magnetic-disc"),
    (123, "other-magnetic"),
    (4, "dab-japan"),
    (12, "dab-europe"),
    (100, "dab-usa"),
    (68, "software-delivery"),
    (36, "iec62105"),
    (124, "other-broadcast"),
    (5, "synthesizer"),
    (13, "microphone"),
    (125, "other-musical"),
    (6, "adc"),
    (102, "other-adc"),
    (22, "adc-copyright"),
    (118, "other-adc-copyright"),
    (8, "solid-state-recorder"),
    (120, "other-solid-state"),
    (64, "experimental"),
];

/// Sampling frequencies of consumer use in hertz (byte 3 bits 0 to 3; `IEC958_AES3_CON_FS`).
const RATE: &[(u8, &str)] = &[(9, "768000")];

/// Original sampling frequencies of consumer use in hertz (byte 4 bits 4 to 7;
/// `IEC958_AES4_CON_ORIGFS`).
const ORIGINAL: &[(u8, &str)] = &[
    (0, "not-indicated"),
    (1, "192000"),
    (2, "12000"),
    (3, "176400"),
    (5, "96000"),
    (6, "8000"),
    (7, "88200"),
    (8, "16000"),
    (9, "24000"),
    (10, "11025"),
    (11, "22050"),
    (12, "32000"),
    (13, "48000"),
    (15, "44100"),
];

/// The words of category codes.
#[tactic(auto, unfolding(crate::specs::Names::category_names))]
fn category_names() -> &'static [(u8, &'static str)]
    ensures rows { rows_of result.now ≡ category_names }
    ensures short { IsTrue (are_within WORD_LEN result.now) }
{
    CATEGORY
}

/// The words of original sampling frequencies.
#[tactic(auto, unfolding(crate::specs::Names::original_names))]
fn original_names() -> &'static [(u8, &'static str)]
    ensures rows { rows_of result.now ≡ original_names }
    ensures short { IsTrue (are_within WORD_LEN result.now) }
{
    ORIGINAL
}

/// The name of a field, as `show` prints it. For the use, `show` prints only the word.
pub fn name_of(field: Field) -> &'static str
    ensures name { result.now ≡ name_of field }
    ensures len { length result.now ≤ NAME_LEN }
{
    match field {
        Field::Use => "use",
        Field::Professional(field) => professional_name(field),
        Field::Consumer(field) => consumer_name(field),
    }
}

/// The words of a field's codes; none if no code of it has one.
fn code_names(field: Field) -> &'static [(u8, &'static str)]
    ensures rows { rows_of result.now ≡ code_names field }
    ensures short { IsTrue (are_within WORD_LEN result.now) }
{
    match field {
        Field::Professional(ProField::Mode) => MODE,
        Field::Professional(ProField::Frequency) => FREQUENCY,
        Field::Consumer(ConField::Category) => category_names(),
        Field::Consumer(ConField::Rate) => RATE,
        Field::Consumer(ConField::Original) => original_names(),
        _ => &[],
    }
}

/// The word of a field's code, in the terms of the standards (AES3-2, IEC 60958-3). `None` if it
/// has no word, or if `show` prints one without `--names`.
pub fn name_of_code(field: Field, code: u8) -> Option<&'static str>
    ensures word { option_copied result ≡ word_of (code_names field) code }
    ensures len { IfSome result (λ word. length word.now ≤ WORD_LEN) }
{
    word_of(code_names(field), code)
}

/// Appends the word of a code as a field, if it has one.
pub(crate) fn put_name(line: &mut Line, field: Field, code: u8)
    requires { length line.old + FIELD_LEN ≤ LINE_LEN }
    ensures name { line.new ≡ line.old ++ name_text field code }
    ensures len { length line.new ≤ length line.old + FIELD_LEN }
{
    if let Some(word) = name_of_code(field, code) {
        line.text_field(name_of(field), word);
    }
}
