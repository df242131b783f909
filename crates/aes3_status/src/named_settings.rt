//! Fields of channel status by their names and the words that `show` prints.

ghost use Rattle.std.specs.Prelude.{◌≡◌, ◌≢◌, ◌↔◌, ◌<◌, ◌≤◌, ◌+◌, ◌++◌, ℕ, None, length, get_or};
ghost use Rattle.std.specs.Prelude.{IfSome, IsFalse, IsTrue};
ghost use Rattle.aes3_status.specs.NamedSettings.{IsCodeOf, IsNoSetting, IsPrintedSo, IsSettingOf};
ghost use Rattle.aes3_status.specs.NamedSettings.{IsShownThen};
ghost use Rattle.aes3_status.specs.NamedSettings.{code_text};
ghost use Rattle.aes3_status.specs.NamedSettings.{consumer_fields, professional_fields};

use crate::code_names::put_name;
use crate::consumer_text::put_consumer_code;
use crate::field::{ConField, Field, ProField};
use crate::line::{LINE_LEN, Line};
use crate::professional_text::put_professional_code;
use crate::setting::Setting;
use crate::status_text::{FIELD_LEN, USE};

/// The fields of professional status (AES3-2) that can be set: its use, the others as `show` prints
/// them, and the sampling frequency of byte 4, which `show --names` appends to the line.
pub(crate) const PROFESSIONAL: &[Field] = &[
    Field::Use,
    Field::Professional(ProField::Payload),
    Field::Professional(ProField::Emphasis),
    Field::Professional(ProField::Unlocked),
    Field::Professional(ProField::Rate),
    Field::Professional(ProField::Mode),
    Field::Professional(ProField::User),
    Field::Professional(ProField::Aux),
    Field::Professional(ProField::Word),
    Field::Professional(ProField::B2high),
    Field::Professional(ProField::B3),
    Field::Professional(ProField::B4),
    Field::Professional(ProField::B5),
    Field::Professional(ProField::Unreliable),
    Field::Professional(ProField::B22low),
    Field::Professional(ProField::Frequency),
];

/// The fields of consumer status (IEC 60958-3) that can be set: its use, and the others as `show`
/// prints them.
pub(crate) const CONSUMER: &[Field] = &[
    Field::Use,
    Field::Consumer(ConField::Payload),
    Field::Consumer(ConField::Copyright),
    Field::Consumer(ConField::Emphasis),
    Field::Consumer(ConField::Mode),
    Field::Consumer(ConField::Category),
    Field::Consumer(ConField::Generation),
    Field::Consumer(ConField::Source),
    Field::Consumer(ConField::Number),
    Field::Consumer(ConField::Rate),
    Field::Consumer(ConField::Accuracy),
    Field::Consumer(ConField::B3high),
    Field::Consumer(ConField::Greatest),
    Field::Consumer(ConField::Word),
    Field::Consumer(ConField::Original),
];

/// Appends a code of a field; `under` determines what its codes mean.
pub(crate) fn put_code(line: &mut Line, field: Field, under: u8, code: u8)
    requires { length line.old + FIELD_LEN ≤ LINE_LEN }
    ensures code { line.new ≡ line.old ++ code_text field under code }
    ensures len { length line.new ≤ length line.old + FIELD_LEN }
{
    match field {
        Field::Use => line.word_field("use", USE, code),
        Field::Professional(field) => put_professional_code(line, field, under, code),
        Field::Consumer(field) => put_consumer_code(line, field, under, code),
    }
}

/// Whether `show` or `show --names` prints a code of a field as this text; `under` determines what
/// its codes mean.
fn is_printed_so(field: Field, under: u8, code: u8, text: &str) -> bool
    ensures { IsTrue result ↔ IsPrintedSo text.now field under code }
{
    let mut line = Line::new();
    put_code(&mut line, field, under, code);
    if line.is_spaced(text) {
        return true;
    }
    line.clear();
    put_name(&mut line, field, code);
    line.is_spaced(text)
}

/// The first code of a field that is printed as this text; `under` determines what its codes mean.
pub(crate) fn code_of(field: Field, under: u8, text: &str) -> Option<u8>
    ensures some { IfSome result (IsCodeOf text.now field under) }
    ensures none { result ≡ None → (code : ℕ) → ¬ IsCodeOf text.now field under code }
{
    for code in 0..field.codes() {
        if is_printed_so(field, under, code as u8, text) {
            return Some(code as u8);
        }
    }
    None
}

/// The codes of a field that are printed as this text, for each value of the number that determines
/// what its codes mean.
fn codes_of(field: Field, text: &str) -> [Option<u8>; 8]
    ensures len { length result ≡ 8 }
    ensures some { (under : ℕ) → under < 8 → IfSome (get_or result under None)
        (IsCodeOf text.now field under) }
    ensures none { (under code : ℕ) → under < 8 → get_or result under None ≡ None
        → ¬ IsCodeOf text.now field under code }
{
    [
        code_of(field, 0, text),
        code_of(field, 1, text),
        code_of(field, 2, text),
        code_of(field, 3, text),
        code_of(field, 4, text),
        code_of(field, 5, text),
        code_of(field, 6, text),
        code_of(field, 7, text),
    ]
}

/// Whether there is any code.
fn has_code(codes: &[Option<u8>; 8]) -> bool
    ensures some { IsTrue result → (under : ℕ) × (under < 8)
        × (get_or codes.now under None ≢ None) }
    ensures none { IsFalse result → (under : ℕ) → under < 8 → get_or codes.now under None ≡ None }
{
    for code in codes {
        if code.is_some() {
            return true;
        }
    }
    false
}

/// The setting of one of these fields that is printed as this text.
fn setting_in(fields: &[Field], text: &str) -> Option<Setting>
    ensures some { IfSome result (IsSettingOf text.now fields.now) }
    ensures none { result ≡ None → IsNoSetting text.now fields.now }
{
    for field in fields {
        let codes = codes_of(*field, text);
        if has_code(&codes) {
            return Some(Setting {
                field: *field,
                codes,
            });
        }
    }
    None
}

/// The setting of a field of professional status (AES3-2) by a text `NAME=WORD`, as `show` or `show
/// --names` prints it. A code without a word is printed as `code` and its number. `None` if no code
/// of such a field is printed as this text.
pub fn professional_setting(text: &str) -> Option<Setting>
    ensures some { IfSome result (IsSettingOf text.now professional_fields) }
    ensures shown { IfSome result (IsShownThen text.now) }
    ensures none { result ≡ None → IsNoSetting text.now professional_fields }
{
    setting_in(PROFESSIONAL, text)
}

/// The same for consumer status (IEC 60958-3).
pub fn consumer_setting(text: &str) -> Option<Setting>
    ensures some { IfSome result (IsSettingOf text.now consumer_fields) }
    ensures shown { IfSome result (IsShownThen text.now) }
    ensures none { result ≡ None → IsNoSetting text.now consumer_fields }
{
    setting_in(CONSUMER, text)
}
