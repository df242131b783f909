//! What the fields of channel status can be set to, as text.

ghost use Rattle.std.specs.Prelude.{◌≡◌, ◌<◌, ◌++◌, [], ◌∷◌, codes, map, IfOk};
ghost use Rattle.std.specs.List.{flat_map, list_any};
ghost use Rattle.aes3_status.specs.Choices.{below, choices, code_choice, code_choices, code_count};
ghost use Rattle.aes3_status.specs.Choices.{field_choices, has_name, has_word};
ghost use Rattle.aes3_status.specs.Choices.{is_known, is_named, is_printed, is_told};
ghost use Rattle.aes3_status.specs.Choices.{name_choices, name_in, named_choices, names_of};
ghost use Rattle.aes3_status.specs.Choices.{use_choices, wide_choice};
ghost use Rattle.aes3_status.specs.Names.{name_of, name_text};
ghost use Rattle.aes3_status.specs.NamedSettings.{code_text};

use crate::code_names::{name_of, name_of_code};
use crate::field::Field;
use crate::line::Line;
use crate::named_settings::{CONSUMER, PROFESSIONAL, put_code};
use crate::wide_field::WideField;
use crate::wide_text::wide_named;
use std::alloc::AllocError;

/// How many fields for one use the line shows by themselves, with names of their own: the use and
/// fourteen others.
const LINE_FIELDS: usize = 15;

/// How many codes a byte has.
const BYTE_CODES: u32 = 256;

/// The names of the fields of four bytes, appended to the others.
const WIDE_NAMES: &str = " origin destination local time";

/// The name in a text `NAME=WORD`: the part before its first `=`, or all of it.
fn name_in(setting: &str) -> &str
    ensures { result.now ≡ name_in setting.now }
{
    match setting.split_once('=') {
        Some((name, _)) => name,
        None => setting,
    }
}

/// Whether a text `NAME=WORD` has the field's name.
fn is_named(setting: &str, field: Field) -> bool
    ensures { result ≡ is_named setting.now field }
{
    name_in(setting) == name_of(field)
}

/// Whether one of the fields has the name of a text `NAME=WORD`.
fn has_name(fields: &[Field], setting: &str) -> bool
    ensures { result ≡ has_name fields.now setting.now }
{
    for field in fields {
        if is_named(setting, *field) {
            return true;
        }
    }
    false
}

/// Whether a field for either use has the name of a text `NAME=WORD`.
fn is_known(setting: &str) -> bool
    ensures { result ≡ is_known setting.now }
{
    has_name(PROFESSIONAL, setting) || has_name(CONSUMER, setting)
}

/// Whether a code has a word: one without is printed as `code` and its number.
fn has_word(field: Field, under: u8, code: u8) -> bool
    ensures { result ≡ has_word field under code }
{
    let mut line = Line::new();
    put_code(&mut line, field, under, code);
    let mut number = Line::new();
    number.field(name_of(field));
    number.text("code");
    number.number(u64::from(code));
    line.as_bytes() != number.as_bytes()
}

/// Whether a code of the field is printed as this line; `under` determines what its codes mean.
fn is_printed(line: &Line, field: Field, under: u8) -> bool
    ensures { result ≡ is_printed line.now field under }
{
    let mut other = Line::new();
    for code in 0..field.codes() {
        other.clear();
        put_code(&mut other, field, under, code as u8);
        if other.as_bytes() == line.as_bytes() {
            return true;
        }
    }
    false
}

/// Whether a code is printed in the same way as some code under a lower number.
fn is_told(field: Field, under: u8, code: u8) -> bool
    ensures { result ≡ is_told field under code }
{
    let mut line = Line::new();
    put_code(&mut line, field, under, code);
    for lower in 0..under {
        if is_printed(&line, field, lower) {
            return true;
        }
    }
    false
}

/// Appends the text that a code is printed as.
fn add_text(text: &mut String, field: Field, under: u8, code: u8) -> Result<(), AllocError>
    ensures { IfOk result (λ _. text.new.bytes.items ≡ text.old.bytes.items
        ++ code_text field under code) }
{
    let mut line = Line::new();
    put_code(&mut line, field, under, code);
    match str::from_utf8(line.as_bytes()) {
        Ok(word) => text.push_str(word),
        Err(_) => unreachable!(),
    }
}

/// Appends what the choices say of a code: nothing if it has no word or is listed already. Of the
/// codes of a byte, only the first and the last are listed.
fn add_code(text: &mut String, field: Field, under: u8, code: u8) -> Result<(), AllocError>
    ensures { IfOk result (λ _. text.new.bytes.items ≡ text.old.bytes.items
        ++ code_choice field under code) }
{
    if !has_word(field, under, code) || is_told(field, under, code) {
        return Ok(());
    }
    if field.codes() < BYTE_CODES || code == 0 {
        add_text(text, field, under, code)
    } else if code == u8::MAX {
        text.push_str(" ..")?;
        add_text(text, field, under, code)
    } else {
        Ok(())
    }
}

/// Appends the texts that the codes of a field are printed as; `under` determines what they mean.
fn add_codes(text: &mut String, field: Field, under: u8) -> Result<(), AllocError>
    ensures { IfOk result (λ _. text.new.bytes.items ≡ text.old.bytes.items
        ++ code_choices field under) }
{
    for code in 0..field.codes() {
        add_code(text, field, under, code as u8)?;
    }
    Ok(())
}

/// Appends the word of a code as a field, if `show --names` has one.
fn add_code_name(text: &mut String, field: Field, code: u8) -> Result<(), AllocError>
    ensures { IfOk result (λ _. text.new.bytes.items ≡ text.old.bytes.items ++ name_text field code) }
{
    if let Some(word) = name_of_code(field, code) {
        text.push_str(" ")?;
        text.push_str(name_of(field))?;
        text.push_str("=")?;
        text.push_str(word)?;
    }
    Ok(())
}

/// Appends the words that `show --names` has for a field's codes.
fn add_code_names(text: &mut String, field: Field) -> Result<(), AllocError>
    ensures { IfOk result (λ _. text.new.bytes.items ≡ text.old.bytes.items ++ name_choices field) }
{
    for code in 0..field.codes() {
        add_code_name(text, field, code as u8)?;
    }
    Ok(())
}

/// Appends what a field can be set to.
fn add_field(text: &mut String, field: Field) -> Result<(), AllocError>
    ensures { IfOk result (λ _. text.new.bytes.items ≡ text.old.bytes.items ++ field_choices field) }
{
    for under in 0..8 {
        add_codes(text, field, under)?;
    }
    add_code_names(text, field)
}

/// Appends what the fields with the name of a text `NAME=WORD` can be set to.
fn add_named(text: &mut String, fields: &[Field], setting: &str) -> Result<(), AllocError>
    ensures { IfOk result (λ _. text.new.bytes.items
        ≡ text.old.bytes.items ++ flat_map (named_choices setting.now) fields.now) }
{
    for field in fields {
        if is_named(setting, *field) {
            add_field(text, *field)?;
        }
    }
    Ok(())
}

/// Appends the names of the fields.
fn add_names(text: &mut String, fields: &[Field]) -> Result<(), AllocError>
    ensures { IfOk result (λ _. text.new.bytes.items ≡ text.old.bytes.items ++ names_of fields.now) }
{
    for field in fields {
        text.push_str(" ")?;
        text.push_str(name_of(*field))?;
    }
    Ok(())
}

/// Appends a line of what the fields with the name of a text `NAME=WORD` can be set to.
fn add_named_line(
    text: &mut String,
    head: &str,
    fields: &[Field],
    setting: &str,
) -> Result<(), AllocError>
    ensures { IfOk result (λ _. text.new.bytes.items
        ≡ text.old.bytes.items ++ (head.now ++ flat_map (named_choices setting.now) fields.now
        ++ 10 ∷ [])) }
{
    text.push_str(head)?;
    add_named(text, fields, setting)?;
    text.push_str("\n")
}

/// Appends a line of the names of the fields, followed by more names.
fn add_names_line(
    text: &mut String,
    head: &str,
    fields: &[Field],
    more: &str,
) -> Result<(), AllocError>
    ensures { IfOk result (λ _. text.new.bytes.items
        ≡ text.old.bytes.items ++ (head.now ++ names_of fields.now ++ more.now ++ 10 ∷ [])) }
{
    text.push_str(head)?;
    add_names(text, fields)?;
    text.push_str(more)?;
    text.push_str("\n")
}

/// Appends the line of the fields for one use: what those with the name of a text `NAME=WORD` can
/// be set to. If no field for either use has that name, it is the names of the fields that the line
/// has, followed by more names.
#[tactic(auto, unfolding(crate::specs::Choices::use_choices))]
fn add_use(
    text: &mut String,
    head: &str,
    fields: &[Field],
    in_line: &[Field],
    more: &str,
    setting: &str,
) -> Result<(), AllocError>
    ensures { IfOk result (λ _. text.new.bytes.items
        ≡ text.old.bytes.items ++ use_choices head.now fields.now in_line.now more.now setting.now) }
{
    if !is_known(setting) {
        return add_names_line(text, head, in_line, more);
    }
    if !has_name(fields, setting) {
        return Ok(());
    }
    add_named_line(text, head, fields, setting)
}

/// The line of what a field of four bytes can be set to.
fn wide_line(field: WideField) -> &'static str
    ensures { result.now ≡ wide_choice field }
{
    match field {
        WideField::Origin =>
            "  professional: origin= and one to four characters, the first no space\n",
        WideField::Destination => {
            "  professional: destination= and one to four characters, the first no space\n"
        }
        WideField::Local => "  professional: local= and a number below 4294967296\n",
        WideField::Time => "  professional: time= and a number below 4294967296\n",
    }
}

/// Appends the line of what a field of four bytes can be set to.
fn add_wide_line(text: &mut String, field: WideField) -> Result<(), AllocError>
    ensures { IfOk result (λ _. text.new.bytes.items ≡ text.old.bytes.items ++ wide_choice field) }
{
    text.push_str(wide_line(field))
}

/// Appends what can be set instead of a text `NAME=WORD` that sets nothing. If a field of four
/// bytes has the name, that is its words. Otherwise it is a line for each use. The line has what a
/// field with the name can be set to, or the names of the fields. Codes without a word are left
/// out.
///
/// # Errors
/// `AllocError` if there is no memory.
pub fn add_choices(text: &mut String, setting: &str) -> Result<(), AllocError>
    ensures { IfOk result (λ _. text.new.bytes.items ≡ text.old.bytes.items ++ choices setting.now) }
{
    if let Some(field) = wide_named(name_in(setting)) {
        return add_wide_line(text, field);
    }
    let in_line = &PROFESSIONAL[..LINE_FIELDS];
    add_use(
        text,
        "  professional:",
        PROFESSIONAL,
        in_line,
        WIDE_NAMES,
        setting,
    )?;
    add_use(text, "  consumer:", CONSUMER, CONSUMER, "", setting)
}
