//! Texts of the fields of professional channel status that are four whole bytes.

ghost use Rattle.std.specs.Prelude.{◌≡◌, ◌≤◌, get_or, length};
ghost use Rattle.std.specs.List.{list_all};
ghost use Rattle.aes3_status.specs.WideTexts.{address_in, characters_in, four_in, is_character, is_label};
ghost use Rattle.aes3_status.specs.WideTexts.{is_printable, padded, wide_in};
ghost use Rattle.aes3_status.specs.WideTexts.{wide_named, with_wide};

use crate::wide_field::{WideField, WideSettings};

/// How many bytes a field has.
const FIELD_BYTES: usize = 4;

/// Whether the byte is a character from space to `~`.
fn is_printable(byte: &u8) -> bool
    ensures { result ≡ is_printable byte.now }
{
    byte.is_ascii_graphic() || *byte == b' '
}

/// Whether all these bytes are.
fn are_printable(word: &[u8]) -> bool
    ensures { result ≡ list_all is_printable word.now }
{
    word.iter().all(is_printable)
}

/// Whether these bytes begin with a character from `!` to `~`.
fn begins_graphic(word: &[u8]) -> bool
    ensures { result ≡ is_character (get_or word.now 0 32) }
{
    match word.first() {
        Some(first) => first.is_ascii_graphic(),
        None => false,
    }
}

/// Whether these bytes are one to four characters, the first not a space.
fn is_label(word: &[u8]) -> bool
    ensures { result ≡ is_label word.now }
{
    (word.len() <= FIELD_BYTES) & begins_graphic(word) & are_printable(word)
}

/// These characters, padded with spaces.
fn padded(word: &[u8]) -> [u8; FIELD_BYTES]
    requires { length word.now ≤ FIELD_BYTES }
    ensures { result ≡ padded word.now }
{
    let mut characters = [b' '; FIELD_BYTES];
    characters[..word.len()].copy_from_slice(word);
    characters
}

/// The four characters of a word of one to four, which may contain spaces: it is padded with
/// spaces.
fn characters_of(word: &str) -> Option<[u8; FIELD_BYTES]>
    ensures { result ≡ characters_in word.now }
{
    let word = word.as_bytes();
    if is_label(word) {
        Some(padded(word))
    } else {
        None
    }
}

/// The four bytes of the number that a word represents, the lowest first.
fn address_of(word: &str) -> Option<[u8; 4]>
    ensures { result ≡ address_in word.now }
{
    match word.parse::<u32>() {
        Ok(number) => Some(number.to_le_bytes()),
        Err(_) => None,
    }
}

/// The field of this name.
pub(crate) fn wide_named(name: &str) -> Option<WideField>
    ensures { result ≡ wide_named name.now }
{
    match name {
        "origin" => Some(WideField::Origin),
        "destination" => Some(WideField::Destination),
        "local" => Some(WideField::Local),
        "time" => Some(WideField::Time),
        _ => None,
    }
}

/// The four bytes of a word for a field.
fn four_of(field: WideField, word: &str) -> Option<[u8; 4]>
    ensures { result ≡ four_in field word.now }
{
    match field {
        WideField::Origin | WideField::Destination => characters_of(word),
        WideField::Local | WideField::Time => address_of(word),
    }
}

/// The field that a text `NAME=WORD` names, and the four bytes of its word: characters as they are,
/// or the number of 32 bits of an address, lowest byte first (AES3-2, bytes 6 to 21).
pub(crate) fn wide_of(text: &str) -> Option<(WideField, [u8; 4])>
    ensures { result ≡ wide_in text.now }
{
    let (name, word) = text.split_once('=')?;
    let field = wide_named(name)?;
    let four = four_of(field, word)?;
    Some((field, four))
}

/// Takes what a text sets, in place of what earlier texts set in the same field.
pub(crate) fn take_wide(wide: &mut WideSettings, set: Option<(WideField, [u8; 4])>)
    ensures { wide.new ≡ with_wide set wide.old }
{
    let Some(set) = set else {
        return;
    };
    let four = set.1;
    match set.0 {
        WideField::Origin => wide.origin = Some(four),
        WideField::Destination => wide.destination = Some(four),
        WideField::Local => wide.local = Some(four),
        WideField::Time => wide.time = Some(four),
    }
}
