//! The words of codes that are numbers in a line of channel status (AES3-2, IEC 60958-3).

ghost use Rattle.std.specs.Prelude.{◌≡◌, ◌≤◌, ◌+◌, ◌*◌, ◌++◌, length};
ghost use Rattle.aes3_status.specs.Names.{name_of, name_text};
ghost use Rattle.aes3_status.specs.NamedSettings.{consumer_fields, professional_fields};
ghost use Rattle.aes3_status.specs.StatusTexts.{names_in, names_text};

use crate::tail::{TAIL_LEN, Tail};
use aes3_status::{Con, ConField, Field, Pro, ProField, Status, name_of, name_of_code};

/// How many bytes the name of a field whose codes have words has at most.
const NAME_LEN: usize = 8;

/// How many bytes a field has at most.
const FIELD_LEN: usize = 30;

/// Puts the word of a code before the text, as a field, if it has one.
fn put_name(text: &mut Tail, field: Field, code: u8)
    requires name { length (name_of field) ≤ NAME_LEN }
    requires space { length text.old + FIELD_LEN ≤ TAIL_LEN }
    ensures name { text.new ≡ name_text field code ++ text.old }
    ensures len { length text.new ≤ length text.old + FIELD_LEN }
{
    if let Some(word) = name_of_code(field, code) {
        text.word(word);
        text.text(b"=");
        text.word(name_of(field));
        text.text(b" ");
    }
}

/// Puts the words of codes for professional use before the text (AES3-2).
fn put_professional_names(text: &mut Tail, status: &Pro)
    requires { length text.old + 3 * FIELD_LEN ≤ TAIL_LEN }
    ensures { text.new ≡ names_in professional_fields status.now ++ text.old }
{
    put_name(
        text,
        Field::Professional(ProField::Frequency),
        status.frequency(),
    );
    put_name(text, Field::Professional(ProField::Mode), status.mode());
}

/// Puts the words of codes for consumer use before the text (IEC 60958-3).
fn put_consumer_names(text: &mut Tail, status: &Con)
    requires { length text.old + 3 * FIELD_LEN ≤ TAIL_LEN }
    ensures { text.new ≡ names_in consumer_fields status.now ++ text.old }
{
    put_name(text, Field::Consumer(ConField::Original), status.original());
    put_name(text, Field::Consumer(ConField::Rate), status.rate());
    put_name(text, Field::Consumer(ConField::Category), status.category());
}

/// Puts the words of a status's codes that are numbers in its line before the text.
#[tactic(auto, unfolding(aes3_status::specs::StatusTexts::names_text))]
pub(crate) fn put_names(text: &mut Tail, status: &[u8; 24])
    requires { length text.old + 3 * FIELD_LEN ≤ TAIL_LEN }
    ensures { text.new ≡ names_text status.now ++ text.old }
{
    match Status::read(status) {
        Status::Professional(fields) => put_professional_names(text, &fields),
        Status::Consumer(fields) => put_consumer_names(text, &fields),
    }
}
