//! The channel status of one channel in one block (AES3-2, IEC 60958-3): its 24 bytes read as
//! fields, setting fields, the check byte, and all of it as text. The text has what each code of a
//! field is printed as, and the setting that such a text selects. Also how lines are written, as a
//! command line selects it.
#![tactic(auto)]

/// What the channel status, the validity bits and the user bits of a stream are changed to.
mod change;
/// The check byte (CRCC) of professional channel status.
mod check;
/// What the fields can be set to, as text.
mod choices;
/// The words of codes that are numbers in a line.
mod code_names;
/// The fields for consumer use.
mod consumer;
/// The fields for consumer use as text.
mod consumer_text;
/// What follows a line of channel status.
mod detail;
/// The fields that a code can be written to, and their places.
mod field;
/// The places of the first status of each kind.
mod kind_places;
/// Laws of the check byte, of setting fields, and of what is printed of them.
pub mod laws;
/// A line that is being written, from its beginning.
mod line;
/// Which reports get a line.
mod lines;
/// The settings of several texts.
mod listed_settings;
/// Fields by their names, and codes by the words that `show` prints.
mod named_settings;
/// The fields for professional use.
mod professional;
/// The fields for professional use as text.
mod professional_text;
/// Codes for fields, and setting them in a status.
mod setting;
/// Channel status for either use.
mod status;
/// A channel status as it is printed: its use and its fields, and the words of their codes.
mod status_text;
/// How the lines of events are written.
mod style;
/// Which settings statuses take.
mod taken;
/// Whether a status takes all settings.
mod taking_all;
/// Settings as typed.
mod typed_settings;
/// Settings that no block took.
mod untaken;
/// The fields for professional use that have four bytes.
mod wide_field;
/// The fields that have four bytes, by their names.
mod wide_text;

pub use change::Change;
pub use check::{Check, check_byte, check_state, with_check};
pub use choices::add_choices;
pub use code_names::{name_of, name_of_code};
pub use consumer::Con;
pub use detail::Detail;
pub use field::{ConField, Field, ProField};
pub use kind_places::{KindPlaces, earlier};
pub use line::{DIGITS, LINE_LEN, Line};
pub use lines::Lines;
pub use listed_settings::{SettingsFault, TEXTS, settings_of_texts};
pub use named_settings::{consumer_setting, professional_setting};
pub use professional::Pro;
pub use setting::{SETTINGS, Setting, Settings, set_fields};
pub use status::Status;
pub use status_text::{NAME_LEN, STATUS_LEN, WORD_LEN, put_status, word_of};
pub use style::{Notation, Style};
pub use taken::{Kinds, TELLING_BITS, Taken};
pub use taking_all::takes_all;
pub use typed_settings::TypedSettings;
pub use untaken::untaken_remedy;
pub use wide_field::{WideField, WideSettings};
