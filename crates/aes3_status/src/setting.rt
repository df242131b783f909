//! Codes for the fields of channel status.

ghost use Rattle.std.specs.Prelude.{◌≡◌};
ghost use Rattle.aes3_status.specs.Settings.{code_for, set_all, set_by, set_in_turn};

use crate::field::{ConField, Field, put_code};
use crate::wide_field::{WideSettings, set_wide};

/// How many settings a channel has at most.
pub const SETTINGS: usize = 64;

/// A field and the code that it is set to.
#[derive(Clone, Copy, PartialEq, Eq)]
pub struct Setting {
    /// The field.
    pub field: Field,
    /// The code that it is set to, for each value of the number that determines what its codes
    /// mean. For the sample word length, that number is the use of the auxiliary bits in
    /// professional status, and the greatest length in consumer status. For the emphasis in
    /// consumer status, it is what the sample words carry. For every other field it is 0. `None`
    /// leaves the field unchanged.
    pub codes: [Option<u8>; 8],
}

impl Setting {
    ghost use Rattle.aes3_status.specs.Settings.{has_any_code};

    /// A setting that leaves every status unchanged.
    pub const NOTHING: Setting = Setting {
        field: Field::Consumer(ConField::Payload),
        codes: [None; 8],
    };

    /// Whether it has a code for some status.
    pub(crate) fn has_any_code(&self) -> bool
        ensures { result ≡ has_any_code self.now }
    {
        self.codes.iter().any(Option::is_some)
    }
}

/// The settings of a channel status: codes for fields within a byte, one after the other, and then
/// values for its fields of four bytes.
#[derive(Clone, Copy, PartialEq, Eq)]
pub struct Settings {
    /// The codes; unused ones are `Setting::NOTHING`.
    pub codes: [Setting; SETTINGS],
    /// The values for the fields of four bytes.
    pub wide: WideSettings,
}

/// The code that a setting has for a status.
#[inline(always)]
pub(crate) fn code_for(bytes: &[u8; 24], setting: &Setting) -> Option<u8>
    ensures { result ≡ code_for setting.now bytes.now }
{
    if setting.field.is_for(bytes) {
        setting.codes[usize::from(setting.field.under(bytes))]
    } else {
        None
    }
}

/// Writes the setting's code to its field, and leaves all other bits unchanged. A status for
/// another use than the field's is unchanged, and so is one that the setting has no code for.
#[inline(always)]
pub(crate) fn set_field(bytes: &mut [u8; 24], setting: &Setting)
    ensures { bytes.new ≡ set_by setting.now bytes.old }
{
    match code_for(bytes, setting) {
        Some(code) => put_code(bytes, setting.field.place(), code),
        None => {}
    }
}

/// Writes one code after the other.
fn set_codes(bytes: &mut [u8; 24], settings: &[Setting; SETTINGS])
    ensures { bytes.new ≡ set_in_turn settings.now bytes.old }
{
    for setting in settings {
        set_field(bytes, setting);
    }
}

/// Writes the codes one after the other, and then the fields of four bytes, which only professional
/// status has.
#[tactic(auto, unfolding(crate::specs::Settings::set_all))]
pub fn set_fields(bytes: &mut [u8; 24], settings: &Settings)
    ensures { bytes.new ≡ set_all settings.now bytes.old }
{
    set_codes(bytes, &settings.codes);
    set_wide(bytes, &settings.wide);
}
