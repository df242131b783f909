//! Fields of channel status by their names.

ghost use Rattle.std.specs.Prelude.{◌≡◌, ◌≢◌, ◌≤◌};
ghost use Rattle.std.specs.Str.{IsUtf8};
ghost use Rattle.aes3_status.specs.NamedSettings.{IsUnknown};
ghost use Rattle.aes3_c.specs.Setting.{IsRefused, WasSet};

use aes3_status::{set_fields, settings_of_texts, takes_all};

/// The status has the field.
const DONE: u8 = 0;

/// No field is printed as the text.
const UNKNOWN: u8 = 1;

/// The status does not take the setting.
const REFUSED: u8 = 2;

/// Sets the field of a channel status that `show` prints as this text, `NAME=WORD`, as `--set` of the
/// program does. Returns 0, or else why the status is as it was: 1 if no field has this text, 2 if the
/// status has no code for it.
#[unsafe(no_mangle)]
pub extern "C" fn aes3_status_set(status: &mut [u8; 24], text: &[u8]) -> u8
    ensures within { result ≤ 2 }
    ensures done { result ≡ 0 → WasSet text.now status.old status.new }
    ensures unknown { result ≡ 1 → IsUtf8 text.now → IsUnknown text.now }
    ensures refused { result ≡ 2 → IsRefused text.now status.old }
    ensures unchanged { result ≢ 0 → status.new ≡ status.old }
{
    let Ok(text) = str::from_utf8(text) else {
        return UNKNOWN;
    };
    let Ok(settings) = settings_of_texts(&[text]) else {
        return UNKNOWN;
    };
    if !takes_all(status, &settings) {
        return REFUSED;
    }
    set_fields(status, &settings);
    DONE
}
