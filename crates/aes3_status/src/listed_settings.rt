//! The settings of several texts.

ghost use Rattle.std.specs.Prelude.{◌≡◌, None, length, map, IfOk, IfErr, IfSome};
ghost use Rattle.aes3_status.specs.NamedSettings.{AreSettingsOf, IsSetBy, IsSettingsFault, IsUnknown};
ghost use Rattle.aes3_status.specs.NamedSettings.{consumer_fields, professional_fields};
ghost use Rattle.aes3_status.specs.WideTexts.{wide_in};

use crate::named_settings::{consumer_setting, professional_setting};
use crate::setting::{SETTINGS, Setting, Settings};
use crate::wide_field::{WideField, WideSettings};
use crate::wide_text::{take_wide, wide_of};

/// How many texts a channel has at most: each may set a field for each of the two uses.
pub const TEXTS: usize = SETTINGS / 2;

/// Why texts have no settings.
#[derive(Clone, Copy)]
pub enum SettingsFault {
    /// Text number `at`, counted from 0, is the first one that sets nothing.
    Unknown { at: usize },
    /// There are more than 32 texts.
    TooMany,
}

/// What one text sets: a field of status for each use, or a field of four bytes.
#[derive(Clone, Copy)]
struct Pair {
    professional: Setting,
    consumer: Setting,
    wide: Option<(WideField, [u8; 4])>,
}

/// What a text sets; `None` if it sets nothing.
fn pair_of(text: &str) -> Option<Pair>
    ensures known { IfSome result (λ pair. ¬ IsUnknown text.now) }
    ensures professional { IfSome result (λ pair.
        IsSetBy text.now professional_fields pair.professional) }
    ensures consumer { IfSome result (λ pair. IsSetBy text.now consumer_fields pair.consumer) }
    ensures wide { IfSome result (λ pair. pair.wide ≡ wide_in text.now) }
    ensures none { result ≡ None → IsUnknown text.now }
{
    let professional = professional_setting(text);
    let consumer = consumer_setting(text);
    let wide = wide_of(text);
    if professional.is_none() && consumer.is_none() && wide.is_none() {
        return None;
    }
    Some(Pair {
        professional: professional.unwrap_or(Setting::NOTHING),
        consumer: consumer.unwrap_or(Setting::NOTHING),
        wide,
    })
}

/// The settings of texts `NAME=WORD` as `show` prints them, in their order. Each text has two
/// places among the codes: one for the setting of professional status (AES3-2), one for that of
/// consumer status (IEC 60958-3). Of several texts for a field of four bytes the last counts.
///
/// # Errors
/// `Unknown` if `show` prints no field as this text, and it sets no field of four bytes either.
/// `TooMany` if there are more than 32 texts.
pub fn settings_of_texts(texts: &[&str]) -> Result<Settings, SettingsFault>
    ensures settings { IfOk result (AreSettingsOf (map (λ text. text.now) texts.now)) }
    ensures fault { IfErr result (IsSettingsFault (map (λ text. text.now) texts.now)) }
{
    if texts.len() > TEXTS {
        return Err(SettingsFault::TooMany);
    }
    let mut settings = Settings {
        codes: [Setting::NOTHING; SETTINGS],
        wide: WideSettings::NOTHING,
    };
    for (at, text) in texts.iter().enumerate() {
        let Some(pair) = pair_of(text) else {
            return Err(SettingsFault::Unknown { at });
        };
        settings.codes[2 * at] = pair.professional;
        settings.codes[2 * at + 1] = pair.consumer;
        take_wide(&mut settings.wide, pair.wide);
    }
    Ok(settings)
}
