//! Whether a status takes all settings.

ghost use Rattle.std.specs.Prelude.{◌≡◌, ◌<◌};
ghost use Rattle.aes3_status.specs.TakingAll.{asks_wide, takes_all, text_taken, texts_taken};

use crate::listed_settings::TEXTS;
use crate::setting::Settings;
use crate::taken::Taken;
use crate::wide_field::WideSettings;

/// Whether a field of four bytes is set.
fn asks_wide(wide: &WideSettings) -> bool
    ensures { result ≡ asks_wide wide.now }
{
    wide.origin.is_some() | wide.destination.is_some() | wide.local.is_some() | wide.time.is_some()
}

/// Whether one of the two settings of a text was taken, or neither has any code.
fn is_text_taken(settings: &Settings, taken: &Taken, text: usize) -> bool
    requires { text < 32 }
    ensures { result ≡ text_taken settings.now taken.now text }
{
    let either = settings.codes[2 * text].has_any_code()
        | settings.codes[2 * text + 1].has_any_code();
    taken.codes[2 * text] | taken.codes[2 * text + 1] | !either
}

/// Whether this holds for each text.
fn are_texts_taken(settings: &Settings, taken: &Taken) -> bool
    ensures { result ≡ texts_taken settings.now taken.now }
{
    let mut all = true;
    for text in 0..TEXTS {
        all &= is_text_taken(settings, taken, text);
    }
    all
}

/// Whether a status takes all settings: for each text one of the two, if they have any code, and
/// the fields of four bytes, if one of them is set.
pub fn takes_all(status: &[u8; 24], settings: &Settings) -> bool
    ensures { result ≡ takes_all settings.now status.now }
{
    let mut taken = Taken::NOTHING;
    taken.add(status, settings);
    are_texts_taken(settings, &taken) & (taken.wide | !asks_wide(&settings.wide))
}
