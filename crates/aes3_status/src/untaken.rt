//! Settings that no block took.

ghost use Rattle.std.specs.Prelude.{◌≡◌, ◌<◌};
ghost use Rattle.std.specs.Option.{option_map};
ghost use Rattle.aes3_status.specs.Untaken.{is_taken, remedy, untaken_remedy};

use crate::listed_settings::TEXTS;
use crate::setting::Settings;
use crate::taken::Taken;

/// Whether a status took what text number `at` sets: one of its codes, or, if it has no codes, the
/// field of four bytes that it sets.
fn is_taken(settings: &Settings, taken: &Taken, at: usize) -> bool
    requires { at < TEXTS }
    ensures { result ≡ is_taken settings.now taken.now at }
{
    if settings.codes[2 * at].has_any_code() || settings.codes[2 * at + 1].has_any_code() {
        taken.codes[2 * at] || taken.codes[2 * at + 1]
    } else {
        taken.wide
    }
}

/// What a status lacks if it takes nothing of a text. It depends on whether the text has a code for
/// professional and for consumer use. A text with neither sets a field of four bytes, which only
/// professional status has.
fn remedy(professional: bool, consumer: bool) -> &'static str
    ensures { result.now ≡ remedy professional consumer }
{
    match (professional, consumer) {
        (true, true) =>
            ". It needs another setting first. For example, word=24 needs aux=audio (professional) or greatest=24 (consumer)\n",
        (_, false) => ": only professional status has it; set use=professional first\n",
        (false, true) => ": only consumer status has it; set use=consumer first\n",
    }
}

/// What follows text number `at` in the line which says that no status took its setting; `None` if
/// one did. Of several texts that set the same field, each is taken if a status has a code for it
/// when it is applied.
pub fn untaken_remedy(settings: &Settings, taken: &Taken, at: usize) -> Option<&'static str>
    requires { at < TEXTS }
    ensures { option_map (λ remedy. remedy.now) result ≡ untaken_remedy settings.now taken.now at }
{
    if is_taken(settings, taken, at) {
        return None;
    }
    Some(remedy(
        settings.codes[2 * at].has_any_code(),
        settings.codes[2 * at + 1].has_any_code(),
    ))
}
