//! Settings as typed.

ghost use Rattle.std.specs.Prelude.{◌≡◌, map, take};
ghost use Rattle.aes3_status.specs.Untaken.{texts_of};

use crate::listed_settings::TEXTS;
use arrayvec::ArrayVec;

/// The texts that set fields of each channel, as typed, in their order.
#[derive(Drop)]
pub struct TypedSettings<'a> {
    /// The texts of channel 1.
    pub first: ArrayVec<&'a str, TEXTS>,
    /// The texts of channel 2.
    pub second: ArrayVec<&'a str, TEXTS>,
}

impl<'a> TypedSettings<'a> {
    /// These texts of channel 1 and of channel 2, the first 32 of each channel.
    pub fn new(first: &[&'a str], second: &[&'a str]) -> Self
        ensures first { texts_of result.first ≡ take 32 (map (λ text. text.now) first.now) }
        ensures second { texts_of result.second ≡ take 32 (map (λ text. text.now) second.now) }
    {
        TypedSettings {
            first: keep_texts(first),
            second: keep_texts(second),
        }
    }
}

/// The first 32 texts.
fn keep_texts<'a>(texts: &[&'a str]) -> ArrayVec<&'a str, TEXTS>
    ensures { texts_of result ≡ take 32 (map (λ text. text.now) texts.now) }
{
    let mut kept = ArrayVec::new();
    let _ = kept.try_extend_from_slice(&texts[..TEXTS.min(texts.len())]);
    kept
}
