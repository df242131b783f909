//! Block files in the forms of other programs: the words of subframes in ALSA and AM824.
#![tactic(auto)]

/// A word in a form.
mod alsa_am824;
/// The laws of these forms.
pub mod laws;
/// Octets of many words.
mod word_octets;

pub use alsa_am824::Words;
pub use word_octets::write_words;
