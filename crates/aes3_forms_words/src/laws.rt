//! Laws of words in other forms: the contract of each function is a law over all words or lists.

ghost use Rattle.aes3_forms_words.specs.Laws.{OnlyRightAreLawful, WrittenAreRead, WrittenHaveCodes};

/// Words that have 0 in bits 0 to 3 are written in a form and read back unchanged.
pub fn written_are_read()
    ensures { WrittenAreRead }
{}

/// A word is written with the code of its place.
pub fn written_have_codes()
    ensures { WrittenHaveCodes }
{}

/// A word with the code of its place, or 0 for ALSA, is read as a valid word of a block file. A
/// word with another code is read as an invalid one.
pub fn only_right_are_lawful()
    ensures { OnlyRightAreLawful }
{}
