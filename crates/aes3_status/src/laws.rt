//! Laws of the check byte, of setting fields and of what is printed of them, each the contract of a
//! function.

ghost use Rattle.aes3_status.specs.Laws.{OneFlipIsFound, TwoFlipsAreFound, WeightsArePowers};
ghost use Rattle.aes3_status.specs.NamedSettings.{LineShowsFields, OtherWordsStay};
ghost use Rattle.aes3_status.specs.SettingLaws.{CodeIsReadBack, MeaningStays, OnlyItsBitsChange};
ghost use Rattle.aes3_status.specs.SettingLaws.{OtherCodesStay, OtherFieldsStay, OtherMeaningsStay};
ghost use Rattle.aes3_status.specs.SettingLaws.{SettingIsReadBack, UseStays};
ghost use Rattle.aes3_status.specs.StatusTexts.{UseIsShown};
ghost use Rattle.aes3_status.specs.Taken.{UntakenCanGo};
ghost use Rattle.aes3_status.specs.Wide.{OtherBytesStay, WideIsReadBack};
ghost use Rattle.aes3_status.specs.WideShown.{FullLabelsStay, LastTextCounts, WideIsShown, WideTextsAreFours};

/// The check finds one or two inverted bits, wherever they are.
pub fn flips_are_found()
    ensures one { OneFlipIsFound }
    ensures two { TwoFlipsAreFound }
{}

/// Each bit weighs x times the next modulo the generator, and the last weighs 1.
pub fn weights_are_powers()
    ensures { WeightsArePowers }
{}

/// A code that is written to a field changes only the bits of the field. It is read back, and every
/// other field is unchanged.
pub fn codes_are_read_back()
    ensures bits { OnlyItsBitsChange }
    ensures code { CodeIsReadBack }
    ensures others { OtherFieldsStay }
{}

/// A setting never changes what determines the meaning of its field's codes. It changes the use of
/// a status only if the use is its field. If it has a code for the status, the field then has that
/// code.
pub fn settings_are_read_back()
    ensures use_stays { UseStays }
    ensures meaning { MeaningStays }
    ensures code { SettingIsReadBack }
{}

/// No two fields of a status have a bit in common, but byte 4 as a whole and the sampling frequency
/// in it. So a setting leaves the code of every other field unchanged. It also leaves unchanged
/// what determines the meaning of these codes, unless that is the field that it sets.
pub fn fields_are_apart()
    ensures codes { OtherCodesStay }
    ensures meanings { OtherMeaningsStay }
{}

/// The values that the fields of four bytes are set to are read back from professional status. All
/// other bytes are unchanged.
pub fn wide_fields_are_read_back()
    ensures fields { WideIsReadBack }
    ensures others { OtherBytesStay }
{}

/// A setting that a status does not take changes nothing: the other settings alone give the same
/// status.
pub fn untaken_settings_can_go()
    ensures { UntakenCanGo }
{}

/// The line of a channel status consists of what is printed for each field that can be set, in
/// order, and for the other fields.
pub fn line_shows_fields()
    ensures { LineShowsFields }
{}

/// What is printed for a channel status begins with the word by which its use is set.
pub fn use_is_shown()
    ensures { UseIsShown }
{}

/// Setting a field by name leaves what is printed for every other field unchanged, unless the field
/// determines what the other's codes mean.
pub fn other_words_stay()
    ensures { OtherWordsStay }
{}

/// A field of four bytes that a text sets is printed as that text, padded to four characters, with
/// a `.` for each space. A number is printed as its decimal digits. Of several texts for a field
/// the last counts.
pub fn wide_texts_are_shown()
    ensures four { WideTextsAreFours }
    ensures last { LastTextCounts }
    ensures shown { WideIsShown }
    ensures full { FullLabelsStay }
{}
