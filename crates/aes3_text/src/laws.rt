//! Laws that connect the blocks given of changed cells with the check of a channel status. Other
//! laws are about the lines that report changes of status.

ghost use Rattle.aes3_text.specs.ChangeLaws.{ChangesAreNew, LinesAreOfEach};
ghost use Rattle.aes3_text.specs.DetailLaws.{DetailIsBehind, PlainIsChange, PlainIsStatus};
ghost use Rattle.aes3_text.specs.Laws.{ExchangedStatusIsFound};

/// If two changed cells leave a block and change a channel status whose check was good, its check
/// is then not good. In such a block the bits of two slots are inverted.
pub fn changed_status_is_found()
    ensures { ExchangedStatusIsFound }
{}

/// The lines that `show_changes` writes for blocks are those lines of `show` that are new. A line
/// is new unless its status is that of the same channel in the block before.
pub fn changes_are_new()
    ensures each { LinesAreOfEach }
    ensures new { ChangesAreNew }
{}

/// Without detail, the lines of `show_detail` and of `show_changes` depend on the blocks alone. Any
/// detail comes after the plain line, before its line feed.
pub fn details_stand_behind()
    ensures status { PlainIsStatus }
    ensures change { PlainIsChange }
    ensures behind { DetailIsBehind }
{}
