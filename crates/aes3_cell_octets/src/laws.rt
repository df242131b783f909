//! Laws of octets in other forms: the contract of each function is a law over all lists.

ghost use Rattle.aes3_cell_octets.specs.Laws.{RawArePacked, RawAreReversed, ReversedAreRead, ReversedHaveCells};
ghost use Rattle.aes3_cell_octets.specs.Laws.{ReversedTwice, WholeAreReversed};

/// Raw octets are read as packed cells if the last octet follows them, and these are exactly their
/// cells.
pub fn raw_are_packed()
    ensures { RawArePacked }
{}

/// Octets with reversed bits have the cells that they had with the first one in the lowest bit.
pub fn reversed_have_cells()
    ensures { ReversedHaveCells }
{}

/// Whole octets of cells can all be reversed, together with the last octet.
pub fn whole_are_reversed()
    ensures { WholeAreReversed }
{}

/// Packed cells with the first cell of each octet in the lowest bit are read, through a
/// [`crate::ReversedSource`], as exactly their cells. Nothing else is read as cells.
pub fn reversed_are_read()
    ensures { ReversedAreRead }
{}

/// All raw octets with the first cell in the lowest bit are reversed.
pub fn raw_are_reversed()
    ensures { RawAreReversed }
{}

/// Octets reversed twice are unchanged: what a [`crate::ReversedSink`] took is what it passed on,
/// reversed.
pub fn reversed_twice()
    ensures { ReversedTwice }
{}
