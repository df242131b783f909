//! Laws of the written forms of cells: the contract of each function is a law over all lists.

ghost use Rattle.aes3_cell.specs.Laws.{TextReadsBack, PackedReadsBack, PackedIsTested};
ghost use Rattle.aes3_cell.specs.Laws.{TextReaderAnswersCells, PackedReaderAnswersCells};
ghost use Rattle.aes3_cell.specs.Laws.{WritersWriteCells};

/// Whole lines of cells written as text and read again are the same.
pub fn text_reads_back()
    ensures { TextReadsBack }
{}

/// Cells packed and read again are the same, in any number.
pub fn packed_reads_back()
    ensures { PackedReadsBack }
{}

/// Octets can be read as packed cells exactly if they pack some cells, and these are the cells
/// read.
pub fn packed_is_tested()
    ensures { PackedIsTested }
{}

/// `CellText`, fed bytes one by one, returns their cells up to the first byte that is not allowed,
/// and rejects that byte.
pub fn text_fed_by_bytes()
    ensures { TextReaderAnswersCells }
{}

/// `PackedIn`, fed packed octets one by one and then the end, returns their cells.
pub fn packed_fed_by_octets()
    ensures { PackedReaderAnswersCells }
{}

/// `TextOut` and `PackedOut`, given cells one by one, write these cells; `PackedOut` is also given
/// the end.
pub fn cells_put_one_by_one()
    ensures { WritersWriteCells }
{}
