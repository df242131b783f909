//! What errors do to cells, in the terms of the laws of damage, and to the reports on them.

ghost use Rattle.aes3_spoil.specs.ReportLaws.{ChangedCellIsTheFault, ChangedCellTakesItsBlocks};
ghost use Rattle.aes3_spoil.specs.ReportLaws.{ChangedPreambleEndsTheCandidate, LostCellTakesItsBlock};
ghost use Rattle.aes3_spoil.specs.EachLaws.{BiphaseErrorIsTheFault, CheckByteErrorTurnsItsBit};
ghost use Rattle.aes3_spoil.specs.EachLaws.{DoubledCellTakesItsBlock};
ghost use Rattle.aes3_spoil.specs.EachLaws.{FirstPreambleErrorEndsTheCandidate};
ghost use Rattle.aes3_spoil.specs.EachLaws.{PreambleErrorIsTheFault, WrongParityIsMarked};
ghost use Rattle.aes3_spoil.specs.EachLaws.{WrongParityMarksItsBlock};
ghost use Rattle.aes3_spoil.specs.ReadBack.{WrittenCellsAreReadBack};
ghost use Rattle.aes3_spoil.specs.SpoilLaws.{ChangedCellIsChanged, DoubledCellIsPutIn};
ghost use Rattle.aes3_spoil.specs.SpoilLaws.{InvertedCellTurnsTheRest, LostCellIsLost};
ghost use Rattle.aes3_spoil.specs.SpoilLaws.{NoErrorsNoChange};

/// The cells that a run writes up to its end are read back as the same cells, in either form and
/// any number.
pub fn written_cells_are_read_back()
    ensures { WrittenCellsAreReadBack }
{}

/// Without errors, cells are unchanged. A changed cell is changed and no other. A lost cell is
/// missing and no other. A doubled cell is inserted once more, before itself. So the laws of damage
/// say what is read from them.
pub fn spoiled_cells_are_damaged()
    ensures none { NoErrorsNoChange }
    ensures changed { ChangedCellIsChanged }
    ensures lost { LostCellIsLost }
    ensures inverted { InvertedCellTurnsTheRest }
    ensures doubled { DoubledCellIsPutIn }
{}

/// A changed cell of a block, after its first preamble, is reported as a fault of that block. The
/// fault is at this cell, or at the next cell if it is the second of a time slot. In the first
/// preamble it leaves no report of the block. The blocks that hold one changed or one lost cell, or
/// end directly before a changed one, are not given, and all others are.
pub fn one_error_is_told()
    ensures fault { ChangedCellIsTheFault }
    ensures preamble { ChangedPreambleEndsTheCandidate }
    ensures changed { ChangedCellTakesItsBlocks }
    ensures lost { LostCellTakesItsBlock }
{}

/// A biphase error in any subframe of a block is reported as a fault of that block at the error's
/// cell, with its cause. So is a preamble error in any subframe but the first; in the first it
/// leaves no report of the block. In a whole valid stream, a doubled cell destroys the block that
/// holds it and no other. If it is in the first run of the block's preamble, it destroys none.
pub fn each_error_is_told()
    ensures biphase { BiphaseErrorIsTheFault }
    ensures preamble { PreambleErrorIsTheFault }
    ensures first { FirstPreambleErrorEndsTheCandidate }
    ensures parity { WrongParityIsMarked }
    ensures reports { WrongParityMarksItsBlock }
    ensures check { CheckByteErrorTurnsItsBit }
    ensures doubled { DoubledCellTakesItsBlock }
{}
