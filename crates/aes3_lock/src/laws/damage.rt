//! Laws of damage: how far apart the cells of blocks are, and what changed or lost cells leave of a
//! valid stream.
ghost use Rattle.aes3_lock.specs.DistanceLaws.{BlocksAreApart, BlocksStandByTheirCells};
ghost use Rattle.aes3_lock.specs.DistanceLaws.{ExchangedHasTheseCells, FarAfterOtherLevel};
ghost use Rattle.aes3_lock.specs.DistanceLaws.{FarFromTheOtherLevel, FarWhereNoBlockBegins};
ghost use Rattle.aes3_lock.specs.DistanceLaws.{FarWhereNoFrameBegins, NearestAreExchanged};
ghost use Rattle.aes3_lock.specs.DistanceLaws.{OddChangesTakeTheBlock, SubframesAreBalanced};
ghost use Rattle.aes3_lock.specs.FrameLaws.{BlocksAreAllLeft, ChangesTellAllBlocks};
ghost use Rattle.aes3_lock.specs.FrameLaws.{ChangesTellTheFrame};
ghost use Rattle.aes3_lock.specs.LossLaws.{LossesChangeNoBlock, LossesGiveNoOther};
ghost use Rattle.aes3_lock.specs.DamageLaws.{ChangeEndsCandidate, ChangeIsReported};
ghost use Rattle.aes3_lock.specs.DamageLaws.{ChangeLeavesTheOthers, ChangesLeaveTheOthers};
ghost use Rattle.aes3_lock.specs.DamageLaws.{ChangesMakeNoBlockElsewhere, ChangesTellTheBlock};
ghost use Rattle.aes3_lock.specs.DamageLaws.{FewChangesMakeNoBlock, InsertionLeavesTheOthers};
ghost use Rattle.aes3_lock.specs.DamageLaws.{LossLeavesTheOthers, SlipsAreNotBridged};
ghost use Rattle.aes3_lock.specs.DamageLaws.{TwoChangesLeaveTheOthers};

/// If no block of a valid stream begins at a place, its cells there differ from those of every
/// block in at least 4 cells. If no frame begins there, or after the other level, they differ in at
/// least 384. Two blocks after the same level differ in 2 cells next to each other between two
/// slots, or in more.
pub fn blocks_are_far_apart()
    ensures other_place { FarWhereNoBlockBegins }
    ensures off_frames { FarWhereNoFrameBegins }
    ensures stream_level { FarFromTheOtherLevel }
    ensures other_level { FarAfterOtherLevel }
    ensures other_block { BlocksAreApart }
    ensures nearest { NearestAreExchanged }
    ensures exchanged { ExchangedHasTheseCells }
{}

/// Half of the 64 cells of a subframe are high. So an odd number of changed cells in a block always
/// destroys it, wherever they are.
pub fn subframes_are_balanced()
    ensures balanced { SubframesAreBalanced }
    ensures odd { OddChangesTakeTheBlock }
{}

/// If few cells of a piece of a valid stream change, no block is given at a place where none began.
/// Each block of the piece is given as the changed cells in it and directly after it leave it.
pub fn few_changes_make_no_block()
    ensures blocks { FewChangesMakeNoBlock }
    ensures frames { ChangesMakeNoBlockElsewhere }
    ensures left { ChangesLeaveTheOthers }
{}

/// If any cells of a closed block change, or the cell after it, two things can be there after the
/// same level. If the changed cells are pairs between two slots, it is the closed block with the
/// bits of these slots inverted. Otherwise there is no closed block.
pub fn changes_tell_the_block()
    ensures { ChangesTellTheBlock }
{}

/// If any cells of a piece of a valid stream change, a frame begins a closed block exactly if the
/// changed cells leave one there. These are the cells in which its preambles are not the stream's,
/// and pairs between two slots. If at most 383 cells change, there is no closed block anywhere
/// else.
pub fn changes_tell_all_blocks()
    ensures frames { ChangesTellTheFrame }
    ensures blocks { ChangesTellAllBlocks }
    ensures given { BlocksAreAllLeft }
{}

/// A closed block stays whatever happens to cells that are neither its own nor directly after it.
pub fn blocks_stand_by_their_cells()
    ensures { BlocksStandByTheirCells }
{}

/// One changed cell destroys the block that holds it and the one that ends directly before it, and
/// no other. The report of the first covers the change, or there is none.
pub fn one_changed_cell()
    ensures blocks { ChangeLeavesTheOthers }
    ensures reported { ChangeIsReported }
    ensures unreported { ChangeEndsCandidate }
{}

/// Two changed cells destroy the blocks that hold one of them or end directly before one, and no
/// other. Two cells between slots leave a block with the bits of these slots inverted.
pub fn two_changed_cells()
    ensures { TwoChangesLeaveTheOthers }
{}

/// One lost cell destroys the block that held it, and no other. No block is given across lost or
/// inserted cells, with three exceptions. They are a slip by whole subframes, one in the block's
/// first eight cells, and one in its last subframe.
pub fn one_lost_cell()
    ensures blocks { LossLeavesTheOthers }
    ensures slips { SlipsAreNotBridged }
{}

/// If two or three cells are lost, no block is changed: each block that is given was in the piece.
/// A block after the lost cells can be given even if one of its first cells is lost. This is so if
/// a cell before it takes that cell's place.
pub fn few_lost_cells()
    ensures stood { LossesChangeNoBlock }
    ensures blocks { LossesGiveNoOther }
{}

/// One cell inserted into an uncut valid stream destroys the block that it is inserted into, or
/// that it doesn't close, and no other. In the first run of a preamble it only makes the run
/// longer, and destroys none.
pub fn one_inserted_cell()
    ensures { InsertionLeavesTheOthers }
{}
