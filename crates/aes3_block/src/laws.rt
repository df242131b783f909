//! Laws of blocks, of their file form and of their channel status: the contract of each function is
//! a law over all blocks.

ghost use Rattle.aes3_block.specs.Laws.{BlocksHaveOneLength, BlocksKeepTheLevel, CellsTellTheBlock};
ghost use Rattle.aes3_block.specs.Laws.{StreamTellsTheBlocks, StreamsJoin};
ghost use Rattle.aes3_block.specs.Laws.{FilesReadBack, FilesAreOfBlocks, ReaderAnswersBlocks};
ghost use Rattle.aes3_block.specs.Laws.{ReaderAcceptsBlockFiles, StatusBitsAreOfFrames};
ghost use Rattle.aes3_block.specs.Laws.{StatusReadsBack, StatusMayStay, OnlyStatusChanges};

/// A block has 24,576 cells, and the last of them has the level before the first.
pub fn cells_of_blocks()
    ensures count { BlocksHaveOneLength }
    ensures level { BlocksKeepTheLevel }
{}

/// Cells determine the level before them and the block whose cells they are.
pub fn cells_tell_the_block()
    ensures { CellsTellTheBlock }
{}

/// The cells of blocks one after the other are those of each block after the same level, and
/// determine the blocks.
pub fn streams_of_blocks()
    ensures joined { StreamsJoin }
    ensures told { StreamTellsTheBlocks }
{}

/// What is written as a block file is read back as the same blocks. Nothing else is a block file.
pub fn files_of_blocks()
    ensures back { FilesReadBack }
    ensures only { FilesAreOfBlocks }
{}

/// A reader that is fed bytes returns their whole blocks. It accepts the bytes of a block file and
/// no others.
pub fn blocks_read()
    ensures blocks { ReaderAnswersBlocks }
    ensures accepted { ReaderAcceptsBlockFiles }
{}

/// Bit `i % 8` of byte `i / 8` of a channel's status is that channel's C bit in frame `i`.
pub fn status_by_frames()
    ensures { StatusBitsAreOfFrames }
{}

/// A status that is set is read back, setting the status that was read changes nothing, and nothing
/// but the status changes.
pub fn status_set()
    ensures back { StatusReadsBack }
    ensures stays { StatusMayStay }
    ensures only { OnlyStatusChanges }
{}
