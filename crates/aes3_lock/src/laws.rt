//! Laws over the definitions alone: what reports, blocks and preambles are, whatever the cells.

/// How near candidates are to one another.
pub mod spacing;

ghost use Rattle.aes3_lock.specs.Laws.{CandidateWhereZStands, WholeWhereBlockStands};
ghost use Rattle.aes3_lock.specs.Laws.{BlockTellsLevel, MarkedWhereSubframesStand};
ghost use Rattle.aes3_lock.specs.Laws.{ViableIfEachKeeps, ViableIfFrontIsAll, FaultWhereViableEnds};
ghost use Rattle.aes3_lock.specs.Laws.{FaultWhereUnclosed, FaultWithinBlock, UnfinishedWhereViable};
ghost use Rattle.aes3_lock.specs.Laws.{DecidedAreFiltered, DecidedStand, ZStandsOnce};
ghost use Rattle.aes3_lock.specs.Laws.{BlocksNeverOverlap, BlocksAreAllStanding};
ghost use Rattle.aes3_lock.specs.Laws.{MarksAreAllStanding, MarksAreTrue, BlocksAreWhole};
ghost use Rattle.aes3_lock.specs.Laws.{StreamGivesBlocks, StreamsDiffer, NormalIsFixed};
ghost use Rattle.aes3_lock.specs.Laws.{NormalTellsBlocks};

/// What changed or lost cells leave of a valid stream.
mod damage;
/// Cells that are cut into pieces.
mod splitting;

pub use damage::{
    blocks_are_far_apart, blocks_stand_by_their_cells, changes_tell_all_blocks,
    changes_tell_the_block, few_changes_make_no_block, few_lost_cells, one_changed_cell,
    one_inserted_cell, one_lost_cell, subframes_are_balanced, two_changed_cells,
};
pub use splitting::reports_join;

/// A candidate begins exactly where preamble Z occurs, in either polarity.
pub fn candidate_where_z_stands()
    ensures { CandidateWhereZStands }
{}

/// A candidate is whole exactly if a closed block begins there. Its report has that block and the
/// level before it.
pub fn whole_where_a_block_stands()
    ensures whole { WholeWhereBlockStands }
    ensures level { BlockTellsLevel }
{}

/// A candidate is marked exactly if the closed subframes of a block begin there and some have a
/// wrong parity bit. Its report has their number.
pub fn marked_where_subframes_stand()
    ensures { MarkedWhereSubframesStand }
{}

/// Cells begin the subframes of a block, with right or wrong parity bits, exactly if each of them
/// keeps the rule of its place.
pub fn viable_if_each_cell_keeps_its_rule()
    ensures each { ViableIfEachKeeps }
    ensures front { ViableIfFrontIsAll }
{}

/// The fault of a candidate is the first cell with which its cells begin no block. It is the cell
/// after a block exactly if all subframes of a block are there and that cell does not close it.
pub fn fault_where_no_block_begins()
    ensures first { FaultWhereViableEnds }
    ensures unclosed { FaultWhereUnclosed }
    ensures within { FaultWithinBlock }
{}

/// A candidate is unfinished exactly if all its cells begin a block and are too few for it. Its
/// report has their number.
pub fn unfinished_where_cells_end()
    ensures { UnfinishedWhereViable }
{}

/// The decided reports are all but the unfinished one and that of a block that only the end closes.
/// Whatever cells follow, the reports begin with the decided ones.
pub fn decided_reports_stand()
    ensures filtered { DecidedAreFiltered }
    ensures stand { DecidedStand }
{}

/// In eight or more cells that begin the subframes of a block, preamble Z occurs at their start and
/// nowhere else, in either polarity.
pub fn preamble_stands_once()
    ensures { ZStandsOnce }
{}

/// Two closed blocks in one list of cells never overlap.
pub fn blocks_never_overlap()
    ensures { BlocksNeverOverlap }
{}

/// The blocks of cells are all closed blocks in them, each once, in order of place.
pub fn blocks_are_all_that_stand()
    ensures { BlocksAreAllStanding }
{}

/// The preambles of cells are all that occur in them, each once, in order of place.
pub fn marks_are_all_that_stand()
    ensures { MarksAreAllStanding }
{}

/// In every piece of a valid stream the preambles are its true ones and no others.
pub fn marks_are_true()
    ensures { MarksAreTrue }
{}

/// In every piece of a valid stream the blocks are those that lie whole in it, in order.
pub fn blocks_are_whole()
    ensures { BlocksAreWhole }
{}

/// The blocks of a valid stream are those that it was made of. So different lists of blocks have
/// different streams.
pub fn stream_gives_its_blocks()
    ensures blocks { StreamGivesBlocks }
    ensures differ { StreamsDiffer }
{}

/// A normal stream is its own normal stream. Two lists of cells have the same normal stream exactly
/// if they have the same blocks.
pub fn normal_tells_the_blocks()
    ensures fixed { NormalIsFixed }
    ensures blocks { NormalTellsBlocks }
{}
