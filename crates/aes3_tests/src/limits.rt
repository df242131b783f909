//! The limits of the laws of damage: cells for which a law would be false if it said more.
ghost use Rattle.std.specs.Prelude.{◌<◌};

use aes3_block::{Block, mark_of};
use aes3_cell::Level;
use aes3_lock::{Lock, Report};
use aes3_slot::slots_cells;
use std::alloc::{AllocError, Global};

/// The first two blocks that are given: their places, and whether all their bits are zero.
type Blocks = [Option<(u64, bool)>; 2];

/// Many more cells than a test has.
const MANY: u64 = 1 << 40;

fn is_zero(block: &Block) -> bool {
    for i in 0..192 {
        let frame = block.frame(i);
        if frame.first.payload() != 0 || frame.second.payload() != 0 {
            return false;
        }
    }
    true
}

/// Keeps what a report gives, if there is room.
fn keep(blocks: &mut Blocks, report: Option<Report>) {
    if let Some(Report::Whole { at, block, .. }) = report {
        let place = usize::from(blocks[0].is_some());
        if blocks[place].is_none() {
            blocks[place] = Some((at, is_zero(&block)));
        }
    }
}

/// The first two blocks that the lock gives for cells, some of which are lost.
fn blocks_of(cells: &[Level], lost: &[usize]) -> Blocks {
    let mut blocks = [None; 2];
    let mut lock = Lock::new();
    for (place, cell) in cells.iter().enumerate() {
        if lock.seen() < MANY && !lost.contains(&place) {
            let report = lock.push(*cell);
            keep(&mut blocks, report);
        }
    }
    keep(&mut blocks, lock.finish());
    blocks
}

/// The cells of two zero blocks in a row.
fn two_blocks(alloc: Global) -> Result<Vec<Level>, AllocError> {
    let mut cells = Vec::new(alloc);
    for subframe in 0..768 {
        let word = slots_cells(Level::Low, mark_of(subframe % 384), 0);
        for k in 0..64_u32 {
            cells.push(if (word >> k) & 1 == 1 {
                Level::High
            } else {
                Level::Low
            })?;
        }
    }
    Ok(cells)
}

/// Inverts a cell.
fn change(cells: &mut [Level], place: usize) {
    if let Some(cell) = cells.get_mut(place) {
        *cell = cell.flip();
    }
}

/// Whether the lock gives these blocks for two zero blocks with changed cells.
fn gives_behind_changes(alloc: Global, places: &[usize], blocks: Blocks) -> bool {
    let Ok(mut cells) = two_blocks(alloc) else {
        return false;
    };
    for place in places.iter() {
        change(&mut cells, *place);
    }
    blocks_of(&cells, &[]) == blocks
}

/// Whether the lock gives these blocks for two zero blocks with lost cells.
fn gives_behind_losses(alloc: Global, places: &[usize], blocks: Blocks) -> bool {
    match two_blocks(alloc) {
        Ok(cells) => blocks_of(&cells, places) == blocks,
        Err(_) => false,
    }
}

/// If no block of a stream begins at a place, its cells there differ from those of every block in
/// at least 4 cells. Here they differ in 4, so it is not 5. Three changed cells make no block
/// there, but four can. They are cells of two preambles: those of the first alone make no block,
/// and without changes there is none.
#[test]
fn four_changed_cells_make_a_block_elsewhere(rt: HostRuntime) {
    let unchanged = [Some((0, true)), Some((24_576, true))];
    assert!(rt; gives_behind_changes(rt.alloc(), &[], unchanged));
    let second = [Some((24_576, true)), None];
    assert!(rt; gives_behind_changes(rt.alloc(), &[132, 134], second));
    let elsewhere = [Some((128, true)), None];
    assert!(rt; gives_behind_changes(rt.alloc(), &[132, 134, 24_580, 24_582], elsewhere));
}

/// Two blocks after the same level differ in at least 2 cells. Here they differ in 2, so it is not
/// 3. Two changed cells need not destroy the block that has both: between two slots they leave
/// another block.
#[test]
fn two_changed_cells_make_another_block(rt: HostRuntime) {
    let another = [Some((0, false)), Some((24_576, true))];
    assert!(rt; gives_behind_changes(rt.alloc(), &[9, 10], another));
}

/// Changes two cells of each subframe of a block that begins with the second subframe of a frame.
fn change_many(cells: &mut [Level]) {
    for subframe in 1..385_usize {
        let start = 64 * subframe;
        change(cells, start + 5);
        // The preamble of a block has its other changed cell before that one, other preambles after
        // it.
        let at_block = subframe == 1 || subframe == 384;
        change(cells, if at_block { start + 4 } else { start + 6 });
    }
}

/// If at most 383 cells change, blocks are given only where a frame began. This does not hold for
/// any number of changes: 768 can make a block that begins with the second subframe of a frame.
#[test]
fn many_changed_cells_make_a_block_at_no_frame(rt: HostRuntime) {
    let mut cells = two_blocks(rt.alloc()).expect(&rt, "memory");
    change_many(&mut cells);
    assert!(rt; blocks_of(&cells, &[]) == [Some((64, true)), None]);
}

/// If at most three cells are lost, no block is changed. Four can change one: two cells of its last
/// subframe, which two of the next preamble replace, and two of that preamble.
#[test]
fn four_lost_cells_change_a_block(rt: HostRuntime) {
    let changed = [Some((0, false)), None];
    assert!(rt; gives_behind_losses(rt.alloc(), &[24_521, 24_522, 24_576, 24_577], changed));
}

/// If cells are lost, a block that is given began at most that many cells later. Here it is exactly
/// that many, so it is not fewer.
#[test]
fn a_block_stands_as_many_cells_later_as_are_lost(rt: HostRuntime) {
    let behind_one = [Some((24_575, true)), None];
    assert!(rt; gives_behind_losses(rt.alloc(), &[100], behind_one));
    let behind_three = [Some((24_573, true)), None];
    assert!(rt; gives_behind_losses(rt.alloc(), &[100, 200, 300], behind_three));
}
