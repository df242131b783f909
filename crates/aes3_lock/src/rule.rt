//! Which cells are allowed in a block (AES3-3; IEC 60958-1).

ghost use Rattle.std.specs.Prelude.{◌≡◌, ◌<◌};
ghost use Rattle.aes3_slot.specs.Rules.{rule, shape};
ghost use Rattle.aes3_frame.specs.Blocks.{mark_at};

use crate::begun_subframe::PREAMBLE_CELLS;
use aes3_level::Level;
use aes3_slot::{Mark, SUBFRAME_CELLS, mark_cells, mark_of};

/// Cell `k` of a preamble after the level `before`.
fn preamble_cell(mark: Mark, k: u64, before: Level) -> Level
    requires { k < 8 }
    ensures { result ≡ shape mark k before }
{
    if (mark_cells(before, mark) >> k) % 2 == 1 {
        Level::High
    } else {
        Level::Low
    }
}

/// Whether a cell is allowed at `offset` of a block, after the cell `previous` and with the level
/// `before` before its subframe.
pub(crate) fn may_stand(offset: u64, cell: Level, before: Level, previous: Level) -> bool
    ensures { result ≡ rule mark_at offset cell before previous }
{
    let k = offset % SUBFRAME_CELLS;
    if k < PREAMBLE_CELLS {
        cell == preamble_cell(mark_of(offset / SUBFRAME_CELLS), k, before)
    } else {
        offset % 2 == 1 || cell != previous
    }
}
