//! The three preambles, and their cells (AES3-3; IEC 60958-1).

ghost use Rattle.std.specs.Prelude.{◌≡◌, IfSome};
ghost use Rattle.std.specs.Int.{bit_at};
ghost use Rattle.aes3_level.specs.declared.level.Level.{Level};
ghost use Rattle.aes3_level.specs.Cells.{line};
ghost use Rattle.aes3_level.specs.Words.{level_of, low_cells};
ghost use Rattle.aes3_slot.specs.Slots.{mark_at, mark_runs};
ghost use Rattle.aes3_slot.specs.declared.mark.Mark.{Mark};

use aes3_level::Level;

/// The preamble at the beginning of a subframe, in time slots 0 to 3. It isn't biphase-mark coded
/// (AES3-3; IEC 60958-1 calls X, Y and Z M, W and B).
#[derive(Clone, Copy, PartialEq, Eq)]
pub enum Mark {
    /// The first subframe of a frame that doesn't begin a block.
    X,
    /// The second subframe of a frame.
    Y,
    /// The first subframe of a block.
    Z,
}

/// The preamble of a subframe of a block; subframes are numbered from 0 (AES3-3; IEC 60958-1).
pub fn mark_of(subframe: u64) -> Mark
    ensures { result ≡ mark_at subframe }
{
    if subframe == 0 {
        Mark::Z
    } else if subframe % 2 == 1 {
        Mark::Y
    } else {
        Mark::X
    }
}

/// A word whose lowest eight bits are the cells of the preamble after the level `before`, the
/// earliest in bit 0. Its highest bit is the level `before` (AES3-3; IEC 60958-1).
pub fn mark_cells(before: Level, mark: Mark) -> u64
    ensures cells { low_cells 8 result ≡ line before (mark_runs mark) }
    ensures last { level_of (bit_at result 63) ≡ before }
{
    let after_low = match mark {
        Mark::X => 0x47,
        Mark::Y => 0x27,
        Mark::Z => 0x17,
    };
    match before {
        Level::Low => after_low,
        Level::High => !after_low,
    }
}

/// The preamble that eight cells form, the earliest in bit 0, and the level before it.
pub fn match_mark(window: u8) -> Option<(Mark, Level)>
    ensures some { IfSome result (λ found. low_cells 8 window ≡ line found.1 (mark_runs found.0)) }
    ensures owed { (mark : Mark) (before : Level)
        → low_cells 8 window ≡ line before (mark_runs mark) → result ≡ Some (mark, before) }
{
    match window {
        0x47 => Some((Mark::X, Level::Low)),
        0xB8 => Some((Mark::X, Level::High)),
        0x27 => Some((Mark::Y, Level::Low)),
        0xD8 => Some((Mark::Y, Level::High)),
        0x17 => Some((Mark::Z, Level::Low)),
        0xE8 => Some((Mark::Z, Level::High)),
        _ => None,
    }
}
