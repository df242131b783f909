//! Where the cells of a capture are among its samples.

ghost use Rattle.std.specs.Prelude.{◌≡◌, ◌+◌, ◌-◌, ◌*◌, ◌/◌, ◌++◌, ◌<◌, ◌≤◌, ◌^◌, ℕ, List, IsTrue, Option, false, length, true};
ghost use Rattle.aes3_level.specs.declared.level.Level.{Level};
ghost use Rattle.aes3_capture_recovery.specs.Parts.{recovery_parts};
ghost use Rattle.aes3_capture_recovery.specs.declared.recovery.Recovery.{Recovery};
ghost use Rattle.aes3_capture_places.specs.Marks.{between};
ghost use Rattle.aes3_capture_places.specs.Placing.{IsMark, IsPlace};
ghost use Rattle.aes3_c.specs.Capturing.{period_of};
ghost use Rattle.aes3_c.specs.Marks.{mark_in};
ghost use Rattle.aes3_c.specs.Owed.{owed_in};
ghost use Rattle.aes3_c.specs.Streaming.{IsTaking};

use crate::owed::owed_len;
use crate::streaming::Aes3Recovery;
use aes3_capture_recovery::Recovery;

/// The first `cells` cells of a line are those of the first `samples` samples of its capture.
#[repr(C)]
#[derive(Drop)]
pub struct Aes3Mark {
    pub cells: u64,
    pub samples: u64,
}

// As in the header.
const _: () = prove!(size_of::<Aes3Mark>() == 16);

const _: () = prove!(align_of::<Aes3Mark>() == 8);

/// A mark can be made as long as fewer octets of cells than this were written.
const MOST: u64 = 1 << 56;

/// Puts the mark after all cells that are certain of the samples that were taken, and returns true.
/// Before a line is found there is none, and after the end neither. Then it returns false, and `mark`
/// is unchanged.
#[unsafe(no_mangle)]
pub extern "C" fn aes3_recovery_mark(recovery: &Aes3Recovery, mark: &mut Aes3Mark) -> bool
    // It is a mark, and stays one whatever samples come. `octets` are all that were put.
    ensures mark { IsTrue result → (period : ℕ) (levels more : List Level) (octets : List ℕ)
        → IsTaking period levels octets recovery.now → recovery.now.put ≡ length octets → length levels + 1 < 2 ^ 64
        → IsMark (period_of period) (levels ++ more) (mark_in mark.new) }
    ensures none { result ≡ false → (now : Recovery) → recovery_parts now ≡ recovery.now.recovery
        → recovery.now.ended ≡ 0 → recovery.now.put + length (owed_in recovery.now.owed) < 2 ^ 56 → now.found ≡ true
        → now.figures.samples ≡ 0 }
    ensures left { result ≡ false → mark.new ≡ mark.old }
{
    let now = Recovery::of_parts(&recovery.recovery);
    let samples = now.figures().samples;
    let octets = recovery.put.saturating_add(owed_len(&recovery.owed));
    if recovery.ended != 0 || !now.is_found() || samples == 0 || octets >= MOST {
        return false;
    }
    mark.cells = 8 * octets + u64::from(now.cells_waiting());
    mark.samples = samples.saturating_sub(now.samples_waiting());
    true
}

/// The samples between two marks are shared out evenly to this many cells at most.
const APART: u64 = 1 << 32;

/// `samples * part / cells`, by numbers of 64 bits: a division of 128 bits would be another library's.
fn share(samples: u64, part: u64, cells: u64) -> u64
    requires part { part < cells }
    requires few { cells ≤ 2 ^ 32 }
    ensures share { result ≡ samples * part / cells }
    ensures most { result ≤ samples }
{
    let whole = samples / cells * part;
    let rest = samples % cells * part / cells;
    whole + rest
}

/// The sample that a cell between two marks begins at: the samples between them are shared out evenly
/// to the cells. Of a cell before both it is that of the first mark, and of one after both that of the
/// second. If the marks are more than 2^32 cells apart, it is that of the first.
#[unsafe(no_mangle)]
pub extern "C" fn aes3_sample_between(before: &Aes3Mark, after: &Aes3Mark, cell: u64) -> u64
    ensures place { (known : Option ℕ) (levels : List Level) → IsMark known levels (mark_in before.now)
        → IsMark known levels (mark_in after.now) → before.now.cells ≤ cell → cell < after.now.cells
        → after.now.cells - before.now.cells ≤ 2 ^ 32 → IsPlace known levels cell result }
    ensures between { before.now.cells ≤ cell → cell < after.now.cells
        → after.now.cells - before.now.cells ≤ 2 ^ 32
        → result ≡ between (mark_in before.now) (mark_in after.now) cell }
    ensures far { before.now.cells ≤ cell → cell < after.now.cells
        → 2 ^ 32 < after.now.cells - before.now.cells → result ≡ before.now.samples }
    ensures early { cell < before.now.cells → result ≡ before.now.samples }
    ensures late { before.now.cells ≤ cell → after.now.cells ≤ cell → result ≡ after.now.samples }
{
    if cell < before.cells {
        return before.samples;
    }
    if cell >= after.cells {
        return after.samples;
    }
    let cells = after.cells - before.cells;
    if cells > APART {
        return before.samples;
    }
    let samples = after.samples.saturating_sub(before.samples);
    before.samples + share(samples, cell - before.cells, cells)
}
