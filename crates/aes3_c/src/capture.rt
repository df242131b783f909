//! The cells of captures.

ghost use Rattle.std.specs.Prelude.{◌≤◌, length};
ghost use Rattle.aes3_c.specs.Capturing.{IsCaptured};

use crate::recovering::recover_into;

/// What was found of a line among samples.
#[repr(C)]
#[derive(Drop)]
pub struct Aes3Capture {
    /// How many octets of packed cells were put.
    pub octets: u64,
    /// How many samples there were, and how many cells were recovered from them.
    pub samples: u64,
    pub cells: u64,
    /// The latest length of a cell, in 65,536ths of a sample; 0 if none was given or found.
    pub period: u64,
    /// How many edges were followed, the greatest distance of an edge from its place, and the sum
    /// of the squares of these distances. The distances are in 256ths of a sample.
    pub edges: u64,
    pub greatest: u64,
    pub squares: u64,
    /// How many stretches had no signal, where the latest began, in samples, and how often the line
    /// was measured.
    pub dead: u64,
    pub dead_at: u64,
    pub measured: u64,
}

// As in the header.
const _: () = prove!(size_of::<Aes3Capture>() == 80);

const _: () = prove!(align_of::<Aes3Capture>() == 8);

/// Recovers the cells of a line from all samples of a capture. A sample has `unit` octets, 1 or 2,
/// the lower first, and the line is in its bit `bit`. Any other `unit` than 2 is 1, and a `bit`
/// past the last is replaced by its remainder by 8 or 16. A cell has a length of `period` 65,536ths
/// of a sample; if that is 0, it is measured. Puts the packed cells, and what was found.
///
/// Returns whether there was room for all of them. If not, the first of them are put, and what was
/// found is that of all samples. If no line was found, there are no cells. With a period they are
/// then those counted by it alone, which no measurement confirmed.
#[unsafe(no_mangle)]
pub extern "C" fn aes3_capture_cells(
    samples: &[u8],
    unit: u8,
    bit: u8,
    period: u64,
    cells: &mut [u8],
    found: &mut Aes3Capture,
) -> bool
    ensures within { found.new.octets ≤ length cells.new }
    ensures captured { IsCaptured unit bit period samples.now cells.old cells.new found.new result }
{
    recover_into(samples, unit, bit, period, cells, found)
}
