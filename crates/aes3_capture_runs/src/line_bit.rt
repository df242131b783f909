//! The bit of the samples with the line, if no option names it.

use crate::capture_job::unit_of;
use aes3_capture_recovery::{Recovery, Unit, feed};
use aes3_cell::{Form, MemorySink};
use aes3_files::Preview;
use aes3_slot::match_mark;
use std::alloc::{AllocError, Global};
use std::io::Read;

/// How many of the first octets are searched: this number, and then more, until a line is found.
const FIRST_LENS: [usize; 5] = [4096, 16_384, 65_536, 262_144, 1_048_576];

/// The least number of edges that it takes to recognise a line by its preambles.
const FEWEST_EDGES: u64 = 256;

/// A line has a preamble 64 cells after each preamble, and no more edges than cells. So it has at
/// least one such pair for each 64 edges; noise has one in a thousand cells.
const EDGES_A_PAIR: u64 = 256;

/// The lowest bit that has a line in the first samples of `octets` octets each, if there is one.
///
/// # Errors
/// `AllocError` if there is no memory.
pub fn line_bit<R: Read + Drop>(
    alloc: Global,
    input: &mut Preview<R>,
    octets: usize,
    period: Option<u64>,
) -> Result<Option<u8>, AllocError> {
    for len in FIRST_LENS {
        let first = input.first(len)?;
        for bit in 0..if octets == 1 { 8 } else { 16 } {
            if is_line(alloc, first, unit_of(octets, bit), period) {
                return Ok(Some(bit));
            }
        }
        if first.len() < len {
            return Ok(None);
        }
    }
    Ok(None)
}

/// Whether samples have a line of subframes.
pub fn is_line(alloc: Global, samples: &[u8], unit: Unit, period: Option<u64>) -> bool {
    let whole = samples.len() - samples.len() % unit.len();
    let mut recovery = Recovery::new(Form::Packed, period);
    let mut cells = MemorySink::new(alloc);
    if feed(&mut recovery, &mut cells, unit, &samples[..whole]).is_err()
        || recovery.pass_on(&mut cells).is_err()
    {
        return false;
    }
    let figures = recovery.figures();
    figures.measured > 0
        && figures.edges >= FEWEST_EDGES
        && preamble_pairs(cells.bytes()).saturating_mul(EDGES_A_PAIR) >= figures.edges
}

/// How many preambles have another one 64 cells before them.
fn preamble_pairs(packed: &[u8]) -> u64 {
    let mut pairs: u64 = 0;
    let mut cells: u16 = 0;
    // A one for each of the last 64 cells at which a preamble began.
    let mut seen: u64 = 0;
    for octet in packed {
        cells = cells >> 8 | u16::from(octet.reverse_bits()) << 8;
        for at in 0u32..8 {
            let is_preamble = match_mark((cells >> at & 255) as u8).is_some();
            if is_preamble && seen & 1 == 1 {
                pairs = pairs.saturating_add(1);
            }
            seen = seen >> 1 | u64::from(is_preamble) << 63;
        }
    }
    pairs
}
