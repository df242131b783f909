//! Samples of a line as a logic analyser takes them.

ghost use Rattle.std.specs.Prelude.{◌≡◌, ◌+◌, ◌<◌, ◌≤◌, ◌^◌};

use crate::numbers::Numbers;
use crate::workload_lines::is_high;
use aes3_capture_recovery::Unit;
use std::alloc::{AllocError, Global};

/// How a line is sampled.
#[derive(Clone, Copy)]
pub struct Sampling {
    /// The bit of a sample that is the line.
    pub unit: Unit,
    /// The length of a cell, in 65,536ths of a sample, below 2^24.
    pub period: u32,
    /// How far an edge may be from its expected position, in 65,536ths of a sample, below 2^24.
    pub jitter: u32,
}

/// Puts a sample of this level; the bits of other lines are arbitrary.
fn put_sample(
    samples: &mut Vec<u8>,
    unit: Unit,
    numbers: &mut Numbers,
    high: bool,
) -> Result<(), AllocError> {
    let others = numbers.next() >> 32;
    let (bit, octets) = match unit {
        Unit::Octets(bit) => (bit % 8, 1),
        Unit::Pairs(bit) => (bit % 16, 2),
    };
    let line = 1u64 << bit;
    let sample = if high { others | line } else { others & !line };
    samples.push((sample & 0xff) as u8)?;
    if octets == 2 {
        samples.push((sample >> 8 & 0xff) as u8)?;
    }
    Ok(())
}

/// The samples of a line with these packed cells, each edge at its expected position plus some
/// jitter.
fn capture(
    alloc: Global,
    cells: &[u8],
    numbers: &mut Numbers,
    sampling: Sampling,
) -> Result<Vec<u8>, AllocError> {
    let mut samples = Vec::new(alloc);
    let mut place = 0u64;
    let mut at = 0u64;
    let jitter = sampling.jitter.max(1);
    for octet in cells.iter() {
        for bit in 0..8 {
            let high = is_high(*octet, bit);
            place = place.wrapping_add(u64::from(sampling.period));
            let late = u64::from(numbers.below(jitter)).wrapping_add(u64::from(numbers.below(
                jitter,
            )));
            let end = place.wrapping_add(late) >> 16;
            for _ in at..end.min(at.saturating_add(1024)) {
                put_sample(&mut samples, sampling.unit, numbers, high)?;
            }
            at = at.max(end);
        }
    }
    Ok(samples)
}

/// The samples of each of these packed pieces.
pub fn captures(
    alloc: Global,
    pieces: &[Vec<u8>],
    numbers: &mut Numbers,
    sampling: Sampling,
) -> Result<Vec<Vec<u8>>, AllocError> {
    let mut all = Vec::new(alloc);
    for piece in pieces.iter() {
        all.push(capture(alloc, piece.as_slice(), numbers, sampling)?)?;
    }
    Ok(all)
}

/// Samples of a line that does not change.
pub fn still(
    alloc: Global,
    numbers: &mut Numbers,
    unit: Unit,
    count: u32,
) -> Result<Vec<u8>, AllocError> {
    let mut samples = Vec::new(alloc);
    for _ in 0..count {
        put_sample(&mut samples, unit, numbers, false)?;
    }
    Ok(samples)
}
