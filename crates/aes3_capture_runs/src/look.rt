//! What the first samples of a capture show if no line is found in it.

use crate::capture_job::unit_of;
use crate::line_bit::is_line;
use aes3_capture_recovery::Unit;
use std::alloc::{AllocError, Global};

/// The least number of samples for each edge of a line: at least those of a cell, since a cell has
/// at most one edge.
const FEWEST_SAMPLES_AN_EDGE: u64 = 2;

/// What the first samples of a capture show about one of their bits.
#[derive(Clone, Copy)]
pub struct Look {
    unit: Unit,
    samples: u64,
    /// How many edges the bit has, and the lowest bit with an edge.
    edges: u64,
    toggling: Option<u8>,
    /// The bit with a line if a sample has the other number of octets.
    other_unit: Option<u8>,
}

impl Look {
    /// What these octets show about the bit. If another unit could help, it is searched for a line.
    pub fn of(alloc: Global, first: &[u8], unit: Unit, searches: bool) -> Self {
        let octets = unit.len();
        let mut look = Look {
            unit,
            samples: (first.len() / octets) as u64,
            edges: edges_of(first, unit),
            toggling: None,
            other_unit: None,
        };
        for bit in 0..if octets == 1 { 8 } else { 16 } {
            if look.toggling.is_none() && edges_of(first, unit_of(octets, bit)) > 0 {
                look.toggling = Some(bit);
            }
        }
        if searches {
            look.other_unit = other_unit_bit(alloc, first, octets);
        }
        look
    }

    /// Why no line was found, for people, up to a full stop.
    ///
    /// # Errors
    /// `AllocError` if there is no memory.
    pub fn reason(&self, alloc: Global) -> Result<String, AllocError> {
        let bit = bit_of(self.unit);
        let samples = self.samples;
        match (self.edges, self.toggling, self.other_unit) {
            (_, _, Some(other)) => {
                let octets = if self.unit.len() == 1 { 2 } else { 1 };
                format!(in alloc; "with --unit {octets} an AES3 line is in bit {other}")
            }
            (0, None, _) => format!(in alloc; "no bit toggles in the first {samples} samples"),
            (0, Some(toggling), _) => {
                format!(in alloc;
                    "bit {bit} does not toggle in the first {samples} samples, but bit {toggling} does"
                )
            }
            (edges, _, _) if samples / edges < FEWEST_SAMPLES_AN_EDGE => {
                format!(in alloc;
                    "bit {bit} toggles {edges} times in {samples} samples, too often for an AES3 line"
                )
            }
            (edges, _, _) => {
                format!(in alloc;
                    "bit {bit} toggles {edges} times in the first {samples} samples, but not as an AES3 line does"
                )
            }
        }
    }
}

/// The number of the bit.
fn bit_of(unit: Unit) -> u8 {
    match unit {
        Unit::Octets(bit) | Unit::Pairs(bit) => bit,
    }
}

/// How many edges the samples have in this bit.
fn edges_of(samples: &[u8], unit: Unit) -> u64 {
    let (len, at, bit) = match unit {
        Unit::Octets(bit) => (1, 0, bit & 7),
        Unit::Pairs(bit) => (2, usize::from(bit >> 3 & 1), bit & 7),
    };
    let mut edges: u64 = 0;
    let mut before = None;
    for octet in samples.iter().skip(at).step_by(len) {
        let level = *octet >> bit & 1;
        if before.is_some_and(|before| before != level) {
            edges = edges.saturating_add(1);
        }
        before = Some(level);
    }
    edges
}

/// The lowest bit with a line if a sample has the other number of octets than this.
fn other_unit_bit(alloc: Global, first: &[u8], octets: usize) -> Option<u8> {
    let other = if octets == 1 { 2 } else { 1 };
    for bit in 0..if other == 1 { 8 } else { 16 } {
        if is_line(alloc, first, unit_of(other, bit), None) {
            return Some(bit);
        }
    }
    None
}
