//! From the samples of a capture to its cells.

ghost use Rattle.std.specs.Prelude.{◌≡◌, ◌+◌, ◌<◌, ◌≤◌, ◌^◌, IfOk, OnErr, [], length};
ghost use Rattle.aes3_capture_recovery.specs.Levels.{bit_of_line, bits_of_sample, levels_of_samples};
ghost use Rattle.aes3_c.specs.Capturing.{AreFigures, IsCaptured, RanOver, period_of, unit_of};

use crate::capture::Aes3Capture;
use crate::room::RoomSink;
use aes3_capture_recovery::{Recovery, Unit, feed};
use aes3_cell::{Fault, Form, Sink};

/// How the samples lie, of so many octets each, and which bit of them the line is.
pub(crate) fn unit_of(octets: u8, bit: u8) -> Unit
    ensures { result ≡ unit_of octets bit }
{
    match octets {
        2 => Unit::Pairs(bit % 16),
        _ => Unit::Octets(bit % 8),
    }
}

/// How long a cell is, where that is given.
pub(crate) fn known_of(period: u64) -> Option<u64>
    ensures { result ≡ period_of period }
{
    match period {
        0 => None,
        _ => Some(period),
    }
}

/// Puts what was found, as plain numbers.
pub(crate) fn put_found(recovery: &Recovery, octets: usize, found: &mut Aes3Capture)
    ensures octets { found.new.octets ≡ octets }
    ensures figures { AreFigures found.new recovery.now }
{
    let figures = recovery.figures();
    *found = Aes3Capture {
        octets: octets as u64,
        samples: figures.samples,
        cells: figures.cells,
        period: figures.period,
        edges: figures.edges,
        greatest: figures.greatest,
        squares: figures.squares,
        dead: figures.dead,
        dead_at: figures.dead_at,
        measured: figures.measured,
    };
}

/// How many octets are taken at once: fewer than a block of samples whose edges are found first, which takes 33 KB of stack.
const PIECE: usize = 4032;

/// Recovers the cells of a line from all its samples.
fn recover_all<T: Sink>(
    recovery: &mut Recovery,
    sink: &mut T,
    unit: Unit,
    samples: &[u8],
) -> Result<(), Fault>
    requires room { T.failed sink.old + 1 < 2 ^ 64 }
    ensures one_failure { OnErr result (T.failed sink.new ≡ T.failed sink.old + 1) }
    ensures ran { bit_of_line unit < bits_of_sample unit → IfOk result (λ _. RanOver T.taken recovery.old recovery.new
        sink.old sink.new (levels_of_samples unit samples.now)) }
{
    let mut at = 0;
    while let Some(piece) = samples[at..].first_chunk::<PIECE>() {
        feed(recovery, sink, unit, piece)?;
        at += PIECE;
    }
    feed(recovery, sink, unit, &samples[at..])?;
    recovery.finish(sink)
}

/// Recovers the cells of a line for a sink that was given nothing before, and puts what was found.
/// The sink still refers to the same memory.
fn recover_to(
    sink: &mut RoomSink<'_>,
    samples: &[u8],
    unit: u8,
    bit: u8,
    period: u64,
    found: &mut Aes3Capture,
)
    requires none { sink.old.given.octets ≡ [] }
    ensures same_reference { sink.new.memory.ghost_name ≡ sink.old.memory.ghost_name }
    ensures captured { IsCaptured unit bit period samples.now sink.old.was.octets sink.new.memory.now
        found.new sink.new.fits }
{
    let mut recovery = Recovery::new(Form::Packed, known_of(period));
    // This sink never fails.
    let _ = recover_all(&mut recovery, sink, unit_of(unit, bit), samples);
    put_found(&recovery, sink.count, found);
}

/// Recovers the cells of a line, and puts them and what was found. Returns whether there was room.
pub(crate) fn recover_into(
    samples: &[u8],
    unit: u8,
    bit: u8,
    period: u64,
    cells: &mut [u8],
    found: &mut Aes3Capture,
) -> bool
    ensures within { found.new.octets ≤ length cells.new }
    ensures captured { IsCaptured unit bit period samples.now cells.old cells.new found.new result }
{
    let mut sink = RoomSink::new(cells);
    recover_to(&mut sink, samples, unit, bit, period, found);
    sink.fits
}
