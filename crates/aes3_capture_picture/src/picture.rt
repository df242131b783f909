//! What a picture of a capture shows, measured while the samples pass.

ghost use Rattle.std.specs.Prelude.{◌≡◌, ◌+◌, ◌<◌, ◌≤◌, ◌^◌, IfOk, None};
ghost use Rattle.aes3_capture_picture.specs.Texts.{IsPicture};

use crate::clock::Clock;
use crate::drawing::drawing;
use crate::histogram::Histogram;
use crate::nowhere::Nowhere;
use crate::periods::Periods;
use crate::stretches::Stretches;
use aes3_capture_recovery::{Figures, LONGEST_PERIOD, Recovery, Unit, levels_of};
use aes3_cell::Form;
use std::alloc::{AllocError, Global};

/// What a picture shows.
#[derive(Clone, Copy)]
pub(crate) struct Shown<'a> {
    pub samples: u64,
    /// Whether a line was found, and the length of a cell in parts of a sample.
    pub is_found: bool,
    pub period: u64,
    /// How many stretches had no signal, and how many samples came before the first edge, if there
    /// was no signal before it.
    pub dead: u64,
    pub before: u64,
    pub rising: &'a Histogram,
    pub falling: &'a Histogram,
    pub periods: &'a Periods,
    pub stretches: &'a Stretches,
}

/// How many octets are taken at once, as by the recovery.
const CHUNK: usize = 64;

/// What a picture of a capture shows: how far the edges of the line are from their places, the
/// length of a cell over time, and the stretches without signal. It has a fixed size.
#[derive(Drop)]
pub struct Picture {
    unit: Unit,
    /// The same recovery as that of the cells, which takes one edge at a time.
    recovery: Recovery,
    /// What it had found before the latest samples.
    before: Figures,
    clock: Clock,
    high: bool,
    /// How many samples came, how many had come at the latest edge, and at the first.
    samples: u64,
    latest: u64,
    first: Option<u64>,
    rising: Histogram,
    falling: Histogram,
    periods: Periods,
    stretches: Stretches,
    /// The first sample of a stretch without signal that has not ended.
    silence: Option<u64>,
    /// The octets that wait for a whole sample: at most one.
    kept: u8,
    kept_len: usize,
    ghost one: { kept_len ≤ 1 },
}

impl Picture {
    /// A picture of no samples. `period` is the length of a cell in parts of a sample, if it is
    /// given.
    pub fn new(unit: Unit, period: Option<u64>) -> Self
        ensures unit { result.unit ≡ unit }
        ensures samples { result.samples ≡ 0 }
        ensures bars { (result.rising.edges ≡ 0) × (result.falling.edges ≡ 0) }
    {
        let recovery = Recovery::new(Form::Packed, period);
        let before = recovery.figures();
        let clock = Clock::new(recovery.parts().line.follower);
        Picture {
            unit,
            recovery,
            before,
            clock,
            high: false,
            samples: 0,
            latest: 0,
            first: None,
            rising: Histogram::new(),
            falling: Histogram::new(),
            periods: Periods::new(),
            stretches: Stretches::new(),
            silence: None,
            kept: 0,
            kept_len: 0,
        }
    }

    /// Takes the octets of a piece of the capture.
    pub(crate) fn take(&mut self, octets: &[u8]) {
        let mut chunk = [0; CHUNK];
        chunk[0] = self.kept;
        let mut filled = self.kept_len;
        let mut at = 0;
        while at < octets.len() {
            let len = (CHUNK - filled).min(octets.len() - at);
            chunk[filled..filled + len].copy_from_slice(&octets[at..at + len]);
            at += len;
            filled += len;
            if filled == CHUNK {
                self.take_chunk(&chunk, CHUNK);
                filled = 0;
            }
        }
        let rest = filled % self.unit.len();
        self.take_chunk(&chunk, filled - rest);
        self.kept_len = rest;
        if rest > 0 {
            self.kept = chunk[filled - rest];
        }
    }

    /// Takes the whole samples in the first `len` of these octets.
    fn take_chunk(&mut self, octets: &[u8; CHUNK], len: usize) {
        let (levels, count) = levels_of(self.unit, octets);
        let samples = (len / self.unit.len()).min(count as usize) as u32;
        self.take_levels(levels, samples);
    }

    /// Takes the levels of samples, the first in the lowest bit, up to each edge.
    fn take_levels(&mut self, levels: u64, len: u32)
        requires { len ≤ 64 }
    {
        if self.samples == 0 {
            self.high = levels & 1 == 1;
        }
        let mut levels = levels;
        let mut len = len;
        for _ in 0..64 {
            let same = if self.high {
                (!levels).trailing_zeros()
            } else {
                levels.trailing_zeros()
            };
            if same >= len || same > 63 {
                break;
            }
            self.take_edge(levels, same);
            levels = levels >> same >> 1;
            len = len - same - 1;
        }
        if len > 0 {
            self.take_still(levels, len.min(64));
        }
    }

    /// Takes samples of one level, and the one after them, which has the other.
    fn take_edge(&mut self, levels: u64, same: u32)
        requires { same < 64 }
    {
        let _ = self.recovery.take(&mut Nowhere, levels, same + 1);
        self.samples = self.samples.saturating_add(u64::from(same));
        self.high = !self.high;
        self.edge();
        self.latest = self.samples;
        self.samples = self.samples.saturating_add(1);
    }

    /// Takes samples of one level.
    fn take_still(&mut self, levels: u64, len: u32)
        requires { len ≤ 64 }
    {
        let _ = self.recovery.take(&mut Nowhere, levels, len);
        self.samples = self.samples.saturating_add(u64::from(len));
        let figures = self.recovery.figures();
        if figures.dead != self.before.dead {
            self.silence = Some(figures.dead_at);
        }
        self.before = figures;
    }

    /// Notes an edge before the sample that comes next. If the recovery followed it, it is counted.
    fn edge(&mut self) {
        if self.first.is_none() {
            self.first = Some(self.samples);
        }
        self.end_silence();
        let figures = self.recovery.figures();
        if figures.edges != self.before.edges {
            self.count_edge();
        }
        if figures.measured != self.before.measured {
            self.clock = Clock::new(self.recovery.parts().line.follower);
        }
        self.before = figures;
    }

    /// Ends a stretch without signal, if there is one, before the sample that comes next.
    fn end_silence(&mut self)
        ensures samples { self.new.samples ≡ self.old.samples }
        ensures bars { (self.new.rising ≡ self.old.rising) × (self.new.falling ≡ self.old.falling) }
        ensures silence { self.new.silence ≡ None }
    {
        match self.silence {
            Some(from) => {
                self.stretches.add(from, self.samples);
                self.silence = None;
            }
            None => {}
        }
    }

    /// Counts an edge.
    fn count_edge(&mut self) {
        let run = self
            .samples
            .saturating_sub(self.latest)
            .min(u64::from(u32::MAX)) as u32;
        let period = self.clock.period();
        let place = self.clock.edge(run);
        if self.high {
            self.rising.count(place.at);
        } else {
            self.falling.count(place.at);
        }
        self.periods.add(self.samples, place.cells, period);
    }

    /// Takes the end of the capture.
    pub fn finish(&mut self)
        ensures samples { self.new.samples ≡ self.old.samples }
        ensures bars { (self.new.rising ≡ self.old.rising) × (self.new.falling ≡ self.old.falling) }
        ensures silence { self.new.silence ≡ None }
    {
        let _ = self.recovery.finish(&mut Nowhere);
        self.end_silence();
        self.before = self.recovery.figures();
    }

    /// The text of the picture, in SVG. `rate` is the number of samples in a second, if that is
    /// known.
    ///
    /// # Errors
    /// `AllocError` if there is no memory.
    pub fn drawing(&self, alloc: Global, rate: Option<u64>) -> Result<String, AllocError>
        ensures { IfOk result (λ text. IsPicture text.bytes.items) }
    {
        let shown = Shown {
            samples: self.samples,
            is_found: self.before.measured > 0,
            period: self.before.period,
            dead: self.before.dead,
            before: self.silence_before(),
            rising: &self.rising,
            falling: &self.falling,
            periods: &self.periods,
            stretches: &self.stretches,
        };
        drawing(alloc, shown, rate)
    }

    /// How many samples came before the first edge, if these are 64 cells or more.
    fn silence_before(&self) -> u64 {
        let samples = self.first.unwrap_or(self.samples);
        if samples >= 64 * (self.before.period.min(LONGEST_PERIOD) / 65_536).max(2) {
            samples
        } else {
            0
        }
    }
}
