//! A capture whose cells are recovered, to find where they are.

ghost use Rattle.std.specs.Prelude.{◌≡◌, ◌+◌, ◌++◌, ◌<◌, ◌≤◌, ◌^◌, ◌⊎◌, [], ℕ, List, None, IfNone, IfSome, Option, length};
ghost use Rattle.std.specs.Prelude.{min, nat_le, true};
ghost use Rattle.aes3_level.specs.declared.level.Level.{Level};
ghost use Rattle.aes3_capture_recovery.specs.Levels.{bit_of_line, bits_of_sample, levels_of_samples};
ghost use Rattle.aes3_capture_places.specs.Marks.{IsFirst, IsLast, IsPlaced};
ghost use Rattle.aes3_capture_places.specs.Placing.{AreFigures, ArePlaced, IsClose, IsMark, IsPlace, KeepsLatest};
ghost use Rattle.aes3_capture_places.specs.Placing.{IsOutOfReach, cells_given, sample_after};

use crate::marks::{Mark, Marks};
use crate::octet_count::OctetCount;
use aes3_capture::PARTS;
use aes3_capture_recovery::{Figures, Recovery, Unit, feed};
use aes3_cell::Form;

/// This many cells at least lie between two marks, so that those that are kept reach over ten blocks.
const APART: u64 = 64;

/// Where a mark can be made, fewer octets of cells than this were counted.
const MOST: u64 = 1 << 56;

/// Takes the samples of a capture, and keeps where the latest cells of its line are.
#[derive(Drop)]
pub struct Places {
    recovery: Recovery,
    count: OctetCount,
    marks: Marks,
    /// The latest mark.
    latest: Mark,
}

impl Places {
    /// A capture before its first sample. `known` is the length of a cell in 65,536ths of a sample,
    /// if it is given.
    pub fn new(known: Option<u64>) -> Self
        ensures placed { ArePlaced known [] result }
        ensures kept { KeepsLatest result }
    {
        Places {
            recovery: Recovery::new(Form::Packed, known),
            count: OctetCount::new(),
            marks: Marks::new(),
            latest: Mark {
                cells: 0,
                samples: 0,
            },
        }
    }

    /// What was found of the line so far.
    pub fn figures(&self) -> Figures
        ensures { AreFigures self.now.recovery result }
    {
        self.recovery.figures()
    }

    /// Takes a piece of whole samples, and makes one mark at most. Pieces of 64 octets give a mark
    /// for every run or two of 64 cells.
    pub fn take(&mut self, unit: Unit, piece: &[u8])
        ensures placed { bit_of_line unit < bits_of_sample unit → (known : Option ℕ) (levels : List Level)
            → length (levels ++ levels_of_samples unit piece.now) + 1 < 2 ^ 64
            → ArePlaced known levels self.old
            → ArePlaced known (levels ++ levels_of_samples unit piece.now) self.new }

        // However long the capture is, the latest mark is close: a cell that was given lies between
        // two marks, unless it is one of the last 64.
        ensures close { bit_of_line unit < bits_of_sample unit → (known : Option ℕ) (levels : List Level)
            → ArePlaced known levels self.old → KeepsLatest self.old
            → IsClose (levels ++ levels_of_samples unit piece.now) self.new }
    {
        // This sink never fails.
        let _ = feed(&mut self.recovery, &mut self.count, unit, piece);
        let Some(mark) = self.mark() else {
            return;
        };
        if mark.cells >= self.latest.cells.saturating_add(APART) {
            self.marks.add(mark);
            self.latest = mark;
        }
    }

    /// The mark after all cells that were given.
    fn mark(&self) -> Option<Mark>
        ensures mark { (known : Option ℕ) (levels : List Level) → length levels + 1 < 2 ^ 64
            → ArePlaced known levels self.now → IfSome result (IsMark known levels) }
        ensures cells { IfSome result (λ mark. length self.now.count.given.octets < 2 ^ 56
            → mark.cells ≡ cells_given self.now) }
        ensures none { IfNone result (self.now.recovery.found ≡ true → length self.now.count.given.octets < 2 ^ 56
            → self.now.recovery.figures.samples ≡ 0) }
    {
        let samples = self.recovery.figures().samples;
        if !self.recovery.is_found() || samples == 0 || self.count.octets() >= MOST {
            return None;
        }
        Some(Mark {
            cells: self.count.octets() * 8 + u64::from(self.recovery.cells_waiting()),
            samples: samples.saturating_sub(self.recovery.samples_waiting()),
        })
    }

    /// The sample that a cell begins at, counted from 0. `None` if the cell is not between two marks
    /// that are kept: it has not come yet, or it came more than 200,000 cells before the latest.
    pub fn sample_of(&self, cell: u64) -> Option<u64>
        ensures place { (known : Option ℕ) (levels : List Level) → ArePlaced known levels self.now
            → IfSome result (IsPlace known levels cell) }
        ensures nearest { IfSome result (IsPlaced self.now.marks.kept cell) }
        ensures none { IfNone result (IsLast self.now.marks.kept 4096 cell None ⊎ IsFirst self.now.marks.kept 4096 cell None) }
    {
        self.marks.sample_of(cell)
    }

    /// The sample of a cell after the latest mark, once the capture has ended: by the length of a
    /// cell, and the last sample at most. `None` if the cell comes later than that.
    pub fn last_sample_of(&self, cell: u64) -> Option<u64>
        ensures place { self.now.recovery.found ≡ true → IfSome result (λ sample.
            sample ≡ min (sample_after self.now cell) self.now.recovery.figures.samples) }
        ensures from { IfSome result (λ _. self.now.latest.cells ≤ cell) }
        ensures none { self.now.recovery.found ≡ true → IfNone result (IsOutOfReach self.now cell) }
    {
        let figures = self.recovery.figures();
        let cells = cell.checked_sub(self.latest.cells)?;
        let samples = cells.checked_mul(figures.period)? / PARTS;
        let sample = self.latest.samples.saturating_add(samples);
        let end = figures
            .samples
            .saturating_add(figures.period.saturating_mul(2) / PARTS);
        if sample <= end && figures.period > 0 {
            Some(sample.min(figures.samples))
        } else {
            None
        }
    }

    /// Whether the cell comes after the latest mark.
    pub fn is_ahead(&self, cell: u64) -> bool
        ensures { result ≡ nat_le self.now.latest.cells cell }
    {
        cell >= self.latest.cells
    }
}
