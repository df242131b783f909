//! Sums of a watched line, and their lines.

ghost use Rattle.std.specs.Prelude.{◌≡◌, ◌<◌, ◌≤◌, ◌+◌, ◌*◌, ◌^◌, ◌++◌, length};
ghost use Rattle.aes3_cell.specs.Writes.{Wrote};
ghost use Rattle.aes3_text_lines.specs.SumLines.{period_fields, report_fields, sample_fields};
ghost use Rattle.aes3_text_lines.specs.SumLines.{sum_line};

use crate::event::{FIELD_LEN, put_closing, put_number, put_opening, put_time};
use aes3_cell::{Fault, Sink};
use aes3_status::{LINE_LEN, Line, Notation, Style};

/// The counts of the cells of a period.
#[derive(Clone, Copy)]
pub struct Figures {
    /// How many whole blocks begin in it.
    pub whole: u64,
    /// How many blocks with a wrong parity bit in a subframe begin in it.
    pub marked: u64,
    /// How many candidates that a cell refutes begin in it, whatever the cause.
    pub fault: u64,
    /// How many of these are refuted by a cell of a preamble.
    pub preamble: u64,
    /// How many of these are refuted by a time slot that begins without a change of level.
    pub biphase: u64,
    /// How many of these are refuted by the cell after their last subframe.
    pub unclosed: u64,
    /// How many cells lie in gaps that count.
    pub lost: u64,
    /// How many subframes of the first channel of whole blocks have a validity bit of 1: their
    /// sample is not valid (AES3-1, IEC 60958-1).
    pub invalid_first: u64,
    /// How many subframes of the second channel.
    pub invalid_second: u64,
    /// How many events report another status or other validity bits.
    pub changes: u64,
}

/// The counts from cell `from` on and before cell `to`. Cells are counted from 0.
#[derive(Clone, Copy)]
pub struct Sum {
    pub from: u64,
    pub to: u64,
    pub figures: Figures,
}

/// Appends the cells of the period.
#[tactic(auto, unfolding(crate::specs::SumLines::period_fields))]
fn put_period(line: &mut Line, style: &Style, from: u64, to: u64)
    requires space { length line.old + 3 * FIELD_LEN ≤ LINE_LEN }
    ensures text { line.new ≡ line.old ++ period_fields style.now from to }
    ensures len { length line.new ≤ length line.old + 3 * FIELD_LEN }
{
    put_number(line, style.notation, "from", from);
    put_time(line, style, from);
    put_number(line, style.notation, "to", to);
}

/// Appends the numbers of the period's reports by their kinds.
#[tactic(auto, unfolding(crate::specs::SumLines::report_fields))]
fn put_reports(line: &mut Line, notation: Notation, figures: &Figures)
    requires space { length line.old + 6 * FIELD_LEN ≤ LINE_LEN }
    ensures text { line.new ≡ line.old ++ report_fields notation figures.now }
    ensures len { length line.new ≤ length line.old + 6 * FIELD_LEN }
{
    put_number(line, notation, "whole", figures.whole);
    put_number(line, notation, "marked", figures.marked);
    put_number(line, notation, "fault", figures.fault);
    put_number(line, notation, "preamble", figures.preamble);
    put_number(line, notation, "biphase", figures.biphase);
    put_number(line, notation, "unclosed", figures.unclosed);
}

/// Appends the number of lost cells, and what the whole blocks say of their samples.
#[tactic(auto, unfolding(crate::specs::SumLines::sample_fields))]
fn put_samples(line: &mut Line, notation: Notation, figures: &Figures)
    requires space { length line.old + 4 * FIELD_LEN ≤ LINE_LEN }
    ensures text { line.new ≡ line.old ++ sample_fields notation figures.now }
    ensures len { length line.new ≤ length line.old + 4 * FIELD_LEN }
{
    put_number(line, notation, "lost", figures.lost);
    put_number(line, notation, "invalid1", figures.invalid_first);
    put_number(line, notation, "invalid2", figures.invalid_second);
    put_number(line, notation, "changes", figures.changes);
}

/// Writes the line of a sum as one buffer. If the rate is known, it has the time of the first cell.
///
/// # Errors
/// The sink's fault; then it has taken a front of the line.
#[tactic(auto, unfolding(crate::specs::SumLines::sum_line))]
pub fn line_of_sum<T: Sink>(style: &Style, sum: &Sum, sink: &mut T) -> Result<(), Fault>
    requires room { T.failed sink.old + 1 < 2 ^ 64 }
    ensures { Wrote T.taken T.failed sink.old sink.new (sum_line style.now sum.now) result }
{
    let mut line = Line::new();
    put_opening(&mut line, style.notation, "sum");
    put_period(&mut line, style, sum.from, sum.to);
    put_reports(&mut line, style.notation, &sum.figures);
    put_samples(&mut line, style.notation, &sum.figures);
    put_closing(&mut line, style.notation);
    line.end(sink)
}
