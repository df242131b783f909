//! A watched line, with a sum for each period of it.

ghost use Rattle.std.specs.Prelude.{◌≡◌, ℕ, ◌+◌, ◌<◌, ◌≤◌, ◌^◌, ◌++◌, [], List, Some, IfOk, false};
ghost use Rattle.aes3_cell.specs.Ends.{Grew, Told};
ghost use Rattle.aes3_cell.specs.Writes.{Wrote};
ghost use Rattle.aes3_lock.specs.Following.{report_in};
ghost use Rattle.aes3_lock.specs.Remains.{place_of};
ghost use Rattle.aes3_input.specs.Driving.{CellRun};
ghost use Rattle.aes3_input.specs.Inputs.{cells_of};
ghost use Rattle.aes3_input.specs.Running.{ends_of};
ghost use Rattle.aes3_watch.specs.Signals.{signals_of};
ghost use Rattle.aes3_watch.specs.declared.signals.Signals.{Signals};
ghost use Rattle.aes3_watch.specs.Watching.{Ended, IsKept, event_lines, loss_events, up_to, watch_counts};
ghost use Rattle.aes3_watch.specs.Sums.{Sums, all_told, begun_sums, change_of, changes_in, counted_report};
ghost use Rattle.aes3_watch.specs.Sums.{ends_before, go_to, is_whole, last_sum, next_period, next_sum};
ghost use Rattle.aes3_watch.specs.Sums.{notice_lines, on_to, period_told, periods, periods_told, place_behind};
ghost use Rattle.aes3_watch.specs.Sums.{report_told, sum_lines, summing, told_to, with_period};
ghost use Rattle.aes3_text_lines.specs.SumLines.{sum_line};

use crate::period::Period;
use crate::watching::{Watcher, put_events};
use aes3_cell::{Counts, Fault, Form, RunError, Sink, Source};
use aes3_frame::BLOCK_CELLS;
use aes3_lock::{Ending, Lock};
use aes3_lock_runs::{Listener, run_cells};
use aes3_text_lines::{Event, Style, line_of_sum};
use arrayvec::ArrayVec;

/// Whether an event reports a change of the blocks' signals, as a number.
fn change_of(event: &Event) -> u64
    ensures change { result ≡ change_of event.now }
    ensures one { result ≤ 1 }
{
    match event {
        Event::Status { .. } | Event::Validity { .. } => 1,
        Event::Locked { .. }
        | Event::Lost { .. }
        | Event::Back { .. }
        | Event::Slipped { .. }
        | Event::End { .. } => 0,
    }
}

/// How many of these events report another status or other validity bits.
pub fn changes_in(events: &[Event]) -> u64
    ensures { result ≡ changes_in events.now }
{
    let mut found = 0;
    for event in events {
        let change = change_of(event);
        found += change;
    }
    found
}

/// The place where the candidate of a report begins, given the ending that a lock has just
/// returned.
fn place_in(_lock: &Lock, ending: Ending) -> u64
    ensures { result ≡ place_of (report_in _lock.now ending) }
{
    match ending {
        Ending::Whole { at, .. }
        | Ending::Marked { at, .. }
        | Ending::Fault { at, .. }
        | Ending::Unfinished { at, .. } => at,
    }
}

/// What is kept of a line whose sums are written.
#[derive(Drop)]
struct Summer {
    watcher: Watcher,
    /// How many cells a period has.
    every: u64,
    period: Period,
}

impl Summer {
    /// The state before the first cell.
    fn new(style: Style, every: u64) -> Self
        requires some { 0 < every }
        requires few { every ≤ 2 ^ 40 }
        ensures style { result.watcher.style ≡ style }
        ensures every { result.every ≡ every }
        ensures none { Sums result.every (with_period result.watcher.state result.period)
            result.watcher.lasts [] }
    {
        Summer {
            watcher: Watcher::new(style),
            every,
            period: Period::new(),
        }
    }

    /// Advances to cell `to` of the current period. No whole block begins before it.
    ///
    /// # Errors
    /// The sink's fault; then it has taken a front of the line of the event.
    fn go_on<T: Sink>(&mut self, sink: &mut T, to: u64) -> Result<(), Fault>
        requires room { T.failed sink.old + 1 < 2 ^ 64 }
        requires few { self.old.watcher.state.losses + 1 < 2 ^ 64 }
        ensures style { self.new.watcher.style ≡ self.old.watcher.style }
        ensures lasts { self.new.watcher.lasts ≡ self.old.watcher.lasts }
        ensures every { self.new.every ≡ self.old.every }
        ensures few { self.new.watcher.state.losses ≤ self.old.watcher.state.losses + 1 }
        ensures state { with_period self.new.watcher.state self.new.period
            ≡ on_to (with_period self.old.watcher.state self.old.period) to }
        ensures wrote { Wrote T.taken T.failed sink.old sink.new
            (event_lines self.old.watcher.style (loss_events self.old.watcher.state to)) result }
    {
        let mut events = ArrayVec::new();
        self.watcher.go_on(&mut events, to);
        self.period.count_gaps(to);
        put_events(&self.watcher.style, &events, sink)
    }

    /// Writes the sum of the current period, which ends before cell `to`.
    ///
    /// # Errors
    /// The sink's fault; then it has taken a front of the line.
    fn tell<T: Sink>(&self, sink: &mut T, to: u64) -> Result<(), Fault>
        requires room { T.failed sink.old + 1 < 2 ^ 64 }
        ensures { Wrote T.taken T.failed sink.old sink.new
            (sum_line self.now.watcher.style (record {
              from = self.now.period.from;
              to = to;
              figures = self.now.period.figures;
            })) result }
    {
        line_of_sum(&self.watcher.style, &self.period.sum(to), sink)
    }

    /// Advances to the end of the current period, writes its sum and begins the next.
    ///
    /// # Errors
    /// The sink's fault; then it has taken a front of the lines.
    fn end_period<T: Sink>(&mut self, sink: &mut T) -> Result<(), Fault>
        requires room { T.failed sink.old + 1 < 2 ^ 64 }
        requires few { self.old.watcher.state.losses + 1 < 2 ^ 64 }
        requires near { self.old.period.from + self.old.every < 2 ^ 64 }
        ensures style { self.new.watcher.style ≡ self.old.watcher.style }
        ensures lasts { self.new.watcher.lasts ≡ self.old.watcher.lasts }
        ensures every { self.new.every ≡ self.old.every }
        ensures state { IfOk result (λ _.
            with_period self.new.watcher.state self.new.period
            ≡ next_period self.old.every
            (with_period self.old.watcher.state self.old.period)) }
        ensures wrote { Wrote T.taken T.failed sink.old sink.new
            (notice_lines self.old.watcher.style (period_told self.old.every
            (with_period self.old.watcher.state self.old.period))) result }
    {
        let to = self.period.from + self.every;
        self.go_on(sink, to)?;
        self.tell(sink, to)?;
        self.period.begin(to);
        Ok(())
    }

    /// Advances over all ends of periods up to cell `to`. No whole block begins before it.
    ///
    /// # Errors
    /// The sink's fault; then it has taken a front of the lines.
    fn end_periods<T: Sink>(&mut self, sink: &mut T, to: u64) -> Result<(), Fault>
        requires room { T.failed sink.old + 1 < 2 ^ 64 }
        requires few { self.old.watcher.state.losses + 2 < 2 ^ 64 }
        requires some { 0 < self.old.every }
        ensures style { self.new.watcher.style ≡ self.old.watcher.style }
        ensures lasts { self.new.watcher.lasts ≡ self.old.watcher.lasts }
        ensures every { self.new.every ≡ self.old.every }
        ensures few { IfOk result (λ _.
            self.new.watcher.state.losses ≤ self.old.watcher.state.losses + 1) }
        ensures state { IfOk result (λ _.
            with_period self.new.watcher.state self.new.period
            ≡ periods self.old.every
            (ends_before self.old.every (with_period self.old.watcher.state self.old.period) to)
            (with_period self.old.watcher.state self.old.period)) }
        ensures wrote { Wrote T.taken T.failed sink.old sink.new
            (notice_lines self.old.watcher.style (periods_told self.old.every
            (ends_before self.old.every (with_period self.old.watcher.state self.old.period) to)
            (with_period self.old.watcher.state self.old.period))) result }
    {
        let ends = to.saturating_sub(self.period.from) / self.every;
        'ending: for _told in 0..ends {
            self.end_period(sink)?;
        }
        Ok(())
    }

    /// Advances to cell `to`. No whole block begins before it.
    ///
    /// # Errors
    /// The sink's fault; then it has taken a front of the lines.
    fn go_to<T: Sink>(&mut self, sink: &mut T, to: u64) -> Result<(), Fault>
        requires room { T.failed sink.old + 1 < 2 ^ 64 }
        requires few { self.old.watcher.state.losses + 2 < 2 ^ 64 }
        requires some { 0 < self.old.every }
        ensures style { self.new.watcher.style ≡ self.old.watcher.style }
        ensures lasts { self.new.watcher.lasts ≡ self.old.watcher.lasts }
        ensures every { self.new.every ≡ self.old.every }
        ensures few { IfOk result (λ _.
            self.new.watcher.state.losses ≤ self.old.watcher.state.losses + 2) }
        ensures state { IfOk result (λ _.
            with_period self.new.watcher.state self.new.period
            ≡ go_to self.old.every (with_period self.old.watcher.state self.old.period) to) }
        ensures wrote { Wrote T.taken T.failed sink.old sink.new
            (notice_lines self.old.watcher.style (told_to self.old.every
            (with_period self.old.watcher.state self.old.period) to))
            result }
    {
        self.end_periods(sink, to)?;
        self.go_on(sink, to)?;
        Ok(())
    }

    /// Counts a report at the cell that is reached, given the ending that a lock has just returned.
    /// `changes` of its events report a change; `found` says whether there was a whole block before
    /// it.
    fn count_report(&mut self, _lock: &Lock, ending: Ending, found: bool, changes: u64)
        requires near { place_of (report_in _lock.now ending) ≤ 2 ^ 43 }
        ensures watcher { self.new.watcher ≡ self.old.watcher }
        ensures every { self.new.every ≡ self.old.every }
        ensures from { self.new.period.from ≡ self.old.period.from }
        ensures place { self.new.period.place
            ≡ place_behind self.old.period.place (report_in _lock.now ending) }
        ensures figures { (now : Signals) → self.old.watcher.state.latest ≡ Some now
            → self.new.period.figures ≡ counted_report self.old.period.figures
            self.old.period.place found now changes (report_in _lock.now ending) }
        ensures others { is_whole (report_in _lock.now ending) ≡ false → (now : Signals)
            → self.new.period.figures ≡ counted_report self.old.period.figures
            self.old.period.place found now changes (report_in _lock.now ending) }
    {
        match ending {
            Ending::Whole { at, .. } => {
                let (first, second) = match &self.watcher.state.latest {
                    Some(now) => (now.first.invalid, now.second.invalid),
                    None => (0, 0),
                };
                self.period.count_whole(at, found, first, second, changes);
            }
            Ending::Marked { .. } => self.period.count_marked(),
            Ending::Fault { why, .. } => self.period.count_fault(why),
            Ending::Unfinished { .. } => {}
        }
    }

    /// Advances to and past a report, given the ending that a lock has just returned.
    ///
    /// # Errors
    /// The sink's fault; then it has taken a front of the lines.
    fn take_report<T: Sink>(
        &mut self,
        sink: &mut T,
        lock: &Lock,
        ending: Ending,
    ) -> Result<(), Fault>
        requires room { T.failed sink.old + 1 < 2 ^ 64 }
        requires few { self.old.watcher.state.losses + 8 < 2 ^ 64 }
        requires some { 0 < self.old.every }
        requires near { place_of (report_in lock.now ending) ≤ 2 ^ 43 }
        requires kept { IsKept self.old.watcher.state.latest self.old.watcher.lasts }
        ensures style { self.new.watcher.style ≡ self.old.watcher.style }
        ensures every { self.new.every ≡ self.old.every }
        ensures few { IfOk result (λ _.
            self.new.watcher.state.losses ≤ self.old.watcher.state.losses + 4) }
        ensures kept { IfOk result (λ _. IsKept self.new.watcher.state.latest self.new.watcher.lasts) }
        ensures state { IfOk result (λ _.
            with_period self.new.watcher.state self.new.period
            ≡ next_sum self.old.every (with_period self.old.watcher.state self.old.period)
            (report_in lock.now ending)) }
        ensures wrote { Wrote T.taken T.failed sink.old sink.new
            (notice_lines self.old.watcher.style (report_told self.old.every
            (with_period self.old.watcher.state self.old.period)
            (report_in lock.now ending))) result }
    {
        self.go_to(sink, place_in(lock, ending))?;
        let mut events = ArrayVec::new();
        let found = self.watcher.state.found;
        self.watcher.take_report(&mut events, lock, ending);
        self.count_report(lock, ending, found, changes_in(&events));
        put_events(&self.watcher.style, &events, sink)?;
        Ok(())
    }

    /// Writes the sum of the current period at the end of `seen` cells, if the period has cells.
    ///
    /// # Errors
    /// The sink's fault; then it has taken a front of the line.
    fn tell_last<T: Sink>(&self, sink: &mut T, seen: u64) -> Result<(), Fault>
        requires room { T.failed sink.old + 1 < 2 ^ 64 }
        ensures { Wrote T.taken T.failed sink.old sink.new
            (notice_lines self.now.watcher.style
            (last_sum (with_period self.now.watcher.state self.now.period) seen)) result }
    {
        if self.period.from >= seen {
            return Ok(());
        }
        self.tell(sink, seen)
    }

    /// Advances to the end of `seen` cells.
    ///
    /// # Errors
    /// The sink's fault; then it has taken a front of the lines.
    fn go_to_end<T: Sink>(&mut self, sink: &mut T, seen: u64) -> Result<(), Fault>
        requires room { T.failed sink.old + 1 < 2 ^ 64 }
        requires few { self.old.watcher.state.losses + 4 < 2 ^ 64 }
        requires some { 0 < self.old.every }
        ensures state { IfOk result (λ _.
            self.new.watcher.state ≡ up_to self.old.watcher.state seen) }
        ensures wrote { Wrote T.taken T.failed sink.old sink.new
            (notice_lines self.old.watcher.style (all_told self.old.every
            (with_period self.old.watcher.state self.old.period) seen))
            result }
    {
        self.go_to(sink, seen)?;
        self.tell_last(sink, seen)?;
        let mut events = ArrayVec::new();
        self.watcher.go_to_end(&mut events, seen);
        put_events(&self.watcher.style, &events, sink)?;
        Ok(())
    }
}

impl Listener for Summer {
    ghost follows = { λ k. Sums k.every (with_period k.watcher.state k.period)
        k.watcher.lasts };

    ghost writes = { λ k. summing k.watcher.style k.every };

    ghost finished = { λ k. Ended k.watcher.state.losses };

    fn hear<T: Sink>(
        &mut self,
        sink: &mut T,
        lock: &Lock,
        _blocks: u64,
        ending: Option<Ending>,
    ) -> Result<(), Fault> {
        match ending {
            Some(ending) => {
                self.take_report(sink, lock, ending)?;
                self.go_to(sink, lock.seen().saturating_sub(BLOCK_CELLS))
            }
            None => self.go_to(sink, lock.seen().saturating_sub(BLOCK_CELLS)),
        }
    }

    fn end<T: Sink>(
        &mut self,
        sink: &mut T,
        lock: &Lock,
        _blocks: u64,
        ending: Option<Ending>,
    ) -> Result<(), Fault> {
        match ending {
            Some(ending) => {
                self.take_report(sink, lock, ending)?;
                self.go_to_end(sink, lock.seen())
            }
            None => self.go_to_end(sink, lock.seen()),
        }
    }
}

/// Watches a line as `watch` does, and writes a line of sums for each `every` cells besides the
/// events. The first sum is of the first `every` cells, the second of the next, and so on up to the
/// end of the input.
///
/// A sum is written as soon as one of two things happens. A report after the sum's period is
/// decided, or a block's length of cells has come from the end of the period on. The last sum, if
/// it has cells, is written before `end`. A report is counted where it begins. A gap of a block's
/// length is counted where its last cell lies, a shorter one with the whole block that ends it.
///
/// # Errors
/// Those of `check`. The lines that were certain before, whatever cells follow, are written; after
/// `Write`, a front of them.
pub fn watch_sums<S: Source, T: Sink>(
    source: &mut S,
    sink: &mut T,
    max_bytes: u64,
    input: Form,
    style: Style,
    every: u64,
) -> Result<Counts, RunError>
    requires source_room { S.failed source.old + 1 < 2 ^ 64 }
    requires sink_room { T.failed sink.old + 1 < 2 ^ 64 }
    requires limit { max_bytes ≤ 2 ^ 40 }
    requires some { 0 < every }
    requires few { every ≤ 2 ^ 40 }

    // If it returns Ok, exactly the lines of the cells are written.
    ensures lines { IfOk result (λ _. (b : List ℕ)
        → Told (S.given source.old) (S.given source.new) b
        → Grew (T.taken sink.old) (T.taken sink.new) (sum_lines style every (cells_of input b))) }
    // A run over cells: it returns Ok if it can. An error has its cause, and what was certain
    // before it is written.
    ensures run { CellRun max_bytes input (record {
      whole = sum_lines style every;
      begun = begun_sums style every;
      counts = watch_counts input;
    }) (ends_of S.Source source.old source.new T.Sink sink.old sink.new) result }
{
    let summer = Summer::new(style, every);
    let (counts, summer) = run_cells(source, sink, max_bytes, input, summer)?;
    Ok(Counts {
        faults: counts.faults + summer.watcher.state.losses,
        ..counts
    })
}
