//! A watched line: what changes, in a few lines.

ghost use Rattle.std.specs.Prelude.{◌≡◌, ℕ, ◌+◌, ◌<◌, ◌≤◌, ◌^◌, ◌++◌, ◌∷◌, [], List, Some, IfOk, length};
ghost use Rattle.arrayvec.specs.ArrayVec.{array_vec_len};
ghost use Rattle.aes3_cell.specs.Ends.{Grew, Told};
ghost use Rattle.aes3_cell.specs.Writes.{Wrote};
ghost use Rattle.aes3_slot.specs.ReadWords.{read_words};
ghost use Rattle.aes3_lock.specs.Following.{report_in};
ghost use Rattle.aes3_lock.specs.Outcomes.{payloads_of};
ghost use Rattle.aes3_lock.specs.Remains.{place_of};
ghost use Rattle.aes3_input.specs.Driving.{CellRun};
ghost use Rattle.aes3_input.specs.Inputs.{cells_of};
ghost use Rattle.aes3_input.specs.Running.{ends_of};
ghost use Rattle.aes3_text_lines.specs.declared.event.Event.TheVariants.{End};
ghost use Rattle.aes3_watch.specs.Signals.{change_events, signals_of};
ghost use Rattle.aes3_watch.specs.Watching.{Ended, IsKept, SaysSo, Watches, begun_watch, behind_whole};
ghost use Rattle.aes3_watch.specs.Watching.{event_lines, is_locked, is_told, loss_events, next};
ghost use Rattle.aes3_watch.specs.Watching.{slips, told_events, unwatched, up_to, watch_counts};
ghost use Rattle.aes3_watch.specs.Watching.{watch_lines, watching, whole_events};

use crate::signals::{EVENTS, Signals, add_changes, carry_the_same, last_cells_of, no_cells};
use aes3_block::SUBFRAMES;
use aes3_cell::{Counts, Fault, Form, Level, RunError, Sink, Source};
use aes3_frame::BLOCK_CELLS;
use aes3_lock::{Ending, Lock};
use aes3_lock_runs::{Listener, run_cells};
use aes3_text_lines::{Event, Style, line_of_event};
use arrayvec::ArrayVec;

/// Writes the lines of events.
///
/// # Errors
/// The sink's fault; then it has taken a front of the lines.
#[inline(always)]
pub(crate) fn put_events<T: Sink>(
    style: &Style,
    events: &[Event],
    sink: &mut T,
) -> Result<(), Fault>
    requires room { T.failed sink.old + 1 < 2 ^ 64 }
    ensures { Wrote T.taken T.failed sink.old sink.new (event_lines style.now events.now) result }
{
    for event in events {
        line_of_event(style, event, sink)?;
    }
    Ok(())
}

/// The state of a line after some cells.
#[derive(Clone, Copy)]
pub struct Watched {
    /// Whether a whole block has come.
    pub found: bool,
    /// The cell after the last whole block, or the first cell of all.
    pub place: u64,
    /// Whether the cells from there on are reported as lost.
    pub lost: bool,
    /// How often cells were reported as lost, and whole blocks as slipped.
    pub losses: u64,
    /// What the last whole block says of its samples, if there is one.
    pub latest: Option<Signals>,
}

impl Watched {
    /// The state before the first cell.
    pub fn new() -> Self
        ensures { result ≡ unwatched }
    {
        Watched {
            found: false,
            place: 0,
            lost: false,
            losses: 0,
            latest: None,
        }
    }

    /// Whether nothing is left to report of the cells up to cell `to`. No whole block begins before
    /// it.
    #[inline(always)]
    fn is_told(&self, to: u64) -> bool
        ensures { result ≡ is_told self.now to }
    {
        self.lost || to.saturating_sub(self.place) < BLOCK_CELLS
    }

    /// Whether a whole block at cell `at` begins fewer cells than a block has after the whole block
    /// before it.
    fn slips(&self, at: u64) -> bool
        ensures { result ≡ slips self.now at }
    {
        self.found && !self.lost && self.place < at
    }

    /// Whether there was a whole block, and the cells after the last one are not reported as lost.
    fn is_locked(&self) -> bool
        ensures { result ≡ is_locked self.now }
    {
        self.found && !self.lost
    }

    /// Advances to cell `to`. No whole block begins before it.
    #[inline(always)]
    fn up_to(self, to: u64) -> Self
        requires few { self.losses + 1 < 2 ^ 64 }
        ensures { result ≡ up_to self to }
    {
        if self.is_told(to) {
            return self;
        }
        Watched {
            found: self.found,
            place: self.place,
            lost: true,
            losses: self.losses + 1,
            latest: self.latest,
        }
    }

    /// Advances past a whole block at cell `at` with these signals.
    fn behind_whole(self, at: u64, now: Signals) -> Self
        requires few { self.losses + 1 < 2 ^ 64 }
        requires near { at ≤ 2 ^ 43 }
        ensures { result ≡ behind_whole self at now }
    {
        let slips = self.slips(at);
        Watched {
            found: true,
            place: at + BLOCK_CELLS,
            lost: false,
            losses: if slips { self.losses + 1 } else { self.losses },
            latest: Some(now),
        }
    }

    /// Adds the event of lost cells up to cell `to`, if they are to be reported.
    #[inline(always)]
    fn add_loss(&self, events: &mut ArrayVec<Event, EVENTS>, to: u64)
        requires { array_vec_len events.old + 1 ≤ EVENTS }
        ensures events { events.new.items ≡ events.old.items ++ loss_events self.now to }
        ensures len { array_vec_len events.new ≤ array_vec_len events.old + 1 }
    {
        if !self.is_told(to) {
            events.push(Event::Lost { at: self.place });
        }
    }

    /// Adds the event of a whole block's place, if it gets one.
    fn add_whole(&self, events: &mut ArrayVec<Event, EVENTS>, at: u64, before: Level)
        requires { array_vec_len events.old + 1 ≤ EVENTS }
        ensures events { events.new.items ≡ events.old.items ++ whole_events self.now at before }
        ensures len { array_vec_len events.new ≤ array_vec_len events.old + 1 }
    {
        if !self.found {
            events.push(Event::Locked { at, before });
        } else if self.lost {
            let lost = at.saturating_sub(self.place);
            events.push(Event::Back { at, lost });
        } else if self.place < at {
            let cells = at - self.place;
            events.push(Event::Slipped { at, cells });
        }
    }

    /// Advances to cell `to`, and adds the event of the cells that are lost before it, if any. No
    /// whole block begins before it.
    #[inline(always)]
    pub fn go_on(&mut self, events: &mut ArrayVec<Event, EVENTS>, to: u64)
        requires few { self.old.losses + 1 < 2 ^ 64 }
        requires room { array_vec_len events.old + 1 ≤ EVENTS }
        ensures state { self.new ≡ up_to self.old to }
        ensures few { self.new.losses ≤ self.old.losses + 1 }
        ensures latest { self.new.latest ≡ self.old.latest }
        ensures events { events.new.items ≡ events.old.items ++ loss_events self.old to }
        ensures len { array_vec_len events.new ≤ array_vec_len events.old + 1 }
    {
        self.add_loss(events, to);
        *self = self.up_to(to);
    }

    /// Advances to and past a whole block at cell `at` with these signals, and adds its events.
    pub fn take_whole(
        &mut self,
        events: &mut ArrayVec<Event, EVENTS>,
        at: u64,
        before: Level,
        now: Signals,
    )
        requires few { self.old.losses + 2 < 2 ^ 64 }
        requires near { at ≤ 2 ^ 43 }
        requires room { array_vec_len events.old + 6 ≤ EVENTS }
        ensures state { self.new ≡ behind_whole (up_to self.old at) at now }
        ensures few { self.new.losses ≤ self.old.losses + 2 }
        ensures latest { self.new.latest ≡ Some now }
        ensures events { events.new.items ≡ events.old.items ++ (loss_events self.old at
            ++ (whole_events (up_to self.old at) at before ++ change_events at self.old.latest now)) }
        ensures len { array_vec_len events.new ≤ array_vec_len events.old + 6 }
    {
        self.go_on(events, at);
        self.add_whole(events, at, before);
        add_changes(events, at, &self.latest, &now);
        *self = self.behind_whole(at, now);
    }

    /// Advances to the end of `seen` cells, and adds the events of the end. No whole block begins
    /// in the cells that are left.
    pub fn go_to_end(&mut self, events: &mut ArrayVec<Event, EVENTS>, seen: u64)
        requires few { self.old.losses + 1 < 2 ^ 64 }
        requires room { array_vec_len events.old + 2 ≤ EVENTS }
        ensures state { self.new ≡ up_to self.old seen }
        ensures events { events.new.items ≡ events.old.items ++ (loss_events self.old seen
            ++ End seen (is_locked (up_to self.old seen)) ∷ []) }
        ensures len { array_vec_len events.new ≤ array_vec_len events.old + 2 }
    {
        self.go_on(events, seen);
        events.push(Event::End {
            at: seen,
            locked: self.is_locked(),
        });
    }
}

/// What is kept of a watched line.
#[derive(Drop)]
pub(crate) struct Watcher {
    pub(crate) style: Style,
    pub(crate) state: Watched,
    /// The last eight cells of each subframe of a whole block with the same signals as the last
    /// one.
    pub(crate) lasts: [u8; SUBFRAMES],
}

impl Watcher {
    /// A watcher before the first cell.
    pub(crate) fn new(style: Style) -> Self
        ensures state { Watches result.state result.lasts [] }
        ensures style { result.style ≡ style }
    {
        Watcher {
            style,
            state: Watched::new(),
            lasts: no_cells(),
        }
    }

    /// What a lock's whole block says of its samples.
    #[tactic(auto, using(crate::proofs::SignalWords::said_same, crate::proofs::SignalWords::said_new))]
    fn signals(&mut self, lock: &Lock) -> Signals
        requires { IsKept self.old.state.latest self.old.lasts }
        ensures signals { result ≡ signals_of (payloads_of (read_words lock.now.words)) }
        ensures kept { SaysSo self.new.lasts result }
        ensures style { self.new.style ≡ self.old.style }
        ensures state { self.new.state ≡ self.old.state }
    {
        let words = lock.words();
        match self.state.latest {
            Some(latest) if carry_the_same(words, &self.lasts) => latest,
            _ => {
                self.lasts = last_cells_of(words);
                Signals::of(&lock.gathered_cells().block())
            }
        }
    }

    /// Advances to cell `to`. No whole block begins before it.
    #[inline(always)]
    pub(crate) fn go_on(&mut self, events: &mut ArrayVec<Event, EVENTS>, to: u64)
        requires few { self.old.state.losses + 1 < 2 ^ 64 }
        requires room { array_vec_len events.old + 1 ≤ EVENTS }
        ensures style { self.new.style ≡ self.old.style }
        ensures lasts { self.new.lasts ≡ self.old.lasts }
        ensures state { self.new.state ≡ up_to self.old.state to }
        ensures few { self.new.state.losses ≤ self.old.state.losses + 1 }
        ensures latest { self.new.state.latest ≡ self.old.state.latest }
        ensures events { events.new.items ≡ events.old.items ++ loss_events self.old.state to }
        ensures len { array_vec_len events.new ≤ array_vec_len events.old + 1 }
    {
        self.state.go_on(events, to);
    }

    /// Advances to and past a lock's whole block at cell `at`.
    #[inline(never)]
    fn take_whole(
        &mut self,
        events: &mut ArrayVec<Event, EVENTS>,
        lock: &Lock,
        at: u64,
        before: Level,
    )
        requires few { self.old.state.losses + 2 < 2 ^ 64 }
        requires near { at ≤ 2 ^ 43 }
        requires kept { IsKept self.old.state.latest self.old.lasts }
        requires room { array_vec_len events.old + 6 ≤ EVENTS }
        ensures style { self.new.style ≡ self.old.style }
        ensures kept { IsKept self.new.state.latest self.new.lasts }
        ensures state { self.new.state ≡ behind_whole (up_to self.old.state at) at
            (signals_of (payloads_of (read_words lock.now.words))) }
        ensures few { self.new.state.losses ≤ self.old.state.losses + 2 }
        ensures events { events.new.items ≡ events.old.items ++ (loss_events self.old.state at
            ++ (whole_events (up_to self.old.state at) at before
            ++ change_events at self.old.state.latest
            (signals_of (payloads_of (read_words lock.now.words))))) }
        ensures len { array_vec_len events.new ≤ array_vec_len events.old + 6 }
    {
        let now = self.signals(lock);
        self.state.take_whole(events, at, before, now);
    }

    /// Advances to a report.
    #[inline(always)]
    pub(crate) fn take_report(
        &mut self,
        events: &mut ArrayVec<Event, EVENTS>,
        lock: &Lock,
        ending: Ending,
    )
        requires few { self.old.state.losses + 2 < 2 ^ 64 }
        requires near { place_of (report_in lock.now ending) ≤ 2 ^ 43 }
        requires kept { IsKept self.old.state.latest self.old.lasts }
        requires room { array_vec_len events.old + 6 ≤ EVENTS }
        ensures style { self.new.style ≡ self.old.style }
        ensures kept { IsKept self.new.state.latest self.new.lasts }
        ensures state { self.new.state ≡ next self.old.state (report_in lock.now ending) }
        ensures few { self.new.state.losses ≤ self.old.state.losses + 2 }
        ensures events { events.new.items ≡ events.old.items
            ++ told_events self.old.state (report_in lock.now ending) }
        ensures len { array_vec_len events.new ≤ array_vec_len events.old + 6 }
    {
        match ending {
            Ending::Whole { at, before } => self.take_whole(events, lock, at, before),
            Ending::Marked { at, .. } => self.go_on(events, at),
            Ending::Fault { at, .. } => self.go_on(events, at),
            Ending::Unfinished { at, .. } => self.go_on(events, at),
        }
    }

    /// Advances to the end of `seen` cells.
    pub(crate) fn go_to_end(&mut self, events: &mut ArrayVec<Event, EVENTS>, seen: u64)
        requires few { self.old.state.losses + 1 < 2 ^ 64 }
        requires room { array_vec_len events.old + 2 ≤ EVENTS }
        ensures style { self.new.style ≡ self.old.style }
        ensures state { self.new.state ≡ up_to self.old.state seen }
        ensures events { events.new.items ≡ events.old.items ++ (loss_events self.old.state seen
            ++ End seen (is_locked (up_to self.old.state seen)) ∷ []) }
    {
        self.state.go_to_end(events, seen);
    }
}

impl Listener for Watcher {
    ghost follows = { λ k. Watches k.state k.lasts };

    ghost writes = { λ k. watching k.style };

    ghost finished = { λ k. Ended k.state.losses };

    #[inline(always)]
    fn hear<T: Sink>(
        &mut self,
        sink: &mut T,
        lock: &Lock,
        _blocks: u64,
        ending: Option<Ending>,
    ) -> Result<(), Fault> {
        let mut events = ArrayVec::new();
        match ending {
            Some(ending) => {
                self.take_report(&mut events, lock, ending);
                self.go_on(&mut events, lock.seen().saturating_sub(BLOCK_CELLS));
                put_events(&self.style, &events, sink)
            }
            None => {
                self.go_on(&mut events, lock.seen().saturating_sub(BLOCK_CELLS));
                put_events(&self.style, &events, sink)
            }
        }
    }

    fn end<T: Sink>(
        &mut self,
        sink: &mut T,
        lock: &Lock,
        _blocks: u64,
        ending: Option<Ending>,
    ) -> Result<(), Fault> {
        let mut events = ArrayVec::new();
        match ending {
            Some(ending) => {
                self.take_report(&mut events, lock, ending);
                self.go_to_end(&mut events, lock.seen());
                put_events(&self.style, &events, sink)
            }
            None => {
                self.go_to_end(&mut events, lock.seen());
                put_events(&self.style, &events, sink)
            }
        }
    }
}

/// Reads cells from any cell on, and writes a line if what is known of them as an AES3 line
/// changes:
///
/// - `locked`: the first whole block.
/// - `lost`: at least a block's length of cells lies in no whole block.
/// - `back`: the first whole block after these cells.
/// - `slipped`: a whole block follows the one before it after a gap of fewer cells.
/// - `status`: in a whole block, a channel's status (AES3-2, IEC 60958-3) is not that of the whole
///   block before it.
/// - `validity`: a channel's validity bits are not all 0, all 1 or mixed as in the whole block
///   before it.
/// - `end`: the input has ended.
///
/// A loss is written when a report after it is decided, or when two blocks' cells have come from
/// its first cell on. Losses and slips are counted as faults: there is one if a gap of `account`
/// counts.
///
/// # Errors
/// Those of `check`. The lines that were certain before, whatever cells follow, are written; after
/// `Write`, a front of them.
pub fn watch<S: Source, T: Sink>(
    source: &mut S,
    sink: &mut T,
    max_bytes: u64,
    input: Form,
    style: Style,
) -> Result<Counts, RunError>
    requires source_room { S.failed source.old + 1 < 2 ^ 64 }
    requires sink_room { T.failed sink.old + 1 < 2 ^ 64 }
    requires limit { max_bytes ≤ 2 ^ 40 }

    // If it returns Ok, exactly the lines of the cells are written.
    ensures lines { IfOk result (λ _. (b : List ℕ)
        → Told (S.given source.old) (S.given source.new) b
        → Grew (T.taken sink.old) (T.taken sink.new) (watch_lines style (cells_of input b))) }
    // A run over cells: it returns Ok if it can. An error has its cause, and what was certain
    // before it is written.
    ensures run { CellRun max_bytes input (record {
      whole = watch_lines style;
      begun = begun_watch style;
      counts = watch_counts input;
    }) (ends_of S.Source source.old source.new T.Sink sink.old sink.new) result }
{
    let (counts, watcher) = run_cells(source, sink, max_bytes, input, Watcher::new(style))?;
    Ok(Counts {
        faults: counts.faults + watcher.state.losses,
        ..counts
    })
}
