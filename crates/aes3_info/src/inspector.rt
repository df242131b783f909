//! Counting cells as they come, and the page at their end.

ghost use Rattle.std.specs.Prelude.{◌≡◌, ℕ, ◌+◌, ◌<◌, ◌≤◌, ◌^◌, ◌∷◌, ◌++◌, List, [], IfOk, false, length};
ghost use Rattle.aes3_cell.specs.Ends.{Grew, Told};
ghost use Rattle.aes3_input.specs.Driving.{CellRun};
ghost use Rattle.aes3_input.specs.Inputs.{cells_of};
ghost use Rattle.aes3_input.specs.Running.{ends_of};
ghost use Rattle.aes3_lock.specs.declared.report.Report.{Report};
ghost use Rattle.aes3_lock.specs.Following.{report_in};
ghost use Rattle.aes3_lock.specs.Remains.{place_of};
ghost use Rattle.aes3_lock.specs.Reports.{wholes};
ghost use Rattle.aes3_lock_gaps.specs.Gaps.{account_from, behind_report, gaps, gaps_before};
ghost use Rattle.aes3_info.specs.Facts.{facts_of, facts_with, gap_facts, is_whole, most_count, total};
ghost use Rattle.aes3_info.specs.Infos.{Behind, Inspects, info_counts, info_page, inspecting, no_page};
ghost use Rattle.aes3_info.specs.Infos.{with_samples};

use crate::channel_facts::ChannelFacts;
use crate::facts::Facts;
use crate::gaps::{GapFacts, behind_full};
use crate::page::put_page;
use crate::reports::ReportFacts;
use crate::saturating::more;
use aes3_block::Channel;
use aes3_cell::{Counts, Fault, Form, RunError, Sink, Source};
use aes3_frame::BLOCK_CELLS;
use aes3_lock::{Ending, Lock};
use aes3_lock_runs::{Listener, run_cells};
use aes3_status::Notation;

/// What is known of a recording after some cells.
#[derive(Drop)]
struct Inspector {
    notation: Notation,
    facts: Facts,
    /// The reports account for all cells before this place.
    place: u64,
}

/// The facts before the first cell.
fn no_facts() -> Facts
    ensures { result ≡ facts_with 0 [] [] }
{
    Facts {
        cells: 0,
        reports: ReportFacts::none(),
        gaps: GapFacts::none(),
        first: ChannelFacts::none(Channel::First),
        second: ChannelFacts::none(Channel::Second),
    }
}

impl Inspector {
    /// The state before the first cell.
    fn new(notation: Notation) -> Self
        ensures notation { result.notation ≡ notation }
        ensures none { Inspects result.facts result.place [] }
    {
        Inspector {
            notation,
            facts: no_facts(),
            place: 0,
        }
    }

    /// The gaps before a report, given the ending that a lock has just returned.
    fn gaps_before(&self, _lock: &Lock, ending: Ending) -> GapFacts
        ensures { (r : List Report) → self.now.facts.reports.whole ≡ total most_count is_whole r
            → result ≡ gap_facts (gaps_before (length (wholes r)) self.now.place
            (report_in _lock.now ending)) }
    {
        match ending {
            Ending::Whole { at, .. } => GapFacts::all(self.facts.reports.whole > 0, self.place, at),
            Ending::Marked { at, .. } => GapFacts::full(self.place, at),
            Ending::Fault { at, .. } => GapFacts::full(self.place, at),
            Ending::Unfinished { at, .. } => GapFacts::full(self.place, at),
        }
    }

    /// The place up to which a report accounts for the cells, given the ending that a lock has just
    /// returned.
    fn place_behind(&self, _lock: &Lock, ending: Ending) -> u64
        requires near { place_of (report_in _lock.now ending) ≤ 2 ^ 43 }
        ensures { result ≡ behind_report self.now.place (report_in _lock.now ending) }
    {
        match ending {
            Ending::Whole { at, .. } => at + BLOCK_CELLS,
            Ending::Marked { at, .. } => behind_full(self.place, at),
            Ending::Fault { at, .. } => behind_full(self.place, at),
            Ending::Unfinished { at, .. } => behind_full(self.place, at),
        }
    }

    /// Counts the samples of a whole block, if this is its ending.
    fn count_samples(&mut self, lock: &Lock, ending: Ending)
        ensures notation { self.new.notation ≡ self.old.notation }
        ensures place { self.new.place ≡ self.old.place }
        ensures facts { self.new.facts ≡ with_samples self.old.facts (report_in lock.now ending) }
    {
        if let Ending::Whole { .. } = ending {
            let block = lock.gathered_cells().block();
            self.facts.first.count(&block, Channel::First);
            self.facts.second.count(&block, Channel::Second);
        }
    }

    /// Counts a report, given the ending that a lock has just returned, and the gaps before it.
    fn count(&mut self, lock: &Lock, ending: Ending)
        requires near { place_of (report_in lock.now ending) ≤ 2 ^ 43 }
        ensures notation { self.new.notation ≡ self.old.notation }
        ensures next { (r : List Report) → Behind self.old.facts self.old.place r
            → Behind self.new.facts self.new.place (r ++ report_in lock.now ending ∷ []) }
    {
        let gaps = self.gaps_before(lock, ending);
        self.facts.gaps = self.facts.gaps.and(gaps);
        self.facts.reports.count(lock, ending);
        self.count_samples(lock, ending);
        self.place = self.place_behind(lock, ending);
    }

    /// Counts the gaps after the last report, up to the end of `seen` cells.
    fn count_rest(&mut self, seen: u64)
        ensures notation { self.new.notation ≡ self.old.notation }
        ensures facts { (r : List Report) → Behind self.old.facts self.old.place r
            → self.new.facts ≡ facts_with seen r (account_from 0 0 r ++ gaps false self.old.place seen) }
    {
        self.facts.gaps = self.facts.gaps.and(GapFacts::all(false, self.place, seen));
        self.facts.cells = seen;
    }
}

impl Listener for Inspector {
    ghost follows = { λ k. Inspects k.facts k.place };

    ghost writes = { λ k. inspecting k.notation };

    ghost finished = { λ k c. k.facts ≡ facts_of c };

    fn hear<T: Sink>(
        &mut self,
        _sink: &mut T,
        lock: &Lock,
        _blocks: u64,
        ending: Option<Ending>,
    ) -> Result<(), Fault> {
        match ending {
            Some(ending) => {
                self.count(lock, ending);
                Ok(())
            }
            None => Ok(()),
        }
    }

    fn end<T: Sink>(
        &mut self,
        sink: &mut T,
        lock: &Lock,
        _blocks: u64,
        ending: Option<Ending>,
    ) -> Result<(), Fault> {
        match ending {
            Some(ending) => {
                self.count(lock, ending);
                self.count_rest(lock.seen());
                put_page(sink, self.notation, &self.facts)
            }
            None => {
                self.count_rest(lock.seen());
                put_page(sink, self.notation, &self.facts)
            }
        }
    }
}

/// Reads cells from any cell on, and writes one page about them at their end:
/// - how many cells, blocks, faults and gaps there are,
/// - the rate that the first whole block names in channel 1 (AES3-2, IEC 60958-3), and how long the
///   cells take at that rate,
/// - for each channel the status, how often that changes, how many validity bits are 1, and the
///   peak and the RMS of the samples.
///
/// Faults, gaps and blocks are those of `account`, as one number each. Gaps that count are counted
/// as faults.
///
/// # Errors
/// Those of `check`. Then nothing is written; after `Write`, a front of the page.
pub fn info<S: Source, T: Sink>(
    source: &mut S,
    sink: &mut T,
    max_bytes: u64,
    input: Form,
    notation: Notation,
) -> Result<Counts, RunError>
    requires source_room { S.failed source.old + 1 < 2 ^ 64 }
    requires sink_room { T.failed sink.old + 1 < 2 ^ 64 }
    requires limit { max_bytes ≤ 2 ^ 40 }

    // If it returns Ok, exactly the page of the cells is written.
    ensures page { IfOk result (λ _. (b : List ℕ)
        → Told (S.given source.old) (S.given source.new) b
        → Grew (T.taken sink.old) (T.taken sink.new) (info_page notation (cells_of input b))) }
    // A run over cells: it returns Ok if it can. An error has its cause, and nothing is written
    // before the end.
    ensures run { CellRun max_bytes input (record {
      whole = info_page notation;
      begun = no_page;
      counts = info_counts input;
    }) (ends_of S.Source source.old source.new T.Sink sink.old sink.new) result }
{
    let inspector = Inspector::new(notation);
    let (counts, inspector) = run_cells(source, sink, max_bytes, input, inspector)?;
    let facts = &inspector.facts;
    Ok(Counts {
        bytes: counts.bytes,
        cells: counts.cells,
        blocks: facts.reports.whole,
        faults: more(
            more(facts.reports.marked, facts.reports.fault),
            facts.gaps.gaps,
        ),
        unfinished: facts.reports.unfinished,
        marks: 0,
    })
}
