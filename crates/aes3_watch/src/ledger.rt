//! What is accounted for of all cells: the reports, and the gaps before them.

ghost use Rattle.std.specs.Prelude.{◌≡◌, ◌+◌, ◌<◌, ◌≤◌, ◌^◌, List, [], ◌∷◌, ◌++◌, length};
ghost use Rattle.std.specs.Prelude.{IfOk, None, nat_lt};
ghost use Rattle.std.specs.List.{filter};
ghost use Rattle.aes3_cell.specs.Writes.{Wrote};
ghost use Rattle.aes3_lock.specs.Following.{report_in};
ghost use Rattle.aes3_lock.specs.Remains.{place_of};
ghost use Rattle.aes3_lock.specs.Reports.{wholes};
ghost use Rattle.aes3_lock_gaps.specs.Gaps.{behind_full, behind_report, gaps_before, is_lost, reported};
ghost use Rattle.aes3_lock_gaps.specs.Told.{due_gaps, gap_entry};
ghost use Rattle.aes3_watch.specs.Accounting.{IsClosedLedgerOf, IsLedgerOf, accounting};
ghost use Rattle.aes3_watch.specs.GapLines.{account_lines};

use crate::gap_line::line_of_gap;
use aes3_cell::{Fault, Sink};
use aes3_lock::{Ending, Lock};
use aes3_lock_gaps::{Account, Due, Gap};
use aes3_lock_runs::Listener;
use aes3_text_lines::Lines;
use aes3_text_reports::tell_ending;

/// What is accounted for, and how many of its gaps count as faults.
#[derive(Drop)]
pub(crate) struct Ledger {
    pub(crate) lines: Lines,
    pub(crate) account: Account,
    pub(crate) lost: u64,
}

impl Ledger {
    /// A ledger that accounts for no cell.
    pub(crate) fn new(lines: Lines) -> Self
        ensures lines { result.lines ≡ lines }
        ensures none { IsLedgerOf result [] }
    {
        Ledger {
            lines,
            account: Account::new(),
            lost: 0,
        }
    }

    /// Writes a gap, and counts it if it is a fault.
    ///
    /// # Errors
    /// The sink's fault; then it has taken a front of its line.
    #[inline(never)]
    fn tell_gap<T: Sink>(&mut self, sink: &mut T, gap: Gap) -> Result<(), Fault>
        requires room { T.failed sink.old + 1 < 2 ^ 64 }
        requires few { self.old.lost + 1 < 2 ^ 64 }
        ensures lines { self.new.lines ≡ self.old.lines }
        ensures account { self.new.account ≡ self.old.account }
        ensures lost { self.new.lost
            ≡ self.old.lost + length (filter is_lost (gap_entry gap ∷ [])) }
        ensures wrote { Wrote T.taken T.failed sink.old sink.new
            (account_lines self.old.lines (gap_entry gap ∷ [])) result }
    {
        if gap.counts {
            self.lost += 1;
        }
        line_of_gap(gap.at, gap.cells, sink)
    }

    /// Writes the gaps that are due.
    ///
    /// # Errors
    /// The sink's fault; then it has taken a front of their lines.
    #[inline(always)]
    fn tell_gaps<T: Sink>(&mut self, sink: &mut T, due: Due) -> Result<(), Fault>
        requires room { T.failed sink.old + 1 < 2 ^ 64 }
        requires few { self.old.lost + due.to < 2 ^ 64 }
        ensures lines { self.new.lines ≡ self.old.lines }
        ensures found { self.new.account.found ≡ self.old.account.found }
        ensures place { IfOk result (λ _. due.short ≡ None
            → self.new.account.place ≡ behind_full self.old.account.place due.to) }
        ensures lost { IfOk result (λ _. self.new.lost
            ≡ self.old.lost + length (filter is_lost (due_gaps self.old.account.place due))) }
        ensures few { IfOk result (λ _. self.new.lost ≤ self.old.lost + due.to) }
        ensures wrote { Wrote T.taken T.failed sink.old sink.new
            (account_lines self.old.lines (due_gaps self.old.account.place due)) result }
    {
        while let Some(gap) = self.account.next(due) {
            self.tell_gap(sink, gap)?;
        }
        Ok(())
    }

    /// Writes the gaps before a report, and then the report, up to which the cells are then
    /// accounted for.
    ///
    /// # Errors
    /// The sink's fault; then it has taken a front of their lines.
    #[inline(always)]
    fn tell<T: Sink>(
        &mut self,
        sink: &mut T,
        blocks: u64,
        lock: &Lock,
        ending: Ending,
    ) -> Result<(), Fault>
        requires room { T.failed sink.old + 1 < 2 ^ 64 }
        requires few { self.old.lost + place_of (report_in lock.now ending) + 1 < 2 ^ 64 }
        requires near { place_of (report_in lock.now ending) ≤ 2 ^ 43 }
        requires found { self.old.account.found ≡ nat_lt 0 blocks }
        ensures lines { self.new.lines ≡ self.old.lines }
        ensures found { IfOk result (λ _. self.new.account.found ≡ nat_lt 0
            (blocks + length (wholes (report_in lock.now ending ∷ [])))) }
        ensures place { IfOk result (λ _. self.new.account.place
            ≡ behind_report self.old.account.place (report_in lock.now ending)) }
        ensures lost { IfOk result (λ _. self.new.lost
            ≡ self.old.lost + length (filter is_lost
            (gaps_before blocks self.old.account.place
            (report_in lock.now ending)))) }
        ensures few { IfOk result (λ _. self.new.lost ≤ self.old.lost + place_of (report_in lock.now ending) + 1) }
        ensures wrote { Wrote T.taken T.failed sink.old sink.new
            (account_lines self.old.lines
            (gaps_before blocks self.old.account.place
            (report_in lock.now ending)
            ++ reported (report_in lock.now ending) ∷ [])) result }
    {
        self.tell_gaps(sink, Due::before_report(ending, self.account.found))?;
        self.account.take(ending);
        tell_ending(self.lines, ending, sink)
    }
}

impl Listener for Ledger {
    ghost follows = { IsLedgerOf };

    ghost writes = { λ k. accounting k.lines };

    ghost finished = { IsClosedLedgerOf };

    #[inline(always)]
    fn hear<T: Sink>(
        &mut self,
        sink: &mut T,
        lock: &Lock,
        blocks: u64,
        ending: Option<Ending>,
    ) -> Result<(), Fault> {
        match ending {
            Some(ending) => {
                self.tell(sink, blocks, lock, ending)?;
                self.tell_gaps(sink, Due::passed(lock.seen()))
            }
            None => self.tell_gaps(sink, Due::passed(lock.seen())),
        }
    }

    fn end<T: Sink>(
        &mut self,
        sink: &mut T,
        lock: &Lock,
        blocks: u64,
        ending: Option<Ending>,
    ) -> Result<(), Fault> {
        match ending {
            Some(ending) => {
                self.tell(sink, blocks, lock, ending)?;
                self.tell_gaps(sink, Due::end(lock.seen()))
            }
            None => self.tell_gaps(sink, Due::end(lock.seen())),
        }
    }
}
