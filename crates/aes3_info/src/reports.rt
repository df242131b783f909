//! The counts of the reports on cells.

ghost use Rattle.std.specs.Prelude.{◌≡◌, []};
ghost use Rattle.aes3_lock.specs.Following.{report_in};
ghost use Rattle.aes3_watch.specs.Sums.{is_biphase, is_preamble, is_unclosed};
ghost use Rattle.aes3_info.specs.Facts.{report_facts, with_report};

use crate::saturating::more;
use aes3_lock::{Ending, Lock, Why};

/// How many reports there were of each kind.
#[derive(Clone, Copy)]
pub(crate) struct ReportFacts {
    /// Of whole blocks.
    pub(crate) whole: u64,
    /// Of blocks with a wrong parity bit in a subframe.
    pub(crate) marked: u64,
    /// Of candidates that a cell refutes, whatever the cause.
    pub(crate) fault: u64,
    /// Of candidates that a cell of a preamble refutes.
    pub(crate) preamble: u64,
    /// Of candidates that a time slot without a change of level at its beginning refutes.
    pub(crate) biphase: u64,
    /// Of candidates that the cell after their last subframe refutes.
    pub(crate) unclosed: u64,
    /// Of blocks that the end cuts off.
    pub(crate) unfinished: u64,
}

/// Whether a cause is each of the three, as numbers.
fn causes(why: Why) -> (u64, u64, u64)
    ensures preamble { result.0 ≡ is_preamble why }
    ensures biphase { result.1 ≡ is_biphase why }
    ensures unclosed { result.2 ≡ is_unclosed why }
{
    match why {
        Why::Preamble => (1, 0, 0),
        Why::Biphase => (0, 1, 0),
        Why::Unclosed => (0, 0, 1),
    }
}

impl ReportFacts {
    /// The counts without any report.
    #[tactic(auto, unfolding(crate::specs::Facts::total, crate::specs::Facts::most_count))]
    pub(crate) fn none() -> Self
        ensures { result ≡ report_facts [] }
    {
        ReportFacts {
            whole: 0,
            marked: 0,
            fault: 0,
            preamble: 0,
            biphase: 0,
            unclosed: 0,
            unfinished: 0,
        }
    }

    /// Counts the report of an ending that a lock has just returned.
    pub(crate) fn count(&mut self, _lock: &Lock, ending: Ending)
        ensures { self.new ≡ with_report self.old (report_in _lock.now ending) }
    {
        let (whole, marked, fault, unfinished) = match ending {
            Ending::Whole { .. } => (1, 0, 0, 0),
            Ending::Marked { .. } => (0, 1, 0, 0),
            Ending::Fault { .. } => (0, 0, 1, 0),
            Ending::Unfinished { .. } => (0, 0, 0, 1),
        };
        let (preamble, biphase, unclosed) = match ending {
            Ending::Fault { why, .. } => causes(why),
            _ => (0, 0, 0),
        };
        self.whole = more(self.whole, whole);
        self.marked = more(self.marked, marked);
        self.fault = more(self.fault, fault);
        self.preamble = more(self.preamble, preamble);
        self.biphase = more(self.biphase, biphase);
        self.unclosed = more(self.unclosed, unclosed);
        self.unfinished = more(self.unfinished, unfinished);
    }
}
