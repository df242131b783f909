//! Counts of reports.

ghost use Rattle.std.specs.Prelude.{◌+◌, ◌<◌, ◌^◌, ◌++◌, List, [], ◌∷◌, length};
ghost use Rattle.aes3_lock.specs.declared.report.Report.{Report};
ghost use Rattle.aes3_lock.specs.Following.{report_in};
ghost use Rattle.aes3_lock.specs.Tallies.{IsTallyOf};

use crate::lock::Lock;
use crate::report::Ending;

/// The numbers of reports of whole blocks, of faulty ones, and of those that the end cuts.
#[derive(Clone, Copy)]
pub struct Tally {
    pub blocks: u64,
    pub faults: u64,
    pub unfinished: u64,
}

impl Tally {
    /// No report.
    pub fn new() -> Self
        ensures { IsTallyOf result [] }
    {
        Tally {
            blocks: 0,
            faults: 0,
            unfinished: 0,
        }
    }

    /// Counts the report of an ending that a lock has just returned.
    pub fn count(&mut self, lock: &Lock, ending: Ending)
        requires { (r : List Report) × (length r + 1 < 2 ^ 44) × IsTallyOf self.old r }
        ensures { (r : List Report) → IsTallyOf self.old r
            → IsTallyOf self.new (r ++ report_in lock.now ending ∷ []) }
    {
        match ending {
            Ending::Whole { .. } => self.blocks += 1,
            Ending::Marked { .. } => self.faults += 1,
            Ending::Fault { .. } => self.faults += 1,
            Ending::Unfinished { .. } => self.unfinished += 1,
        }
    }
}
