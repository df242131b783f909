//! How near candidates are to one another, and so how many reports a word decides.
ghost use Rattle.aes3_lock.specs.Spacing.{CandidatesApart, FewDecided};

/// Preambles of blocks in one list of cells are at least five cells apart, in either polarity.
pub fn preambles_are_apart()
    ensures { CandidatesApart }
{}

/// 64 cells decide at most fourteen reports, whatever cells come before them. Each decided
/// candidate but the first begins in the last seven cells before them or in their first 56 cells.
pub fn reports_are_few()
    ensures { FewDecided }
{}
