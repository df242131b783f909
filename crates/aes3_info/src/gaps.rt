//! The counts of the gaps between whole blocks.

ghost use Rattle.std.specs.Prelude.{◌≡◌, ◌≤◌, ◌^◌, []};
ghost use Rattle.aes3_lock_gaps.specs.Gaps.{behind_full, full_count, full_gaps, gaps};
ghost use Rattle.aes3_info.specs.Facts.{both_gaps, gap_facts};

use crate::saturating::more;
use aes3_frame::BLOCK_CELLS;

/// How many gaps there are, and how many cells they have.
#[derive(Clone, Copy)]
pub(crate) struct GapFacts {
    /// How many gaps count as faults.
    pub(crate) gaps: u64,
    /// How many cells these gaps have.
    pub(crate) lost: u64,
    /// How many cells the other gaps have, where the input is cut.
    pub(crate) cut: u64,
}

/// The place after the gaps of a block's length between two places.
pub(crate) fn behind_full(from: u64, to: u64) -> u64
    requires near { to ≤ 2 ^ 43 }
    ensures { result ≡ behind_full from to }
{
    from + to.saturating_sub(from) / BLOCK_CELLS * BLOCK_CELLS
}

impl GapFacts {
    /// The counts without any gap.
    #[tactic(auto, unfolding(crate::specs::Facts::total, crate::specs::Facts::most_count))]
    pub(crate) fn none() -> Self
        ensures { result ≡ gap_facts [] }
    {
        GapFacts {
            gaps: 0,
            lost: 0,
            cut: 0,
        }
    }

    /// The gaps of a block's length between two places.
    pub(crate) fn full(from: u64, to: u64) -> Self
        ensures { result ≡ gap_facts (full_gaps from (full_count from to)) }
    {
        let full = to.saturating_sub(from) / BLOCK_CELLS;
        GapFacts {
            gaps: full,
            lost: full * BLOCK_CELLS,
            cut: 0,
        }
    }

    /// All gaps between two places; `counts` says whether a short one is a fault.
    pub(crate) fn all(counts: bool, from: u64, to: u64) -> Self
        ensures { result ≡ gap_facts (gaps counts from to) }
    {
        let cells = to.saturating_sub(from);
        let full = cells / BLOCK_CELLS;
        let rest = cells % BLOCK_CELLS;
        if counts {
            GapFacts {
                gaps: full + rest.min(1),
                lost: cells,
                cut: 0,
            }
        } else {
            GapFacts {
                gaps: full,
                lost: full * BLOCK_CELLS,
                cut: rest,
            }
        }
    }

    /// These gaps and the gaps after them.
    pub(crate) fn and(self, other: GapFacts) -> Self
        ensures { result ≡ both_gaps self other }
    {
        GapFacts {
            gaps: more(self.gaps, other.gaps),
            lost: more(self.lost, other.lost),
            cut: more(self.cut, other.cut),
        }
    }
}
