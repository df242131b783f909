//! How far the cells of an input are accounted for.

ghost use Rattle.std.specs.Prelude.{◌≡◌, ◌+◌, ◌<◌, ◌≤◌, ◌^◌, ℕ, None, List, Bool, [], ◌∷◌, ◌++◌};
ghost use Rattle.std.specs.Prelude.{length, nat_lt};
ghost use Rattle.std.specs.Option.{ForSome};
ghost use Rattle.aes3_lock.specs.Remains.{place_of};
ghost use Rattle.aes3_level.specs.declared.level.Level.{Level};
ghost use Rattle.aes3_lock.specs.Reports.{decided, reports, wholes};
ghost use Rattle.aes3_lock_gaps.specs.Gaps.{Entry, behind_full, reported};
ghost use Rattle.aes3_lock_gaps.specs.Told.{ComesNext, HasAll, HasBegun, Tells, behind_entry};
ghost use Rattle.aes3_lock_gaps.specs.Told.{due_gaps, gap_entry, report_with, reports_in};

use crate::gap::{Due, Gap};
use aes3_frame::BLOCK_CELLS;
use aes3_lock::Ending;

/// Which reports and gaps of the cells of an input were given: all before a place. Also whether
/// there was a whole block.
#[derive(Clone, Copy)]
pub struct Account {
    pub place: u64,
    pub found: bool,
}

impl Account {
    /// An account for which nothing was given.
    pub fn new() -> Self
        ensures { (c : List Level) → length c ≤ 2 ^ 43 → Tells result c [] }
    {
        Account {
            place: 0,
            found: false,
        }
    }

    /// The next of the gaps that are due, if there is one.
    pub fn next(&mut self, due: Due) -> Option<Gap>
        ensures gap { ForSome result (λ g. due_gaps self.old.place due
            ≡ gap_entry g ∷ due_gaps self.new.place due) }
        ensures place { ForSome result (λ g. self.new.place
            ≡ behind_entry self.old.place (gap_entry g)) }
        ensures further { ForSome result (λ g. self.old.place < self.new.place) }
        ensures within { ForSome result (λ g. self.new.place ≤ due.to) }
        ensures none { result ≡ None → due_gaps self.old.place due ≡ [] }
        ensures left { result ≡ None → self.new.place ≡ self.old.place }
        ensures behind { due.short ≡ None → behind_full self.old.place due.to
            ≡ behind_full self.new.place due.to }
        ensures found { self.new.found ≡ self.old.found }
    {
        let cells = due.to.saturating_sub(self.place);
        let at = self.place;
        if cells >= BLOCK_CELLS {
            self.place += BLOCK_CELLS;
            return Some(Gap {
                at,
                cells: BLOCK_CELLS,
                counts: true,
            });
        }
        match due.short {
            Some(counts) if cells > 0 => {
                self.place = due.to;
                Some(Gap { at, cells, counts })
            }
            _ => None,
        }
    }

    /// Advances past the report of an ending, before which no gap is left.
    pub fn take(&mut self, ending: Ending)
        ensures place { (block : List (List Bool)) → place_of (report_with block ending) ≤ 2 ^ 43
            → self.new.place ≡ behind_entry self.old.place (reported (report_with block ending)) }
        ensures found { (block : List (List Bool)) (n : ℕ) → self.old.found ≡ nat_lt 0 n
            → self.new.found ≡ nat_lt 0 (n + length (wholes (report_with block ending ∷ []))) }
    {
        if let Ending::Whole { at, .. } = ending {
            self.place = at.saturating_add(BLOCK_CELLS);
            self.found = true;
        }
    }
    /// The next gap before the report of an ending. If no gap is left, the report counts as given,
    /// and the account advances past it.
    pub fn before(&mut self, ending: Ending) -> Option<Gap>
        ensures gap { ForSome result (λ g. (block : List (List Bool)) (c : List Level) (e : List Entry)
            → Tells self.old c e → ComesNext c e (report_with block ending)
            → Tells self.new c (e ++ gap_entry g ∷ [])) }
        ensures report { result ≡ None → (block : List (List Bool)) (c : List Level) (e : List Entry)
            → Tells self.old c e → ComesNext c e (report_with block ending)
            → Tells self.new c (e ++ reported (report_with block ending) ∷ []) }
    {
        let gap = self.next(Due::before_report(ending, self.found));
        if gap.is_none() {
            self.take(ending);
        }
        gap
    }

    /// The next gap that is certain whatever cells follow the `seen` ones, all of whose reports
    /// were given. It has a block's length and is followed by at least that many cells.
    pub fn passed(&mut self, seen: u64) -> Option<Gap>
        ensures gap { ForSome result (λ g. (c d : List Level) (e : List Entry)
            → Tells self.old (c ++ d) e → reports_in e ≡ decided c → seen ≡ length c
            → Tells self.new (c ++ d) (e ++ gap_entry g ∷ [])) }
        ensures all { result ≡ None → (c d : List Level) (e : List Entry)
            → Tells self.old (c ++ d) e → reports_in e ≡ decided c → seen ≡ length c
            → HasBegun c e }
        ensures left { result ≡ None → self.new ≡ self.old }
    {
        self.next(Due::passed(seen))
    }

    /// The next gap at the end of the `seen` cells, all of whose reports were given.
    pub fn end(&mut self, seen: u64) -> Option<Gap>
        ensures gap { ForSome result (λ g. (c : List Level) (e : List Entry)
            → Tells self.old c e → reports_in e ≡ reports c → seen ≡ length c
            → Tells self.new c (e ++ gap_entry g ∷ [])) }
        ensures all { result ≡ None → (c : List Level) (e : List Entry)
            → Tells self.old c e → reports_in e ≡ reports c → seen ≡ length c
            → HasAll c e }
        ensures left { result ≡ None → self.new ≡ self.old }
    {
        self.next(Due::end(seen))
    }
}
