//! Cells one by one, and a word at a time, each with the reports that it decides.
ghost use Rattle.std.specs.Prelude.{◌≡◌, ◌≢◌, ◌<◌, ◌≤◌, ◌+◌, ◌-◌, ◌^◌, None};
ghost use Rattle.std.specs.Prelude.{List, [], ◌∷◌, ◌++◌, length, option_map, option_to_list};
ghost use Rattle.aes3_level.specs.declared.level.Level.{Level};
ghost use Rattle.aes3_level.specs.Words.{low_cells, word_cells};
ghost use Rattle.aes3_lock.specs.Reports.{decided};
ghost use Rattle.aes3_lock.specs.Following.{Follows, HeldBlock, report_in};

use crate::begun_subframe::with_next;
use crate::lock::Lock;
use crate::report::{Ending, Pushed, Report};
use aes3_level::Level;
use arrayvec::ArrayVec;

impl Lock {
    /// Takes at most `len` cells from the front of a word, the first of all in the lowest bit. It
    /// stops after the first cell that decides a report.
    ///
    /// It is `push` for each of these cells, but makes no report. Until more cells are taken,
    /// `report` makes it.
    // Inlined, with all that it calls: if many candidates begin, it returns every few cells.
    #[inline(always)]
    fn push_front(&mut self, word: u64, len: u32) -> Pushed
        requires room { self.old.seen + len ≤ 2 ^ 43 }
        requires len { len ≤ 64 }
        ensures within { result.taken ≤ len }
        ensures all { result.ending ≡ None → result.taken ≡ len }
        ensures some { 0 < len → 0 < result.taken }
        ensures seen { self.new.seen ≡ self.old.seen + result.taken }
        ensures follows { (cells : List Level) → Follows self.old cells
            → Follows self.new (cells ++ low_cells result.taken word) }
        ensures report { (cells : List Level) → Follows self.old cells
            → decided (cells ++ low_cells result.taken word) ≡ decided cells
            ++ option_to_list (option_map (report_in self.new) result.ending) }
        ensures last { result.ending ≢ None → (cells : List Level) → Follows self.old cells
            → decided (cells ++ low_cells (result.taken - 1) word) ≡ decided cells }
        ensures held { (cells : List Level) → Follows self.old cells
            → HeldBlock self.new.words (cells ++ low_cells result.taken word) result.ending }
    {
        let mut taken = 0;
        while taken < len {
            let pushed = self.step(word >> taken, len - taken);
            taken += pushed.taken;
            if pushed.ending.is_some() {
                return Pushed {
                    taken,
                    ending: pushed.ending,
                };
            }
        }
        Pushed::quiet(taken)
    }

    /// Adds the report of an ending, if there is one, as long as there is room.
    fn tell(&self, ending: Option<Ending>, out: &mut ArrayVec<Report, 16>)
        ensures { length out.old.items < 16
            → out.new.items ≡ out.old.items ++ option_to_list
            (option_map (report_in self.now) ending) }
    {
        if let Some(ending) = ending
            && !out.is_full()
        {
            out.push(self.report(ending));
        }
    }

    /// Takes the 64 cells of a word, the first in the lowest bit, and puts the reports that they
    /// decide into `out`.
    ///
    /// It is `push` for each of these cells. There are at most fourteen reports, since candidates
    /// are at least five cells apart.
    pub fn push_word(&mut self, word: u64, out: &mut ArrayVec<Report, 16>)
        requires room { self.old.seen + 64 ≤ 2 ^ 43 }
        requires empty { out.old.items ≡ [] }
        ensures seen { self.new.seen ≡ self.old.seen + 64 }
        ensures follows { (cells : List Level) → Follows self.old cells
            → Follows self.new (cells ++ word_cells word) }
        ensures reports { (cells : List Level) → Follows self.old cells
            → decided (cells ++ word_cells word) ≡ decided cells ++ out.new.items }
        ensures few { (cells : List Level) → Follows self.old cells → length out.new.items ≤ 14 }
    {
        let mut taken = 0;
        while taken < 64 {
            let pushed = self.push_front(word >> taken, 64 - taken);
            self.tell(pushed.ending, out);
            taken += pushed.taken;
        }
    }

    /// Takes the next cell, and returns the report that it decides.
    pub fn push(&mut self, cell: Level) -> Option<Report>
        requires { self.old.seen < 2 ^ 43 }
        ensures seen { self.new.seen ≡ self.old.seen + 1 }
        ensures follows { (cells : List Level) → Follows self.old cells
            → Follows self.new (cells ++ cell ∷ []) }
        ensures report { (cells : List Level) → Follows self.old cells
            → decided (cells ++ cell ∷ []) ≡ decided cells ++ option_to_list result }
    {
        let pushed = self.push_front(with_next(0, 0, cell), 1);
        match pushed.ending {
            Some(ending) => Some(self.report(ending)),
            None => None,
        }
    }
}
