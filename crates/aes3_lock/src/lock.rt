//! The lock: it takes cells and words, and returns what each report is made of at the cell that
//! decides it.

/// Cells one by one, and a word at a time.
mod one_by_one;

use crate::begun_subframe::{
    PREAMBLE_CELLS, are_subframes, complete_eight, complete_subframe, first_cell, first_of,
    last_behind, last_cell, last_octet, last_of, rest_of, with_cell,
};
use crate::candidate::Candidate;
use crate::parts::LockParts;
use crate::report::{Ending, Pushed, Report, report_with};
use aes3_frame::{BLOCK_CELLS, GatheredCells, SUBFRAMES};
use aes3_level::{Cells, Level};
use aes3_slot::{SUBFRAME_CELLS, begins_subframe, block_preambles, mark_of, wrong_cells};
use std::marker::Model;

/// Finds every block and every begun block in cells that come one by one, in fixed memory.
///
/// A contract sees how many cells it has seen, the last eight of them, and the current candidate.
/// It also sees the cells of the candidate's last, incomplete subframe, and words with the cells of
/// its whole subframes.
#[derive(Drop)]
pub struct Lock {
    seen: u64,
    recent: u8,
    candidate: Option<Candidate>,
    subframe: u64,
    words: GatheredCells,
}

impl Model for Lock {
    ghost use Rattle.std.specs.Prelude.{◌≡◌, ◌≤◌, length};
    ghost use Rattle.std.specs.Option.{ForSome};
    ghost use Rattle.aes3_level.specs.Words.{low_cells};
    ghost use Rattle.aes3_frame.specs.Blocks.{block_subframes};
    ghost use Rattle.aes3_lock.specs.Following.{LockState};

    ghost Value = { LockState };

    ghost view = { λ k. record {
      seen = k.seen;
      recent = low_cells 8 k.recent;
      candidate = k.candidate;
      subframe = k.subframe;
      words = k.words;
    } };

    ghost invariant = { λ k. (ForSome k.candidate (λ t. t.at ≤ k.seen))
        × (length k.words ≡ block_subframes) };
}

ghost use Rattle.std.specs.Prelude.{◌≡◌, ◌≤◌, List, [], ◌++◌, option_map, option_to_list, ◌<◌, ◌+◌};
ghost use Rattle.std.specs.Prelude.{◌*◌, ◌^◌, true, false, None, drop, get_or, length, take, ◌≢◌};
ghost use Rattle.std.specs.Prelude.{◌-◌, Some, ◌∷◌};
ghost use Rattle.std.specs.Option.{ForSome};
ghost use Rattle.aes3_level.specs.declared.level.Level.{Level};
ghost use Rattle.aes3_lock.specs.Reports.{decided, reports, open_at};
ghost use Rattle.aes3_lock.specs.Following.{Follows, HeldBlock, report_in, BeginsIn, Stops};
ghost use Rattle.aes3_lock.specs.Parts.{parts_state};
ghost use Rattle.std.specs.List.{flat_map};
ghost use Rattle.aes3_level.specs.Words.{word_cells, low_cells};
ghost use Rattle.aes3_level.specs.Remaining.{all_of};
ghost use Rattle.aes3_lock.specs.Outcomes.{why_of};
ghost use Rattle.aes3_lock.specs.Steps.{begun};
ghost use Rattle.aes3_lock.specs.declared.report.Ending.TheVariants.{Fault};
ghost use Rattle.aes3_lock.specs.Taking.{TookCells};

impl Lock {
    /// A lock that has seen no cell.
    pub fn new() -> Self
        ensures { Follows result [] }
    {
        Lock {
            seen: 0,
            recent: 0,
            candidate: None,
            subframe: 0,
            words: GatheredCells::new(),
        }
    }

    /// The lock with these parts of another lock.
    pub fn of_parts(parts: LockParts<'_>) -> Lock
        requires { ForSome parts.candidate (λ t. t.at ≤ parts.seen) }
        ensures { result ≡ parts_state parts.entry }
    {
        let mut lock = Lock {
            seen: parts.seen,
            recent: parts.recent,
            candidate: parts.candidate,
            subframe: parts.subframe,
            words: GatheredCells::new(),
        };
        lock.words.keep_all(parts.words);
        lock
    }

    /// All that the lock keeps.
    pub fn parts(&self) -> LockParts<'_>
        ensures state { parts_state result ≡ self.now }
        ensures placed { ForSome result.candidate (λ t. t.at ≤ result.seen) }
    {
        LockParts {
            seen: self.seen,
            recent: self.recent,
            candidate: self.candidate,
            subframe: self.subframe,
            words: self.words.words(),
        }
    }

    /// How many cells it has seen.
    pub fn seen(&self) -> u64
        ensures { result ≡ self.now.seen }
    {
        self.seen
    }

    /// The report of an ending that it returned for the last cell that it took.
    // Inlined, and so is `finish`, so that no caller has copies of a block on its stack.
    #[inline(always)]
    pub fn report(&self, ending: Ending) -> Report
        ensures { result ≡ report_in self.now ending }
    {
        report_with(ending, &self.words)
    }

    /// The cells of the whole subframes of the last candidate, a word each, the earliest cell in
    /// bit 0. After the ending `Whole` or `Marked` they are those of its block, until more cells
    /// are taken.
    pub fn words(&self) -> &[u64; SUBFRAMES]
        ensures { result.now ≡ self.now.words }
    {
        self.words.words()
    }

    /// The same cells as `words`, as they were gathered.
    pub fn gathered_cells(&self) -> &GatheredCells
        ensures { result.now ≡ self.now.words }
    {
        &self.words
    }

    /// What the end of the cells makes of the current candidate, if there is one.
    pub fn end(&self) -> Option<Ending>
        ensures report { (cells : List Level) → Follows self.now cells
            → reports cells ≡ decided cells
            ++ option_to_list (option_map (report_in self.now) result) }
        ensures held { (cells : List Level) → Follows self.now cells
            → HeldBlock self.now.words cells result }
    {
        let Some(candidate) = self.candidate else {
            return None;
        };
        Some(candidate.cut_after(self.seen - candidate.at, &self.words))
    }

    /// Takes the end of the cells, and returns the report that it decides.
    #[inline(always)]
    pub fn finish(self) -> Option<Report>
        ensures { (cells : List Level) → Follows self cells
            → reports cells ≡ decided cells ++ option_to_list result }
    {
        match self.end() {
            Some(ending) => Some(self.report(ending)),
            None => None,
        }
    }

    /// Takes the 64 cells of a word if there is no current candidate and no preamble of a block
    /// ends in them. Returns whether it took them; if not, nothing changes.
    fn pass_word(&mut self, word: u64) -> bool
        requires room { self.old.seen + 64 ≤ 2 ^ 43 }
        requires searching { self.old.candidate ≡ None }
        ensures seen { result ≡ true → self.new.seen ≡ self.old.seen + 64 }
        ensures follows { result ≡ true → (cells : List Level) → Follows self.old cells
            → Follows self.new (cells ++ word_cells word) }
        ensures none { result ≡ true → (cells : List Level) → Follows self.old cells
            → decided (cells ++ word_cells word) ≡ decided cells }
        ensures unchanged { result ≡ false → self.new ≡ self.old }
        ensures begins { result ≡ false → BeginsIn (drop 1 self.old.recent ++ word_cells word) }
    {
        let cells = complete_subframe(u64::from(self.recent >> 1), PREAMBLE_CELLS - 1, word);
        if block_preambles(cells, rest_of(word, PREAMBLE_CELLS - 1)) != 0 {
            return false;
        }
        self.seen += 64;
        self.recent = last_octet(word);
        true
    }

    /// Takes the 64 cells of a word, the first in the lowest bit, in two cases. Returns whether it
    /// took them; if not, nothing changes.
    ///
    /// It takes them if they all continue the current candidate. It also takes them if there is no
    /// current candidate and no preamble of a block ends in them. It is `push` for 64 cells at
    /// once, which decide no report.
    pub fn take_word(&mut self, word: u64) -> bool
        requires { self.old.seen + 64 ≤ 2 ^ 43 }
        ensures seen { result ≡ true → self.new.seen ≡ self.old.seen + 64 }
        ensures follows { result ≡ true → (cells : List Level) → Follows self.old cells
            → Follows self.new (cells ++ word_cells word) }
        ensures none { result ≡ true → (cells : List Level) → Follows self.old cells
            → decided (cells ++ word_cells word) ≡ decided cells }
        ensures unchanged { result ≡ false → self.new ≡ self.old }
        ensures stops { result ≡ false → (cells : List Level) → Follows self.old cells
            → ForSome self.old.candidate (λ t. open_at (drop t.at (cells ++ word_cells word))
            ≡ false) }
        ensures begins { result ≡ false → self.old.candidate ≡ None
            → BeginsIn (drop 1 self.old.recent ++ word_cells word) }
    {
        let Some(candidate) = self.candidate else {
            return self.pass_word(word);
        };
        let offset = self.seen - candidate.at;
        if offset > BLOCK_CELLS - SUBFRAME_CELLS {
            return false;
        }
        let subframe = offset / SUBFRAME_CELLS;
        let len = offset % SUBFRAME_CELLS;
        let cells = complete_subframe(self.subframe, len, word);
        let level = last_of(cells);
        let rest = rest_of(word, len);
        if !begins_subframe(candidate.level, mark_of(subframe), cells, 64)
            || !begins_subframe(level, mark_of(subframe + 1), rest, len as u32)
        {
            return false;
        }
        self.seen += 64;
        self.recent = last_octet(word);
        self.words.keep(subframe as usize, candidate.level, cells);
        self.subframe = rest;
        self.candidate = Some(Candidate {
            at: candidate.at,
            before: candidate.before,
            level,
        });
        true
    }

    /// Takes words from the front, eight at a time, and returns how many. It goes on as long as the
    /// subframes that they complete belong to the current candidate, after its first one, with
    /// right parity. It is `take_word` for almost all words of a line.
    fn take_eights(&mut self, words: &[u64]) -> usize
        requires { self.old.seen + 64 * length words.now ≤ 2 ^ 43 }
        ensures within { result ≤ length words.now }
        ensures seen { self.new.seen ≡ self.old.seen + 64 * result }
        ensures follows { (cells : List Level) → Follows self.old cells
            → Follows self.new (cells ++ flat_map word_cells (take result words.now)) }
        ensures none { (cells : List Level) → Follows self.old cells
            → decided (cells ++ flat_map word_cells (take result words.now)) ≡ decided cells }
    {
        let Some(candidate) = self.candidate else {
            return 0;
        };
        let offset = self.seen - candidate.at;
        if offset < SUBFRAME_CELLS || offset > BLOCK_CELLS - 8 * SUBFRAME_CELLS {
            return 0;
        }
        let subframe = offset / SUBFRAME_CELLS;
        let len = offset % SUBFRAME_CELLS;
        let room = ((BLOCK_CELLS - offset) / SUBFRAME_CELLS) as usize;
        let mut behind = self.subframe;
        let mut taken = 0;
        while taken + 8 <= room
            && let Some(eight) = words[taken..].first_chunk()
        {
            let subframes = complete_eight(behind, len, eight);
            let rest = rest_of(eight[7], len);
            // After each eight subframes the preambles are the same, so they are found once.
            if !are_subframes(candidate.level, subframe, &subframes)
                || !begins_subframe(candidate.level, mark_of(subframe + 8), rest, len as u32)
            {
                break;
            }
            self.words
                .keep_eight(subframe as usize + taken, candidate.level, &subframes);
            self.recent = last_octet(eight[7]);
            behind = rest;
            taken += 8;
        }
        self.seen += 64 * taken as u64;
        self.subframe = behind;
        taken
    }

    /// Takes words from the front, the first cell of each in its lowest bit, as long as they decide
    /// no report. Returns how many.
    ///
    /// It is `take_word` for each of them: the next word, if there is one, decides a report or
    /// begins a block.
    pub fn take_words(&mut self, words: &[u64]) -> usize
        requires { self.old.seen + 64 * length words.now ≤ 2 ^ 43 }
        ensures within { result ≤ length words.now }
        ensures seen { self.new.seen ≡ self.old.seen + 64 * result }
        ensures follows { (cells : List Level) → Follows self.old cells
            → Follows self.new (cells ++ flat_map word_cells (take result words.now)) }
        ensures none { (cells : List Level) → Follows self.old cells
            → decided (cells ++ flat_map word_cells (take result words.now)) ≡ decided cells }
        ensures stops { result < length words.now → (cells : List Level) → Follows self.new cells
            → ForSome self.new.candidate (λ t. open_at
            (drop t.at (cells ++ word_cells (get_or words.now result 0))) ≡ false) }
        ensures begins { result < length words.now → self.new.candidate ≡ None
            → BeginsIn (drop 1 self.new.recent ++ word_cells (get_or words.now result 0)) }
    {
        let mut taken = 0;
        while taken < words.len() {
            let eights = self.take_eights(&words[taken..]);
            if eights > 0 {
                taken += eights;
            } else if self.take_word(words[taken]) {
                taken += 1;
            } else {
                return taken;
            }
        }
        taken
    }

    /// Shifts the first `len` cells of a word into the last eight.
    fn count(&mut self, word: u64, len: u32)
        requires room { self.old.seen + len ≤ 2 ^ 43 }
        requires len { len ≤ 64 }
        ensures seen { self.new.seen ≡ self.old.seen + len }
        ensures recent { self.new.recent ≡ drop len (self.old.recent ++ low_cells len word) }
        ensures candidate { self.new.candidate ≡ self.old.candidate }
        ensures subframe { self.new.subframe ≡ self.old.subframe }
        ensures words { self.new.words ≡ self.old.words }
    {
        self.seen += u64::from(len);
        self.recent = last_behind(self.recent, word, len);
    }

    /// Takes at most `len` cells from the front of a word, if there is no current candidate. It
    /// stops after the first cell that ends the preamble of a block. Returns how many it took.
    #[inline(always)]
    fn search(&mut self, word: u64, len: u32) -> u32
        requires room { self.old.seen + len ≤ 2 ^ 43 }
        requires len { len ≤ 64 }
        requires some { 0 < len }
        requires searching { self.old.candidate ≡ None }
        ensures some { 0 < result }
        ensures within { result ≤ len }
        ensures seen { self.new.seen ≡ self.old.seen + result }
        ensures follows { (cells : List Level) → Follows self.old cells
            → Follows self.new (cells ++ low_cells result word) }
        ensures none { (cells : List Level) → Follows self.old cells
            → decided (cells ++ low_cells result word) ≡ decided cells }
    {
        let cells = complete_subframe(u64::from(self.recent >> 1), PREAMBLE_CELLS - 1, word);
        let begun = block_preambles(cells, rest_of(word, PREAMBLE_CELLS - 1));
        let taken = (begun.trailing_zeros() + 1).min(len);
        self.count(word, taken);
        self.candidate = Candidate::in_last_eight(self.seen, self.recent);
        self.subframe = u64::from(self.recent);
        taken
    }

    /// Takes a cell that ends the candidate in hand, and answers what it makes of it.
    fn stop(&mut self, cell: Level) -> Ending
        requires room { self.old.seen < 2 ^ 43 }
        requires in_hand { self.old.candidate ≢ None }
        ensures seen { self.new.seen ≡ self.old.seen + 1 }
        ensures follows { (cells : List Level) → Follows self.old cells → Stops self.old cell
            → Follows self.new (cells ++ cell ∷ []) }
        ensures report { (cells : List Level) → Follows self.old cells → Stops self.old cell
            → decided (cells ++ cell ∷ []) ≡ decided cells ++ report_in self.new result ∷ [] }
        ensures held { (cells : List Level) → Follows self.old cells
            → HeldBlock self.new.words (cells ++ cell ∷ []) (Some result) }
    {
        let Some(candidate) = self.candidate else {
            unreachable!();
        };
        let previous = last_cell(self.recent);
        let offset = self.seen - candidate.at;
        let ending = candidate.ended_by(offset, cell, previous, &self.words);
        self.recent = with_cell(self.recent, cell);
        self.seen += 1;
        self.candidate = Candidate::in_last_eight(self.seen, self.recent);
        self.subframe = u64::from(self.recent);
        ending
    }

    /// Takes the first `right` cells of a word, which continue the current candidate, and the next
    /// cell, which can't be right at its place.
    #[inline(always)]
    fn refute(&mut self, candidate: Candidate, word: u64, right: u32) -> Pushed
        requires room { self.old.seen + right + 1 ≤ 2 ^ 43 }
        requires right { right < 64 }
        requires behind { candidate.at ≤ self.old.seen }
        ensures taken { result.taken ≡ right + 1 }
        ensures ending { result.ending ≡ Some (Fault candidate.at (self.old.seen + right)
            (why_of (self.old.seen + right - candidate.at))) }
        ensures seen { self.new.seen ≡ self.old.seen + (right + 1) }
        ensures recent { self.new.recent
            ≡ drop (right + 1) (self.old.recent ++ low_cells (right + 1) word) }
        ensures candidate { self.new.candidate ≡ begun self.new.seen self.new.recent }
        ensures subframe { low_cells 8 self.new.subframe ≡ self.new.recent }
        ensures few { self.new.subframe < 2 ^ 8 }
        ensures words { self.new.words ≡ self.old.words }
    {
        let cell = self.seen + u64::from(right);
        self.count(word, right + 1);
        self.candidate = Candidate::in_last_eight(self.seen, self.recent);
        self.subframe = u64::from(self.recent);
        Pushed {
            taken: right + 1,
            ending: Some(candidate.refuted_at(cell)),
        }
    }

    /// Takes at most `len` cells from the front of a word. It stops at the end of the current
    /// subframe, or after the first cell that ends the current candidate.
    #[inline(always)]
    fn go_on(&mut self, candidate: Candidate, word: u64, len: u32) -> Pushed
        requires room { self.old.seen + len ≤ 2 ^ 43 }
        requires len { len ≤ 64 }
        requires some { 0 < len }
        requires in_hand { self.old.candidate ≡ Some candidate }
        ensures some { 0 < result.taken }
        ensures within { result.taken ≤ len }
        ensures seen { self.new.seen ≡ self.old.seen + result.taken }
        ensures follows { (cells : List Level) → Follows self.old cells
            → Follows self.new (cells ++ low_cells result.taken word) }
        ensures report { (cells : List Level) → Follows self.old cells
            → decided (cells ++ low_cells result.taken word) ≡ decided cells
            ++ option_to_list (option_map (report_in self.new) result.ending) }
        ensures last { result.ending ≢ None → (cells : List Level) → Follows self.old cells
            → decided (cells ++ low_cells (result.taken - 1) word) ≡ decided cells }
        ensures held { (cells : List Level) → Follows self.old cells
            → HeldBlock self.new.words (cells ++ low_cells result.taken word) result.ending }
    {
        let offset = self.seen - candidate.at;
        if offset >= BLOCK_CELLS {
            let ending = self.stop(first_cell(word));
            return Pushed::one(ending);
        }
        let subframe = offset / SUBFRAME_CELLS;
        let begun = offset % SUBFRAME_CELLS;
        let cells = complete_subframe(self.subframe, begun, word);
        let wrong = wrong_cells(candidate.level, mark_of(subframe), cells) >> begun;
        let right = wrong.trailing_zeros();
        let taken = len.min((SUBFRAME_CELLS - begun) as u32);
        if right < taken {
            return self.refute(candidate, word, right);
        }
        self.count(word, taken);
        let end = begun + u64::from(taken);
        if end < SUBFRAME_CELLS {
            self.subframe = first_of(cells, end);
            return Pushed::quiet(taken);
        }
        self.words.keep(subframe as usize, candidate.level, cells);
        self.subframe = 0;
        self.candidate = Some(Candidate {
            at: candidate.at,
            before: candidate.before,
            level: last_of(cells),
        });
        Pushed::quiet(taken)
    }

    /// Takes the first cells of a word, at most `len`, as far as `search` or `go_on` does.
    #[inline(always)]
    pub(crate) fn step(&mut self, word: u64, len: u32) -> Pushed
        requires room { self.old.seen + len ≤ 2 ^ 43 }
        requires len { len ≤ 64 }
        requires some { 0 < len }
        ensures some { 0 < result.taken }
        ensures within { result.taken ≤ len }
        ensures seen { self.new.seen ≡ self.old.seen + result.taken }
        ensures follows { (cells : List Level) → Follows self.old cells
            → Follows self.new (cells ++ low_cells result.taken word) }
        ensures report { (cells : List Level) → Follows self.old cells
            → decided (cells ++ low_cells result.taken word) ≡ decided cells
            ++ option_to_list (option_map (report_in self.new) result.ending) }
        ensures last { result.ending ≢ None → (cells : List Level) → Follows self.old cells
            → decided (cells ++ low_cells (result.taken - 1) word) ≡ decided cells }
        ensures held { (cells : List Level) → Follows self.old cells
            → HeldBlock self.new.words (cells ++ low_cells result.taken word) result.ending }
    {
        match self.candidate {
            None => Pushed::quiet(self.search(word, len)),
            Some(candidate) => self.go_on(candidate, word, len),
        }
    }

    /// Takes whole words as `take_words` does, if no word is begun.
    #[inline(always)]
    fn take_whole(&mut self, cells: &mut Cells<'_>)
        requires room { self.old.seen + length (all_of cells.old) ≤ 2 ^ 43 }
        ensures { TookCells self.old self.new (all_of cells.old) (all_of cells.new) None }
    {
        if cells.here() == 0 {
            let count = self.take_words(cells.words());
            cells.skip_words(count);
        }
    }

    /// Takes cells of the current word, as far as `step` does.
    #[inline(always)]
    fn take_some(&mut self, cells: &mut Cells<'_>) -> Option<Ending>
        requires some { 0 < length cells.old.here }
        requires room { self.old.seen + length (all_of cells.old) ≤ 2 ^ 43 }
        ensures took { TookCells self.old self.new (all_of cells.old) (all_of cells.new) result }
        ensures less { length (all_of cells.new) < length (all_of cells.old) }
    {
        let pushed = self.step(cells.word(), cells.here());
        cells.skip(pushed.taken);
        pushed.ending
    }

    /// Takes cells up to and including the first that decides a report, or all.
    ///
    /// It is `push` for each of these cells, but makes no report. Until more cells are taken,
    /// `report` makes it.
    // Inlined, with all that it calls: if many candidates begin, it returns every few cells.
    #[inline(always)]
    pub fn take(&mut self, cells: &mut Cells<'_>) -> Option<Ending>
        requires room { self.old.seen + length (all_of cells.old) ≤ 2 ^ 43 }
        ensures took { TookCells self.old self.new (all_of cells.old) (all_of cells.new) result }
        ensures some { 0 < length (all_of cells.old)
            → length (all_of cells.new) < length (all_of cells.old) }
        ensures all { result ≡ None → all_of cells.new ≡ [] }
    {
        loop {
            self.take_whole(cells);
            if !cells.begin_word() {
                return None;
            }
            let ending = self.take_some(cells);
            if ending.is_some() {
                return ending;
            }
        }
    }
}
