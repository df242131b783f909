//! The scan.
use crate::begun_subframe::{PREAMBLE_CELLS, complete_subframe, last_behind, rest_of, with_cell};
use crate::word_marks::WordMarks;
use aes3_level::Level;
use aes3_slot::{Mark, match_mark, preambles};
use std::marker::Model;

/// Finds every preamble in cells that come one by one, whether or not a subframe may begin there.
///
/// A contract sees how many cells it has seen, and the last eight.
#[derive(Drop)]
pub struct Scan {
    seen: u64,
    recent: u8,
}

impl Model for Scan {
    ghost use Rattle.aes3_level.specs.Words.{low_cells};
    ghost use Rattle.aes3_lock.specs.Following.{ScanState};

    ghost Value = { ScanState };

    ghost view = { λ k. record { seen = k.seen; recent = low_cells 8 k.recent } };
}

ghost use Rattle.std.specs.Prelude.{◌≡◌, ◌<◌, ◌≤◌, ◌+◌, ◌^◌, None, List, [], ◌∷◌, ◌++◌, drop};
ghost use Rattle.std.specs.Prelude.{length, option_to_list};
ghost use Rattle.aes3_level.specs.Words.{low_cells, word_cells};
ghost use Rattle.aes3_lock.specs.Steps.{ended_mark};
ghost use Rattle.aes3_level.specs.declared.level.Level.{Level};
ghost use Rattle.aes3_lock.specs.Preambles.{marks};
ghost use Rattle.aes3_lock.specs.Following.{ScanFollows};

/// The preamble that ends with the last of `seen` cells, given the last eight cells.
fn mark_ending(seen: u64, recent: u8) -> Option<(u64, Mark, Level)>
    ensures { result ≡ ended_mark seen (low_cells 8 recent) }
{
    if seen < PREAMBLE_CELLS {
        return None;
    }
    match match_mark(recent) {
        Some((mark, before)) => Some((seen - PREAMBLE_CELLS, mark, before)),
        None => None,
    }
}

impl Scan {
    /// A scan that has seen no cell.
    pub fn new() -> Self
        ensures { ScanFollows result [] }
    {
        Scan { seen: 0, recent: 0 }
    }

    /// How many cells it has seen.
    pub fn seen(&self) -> u64
        ensures { result ≡ self.now.seen }
    {
        self.seen
    }

    /// Takes the next cell, and returns the preamble that ends with it: its place, its kind and the
    /// level before it.
    pub fn push(&mut self, cell: Level) -> Option<(u64, Mark, Level)>
        requires { self.old.seen < 2 ^ 43 }
        ensures seen { self.new.seen ≡ self.old.seen + 1 }
        ensures follows { (cells : List Level) → ScanFollows self.old cells
            → ScanFollows self.new (cells ++ cell ∷ []) }
        ensures mark { (cells : List Level) → ScanFollows self.old cells
            → marks (cells ++ cell ∷ []) ≡ marks cells ++ option_to_list result }
    {
        self.recent = with_cell(self.recent, cell);
        self.seen += 1;
        mark_ending(self.seen, self.recent)
    }

    /// Takes at most `len` cells from the front of a word, the first of all in the lowest bit. It
    /// stops before the second cell that ends a preamble. Returns how many it took, and the
    /// preamble that ends in them, as `push` does.
    ///
    /// It is `push` for each of these cells.
    pub fn next_in(&mut self, word: u64, len: u32) -> (u32, Option<(u64, Mark, Level)>)
        requires room { self.old.seen + len ≤ 2 ^ 43 }
        requires len { len ≤ 64 }
        ensures seen { self.new.seen ≡ self.old.seen + result.0 }
        ensures within { result.0 ≤ len }
        ensures some { 0 < len → 0 < result.0 }
        ensures follows { (cells : List Level) → ScanFollows self.old cells
            → ScanFollows self.new (cells ++ low_cells result.0 word) }
        ensures mark { (cells : List Level) → ScanFollows self.old cells
            → marks (cells ++ low_cells result.0 word) ≡ marks cells ++ option_to_list result.1 }
        ensures all { (cells : List Level) → ScanFollows self.old cells → 7 ≤ length cells
            → result.1 ≡ None → result.0 ≡ len }
    {
        let cells = complete_subframe(u64::from(self.recent >> 1), PREAMBLE_CELLS - 1, word);
        let begun = preambles(cells, rest_of(word, PREAMBLE_CELLS - 1));
        let quiet = begun.trailing_zeros();
        if quiet >= len {
            self.pass(word, len);
            return (len, None);
        }
        let found = mark_ending(
            self.seen + u64::from(quiet + 1),
            last_behind(self.recent, word, quiet + 1),
        );
        let further = (begun >> quiet >> 1).trailing_zeros();
        let taken = (quiet + 1 + further).min(len);
        self.pass(word, taken);
        (taken, found)
    }

    /// Takes the 64 cells of a word, the first of all in the lowest bit, and returns the preambles
    /// that end in them.
    ///
    /// It is `push` for each of these cells.
    pub fn take_word(&mut self, word: u64) -> WordMarks
        requires { self.old.seen + 64 ≤ 2 ^ 43 }
        ensures seen { self.new.seen ≡ self.old.seen + 64 }
        ensures follows { (cells : List Level) → ScanFollows self.old cells
            → ScanFollows self.new (cells ++ word_cells word) }
        ensures marks { (cells : List Level) → ScanFollows self.old cells
            → marks (cells ++ word_cells word) ≡ marks cells ++ result }
    {
        let cells = complete_subframe(u64::from(self.recent >> 1), PREAMBLE_CELLS - 1, word);
        let found = WordMarks::new(self.seen, cells, rest_of(word, PREAMBLE_CELLS - 1));
        self.pass(word, u64::BITS);
        found
    }

    /// Takes the first `len` cells of a word.
    fn pass(&mut self, word: u64, len: u32)
        requires room { self.old.seen + len ≤ 2 ^ 43 }
        requires len { len ≤ 64 }
        ensures seen { self.new.seen ≡ self.old.seen + len }
        ensures recent { self.new.recent ≡ drop len (self.old.recent ++ low_cells len word) }
    {
        self.seen += u64::from(len);
        self.recent = last_behind(self.recent, word, len);
    }
}
