//! The preambles that end in a word of cells.

use crate::begun_subframe::PREAMBLE_CELLS;
use aes3_level::Level;
use aes3_slot::{Mark, mark_places};
use std::marker::Model;

/// The preambles that end in a word of cells, taken one by one.
///
/// A contract sees the preambles that are left, in order of place: the place of each, its kind and
/// the level before it.
#[derive(Drop)]
pub struct WordMarks {
    /// How many cells come before the word.
    seen: u64,
    /// The seven cells before the word and its first 57, the first in the lowest bit.
    cells: u64,
    /// The last seven cells of the word.
    next: u64,
    /// Where the preambles that are left begin in these cells.
    left: u64,
    /// Where an X begins.
    x: u64,
    /// Where a Y begins.
    y: u64,
}

impl Model for WordMarks {
    ghost use Rattle.std.specs.Prelude.{ℕ, List, ◌≤◌, ◌^◌};
    ghost use Rattle.aes3_level.specs.declared.level.Level.{Level};
    ghost use Rattle.aes3_slot.specs.declared.mark.Mark.{Mark};
    ghost use Rattle.aes3_slot.specs.Preambles.{with_seven};
    ghost use Rattle.aes3_lock.specs.MarkBits.{marks_left, MarksLeft};

    ghost Value = { List (ℕ × Mark × Level) };

    ghost view = { λ m. marks_left m.seen (with_seven m.cells m.next) m.left };

    ghost invariant = { λ m. (m.seen ≤ 2 ^ 43)
        × MarksLeft m.seen m.left m.x m.y (with_seven m.cells m.next) };
}

ghost use Rattle.std.specs.Prelude.{◌≡◌, ◌==◌, ℕ, ◌+◌, ◌<◌, ◌≤◌, ◌^◌, List, [], ◌++◌, None, drop};
ghost use Rattle.std.specs.Prelude.{length, nat_le, option_to_list, if◌then◌else◌};
ghost use Rattle.std.specs.Int.{bit_at};
ghost use Rattle.aes3_level.specs.declared.level.Level.{Level};
ghost use Rattle.aes3_level.specs.Cells.{other};
ghost use Rattle.aes3_level.specs.Words.{level_of, word_cells};
ghost use Rattle.aes3_slot.specs.declared.mark.Mark.TheVariants.{X, Y, Z};
ghost use Rattle.aes3_slot.specs.Preambles.{with_seven};
ghost use Rattle.aes3_lock.specs.Preambles.{marks};
ghost use Rattle.aes3_lock.specs.Steps.{last_eight};

/// Which preamble begins at a cell, given the places where an X and a Y begin.
fn mark_at(x: u64, y: u64, place: u32) -> Mark
    requires { place < 64 }
    ensures { result ≡ (if bit_at x place == 1 then X else (if bit_at y place == 1 then Y else Z)) }
{
    if (x >> place) % 2 == 1 {
        Mark::X
    } else if (y >> place) % 2 == 1 {
        Mark::Y
    } else {
        Mark::Z
    }
}

/// The level before a preamble that begins at this cell: each preamble begins with a change.
fn level_before(cells: u64, place: u32) -> Level
    requires { place < 64 }
    ensures { result ≡ other (level_of (bit_at cells place)) }
{
    if (cells >> place) % 2 == 0 {
        Level::High
    } else {
        Level::Low
    }
}

/// Those of 64 places that are not before cell 0. The first place is seven cells before cell
/// `seen`.
fn behind_start(seen: u64, places: u64) -> u64
    ensures { (k : ℕ) → k < 64 → bit_at result k
        ≡ (if nat_le 7 (seen + k) then bit_at places k else 0) }
{
    if seen >= PREAMBLE_CELLS - 1 {
        return places;
    }
    let before = PREAMBLE_CELLS - 1 - seen;
    places >> before << before
}

/// The first of the places.
fn first_of_places(places: u64) -> u32
    requires { 0 < places }
    ensures within { result < 64 }
    ensures is { bit_at places result ≡ 1 }
    ensures first { (k : ℕ) → k < result → bit_at places k ≡ 0 }
{
    places.trailing_zeros()
}

/// The places without one.
fn without(places: u64, place: u32) -> u64
    requires { place < 64 }
    ensures gone { bit_at result place ≡ 0 }
    ensures others { (k : ℕ) → k < 64 → ¬ (k ≡ place) → bit_at result k ≡ bit_at places k }
{
    places & !(1 << place)
}

impl WordMarks {
    /// The preambles that end in a word after `seen` cells. `cells` are the last seven of these and
    /// the first 57 of the word, and the lowest seven bits of `next` its other cells.
    pub(crate) fn new(seen: u64, cells: u64, next: u64) -> Self
        requires { seen ≤ 2 ^ 43 }
        ensures { (c : List Level) (word : ℕ) → seen ≡ length c
            → with_seven cells next ≡ drop 1 (last_eight c) ++ word_cells word
            → marks (c ++ word_cells word) ≡ marks c ++ result }
    {
        let places = mark_places(cells, next);
        let left = behind_start(seen, places.x | (places.y | places.z));
        WordMarks {
            seen,
            cells,
            next,
            left,
            x: places.x,
            y: places.y,
        }
    }

    /// Takes the first preamble that is left.
    pub fn take_next(&mut self) -> Option<(u64, Mark, Level)>
        ensures next { self.old ≡ option_to_list result ++ self.new }
        ensures end { result ≡ None → self.new ≡ [] }
    {
        if self.left == 0 {
            return None;
        }
        let place = first_of_places(self.left);
        self.left = without(self.left, place);
        let at = self.seen + u64::from(place) - (PREAMBLE_CELLS - 1);
        Some((
            at,
            mark_at(self.x, self.y, place),
            level_before(self.cells, place),
        ))
    }
}
