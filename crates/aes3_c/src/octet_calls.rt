//! Cells in octets, many at once.

ghost use Rattle.std.specs.Prelude.{◌≡◌, ◌+◌, ◌-◌, ◌*◌, ◌%◌, ◌<◌, ◌≤◌, ◌^◌, ℕ, drop, length, min};
ghost use Rattle.aes3_cell.specs.Packed.{cells_of_octets};
ghost use Rattle.aes3_level.specs.Words.{low_cells};
ghost use Rattle.aes3_c.specs.Taking.{TookAndReported, TookFirst};
ghost use Rattle.aes3_c.specs.Octets.{cells_from};
ghost use Rattle.aes3_c.specs.States.{state_of};

use crate::lock_calls::{Aes3Lock, MOST, keep, lock_of};
use crate::report_record::{Aes3Report, put_ending};
use crate::taking::{Took, take_first};
use aes3_cell::{word_of_octets, words_of_octets};
use aes3_lock::Lock;

/// How many words are made from octets at once: so few that they take little of the stack, and so
/// many that the cost of the calls is small.
const WORDS: usize = 64;

/// How many cells of octets, from cell `first` on, a lock takes at most after `seen` cells.
fn most_cells(seen: u64, octets: usize, first: usize) -> usize
    ensures { result ≡ min (8 * octets - first) (2 ^ 43 - seen) }
{
    let begun = first / 8;
    if begun >= octets {
        return 0;
    }
    let few = (octets - begun).min(MOST as usize);
    (8 * few - first % 8).min(MOST.saturating_sub(seen) as usize)
}

/// The cells of up to eight octets, from cell `at` of all on, as the front of a word.
fn word_from(octets: &[u8], at: usize) -> u64
    requires { at < 8 * length octets.now }
    ensures { (n : ℕ) → at % 8 + n ≤ 64 → at + n ≤ 8 * length octets.now
        → low_cells n result ≡ cells_from octets.now at n }
{
    let begun = at / 8;
    let count = (octets.len() - begun).min(8);
    let mut eight = [0; 8];
    eight[..count].copy_from_slice(&octets[begun..begun + count]);
    word_of_octets(&eight) >> (at % 8)
}

/// Takes the cells of octets by whole words, up to and including the first that decides a report,
/// if any does.
fn take_words_of(state: &mut Lock, octets: &[u8]) -> Took
    requires whole { length octets.now % 8 ≡ 0 }
    requires few { length octets.now ≤ 8 * WORDS }
    requires room { state.old.seen + 8 * length octets.now ≤ 2 ^ 43 }
    ensures { TookFirst state.old state.new (cells_of_octets octets.now)
        (8 * length octets.now) result }
{
    let mut memory = [0; WORDS];
    let words = &mut memory[..octets.len() / 8];
    words_of_octets(octets, words);
    take_first(state, words, 0, 8 * octets.len())
}

/// Takes some of `len` cells of octets from cell `at` on, up to and including the first that
/// decides a report.
fn take_some(state: &mut Lock, octets: &[u8], at: usize, len: usize) -> Took
    requires some { 0 < len }
    requires within { at + len ≤ 8 * length octets.now }
    requires room { state.old.seen + len ≤ 2 ^ 43 }
    ensures some { 0 < result.cells }
    ensures within { result.cells ≤ len }
    ensures took { TookFirst state.old state.new (drop at (cells_of_octets octets.now))
        result.cells result }
{
    if at % 8 == 0 && len >= 64 {
        let begun = at / 8;
        let count = (len / 64).min(WORDS);
        return take_words_of(state, &octets[begun..begun + 8 * count]);
    }
    let most = len.min(64 - at % 8);
    take_first(state, &[word_from(octets, at)], 0, most)
}

/// Takes `len` cells of octets from cell `first` on, up to and including the first that decides a
/// report, if any does.
fn take_cells(state: &mut Lock, octets: &[u8], first: usize, len: usize) -> Took
    requires within { first + len ≤ 8 * length octets.now }
    requires fits { first + len < 2 ^ 64 }
    requires room { state.old.seen + len ≤ 2 ^ 43 }
    ensures { TookFirst state.old state.new (drop first (cells_of_octets octets.now)) len result }
{
    let mut taken = 0;
    while taken < len {
        let more = take_some(state, octets, first + taken, len - taken);
        taken += more.cells;
        if more.ending.is_some() {
            return Took {
                cells: taken,
                ending: more.ending,
            };
        }
    }
    Took {
        cells: taken,
        ending: None,
    }
}

/// Takes the cells of octets from cell `first` of all on, eight in each octet, the first in its
/// highest bit. It stops after the first cell that decides a report. Puts that report, if any, but
/// no words: `aes3_lock_block` puts these. Returns how many cells it took; no lock takes more than
/// 2^43.
#[unsafe(no_mangle)]
pub extern "C" fn aes3_lock_take_octets(
    lock: &mut Aes3Lock,
    octets: &[u8],
    first: usize,
    report: &mut Aes3Report,
) -> usize
    ensures { TookAndReported (state_of lock.old) (state_of lock.new)
        (drop first (cells_of_octets octets.now)) (8 * length octets.now - first) result
        report.old report.new }
{
    let len = most_cells(lock.seen, octets.len(), first);
    if len == 0 {
        put_ending(None, report);
        return 0;
    }
    let mut state = lock_of(lock);
    let taken = take_cells(&mut state, &octets[first / 8..], first % 8, len);
    put_ending(taken.ending, report);
    keep(&state, lock);
    taken.cells
}
