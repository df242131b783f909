//! Cells in words, many at once.

ghost use Rattle.std.specs.Prelude.{◌≡◌, ◌-◌, ◌*◌, ◌/◌, ◌^◌, drop, length, min, take};
ghost use Rattle.std.specs.List.{flat_map};
ghost use Rattle.aes3_level.specs.Words.{word_cells};
ghost use Rattle.aes3_cell.specs.Packed.{cells_of_octets};
ghost use Rattle.aes3_c.specs.States.{state_of};
ghost use Rattle.aes3_c.specs.Taking.{TookAndReported};

use crate::lock_calls::{Aes3Lock, MOST, take_cells};
use crate::report_record::{Aes3Report, put_ending};
use aes3_cell::words_of_octets;

/// Puts the words of octets, eight octets for each word, the first cell in the highest bit of the
/// first. It goes on as long as there are eight more octets and room for a word. Returns how many
/// words it put.
#[unsafe(no_mangle)]
pub extern "C" fn aes3_words_of_octets(octets: &[u8], words: &mut [u64]) -> usize
    ensures count { result ≡ min (length octets.now / 8) (length words.old) }
    ensures cells { flat_map word_cells (take result words.new)
        ≡ cells_of_octets (take (8 * result) octets.now) }
    ensures others { drop result words.new ≡ drop result words.old }
{
    let count = (octets.len() / 8).min(words.len());
    words_of_octets(&octets[..8 * count], &mut words[..count]);
    count
}

/// How many cells of words, from cell `first` on, a lock takes at most after `seen` cells.
fn most_cells(seen: u64, words: usize, first: usize) -> usize
    ensures { result ≡ min (64 * words - first) (2 ^ 43 - seen) }
{
    let begun = first / 64;
    if begun >= words {
        return 0;
    }
    let few = (words - begun).min(MOST as usize);
    (64 * few - first % 64).min(MOST.saturating_sub(seen) as usize)
}

/// Takes the cells of words from cell `first` of all on, 64 in each word, the earliest in bit 0. It
/// stops after the first cell that decides a report. Puts that report, if any, but no words of a
/// block: `aes3_lock_block` puts these. Returns how many cells it took; no lock takes more than
/// 2^43.
#[unsafe(no_mangle)]
pub extern "C" fn aes3_lock_take_cells(
    lock: &mut Aes3Lock,
    words: &[u64],
    first: usize,
    report: &mut Aes3Report,
) -> usize
    ensures { TookAndReported (state_of lock.old) (state_of lock.new)
        (drop first (flat_map word_cells words.now)) (64 * length words.now - first) result
        report.old report.new }
{
    let len = most_cells(lock.seen, words.len(), first);
    if len == 0 {
        put_ending(None, report);
        return 0;
    }
    let taken = take_cells(lock, &words[first / 64..], first % 64, len);
    put_ending(taken.ending, report);
    taken.cells
}
