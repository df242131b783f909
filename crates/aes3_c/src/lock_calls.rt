//! The lock, kept by its caller.

ghost use Rattle.std.specs.Prelude.{◌≡◌, ◌≢◌, ◌+◌, ◌<◌, ◌≤◌, ◌^◌, None, List, [], ◌++◌, length, take};
ghost use Rattle.std.specs.Prelude.{◌*◌, ◌-◌, ◌/◌, drop, get_or, map, min, option_map, option_to_list};
ghost use Rattle.std.specs.List.{flat_map};
ghost use Rattle.aes3_level.specs.declared.level.Level.{Level};
ghost use Rattle.aes3_level.specs.Words.{low_cells, word_cells};
ghost use Rattle.aes3_lock.specs.Reports.{decided, reports};
ghost use Rattle.aes3_lock.specs.Following.{Follows, report_in};
ghost use Rattle.aes3_c.specs.Taking.{TookFirst};
ghost use Rattle.aes3_frame.specs.Files.{payload_of, word_of};
ghost use Rattle.aes3_c.specs.States.{Coded, HasBlock, StopsAt, block_in, candidate_in, state_of};
ghost use Rattle.aes3_c.specs.States.{told_in};

use crate::level_byte::{byte_of_level, level_of_byte};
use crate::report_record::{Aes3Report, put_block, put_ending, put_report};
use crate::taking::{Took, take_first};
use aes3_lock::{Candidate, Ending, Lock, LockParts};

/// A lock as plain numbers. Only the functions here use its fields.
#[repr(C)]
#[derive(Drop)]
pub struct Aes3Lock {
    pub seen: u64,
    pub at: u64,
    pub subframe: u64,
    pub words: [u64; 384],
    pub recent: u8,
    pub in_hand: u8,
    pub before: u8,
    pub level: u8,
}

// The header reserves 388 words of 64 bits for it.
const _: () = prove!(size_of::<Aes3Lock>() == 3104);

const _: () = prove!(align_of::<Aes3Lock>() <= 8);

/// How many cells a lock takes.
pub(crate) const MOST: u64 = 1 << 43;

fn candidate_of(kept: &Aes3Lock) -> Option<Candidate>
    ensures { result ≡ candidate_in kept.now }
{
    if kept.in_hand == 0 || kept.seen < kept.at {
        return None;
    }
    Some(Candidate {
        at: kept.at,
        before: level_of_byte(kept.before),
        level: level_of_byte(kept.level),
    })
}

pub(crate) fn lock_of(kept: &Aes3Lock) -> Lock
    ensures { result ≡ state_of kept.now }
{
    Lock::of_parts(LockParts {
        seen: kept.seen,
        recent: kept.recent,
        candidate: candidate_of(kept),
        subframe: kept.subframe,
        words: &kept.words,
    })
}

pub(crate) fn keep(lock: &Lock, kept: &mut Aes3Lock)
    ensures { state_of kept.new ≡ lock.now }
{
    let parts = lock.parts();
    kept.seen = parts.seen;
    kept.recent = parts.recent;
    kept.subframe = parts.subframe;
    kept.words = *parts.words;
    match parts.candidate {
        None => kept.in_hand = 0,
        Some(candidate) => {
            kept.in_hand = 1;
            kept.at = candidate.at;
            kept.before = byte_of_level(candidate.before);
            kept.level = byte_of_level(candidate.level);
        }
    }
}

/// Makes a lock that has seen no cell.
#[unsafe(no_mangle)]
pub extern "C" fn aes3_lock_init(lock: &mut Aes3Lock)
    ensures { Follows (state_of lock.new) [] }
{
    keep(&Lock::new(), lock);
}

/// How many cells a lock has seen.
#[unsafe(no_mangle)]
pub extern "C" fn aes3_lock_seen(lock: &Aes3Lock) -> u64
    ensures { result ≡ lock.now.seen }
{
    lock.seen
}

/// How many cells of a word a lock takes at most after `seen` cells.
fn most_of(seen: u64, count: u32) -> u32
    ensures count { result ≤ count }
    ensures word { result ≤ 64 }
    ensures room { 0 < result → seen + result ≤ 2 ^ 43 }
    ensures all { result ≡ min (min count 64) (2 ^ 43 - seen) }
{
    if seen >= MOST {
        return 0;
    }
    u64::from(count.min(64)).min(MOST - seen) as u32
}

/// `Lock::take` for a lock that is kept by its caller.
// A call of its own, so that the lock is off the stack when a block is put. So is `end_of`.
#[inline(never)]
pub(crate) fn take_cells(lock: &mut Aes3Lock, words: &[u64], first: usize, len: usize) -> Took
    requires within { first + len ≤ 64 * length words.now }
    requires room { lock.old.seen + len ≤ 2 ^ 43 }
    ensures { TookFirst (state_of lock.old) (state_of lock.new)
        (drop first (flat_map word_cells words.now)) len result }
{
    let mut state = lock_of(lock);
    let taken = take_first(&mut state, words, first, len);
    keep(&state, lock);
    taken
}

/// Takes at most `count` cells from the front of a word, and at most 64, the earliest in bit 0. It
/// stops after the first cell that decides a report, and puts that report, if any. Returns how many
/// it took; no lock takes more than 2^43 cells.
#[unsafe(no_mangle)]
pub extern "C" fn aes3_lock_push(
    lock: &mut Aes3Lock,
    word: u64,
    count: u32,
    report: &mut Aes3Report,
) -> u32
    ensures within { result ≤ count }
    ensures word { result ≤ 64 }
    ensures all { told_in report.new ≡ None
        → result ≡ min (min count 64) (2 ^ 43 - lock.old.seen) }
    ensures seen { lock.new.seen ≡ lock.old.seen + result }
    ensures follows { (cells : List Level) → Follows (state_of lock.old) cells
        → Follows (state_of lock.new) (cells ++ low_cells result word) }
    ensures report { (cells : List Level) → Follows (state_of lock.old) cells
        → decided (cells ++ low_cells result word) ≡ decided cells
        ++ option_to_list (told_in report.new) }
    ensures last { told_in report.new ≢ None → (cells : List Level)
        → Follows (state_of lock.old) cells
        → decided (cells ++ low_cells (result - 1) word) ≡ decided cells }
    ensures codes { Coded (told_in report.new) report.new }
    ensures block { HasBlock (told_in report.new) report.new }
{
    let most = most_of(lock.seen, count);
    if most == 0 {
        put_ending(None, report);
        return 0;
    }
    let taken = take_cells(lock, &[word], 0, most as usize);
    put_report(&lock.words, taken.ending, report);
    taken.cells as u32
}

/// How many words of 64 cells a lock takes at most after `seen` cells.
fn most_words(seen: u64, len: usize) -> usize
    ensures { result ≡ min len ((2 ^ 43 - seen) / 64) }
{
    (len as u64).min(MOST.saturating_sub(seen) / 64) as usize
}

/// Takes words of 64 cells, the earliest in bit 0. It stops before a word that decides a report, or
/// that ends the preamble of a block while no block is begun. Returns how many it took; no lock
/// takes more than 2^43 cells.
#[unsafe(no_mangle)]
pub extern "C" fn aes3_lock_take_words(lock: &mut Aes3Lock, words: &[u64]) -> usize
    ensures within { result ≤ length words.now }
    ensures seen { lock.new.seen ≡ lock.old.seen + 64 * result }
    ensures follows { (cells : List Level) → Follows (state_of lock.old) cells
        → Follows (state_of lock.new) (cells ++ flat_map word_cells (take result words.now)) }
    ensures none { (cells : List Level) → Follows (state_of lock.old) cells
        → decided (cells ++ flat_map word_cells (take result words.now)) ≡ decided cells }
    ensures stops { result < length words.now → lock.new.seen + 64 ≤ 2 ^ 43
        → StopsAt (state_of lock.new) (get_or words.now result 0) }
{
    let len = most_words(lock.seen, words.len());
    if len == 0 {
        return 0;
    }
    let mut state = lock_of(lock);
    let taken = state.take_words(&words[..len]);
    keep(&state, lock);
    taken
}

/// `Lock::end` for a lock that is kept by its caller.
#[inline(never)]
fn end_of(lock: &Aes3Lock) -> Option<Ending>
    ensures { (cells : List Level) → Follows (state_of lock.now) cells
        → reports cells ≡ decided cells
        ++ option_to_list (option_map (report_in (state_of lock.now)) result) }
{
    lock_of(lock).end()
}

/// Takes the end of the cells, and puts the report that it decides, if any.
#[unsafe(no_mangle)]
pub extern "C" fn aes3_lock_finish(lock: &Aes3Lock, report: &mut Aes3Report)
    ensures report { (cells : List Level) → Follows (state_of lock.now) cells
        → reports cells ≡ decided cells ++ option_to_list (told_in report.new) }
    ensures codes { Coded (told_in report.new) report.new }
    ensures block { HasBlock (told_in report.new) report.new }
{
    put_report(&lock.words, end_of(lock), report);
}

/// Puts the words of the block of the lock's last report, as in a block file, until the lock takes
/// more cells. That report is of a whole or a marked block; the words of a marked block get right
/// parity bits.
#[unsafe(no_mangle)]
pub extern "C" fn aes3_lock_block(lock: &Aes3Lock, words: &mut [u32; 384])
    ensures words { words.new ≡ map word_of (block_in (state_of lock.now)) }
    ensures payloads { map payload_of words.new ≡ block_in (state_of lock.now) }
{
    put_block(&lock.words, words);
}
