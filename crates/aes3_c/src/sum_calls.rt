//! A watched line: the sums of its periods, as plain numbers.

ghost use Rattle.std.specs.Prelude.{◌≡◌, ◌+◌, ◌-◌, ◌<◌, ◌≤◌, ◌^◌, ◌++◌, ◌∷◌, [], ℕ, List, Some, None};
ghost use Rattle.std.specs.Prelude.{Bool, false, length, map, true};
ghost use Rattle.aes3_level.specs.declared.level.Level.{Level};
ghost use Rattle.aes3_frame.specs.Files.{payload_of};
ghost use Rattle.aes3_lock.specs.declared.report.Report.{Report};
ghost use Rattle.aes3_lock.specs.Remains.{place_of};
ghost use Rattle.aes3_lock.specs.Reports.{decided, reports};
ghost use Rattle.aes3_lock_gaps.specs.Told.{report_with};
ghost use Rattle.aes3_watch.specs.declared.signals.Signals.{Signals};
ghost use Rattle.aes3_watch.specs.Sums.{counted_report, is_whole, next_period, notices, on_to, place_behind};
ghost use Rattle.aes3_watch.specs.Sums.{sums_in, take_report, with_period};
ghost use Rattle.aes3_c.specs.States.{told_in};
ghost use Rattle.aes3_c.specs.Sums.{HasSummed, HasBegunSums, figures_in, period_in, period_sum, sum_numbers};
ghost use Rattle.aes3_c.specs.Sums.{summed_in, uncounted_sum};
ghost use Rattle.aes3_c.specs.Watches.{IsNext};

use crate::gap_calls::ending_of;
use crate::lock_calls::MOST;
use crate::report_record::Aes3Report;
use crate::watch_calls::{Aes3Watch, keep_watched, take_ending, watched_of};
use aes3_frame::BLOCK_CELLS;
use aes3_lock::Ending;
use aes3_text_lines::{Figures, Sum};
use aes3_watch::{Period, Signals, Watched, changes_in};
use arrayvec::ArrayVec;

/// How many cells a period has at most.
const MOST_CELLS: u64 = 1 << 40;

/// What is counted from cell `from` on and before cell `to`.
#[repr(C)]
#[derive(Clone, Copy)]
pub struct Aes3Sum {
    pub from: u64,
    pub to: u64,
    /// How many whole blocks begin there.
    pub whole: u64,
    /// How many blocks with a wrong parity bit begin there.
    pub marked: u64,
    /// How many faults begin there, and how many of each cause.
    pub fault: u64,
    pub preamble: u64,
    pub biphase: u64,
    pub unclosed: u64,
    /// How many cells lie in gaps that count.
    pub lost: u64,
    /// How many validity bits of the first and of the second channel are 1 in whole blocks.
    pub invalid_first: u64,
    pub invalid_second: u64,
    /// How many events report another status or other validity bits.
    pub changes: u64,
}

// As the header has it.
const _: () = prove!(size_of::<Aes3Sum>() == 96);

const _: () = prove!(align_of::<Aes3Sum>() == 8);

/// The state of a line whose sums are given, after some cells. Only the functions here use its
/// fields.
#[repr(C)]
#[derive(Drop)]
pub struct Aes3Sums {
    pub watch: Aes3Watch,
    /// The counts of the current period. It has no end yet.
    pub current: Aes3Sum,
    pub place: u64,
    /// How many cells a period has. 0 if there are no periods.
    pub every: u64,
}

// The header reserves 24 words of 64 bits for it.
const _: () = prove!(size_of::<Aes3Sums>() == 192);

const _: () = prove!(align_of::<Aes3Sums>() == 8);

/// The counts that are kept.
fn figures_of(sum: &Aes3Sum) -> Figures
    ensures { result ≡ figures_in sum.now }
{
    Figures {
        whole: sum.whole,
        marked: sum.marked,
        fault: sum.fault,
        preamble: sum.preamble,
        biphase: sum.biphase,
        unclosed: sum.unclosed,
        lost: sum.lost,
        invalid_first: sum.invalid_first,
        invalid_second: sum.invalid_second,
        changes: sum.changes,
    }
}

/// The period that is kept.
fn period_of(kept: &Aes3Sums) -> Period
    ensures { result ≡ period_in kept.now }
{
    Period {
        from: kept.current.from,
        place: kept.place,
        figures: figures_of(&kept.current),
    }
}

/// The numbers of a sum.
fn numbers_of(sum: &Sum) -> Aes3Sum
    ensures { result ≡ sum_numbers sum.now }
{
    Aes3Sum {
        from: sum.from,
        to: sum.to,
        whole: sum.figures.whole,
        marked: sum.figures.marked,
        fault: sum.figures.fault,
        preamble: sum.figures.preamble,
        biphase: sum.figures.biphase,
        unclosed: sum.figures.unclosed,
        lost: sum.figures.lost,
        invalid_first: sum.figures.invalid_first,
        invalid_second: sum.figures.invalid_second,
        changes: sum.figures.changes,
    }
}

/// Keeps the state of a line and its current period.
fn keep(state: &Watched, period: &Period, kept: &mut Aes3Sums)
    ensures state { summed_in kept.new ≡ uncounted_sum (with_period state.now period.now) }
    ensures every { kept.new.every ≡ kept.old.every }
{
    keep_watched(state, &mut kept.watch);
    kept.current = numbers_of(&period.sum(period.from));
    kept.place = period.place;
}

/// Advances to the end of the current period, puts its sum and begins the next one.
fn put_period(kept: &mut Aes3Sums, sum: &mut Aes3Sum)
    requires near { kept.old.current.from + kept.old.every < 2 ^ 64 }
    ensures state { summed_in kept.new
        ≡ uncounted_sum (next_period kept.old.every (summed_in kept.old)) }
    ensures every { kept.new.every ≡ kept.old.every }
    ensures sum { sum.new ≡ sum_numbers (period_sum kept.old.every (summed_in kept.old)) }
{
    let mut state = watched_of(&kept.watch);
    let mut period = period_of(kept);
    let to = period.from + kept.every;
    state.go_on(&mut ArrayVec::new(), to);
    period.count_gaps(to);
    *sum = numbers_of(&period.sum(to));
    period.begin(to);
    keep(&state, &period, kept);
}

/// Whether there are periods, and the current one ends at cell `to` or before.
fn has_ended(kept: &Aes3Sums, to: u64) -> bool
    ensures ended { result ≡ true → kept.now.current.from + kept.now.every ≤ to }
    ensures open { result ≡ false → 0 < kept.now.every
        → to < kept.now.current.from + kept.now.every }
    ensures never { kept.now.every ≡ 0 → result ≡ false }
    ensures before { to ≤ kept.now.current.from → result ≡ false }
{
    kept.every != 0 && to.saturating_sub(kept.current.from) >= kept.every
}

/// The place where the block of an ending begins.
fn place_of_ending(ending: Ending) -> u64
    ensures { (block : List (List Bool)) → place_of (report_with block ending) ≡ result }
{
    match ending {
        Ending::Whole { at, .. }
        | Ending::Marked { at, .. }
        | Ending::Fault { at, .. }
        | Ending::Unfinished { at, .. } => at,
    }
}

/// Counts the report of an ending at the cell that is reached. `latest` is what the last whole block
/// says, with this one. `changes` of its events report a change; `found` says whether there was a
/// whole block before it.
fn count_ending(
    period: &mut Period,
    ending: Ending,
    found: bool,
    latest: &Option<Signals>,
    changes: u64,
)
    ensures from { period.new.from ≡ period.old.from }
    ensures place { (block : List (List Bool)) → place_of (report_with block ending) ≤ 2 ^ 43
        → period.new.place ≡ place_behind period.old.place (report_with block ending) }
    ensures figures { (block : List (List Bool)) → place_of (report_with block ending) ≤ 2 ^ 43
        → (now : Signals) → latest.now ≡ Some now → period.new.figures
        ≡ counted_report period.old.figures period.old.place found now changes
        (report_with block ending) }
    ensures others { (block : List (List Bool)) → is_whole (report_with block ending) ≡ false
        → (now : Signals) → period.new.figures
        ≡ counted_report period.old.figures period.old.place found now changes
        (report_with block ending) }
{
    match ending {
        Ending::Whole { at, .. } => {
            let (first, second) = match latest {
                Some(now) => (now.first.invalid, now.second.invalid),
                None => (0, 0),
            };
            // No lock has a report of a later place.
            period.count_whole(at.min(MOST), found, first, second, changes);
        }
        Ending::Marked { .. } => period.count_marked(),
        Ending::Fault { why, .. } => period.count_fault(why),
        Ending::Unfinished { .. } => {}
    }
}

/// Advances to and past a report, given its ending and the words of a whole block.
fn take_report(kept: &mut Aes3Sums, words: &[u32; 384], ending: Ending)
    ensures state { (x : Report) → report_with (map payload_of words.now) ending ≡ x
        → place_of x ≤ 2 ^ 43 → summed_in kept.new
        ≡ uncounted_sum (take_report (on_to (summed_in kept.old) (place_of x)) x) }
    ensures every { kept.new.every ≡ kept.old.every }
{
    let at = place_of_ending(ending);
    let mut state = watched_of(&kept.watch);
    let mut period = period_of(kept);
    let mut passed = ArrayVec::new();
    state.go_on(&mut passed, at);
    period.count_gaps(at);
    let found = state.found;
    let mut told = ArrayVec::new();
    take_ending(&mut state, words, ending, &mut told);
    count_ending(&mut period, ending, found, &state.latest, changes_in(&told));
    keep(&state, &period, kept);
}

/// Makes the state of a line of which no report has come, with periods of `every` cells. If there
/// are no such periods, returns false; then no call puts a sum.
#[unsafe(no_mangle)]
pub extern "C" fn aes3_sums_init(sums: &mut Aes3Sums, every: u64) -> bool
    ensures none { result ≡ true → (c : List Level) → length c ≤ 2 ^ 43
        → HasSummed every sums.new c [] [] }
    ensures some { 0 < every → every ≤ 2 ^ 40 → result ≡ true }
    ensures zero { every ≡ 0 → result ≡ false }
    ensures many { 2 ^ 40 < every → result ≡ false }
    ensures never { result ≡ false → sums.new.every ≡ 0 }
{
    keep(&Watched::new(), &Period::new(), sums);
    if every == 0 || every > MOST_CELLS {
        sums.every = 0;
        return false;
    }
    sums.every = every;
    true
}

/// Puts the sum of the next period that ends before a report, at its first cell or before, and
/// returns true. If no such period is left or there is no report, takes the report and returns
/// false. The report of a whole block has its words.
#[unsafe(no_mangle)]
pub extern "C" fn aes3_sums_before(
    sums: &mut Aes3Sums,
    report: &Aes3Report,
    sum: &mut Aes3Sum,
) -> bool
    ensures sum { result ≡ true → (x : Report) → told_in report.now ≡ Some x → (every : ℕ)
        (c : List Level) (r : List Report) (put : List Aes3Sum) → HasSummed every sums.old c r put
        → IsNext c r x → HasSummed every sums.new c r (put ++ sum.new ∷ []) }
    ensures report { result ≡ false → (x : Report) → told_in report.now ≡ Some x → (every : ℕ)
        (c : List Level) (r : List Report) (put : List Aes3Sum) → HasSummed every sums.old c r put
        → IsNext c r x → HasSummed every sums.new c (r ++ x ∷ []) put }
    ensures none { told_in report.now ≡ None → result ≡ false }
    ensures unchanged { told_in report.now ≡ None → sums.new ≡ sums.old }
    ensures left { result ≡ false → sum.new ≡ sum.old }
    ensures never { sums.old.every ≡ 0 → result ≡ false }
{
    let Some(ending) = ending_of(report) else {
        return false;
    };
    if has_ended(sums, place_of_ending(ending)) {
        put_period(sums, sum);
        return true;
    }
    take_report(sums, &report.words, ending);
    false
}

/// Puts the sum of the next period that no later cell changes after the first `seen`, all of whose
/// reports were given, and returns true. If no such period is left, returns false.
#[unsafe(no_mangle)]
pub extern "C" fn aes3_sums_passed(sums: &mut Aes3Sums, seen: u64, sum: &mut Aes3Sum) -> bool
    ensures sum { result ≡ true → (every : ℕ) (c d : List Level) (r : List Report)
        (put : List Aes3Sum) → HasSummed every sums.old (c ++ d) r put → r ≡ decided c
        → seen ≡ length c → HasSummed every sums.new (c ++ d) r (put ++ sum.new ∷ []) }
    ensures all { result ≡ false → (every : ℕ) (c d : List Level) (r : List Report)
        (put : List Aes3Sum) → HasSummed every sums.old (c ++ d) r put → r ≡ decided c
        → seen ≡ length c → HasBegunSums every c put }
    ensures unchanged { result ≡ false → sums.new ≡ sums.old }
    ensures left { result ≡ false → sum.new ≡ sum.old }
    ensures never { sums.old.every ≡ 0 → result ≡ false }
{
    if !has_ended(sums, seen.saturating_sub(BLOCK_CELLS)) {
        return false;
    }
    put_period(sums, sum);
    true
}

/// Puts the sum of the next period at the end of the `seen` cells, all of whose reports were given,
/// and returns true. The last one can be shorter. If no period is left, returns false.
#[unsafe(no_mangle)]
pub extern "C" fn aes3_sums_end(sums: &mut Aes3Sums, seen: u64, sum: &mut Aes3Sum) -> bool
    ensures sum { result ≡ true → sum.new.to < seen → (every : ℕ) (c : List Level)
        (r : List Report) (put : List Aes3Sum) → HasSummed every sums.old c r put → r ≡ reports c
        → seen ≡ length c → HasSummed every sums.new c r (put ++ sum.new ∷ []) }
    ensures last { result ≡ true → sum.new.to ≡ seen → (every : ℕ) (c : List Level)
        (r : List Report) (put : List Aes3Sum) → HasSummed every sums.old c r put → r ≡ reports c
        → seen ≡ length c → put ++ sum.new ∷ [] ≡ map sum_numbers (sums_in (notices every c)) }
    ensures all { result ≡ false → (every : ℕ) (c : List Level) (r : List Report)
        (put : List Aes3Sum) → HasSummed every sums.old c r put → r ≡ reports c
        → seen ≡ length c → put ≡ map sum_numbers (sums_in (notices every c)) }
    ensures to { result ≡ true → sum.new.to ≤ seen }
    ensures further { result ≡ true → sums.new.current.from ≡ sum.new.to }
    ensures over { seen ≤ sums.old.current.from → result ≡ false }
    ensures unchanged { result ≡ false → sums.new ≡ sums.old }
    ensures left { result ≡ false → sum.new ≡ sum.old }
    ensures never { sums.old.every ≡ 0 → result ≡ false }
{
    if has_ended(sums, seen) {
        put_period(sums, sum);
        return true;
    }
    if sums.every == 0 || sums.current.from >= seen {
        return false;
    }
    let mut period = period_of(sums);
    period.count_gaps(seen);
    *sum = numbers_of(&period.sum(seen));
    sums.current.from = seen;
    true
}
