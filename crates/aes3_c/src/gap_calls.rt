//! The gaps of the account of all cells.

ghost use Rattle.std.specs.Prelude.{◌≡◌, ◌≤◌, ◌^◌, ◌++◌, ◌∷◌, [], Some, true, false, List, Bool};
ghost use Rattle.std.specs.Prelude.{length, option_map};
ghost use Rattle.aes3_level.specs.declared.level.Level.{Level};
ghost use Rattle.aes3_lock.specs.declared.report.Report.{Report};
ghost use Rattle.aes3_lock.specs.Reports.{decided, reports};
ghost use Rattle.aes3_lock_gaps.specs.Gaps.{Entry, reported};
ghost use Rattle.aes3_lock_gaps.specs.Told.{ComesNext, HasAll, HasBegun, Tells, gap_entry};
ghost use Rattle.aes3_lock_gaps.specs.Told.{report_with, reports_in};
ghost use Rattle.aes3_c.specs.Accounts.{account_in, gap_in};
ghost use Rattle.aes3_c.specs.States.{told_of};

use crate::level_byte::level_of_byte;
use crate::report_record::{Aes3Report, why_of_byte};
use aes3_lock::Ending;
use aes3_lock_gaps::{Account, Gap};

/// Which reports of a lock's cells and gaps between them were given. Only the functions here use
/// its fields.
#[repr(C)]
#[derive(Drop)]
pub struct Aes3Account {
    pub place: u64,
    pub found: u8,
}

// The header reserves two words of 64 bits for it.
const _: () = prove!(size_of::<Aes3Account>() == 16);

const _: () = prove!(align_of::<Aes3Account>() == 8);

/// A gap: cells in a row that lie in no whole block.
#[repr(C)]
#[derive(Drop)]
pub struct Aes3Gap {
    /// The place of its first cell.
    pub at: u64,
    /// How many cells it has, at most 24,576.
    pub cells: u64,
    /// 1 if it counts as a fault, 0 if the input is cut there.
    pub counts: u8,
}

// As the header has it.
const _: () = prove!(size_of::<Aes3Gap>() == 24);

const _: () = prove!(align_of::<Aes3Gap>() == 8);

fn account_of(kept: &Aes3Account) -> Account
    ensures { result ≡ account_in kept.now }
{
    Account {
        place: kept.place,
        found: kept.found != 0,
    }
}

fn keep_account(account: Account, kept: &mut Aes3Account)
    ensures { account_in kept.new ≡ account }
{
    kept.place = account.place;
    kept.found = if account.found { 1 } else { 0 };
}

fn put_gap(told: Gap, gap: &mut Aes3Gap)
    ensures gap { gap_in gap.new ≡ gap_entry told }
    ensures code { gap.new.counts ≤ 1 }
{
    gap.at = told.at;
    gap.cells = told.cells;
    gap.counts = if told.counts { 1 } else { 0 };
}

/// The ending of a block that a report gives, if it gives one.
pub(crate) fn ending_of(report: &Aes3Report) -> Option<Ending>
    ensures { (block : List (List Bool)) → told_of block report.now
        ≡ option_map (report_with block) result }
{
    let at = report.at;
    match report.kind {
        1 => Some(Ending::Whole {
            at,
            before: level_of_byte(report.before),
        }),
        2 => Some(Ending::Marked {
            at,
            before: level_of_byte(report.before),
            wrong: report.wrong,
        }),
        3 => Some(Ending::Fault {
            at,
            cell: report.cell,
            why: why_of_byte(report.why),
        }),
        4 => Some(Ending::Unfinished {
            at,
            cells: report.cell,
        }),
        _ => None,
    }
}

/// Makes an account for a lock that has seen no cell.
#[unsafe(no_mangle)]
pub extern "C" fn aes3_account_init(account: &mut Aes3Account)
    ensures { (c : List Level) → length c ≤ 2 ^ 43 → Tells (account_in account.new) c [] }
{
    keep_account(Account::new(), account);
}

/// Puts the next gap before a report, and returns true. If no gap is left or there is no report,
/// counts the report as given and returns false.
#[unsafe(no_mangle)]
pub extern "C" fn aes3_account_before(
    account: &mut Aes3Account,
    report: &Aes3Report,
    gap: &mut Aes3Gap,
) -> bool
    ensures gap { result ≡ true → (block : List (List Bool)) (x : Report)
        → told_of block report.now ≡ Some x → (c : List Level) (e : List Entry)
        → Tells (account_in account.old) c e → ComesNext c e x
        → Tells (account_in account.new) c (e ++ gap_in gap.new ∷ []) }
    ensures report { result ≡ false → (block : List (List Bool)) (x : Report)
        → told_of block report.now ≡ Some x → (c : List Level) (e : List Entry)
        → Tells (account_in account.old) c e → ComesNext c e x
        → Tells (account_in account.new) c (e ++ reported x ∷ []) }
    ensures none { report.now.kind ≡ 0 → result ≡ false }
    ensures unchanged { report.now.kind ≡ 0 → account.new ≡ account.old }
    ensures code { result ≡ true → gap.new.counts ≤ 1 }
    ensures left { result ≡ false → gap.new ≡ gap.old }
{
    let Some(ending) = ending_of(report) else {
        return false;
    };
    let mut state = account_of(account);
    let next = state.before(ending);
    keep_account(state, account);
    match next {
        Some(told) => {
            put_gap(told, gap);
            true
        }
        None => false,
    }
}

/// Puts the next gap that no later cell changes after the first `seen`, all of whose reports were
/// given, and returns true. If no gap is left, returns false.
#[unsafe(no_mangle)]
pub extern "C" fn aes3_account_passed(
    account: &mut Aes3Account,
    seen: u64,
    gap: &mut Aes3Gap,
) -> bool
    ensures gap { result ≡ true → (c d : List Level) (e : List Entry)
        → Tells (account_in account.old) (c ++ d) e → reports_in e ≡ decided c → seen ≡ length c
        → Tells (account_in account.new) (c ++ d) (e ++ gap_in gap.new ∷ []) }
    ensures all { result ≡ false → (c d : List Level) (e : List Entry)
        → Tells (account_in account.old) (c ++ d) e → reports_in e ≡ decided c → seen ≡ length c
        → HasBegun c e }
    ensures unchanged { result ≡ false → account_in account.new ≡ account_in account.old }
    ensures code { result ≡ true → gap.new.counts ≤ 1 }
    ensures left { result ≡ false → gap.new ≡ gap.old }
{
    let mut state = account_of(account);
    let next = state.passed(seen);
    keep_account(state, account);
    match next {
        Some(told) => {
            put_gap(told, gap);
            true
        }
        None => false,
    }
}

/// Puts the next gap at the end of the `seen` cells, all of whose reports were given, and returns
/// true. If no gap is left, returns false: everything was given.
#[unsafe(no_mangle)]
pub extern "C" fn aes3_account_end(account: &mut Aes3Account, seen: u64, gap: &mut Aes3Gap) -> bool
    ensures gap { result ≡ true → (c : List Level) (e : List Entry)
        → Tells (account_in account.old) c e → reports_in e ≡ reports c → seen ≡ length c
        → Tells (account_in account.new) c (e ++ gap_in gap.new ∷ []) }
    ensures all { result ≡ false → (c : List Level) (e : List Entry)
        → Tells (account_in account.old) c e → reports_in e ≡ reports c → seen ≡ length c
        → HasAll c e }
    ensures unchanged { result ≡ false → account_in account.new ≡ account_in account.old }
    ensures code { result ≡ true → gap.new.counts ≤ 1 }
    ensures left { result ≡ false → gap.new ≡ gap.old }
{
    let mut state = account_of(account);
    let next = state.end(seen);
    keep_account(state, account);
    match next {
        Some(told) => {
            put_gap(told, gap);
            true
        }
        None => false,
    }
}
