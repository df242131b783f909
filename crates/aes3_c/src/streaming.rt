//! The cells of a capture that comes in pieces. The caller keeps the recovery between calls.

ghost use Rattle.std.specs.Prelude.{◌≡◌, ◌≢◌, ◌+◌, ◌-◌, ◌<◌, ◌≤◌, ◌*◌, ◌^◌, ◌++◌, ◌⊎◌, ℕ, List, [], IfNone, IfSome, IsTrue, drop, false, length, min, take};
ghost use Rattle.aes3_level.specs.declared.level.Level.{Level};
ghost use Rattle.aes3_capture_recovery.specs.Levels.{bit_of_line, bits_of_sample, levels_of_samples};
ghost use Rattle.aes3_capture_recovery.specs.Parts.{recovery_parts};
ghost use Rattle.aes3_capture_recovery.specs.declared.recovery.Recovery.{Recovery};
ghost use Rattle.aes3_c.specs.Capturing.{AreFigures, unit_of};
ghost use Rattle.aes3_c.specs.Owed.{owed_in};
ghost use Rattle.aes3_c.specs.Streaming.{Drained, EndedMore, EndedSome, EndedTooMuch, IsEnded, IsTaking, TookMore, TookSome, TookTooMuch};

use crate::capture::Aes3Capture;
use crate::owed::{Aes3Owed, owe_nothing, put_owed};
use crate::owing::{Before, OwingSink};
use crate::recovering::{known_of, put_found, unit_of};
use aes3_capture_recovery::{Recovery, RecoveryParts, Unit, feed};
use aes3_cell::Form;
use std::marker::Brand;

/// A recovery as plain numbers. Only the functions here use its fields.
#[repr(C)]
#[derive(Drop)]
pub struct Aes3Recovery {
    pub recovery: RecoveryParts,
    /// The octets of cells for which there was no room yet.
    pub owed: Aes3Owed,
    /// How many octets were put.
    pub put: u64,
    /// Not 0 after the end of the samples.
    pub ended: u8,
}

/// Takes samples, and owes the octets of their cells. Returns false if it did nothing.
fn take_samples<K: Before>(
    parts: &mut RecoveryParts,
    owed: &mut Aes3Owed,
    unit: Unit,
    samples: &[u8],
) -> bool
    requires bit { bit_of_line unit < bits_of_sample unit }
    ensures took { IsTrue result → TookSome K.told parts.old parts.new owed.new (levels_of_samples unit samples.now) }
    ensures none { result ≡ false → (parts.new ≡ parts.old) × (owed.new ≡ owed.old) }
    ensures many { result ≡ false → TookTooMuch K.told parts.old (levels_of_samples unit samples.now) }
{
    let mut recovery = Recovery::of_parts(parts);
    let mut sink = OwingSink::<K>::new();
    // This sink never fails.
    let _ = feed(&mut recovery, &mut sink, unit, samples);
    let fits = sink.fits;
    if !fits {
        return false;
    }
    *parts = recovery.parts();
    *owed = sink.owed;
    true
}

/// Takes the end of the samples, and owes the octets of the last cells. Returns false if it did
/// nothing.
fn finish_samples<K: Before>(parts: &mut RecoveryParts, owed: &mut Aes3Owed) -> bool
    ensures ended { IsTrue result → EndedSome K.told parts.old parts.new owed.new }
    ensures none { result ≡ false → (parts.new ≡ parts.old) × (owed.new ≡ owed.old) }
    ensures many { result ≡ false → EndedTooMuch K.told parts.old }
{
    let mut recovery = Recovery::of_parts(parts);
    let mut sink = OwingSink::<K>::new();
    // This sink never fails.
    let _ = recovery.finish(&mut sink);
    let fits = sink.fits;
    if !fits {
        return false;
    }
    *parts = recovery.parts();
    *owed = sink.owed;
    true
}

/// How many octets of samples are taken at once. It is less than a block whose edges are found
/// first, which needs 33 KB of stack.
const PIECE: usize = 4032;

/// How many are taken if the cells of a piece are too many: one sample, or two of one octet.
const FEW: usize = 2;

/// Takes samples, or the first few of them if the octets of the cells of all are too many. Returns how
/// many octets of samples it took, or `None` if it did nothing.
fn take_some<K: Before>(
    parts: &mut RecoveryParts,
    owed: &mut Aes3Owed,
    unit: Unit,
    samples: &[u8],
) -> Option<usize>
    requires bit { bit_of_line unit < bits_of_sample unit }
    ensures some { IfSome result (λ len. (len ≤ length samples.now) × ((len ≡ 0 → length samples.now ≡ 0)
        × TookSome K.told parts.old parts.new owed.new (levels_of_samples unit (take len samples.now)))) }
    ensures none { IfNone result ((parts.new ≡ parts.old) × (owed.new ≡ owed.old)) }
    ensures many { IfNone result (TookTooMuch K.told parts.old (levels_of_samples unit (take 2 samples.now))) }
{
    if take_samples::<K>(parts, owed, unit, samples) {
        return Some(samples.len());
    }
    let few = samples.len().min(FEW);
    if take_samples::<K>(parts, owed, unit, &samples[..few]) {
        return Some(few);
    }
    None
}

/// Writes what is owed. Then takes samples, and writes their cells. Returns how many octets of
/// samples it took.
fn take_in(
    recovery: &mut Aes3Recovery,
    unit: Unit,
    samples: &[u8],
    cells: &mut [u8],
    put: &mut usize,
) -> usize
    ghost told: { List ℕ }
    requires bit { bit_of_line unit < bits_of_sample unit }
    ensures within { put.new ≤ length cells.new }
    ensures samples { result ≤ length samples.now }
    ensures took { (Drained recovery.old recovery.new (take put.new cells.new) × (result ≡ 0))
        ⊎ TookMore told recovery.old recovery.new (take put.new cells.new)
        (levels_of_samples unit (take result samples.now)) }
    ensures moves { result ≡ 0 → 0 < length samples.now → (put.new ≡ length cells.new)
        ⊎ ((recovery.old.ended ≢ 0)
        ⊎ TookTooMuch told recovery.old.recovery (levels_of_samples unit (take 2 samples.now))) }
    ensures rest { drop put.new cells.new ≡ drop put.new cells.old }
    ensures count { recovery.new.put ≡ recovery.old.put }
{
    let at = put_owed(&mut recovery.owed, cells, 0);
    *put = at;
    if at == cells.len() || recovery.ended != 0 {
        return 0;
    }
    let most = samples.len().min(PIECE);
    let Some(len) = take_some::<Brand>(
        &mut recovery.recovery,
        &mut recovery.owed,
        unit,
        &samples[..most],
    ) else {
        return 0;
    };
    *put = put_owed(&mut recovery.owed, cells, at);
    len
}

/// Writes what is owed. Then takes the end of the samples, and writes the last cells. Returns
/// whether all was written.
fn finish_in(recovery: &mut Aes3Recovery, cells: &mut [u8], put: &mut usize) -> bool
    ghost told: { List ℕ }
    ensures within { put.new ≤ length cells.new }
    ensures ended { Drained recovery.old recovery.new (take put.new cells.new)
        ⊎ EndedMore told recovery.old recovery.new (take put.new cells.new) }
    ensures all { IsTrue result → (recovery.new.ended ≢ 0) × (owed_in recovery.new.owed ≡ []) }
    ensures moves { result ≡ false → (put.new ≡ length cells.new) ⊎ EndedTooMuch told recovery.old.recovery }
    ensures rest { drop put.new cells.new ≡ drop put.new cells.old }
    ensures count { recovery.new.put ≡ recovery.old.put }
{
    let at = put_owed(&mut recovery.owed, cells, 0);
    *put = at;
    if at == cells.len() {
        return false;
    }
    if recovery.ended != 0 {
        return true;
    }
    let fits = finish_samples::<Brand>(&mut recovery.recovery, &mut recovery.owed);
    if !fits {
        return false;
    }
    recovery.ended = 1;
    let end = put_owed(&mut recovery.owed, cells, at);
    *put = end;
    end < cells.len()
}

/// How many of these octets are whole samples.
fn whole_len(unit: Unit, len: usize) -> usize
    ensures within { result ≤ len }
    ensures whole { 8 * len < 8 * result + bits_of_sample unit }
{
    match unit {
        Unit::Octets(_) => len,
        Unit::Pairs(_) => len - len % 2,
    }
}

/// Makes a recovery that has taken no sample. A cell is `period` 65,536ths of a sample; it is measured
/// if `period` is 0.
#[unsafe(no_mangle)]
pub extern "C" fn aes3_recovery_init(recovery: &mut Aes3Recovery, period: u64)
    ensures taking { IsTaking period [] [] recovery.new }
    ensures count { recovery.new.put ≡ 0 }
    ensures goes_on { recovery.new.ended ≡ 0 }
{
    recovery.recovery = Recovery::new(Form::Packed, known_of(period)).parts();
    owe_nothing(&mut recovery.owed);
    recovery.put = 0;
    recovery.ended = 0;
}

/// Takes samples of `unit` octets each, as `aes3_capture_cells` does, and writes packed cells as long
/// as there is room. `taken` and `put` are how many octets of samples it took and of cells it wrote.
/// Returns whether it took all whole samples. If not, give those that it left again, with room for
/// more cells. After the end it takes none.
#[unsafe(no_mangle)]
pub extern "C" fn aes3_recovery_take(
    recovery: &mut Aes3Recovery,
    samples: &[u8],
    unit: u8,
    bit: u8,
    taken: &mut usize,
    cells: &mut [u8],
    put: &mut usize,
) -> bool
    ghost octets: { List ℕ }
    ensures within { put.new ≤ length cells.new }
    ensures samples { taken.new ≤ length samples.now }
    ensures took { (period : ℕ) (levels : List Level) → IsTaking period levels octets recovery.old
        → IsTaking period (levels ++ levels_of_samples (unit_of unit bit) (take taken.new samples.now))
        (octets ++ take put.new cells.new) recovery.new }
    ensures ended { (period : ℕ) (levels : List Level) → IsEnded period levels octets recovery.old
        → IsEnded period levels (octets ++ take put.new cells.new) recovery.new }
    ensures all { IsTrue result → 8 * length samples.now < 8 * taken.new + bits_of_sample (unit_of unit bit) }
    ensures moves { result ≡ false → (put.new ≡ length cells.new) ⊎ ((0 < taken.new) ⊎ ((recovery.old.ended ≢ 0)
        ⊎ ((few : ℕ) × (few ≤ 2) × TookTooMuch (octets ++ owed_in recovery.old.owed) recovery.old.recovery
        (levels_of_samples (unit_of unit bit) (take few samples.now))))) }
    ensures rest { drop put.new cells.new ≡ drop put.new cells.old }
    ensures count { recovery.new.put ≡ min (recovery.old.put + put.new) (2 ^ 64 - 1) }
{
    let unit = unit_of(unit, bit);
    let whole = whole_len(unit, samples.len());
    let len = take_in(recovery, unit, &samples[..whole], cells, put);
    *taken = len;
    recovery.put = recovery.put.saturating_add(*put as u64);
    len == whole
}

/// Takes the end of the samples, and writes the last packed cells. `put` is how many octets it wrote.
/// Returns whether all cells are written. If not, call it again, with room for more.
#[unsafe(no_mangle)]
pub extern "C" fn aes3_recovery_finish(
    recovery: &mut Aes3Recovery,
    cells: &mut [u8],
    put: &mut usize,
) -> bool
    ghost octets: { List ℕ }
    ensures within { put.new ≤ length cells.new }
    ensures ends { recovery.new.ended ≢ 0 → (period : ℕ) (levels : List Level) → IsTaking period levels octets recovery.old
        → IsEnded period levels (octets ++ take put.new cells.new) recovery.new }
    ensures waits { recovery.new.ended ≡ 0 → (period : ℕ) (levels : List Level) → IsTaking period levels octets recovery.old
        → IsTaking period levels (octets ++ take put.new cells.new) recovery.new }
    ensures ended { (period : ℕ) (levels : List Level) → IsEnded period levels octets recovery.old
        → IsEnded period levels (octets ++ take put.new cells.new) recovery.new }
    ensures all { IsTrue result → (recovery.new.ended ≢ 0) × (owed_in recovery.new.owed ≡ []) }
    ensures moves { result ≡ false → (put.new ≡ length cells.new)
        ⊎ EndedTooMuch (octets ++ owed_in recovery.old.owed) recovery.old.recovery }
    ensures rest { drop put.new cells.new ≡ drop put.new cells.old }
    ensures count { recovery.new.put ≡ min (recovery.old.put + put.new) (2 ^ 64 - 1) }
{
    let ended = finish_in(recovery, cells, put);
    recovery.put = recovery.put.saturating_add(*put as u64);
    ended
}

/// Writes what was found of the line so far, and how many octets of cells were written.
#[unsafe(no_mangle)]
pub extern "C" fn aes3_recovery_figures(recovery: &Aes3Recovery, found: &mut Aes3Capture)
    ensures octets { found.new.octets ≡ recovery.now.put }
    ensures figures { (now : Recovery) → recovery_parts now ≡ recovery.now.recovery → AreFigures found.new now }
{
    put_found(
        &Recovery::of_parts(&recovery.recovery),
        recovery.put as usize,
        found,
    );
}
