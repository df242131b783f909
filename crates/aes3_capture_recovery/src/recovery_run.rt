//! The run from samples to cells.

ghost use Rattle.std.specs.Prelude.{ℕ, List, [], ◌+◌, ◌*◌, ◌++◌, ◌<◌, ◌≤◌, ◌^◌, ◌≡◌, ◌↔◌};
ghost use Rattle.std.specs.Prelude.{None, Some, IfErr, IfOk, IsTrue, OnErr, drop, false, length, take};
ghost use Rattle.aes3_capture_recovery.specs.Levels.{bit_of_line, bits_of_sample, levels_of_samples};
ghost use Rattle.aes3_capture_recovery.specs.Reading.{FailedAt, ReadSamples};
ghost use Rattle.aes3_capture_recovery.specs.Taking.{Took, TookAll};
ghost use Rattle.aes3_level.specs.declared.level.Level.{Level};
ghost use Rattle.aes3_capture.specs.declared.follower.Follower.{Follower};
ghost use Rattle.aes3_capture.specs.Captures.{Captures};
ghost use Rattle.aes3_capture.specs.Following.{Follows};
ghost use Rattle.aes3_capture_recovery.specs.Beginning.{Awaits, GivesLine, IsLastingBehind, IsLineBehind, KeepsLine};
ghost use Rattle.aes3_capture_recovery.specs.LineFollowing.{Followed, Gives};
ghost use Rattle.aes3_capture_recovery.specs.Recovering.{Setting};
ghost use Rattle.aes3_capture_recovery.specs.Runs.{AreCaptured};
ghost use Rattle.aes3_capture_recovery.specs.declared.recovery.State.TheVariants.{Following};
ghost use Rattle.aes3_capture_recovery.specs.declared.recovery_run.Progress.TheVariants.{Ended};
ghost use Rattle.aes3_capture_recovery.specs.declared.recovery_run.Refusal.TheVariants.{Write};
ghost use Rattle.aes3_cell.specs.Ends.{Grew};

use crate::edges::{BLOCK, Places, Unit, levels_of, words_of};
use crate::figures::Figures;
use crate::recovery::Recovery;
use aes3_cell::{Fault, Form, Sink, Source};

/// Why a run was rejected.
#[derive(Clone, Copy)]
pub enum Refusal {
    /// The source failed.
    Read,
    /// The sink failed.
    Write,
}

/// How far a run came.
#[derive(Clone, Copy)]
pub enum Progress {
    /// The samples have ended.
    Ended,
    /// More may come.
    Paused,
}

/// How many octets a read asks for.
const PIECE_LEN: usize = 131_072;

/// How many octets are taken at once.
const CHUNK: usize = 64;

/// Takes a piece of whole samples.
///
/// # Errors
/// The sink's fault.
pub fn feed<T: Sink>(
    recovery: &mut Recovery,
    sink: &mut T,
    unit: Unit,
    piece: &[u8],
) -> Result<(), Fault>
    requires room { T.failed sink.old + 1 < 2 ^ 64 }
    ensures no_failure { IfOk result (λ _. T.failed sink.new ≡ T.failed sink.old) }
    ensures one_failure { OnErr result (T.failed sink.new ≡ T.failed sink.old + 1) }
    ensures took { bit_of_line unit < bits_of_sample unit → IfOk result (λ _. Took T.taken recovery.old recovery.new
        sink.old sink.new (levels_of_samples unit piece.now)) }
    ensures mean { bit_of_line unit < bits_of_sample unit → recovery.old.state ≡ Following → recovery.new.state ≡ Following
        → recovery.new.figures.measured ≡ recovery.old.figures.measured
        → recovery.old.figures.measured + 1 < 2 ^ 64 → 1 ≤ recovery.old.figures.samples
        → (begun : List ℕ) (front : List Level) (first : Follower) (before : Level) (seen : List Level)
        (same other_mean displaced : ℕ) (cells : List Level)
        → Followed (T.taken sink.old) begun front recovery.old.line first before seen []
        → Follows first same other_mean displaced 0 0
        → AreCaptured (Captures first.bounds same other_mean displaced) before cells
        (seen ++ levels_of_samples unit piece.now)
        → IfOk result (λ _. Gives (T.taken sink.new) begun front recovery.new.line cells) }
    ensures joined { bit_of_line unit < bits_of_sample unit → recovery.new.state ≡ Following
        → recovery.new.figures.measured ≡ 1
        → (setting : Setting) (seen : List Level) (first : ℕ) (counts : List ℕ)
        → Awaits (T.taken sink.old) setting seen [] recovery.old
        → IsLineBehind setting.known (seen ++ levels_of_samples unit piece.now) first counts
        → IfOk result (λ _. GivesLine (T.taken sink.new) setting (seen ++ levels_of_samples unit piece.now) first counts
        recovery.new) }
    ensures lasts { bit_of_line unit < bits_of_sample unit
        → (setting : Setting) (seen : List Level) (first : ℕ) (counts : List ℕ)
        → Awaits (T.taken sink.old) setting seen [] recovery.old
        → IsLastingBehind setting.known (seen ++ levels_of_samples unit piece.now) first counts
        → IfOk result (λ _. KeepsLine (T.taken sink.new) setting (seen ++ levels_of_samples unit piece.now) first counts
        recovery.new) }
{
    if piece.len() < BLOCK {
        feed_chunks(recovery, sink, unit, piece)
    } else {
        feed_long(recovery, sink, unit, piece)
    }
}

/// Takes a piece of a block and more. It is a function of its own, so that a caller that gives less
/// than a block needs no stack for the places of edges. These are 33 KB.
#[inline(never)]
fn feed_long<T: Sink>(
    recovery: &mut Recovery,
    sink: &mut T,
    unit: Unit,
    piece: &[u8],
) -> Result<(), Fault>
    requires room { T.failed sink.old + 1 < 2 ^ 64 }
    ensures no_failure { IfOk result (λ _. T.failed sink.new ≡ T.failed sink.old) }
    ensures one_failure { OnErr result (T.failed sink.new ≡ T.failed sink.old + 1) }
    ensures took { bit_of_line unit < bits_of_sample unit → IfOk result (λ _. Took T.taken recovery.old recovery.new
        sink.old sink.new (levels_of_samples unit piece.now)) }
{
    feed_blocks(recovery, sink, unit, piece, &mut Places::new())
}

/// Takes a piece: its whole blocks, and then the rest. The earlier contents of `places` are
/// irrelevant. It is 33 KB long, so a run makes it once and not for each piece.
fn feed_blocks<T: Sink>(
    recovery: &mut Recovery,
    sink: &mut T,
    unit: Unit,
    piece: &[u8],
    places: &mut Places,
) -> Result<(), Fault>
    requires room { T.failed sink.old + 1 < 2 ^ 64 }
    ensures no_failure { IfOk result (λ _. T.failed sink.new ≡ T.failed sink.old) }
    ensures one_failure { OnErr result (T.failed sink.new ≡ T.failed sink.old + 1) }
    ensures took { bit_of_line unit < bits_of_sample unit → IfOk result (λ _. Took T.taken recovery.old recovery.new
        sink.old sink.new (levels_of_samples unit piece.now)) }
{
    let mut at = 0;
    while let Some(block) = piece[at..].first_chunk() {
        feed_block(recovery, sink, unit, block, places)?;
        at += BLOCK;
    }
    feed_chunks(recovery, sink, unit, &piece[at..])
}

/// Takes a block of samples. Its edges are found first if the line allows it, or if there is no
/// edge in it.
#[inline(always)]
fn feed_block<T: Sink>(
    recovery: &mut Recovery,
    sink: &mut T,
    unit: Unit,
    block: &[u8; BLOCK],
    places: &mut Places,
) -> Result<(), Fault>
    requires room { T.failed sink.old + 1 < 2 ^ 64 }
    ensures no_failure { IfOk result (λ _. T.failed sink.new ≡ T.failed sink.old) }
    ensures one_failure { OnErr result (T.failed sink.new ≡ T.failed sink.old + 1) }
    ensures took { bit_of_line unit < bits_of_sample unit → IfOk result (λ _. Took T.taken recovery.old recovery.new
        sink.old sink.new (levels_of_samples unit block.now)) }
{
    if recovery.is_quick() || recovery.is_still() {
        let (words, count) = words_of(unit, block);
        if recovery.take_words(sink, &words[..count], places)? {
            return Ok(());
        }
    }
    feed_chunks(recovery, sink, unit, block)
}

/// Takes samples, 64 octets at once, and the rest.
fn feed_chunks<T: Sink>(
    recovery: &mut Recovery,
    sink: &mut T,
    unit: Unit,
    piece: &[u8],
) -> Result<(), Fault>
    requires room { T.failed sink.old + 1 < 2 ^ 64 }
    ensures no_failure { IfOk result (λ _. T.failed sink.new ≡ T.failed sink.old) }
    ensures one_failure { OnErr result (T.failed sink.new ≡ T.failed sink.old + 1) }
    ensures took { bit_of_line unit < bits_of_sample unit → IfOk result (λ _. Took T.taken recovery.old recovery.new
        sink.old sink.new (levels_of_samples unit piece.now)) }
{
    let mut at = 0;
    while let Some(octets) = piece[at..].first_chunk() {
        let (levels, len) = levels_of(unit, octets);
        recovery.take(sink, levels, len)?;
        at += CHUNK;
    }
    let rest = &piece[at..];
    if rest.is_empty() {
        return Ok(());
    }
    let mut octets = [0; CHUNK];
    octets[..rest.len()].copy_from_slice(rest);
    let samples = rest.len() / unit.len();
    let (levels, len) = levels_of(unit, &octets);
    recovery.take(sink, levels, (samples as u32).min(len))
}

/// How many octets a piece has at most if `left` samples are still to come.
fn piece_len(unit: Unit, left: u64) -> usize
    ensures some { bits_of_sample unit ≤ 8 * result }
    ensures most { result ≤ 131072 }
{
    let samples = left.clamp(1, 131_072) as usize;
    (samples * unit.len()).min(PIECE_LEN)
}

/// Whether a run has to pause: at this number of samples, or after another stretch without signal.
fn is_due(figures: Figures, dead: u64, until: Option<u64>) -> bool
    ensures { until ≡ None → result ≡ false }
{
    match until {
        Some(until) => figures.samples >= until || figures.dead != dead,
        None => false,
    }
}

/// A piece before anything was read.
fn blank_piece() -> [u8; PIECE_LEN]
    ensures { length result ≡ PIECE_LEN }
{
    [0; PIECE_LEN]
}

/// Reads octets of a piece from `from` up to `to`, and returns how many. After the first of the
/// `reads` before it, what is decided was written: the sink has passed on all that it took. The
/// sink is a parameter only for that clause.
///
/// # Errors
/// The source's fault.
fn read_some<S: Source, T: Sink>(
    source: &mut S,
    _sink: &T,
    piece: &mut [u8; PIECE_LEN],
    from: usize,
    to: usize,
    _reads: u64,
) -> Result<usize, Fault>
    requires passed { 0 < _reads → T.passed _sink.now ≡ T.taken _sink.now }
    requires failures { S.failed source.old + 1 < 2 ^ 64 }
    requires some { from < to }
    requires within { to ≤ 131072 }
    ensures bound { IfOk result (λ n. from + n ≤ to) }
    ensures front { take from piece.new ≡ take from piece.old }
    ensures octets { IfOk result (λ n. Grew (S.given source.old) (S.given source.new)
        (take n (drop from piece.new))) }
    ensures end { IfOk result (λ n. n ≡ 0 ↔ IsTrue (S.has_ended source.new)) }
    ensures no_failure { IfOk result (λ _. S.failed source.new ≡ S.failed source.old) }
    ensures err { OnErr result ((S.failed source.new ≡ S.failed source.old + 1)
        × (S.given source.new ≡ S.given source.old)) }
{
    source.read(&mut piece[from..to])
}

/// Takes the end of the samples.
fn end<T: Sink>(recovery: &mut Recovery, sink: &mut T) -> Result<Progress, Refusal>
    requires room { T.failed sink.old + 1 < 2 ^ 64 }
    ensures ended { IfOk result (λ progress. progress ≡ Ended) }
    ensures no_failure { IfOk result (λ _. T.failed sink.new ≡ T.failed sink.old) }
    ensures err { IfErr result (λ refusal. (refusal ≡ Write) × (T.failed sink.new ≡ T.failed sink.old + 1)) }
    ensures took { IfOk result (λ _. TookAll T.taken recovery.old recovery.new sink.old sink.new []) }
    ensures passed { IfOk result (λ _. T.passed sink.new ≡ T.taken sink.new) }
{
    match recovery.finish(sink) {
        Ok(()) => Ok(Progress::Ended),
        Err(_) => Err(Refusal::Write),
    }
}

/// Reads samples to their end, and writes the cells of the line among them. With `until` it pauses
/// once that many samples have come in all, and after the piece in which the signal ends. It
/// continues when it is called again. It pauses after a whole sample. A part of a sample at the
/// end, or before the source failed, is ignored.
///
/// # Errors
/// Whether the source or the sink failed.
pub fn recover<S: Source, T: Sink>(
    source: &mut S,
    sink: &mut T,
    unit: Unit,
    recovery: &mut Recovery,
    until: Option<u64>,
) -> Result<Progress, Refusal>
    requires source_room { S.failed source.old + 1 < 2 ^ 64 }
    requires sink_room { T.failed sink.old + 1 < 2 ^ 64 }
    ensures source_count { IfOk result (λ _. S.failed source.new ≡ S.failed source.old) }
    ensures sink_count { IfOk result (λ _. T.failed sink.new ≡ T.failed sink.old) }
    ensures one_failure { IfErr result (λ refusal. FailedAt refusal (S.failed source.old) (S.failed source.new)
        (T.failed sink.old) (T.failed sink.new)) }
    ensures read { ReadSamples unit (S.given source.old) (S.given source.new) (S.has_ended source.new) T.taken
        recovery.old recovery.new sink.old sink.new result }
    ensures to_the_end { until ≡ None → IfOk result (λ progress. progress ≡ Ended) }

    // After Ok the sink has passed on all that it took. It had done so before a read that failed,
    // too. `read_some` requires it before each read but the first.
    ensures passed { IfOk result (λ _. T.passed sink.new ≡ T.taken sink.new) }
    ensures passed_before { S.failed source.new ≡ S.failed source.old + 1
        → T.passed sink.old ≡ T.taken sink.old → T.passed sink.new ≡ T.taken sink.new }
{
    let dead = recovery.figures().dead;
    let mut piece = blank_piece();
    let mut places = Places::new();
    let mut kept = 0;
    'pieces: for reads in 0..u64::MAX {
        let left = until
            .unwrap_or(u64::MAX)
            .saturating_sub(recovery.figures().samples);
        let to = piece_len(unit, left);
        let n = match read_some(source, sink, &mut piece, kept, to, reads) {
            Ok(n) => n,
            Err(_) => return Err(Refusal::Read),
        };
        if n == 0 {
            return end(recovery, sink);
        }
        let whole = kept + n;
        kept = whole % unit.len();
        let len = whole - kept;
        match feed_blocks(recovery, sink, unit, &piece[..len], &mut places) {
            Ok(()) => {}
            Err(_) => return Err(Refusal::Write),
        }
        match recovery.pass_on(sink) {
            Ok(()) => {}
            Err(_) => return Err(Refusal::Write),
        }
        if kept == 1 {
            piece[0] = piece[len];
        } else if is_due(recovery.figures(), dead, until) {
            return Ok(Progress::Paused);
        }
    }
    end(recovery, sink)
}
