//! The one loop over an input: pieces of bytes are read and converted until the input ends.

ghost use Rattle.std.specs.Prelude.{◌≡◌, ℕ, ◌+◌, ◌<◌, ◌≤◌, ◌^◌, ◌↔◌, List, [], length, take, IfOk};
ghost use Rattle.std.specs.Prelude.{OnErr, IsTrue};
ghost use Rattle.aes3_cell.specs.Ends.{Grew};
ghost use Rattle.aes3_input.specs.Running.{EndRan, FrontRan, InputState, PieceRan, Run, ends_of};
ghost use Rattle.aes3_input.specs.Running.{movement_of};

use aes3_cell::{Fault, RunError, Sink, Source};

/// A form of input. It takes bytes, in pieces of any size, front by front, and passes what they
/// carry to a taker `K`, which writes.
///
/// The contract speaks of what the input and its taker are at one moment (`state`):
/// - what bytes write and which are faults (`reads`),
/// - the bytes that both have taken (`follows`),
/// - what holds of the bytes before a fault after an error (`stopped`),
/// - and what holds after the end (`finished`).
pub trait Input<K> {
    ghost state: { Self → K → InputState };

    /// Takes a front of a piece, at least one byte, and returns how many bytes it has.
    fn take_front<T: Sink>(
        &mut self,
        taker: &mut K,
        sink: &mut T,
        piece: &[u8],
    ) -> Result<usize, RunError>
        requires some { 0 < length piece.now }
        requires room { T.failed sink.old + 1 < 2 ^ 64 }
        requires following { (b : List ℕ) × (length b + length piece.now ≤ 2 ^ 40)
            × (state self.old taker.old).follows b }
        ensures { FrontRan (state self.old taker.old) (state self.new taker.new) piece.now
            (movement_of T.taken T.failed sink.old sink.new) result };

    /// Takes the end of the input.
    fn finish<T: Sink>(&mut self, taker: &mut K, sink: &mut T) -> Result<(), RunError>
        requires room { T.failed sink.old + 1 < 2 ^ 64 }
        requires following { (b : List ℕ) × (length b ≤ 2 ^ 40)
            × (state self.old taker.old).follows b }
        ensures { EndRan (state self.old taker.old) (state self.new taker.new)
            (movement_of T.taken T.failed sink.old sink.new) result };
}

/// How many bytes a read asks for.
const PIECE_LEN: usize = 131_072;

fn blank_piece() -> [u8; PIECE_LEN]
    ensures { length result ≡ PIECE_LEN }
{
    [0; PIECE_LEN]
}

/// Reads at most `room` bytes into the front of a piece, and returns how many.
///
/// # Errors
/// The source's fault.
pub fn read_piece<S: Source>(source: &mut S, piece: &mut [u8], room: u64) -> Result<usize, Fault>
    requires failures { S.failed source.old + 1 < 2 ^ 64 }
    requires some { 0 < length piece.old }
    requires room { 0 < room }
    ensures bound { IfOk result (λ n. (n ≤ length piece.new) × (n ≤ room)) }
    ensures bytes { IfOk result (λ n. Grew (S.given source.old) (S.given source.new)
        (take n piece.new)) }
    ensures end { IfOk result (λ n. n ≡ 0 ↔ IsTrue (S.has_ended source.new)) }
    ensures no_failure { IfOk result (λ _. S.failed source.new ≡ S.failed source.old) }
    ensures err { OnErr result ((S.failed source.new ≡ S.failed source.old + 1)
        × (S.given source.new ≡ S.given source.old)) }
{
    let limit = (piece.len() as u64).min(room) as usize;
    source.read(&mut piece[..limit])
}

/// Reads the next piece after `seen` bytes. What is decided is written before it waits for more:
/// the sink has passed on all that it took of those bytes. The sink is a parameter only for that
/// clause.
///
/// # Errors
/// The source's fault.
fn read_next<S: Source, T: Sink>(
    source: &mut S,
    _sink: &T,
    piece: &mut [u8],
    seen: u64,
    room: u64,
) -> Result<usize, Fault>
    requires passed { 0 < seen → T.passed _sink.now ≡ T.taken _sink.now }
    requires failures { S.failed source.old + 1 < 2 ^ 64 }
    requires some { 0 < length piece.old }
    requires room { 0 < room }
    ensures bound { IfOk result (λ n. (n ≤ length piece.new) × (n ≤ room)) }
    ensures bytes { IfOk result (λ n. Grew (S.given source.old) (S.given source.new)
        (take n piece.new)) }
    ensures end { IfOk result (λ n. n ≡ 0 ↔ IsTrue (S.has_ended source.new)) }
    ensures no_failure { IfOk result (λ _. S.failed source.new ≡ S.failed source.old) }
    ensures err { OnErr result ((S.failed source.new ≡ S.failed source.old + 1)
        × (S.given source.new ≡ S.given source.old)) }
{
    read_piece(source, piece, room)
}

/// How many of `n` bytes may be taken, if the last of `room` bytes is one too many.
fn allowed_of(n: usize, room: u64) -> usize
    requires some { 0 < n }
    requires within { n ≤ room }
    ensures last { n ≡ room → result + 1 ≡ n }
    ensures all { n < room → result ≡ n }
{
    if n as u64 == room { n - 1 } else { n }
}

/// Takes all of a piece, one front after the other.
///
/// # Errors
/// The first error of a front.
pub fn feed_fronts<T: Sink, K, I: Input<K>>(
    input: &mut I,
    taker: &mut K,
    sink: &mut T,
    piece: &[u8],
) -> Result<(), RunError>
    requires room { T.failed sink.old + 1 < 2 ^ 64 }
    requires following { (b : List ℕ) × (length b + length piece.now ≤ 2 ^ 40)
        × (I.state input.old taker.old).follows b }
    ensures { PieceRan (I.state input.old taker.old) (I.state input.new taker.new) piece.now
        (movement_of T.taken T.failed sink.old sink.new) result }
{
    let mut at = 0;
    while at < piece.len() {
        at += input.take_front(taker, sink, &piece[at..])?;
    }
    Ok(())
}

/// Takes all of a piece, and then passes on what the sink holds: what is decided is written before
/// more is read.
fn feed<T: Sink, K, I: Input<K>>(
    input: &mut I,
    taker: &mut K,
    sink: &mut T,
    piece: &[u8],
) -> Result<(), RunError>
    requires room { T.failed sink.old + 1 < 2 ^ 64 }
    requires following { (b : List ℕ) × (length b + length piece.now ≤ 2 ^ 40)
        × (I.state input.old taker.old).follows b }
    ensures ran { PieceRan (I.state input.old taker.old) (I.state input.new taker.new) piece.now
        (movement_of T.taken T.failed sink.old sink.new) result }
    ensures passed_on { IfOk result (λ _. T.passed sink.new ≡ T.taken sink.new) }
{
    feed_fronts(input, taker, sink, piece)?;
    match sink.flush() {
        Ok(()) => Ok(()),
        Err(_) => Err(RunError::Write),
    }
}

/// Takes the end, and then passes on what the sink holds.
fn finish<T: Sink, K, I: Input<K>>(
    input: &mut I,
    taker: &mut K,
    sink: &mut T,
) -> Result<(), RunError>
    requires room { T.failed sink.old + 1 < 2 ^ 64 }
    requires following { (b : List ℕ) × (length b ≤ 2 ^ 40)
        × (I.state input.old taker.old).follows b }
    ensures ran { EndRan (I.state input.old taker.old) (I.state input.new taker.new)
        (movement_of T.taken T.failed sink.old sink.new) result }
    ensures passed_on { IfOk result (λ _. T.passed sink.new ≡ T.taken sink.new) }
{
    input.finish(taker, sink)?;
    match sink.flush() {
        Ok(()) => Ok(()),
        Err(_) => Err(RunError::Write),
    }
}

/// Converts all bytes of the source, at most `max_bytes`, and returns how many there are.
///
/// # Errors
/// - `Read` and `Write` if the source or the sink failed.
/// - `TooLong` if there was a byte after `max_bytes` bytes.
/// - Else the first fault of the input.
///
/// At most `max_bytes + 1` bytes are read.
pub fn convert<S: Source, T: Sink, K, I: Input<K>>(
    source: &mut S,
    sink: &mut T,
    max_bytes: u64,
    input: &mut I,
    taker: &mut K,
) -> Result<u64, RunError>
    requires source_room { S.failed source.old + 1 < 2 ^ 64 }
    requires sink_room { T.failed sink.old + 1 < 2 ^ 64 }
    requires limit { max_bytes ≤ 2 ^ 40 }
    requires start { (I.state input.old taker.old).follows [] }
    ensures run { Run max_bytes (I.state input.old taker.old) (I.state input.new taker.new)
        (ends_of S.Source source.old source.new T.Sink sink.old sink.new) result }
    // The sink had passed on all that it took before a read that failed, as it has after Ok.
    ensures passed_before { S.failed source.new ≡ S.failed source.old + 1
        → T.passed sink.old ≡ T.taken sink.old → T.passed sink.new ≡ T.taken sink.new }
{
    let mut piece = blank_piece();
    let mut seen: u64 = 0;
    'pieces: loop {
        let room = max_bytes + 1 - seen;
        let n = match read_next(source, sink, &mut piece, seen, room) {
            Ok(n) => n,
            Err(_) => return Err(RunError::Read),
        };
        if n == 0 {
            finish(input, taker, sink)?;
            return Ok(seen);
        }
        let allowed = allowed_of(n, room);
        feed(input, taker, sink, &piece[..allowed])?;
        seen += n as u64;
        if seen > max_bytes {
            return Err(RunError::TooLong);
        }
    }
}
