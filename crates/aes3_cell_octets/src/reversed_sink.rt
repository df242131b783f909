//! Octets of cells with the first cell in the lowest bit, as they are written.

ghost use Rattle.std.specs.Prelude.{◌≡◌, ◌+◌, ◌<◌, ◌≤◌, ◌^◌, length, map};
ghost use Rattle.std.specs.Prelude.{min, take, IfOk, OnErr};
ghost use Rattle.std.specs.Option.{is_some};
ghost use Rattle.aes3_cell.specs.Ends.{Grew};
ghost use Rattle.aes3_cell_octets.specs.Octets.{reversed};
ghost use Rattle.aes3_cell_octets.specs.Told.{all_reversed};

use crate::reversing::reverse_bits;
use aes3_cell::{Fault, Sink};

/// How many octets are reversed and passed on at once, at most.
const PIECE_LEN: usize = 65_536;

fn blank_piece() -> [u8; PIECE_LEN]
    ensures { length result ≡ PIECE_LEN }
{
    [0; PIECE_LEN]
}

/// Puts the first octets, reversed, into the front of a piece, and returns how many.
fn fill_reversed(octets: &[u8], piece: &mut [u8]) -> usize
    ensures len { length piece.new ≡ length piece.old }
    ensures count { result ≡ min (length octets.now) (length piece.new) }
    ensures octets { take result piece.new ≡ map reversed (take result octets.now) }
{
    let n = octets.len().min(piece.len());
    piece[..n].copy_from_slice(&octets[..n]);
    reverse_bits(&mut piece[..n]);
    n
}

/// Passes octets on to an inner sink, with the bits of each reversed.
///
/// So whole octets of cells are packed with the first cell of each octet in the lowest bit. The
/// last octet is reversed too, but it is 0.
#[derive(Drop)]
pub struct ReversedSink<T: Drop> {
    sink: T,
}

impl<T: Sink + Drop> ReversedSink<T> {
    /// A sink that passes octets on to this sink, reversed.
    pub fn new(sink: T) -> Self
        ensures { result.sink ≡ sink }
    {
        ReversedSink { sink }
    }

    /// The inner sink, which has all that this one took.
    pub fn into_sink(self) -> T
        ensures { result ≡ self.sink }
    {
        self.sink
    }
}

impl<T: Sink + Drop> Sink for ReversedSink<T> {
    ghost taken = { λ s. all_reversed (T.taken s.sink) };

    ghost passed = { λ s. all_reversed (T.passed s.sink) };

    ghost failed = { λ s. T.failed s.sink };

    /// Passes the first octets on, reversed, and returns how many the inner sink took.
    fn write(&mut self, buf: &[u8]) -> Result<usize, Fault>
        requires room { T.failed self.old.sink + 1 < 2 ^ 64 }
        ensures bound { IfOk result (λ n. n ≤ length buf.now) }
        ensures some { IfOk result (λ n. 0 < length buf.now → 0 < n) }
        ensures bytes { IfOk result (λ n. Grew (all_reversed (T.taken self.old.sink))
            (all_reversed (T.taken self.new.sink)) (take n buf.now)) }
        ensures no_failure { IfOk result (λ _. T.failed self.new.sink ≡ T.failed self.old.sink) }
        ensures err { OnErr result ((T.failed self.new.sink ≡ T.failed self.old.sink + 1)
            × (all_reversed (T.taken self.new.sink) ≡ all_reversed (T.taken self.old.sink))) }
        ensures tells { is_some (all_reversed (T.taken self.new.sink))
            ≡ is_some (all_reversed (T.taken self.old.sink)) }
        ensures handed { IfOk result (λ n. Grew (T.taken self.old.sink) (T.taken self.new.sink)
            (map reversed (take n buf.now))) }
    {
        let mut piece = blank_piece();
        let n = fill_reversed(buf, &mut piece);
        self.sink.write(&piece[..n])
    }

    fn flush(&mut self) -> Result<(), Fault> {
        self.sink.flush()
    }

    fn failures(&self) -> u64 {
        self.sink.failures()
    }

    fn takes_much(&self) -> bool {
        self.sink.takes_much()
    }
}
