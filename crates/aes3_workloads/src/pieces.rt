//! A source of pieces in random order.

ghost use Rattle.std.specs.Prelude.{ℕ, ◌≡◌, ◌+◌, ◌<◌, ◌≤◌, ◌^◌, ◌↔◌};
ghost use Rattle.std.specs.Prelude.{IfOk, IsTrue, OnErr, length, take};
ghost use Rattle.aes3_cell.specs.Ends.{Grew, untold};

use crate::numbers::Numbers;
use aes3_cell::{Fault, Source};

/// How many pieces one read joins at most.
const JOINED: u32 = 256;

/// Gives `count` pieces, each chosen at random from a list, and then an ending.
#[derive(Drop)]
pub struct Pieces<'a> {
    pieces: &'a [Vec<u8>],
    numbers: Numbers,
    left: u32,
    /// What is left of the current piece.
    rest: &'a [u8],
    ending: &'a [u8],
    ended: bool,
}

impl<'a> Pieces<'a> {
    /// A source of `count` of these pieces, and the ending.
    pub fn new(pieces: &'a [Vec<u8>], numbers: Numbers, count: u32, ending: &'a [u8]) -> Self {
        Pieces {
            pieces,
            numbers,
            left: count,
            rest: &[],
            ending,
            ended: false,
        }
    }

    /// Begins the next piece if there is no current one.
    fn go_on(&mut self) {
        if !self.rest.is_empty() {
            return;
        }
        if self.left == 0 {
            self.rest = self.ending;
            self.ending = &[];
            return;
        }
        self.left -= 1;
        let count = self.pieces.len().min(1 << 20) as u32;
        let i = self.numbers.below(count.max(1)) as usize;
        if i < self.pieces.len() {
            self.rest = self.pieces[i].as_slice();
        }
    }

    /// Puts bytes of the current piece into a buffer from a place on, and returns how many.
    fn put(&mut self, buf: &mut [u8], at: usize) -> usize {
        if at >= buf.len() {
            return 0;
        }
        let count = self.rest.len().min(buf.len() - at);
        buf[at..at + count].copy_from_slice(&self.rest[..count]);
        self.rest = &self.rest[count..];
        count
    }

    /// Puts bytes into the front of a buffer, and returns how many.
    fn fill(&mut self, buf: &mut [u8]) -> usize
        ensures { result ≤ length buf.new }
    {
        let mut n = 0;
        for _ in 0..JOINED {
            self.go_on();
            let count = self.put(buf, n);
            if count == 0 {
                break;
            }
            n = n.saturating_add(count);
        }
        n.min(buf.len())
    }
}

impl<'a> Source for Pieces<'a> {
    ghost given = { λ _. untold };

    ghost has_ended = { λ s. s.ended };

    ghost failed = { λ _. 0 };

    fn read(&mut self, buf: &mut [u8]) -> Result<usize, Fault> {
        let n = self.fill(buf);
        self.ended = n == 0;
        Ok(n)
    }

    fn failures(&self) -> u64 {
        0
    }
}
