//! A source that repeats one byte, for tests.

ghost use Rattle.std.specs.Prelude.{◌≡◌, ℕ, ◌+◌, ◌-◌, ◌<◌, ◌≤◌, ◌^◌, ◌↔◌, Some, false, length};
ghost use Rattle.std.specs.Prelude.{take, IfOk, IsOk, OnErr, IsTrue};

use crate::ends::{Fault, Source};
use crate::memory::smallest;

/// Gives the same byte 2^64 - 1 times, at most `piece` bytes in a call, and then ends.
#[derive(Drop)]
pub struct EndlessSource {
    byte: u8,
    piece: usize,
    left: u64,
    ended: bool,
    ghost some: { 0 < piece },
    pub ghost all_given: { IsTrue ended → left ≡ 0 },
}

impl EndlessSource {
    ghost use Rattle.aes3_cell.specs.Memory.{endless_byte, endless_piece, endless_left};
    ghost use Rattle.aes3_cell.specs.Memory.{endless_ended};

    /// A source of this byte that has given none.
    pub fn new(byte: u8, piece: usize) -> Self
        requires { 0 < piece }
        ensures byte { endless_byte result ≡ byte }
        ensures piece { endless_piece result ≡ piece }
        ensures left { endless_left result ≡ 2 ^ 64 - 1 }
        ensures open { endless_ended result ≡ false }
    {
        EndlessSource {
            byte,
            piece,
            left: u64::MAX,
            ended: false,
        }
    }
}

impl Source for EndlessSource {
    ghost use Rattle.std.specs.Prelude.{Some, ◌≡◌, ◌+◌, ◌<◌, ◌≤◌, ◌^◌, ◌↔◌, ◌-◌, length, take, min};
    ghost use Rattle.std.specs.Prelude.{IfOk, IsOk, OnErr, IsTrue};
    ghost use Rattle.aes3_cell.specs.Ends.{Grew};
    ghost use Rattle.aes3_cell.specs.Memory.{endless_byte, endless_piece, endless_given};
    ghost use Rattle.aes3_cell.specs.Memory.{endless_left, endless_ended, endless_failures};

    ghost given = { λ s. Some (endless_given s) };

    ghost has_ended = { endless_ended };

    ghost failed = { endless_failures };

    fn read(&mut self, buf: &mut [u8]) -> Result<usize, Fault>
        requires room { endless_failures self.old + 1 < 2 ^ 64 }
        ensures bound { IfOk result (λ n. n ≤ length buf.new) }
        ensures bytes { IfOk result (λ n. Grew (Some (endless_given self.old))
            (Some (endless_given self.new)) (take n buf.new)) }
        ensures end { IfOk result (λ n. 0 < length buf.new
            → (n ≡ 0 ↔ IsTrue (endless_ended self.new))) }
        ensures no_failure { IfOk result (λ _. endless_failures self.new ≡ endless_failures self.old) }
        ensures err { OnErr result ((endless_failures self.new ≡ endless_failures self.old + 1)
            × (Some (endless_given self.new) ≡ Some (endless_given self.old))) }
        ensures ok { IsOk result }
        ensures piece { IfOk result (λ n. n ≡ min (min (length buf.new) (endless_piece self.old))
            (endless_left self.old)) }
        ensures same_byte { endless_byte self.new ≡ endless_byte self.old }
        ensures same_piece { endless_piece self.new ≡ endless_piece self.old }
    {
        let n = smallest(buf.len(), self.piece, self.left as usize);
        buf[..n].fill(self.byte);
        if !buf.is_empty() {
            self.ended = n == 0;
        }
        self.left -= n as u64;
        Ok(n)
    }

    fn failures(&self) -> u64 {
        0
    }
}
