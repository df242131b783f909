//! Writing packed cells.
use std::marker::Model;

/// Writes packed cells: eight octets with each 64th cell. At the end it writes the octets of the
/// cells left, filled up with Low. Then it writes one last octet, the number of cells added as
/// filling.
#[derive(Drop)]
pub struct PackedOut {
    /// The cells that are not written yet, the latest in the lowest bit.
    word: u64,
    len: u32,
    failed: bool,
}

impl Model for PackedOut {
    ghost use Rattle.std.specs.Prelude.{◌<◌, ◌^◌, reverse};
    ghost use Rattle.aes3_level.specs.Words.{low_cells};
    ghost use Rattle.aes3_cell.specs.PackedPending.{BegunOctets};

    ghost Value = { BegunOctets };

    ghost view = { λ p. record { cells = reverse (low_cells p.len p.word); failed = p.failed } };

    ghost invariant = { λ p. (p.len < 64) × (p.word < 2 ^ p.len) };
}

ghost use Rattle.std.specs.Prelude.{◌≡◌, ◌+◌, ◌*◌, ◌<◌, ◌^◌, [], false, take, reverse, IfOk, IsErr};
ghost use Rattle.std.specs.Prelude.{IsTrue, ◌↔◌};
ghost use Rattle.aes3_cell.specs.Writes.{Wrote};
ghost use Rattle.aes3_cell.specs.Packed.{octets_needed, packed_of};
ghost use Rattle.aes3_cell.specs.PackedPending.{octets_added};
ghost use Rattle.aes3_cell.specs.Pending.{begun_after};
ghost use Rattle.aes3_level.specs.Words.{bit_of, low_cells};

use crate::ends::{Fault, Sink, write_all};
use crate::word::WORD_LEN;
use aes3_level::Level;

/// The word with one more cell after the others, in the lowest bit.
fn with_cell_behind(word: u64, level: Level) -> u64
    requires { word < 2 ^ 63 }
    ensures { result ≡ 2 * word + bit_of level }
{
    match level {
        Level::Low => word << 1,
        Level::High => word << 1 | 1,
    }
}

/// The octets of the cells left, followed by the last octet.
fn last_octets(word: u64, len: u32) -> [u8; 9]
    requires few { len < WORD_LEN }
    requires bound { word < 2 ^ len }
    ensures { take (octets_needed len + 1) result ≡ packed_of (reverse (low_cells len word)) }
{
    let filled = if len == 0 {
        0
    } else {
        word << (WORD_LEN - len)
    };
    let needed = len.div_ceil(8);
    let mut octets = [0; 9];
    octets[..8].copy_from_slice(&filled.to_be_bytes());
    octets[needed as usize] = (8 * needed - len) as u8;
    octets
}

impl PackedOut {
    /// A writer that has taken no cell.
    pub fn new() -> Self
        ensures start { result.cells ≡ [] }
        ensures open { result.failed ≡ false }
    {
        PackedOut {
            word: 0,
            len: 0,
            failed: false,
        }
    }

    /// Whether writing has failed.
    pub fn failed(&self) -> bool
        ensures { result ≡ self.now.failed }
    {
        self.failed
    }

    /// Takes one more cell; each 64th cell writes eight octets as one buffer.
    ///
    /// # Errors
    /// The sink's fault; then it has taken a front of the octets, and `failed` returns true.
    pub fn put<T: Sink>(&mut self, sink: &mut T, level: Level) -> Result<(), Fault>
        requires open { self.old.failed ≡ false }
        requires room { T.failed sink.old + 1 < 2 ^ 64 }
        ensures wrote { Wrote T.taken T.failed sink.old sink.new (octets_added self.old.cells level)
            result }
        ensures begun { IfOk result (λ _. self.new.cells ≡ begun_after self.old.cells level) }
        ensures failed { IsTrue self.new.failed ↔ IsErr result }
    {
        let word = with_cell_behind(self.word, level);
        if self.len + 1 < WORD_LEN {
            self.word = word;
            self.len += 1;
            return Ok(());
        }
        self.word = 0;
        self.len = 0;
        let wrote = write_all(sink, &word.to_be_bytes());
        self.failed = wrote.is_err();
        wrote
    }

    /// Takes the end: writes the octets of the cells left and the last octet, as one buffer.
    ///
    /// # Errors
    /// The sink's fault; then it has taken a front of the octets.
    pub fn end<T: Sink>(self, sink: &mut T) -> Result<(), Fault>
        requires open { self.failed ≡ false }
        requires room { T.failed sink.old + 1 < 2 ^ 64 }
        ensures { Wrote T.taken T.failed sink.old sink.new (packed_of self.cells) result }
    {
        let needed = self.len.div_ceil(8) as usize;
        write_all(sink, &last_octets(self.word, self.len)[..needed + 1])
    }
}
