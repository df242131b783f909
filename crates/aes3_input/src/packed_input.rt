//! Packed cells as an input.

ghost use Rattle.std.specs.Prelude.{◌≡◌, ℕ, ◌+◌, ◌*◌, ◌<◌, ◌≤◌, ◌^◌, ◌++◌, List, [], ◌∷◌, length};
ghost use Rattle.std.specs.Prelude.{take};
ghost use Rattle.std.specs.List.{flat_map};
ghost use Rattle.aes3_level.specs.declared.level.Level.{Level};
ghost use Rattle.aes3_cell.specs.Packed.{octet_cells, whole_cells};
ghost use Rattle.aes3_cell.specs.PackedReading.{packed_reader_of};
ghost use Rattle.aes3_level.specs.Words.{low_cells, word_cells};
ghost use Rattle.aes3_input.specs.Forms.{CellsRan, EndCellsRan, PackedTaken, packed_state};
ghost use Rattle.aes3_input.specs.Forms.{octet_front, packed_reading};
ghost use Rattle.aes3_input.specs.Running.{FrontRan, PieceRan, movement_of};

use crate::conversion::Input;
use crate::taker::{Taker, cells, take_all};
use aes3_cell::{Fault, PackedIn, RunError, Sink};

/// How many words are passed on at once: enough to make the cost of the calls negligible.
const WORDS: usize = 1024;

/// Reads packed cells, and counts those passed on.
#[derive(Drop)]
pub(crate) struct PackedInput {
    packed: PackedIn,
    pub(crate) cells: u64,
    /// The words of the latest octets.
    words: [u64; WORDS],
}

impl PackedInput {
    /// An input of which nothing was taken.
    pub(crate) fn new() -> Self
        ensures packed { result.packed ≡ packed_reader_of [] }
        ensures cells { result.cells ≡ 0 }
    {
        PackedInput {
            packed: PackedIn::new(),
            cells: 0,
            words: [0; WORDS],
        }
    }
}

/// The cells of an octet as a word, the first in the lowest bit.
fn word_of_octet(octet: u8) -> u64
    ensures { low_cells 8 result ≡ octet_cells octet }
{
    let word = u64::from(octet);
    let word = (word >> 1) & 0x55 | (word & 0x55) << 1;
    let word = (word >> 2) & 0x33 | (word & 0x33) << 2;
    (word >> 4) & 0x0F | (word & 0x0F) << 4
}

/// Passes the first `used` cells of an octet to the taker.
fn take_octet_cells<T: Sink, K: Taker>(
    taker: &mut K,
    sink: &mut T,
    octet: u8,
    used: u8,
) -> Result<(), Fault>
    requires few { used ≤ 8 }
    requires room { T.failed sink.old + 1 < 2 ^ 64 }
    requires following { (c : List Level) × (length c + 8 ≤ 2 ^ 43)
        × (K.state taker.old).follows c }
    ensures { CellsRan (K.state taker.old) (K.state taker.new) (octet_front used octet)
        (movement_of T.taken T.failed sink.old sink.new) result }
{
    cells(taker, sink, word_of_octet(octet), u32::from(used))
}

/// Passes the first `used` cells of an octet to the taker, and then the end.
fn take_last_octet<T: Sink, K: Taker>(
    taker: &mut K,
    sink: &mut T,
    octet: u8,
    used: u8,
) -> Result<(), Fault>
    requires few { used ≤ 8 }
    requires room { T.failed sink.old + 1 < 2 ^ 64 }
    requires following { (c : List Level) × (length c + 8 ≤ 2 ^ 43)
        × (K.state taker.old).follows c }
    ensures { EndCellsRan (K.state taker.old) (K.state taker.new) (octet_front used octet)
        (movement_of T.taken T.failed sink.old sink.new) result }
{
    take_octet_cells(taker, sink, octet, used)?;
    taker.finish(sink)
}

/// Takes one octet, and passes on the cells of the one that came two octets before.
fn take_octet<T: Sink, K: Taker>(
    input: &mut PackedInput,
    taker: &mut K,
    sink: &mut T,
    octet: u8,
) -> Result<(), RunError>
    requires room { T.failed sink.old + 1 < 2 ^ 64 }
    requires following { (b : List ℕ) × (length b < 2 ^ 40)
        × PackedTaken input.old.packed input.old.cells (K.state taker.old).follows b }
    ensures { PieceRan (packed_state input.old.packed input.old.cells (K.state taker.old))
        (packed_state input.new.packed input.new.cells (K.state taker.new)) (octet ∷ [])
        (movement_of T.taken T.failed sink.old sink.new) result }
{
    match input.packed.feed_byte(octet) {
        Some(whole) => match take_octet_cells(taker, sink, whole, 8) {
            Ok(()) => {
                input.cells += 8;
                Ok(())
            }
            Err(_) => Err(RunError::Write),
        },
        None => Ok(()),
    }
}

/// Takes eight octets of a piece for each word, up to the number of words, after two or more other
/// octets. Returns how many words these are. The words are the cells that these octets complete.
fn feed_words(packed: &mut PackedIn, piece: &[u8], words: &mut [u64; WORDS]) -> usize
    requires { packed.old.seen + length piece.now ≤ 2 ^ 40 }
    ensures within { 8 * result ≤ length piece.now }
    ensures few { result ≤ WORDS }
    ensures len { length words.new ≡ WORDS }
    ensures next { (b : List ℕ) → packed.old ≡ packed_reader_of b
        → packed.new ≡ packed_reader_of (b ++ take (8 * result) piece.now) }
    ensures cells { (b : List ℕ) → packed.old ≡ packed_reader_of b
        → whole_cells (b ++ take (8 * result) piece.now) ≡ whole_cells b
        ++ flat_map word_cells (take result words.new) }
    ensures unchanged { result ≡ 0 → packed.new ≡ packed.old }
{
    if packed.seen() < 2 {
        return 0;
    }
    let count = (piece.len() / 8).min(WORDS);
    packed.feed_words(&piece[..8 * count], &mut words[..count]);
    count
}

/// Takes the first octet of a piece, and returns that it is one octet.
fn take_first<T: Sink, K: Taker>(
    input: &mut PackedInput,
    taker: &mut K,
    sink: &mut T,
    piece: &[u8],
) -> Result<usize, RunError>
    requires some { 0 < length piece.now }
    requires room { T.failed sink.old + 1 < 2 ^ 64 }
    requires following { (b : List ℕ) × (length b + length piece.now ≤ 2 ^ 40)
        × PackedTaken input.old.packed input.old.cells (K.state taker.old).follows b }
    ensures { FrontRan (packed_state input.old.packed input.old.cells (K.state taker.old))
        (packed_state input.new.packed input.new.cells (K.state taker.new)) piece.now
        (movement_of T.taken T.failed sink.old sink.new) result }
{
    take_octet(input, taker, sink, piece[0])?;
    Ok(1)
}

impl<K: Taker> Input<K> for PackedInput {
    ghost state = { λ input taker. packed_state input.packed input.cells (K.state taker) };

    fn take_front<T: Sink>(
        &mut self,
        taker: &mut K,
        sink: &mut T,
        piece: &[u8],
    ) -> Result<usize, RunError> {
        let count = feed_words(&mut self.packed, piece, &mut self.words);
        if count == 0 {
            return take_first(self, taker, sink, piece);
        }
        match take_all(taker, sink, &self.words, 64 * count) {
            Ok(()) => {
                self.cells += 64 * count as u64;
                Ok(8 * count)
            }
            Err(_) => Err(RunError::Write),
        }
    }

    fn finish<T: Sink>(&mut self, taker: &mut K, sink: &mut T) -> Result<(), RunError> {
        match self.packed.end() {
            Ok(last) => {
                let (octet, used) = last.unwrap_or((0, 0));
                match take_last_octet(taker, sink, octet, used) {
                    Ok(()) => {
                        self.cells += u64::from(used);
                        Ok(())
                    }
                    Err(_) => Err(RunError::Write),
                }
            }
            Err(fault) => Err(RunError::BadPadding { at: fault.at }),
        }
    }
}
