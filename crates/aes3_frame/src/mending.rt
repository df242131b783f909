//! Blocks in which some subframes have a wrong parity bit.

ghost use Rattle.std.specs.Prelude.{◌≡◌, ℕ, ◌<◌, true, get_or, map};
ghost use Rattle.aes3_slot.specs.ReadWords.{read_word, read_words};
ghost use Rattle.aes3_frame.specs.Blocks.{block_subframes};
ghost use Rattle.aes3_frame.specs.Files.{is_lawful, payload_of};
ghost use Rattle.aes3_frame.specs.Mending.{mended, mended_behind, mended_payload};

use crate::block::{Block, SUBFRAMES, word_of_cells, zero_words};
use crate::fill::Fill;
use crate::gathered::GatheredCells;
use crate::parity::has_odd_ones;

/// The valid word of a subframe, from its 64 cells. If their parity is wrong, it is filled; `held`
/// is the word of the subframe before it in its channel.
fn mended_word(cells: u64, fill: Fill, held: u32) -> u32
    requires { is_lawful held ≡ true }
    ensures lawful { is_lawful result ≡ true }
    ensures payload { payload_of result
        ≡ mended_payload fill (payload_of held) (read_word cells) }
{
    if !has_odd_ones(cells) {
        return word_of_cells(cells);
    }
    match fill {
        Fill::Zero => 0,
        Fill::Hold => held,
    }
}

/// The valid words of subframes, from their cells, filled if their parity is wrong. `held` and
/// `other` are the words of the two subframes before them.
fn mended_words(cells: &[u64; SUBFRAMES], fill: Fill, held: u32, other: u32) -> [u32; SUBFRAMES]
    requires held { is_lawful held ≡ true }
    requires other { is_lawful other ≡ true }
    ensures lawful { (i : ℕ) → i < block_subframes → is_lawful (get_or result i 0) ≡ true }
    ensures payloads { map payload_of result
        ≡ mended_behind fill (payload_of held) (payload_of other) (read_words cells.now) }
{
    let mut held = held;
    let mut other = other;
    let mut words = zero_words();
    for (number, subframe) in cells.iter().enumerate() {
        let word = mended_word(*subframe, fill, held);
        words[number] = word;
        held = other;
        other = word;
    }
    words
}

impl GatheredCells {
    /// The block whose payloads these subframes carry, those with wrong parity filled: with zeros,
    /// or with the payload of the subframe before it in its channel. Before the first frame, that
    /// is the payload in the last frame of the block `before`.
    pub fn mended_block(&self, fill: Fill, before: &Block) -> Block
        ensures { result ≡ mended fill before.now (read_words self.now) }
    {
        let kept = before.words();
        Block::of_words(mended_words(self.words(), fill, kept[SUBFRAMES - 2], kept[SUBFRAMES - 1]))
    }
}
