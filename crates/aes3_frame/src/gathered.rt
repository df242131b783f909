//! The cells of a block's subframes, gathered from a line and judged.
use crate::block::{Block, SUBFRAMES, zero_words};
use aes3_level::Level;
use aes3_slot::{Mark, mark_of, wrong_cells};
use std::marker::Model;
use std::simd::prelude::*;

/// The cells of a block's subframes, 64 each, the earliest in bit 0, gathered one subframe after
/// the other.
///
/// A contract sees the words. It also keeps how many of the first words are known to be a block's
/// first subframes with right parity. So they aren't judged again.
#[derive(Drop)]
pub struct GatheredCells {
    words: [u64; SUBFRAMES],
    before: Level,
    right: usize,
}

impl Model for GatheredCells {
    ghost use Rattle.std.specs.Prelude.{List, ℕ};
    ghost use Rattle.aes3_frame.specs.Gathered.{AreRight};

    ghost Value = { List ℕ };

    ghost view = { λ c. c.words };

    ghost invariant = { λ c. AreRight c.before c.right c.words };
}

ghost use Rattle.std.specs.Prelude.{◌≡◌, ℕ, true, false, ◌<◌, ◌≤◌, ◌+◌, ◌*◌, ◌/◌, ◌%◌, ◌^◌, ◌⊎◌};
ghost use Rattle.std.specs.Prelude.{IfSome, bit_xor, get_or, length, map, replicate, set, take};
ghost use Rattle.std.specs.Int.{bit_at};
ghost use Rattle.std.specs.List.{filter, flat_map};
ghost use Rattle.aes3_level.specs.Words.{word_cells};
ghost use Rattle.aes3_level.specs.Cells.{line};
ghost use Rattle.aes3_bits.specs.Bits.{odd_ones};
ghost use Rattle.aes3_slot.specs.ReadWords.{read_word, read_words};
ghost use Rattle.aes3_slot.specs.Slots.{payload_len, subframe_runs};
ghost use Rattle.aes3_slot.specs.Rules.{at};
ghost use Rattle.aes3_frame.specs.Blocks.{block_cells, block_subframes, mark_at};
ghost use Rattle.aes3_frame.specs.Files.{is_lawful, payload_of};
ghost use Rattle.aes3_frame.specs.Gathered.{IsRight, with_first};

use crate::block::{payload_of_word, word_of_payload};
use crate::parity::wrong_parities;

/// Not zero if a subframe's last cell differs from the level `before`, as it does if its parity is
/// wrong.
fn other_last(before: Level, cells: u64) -> u64
    ensures { result ≡ 0 → at (word_cells cells) 63 ≡ before }
{
    match before {
        Level::Low => cells >> 63,
        Level::High => !cells >> 63,
    }
}

/// What is wrong with the cells of a subframe with this preamble after the level `before`. If it is
/// zero, they are the cells of its payload with right parity.
pub fn wrong_in(before: Level, mark: Mark, cells: u64) -> u64
    ensures { result ≡ 0 → word_cells cells ≡ line before
        (subframe_runs mark (take payload_len (read_word cells))) }
{
    wrong_cells(before, mark, cells) | other_last(before, cells)
}

/// How many of the first words are right after the level `before`, once `more` right ones are put
/// from `subframe` on. Until then `right` of them were right after the level `first`.
fn right_behind(right: usize, first: Level, subframe: usize, before: Level, more: usize) -> usize
    requires { subframe + more ≤ SUBFRAMES }
    ensures { (j : ℕ) → j < result
        → ((j < subframe) × (j < right) × (first ≡ before)) ⊎ ((subframe ≤ j) × (j < subframe + more)) }
{
    let known = if first == before {
        right.min(subframe)
    } else {
        0
    };
    if known == subframe {
        subframe + more
    } else {
        known
    }
}

/// Puts eight words into `words` from `subframe` on.
fn put_eight(words: &mut [u64; SUBFRAMES], subframe: usize, subframes: &[u64; 8])
    requires { subframe + 8 ≤ SUBFRAMES }
    ensures { words.new ≡ with_first subframe words.old subframes.now 8 }
{
    for (i, cells) in subframes.iter().enumerate() {
        words[subframe + i] = *cells;
    }
}

/// Puts four words into `words` from `at` on.
fn put_four(words: &mut [u32; SUBFRAMES], at: usize, four: &[u32; 4])
    requires { at + 4 ≤ SUBFRAMES }
    ensures { words.new ≡ with_first at words.old four.now 4 }
{
    for (i, word) in four.iter().enumerate() {
        words[at + i] = *word;
    }
}

/// The bits of slots 4 to 31 of a subframe, from its 64 cells. Each is at the place of its subframe in
/// a word of a block file, but the octets of that word are two octets apart.
fn octets_apart(cells: u64) -> u64
    ensures none { (i : ℕ) → i < 4 → bit_at result i ≡ 0 }
    ensures bits { (i : ℕ) → i < 28 → bit_at result (16 * ((i + 4) / 8) + (i + 4) % 8)
        ≡ bit_at (bit_xor cells (cells / 2) / 2 ^ 8) (2 * i) }
{
    let word = (cells ^ (cells >> 1)) & 0x5555_5555_5555_5500;
    let word = (word | (word >> 1)) & 0x3333_3333_3333_3333;
    let word = (word | (word >> 2)) & 0x0F0F_0F0F_0F0F_0F0F;
    (word | (word >> 4)) & 0x00FF_00FF_00FF_00FF
}

/// The octets at even places.
const EVEN: [usize; 16] = [0, 2, 4, 6, 8, 10, 12, 14, 16, 18, 20, 22, 24, 26, 28, 30];

/// The words made of the octets at even places.
fn even_octets(words: u64x4) -> [u32; 4]
    ensures bits { (i j : ℕ) → i < 4 → j < 32 → bit_at (get_or result i 0) j
        ≡ bit_at (get_or words i 0) (16 * (j / 8) + j % 8) }
    ensures fits { (i : ℕ) → i < 4 → get_or result i 0 < 2 ^ 32 }
{
    u32x4::from_le_bytes(words.to_le_bytes().swizzle(EVEN)).to_array()
}

/// The words of four subframes, from their cells, with the parity bits as they were read. A word is
/// valid if its parity is right.
fn words_as_read(cells: &[u64; 4]) -> [u32; 4]
    ensures lawful { (i : ℕ) → i < 4 → odd_ones (read_word (get_or cells.now i 0)) ≡ false
        → is_lawful (get_or result i 0) ≡ true }
    ensures payload { (i : ℕ) → i < 4 → payload_of (get_or result i 0)
        ≡ take payload_len (read_word (get_or cells.now i 0)) }
{
    even_octets(u64x4::from_array([
        octets_apart(cells[0]),
        octets_apart(cells[1]),
        octets_apart(cells[2]),
        octets_apart(cells[3]),
    ]))
}

/// The valid word with the payload of a word.
fn with_right_parity(word: u32) -> u32
    ensures lawful { is_lawful result ≡ true }
    ensures payload { payload_of result ≡ payload_of word }
{
    word_of_payload(payload_of_word(word))
}

/// The valid words with the payloads of four words.
fn with_right_parities(words: &[u32; 4]) -> [u32; 4]
    ensures lawful { (i : ℕ) → i < 4 → is_lawful (get_or result i 0) ≡ true }
    ensures payload { (i : ℕ) → i < 4 → payload_of (get_or result i 0)
        ≡ payload_of (get_or words.now i 0) }
{
    [
        with_right_parity(words[0]),
        with_right_parity(words[1]),
        with_right_parity(words[2]),
        with_right_parity(words[3]),
    ]
}

/// The valid words of four subframes, from their cells. If `even` is true, the parity bits that
/// were read are known to be right and are kept.
fn words_of_four(cells: &[u64; 4], even: bool) -> [u32; 4]
    requires { even ≡ true → (i : ℕ) → i < 4
        → odd_ones (read_word (get_or cells.now i 0)) ≡ false }
    ensures lawful { (i : ℕ) → i < 4 → is_lawful (get_or result i 0) ≡ true }
    ensures payload { (i : ℕ) → i < 4 → payload_of (get_or result i 0)
        ≡ take payload_len (read_word (get_or cells.now i 0)) }
{
    let words = words_as_read(cells);
    if even {
        words
    } else {
        with_right_parities(&words)
    }
}

/// The block of these subframes, from their cells. If `even` is true, the parity bits that were
/// read are known to be right and are kept.
#[inline(always)]
fn block_of_fours(words: &[u64; SUBFRAMES], even: bool) -> Block
    requires { even ≡ true → (i : ℕ) → i < block_subframes
        → odd_ones (read_word (get_or words.now i 0)) ≡ false }
    ensures { result ≡ map (take payload_len) (read_words words.now) }
{
    let mut lawful = zero_words();
    for i in 0..SUBFRAMES / 4 {
        let at = 4 * i;
        let four = [words[at], words[at + 1], words[at + 2], words[at + 3]];
        put_four(&mut lawful, at, &words_of_four(&four, even));
    }
    Block::of_words(lawful)
}

impl GatheredCells {
    /// Words all of whose cells are low.
    pub fn new() -> Self
        ensures { result ≡ replicate block_subframes 0 }
    {
        GatheredCells::of_words(&[0; SUBFRAMES])
    }

    /// Gathered cells with these words.
    pub fn of_words(words: &[u64; SUBFRAMES]) -> Self
        ensures words { result ≡ words.now }
        ensures len { length result ≡ block_subframes }
    {
        GatheredCells {
            words: *words,
            before: Level::Low,
            right: 0,
        }
    }

    /// Replaces all words by these.
    pub fn keep_all(&mut self, words: &[u64; SUBFRAMES])
        ensures words { self.new ≡ words.now }
        ensures len { length self.new ≡ block_subframes }
    {
        self.words = *words;
        self.right = 0;
    }

    /// The words, 64 cells each.
    pub fn words(&self) -> &[u64; SUBFRAMES]
        ensures { result.now ≡ self.now }
    {
        &self.words
    }

    /// Keeps the cells of subframe `subframe`; `before` is the level before the first of them.
    pub fn keep(&mut self, subframe: usize, before: Level, cells: u64)
        requires { subframe < SUBFRAMES }
        ensures { self.new ≡ set self.old subframe cells }
    {
        let more = usize::from(wrong_in(before, mark_of(subframe as u64), cells) == 0);
        self.right = right_behind(self.right, self.before, subframe, before, more);
        self.before = before;
        self.words[subframe] = cells;
    }

    /// Keeps the cells of eight subframes from `subframe` on. Each must be right after the level
    /// `before`.
    pub fn keep_eight(&mut self, subframe: usize, before: Level, subframes: &[u64; 8])
        requires within { subframe + 8 ≤ SUBFRAMES }
        requires right { (i : ℕ) → i < 8 → IsRight before (mark_at (subframe + i))
            (get_or subframes.now i 0) }
        ensures { self.new ≡ with_first subframe self.old subframes.now 8 }
    {
        self.right = right_behind(self.right, self.before, subframe, before, 8);
        self.before = before;
        put_eight(&mut self.words, subframe, subframes);
    }

    /// A level after which the words are exactly a block's cells with right parity, if it is known.
    pub fn level_before(&self) -> Option<Level>
        ensures { IfSome result (λ s. flat_map word_cells self.now
            ≡ block_cells s (map (take payload_len) (read_words self.now))) }
    {
        if self.right >= SUBFRAMES {
            Some(self.before)
        } else {
            None
        }
    }

    /// The block whose payloads these subframes carry, as `Block::of_cells` makes it. Parity bits
    /// that are known to be right are kept.
    #[inline(always)]
    pub fn block(&self) -> Block
        ensures { result ≡ map (take payload_len) (read_words self.now) }
    {
        // Two loops: one loop that tested each time would read the cells through memory.
        if self.right >= SUBFRAMES {
            block_of_fours(&self.words, true)
        } else {
            block_of_fours(&self.words, false)
        }
    }

    /// How many of the subframes have a wrong parity bit, as `wrong_parities` counts them. Those
    /// that are known to be right aren't checked again.
    pub fn wrong_parities(&self) -> u16
        ensures { result ≡ length (filter odd_ones (read_words self.now)) }
    {
        if self.right >= SUBFRAMES {
            0
        } else {
            wrong_parities(&self.words)
        }
    }
}
