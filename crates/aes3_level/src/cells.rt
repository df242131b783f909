//! Cells of words, taken from the first one on.

use std::marker::Model;

/// Cells of words that are still to be taken, the earliest of each word in its lowest bit.
///
/// A contract sees the cells of the current word (`here`), and those of the words after it
/// (`next`).
#[derive(Drop)]
pub struct Cells<'a> {
    /// The current word.
    word: u64,
    /// How many of its cells were taken.
    at: u32,
    /// Where its cells end.
    end: u32,
    /// The words after it.
    words: &'a [u64],
    /// How many cells are in these words.
    rest: usize,
}

impl<'a> Model for Cells<'a> {
    ghost use Rattle.std.specs.Prelude.{◌*◌, ◌≤◌, drop, length, take};
    ghost use Rattle.std.specs.List.{flat_map};
    ghost use Rattle.aes3_level.specs.Remaining.{Remaining};
    ghost use Rattle.aes3_level.specs.Words.{low_cells, word_cells};

    ghost Value = { Remaining };

    ghost view = { λ k. record {
      here = drop k.at (low_cells k.end k.word);
      next = take k.rest (flat_map word_cells k.words.now);
    } };

    ghost invariant = { λ k. (k.at ≤ k.end) × (k.end ≤ 64) × (k.rest ≤ 64 * length k.words.now) };
}

ghost use Rattle.std.specs.Prelude.{◌≡◌, ◌+◌, ◌*◌, ◌/◌, ◌<◌, ◌≤◌, [], true, false, drop, length, take};
ghost use Rattle.std.specs.List.{flat_map};
ghost use Rattle.aes3_level.specs.Remaining.{all_of};
ghost use Rattle.aes3_level.specs.Words.{cells_in, low_cells, word_cells};

impl<'a> Cells<'a> {
    /// The first `len` cells of a word.
    #[inline(always)]
    pub fn of_word(word: u64, len: u32) -> Cells<'static>
        requires { len ≤ 64 }
        ensures { all_of result ≡ low_cells len word }
    {
        Cells {
            word,
            at: 0,
            end: len,
            words: &[],
            rest: 0,
        }
    }

    /// `len` cells of words from cell `first` on.
    #[inline(always)]
    pub fn of_words(words: &'a [u64], first: usize, len: usize) -> Self
        requires { first + len ≤ 64 * length words.now }
        ensures { all_of result ≡ cells_in words.now first len }
    {
        let at = first % 64;
        let words = &words[first / 64..];
        if at == 0 {
            return Cells {
                word: 0,
                at: 0,
                end: 0,
                words,
                rest: len,
            };
        }
        Cells::begun_at(words, at, len)
    }

    /// `len` cells of words from a cell of the first on.
    #[inline(always)]
    fn begun_at(words: &'a [u64], at: usize, len: usize) -> Self
        requires within { at + len ≤ 64 * length words.now }
        requires some { 0 < length words.now }
        requires first { at < 64 }
        ensures { all_of result ≡ cells_in words.now at len }
    {
        let here = len.min(64 - at);
        Cells {
            word: words[0],
            at: at as u32,
            end: (at + here) as u32,
            words: &words[1..],
            rest: len - here,
        }
    }

    /// Whether no cell is left.
    #[inline(always)]
    pub fn is_empty(&self) -> bool
        ensures none { result ≡ true → all_of self.now ≡ [] }
        ensures some { result ≡ false → 0 < length (all_of self.now) }
    {
        self.at == self.end && self.rest == 0
    }

    /// How many cells of the current word are left.
    #[inline(always)]
    pub fn here(&self) -> u32
        ensures len { result ≡ length self.now.here }
        ensures few { result ≤ 64 }
    {
        self.end - self.at
    }

    /// The cells of the current word, the first one in the lowest bit.
    #[inline(always)]
    pub fn word(&self) -> u64
        requires { 0 < length self.now.here }
        ensures { low_cells (length self.now.here) result ≡ self.now.here }
    {
        self.word >> self.at
    }

    /// Takes the first `count` cells of the current word.
    #[inline(always)]
    pub fn skip(&mut self, count: u32)
        requires { count ≤ length self.old.here }
        ensures here { self.new.here ≡ drop count self.old.here }
        ensures next { self.new.next ≡ self.old.next }
    {
        self.at += count;
    }

    /// The whole words after the current one.
    #[inline(always)]
    pub fn words(&self) -> &'a [u64]
        ensures all { length result.now ≡ length self.now.next / 64 }
        ensures within { 64 * length result.now ≤ length self.now.next }
        ensures cells { flat_map word_cells result.now ≡ take (64 * length result.now) self.now.next }
    {
        &self.words[..self.rest / 64]
    }

    /// Takes the first `count` whole words after the current one.
    #[inline(always)]
    pub fn skip_words(&mut self, count: usize)
        requires { 64 * count ≤ length self.old.next }
        ensures here { self.new.here ≡ self.old.here }
        ensures next { self.new.next ≡ drop (64 * count) self.old.next }
    {
        self.words = &self.words[count..];
        self.rest -= 64 * count;
    }

    /// Begins the next word, if no word is begun and there is a next one. Returns whether a cell is
    /// left.
    #[inline(always)]
    pub fn begin_word(&mut self) -> bool
        ensures all { all_of self.new ≡ all_of self.old }
        ensures some { result ≡ true → 0 < length self.new.here }
        ensures none { result ≡ false → all_of self.old ≡ [] }
        ensures begun { 0 < length (all_of self.old) → 0 < length self.new.here }
    {
        // Not `<`: so the compiler knows that a word is begun if `here` is not 0.
        if self.at != self.end {
            return true;
        }
        if self.rest == 0 {
            return false;
        }
        let len = self.rest.min(64);
        self.word = self.words[0];
        self.at = 0;
        self.end = len as u32;
        self.words = &self.words[1..];
        self.rest -= len;
        true
    }
}
