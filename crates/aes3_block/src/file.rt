//! Reading block files.
use aes3_cell::RunError;
use aes3_frame::{BLOCK_BYTES, Block, SUBFRAMES, has_right_code, has_right_parity, zero_words};
use arrayvec::ArrayVec;
use std::fmt::{self, Debug, Display, Formatter, Write};
use std::marker::Model;
use thiserror::Error;

/// Why bytes are not a block file. Words are counted from 0 over the whole file.
#[derive(Clone, Copy, PartialEq, Eq, Error)]
pub enum FileFault {
    /// The file ends inside a block; `left` bytes, 1 to 1,535, follow the last whole block.
    BadLength { left: u64 },
    /// Bits 0 to 3 of word `at` are not zero.
    BadCode { at: u64 },
    /// Bit 31 of word `at` is not the right parity.
    BadParity { at: u64 },
}

impl From<FileFault> for RunError {
    ghost use Rattle.std.specs.Prelude.{◌≡◌};
    ghost use Rattle.aes3_block.specs.Refusals.{refusal_of};

    ghost from_gives = { λ fault error. error ≡ refusal_of fault };

    fn from(fault: FileFault) -> RunError {
        match fault {
            FileFault::BadLength { left } => RunError::BadLength { left },
            FileFault::BadCode { at } => RunError::BadCode { at },
            FileFault::BadParity { at } => RunError::BadParity { at },
        }
    }
}

impl Display for FileFault {
    fn fmt<W: Write>(&self, f: &mut Formatter<W>) -> fmt::Result {
        Display::fmt(&RunError::from(*self), f)
    }
}

impl Debug for FileFault {
    fn fmt<W: Write>(&self, f: &mut Formatter<W>) -> fmt::Result {
        Display::fmt(self, f)
    }
}

/// Reads a block file byte by byte.
///
/// A contract sees how many bytes it has taken, and the fault that it has found. It also sees the
/// words of the current block, and the bytes of the current word.
#[derive(Drop)]
pub struct BlockFile {
    words: ArrayVec<u32, SUBFRAMES>,
    word: u32,
    seen: u64,
    fault: Option<FileFault>,
}

impl Model for BlockFile {
    ghost use Rattle.std.specs.Prelude.{ℕ, ◌<◌, ◌≡◌, ◌*◌, ◌/◌, ◌%◌, ◌^◌, true, get_or, length};
    ghost use Rattle.aes3_frame.specs.Files.{is_lawful, low_bytes};
    ghost use Rattle.aes3_block.specs.Readers.{FileReader};

    ghost Value = { FileReader };

    ghost view = { λ f. record {
      seen = f.seen;
      words = f.words.items;
      bytes = low_bytes (f.seen % 4) f.word;
      fault = f.fault;
    } };

    ghost invariant = { λ f. (length f.words.items ≡ f.seen / 4 % 384)
        × ((i : ℕ) → i < length f.words.items → is_lawful (get_or f.words.items i 0) ≡ true)
        × (f.word < 2 ^ (8 * (f.seen % 4))) };
}

ghost use Rattle.std.specs.Prelude.{◌≡◌, ◌≢◌, ℕ, ◌<◌, ◌≤◌, ◌+◌, ◌*◌, ◌^◌, true, false, [], ◌∷◌};
ghost use Rattle.std.specs.Prelude.{◌++◌, Some, None, IfSome, IsSome, get_or, length, map};
ghost use Rattle.std.specs.List.{flat_map};
ghost use Rattle.aes3_frame.specs.Blocks.{block_subframes};
ghost use Rattle.aes3_frame.specs.Files.{is_lawful, low_bytes, payload_of, word_bytes, words_of};
ghost use Rattle.aes3_block.specs.Readers.{FileReader, TakesBlock, TakesQuietly, answer_with};
ghost use Rattle.aes3_block.specs.Readers.{end_answer, next_with, word_fault};

/// The fault of word `at`. Its code is checked before its parity.
fn fault_of_word(word: u32, at: u64) -> Option<FileFault>
    ensures { result ≡ word_fault at word }
{
    if !has_right_code(word) {
        Some(FileFault::BadCode { at })
    } else if !has_right_parity(word) {
        Some(FileFault::BadParity { at })
    } else {
        None
    }
}

/// The current word, of `len` bytes, with one more byte.
fn word_with_byte(word: u32, len: u32, byte: u8) -> u32
    requires few { len < 4 }
    requires bound { word < 2 ^ (8 * len) }
    ensures bytes { low_bytes (len + 1) result ≡ low_bytes len word ++ byte ∷ [] }
    ensures bound { result < 2 ^ (8 * (len + 1)) }
{
    word | u32::from(byte) << (8 * len)
}

/// The block of the words, if they fill one; then no words are left.
fn take_block(words: &mut ArrayVec<u32, SUBFRAMES>) -> Option<Block>
    requires { (i : ℕ) → i < length words.old.items
        → is_lawful (get_or words.old.items i 0) ≡ true }
    ensures whole { length words.old.items ≡ SUBFRAMES
        → (result ≡ Some (map payload_of words.old.items)) × (words.new.items ≡ []) }
    ensures begun { length words.old.items ≢ SUBFRAMES
        → (result ≡ None) × (words.new.items ≡ words.old.items) }
{
    if words.len() != SUBFRAMES {
        return None;
    }
    match words.take().into_inner() {
        Ok(words) => Some(Block::of_words(words)),
        Err(_) => None,
    }
}

/// The words of a block's bytes.
fn words_of_block(bytes: &[u8; BLOCK_BYTES]) -> [u32; SUBFRAMES]
    ensures { flat_map word_bytes result ≡ bytes.now }
{
    let mut words = zero_words();
    for i in 0..SUBFRAMES {
        let at = 4 * i;
        let word = [bytes[at], bytes[at + 1], bytes[at + 2], bytes[at + 3]];
        words[i] = u32::from_le_bytes(word);
    }
    words
}

/// Whether all words are valid: none has a bit in slots 0 to 3, and none an odd number of ones. It
/// checks them together, so that the compiler takes several at once.
fn are_lawful(words: &[u32; SUBFRAMES]) -> bool
    ensures each { result ≡ true → (i : ℕ) → i < block_subframes
        → is_lawful (get_or words.now i 0) ≡ true }
    ensures owed { ((i : ℕ) → i < block_subframes → is_lawful (get_or words.now i 0) ≡ true)
        → result ≡ true }
    ensures fits { (i : ℕ) → i < SUBFRAMES → get_or words.now i 0 < 2 ^ 32 }
{
    let mut code = 0;
    let mut odd = 0;
    for word in words.iter() {
        code |= *word;
        odd |= word.count_ones();
    }
    has_right_code(code) && odd % 2 == 0
}

impl BlockFile {
    /// A reader that has taken nothing.
    pub fn new() -> Self
        ensures seen { result.seen ≡ 0 }
        ensures words { result.words ≡ [] }
        ensures bytes { result.bytes ≡ [] }
        ensures open { result.fault ≡ None }
    {
        BlockFile {
            words: ArrayVec::new(),
            word: 0,
            seen: 0,
            fault: None,
        }
    }

    /// How many bytes it has taken.
    pub fn seen(&self) -> u64
        ensures { result ≡ self.now.seen }
    {
        self.seen
    }

    /// Takes one more byte, and returns the block that it ends.
    ///
    /// # Errors
    /// The fault of the word that the byte ends. Then the byte isn't taken, and each later call
    /// returns the same fault.
    pub fn feed_byte(&mut self, byte: u8) -> Result<Option<Block>, FileFault>
        requires { self.old.seen < 2 ^ 40 }
        ensures answer { result ≡ answer_with self.old byte }
        ensures next { self.new ≡ next_with self.old byte }
    {
        if let Some(fault) = self.fault {
            return Err(fault);
        }
        let word = word_with_byte(self.word, (self.seen % 4) as u32, byte);
        if self.seen % 4 < 3 {
            self.word = word;
            self.seen += 1;
            return Ok(None);
        }
        if let Some(fault) = fault_of_word(word, self.seen / 4) {
            self.fault = Some(fault);
            return Err(fault);
        }
        self.words.push(word);
        let block = take_block(&mut self.words);
        self.word = 0;
        self.seen += 1;
        Ok(block)
    }

    /// Takes the four bytes of a word if no word is begun, and the word is valid and ends no block.
    /// Returns whether it took them; if not, nothing changes.
    ///
    /// It is `feed_byte` for almost every word of a file.
    pub fn feed_word(&mut self, bytes: &[u8; 4]) -> bool
        requires { self.old.seen + 4 ≤ 2 ^ 40 }
        ensures quiet { result ≡ true → TakesQuietly self.old bytes.now self.new }
        ensures unchanged { result ≡ false → self.new ≡ self.old }
        ensures stops { result ≡ false → self.old.bytes ≡ [] → (next : FileReader)
            → ¬ TakesQuietly self.old bytes.now next }
    {
        if self.fault.is_some() || self.seen % 4 != 0 {
            return false;
        }
        let word = u32::from_le_bytes(*bytes);
        if self.words.len() + 1 == SUBFRAMES || fault_of_word(word, self.seen / 4).is_some() {
            return false;
        }
        self.words.push(word);
        self.word = 0;
        self.seen += 4;
        true
    }

    /// Takes the bytes of a whole block if no block is begun and all its words are valid, and
    /// returns the block. If not, nothing changes.
    ///
    /// It is `feed_byte` for almost every block of a file.
    pub fn feed_block(&mut self, bytes: &[u8; BLOCK_BYTES]) -> Option<Block>
        requires { self.old.seen + BLOCK_BYTES ≤ 2 ^ 40 }
        ensures taken { IfSome result (λ block. TakesBlock self.old bytes.now block self.new) }
        ensures unchanged { result ≡ None → self.new ≡ self.old }
        ensures owed { self.old.fault ≡ None → self.old.bytes ≡ [] → self.old.words ≡ []
            → ((i : ℕ) → i < block_subframes → is_lawful (get_or (words_of bytes.now) i 0) ≡ true)
            → IsSome result }
    {
        if self.fault.is_some() || self.seen % BLOCK_BYTES as u64 != 0 {
            return None;
        }
        let words = words_of_block(bytes);
        if !are_lawful(&words) {
            return None;
        }
        self.seen += BLOCK_BYTES as u64;
        Some(Block::of_words(words))
    }

    /// Checks whether the file may end here.
    ///
    /// # Errors
    /// The fault that was found before, else `BadLength` if a block is begun.
    pub fn end(&self) -> Result<(), FileFault>
        ensures { result ≡ end_answer self.now }
    {
        let left = self.seen % BLOCK_BYTES as u64;
        match self.fault {
            Some(fault) => Err(fault),
            None if left > 0 => Err(FileFault::BadLength { left }),
            None => Ok(()),
        }
    }
}
