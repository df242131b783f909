//! Words of 64 cells, the earliest in the lowest bit: their line of text, their octets, and how a
//! sink gets them in either form.

ghost use Rattle.std.specs.Prelude.{◌≡◌, ◌+◌, ◌<◌, ◌^◌, ◌==◌, ℕ, [], ◌∷◌, ◌++◌, map, get_or};
ghost use Rattle.std.specs.Prelude.{if◌then◌else◌, IfSome, length, ◌≤◌, take, IfOk, OnErr};
ghost use Rattle.std.specs.Int.{bit_at};
ghost use Rattle.aes3_level.specs.Words.{level_of, low_cells, word_cells};
ghost use Rattle.aes3_cell.specs.Text.{byte_of, line_text};
ghost use Rattle.aes3_cell.specs.Packed.{cells_of_octets, octets_of};
ghost use Rattle.std.specs.List.{flat_map};
ghost use Rattle.aes3_cell.specs.Ends.{Grew, GrewFront};
ghost use Rattle.aes3_cell.specs.Writes.{Wrote};
ghost use Rattle.aes3_cell.specs.Written.{FirstLines, bytes_of, ending};
ghost use Rattle.aes3_cell.specs.declared.form.Form.TheVariants.{Text, Packed};

use crate::eights::{eight_words, octets_of_eight};
use crate::ends::{Fault, Sink, write_all};
use crate::form::Form;
use aes3_level::Level;
use std::simd::prelude::*;

/// How many cells a word has, and a line of text.
pub(crate) const WORD_LEN: u32 = 64;

/// How many bytes a line of text has, with its line feed.
pub const LINE_LEN: usize = 65;

/// The word of `len` cells, the first in the lowest bit, with one more cell after them.
pub(crate) fn with_cell(word: u64, len: u32, level: Level) -> u64
    requires few { len < 64 }
    requires bound { word < 2 ^ len }
    ensures cells { low_cells (len + 1) result ≡ low_cells len word ++ level ∷ [] }
    ensures bound { result < 2 ^ (len + 1) }
{
    match level {
        Level::Low => word,
        Level::High => word | 1 << len,
    }
}

/// The number of the octet of each cell of a word, the first eight cells in octet 0.
const OCTETS: [usize; 64] = [
    0, 0, 0, 0, 0, 0, 0, 0, 1, 1, 1, 1, 1, 1, 1, 1, 2, 2, 2, 2, 2, 2, 2, 2, 3, 3, 3, 3, 3, 3, 3, 3,
    4, 4, 4, 4, 4, 4, 4, 4, 5, 5, 5, 5, 5, 5, 5, 5, 6, 6, 6, 6, 6, 6, 6, 6, 7, 7, 7, 7, 7, 7, 7, 7,
];

/// The characters of the cells of a word, all at once.
#[inline(always)]
fn characters(word: u64) -> [u8; 64]
    ensures { result ≡ map byte_of (word_cells word) }
{
    let octets = u8x8::from_array(word.to_le_bytes()).swizzle(OCTETS);
    // In each octet, the bit of cell 0, of cell 1, and so on.
    let bits = u64x8::splat(0x8040_2010_0804_0201).to_le_bytes();
    (octets & bits)
        .simd_eq(bits)
        .select(u8x64::splat(b'1'), u8x64::splat(b'0'))
        .to_array()
}

/// Puts the line of text of a word of cells into `line`.
#[inline(always)]
pub(crate) fn put_line(word: u64, line: &mut [u8])
    requires { length line.old ≡ LINE_LEN }
    ensures { line.new ≡ line_text (word_cells word) }
{
    u8x64::from_array(characters(word)).copy_to_slice(line);
    line[64] = b'\n';
}

/// The line of text of a word of cells: 64 characters and a line feed.
#[inline(always)]
pub fn line_of_word(word: u64) -> [u8; LINE_LEN]
    ensures { result ≡ line_text (word_cells word) }
{
    let mut line = [0; LINE_LEN];
    put_line(word, &mut line);
    line
}

/// The octets of a word of cells, the first cell in the highest bit of the first octet.
pub fn octets_of_word(word: u64) -> [u8; 8]
    ensures { result ≡ octets_of (word_cells word) }
{
    octets_of_eight(u64x8::splat(word))
        .extract::<0, 8>()
        .to_array()
}

/// The word of the cells of eight octets, the first cell in the highest bit of the first octet.
pub fn word_of_octets(octets: &[u8; 8]) -> u64
    ensures { word_cells result ≡ cells_of_octets octets.now }
{
    let mut padded = [0; 64];
    padded[..8].copy_from_slice(octets);
    eight_words(u8x64::from_array(padded)).to_array()[0]
}

/// The bytes that are `byte`, a one for each.
#[inline(always)]
pub(crate) fn equal_to(bytes: &[u8; 64], byte: u8) -> u64
    ensures { (i : ℕ) → i < 64 → bit_at result i ≡ (if get_or bytes.now i 0 == byte then 1 else 0) }
{
    u8x64::from_array(*bytes)
        .simd_eq(u8x64::splat(byte))
        .to_bitmask()
}

/// The word of 64 bytes that are all cells, the first in the lowest bit.
#[inline(always)]
pub fn word_of_text(bytes: &[u8; 64]) -> Option<u64>
    ensures cells { IfSome result (λ word. bytes.now ≡ map byte_of (word_cells word)) }
    ensures owed { (word : ℕ) → word < 2 ^ 64 → bytes.now ≡ map byte_of (word_cells word)
        → result ≡ Some word }
{
    let high = equal_to(bytes, b'1');
    let low = equal_to(bytes, b'0');
    if high | low == u64::MAX {
        Some(high)
    } else {
        None
    }
}

/// Writes the 64 cells of a word, as one buffer.
///
/// # Errors
/// The sink's fault; then it has taken a front of the bytes.
pub fn put_word<T: Sink>(form: Form, word: u64, sink: &mut T) -> Result<(), Fault>
    requires room { T.failed sink.old + 1 < 2 ^ 64 }
    ensures { Wrote T.taken T.failed sink.old sink.new (bytes_of form (word_cells word)) result }
{
    match form {
        Form::Text => write_all(sink, &line_of_word(word)),
        Form::Packed => write_all(sink, &octets_of_word(word)),
    }
}

/// How many words a sink takes at once.
pub(crate) const MANY: usize = 16;

/// How many bytes the lines of these words have.
pub(crate) const LINES_LEN: usize = LINE_LEN * MANY;

/// Puts the line of word `i` after those of the words before.
#[inline(always)]
fn fill_line(words: &[u64; MANY], text: &mut [u8], i: usize)
    requires within { i < MANY }
    requires room { length text.old ≡ LINES_LEN }
    requires before { FirstLines i words.now text.old }
    ensures { FirstLines (i + 1) words.now text.new }
{
    put_line(words[i], &mut text[LINE_LEN * i..LINE_LEN * i + LINE_LEN]);
}

/// Puts the lines of words into `text`.
#[inline(always)]
pub(crate) fn fill_lines(words: &[u64; MANY], text: &mut [u8])
    requires { length text.old ≡ LINES_LEN }
    ensures { text.new ≡ bytes_of Text (flat_map word_cells words.now) }
{
    // Four in each iteration: every iteration loads the constants again.
    for i in 0..MANY / 4 {
        fill_line(words, text, 4 * i);
        fill_line(words, text, 4 * i + 1);
        fill_line(words, text, 4 * i + 2);
        fill_line(words, text, 4 * i + 3);
    }
}

/// The octets of words.
pub(crate) fn octets_of_words(words: &[u64; MANY]) -> [u8; 8 * MANY]
    ensures { result ≡ bytes_of Packed (flat_map word_cells words.now) }
{
    let front = octets_of_eight(u64x8::from_slice(words));
    let back = octets_of_eight(u64x8::from_slice(&words[8..]));
    let mut octets = [0; 8 * MANY];
    front.copy_to_slice(&mut octets);
    back.copy_to_slice(&mut octets[64..]);
    octets
}

/// Writes the first words, as long as the sink takes many at once; returns how many.
fn put_front<T: Sink>(form: Form, words: &[u64], sink: &mut T) -> Result<usize, Fault>
    requires room { T.failed sink.old + 1 < 2 ^ 64 }
    ensures within { IfOk result (λ n. n ≤ length words.now) }
    ensures cells { IfOk result (λ n. Grew (T.taken sink.old) (T.taken sink.new)
        (bytes_of form (flat_map word_cells (take n words.now)))) }
    ensures no_failure { IfOk result (λ _. T.failed sink.new ≡ T.failed sink.old) }
    ensures err { OnErr result ((T.failed sink.new ≡ T.failed sink.old + 1)
        × GrewFront (T.taken sink.old) (T.taken sink.new)
        (bytes_of form (flat_map word_cells words.now))) }
{
    let mut at = 0;
    while let Some(many) = words[at..].first_chunk() {
        if !sink.put_many(form, many)? {
            break;
        }
        at += MANY;
    }
    Ok(at)
}

/// Writes words one by one.
fn put_each<T: Sink>(form: Form, words: &[u64], sink: &mut T) -> Result<(), Fault>
    requires room { T.failed sink.old + 1 < 2 ^ 64 }
    ensures { Wrote T.taken T.failed sink.old sink.new
        (bytes_of form (flat_map word_cells words.now)) result }
{
    for word in words.iter() {
        put_word(form, *word, sink)?;
    }
    Ok(())
}

/// Writes words of cells, each as one buffer, or 16 at once if the sink takes them.
///
/// # Errors
/// The sink's fault; then it has taken a front of the bytes.
pub fn put_words<T: Sink>(form: Form, words: &[u64], sink: &mut T) -> Result<(), Fault>
    requires room { T.failed sink.old + 1 < 2 ^ 64 }
    ensures { Wrote T.taken T.failed sink.old sink.new
        (bytes_of form (flat_map word_cells words.now)) result }
{
    let written = put_front(form, words, sink)?;
    put_each(form, &words[written..], sink)
}

/// Writes what follows the last word of cells: in packed form one octet, the number of unused
/// cells, which is 0.
///
/// # Errors
/// The sink's fault; then it has taken nothing.
pub fn put_ending<T: Sink>(form: Form, sink: &mut T) -> Result<(), Fault>
    requires room { T.failed sink.old + 1 < 2 ^ 64 }
    ensures { Wrote T.taken T.failed sink.old sink.new (ending form) result }
{
    match form {
        Form::Text => Ok(()),
        Form::Packed => write_all(sink, &[0]),
    }
}
