//! Reading cell text: byte by byte, 64 bytes at once, and lines of 64 cells as words.

ghost use Rattle.std.specs.Prelude.{◌≡◌, ◌+◌, ◌<◌, ◌≤◌, ◌^◌, [], Err, IfNone};
ghost use Rattle.std.specs.Prelude.{IfSome, OnSome, ◌≢◌, ◌*◌, ℕ, drop, length, map, take, IsTrue};
ghost use Rattle.std.specs.Prelude.{◌↔◌, ◌++◌, ◌∷◌, slice_index, IfOk, IfErr, OnErr, if◌then◌else◌};
ghost use Rattle.std.specs.Prelude.{true};
ghost use Rattle.aes3_cell.specs.CellText.{IsCellText, cells_of_text, kind_of, separator};
ghost use Rattle.aes3_cell.specs.CellText.{byte_cells, is_good_byte};
ghost use Rattle.aes3_cell.specs.Text.{byte_of, line_text, text_of};
ghost use Rattle.aes3_level.specs.Words.{low_cells, word_cells};
ghost use Rattle.aes3_cell.specs.TextReading.{text_answer, text_next, text_reader_of, TextRead};
ghost use Rattle.std.specs.List.{flat_map};
ghost use Rattle.aes3_level.specs.declared.level.Level.{Level};
ghost use Rattle.aes3_cell.specs.TextLines.{LineBegins};

use crate::scattered::cells_among;
use crate::some_cells::SomeCells;
use crate::word::{LINE_LEN, word_of_text};
use aes3_level::Level;
use std::marker::Model;

/// How many lines become words at once.
pub const LINES: usize = 64;

/// How many cells a written line has.
const LINE_CELLS: usize = 64;

/// Eight characters `0` of cell text.
const CELL_BYTES: u64 = 0x3030_3030_3030_3030;

/// The bits in which cells of text differ.
const LEVEL_BITS: u64 = 0x0101_0101_0101_0101;

/// A byte of cell text that is neither a cell nor a separator.
#[derive(Clone, Copy, PartialEq, Eq)]
pub struct BadCell {
    /// Its place, counted in bytes from 0 over the whole input.
    pub at: u64,
}

/// Reads cell text byte by byte, or 64 bytes at once if all are cells.
///
/// A contract sees how many bytes it has taken.
#[derive(Drop)]
pub struct CellText {
    pub(crate) seen: u64,
}

impl Model for CellText {
    ghost use Rattle.aes3_cell.specs.TextReading.{TextReader};

    ghost Value = { TextReader };

    ghost view = { λ t. record { seen = t.seen } };
}

impl CellText {
    /// A reader that has taken nothing.
    #[tactic(auto, unfolding(crate::specs::TextReading::text_reader_of))]
    pub fn new() -> Self
        ensures start { result ≡ text_reader_of [] }
        ensures seen { result.seen ≡ 0 }
    {
        CellText { seen: 0 }
    }

    /// How many bytes it has taken.
    pub fn seen(&self) -> u64
        ensures { result ≡ self.now.seen }
    {
        self.seen
    }

    /// Takes one more byte, and returns its cell. A separator (LF, CR, space) has none.
    ///
    /// # Errors
    /// The place of a byte that is neither. It isn't taken, and the reader is unchanged.
    #[tactic(auto, unfolding(crate::specs::CellText::kind_of))]
    pub fn feed_byte(&mut self, byte: u8) -> Result<Option<Level>, BadCell>
        requires { self.old.seen < 2 ^ 40 }
        ensures answer { result ≡ text_answer self.old byte }
        ensures next { self.new ≡ text_next self.old byte }
    {
        let cell = match byte {
            b'0' => Some(Level::Low),
            b'1' => Some(Level::High),
            b'\n' | b'\r' | b' ' => None,
            _ => return Err(BadCell { at: self.seen }),
        };
        self.seen += 1;
        Ok(cell)
    }

    /// Takes 64 bytes that are all cells and separators, and returns their cells. If some byte is
    /// neither, it takes none.
    #[inline(always)]
    pub fn feed_scattered(&mut self, bytes: &[u8; 64]) -> Option<SomeCells>
        requires { self.old.seen + 64 ≤ 2 ^ 40 }
        ensures cells { IfSome result (λ cells. cells_of_text bytes.now
            ≡ low_cells cells.len cells.word) }
        ensures lawful { OnSome result (IsCellText bytes.now) }
        ensures owed { IfNone result (¬ IsCellText bytes.now) }
        ensures seen { OnSome result (self.new.seen ≡ self.old.seen + 64) }
        ensures unchanged { IfNone result (self.new ≡ self.old) }
    {
        let cells = cells_among(bytes)?;
        self.seen += bytes.len() as u64;
        Some(cells)
    }

    /// Takes 64 bytes that are all cells, and returns them as a word, the first in the lowest bit.
    /// If some byte is no cell, it takes none.
    pub fn feed_word(&mut self, bytes: &[u8; 64]) -> Option<u64>
        requires { self.old.seen + 64 ≤ 2 ^ 40 }
        ensures cells { IfSome result (λ word. bytes.now ≡ map byte_of (word_cells word)) }
        ensures owed { (word : ℕ) → word < 2 ^ 64 → bytes.now ≡ map byte_of (word_cells word)
            → result ≡ Some word }
        ensures seen { OnSome result (self.new.seen ≡ self.old.seen + 64) }
        ensures unchanged { IfNone result (self.new ≡ self.old) }
    {
        let word = word_of_text(bytes)?;
        self.seen += 64;
        Some(word)
    }

    /// Takes lines of 64 cells and a line feed at the front of text, at most as many as there are
    /// words. Returns how many; the first words are then their cells.
    pub fn feed_lines(&mut self, text: &[u8], words: &mut [u64]) -> usize
        requires { self.old.seen + length text.now ≤ 2 ^ 40 }
        ensures len { length words.new ≡ length words.old }
        ensures room { result ≤ length words.new }
        ensures within { 65 * result ≤ length text.now }
        ensures lines { take (65 * result) text.now
            ≡ text_of (flat_map word_cells (take result words.new)) }
        ensures stops { result < length words.new → 65 * result + 65 ≤ length text.now → (word : ℕ)
            → word < 2 ^ 64
            → take 65 (drop (65 * result) text.now) ≢ line_text (word_cells word) }
        ensures seen { self.new.seen ≡ self.old.seen + 65 * result }
    {
        let taken = words_of_lines(text, words);
        self.seen += (LINE_LEN * taken) as u64;
        taken
    }

    /// Takes a front of a piece: lines of 64 cells, up to the number of words, or chunks of cells
    /// and separators, or at least one byte. Returns how many bytes it has, how many words its
    /// cells make, and the cells after these words.
    ///
    /// # Errors
    /// The place of the first byte, if it is neither a cell nor a separator. Nothing is taken then.
    pub fn take_front(
        &mut self,
        piece: &[u8],
        words: &mut [u64; LINES],
    ) -> Result<TextFront, BadCell>
        requires some { 0 < length piece.now }
        requires room { self.old.seen + length piece.now ≤ 2 ^ 40 }
        ensures within { IfOk result (λ taken. (0 < taken.bytes) × (taken.bytes ≤ length piece.now)) }
        ensures few { IfOk result (λ taken. taken.count ≤ 64) }
        ensures len { length words.new ≡ 64 }
        ensures read { IfOk result (λ taken. TextRead self.old self.new (take taken.bytes piece.now)
            (flat_map word_cells (take taken.count words.new)
            ++ low_cells taken.rest.len taken.rest.word)) }
        ensures fault { IfErr result (λ fault. Err fault
            ≡ text_answer self.old (slice_index piece.now 0)) }
        ensures unchanged { OnErr result (self.new ≡ self.old) }
    {
        let taken = feed_lines_or_chunks(self, piece, words);
        if taken.bytes > 0 {
            return Ok(taken);
        }
        let (bytes, rest) = feed_cells(self, piece)?;
        Ok(TextFront {
            bytes,
            count: 0,
            rest,
        })
    }
}

/// The word of the line of 64 cells that text begins with.
#[inline(always)]
fn front_line(text: &[u8]) -> Option<u64>
    ensures bound { OnSome result (65 ≤ length text.now) }
    ensures cells { IfSome result (λ word. take 65 text.now ≡ line_text (word_cells word)) }
    ensures owed { (word : ℕ) → word < 2 ^ 64 → take 65 text.now ≡ line_text (word_cells word)
        → result ≡ Some word }
{
    if text.len() < LINE_LEN || text[64] != b'\n' {
        return None;
    }
    word_of_text(text.first_chunk()?)
}

/// Makes words of the lines of 64 cells at the front of text, at most as many as there are words.
/// Returns how many.
fn words_of_lines(text: &[u8], words: &mut [u64]) -> usize
    ensures len { length words.new ≡ length words.old }
    ensures room { result ≤ length words.new }
    ensures within { 65 * result ≤ length text.now }
    ensures lines { take (65 * result) text.now
        ≡ text_of (flat_map word_cells (take result words.new)) }
    ensures stops { result < length words.new → (word : ℕ) → word < 2 ^ 64
        → take 65 (drop (65 * result) text.now) ≢ line_text (word_cells word) }
{
    for i in 0..words.len() {
        match front_line(&text[LINE_LEN * i..]) {
            Some(word) => words[i] = word,
            None => return i,
        }
    }
    words.len()
}

/// Whether a byte is a separator, as at the end of a line.
#[tactic(auto, unfolding(crate::specs::CellText::kind_of))]
fn is_separator(byte: u8) -> bool
    ensures { IsTrue result ↔ kind_of byte ≡ separator }
{
    matches!(byte, b'\n' | b'\r' | b' ')
}

/// Takes the separators at the front of a piece, and returns how many.
pub(crate) fn skip_separators(text: &mut CellText, piece: &[u8]) -> usize
    requires { text.old.seen + length piece.now ≤ 2 ^ 40 }
    ensures within { result ≤ length piece.now }
    ensures read { TextRead text.old text.new (take result piece.now) [] }
{
    for (i, byte) in piece.iter().enumerate() {
        if !is_separator(*byte) {
            return i;
        }
        let _ = text.feed_byte(*byte);
    }
    piece.len()
}

/// Takes the first 64 bytes of a piece as a word if they are all cells; else takes none.
fn feed_front(text: &mut CellText, piece: &[u8]) -> Option<u64>
    requires { text.old.seen + length piece.now ≤ 2 ^ 40 }
    ensures bound { OnSome result (64 ≤ length piece.now) }
    ensures cells { IfSome result (λ word. take 64 piece.now ≡ map byte_of (word_cells word)) }
    ensures seen { OnSome result (text.new.seen ≡ text.old.seen + 64) }
    ensures unchanged { IfNone result (text.new ≡ text.old) }
{
    match piece.first_chunk() {
        Some(bytes) => text.feed_word(bytes),
        None => None,
    }
}

/// Takes the first 64 cells of a piece as a word, if it begins with 64 cells, and the separators
/// after them. Returns the number of bytes, and the word.
fn feed_line(text: &mut CellText, piece: &[u8]) -> Option<(usize, u64)>
    requires { text.old.seen + length piece.now ≤ 2 ^ 40 }
    ensures within { IfSome result (λ line. (64 ≤ line.0) × (line.0 ≤ length piece.now)) }
    ensures read { IfSome result (λ line. TextRead text.old text.new (take line.0 piece.now)
        (word_cells line.1)) }
    ensures unchanged { IfNone result (text.new ≡ text.old) }
{
    match feed_front(text, piece) {
        Some(word) => {
            let separators = skip_separators(text, &piece[64..]);
            Some((64 + separators, word))
        }
        None => None,
    }
}

/// Takes the lines of 64 cells at the front of a piece, with any separators after each, up to the
/// number of words. Returns the number of bytes and of words.
fn feed_any_lines(text: &mut CellText, piece: &[u8], words: &mut [u64; LINES]) -> (usize, usize)
    requires { text.old.seen + length piece.now ≤ 2 ^ 40 }
    ensures within { result.0 ≤ length piece.now }
    ensures few { result.1 ≤ 64 }
    ensures len { length words.new ≡ 64 }
    ensures read { TextRead text.old text.new (take result.0 piece.now)
        (flat_map word_cells (take result.1 words.new)) }
    ensures unchanged { result.0 ≡ 0 → text.new ≡ text.old }
{
    let mut at = 0;
    for count in 0..LINES {
        match feed_line(text, &piece[at..]) {
            Some((bytes, word)) => {
                words[count] = word;
                at += bytes;
            }
            None => return (at, count),
        }
    }
    (at, LINES)
}

/// Takes the lines of 64 cells at the front of a piece. If some of them end with one line feed, it
/// takes those, else those with any separators after each. Returns the number of bytes and of
/// words.
pub(crate) fn feed_lines(
    text: &mut CellText,
    piece: &[u8],
    words: &mut [u64; LINES],
) -> (usize, usize)
    requires { text.old.seen + length piece.now ≤ 2 ^ 40 }
    ensures within { result.0 ≤ length piece.now }
    ensures few { result.1 ≤ 64 }
    ensures len { length words.new ≡ 64 }
    ensures read { TextRead text.old text.new (take result.0 piece.now)
        (flat_map word_cells (take result.1 words.new)) }
    ensures unchanged { result.0 ≡ 0 → text.new ≡ text.old }
{
    let count = text.feed_lines(piece, words);
    if count == 0 {
        return feed_any_lines(text, piece, words);
    }
    (LINE_LEN * count, count)
}

/// Whether text begins with eight cells; if not, there is no need to look at 64. Most text in short
/// lines never does, so the jump that depends on it is predicted.
fn begins_with_cells(text: &[u8]) -> bool {
    match text.first_chunk() {
        Some(bytes) => u64::from_le_bytes(*bytes) & !LEVEL_BITS == CELL_BYTES,
        None => false,
    }
}

/// Whether text begins with 64 cells.
fn is_line(text: &[u8]) -> bool
    ensures { IsTrue result → length (cells_of_text (take 64 text.now)) ≡ 64 }
{
    match text.first_chunk() {
        Some(bytes) => word_of_text(bytes).is_some(),
        None => false,
    }
}

/// Whether a line of 64 cells begins at a place of a piece: a line feed is before it, and a
/// separator after it. If chunks end there, the lines after it are read as lines. Chunks of 64
/// bytes and lines of 65 meet within 65 chunks.
#[inline(always)]
pub(crate) fn begins_line(piece: &[u8], at: usize) -> bool
    requires within { at ≤ length piece.now }
    ensures { IsTrue result → LineBegins piece.now at }
{
    at > 0
        && piece.len() - at > LINE_CELLS
        && (piece[at - 1] == b'\n') & begins_with_cells(&piece[at..])
        && is_separator(piece[at + LINE_CELLS])
        && is_line(&piece[at..])
}

/// The place of two lines of 64 cells in a row. They begin after the first line feed of a text, at
/// most a line from its beginning. Only the bytes before that place are then read one by one. If
/// lines of 64 cells alternate with others, there is no such place.
pub(crate) fn two_lines_behind(text: &[u8]) -> Option<usize>
    ensures first { IfSome result (λ at. LineBegins text.now at) }
    ensures second { IfSome result (λ at. LineBegins text.now (at + 65)) }
{
    for (i, byte) in text.iter().enumerate() {
        if *byte == b'\n' {
            let at = i + 1;
            let both = text.len() >= at + LINE_LEN
                && begins_line(text, at)
                && begins_line(text, at + LINE_LEN);
            return both.then_some(at);
        }
        if i == LINE_CELLS {
            return None;
        }
    }
    None
}

/// No cells.
fn no_cells() -> SomeCells
    ensures { result.len ≡ 0 }
{
    SomeCells { word: 0, len: 0 }
}

/// Some cells followed by others.
#[derive(Drop)]
struct Joined {
    /// Whether they fill a word.
    full: bool,
    /// The word, if they fill one.
    word: u64,
    /// The cells after the word, or all.
    rest: SomeCells,
}

/// Joins cells and the cells after them.
#[inline(always)]
fn join(front: SomeCells, back: SomeCells) -> Joined
    requires few { front.len < 64 }
    ensures cells { (if result.full then word_cells result.word else [])
        ++ low_cells result.rest.len result.rest.word
        ≡ low_cells front.len front.word ++ low_cells back.len back.word }
    ensures few { result.rest.len < 64 }
{
    let word = front.word | back.word << front.len;
    let len = front.len + back.len;
    if len < u64::BITS {
        let rest = SomeCells { word, len };
        return Joined {
            full: false,
            word,
            rest,
        };
    }
    // No shift reaches 64.
    let behind = back.word >> 1 >> (63 - front.len);
    let rest = SomeCells {
        word: behind,
        len: len - u64::BITS,
    };
    Joined {
        full: true,
        word,
        rest,
    }
}

/// The front of a piece of cell text that a reader has taken.
#[derive(Drop)]
pub struct TextFront {
    /// How many bytes it has.
    pub bytes: usize,
    /// How many words its cells make.
    pub count: usize,
    /// The cells after these words.
    pub rest: SomeCells,
}

/// Takes the first 64 bytes of a piece and returns their cells, if all are cells or separators;
/// else takes none.
#[inline(always)]
fn feed_chunk(text: &mut CellText, piece: &[u8]) -> Option<SomeCells>
    requires { text.old.seen + length piece.now ≤ 2 ^ 40 }
    ensures bound { OnSome result (64 ≤ length piece.now) }
    ensures read { IfSome result (λ cells. TextRead text.old text.new (take 64 piece.now)
        (low_cells cells.len cells.word)) }
    ensures unchanged { IfNone result (text.new ≡ text.old) }
{
    match piece.first_chunk() {
        Some(bytes) => text.feed_scattered(bytes),
        None => None,
    }
}

/// Takes chunks of 64 bytes, all cells or separators, from the front of a piece. It stops where a
/// line of 64 cells begins, or when it has as many words as fit.
fn feed_chunks(text: &mut CellText, piece: &[u8], words: &mut [u64; LINES]) -> TextFront
    requires { text.old.seen + length piece.now ≤ 2 ^ 40 }
    ensures within { result.bytes ≤ length piece.now }
    ensures few { result.count ≤ 64 }
    ensures len { length words.new ≡ 64 }
    ensures read { TextRead text.old text.new (take result.bytes piece.now)
        (flat_map word_cells (take result.count words.new)
        ++ low_cells result.rest.len result.rest.word) }
    ensures unchanged { result.bytes ≡ 0 → text.new ≡ text.old }
{
    let mut bytes = 0;
    let mut count = 0;
    let mut rest = no_cells();
    while count < LINES && !begins_line(piece, bytes) {
        match feed_chunk(text, &piece[bytes..]) {
            Some(cells) => {
                let more = join(rest, cells);
                words[count] = more.word;
                count += usize::from(more.full);
                rest = more.rest;
                bytes += 64;
            }
            None => return TextFront { bytes, count, rest },
        }
    }
    TextFront { bytes, count, rest }
}

/// Takes the lines of 64 cells at the front of a piece, or the chunks of 64 bytes if no such line
/// is near.
fn feed_lines_or_chunks(text: &mut CellText, piece: &[u8], words: &mut [u64; LINES]) -> TextFront
    requires { text.old.seen + length piece.now ≤ 2 ^ 40 }
    ensures within { result.bytes ≤ length piece.now }
    ensures few { result.count ≤ 64 }
    ensures len { length words.new ≡ 64 }
    ensures read { TextRead text.old text.new (take result.bytes piece.now)
        (flat_map word_cells (take result.count words.new)
        ++ low_cells result.rest.len result.rest.word) }
    ensures unchanged { result.bytes ≡ 0 → text.new ≡ text.old }
{
    let (bytes, count) = feed_lines(text, piece, words);
    if bytes == 0 && two_lines_behind(piece).is_none() {
        return feed_chunks(text, piece, words);
    }
    TextFront {
        bytes,
        count,
        rest: no_cells(),
    }
}

/// Appends the cell of one more byte, unless it is a separator. No jump depends on which it is,
/// since line ends can't be predicted. Bit 4 is set only in the bytes of cells, bit 5 in those and
/// a space, and bit 0 is the level.
fn with_cell_of(cells: SomeCells, byte: u8) -> SomeCells
    requires few { cells.len < 64 }
    requires good { is_good_byte byte ≡ true }
    ensures { low_cells result.len result.word
        ≡ low_cells cells.len cells.word ++ byte_cells byte }
{
    let high = byte & (byte >> 5) & 1;
    let count = (byte >> 4) & 1;
    SomeCells {
        word: cells.word | u64::from(high) << cells.len,
        len: cells.len + u32::from(count),
    }
}

/// Takes one more byte, and appends its cell to the others.
fn with_byte(text: &mut CellText, cells: SomeCells, byte: u8) -> Result<SomeCells, BadCell>
    requires room { text.old.seen < 2 ^ 40 }
    requires few { cells.len < 64 }
    ensures read { IfOk result (λ _. TextRead text.old text.new (byte ∷ []) (byte_cells byte)) }
    ensures cells { IfOk result (λ more. low_cells more.len more.word
        ≡ low_cells cells.len cells.word ++ byte_cells byte) }
    ensures fault { IfErr result (λ fault. Err fault ≡ text_answer text.old byte) }
    ensures unchanged { OnErr result (text.new ≡ text.old) }
{
    text.feed_byte(byte)?;
    Ok(with_cell_of(cells, byte))
}

/// Takes bytes from the front of a piece, until they have 64 cells or a line of 64 cells begins. It
/// also stops at a byte that is neither a cell nor a separator. Returns the number of bytes, and
/// their cells.
fn feed_some(text: &mut CellText, piece: &[u8]) -> Result<(usize, SomeCells), BadCell>
    requires some { 0 < length piece.now }
    requires room { text.old.seen + length piece.now ≤ 2 ^ 40 }
    ensures within { IfOk result (λ taken. (0 < taken.0) × (taken.0 ≤ length piece.now)) }
    ensures read { IfOk result (λ taken. TextRead text.old text.new (take taken.0 piece.now)
        (low_cells taken.1.len taken.1.word)) }
    ensures fault { IfErr result (λ fault. Err fault
        ≡ text_answer text.old (slice_index piece.now 0)) }
    ensures unchanged { OnErr result (text.new ≡ text.old) }
{
    let mut cells = with_byte(text, SomeCells { word: 0, len: 0 }, piece[0])?;
    let mut at = 1;
    while at < piece.len() && cells.len < u64::BITS && !begins_line(piece, at) {
        match with_byte(text, cells, piece[at]) {
            Ok(more) => {
                cells = more;
                at += 1;
            }
            Err(_) => return Ok((at, cells)),
        }
    }
    Ok((at, cells))
}

/// Takes at most 64 cells from the front of a piece, with any separators between and after them.
/// Returns the number of bytes, and the cells.
fn feed_cells(text: &mut CellText, piece: &[u8]) -> Result<(usize, SomeCells), BadCell>
    requires some { 0 < length piece.now }
    requires room { text.old.seen + length piece.now ≤ 2 ^ 40 }
    ensures within { IfOk result (λ taken. (0 < taken.0) × (taken.0 ≤ length piece.now)) }
    ensures read { IfOk result (λ taken. TextRead text.old text.new (take taken.0 piece.now)
        (low_cells taken.1.len taken.1.word)) }
    ensures fault { IfErr result (λ fault. Err fault
        ≡ text_answer text.old (slice_index piece.now 0)) }
    ensures unchanged { OnErr result (text.new ≡ text.old) }
{
    let (taken, cells) = feed_some(text, piece)?;
    let separators = skip_separators(text, &piece[taken..]);
    Ok((taken + separators, cells))
}
