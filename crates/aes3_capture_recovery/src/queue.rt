//! A queue of cells for a sink.

/// The numbers of a queue.
mod parts;

ghost use Rattle.std.specs.Prelude.{ℕ, ◌+◌, ◌<◌, ◌≤◌, ◌^◌, ◌≡◌, ◌++◌, [], List, get_or, length, take, replicate};
ghost use Rattle.std.specs.Prelude.{IfOk, OnErr};
ghost use Rattle.aes3_level.specs.declared.level.Level.{Level};
ghost use Rattle.aes3_level.specs.Cells.{line, other};
ghost use Rattle.aes3_cell.specs.Packed.{octets_needed, packed_of};
ghost use Rattle.aes3_cell.specs.Text.{line_text};
ghost use Rattle.aes3_level.specs.Words.{low_cells, word_cells};
ghost use Rattle.aes3_cell.specs.Writes.{Wrote};
ghost use Rattle.aes3_capture_recovery.specs.Endings.{ending_of, level_if};

use aes3_cell::{Fault, Form, Sink, line_of_word, octets_of_word, put_words, write_all};
pub use parts::QueueParts;

/// How many words of cells are written at once.
const WORDS: usize = 16;

/// How many cells are taken at once.
const FEW: u64 = 32;

/// Gathers cells into words of 64, and writes these.
#[derive(Drop)]
pub struct CellQueue {
    form: Form,
    words: [u64; WORDS],
    count: usize,
    word: u64,
    len: u32,
    ghost words_left: { count < 16 },
    ghost cells_left: { len < 64 },
    ghost no_more: { word < 2 ^ len },
}

impl CellQueue {
    ghost use Rattle.aes3_capture_recovery.specs.Queues.{Finishes, Puts, waiting};

    /// A queue without cells.
    pub fn new(form: Form) -> Self
        ensures none { waiting result ≡ [] }
        ensures form { result.form ≡ form }
    {
        CellQueue {
            form,
            words: [0; WORDS],
            count: 0,
            word: 0,
            len: 0,
        }
    }

    /// How many cells wait to be written.
    pub(crate) fn cells_waiting(&self) -> u32
        ensures { result ≡ length (waiting self.now) }
    {
        self.count as u32 * 64 + self.len
    }

    /// Takes some cells of one level, and writes the whole words once there are many.
    ///
    /// # Errors
    /// The sink's fault.
    #[inline(always)]
    pub fn put<T: Sink>(&mut self, sink: &mut T, high: bool, cells: u64) -> Result<(), Fault>
        requires room { T.failed sink.old + 1 < 2 ^ 64 }
        ensures no_failure { IfOk result (λ _. T.failed sink.new ≡ T.failed sink.old) }
        ensures one_failure { OnErr result (T.failed sink.new ≡ T.failed sink.old + 1) }
        ensures cells { Puts T.taken self.old self.new sink.old sink.new result
            (replicate cells (level_if high)) }
    {
        let mut left = cells;
        while left > FEW {
            self.put_few(sink, high, FEW as u32)?;
            left -= FEW;
        }
        self.put_few(sink, high, left as u32)
    }

    /// Takes a few cells of one level.
    #[inline(always)]
    fn put_few<T: Sink>(&mut self, sink: &mut T, high: bool, cells: u32) -> Result<(), Fault>
        requires few { cells ≤ 32 }
        requires room { T.failed sink.old + 1 < 2 ^ 64 }
        ensures no_failure { IfOk result (λ _. T.failed sink.new ≡ T.failed sink.old) }
        ensures one_failure { OnErr result (T.failed sink.new ≡ T.failed sink.old + 1) }
        ensures cells { Puts T.taken self.old self.new sink.old sink.new result
            (replicate cells (level_if high)) }
    {
        self.put_bits(sink, bits_of_cells(high, cells), cells)
    }

    /// Takes cells from the lowest bits of a word, the first in the lowest bit.
    ///
    /// # Errors
    /// The sink's fault.
    #[inline(always)]
    pub(crate) fn put_bits<T: Sink>(
        &mut self,
        sink: &mut T,
        bits: u64,
        count: u32,
    ) -> Result<(), Fault>
        requires few { count ≤ 48 }
        requires no_more { bits < 2 ^ count }
        requires room { T.failed sink.old + 1 < 2 ^ 64 }
        ensures no_failure { IfOk result (λ _. T.failed sink.new ≡ T.failed sink.old) }
        ensures one_failure { OnErr result (T.failed sink.new ≡ T.failed sink.old + 1) }
        ensures cells { Puts T.taken self.old self.new sink.old sink.new result (low_cells count bits) }
    {
        let word = self.word | bits << self.len;
        let len = self.len + count;
        if len < 64 {
            self.word = word;
            self.len = len;
            return Ok(());
        }
        // The cells that did not fit.
        let rest = bits >> (64 - self.len);
        self.end_word(sink, word, rest, len - 64)
    }

    /// Takes a whole word, and the first cells of the next word.
    fn end_word<T: Sink>(
        &mut self,
        sink: &mut T,
        word: u64,
        rest: u64,
        len: u32,
    ) -> Result<(), Fault>
        requires few { len < 64 }
        requires no_more { rest < 2 ^ len }
        requires room { T.failed sink.old + 1 < 2 ^ 64 }
        ensures no_failure { IfOk result (λ _. T.failed sink.new ≡ T.failed sink.old) }
        ensures one_failure { OnErr result (T.failed sink.new ≡ T.failed sink.old + 1) }
        ensures cells { (added : List Level)
            → low_cells self.old.len self.old.word ++ added ≡ word_cells word ++ low_cells len rest
            → Puts T.taken self.old self.new sink.old sink.new result added }
    {
        self.words[self.count] = word;
        self.word = rest;
        self.len = len;
        if self.count + 1 < WORDS {
            self.count += 1;
            Ok(())
        } else {
            self.count = 0;
            put_words(self.form, &self.words, sink)
        }
    }

    /// Writes the words that are whole.
    ///
    /// # Errors
    /// The sink's fault.
    pub fn pass_on<T: Sink>(&mut self, sink: &mut T) -> Result<(), Fault>
        requires room { T.failed sink.old + 1 < 2 ^ 64 }
        ensures no_failure { IfOk result (λ _. T.failed sink.new ≡ T.failed sink.old) }
        ensures one_failure { OnErr result (T.failed sink.new ≡ T.failed sink.old + 1) }
        ensures cells { Puts T.taken self.old self.new sink.old sink.new result [] }
        ensures few { waiting self.new ≡ low_cells self.new.len self.new.word }
    {
        let count = self.count;
        self.count = 0;
        put_words(self.form, &self.words[..count], sink)
    }

    /// Writes the cells that are left, and in packed form the last octet, the number of unused
    /// cells.
    ///
    /// # Errors
    /// The sink's fault.
    pub fn finish<T: Sink>(&mut self, sink: &mut T) -> Result<(), Fault>
        requires room { T.failed sink.old + 1 < 2 ^ 64 }
        ensures no_failure { IfOk result (λ _. T.failed sink.new ≡ T.failed sink.old) }
        ensures one_failure { OnErr result (T.failed sink.new ≡ T.failed sink.old + 1) }
        ensures cells { Finishes T.taken self.old sink.old sink.new result }
    {
        self.pass_on(sink)?;
        put_last(self.form, self.word, self.len, sink)
    }
}

/// Writes the cells after the last whole word, the first in the lowest bit. In packed form it also
/// writes the last octet, the number of unused cells.
///
/// # Errors
/// The sink's fault; then it has taken a front of the bytes.
pub fn put_last<T: Sink>(form: Form, word: u64, len: u32, sink: &mut T) -> Result<(), Fault>
    requires few { len < 64 }
    requires no_more { word < 2 ^ len }
    requires room { T.failed sink.old + 1 < 2 ^ 64 }
    ensures { Wrote T.taken T.failed sink.old sink.new (ending_of form (low_cells len word)) result }
{
    match form {
        Form::Text if len == 0 => Ok(()),
        Form::Text => write_all(sink, &last_line_of(word, len)[..len as usize + 1]),
        Form::Packed => {
            let octets = len.div_ceil(8) as usize;
            write_all(sink, &last_octets(word, len)[..octets + 1])
        }
    }
}

/// The word whose lowest bits are `cells` cells of one level.
#[inline(always)]
pub fn bits_of_cells(high: bool, cells: u32) -> u64
    requires { cells ≤ 32 }
    ensures cells { low_cells cells result ≡ replicate cells (level_if high) }
    ensures no_more { result < 2 ^ cells }
{
    if high { (1u64 << cells) - 1 } else { 0 }
}

/// The cells of at most sixteen runs as the lowest bits of a word, and their number. The first run
/// has this level, and each has at most three cells.
///
/// It inverts all later cells at the end of each run, which takes fewer steps than placing the
/// cells of each.
#[inline(always)]
pub fn bits_of_runs(high: bool, runs: &[u32]) -> (u64, u32)
    requires few { length runs.now ≤ 16 }
    requires short { (i : ℕ) → i < length runs.now → get_or runs.now i 0 ≤ 3 }
    ensures cells { (before : Level) → level_if high ≡ other before → low_cells result.1 result.0 ≡ line before runs.now }
    ensures no_more { result.0 < 2 ^ result.1 }
    ensures most { result.1 ≤ 48 }
{
    let mut levels = if high { u64::MAX } else { 0 };
    let mut len = 0;
    for i in 0..runs.len() {
        len += runs[i];
        levels ^= u64::MAX << len;
    }
    (levels & ((1u64 << len) - 1), len)
}

/// The line of text of the cells left, at the front.
fn last_line_of(word: u64, len: u32) -> [u8; 65]
    requires few { len < 64 }
    ensures { take (len + 1) result ≡ line_text (low_cells len word) }
{
    let mut line = line_of_word(word);
    line[len as usize] = b'\n';
    line
}

/// The octets of the cells left and the last octet, at the front.
fn last_octets(word: u64, len: u32) -> [u8; 9]
    requires few { len < 64 }
    requires no_more { word < 2 ^ len }
    ensures { take (octets_needed len + 1) result ≡ packed_of (low_cells len word) }
{
    let needed = len.div_ceil(8);
    let mut octets = [0; 9];
    octets[..8].copy_from_slice(&octets_of_word(word));
    octets[needed as usize] = (8 * needed - len) as u8;
    octets
}
