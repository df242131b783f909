//! Takers of cells, and the run that passes the cells of an input to them.

ghost use Rattle.std.specs.Prelude.{◌≡◌, ◌+◌, ◌*◌, ◌<◌, ◌≤◌, ◌^◌, ◌++◌, List, [], ◌∷◌, length};
ghost use Rattle.std.specs.Prelude.{IfOk, OnErr};
ghost use Rattle.std.specs.List.{flat_map};
ghost use Rattle.aes3_level.specs.declared.level.Level.{Level};
ghost use Rattle.aes3_cell.specs.Ends.{Grew, GrewFront};
ghost use Rattle.aes3_level.specs.Remaining.{all_of};
ghost use Rattle.aes3_level.specs.Words.{cells_in, low_cells, word_cells};
ghost use Rattle.aes3_input.specs.Forms.{CellsRan, SomeCellsRan};
ghost use Rattle.aes3_input.specs.Taking.{TakerState};
ghost use Rattle.aes3_input.specs.Running.{ends_of, movement_of};
ghost use Rattle.aes3_input.specs.Driving.{Drive};

use crate::conversion::convert;
use crate::packed_input::PackedInput;
use crate::text_input::TextInput;
use aes3_cell::{Fault, Form, Level, RunError, Sink, Source};
use aes3_level::Cells;

/// Takes the cells of an input, in runs of words or in one word with fewer cells, and their end.
///
/// The contract speaks of its state at one moment (`state`): of what cells write (`writes`), of the
/// cells that it has taken (`follows`), and of what holds after the end (`finished`). After a fault
/// or the end it follows no cells.
pub trait Taker {
    ghost state: { Self → TakerState Level };

    /// Takes the first of the cells, at least one.
    ///
    /// # Errors
    /// The sink's fault; then it has taken a front of what all the cells write.
    fn take<T: Sink>(&mut self, sink: &mut T, cells: &mut Cells<'_>) -> Result<(), Fault>
        requires some { 0 < length (all_of cells.old) }
        requires room { T.failed sink.old + 1 < 2 ^ 64 }
        requires following { (c : List Level) × (length c + length (all_of cells.old) ≤ 2 ^ 43)
            × (state self.old).follows c }
        ensures ran { SomeCellsRan (state self.old) (state self.new) (all_of cells.old)
            (all_of cells.new) (movement_of T.taken T.failed sink.old sink.new) result };

    /// Takes the end of the cells.
    ///
    /// # Errors
    /// The sink's fault; then it has taken a front of what the end writes.
    fn finish<T: Sink>(&mut self, sink: &mut T) -> Result<(), Fault>
        requires room { T.failed sink.old + 1 < 2 ^ 64 }
        requires following { (c : List Level) × (length c ≤ 2 ^ 43) × (state self.old).follows c }
        ensures done { IfOk result (λ _. (c : List Level) → (state self.old).follows c
            → (state self.new).finished c) }
        ensures grew { IfOk result (λ _. (c : List Level) → (state self.old).follows c
            → Grew (T.taken sink.old) (T.taken sink.new) ((state self.old).writes.ends c)) }
        ensures no_failure { IfOk result (λ _. T.failed sink.new ≡ T.failed sink.old) }
        ensures one_failure { OnErr result (T.failed sink.new ≡ T.failed sink.old + 1) }
        ensures err_grew { OnErr result ((c : List Level) → (state self.old).follows c
            → GrewFront (T.taken sink.old) (T.taken sink.new) ((state self.old).writes.ends c)) };
}

/// Takes the first `len` cells of words, 64 in each word, the first in the lowest bit.
///
/// # Errors
/// The sink's fault; then it has taken a front of what the cells write.
pub(crate) fn take_all<K: Taker, T: Sink>(
    taker: &mut K,
    sink: &mut T,
    words: &[u64],
    len: usize,
) -> Result<(), Fault>
    requires within { len ≤ 64 * length words.now }
    requires room { T.failed sink.old + 1 < 2 ^ 64 }
    requires following { (c : List Level) × (length c + len ≤ 2 ^ 43)
        × (K.state taker.old).follows c }
    ensures ran { CellsRan (K.state taker.old) (K.state taker.new) (cells_in words.now 0 len)
        (movement_of T.taken T.failed sink.old sink.new) result }
{
    let mut cells = Cells::of_words(words, 0, len);
    while !cells.is_empty() {
        taker.take(sink, &mut cells)?;
    }
    Ok(())
}

/// Takes `len` more cells, the first in the lowest bit of `word`.
///
/// # Errors
/// The sink's fault; then it has taken a front of what the cells write.
pub(crate) fn cells<K: Taker, T: Sink>(
    taker: &mut K,
    sink: &mut T,
    word: u64,
    len: u32,
) -> Result<(), Fault>
    requires few { len ≤ 64 }
    requires room { T.failed sink.old + 1 < 2 ^ 64 }
    requires following { (c : List Level) × (length c + len ≤ 2 ^ 43)
        × (K.state taker.old).follows c }
    ensures ran { CellsRan (K.state taker.old) (K.state taker.new) (low_cells len word)
        (movement_of T.taken T.failed sink.old sink.new) result }
{
    take_all(taker, sink, &[word], len as usize)
}

/// Takes 64 more cells for each word.
///
/// # Errors
/// The sink's fault; then it has taken a front of what the cells write.
fn whole_words<K: Taker, T: Sink>(taker: &mut K, sink: &mut T, words: &[u64]) -> Result<(), Fault>
    requires room { T.failed sink.old + 1 < 2 ^ 64 }
    requires following { (c : List Level) × (length c + 64 * length words.now ≤ 2 ^ 43)
        × (K.state taker.old).follows c }
    ensures ran { CellsRan (K.state taker.old) (K.state taker.new) (flat_map word_cells words.now)
        (movement_of T.taken T.failed sink.old sink.new) result }
{
    take_all(taker, sink, words, 64 * words.len())
}

/// Takes 64 more cells for each word, and then `len` of one more word.
///
/// # Errors
/// The sink's fault; then it has taken a front of what the cells write.
pub(crate) fn words_and_cells<K: Taker, T: Sink>(
    taker: &mut K,
    sink: &mut T,
    words: &[u64],
    word: u64,
    len: u32,
) -> Result<(), Fault>
    requires few { len ≤ 64 }
    requires room { T.failed sink.old + 1 < 2 ^ 64 }
    requires following { (c : List Level) × (length c + 64 * length words.now + len ≤ 2 ^ 43)
        × (K.state taker.old).follows c }
    ensures ran { CellsRan (K.state taker.old) (K.state taker.new)
        (flat_map word_cells words.now ++ low_cells len word)
        (movement_of T.taken T.failed sink.old sink.new) result }
{
    whole_words(taker, sink, words)?;
    cells(taker, sink, word, len)
}

/// Takes one more cell.
///
/// # Errors
/// The sink's fault; then it has taken a front of what the cell writes.
pub fn cell<K: Taker, T: Sink>(taker: &mut K, sink: &mut T, level: Level) -> Result<(), Fault>
    requires room { T.failed sink.old + 1 < 2 ^ 64 }
    requires following { (c : List Level) × (length c + 1 ≤ 2 ^ 43)
        × (K.state taker.old).follows c }
    ensures next { IfOk result (λ _. (c : List Level) → (K.state taker.old).follows c
        → (K.state taker.new).follows (c ++ level ∷ [])) }
    ensures unchanged { IfOk result (λ _. (K.state taker.new).writes ≡ (K.state taker.old).writes) }
    ensures grew { IfOk result (λ _. (c : List Level) → (K.state taker.old).follows c
        → Grew (T.taken sink.old) (T.taken sink.new) ((K.state taker.old).writes.adds c level)) }
    ensures no_failure { IfOk result (λ _. T.failed sink.new ≡ T.failed sink.old) }
    ensures one_failure { OnErr result (T.failed sink.new ≡ T.failed sink.old + 1) }
    ensures err_grew { OnErr result ((c : List Level) → (K.state taker.old).follows c
        → GrewFront (T.taken sink.old) (T.taken sink.new)
        ((K.state taker.old).writes.adds c level)) }
{
    cells(taker, sink, word_of_cell(level), 1)
}

/// Takes 64 more cells, the first in the lowest bit of `word`.
///
/// # Errors
/// The sink's fault; then it has taken a front of what the cells write.
pub fn word<K: Taker, T: Sink>(taker: &mut K, sink: &mut T, word: u64) -> Result<(), Fault>
    requires room { T.failed sink.old + 1 < 2 ^ 64 }
    requires following { (c : List Level) × (length c + 64 ≤ 2 ^ 43)
        × (K.state taker.old).follows c }
    ensures ran { CellsRan (K.state taker.old) (K.state taker.new) (word_cells word)
        (movement_of T.taken T.failed sink.old sink.new) result }
{
    cells(taker, sink, word, u64::BITS)
}

/// The word of a single cell.
fn word_of_cell(level: Level) -> u64
    ensures { low_cells 1 result ≡ level ∷ [] }
{
    match level {
        Level::Low => 0,
        Level::High => 1,
    }
}

/// Passes the cells of an input to the taker as they come, one by one or in words, and then its
/// end. Returns how many bytes and cells the input has.
///
/// # Errors
/// - `BadCell` if a byte of cell text is neither a cell nor a separator.
/// - `BadPadding` if packed cells end wrongly.
/// - `TooLong` if the input has more than `max_bytes` bytes.
/// - `Read` and `Write` if the input or output failed.
///
/// Unless the sink failed, the taker has then taken the cells before, but no end. Of packed cells
/// these are those of all octets but the last two. At most `max_bytes + 1` bytes are read.
pub fn drive<S: Source, T: Sink, K: Taker>(
    source: &mut S,
    sink: &mut T,
    max_bytes: u64,
    input: Form,
    taker: &mut K,
) -> Result<(u64, u64), RunError>
    requires source_room { S.failed source.old + 1 < 2 ^ 64 }
    requires sink_room { T.failed sink.old + 1 < 2 ^ 64 }
    requires limit { max_bytes ≤ 2 ^ 40 }
    requires start { (K.state taker.old).follows [] }
    ensures { Drive max_bytes input (K.state taker.old).writes (K.state taker.new).follows
        (K.state taker.new).finished
        (ends_of S.Source source.old source.new T.Sink sink.old sink.new) result }
{
    match input {
        Form::Text => {
            let mut text = TextInput::new();
            let bytes = convert(source, sink, max_bytes, &mut text, taker)?;
            Ok((bytes, text.cells))
        }
        Form::Packed => {
            let mut packed = PackedInput::new();
            let bytes = convert(source, sink, max_bytes, &mut packed, taker)?;
            Ok((bytes, packed.cells))
        }
    }
}
