//! The cells of a block that was read from a line.

ghost use Rattle.std.specs.Prelude.{◌≡◌, ◌<◌, ◌+◌, ◌^◌, map, take, true};
ghost use Rattle.std.specs.List.{flat_map};
ghost use Rattle.aes3_level.specs.Cells.{line, other};
ghost use Rattle.aes3_cell.specs.Writes.{Wrote};
ghost use Rattle.aes3_level.specs.Words.{word_cells};
ghost use Rattle.aes3_cell.specs.Written.{bytes_of};
ghost use Rattle.aes3_slot.specs.ReadWords.{read_word, read_words};
ghost use Rattle.aes3_slot.specs.Reading.{same};
ghost use Rattle.aes3_slot.specs.Slots.{payload_len, subframe_runs};
ghost use Rattle.aes3_frame.specs.Blocks.{block_cells};

use aes3_cell::{Fault, Form, Level, Sink, put_words};
use aes3_frame::{GatheredCells, PAYLOAD_LIMIT, SUBFRAMES, wrong_in};
use aes3_slot::{Mark, mark_of, slot_bits, subframe_cells};

/// A subframe's cells, inverted if `inverted` is true.
fn invert_if(inverted: bool, cells: u64) -> u64
    ensures { read_word result ≡ read_word cells }
{
    if inverted { !cells } else { cells }
}

/// Whether a subframe's cells are inverted, so that the first one does not differ from the level
/// `before`.
fn is_inverted(before: Level, cells: u64) -> bool {
    (cells % 2 == 1) != (before == Level::Low)
}

/// The cells of the subframe with this preamble after the level `before`, with the payload that
/// these cells carry.
fn renew(before: Level, mark: Mark, cells: u64) -> u64
    ensures { word_cells result ≡ line before (subframe_runs mark
        (take payload_len (read_word cells))) }
{
    let same = invert_if(is_inverted(before, cells), cells);
    if wrong_in(before, mark, same) == 0 {
        return same;
    }
    subframe_cells(before, mark, slot_bits(cells) % PAYLOAD_LIMIT)
}

/// Puts the cells of the block of these subframes into `cells`, after the level `before`. It makes
/// new cells for a subframe where needed.
fn renew_each(before: Level, words: &[u64; SUBFRAMES], cells: &mut [u64; SUBFRAMES])
    ensures { flat_map word_cells cells.new ≡ block_cells before
        (map (take payload_len) (read_words words.now)) }
{
    for (subframe, word) in words.iter().enumerate() {
        cells[subframe] = renew(before, mark_of(subframe as u64), *word);
    }
}

/// Puts the cells of the subframes into `cells`, all inverted if the first are. Returns whether
/// they are then the cells of their block after the level `before`.
fn turn_all(before: Level, words: &[u64; SUBFRAMES], cells: &mut [u64; SUBFRAMES]) -> bool
    ensures { result ≡ true → flat_map word_cells cells.new
        ≡ block_cells before (map (take payload_len) (read_words words.now)) }
{
    let inverted = is_inverted(before, words[0]);
    let mut wrong = 0;
    for (subframe, word) in words.iter().enumerate() {
        let same = invert_if(inverted, *word);
        cells[subframe] = same;
        wrong |= wrong_in(before, mark_of(subframe as u64), same);
    }
    wrong == 0
}

/// Puts the cells of the block of these subframes into `cells`, after the level `before`.
fn fill_read_cells(before: Level, words: &[u64; SUBFRAMES], cells: &mut [u64; SUBFRAMES])
    ensures { flat_map word_cells cells.new ≡ block_cells before
        (map (take payload_len) (read_words words.now)) }
{
    if !turn_all(before, words, cells) {
        renew_each(before, words, cells);
    }
}

/// Writes the cells of the block of these subframes, after the level `before`.
fn put_renewed<T: Sink>(
    form: Form,
    before: Level,
    words: &[u64; SUBFRAMES],
    sink: &mut T,
) -> Result<(), Fault>
    requires room { T.failed sink.old + 1 < 2 ^ 64 }
    ensures { Wrote T.taken T.failed sink.old sink.new
        (bytes_of form (block_cells before (map (take payload_len) (read_words words.now))))
        result }
{
    let mut cells = [0; SUBFRAMES];
    fill_read_cells(before, words, &mut cells);
    put_words(form, &cells, sink)
}

/// Whether two levels are equal.
fn are_equal(first: Level, second: Level) -> bool
    ensures { result ≡ same first second }
{
    first == second
}

/// The cells of a word, inverted.
fn invert(cells: u64) -> u64
    ensures { word_cells result ≡ map other (word_cells cells) }
{
    !cells
}

/// Puts the words into `cells`, with all cells inverted.
fn invert_all(words: &[u64; SUBFRAMES], cells: &mut [u64; SUBFRAMES])
    ensures { flat_map word_cells cells.new ≡ map other (flat_map word_cells words.now) }
{
    for (subframe, word) in words.iter().enumerate() {
        cells[subframe] = invert(*word);
    }
}

/// Writes words of cells, with all cells inverted.
fn put_inverted<T: Sink>(form: Form, words: &[u64; SUBFRAMES], sink: &mut T) -> Result<(), Fault>
    requires room { T.failed sink.old + 1 < 2 ^ 64 }
    ensures { Wrote T.taken T.failed sink.old sink.new
        (bytes_of form (map other (flat_map word_cells words.now))) result }
{
    let mut cells = [0; SUBFRAMES];
    invert_all(words, &mut cells);
    put_words(form, &cells, sink)
}

/// Writes the cells of the block whose payloads these subframes carry after the level `before`: the
/// bytes of the form without its ending.
///
/// It is `put_block` of `Block::of_cells`. But it gathers no bits of a subframe that is right in
/// either polarity. If the cells are known to be right, it writes them as they came, or all
/// inverted.
///
/// # Errors
/// The sink's fault; then it has taken a front of the bytes.
pub fn put_read_block<T: Sink>(
    form: Form,
    before: Level,
    gathered: &GatheredCells,
    sink: &mut T,
) -> Result<(), Fault>
    requires room { T.failed sink.old + 1 < 2 ^ 64 }
    ensures { Wrote T.taken T.failed sink.old sink.new
        (bytes_of form (block_cells before (map (take payload_len) (read_words gathered.now))))
        result }
{
    let kept = gathered.words();
    let Some(level) = gathered.level_before() else {
        return put_renewed(form, before, kept, sink);
    };
    if are_equal(level, before) {
        put_words(form, kept, sink)
    } else {
        put_inverted(form, kept, sink)
    }
}
