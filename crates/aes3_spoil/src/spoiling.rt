//! Cells written again, with errors.

ghost use Rattle.std.specs.Prelude.{◌≡◌, ℕ, ◌+◌, ◌%◌, ◌<◌, ◌≤◌, ◌^◌, ◌∷◌, [], List, length, IfOk};
ghost use Rattle.std.specs.Prelude.{map, not, replicate, if◌then◌else◌, ◌≢◌};
ghost use Rattle.aes3_level.specs.declared.level.Level.{Level};
ghost use Rattle.aes3_level.specs.Words.{level_of, low_cells};
ghost use Rattle.aes3_cell.specs.Ends.{Grew, Told};
ghost use Rattle.aes3_cell.specs.Written.{bytes_of};
ghost use Rattle.aes3_capture_recovery.specs.Endings.{finished};
ghost use Rattle.aes3_input.specs.Driving.{CellRun};
ghost use Rattle.aes3_input.specs.Forms.{CellsRan};
ghost use Rattle.aes3_input.specs.Inputs.{cells_of};
ghost use Rattle.aes3_input.specs.Running.{ends_of, movement_of};
ghost use Rattle.aes3_spoil.specs.Spoiled.{is_odd, level_inverted, spoiled, times};
ghost use Rattle.aes3_spoil.specs.Spoiling.{Spoils, spoil_counts, spoiler_state, spoiling};
ghost use Rattle.aes3_spoil.specs.Spoiling.{whole_words};

use crate::cells_out::CellsOut;
use crate::errors::Errors;
use crate::kinds::ErrorKind;
use aes3_capture_recovery::bits_of_cells;
use aes3_cell::{Counts, Fault, Form, RunError, Sink, Source};
use aes3_input::{Taker, drive};
use aes3_level::Cells;

/// Writes the cells that it takes, with errors.
#[derive(Drop)]
struct Spoiler {
    errors: Errors,
    /// The number of the next cell.
    place: u64,
    /// Whether all cells from here on are inverted.
    inverted: bool,
    /// For how many cells from here on there is no error at any of them.
    clear: u64,
    out: CellsOut,
}

/// The first cells of a word, all inverted if `is_inverted` is true.
#[inline(always)]
fn front_of(word: u64, len: u32, is_inverted: bool) -> u64
    requires some { 0 < len }
    requires few { len ≤ 64 }
    ensures cells { low_cells len result ≡ map (level_inverted is_inverted) (low_cells len word) }
    ensures no_more { result < 2 ^ len }
{
    let all = u64::MAX >> (64 - len);
    if is_inverted { !word & all } else { word & all }
}

/// Whether a number is odd.
fn is_odd(n: u64) -> bool
    ensures { result ≡ is_odd n }
{
    n % 2 == 1
}

/// Whether exactly one of two inversions is made.
fn differ(a: bool, b: bool) -> bool
    ensures { result ≡ (if b then not a else a) }
{
    a != b
}

/// How many times cell `place` is written.
fn times(errors: &Errors, place: u64) -> u32
    ensures times { result ≡ times errors.now place }
    ensures few { result ≤ 2 }
{
    if errors.count(ErrorKind::Lost, place) > 0 {
        0
    } else if errors.count(ErrorKind::Doubled, place) > 0 {
        2
    } else {
        1
    }
}

impl Spoiler {
    /// A taker that has taken no cell.
    fn new(output: Form, errors: &Errors) -> Self
        ensures form { result.out.form ≡ output }
        ensures errors { result.errors ≡ errors.now }
        ensures spoils { Spoils result [] }
    {
        Spoiler {
            errors: *errors,
            place: 0,
            inverted: false,
            clear: errors.clear_from(0),
            out: CellsOut::new(output),
        }
    }

    /// Takes cells without errors.
    ///
    /// # Errors
    /// The sink's fault; then it has taken a front of the bytes.
    fn take_clear<T: Sink>(&mut self, sink: &mut T, word: u64, len: u32) -> Result<(), Fault>
        requires some { 0 < len }
        requires few { len ≤ 64 }
        requires clear { len ≤ self.old.clear }
        requires room { T.failed sink.old + 1 < 2 ^ 64 }
        requires following { (c : List Level) × (length c + len ≤ 2 ^ 43) × Spoils self.old c }
        ensures { CellsRan (spoiler_state self.old) (spoiler_state self.new) (low_cells len word)
            (movement_of T.taken T.failed sink.old sink.new) result }
    {
        self.place += u64::from(len);
        self.clear -= u64::from(len);
        self.out.put(sink, front_of(word, len, self.inverted), len)
    }

    /// Takes one cell, with its errors.
    ///
    /// # Errors
    /// The sink's fault; then it has taken a front of the bytes.
    fn take_one<T: Sink>(&mut self, sink: &mut T, word: u64) -> Result<(), Fault>
        requires room { T.failed sink.old + 1 < 2 ^ 64 }
        requires following { (c : List Level) × (length c + 1 ≤ 2 ^ 43) × Spoils self.old c }
        ensures { CellsRan (spoiler_state self.old) (spoiler_state self.new) (low_cells 1 word)
            (movement_of T.taken T.failed sink.old sink.new) result }
    {
        let place = self.place;
        let inversions = self.errors.count(ErrorKind::Inverted, place);
        let changes = self.errors.count(ErrorKind::Changed, place);
        let inverted = differ(self.inverted, is_odd(inversions));
        let is_inverted = differ(inverted, is_odd(changes));
        let times = times(&self.errors, place);
        self.place += 1;
        self.inverted = inverted;
        self.clear = self.errors.clear_from(place + 1);
        let high = differ(is_odd(word), is_inverted);
        self.out.put(sink, bits_of_cells(high, times), times)
    }
}

impl Taker for Spoiler {
    ghost state = { spoiler_state };

    fn take<T: Sink>(&mut self, sink: &mut T, cells: &mut Cells<'_>) -> Result<(), Fault> {
        cells.begin_word();
        let word = cells.word();
        let clear = self.clear.min(u64::from(cells.here())) as u32;
        if clear > 0 {
            cells.skip(clear);
            self.take_clear(sink, word, clear)
        } else {
            cells.skip(1);
            self.take_one(sink, word)
        }
    }

    fn finish<T: Sink>(&mut self, sink: &mut T) -> Result<(), Fault> {
        self.out.finish(sink)
    }
}

/// Reads cells in one form, and writes them in another with errors, each at its place among the
/// cells that are read. In cell text, a last line has the cells that are left.
///
/// # Errors
/// - `BadCell` if a byte of cell text is neither a cell nor a separator.
/// - `BadPadding` if packed cells end wrongly.
/// - `TooLong` if the input has more than `max_bytes` bytes.
/// - `Read` and `Write` if the input or output failed.
///
/// Whole words of the cells that result from those before are written; after `Write`, a front of
/// them.
pub fn spoil<S: Source, T: Sink>(
    source: &mut S,
    sink: &mut T,
    max_bytes: u64,
    input: Form,
    output: Form,
    errors: &Errors,
) -> Result<Counts, RunError>
    requires source_room { S.failed source.old + 1 < 2 ^ 64 }
    requires sink_room { T.failed sink.old + 1 < 2 ^ 64 }
    requires limit { max_bytes ≤ 2 ^ 40 }

    // If it returns Ok, exactly the cells with these errors are written.
    ensures cells { IfOk result (λ _. (b : List ℕ)
        → Told (S.given source.old) (S.given source.new) b
        → Grew (T.taken sink.old) (T.taken sink.new)
        (finished output (spoiled errors.now (cells_of input b)))) }
    // A run over cells: it returns Ok if it can. An error has its cause, and the whole words of
    // what was decided before it are written.
    ensures run { CellRun max_bytes input (record {
      whole = λ c. finished output (spoiled errors.now c);
      begun = λ c. bytes_of output (whole_words (spoiled errors.now c));
      counts = spoil_counts input;
    }) (ends_of S.Source source.old source.new T.Sink sink.old sink.new) result }
{
    let mut taker = Spoiler::new(output, errors);
    let (bytes, cells) = drive(source, sink, max_bytes, input, &mut taker)?;
    Ok(Counts {
        bytes,
        cells,
        blocks: 0,
        faults: 0,
        unfinished: 0,
        marks: 0,
    })
}
