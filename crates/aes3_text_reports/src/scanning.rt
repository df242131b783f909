//! Preambles, line by line.

ghost use Rattle.std.specs.Prelude.{◌≡◌, ℕ, ◌+◌, ◌*◌, ◌<◌, ◌≤◌, ◌^◌, ◌++◌, List, [], length, IfOk};
ghost use Rattle.std.specs.Prelude.{OnErr};
ghost use Rattle.std.specs.List.{flat_map};
ghost use Rattle.aes3_cell.specs.Ends.{Grew, GrewFront, Told};
ghost use Rattle.aes3_level.specs.Remaining.{all_of};
ghost use Rattle.aes3_level.specs.Words.{word_cells};
ghost use Rattle.aes3_cell.specs.Writes.{Wrote};
ghost use Rattle.aes3_level.specs.declared.level.Level.{Level};
ghost use Rattle.aes3_lock.specs.Preambles.{marks};
ghost use Rattle.aes3_input.specs.Driving.{CellRun};
ghost use Rattle.aes3_input.specs.Forms.{CellsRan, SomeCellsRan};
ghost use Rattle.aes3_input.specs.Inputs.{cells_of};
ghost use Rattle.aes3_input.specs.Running.{ends_of, movement_of};
ghost use Rattle.aes3_input.specs.Taking.{behind};
ghost use Rattle.aes3_text_lines.specs.Gathering.{AllButHeld};
ghost use Rattle.aes3_text_lines.specs.MarkLines.{mark_line, mark_lines};
ghost use Rattle.aes3_text_reports.specs.Scanning.{Scanned, mark_state, marking, scan_counts};

use aes3_cell::{Counts, Fault, Form, Level, RunError, Sink, Source};
use aes3_input::{Taker, drive};
use aes3_level::Cells;
use aes3_lock::{Scan, WordMarks};
use aes3_slot::Mark;
use aes3_text_lines::{GATHERED_LEN, GatheredLines, MARK_LEN};

/// Writes the line of each preamble, and counts them. Between calls it holds no line.
#[derive(Drop)]
struct MarkLines {
    scan: Scan,
    marks: u64,
    lines: GatheredLines,
}

impl MarkLines {
    /// A taker that has taken no cell.
    fn new() -> Self
        ensures scanned { Scanned result.scan result.marks [] }
        ensures lines { result.lines ≡ [] }
    {
        MarkLines {
            scan: Scan::new(),
            marks: 0,
            lines: GatheredLines::new(),
        }
    }

    /// Counts a preamble that the scan found, and makes its line.
    #[inline(always)]
    fn gather(&mut self, found: (u64, Mark, Level))
        requires fits { length self.old.lines + MARK_LEN ≤ GATHERED_LEN }
        requires few { self.old.marks + 1 < 2 ^ 64 }
        ensures scan { self.new.scan ≡ self.old.scan }
        ensures marks { self.new.marks ≡ self.old.marks + 1 }
        ensures lines { self.new.lines ≡ self.old.lines ++ mark_line found.0 found.1 found.2 }
    {
        self.marks += 1;
        self.lines.push(found.0, found.1, found.2);
    }

    /// Counts a preamble that the scan found, and makes its line. It writes the lines if one more
    /// might not fit, or if the sink prefers each by itself.
    ///
    /// # Errors
    /// The sink's fault; then it has taken a front of the lines.
    fn tell<T: Sink>(&mut self, sink: &mut T, found: (u64, Mark, Level)) -> Result<(), Fault>
        requires fits { length self.old.lines + MARK_LEN ≤ GATHERED_LEN }
        requires room { T.failed sink.old + 1 < 2 ^ 64 }
        requires few { self.old.marks + 1 < 2 ^ 64 }
        ensures scan { self.new.scan ≡ self.old.scan }
        ensures marks { self.new.marks ≡ self.old.marks + 1 }
        ensures fits { IfOk result (λ _. length self.new.lines + MARK_LEN ≤ GATHERED_LEN) }
        ensures wrote { IfOk result (λ _. AllButHeld (T.taken sink.old) (T.taken sink.new)
            self.old.lines self.new.lines (mark_line found.0 found.1 found.2)) }
        ensures no_failure { IfOk result (λ _. T.failed sink.new ≡ T.failed sink.old) }
        ensures err { OnErr result ((T.failed sink.new ≡ T.failed sink.old + 1)
            × GrewFront (T.taken sink.old) (T.taken sink.new)
            (self.old.lines ++ mark_line found.0 found.1 found.2)) }
    {
        self.gather(found);
        if sink.takes_much() && !self.lines.is_full() {
            return Ok(());
        }
        self.lines.write_to(sink)
    }

    /// Counts a preamble that the scan found, and writes its line at once.
    ///
    /// # Errors
    /// The sink's fault; then it has taken a front of the line.
    fn tell_alone<T: Sink>(&mut self, sink: &mut T, found: (u64, Mark, Level)) -> Result<(), Fault>
        requires none { self.old.lines ≡ [] }
        requires room { T.failed sink.old + 1 < 2 ^ 64 }
        requires few { self.old.marks + 1 < 2 ^ 64 }
        ensures scan { self.new.scan ≡ self.old.scan }
        ensures marks { self.new.marks ≡ self.old.marks + 1 }
        ensures none { IfOk result (λ _. self.new.lines ≡ []) }
        ensures wrote { Wrote T.taken T.failed sink.old sink.new
            (mark_line found.0 found.1 found.2) result }
    {
        self.gather(found);
        self.lines.write_to(sink)
    }

    /// Counts the preambles of a word, and writes their lines.
    ///
    /// # Errors
    /// The sink's fault; then it has taken a front of the lines.
    fn tell_all<T: Sink>(&mut self, sink: &mut T, found: WordMarks) -> Result<(), Fault>
        requires fits { length self.old.lines + MARK_LEN ≤ GATHERED_LEN }
        requires room { T.failed sink.old + 1 < 2 ^ 64 }
        requires few { self.old.marks + length found < 2 ^ 64 }
        ensures scan { IfOk result (λ _. self.new.scan ≡ self.old.scan) }
        ensures marks { IfOk result (λ _. self.new.marks ≡ self.old.marks + length found) }
        ensures fits { IfOk result (λ _. length self.new.lines + MARK_LEN ≤ GATHERED_LEN) }
        ensures wrote { IfOk result (λ _. AllButHeld (T.taken sink.old) (T.taken sink.new)
            self.old.lines self.new.lines (mark_lines found)) }
        ensures no_failure { IfOk result (λ _. T.failed sink.new ≡ T.failed sink.old) }
        ensures err { OnErr result ((T.failed sink.new ≡ T.failed sink.old + 1)
            × GrewFront (T.taken sink.old) (T.taken sink.new) (self.old.lines ++ mark_lines found)) }
    {
        let mut left = found;
        while let Some(mark) = left.take_next() {
            self.tell(sink, mark)?;
        }
        Ok(())
    }

    /// Takes the cells of a word.
    ///
    /// # Errors
    /// The sink's fault; then it has taken a front of the lines.
    fn take_word<T: Sink>(&mut self, sink: &mut T, word: u64) -> Result<(), Fault>
        requires fits { length self.old.lines + MARK_LEN ≤ GATHERED_LEN }
        requires room { T.failed sink.old + 1 < 2 ^ 64 }
        requires following { (c : List Level) × (length c + 64 ≤ 2 ^ 43)
            × Scanned self.old.scan self.old.marks c }
        ensures next { IfOk result (λ _. (c : List Level) → Scanned self.old.scan self.old.marks c
            → Scanned self.new.scan self.new.marks (c ++ word_cells word)) }
        ensures fits { IfOk result (λ _. length self.new.lines + MARK_LEN ≤ GATHERED_LEN) }
        ensures wrote { IfOk result (λ _. (c : List Level) → Scanned self.old.scan self.old.marks c
            → AllButHeld (T.taken sink.old) (T.taken sink.new) self.old.lines self.new.lines
            (behind marking c (word_cells word))) }
        ensures no_failure { IfOk result (λ _. T.failed sink.new ≡ T.failed sink.old) }
        ensures one_failure { OnErr result (T.failed sink.new ≡ T.failed sink.old + 1) }
        ensures err_grew { OnErr result ((c : List Level) → Scanned self.old.scan self.old.marks c
            → GrewFront (T.taken sink.old) (T.taken sink.new)
            (self.old.lines ++ behind marking c (word_cells word))) }
    {
        let found = self.scan.take_word(word);
        self.tell_all(sink, found)
    }

    /// Takes cells of the current word, up to the next preamble.
    ///
    /// # Errors
    /// The sink's fault; then it has taken a front of the lines.
    fn take_next<T: Sink>(&mut self, sink: &mut T, cells: &mut Cells<'_>) -> Result<(), Fault>
        requires some { 0 < length cells.old.here }
        requires room { T.failed sink.old + 1 < 2 ^ 64 }
        requires following { (c : List Level) × (length c + length (all_of cells.old) ≤ 2 ^ 43)
            × (self.old.lines ≡ []) × Scanned self.old.scan self.old.marks c }
        ensures ran { SomeCellsRan (mark_state self.old.lines self.old.scan self.old.marks)
            (mark_state self.new.lines self.new.scan self.new.marks) (all_of cells.old)
            (all_of cells.new) (movement_of T.taken T.failed sink.old sink.new) result }
    {
        let (taken, found) = self.scan.next_in(cells.word(), cells.here());
        cells.skip(taken);
        match found {
            Some(found) => self.tell_alone(sink, found),
            None => Ok(()),
        }
    }

    /// Takes the cells of words.
    ///
    /// # Errors
    /// The sink's fault; then it has taken a front of the lines.
    fn take_words<T: Sink>(&mut self, sink: &mut T, words: &[u64]) -> Result<(), Fault>
        requires room { T.failed sink.old + 1 < 2 ^ 64 }
        requires following { (c : List Level) × (length c + 64 * length words.now ≤ 2 ^ 43)
            × (self.old.lines ≡ []) × Scanned self.old.scan self.old.marks c }
        ensures ran { CellsRan (mark_state self.old.lines self.old.scan self.old.marks)
            (mark_state self.new.lines self.new.scan self.new.marks) (flat_map word_cells words.now)
            (movement_of T.taken T.failed sink.old sink.new) result }
    {
        for word in words.iter() {
            self.take_word(sink, *word)?;
        }
        self.lines.write_to(sink)
    }
}

impl Taker for MarkLines {
    ghost state = { λ k. mark_state k.lines k.scan k.marks };

    fn take<T: Sink>(&mut self, sink: &mut T, cells: &mut Cells<'_>) -> Result<(), Fault> {
        let words = cells.words();
        if cells.here() == 0 && !words.is_empty() {
            cells.skip_words(words.len());
            return self.take_words(sink, words);
        }
        cells.begin_word();
        self.take_next(sink, cells)
    }

    fn finish<T: Sink>(&mut self, _sink: &mut T) -> Result<(), Fault> {
        Ok(())
    }
}

/// Reads cells from any cell on, and writes a line for each place where eight cells are a preamble
/// (AES3-3; IEC 60958-1). The preamble need not belong to a block.
///
/// # Errors
/// Those of `check`. The lines of the preambles that ended before are written; after `Write`, a
/// front of them.
pub fn scan<S: Source, T: Sink>(
    source: &mut S,
    sink: &mut T,
    max_bytes: u64,
    input: Form,
) -> Result<Counts, RunError>
    requires source_room { S.failed source.old + 1 < 2 ^ 64 }
    requires sink_room { T.failed sink.old + 1 < 2 ^ 64 }
    requires limit { max_bytes ≤ 2 ^ 40 }

    // If it returns Ok, exactly the lines of the preambles are written, in order of place.
    ensures lines { IfOk result (λ _. (b : List ℕ)
        → Told (S.given source.old) (S.given source.new) b
        → Grew (T.taken sink.old) (T.taken sink.new) (mark_lines (marks (cells_of input b)))) }
    // A run over cells: it returns Ok if it can. An error has its cause, and what was reported
    // before it is written.
    ensures run { CellRun max_bytes input (record {
      whole = λ c. mark_lines (marks c);
      begun = λ c. mark_lines (marks c);
      counts = scan_counts input;
    }) (ends_of S.Source source.old source.new T.Sink sink.old sink.new) result }
{
    let mut taker = MarkLines::new();
    let (bytes, cells) = drive(source, sink, max_bytes, input, &mut taker)?;
    Ok(Counts {
        bytes,
        cells,
        blocks: 0,
        faults: 0,
        unfinished: 0,
        marks: taker.marks,
    })
}
