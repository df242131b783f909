//! Worked lists of cells, by the lock and by trying every place, and their preambles.
ghost use Rattle.std.specs.Prelude.{◌<◌, ◌≤◌};

use crate::slot::ZEROS;
use aes3_cell::Level;
use aes3_lock::{Lock, Report, Scan, Why, reports_of};
use aes3_slot::{Mark, slots_cells};
use arrayvec::ArrayVec;
use std::alloc::{AllocError, Global};

/// A report in short form; for a whole block, whether it is the zero block.
#[derive(Clone, Copy, PartialEq, Eq)]
enum Line {
    Whole(u64, Level, bool),
    Marked(u64, Level, u16),
    Fault(u64, u64, Why),
    Unfinished(u64, u64),
}

/// How many reports a test checks.
const LINES: usize = 16;

/// Many more cells than a test has.
const MANY: u64 = 1 << 40;

/// The bits of slots 4 to 31 of a subframe in which only the parity bit is 1, which is wrong.
const ODD: u32 = 1 << 27;

/// The same bits if all are 1.
const ALL_ONES: u32 = (1 << 28) - 1;

fn line_of(report: Report) -> Line {
    match report {
        Report::Whole { at, before, block } => {
            Line::Whole(at, before, *block.words() == [0; 384])
        }
        Report::Marked { at, before, wrong } => Line::Marked(at, before, wrong),
        Report::Fault { at, cell, why } => Line::Fault(at, cell, why),
        Report::Unfinished { at, cells } => Line::Unfinished(at, cells),
    }
}

/// Adds cells `from` to `to` of a word.
fn add(cells: &mut Vec<Level>, word: u64, from: u32, to: u32) -> Result<(), AllocError>
    requires { to ≤ 64 }
{
    for k in from..to {
        cells.push(if (word >> k) & 1 == 1 {
            Level::High
        } else {
            Level::Low
        })?;
    }
    Ok(())
}

/// The subframe `line` of the zero block after a level.
fn zeros(line: usize, before: Level) -> u64 {
    let mark = match (line, line % 2) {
        (0, _) => Mark::Z,
        (_, 1) => Mark::Y,
        _ => Mark::X,
    };
    slots_cells(before, mark, 0)
}

/// Adds the subframes `from` to `to` of the zero block after a level.
fn add_lines(
    cells: &mut Vec<Level>,
    before: Level,
    from: usize,
    to: usize,
) -> Result<(), AllocError> {
    for line in from..to {
        add(cells, zeros(line, before), 0, 64)?;
    }
    Ok(())
}

/// The cells `1110100010`, repeated: candidates five cells apart.
const DENSE: u64 = 0x745D_1745_D174_5D17;

#[derive(Clone, Copy)]
enum Piece {
    /// The subframes `0` to `1` of the zero block after a level.
    Lines(Level, usize, usize),
    /// A subframe after a level, with a preamble and these bits in slots 4 to 31.
    Slots(Level, Mark, u32),
    /// The cells `1` to `2` of a word.
    Cells(u64, u32, u32),
}

/// Candidates five cells apart, each of which ends within the second 64 cells.
const DENSE_PIECES: &[Piece] = &[
    Piece::Cells(0x5555_5555_5555_5555, 0, 52),
    Piece::Cells(DENSE, 0, 60),
    Piece::Cells(DENSE, 0, 13),
    Piece::Cells(0b111, 0, 3),
];

/// A preamble that begins within another.
const PREAMBLE_IN_A_PREAMBLE: &[Piece] = &[
    Piece::Lines(Level::Low, 0, 2),
    Piece::Cells(0b111_0100_0111, 0, 11),
];

fn cells_of(alloc: Global, pieces: &[Piece]) -> Result<Vec<Level>, AllocError> {
    let mut cells = Vec::new(alloc);
    for piece in pieces.iter() {
        match *piece {
            Piece::Lines(before, from, to) => add_lines(&mut cells, before, from, to)?,
            Piece::Slots(before, mark, bits) => {
                let word = slots_cells(before, mark, bits & ALL_ONES);
                add(&mut cells, word, 0, 64)?;
            }
            Piece::Cells(word, from, to) => add(&mut cells, word, from, to.min(64))?,
        }
    }
    Ok(cells)
}

fn keep(lines: &mut [Option<Line>; LINES], count: &mut usize, report: Report) {
    if *count < LINES {
        lines[*count] = Some(line_of(report));
        *count += 1;
    }
}

fn by_lock(cells: &[Level]) -> [Option<Line>; LINES] {
    let mut lines = [None; LINES];
    let mut count = 0;
    let mut lock = Lock::new();
    for cell in cells.iter() {
        if lock.seen() < MANY
            && let Some(report) = lock.push(*cell)
        {
            keep(&mut lines, &mut count, report);
        }
    }
    if let Some(report) = lock.finish() {
        keep(&mut lines, &mut count, report);
    }
    lines
}

fn by_places(alloc: Global, cells: &[Level]) -> Result<[Option<Line>; LINES], AllocError> {
    let mut lines = [None; LINES];
    let mut count = 0;
    for report in reports_of(alloc, cells)? {
        keep(&mut lines, &mut count, report);
    }
    Ok(lines)
}

/// These lines, and none after them.
fn only(lines: &[Line]) -> [Option<Line>; LINES] {
    let mut all = [None; LINES];
    for (i, line) in lines.iter().enumerate() {
        if i < LINES {
            all[i] = Some(*line);
        }
    }
    all
}

/// Whether the lock and the slow form both give these reports, and none after them.
fn are_told(alloc: Global, pieces: &[Piece], lines: &[Line]) -> Result<bool, AllocError> {
    let cells = cells_of(alloc, pieces)?;
    let places = by_places(alloc, &cells)?;
    Ok(places == only(lines) && by_lock(&cells) == places)
}

/// Each list of cells, and its reports.
const ROWS: &[(&[Piece], &[Line])] = &[
    // A block that begins within another.
    (
        &[
            Piece::Lines(Level::Low, 0, 200),
            Piece::Lines(Level::Low, 0, 384),
        ],
        &[
            Line::Fault(0, 12_804, Why::Preamble),
            Line::Whole(12_800, Level::Low, true),
        ],
    ),
    (
        PREAMBLE_IN_A_PREAMBLE,
        &[Line::Fault(0, 138, Why::Biphase), Line::Unfinished(131, 8)],
    ),
    // A block of inverted polarity whose first cell is the last cell of the block before.
    (
        &[
            Piece::Lines(Level::Low, 0, 383),
            Piece::Slots(Level::Low, Mark::Y, ODD | 1),
            Piece::Cells(!ZEROS, 1, 64),
            Piece::Lines(Level::High, 1, 384),
        ],
        &[
            Line::Fault(0, 24_576, Why::Unclosed),
            Line::Whole(24_575, Level::High, true),
        ],
    ),
    // A block with one wrong parity bit, and one after it.
    (
        &[
            Piece::Slots(Level::Low, Mark::Z, ODD),
            Piece::Lines(Level::High, 1, 384),
            Piece::Lines(Level::High, 0, 384),
        ],
        &[
            Line::Marked(0, Level::Low, 1),
            Line::Whole(24_576, Level::High, true),
        ],
    ),
    // Four changed cells make a block where none began: an X preamble becomes a Z, and the next Z
    // an X.
    (
        &[
            Piece::Lines(Level::Low, 0, 2),
            Piece::Lines(Level::Low, 0, 1),
            Piece::Lines(Level::Low, 3, 384),
            Piece::Lines(Level::Low, 2, 3),
            Piece::Lines(Level::Low, 1, 384),
        ],
        &[
            Line::Fault(0, 132, Why::Preamble),
            Line::Whole(128, Level::Low, true),
        ],
    ),
];

#[test]
fn reports_of_blocks(rt: HostRuntime) {
    for (row, (pieces, lines)) in ROWS.iter().enumerate() {
        assert!(rt;
            are_told(rt.alloc(), pieces, lines) == Ok(true),
            "row {row}"
        );
    }
}

/// Faults five cells apart, the first at a cell.
fn faults_from(at: u64) -> [Line; 14]
    requires { at < 1000 }
{
    let mut lines = [Line::Unfinished(0, 0); 14];
    for i in 0..14 {
        let at = at + 5 * i as u64;
        lines[i] = Line::Fault(at, at + 12, Why::Biphase);
    }
    lines
}

#[test]
fn fourteen_reports_within_64_cells(rt: HostRuntime) {
    let mut lines = faults_from(52);
    lines[13] = Line::Fault(117, 125, Why::Biphase);
    assert!(rt; are_told(rt.alloc(), DENSE_PIECES, &lines) == Ok(true));
}

/// Run with each allocation failing in turn, this shows that the slow form returns its error or the
/// same reports.
#[test]
fn refused_memory_is_told(rt: HostRuntime) {
    if let Ok(cells) = cells_of(rt.alloc(), DENSE_PIECES)
        && let Ok(lines) = by_places(rt.alloc(), &cells)
    {
        assert!(rt; lines == by_lock(&cells));
    }
}

/// The reports of a word that the lock takes at once.
fn by_word(word: u64) -> [Option<Line>; LINES] {
    let mut lock = Lock::new();
    let mut told = ArrayVec::new();
    lock.push_word(word, &mut told);
    let mut lines = [None; LINES];
    let mut count = 0;
    for report in told {
        keep(&mut lines, &mut count, report);
    }
    if let Some(report) = lock.finish() {
        keep(&mut lines, &mut count, report);
    }
    lines
}

#[test]
fn reports_of_a_word(rt: HostRuntime) {
    let mut lines = only(&faults_from(0));
    lines[11] = Some(Line::Unfinished(55, 9));
    lines[12] = None;
    lines[13] = None;
    assert!(rt; by_word(DENSE) == lines);
}

/// The first preambles among cells.
fn marks_of(cells: &[Level]) -> [Option<(u64, Mark, Level)>; 5] {
    let mut marks = [None; 5];
    let mut count = 0;
    let mut scan = Scan::new();
    for cell in cells.iter() {
        if scan.seen() < MANY
            && let Some(mark) = scan.push(*cell)
            && count < 5
        {
            marks[count] = Some(mark);
            count += 1;
        }
    }
    marks
}

#[test]
fn preambles_of_cells(rt: HostRuntime) {
    let cells = cells_of(rt.alloc(), PREAMBLE_IN_A_PREAMBLE).expect(&rt, "memory");
    let expected = [
        Some((0, Mark::Z, Level::Low)),
        Some((64, Mark::Y, Level::Low)),
        Some((128, Mark::X, Level::Low)),
        Some((131, Mark::Z, Level::High)),
        None,
    ];
    assert!(rt; marks_of(&cells) == expected);
}
