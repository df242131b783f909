//! The lines that say what was found, or that no line was found.

ghost use Rattle.std.specs.Prelude.{◌≡◌, ◌++◌, IfOk, decimal};
ghost use Rattle.aes3_capture_runs.specs.Lines.{IsFiguresLine, IsFoundLine, IsFoundText, IsMean, cells_text};
ghost use Rattle.aes3_capture_runs.specs.Lines.{dead_text, distance_of, distance_text, doubt_text, edges_text};
ghost use Rattle.aes3_capture_runs.specs.Lines.{found_behind, frequency_text, has_average, latest_text, lost_text};
ghost use Rattle.aes3_capture_runs.specs.Lines.{no_line_text, no_line_yet_text, period_in_all, period_text};
ghost use Rattle.aes3_capture_runs.specs.Lines.{reason_text, thousandths, was_lost};

use aes3_capture_recovery::Figures;
use itoa::Buffer;
use std::alloc::{AllocError, Global};

/// Appends a number in decimal.
fn add_number(text: &mut String, number: u64) -> Result<(), AllocError>
    ensures { IfOk result (λ _. text.new.bytes.items ≡ text.old.bytes.items ++ decimal number) }
{
    text.push_str(Buffer::new().format(number))
}

/// Appends a number that is given in thousandths.
fn add_thousandths(text: &mut String, number: u64) -> Result<(), AllocError>
    ensures { IfOk result (λ _. text.new.bytes.items ≡ text.old.bytes.items ++ thousandths number) }
{
    add_number(text, number / 1000)?;
    text.push_str(".")?;
    add_number(text, number / 100 % 10)?;
    add_number(text, number / 10 % 10)?;
    add_number(text, number % 10)
}

/// Appends the line's sampling frequency, if the samples' rate is known.
fn add_frequency(text: &mut String, rate: Option<u64>, period: u64) -> Result<(), AllocError>
    ensures { IfOk result (λ _. text.new.bytes.items
        ≡ text.old.bytes.items ++ frequency_text rate period) }
{
    let Some(rate) = rate else {
        return Ok(());
    };
    text.push_str(", ")?;
    add_number(text, rate.saturating_mul(512) / period.max(256))?;
    text.push_str(" Hz")
}

/// Appends how long a cell is, and the line's sampling frequency.
fn add_period(text: &mut String, rate: Option<u64>, period: u64) -> Result<(), AllocError>
    ensures { IfOk result (λ _. text.new.bytes.items
        ≡ text.old.bytes.items ++ period_text rate period) }
{
    add_thousandths(text, period.max(256).saturating_mul(1000) / 65_536)?;
    text.push_str(" samples a cell")?;
    add_frequency(text, rate, period)
}

/// The greatest distance of an edge from its expected position, in thousandths of a cell.
fn distance_of(figures: &Figures) -> u64
    ensures { result ≡ distance_of figures.now }
{
    figures.greatest.saturating_mul(1000) / (figures.period.max(256) / 256)
}

/// The root of the mean of the squares of these distances, in thousandths of a cell.
fn mean_of(figures: &Figures) -> u64
    ensures { IsMean figures.now result }
{
    let unit = figures.period.max(256) / 256;
    let square = (figures.squares / figures.edges.max(1)).saturating_mul(1_000_000);
    (square / unit.saturating_mul(unit).max(1)).isqrt()
}

/// Appends how far edges were from their expected positions, on average and at most.
fn add_edges(text: &mut String, figures: &Figures, mean: u64) -> Result<(), AllocError>
    ensures { IfOk result (λ _. text.new.bytes.items
        ≡ text.old.bytes.items ++ edges_text figures.now mean) }
{
    text.push_str(", edges ")?;
    add_thousandths(text, mean)?;
    text.push_str(" of a cell rms, ")?;
    add_thousandths(text, distance_of(figures))?;
    text.push_str(" at most")
}

/// Appends from where on the line last had no signal, if that occurred.
fn add_latest(text: &mut String, figures: &Figures) -> Result<(), AllocError>
    ensures { IfOk result (λ _. text.new.bytes.items
        ≡ text.old.bytes.items ++ latest_text figures.now) }
{
    if figures.dead == 0 {
        return Ok(());
    }
    text.push_str(", the latest from sample ")?;
    add_number(text, figures.dead_at)
}

/// Appends how often the line had no signal, and from where on the last time.
fn add_dead(text: &mut String, figures: &Figures) -> Result<(), AllocError>
    ensures { IfOk result (λ _. text.new.bytes.items
        ≡ text.old.bytes.items ++ dead_text figures.now) }
{
    text.push_str(", ")?;
    add_number(text, figures.dead)?;
    text.push_str(" dead stretches")?;
    add_latest(text, figures)
}

/// Appends the number of cells after the program's name.
fn add_cells(text: &mut String, figures: &Figures) -> Result<(), AllocError>
    ensures { IfOk result (λ _. text.new.bytes.items
        ≡ text.old.bytes.items ++ cells_text figures.now) }
{
    text.push_str("aes3-cells: ")?;
    add_number(text, figures.cells)?;
    text.push_str(" cells")
}

/// The least number of cells for an average of their lengths: those of a block. In an average of
/// fewer cells, the parts of cells at the two ends of the capture would show.
const CELLS_OF_AVERAGE: u64 = 24_576;

/// Whether the end line has the average length of a cell: the line was measured once, and has
/// enough cells.
fn has_average(figures: &Figures) -> bool
    ensures { result ≡ has_average figures.now }
{
    figures.measured == 1 && figures.cells >= CELLS_OF_AVERAGE && figures.samples < 1 << 47
}

/// The length of a cell to report at the end, in parts of a sample: the average over all samples,
/// rounded, or else the latest length.
fn period_in_all(figures: &Figures) -> u64
    ensures { result ≡ period_in_all figures.now }
{
    if has_average(figures) {
        (figures.samples * 65_536 + figures.cells / 2) / figures.cells
    } else {
        figures.period
    }
}

/// Appends the line of what was found of a line, for people: the samples in a cell, given by
/// `period`, and the line's sampling frequency if the samples' rate is known. Then it has how far
/// edges were from their expected positions, with `mean` as the mean. Last it has where the line
/// last had no signal.
fn add_found(
    text: &mut String,
    figures: &Figures,
    period: u64,
    rate: Option<u64>,
    mean: u64,
) -> Result<(), AllocError>
    ensures { IfOk result (λ _. text.new.bytes.items
        ≡ found_behind text.old.bytes.items figures.now period rate mean) }
{
    add_cells(text, figures)?;
    text.push_str(", ")?;
    add_period(text, rate, period)?;
    add_edges(text, figures, mean)?;
    add_dead(text, figures)?;
    text.push_str(", measured ")?;
    add_number(text, figures.measured)?;
    text.push_str(" times\n")
}

/// The same line by itself.
///
/// # Errors
/// `AllocError` if there is no memory.
fn found_line(
    alloc: Global,
    figures: &Figures,
    period: u64,
    rate: Option<u64>,
) -> Result<String, AllocError>
    ensures { IfOk result (λ text. IsFoundLine figures.now period rate text.bytes.items) }
{
    let mut text = String::new(alloc);
    add_found(&mut text, figures, period, rate, mean_of(figures))?;
    Ok(text)
}

/// The number of cells as long as no line is found.
///
/// # Errors
/// `AllocError` if there is no memory.
fn no_line_yet(alloc: Global, figures: &Figures) -> Result<String, AllocError>
    ensures { IfOk result (λ text. text.bytes.items ≡ no_line_yet_text figures.now) }
{
    let mut text = String::new(alloc);
    add_cells(&mut text, figures)?;
    text.push_str(", no AES3 line yet\n")?;
    Ok(text)
}

/// The line of what was found so far, for people, with the latest length of a cell: samples that
/// wait have no cells yet, and would falsify an average.
///
/// # Errors
/// `AllocError` if there is no memory.
pub fn figures_line(
    alloc: Global,
    figures: &Figures,
    rate: Option<u64>,
) -> Result<String, AllocError>
    ensures { IfOk result (λ text. IsFiguresLine figures.now rate text.bytes.items) }
{
    if figures.measured == 0 {
        no_line_yet(alloc, figures)
    } else {
        found_line(alloc, figures, figures.period, rate)
    }
}

/// All that was found, for people, with the average length of a cell if there is one. Then why
/// cells are likely to be wrong, if they are.
///
/// # Errors
/// `AllocError` if there is no memory.
pub fn found_text(alloc: Global, figures: &Figures, rate: Option<u64>) -> Result<String, AllocError>
    ensures { IfOk result (λ text. IsFoundText figures.now rate text.bytes.items) }
{
    let mut text = found_line(alloc, figures, period_in_all(figures), rate)?;
    add_doubt(&mut text, figures)?;
    Ok(text)
}

/// That no line was found, why, and what to try, for people. If the samples in a cell are given, it
/// says that the cells were written by these alone. It also says whether there were enough edges to
/// find a line.
///
/// # Errors
/// `AllocError` if there is no memory.
pub fn no_line_text(
    alloc: Global,
    figures: &Figures,
    period: Option<u64>,
    why: &str,
) -> Result<String, AllocError>
    ensures { IfOk result (λ text. text.bytes.items ≡ no_line_text figures.now period why.now) }
{
    let mut text = String::new(alloc);
    match period {
        None => {
            text.push_str("aes3-cells: no AES3 line was found: ")?;
            text.push_str(why)?;
            text.push_str(
                ". Try another --bit, --unit 2 for sixteen inputs, or --rate with --at\n",
            )?;
        }
        Some(_) => {
            add_cells(&mut text, figures)?;
            text.push_str(" were written by --rate and --at, and no measurement confirmed them: ")?;
            text.push_str(reason_of(figures))?;
            text.push_str("\n")?;
        }
    }
    Ok(text)
}

/// Why no measurement confirmed the samples in a cell.
fn reason_of<'a>(figures: &Figures) -> &'a str
    ensures { result.now ≡ reason_text figures.now }
{
    if figures.misses == 0 {
        "there were too few edges: 129 are needed up to the end, or 257 up to a stretch without signal"
    } else {
        "no AES3 line of this rate was found in this bit: try another --bit, --unit 2 for sixteen inputs, or another --at"
    }
}

/// A distance of an edge from its expected position, in thousandths of a cell. From this distance
/// on, other edges are likely to be half a cell away and counted to the next cell.
const DOUBTFUL_DISTANCE: u64 = 400;

/// The least number of cells that a line has between two measurements: those of a block.
const CELLS_A_MEASUREMENT: u64 = 24_576;

/// Whether a line was measured so often that on average fewer cells than a block came each time.
fn was_lost(figures: &Figures) -> bool
    ensures { result ≡ was_lost figures.now }
{
    figures.measured > 2 && figures.cells / figures.measured < CELLS_A_MEASUREMENT
}

/// Appends that the line was lost, and how often it was measured.
fn add_lost(text: &mut String, measured: u64) -> Result<(), AllocError>
    ensures { IfOk result (λ _. text.new.bytes.items ≡ text.old.bytes.items ++ lost_text measured) }
{
    text.push_str("aes3-cells: the line was lost and measured again ")?;
    add_number(text, measured)?;
    text.push_str(
        " times, so cells are likely to be wrong: check that it is an AES3 line, and take more samples a second\n",
    )
}

/// Appends that an edge was this many thousandths of a cell from its expected position.
fn add_distance(text: &mut String, distance: u64) -> Result<(), AllocError>
    ensures { IfOk result (λ _. text.new.bytes.items ≡ text.old.bytes.items ++ distance_text distance) }
{
    text.push_str("aes3-cells: an edge was ")?;
    add_thousandths(text, distance)?;
    text.push_str(
        " of a cell from its expected place, and at 0.5 cells are wrong: take more samples a second\n",
    )
}

/// Appends why cells of a line that was found are likely to be wrong; nothing if there is no
/// reason.
fn add_doubt(text: &mut String, figures: &Figures) -> Result<(), AllocError>
    ensures { IfOk result (λ _. text.new.bytes.items ≡ text.old.bytes.items ++ doubt_text figures.now) }
{
    if was_lost(figures) {
        return add_lost(text, figures.measured);
    }
    let distance = distance_of(figures);
    if distance >= DOUBTFUL_DISTANCE {
        add_distance(text, distance)
    } else {
        Ok(())
    }
}
