//! The bars of a picture: how many edges are how far from their places.

ghost use Rattle.std.specs.Prelude.{◌≤◌};

use crate::histogram::{BINS, Histogram};
use crate::numbers::{Grouped, Intervals, Tenths, share};
use std::alloc::AllocError;
use std::fmt::Write;

/// Places and lengths in the picture, in tenths of its unit. The first two are where the first bar
/// begins, and the width of a bar and its space. The other two are the line from which bars rise
/// and fall, and the length of the longest.
const LEFT: u64 = 750;

const BAR: u64 = 130;

const MIDDLE: u64 = 2600;

const LONGEST: u64 = 1200;

/// The middle of the bar of edges that are in their places.
const EXPECTED: u64 = LEFT + 32 * BAR + BAR / 2;

/// Half of AES3's tolerance: an eighth of a cell, and a cell has 64 bars.
const TOLERANCE: u64 = 8 * BAR;

/// Appends the bars of rising and of falling edges, with AES3's tolerance.
pub(crate) fn add_bars(
    text: &mut String,
    rising: &Histogram,
    falling: &Histogram,
) -> Result<(), AllocError> {
    let highest = rising.highest().max(falling.highest());
    add_tolerance(text)?;
    add_grid(text, highest)?;
    text.push_str("<g fill=\"#1f6fb4\">\n")?;
    for bin in 0..BINS {
        let len = bar_len(rising.bar(bin), highest);
        add_bar(text, "rising", bin, rising.bar(bin), MIDDLE - len, len)?;
    }
    text.push_str("</g>\n<g fill=\"#d9822b\">\n")?;
    for bin in 0..BINS {
        let len = bar_len(falling.bar(bin), highest);
        add_bar(text, "falling", bin, falling.bar(bin), MIDDLE, len)?;
    }
    text.push_str("</g>\n")?;
    add_limits(text)?;
    add_scale(text)
}

/// Appends a bar, if it has an edge.
fn add_bar(
    text: &mut String,
    name: &str,
    bin: usize,
    count: u64,
    top: u64,
    len: u64,
) -> Result<(), AllocError> {
    if count == 0 {
        return Ok(());
    }
    let left = Tenths(LEFT + BAR * (bin.min(BINS) as u64) + 5);
    let (top, len) = (Tenths(top), Tenths(len));
    let sign = sign_of(bin);
    let distance = Intervals(distance_of(bin));
    writeln!(
        text,
        "<rect x=\"{left}\" y=\"{top}\" width=\"12\" height=\"{len}\"><title>{name}, {sign}{distance} UI: {count} edges</title></rect>"
    )
}

/// The sign of the distance in the middle of a bar.
fn sign_of<'a>(bin: usize) -> &'a str {
    match bin {
        0..32 => "-",
        32 => "",
        _ => "+",
    }
}

/// The distance from its place of an edge in the middle of a bar, in ten-thousandths of a cell.
fn distance_of(bin: usize) -> u64
    ensures { result ≤ 20000 }
{
    (bin.abs_diff(32).min(BINS) as u64) * 10_000 / 64
}

/// The logarithm of a number that is not 0, in 65,536ths, plus 1: exact at the powers of two, and
/// linear between them.
fn logarithm(number: u64) -> u64 {
    let power = number.max(1).ilog2();
    let part = (u128::from(number.max(1)) << 16) >> power;
    65_536 * u64::from(power) + part.min(131_072) as u64
}

/// The length of a bar of this number of edges.
fn bar_len(count: u64, highest: u64) -> u64
    ensures { result ≤ 1200 }
{
    if count == 0 {
        return 0;
    }
    share(logarithm(count), logarithm(highest), LONGEST)
}

/// Appends AES3's tolerance.
fn add_tolerance(text: &mut String) -> Result<(), AllocError> {
    let left = Tenths(EXPECTED - TOLERANCE);
    let width = Tenths(2 * TOLERANCE);
    writeln!(
        text,
        "<rect x=\"{left}\" y=\"132\" width=\"{width}\" height=\"256\" fill=\"#e4f2e4\"><title>AES3: a receiver tolerates jitter of 0.25 UI peak to peak</title></rect>\n<text x=\"{}\" y=\"125\" text-anchor=\"middle\" fill=\"#2c6c2c\" font-size=\"12\">AES3 receiver tolerance: 0.25 UI peak to peak</text>",
        Tenths(EXPECTED)
    )
}

/// Appends the limits of AES3's tolerance, over the bars.
fn add_limits(text: &mut String) -> Result<(), AllocError> {
    let (left, right) = (Tenths(EXPECTED - TOLERANCE), Tenths(EXPECTED + TOLERANCE));
    writeln!(
        text,
        "<path d=\"M{left} 132V388M{right} 132V388\" stroke=\"#2c6c2c\" stroke-dasharray=\"5 3\"/>"
    )
}

/// Appends a line for each power of ten up to the highest bar, on both sides.
fn add_grid(text: &mut String, highest: u64) -> Result<(), AllocError> {
    text.push_str("<g font-size=\"11\" text-anchor=\"end\" fill=\"#555\" stroke-width=\"0.5\">\n")?;
    let mut power: u64 = 1;
    for _ in 0..20 {
        if power <= highest {
            let len = bar_len(power, highest);
            add_grid_line(text, power, MIDDLE - len)?;
            add_grid_line(text, power, MIDDLE + len)?;
        }
        power = power.saturating_mul(10);
    }
    text.push_str(
        "</g>\n<path d=\"M75 260H920\" stroke=\"#222\"/>\n<text x=\"18\" y=\"260\" text-anchor=\"middle\" transform=\"rotate(-90 18 260)\" font-size=\"12\">edges (logarithmic)</text>\n",
    )
}

/// Appends the line of a number of edges.
fn add_grid_line(text: &mut String, number: u64, at: u64) -> Result<(), AllocError>
    requires { at ≤ 10000 }
{
    let label = Tenths(at + 40);
    let at = Tenths(at);
    writeln!(
        text,
        "<path d=\"M75 {at}H920\" stroke=\"#bbb\"/><text x=\"70\" y=\"{label}\">{}</text>",
        Grouped(number)
    )
}

/// Appends the scale of distances.
fn add_scale(text: &mut String) -> Result<(), AllocError> {
    text.push_str(
        "<path d=\"M75 388H920\" stroke=\"#222\"/>\n<g font-size=\"12\" text-anchor=\"middle\">\n",
    )?;
    for step in 0..9 {
        let bin = 8 * step;
        let at = Tenths(LEFT + BAR * (bin as u64) + BAR / 2);
        let sign = sign_of(bin);
        let thousandths = distance_of(bin) / 10;
        writeln!(
            text,
            "<path d=\"M{at} 388v5\" stroke=\"#222\"/><text x=\"{at}\" y=\"407\">{sign}{}.{:03}</text>",
            thousandths / 1000,
            thousandths % 1000
        )?;
    }
    text.push_str("</g>\n")
}
