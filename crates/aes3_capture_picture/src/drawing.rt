//! The text of a picture, in SVG.

ghost use Rattle.std.specs.Prelude.{◌≡◌, IfOk};
ghost use Rattle.aes3_capture_picture.specs.Texts.{IsPicture};

use crate::bars::add_bars;
use crate::curve::{Times, add_curve, add_strip};
use crate::file::HEAD;
use crate::histogram::{Histogram, ten_thousandths};
use crate::numbers::{Grouped, Intervals};
use crate::picture::Shown;
use std::alloc::{AllocError, Global};
use std::fmt::Write;

/// The text of a picture. `rate` is the number of samples in a second, if that is known.
///
/// # Errors
/// `AllocError` if there is no memory.
pub(crate) fn drawing(
    alloc: Global,
    shown: Shown<'_>,
    rate: Option<u64>,
) -> Result<String, AllocError>
    ensures { IfOk result (λ text. IsPicture text.bytes.items) }
{
    let rest = body(alloc, shown, rate)?;
    let mut text = String::from_str(alloc, HEAD)?;
    text.push_str(&rest)?;
    Ok(text)
}

/// The text after the word by which a picture is recognised.
///
/// # Errors
/// `AllocError` if there is no memory.
fn body(alloc: Global, shown: Shown<'_>, rate: Option<u64>) -> Result<String, AllocError> {
    let mut text = String::new(alloc);
    text.push_str(
        "xmlns=\"http://www.w3.org/2000/svg\" viewBox=\"0 0 960 695\" font-family=\"sans-serif\" font-size=\"13\" fill=\"#222\">\n<rect width=\"960\" height=\"695\" fill=\"#fff\"/>\n",
    )?;
    add_heading(&mut text, shown, rate)?;
    add_bars(&mut text, shown.rising, shown.falling)?;
    text.push_str(
        "<text x=\"497\" y=\"426\" text-anchor=\"middle\">distance of an edge from its place, in unit intervals (UI, one cell): early to the left, late to the right</text>\n",
    )?;
    text.push_str(
        "<g font-size=\"11\" fill=\"#555\" text-anchor=\"middle\"><text x=\"497\" y=\"443\">Places are on a clock that follows the line's own jitter up to about 1/2800 of the cell rate (2.2 kHz at 48 kHz), not above.</text><text x=\"497\" y=\"457\">AES3 asks a receiver to tolerate jitter of 0.25 UI peak to peak above 8 kHz, and more below: up to 10 UI under 200 Hz.</text></g>\n",
    )?;
    text.push_str(
        "<text x=\"75\" y=\"490\" font-weight=\"bold\">Samples a cell, over time</text>\n",
    )?;
    let times = Times {
        samples: shown.samples,
        rate,
    };
    add_curve(&mut text, shown.periods, times)?;
    add_strip(
        &mut text,
        shown.periods,
        shown.stretches,
        shown.before,
        times,
    )?;
    add_legend(&mut text, shown)?;
    text.push_str("</svg>\n")?;
    Ok(text)
}

/// Appends what was found in all.
fn add_heading(text: &mut String, shown: Shown<'_>, rate: Option<u64>) -> Result<(), AllocError> {
    text.push_str("<text x=\"30\" y=\"34\" font-size=\"20\" font-weight=\"bold\">")?;
    add_title(text, shown, rate)?;
    text.push_str("</text>\n<text x=\"30\" y=\"58\">")?;
    let edges = shown.rising.edges().saturating_add(shown.falling.edges());
    let rms = shown.rising.rms_with(shown.falling);
    let greatest = shown.rising.greatest().max(shown.falling.greatest());
    let (edges, rms, greatest) = (
        Grouped(edges),
        Intervals(rms),
        Intervals(ten_thousandths(greatest)),
    );
    writeln!(
        text,
        "{edges} edges: {rms} UI rms from their places, {greatest} UI at most</text>"
    )?;
    add_direction(text, "rising", "#1f6fb4", 78, shown.rising)?;
    add_direction(text, "falling", "#d9822b", 98, shown.falling)
}

/// Appends how long a cell is, and the line's sampling frequency.
fn add_title(text: &mut String, shown: Shown<'_>, rate: Option<u64>) -> Result<(), AllocError> {
    if !shown.is_found {
        return text.push_str("No AES3 line was found");
    }
    let thousandths = shown.period.saturating_mul(1000) / 65_536;
    write!(
        text,
        "AES3 line: {}.{:03} samples a cell",
        thousandths / 1000,
        thousandths % 1000
    )?;
    match rate {
        Some(rate) => {
            let frequency = Grouped(rate.saturating_mul(512) / shown.period.max(1));
            write!(text, ", {frequency} Hz")
        }
        None => Ok(()),
    }
}

/// Appends what was found of the edges of one direction.
fn add_direction(
    text: &mut String,
    name: &str,
    color: &str,
    y: u64,
    edges: &Histogram,
) -> Result<(), AllocError> {
    let mean = edges.mean();
    let side = if mean.is_early { "early" } else { "late" };
    let (count, mean, rms, width) = (
        Grouped(edges.edges()),
        Intervals(ten_thousandths(mean.size >> 16)),
        Intervals(edges.rms_about_mean()),
        Intervals(ten_thousandths(edges.width())),
    );
    let top = y.saturating_sub(11);
    writeln!(
        text,
        "<rect x=\"30\" y=\"{top}\" width=\"12\" height=\"12\" fill=\"{color}\"/><text x=\"48\" y=\"{y}\">{count} {name}: {mean} UI {side} on average, {rms} UI rms about that, {width} UI peak to peak</text>"
    )
}

/// Appends what the colours of the strip mean.
fn add_legend(text: &mut String, shown: Shown<'_>) -> Result<(), AllocError> {
    text.push_str(
        "<g font-size=\"12\"><rect x=\"75\" y=\"668\" width=\"12\" height=\"12\" fill=\"#8cc68c\"/><text x=\"92\" y=\"679\">line followed</text><rect x=\"200\" y=\"668\" width=\"12\" height=\"12\" fill=\"#f3c766\"/><text x=\"217\" y=\"679\">edges, but no line followed</text><rect x=\"405\" y=\"668\" width=\"12\" height=\"12\" fill=\"#3a3a3a\"/>",
    )?;
    let dead = Grouped(shown.dead);
    let samples = Grouped(shown.samples);
    writeln!(
        text,
        "<text x=\"422\" y=\"679\">no signal ({dead} times after a line or edges)</text><text x=\"920\" y=\"679\" text-anchor=\"end\">{samples} samples</text></g>"
    )
}
