//! The curve of a picture: the length of a cell over time, and where there was a line.

ghost use Rattle.std.specs.Prelude.{◌≤◌};

use crate::numbers::{Grouped, Tenths, round_up, share};
use crate::periods::{POINTS, Periods};
use crate::stretches::{Stretch, Stretches};
use std::alloc::AllocError;
use std::fmt::Write;

/// Places and lengths in the picture, in tenths of its unit: where time begins, how long it is, the
/// line of the mean length of a cell, and the greatest distance from it.
const LEFT: u64 = 750;

const LEN: u64 = 8450;

const MIDDLE: u64 = 5550;

const HEIGHT: u64 = 500;

/// The times of a capture.
#[derive(Clone, Copy)]
pub(crate) struct Times {
    /// How many samples it has.
    pub samples: u64,
    /// Samples in a second, if that is known.
    pub rate: Option<u64>,
}

impl Times {
    /// The place of a sample.
    fn at(self, sample: u64) -> u64
        ensures { result ≤ 9200 }
    {
        LEFT + share(sample, self.samples, LEN)
    }
}

/// The scale of lengths of a cell.
#[derive(Clone, Copy)]
struct Scale {
    /// The mean length of a cell, in 2^-32 of a sample.
    mean: u64,
    /// The millionths of it that the curve reaches at its top and bottom.
    range: u64,
}

impl Scale {
    /// The scale of these periods; `None` if no cell was measured.
    fn of(periods: &Periods) -> Option<Scale> {
        let mean = periods.whole().period()?;
        let mut greatest = 0;
        for number in 0..POINTS {
            if let Some(period) = periods.point(number).period() {
                greatest = greatest.max(millionths(period.abs_diff(mean), mean));
            }
        }
        Some(Scale {
            mean,
            range: round_up(greatest.saturating_add(1).max(10)),
        })
    }

    /// The place of a length of a cell.
    fn at(self, period: u64) -> u64
        ensures { result ≤ 6050 }
    {
        let distance = share(
            period.abs_diff(self.mean).saturating_mul(1000),
            (self.mean / 1000).saturating_mul(self.range),
            HEIGHT,
        );
        if period > self.mean {
            MIDDLE - distance
        } else {
            MIDDLE + distance
        }
    }
}

/// How many millionths of a whole a part is; a million at most.
fn millionths(part: u64, whole: u64) -> u64
    ensures { result ≤ 1000000 }
{
    share(part, whole, 1_000_000)
}

/// Appends a length of a cell, given in 2^-32 of a sample, in samples.
fn add_period(text: &mut String, period: u64) -> Result<(), AllocError> {
    let millionths = ((period & 0xFFFF_FFFF) * 1_000_000) >> 32;
    write!(text, "{}.{millionths:06}", period >> 32)
}

/// Appends the curve, with the scale of times.
pub(crate) fn add_curve(
    text: &mut String,
    periods: &Periods,
    times: Times,
) -> Result<(), AllocError> {
    match Scale::of(periods) {
        None => text.push_str(
            "<text x=\"497\" y=\"559\" text-anchor=\"middle\" fill=\"#555\">no line was followed</text>\n",
        )?,
        Some(scale) => {
            add_scale(text, scale)?;
            add_points(text, periods, times, scale)?;
        }
    }
    text.push_str(
        "<rect x=\"75\" y=\"500\" width=\"845\" height=\"110\" fill=\"none\" stroke=\"#222\"/>\n",
    )?;
    add_times(text, times)
}

/// Appends the scale of lengths.
fn add_scale(text: &mut String, scale: Scale) -> Result<(), AllocError> {
    text.push_str(
        "<g font-size=\"11\" text-anchor=\"end\" fill=\"#555\"><path d=\"M75 505H920M75 555H920M75 605H920\" stroke=\"#bbb\" stroke-width=\"0.5\"/>",
    )?;
    let range = Grouped(scale.range);
    write!(
        text,
        "<text x=\"70\" y=\"509\">+{range} ppm</text><text x=\"70\" y=\"609\">-{range} ppm</text><text x=\"70\" y=\"559\">"
    )?;
    add_period(text, scale.mean)?;
    text.push_str("</text></g>\n")
}

/// Appends the curve itself, and for each point what was measured there.
fn add_points(
    text: &mut String,
    periods: &Periods,
    times: Times,
    scale: Scale,
) -> Result<(), AllocError> {
    let span = periods.samples_a_point();
    text.push_str("<path fill=\"none\" stroke=\"#7a3f98\" stroke-width=\"1.2\" d=\"")?;
    let mut pen = "M";
    for number in 0..POINTS {
        match periods.point(number).period() {
            Some(period) => {
                let middle = span.saturating_mul(number as u64).saturating_add(span / 2);
                let (x, y) = (Tenths(times.at(middle)), Tenths(scale.at(period)));
                write!(text, "{pen}{x} {y}")?;
                pen = "L";
            }
            None => pen = "M",
        }
    }
    text.push_str("\"/>\n<g fill=\"#7a3f98\">\n")?;
    for number in 0..POINTS {
        if let Some(period) = periods.point(number).period() {
            let from = span.saturating_mul(number as u64);
            add_point(text, times, from, span, scale.at(period), period)?;
        }
    }
    text.push_str("</g>\n")
}

/// Appends what was measured in a span of samples from this one on.
fn add_point(
    text: &mut String,
    times: Times,
    from: u64,
    span: u64,
    at: u64,
    period: u64,
) -> Result<(), AllocError> {
    let to = from.saturating_add(span);
    let left = times.at(from);
    let width = Tenths(times.at(to).saturating_sub(left).max(10));
    let (left, top) = (Tenths(left), Tenths(at.saturating_sub(10)));
    let last = to.saturating_sub(1).min(times.samples.saturating_sub(1));
    write!(
        text,
        "<rect x=\"{left}\" y=\"{top}\" width=\"{width}\" height=\"2\"><title>samples {from} to {last}: "
    )?;
    add_period(text, period)?;
    text.push_str(" samples a cell</title></rect>\n")
}

/// Appends where the line was followed, where there were edges but no line, and where there was no
/// signal.
pub(crate) fn add_strip(
    text: &mut String,
    periods: &Periods,
    stretches: &Stretches,
    before: u64,
    times: Times,
) -> Result<(), AllocError> {
    text.push_str(
        "<rect x=\"75\" y=\"622\" width=\"845\" height=\"16\" fill=\"#f3c766\"/>\n<g fill=\"#8cc68c\">\n",
    )?;
    let span = periods.samples_a_point();
    let mut begun = None;
    for number in 0..=POINTS {
        let from = span.saturating_mul(number as u64);
        match (periods.point(number).period(), begun) {
            (Some(_), None) => begun = Some(from),
            (None, Some(first)) => {
                add_part(text, times, first, from)?;
                text.push_str("/>\n")?;
                begun = None;
            }
            _ => {}
        }
    }
    text.push_str("</g>\n<g fill=\"#3a3a3a\">\n")?;
    if before > 0 {
        let first = Stretch {
            from: 0,
            to: before,
            count: 1,
        };
        add_stretch(text, times, first)?;
    }
    for stretch in stretches.list().iter() {
        add_stretch(text, times, *stretch)?;
    }
    text.push_str("</g>\n")
}

/// Appends the beginning of a part of the strip.
fn add_part(text: &mut String, times: Times, from: u64, to: u64) -> Result<(), AllocError> {
    let left = times.at(from);
    let width = Tenths(times.at(to).saturating_sub(left).max(10));
    let left = Tenths(left);
    write!(
        text,
        "<rect x=\"{left}\" y=\"622\" width=\"{width}\" height=\"16\""
    )
}

/// Appends a stretch without signal.
fn add_stretch(text: &mut String, times: Times, stretch: Stretch) -> Result<(), AllocError> {
    add_part(text, times, stretch.from, stretch.to)?;
    let (from, last) = (stretch.from, stretch.to.saturating_sub(1));
    if stretch.count == 1 {
        writeln!(
            text,
            "><title>no signal: samples {from} to {last}</title></rect>"
        )
    } else {
        let count = stretch.count;
        writeln!(
            text,
            "><title>{count} stretches without signal: samples {from} to {last}</title></rect>"
        )
    }
}

/// A time in nanoseconds is given in this unit, if times are so far apart.
const UNITS: [(u64, &str); 4] = [
    (1_000_000_000, " s"),
    (1_000_000, " ms"),
    (1000, " us"),
    (1, " ns"),
];

/// Appends the scale of times: in seconds if the samples' rate is known, else in samples.
fn add_times(text: &mut String, times: Times) -> Result<(), AllocError> {
    let (whole, unit, name) = match times.rate {
        None => (times.samples, 1, ""),
        Some(rate) => {
            let whole = nanoseconds(times.samples, rate);
            let (unit, name) = unit_for(round_up(whole / 8));
            (whole, unit, name)
        }
    };
    let step = round_up((whole / 8).max(1));
    text.push_str("<g font-size=\"12\" text-anchor=\"middle\">\n")?;
    for number in 0..9 {
        let time = step.saturating_mul(number);
        if time <= whole {
            let at = Tenths(LEFT + share(time, whole, LEN));
            let label = Grouped(time / unit.max(1));
            writeln!(
                text,
                "<path d=\"M{at} 638v5\" stroke=\"#222\"/><text x=\"{at}\" y=\"657\">{label}{name}</text>"
            )?;
        }
    }
    text.push_str("</g>\n")
}

/// How many nanoseconds these samples take.
fn nanoseconds(samples: u64, rate: u64) -> u64 {
    let time = u128::from(samples) * 1_000_000_000 / u128::from(rate.max(1));
    time.min(u128::from(u64::MAX)) as u64
}

/// The unit for times that are so many nanoseconds apart, and its name.
fn unit_for<'a>(step: u64) -> (u64, &'a str) {
    for (unit, name) in UNITS {
        if step >= unit {
            return (unit, name);
        }
    }
    (1, " ns")
}
