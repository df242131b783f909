//! The page, field by field.

ghost use Rattle.std.specs.Prelude.{◌≡◌, ◌<◌, ◌≤◌, ◌+◌, ◌*◌, ◌/◌, ◌%◌, ◌^◌, [], ◌++◌, length, codes, decimal};
ghost use Rattle.hex.specs.Hex.{encode_lower};
ghost use Rattle.aes3_cell.specs.Writes.{Wrote};
ghost use Rattle.aes3_text_lines.specs.Events.{second_cells, seconds};
ghost use Rattle.aes3_text_lines.specs.StatusLines.{channel_digit};
ghost use Rattle.aes3_info.specs.Pages.{answer, block_fields, channel_field, channel_fields, closing, field, field_end};
ghost use Rattle.aes3_info.specs.Pages.{field_name, gap_fields, head, level_value};
ghost use Rattle.aes3_info.specs.Pages.{no_level, opening, page, page_rate, rate_value, sample_fields};
ghost use Rattle.aes3_info.specs.Pages.{seconds_value, silence_value, status_field, tenths_value};
ghost use Rattle.aes3_info.specs.Pages.{time_fields, unknown};

use crate::channel_facts::ChannelFacts;
use crate::decibels::{FULL_POWER, full_energy, level_of};
use crate::facts::Facts;
use crate::rate::rate_of;
use crate::samples::square;
use aes3_block::Channel;
use aes3_cell::{Fault, Sink, write_all};
use aes3_status::{LINE_LEN, Line, Notation, put_status};

/// How many bytes the name of a field has at most.
const NAME_LEN: usize = 12;

/// How many bytes a field has at most, except that of a status.
const FIELD_LEN: usize = 64;

/// How many bytes a value has at most.
const VALUE_LEN: usize = 32;

/// How many cells a frame has.
const FRAME_CELLS: u64 = 128;

/// The number of a channel.
fn digit_of(channel: Channel) -> &'static str
    ensures digit { result.now ≡ channel_digit channel }
    ensures len { length result.now ≡ 1 }
{
    match channel {
        Channel::First => "1",
        Channel::Second => "2",
    }
}

/// Begins the page with the number of its cells.
#[tactic(auto, unfolding(crate::specs::Pages::opening))]
fn put_opening(line: &mut Line, notation: Notation, cells: u64)
    requires none { length line.old ≡ 0 }
    ensures text { line.new ≡ line.old ++ opening notation cells }
    ensures len { length line.new ≤ FIELD_LEN }
{
    match notation {
        Notation::Words => {
            line.text("cells ");
            line.number(cells);
            line.text("\n");
        }
        Notation::Json => {
            line.text("{\"cells\":");
            line.number(cells);
        }
    }
}

/// Appends the name of a field, and the number of its channel.
#[tactic(auto, unfolding(crate::specs::Pages::field_name))]
fn put_name(line: &mut Line, notation: Notation, name: &str, digit: &str)
    requires name { length name.now ≤ NAME_LEN }
    requires digit { length digit.now ≤ 1 }
    requires space { length line.old + FIELD_LEN ≤ LINE_LEN }
    ensures text { line.new ≡ line.old ++ field_name notation name.now digit.now }
    ensures len { length line.new ≤ length line.old + NAME_LEN + 5 }
{
    match notation {
        Notation::Words => {
            line.text(name);
            line.text(digit);
            line.text(" ");
        }
        Notation::Json => {
            line.text(",\"");
            line.text(name);
            line.text(digit);
            line.text("\":");
        }
    }
}

/// Appends what follows the value of a field.
#[tactic(auto, unfolding(crate::specs::Pages::field_end))]
fn put_end(line: &mut Line, notation: Notation)
    requires space { length line.old + 1 ≤ LINE_LEN }
    ensures text { line.new ≡ line.old ++ field_end notation }
    ensures len { length line.new ≤ length line.old + 1 }
{
    match notation {
        Notation::Words => line.text("\n"),
        Notation::Json => {}
    }
}

/// The value if nothing is known.
fn unknown_word(notation: Notation) -> &'static str
    ensures text { result.now ≡ unknown notation }
    ensures len { length result.now ≤ 7 }
{
    match notation {
        Notation::Words => "unknown",
        Notation::Json => "null",
    }
}

/// Appends a field with a number.
#[tactic(auto, unfolding(crate::specs::Pages::field))]
fn put_number(line: &mut Line, notation: Notation, name: &str, number: u64)
    requires name { length name.now ≤ NAME_LEN }
    requires space { length line.old + FIELD_LEN ≤ LINE_LEN }
    ensures text { line.new ≡ line.old ++ field notation name.now (decimal number) }
    ensures len { length line.new ≤ length line.old + FIELD_LEN }
{
    put_name(line, notation, name, "");
    line.number(number);
    put_end(line, notation);
}

/// Appends a field of a channel with a number.
#[tactic(auto, unfolding(crate::specs::Pages::channel_field))]
fn put_channel_number(
    line: &mut Line,
    notation: Notation,
    name: &str,
    channel: Channel,
    number: u64,
)
    requires name { length name.now ≤ NAME_LEN }
    requires space { length line.old + FIELD_LEN ≤ LINE_LEN }
    ensures text { line.new ≡ line.old ++ channel_field notation name.now channel (decimal number) }
    ensures len { length line.new ≤ length line.old + FIELD_LEN }
{
    put_name(line, notation, name, digit_of(channel));
    line.number(number);
    put_end(line, notation);
}

/// The last digit of a number.
fn digit(number: u64) -> u8
    ensures { result ≡ 48 + number % 10 }
{
    b'0' + (number % 10) as u8
}

/// How many cells a second has at `rate` frames in a second.
fn second_cells(rate: u32) -> u64
    ensures cells { result ≡ second_cells rate }
    ensures some { 0 < result }
    ensures few { result < 2 ^ 40 }
{
    FRAME_CELLS * u64::from(rate.max(1))
}

/// Appends how long `cells` cells take, in seconds, if a second has `second` cells.
#[tactic(auto, unfolding(aes3_text_lines::specs::Events::seconds))]
fn put_seconds(line: &mut Line, cells: u64, second: u64)
    requires some { 0 < second }
    requires few { second < 2 ^ 40 }
    requires space { length line.old + VALUE_LEN ≤ LINE_LEN }
    ensures text { line.new ≡ line.old ++ seconds second cells }
    ensures len { length line.new ≤ length line.old + VALUE_LEN }
{
    line.number(cells / second);
    let thousandths = 1000 * (cells % second) / second;
    line.bytes(&[
        b'.',
        digit(thousandths / 100),
        digit(thousandths / 10),
        digit(thousandths),
    ]);
}

/// Appends a rate.
#[tactic(auto, unfolding(crate::specs::Pages::rate_value))]
fn put_rate(line: &mut Line, notation: Notation, rate: Option<u32>)
    requires space { length line.old + VALUE_LEN ≤ LINE_LEN }
    ensures text { line.new ≡ line.old ++ rate_value notation rate }
    ensures len { length line.new ≤ length line.old + VALUE_LEN }
{
    match rate {
        Some(rate) => line.number(u64::from(rate)),
        None => line.text(unknown_word(notation)),
    }
}

/// Appends how long `cells` cells take, if the rate is known.
#[tactic(auto, unfolding(crate::specs::Pages::seconds_value))]
fn put_length(line: &mut Line, notation: Notation, rate: Option<u32>, cells: u64)
    requires space { length line.old + VALUE_LEN ≤ LINE_LEN }
    ensures text { line.new ≡ line.old ++ seconds_value notation rate cells }
    ensures len { length line.new ≤ length line.old + VALUE_LEN }
{
    match rate {
        Some(rate) => put_seconds(line, cells, second_cells(rate)),
        None => line.text(unknown_word(notation)),
    }
}

/// The rate that the first whole block names in channel 1.
#[tactic(auto, unfolding(crate::specs::Pages::page_rate))]
fn page_rate(facts: &Facts) -> Option<u32>
    ensures { result ≡ page_rate facts.now }
{
    match facts.first.first {
        Some(status) => rate_of(&status),
        None => None,
    }
}

/// Appends the rate and the length.
#[tactic(auto, unfolding(crate::specs::Pages::time_fields, crate::specs::Pages::field))]
fn put_times(line: &mut Line, notation: Notation, facts: &Facts)
    requires space { length line.old + 2 * FIELD_LEN ≤ LINE_LEN }
    ensures text { line.new ≡ line.old ++ time_fields notation facts.now }
    ensures len { length line.new ≤ length line.old + 2 * FIELD_LEN }
{
    let rate = page_rate(facts);
    put_name(line, notation, "rate", "");
    put_rate(line, notation, rate);
    put_end(line, notation);
    put_name(line, notation, "seconds", "");
    put_length(line, notation, rate, facts.cells);
    put_end(line, notation);
}

/// Appends the reports by their kinds.
#[tactic(auto, unfolding(crate::specs::Pages::block_fields))]
fn put_blocks(line: &mut Line, notation: Notation, facts: &Facts)
    requires space { length line.old + 7 * FIELD_LEN ≤ LINE_LEN }
    ensures text { line.new ≡ line.old ++ block_fields notation facts.now }
    ensures len { length line.new ≤ length line.old + 7 * FIELD_LEN }
{
    let reports = &facts.reports;
    put_number(line, notation, "whole", reports.whole);
    put_number(line, notation, "marked", reports.marked);
    put_number(line, notation, "fault", reports.fault);
    put_number(line, notation, "preamble", reports.preamble);
    put_number(line, notation, "biphase", reports.biphase);
    put_number(line, notation, "unclosed", reports.unclosed);
    put_number(line, notation, "unfinished", reports.unfinished);
}

/// Appends the gaps.
#[tactic(auto, unfolding(crate::specs::Pages::gap_fields))]
fn put_gaps(line: &mut Line, notation: Notation, facts: &Facts)
    requires space { length line.old + 3 * FIELD_LEN ≤ LINE_LEN }
    ensures text { line.new ≡ line.old ++ gap_fields notation facts.now }
    ensures len { length line.new ≤ length line.old + 3 * FIELD_LEN }
{
    let gaps = &facts.gaps;
    put_number(line, notation, "gaps", gaps.gaps);
    put_number(line, notation, "lost", gaps.lost);
    put_number(line, notation, "cut", gaps.cut);
}

/// The fields of the whole recording.
#[tactic(auto, unfolding(crate::specs::Pages::head))]
fn head_of(notation: Notation, facts: &Facts) -> Line
    ensures text { result ≡ head notation facts.now }
{
    let mut line = Line::new();
    put_opening(&mut line, notation, facts.cells);
    put_times(&mut line, notation, facts);
    put_blocks(&mut line, notation, facts);
    put_gaps(&mut line, notation, facts);
    line
}

/// Appends a status as 48 digits in quotes.
fn put_digits(line: &mut Line, status: &[u8; 24])
    requires space { length line.old + 50 ≤ LINE_LEN }
    ensures text { line.new
        ≡ line.old ++ codes "\"" ++ encode_lower status.now ++ codes "\"" }
    ensures len { length line.new ≤ length line.old + 50 }
{
    let mut digits = [0; 48];
    let _ = hex::encode_to_slice(status, &mut digits);
    line.text("\"");
    line.bytes(&digits);
    line.text("\"");
}

/// The field of a channel's status.
#[tactic(auto, unfolding(crate::specs::Pages::status_field, crate::specs::Pages::channel_field))]
fn status_of(notation: Notation, channel: Channel, status: &Option<[u8; 24]>) -> Line
    ensures text { result ≡ status_field notation channel status.now }
{
    let mut line = Line::new();
    match status {
        None => {
            put_name(&mut line, notation, "status", digit_of(channel));
            line.text(unknown_word(notation));
            put_end(&mut line, notation);
        }
        Some(status) => match notation {
            Notation::Words => {
                line.text("status");
                line.text(digit_of(channel));
                put_status(&mut line, status);
                line.text("\n");
            }
            Notation::Json => {
                put_name(&mut line, Notation::Json, "status", digit_of(channel));
                put_digits(&mut line, status);
                put_end(&mut line, Notation::Json);
            }
        },
    }
    line
}

/// Appends `tenths` tenths of a decibel below full scale, in decibels.
#[tactic(auto, unfolding(crate::specs::Pages::tenths_value))]
fn put_tenths(line: &mut Line, tenths: u64)
    requires space { length line.old + VALUE_LEN ≤ LINE_LEN }
    ensures text { line.new ≡ line.old ++ tenths_value tenths }
    ensures len { length line.new ≤ length line.old + VALUE_LEN }
{
    if tenths != 0 {
        line.text("-");
    }
    line.number(tenths / 10);
    line.bytes(&[b'.', digit(tenths)]);
}

/// The level if there is no power.
fn no_level(notation: Notation) -> &'static str
    ensures text { result.now ≡ no_level notation }
    ensures len { length result.now ≤ 4 }
{
    match notation {
        Notation::Words => "-inf",
        Notation::Json => "null",
    }
}

/// Appends a field of a channel with the level of a power.
#[tactic(auto, unfolding(crate::specs::Pages::channel_field, crate::specs::Pages::level_value))]
fn put_level(
    line: &mut Line,
    notation: Notation,
    name: &str,
    channel: Channel,
    power: u128,
    full: u128,
)
    requires name { length name.now ≤ NAME_LEN }
    requires space { length line.old + FIELD_LEN ≤ LINE_LEN }
    ensures text { line.new
        ≡ line.old ++ channel_field notation name.now channel (level_value notation power full) }
    ensures len { length line.new ≤ length line.old + FIELD_LEN }
{
    put_name(line, notation, name, digit_of(channel));
    if power == 0 {
        line.text(no_level(notation));
    } else {
        put_tenths(line, level_of(power, full));
    }
    put_end(line, notation);
}

/// Yes or no.
fn answer(notation: Notation, is: bool) -> &'static str
    ensures text { result.now ≡ answer notation is }
    ensures len { length result.now ≤ 5 }
{
    match (notation, is) {
        (Notation::Words, true) => "yes",
        (Notation::Words, false) => "no",
        (Notation::Json, true) => "true",
        (Notation::Json, false) => "false",
    }
}

/// Appends whether all samples of a channel are zero, if there is a block.
#[tactic(auto, unfolding(crate::specs::Pages::channel_field, crate::specs::Pages::silence_value))]
fn put_silence(line: &mut Line, notation: Notation, channel: Channel, whole: u64, greatest: u32)
    requires space { length line.old + FIELD_LEN ≤ LINE_LEN }
    ensures text { line.new ≡ line.old ++ channel_field notation (codes "silent") channel
        (silence_value notation whole greatest) }
    ensures len { length line.new ≤ length line.old + FIELD_LEN }
{
    put_name(line, notation, "silent", digit_of(channel));
    if whole == 0 {
        line.text(unknown_word(notation));
    } else {
        line.text(answer(notation, greatest == 0));
    }
    put_end(line, notation);
}

/// The fields of a channel of `whole` whole blocks after its status.
#[tactic(auto, unfolding(crate::specs::Pages::sample_fields))]
fn samples_of(notation: Notation, channel: Channel, whole: u64, facts: &ChannelFacts) -> Line
    ensures text { result ≡ sample_fields notation channel whole facts.now }
{
    let mut line = Line::new();
    let peak = u128::from(square(facts.samples.greatest));
    put_channel_number(&mut line, notation, "changes", channel, facts.changes);
    put_channel_number(&mut line, notation, "invalid", channel, facts.invalid);
    put_channel_number(
        &mut line,
        notation,
        "peak",
        channel,
        u64::from(facts.samples.greatest),
    );
    put_level(&mut line, notation, "peak_dbfs", channel, peak, FULL_POWER);
    put_level(
        &mut line,
        notation,
        "rms_dbfs",
        channel,
        facts.samples.energy,
        full_energy(whole),
    );
    put_silence(&mut line, notation, channel, whole, facts.samples.greatest);
    line
}

/// Writes the fields of a channel of `whole` whole blocks.
///
/// # Errors
/// The sink's fault; then it has taken a front of them.
fn put_channel<T: Sink>(
    sink: &mut T,
    notation: Notation,
    channel: Channel,
    whole: u64,
    facts: &ChannelFacts,
) -> Result<(), Fault>
    requires room { T.failed sink.old + 1 < 2 ^ 64 }
    ensures { Wrote T.taken T.failed sink.old sink.new
        (channel_fields notation channel whole facts.now) result }
{
    write_all(sink, status_of(notation, channel, &facts.first).as_bytes())?;
    write_all(sink, samples_of(notation, channel, whole, facts).as_bytes())
}

/// The end of the page.
fn closing(notation: Notation) -> &'static str
    ensures text { result.now ≡ closing notation }
{
    match notation {
        Notation::Words => "",
        Notation::Json => "}\n",
    }
}

/// Writes the page.
///
/// # Errors
/// The sink's fault; then it has taken a front of the page.
#[tactic(auto, unfolding(crate::specs::Pages::page))]
pub(crate) fn put_page<T: Sink>(
    sink: &mut T,
    notation: Notation,
    facts: &Facts,
) -> Result<(), Fault>
    requires room { T.failed sink.old + 1 < 2 ^ 64 }
    ensures { Wrote T.taken T.failed sink.old sink.new (page notation facts.now) result }
{
    let whole = facts.reports.whole;
    write_all(sink, head_of(notation, facts).as_bytes())?;
    put_channel(sink, notation, Channel::First, whole, &facts.first)?;
    put_channel(sink, notation, Channel::Second, whole, &facts.second)?;
    write_all(sink, closing(notation).as_bytes())
}
