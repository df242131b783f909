//! Events of a watched line, and their lines.

ghost use Rattle.std.specs.Prelude.{◌≡◌, ◌<◌, ◌≤◌, ◌+◌, ◌*◌, ◌%◌, ◌^◌, ◌++◌, length, codes, decimal};
ghost use Rattle.aes3_cell.specs.Writes.{Wrote};
ghost use Rattle.hex.specs.Hex.{encode_lower};
ghost use Rattle.aes3_text_lines.specs.Events.{closing, event_fields, event_line, event_place};
ghost use Rattle.aes3_text_lines.specs.Events.{event_word, field_name, lock_word, marking_word};
ghost use Rattle.aes3_text_lines.specs.Events.{number_field, opening, place_fields, second_cells};
ghost use Rattle.aes3_text_lines.specs.Events.{seconds, time_field, word_field};
ghost use Rattle.aes3_text_lines.specs.MarkLines.{level_digit};
ghost use Rattle.aes3_text_lines.specs.StatusLines.{channel_digit};

use crate::status_line::channel_digit as channel_number;
use crate::tail::digit_of;
use aes3_cell::{Fault, Level, Sink};
use aes3_frame::Channel;
use aes3_status::{DIGITS, LINE_LEN, Line, Notation, Style};

/// The validity bits of a channel in a block; 0 means that the sample is valid (AES3-1, IEC
/// 60958-1).
#[derive(Clone, Copy)]
pub enum Marking {
    /// All are 0.
    Clear,
    /// All are 1.
    Set,
    /// Some are 0, some are 1.
    Mixed,
}

/// What changes on a line, and where. Cells are counted from 0.
#[derive(Clone, Copy)]
pub enum Event {
    /// The first whole block begins at this cell, after this level.
    Locked {
        at: u64,
        before: Level,
    },
    /// At least a block's length of cells from this cell on lies in no whole block.
    Lost {
        at: u64,
    },
    /// The first whole block after lost cells begins at this cell; `lost` is the number of these
    /// cells.
    Back {
        at: u64,
        lost: u64,
    },
    /// A whole block begins at this cell. It begins `cells` cells after the whole block before it;
    /// `cells` is less than a block's length.
    Slipped {
        at: u64,
        cells: u64,
    },
    /// The whole block at this cell has another status of this channel than the one before it.
    Status {
        at: u64,
        channel: Channel,
        status: [u8; 24],
    },
    /// The whole block at this cell has other validity bits of this channel than the one before it.
    Validity {
        at: u64,
        channel: Channel,
        marking: Marking,
    },
    /// The cells end before this cell.
    End {
        at: u64,
        locked: bool,
    },
}

impl Default for Event {
    ghost use Rattle.std.specs.Prelude.{◌≡◌};
    ghost use Rattle.aes3_text_lines.specs.declared.event.Event.TheVariants.{Lost};

    ghost is_default = { λ event. event ≡ Lost 0 };

    fn default() -> Self {
        Event::Lost { at: 0 }
    }
}

/// How many bytes the name of a field or the word of an event has at most.
const NAME_LEN: usize = 10;

/// How many bytes a word in a field has at most; a status is the longest.
const WORD_LEN: usize = 48;

/// How many bytes a field has at most.
pub(crate) const FIELD_LEN: usize = 64;

/// How many cells a frame has.
const FRAME_CELLS: u64 = 128;

/// Begins the line of an event with this word.
#[tactic(auto, unfolding(crate::specs::Events::opening))]
pub(crate) fn put_opening(line: &mut Line, notation: Notation, word: &str)
    requires word { length word.now ≤ NAME_LEN }
    requires none { length line.old ≡ 0 }
    ensures text { line.new ≡ line.old ++ opening notation word.now }
    ensures len { length line.new ≤ FIELD_LEN }
{
    match notation {
        Notation::Words => line.text(word),
        Notation::Json => {
            line.text("{\"event\":\"");
            line.text(word);
            line.text("\"");
        }
    }
}

/// Appends the name of a field whose value is a number.
#[tactic(auto, unfolding(crate::specs::Events::field_name))]
fn put_name(line: &mut Line, notation: Notation, name: &str)
    requires name { length name.now ≤ NAME_LEN }
    requires space { length line.old + FIELD_LEN ≤ LINE_LEN }
    ensures text { line.new ≡ line.old ++ field_name notation name.now }
    ensures len { length line.new ≤ length line.old + NAME_LEN + 4 }
{
    match notation {
        Notation::Words => {
            line.text(" ");
            line.text(name);
            line.text(" ");
        }
        Notation::Json => {
            line.text(",\"");
            line.text(name);
            line.text("\":");
        }
    }
}

/// Appends a field with a number.
pub(crate) fn put_number(line: &mut Line, notation: Notation, name: &str, number: u64)
    requires name { length name.now ≤ NAME_LEN }
    requires space { length line.old + FIELD_LEN ≤ LINE_LEN }
    ensures text { line.new ≡ line.old ++ number_field notation name.now (decimal number) }
    ensures len { length line.new ≤ length line.old + FIELD_LEN }
{
    put_name(line, notation, name);
    line.number(number);
}

/// Appends a field with a word.
#[tactic(auto, unfolding(crate::specs::Events::word_field))]
fn put_word(line: &mut Line, notation: Notation, name: &str, word: &[u8])
    requires name { length name.now ≤ NAME_LEN }
    requires word { length word.now ≤ WORD_LEN }
    requires space { length line.old + 2 * FIELD_LEN ≤ LINE_LEN }
    ensures text { line.new ≡ line.old ++ word_field notation name.now word.now }
    ensures len { length line.new ≤ length line.old + 2 * FIELD_LEN }
{
    match notation {
        Notation::Words => {
            line.text(" ");
            line.bytes(word);
        }
        Notation::Json => {
            line.text(",\"");
            line.text(name);
            line.text("\":\"");
            line.bytes(word);
            line.text("\"");
        }
    }
}

/// The last digit of a number.
fn digit(number: u64) -> u8
    ensures { result ≡ 48 + number % 10 }
{
    b'0' + (number % 10) as u8
}

/// How many cells a second has at `rate` frames in a second.
fn second_cells(rate: u32) -> u64
    ensures cells { result ≡ second_cells rate }
    ensures some { 0 < result }
    ensures few { result < 2 ^ 40 }
{
    FRAME_CELLS * u64::from(rate.max(1))
}

/// Appends the time at which cell `at` begins, in seconds, if a second has `cells` cells.
#[tactic(auto, unfolding(crate::specs::Events::seconds))]
fn put_seconds(line: &mut Line, cells: u64, at: u64)
    requires some { 0 < cells }
    requires few { cells < 2 ^ 40 }
    requires space { length line.old + DIGITS + 4 ≤ LINE_LEN }
    ensures text { line.new ≡ line.old ++ seconds cells at }
    ensures len { length line.new ≤ length line.old + DIGITS + 4 }
{
    line.number(at / cells);
    let thousandths = 1000 * (at % cells) / cells;
    line.bytes(&[
        b'.',
        digit(thousandths / 100),
        digit(thousandths / 10),
        digit(thousandths),
    ]);
}

/// Appends the time of cell `at`, if the rate is known.
#[tactic(auto, unfolding(crate::specs::Events::time_field))]
pub(crate) fn put_time(line: &mut Line, style: &Style, at: u64)
    requires space { length line.old + FIELD_LEN ≤ LINE_LEN }
    ensures text { line.new ≡ line.old ++ time_field style.now.notation style.now.rate at }
    ensures len { length line.new ≤ length line.old + FIELD_LEN }
{
    if let Some(rate) = style.rate {
        put_name(line, style.notation, "time");
        put_seconds(line, second_cells(rate), at);
    }
}

/// Appends the place of an event.
#[tactic(auto, unfolding(crate::specs::Events::place_fields))]
fn put_place(line: &mut Line, style: &Style, at: u64)
    requires space { length line.old + 2 * FIELD_LEN ≤ LINE_LEN }
    ensures text { line.new ≡ line.old ++ place_fields style.now at }
    ensures len { length line.new ≤ length line.old + 2 * FIELD_LEN }
{
    put_number(line, style.notation, "at", at);
    put_time(line, style, at);
}

/// The word of an event.
fn word_of(event: &Event) -> &'static str
    ensures word { result.now ≡ event_word event.now }
    ensures len { length result.now ≤ NAME_LEN }
{
    match event {
        Event::Locked { .. } => "locked",
        Event::Lost { .. } => "lost",
        Event::Back { .. } => "back",
        Event::Slipped { .. } => "slipped",
        Event::Status { .. } => "status",
        Event::Validity { .. } => "validity",
        Event::End { .. } => "end",
    }
}

/// The place of an event.
fn place_of(event: &Event) -> u64
    ensures { result ≡ event_place event.now }
{
    match event {
        Event::Locked { at, .. }
        | Event::Lost { at }
        | Event::Back { at, .. }
        | Event::Slipped { at, .. }
        | Event::Status { at, .. }
        | Event::Validity { at, .. }
        | Event::End { at, .. } => *at,
    }
}

/// The state of validity bits, in one word.
fn marking_word(marking: Marking) -> &'static str
    ensures word { result.now ≡ marking_word marking }
    ensures len { length result.now ≤ NAME_LEN }
{
    match marking {
        Marking::Clear => "clear",
        Marking::Set => "set",
        Marking::Mixed => "mixed",
    }
}

/// Whether a line is locked, in one word.
fn lock_word(locked: bool) -> &'static str
    ensures word { result.now ≡ lock_word locked }
    ensures len { length result.now ≤ NAME_LEN }
{
    if locked { "locked" } else { "lost" }
}

/// Appends the number of a channel.
fn put_channel(line: &mut Line, notation: Notation, channel: Channel)
    requires space { length line.old + FIELD_LEN ≤ LINE_LEN }
    ensures text { line.new
        ≡ line.old ++ number_field notation (codes "channel") (channel_digit channel) }
    ensures len { length line.new ≤ length line.old + FIELD_LEN }
{
    put_name(line, notation, "channel");
    line.text(channel_number(channel));
}

/// Appends the level before a block.
fn put_level(line: &mut Line, notation: Notation, before: Level)
    requires space { length line.old + FIELD_LEN ≤ LINE_LEN }
    ensures text { line.new ≡ line.old ++ number_field notation (codes "before") (level_digit before) }
    ensures len { length line.new ≤ length line.old + FIELD_LEN }
{
    put_name(line, notation, "before");
    line.bytes(digit_of(before));
}

/// Appends a status.
fn put_status(line: &mut Line, notation: Notation, status: &[u8; 24])
    requires space { length line.old + 2 * FIELD_LEN ≤ LINE_LEN }
    ensures text { line.new
        ≡ line.old ++ word_field notation (codes "status") (encode_lower status.now) }
    ensures len { length line.new ≤ length line.old + 2 * FIELD_LEN }
{
    let mut digits = [0; WORD_LEN];
    let _ = hex::encode_to_slice(status, &mut digits);
    put_word(line, notation, "status", &digits);
}

/// Appends what an event says besides its place.
fn put_fields(line: &mut Line, notation: Notation, event: &Event)
    requires space { length line.old + 4 * FIELD_LEN ≤ LINE_LEN }
    ensures text { line.new ≡ line.old ++ event_fields notation event.now }
    ensures len { length line.new ≤ length line.old + 4 * FIELD_LEN }
{
    match event {
        Event::Locked { before, .. } => put_level(line, notation, *before),
        Event::Lost { .. } => {}
        Event::Back { lost, .. } => put_number(line, notation, "lost", *lost),
        Event::Slipped { cells, .. } => put_number(line, notation, "cells", *cells),
        Event::Status {
            channel,
            status,
            ..
        } => {
            put_channel(line, notation, *channel);
            put_status(line, notation, status);
        }
        Event::Validity {
            channel,
            marking,
            ..
        } => {
            put_channel(line, notation, *channel);
            put_word(
                line,
                notation,
                "validity",
                marking_word(*marking).as_bytes(),
            );
        }
        Event::End { locked, .. } => {
            put_word(line, notation, "state", lock_word(*locked).as_bytes());
        }
    }
}

/// Appends the end of the line of an event.
#[tactic(auto, unfolding(crate::specs::Events::closing))]
pub(crate) fn put_closing(line: &mut Line, notation: Notation)
    requires space { length line.old + FIELD_LEN ≤ LINE_LEN }
    ensures text { line.new ≡ line.old ++ closing notation }
    ensures len { length line.new ≤ length line.old + FIELD_LEN }
{
    match notation {
        Notation::Words => {}
        Notation::Json => line.text("}"),
    }
}

/// Writes the line of an event as one buffer.
///
/// # Errors
/// The sink's fault; then it has taken a front of the line.
#[tactic(auto, unfolding(crate::specs::Events::event_line))]
pub fn line_of_event<T: Sink>(style: &Style, event: &Event, sink: &mut T) -> Result<(), Fault>
    requires room { T.failed sink.old + 1 < 2 ^ 64 }
    ensures { Wrote T.taken T.failed sink.old sink.new (event_line style.now event.now) result }
{
    let mut line = Line::new();
    put_opening(&mut line, style.notation, word_of(event));
    put_place(&mut line, style, place_of(event));
    put_fields(&mut line, style.notation, event);
    put_closing(&mut line, style.notation);
    line.end(sink)
}
