//! A watched line: what changes on it, as plain numbers.

ghost use Rattle.std.specs.Prelude.{◌≡◌, ◌≤◌, ◌^◌, ◌++◌, ◌∷◌, [], List, Some, None, drop, length};
ghost use Rattle.std.specs.Prelude.{map, take};
ghost use Rattle.arrayvec.specs.ArrayVec.{array_vec_len};
ghost use Rattle.aes3_level.specs.declared.level.Level.{Level};
ghost use Rattle.aes3_frame.specs.Files.{payload_of};
ghost use Rattle.aes3_lock.specs.declared.report.Report.{Report};
ghost use Rattle.aes3_lock.specs.Remains.{place_of};
ghost use Rattle.aes3_lock.specs.Reports.{decided, reports};
ghost use Rattle.aes3_lock_gaps.specs.Told.{report_with};
ghost use Rattle.aes3_watch.specs.Watching.{next, told_events, watch_events};
ghost use Rattle.aes3_c.specs.Codes.{channel_code, marking_code};
ghost use Rattle.aes3_c.specs.States.{told_in};
ghost use Rattle.aes3_c.specs.Watches.{HasBegun, HasPut, IsNext, event_numbers, no_event, uncounted};
ghost use Rattle.aes3_c.specs.Watches.{watched_in};

use crate::gap_calls::ending_of;
use crate::level_byte::byte_of_level;
use crate::lock_calls::MOST;
use crate::report_record::Aes3Report;
use aes3_block::{Block, Channel};
use aes3_frame::{BLOCK_CELLS, FRAMES, Frame, Subframe, payload_of_word};
use aes3_lock::Ending;
use aes3_text_lines::{Event, Marking};
use aes3_watch::{ChannelSignals, EVENTS, Signals, Watched};
use arrayvec::ArrayVec;

/// The state of a watched line after some cells. Only the functions here use its fields.
#[repr(C)]
#[derive(Drop)]
pub struct Aes3Watch {
    pub place: u64,
    pub first_invalid: u64,
    pub second_invalid: u64,
    pub first_status: [u8; 24],
    pub second_status: [u8; 24],
    pub found: u8,
    pub lost: u8,
    pub known: u8,
}

// The header reserves ten words of 64 bits for it.
const _: () = prove!(size_of::<Aes3Watch>() == 80);

const _: () = prove!(align_of::<Aes3Watch>() == 8);

/// What changes on a line, and where. `kind` is 1 where the line locks, 2 where it is lost, 3 where
/// it comes back, and 4 where it slips. It is 5 for a status, 6 for validity bits, and 7 for the
/// end of the cells. A field that the kind does not use is 0.
#[repr(C)]
#[derive(Clone, Copy)]
pub struct Aes3Event {
    /// The place of the cell where it happens.
    pub at: u64,
    /// Where the line comes back, how many cells were lost; where it slips, by how many cells.
    pub cells: u64,
    /// The new status of the channel.
    pub status: [u8; 24],
    pub kind: u8,
    /// For a status or validity bits the number of the channel, 1 or 2.
    pub channel: u8,
    /// Where the line locks, the level before the block's first cell.
    pub before: u8,
    /// The channel's validity bits: 0 if all are 0, 1 if all are 1, 2 if they are mixed.
    pub validity: u8,
    /// At the end of the cells 1 if the line is locked.
    pub locked: u8,
}

// As the header has it.
const _: () = prove!(size_of::<Aes3Event>() == 48);

const _: () = prove!(align_of::<Aes3Event>() == 8);

/// The state of a line that is kept.
pub(crate) fn watched_of(kept: &Aes3Watch) -> Watched
    ensures { result ≡ watched_in kept.now }
{
    let latest = if kept.known == 0 {
        None
    } else {
        Some(Signals {
            first: ChannelSignals {
                status: kept.first_status,
                invalid: kept.first_invalid,
            },
            second: ChannelSignals {
                status: kept.second_status,
                invalid: kept.second_invalid,
            },
        })
    };
    Watched {
        found: kept.found != 0,
        place: kept.place,
        lost: kept.lost != 0,
        losses: 0,
        latest,
    }
}

/// Keeps the state of a line, but for the number of its losses.
pub(crate) fn keep_watched(state: &Watched, kept: &mut Aes3Watch)
    ensures { watched_in kept.new ≡ uncounted state.now }
{
    kept.found = if state.found { 1 } else { 0 };
    kept.place = state.place;
    kept.lost = if state.lost { 1 } else { 0 };
    match state.latest {
        None => kept.known = 0,
        Some(latest) => {
            let first = latest.first.status;
            let second = latest.second.status;
            kept.known = 1;
            kept.first_status = first;
            kept.first_invalid = latest.first.invalid;
            kept.second_status = second;
            kept.second_invalid = latest.second.invalid;
        }
    }
}

/// The number of a channel.
fn byte_of_channel(channel: Channel) -> u8
    ensures { result ≡ channel_code channel }
{
    match channel {
        Channel::First => 1,
        Channel::Second => 2,
    }
}

/// The number of a state of validity bits.
fn byte_of_marking(marking: Marking) -> u8
    ensures { result ≡ marking_code marking }
{
    match marking {
        Marking::Clear => 0,
        Marking::Set => 1,
        Marking::Mixed => 2,
    }
}

/// The numbers of no event.
fn no_event() -> Aes3Event
    ensures { result ≡ no_event }
{
    Aes3Event {
        at: 0,
        cells: 0,
        status: [0; 24],
        kind: 0,
        channel: 0,
        before: 0,
        validity: 0,
        locked: 0,
    }
}

/// The numbers of an event.
fn numbers_of(event: &Event) -> Aes3Event
    ensures { result ≡ event_numbers event.now }
{
    match event {
        Event::Locked { at, before } => Aes3Event {
            kind: 1,
            at: *at,
            before: byte_of_level(*before),
            ..no_event()
        },
        Event::Lost { at } => Aes3Event {
            kind: 2,
            at: *at,
            ..no_event()
        },
        Event::Back { at, lost } => Aes3Event {
            kind: 3,
            at: *at,
            cells: *lost,
            ..no_event()
        },
        Event::Slipped { at, cells } => Aes3Event {
            kind: 4,
            at: *at,
            cells: *cells,
            ..no_event()
        },
        Event::Status {
            at,
            channel,
            status,
        } => Aes3Event {
            kind: 5,
            at: *at,
            channel: byte_of_channel(*channel),
            status: *status,
            ..no_event()
        },
        Event::Validity {
            at,
            channel,
            marking,
        } => Aes3Event {
            kind: 6,
            at: *at,
            channel: byte_of_channel(*channel),
            validity: byte_of_marking(*marking),
            ..no_event()
        },
        Event::End { at, locked } => Aes3Event {
            kind: 7,
            at: *at,
            locked: if *locked { 1 } else { 0 },
            ..no_event()
        },
    }
}

/// How many events a call puts at most.
const MOST_EVENTS: usize = 6;

/// Puts the numbers of events, and returns how many there are.
fn put_events(told: &[Event], events: &mut [Aes3Event; MOST_EVENTS]) -> u32
    requires { length told.now ≤ MOST_EVENTS }
    ensures count { result ≡ length told.now }
    ensures put { take result events.new ≡ map event_numbers told.now }
    ensures left { drop result events.new ≡ drop result events.old }
{
    for i in 0..told.len() {
        events[i] = numbers_of(&told[i]);
    }
    told.len() as u32
}

/// The block that these words carry. Their codes and parity bits are ignored.
fn block_of(words: &[u32; 384]) -> Block
    ensures { result ≡ map payload_of words.now }
{
    let mut block = Block::zero();
    for i in 0..FRAMES {
        let frame = Frame {
            first: Subframe::of_payload(payload_of_word(words[2 * i])),
            second: Subframe::of_payload(payload_of_word(words[2 * i + 1])),
        };
        block.set_frame(i, frame);
    }
    block
}

/// Advances to and past a report, given its ending and the words of a whole block, and adds its
/// events.
pub(crate) fn take_ending(
    state: &mut Watched,
    words: &[u32; 384],
    ending: Ending,
    told: &mut ArrayVec<Event, EVENTS>,
)
    requires few { state.old.losses ≤ 1 }
    requires room { array_vec_len told.old ≡ 0 }
    ensures state { place_of (report_with (map payload_of words.now) ending) ≤ 2 ^ 43
        → state.new ≡ next state.old (report_with (map payload_of words.now) ending) }
    ensures events { place_of (report_with (map payload_of words.now) ending) ≤ 2 ^ 43
        → told.new.items ≡ told_events state.old (report_with (map payload_of words.now) ending) }
    ensures len { array_vec_len told.new ≤ MOST_EVENTS }
{
    match ending {
        Ending::Whole { at, before } => {
            let now = Signals::of(&block_of(words));
            // No lock has a report of a later place.
            state.take_whole(told, at.min(MOST), before, now);
        }
        Ending::Marked { at, .. } => state.go_on(told, at),
        Ending::Fault { at, .. } => state.go_on(told, at),
        Ending::Unfinished { at, .. } => state.go_on(told, at),
    }
}

/// Makes the state of a line of which no report has come.
#[unsafe(no_mangle)]
#[tactic(auto, using(crate::proofs::WatchCalls::begins_put))]
pub extern "C" fn aes3_watch_init(watch: &mut Aes3Watch)
    ensures { (c : List Level) → length c ≤ 2 ^ 43 → HasPut watch.new c [] [] }
{
    keep_watched(&Watched::new(), watch);
}

/// Puts the events of a report, and returns how many there are, at most 6. The report of a whole block
/// has its words. If there is no report, nothing changes.
#[unsafe(no_mangle)]
pub extern "C" fn aes3_watch_report(
    watch: &mut Aes3Watch,
    report: &Aes3Report,
    events: &mut [Aes3Event; MOST_EVENTS],
) -> u32
    ensures events { (x : Report) → told_in report.now ≡ Some x → (c : List Level) (r : List Report)
        (put : List Aes3Event) → HasPut watch.old c r put → IsNext c r x
        → HasPut watch.new c (r ++ x ∷ []) (put ++ take result events.new) }
    ensures none { told_in report.now ≡ None → result ≡ 0 }
    ensures unchanged { told_in report.now ≡ None → watch.new ≡ watch.old }
    ensures most { result ≤ 6 }
    ensures left { drop result events.new ≡ drop result events.old }
{
    let Some(ending) = ending_of(report) else {
        return 0;
    };
    let mut state = watched_of(watch);
    let mut told = ArrayVec::new();
    take_ending(&mut state, &report.words, ending, &mut told);
    keep_watched(&state, watch);
    put_events(&told, events)
}

/// Puts the event that no later cell changes after the first `seen`, all of whose reports were given,
/// if there is one. Returns how many it put, 0 or 1.
#[unsafe(no_mangle)]
pub extern "C" fn aes3_watch_passed(
    watch: &mut Aes3Watch,
    seen: u64,
    events: &mut [Aes3Event; MOST_EVENTS],
) -> u32
    ensures events { (c d : List Level) (r : List Report) (put : List Aes3Event)
        → HasPut watch.old (c ++ d) r put → r ≡ decided c → seen ≡ length c
        → HasPut watch.new (c ++ d) r (put ++ take result events.new) }
    ensures all { (c d : List Level) (r : List Report) (put : List Aes3Event)
        → HasPut watch.old (c ++ d) r put → r ≡ decided c → seen ≡ length c
        → HasBegun c (put ++ take result events.new) }
    ensures most { result ≤ 1 }
    ensures left { drop result events.new ≡ drop result events.old }
{
    let mut state = watched_of(watch);
    let mut told = ArrayVec::new();
    state.go_on(&mut told, seen.saturating_sub(BLOCK_CELLS));
    keep_watched(&state, watch);
    put_events(&told, events)
}

/// Puts the events of the end of the `seen` cells, all of whose reports were given. Returns how many
/// it put, 1 or 2.
#[unsafe(no_mangle)]
pub extern "C" fn aes3_watch_end(
    watch: &Aes3Watch,
    seen: u64,
    events: &mut [Aes3Event; MOST_EVENTS],
) -> u32
    ensures events { (c : List Level) (r : List Report) (put : List Aes3Event)
        → HasPut watch.now c r put → r ≡ reports c → seen ≡ length c
        → put ++ take result events.new ≡ map event_numbers (watch_events c) }
    ensures most { result ≤ 2 }
    ensures left { drop result events.new ≡ drop result events.old }
{
    let mut state = watched_of(watch);
    let mut told = ArrayVec::new();
    state.go_to_end(&mut told, seen);
    put_events(&told, events)
}
