//! What the whole blocks of a line say of their samples, and where that changes.

ghost use Rattle.std.specs.Prelude.{◌≡◌, ◌≤◌, ◌+◌, ◌^◌, ◌++◌, ℕ, List, true};
ghost use Rattle.std.specs.Prelude.{drop, map, take};
ghost use Rattle.arrayvec.specs.ArrayVec.{array_vec_len};
ghost use Rattle.aes3_slot.specs.ReadWords.{read_words};
ghost use Rattle.aes3_lock.specs.Outcomes.{payloads_of};
ghost use Rattle.aes3_watch.specs.Signals.{change_events, channel_signals, last_cells};
ghost use Rattle.aes3_watch.specs.Signals.{marking_of};
ghost use Rattle.aes3_watch.specs.Signals.{same_marking, signals_of, status_events};
ghost use Rattle.aes3_watch.specs.Signals.{validity_events};

use aes3_block::{Block, Channel, SUBFRAMES};
use aes3_frame::{FRAMES, ones_in};
use aes3_text_lines::{Event, Marking};
use arrayvec::ArrayVec;
use std::simd::prelude::*;

/// How many validity bits a channel has in a block.
const VALIDITY_BITS: u64 = FRAMES as u64;

/// How many events are gathered at most: those of a report and those after it.
pub const EVENTS: usize = 8;

/// How many words are taken at once.
const LANES: usize = 16;

/// Among the last eight cells of a subframe, the first cell of its validity bit and the first cell
/// of its channel status bit. Two cells carry each of these bits.
const FIRST_CELLS: u8 = 1 | 1 << 4;

/// What a whole block says of a channel's samples.
#[derive(Clone, Copy)]
pub struct ChannelSignals {
    /// The channel status (AES3-2, IEC 60958-3).
    pub status: [u8; 24],
    /// How many validity bits are 1, at most 192.
    pub invalid: u64,
}

/// What a whole block says of both channels' samples.
#[derive(Clone, Copy)]
pub struct Signals {
    pub first: ChannelSignals,
    pub second: ChannelSignals,
}

/// What a block says of a channel's samples.
fn channel_signals(block: &Block, channel: Channel) -> ChannelSignals
    ensures { result ≡ channel_signals block.now channel }
{
    ChannelSignals {
        status: block.channel_status(channel),
        invalid: ones_in(&block.validity(channel)),
    }
}

impl Signals {
    /// What a block says of its samples.
    #[tactic(auto, unfolding(crate::specs::Signals::signals_of))]
    pub fn of(block: &Block) -> Self
        ensures { result ≡ signals_of block.now }
    {
        Signals {
            first: channel_signals(block, Channel::First),
            second: channel_signals(block, Channel::Second),
        }
    }
}

/// The last eight cells of each of sixteen words, from word `at` on.
#[inline(always)]
fn last_cells(words: &[u64; SUBFRAMES], at: usize) -> u8x16
    requires { at + LANES ≤ SUBFRAMES }
    ensures { result ≡ map last_cells (take LANES (drop at words.now)) }
{
    (u64x16::from_slice(&words[at..]) >> u64x16::splat(56)).cast::<u8>()
}

/// The cells to compare with before the first block.
pub(crate) fn no_cells() -> [u8; SUBFRAMES] {
    [0; SUBFRAMES]
}

/// The last eight cells of each word.
pub(crate) fn last_cells_of(words: &[u64; SUBFRAMES]) -> [u8; SUBFRAMES]
    ensures { result ≡ map last_cells words.now }
{
    let mut lasts = no_cells();
    for i in 0..SUBFRAMES {
        lasts[i] = (words[i] >> 56) as u8;
    }
    lasts
}

/// Whether the cells of a block's subframes carry the same validity bits and channel status as
/// those whose last eight cells are `lasts`. The two cells of a 1 differ.
pub(crate) fn carry_the_same(words: &[u64; SUBFRAMES], lasts: &[u8; SUBFRAMES]) -> bool
    ensures { result ≡ true → (others : List ℕ) → map last_cells others ≡ lasts.now
        → signals_of (payloads_of (read_words words.now))
        ≡ signals_of (payloads_of (read_words others)) }
{
    let mut unlike = u8x16::splat(0);
    for i in 0..SUBFRAMES / LANES {
        let at = LANES * i;
        let changed = last_cells(words, at) ^ u8x16::from_slice(&lasts[at..]);
        unlike |= changed ^ (changed >> u8x16::splat(1));
    }
    unlike.reduce_or() & FIRST_CELLS == 0
}

/// The state of 192 validity bits, `invalid` of which are 1.
fn marking_of(invalid: u64) -> Marking
    ensures { result ≡ marking_of invalid }
{
    match invalid {
        0 => Marking::Clear,
        VALIDITY_BITS => Marking::Set,
        _ => Marking::Mixed,
    }
}

/// Whether the two states are the same.
fn is_same(one: Marking, other: Marking) -> bool
    ensures { result ≡ same_marking one other }
{
    match (one, other) {
        (Marking::Clear, Marking::Clear) => true,
        (Marking::Set, Marking::Set) => true,
        (Marking::Mixed, Marking::Mixed) => true,
        _ => false,
    }
}

/// Adds the event of a channel's status, if it differs from the one before.
fn add_status(
    events: &mut ArrayVec<Event, EVENTS>,
    at: u64,
    channel: Channel,
    before: &ChannelSignals,
    now: &ChannelSignals,
)
    requires { array_vec_len events.old + 1 ≤ EVENTS }
    ensures events { events.new.items
        ≡ events.old.items ++ status_events at channel before.now now.now }
    ensures len { array_vec_len events.new ≤ array_vec_len events.old + 1 }
{
    if before.status != now.status {
        events.push(Event::Status {
            at,
            channel,
            status: now.status,
        });
    }
}

/// Adds the event of a channel's validity bits, if their state differs from the one before.
fn add_validity(
    events: &mut ArrayVec<Event, EVENTS>,
    at: u64,
    channel: Channel,
    before: &ChannelSignals,
    now: &ChannelSignals,
)
    requires { array_vec_len events.old + 1 ≤ EVENTS }
    ensures events { events.new.items
        ≡ events.old.items ++ validity_events at channel before.now now.now }
    ensures len { array_vec_len events.new ≤ array_vec_len events.old + 1 }
{
    let marking = marking_of(now.invalid);
    if !is_same(marking_of(before.invalid), marking) {
        events.push(Event::Validity {
            at,
            channel,
            marking,
        });
    }
}

/// Adds the events of a whole block at cell `at`, compared with the whole block before it, if there
/// is one.
#[tactic(auto, unfolding(crate::specs::Signals::change_events))]
pub(crate) fn add_changes(
    events: &mut ArrayVec<Event, EVENTS>,
    at: u64,
    before: &Option<Signals>,
    now: &Signals,
)
    requires { array_vec_len events.old + 4 ≤ EVENTS }
    ensures events { events.new.items ≡ events.old.items ++ change_events at before.now now.now }
    ensures len { array_vec_len events.new ≤ array_vec_len events.old + 4 }
{
    if let Some(before) = before {
        add_status(events, at, Channel::First, &before.first, &now.first);
        add_status(events, at, Channel::Second, &before.second, &now.second);
        add_validity(events, at, Channel::First, &before.first, &now.first);
        add_validity(events, at, Channel::Second, &before.second, &now.second);
    }
}
