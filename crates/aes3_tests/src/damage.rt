//! Three blocks in a row, of zeros or of speech, with cells changed, lost or inserted: the blocks
//! that the lock gives are those that the laws of damage name.
ghost use Rattle.std.specs.Prelude.{◌<◌, ◌≤◌};

use aes3_block::{Block, mark_of};
use aes3_cell::Level;
use aes3_lock::{Lock, Report};
use aes3_slot::slots_cells;
use std::alloc::{AllocError, Global};

/// The bits of the slots of 24 subframes, which the blocks repeat.
type Subframes = [u32; 24];

const ZEROS: Subframes = [0; 24];

/// Twelve frames of speech.
const SPEECH: Subframes = [
    0x806_DDB0, 0x2_018B, 0x807_5381, 0x801_F219, 0x407_5FF3, 0x401_EC62, 0x807_0813, 0x801_DA43,
    0x806_5F26, 0x1_B95C, 0x5_84EB, 0x1_964C, 0x4_A062, 0x1_7AB1, 0x803_D486, 0x801_5E0B,
    0x803_376F, 0x801_247B, 0x2_D3AF, 0xACD1, 0x802_AE52, 0xFF_E52A, 0x802_C606, 0x8FE_D6D3,
];

/// The bits of a payload.
const PAYLOAD: u32 = 0x7FF_FFFF;

const BLOCK_LEN: usize = 24_576;

/// Where the blocks begin.
const STARTS: [usize; 3] = [0, 24_576, 49_152];

/// Many more cells than a test has.
const MANY: u64 = 1 << 40;

/// A place after all cells.
const NOWHERE: usize = 80_000;

/// How many blocks a test checks.
const ROOM: usize = 4;

#[derive(Clone, Copy)]
enum Damage {
    /// The cells at these places are changed; the places are in rising order.
    Changed([usize; 4]),
    Lost(usize),
    /// A cell is inserted before the one at this place.
    Inserted(usize, Level),
}

/// A block that is given: its place, and if a payload differs from what it was, the subframe and
/// the bits that differ.
#[derive(Clone, Copy, PartialEq, Eq)]
struct Given {
    at: u64,
    other: Option<(usize, u32)>,
    /// More than one payload differs, or the level before the block does.
    more: bool,
}

fn block_given(at: u64, before: Level, block: &Block, subframes: &Subframes) -> Given {
    let mut other = None;
    let mut more = before == Level::High;
    for i in 0..192 {
        let frame = block.frame(i);
        let first = frame.first.payload() ^ (subframes[2 * i % 24] & PAYLOAD);
        let second = frame.second.payload() ^ (subframes[(2 * i + 1) % 24] & PAYLOAD);
        if first != 0 {
            more = more || other.is_some();
            other = Some((2 * i, first));
        }
        if second != 0 {
            more = more || other.is_some();
            other = Some((2 * i + 1, second));
        }
    }
    Given { at, other, more }
}

/// The blocks that are given, up to the room for them.
#[derive(Drop)]
struct Found {
    blocks: [Option<Given>; ROOM],
    count: usize,
}

impl Found {
    fn new() -> Found {
        Found {
            blocks: [None; ROOM],
            count: 0,
        }
    }
}

fn keep(found: &mut Found, block: Given) {
    if found.count < ROOM {
        found.blocks[found.count] = Some(block);
        found.count += 1;
    }
}

/// Takes a cell, and keeps the block that it closes.
fn push(lock: &mut Lock, cell: Level, subframes: &Subframes, found: &mut Found) {
    if lock.seen() < MANY
        && let Some(Report::Whole { at, before, block }) = lock.push(cell)
    {
        keep(found, block_given(at, before, &block, subframes));
    }
}

/// The level of cell `k` of a word.
fn level_of(word: u64, k: usize) -> Level
    requires { k < 64 }
{
    if (word >> k) & 1 == 1 {
        Level::High
    } else {
        Level::Low
    }
}

/// Takes the cells of a word one by one, with some damage.
fn push_each(
    lock: &mut Lock,
    i: usize,
    word: u64,
    subframes: &Subframes,
    damage: Damage,
    found: &mut Found,
) {
    for k in 0..64_usize {
        let (first, second) = damaged(damage, i, k, level_of(word, k));
        if let Some(cell) = first {
            push(lock, cell, subframes, found);
        }
        if let Some(cell) = second {
            push(lock, cell, subframes, found);
        }
    }
}

/// The blocks that the lock gives for three times the subframes, with some damage.
fn blocks_of(words: &[u64], subframes: &Subframes, damage: Damage) -> [Option<Given>; ROOM] {
    let mut found = Found::new();
    let mut lock = Lock::new();
    for (i, word) in words.iter().enumerate() {
        if is_damaged(damage, i) || lock.seen() >= MANY || !lock.take_word(*word) {
            push_each(&mut lock, i, *word, subframes, damage, &mut found);
        }
    }
    if let Some(Report::Whole { at, before, block }) = lock.finish() {
        keep(&mut found, block_given(at, before, &block, subframes));
    }
    found.blocks
}

/// Whether a word of cells has some damage.
fn is_damaged(damage: Damage, word: usize) -> bool {
    match damage {
        Damage::Changed(places) => is_one_in(&places, word),
        Damage::Lost(place) | Damage::Inserted(place, _) => place / 64 == word,
    }
}

/// Whether one of these places is in a word.
fn is_one_in(places: &[usize; 4], word: usize) -> bool {
    for place in places.iter() {
        if *place / 64 == word {
            return true;
        }
    }
    false
}

/// What replaces cell `k` of a word.
fn damaged(damage: Damage, word: usize, k: usize, cell: Level) -> (Option<Level>, Option<Level>) {
    match damage {
        Damage::Changed(places) => (Some(changed(&places, word, k, cell)), None),
        Damage::Lost(place) if is_at(place, word, k) => (None, None),
        Damage::Inserted(place, level) if is_at(place, word, k) => (Some(level), Some(cell)),
        _ => (Some(cell), None),
    }
}

fn is_at(place: usize, word: usize, k: usize) -> bool {
    place / 64 == word && place % 64 == k
}

/// The cell, changed if it is at one of these places.
fn changed(places: &[usize; 4], word: usize, k: usize, cell: Level) -> Level {
    for place in places.iter() {
        if is_at(*place, word, k) {
            return cell.flip();
        }
    }
    cell
}

/// The block that begins at a place, unchanged or with other bits in one payload.
fn block_at(start: usize, other: Option<(usize, u32)>) -> Option<Given> {
    Some(Given {
        at: start as u64,
        other,
        more: false,
    })
}

/// What changed cells leave of a block: all of it, nothing, or a block with the bits of two slots
/// inverted.
fn left_of_changed(places: &[usize; 4], start: usize) -> Option<Given>
    requires { start ≤ 50_000 }
{
    let mut first = None;
    let mut second = None;
    let mut more = false;
    for place in places.iter() {
        if *place >= start && *place - start <= BLOCK_LEN {
            more = second.is_some();
            second = first;
            first = Some(*place - start);
        }
    }
    match (second, first) {
        (_, None) => block_at(start, None),
        (Some(x), Some(y)) if !more && y > x && y - x == 1 && x % 2 == 1 => {
            let offset = x % 64;
            if offset < 9 || offset > 61 {
                return None;
            }
            let bits = 3_u32 << ((offset - 9) / 2);
            block_at(start, Some((x / 64, bits & PAYLOAD)))
        }
        _ => None,
    }
}

/// What is left of the block that begins at a place.
fn left_of(damage: Damage, start: usize) -> Option<Given>
    requires { start ≤ 50_000 }
{
    match damage {
        Damage::Changed(places) => left_of_changed(&places, start),
        Damage::Lost(place) if place < start => {
            block_at(if start > 0 { start - 1 } else { 0 }, None)
        }
        Damage::Lost(place) if place - start < BLOCK_LEN => None,
        Damage::Lost(_) => block_at(start, None),
        // One more cell in the first run of the preamble only makes the run longer.
        Damage::Inserted(place, level) => {
            if place <= start || (place - start <= 3 && level == Level::High) {
                block_at(start + 1, None)
            } else if place - start > BLOCK_LEN
                || (place - start == BLOCK_LEN && level == Level::High)
            {
                block_at(start, None)
            } else {
                None
            }
        }
    }
}

/// Whether the lock gives what is left.
fn is_left(words: &[u64], subframes: &Subframes, damage: Damage) -> bool {
    let mut expected = Found::new();
    for start in STARTS {
        if start <= 50_000
            && let Some(block) = left_of(damage, start)
        {
            keep(&mut expected, block);
        }
    }
    blocks_of(words, subframes, damage) == expected.blocks
}

/// The words of the cells of three blocks.
fn three_blocks(alloc: Global, subframes: &Subframes) -> Result<Vec<u64>, AllocError> {
    let mut words = Vec::new(alloc);
    for _ in 0..3 {
        for line in 0..384 {
            let slots = subframes[line % 24] & 0xFFF_FFFF;
            words.push(slots_cells(Level::Low, mark_of(line as u64), slots))?;
        }
    }
    Ok(words)
}

fn is_left_each_way(words: &[u64], subframes: &Subframes, place: usize) -> bool {
    let changed = Damage::Changed([place, NOWHERE, NOWHERE, NOWHERE]);
    is_left(words, subframes, changed)
        && is_left(words, subframes, Damage::Lost(place))
        && is_left(words, subframes, Damage::Inserted(place, Level::Low))
        && is_left(words, subframes, Damage::Inserted(place, Level::High))
}

/// Tests every cell of the subframes before and after the borders of the second block.
fn is_left_around_borders(words: &[u64], subframes: &Subframes) -> bool {
    for first in [24_512_usize, 24_576, 49_088, 49_152] {
        for k in 0..65 {
            if !is_left_each_way(words, subframes, first + k) {
                return false;
            }
        }
    }
    true
}

/// A place among the cells, derived from a number.
fn place_of(number: u64) -> usize
    ensures { result < 73728 }
{
    (number >> 16) as usize % 73_728
}

/// The next number of a sequence (xorshift).
fn next(number: u64) -> u64 {
    let number = number ^ (number << 13);
    let number = number ^ (number >> 7);
    number ^ (number << 17)
}

/// Tests one cell, a rising pair and a rising triple.
fn is_left_of_three(words: &[u64], subframes: &Subframes, a: usize, b: usize, c: usize) -> bool {
    let pair = Damage::Changed([a, b, NOWHERE, NOWHERE]);
    let three = Damage::Changed([a, b, c, NOWHERE]);
    is_left_each_way(words, subframes, c)
        && (a >= b || is_left(words, subframes, pair))
        && (a >= b || b >= c || is_left(words, subframes, three))
}

/// Tests pairs and triples by a sequence of numbers, every second time next to each other.
fn is_left_at_random(words: &[u64], subframes: &Subframes) -> bool {
    let mut number = 0x9E37_79B9;
    for round in 0..1_000 {
        number = next(number);
        let a = place_of(number);
        number = next(number);
        let b = if round % 2 == 0 {
            a + 1
        } else {
            place_of(number)
        };
        number = next(number);
        let c = if round % 4 == 0 {
            a + 2
        } else {
            place_of(number)
        };
        if !is_left_of_three(words, subframes, a, b, c) {
            return false;
        }
    }
    true
}

#[test]
fn zero_blocks_damaged(rt: HostRuntime) {
    let words = three_blocks(rt.alloc(), &ZEROS).expect(&rt, "memory");
    assert!(rt; is_left_around_borders(&words, &ZEROS) && is_left_at_random(&words, &ZEROS));
}

#[test]
fn blocks_of_speech_damaged(rt: HostRuntime) {
    let words = three_blocks(rt.alloc(), &SPEECH).expect(&rt, "memory");
    assert!(rt; is_left_around_borders(&words, &SPEECH) && is_left_at_random(&words, &SPEECH));
}
