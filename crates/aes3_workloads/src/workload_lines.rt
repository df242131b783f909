//! Blocks of audio and their cells.

ghost use Rattle.std.specs.Prelude.{◌≡◌, ◌+◌, ◌<◌, ◌≤◌, ◌^◌, length};

use crate::numbers::Numbers;
use crate::runs::output_of;
use std::alloc::{AllocError, Global};

/// How many frames a block has.
const FRAMES: u32 = 192;

/// A status of 24 zero bytes, in which fields are set.
pub const NO_STATUS: &str = "000000000000000000000000000000000000000000000000";

/// Samples of a block in the form of `from-pcm`: two channels of 24 bits, with the loudness of
/// music.
pub fn samples_of_block(alloc: Global, numbers: &mut Numbers) -> Result<Vec<u8>, AllocError> {
    let mut samples = Vec::new(alloc);
    let mut places = [0u32, 1 << 30];
    for _ in 0..FRAMES {
        for i in 0..2 {
            let step = (numbers.next() >> 37) as u32;
            places[i] = places[i].wrapping_add(step).wrapping_sub(1 << 26);
            samples.extend_from_slice(&(places[i] & 0xffff_ff00).to_le_bytes())?;
        }
    }
    Ok(samples)
}

/// A block in the form of a block file: channel 1 professional and channel 2 consumer, as gateways
/// between both have them. If `tells_time`, its status has the time, so it differs from that of the
/// block before.
fn block(alloc: Global, numbers: &mut Numbers, tells_time: bool) -> Result<Vec<u8>, AllocError> {
    let samples = samples_of_block(alloc, numbers)?;
    let time = format!(in alloc; "local={}", numbers.next() >> 40)?;
    let last = if tells_time {
        time.as_str()
    } else {
        "rate=48000"
    };
    let words = [
        "from-pcm",
        "--status1",
        NO_STATUS,
        "--status2",
        NO_STATUS,
        "--set1",
        "use=professional",
        "--set1",
        "rate=48000",
        "--set1",
        "origin=JATH",
        "--set2",
        "rate=48000",
        "--set1",
        last,
        "--mend-check",
    ];
    output_of(alloc, &words, samples.as_slice())
}

/// Blocks of block files; every fourth has the time in its status.
pub fn blocks(
    alloc: Global,
    numbers: &mut Numbers,
    count: u32,
) -> Result<Vec<Vec<u8>>, AllocError> {
    let mut blocks = Vec::new(alloc);
    for i in 0..count {
        blocks.push(block(alloc, numbers, i % 4 == 3)?)?;
    }
    Ok(blocks)
}

/// The packed cells of each block, without the last octet.
pub fn packed_cells(alloc: Global, blocks: &[Vec<u8>]) -> Result<Vec<Vec<u8>>, AllocError> {
    let mut pieces = Vec::new(alloc);
    for block in blocks.iter() {
        let cells = output_of(alloc, &["encode", "--packed-out"], block.as_slice())?;
        let mut piece = Vec::new(alloc);
        piece.extend_from_slice(&cells.as_slice()[..cells.len().saturating_sub(1)])?;
        pieces.push(piece)?;
    }
    Ok(pieces)
}

/// Whether a cell of an octet is high; the first cell is in the highest bit.
pub fn is_high(octet: u8, place: u32) -> bool {
    octet << (place % 8) & 0x80 != 0
}

/// How cells are written as text.
#[derive(Clone, Copy)]
pub struct Layout {
    /// How many cells are in a line; 0 if all are in one line.
    pub line: u32,
    /// How many cells come before each space; 0 if there are no spaces.
    pub group: u32,
    /// The end of a line.
    pub end: &'static str,
}

/// Cells as text.
fn text_of(alloc: Global, octets: &[u8], layout: Layout) -> Result<Vec<u8>, AllocError> {
    let mut text = Vec::new(alloc);
    let mut in_line = 0u32;
    let mut in_group = 0u32;
    for octet in octets.iter() {
        for bit in 0..8 {
            text.push(if is_high(*octet, bit) { b'1' } else { b'0' })?;
            in_line = in_line.wrapping_add(1);
            in_group = in_group.wrapping_add(1);
            if in_line == layout.line {
                text.extend_from_slice(layout.end.as_bytes())?;
                in_line = 0;
                in_group = 0;
            } else if in_group == layout.group {
                text.push(b' ')?;
                in_group = 0;
            }
        }
    }
    Ok(text)
}

/// The cells of packed pieces as text.
pub fn text_cells(
    alloc: Global,
    pieces: &[Vec<u8>],
    layout: Layout,
) -> Result<Vec<Vec<u8>>, AllocError> {
    let mut texts = Vec::new(alloc);
    for piece in pieces.iter() {
        texts.push(text_of(alloc, piece.as_slice(), layout)?)?;
    }
    Ok(texts)
}

/// Copies of the pieces with about one octet in `every` changed, so that a cell is inverted,
/// followed by the pieces themselves.
pub fn with_inverted_cells(
    alloc: Global,
    pieces: Vec<Vec<u8>>,
    numbers: &mut Numbers,
    every: u32,
) -> Result<Vec<Vec<u8>>, AllocError> {
    let mut all = Vec::new(alloc);
    for piece in pieces.iter() {
        all.push(with_inverted(alloc, piece.as_slice(), numbers, every)?)?;
    }
    for piece in pieces {
        all.push(piece)?;
    }
    Ok(all)
}

/// Octets with one bit inverted in about one octet in `every`.
fn with_inverted(
    alloc: Global,
    octets: &[u8],
    numbers: &mut Numbers,
    every: u32,
) -> Result<Vec<u8>, AllocError> {
    let mut changed = Vec::new(alloc);
    for octet in octets.iter() {
        let is_hit = numbers.below(every.max(1)) == 0;
        let bit = 1u8 << numbers.below(8);
        changed.push(if is_hit { *octet ^ bit } else { *octet })?;
    }
    Ok(changed)
}

/// Octets without a few of them, about one in `every`: the line slips by eight cells or more.
pub fn slipped(
    alloc: Global,
    pieces: &[Vec<u8>],
    numbers: &mut Numbers,
    every: u32,
) -> Result<Vec<Vec<u8>>, AllocError> {
    let mut all = Vec::new(alloc);
    for piece in pieces.iter() {
        let mut left = Vec::new(alloc);
        for octet in piece.iter() {
            if numbers.below(every.max(1)) != 0 {
                left.push(*octet)?;
            }
        }
        all.push(left)?;
    }
    Ok(all)
}

/// Octets at random.
pub fn noise(
    alloc: Global,
    numbers: &mut Numbers,
    count: u32,
    len: u32,
) -> Result<Vec<Vec<u8>>, AllocError> {
    let mut pieces = Vec::new(alloc);
    for _ in 0..count {
        let mut piece = Vec::new(alloc);
        for _ in 0..len {
            piece.push((numbers.next() >> 56) as u8)?;
        }
        pieces.push(piece)?;
    }
    Ok(pieces)
}

/// Cells that begin a block's preamble every `every` cells, some 20,000 in a piece, as packed
/// octets.
pub fn dense_preambles(
    alloc: Global,
    numbers: &mut Numbers,
    every: u32,
) -> Result<Vec<Vec<u8>>, AllocError> {
    let mut pieces = Vec::new(alloc);
    for _ in 0..4 {
        let mut piece = Vec::new(alloc);
        let mut octet = 0u8;
        let mut level = 0u8;
        let mut runs = 0u32;
        for i in 0..20_480u32 {
            // The runs of the preamble are 3, 1, 1 and 3 cells long. With a period of five cells,
            // the next preamble begins within this one.
            let turns = i % every.max(1) == 0 || i % every.max(1) == 3 || i % every.max(1) == 4;
            let is_odd = numbers.below(500) == 0;
            if turns != is_odd {
                level ^= 1;
                runs = runs.wrapping_add(1);
            }
            octet = octet << 1 | level;
            if i % 8 == 7 {
                piece.push(octet)?;
            }
        }
        pieces.push(piece)?;
    }
    Ok(pieces)
}
