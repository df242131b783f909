//! Inputs and outputs of rows, written out from the line code.

use std::alloc::{AllocError, Global};

/// Bytes of an input or an output.
pub(crate) enum Bytes {
    Just(&'static [u8]),
    /// The first lines of the zero block as text, that block repeated, and more.
    Zeros(usize, usize, &'static [u8]),
    /// The text of the zero block with a first line of these cells after its preamble.
    Block(&'static [u8]),
    /// The zero block repeated, with the status whose first bit is 1.
    FirstBit(usize),
    /// The zero block with inverted cells, with a space after every 8 cells and CR LF after each
    /// line.
    Other,
    /// The zero block twice as packed cells.
    Packed,
    /// A block file of this number of bytes, which begins with these bytes and continues with zero
    /// words.
    File(&'static [u8], usize),
    /// Four bytes 384 times.
    Words(&'static [u8; 4]),
    /// The two lines of the status of this number of zero blocks.
    Shown(u64),
    /// The preambles of this number of first lines of the zero block, and of the block after them.
    Marks(usize),
}

pub(crate) fn bytes_of(alloc: Global, bytes: &Bytes) -> Result<Vec<u8>, AllocError> {
    match *bytes {
        Bytes::Just(bytes) => bytes.to_vec(alloc),
        Bytes::Zeros(lines, blocks, end) => zeros(alloc, lines, blocks, end),
        Bytes::Block(first) => block_text(alloc, first),
        Bytes::FirstBit(blocks) => first_bit_text(alloc, blocks),
        Bytes::Other => exchanged(alloc),
        Bytes::Packed => packed_blocks(alloc),
        Bytes::File(first, len) => block_file(alloc, first, len),
        Bytes::Words(word) => words(alloc, word),
        Bytes::Shown(blocks) => shown(alloc, blocks),
        Bytes::Marks(lines) => marks(alloc, lines),
    }
}

/// 28 slots of bit 0.
const ZEROS: &[u8] = b"11001100110011001100110011001100110011001100110011001100";

/// The preamble of a line of a block.
fn preamble_of(line: usize) -> &'static [u8] {
    match (line, line % 2) {
        (0, _) => b"11101000",
        (_, 1) => b"11100100",
        _ => b"11100010",
    }
}

fn add_line(text: &mut Vec<u8>, line: usize, slots: &[u8]) -> Result<(), AllocError> {
    text.extend_from_slice(preamble_of(line))?;
    text.extend_from_slice(slots)?;
    text.extend_from_slice(b"\n")
}

/// The text of the zero block with a first line of `first` after its preamble.
fn block_text(alloc: Global, first: &[u8]) -> Result<Vec<u8>, AllocError> {
    let mut text = Vec::new(alloc);
    for line in 0..384 {
        add_line(&mut text, line, if line == 0 { first } else { ZEROS })?;
    }
    Ok(text)
}

fn zeros(alloc: Global, lines: usize, blocks: usize, end: &[u8]) -> Result<Vec<u8>, AllocError> {
    let mut text = Vec::new(alloc);
    for line in 0..lines {
        add_line(&mut text, line, ZEROS)?;
    }
    for _ in 0..blocks {
        for line in 0..384 {
            add_line(&mut text, line, ZEROS)?;
        }
    }
    text.extend_from_slice(end)?;
    Ok(text)
}

/// Whether the channel status bit of a line is 1, and with it the parity bit. The status of the
/// first channel has a first bit and the check byte 32 in hexadecimal. So this bit is 1 in frames
/// 0, 185, 188 and 189.
fn has_status_bit(line: usize) -> bool {
    line == 0 || line == 370 || line == 376 || line == 378
}

fn first_bit_text(alloc: Global, blocks: usize) -> Result<Vec<u8>, AllocError> {
    let ones = b"11001100110011001100110011001100110011001100110011001010";
    let mut text = Vec::new(alloc);
    for _ in 0..blocks {
        for line in 0..384 {
            add_line(
                &mut text,
                line,
                if has_status_bit(line) { ones } else { ZEROS },
            )?;
        }
    }
    Ok(text)
}

fn exchanged(alloc: Global) -> Result<Vec<u8>, AllocError> {
    let text = block_text(alloc, ZEROS)?;
    let mut other = Vec::new(alloc);
    for (i, byte) in text.iter().enumerate() {
        let written: &[u8] = match (*byte, i % 65 % 8) {
            (b'0', 7) => b"1 ",
            (b'0', _) => b"1",
            (b'1', 7) => b"0 ",
            (b'1', _) => b"0",
            _ => b"\r\n",
        };
        other.extend_from_slice(written)?;
    }
    Ok(other)
}

/// A subframe of the zero block as packed cells.
fn octets_of(line: usize) -> &'static [u8] {
    match (line % 384, line % 2) {
        (0, _) => b"\xE8\xCC\xCC\xCC\xCC\xCC\xCC\xCC",
        (_, 1) => b"\xE4\xCC\xCC\xCC\xCC\xCC\xCC\xCC",
        _ => b"\xE2\xCC\xCC\xCC\xCC\xCC\xCC\xCC",
    }
}

fn packed_blocks(alloc: Global) -> Result<Vec<u8>, AllocError> {
    let mut octets = Vec::new(alloc);
    for line in 0..768 {
        octets.extend_from_slice(octets_of(line))?;
    }
    octets.push(0)?;
    Ok(octets)
}

fn block_file(alloc: Global, first: &[u8], len: usize) -> Result<Vec<u8>, AllocError> {
    let mut file = Vec::new(alloc);
    file.extend_from_slice(first)?;
    for _ in first.len()..len {
        file.push(0)?;
    }
    Ok(file)
}

fn words(alloc: Global, word: &[u8; 4]) -> Result<Vec<u8>, AllocError> {
    let mut words = Vec::new(alloc);
    for _ in 0..384 {
        words.extend_from_slice(word)?;
    }
    Ok(words)
}

fn add_status_line(
    lines: &mut Vec<u8>,
    alloc: Global,
    block: u64,
    channel: u64,
) -> Result<(), AllocError> {
    let line = format!(in alloc;
        "block={block} channel={channel} consumer payload=pcm copyright=asserted emphasis=none mode=0 category=general generation=0 source=not-specified number=not-specified rate=44100 accuracy=level2 b3high=0 greatest=20 word=not-indicated original=0 rest=00000000000000000000000000000000000000\n"
    )?;
    lines.extend_from_slice(line.as_bytes())
}

fn shown(alloc: Global, blocks: u64) -> Result<Vec<u8>, AllocError> {
    let mut lines = Vec::new(alloc);
    for block in 0..blocks {
        for channel in 1..3 {
            add_status_line(&mut lines, alloc, block, channel)?;
        }
    }
    Ok(lines)
}

/// Adds the line of the preamble of a line of the zero block.
fn add_mark(
    marks: &mut Vec<u8>,
    alloc: Global,
    line: usize,
    place: usize,
) -> Result<(), AllocError> {
    let mark = match (line, line % 2) {
        (0, _) => "Z",
        (_, 1) => "Y",
        _ => "X",
    };
    let told = format!(in alloc; "mark {mark} at {place} before 0\n")?;
    marks.extend_from_slice(told.as_bytes())
}

fn marks(alloc: Global, lines: usize) -> Result<Vec<u8>, AllocError> {
    let front = lines.min(384);
    let mut marks = Vec::new(alloc);
    for number in 0..front + 384 {
        let line = if number < front {
            number
        } else {
            number - front
        };
        add_mark(&mut marks, alloc, line, 64 * number)?;
    }
    Ok(marks)
}
