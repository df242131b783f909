//! Whole runs: samples, lines of any length, the limit of bytes, and what is written before a read
//! fails.

ghost use Rattle.std.specs.Prelude.{◌<◌, ◌≤◌, ◌^◌};

use aes3_cell::{
    Counts, EndlessSource, FailingSource, Form, MemorySink, MemorySource, RunError, StdSink,
};
use aes3_engine::cut;
use std::alloc::{AllocError, Global};
use std::io::BufWriter;

/// More bytes than a test has.
const MANY: u64 = 1 << 20;

/// As many blocks as there are.
const ALL: u64 = u64::MAX;

/// How many bytes a block has as cell text.
const BLOCK_TEXT: usize = 24_960;

/// A preamble and 28 slots of bit 0.
const FIRST: &[u8; 65] = b"1110100011001100110011001100110011001100110011001100110011001100\n";

const EVEN: &[u8; 65] = b"1110001011001100110011001100110011001100110011001100110011001100\n";

const ODD: &[u8; 65] = b"1110010011001100110011001100110011001100110011001100110011001100\n";

/// The subframe of zero blocks with this number as cell text.
fn line_of(number: usize) -> &'static [u8; 65] {
    match (number % 384, number % 2) {
        (0, _) => FIRST,
        (_, 0) => EVEN,
        _ => ODD,
    }
}

/// The same subframe as packed cells.
fn octets_of(number: usize) -> &'static [u8; 8] {
    match (number % 384, number % 2) {
        (0, _) => b"\xE8\xCC\xCC\xCC\xCC\xCC\xCC\xCC",
        (_, 0) => b"\xE2\xCC\xCC\xCC\xCC\xCC\xCC\xCC",
        _ => b"\xE4\xCC\xCC\xCC\xCC\xCC\xCC\xCC",
    }
}

/// For each number, this many first subframes of zero blocks as cell text.
fn text_of(alloc: Global, fronts: &[usize]) -> Result<Vec<u8>, AllocError> {
    let mut text = Vec::new(alloc);
    for lines in fronts {
        for number in 0..*lines {
            text.extend_from_slice(line_of(number))?;
        }
    }
    Ok(text)
}

/// The first `lines` subframes of zero blocks as packed cells, and the last octet.
fn packed_of(alloc: Global, lines: usize) -> Result<Vec<u8>, AllocError> {
    let mut octets = Vec::new(alloc);
    for number in 0..lines {
        octets.extend_from_slice(octets_of(number))?;
    }
    octets.push(0)?;
    Ok(octets)
}

/// How many cells there are, how many are in a line, what follows every eighth cell and what
/// follows a line. The last is how many bytes are read at once.
type Layout = (usize, usize, &'static [u8], &'static [u8], usize);

/// What follows a cell.
fn behind(layout: &Layout, number: usize) -> &'static [u8] {
    if number % layout.1.max(1) == layout.1.max(1) - 1 {
        layout.3
    } else if number % 8 == 7 {
        layout.2
    } else {
        b""
    }
}

/// The first cells of zero blocks in lines.
fn in_lines(alloc: Global, layout: &Layout) -> Result<Vec<u8>, AllocError> {
    let mut lines = Vec::new(alloc);
    for number in 0..layout.0 {
        lines.push(line_of(number / 64)[number % 64])?;
        lines.extend_from_slice(behind(layout, number))?;
    }
    Ok(lines)
}

/// Writes the blocks of at most `max_bytes` as text. Returns also what was written.
fn blocks_within(
    alloc: Global,
    input: &[u8],
    piece: usize,
    max_bytes: u64,
    form: Form,
) -> (Result<Counts, RunError>, MemorySink)
    requires piece { 0 < piece }
    requires max_bytes { max_bytes ≤ 2 ^ 40 }
{
    let mut source = MemorySource::new(input, piece);
    let mut sink = MemorySink::new(alloc);
    let answer = cut(&mut source, &mut sink, max_bytes, form, Form::Text, 0, ALL);
    (answer, sink)
}

/// The first block and more cells after it.
const LAYOUTS: &[Layout] = &[
    (25_856, 64, b"", b"\n", 4_096),
    (25_793, 64, b"", b"\n", 4_096),
    (25_856, 63, b"", b"\n", 4_096),
    (25_793, 30_000, b"", b"\n", 4_096),
    (25_793, 64, b"", b"\r\n", 1_000),
    (25_856, 64, b" ", b"\r\n", 4_096),
    (25_793, 64, b" ", b"\r\n", 77),
    (25_793, 65, b"  ", b" \n", 4_096),
    (25_856, 1, b"", b"\n", 4_096),
];

/// Whether `cut` writes the first block of cells in lines, and each cell is counted.
fn is_first_block_cut(alloc: Global, layout: &Layout) -> Result<bool, AllocError> {
    let text = in_lines(alloc, layout)?;
    let block = text_of(alloc, &[384])?;
    let (answer, sink) = blocks_within(alloc, &text, layout.4.max(1), MANY, Form::Text);
    let cells = answer.is_ok_and(|counts| counts.cells == layout.0 as u64);
    Ok(cells && sink.bytes() == block.as_slice())
}

#[test]
fn lines_of_any_length_change_no_output(rt: HostRuntime) {
    for layout in LAYOUTS {
        assert!(rt;
            is_first_block_cut(rt.alloc(), layout) == Ok(true),
            "{} in lines of {}",
            layout.0,
            layout.1
        );
    }
}

/// How many bytes are written if this read of two blocks fails, with one line in each read.
fn left_at_read(alloc: Global, call: u64) -> Option<usize>
    requires { 0 < call }
{
    let two = text_of(alloc, &[384, 384]).ok()?;
    let mut output = BufWriter::with_capacity(alloc, 1 << 16, Vec::new(alloc)).ok()?;
    let mut source = FailingSource::new(&two, 65, call);
    let mut sink = StdSink::new(&mut output);
    let answer = cut(&mut source, &mut sink, MANY, Form::Text, Form::Text, 0, ALL);
    if answer == Err(RunError::Read) {
        Some(output.get_ref().len())
    } else {
        None
    }
}

#[test]
fn what_is_decided_leaves_before_the_next_read(rt: HostRuntime) {
    assert!(rt; left_at_read(rt.alloc(), 385) == Some(0));
    assert!(rt; left_at_read(rt.alloc(), 386) == Some(BLOCK_TEXT));
    assert!(rt; left_at_read(rt.alloc(), 769) == Some(BLOCK_TEXT));
}

/// The number of subframes of zero blocks in a form, the limit of bytes, whether they exceed it,
/// and how many bytes are written.
type Limit = (usize, Form, u64, bool, usize);

const LIMITS: &[Limit] = &[
    (384, Form::Text, 24_960, false, BLOCK_TEXT),
    (384, Form::Text, 24_959, true, 0),
    (384, Form::Text, 0, true, 0),
    (384, Form::Text, 1 << 40, false, BLOCK_TEXT),
    (0, Form::Text, 0, false, 0),
    (768, Form::Text, 49_920, false, 2 * BLOCK_TEXT),
    (768, Form::Text, 49_919, true, BLOCK_TEXT),
    (384, Form::Packed, 3_073, false, BLOCK_TEXT),
    (384, Form::Packed, 3_072, true, 0),
    (384, Form::Packed, 0, true, 0),
    (768, Form::Packed, 6_144, true, BLOCK_TEXT),
];

/// Whether an input of at most 2^40 bytes is too long, and how many bytes are written for it.
fn too_long(alloc: Global, input: &[u8], form: Form, max_bytes: u64) -> Option<(bool, usize)> {
    let (answer, sink) = blocks_within(alloc, input, 4_096, max_bytes.min(1 << 40), form);
    match answer {
        Ok(_) => Some((false, sink.bytes().len())),
        Err(RunError::TooLong) => Some((true, sink.bytes().len())),
        Err(_) => None,
    }
}

fn is_limit_kept(alloc: Global, limit: &Limit) -> Result<bool, AllocError> {
    let (subframes, form, max_bytes, is_too_long, written) = *limit;
    let input = match form {
        Form::Text => text_of(alloc, &[subframes])?,
        Form::Packed => packed_of(alloc, subframes)?,
    };
    Ok(too_long(alloc, &input, form, max_bytes) == Some((is_too_long, written)))
}

#[test]
fn the_last_byte_that_fits(rt: HostRuntime) {
    for limit in LIMITS {
        assert!(rt; is_limit_kept(rt.alloc(), limit) == Ok(true), "{}", limit.2);
    }
    assert!(rt; too_long(rt.alloc(), b"x", Form::Text, 0) == Some((true, 0)));
}

#[test]
fn inputs_without_an_end(rt: HostRuntime) {
    for (byte, form) in [(b'1', Form::Text), (b' ', Form::Text), (0xE8, Form::Packed)] {
        let mut source = EndlessSource::new(byte, 64);
        let mut sink = MemorySink::new(rt.alloc());
        let answer = cut(&mut source, &mut sink, 1_000, form, form, 0, ALL);
        assert!(rt;
            answer == Err(RunError::TooLong) && sink.bytes().is_empty(),
            "byte {byte}"
        );
    }
}

/// The counts if blocks are written from the second on, and the input has one block. It comes after
/// the front of another and before one more subframe. Nothing is written.
fn counted(alloc: Global) -> Option<Counts> {
    let text = text_of(alloc, &[200, 384, 1]).ok()?;
    let mut source = MemorySource::new(&text, 4_096);
    let mut sink = MemorySink::new(alloc);
    let answer = cut(&mut source, &mut sink, MANY, Form::Text, Form::Text, 1, 1);
    if sink.bytes().is_empty() {
        answer.ok()
    } else {
        None
    }
}

#[test]
fn counts_of_a_run(rt: HostRuntime) {
    let counts = Counts {
        bytes: 38_025,
        cells: 37_440,
        blocks: 1,
        faults: 1,
        unfinished: 1,
        marks: 0,
    };
    assert!(rt; counted(rt.alloc()) == Some(counts));
}
