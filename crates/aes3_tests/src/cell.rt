//! Worked rows of both written forms of cells, their errors, and sources and sinks that fail or
//! move few bytes.

use aes3_cell::{
    BadCell, BadPadding, BufferedSink, CellText, FailingSink, Fault, Form, HoldingSink, Level,
    PackedIn, PackedOut, RunError, ShortSink, Sink, SomeCells, Source, StdSink, StdSource, TextOut,
    put_words, write_all,
};
use std::alloc::{AllocError, Global};
use std::io::{ErrorKind, Read};

#[test]
fn bytes_of_cell_text(rt: HostRuntime) {
    for byte in 0..=255 {
        let expected = match byte {
            0x30 => Ok(Some(Level::Low)),
            0x31 => Ok(Some(Level::High)),
            0x0A | 0x0D | 0x20 => Ok(None),
            _ => Err(BadCell { at: 0 }),
        };
        let mut text = CellText::new();
        assert!(rt; text.feed_byte(byte) == expected, "at {byte}");
    }
}

/// 64 cells as text and as a word.
const LINE: [u8; 64] = *b"1010100001001100001010100110111000011001010111010011101101111111";

const WORD: u64 = 0xFEDC_BA98_7654_3215;

/// The same cells, and 64 high ones.
const CELLS: &[u8] = b"1010100001001100001010100110111000011001010111010011101101111111\
1111111111111111111111111111111111111111111111111111111111111111";

#[test]
fn words_of_lines(rt: HostRuntime) {
    let text = *b"1010100001001100001010100110111000011001010111010011101101111111
1010100001001100001010100110111000011001010111010011101101111111
1";
    let mut words = [0; 3];
    let lines = CellText::new().feed_lines(&text, &mut words);
    assert!(rt; (lines, words) == (2, [WORD, WORD, 0]));
    assert!(rt; CellText::new().feed_word(&LINE) == Some(WORD));
}

#[test]
fn cells_among_separators(rt: HostRuntime) {
    let mut bytes = *b"1010 1000\r\n0100  1100001010100110111000011001\r0101110100\n111011\n";
    let cells = CellText::new().feed_scattered(&bytes);
    let expected = SomeCells {
        word: WORD % (1 << 56),
        len: 56,
    };
    assert!(rt; cells == Some(expected));
    bytes[63] = b'x';
    assert!(rt; CellText::new().feed_scattered(&bytes).is_none());
}

/// Octets of packed cells, and the result at their end.
type PackedRow = (&'static [u8], Result<Option<(u8, u8)>, BadPadding>);

const PACKED_ROWS: &[PackedRow] = &[
    (&[0x00], Ok(None)),
    (&[0xE8, 0x00], Ok(Some((0xE8, 8)))),
    (&[0xE8, 0x03], Ok(Some((0xE8, 5)))),
    (&[0x80, 0x07], Ok(Some((0x80, 1)))),
    (&[0xFF, 0xE4, 0x02], Ok(Some((0xE4, 6)))),
    (&[0xE9, 0x03], Err(BadPadding { at: 1 })),
    (&[0xE8, 0x08], Err(BadPadding { at: 1 })),
    (&[0x00, 0x00, 0xFF], Err(BadPadding { at: 2 })),
    (&[0x05], Err(BadPadding { at: 0 })),
    (&[], Err(BadPadding { at: 0 })),
];

/// A reader of packed cells after a few octets.
fn packed_in(octets: &[u8]) -> PackedIn {
    let mut packed = PackedIn::new();
    for octet in octets.iter() {
        if packed.seen() < 99 {
            packed.feed_byte(*octet);
        }
    }
    packed
}

#[test]
fn packed_rows_read(rt: HostRuntime) {
    for (row, (octets, end)) in PACKED_ROWS.iter().enumerate() {
        assert!(rt; packed_in(octets).end() == *end, "row {row}");
    }
}

/// The word of the cells before the last octet, and how many octets have been taken then.
fn word_behind_two(octets: &[u8; 8]) -> Option<(u64, u64)> {
    let mut packed = packed_in(&[0x01, 0x03]);
    if packed.seen() != 2 {
        return None;
    }
    let mut words = [0];
    packed.feed_words(octets, &mut words);
    Some((words[0], packed.seen()))
}

#[test]
fn words_of_octets(rt: HostRuntime) {
    let found = word_behind_two(&[0x80, 0x40, 0xE8, 0x0F, 0x00, 0xFF, 0x12, 0x01]);
    assert!(rt; found == Some((0xFF00_F017_0201_C080, 10)));
}

fn level_of(is_high: bool) -> Level {
    if is_high { Level::High } else { Level::Low }
}

/// Packs the cells of a text of `0` and `1`.
fn pack(cells: &[u8], sink: &mut FailingSink) -> Result<(), Fault> {
    let mut out = PackedOut::new();
    for cell in cells.iter() {
        if out.failed() || sink.failures() > 0 {
            return Err(Fault);
        }
        out.put(sink, level_of(*cell == b'1'))?;
    }
    if out.failed() || sink.failures() > 0 {
        return Err(Fault);
    }
    out.end(sink)
}

/// Writes the cells of a text as text.
fn put_text(cells: &[u8], sink: &mut FailingSink) -> Result<(), Fault> {
    let mut out = TextOut::new();
    for cell in cells.iter() {
        if out.failed() || sink.failures() > 0 {
            return Err(Fault);
        }
        out.put(sink, level_of(*cell == b'1'))?;
    }
    Ok(())
}

/// How many of the cells are written, and how many writes the sink takes. The other two are how
/// many bytes of text it has then, and which octets of packed cells.
type WrittenRow = (usize, u8, usize, &'static [u8]);

const WRITTEN_ROWS: &[WrittenRow] = &[
    (0, 8, 0, &[0x00]),
    (5, 8, 0, &[0xA8, 0x03]),
    (
        63,
        8,
        0,
        &[0xA8, 0x4C, 0x2A, 0x6E, 0x19, 0x5D, 0x3B, 0x7E, 0x01],
    ),
    (
        69,
        8,
        65,
        &[0xA8, 0x4C, 0x2A, 0x6E, 0x19, 0x5D, 0x3B, 0x7F, 0xF8, 0x03],
    ),
    (69, 1, 65, &[0xA8, 0x4C, 0x2A, 0x6E, 0x19, 0x5D, 0x3B, 0x7F]),
    (128, 0, 0, &[]),
];

/// The first of the cells of the line and of 64 high ones.
fn first_cells(len: usize) -> &'static [u8] {
    CELLS.get(..len).unwrap_or(CELLS)
}

fn is_packed(alloc: Global, row: &WrittenRow) -> bool {
    let (len, writes, _, octets) = *row;
    let mut sink = FailingSink::new(alloc, u64::from(writes) + 1);
    let answer = pack(first_cells(len), &mut sink);
    answer.is_ok() == (writes == 8) && sink.bytes() == octets
}

fn is_text(alloc: Global, row: &WrittenRow) -> bool {
    let (len, writes, bytes, _) = *row;
    let mut sink = FailingSink::new(alloc, u64::from(writes) + 1);
    let answer = put_text(first_cells(len), &mut sink);
    answer.is_ok() == (writes > 0) && sink.bytes().len() == bytes
}

#[test]
fn cells_written(rt: HostRuntime) {
    for row in WRITTEN_ROWS {
        assert!(rt;
            is_packed(rt.alloc(), row) && is_text(rt.alloc(), row),
            "{}",
            row.0
        );
    }
}

fn takes_three(alloc: Global) -> bool {
    let mut sink = ShortSink::new(alloc, 3);
    sink.write(b"abcde") == Ok(3) && sink.bytes() == b"abc".as_slice()
}

fn passes_on_at_a_flush(alloc: Global) -> bool {
    let mut sink = HoldingSink::new(alloc);
    let has_held = sink.write(b"ab") == Ok(2) && sink.passed().is_empty();
    has_held && sink.flush() == Ok(()) && sink.passed() == sink.bytes()
}

#[test]
fn sinks_over_memory(rt: HostRuntime) {
    assert!(rt; takes_three(rt.alloc()) && passes_on_at_a_flush(rt.alloc()));
}

/// Puts 130 times 16 lines through a buffer, more than it can hold, and flushes it.
fn put_through<T: Sink + Drop>(sink: &mut BufferedSink<T>) -> Result<(), Fault> {
    for _ in 0..130 {
        if sink.failures() > 0 {
            return Err(Fault);
        }
        put_words(Form::Text, &[WORD; 16], sink)?;
    }
    if sink.failures() > 0 {
        return Err(Fault);
    }
    sink.flush()
}

/// Whether bytes are `lines` lines of the word.
fn are_lines(bytes: &[u8], lines: usize) -> bool {
    for (i, byte) in bytes.iter().enumerate() {
        let column = i % 65;
        if *byte != if column < 64 { LINE[column] } else { b'\n' } {
            return false;
        }
    }
    bytes.len() / 65 == lines && bytes.len() % 65 == 0
}

fn passes_on_all(alloc: Global) -> Result<bool, AllocError> {
    let mut sink = BufferedSink::new(alloc, ShortSink::new(alloc, 7_000))?;
    let answer = put_through(&mut sink);
    Ok(answer == Ok(()) && are_lines(sink.sink().bytes(), 2_080))
}

fn tells_the_second_write(alloc: Global) -> Result<bool, AllocError> {
    let mut sink = BufferedSink::new(alloc, FailingSink::new(alloc, 2))?;
    let answer = put_through(&mut sink);
    Ok(answer == Err(Fault) && are_lines(sink.sink().bytes(), 1_008))
}

#[test]
fn buffered_sinks(rt: HostRuntime) {
    assert!(rt; passes_on_all(rt.alloc()) == Ok(true));
    assert!(rt; tells_the_second_write(rt.alloc()) == Ok(true));
}

/// The results of writing nothing, five bytes and a flush to a place for three bytes.
fn put_five(
    place: &mut [u8],
) -> (
    Result<usize, Fault>,
    Result<(), Fault>,
    Result<(), Fault>,
    u64,
) {
    let mut sink = StdSink::new(place);
    let nothing = sink.write(b"");
    let five = write_all(&mut sink, b"abcde");
    let failures = sink.failures();
    (nothing, five, sink.flush(), failures)
}

#[test]
fn std_sink(rt: HostRuntime) {
    let mut place = [0; 3];
    let answers = put_five(&mut place);
    assert!(rt; (answers, place) == ((Ok(0), Err(Fault), Ok(()), 1), *b"abc"));
}

/// A reader that a signal interrupts `left` times before it gives bytes.
#[derive(Drop)]
struct InterruptedReader {
    left: u32,
}

impl Read for InterruptedReader {
    fn read(&mut self, buf: &mut [u8]) -> std::io::Result<usize> {
        if self.left > 0 {
            self.left -= 1;
            return Err(ErrorKind::Interrupted.into());
        }
        buf.fill(b'1');
        Ok(buf.len())
    }
}

/// The result of a read of three bytes after `left` interruptions, and the bytes.
fn read_three(left: u32) -> (Result<usize, Fault>, [u8; 3]) {
    let mut piece = *b"000";
    let mut source = StdSource::new(InterruptedReader { left });
    (source.read(&mut piece), piece)
}

#[test]
fn interrupted_reads(rt: HostRuntime) {
    for left in [0, 999_999] {
        assert!(rt;
            read_three(left) == (Ok(3), *b"111"),
            "{left} interruptions"
        );
    }
    assert!(rt; read_three(1_000_000) == (Err(Fault), *b"000"));
}

const REFUSALS: &[(RunError, u8, Option<u64>)] = &[
    (RunError::BadCell { at: 5 }, 1, Some(5)),
    (RunError::BadLength { left: 1_535 }, 2, Some(1_535)),
    (RunError::BadCode { at: 0 }, 3, Some(0)),
    (RunError::BadParity { at: 7 }, 4, Some(7)),
    (RunError::Read, 5, None),
    (RunError::Write, 6, None),
    (RunError::TooLong, 7, None),
    (RunError::Memory, 8, None),
    (RunError::BadStatusText, 9, None),
    (RunError::BadPadding { at: 1 }, 10, Some(1)),
    (RunError::BadSample { at: 4 }, 11, Some(4)),
    (RunError::SoundHeader, 12, Some(0)),
    (RunError::Inexact { at: 64 }, 13, Some(64)),
];

#[test]
fn all_refusals(rt: HostRuntime) {
    for (error, number, place) in REFUSALS {
        assert!(rt;
            (error.number(), error.place()) == (*number, *place),
            "refusal {number}"
        );
    }
}
