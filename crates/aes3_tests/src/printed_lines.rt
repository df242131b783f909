//! Lines as they are printed.

use crate::known_statuses::{status_of, with_byte};
use aes3_block::{Block, Channel};
use aes3_cell::{Level, MemorySink};
use aes3_lock::{Report, Why};
use aes3_slot::Mark;
use aes3_status::{SETTINGS, Setting, Settings, WideSettings, set_fields};
use aes3_text::{
    Detail, consumer_setting, line_of_mark, line_of_report, line_of_status, line_of_status_with,
    professional_setting, text_of_detail,
};
use aes3_watch::line_of_gap;
use std::alloc::Global;

/// Whether a report has this line.
fn is_told(alloc: Global, report: &Report, expected: &str) -> bool {
    let mut sink = MemorySink::new(alloc);
    let _ = line_of_report(report, &mut sink);
    sink.bytes() == expected.as_bytes()
}

/// Whether the fault of a late cell has this line.
fn is_fault_told(alloc: Global, why: Why, expected: &str) -> bool {
    let fault = Report::Fault {
        at: 0,
        cell: u64::MAX,
        why,
    };
    is_told(alloc, &fault, expected)
}

#[test]
fn lines_of_faults(rt: HostRuntime) {
    let unclosed = "fault at 0 cell 18446744073709551615 unclosed\n";
    assert!(rt; is_fault_told(rt.alloc(), Why::Unclosed, unclosed));
    let biphase = "fault at 0 cell 18446744073709551615 biphase\n";
    assert!(rt; is_fault_told(rt.alloc(), Why::Biphase, biphase));
    let preamble = "fault at 0 cell 18446744073709551615 preamble\n";
    assert!(rt; is_fault_told(rt.alloc(), Why::Preamble, preamble));
}

#[test]
fn lines_of_reports(rt: HostRuntime) {
    let whole = Report::Whole {
        at: 24_445,
        before: Level::High,
        block: Block::zero(),
    };
    let marked = Report::Marked {
        at: 64,
        before: Level::Low,
        wrong: 384,
    };
    let unfinished = Report::Unfinished { at: 131, cells: 8 };
    assert!(rt; is_told(rt.alloc(), &whole, "whole at 24445 before 1\n"));
    assert!(rt; is_told(rt.alloc(), &marked, "marked at 64 before 0 wrong 384\n"));
    assert!(rt; is_told(rt.alloc(), &unfinished, "unfinished at 131 cells 8\n"));
}

/// Whether a preamble and a gap have these lines.
fn are_told(alloc: Global, mark: Mark, before: Level, expected: &str) -> bool {
    let mut sink = MemorySink::new(alloc);
    line_of_mark(131, mark, before, &mut sink).is_ok()
        && line_of_gap(131, 24_576, &mut sink).is_ok()
        && sink.bytes() == expected.as_bytes()
}

#[test]
fn lines_of_preambles_and_gaps(rt: HostRuntime) {
    let first = "mark Z at 131 before 0\ngap at 131 cells 24576\n";
    assert!(rt; are_told(rt.alloc(), Mark::Z, Level::Low, first));
    let second = "mark Y at 131 before 1\ngap at 131 cells 24576\n";
    assert!(rt; are_told(rt.alloc(), Mark::Y, Level::High, second));
    let other = "mark X at 131 before 0\ngap at 131 cells 24576\n";
    assert!(rt; are_told(rt.alloc(), Mark::X, Level::Low, other));
}

/// A block's number, a channel, the first bytes of its status, the last, and the line.
type StatusLine = (u64, Channel, [u8; 6], u8, &'static str);

const LINES: &[StatusLine] = &[
    (
        0,
        Channel::First,
        [0x01, 0, 0, 0, 0, 0],
        0x32,
        "block=0 channel=1 professional payload=pcm emphasis=not-indicated unlocked=no rate=not-indicated mode=not-indicated user=not-indicated aux=undefined word=not-indicated b2high=0 b3=0 b4=0 b5=0 origin=.... destination=.... local=0 time=0 unreliable=0000 b22low=0 check=good\n",
    ),
    (
        0,
        Channel::First,
        [0x3D, 0x02, 0, 0, 0x02, 0],
        0x9B,
        "block=0 channel=1 professional payload=pcm emphasis=j17 unlocked=yes rate=not-indicated mode=stereophonic user=not-indicated aux=undefined word=not-indicated b2high=0 b3=0 b4=2 b5=0 origin=.... destination=.... local=0 time=0 unreliable=0000 b22low=0 check=good\n",
    ),
    (
        0,
        Channel::First,
        [0x04, 0x01, 0x21, 0x02, 0x0B, 0],
        0,
        "block=0 channel=1 consumer payload=pcm copyright=not-asserted emphasis=none mode=0 category=cd generation=0 source=1 number=2 rate=48000 accuracy=level2 b3high=0 greatest=24 word=24 original=0 rest=00000000000000000000000000000000000000\n",
    ),
    (
        0,
        Channel::First,
        [0; 6],
        0,
        "block=0 channel=1 consumer payload=pcm copyright=asserted emphasis=none mode=0 category=general generation=0 source=not-specified number=not-specified rate=44100 accuracy=level2 b3high=0 greatest=20 word=not-indicated original=0 rest=00000000000000000000000000000000000000\n",
    ),
    (
        u64::MAX,
        Channel::Second,
        [0; 6],
        0,
        "block=18446744073709551615 channel=2 consumer payload=pcm copyright=asserted emphasis=none mode=0 category=general generation=0 source=not-specified number=not-specified rate=44100 accuracy=level2 b3high=0 greatest=20 word=not-indicated original=0 rest=00000000000000000000000000000000000000\n",
    ),
];

/// The line of a channel status.
fn line_of(alloc: Global, block: u64, channel: Channel, status: &[u8; 24]) -> MemorySink {
    let mut sink = MemorySink::new(alloc);
    let _ = line_of_status(block, channel, status, &mut sink);
    sink
}

fn is_line(alloc: Global, line: &StatusLine) -> bool {
    let (block, channel, front, last, expected) = *line;
    let found = line_of(alloc, block, channel, &status_of(front, last));
    found.bytes() == expected.as_bytes()
}

#[test]
fn lines_of_status(rt: HostRuntime) {
    for line in LINES {
        assert!(rt; is_line(rt.alloc(), line), "{}", line.4);
    }
}

/// A byte's number, its value, and what the line then has.
type Part = (usize, u8, &'static str);

/// The other bytes are zero, except byte 0, which is 1.
const PROFESSIONAL: &[Part] = &[
    (0, 0x01, " payload=pcm "),
    (0, 0x03, " payload=other "),
    (0, 0x01, " emphasis=not-indicated "),
    (0, 0x05, " emphasis=none "),
    (0, 0x09, " emphasis=code2 "),
    (0, 0x0D, " emphasis=50/15 "),
    (0, 0x11, " emphasis=code4 "),
    (0, 0x1D, " emphasis=j17 "),
    (0, 0x01, " unlocked=no "),
    (0, 0x21, " unlocked=yes "),
    (0, 0x01, " rate=not-indicated "),
    (0, 0x41, " rate=44100 "),
    (0, 0x81, " rate=48000 "),
    (0, 0xC1, " rate=32000 "),
    (1, 0x00, " mode=not-indicated "),
    (1, 0x01, " mode=code1 "),
    (1, 0x02, " mode=stereophonic "),
    (1, 0x04, " mode=single "),
    (1, 0x08, " mode=two-channel "),
    (1, 0x0C, " mode=primary-secondary "),
    (1, 0x0F, " mode=code15 "),
    (1, 0x00, " user=not-indicated "),
    (1, 0x40, " user=code4 "),
    (1, 0x80, " user=block192 "),
    (1, 0xC0, " user=user "),
    (2, 0x00, " aux=undefined "),
    (2, 0x01, " aux=code1 "),
    (2, 0x02, " aux=coordination "),
    (2, 0x04, " aux=audio "),
    (2, 0x06, " aux=user "),
    (2, 0x00, " word=not-indicated "),
    (2, 0x20, " word=19 "),
    (2, 0x10, " word=18 "),
    (2, 0x30, " word=17 "),
    (2, 0x08, " word=16 "),
    (2, 0x28, " word=20 "),
    (2, 0x18, " word=code3 "),
    (2, 0x22, " word=19 "),
    (2, 0x2A, " word=20 "),
    (2, 0x04, " word=not-indicated "),
    (2, 0x24, " word=23 "),
    (2, 0x14, " word=22 "),
    (2, 0x34, " word=21 "),
    (2, 0x0C, " word=20 "),
    (2, 0x2C, " word=24 "),
    (2, 0x3C, " word=code7 "),
    (2, 0x06, " word=not-indicated "),
    (2, 0x2E, " word=code5 "),
    (2, 0x21, " word=code4 "),
    (2, 0xC0, " b2high=3 "),
    (3, 0xFF, " b3=255 "),
    (4, 0x2A, " b4=42 "),
    (5, 0x07, " b5=7 "),
    (6, b'A', " origin=A... "),
    (7, b'~', " origin=.~.. "),
    (8, b'!', " origin=..!. "),
    (9, b' ', " origin=.... "),
    (9, 0x7F, " origin=.... "),
    (9, 0xC1, " origin=.... "),
    (10, b'z', " destination=z... "),
    (13, b'0', " destination=...0 "),
    (14, 0x05, " local=5 "),
    (17, 0x80, " local=2147483648 "),
    (19, 0x01, " time=256 "),
    (21, 0x01, " time=16777216 "),
    (22, 0x10, " unreliable=1000 "),
    (22, 0x20, " unreliable=0100 "),
    (22, 0x40, " unreliable=0010 "),
    (22, 0x80, " unreliable=0001 "),
    (22, 0xF0, " unreliable=1111 "),
    (22, 0x0F, " b22low=15 "),
    (23, 0x32, " check=good\n"),
    (23, 0x00, " check=absent\n"),
    (23, 0x33, " check=bad\n"),
];

/// The other bytes are zero.
const CONSUMER: &[Part] = &[
    (0, 0x00, " payload=pcm "),
    (0, 0x02, " payload=other "),
    (0, 0x00, " copyright=asserted "),
    (0, 0x04, " copyright=not-asserted "),
    (0, 0x00, " emphasis=none "),
    (0, 0x08, " emphasis=50/15 "),
    (0, 0x10, " emphasis=code2 "),
    (0, 0x02, " emphasis=code0 "),
    (0, 0x0A, " emphasis=code1 "),
    (0, 0xC0, " mode=3 "),
    (1, 0x00, " category=general "),
    (1, 0x01, " category=cd "),
    (1, 0x02, " category=code2 "),
    (1, 0x03, " category=dat "),
    (1, 0xFF, " category=code127 generation=1 "),
    (2, 0x00, " source=not-specified number=not-specified "),
    (2, 0xF1, " source=1 number=15 "),
    (3, 0x00, " rate=44100 "),
    (3, 0x01, " rate=not-indicated "),
    (3, 0x02, " rate=48000 "),
    (3, 0x03, " rate=32000 "),
    (3, 0x04, " rate=22050 "),
    (3, 0x05, " rate=code5 "),
    (3, 0x06, " rate=24000 "),
    (3, 0x08, " rate=88200 "),
    (3, 0x0A, " rate=96000 "),
    (3, 0x0C, " rate=176400 "),
    (3, 0x0E, " rate=192000 "),
    (3, 0x0F, " rate=code15 "),
    (3, 0x00, " accuracy=level2 "),
    (3, 0x10, " accuracy=level1 "),
    (3, 0x20, " accuracy=level3 "),
    (3, 0x30, " accuracy=code3 "),
    (3, 0x80, " b3high=2 "),
    (4, 0x00, " greatest=20 word=not-indicated "),
    (4, 0x08, " greatest=20 word=19 "),
    (4, 0x04, " greatest=20 word=18 "),
    (4, 0x0C, " greatest=20 word=17 "),
    (4, 0x02, " greatest=20 word=16 "),
    (4, 0x0A, " greatest=20 word=20 "),
    (4, 0x0E, " greatest=20 word=code7 "),
    (4, 0x01, " greatest=24 word=not-indicated "),
    (4, 0x09, " greatest=24 word=23 "),
    (4, 0x05, " greatest=24 word=22 "),
    (4, 0x0D, " greatest=24 word=21 "),
    (4, 0x03, " greatest=24 word=20 "),
    (4, 0x0B, " greatest=24 word=24 "),
    (4, 0x07, " greatest=24 word=code3 "),
    (4, 0xA0, " original=10 "),
    (5, 0xAB, " rest=ab000000000000000000000000000000000000\n"),
    (23, 0x0F, " rest=0000000000000000000000000000000000000f\n"),
];

/// Whether the line of a status has a part; its other bytes but the first are zero.
fn has_part(alloc: Global, first: u8, part: &Part) -> bool {
    let (at, value, text) = *part;
    let status = with_byte(with_byte([0; 24], 0, first), at, value);
    let line = line_of(alloc, 0, Channel::First, &status);
    match str::from_utf8(line.bytes()) {
        Ok(line) => line.contains(text),
        Err(_) => false,
    }
}

#[test]
fn fields_of_professional_lines(rt: HostRuntime) {
    for part in PROFESSIONAL {
        assert!(rt; has_part(rt.alloc(), 1, part), "{}", part.2);
    }
}

#[test]
fn fields_of_consumer_lines(rt: HostRuntime) {
    for part in CONSUMER {
        assert!(rt; has_part(rt.alloc(), 0, part), "{}", part.2);
    }
}

/// A block whose second channel has one V bit and two U bits that are 1.
fn block_with_details() -> Block {
    let mut block = Block::zero();
    block.set_validity(Channel::Second, &status_of([0x80, 0, 0, 0, 0, 0], 0));
    block.set_user(Channel::Second, &status_of([0x01, 0, 0, 0, 0, 0], 0x80));
    block
}

/// Whether the line of the second channel of a block ends like this.
fn ends(alloc: Global, detail: Detail, block: &Block, expected: &str) -> bool {
    let mut sink = MemorySink::new(alloc);
    let text = text_of_detail(detail, Channel::Second, 24_445, block);
    let _ = line_of_status_with(0, Channel::Second, &[0; 24], &text, &mut sink);
    sink.bytes().ends_with(expected.as_bytes())
}

#[test]
fn details_of_status_lines(rt: HostRuntime) {
    let block = block_with_details();
    let zeros = "=00000000000000000000000000000000000000\n";
    assert!(rt; ends(rt.alloc(), Detail::Plain, &block, zeros));
    assert!(rt; ends(rt.alloc(), Detail::Place, &block, "00 at=24445\n"));
    assert!(rt; ends(rt.alloc(), Detail::Carried, &block, "00 v=1 u=2 at=24445\n"));
    assert!(rt;
        ends(
            rt.alloc(),
            Detail::Names,
            &block,
            "00 original=not-indicated\n"
        )
    );
}

/// A rate for each use of channel status, and an origin.
fn rates() -> Option<Settings> {
    let mut codes = [Setting::NOTHING; SETTINGS];
    codes[0] = professional_setting("rate=32000")?;
    codes[1] = consumer_setting("rate=32000")?;
    let wide = WideSettings {
        origin: Some(*b"JATH"),
        ..WideSettings::NOTHING
    };
    Some(Settings { codes, wide })
}

/// Fields that are set by name are shown by name, in the code of each use.
#[test]
fn fields_set_by_name(rt: HostRuntime) {
    let settings = rates().expect(&rt, "rates of both uses");
    let mut professional = with_byte([0; 24], 0, 0x01);
    let mut consumer = [0; 24];
    set_fields(&mut professional, &settings);
    set_fields(&mut consumer, &settings);
    let is_unknown = professional_setting("rate=768000").is_none();
    assert!(rt; (professional[0], consumer[3], is_unknown) == (0xC1, 0x03, true));
    let origin = [
        professional[6],
        professional[7],
        professional[8],
        professional[9],
    ];
    assert!(rt; (origin, consumer[6]) == (*b"JATH", 0));
}
