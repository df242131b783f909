//! Every job over a source and a sink that fail at each call in turn. Every job also runs over
//! sources and sinks that give or take few bytes.

ghost use Rattle.std.specs.Prelude.{◌<◌};

use crate::bytes::{Bytes, bytes_of};
use aes3_cell::{FailingSink, FailingSource, Form, MemorySink, MemorySource, RunError, ShortSink};
use aes3_cli_jobs::{Job, ReadWork, Refusal, StreamWork};
use aes3_engine::Change;
use aes3_forms_samples::SampleFormat;
use aes3_forms_words::Words;
use aes3_program::run_job;
use aes3_text::Lines;
use aes3_text_lines::Detail;
use std::alloc::{AllocError, Global};

const TEXT: Form = Form::Text;

const PACKED: Form = Form::Packed;

/// How many bytes a failing source gives in a call.
const PIECE: usize = 650;

/// The part of an output that is decided before the end of the input.
enum Early {
    Nothing,
    /// This number of first bytes of the input decides this number of bytes.
    Front(usize, usize),
    /// This number of first bytes of the input decides this number of lines.
    FrontLines(usize, usize),
    /// Each block of a block file decides this number of bytes.
    Blocks(usize),
    /// The first lines of the output are decided by this number of first bytes of each line of the
    /// input; the second number is how many bytes such a line has.
    Lines(usize, usize),
}

/// The buffers in which an output is written to the sink.
enum Buffers {
    Lines,
    Sized(usize),
}

/// An input and an output of a job.
type Row = (Bytes, Bytes, Early, Buffers);

/// The first lines of a text.
fn first_lines(text: &[u8], lines: usize) -> &[u8] {
    let mut left = lines;
    for (i, byte) in text.iter().enumerate() {
        if left == 0 {
            return text.get(..i).unwrap_or(text);
        }
        if *byte == b'\n' {
            left -= 1;
        }
    }
    text
}

/// The first bytes of a text.
fn first_bytes(text: &[u8], len: usize) -> &[u8] {
    text.get(..len).unwrap_or(text)
}

/// The part of an output that the first `read` bytes of the input decide.
fn decided<'a>(early: &Early, output: &'a [u8], read: usize) -> &'a [u8] {
    match *early {
        Early::Front(enough, written) if read >= enough => first_bytes(output, written),
        Early::FrontLines(enough, lines) if read >= enough => first_lines(output, lines),
        Early::Blocks(written) => first_bytes(output, (read / 1_536).saturating_mul(written)),
        Early::Lines(first, len) if read >= first => {
            let behind = (read - first).checked_div(len).unwrap_or(0);
            first_lines(output, behind.saturating_add(1))
        }
        _ => b"",
    }
}

/// The first `count` buffers of an output.
fn first_buffers<'a>(buffers: &Buffers, output: &'a [u8], count: usize) -> &'a [u8] {
    match *buffers {
        Buffers::Lines => first_lines(output, count),
        Buffers::Sized(len) => first_bytes(output, len.saturating_mul(count)),
    }
}

/// Whether a read that fails is reported after what was decided before it.
fn tells_failed_read(alloc: Global, job: &Job, input: &[u8], call: usize, front: &[u8]) -> bool
    requires { 0 < call }
{
    let mut source = FailingSource::new(input, PIECE, call as u64);
    let mut sink = MemorySink::new(alloc);
    let answer = run_job(job, &mut source, &mut sink);
    answer == Err(Refusal::Run(RunError::Read)) && sink.bytes() == front
}

fn tells_failed_reads(
    alloc: Global,
    job: &Job,
    input: &[u8],
    output: &[u8],
    early: &Early,
) -> bool {
    for call in 1..=input.len().div_ceil(PIECE) + 1 {
        let front = decided(early, output, (call - 1).saturating_mul(PIECE));
        if !tells_failed_read(alloc, job, input, call, front) {
            return false;
        }
    }
    true
}

/// Whether a write that fails is reported after the buffers before it.
fn tells_failed_write(alloc: Global, job: &Job, input: &[u8], call: usize, front: &[u8]) -> bool
    requires { 0 < call }
{
    let mut source = MemorySource::new(input, 4_096);
    let mut sink = FailingSink::new(alloc, call as u64);
    let answer = run_job(job, &mut source, &mut sink);
    answer == Err(Refusal::Run(RunError::Write)) && sink.bytes() == front
}

fn tells_failed_writes(
    alloc: Global,
    job: &Job,
    input: &[u8],
    output: &[u8],
    buffers: &Buffers,
) -> bool {
    for call in 1..=output.len() {
        let front = first_buffers(buffers, output, call - 1);
        if front.len() == output.len() {
            return true;
        }
        if !tells_failed_write(alloc, job, input, call, front) {
            return false;
        }
    }
    true
}

/// Whether the output is the same if a given number of bytes is read and written at once.
fn takes_pieces(
    alloc: Global,
    job: &Job,
    input: &[u8],
    output: &[u8],
    piece: usize,
    most: usize,
) -> bool {
    let mut source = MemorySource::new(input, piece.max(1));
    let mut sink = ShortSink::new(alloc, most.max(1));
    run_job(job, &mut source, &mut sink).is_ok() && sink.bytes() == output
}

fn takes_any_pieces(alloc: Global, job: &Job, input: &[u8], output: &[u8]) -> bool {
    takes_pieces(alloc, job, input, output, 1, 4_096)
        && takes_pieces(alloc, job, input, output, 7, 64)
        && takes_pieces(alloc, job, input, output, 64, 7)
        && takes_pieces(alloc, job, input, output, 65, 1)
        && takes_pieces(alloc, job, input, output, 4_096, 4_096)
}

/// Whether each failed read in turn is reported.
fn is_read(alloc: Global, job: &Job, row: &Row) -> Result<bool, AllocError> {
    let (input, output, early, _) = row;
    let input = bytes_of(alloc, input)?;
    let output = bytes_of(alloc, output)?;
    Ok(tells_failed_reads(alloc, job, &input, &output, early))
}

/// Whether each failed write in turn is reported, and pieces of any length work.
fn is_written(alloc: Global, job: &Job, row: &Row) -> Result<bool, AllocError> {
    let (input, output, _, buffers) = row;
    let input = bytes_of(alloc, input)?;
    let output = bytes_of(alloc, output)?;
    let is_told = tells_failed_writes(alloc, job, &input, &output, buffers);
    Ok(is_told && takes_any_pieces(alloc, job, &input, &output))
}

fn are_read(alloc: Global, job: Job, rows: &[Row]) -> bool {
    for row in rows {
        if is_read(alloc, &job, row) != Ok(true) {
            return false;
        }
    }
    true
}

fn are_right(alloc: Global, job: Job, rows: &[Row]) -> bool {
    for row in rows {
        if is_written(alloc, &job, row) != Ok(true) {
            return false;
        }
    }
    are_read(alloc, job, rows)
}

/// The zero block after the front of another.
const EARLY: Bytes = Bytes::Zeros(200, 1, b"");

const ONE: Bytes = Bytes::Zeros(0, 1, b"");

const TWO: Bytes = Bytes::Zeros(0, 2, b"");

const ONE_FILE: Bytes = Bytes::File(b"", 1_536);

const TWO_FILE: Bytes = Bytes::File(b"", 3_072);

const NORMAL: Job = Job::Stream {
    input: TEXT,
    output: TEXT,
    work: StreamWork::Normal,
};

const CUT: Job = Job::Stream {
    input: TEXT,
    output: TEXT,
    work: StreamWork::Cut { from: 0, count: 1 },
};

const AS_IT_IS: Change = Change {
    status1: None,
    status2: None,
    settings1: None,
    settings2: None,
    validity1: None,
    validity2: None,
    clear_user1: false,
    clear_user2: false,
    mend: false,
};

const REWRITE: Job = Job::Stream {
    input: TEXT,
    output: TEXT,
    work: StreamWork::Rewrite {
        change: Change {
            status1: Some([
                1, 0, 0, 0, 0, 0, 0, 0, 0, 0, 0, 0, 0, 0, 0, 0, 0, 0, 0, 0, 0, 0, 0, 0,
            ]),
            status2: None,
            settings1: None,
            settings2: None,
            validity1: None,
            validity2: None,
            clear_user1: false,
            clear_user2: false,
            mend: true,
        },
        exact: false,
    },
};

/// A line of cells.
const LINE: Buffers = Buffers::Sized(65);

/// The first block of two, decided by the first cell of the second.
const FIRST_OF_TWO: Early = Early::Front(24_961, 24_960);

#[test]
fn cells_before_a_failed_read(rt: HostRuntime) {
    assert!(rt; are_read(rt.alloc(), NORMAL, &[(TWO, TWO, FIRST_OF_TWO, LINE)]));
    assert!(rt; are_read(rt.alloc(), CUT, &[(TWO, ONE, FIRST_OF_TWO, LINE)]));
    let rewritten = &[(TWO, Bytes::FirstBit(2), FIRST_OF_TWO, LINE)];
    assert!(rt; are_read(rt.alloc(), REWRITE, rewritten));
}

const NORMAL_CELLS: &[Row] = &[
    (EARLY, ONE, Early::Nothing, LINE),
    (Bytes::Other, ONE, Early::Nothing, LINE),
];

const REWRITTEN: &[Row] = &[
    (EARLY, Bytes::FirstBit(1), Early::Nothing, LINE),
    (Bytes::Other, Bytes::FirstBit(1), Early::Nothing, LINE),
];

#[test]
fn cells_of_cells(rt: HostRuntime) {
    assert!(rt; are_right(rt.alloc(), NORMAL, NORMAL_CELLS));
    assert!(rt; are_right(rt.alloc(), CUT, &[(EARLY, ONE, Early::Nothing, LINE)]));
    assert!(rt; are_right(rt.alloc(), REWRITE, REWRITTEN));
}

const CHECK: Job = Job::Read {
    input: TEXT,
    work: ReadWork::Check { lines: Lines::All },
};

const CHECK_PACKED: Job = Job::Read {
    input: PACKED,
    work: ReadWork::Check { lines: Lines::All },
};

const ACCOUNT: Job = Job::Read {
    input: TEXT,
    work: ReadWork::Account { lines: Lines::All },
};

const WHOLES: Bytes = Bytes::Just(b"whole at 0 before 0\nwhole at 24576 before 0\n");

const FAULT: Bytes = Bytes::Just(b"fault at 0 cell 12804 preamble\nwhole at 12800 before 0\n");

const OTHER: Bytes = Bytes::Just(b"whole at 0 before 1\n");

const CHECKED: &[Row] = &[
    (TWO, WHOLES, Early::FrontLines(24_961, 1), Buffers::Lines),
    (EARLY, FAULT, Early::FrontLines(13_005, 1), Buffers::Lines),
    (Bytes::Other, OTHER, Early::Nothing, Buffers::Lines),
];

const CHECKED_PACKED: &[Row] = &[(
    Bytes::Packed,
    WHOLES,
    Early::FrontLines(3_075, 1),
    Buffers::Lines,
)];

const COUNTED: &[Row] = &[(TWO, WHOLES, Early::FrontLines(24_961, 1), Buffers::Lines)];

#[test]
fn reports_of_cells(rt: HostRuntime) {
    assert!(rt; are_right(rt.alloc(), CHECK, CHECKED));
    assert!(rt; are_right(rt.alloc(), CHECK_PACKED, CHECKED_PACKED));
    assert!(rt; are_right(rt.alloc(), ACCOUNT, COUNTED));
}

const SHOW: Job = Job::Read {
    input: TEXT,
    work: ReadWork::Show {
        detail: Detail::Plain,
    },
};

const SHOW_PACKED: Job = Job::Read {
    input: PACKED,
    work: ReadWork::Show {
        detail: Detail::Plain,
    },
};

const SHOW_CHANGES: Job = Job::Read {
    input: TEXT,
    work: ReadWork::ShowChanges {
        detail: Detail::Plain,
    },
};

const SCAN: Job = Job::Read {
    input: TEXT,
    work: ReadWork::Scan,
};

const SCAN_PACKED: Job = Job::Read {
    input: PACKED,
    work: ReadWork::Scan,
};

const SHOWN: &[Row] = &[
    (
        TWO,
        Bytes::Shown(2),
        Early::FrontLines(24_961, 2),
        Buffers::Lines,
    ),
    (EARLY, Bytes::Shown(1), Early::Nothing, Buffers::Lines),
    (
        Bytes::Other,
        Bytes::Shown(1),
        Early::Nothing,
        Buffers::Lines,
    ),
];

const SHOWN_PACKED: &[Row] = &[(
    Bytes::Packed,
    Bytes::Shown(2),
    Early::FrontLines(3_075, 2),
    Buffers::Lines,
)];

const SHOWN_CHANGES: &[Row] = &[(
    TWO,
    Bytes::Shown(1),
    Early::FrontLines(24_961, 2),
    Buffers::Lines,
)];

#[test]
fn status_of_cells(rt: HostRuntime) {
    assert!(rt; are_right(rt.alloc(), SHOW, SHOWN));
    assert!(rt; are_right(rt.alloc(), SHOW_PACKED, SHOWN_PACKED));
    assert!(rt; are_right(rt.alloc(), SHOW_CHANGES, SHOWN_CHANGES));
}

const SCANNED: &[Row] = &[(
    EARLY,
    Bytes::Marks(200),
    Early::Lines(8, 65),
    Buffers::Lines,
)];

const SCANNED_PACKED: &[Row] = &[(
    Bytes::Packed,
    Bytes::Marks(384),
    Early::Lines(3, 8),
    Buffers::Lines,
)];

#[test]
fn preambles_of_cells(rt: HostRuntime) {
    assert!(rt; are_right(rt.alloc(), SCAN, SCANNED));
    assert!(rt; are_right(rt.alloc(), SCAN_PACKED, SCANNED_PACKED));
}

const DECODE: Job = Job::Read {
    input: TEXT,
    work: ReadWork::Decode { words: Words::Own },
};

const DECODE_PACKED: Job = Job::Read {
    input: PACKED,
    work: ReadWork::Decode { words: Words::Own },
};

const TO_PCM: Job = Job::Read {
    input: TEXT,
    work: ReadWork::ToPcm {
        format: SampleFormat::S32,
        valid: false,
    },
};

const TO_VALID_PCM: Job = Job::Read {
    input: TEXT,
    work: ReadWork::ToPcm {
        format: SampleFormat::S32,
        valid: true,
    },
};

const FROM_PCM: Job = Job::FromPcm {
    format: SampleFormat::S32,
    exact: true,
    change: AS_IT_IS,
    words: Words::Own,
};

/// A block as a file or as samples.
const BLOCK: Buffers = Buffers::Sized(1_536);

const DECODED: &[Row] = &[
    (TWO, TWO_FILE, Early::Front(24_961, 1_536), BLOCK),
    (EARLY, ONE_FILE, Early::Nothing, BLOCK),
    (Bytes::Other, ONE_FILE, Early::Nothing, BLOCK),
];

const DECODED_PACKED: &[Row] = &[(Bytes::Packed, TWO_FILE, Early::Front(3_075, 1_536), BLOCK)];

/// The samples of the zero block are zeros, as is its file.
const SAMPLES: &[Row] = &[
    (EARLY, ONE_FILE, Early::Nothing, BLOCK),
    (TWO, TWO_FILE, Early::Front(24_961, 1_536), BLOCK),
];

const VALID_SAMPLES: &[Row] = &[(TWO, TWO_FILE, Early::Front(24_961, 1_536), BLOCK)];

const SAMPLED: &[Row] = &[(TWO_FILE, TWO_FILE, Early::Blocks(1_536), BLOCK)];

#[test]
fn blocks_of_cells(rt: HostRuntime) {
    assert!(rt; are_right(rt.alloc(), DECODE, DECODED));
    assert!(rt; are_right(rt.alloc(), DECODE_PACKED, DECODED_PACKED));
    assert!(rt; are_right(rt.alloc(), TO_PCM, SAMPLES));
    assert!(rt; are_right(rt.alloc(), TO_VALID_PCM, VALID_SAMPLES));
    assert!(rt; are_right(rt.alloc(), FROM_PCM, SAMPLED));
}

const ENCODE: Job = Job::Encode {
    output: TEXT,
    words: Words::Own,
};

const PACK: Job = Job::Encode {
    output: PACKED,
    words: Words::Own,
};

const NORMAL_PACKED: Job = Job::Stream {
    input: PACKED,
    output: PACKED,
    work: StreamWork::Normal,
};

/// A subframe of packed cells.
const OCTETS: Buffers = Buffers::Sized(8);

const ENCODED: &[Row] = &[(TWO_FILE, TWO, Early::Blocks(24_960), LINE)];

const PACKED_BLOCKS: &[Row] = &[(TWO_FILE, Bytes::Packed, Early::Blocks(3_072), OCTETS)];

const NORMAL_OCTETS: &[Row] = &[(
    Bytes::Packed,
    Bytes::Packed,
    Early::Front(3_075, 3_072),
    OCTETS,
)];

#[test]
fn cells_of_blocks_and_packed_cells(rt: HostRuntime) {
    assert!(rt; are_right(rt.alloc(), ENCODE, ENCODED));
    assert!(rt; are_right(rt.alloc(), PACK, PACKED_BLOCKS));
    assert!(rt; are_right(rt.alloc(), NORMAL_PACKED, NORMAL_OCTETS));
}
