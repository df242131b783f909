//! Worked jobs, with their expected bytes written out from the line code.

use crate::bytes::{Bytes, bytes_of};
use aes3_cell::{Form, MemorySink, MemorySource};
use aes3_cli_jobs::{Job, Nobody, ReadWork, StreamWork};
use aes3_engine::Change;
use aes3_forms_samples::SampleFormat;
use aes3_forms_words::Words;
use aes3_program::{TypedSettings, finish_job, run_job};
use aes3_text::Lines;
use std::alloc::{AllocError, Global};

const TEXT: Form = Form::Text;

const ENCODE: Job = Job::Encode {
    output: TEXT,
    words: Words::Own,
};

const DECODE: Job = Job::Read {
    input: TEXT,
    work: ReadWork::Decode { words: Words::Own },
};

const NORMAL: Job = Job::Stream {
    input: TEXT,
    output: TEXT,
    work: StreamWork::Normal,
};

const CHECK: Job = Job::Read {
    input: TEXT,
    work: ReadWork::Check { lines: Lines::All },
};

const CUT: Job = Job::Stream {
    input: TEXT,
    output: TEXT,
    work: StreamWork::Cut {
        from: 1,
        count: u64::MAX,
    },
};

const MENDED: Job = Job::Stream {
    input: TEXT,
    output: TEXT,
    work: StreamWork::Rewrite {
        change: Change {
            status1: None,
            status2: None,
            settings1: None,
            settings2: None,
            validity1: None,
            validity2: None,
            clear_user1: false,
            clear_user2: false,
            mend: true,
        },
        exact: false,
    },
};

/// An input of a job, its output, the line of its error and the exit status.
type Row = (Bytes, Bytes, &'static [u8], u8);

/// Whether a job makes this output from its input, and ends as expected.
fn is_finished(
    alloc: Global,
    job: &Job,
    input: &[u8],
    output: &[u8],
    errors: &[u8],
    status: u8,
) -> bool {
    let mut source = MemorySource::new(input, 100);
    let mut sink = MemorySink::new(alloc);
    let mut lines = MemorySink::new(alloc);
    let typed = TypedSettings::new(&[], &[]);
    let answer = finish_job(job, &typed, &mut source, &mut sink, &mut lines, &mut Nobody);
    answer == status && sink.bytes() == output && lines.bytes() == errors
}

fn is_right(alloc: Global, job: &Job, row: &Row) -> Result<bool, AllocError> {
    let (input, output, errors, status) = row;
    let input = bytes_of(alloc, input)?;
    let output = bytes_of(alloc, output)?;
    Ok(is_finished(alloc, job, &input, &output, errors, *status))
}

fn are_right(alloc: Global, job: Job, rows: &[Row]) -> bool {
    for row in rows {
        if is_right(alloc, &job, row) != Ok(true) {
            return false;
        }
    }
    true
}

const NOTHING: Bytes = Bytes::Just(b"");

/// The zero block as text.
const BLOCK: Bytes = Bytes::Zeros(0, 1, b"");

/// The same block after the front of another.
const EARLY: Bytes = Bytes::Zeros(200, 1, b"");

/// The same block before a cell that does not close it.
const UNCLOSED: Bytes = Bytes::Zeros(0, 1, b"0");

const ONE: Bytes = Bytes::File(&[0x10, 0, 0, 0x80], 1_536);

const ONE_TEXT: Bytes = Bytes::Block(b"10110011001100110011001100110011001100110011001100110010");

const ALL: Bytes = Bytes::File(&[0xF0, 0xFF, 0xFF, 0xFF], 1_536);

const ALL_TEXT: Bytes = Bytes::Block(b"10101010101010101010101010101010101010101010101010101010");

const ENCODED: &[Row] = &[
    (NOTHING, NOTHING, b"", 0),
    (ONE, ONE_TEXT, b"", 0),
    (ALL, ALL_TEXT, b"", 0),
    (
        Bytes::File(b"", 1_535),
        NOTHING,
        b"aes3: refused 2 at 1535\n",
        3,
    ),
    (
        Bytes::File(b"\x11", 1_536),
        NOTHING,
        b"aes3: refused 3 at 0\n",
        3,
    ),
    (
        Bytes::File(b"\x10", 1_536),
        NOTHING,
        b"aes3: refused 4 at 0\n",
        3,
    ),
];

#[test]
fn block_files(rt: HostRuntime) {
    assert!(rt; are_right(rt.alloc(), ENCODE, ENCODED));
    assert!(rt; are_right(rt.alloc(), DECODE, &[(ALL_TEXT, ALL, b"", 0)]));
}

const NORMAL_CELLS: &[Row] = &[
    (EARLY, BLOCK, b"", 0),
    (UNCLOSED, NOTHING, b"", 0),
    (
        Bytes::Zeros(0, 1, b"1x0"),
        BLOCK,
        b"aes3: refused 1 at 24961\n",
        3,
    ),
];

const CHECKED: &[Row] = &[
    (
        EARLY,
        Bytes::Just(b"fault at 0 cell 12804 preamble\nwhole at 12800 before 0\n"),
        b"",
        1,
    ),
    (BLOCK, Bytes::Just(b"whole at 0 before 0\n"), b"", 0),
    (
        UNCLOSED,
        Bytes::Just(b"fault at 0 cell 24576 unclosed\n"),
        b"",
        1,
    ),
];

#[test]
fn cells(rt: HostRuntime) {
    assert!(rt; are_right(rt.alloc(), NORMAL, NORMAL_CELLS));
    assert!(rt; are_right(rt.alloc(), CHECK, CHECKED));
    assert!(rt; are_right(rt.alloc(), CUT, &[(BLOCK, NOTHING, b"", 0)]));
    assert!(rt; are_right(rt.alloc(), MENDED, &[(BLOCK, BLOCK, b"", 0)]));
}

/// Whether a file of blocks becomes these samples over a line.
fn is_heard(alloc: Global, form: Form, file: &[u8], samples: &[u8]) -> bool {
    let encode = Job::Encode {
        output: form,
        words: Words::Own,
    };
    let mut line = MemorySink::new(alloc);
    let is_written = run_job(&encode, &mut MemorySource::new(file, 4_096), &mut line).is_ok();
    let to_pcm = Job::Read {
        input: form,
        work: ReadWork::ToPcm {
            format: SampleFormat::S32,
            valid: false,
        },
    };
    let mut pcm = MemorySink::new(alloc);
    let is_read = run_job(
        &to_pcm,
        &mut MemorySource::new(line.bytes(), 4_096),
        &mut pcm,
    )
    .is_ok();
    is_written && is_read && pcm.bytes() == samples
}

/// Audio 1 in slot 4, and its parity bit.
fn is_one_heard(alloc: Global, form: Form) -> Result<bool, AllocError> {
    let file = bytes_of(alloc, &Bytes::Words(&[0x10, 0, 0, 0x80]))?;
    let samples = bytes_of(alloc, &Bytes::Words(&[0, 1, 0, 0]))?;
    Ok(is_heard(alloc, form, &file, &samples))
}

#[test]
fn samples_of_a_line(rt: HostRuntime) {
    assert!(rt; is_one_heard(rt.alloc(), Form::Text) == Ok(true));
    assert!(rt; is_one_heard(rt.alloc(), Form::Packed) == Ok(true));
}
