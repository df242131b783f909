//! Command lines and what they ask for.

use aes3_cell::{Form, RunError};
use aes3_cli_arguments::{LineFault, job_of_words, status_of_text};
use aes3_cli_jobs::{Job, ReadWork, StreamWork};
use aes3_engine::Change;
use aes3_forms_samples::SampleFormat;
use aes3_forms_words::Words;
use aes3_frame::{CarriedBits, Channel, Fill};
use aes3_text_lines::{Detail, Lines, Notation, Style};
use aes3_wave::Depth;
use std::alloc::Global;

const TEXT: Form = Form::Text;

/// A status with both cases of letters, and its bytes.
const STATUS: &str = "000102030405060708090a0B0c0D0e0Fa0B1c2D3e4F5ff00";

const STATUS_BYTES: [u8; 24] = [
    0, 1, 2, 3, 4, 5, 6, 7, 8, 9, 10, 11, 12, 13, 14, 15, 0xA0, 0xB1, 0xC2, 0xD3, 0xE4, 0xF5, 0xFF,
    0,
];

/// The answer to a command line.
#[derive(Clone, Copy, PartialEq, Eq)]
enum Told {
    Job,
    Usage,
    Help,
    Refused(RunError),
}

/// The answer to these words.
fn answered(alloc: Global, words: &[&str]) -> Told {
    match job_of_words(alloc, words) {
        Ok(_) => Told::Job,
        Err(LineFault::Usage { .. }) => Told::Usage,
        Err(LineFault::Help { .. }) => Told::Help,
        Err(LineFault::Refused(error)) => Told::Refused(error),
    }
}

const CUT: Job = Job::Stream {
    input: TEXT,
    output: Form::Packed,
    work: StreamWork::Cut { from: 1, count: 7 },
};

const REWRITE: Job = Job::Stream {
    input: TEXT,
    output: TEXT,
    work: StreamWork::Rewrite {
        change: Change {
            status1: Some(STATUS_BYTES),
            status2: None,
            settings1: None,
            settings2: None,
            validity1: None,
            validity2: None,
            clear_user1: false,
            clear_user2: false,
            mend: true,
        },
        exact: false,
    },
};

/// The default status for professional use, and that of samples of which nothing is known.
const PROFESSIONAL: [u8; 24] = [
    0x05, 0x08, 0x2C, 0, 0, 0, 0, 0, 0, 0, 0, 0, 0, 0, 0, 0, 0, 0, 0, 0, 0, 0, 0, 0,
];

const UNKNOWN: [u8; 24] = [
    0x04, 0, 0, 0x01, 0x01, 0, 0, 0, 0, 0, 0, 0, 0, 0, 0, 0, 0, 0, 0, 0, 0, 0, 0, 0,
];

/// Samples whose channels have these statuses.
fn samples(status1: [u8; 24], status2: [u8; 24], mend: bool) -> Job {
    Job::FromPcm {
        format: SampleFormat::S32,
        exact: false,
        change: Change {
            status1: Some(status1),
            status2: Some(status2),
            settings1: None,
            settings2: None,
            validity1: None,
            validity2: None,
            clear_user1: false,
            clear_user2: false,
            mend,
        },
        words: Words::Own,
    }
}

const WATCH_SUMS: Job = Job::Read {
    input: TEXT,
    work: ReadWork::WatchSums {
        style: Style {
            notation: Notation::Words,
            rate: Some(48_000),
        },
        every: 12_288_000,
    },
};

const INFO: Job = Job::Read {
    input: TEXT,
    work: ReadWork::Info {
        notation: Notation::Json,
    },
};

const VALID: Job = Job::Stream {
    input: TEXT,
    output: TEXT,
    work: StreamWork::Rewrite {
        change: Change {
            status1: None,
            status2: None,
            settings1: None,
            settings2: None,
            validity1: Some(false),
            validity2: Some(true),
            clear_user1: false,
            clear_user2: true,
            mend: false,
        },
        exact: false,
    },
};

fn asks_for(alloc: Global, words: &[&str], job: Job) -> bool {
    match job_of_words(alloc, words) {
        Ok(found) => found == job,
        Err(_) => false,
    }
}

const CHECK: Job = Job::Read {
    input: TEXT,
    work: ReadWork::Check { lines: Lines::All },
};

const SHOW: Job = Job::Read {
    input: TEXT,
    work: ReadWork::Show {
        detail: Detail::Carried,
    },
};

const TO_PCM: Job = Job::Read {
    input: Form::Packed,
    work: ReadWork::ToPcm {
        format: SampleFormat::S16,
        valid: true,
    },
};

const TO_BITS: Job = Job::Read {
    input: TEXT,
    work: ReadWork::ToBits {
        bits: CarriedBits::Validity,
        channel: Channel::Second,
    },
};

/// Whether each line gives its job; `tests/rows` has the others, for the program.
fn is_each_asked_for(alloc: Global) -> bool {
    asks_for(alloc, &["check"], CHECK)
        && asks_for(alloc, &["cut", "+1", "--packed-out", "007"], CUT)
        && asks_for(
            alloc,
            &["rewrite", "--mend-check", "--status1", STATUS],
            REWRITE,
        )
        && asks_for(
            alloc,
            &["rewrite", "--valid1", "0", "--valid2=1", "--clear-user2"],
            VALID,
        )
        && asks_for(
            alloc,
            &["watch", "--every-seconds", "2", "--rate", "48000"],
            WATCH_SUMS,
        )
        && asks_for(alloc, &["from-pcm"], samples(UNKNOWN, UNKNOWN, false))
        && asks_for(
            alloc,
            &["from-pcm", "--preset=professional", "--status1", STATUS],
            samples(STATUS_BYTES, PROFESSIONAL, true),
        )
        && asks_for(alloc, &["info", "--json"], INFO)
        && asks_for(alloc, &["show", "--at", "--more"], SHOW)
        && asks_for(
            alloc,
            &["to-pcm", "--valid", "--packed-in", "--pcm", "s16"],
            TO_PCM,
        )
        && asks_for(alloc, &["to-bits", "validity", "2"], TO_BITS)
}

#[test]
fn jobs_of_words(rt: HostRuntime) {
    assert!(rt; is_each_asked_for(rt.alloc()));
}

const TO_VALID_WAV: Job = Job::Read {
    input: Form::Packed,
    work: ReadWork::ToWav {
        depth: Depth::ThirtyTwo,
        rate: None,
        valid: true,
    },
};

const TO_EXACT_WAV: Job = Job::Read {
    input: TEXT,
    work: ReadWork::ToExactWav {
        depth: Depth::TwentyFour,
        rate: Some(44_100),
    },
};

const TO_FILLED_WAV: Job = Job::Read {
    input: TEXT,
    work: ReadWork::ToFilledWav {
        depth: Depth::Sixteen,
        rate: None,
        fill: Fill::Hold,
        marked: true,
    },
};

/// Whether each line of `to-wav` gives its job.
fn is_each_wave_asked_for(alloc: Global) -> bool {
    asks_for(
        alloc,
        &["to-wav", "--valid", "--packed-in", "--bits", "32"],
        TO_VALID_WAV,
    ) && asks_for(alloc, &["to-wav", "--rate=44100", "--exact"], TO_EXACT_WAV)
        && asks_for(
            alloc,
            &["to-wav", "--marked", "--fill", "hold", "--bits=16"],
            TO_FILLED_WAV,
        )
}

#[test]
fn jobs_of_words_for_a_wave_file(rt: HostRuntime) {
    assert!(rt; is_each_wave_asked_for(rt.alloc()));
}

const NO_JOBS: &[(&[&str], Told)] = &[
    (&["help"], Told::Usage),
    (&["cut", "1"], Told::Usage),
    (&["check", "--lsb-first"], Told::Usage),
    (&["watch", "--every-seconds", "1"], Told::Usage),
    (&["watch", "--every", "0"], Told::Usage),
    (&["to-bits", "audio", "1"], Told::Usage),
    (&["to-bits", "user", "3"], Told::Usage),
    (&["rewrite", "--status1", "0", "--help"], Told::Help),
    (
        &["rewrite", "--status1", "0"],
        Told::Refused(RunError::BadStatusText),
    ),
    (&["to-wav", "--marked"], Told::Usage),
    (&["to-wav", "--fill", "hold", "--valid"], Told::Usage),
    (&["from-pcm", "--preset", "studio"], Told::Usage),
    (&["from-pcm", "--rate", "47999"], Told::Usage),
    (&["rewrite", "--set", "rate=47999"], Told::Usage),
    (
        &["from-pcm", "--rate", "48k", "--set", "word=24"],
        Told::Job,
    ),
    (
        &["from-pcm", "--exact", "--set2", "origin=BBC"],
        Told::Refused(RunError::Inexact { at: 0 }),
    ),
];

#[test]
fn words_that_are_no_job(rt: HostRuntime) {
    for (number, (words, told)) in NO_JOBS.iter().enumerate() {
        assert!(rt; answered(rt.alloc(), words) == *told, "line {number}");
    }
}

#[test]
fn status_texts(rt: HostRuntime) {
    assert!(rt; status_of_text(STATUS) == Some(STATUS_BYTES) && status_of_text("").is_none());
}

/// Whether the answer is a rewriting job, or that there is no memory.
fn is_rewriting_or_memory(alloc: Global) -> bool {
    match job_of_words(alloc, &["rewrite", "--status1", STATUS, "--mend-check"]) {
        Ok(job) => job == REWRITE,
        Err(LineFault::Refused(error)) => error == RunError::Memory,
        Err(_) => false,
    }
}

/// Run with the allocations failing in turn, this shows that each failure is reported or changes
/// nothing.
#[test]
fn refused_memory_is_told(rt: HostRuntime) {
    assert!(rt; is_rewriting_or_memory(rt.alloc()));
}
