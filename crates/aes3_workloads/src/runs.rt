//! A command or a capture run, and the digest of what it wrote.

ghost use Rattle.std.specs.Prelude.{◌≡◌, ◌+◌, ◌<◌, ◌^◌};

use crate::digest::Digest;
use crate::numbers::Numbers;
use crate::pieces::Pieces;
use aes3_capture_recovery::{Progress, Recovery, Refusal, Unit, recover};
use aes3_cell::{BufferedSink, Form, MemorySink, MemorySource};
use aes3_cli_arguments::line_of_words;
use aes3_cli_jobs::Nobody;
use aes3_program::run_line;
use std::alloc::{AllocError, Global};

/// Adds the digest of a run to that of all runs.
fn take_digest(digest: &mut Digest, run: &Digest, status: u64) {
    digest.note(run.sum());
    digest.note(run.count());
    digest.note(status);
}

/// Runs a command on `count` of these pieces, and adds what it writes and reports and its exit
/// status to the digest.
pub fn run_command(
    alloc: Global,
    words: &[&str],
    source: Pieces<'_>,
    digest: &mut Digest,
) -> Result<(), AllocError> {
    let sink = BufferedSink::new(alloc, Digest::new())?;
    let mut errors = Digest::new();
    let line = line_of_words(alloc, words);
    let ran = run_line(line, source, sink, &mut errors, &mut Nobody);
    take_digest(digest, ran.sink.sink(), u64::from(ran.status));
    take_digest(digest, &errors, 0);
    Ok(())
}

/// Recovers the cells of a capture of `count` of these pieces, and adds them and the figures of the
/// line to the digest.
pub fn run_capture(
    alloc: Global,
    unit: Unit,
    source: Pieces<'_>,
    digest: &mut Digest,
) -> Result<(), AllocError> {
    let mut source = source;
    let mut sink = BufferedSink::new(alloc, Digest::new())?;
    let mut recovery = Recovery::new(Form::Packed, None);
    let end = match recover(&mut source, &mut sink, unit, &mut recovery, None) {
        Ok(Progress::Ended) => 0,
        Ok(Progress::Paused) => 1,
        Err(Refusal::Read) => 2,
        Err(Refusal::Write) => 3,
    };
    take_digest(digest, sink.sink(), end);
    let figures = recovery.figures();
    for figure in [
        figures.samples,
        figures.cells,
        figures.period,
        figures.edges,
        figures.greatest,
        figures.squares,
        figures.dead,
        figures.dead_at,
        figures.measured,
    ] {
        digest.note(figure);
    }
    Ok(())
}

/// What a command writes for these bytes.
pub fn output_of(alloc: Global, words: &[&str], bytes: &[u8]) -> Result<Vec<u8>, AllocError> {
    let source = MemorySource::new(bytes, 1 << 17);
    let mut errors = Digest::new();
    let sink = MemorySink::new(alloc);
    let line = line_of_words(alloc, words);
    let ran = run_line(line, source, sink, &mut errors, &mut Nobody);
    let mut output = Vec::new(alloc);
    output.extend_from_slice(ran.sink.bytes())?;
    Ok(output)
}

/// `count` of these pieces in the order of a stream of numbers, and an ending.
pub fn some_of<'a>(
    pieces: &'a [Vec<u8>],
    numbers: &mut Numbers,
    count: u32,
    ending: &'a [u8],
) -> Pieces<'a> {
    let seed = (numbers.next() >> 32) as u32;
    let stream = (numbers.next() >> 32) as u32;
    Pieces::new(pieces, Numbers::new(seed, stream), count, ending)
}
