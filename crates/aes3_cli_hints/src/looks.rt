//! What to do about an input, by what its first octets look like.

ghost use Rattle.std.specs.Prelude.{IfSome, IsTrue};
ghost use Rattle.aes3_cli_hints.specs.Sentences.{is_told};

use crate::watched::HEAD_LEN;
use crate::widths::advice_on_width;
use aes3_cell::{Form, RunError};
use aes3_cli_jobs::{Job, ReadWork, Refusal};
use aes3_files::{FileKind, SoundFile, are_packed, are_reversed};
use aes3_forms_samples::SampleFormat;
use aes3_wave::{Cause, HeaderError};

/// What to do with a sound file.
fn advice_on_sound(sound: SoundFile) -> &'static str
    ensures { IsTrue (is_told result.now) }
{
    match sound {
        SoundFile::Wave => "this is a WAV file: `aes3 from-wav` makes a block file of it",
        SoundFile::Rifx =>
            "this is a RIFX file: `sox FILE -t s32 -c 2 - | aes3 from-pcm` takes its samples",
        SoundFile::Aiff =>
            "this is an AIFF file: `sox FILE -t s32 -c 2 - | aes3 from-pcm` takes its samples",
        SoundFile::Wave64 =>
            "this is a Wave64 file: `sox FILE -t s32 -c 2 - | aes3 from-pcm` takes its samples",
        SoundFile::Flac =>
            "this is a FLAC file: `sox FILE -t s32 -c 2 - | aes3 from-pcm` takes its samples",
        SoundFile::CoreAudio =>
            "this is a CAF file: `sox FILE -t s32 -c 2 - | aes3 from-pcm` takes its samples",
        SoundFile::Ogg =>
            "this is an Ogg file: `sox FILE -t s32 -c 2 - | aes3 from-pcm` takes its samples",
        SoundFile::Mp3 =>
            "this is an MP3 file: `sox FILE -t s32 -c 2 - | aes3 from-pcm` takes its samples",
        SoundFile::Sun =>
            "this is an AU file: `sox FILE -t s32 -c 2 - | aes3 from-pcm` takes its samples",
        SoundFile::Mpeg4 => {
            "this is an MPEG-4 file: `ffmpeg -i FILE -ac 2 -f s32le - | aes3 from-pcm` takes its samples"
        }
    }
}

/// What to do about this error of an input that begins like this, if its looks say so.
pub(crate) fn advice_by_looks(
    refusal: Refusal,
    job: Option<Job>,
    head: &[u8],
    first: &[u8],
) -> Option<&'static str>
    ensures { IfSome result (λ told. IsTrue (is_told told.now)) }
{
    match refusal {
        Refusal::Run(error) if !reads_wave(job) => advice_on_run(error, job, head, first),
        Refusal::Header(error) => advice_on_header(error, FileKind::of(first)),
        _ => None,
    }
}

/// Whether the job reads a WAV file.
pub(crate) fn reads_wave(job: Option<Job>) -> bool {
    matches!(job, Some(Job::FromWav { .. }))
}

/// What to do about this error of the header of a file of this kind, if that says so.
fn advice_on_header(error: HeaderError, looks: FileKind) -> Option<&'static str>
    ensures { IfSome result (λ told. IsTrue (is_told told.now)) }
{
    match error.cause {
        Cause::Ended => advice_on_end(looks),
        Cause::NotRiff | Cause::NotWave => advice_on_no_wave(looks),
        _ => None,
    }
}

/// The same for a file that ends in its header.
fn advice_on_end(looks: FileKind) -> Option<&'static str>
    ensures { IfSome result (λ told. IsTrue (is_told told.now)) }
{
    match looks {
        FileKind::Empty => Some("the input is empty"),
        FileKind::Sound(SoundFile::Wave) => Some("the file is cut short: fetch or write it again"),
        _ => None,
    }
}

/// The same for a file that is no WAV file.
fn advice_on_no_wave(looks: FileKind) -> Option<&'static str>
    ensures { IfSome result (λ told. IsTrue (is_told told.now)) }
{
    match looks {
        FileKind::Sound(sound) => Some(advice_on_sound(sound)),
        FileKind::CellText => {
            Some("these are cells as text: `aes3 decode` makes a block file of them")
        }
        FileKind::Octets => Some(
            "if these are samples without a header, `aes3 from-pcm` reads them",
        ),
        _ => advice_on_other(RunError::SoundHeader, looks),
    }
}

/// What to do about this error of a run over an input that begins like this, if its looks say so.
fn advice_on_run(
    error: RunError,
    job: Option<Job>,
    head: &[u8],
    first: &[u8],
) -> Option<&'static str>
    ensures { IfSome result (λ told. IsTrue (is_told told.now)) }
{
    if is_of_ends(error) {
        return None;
    }
    let looks = FileKind::of(first);
    match format_of_odd_length(error, job, looks) {
        Some(format) => advice_on_width(format, head),
        None => advice_on_kind(error, looks, first),
    }
}

/// The form of samples that end inside a frame, if they look like samples.
fn format_of_odd_length(
    error: RunError,
    job: Option<Job>,
    looks: FileKind,
) -> Option<SampleFormat> {
    match (error, looks) {
        (RunError::BadLength { .. }, FileKind::Octets | FileKind::BlockFile) => format_of(job?),
        _ => None,
    }
}

/// The form of the samples that the job reads.
fn format_of(job: Job) -> Option<SampleFormat> {
    match job {
        Job::FromPcm { format, .. } => Some(format),
        _ => None,
    }
}

/// What to do about this error of an input of this kind, if that says so.
fn advice_on_kind(error: RunError, looks: FileKind, first: &[u8]) -> Option<&'static str>
    ensures { IfSome result (λ told. IsTrue (is_told told.now)) }
{
    match looks {
        FileKind::Sound(sound) => Some(advice_on_sound(sound)),
        FileKind::Octets => advice_on_octets(error, first),
        _ => advice_on_other(error, looks),
    }
}

/// Whether they begin with a byte order mark, of UTF-8 or UTF-16.
fn has_order_mark(first: &[u8]) -> bool {
    first.starts_with(b"\xEF\xBB\xBF")
        || first.starts_with(b"\xFF\xFE")
        || first.starts_with(b"\xFE\xFF")
}

/// What to do about this error of octets of no other kind.
fn advice_on_octets(error: RunError, first: &[u8]) -> Option<&'static str>
    ensures { IfSome result (λ told. IsTrue (is_told told.now)) }
{
    match error {
        RunError::BadCell { .. } if has_order_mark(first) => {
            Some("the text begins with a byte order mark: save it as ASCII")
        }
        RunError::BadCell { .. } if are_reversed(first) => {
            Some("these look like packed cells: try `--packed-in --lsb-first`")
        }
        RunError::BadCell { .. } if are_packed(first) => {
            Some("these look like packed cells: try `--packed-in`")
        }
        RunError::BadCell { .. } => Some("if these are packed cells, try `--packed-in`"),
        RunError::BadPadding { .. } if are_packed(first) => {
            Some("these cells lack the last octet, which counts unused cells: try `--raw-in`")
        }
        RunError::BadCode { .. } | RunError::BadParity { .. } if are_packed(first) => Some(
            "these look like packed cells: `aes3 decode --packed-in` makes a block file of them",
        ),
        _ => None,
    }
}

/// Whether the error concerns no octets of the input.
fn is_of_ends(error: RunError) -> bool {
    matches!(
        error,
        RunError::Read | RunError::Write | RunError::Memory | RunError::TooLong
    )
}

/// The same for an input that is no sound file.
fn advice_on_other(error: RunError, looks: FileKind) -> Option<&'static str>
    ensures { IfSome result (λ told. IsTrue (is_told told.now)) }
{
    let is_of_text = matches!(error, RunError::BadCell { .. });
    let is_of_samples = matches!(error, RunError::BadSample { .. });
    match (error, looks) {
        (_, FileKind::ValueChanges) => Some(
            "this is a value change dump: `transitions.py --signal NAME FILE | aes3-cells` makes cells of it, with the script that `man aes3-cells` names",
        ),
        (_, FileKind::Executable) => Some("this is a program"),
        (_, FileKind::Session) => Some(
            "this looks like a session of sigrok: `sigrok-cli -i FILE -O binary | aes3-cells` makes cells of it",
        ),
        (_, FileKind::Samples) if !is_of_samples => {
            Some(
                "these look like samples of a logic analyser: `aes3-cells < FILE` makes cells of them",
            )
        }
        (_, FileKind::Compressed) => Some("this file is compressed: unpack it first"),
        (_, FileKind::BlockFile) if is_of_text => {
            Some("this looks like a block file: `aes3 encode` makes cells of it")
        }
        (RunError::BadPadding { .. }, FileKind::Empty) => Some("the input is empty"),
        (RunError::BadPadding { .. }, FileKind::CellText) => {
            Some("these are cells as text: leave `--packed-in` out")
        }
        (
            RunError::BadCode { .. } | RunError::BadParity { .. } | RunError::BadLength { .. },
            FileKind::CellText,
        ) => Some("these are cells as text: `aes3 decode` makes a block file of them"),
        _ => None,
    }
}

/// What to do if the first bytes of an input that a job accepted look like another kind.
pub(crate) fn advice_on_taken(
    job: &Job,
    words: &[&str],
    head: &[u8],
    first: &[u8],
) -> Option<&'static str> {
    let looks = FileKind::of(first);
    match job {
        Job::Read {
            input,
            work: ReadWork::Watch { .. } | ReadWork::WatchSums { .. },
        } if has_no_cell(*input, words, head) => {
            Some("no cell came: is the program running that writes the cells?")
        }
        Job::FromPcm { format, .. } => match looks {
            FileKind::CellText => {
                Some("these are cells as text: `aes3 to-pcm` makes samples of them")
            }
            _ => advice_on_width(*format, head),
        },
        job if job.reads_packed() => advice_on_packed(words, looks, first),
        _ => None,
    }
}

/// The same for a job that reads packed cells.
fn advice_on_packed(words: &[&str], looks: FileKind, first: &[u8]) -> Option<&'static str> {
    match looks {
        FileKind::CellText => Some("these are cells as text: leave `--raw-in` out"),
        FileKind::Octets if say_highest_first(words) && are_reversed(first) => {
            Some("the cells look packed with the first in the lowest bit: try `--lsb-first`")
        }
        _ => None,
    }
}

/// Whether the words say that cells are packed with the first in the highest bit. If they give no
/// form, `info` has taken both from the first octets.
fn say_highest_first(words: &[&str]) -> bool {
    (words.contains(&"--packed-in") || words.contains(&"--raw-in"))
        && !words.contains(&"--lsb-first")
}

/// Whether an input in this form has no cell: only separators, or only the last octet.
fn has_no_cell(form: Form, words: &[&str], head: &[u8]) -> bool {
    match form {
        Form::Text => {
            head.len() < HEAD_LEN && !head.iter().any(|byte| matches!(*byte, b'0' | b'1'))
        }
        Form::Packed => head.is_empty() || (head.len() == 1 && !words.contains(&"--raw-in")),
    }
}
