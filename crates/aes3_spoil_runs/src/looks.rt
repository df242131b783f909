//! What to do with an input that was rejected, by what its first octets look like.

use crate::spoil_job::Job;
use aes3_cell::Form;
use aes3_cli::{LineFault, REFUSED};
use aes3_files::{FileKind, Preview};
use std::alloc::AllocError;
use std::io::{self, IsTerminal, Read};

/// How many of the first octets are inspected.
const FIRST_LEN: usize = 64;

/// What to do with an input that begins like this and was read as cells in this form, if its looks
/// say so.
fn advice_by_looks(form: Form, first: &[u8]) -> Option<&'static str> {
    let first = &first[..first.len().min(FIRST_LEN)];
    match (form, FileKind::of(first)) {
        (Form::Text, FileKind::Octets) => Some("these look like packed cells: try `--packed-in`"),
        (Form::Packed, FileKind::CellText) => {
            Some("these are cells as text: leave `--packed-in` out")
        }
        (Form::Text, FileKind::BlockFile) => {
            Some("this looks like a block file: `aes3 encode` makes cells of it")
        }
        (Form::Text, FileKind::Samples) => Some(
            "these look like samples of a logic analyser: `aes3-cells FILE` makes cells of them",
        ),
        _ => None,
    }
}

/// What to do with the input of this line's job if it is rejected. If no file is named and standard
/// error is no terminal, it is `None`, and nothing is read ahead.
///
/// # Errors
/// `AllocError` if there is no memory.
pub fn advice_on<R: Read + Drop>(
    rt: &HostRuntime,
    line: &Result<Job<'_>, LineFault>,
    input: &mut Preview<R>,
) -> Result<Option<&'static str>, AllocError> {
    let Ok(job) = line else {
        return Ok(None);
    };
    if job.file.is_some() || rt.stderr().is_terminal() {
        Ok(advice_by_looks(job.input, input.first(FIRST_LEN)?))
    } else {
        Ok(None)
    }
}

/// Writes on standard error why the system did not continue reading the file, and what to do with
/// an input that was rejected.
pub fn say_more(
    rt: &HostRuntime,
    file: Option<&str>,
    trouble: Option<io::Error>,
    status: u8,
    advice: Option<&str>,
) {
    if let (Some(name), Some(error)) = (file, trouble) {
        eprintln!(rt; "aes3-spoil: {name}: {error}").unwrap_or(());
    }
    if let (REFUSED, Some(advice)) = (status, advice) {
        eprintln!(rt; "aes3-spoil: {advice}").unwrap_or(());
    }
}
