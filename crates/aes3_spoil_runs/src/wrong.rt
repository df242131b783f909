//! What is wrong with the values of options, and the text that says so.

ghost use Rattle.std.specs.Prelude.{◌≡◌, IfOk};
ghost use Rattle.aes3_spoil_runs.specs.Faults.{IsFaultFor, place_needed, value_line, wrong_line, wrong_text};

use crate::named::NamedError;
use crate::spoil_argument::value_name;
use crate::spoil_help::PROGRAM;
use aes3_cli::LineFault;
use aes3_cli::wording::add_usage;
use std::alloc::{AllocError, Global};

/// What is wrong with the values of options.
#[derive(Clone, Copy)]
pub(crate) enum Wrong<'a> {
    /// A value of an option for errors is invalid.
    Value { error: NamedError, text: &'a str },
    /// A value of `--every` is invalid.
    Every { text: &'a str },
    /// The values name more errors than there is room for.
    TooMany,
}

/// The usage error that says what is wrong, in the form of `clap`'s usage errors; `Memory` if there
/// is no memory.
pub(crate) fn wrong_fault(alloc: Global, wrong: Wrong<'_>) -> LineFault
    ensures { IsFaultFor wrong.entry result }
{
    match wrong_text(alloc, wrong) {
        Ok(text) => LineFault::Usage { text },
        Err(_) => LineFault::Memory,
    }
}

/// The text of the usage error.
///
/// # Errors
/// `AllocError` if there is no memory.
fn wrong_text(alloc: Global, wrong: Wrong<'_>) -> Result<String, AllocError>
    ensures { IfOk result (λ text. text.bytes.items ≡ wrong_text wrong.entry) }
{
    let mut text = wrong_line(alloc, wrong)?;
    add_usage(&mut text, PROGRAM.usage)?;
    Ok(text)
}

/// The line that says what is wrong.
///
/// # Errors
/// `AllocError` if there is no memory.
fn wrong_line(alloc: Global, wrong: Wrong<'_>) -> Result<String, AllocError>
    ensures { IfOk result (λ text. text.bytes.items ≡ wrong_line wrong.entry) }
{
    match wrong {
        Wrong::Value { error, text } => value_line(
            alloc,
            text,
            error.name(),
            value_name(error),
            place_needed(error),
        ),
        Wrong::Every { text } => value_line(
            alloc,
            text,
            "every",
            "N:KIND",
            "a number of cells from 1, a colon, and cell, invert, drop or double",
        ),
        Wrong::TooMany => String::from_str(
            alloc,
            "error: more than 64 errors (--check-byte counts as two): run aes3-spoil twice, or use --every",
        ),
    }
}

/// The line that says that a text is no value of the option `--name <value>`, and what the value
/// has to be.
///
/// # Errors
/// `AllocError` if there is no memory.
fn value_line(
    alloc: Global,
    text: &str,
    name: &str,
    value: &str,
    needed: &str,
) -> Result<String, AllocError>
    ensures { IfOk result (λ line. line.bytes.items
        ≡ value_line text.now name.now value.now needed.now) }
{
    format!(in alloc; "error: invalid value '{text}' for '--{name} <{value}>': {needed}")
}

/// What the value of an option for errors has to be.
fn place_needed<'a>(error: NamedError) -> &'a str
    ensures { result.now ≡ place_needed error }
{
    match error {
        NamedError::Biphase => "the first cell of a subframe, a colon and a time slot from 4 to 31",
        _ => "the number of a cell, from 0 to 8796093022208",
    }
}
