//! What is wrong with the values of options, and the text that says so.

ghost use Rattle.std.specs.Prelude.{◌≡◌, IfOk};
ghost use Rattle.aes3_capture_runs.specs.Faults.{IsFaultFor, reason, wrong_text};

use crate::capture_help::PROGRAM;
use aes3_cli::LineFault;
use aes3_cli::wording::add_usage;
use std::alloc::{AllocError, Global};

/// What is wrong with the values of options.
#[derive(Clone, Copy)]
pub(crate) enum Wrong {
    /// The value of `--rate` is no frequency.
    Rate,
    /// The value of `--at` is no frequency.
    At,
    /// The value of `--unit` is no number of octets.
    Unit,
    /// The value of `--bit` is no bit of a sample.
    Bit,
    /// `--at` is given without `--rate`.
    AtAlone,
    /// `--tell` is given without `--rate`.
    TellAlone,
    /// `--places` is given with an option for cells.
    PlacesOnly,
    /// `--places` is given without a file.
    PlacesAlone,
    /// A cell of this line would have too few or too many samples.
    Period,
}

impl Wrong {
    /// The text that says what is wrong.
    fn reason<'a>(self) -> &'a str
        ensures { result.now ≡ reason self }
    {
        match self {
            Wrong::Rate => {
                "--rate takes a frequency in Hz, 1 or more, as 24000000, 24M, 24000k or 44.1k"
            }
            Wrong::At =>
                "--at takes a frequency in Hz, 1 or more, as 24000000, 24M, 24000k or 44.1k",
            Wrong::Unit => "--unit takes 1 or 2, the octets of a sample",
            Wrong::Bit => "--bit takes 0 to 7, or with --unit 2 0 to 15",
            Wrong::AtAlone => "--at needs --rate",
            Wrong::TellAlone => "--tell needs --rate",
            Wrong::PlacesOnly => {
                "--places writes no cells: use it only with --rate, --at, --unit and --bit"
            }
            Wrong::PlacesAlone => "--places needs FILE: it reads the report from standard input",
            Wrong::Period => "a cell has to have 2.015625 to 8000 samples: --rate / (128 * --at)",
        }
    }
}

/// The usage error that says what is wrong; `Memory` if there is no memory.
pub(crate) fn wrong_fault(alloc: Global, wrong: Wrong) -> LineFault
    ensures { IsFaultFor wrong result }
{
    match wrong_text(alloc, wrong) {
        Ok(text) => LineFault::Usage { text },
        Err(_) => LineFault::Memory,
    }
}

/// The text of the usage error.
///
/// # Errors
/// `AllocError` if there is no memory.
fn wrong_text(alloc: Global, wrong: Wrong) -> Result<String, AllocError>
    ensures { IfOk result (λ text. text.bytes.items ≡ wrong_text wrong) }
{
    let mut text = String::from_str(alloc, "aes3-cells: ")?;
    text.push_str(wrong.reason())?;
    add_usage(&mut text, PROGRAM.usage)?;
    Ok(text)
}
