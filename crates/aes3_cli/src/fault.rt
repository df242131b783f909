//! Why words are no job.

ghost use Rattle.std.specs.Prelude.{◌≡◌};
ghost use Rattle.clap.specs.Values.{kind_of};
ghost use Rattle.aes3_cli.specs.LineFaults.{IsFaultBy, IsUsage};
ghost use Rattle.aes3_cli.specs.declared.fault.LineFault.TheVariants.{Memory};

use crate::wording::own_text;
use clap::Error;
use clap::error::ErrorKind;
use std::alloc::{AllocError, Global};

/// Why words are no job.
#[derive(Drop)]
pub enum LineFault {
    /// The words don't fit the definitions of the command line, or a value among them is wrong; the
    /// text says why.
    Usage { text: String },
    /// The words ask for help or for the version; the text is the answer.
    Help { text: String },
    /// There was no memory.
    Memory,
}

impl From<AllocError> for LineFault {
    ghost from_gives = { λ _ fault. fault ≡ Memory };

    fn from(_error: AllocError) -> LineFault {
        LineFault::Memory
    }
}

impl LineFault {
    /// Why words are no job of the program with this usage, if `clap` rejects them or they ask for
    /// help.
    pub fn of_error(alloc: Global, error: &Error, usage: &str) -> LineFault
        ensures { IsFaultBy usage.now (kind_of error.now) result }
    {
        let Ok(text) = error.to_string(alloc) else {
            return LineFault::Memory;
        };
        match error.kind() {
            ErrorKind::OutOfMemory => LineFault::Memory,
            ErrorKind::DisplayHelp | ErrorKind::DisplayVersion => LineFault::Help { text },
            _ => usage_fault(alloc, &text, usage),
        }
    }
}

/// The usage error for words that `clap` rejects with this text.
fn usage_fault(alloc: Global, text: &str, usage: &str) -> LineFault
    ensures { IsUsage usage.now result }
{
    match own_text(alloc, text, usage) {
        Ok(text) => LineFault::Usage { text },
        Err(_) => LineFault::Memory,
    }
}
