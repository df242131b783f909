//! The form of a recording by its first octets.

ghost use Rattle.aes3_program_terminal.specs.Recognising.{Recognised};

use aes3_cell::Form;
use aes3_cli_arguments::{CommandLine, LineFault};
use aes3_cli_jobs::{Job, ReadWork};
use aes3_files::{FileKind, Preview, are_reversed};
use std::alloc::AllocError;
use std::io::Read;

/// How many octets are inspected.
const LOOKED_AT: usize = 4096;

/// If the job is `info` and no option gives the form of the recording, its form is taken from the
/// first octets. It is packed cells if they are no text and no other kind of file.
///
/// # Errors
/// `AllocError` if there is no memory; then the line is unchanged.
pub fn recognise<R: Read + Drop>(
    line: &mut Result<CommandLine<'_>, LineFault>,
    input: &mut Preview<R>,
) -> Result<(), AllocError>
    ensures recognised { Recognised line.old line.new }
{
    let Ok(line) = line else {
        return Ok(());
    };
    if let Job::Read {
        input: Form::Text,
        work: ReadWork::Info { notation },
    } = line.job
    {
        let first = input.first(LOOKED_AT)?;
        if let FileKind::Octets = FileKind::of(first) {
            line.job = Job::Read {
                input: Form::Packed,
                work: ReadWork::Info { notation },
            };
            line.octets.lsb_first = are_reversed(first);
        }
    }
    Ok(())
}
