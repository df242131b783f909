//! What to do with a file that is no capture.

use aes3_capture_recovery::Unit;
use aes3_files::{FileKind, are_packed, are_reversed};

/// How many of the first octets are inspected.
pub const FIRST_LEN: usize = 512;

/// What kind of file begins with these octets, and what to do with it. `None` if it may be a
/// capture of a line.
pub fn advice_on_other(first: &[u8], unit: Unit) -> Option<&'static str> {
    match FileKind::of(first) {
        FileKind::Sound(_) => Some(
            "this is a sound file: `aes3 from-wav FILE` makes a block file of a WAV file",
        ),
        FileKind::ValueChanges => Some(
            "this is a value change dump: `transitions.py --signal NAME FILE | aes3-cells` makes cells of it, with the script that `man aes3-cells` names",
        ),
        FileKind::Session => Some(
            "this looks like a session of sigrok: `sigrok-cli -i FILE -O binary | aes3-cells` makes cells of it",
        ),
        FileKind::Compressed => Some("this file is compressed: unpack it first"),
        FileKind::Executable => Some("this is a program"),
        FileKind::CellText if first.contains(&b'\n') => {
            Some("these are cells as text already: `aes3 check FILE` reads them")
        }
        FileKind::OtherText if first.contains(&b'\n') => Some(
            "this is text, and may be a table (CSV) of a logic analyser: `man aes3-cells` has the command for it",
        ),
        _ if are_packed(first) && has_single_sample(first, unit) => {
            Some("these are packed cells already: `aes3 check --packed-in FILE` reads them")
        }
        _ if are_reversed(first) && has_single_sample(first, unit) => Some(
            "these are packed cells already: `aes3 check --packed-in --lsb-first FILE` reads them",
        ),
        _ => None,
    }
}

/// Whether a level lasts only one sample, as it never does if a cell has two.
fn has_single_sample(first: &[u8], unit: Unit) -> bool {
    let Unit::Octets(bit) = unit else {
        return false;
    };
    for octets in first.windows(3) {
        let middle = octets[1] >> (bit & 7);
        if ((octets[0] >> (bit & 7)) ^ middle) & 1 == 1
            && ((octets[2] >> (bit & 7)) ^ middle) & 1 == 1
        {
            return true;
        }
    }
    false
}
