//! The values of options.

ghost use Rattle.std.specs.Prelude.{◌≡◌};
ghost use Rattle.std.specs.Option.{option_map};
ghost use Rattle.aes3_spoil_runs.specs.Values.{every_in, kind_in, parts_in, spot_in};

use crate::named::{NamedError, Spot};
use aes3_cli::number_of_text;
use aes3_spoil::{ErrorKind, Every};

/// The greatest number of a cell for an option: the number of cells of the longest input, which is
/// one more than that of its last cell.
const MOST_CELLS: u64 = 1 << 43;

/// The first and the last time slot after the preamble.
const FIRST_SLOT: u64 = 4;

const LAST_SLOT: u64 = 31;

/// The text before the first colon, and the text after it.
fn parts_of_text(text: &str) -> Option<(&str, &str)>
    ensures { option_map (λ parts. (parts.0.now, parts.1.now)) result ≡ parts_in text.now }
{
    text.split_once(':')
}

/// The place of the error with this value.
pub(crate) fn spot_of_text(named: NamedError, text: &str) -> Option<Spot>
    ensures { option_map (λ spot. (spot.cell, spot.slot)) result ≡ spot_in named text.now }
{
    match named {
        NamedError::Biphase => {
            let (cell, slot) = parts_of_text(text)?;
            let cell = number_of_text(cell, 0, MOST_CELLS)?;
            let slot = number_of_text(slot, FIRST_SLOT, LAST_SLOT)? as u8;
            Some(Spot { cell, slot })
        }
        _ => {
            let cell = number_of_text(text, 0, MOST_CELLS)?;
            Some(Spot { cell, slot: 4 })
        }
    }
}

/// The kind of this name.
fn kind_of_text(text: &str) -> Option<ErrorKind>
    ensures { result ≡ kind_in text.now }
{
    match text {
        "cell" => Some(ErrorKind::Changed),
        "invert" => Some(ErrorKind::Inverted),
        "drop" => Some(ErrorKind::Lost),
        "double" => Some(ErrorKind::Doubled),
        _ => None,
    }
}

/// The repeated errors with this value.
pub(crate) fn every_of_text(text: &str) -> Option<Every>
    ensures { result ≡ every_in text.now }
{
    let (cells, kind) = parts_of_text(text)?;
    let cells = number_of_text(cells, 1, MOST_CELLS)?;
    let kind = kind_of_text(kind)?;
    Some(Every { cells, kind })
}
