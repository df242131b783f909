//! Errors by their options.

ghost use Rattle.std.specs.Prelude.{◌≡◌, ◌≤◌, ◌<◌, ◌+◌, ◌^◌, ◌++◌, length, true, IsFalse, IsTrue};
ghost use Rattle.aes3_spoil.specs.Errors.{errors_of};
ghost use Rattle.aes3_spoil_runs.specs.Named.{errors_named, name_of, places_named};

use aes3_spoil::{ErrorKind, Errors};

/// An error by its option.
#[derive(Clone, Copy)]
pub enum NamedError {
    /// `--cell P`
    Cell,
    /// `--invert P`
    Invert,
    /// `--drop P`
    Lost,
    /// `--double P`
    Double,
    /// `--parity P`
    Parity,
    /// `--biphase P:SLOT`
    Biphase,
    /// `--preamble P`
    Preamble,
    /// `--check-byte P`
    CheckByte,
}

/// All of these errors, in the order in which help lists them.
pub const NAMED: [NamedError; 8] = [
    NamedError::Cell,
    NamedError::Invert,
    NamedError::Lost,
    NamedError::Double,
    NamedError::Parity,
    NamedError::Biphase,
    NamedError::Preamble,
    NamedError::CheckByte,
];

/// The place of an error.
#[derive(Clone, Copy)]
pub struct Spot {
    /// The number of a cell, from 0: the error's own, or the first of the subframe or block.
    pub cell: u64,
    /// The time slot of the subframe, if it is an error of a slot; else the first.
    pub slot: u8,
    ghost within: { cell < 2 ^ 63 },
    ghost first: { 4 ≤ slot },
    ghost last: { slot ≤ 31 },
}

impl NamedError {
    /// The option's name.
    pub fn name<'a>(self) -> &'a str
        ensures { result.now ≡ name_of self }
    {
        match self {
            NamedError::Cell => "cell",
            NamedError::Invert => "invert",
            NamedError::Lost => "drop",
            NamedError::Double => "double",
            NamedError::Parity => "parity",
            NamedError::Biphase => "biphase",
            NamedError::Preamble => "preamble",
            NamedError::CheckByte => "check-byte",
        }
    }

    /// How many of the possible errors it takes.
    fn places(self) -> usize
        ensures { result ≡ places_named self }
    {
        match self {
            NamedError::CheckByte => 2,
            _ => 1,
        }
    }

    /// Adds it to the errors if there is room for it. Returns whether there was.
    pub fn add(self, errors: &mut Errors, spot: Spot) -> bool
        ensures list { IsTrue result → errors_of errors.new
            ≡ errors_of errors.old ++ errors_named self spot.cell spot.slot }
        ensures full { IsFalse result → 64 < length (errors_of errors.old)
            + length (errors_named self spot.cell spot.slot) }
        ensures every { errors.new.every ≡ errors.old.every }
    {
        if errors.room() < self.places() {
            return false;
        }
        match self {
            NamedError::Cell => errors.add(spot.cell, ErrorKind::Changed),
            NamedError::Invert => errors.add(spot.cell, ErrorKind::Inverted),
            NamedError::Lost => errors.add(spot.cell, ErrorKind::Lost),
            NamedError::Double => errors.add(spot.cell, ErrorKind::Doubled),
            NamedError::Parity => errors.add_wrong_parity(spot.cell),
            NamedError::Biphase => errors.add_biphase(spot.cell, spot.slot),
            NamedError::Preamble => errors.add_preamble(spot.cell),
            NamedError::CheckByte => errors.add_check_byte(spot.cell),
        }
        true
    }
}
