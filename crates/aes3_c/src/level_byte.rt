//! Levels as bytes.

ghost use Rattle.std.specs.Prelude.{◌≡◌};
ghost use Rattle.aes3_level.specs.Words.{bit_of, level_of};

use aes3_cell::Level;

/// The level of a byte: low if it is 0, else high.
pub(crate) fn level_of_byte(byte: u8) -> Level
    ensures { result ≡ level_of byte }
{
    if byte == 0 { Level::Low } else { Level::High }
}

/// The byte of a level.
pub(crate) fn byte_of_level(level: Level) -> u8
    ensures level { level_of result ≡ level }
    ensures bit { result ≡ bit_of level }
{
    match level {
        Level::Low => 0,
        Level::High => 1,
    }
}
