//! The two levels of a line.

ghost use Rattle.std.specs.Prelude.{◌≡◌};
ghost use Rattle.aes3_level.specs.Cells.{other};

/// The level of the line during one cell, half of a time slot (AES3-3, IEC 60958-1: biphase-mark
/// coding).
#[derive(Clone, Copy, PartialEq, Eq, Default)]
pub enum Level {
    /// The lower level, written `0`.
    #[default]
    Low,
    /// The higher level, written `1`.
    High,
}

impl Level {
    /// The inverted level.
    pub fn flip(self) -> Level
        ensures { result ≡ other self }
    {
        match self {
            Level::Low => Level::High,
            Level::High => Level::Low,
        }
    }
}
