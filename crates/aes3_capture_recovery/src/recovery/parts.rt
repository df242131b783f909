//! The numbers of a recovery.

ghost use Rattle.std.specs.Prelude.{◌≡◌};
ghost use Rattle.aes3_capture_recovery.specs.Parts.{known_of, state_code, state_of};

use crate::figures::Figures;
use crate::line_follower::{LineFollower, LineParts, flag, is_set};
use crate::period::RUNS;
use crate::recovery::{Recovery, State};

/// The numbers of a recovery, for a caller that keeps it in a form of its own: [`Recovery::parts`] gives them, and
/// [`Recovery::of_parts`] makes the same recovery of them.
#[repr(C)]
#[derive(Clone, Copy)]
pub struct RecoveryParts {
    pub line: LineParts,
    pub figures: Figures,
    /// How long a cell is, in parts of a sample, if that is given.
    pub known: u64,
    /// The samples that wait for the first period.
    pub held: u64,
    /// The mean distance of edges from their places.
    pub spread: u64,
    /// The runs of samples that wait to be measured, and how many these are.
    pub count: u64,
    pub runs: [u32; RUNS],
    /// Not 0 if the length of a cell is given, and if a line was found.
    pub is_known: u8,
    pub found: u8,
    /// 2 for a line that is followed, 1 for one that is measured, and else 0.
    pub state: u8,
}

/// How long a cell is, if that is given.
fn known_of(is_known: u8, known: u64) -> Option<u64>
    ensures { result ≡ known_of is_known known }
{
    match is_known {
        0 => None,
        _ => Some(known),
    }
}

/// The state with this code.
fn state_of(code: u8) -> State
    ensures { result ≡ state_of code }
{
    match code {
        2 => State::Following,
        1 => State::Measuring,
        _ => State::Still,
    }
}

/// The code of a state.
fn state_code(state: State) -> u8
    ensures { result ≡ state_code state }
{
    match state {
        State::Still => 0,
        State::Measuring => 1,
        State::Following => 2,
    }
}

impl Recovery {
    ghost use Rattle.aes3_capture_recovery.specs.Parts.{recovery_parts};
    ghost use Rattle.aes3_capture_recovery.specs.declared.recovery.Recovery.{Recovery};

    /// The recovery of these numbers. If no recovery has them, it has the nearest that one has.
    pub fn of_parts(parts: &RecoveryParts) -> Recovery
        ensures { (recovery : Recovery) → recovery_parts recovery ≡ parts.now → result ≡ recovery }
    {
        Recovery {
            line: LineFollower::of_parts(&parts.line),
            found: is_set(parts.found),
            figures: parts.figures,
            known: known_of(parts.is_known, parts.known),
            state: state_of(parts.state),
            held: parts.held,
            runs: parts.runs,
            count: parts.count.min(255) as usize,
            spread: parts.spread.min((1 << 40) - 1),
        }
    }

    /// Its numbers.
    pub fn parts(&self) -> RecoveryParts
        ensures { result ≡ recovery_parts self.now }
    {
        RecoveryParts {
            line: self.line.parts(),
            figures: self.figures,
            known: self.known.unwrap_or(0),
            held: self.held,
            spread: self.spread,
            count: self.count as u64,
            runs: self.runs,
            is_known: flag(self.known.is_some()),
            found: flag(self.found),
            state: state_code(self.state),
        }
    }
}
