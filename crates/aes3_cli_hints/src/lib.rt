//! Hints for a person: what the program waits for, what an error means and what to do.
#![tactic(auto)]

/// The sentences, and when they are written.
mod hints;
/// What the first bytes of a rejected input look like.
mod looks;
/// What the hints need to know of the input.
mod watched;
/// Whether samples look like those of another form.
mod widths;
/// What is wrong with the header of a WAV file.
mod wrong;

pub use hints::{Hints, Terminals};
pub use watched::Watched;
