//! Samples in the forms of sound programs: how the 24 bits of each are stored in octets.
#![tactic(auto)]

/// The laws of these forms.
pub mod laws;
/// The forms of samples, and conversions of 32-bit samples to and from them.
mod sample_format;

pub use sample_format::{BLOCK_BYTES, SampleFormat};
