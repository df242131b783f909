//! Octets of cells in the forms of hardware: without the last octet, and with the first cell of
//! each octet in its lowest bit.
#![tactic(auto)]

/// The laws of these forms.
pub mod laws;
/// Octets without the last octet.
mod raw;
/// Octets with reversed bits, as they are written.
mod reversed_sink;
/// Packed cells with reversed bits, as they are read.
mod reversed_source;
/// The bits of octets in reversed order.
mod reversing;

pub use raw::RawSource;
pub use reversed_sink::ReversedSink;
pub use reversed_source::{ReversedSource, first_octet};
