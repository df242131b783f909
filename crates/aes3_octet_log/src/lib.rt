//! Octets that only proofs read: what a source or a sink keeps of them costs nothing at run time.
#![tactic(auto)]

/// All octets that were given.
mod log;

pub use log::{Given, Log};
