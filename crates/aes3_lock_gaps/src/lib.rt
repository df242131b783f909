//! Gaps: the cells of an input that lie in no whole block, one by one (AES3-3, IEC 60958-1).
#![tactic(auto)]

/// How far the cells of an input are accounted for.
mod account;
/// A gap, and the place up to which gaps are due.
mod gap;

pub use account::Account;
pub use gap::{Due, Gap};
