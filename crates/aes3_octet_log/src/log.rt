//! Octets that only proofs read. They take no memory, and no code is run for them.

ghost use Rattle.std.specs.Prelude.{◌≡◌, ◌++◌, List, ℕ, []};
ghost use Rattle.std.specs.Borrow.{ftrue};

use std::marker::Model;

/// Octets that a log is given.
#[derive(Drop)]
pub struct Given<'a> {
    pub octets: &'a [u8],
}

/// All octets that the log was given. A clause reads them as `octets`.
#[derive(Drop)]
pub struct Log {
    pub ghost octets: { List ℕ },
}

impl Model for Log {
    ghost also_owns = { λ _. ftrue };
}

impl Log {
    /// A log that was given no octets.
    pub fn new() -> Log
        ensures { result.octets ≡ [] }
    {
        Log {}
    }

    /// A log that was given these octets too.
    #[inline(always)]
    pub fn and(&self, _more: &Given<'_>) -> Log
        ensures { result.octets ≡ self.now.octets ++ _more.now.octets.now }
    {
        Log {}
    }
}
