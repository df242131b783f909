//! A sink that keeps what it is given.

ghost use Rattle.std.specs.Prelude.{List, ℕ, IsTrue, ◌≡◌, ◌<◌, [], false};
ghost use Rattle.aes3_c.specs.Owed.{HasFewest, owed_in, stretched};

use crate::owed::{Aes3Owed, no_owed, owe_rest};
use aes3_cell::{Fault, Sink};
use aes3_octet_log::{Given, Log};
use std::marker::{Brand, PhantomData};

/// What was before a sink was made.
pub(crate) trait Before {
    /// All octets that were written before.
    ghost told: { List ℕ };
}

impl Before for Brand {
    ghost told = { [] };
}

/// Owes all octets that it is given. It never fails.
#[derive(Drop)]
pub(crate) struct OwingSink<K: Before> {
    pub owed: Aes3Owed,
    /// Whether it owes all octets that it was given.
    pub fits: bool,
    /// All octets that it was given.
    pub given: Log,
    of: PhantomData<K>,
    pub ghost first: { owed.first ≡ 0 },
    pub ghost fewest: { HasFewest owed },
    pub ghost owes: { IsTrue fits → owed_in owed ≡ given.octets },
    pub ghost many: { fits ≡ false → 1024 < (stretched given.octets).many },
}

impl<K: Before> OwingSink<K> {
    /// A sink that was given nothing.
    pub fn new() -> Self
        ensures none { result.given.octets ≡ [] }
    {
        OwingSink {
            owed: no_owed(),
            fits: true,
            given: Log::new(),
            of: PhantomData,
        }
    }
}

impl<K: Before> Sink for OwingSink<K> {
    ghost use Rattle.std.specs.Prelude.{Some, ◌++◌};

    ghost taken = { λ s. Some (K.told ++ s.given.octets) };

    // It holds nothing back.
    ghost passed = { λ s. Some (K.told ++ s.given.octets) };

    ghost failed = { λ _. 0 };

    fn write(&mut self, buf: &[u8]) -> Result<usize, Fault> {
        self.fits = owe_rest(&mut self.owed, self.fits, buf);
        self.given = self.given.and(&Given { octets: buf });
        Ok(buf.len())
    }

    /// It holds nothing back.
    fn flush(&mut self) -> Result<(), Fault> {
        Ok(())
    }

    fn failures(&self) -> u64 {
        0
    }
}
