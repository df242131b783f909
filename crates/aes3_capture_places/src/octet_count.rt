//! A sink that counts octets.

ghost use Rattle.std.specs.Prelude.{◌≡◌, ◌-◌, ◌^◌, [], length, min};

use aes3_cell::{Fault, Sink};
use aes3_octet_log::{Given, Log};

/// Counts the octets that it is given, and keeps none. It never fails.
#[derive(Drop)]
pub(crate) struct OctetCount {
    octets: u64,
    given: Log,
    ghost counted: { octets ≡ min (length given.octets) (2 ^ 64 - 1) },
}

impl OctetCount {
    /// A sink that was given nothing.
    pub(crate) fn new() -> Self
        ensures { result.given.octets ≡ [] }
    {
        OctetCount {
            octets: 0,
            given: Log::new(),
        }
    }

    /// How many octets it was given, 2^64 - 1 at most.
    pub(crate) fn octets(&self) -> u64
        ensures { result ≡ min (length self.now.given.octets) (2 ^ 64 - 1) }
    {
        self.octets
    }
}

impl Sink for OctetCount {
    ghost use Rattle.std.specs.Prelude.{Some};

    ghost taken = { λ s. Some s.given.octets };

    // It holds nothing back.
    ghost passed = { λ s. Some s.given.octets };

    ghost failed = { λ _. 0 };

    fn write(&mut self, buf: &[u8]) -> Result<usize, Fault> {
        self.octets = self.octets.saturating_add(buf.len() as u64);
        self.given = self.given.and(&Given { octets: buf });
        Ok(buf.len())
    }

    /// It holds nothing back.
    fn flush(&mut self) -> Result<(), Fault> {
        Ok(())
    }

    fn failures(&self) -> u64 {
        0
    }
}
