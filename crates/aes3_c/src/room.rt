//! A sink over memory that is lent.

ghost use Rattle.std.specs.Prelude.{◌≡◌, []};
ghost use Rattle.aes3_c.specs.Putting.{IsPut};

use aes3_cell::{Fault, Sink};
use aes3_octet_log::{Given, Log};

/// Puts octets into memory as long as there is room, and drops the others. It never fails.
#[derive(Drop)]
pub(crate) struct RoomSink<'a> {
    pub memory: &'a mut [u8],
    /// How many octets were put, and whether these are all that it was given.
    pub count: usize,
    pub fits: bool,
    /// The former contents of the memory, and all octets that it was given.
    pub was: Log,
    pub given: Log,
    pub ghost put: { IsPut was.octets given.octets memory.now count fits },
}

impl<'a> RoomSink<'a> {
    /// A sink over this memory that was given nothing.
    pub fn new(memory: &'a mut [u8]) -> Self
        ensures same_reference { result.memory.ghost_name ≡ memory.entry.ghost_name }
        ensures was { result.was.octets ≡ memory.old }
        ensures none { result.given.octets ≡ [] }
    {
        let was = Log::new().and(&Given { octets: &*memory });
        RoomSink {
            memory,
            count: 0,
            fits: true,
            was,
            given: Log::new(),
        }
    }
}

impl Sink for RoomSink<'_> {
    ghost use Rattle.std.specs.Prelude.{Some};
    ghost use Rattle.aes3_c.specs.Room.{taken_in};

    ghost taken = { λ s. Some (taken_in s) };

    // it holds nothing back
    ghost passed = { λ s. Some (taken_in s) };

    ghost failed = { λ _. 0 };

    fn write(&mut self, buf: &[u8]) -> Result<usize, Fault> {
        let n = buf.len().min(self.memory.len() - self.count);
        self.memory[self.count..self.count + n].copy_from_slice(&buf[..n]);
        self.count += n;
        self.fits = self.fits && n == buf.len();
        self.given = self.given.and(&Given { octets: buf });
        Ok(buf.len())
    }

    /// It holds nothing back.
    fn flush(&mut self) -> Result<(), Fault> {
        Ok(())
    }

    fn failures(&self) -> u64 {
        0
    }
}
