//! A sink for cells that nobody reads.

ghost use Rattle.std.specs.Prelude.{◌≡◌, ◌+◌, ◌<◌, ◌≤◌, ◌^◌, None, IfOk, OnErr, length, take};
ghost use Rattle.std.specs.Option.{is_some};
ghost use Rattle.aes3_cell.specs.Ends.{Grew, untold};

use aes3_cell::{Fault, Sink};

/// Takes all bytes, and keeps none.
#[derive(Clone, Copy)]
pub(crate) struct Nowhere;

impl Sink for Nowhere {
    ghost taken = { λ _. untold };

    ghost passed = { λ _. untold };

    ghost failed = { λ _. 0 };

    fn write(&mut self, buf: &[u8]) -> Result<usize, Fault> {
        Ok(buf.len())
    }

    fn flush(&mut self) -> Result<(), Fault> {
        Ok(())
    }

    fn failures(&self) -> u64 {
        0
    }
}
