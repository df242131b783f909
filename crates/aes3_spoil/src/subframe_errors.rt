//! Errors of a subframe and of a block, as errors at cells. A subframe has 64 cells: a preamble of
//! 8 and then two for each time slot from 4 to 31 (AES3-3; IEC 60958-1).

ghost use Rattle.std.specs.Prelude.{◌≡◌, ◌+◌, ◌-◌, ◌*◌, ◌<◌, ◌≤◌, ◌^◌, ◌++◌, ◌∷◌, [], length};
ghost use Rattle.aes3_spoil.specs.Errors.{errors_of};
ghost use Rattle.aes3_spoil.specs.Subframes.{check_errors, parity_cell, preamble_cell, slot_cell};
ghost use Rattle.aes3_spoil.specs.declared.kinds.ErrorKind.TheVariants.{Changed, Inverted};

use crate::errors::{ERRORS, Errors};
use crate::kinds::ErrorKind;
use aes3_slot::SUBFRAME_CELLS;

/// How many of them are its preamble, and how many a time slot has.
const PREAMBLE_CELLS: u64 = 8;

const SLOT_CELLS: u64 = 2;

/// The cell of a preamble that is changed: the last of its first run, which is longer than any run
/// of bits.
const PREAMBLE_CELL: u64 = 2;

/// The first time slot after the preamble, and that of the channel status bit.
const FIRST_SLOT: u64 = 4;

const STATUS_SLOT: u64 = 30;

/// The frame of a block that has the first bit of the check byte (AES3-2: byte 23).
const CHECK_FRAME: u64 = 184;

impl Errors {
    /// Adds a wrong parity bit as a sender makes it, in the subframe whose first cell has the
    /// number `place`. Its last cell and all cells after it are inverted. So the time slot has the
    /// other bit, and all that follows is valid.
    pub fn add_wrong_parity(&mut self, place: u64)
        requires room { length (errors_of self.old) < ERRORS }
        requires within { place < 2 ^ 63 }
        ensures list { errors_of self.new
            ≡ errors_of self.old ++ record { place = parity_cell place; kind = Inverted } ∷ [] }
        ensures every { self.new.every ≡ self.old.every }
    {
        self.add(place + (SUBFRAME_CELLS - 1), ErrorKind::Inverted);
    }

    /// Adds a time slot from 4 to 31 that does not begin with a change of level. It is in the
    /// subframe whose first cell has the number `place`. Only the slot's first cell is changed.
    pub fn add_biphase(&mut self, place: u64, slot: u8)
        requires room { length (errors_of self.old) < ERRORS }
        requires within { place < 2 ^ 63 }
        requires first { 4 ≤ slot }
        requires last { slot ≤ 31 }
        ensures list { errors_of self.new ≡ errors_of self.old
            ++ record { place = slot_cell place slot; kind = Changed } ∷ [] }
        ensures every { self.new.every ≡ self.old.every }
    {
        let cell = PREAMBLE_CELLS + SLOT_CELLS * (u64::from(slot) - FIRST_SLOT);
        self.add(place + cell, ErrorKind::Changed);
    }

    /// Adds an invalid preamble, in the subframe whose first cell has the number `place`: its third
    /// cell is changed.
    pub fn add_preamble(&mut self, place: u64)
        requires room { length (errors_of self.old) < ERRORS }
        requires within { place < 2 ^ 63 }
        ensures list { errors_of self.new
            ≡ errors_of self.old ++ record { place = preamble_cell place; kind = Changed } ∷ [] }
        ensures every { self.new.every ≡ self.old.every }
    {
        self.add(place + PREAMBLE_CELL, ErrorKind::Changed);
    }

    /// Adds a wrong check byte in the block whose first cell has the number `place`. In frame 184,
    /// channel 1, it changes the second cell of the channel status bit's time slot and the first of
    /// the parity bit's. So both bits are inverted, and nothing else: the block stays whole, and a
    /// good professional check byte becomes bad.
    pub fn add_check_byte(&mut self, place: u64)
        requires room { length (errors_of self.old) + 1 < ERRORS }
        requires within { place < 2 ^ 63 }
        ensures list { errors_of self.new ≡ errors_of self.old ++ check_errors place }
        ensures every { self.new.every ≡ self.old.every }
    {
        let subframe = SUBFRAME_CELLS * (2 * CHECK_FRAME);
        let cell = PREAMBLE_CELLS + SLOT_CELLS * (STATUS_SLOT - FIRST_SLOT) + 1;
        self.add(place + (subframe + cell), ErrorKind::Changed);
        self.add(place + (subframe + cell + 1), ErrorKind::Changed);
    }
}
