//! Which errors there are, and where.

ghost use Rattle.std.specs.Prelude.{◌≤◌};

use crate::kinds::{
    CellError, ErrorKind, Every, cells_to_repeated, clear_with, one_if_at, one_if_repeated,
};

/// How many errors there may be besides the repeated ones.
pub const ERRORS: usize = 64;

/// Which errors there are, and where.
#[derive(Clone, Copy, PartialEq, Eq)]
pub struct Errors {
    list: [CellError; ERRORS],
    len: usize,
    every: Option<Every>,
    ghost within: { len ≤ 64 },
}

impl Errors {
    ghost use Rattle.std.specs.Prelude.{◌≡◌, ◌+◌, ◌<◌, ◌++◌, [], ◌∷◌, length, None, Some};
    ghost use Rattle.aes3_spoil.specs.Errors.{Clear, errors_at, errors_of};

    /// No errors.
    pub fn new() -> Self
        ensures none { errors_of result ≡ [] }
        ensures every { result.every ≡ None }
    {
        Errors {
            list: [CellError {
                place: 0,
                kind: ErrorKind::Changed,
            }; ERRORS],
            len: 0,
            every: None,
        }
    }

    /// How many more errors there may be.
    pub fn room(&self) -> usize
        ensures { length (errors_of self.now) + result ≡ ERRORS }
    {
        ERRORS - self.len
    }

    /// Adds an error of this kind at the cell of this number.
    pub fn add(&mut self, place: u64, kind: ErrorKind)
        requires room { length (errors_of self.old) < ERRORS }
        ensures list { errors_of self.new
            ≡ errors_of self.old ++ record { place = place; kind = kind } ∷ [] }
        ensures every { self.new.every ≡ self.old.every }
    {
        self.list[self.len] = CellError { place, kind };
        self.len += 1;
    }

    /// Sets errors of this kind at each cell whose number is a positive multiple of `cells`. They
    /// replace the repeated errors that were set before.
    pub fn set_every(&mut self, cells: u64, kind: ErrorKind)
        ensures every { self.new.every ≡ Some (record { cells = cells; kind = kind }) }
        ensures list { errors_of self.new ≡ errors_of self.old }
    {
        self.every = Some(Every { cells, kind });
    }

    /// How many errors of this kind there are at the cell of this number.
    pub fn count(&self, kind: ErrorKind, place: u64) -> u64
        ensures { result ≡ errors_at self.now kind place }
    {
        let mut count = 0;
        for error in self.list[..self.len].iter() {
            count += one_if_at(*error, kind, place);
        }
        count + one_if_repeated(self.every, kind, place)
    }

    /// For how many cells from `place` on there is no error at any of them.
    pub(crate) fn clear_from(&self, place: u64) -> u64
        ensures { Clear self.now place (place + result) }
    {
        let mut clear = u64::MAX;
        for error in self.list[..self.len].iter() {
            clear = clear_with(clear, *error, place);
        }
        clear.min(cells_to_repeated(self.every, place))
    }
}
