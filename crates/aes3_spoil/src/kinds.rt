//! Kinds of errors, and one error.

ghost use Rattle.std.specs.Prelude.{◌≡◌, ◌+◌, ◌≤◌, Some};
ghost use Rattle.aes3_spoil.specs.Errors.{ClearOf, entry_at, repeated, same_kind};

/// What an error does to its cell.
#[derive(Clone, Copy, PartialEq, Eq)]
pub enum ErrorKind {
    /// The cell is inverted.
    Changed,
    /// The cell and all cells after it are inverted, as after a sender's wrong parity bit.
    Inverted,
    /// The cell is missing.
    Lost,
    /// The cell is there twice.
    Doubled,
}

/// An error at one cell.
#[derive(Clone, Copy, PartialEq, Eq)]
pub struct CellError {
    /// The number of the cell, from 0.
    pub place: u64,
    pub kind: ErrorKind,
}

/// Repeated errors.
#[derive(Clone, Copy, PartialEq, Eq)]
pub struct Every {
    /// They are at each cell whose number is a positive multiple of this number; if it is 0, at
    /// none.
    pub cells: u64,
    pub kind: ErrorKind,
}

/// Whether two kinds are the same.
fn is_same(a: ErrorKind, b: ErrorKind) -> bool
    ensures { result ≡ same_kind a b }
{
    a == b
}

/// Whether an error is of this kind and at this cell: 1 or 0.
pub(crate) fn one_if_at(error: CellError, kind: ErrorKind, place: u64) -> u64
    ensures { result ≡ entry_at kind place error }
{
    if error.place == place && is_same(error.kind, kind) {
        1
    } else {
        0
    }
}

/// How many repeated errors of this kind there are at this cell: 1 or 0.
pub(crate) fn one_if_repeated(every: Option<Every>, kind: ErrorKind, place: u64) -> u64
    ensures { result ≡ repeated kind place every }
{
    match every {
        Some(every)
            if is_same(every.kind, kind)
                && place > 0
                && every.cells > 0
                && place % every.cells == 0 => { 1 }
        _ => 0,
    }
}

/// For how many cells from `place` on the error is at none of them.
fn cells_to(error: CellError, place: u64) -> u64
    ensures { ClearOf (λ kind i. entry_at kind i error) place (place + result) }
{
    if error.place < place {
        u64::MAX
    } else {
        error.place - place
    }
}

/// For how many cells from `place` on the error is at none of them, at most `clear`.
pub(crate) fn clear_with(clear: u64, error: CellError, place: u64) -> u64
    ensures most { result ≤ clear }
    ensures clear { ClearOf (λ kind i. entry_at kind i error) place (place + result) }
{
    clear.min(cells_to(error, place))
}

/// For how many cells from `place` on none is a positive multiple of the number.
fn cells_to_multiple(every: Every, place: u64) -> u64
    ensures { ClearOf (λ kind i. repeated kind i (Some every)) place (place + result) }
{
    if every.cells == 0 {
        return u64::MAX;
    }
    if place == 0 {
        return every.cells;
    }
    let over = place % every.cells;
    if over == 0 { 0 } else { every.cells - over }
}

/// For how many cells from `place` on no repeated error is at any of them.
pub(crate) fn cells_to_repeated(every: Option<Every>, place: u64) -> u64
    ensures { ClearOf (λ kind i. repeated kind i every) place (place + result) }
{
    match every {
        Some(every) => cells_to_multiple(every, place),
        None => u64::MAX,
    }
}
