//! Test signals with deliberate errors: cells written again, some of them changed, lost or doubled
//! (AES3-3; IEC 60958-1).
#![tactic(auto)]

/// Cells that are written to a sink in whole words.
mod cells_out;
/// Which errors there are, and where.
mod errors;
/// Kinds of errors, and one error.
mod kinds;
/// What no errors and single errors do to cells and to the reports on them.
mod laws;
/// The run.
mod spoiling;
/// Errors of a subframe and of a block.
mod subframe_errors;

pub use errors::{ERRORS, Errors};
pub use kinds::{CellError, ErrorKind, Every};
pub use laws::{
    each_error_is_told, one_error_is_told, spoiled_cells_are_damaged, written_cells_are_read_back,
};
pub use spoiling::spoil;
