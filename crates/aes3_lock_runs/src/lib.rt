//! Runs that write something of each report, or of each block, of an input of cells.
#![tactic(auto)]

/// Listeners to what a lock makes of cells: to the cells, the reports, or the blocks. The taker that
/// they are under, which counts the reports, and the runs with them.
mod listeners;

pub use aes3_input::{Input, Taker, cell, convert, drive, word};
pub use aes3_lock::Tally;
pub use listeners::{
    BlockReporter, BlockWriter, Followed, Listener, ReportListener, Reporter, run_blocks,
    run_cells, run_reports,
};
