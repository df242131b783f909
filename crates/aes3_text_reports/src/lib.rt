//! Reports and preambles in cells, line by line (AES3-3, IEC 60958-1).
#![tactic(auto)]

/// The line of a report.
mod report_line;
/// The preambles in cells, line by line.
mod scanning;

pub use report_line::{line_of_report, tell_ending};
pub use scanning::scan;
