//! What the program does: a command line's job between a source and a sink, the line of its error
//! and its exit status.
#![tactic(auto)]

/// A job done by its run, its final flush and its exit status.
mod job_run;
/// A whole command line, and a job whose octets have another layout.
mod line_run;
/// The result of a job that read its input to the end.
mod outcome;
/// The line of an error.
mod refusal_line;
/// The remarks on a job that read its input to the end.
mod remark;

pub use aes3_cli::{DONE, REFUSED, USAGE, Unread};
pub use aes3_status::TypedSettings;
pub use job_run::{FAULTY, finish_job, run_job};
pub use line_run::{Ran, outputs_can_be_reversed, run_line, run_octets, tell_unread};
pub use outcome::{Met, Outcome, Remark};
pub use refusal_line::{put_refusal, refuse};
