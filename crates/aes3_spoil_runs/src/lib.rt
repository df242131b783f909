//! Runs that insert errors into the cells of a line, by the words of a command line.
#![tactic(auto)]

/// What to do with an input that was rejected.
mod looks;
/// Errors by their options.
mod named;
/// The options and values that the program takes.
mod spoil_argument;
/// The texts of the program's help.
mod spoil_help;
/// What the words of a command line ask for.
mod spoil_job;
/// The line of an error.
mod spoil_refusal;
/// A job between its streams, and what is reported of it.
mod spoil_run;
/// The values of options.
mod value;
/// What is wrong with the values of options.
mod wrong;

pub use looks::{advice_on, say_more};
pub use spoil_job::{Job, file_of_line, job_of_words};
pub use spoil_run::{report_unread, run_job, run_line};
