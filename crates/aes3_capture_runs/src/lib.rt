//! Runs over captures: from the samples of a line, as a logic analyser takes them, to its cells, by
//! the words of a command line.
#![tactic(auto)]

/// The options and values that the program takes.
mod capture_argument;
/// The texts of the program's help.
mod capture_help;
/// What the words of a command line ask for.
mod capture_job;
/// Samples in which a line has too few edges.
mod edge_watch;
/// The lines that say what was found.
mod figures;
/// A job on a file, standard input or any source and sink, and what is reported of it.
mod job_run;
/// The bit with the line, if no option names it.
mod line_bit;
/// What the first samples show if no line is found.
mod look;
/// What to do with a file that is no capture.
mod other_file;
/// A picture of the capture of a job.
mod pictured_run;
/// A report that is copied, with the places of its cells in the capture.
mod placed_report;
/// The values of options.
mod value;
/// What is wrong with the values of options.
mod wrong;

pub use capture_job::{Job, job_of_words};
pub use edge_watch::SparseSamples;
pub use job_run::{report_fault, report_unread, run_capture, run_job};
pub use look::Look;
pub use placed_report::run_places;
