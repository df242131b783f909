//! What the words of a command line ask for: a job and the file that it reads, or why they are no
//! job.
#![tactic(auto)]

/// Values that an option gives by a word.
mod choice;
/// The job of a command with its options.
mod command_job;
/// What the words ask for.
mod command_line;
/// How lines of events are written.
mod event_style;
/// What errors mean: the texts of `--explain`.
mod explain;
/// The file that a command's options name.
mod file;
/// What is written for time that no block covers.
mod fill_option;
/// The form of samples.
mod format;
/// The sampling frequency for a status.
mod frequency;
/// The layout of the octets of packed cells.
mod layout;
/// Misuse of options that are valid each by itself.
mod misuse;
/// The status that a channel begins with.
mod preset;
/// The errors for invalid settings.
mod setting_errors;
/// Settings as typed.
mod setting_texts;
/// What `show` does.
mod show;
/// Channel status in hexadecimal.
mod status_digits;
/// What `to-bits` does.
mod to_bits;
/// What `to-pcm` does.
mod to_pcm;
/// The values that the options of a command have.
mod value;
/// What `watch` does.
mod watch;
/// What `to-wav` and `from-wav` do.
mod wave;
/// The form of a block file's words.
mod words;

pub use command_job::LineFault;
pub use command_line::{CommandLine, job_of_words, line_of_words};
pub use explain::{advice, asks_to_explain, explanation};
pub use file::{file_of_line, output_of_line};
pub use layout::Octets;
pub use status_digits::status_of_text;
