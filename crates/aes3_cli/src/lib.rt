//! The command line of the program `aes3`: its commands and their arguments, as definitions for
//! `clap`, with the texts of its help and of its errors.
#![tactic(auto)]

/// The arguments of a command.
mod argument;
/// The commands, and the program with all of them.
mod definitions;
/// Why words are no job.
mod fault;
/// The options that `clap` found.
mod found_options;
/// The texts of `--help` and `--version`.
pub mod help;
/// Texts for people, and the exit statuses of programs.
mod message;
/// Numbers in values of options.
mod number;
/// The words of a command line as the system gives them.
mod unread;
/// The texts of usage errors.
pub mod wording;

pub use argument::{Define, flag, repeated_option, text_option};
pub use definitions::{command_line, program_line};
pub use fault::LineFault;
pub use found_options::{file_of_options, options_of_words, output_of_options};
pub use message::{DONE, REFUSED, USAGE, put_text};
pub use number::number_of_text;
pub use unread::{Unread, words_of_line};
