//! The files of a program: the input and its kind by its first octets, and a file that is written.
#![tactic(auto)]

/// The file or standard input that a program reads.
mod input;
/// Kinds of file by their first octets.
mod kind;
/// Packed cells by their first octets.
mod packed;
/// A file that a program writes, under another name until it is complete.
mod part;
/// A reader whose first octets are inspected before they are read.
mod preview;
/// The headers of sound files.
mod sound;

pub use input::Input;
pub use kind::FileKind;
pub use packed::{are_packed, are_reversed};
pub use part::PartFile;
pub use preview::Preview;
pub use sound::{SOUND_HEAD_LEN, SoundFile};
