//! The words of a command line as the system gives them.

ghost use Rattle.std.specs.Prelude.{◌≡◌};

use std::alloc::AllocError;
use std::env;
use std::io::ErrorKind;

/// Why the words of a command line could not be read.
#[derive(Clone, Copy)]
pub enum Unread {
    /// They are not UTF-8.
    NotUtf8,
    /// There was no memory.
    Memory,
}

impl From<AllocError> for Unread {
    fn from(_error: AllocError) -> Unread
        ensures { result ≡ Unread.Memory }
    {
        Unread::Memory
    }
}

/// The words of the command line after the program's name.
///
/// # Errors
/// Why they could not be read.
pub fn words_of_line(rt: &HostRuntime) -> Result<Vec<String>, Unread> {
    match env::args(rt) {
        Ok(words) => Ok(words.skip(1).collect(rt.alloc())?),
        Err(error) => match error.kind() {
            ErrorKind::OutOfMemory => Err(Unread::Memory),
            _ => Err(Unread::NotUtf8),
        },
    }
}
