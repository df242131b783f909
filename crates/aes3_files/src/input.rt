//! The file or standard input that a program reads.

use std::cell::Cell;
use std::fs::{self, File};
use std::io::{self, Error, ErrorKind, Read, StdinLock};

/// What a program reads.
#[derive(Drop)]
pub struct Input<'a> {
    from: Place,
    /// Why the system did not continue reading, or did not open the file.
    trouble: &'a Cell<Option<Error>>,
}

/// Where the input is read from.
#[derive(Drop)]
enum Place {
    /// Standard input.
    Standard(StdinLock<'static>),
    /// The file that the command line names.
    File(File),
    /// A file that can't be opened.
    Unopened(Error),
}

impl<'a> Input<'a> {
    /// The file of this name, opened, or standard input if there is no name. The system's message
    /// for a failure is put into `trouble`.
    pub fn new(rt: &HostRuntime, file: Option<&str>, trouble: &'a Cell<Option<Error>>) -> Self {
        let from = match file {
            None => Place::Standard(rt.stdin().lock()),
            Some(name) => match File::open(rt, name) {
                Ok(file) => Place::File(file),
                Err(error) => Place::Unopened(error),
            },
        };
        Input { from, trouble }
    }

    /// How many bytes the input has, if it is a regular file; standard input may be one too.
    pub fn len(&self, rt: &HostRuntime) -> Option<u64> {
        let kept = match &self.from {
            Place::Standard(_) => fs::metadata(rt, "/dev/stdin").ok()?,
            Place::File(file) => file.metadata().ok()?,
            Place::Unopened(_) => return None,
        };
        if kept.is_file() {
            Some(kept.len())
        } else {
            None
        }
    }
}

impl Read for Input<'_> {
    fn read(&mut self, buf: &mut [u8]) -> io::Result<usize> {
        let read = match &mut self.from {
            Place::Standard(input) => input.read(buf),
            Place::File(file) => file.read(buf),
            Place::Unopened(error) => Err(*error),
        };
        match read {
            Ok(len) => Ok(len),
            Err(error) => {
                if !matches!(error.kind(), ErrorKind::Interrupted) {
                    self.trouble.set(Some(error));
                }
                Err(error)
            }
        }
    }
}
