//! A file that a program writes, under another name until it is complete.

use std::alloc::AllocError;
use std::cell::Cell;
use std::fs::{self, File, OpenOptions};
use std::io::{self, Error, ErrorKind};

/// The end of the name that a file has until it is complete.
const PART: &str = ".part";

/// A file that a program writes. Until it is complete, `.part` is appended to its name, so what has
/// the name is complete, or was there before.
#[derive(Drop)]
pub struct PartFile {
    name: String,
    /// The name that the file has until it is complete. `None` if the name is that of something
    /// else than a file, such as a pipe or a device.
    part: Option<String>,
    /// Whether this run has created the file of that name, so that it may remove it.
    is_made: Cell<bool>,
    /// Whether something had that name already, so that the file was not created.
    is_taken: Cell<bool>,
}

impl PartFile {
    /// The file of this name, not created yet.
    ///
    /// # Errors
    /// `AllocError` if there is no memory.
    pub fn new(rt: &HostRuntime, name: &str) -> Result<Self, AllocError> {
        let is_file = match fs::symlink_metadata(rt, name) {
            Ok(kept) => kept.is_file(),
            Err(_) => true,
        };
        let part = if is_file {
            Some(joined(rt, name, PART)?)
        } else {
            None
        };
        Ok(PartFile {
            name: joined(rt, name, "")?,
            part,
            is_made: Cell::new(false),
            is_taken: Cell::new(false),
        })
    }

    /// Creates the file, or opens what is no file. A file that already has the final name is not
    /// touched, nor is one that the name is a link to: either may be the input.
    ///
    /// # Errors
    /// The system's error. `AlreadyExists` if the name is a link to a file, or if something has the
    /// name with `.part`.
    pub fn create(&self, rt: &HostRuntime) -> io::Result<File> {
        let Some(part) = &self.part else {
            if fs::metadata(rt, self.name.as_str())?.is_file() {
                return Err(Error::from(ErrorKind::AlreadyExists));
            }
            return OpenOptions::new().write(true).open(rt, self.name.as_str());
        };
        match File::create_new(rt, part.as_str()) {
            Ok(file) => {
                self.is_made.set(true);
                Ok(file)
            }
            Err(error) => {
                self.is_taken
                    .set(matches!(error.kind(), ErrorKind::AlreadyExists));
                Err(error)
            }
        }
    }

    /// The name with `.part`, if something had it already, so that the file was not created.
    pub fn taken(&self) -> Option<&str> {
        match &self.part {
            Some(part) if self.is_taken.get() => Some(part.as_str()),
            _ => None,
        }
    }

    /// The name that the file has until it is complete, if this run has created it.
    pub fn part(&self) -> Option<&str> {
        match &self.part {
            Some(part) if self.is_made.get() => Some(part.as_str()),
            _ => None,
        }
    }

    /// Gives the file its final name, if this run has created it.
    ///
    /// # Errors
    /// The system's error. Then the file is removed.
    pub fn keep(&self, rt: &HostRuntime) -> io::Result<()> {
        let Some(part) = self.part() else {
            return Ok(());
        };
        let kept = fs::rename(rt, part, self.name.as_str());
        if kept.is_err() {
            self.remove(rt);
        }
        kept
    }

    /// Removes the file, if this run has created it.
    pub fn remove(&self, rt: &HostRuntime) {
        if let Some(part) = self.part() {
            fs::remove_file(rt, part).unwrap_or(());
        }
    }
}

/// A text with another appended.
fn joined(rt: &HostRuntime, text: &str, end: &str) -> Result<String, AllocError> {
    let mut joined = String::new(rt.alloc());
    joined.push_str(text)?;
    joined.push_str(end)?;
    Ok(joined)
}
