//! The file that a picture is written to.

ghost use Rattle.std.specs.Prelude.{◌≡◌, Err, codes};
ghost use Rattle.aes3_capture_picture.specs.declared.file.PictureFault.TheVariants.{Standard};

use aes3_files::PartFile;
use std::fs::{self, File};
use std::io::{self, Error, ErrorKind, Read, Write};

/// How a picture begins.
pub(crate) const HEAD: &str = "<svg ";

/// The word for standard output in place of a file's name.
const STANDARD: &str = "-";

/// Why a picture can't be written.
#[derive(Clone, Copy)]
pub enum PictureFault {
    /// The system's reason.
    System(Error),
    /// The file exists, and is no picture.
    Other,
    /// The name that the file has until the picture is complete, with `.part`, is that of another.
    Taken,
    /// The name is that of standard output, which has the cells.
    Standard,
    /// There is no memory.
    Memory,
}

/// The file that a picture is written to. Until the picture is complete, the file has another name.
#[derive(Drop)]
pub struct PictureFile {
    part: PartFile,
    file: File,
}

impl PictureFile {
    /// Creates the file. A file that exists and is no picture is never replaced: it may be the
    /// capture.
    ///
    /// # Errors
    /// Why it can't.
    pub fn create(rt: &HostRuntime, name: &str) -> Result<Self, PictureFault>
        ensures standard { name.now ≡ codes "-" → result ≡ Err Standard }
    {
        if name == STANDARD {
            return Err(PictureFault::Standard);
        }
        check_name(rt, name)?;
        let Ok(part) = PartFile::new(rt, name) else {
            return Err(PictureFault::Memory);
        };
        match part.create(rt) {
            Ok(file) => Ok(PictureFile { part, file }),
            Err(_) if part.taken().is_some() => Err(PictureFault::Taken),
            Err(error) => Err(PictureFault::System(error)),
        }
    }

    /// Writes the picture, and gives the file its name.
    ///
    /// # Errors
    /// The system's reason. Then the file is removed.
    pub fn finish(self, rt: &HostRuntime, text: &str) -> io::Result<()> {
        let PictureFile { part, file } = self;
        let mut file = file;
        match file.write_all(text.as_bytes()) {
            Ok(()) => part.keep(rt),
            Err(error) => {
                part.remove(rt);
                Err(error)
            }
        }
    }

    /// Removes the file, if no picture is to be written.
    pub fn remove(self, rt: &HostRuntime) {
        self.part.remove(rt);
    }
}

/// Checks that a picture may have this name: no file has it, or one that may be replaced, and it is
/// no link to a file.
fn check_name(rt: &HostRuntime, name: &str) -> Result<(), PictureFault> {
    match fs::symlink_metadata(rt, name) {
        Ok(kept) if kept.is_file() => check_picture(rt, name),
        Ok(_) => check_no_file(rt, name),
        Err(_) => Ok(()),
    }
}

/// Checks that something else than a file is no link to a file.
fn check_no_file(rt: &HostRuntime, name: &str) -> Result<(), PictureFault> {
    match fs::metadata(rt, name) {
        Ok(kept) if kept.is_file() => Err(PictureFault::Other),
        Ok(_) => Ok(()),
        Err(error) => Err(PictureFault::System(error)),
    }
}

/// Checks that a file may be replaced: it is empty, or begins as a picture.
fn check_picture(rt: &HostRuntime, name: &str) -> Result<(), PictureFault> {
    match is_picture(rt, name) {
        Ok(true) => Ok(()),
        Ok(false) => Err(PictureFault::Other),
        Err(error) => Err(PictureFault::System(error)),
    }
}

/// Whether a file is empty or begins as a picture.
fn is_picture(rt: &HostRuntime, name: &str) -> io::Result<bool> {
    let mut file = File::open(rt, name)?;
    if file.metadata()?.len() == 0 {
        return Ok(true);
    }
    let mut first = [0; HEAD.len()];
    match file.read_exact(&mut first) {
        Ok(()) => Ok(first.as_slice() == HEAD.as_bytes()),
        Err(error) if matches!(error.kind(), ErrorKind::UnexpectedEof) => Ok(false),
        Err(error) => Err(error),
    }
}
