//! Standard output, or the file that a command line names instead.

use aes3_cell::StdSource;
use aes3_files::PartFile;
use aes3_wave::{Depth, header_of};
use aes3_wave_runs::read_header;
use std::alloc::AllocError;
use std::cell::Cell;
use std::fs::{File, OpenOptions};
use std::io::{self, Error, ErrorKind, StdoutLock, Write};

/// How many octets a header that the program writes has at most.
const HEADER_MOST: u64 = 4096;

/// The file that a command line names for its output, if it names one.
///
/// # Errors
/// `AllocError` if there is no memory.
pub fn file_named(rt: &HostRuntime, name: Option<&str>) -> Result<Option<PartFile>, AllocError> {
    match name {
        Some(name) => Ok(Some(PartFile::new(rt, name)?)),
        None => Ok(None),
    }
}

/// Gives the file its final name if the run succeeded by its exit status, and removes it if the run
/// ended with an error. In a WAV file of this depth it first writes the lengths into the header.
///
/// # Errors
/// The system's error. Then the file is removed.
// Not inlined, so that the stack of a run has no space for the header that is read here.
#[inline(never)]
pub fn finish_file(
    rt: &HostRuntime,
    file: &PartFile,
    status: u8,
    depth: Option<Depth>,
) -> io::Result<()> {
    let Some(part) = file.part() else {
        return Ok(());
    };
    if status > 1 {
        file.remove(rt);
        return Ok(());
    }
    let completed = match depth {
        Some(depth) => put_lengths(rt, part, depth),
        None => Ok(()),
    };
    match completed {
        Ok(()) => file.keep(rt),
        Err(error) => {
            file.remove(rt);
            Err(error)
        }
    }
}

/// Writes the header of a WAV file again, with the lengths. It is as long as the one without them.
fn put_lengths(rt: &HostRuntime, name: &str, depth: Depth) -> io::Result<()> {
    let file = File::open(rt, name)?;
    let len = file.metadata()?.len();
    let header = match read_header(&mut StdSource::new(file), HEADER_MOST) {
        Ok(header) => header,
        Err(_) => return Err(Error::from(ErrorKind::InvalidData)),
    };
    let samples = len.saturating_sub(header.start).min(i64::MAX as u64);
    let octets = header_of(depth, header.format.rate, Some(samples));
    let mut file = OpenOptions::new().write(true).open(rt, name)?;
    file.write_all(octets.as_slice())
}

/// What a program writes.
#[derive(Drop)]
pub struct Output<'a> {
    to: Place,
    /// Why the system did not continue writing, or did not create the file.
    trouble: &'a Cell<Option<Error>>,
}

/// Where the output is written to.
#[derive(Drop)]
enum Place {
    /// Standard output.
    Standard(StdoutLock<'static>),
    /// The file that the command line names.
    File(File),
    /// A file that can't be created.
    Unmade(Error),
}

impl<'a> Output<'a> {
    /// The file, created, or standard output if there is none. The system's message for a failure
    /// is put into `trouble`.
    pub fn new(
        rt: &HostRuntime,
        file: Option<&PartFile>,
        trouble: &'a Cell<Option<Error>>,
    ) -> Self {
        let to = match file {
            None => Place::Standard(rt.stdout().lock()),
            Some(file) => match file.create(rt) {
                Ok(file) => Place::File(file),
                Err(error) => Place::Unmade(error),
            },
        };
        Output { to, trouble }
    }

    /// Notes a failure of the system.
    fn note(&self, error: Error) {
        if !matches!(error.kind(), ErrorKind::Interrupted) {
            self.trouble.set(Some(error));
        }
    }
}

impl Write for Output<'_> {
    fn write(&mut self, buf: &[u8]) -> io::Result<usize> {
        let written = match &mut self.to {
            Place::Standard(output) => return output.write(buf),
            Place::File(file) => file.write(buf),
            Place::Unmade(error) => Err(*error),
        };
        if let Err(error) = written {
            self.note(error);
        }
        written
    }

    fn flush(&mut self) -> io::Result<()> {
        let flushed = match &mut self.to {
            Place::Standard(output) => return output.flush(),
            Place::File(file) => file.flush(),
            Place::Unmade(error) => Err(*error),
        };
        if let Err(error) = flushed {
            self.note(error);
        }
        flushed
    }
}
