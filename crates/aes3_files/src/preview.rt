//! A reader whose first octets are inspected before they are read.

use std::alloc::{AllocError, Global};
use std::io::{self, Error, ErrorKind, Read};

/// How many octets are read at once.
const PIECE_LEN: usize = 4096;

/// A reader whose first octets are inspected before they are read.
#[derive(Drop)]
pub struct Preview<R: Drop> {
    reader: R,
    /// What was read ahead, and how many octets of it were given.
    ahead: Vec<u8>,
    given: usize,
    /// The failure that ended the reading ahead. It is reported after what was read before it.
    failure: Option<Error>,
    is_ended: bool,
}

impl<R: Read + Drop> Preview<R> {
    /// A reader that has read nothing ahead.
    pub fn new(alloc: Global, reader: R) -> Self {
        Preview {
            reader,
            ahead: Vec::new(alloc),
            given: 0,
            failure: None,
            is_ended: false,
        }
    }

    /// The first octets, at least `len` of them, or all up to the end or a failure.
    ///
    /// # Errors
    /// `AllocError` if there is no memory.
    pub fn first(&mut self, len: usize) -> Result<&[u8], AllocError> {
        // An interrupted read is tried again. Every other read gives an octet or is the last.
        for _ in 0..len {
            if self.ahead.len() >= len || self.is_ended {
                break;
            }
            self.read_ahead()?;
        }
        Ok(&self.ahead)
    }

    /// Reads a piece ahead.
    fn read_ahead(&mut self) -> Result<(), AllocError> {
        let mut piece = [0; PIECE_LEN];
        match self.reader.read(&mut piece) {
            Ok(0) => self.is_ended = true,
            Ok(len) => self.ahead.extend_from_slice(&piece[..len])?,
            Err(error) if matches!(error.kind(), ErrorKind::Interrupted) => {}
            Err(error) => {
                self.failure = Some(error);
                self.is_ended = true;
            }
        }
        Ok(())
    }
}

impl<R: Read + Drop> Read for Preview<R> {
    fn read(&mut self, buf: &mut [u8]) -> io::Result<usize> {
        if self.given < self.ahead.len() {
            let ahead = &self.ahead[self.given..];
            let len = ahead.len().min(buf.len());
            buf[..len].copy_from_slice(&ahead[..len]);
            self.given += len;
            return Ok(len);
        }
        match self.failure.take() {
            Some(error) => Err(error),
            None => self.reader.read(buf),
        }
    }
}
