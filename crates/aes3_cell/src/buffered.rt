//! A sink that gathers bytes for another sink.

ghost use Rattle.std.specs.Prelude.{◌≡◌, ◌+◌, ◌<◌, ◌≤◌, ◌^◌, [], ◌++◌, length, IfOk, OnErr};
ghost use Rattle.std.specs.List.{flat_map};
ghost use Rattle.aes3_cell.specs.Buffering.{followed_by, held};
ghost use Rattle.aes3_level.specs.Words.{word_cells};
ghost use Rattle.aes3_cell.specs.Written.{bytes_of};
ghost use Rattle.aes3_cell.specs.declared.form.Form.TheVariants.{Text};

use crate::ends::{Fault, Sink};
use crate::form::Form;
use crate::word::{LINES_LEN, MANY, fill_lines, octets_of_words};
use std::alloc::{AllocError, Global};

/// How many bytes it holds at most.
const BUFFER_LEN: usize = 65_536;

/// Holds the bytes that it takes until there is no room for more or it is flushed. Then it passes
/// them on to the inner sink.
#[derive(Drop)]
pub struct BufferedSink<T: Drop> {
    sink: T,
    bytes: Vec<u8>,
    /// Where the bytes that it holds begin, and where they end.
    start: usize,
    end: usize,
    ghost ordered: { start ≤ end },
    ghost within: { end ≤ length bytes.items },
    ghost size: { length bytes.items ≡ 65536 },
}

impl<T: Sink + Drop> BufferedSink<T> {
    /// A sink that holds nothing.
    ///
    /// # Errors
    /// `AllocError` if there is no memory for it.
    pub fn new(alloc: Global, sink: T) -> Result<Self, AllocError>
        ensures sink { IfOk result (λ b. b.sink ≡ sink) }
        ensures empty { IfOk result (λ b. held b.start b.end b.bytes.items ≡ []) }
    {
        Ok(BufferedSink {
            sink,
            bytes: vec![in alloc; 0; BUFFER_LEN]?,
            start: 0,
            end: 0,
        })
    }

    /// The inner sink.
    pub fn sink(&self) -> &T
        ensures { result.now ≡ self.now.sink }
    {
        &self.sink
    }

    /// Passes on all that it holds.
    #[cold]
    #[inline(never)]
    fn drain(&mut self) -> Result<(), Fault>
        requires room { T.failed self.old.sink + 1 < 2 ^ 64 }
        ensures taken { followed_by (T.taken self.new.sink)
            (held self.new.start self.new.end self.new.bytes.items)
            ≡ followed_by (T.taken self.old.sink)
            (held self.old.start self.old.end self.old.bytes.items) }
        ensures empty { IfOk result (λ _. self.new.end ≡ 0) }
        ensures no_failure { IfOk result (λ _. T.failed self.new.sink ≡ T.failed self.old.sink) }
        ensures err { OnErr result (T.failed self.new.sink ≡ T.failed self.old.sink + 1) }
    {
        while self.start < self.end {
            let bytes = &self.bytes.as_slice()[self.start..self.end];
            self.start += self.sink.write(bytes)?;
        }
        self.start = 0;
        self.end = 0;
        Ok(())
    }

    /// Makes room for `len` bytes.
    #[inline(always)]
    fn make_room(&mut self, len: usize) -> Result<(), Fault>
        requires few { len ≤ BUFFER_LEN }
        requires room { T.failed self.old.sink + 1 < 2 ^ 64 }
        ensures taken { followed_by (T.taken self.new.sink)
            (held self.new.start self.new.end self.new.bytes.items)
            ≡ followed_by (T.taken self.old.sink)
            (held self.old.start self.old.end self.old.bytes.items) }
        ensures fits { IfOk result (λ _. self.new.end + len ≤ BUFFER_LEN) }
        ensures no_failure { IfOk result (λ _. T.failed self.new.sink ≡ T.failed self.old.sink) }
        ensures err { OnErr result (T.failed self.new.sink ≡ T.failed self.old.sink + 1) }
    {
        if len <= BUFFER_LEN - self.end {
            return Ok(());
        }
        self.drain()
    }

    /// Appends bytes to those that it holds.
    #[inline(always)]
    fn append(&mut self, bytes: &[u8])
        requires { self.old.end + length bytes.now ≤ BUFFER_LEN }
        ensures sink { self.new.sink ≡ self.old.sink }
        ensures held { held self.new.start self.new.end self.new.bytes.items
            ≡ held self.old.start self.old.end self.old.bytes.items ++ bytes.now }
    {
        let end = self.end + bytes.len();
        self.bytes.as_mut_slice()[self.end..end].copy_from_slice(bytes);
        self.end = end;
    }

    /// Appends the lines of words to the bytes that it holds.
    #[inline(always)]
    fn append_lines(&mut self, words: &[u64; MANY])
        requires { self.old.end + LINES_LEN ≤ BUFFER_LEN }
        ensures sink { self.new.sink ≡ self.old.sink }
        ensures held { held self.new.start self.new.end self.new.bytes.items
            ≡ held self.old.start self.old.end self.old.bytes.items
            ++ bytes_of Text (flat_map word_cells words.now) }
    {
        let end = self.end + LINES_LEN;
        fill_lines(words, &mut self.bytes.as_mut_slice()[self.end..end]);
        self.end = end;
    }
}

impl<T: Sink + Drop> Sink for BufferedSink<T> {
    ghost taken = { λ b. followed_by (T.taken b.sink) (held b.start b.end b.bytes.items) };

    ghost passed = { λ b. T.passed b.sink };

    ghost failed = { λ b. T.failed b.sink };

    #[inline(always)]
    fn write(&mut self, buf: &[u8]) -> Result<usize, Fault> {
        let n = buf.len().min(BUFFER_LEN);
        self.make_room(n)?;
        self.append(&buf[..n]);
        Ok(n)
    }

    fn flush(&mut self) -> Result<(), Fault> {
        self.drain()?;
        self.sink.flush()
    }

    fn failures(&self) -> u64 {
        self.sink.failures()
    }

    fn takes_much(&self) -> bool {
        true
    }

    #[inline(always)]
    fn put_many(&mut self, form: Form, words: &[u64; MANY]) -> Result<bool, Fault> {
        self.make_room(LINES_LEN)?;
        match form {
            Form::Text => self.append_lines(words),
            Form::Packed => self.append(&octets_of_words(words)),
        }
        Ok(true)
    }
}
