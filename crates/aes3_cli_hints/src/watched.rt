//! What the hints need to know of the input.

ghost use Rattle.std.specs.Prelude.{◌≡◌, ◌+◌, ◌-◌, ◌≤◌, IfSome, fold, length, take};
ghost use Rattle.aes3_cli_hints.specs.Places.{behind, one_more};

use aes3_cell::{Fault, Source};
use std::alloc::Global;

/// How many of the first bytes are kept.
pub(crate) const HEAD_LEN: usize = 65_536;

/// How many of them decide the kind of file.
const FIRST_LEN: usize = 64;

/// A source that keeps what the hints need of its bytes. If there are no hints it keeps nothing.
#[derive(Drop)]
pub struct Watched<S: Drop> {
    source: S,
    is_on: bool,
    /// Whether it also keeps the place of each byte in a text, for which it looks at all bytes.
    has_places: bool,
    head: Vec<u8>,
    /// The last bytes that the source gave.
    piece: Vec<u8>,
    /// How many bytes it gave before these, and the position of the first of these.
    before: u64,
    start: Position,
}

/// The position of a byte in cell text. Both numbers count from 1.
#[derive(Clone, Copy)]
pub(crate) struct Position {
    pub line: u64,
    pub column: u64,
}

impl Position {
    /// The first byte of all.
    const FIRST: Position = Position { line: 1, column: 1 };

    /// The position of the byte after this one.
    fn behind(self, byte: u8) -> Position
        ensures { result ≡ behind self byte }
    {
        if byte == b'\n' {
            Position {
                line: self.line.saturating_add(1),
                column: 1,
            }
        } else {
            Position {
                line: self.line,
                column: self.column.saturating_add(1),
            }
        }
    }

    /// The position of the byte after these; `self` is the position of the first of them.
    fn behind_all(self, bytes: &[u8]) -> Position
        ensures { result ≡ fold behind self bytes.now }
    {
        let mut position = self;
        for byte in bytes {
            position = position.behind(*byte);
        }
        position
    }
}

impl<S: Source + Drop> Watched<S> {
    /// Watches this source if it `is_on`, and keeps the positions of its bytes if it `has_places`.
    pub fn new(alloc: Global, source: S, is_on: bool, has_places: bool) -> Self
        ensures source { result.source ≡ source }
        ensures on { result.is_on ≡ is_on }
        ensures places { result.has_places ≡ has_places }
    {
        Watched {
            source,
            is_on,
            has_places,
            head: Vec::new(alloc),
            piece: Vec::new(alloc),
            before: 0,
            start: Position::FIRST,
        }
    }

    /// The first bytes, up to [`HEAD_LEN`].
    pub(crate) fn head(&self) -> &[u8] {
        &self.head
    }

    /// The first bytes that decide what kind of file it is.
    pub(crate) fn first(&self) -> &[u8] {
        &self.head[..self.head.len().min(FIRST_LEN)]
    }

    /// The position of the byte of this number in the text, if it was among the last bytes that
    /// were given.
    pub(crate) fn position(&self, at: u64) -> Option<Position>
        ensures here { IfSome result (λ _. self.now.before ≤ at) }
        ensures position { IfSome result (λ position. position
            ≡ fold behind self.now.start (take (at - self.now.before) self.now.piece.items)) }
    {
        let place = at.checked_sub(self.before)? as usize;
        let front = self.piece.get(..place)?;
        Some(self.start.behind_all(front))
    }

    /// Keeps the bytes that were given in place of those before them. If there is no memory for
    /// them, it keeps none.
    fn keep(&mut self, bytes: &[u8])
        ensures source { self.new.source ≡ self.old.source }
        ensures start { self.new.start ≡ fold behind self.old.start self.old.piece.items }
    {
        self.before = self.before.saturating_add(self.piece.len() as u64);
        self.start = self.start.behind_all(&self.piece);
        self.piece.clear();
        let _ = self.piece.extend_from_slice(bytes);
    }

    /// Keeps the bytes that were given if they are among the first. If there is no memory for them,
    /// it keeps none.
    fn keep_first(&mut self, bytes: &[u8])
        ensures source { self.new.source ≡ self.old.source }
    {
        let more = bytes.len().min(HEAD_LEN.saturating_sub(self.head.len()));
        let _ = self.head.extend_from_slice(&bytes[..more]);
    }
}

impl<S: Source + Drop> Source for Watched<S> {
    ghost given = { λ w. S.given w.source };

    ghost has_ended = { λ w. S.has_ended w.source };

    ghost failed = { λ w. S.failed w.source };

    fn read(&mut self, buf: &mut [u8]) -> Result<usize, Fault> {
        let answer = self.source.read(buf);
        if let Ok(n) = answer
            && self.is_on
        {
            self.keep_first(&buf[..n]);
            if self.has_places {
                self.keep(&buf[..n]);
            }
        }
        answer
    }

    fn failures(&self) -> u64 {
        self.source.failures()
    }
}
