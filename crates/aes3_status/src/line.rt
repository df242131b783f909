//! A line that is being written.

use aes3_cell::{Fault, Sink, write_all};
use arrayvec::ArrayVec;
use itoa::Buffer;
use std::marker::Model;

/// How many bytes a line has at most.
pub const LINE_LEN: usize = 1024;

/// How many digits a number in a line has at most.
pub const DIGITS: usize = 20;

/// How many bytes the name of a program has at most.
const NAME_LEN: usize = 32;

/// The bytes of a line, as far as it is written.
#[derive(Drop)]
pub struct Line {
    bytes: ArrayVec<u8, LINE_LEN>,
}

impl Model for Line {
    ghost use Rattle.std.specs.Prelude.{List, ℕ};

    ghost Value = { List ℕ };

    ghost view = { λ line. line.bytes.items };
}

impl Line {
    ghost use Rattle.std.specs.Prelude.{◌≡◌, ◌↔◌, ◌<◌, ◌≤◌, ◌+◌, [], ◌∷◌, ◌++◌, ◌^◌, IsTrue, codes};
    ghost use Rattle.std.specs.Prelude.{decimal, length};
    ghost use Rattle.aes3_cell.specs.Writes.{Wrote};
    ghost use Rattle.aes3_status.specs.Refusals.{place_text, refusal_text};

    /// An empty line.
    pub fn new() -> Line
        ensures { result ≡ [] }
    {
        Line {
            bytes: ArrayVec::new(),
        }
    }

    /// The line of an error: the program's name, the error's number, and its place if it has one.
    pub fn of_refusal(program: &str, number: u8, place: Option<u64>) -> Line
        requires { length program.now ≤ NAME_LEN }
        ensures { result ≡ refusal_text program.now number place }
    {
        let mut line = Line::new();
        line.text(program);
        line.text(": refused ");
        line.number(u64::from(number));
        line.place(place);
        line.text("\n");
        line
    }

    /// Appends the place of a fault, if it has one.
    fn place(&mut self, place: Option<u64>)
        requires { length self.old + 4 + DIGITS ≤ LINE_LEN }
        ensures place { self.new ≡ self.old ++ place_text place }
        ensures len { length self.new ≤ length self.old + 4 + DIGITS }
    {
        if let Some(place) = place {
            self.text(" at ");
            self.number(place);
        }
    }

    /// Appends the bytes.
    pub fn bytes(&mut self, bytes: &[u8])
        requires { length self.old + length bytes.now ≤ LINE_LEN }
        ensures bytes { self.new ≡ self.old ++ bytes.now }
        ensures len { length self.new ≡ length self.old + length bytes.now }
    {
        let _ = self.bytes.try_extend_from_slice(bytes);
    }

    /// Appends the text.
    pub fn text(&mut self, text: &str)
        requires { length self.old + length text.now ≤ LINE_LEN }
        ensures text { self.new ≡ self.old ++ text.now }
        ensures len { length self.new ≡ length self.old + length text.now }
    {
        self.bytes(text.as_bytes());
    }

    /// Appends the number in decimal.
    pub fn number(&mut self, number: u64)
        requires { length self.old + DIGITS ≤ LINE_LEN }
        ensures digits { self.new ≡ self.old ++ decimal number }
        ensures len { length self.new ≤ length self.old + DIGITS }
    {
        self.text(Buffer::new().format(number));
    }

    /// Whether the line is a space and this text.
    pub(crate) fn is_spaced(&self, text: &str) -> bool
        ensures { IsTrue result ↔ self.now ≡ codes " " ++ text.now }
    {
        match self.bytes.as_slice().split_first() {
            Some((b' ', rest)) => rest == text.as_bytes(),
            _ => false,
        }
    }

    /// The bytes so far.
    pub fn as_bytes(&self) -> &[u8]
        ensures { result.now ≡ self.now }
    {
        self.bytes.as_slice()
    }

    /// Empties the line.
    pub(crate) fn clear(&mut self)
        ensures { self.new ≡ [] }
    {
        self.bytes.clear();
    }

    /// Writes the line to the sink as one buffer.
    ///
    /// # Errors
    /// The sink's fault; then it has taken a front of the line.
    pub fn write_to<T: Sink>(&self, sink: &mut T) -> Result<(), Fault>
        requires room { T.failed sink.old + 1 < 2 ^ 64 }
        ensures { Wrote T.taken T.failed sink.old sink.new self.now result }
    {
        write_all(sink, self.bytes.as_slice())
    }

    /// Ends the line with a line feed, and writes it to the sink as one buffer.
    ///
    /// # Errors
    /// The sink's fault; then it has taken a front of the line.
    pub fn end<T: Sink>(&mut self, sink: &mut T) -> Result<(), Fault>
        requires space { length self.old + 1 ≤ LINE_LEN }
        requires room { T.failed sink.old + 1 < 2 ^ 64 }
        ensures { Wrote T.taken T.failed sink.old sink.new (self.old ++ 10 ∷ []) result }
    {
        self.text("\n");
        self.write_to(sink)
    }
}
