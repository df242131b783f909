//! The line of a preamble.

ghost use Rattle.std.specs.Prelude.{◌≡◌, ◌<◌, ◌≤◌, ◌+◌, ◌*◌, ◌/◌, ◌%◌, ◌^◌, ◌++◌, ◌∷◌, [], codes};
ghost use Rattle.std.specs.Prelude.{decimal, length, take};
ghost use Rattle.aes3_cell.specs.Writes.{Wrote};
ghost use Rattle.aes3_text_lines.specs.MarkLines.{level_digit, mark_beginning, mark_ending, mark_letter};
ghost use Rattle.aes3_text_lines.specs.MarkLines.{mark_line};

use crate::tail::digit_of;
use aes3_cell::{Fault, Level, Sink};
use aes3_slot::Mark;
use aes3_status::Line;
use itoa::Buffer;

/// How many bytes a preamble's line has at most.
pub const MARK_LEN: usize = 40;

/// The least number with digits before its last four.
pub(crate) const LONG: u64 = 10_000;

/// How many digits a number has at most before its last four.
const UPPER_LEN: usize = 16;

/// A number's digits but the last four. Lines whose numbers differ only in the last four share
/// them.
#[derive(Drop)]
pub(crate) struct UpperDigits {
    number: u64,
    /// The least number with these digits.
    first: u64,
    text: [u8; UPPER_LEN],
    len: usize,
    ghost some: { 0 < number },
    ghost first_is: { first ≡ 10000 * number },
    ghost few: { len ≤ 16 },
    ghost digits: { take len text ≡ decimal number },
}

impl UpperDigits {
    /// The digits of a number of at least five digits.
    pub(crate) fn new(number: u64) -> Self
        requires { 10000 ≤ number }
        ensures { result.number ≡ number / 10000 }
    {
        let number = number / LONG;
        let mut buffer = Buffer::new();
        let digits = buffer.format(number).as_bytes();
        let mut text = [0; UPPER_LEN];
        let len = digits.len();
        text[..len].copy_from_slice(digits);
        UpperDigits {
            number,
            first: LONG * number,
            text,
            len,
        }
    }

    /// Replaces these digits by those of a number of at least five digits.
    #[inline(always)]
    pub(crate) fn renew(&mut self, number: u64)
        requires { 10000 ≤ number }
        ensures { self.new.number ≡ number / 10000 }
    {
        if number < self.first || number - self.first >= LONG {
            self.replace(number);
        }
    }

    /// Replaces these digits by those of a number with other ones.
    // Not inlined, so that lines that share their digits need no space for making new ones.
    #[cold]
    #[inline(never)]
    fn replace(&mut self, number: u64)
        requires { 10000 ≤ number }
        ensures { self.new.number ≡ number / 10000 }
    {
        *self = UpperDigits::new(number);
    }
}

/// The letter of a preamble (AES3-3).
fn letter(mark: Mark) -> &'static str
    ensures { result.now ≡ mark_letter mark }
{
    match mark {
        Mark::X => "X",
        Mark::Y => "Y",
        Mark::Z => "Z",
    }
}

/// The line of a preamble at cell `at` after the level `before`, without its line feed.
pub(crate) fn text_of_mark(at: u64, mark: Mark, before: Level) -> Line
    ensures text { result ≡ codes "mark " ++ mark_letter mark ++ codes " at " ++ decimal at
        ++ codes " before " ++ level_digit before }
    ensures len { length result < MARK_LEN }
{
    let mut line = Line::new();
    line.text("mark ");
    line.text(letter(mark));
    line.text(" at ");
    line.number(at);
    line.text(" before ");
    line.bytes(digit_of(before));
    line
}

/// Writes the line of a preamble at cell `at` after the level `before` as one buffer.
///
/// # Errors
/// The sink's fault; then it has taken a front of the line.
pub fn line_of_mark<T: Sink>(at: u64, mark: Mark, before: Level, sink: &mut T) -> Result<(), Fault>
    requires room { T.failed sink.old + 1 < 2 ^ 64 }
    ensures { Wrote T.taken T.failed sink.old sink.new (mark_line at mark before) result }
{
    let mut line = text_of_mark(at, mark, before);
    line.end(sink)
}

/// The beginning of a preamble's line.
fn beginning(mark: Mark) -> &'static [u8; 10]
    ensures { result.now ≡ mark_beginning mark }
{
    match mark {
        Mark::X => b"mark X at ",
        Mark::Y => b"mark Y at ",
        Mark::Z => b"mark Z at ",
    }
}

/// What follows the number in the line.
fn ending(before: Level) -> [u8; 10]
    ensures { result ≡ mark_ending before }
{
    let level = match before {
        Level::Low => b'0',
        Level::High => b'1',
    };
    [b' ', b'b', b'e', b'f', b'o', b'r', b'e', b' ', level, b'\n']
}

/// The digits of a number: those of both pairs at once, with each pair in its half of a word.
fn four_digits(number: u32) -> [u8; 4]
    requires { number < 10000 }
    ensures { result ≡ (48 + number / 100 / 10) ∷ (48 + number / 100 % 10)
        ∷ (48 + number % 100 / 10) ∷ (48 + number % 100 % 10) ∷ [] }
{
    let pairs = number / 100 + (number % 100 << 16);
    // The tens of each pair: 103/1024 gives a tenth, rounded down, of all numbers below 100.
    let tens = pairs * 103 >> 10 & 0x000F_000F;
    let digits = tens + (pairs - 10 * tens << 8);
    (digits + 0x3030_3030).to_le_bytes()
}

/// Puts these bytes into the line, from place `at` on.
#[inline(always)]
fn put_at<const N: usize>(line: &mut [u8], at: usize, bytes: &[u8; N])
    requires room { at + N ≤ length line.old }
    ensures len { length line.new ≡ length line.old }
    ensures bytes { take (at + N) line.new ≡ take at line.old ++ bytes.now }
{
    line[at..at + N].copy_from_slice(bytes);
}

/// Puts the line of a preamble at cell `at`, whose number begins with these digits. Returns how
/// many bytes it has.
#[inline(always)]
pub(crate) fn put_mark(
    line: &mut [u8],
    upper: &UpperDigits,
    at: u64,
    mark: Mark,
    before: Level,
) -> usize
    requires room { length line.old ≡ MARK_LEN }
    requires upper { upper.now.number ≡ at / 10000 }
    ensures line_len { length line.new ≡ MARK_LEN }
    ensures len { result ≤ MARK_LEN }
    ensures line { take result line.new ≡ mark_line at mark before }
{
    let last = (at - upper.first) as u32;
    let end = 10 + upper.len;
    // Copied first, so that the compiler need not check whether they are in the line.
    let beginning = *beginning(mark);
    let text = upper.text;
    put_at(line, 0, &beginning);
    put_at(line, 10, &text);
    put_at(line, end, &four_digits(last));
    put_at(line, end + 4, &ending(before));
    end + 14
}
