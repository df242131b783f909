//! The cell that a printed line of a report names.

ghost use Rattle.std.specs.Prelude.{◌≤◌};

/// The longest word that is looked at: `at=` and a number.
const LONGEST: usize = 24;

/// Reads a line of a report octet by octet, and finds the cell that it names.
///
/// The reports of `aes3` name a cell as `at P`, `cell C`, ` at=P` or `"at":P`. If a line names two,
/// the last counts: the fault in a block, not the block's beginning.
#[derive(Drop)]
pub(crate) struct CellName {
    word: [u8; LONGEST],
    /// How long the word is, up to one more than fit.
    len: usize,
    /// Whether the word before names a cell with this one.
    is_number: bool,
    cell: Option<u64>,
    ghost within: { len ≤ 25 },
}

impl CellName {
    /// A line before its first octet.
    pub(crate) fn new() -> Self {
        CellName {
            word: [0; LONGEST],
            len: 0,
            is_number: false,
            cell: None,
        }
    }

    /// Takes the next octet of the line.
    pub(crate) fn take(&mut self, octet: u8) {
        if !is_of_word(octet) {
            self.end_word();
            return;
        }
        if self.len < LONGEST {
            self.word[self.len] = octet;
        }
        self.len = (self.len + 1).min(LONGEST + 1);
    }

    /// Ends the line, and begins the next. Returns the cell that it names.
    pub(crate) fn end(&mut self) -> Option<u64> {
        self.end_word();
        self.is_number = false;
        let cell = self.cell;
        self.cell = None;
        cell
    }

    /// Looks at a word that has ended.
    fn end_word(&mut self) {
        let len = self.len;
        self.len = 0;
        if len == 0 || len > LONGEST {
            return;
        }
        let word = &self.word[..len];
        let number = match word.strip_prefix(b"at=") {
            Some(rest) => number_of(rest),
            None if self.is_number => number_of(word),
            None => None,
        };
        self.is_number = word == b"at".as_slice() || word == b"cell".as_slice();
        if number.is_some() {
            self.cell = number;
        }
    }
}

/// Whether an octet is part of a word: a letter, a digit or `=`.
fn is_of_word(octet: u8) -> bool {
    octet.is_ascii_alphanumeric() || octet == b'='
}

/// The number that these digits are, if they are one below 2^64.
fn number_of(digits: &[u8]) -> Option<u64> {
    if digits.is_empty() {
        return None;
    }
    let mut number: u64 = 0;
    for &digit in digits {
        if !digit.is_ascii_digit() {
            return None;
        }
        number = number
            .checked_mul(10)?
            .checked_add(u64::from(digit - b'0'))?;
    }
    Some(number)
}
