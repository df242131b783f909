//! Cell text as an input.

ghost use Rattle.std.specs.Prelude.{◌≡◌};
ghost use Rattle.aes3_input.specs.Forms.{text_state};

use crate::conversion::Input;
use crate::taker::{Taker, words_and_cells};
use aes3_cell::{CellText, LINES, RunError, Sink};

/// Reads cell text, and counts its cells.
#[derive(Drop)]
pub(crate) struct TextInput {
    text: CellText,
    pub(crate) cells: u64,
    /// The words of the latest lines.
    words: [u64; LINES],
}

impl TextInput {
    /// An input of which nothing was taken.
    pub(crate) fn new() -> Self
        ensures text { result.text.seen ≡ 0 }
        ensures cells { result.cells ≡ 0 }
    {
        TextInput {
            text: CellText::new(),
            cells: 0,
            words: [0; LINES],
        }
    }
}

impl<K: Taker> Input<K> for TextInput {
    ghost state = { λ input taker. text_state input.text input.cells (K.state taker) };

    fn take_front<T: Sink>(
        &mut self,
        taker: &mut K,
        sink: &mut T,
        piece: &[u8],
    ) -> Result<usize, RunError> {
        match self.text.take_front(piece, &mut self.words) {
            Ok(taken) => {
                let words = &self.words[..taken.count];
                match words_and_cells(taker, sink, words, taken.rest.word, taken.rest.len) {
                    Ok(()) => {
                        self.cells += 64 * taken.count as u64 + u64::from(taken.rest.len);
                        Ok(taken.bytes)
                    }
                    Err(_) => Err(RunError::Write),
                }
            }
            Err(fault) => Err(RunError::BadCell { at: fault.at }),
        }
    }

    fn finish<T: Sink>(&mut self, taker: &mut K, sink: &mut T) -> Result<(), RunError> {
        match taker.finish(sink) {
            Ok(()) => Ok(()),
            Err(_) => Err(RunError::Write),
        }
    }
}
