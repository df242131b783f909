//! The numbers of a queue.

ghost use Rattle.std.specs.Prelude.{◌≡◌};
ghost use Rattle.aes3_capture_recovery.specs.Parts.{form_of, packed_flag};

use crate::queue::{CellQueue, WORDS};
use aes3_cell::Form;

/// The numbers of a queue, for one that keeps it in a form of its own: `CellQueue::parts` gives them, and
/// `CellQueue::of_parts` makes the same queue of them.
#[repr(C)]
#[derive(Clone, Copy)]
pub struct QueueParts {
    /// The words that are whole, and how many these are.
    pub words: [u64; WORDS],
    pub count: u64,
    /// The cells of the word that is not whole, and how many these are.
    pub word: u64,
    pub len: u32,
    /// Not 0 if cells are written packed.
    pub packed: u8,
}

/// The form of cells that are written packed or not.
fn form_of(packed: u8) -> Form
    ensures { result ≡ form_of packed }
{
    match packed {
        0 => Form::Text,
        _ => Form::Packed,
    }
}

/// Whether cells in this form are packed.
fn packed_flag(form: Form) -> u8
    ensures { result ≡ packed_flag form }
{
    match form {
        Form::Text => 0,
        Form::Packed => 1,
    }
}

impl CellQueue {
    ghost use Rattle.aes3_capture_recovery.specs.Parts.{queue_parts};
    ghost use Rattle.aes3_capture_recovery.specs.declared.queue.CellQueue.{CellQueue};

    /// The queue of these numbers. If no queue has them, it has the nearest that one has.
    pub(crate) fn of_parts(parts: &QueueParts) -> CellQueue
        ensures { (queue : CellQueue) → queue_parts queue ≡ parts.now → result ≡ queue }
    {
        let len = parts.len.min(63);
        CellQueue {
            form: form_of(parts.packed),
            words: parts.words,
            count: parts.count.min(15) as usize,
            word: parts.word.min((1 << len) - 1),
            len,
        }
    }

    /// Its numbers.
    pub(crate) fn parts(&self) -> QueueParts
        ensures { result ≡ queue_parts self.now }
    {
        QueueParts {
            words: self.words,
            count: self.count as u64,
            word: self.word,
            len: self.len,
            packed: packed_flag(self.form),
        }
    }
}
