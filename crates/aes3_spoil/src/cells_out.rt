//! Cells that are written to a sink in whole words.

ghost use Rattle.std.specs.Prelude.{◌≡◌, ◌-◌, ◌/◌, ◌<◌, ◌^◌};

use aes3_capture_recovery::put_last;
use aes3_cell::{Fault, Form, Sink, put_word};

/// Writes cells in either form, 64 of them as one buffer once they are complete.
#[derive(Drop)]
pub(crate) struct CellsOut {
    form: Form,
    /// The cells that it holds, the first in the lowest bit.
    word: u64,
    len: u32,
    ghost few: { len < 64 },
    ghost no_more: { word < 2 ^ len },
}

/// The cells that do not fit into a word that has `held` cells.
#[inline(always)]
fn rest_of(cells: u64, held: u32) -> u64
    requires few { held < 64 }
    ensures { result ≡ cells / 2 ^ (64 - held) }
{
    if held == 0 { 0 } else { cells >> (64 - held) }
}

impl CellsOut {
    ghost use Rattle.std.specs.Prelude.{◌+◌, ◌≤◌, ◌++◌, [], IfOk};
    ghost use Rattle.aes3_level.specs.Words.{low_cells};
    ghost use Rattle.aes3_cell.specs.Pending.{begun_cells};
    ghost use Rattle.aes3_cell.specs.Writes.{Wrote};
    ghost use Rattle.aes3_capture_recovery.specs.Endings.{ending_of};
    ghost use Rattle.aes3_spoil.specs.Spoiling.{bytes_added, held};

    /// Holds no cells.
    pub(crate) fn new(form: Form) -> Self
        ensures none { held result ≡ [] }
        ensures form { result.form ≡ form }
    {
        CellsOut {
            form,
            word: 0,
            len: 0,
        }
    }

    /// Takes `len` cells, the first in the lowest bit of `cells`.
    ///
    /// # Errors
    /// The sink's fault; then it has taken a front of the bytes.
    #[inline(always)]
    pub(crate) fn put<T: Sink>(&mut self, sink: &mut T, cells: u64, len: u32) -> Result<(), Fault>
        requires few { len ≤ 64 }
        requires no_more { cells < 2 ^ len }
        requires room { T.failed sink.old + 1 < 2 ^ 64 }
        ensures form { self.new.form ≡ self.old.form }
        ensures wrote { Wrote T.taken T.failed sink.old sink.new
            (bytes_added self.old.form (held self.old) (low_cells len cells)) result }
        ensures held { IfOk result (λ _. held self.new
            ≡ begun_cells (held self.old ++ low_cells len cells)) }
    {
        let word = self.word | cells << self.len;
        let all = self.len + len;
        if all < 64 {
            self.word = word;
            self.len = all;
            return Ok(());
        }
        // The cells that did not fit.
        self.word = rest_of(cells, self.len);
        self.len = all - 64;
        put_word(self.form, word, sink)
    }

    /// Writes the cells that it holds, and in packed form the last octet, the number of unused
    /// cells.
    ///
    /// # Errors
    /// The sink's fault; then it has taken a front of the bytes.
    pub(crate) fn finish<T: Sink>(&self, sink: &mut T) -> Result<(), Fault>
        requires room { T.failed sink.old + 1 < 2 ^ 64 }
        ensures { Wrote T.taken T.failed sink.old sink.new
            (ending_of self.now.form (held self.now)) result }
    {
        put_last(self.form, self.word, self.len, sink)
    }
}
