//! The line of a gap.

ghost use Rattle.std.specs.Prelude.{◌+◌, ◌<◌, ◌^◌};
ghost use Rattle.aes3_cell.specs.Writes.{Wrote};
ghost use Rattle.aes3_watch.specs.GapLines.{gap_line};

use aes3_cell::{Fault, Sink};
use aes3_text_lines::Tail;

/// Writes the line of a gap of `cells` cells from cell `at` on as one buffer.
///
/// # Errors
/// The sink's fault; then it has taken a front of the line.
pub fn line_of_gap<T: Sink>(at: u64, cells: u64, sink: &mut T) -> Result<(), Fault>
    requires room { T.failed sink.old + 1 < 2 ^ 64 }
    ensures { Wrote T.taken T.failed sink.old sink.new (gap_line at cells) result }
{
    let mut line = Tail::new();
    line.text(b"\n");
    line.number(cells);
    line.text(b" cells ");
    line.number(at);
    line.text(b"gap at ");
    line.write_to(sink)
}
