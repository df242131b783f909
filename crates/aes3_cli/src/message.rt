//! Texts for people, and the exit statuses of programs.

ghost use Rattle.std.specs.Prelude.{◌≡◌, ◌<◌, ◌+◌, ◌^◌, IfOk, OnErr};
ghost use Rattle.aes3_cell.specs.Ends.{Grew};

use aes3_cell::{Fault, Sink, write_all};

/// The exit status of a run that succeeded.
pub const DONE: u8 = 0;

/// The exit status of a usage error.
pub const USAGE: u8 = 2;

/// The exit status of a run that ended with an error.
pub const REFUSED: u8 = 3;

/// Writes all of a text, and flushes the sink.
///
/// # Errors
/// The sink's fault; then it may have taken a front of the text.
pub fn put_text<T: Sink>(text: &str, sink: &mut T) -> Result<(), Fault>
    requires room { T.failed sink.old + 1 < 2 ^ 64 }
    ensures text { IfOk result (λ _. Grew (T.taken sink.old) (T.taken sink.new) text.now) }
    ensures passed_on { IfOk result (λ _. T.passed sink.new ≡ T.taken sink.new) }
    ensures no_failure { IfOk result (λ _. T.failed sink.new ≡ T.failed sink.old) }
    ensures err { OnErr result (T.failed sink.new ≡ T.failed sink.old + 1) }
{
    write_all(sink, text.as_bytes())?;
    sink.flush()
}
