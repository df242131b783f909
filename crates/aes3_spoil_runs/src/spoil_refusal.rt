//! The line of an error, and its exit status.

ghost use Rattle.std.specs.Prelude.{◌≡◌, ◌<◌, ◌≤◌, ◌+◌, ◌^◌};
ghost use Rattle.aes3_cell.specs.Ends.{Grew};
ghost use Rattle.aes3_cell.specs.Writes.{Wrote};
ghost use Rattle.aes3_spoil_runs.specs.Lines.{refusal_line};

use aes3_cell::{Fault, RunError, Sink};
use aes3_cli::REFUSED;
use aes3_status::Line;

/// Writes the line of an error as one buffer.
///
/// # Errors
/// The sink's fault; then it has taken a front of the line.
pub fn put_refusal<T: Sink>(error: RunError, sink: &mut T) -> Result<(), Fault>
    requires room { T.failed sink.old + 1 < 2 ^ 64 }
    ensures { Wrote T.taken T.failed sink.old sink.new (refusal_line error) result }
{
    Line::of_refusal("aes3-spoil", error.number(), error.place()).write_to(sink)
}

/// Writes the line of an error to `messages`, flushes them, and returns the exit status. Faults of
/// `messages` change nothing.
pub fn refuse<E: Sink>(error: RunError, messages: &mut E) -> u8
    requires { E.failed messages.old + 1 < 2 ^ 64 }
    ensures status { result ≡ 3 }
    ensures line { E.failed messages.new ≡ E.failed messages.old
        → Grew (E.taken messages.old) (E.taken messages.new) (refusal_line error) }
    ensures messages { E.failed messages.new ≤ E.failed messages.old + 1 }
    ensures messages_passed_on { E.failed messages.new ≡ E.failed messages.old
        → E.passed messages.new ≡ E.taken messages.new }
{
    if put_refusal(error, messages).is_ok() {
        let _ = messages.flush();
    }
    REFUSED
}
