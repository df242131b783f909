//! The line of an error, and its exit status.

ghost use Rattle.std.specs.Prelude.{◌≡◌, ◌<◌, ◌+◌, ◌^◌, None, Some};
ghost use Rattle.aes3_cell.specs.Writes.{Wrote};
ghost use Rattle.aes3_program.specs.Asides.{Aside};
ghost use Rattle.aes3_program.specs.Lines.{refusal_line};
ghost use Rattle.aes3_program.specs.Streams.{PassesOn};

use aes3_cell::{Fault, Sink};
use aes3_cli::REFUSED;
use aes3_cli_jobs::{Observer, Refusal};
use aes3_status::Line;

/// Writes the line of an error as one buffer.
///
/// # Errors
/// The sink's fault; then it has taken a front of the line.
pub fn put_refusal<T: Sink>(error: Refusal, sink: &mut T) -> Result<(), Fault>
    requires room { T.failed sink.old + 1 < 2 ^ 64 }
    ensures { Wrote T.taken T.failed sink.old sink.new (refusal_line error) result }
{
    Line::of_refusal("aes3", error.number(), error.place()).write_to(sink)
}

/// Reports an error on `errors`, flushes them, and then informs the observer. Faults of `errors`
/// change nothing. Returns the exit status.
pub fn refuse<E: Sink, O: Observer>(error: Refusal, errors: &mut E, observer: &mut O) -> u8
    requires { E.failed errors.old + 1 < 2 ^ 64 }
    ensures aside { Aside None (Some error) E.Sink errors.old errors.new
        O.Observer observer.old observer.new result }
    ensures passed_on { PassesOn E.Sink errors.old errors.new }
{
    if put_refusal(error, errors).is_ok() {
        let _ = errors.flush();
    }
    observer.refused(error);
    REFUSED
}
