//! A whole command line, and the hints after it for a person at a terminal.

ghost use Rattle.std.specs.Prelude.{◌≡◌, ◌<◌, ◌+◌, ◌^◌, ◌||◌, IfOk, IsFalse, IsTrue, List, None, Some, ℕ};
ghost use Rattle.aes3_program.specs.Asides.{ErrorsLeft};
ghost use Rattle.aes3_program.specs.StandardErrors.{ErrorsTold};
ghost use Rattle.aes3_program.specs.Streams.{HasPassed, PassesOn, moved, streams_of};
ghost use Rattle.aes3_program.specs.WordRuns.{IsLineOfWords, LineRan, UnreadTold, WordsRan};
ghost use Rattle.aes3_program_terminal.specs.Sentences.{RefusalExplained};

use aes3_cell::{Sink, Source};
use aes3_cli_arguments::{CommandLine, LineFault, file_of_line};
use aes3_cli_hints::{Hints, Watched};
use aes3_cli_progress::Progress;
use aes3_program::{Ran, Unread, run_line, tell_unread};
use std::time::Clock;

/// Runs a line, as [`run_line`] does, and erases the line of its progress. Then the hints say in a
/// sentence what was wrong with these words or with their input.
///
/// If standard error is no terminal and the words name no file, the hints write nothing. Then
/// standard error gets only what `errors` get. If it is a terminal, the report of an error ends
/// with a sentence about the error whose line `errors` got. This holds unless writing the sentence
/// fails.
pub fn run_and_explain<
    'a,
    C: Clock + Drop,
    S: Source + Drop,
    P: Sink + Drop,
    T: Sink + Drop,
    E: Sink,
    H: Sink + Drop,
>(
    line: Result<CommandLine<'_>, LineFault>,
    words: &[&str],
    source: Progress<'a, C, Watched<S>, P>,
    sink: T,
    errors: &mut E,
    hints: &mut Hints<H>,
) -> Ran<Progress<'a, C, Watched<S>, P>, T>
    requires source_room { S.failed source.source.source + 1 < 2 ^ 64 }
    requires sink_room { T.failed sink + 1 < 2 ^ 64 }
    requires errors_room { E.failed errors.old + 1 < 2 ^ 64 }
    ensures ran { LineRan line.entry (streams_of
        S.Source source.entry.source.source result.source.source.source
        T.Sink sink result.sink E.Sink errors.old errors.new) result.status }
    ensures told { ErrorsTold line.entry (moved E.Sink errors.old errors.new) result.status }
    ensures words { (words : List (List ℕ)) → IsLineOfWords words line.entry → WordsRan words (streams_of
        S.Source source.entry.source.source result.source.source.source
        T.Sink sink result.sink E.Sink errors.old errors.new) result.status }
    ensures silent { IsFalse (hints.old.terminals.errors || hints.old.names_file)
        → H.taken hints.new.sink ≡ H.taken hints.old.sink }
    ensures explained { IsTrue hints.old.terminals.errors → hints.old.refusal ≡ None
        → H.failed hints.new.sink ≡ 0 → result.status ≡ 3
        → RefusalExplained (moved E.Sink errors.old errors.new) (H.taken hints.new.sink) }
    ensures begun { IfOk line.entry (λ line. hints.new.job ≡ Some line.job) }
    ensures errors { ErrorsLeft E.Sink errors.old errors.new }
    ensures passed_on { HasPassed T.Sink sink → PassesOn T.Sink sink result.sink }
{
    let file = file_of_line(&line);
    let mut ran = run_line(line, source, sink, errors, hints);
    ran.source.end();
    hints.explain(words, file, ran.source.source());
    ran
}

/// Reports why the words could not be read, and has the hints say it in a sentence. Returns the
/// exit status.
pub fn report_unread<E: Sink, H: Sink + Drop>(
    fault: Unread,
    errors: &mut E,
    hints: &mut Hints<H>,
) -> u8
    requires { E.failed errors.old + 1 < 2 ^ 64 }
    ensures told { UnreadTold fault (moved E.Sink errors.old errors.new) result }
    ensures errors { ErrorsLeft E.Sink errors.old errors.new }
    ensures silent { IsFalse (hints.old.terminals.errors || hints.old.names_file)
        → H.taken hints.new.sink ≡ H.taken hints.old.sink }
    ensures explained { IsTrue hints.old.terminals.errors → hints.old.refusal ≡ None
        → H.failed hints.new.sink ≡ 0 → result ≡ 3
        → RefusalExplained (moved E.Sink errors.old errors.new) (H.taken hints.new.sink) }
{
    let status = tell_unread(fault, errors, hints);
    hints.explain_unread();
    status
}
