//! Sentences for a person at a terminal.

ghost use Rattle.std.specs.Prelude.{◌≡◌, ◌<◌, ◌≤◌, ◌||◌, IfSome, IsFalse, IsTrue, None, Some, length, not};
ghost use Rattle.aes3_cell.specs.Ends.{Grew};
ghost use Rattle.aes3_cli_arguments.specs.Explained.{advice_of};
ghost use Rattle.aes3_cli_hints.specs.Sentences.{Explained, ExplainedBy, greeting, is_told, reads_hint};
ghost use Rattle.aes3_cli_hints.specs.Sentences.{writes_hint};
ghost use Rattle.aes3_cli_jobs.specs.Hearing.{Hearing};
ghost use Rattle.aes3_cli_jobs.specs.Refusals.{number_of_refusal};

use crate::looks::{advice_by_looks, advice_on_taken, reads_wave};
use crate::watched::{Position, Watched};
use crate::wrong::wrong_of;
use aes3_cell::{RunError, Sink, Source, write_all};
use aes3_cli_arguments::{CommandLine, LineFault, advice, status_of_text};
use aes3_cli_jobs::{Job, Observer, Refusal};
use aes3_cli_progress::{Course, Progress, Unit};
use aes3_files::FileKind;
use std::alloc::Global;
use std::cell::Cell;
use std::io::IsTerminal;
use std::time::Clock;

/// Which of the standard streams are terminals.
#[derive(Clone, Copy)]
pub struct Terminals {
    pub input: bool,
    pub output: bool,
    pub errors: bool,
}

impl Terminals {
    /// As the system says.
    pub fn new(rt: &HostRuntime) -> Self {
        Terminals {
            input: rt.stdin().is_terminal(),
            output: rt.stdout().is_terminal(),
            errors: rt.stderr().is_terminal(),
        }
    }
}

/// Writes on standard error what the program waits for and what an error means, if it is a
/// terminal. If it is not, but the words name a file, it writes what that file looks like. Once
/// writing has failed, it writes nothing more.
#[derive(Drop)]
pub struct Hints<T: Drop> {
    alloc: Global,
    sink: T,
    terminals: Terminals,
    names_file: bool,
    job: Option<Job>,
    refusal: Option<Refusal>,
}

impl<T: Sink + Drop> Hints<T> {
    /// Hints for these streams, written to `sink`, which is standard error.
    pub fn new(alloc: Global, sink: T, terminals: Terminals) -> Self
        ensures sink { result.sink ≡ sink }
        ensures terminals { result.terminals ≡ terminals }
        ensures job { result.job ≡ None }
        ensures refusal { result.refusal ≡ None }
    {
        Hints {
            alloc,
            sink,
            terminals,
            names_file: false,
            job: None,
            refusal: None,
        }
    }

    /// Notes that a file is read instead of standard input.
    pub fn reads_file(&mut self)
        ensures sink { self.new.sink ≡ self.old.sink }
        ensures input { IsFalse self.new.terminals.input }
        ensures errors { self.new.terminals.errors ≡ self.old.terminals.errors }
        ensures job { self.new.job ≡ self.old.job }
        ensures refusal { self.new.refusal ≡ self.old.refusal }
    {
        self.terminals.input = false;
        self.names_file = true;
    }

    /// Notes that a file is written instead of standard output.
    pub fn writes_file(&mut self)
        ensures sink { self.new.sink ≡ self.old.sink }
        ensures output { IsFalse self.new.terminals.output }
        ensures errors { self.new.terminals.errors ≡ self.old.terminals.errors }
        ensures job { self.new.job ≡ self.old.job }
        ensures refusal { self.new.refusal ≡ self.old.refusal }
    {
        self.terminals.output = false;
    }

    /// Watches this source for the hints, if standard error is a terminal or a file is named.
    pub fn watch<S: Source + Drop>(&self, source: S) -> Watched<S>
        ensures { result.source ≡ source }
    {
        let is_on = self.terminals.errors || self.names_file;
        Watched::new(self.alloc, source, is_on, self.terminals.errors)
    }

    /// Reports to `sink` how far this source has been read, if standard error is a terminal and the
    /// source is a file. `sink` is standard error. `len` is the length of the file in bytes, and
    /// `line` what reads it. `shown` says whether a line of progress is there.
    pub fn follow<'a, C: Clock + Drop, S: Source + Drop, E: Sink + Drop>(
        &self,
        clock: C,
        source: S,
        sink: E,
        shown: &'a Cell<bool>,
        len: Option<u64>,
        line: &Result<CommandLine<'_>, LineFault>,
    ) -> Progress<'a, C, S, E>
        ensures source { result.source ≡ source }
        ensures sink { result.sink ≡ sink }
        ensures no_terminal { IsFalse self.now.terminals.errors → result.course ≡ None }
        ensures no_file { len ≡ None → result.course ≡ None }
    {
        let course = match (self.terminals.errors, len, line) {
            (true, Some(len), Ok(line)) => course_of(&clock, len, &line.job),
            _ => None,
        };
        Progress::new(self.alloc, clock, source, sink, shown, course)
    }

    /// Says in a sentence what was wrong with these words or their input, if anything was, and what
    /// to do. Or it says that the input looks like another kind than it was read as. `file` is the
    /// name of the file that was read, if any. If standard error is no terminal, it says only what
    /// is wrong with a WAV file, or what the input looks like.
    pub fn explain<S: Source + Drop>(
        &mut self,
        words: &[&str],
        file: Option<&str>,
        source: &Watched<S>,
    )
        ensures silent { IsFalse (self.old.terminals.errors || self.old.names_file)
            → T.taken self.new.sink ≡ T.taken self.old.sink }
        ensures told { IsTrue self.old.terminals.errors → T.failed self.new.sink ≡ 0
            → IfSome self.old.refusal (λ error. Explained error (T.taken self.old.sink)
            (T.taken self.new.sink)) }
        ensures job { self.new.job ≡ self.old.job }
    {
        if !self.terminals.errors {
            match self.refusal {
                Some(error) if is_of_wave(error) => self.hint_refusal(error, source),
                _ => self.tell_looks(words, source),
            }
            return;
        }
        match (self.refusal, file) {
            (Some(Refusal::Run(RunError::Read)), Some(name)) => {
                self.tell_refusal(
                    Refusal::Run(RunError::Read),
                    Some(Place::File(name)),
                    Some(UNREAD),
                );
            }
            (Some(error), _) => {
                let looks = FileKind::of(source.first());
                let told = advice_by_looks(error, self.job, source.head(), source.first());
                self.tell_refusal(error, place_of(error, self.job, words, source, looks), told);
            }
            (None, _) => self.tell_looks(words, source),
        }
    }

    /// Says what was wrong if the words could not be read.
    pub fn explain_unread(&mut self)
        ensures silent { IsFalse self.old.terminals.errors
            → T.taken self.new.sink ≡ T.taken self.old.sink }
        ensures told { IsTrue self.old.terminals.errors → T.failed self.new.sink ≡ 0
            → IfSome self.old.refusal (λ error. ExplainedBy (advice_of (number_of_refusal error))
            (T.taken self.old.sink) (T.taken self.new.sink)) }
    {
        if let Some(error) = self.refusal {
            self.tell_advice(error, None, advice(error.number()));
        }
    }

    /// Says what was wrong, where, and what to do: `told`, if it is given, or else the advice for
    /// this error.
    fn tell_refusal(&mut self, error: Refusal, place: Option<Place<'_>>, told: Option<&'static str>)
        requires { IfSome told (λ told. IsTrue (is_told told.now)) }
        ensures silent { IsFalse self.old.terminals.errors
            → T.taken self.new.sink ≡ T.taken self.old.sink }
        ensures told { IsTrue self.old.terminals.errors → T.failed self.new.sink ≡ 0
            → Explained error (T.taken self.old.sink) (T.taken self.new.sink) }
        ensures job { self.new.job ≡ self.old.job }
    {
        match told {
            Some(told) => self.tell_advice(error, place, told),
            None => self.tell_advice(error, place, advice(error.number())),
        }
    }

    /// Says what was wrong, where, and this advice. If there is no memory, it gives only the
    /// advice.
    fn tell_advice(&mut self, error: Refusal, place: Option<Place<'_>>, advice: &str)
        ensures silent { IsFalse self.old.terminals.errors
            → T.taken self.new.sink ≡ T.taken self.old.sink }
        ensures told { IsTrue self.old.terminals.errors → T.failed self.new.sink ≡ 0
            → ExplainedBy advice.now (T.taken self.old.sink) (T.taken self.new.sink) }
        ensures job { self.new.job ≡ self.old.job }
    {
        let what = refused_text(self.alloc, error, place).unwrap_or(String::new(self.alloc));
        self.tell("aes3: ");
        self.tell(&what);
        self.tell(advice);
        self.tell("\n");
    }

    /// Says what the input looks like, if that is another kind than it was read as.
    fn tell_looks<S: Source + Drop>(&mut self, words: &[&str], source: &Watched<S>)
        ensures silent { IsFalse (self.old.terminals.errors || self.old.names_file)
            → T.taken self.new.sink ≡ T.taken self.old.sink }
        ensures job { self.new.job ≡ self.old.job }
    {
        if let Some(told) = looks_of(self.refusal, self.job, words, source) {
            self.hint("aes3: ");
            self.hint(told);
            self.hint("\n");
        }
    }

    /// Says what was wrong with a WAV file, where, and what to do.
    fn hint_refusal<S: Source + Drop>(&mut self, error: Refusal, source: &Watched<S>)
        ensures silent { IsFalse (self.old.terminals.errors || self.old.names_file)
            → T.taken self.new.sink ≡ T.taken self.old.sink }
        ensures terminals { self.new.terminals ≡ self.old.terminals }
        ensures job { self.new.job ≡ self.old.job }
    {
        let told = advice_by_looks(error, self.job, source.head(), source.first());
        let what = refused_text(self.alloc, error, None).unwrap_or(String::new(self.alloc));
        self.hint("aes3: ");
        self.hint(&what);
        self.hint(told.unwrap_or(advice(error.number())));
        self.hint("\n");
    }

    /// Writes a text, if standard error is a terminal or a file is named.
    fn hint(&mut self, text: &str)
        ensures silent { IsFalse (self.old.terminals.errors || self.old.names_file)
            → T.taken self.new.sink ≡ T.taken self.old.sink }
        ensures terminals { self.new.terminals ≡ self.old.terminals }
        ensures named { self.new.names_file ≡ self.old.names_file }
        ensures job { self.new.job ≡ self.old.job }
    {
        if (self.terminals.errors || self.names_file) && self.sink.failures() == 0 {
            let _ = write_all(&mut self.sink, text.as_bytes());
        }
    }

    /// Writes a text, if standard error is a terminal.
    fn tell(&mut self, text: &str)
        ensures silent { IsFalse self.old.terminals.errors
            → T.taken self.new.sink ≡ T.taken self.old.sink }
        ensures told { T.failed self.new.sink ≡ 0 → IsTrue self.old.terminals.errors
            → Grew (T.taken self.old.sink) (T.taken self.new.sink) text.now }
        ensures failed { T.failed self.old.sink ≤ T.failed self.new.sink }
        ensures terminals { self.new.terminals ≡ self.old.terminals }
        ensures named { self.new.names_file ≡ self.old.names_file }
        ensures job { self.new.job ≡ self.old.job }
        ensures refusal { self.new.refusal ≡ self.old.refusal }
    {
        if self.terminals.errors && self.sink.failures() == 0 {
            let _ = write_all(&mut self.sink, text.as_bytes());
        }
    }
}

/// What to do if a file can't be read.
const UNREAD: &str = "check that the file is there, that you may read it, and that it is no folder";

/// What was wrong, and where; `None` if there is no memory.
fn refused_text(alloc: Global, error: Refusal, place: Option<Place<'_>>) -> Option<String> {
    match error {
        Refusal::Run(error) => run_text(alloc, error, place),
        Refusal::Header(error) => wrong_of(alloc, error),
        Refusal::NoChannel { channels: 1 } => Some(String::from_str(alloc, ONE_CHANNEL).ok()?),
        Refusal::NoChannel { channels } => {
            format!(in alloc; "the WAV file has {channels} channels: ").ok()
        }
    }
}

/// What was wrong if a WAV file has one channel.
const ONE_CHANNEL: &str = "the WAV file has 1 channel: ";

/// What was wrong with a run, and where.
fn run_text(alloc: Global, error: RunError, place: Option<Place<'_>>) -> Option<String> {
    let text = match place {
        Some(Place::Byte(Position { line, column })) => {
            format!(in alloc; "{error} (line {line}, column {column}): ")
        }
        Some(Place::Option(name)) | Some(Place::File(name)) => {
            format!(in alloc; "{error} ({name}): ")
        }
        Some(Place::SoundFile) => return Some(String::new(alloc)),
        None => format!(in alloc; "{error}: "),
    };
    text.ok()
}

/// What to do with an input that looks like another kind than it was read as, whether it was an
/// error or not.
fn looks_of<S: Source + Drop>(
    refusal: Option<Refusal>,
    job: Option<Job>,
    words: &[&str],
    source: &Watched<S>,
) -> Option<&'static str> {
    match (refusal, job) {
        (Some(error), _) => advice_by_looks(error, job, source.head(), source.first()),
        (None, Some(job)) => advice_on_taken(&job, words, source.head(), source.first()),
        (None, None) => None,
    }
}

/// Whether a WAV file was rejected for its header or its channels.
fn is_of_wave(error: Refusal) -> bool {
    matches!(error, Refusal::Header(_) | Refusal::NoChannel { .. })
}

/// The place of an error, as a person looks for it.
#[derive(Clone, Copy)]
enum Place<'a> {
    /// A byte of cell text.
    Byte(Position),
    /// An option of the command line.
    Option(&'static str),
    /// The file of this name.
    File(&'a str),
    /// The input as a whole, a sound file, if the place of the first sample does not matter.
    SoundFile,
}

/// Where to look for what was wrong.
fn place_of<S: Source + Drop>(
    error: Refusal,
    job: Option<Job>,
    words: &[&str],
    source: &Watched<S>,
    looks: FileKind,
) -> Option<Place<'static>> {
    let is_sound = matches!(looks, FileKind::Sound(_)) && !reads_wave(job);
    match error {
        Refusal::Run(RunError::BadSample { .. }) if is_sound => Some(Place::SoundFile),
        Refusal::Run(RunError::BadCell { at }) => Some(Place::Byte(source.position(at)?)),
        Refusal::Run(RunError::BadStatusText) => Some(Place::Option(bad_status_option(words)?)),
        _ => None,
    }
}

/// The option among the words whose text is no channel status.
fn bad_status_option(words: &[&str]) -> Option<&'static str> {
    if has_bad_status(words, "--status1") {
        Some("--status1")
    } else if has_bad_status(words, "--status2") {
        Some("--status2")
    } else {
        None
    }
}

/// Whether the option is among the words with a text that is no channel status.
fn has_bad_status(words: &[&str], name: &str) -> bool {
    for at in 0..words.len() {
        match text_of_option(words, at, name) {
            Some(text) if status_of_text(text).is_none() => return true,
            _ => {}
        }
    }
    false
}

/// The text of the option, if the word of this number is the option: the rest of that word or the
/// next word.
fn text_of_option<'a>(words: &[&'a str], at: usize, name: &str) -> Option<&'a str>
    requires { at < length words.now }
{
    match words[at].strip_prefix(name)? {
        "" => words.get(at + 1).copied(),
        rest => rest.strip_prefix("="),
    }
}

/// The progress of a job in a file of `len` bytes. There is none for a WAV file, since before its
/// header it is not known how many bytes make a block.
fn course_of<C: Clock>(clock: &C, len: u64, job: &Job) -> Option<Course> {
    match (job, job.block_len()) {
        (Job::FromWav { .. }, _) => None,
        (_, Some(block_len)) => Course::new(clock, len, Unit::Bytes(block_len)),
        (_, None) => Course::new(clock, len, Unit::Cells),
    }
}

/// The hint before a job, by whether standard input is a terminal.
fn reads_hint(is_terminal: bool) -> &'static str
    ensures { result.now ≡ reads_hint is_terminal }
{
    if is_terminal {
        "aes3: reading from the terminal until Ctrl-D; to read a file, use < FILE\n"
    } else {
        ""
    }
}

/// The hint before this job, by whether standard output is a terminal.
fn writes_hint(is_terminal: bool, job: &Job) -> &'static str
    ensures { result.now ≡ writes_hint is_terminal job.now }
{
    if is_terminal && job.writes_packed() {
        "aes3: writing packed cells to the terminal; to write a file, use > FILE\n"
    } else {
        ""
    }
}

impl<T: Sink + Drop> Observer for Hints<T> {
    ghost told = { λ h. T.taken h.sink };

    ghost is_silent = { λ h. not (h.terminals.errors || h.names_file) };

    ghost heard = { λ h hearing. (h.job ≡ hearing.job) × (h.refusal ≡ hearing.refusal)
        × (h.terminals.errors ≡ hearing.terminal) };

    fn begins(&mut self, job: &Job)
        ensures silent { IsTrue (not (self.old.terminals.errors || self.old.names_file))
            → T.taken self.new.sink ≡ T.taken self.old.sink }
        ensures unchanged { not (self.new.terminals.errors || self.new.names_file)
            ≡ not (self.old.terminals.errors || self.old.names_file) }
        ensures no_terminal { IsFalse self.old.terminals.errors
            → T.taken self.new.sink ≡ T.taken self.old.sink }
        ensures told { IsTrue self.old.terminals.errors → T.failed self.new.sink ≡ 0
            → Grew (T.taken self.old.sink) (T.taken self.new.sink)
            (greeting self.old.terminals job.now) }
        ensures job { self.new.job ≡ Some job.now }
        ensures heard { (hearing : Hearing) → (self.old.job ≡ hearing.job)
            × (self.old.refusal ≡ hearing.refusal) × (self.old.terminals.errors ≡ hearing.terminal)
            → (self.new.job ≡ Some job.now) × (self.new.refusal ≡ hearing.refusal)
            × (self.new.terminals.errors ≡ hearing.terminal) }
    {
        self.job = Some(*job);
        self.tell(reads_hint(self.terminals.input));
        self.tell(writes_hint(self.terminals.output, job));
    }

    fn refused(&mut self, error: Refusal)
        ensures told { T.taken self.new.sink ≡ T.taken self.old.sink }
        ensures unchanged { not (self.new.terminals.errors || self.new.names_file)
            ≡ not (self.old.terminals.errors || self.old.names_file) }
        ensures refusal { self.new.refusal ≡ Some error }
        ensures heard { (hearing : Hearing) → (self.old.job ≡ hearing.job)
            × (self.old.refusal ≡ hearing.refusal) × (self.old.terminals.errors ≡ hearing.terminal)
            → (self.new.job ≡ hearing.job) × (self.new.refusal ≡ Some error)
            × (self.new.terminals.errors ≡ hearing.terminal) }
    {
        self.refusal = Some(error);
    }
}
