//! Runs of jobs: on a file or standard input, and between any source and sink.

ghost use Rattle.std.specs.Prelude.{◌≡◌, ◌<◌, ◌≤◌, ◌+◌, ◌^◌, ◌⊎◌, IfErr, IfOk, IsTrue, List, None, OnErr, false, ℕ};
ghost use Rattle.aes3_cell.specs.Ends.{Grew};
ghost use Rattle.aes3_input.specs.Running.{movement_of};
ghost use Rattle.aes3_capture_recovery.specs.Reading.{FailedAt, ReadSamples};
ghost use Rattle.aes3_capture_recovery.specs.declared.recovery_run.Progress.TheVariants.{Ended};
ghost use Rattle.aes3_capture_runs.specs.Lines.{IsFiguresLine, bit_line, bit_text, no_line_text};
ghost use Rattle.aes3_capture_runs.specs.Runs.{EndSaid, FaultRan, IsNothing, JobRan, LinesTold, UnreadSaid};
ghost use Rattle.aes3_capture_runs.specs.Runs.{memory_text, refusal_text};

use crate::capture_job::{Job, unit_of_job};
use crate::edge_watch::{EdgeWatch, SparseSamples};
use crate::figures::{figures_line, found_text, no_line_text};
use crate::line_bit::line_bit;
use crate::look::Look;
use crate::other_file::{FIRST_LEN, advice_on_other};
use crate::pictured_run::run_pictured;
use crate::placed_report::run_places;
use aes3_capture_recovery::{Figures, Progress, Recovery, Refusal, Unit, recover};
use aes3_cell::{BufferedSink, Fault, Sink, Source, StdSink, StdSource, write_all};
use aes3_cli::{DONE, LineFault, REFUSED, USAGE, Unread, put_text};
use aes3_cli_progress::{Clearing, Course, Progress as Followed, Unit as Counted};
use aes3_files::{Input, Preview};
use itoa::Buffer;
use std::alloc::{AllocError, Global};
use std::cell::Cell;
use std::io::{self, IsTerminal};

/// The exit status if no line was found.
pub const NO_LINE: u8 = 1;

/// After how many samples the line's edges are counted.
const WATCHED: u64 = 1 << 20;

/// Runs the job on what it reads, if that can be a capture, and returns the exit status. `shown`
/// says whether a line of progress is on standard error.
///
/// # Errors
/// `Memory` if there is no memory.
pub fn run_capture<E: Sink>(
    rt: &HostRuntime,
    shown: &Cell<bool>,
    messages: &mut E,
    job: &Job<'_>,
) -> Result<u8, Unread>
    requires { E.failed messages.old + 5 < 2 ^ 64 }
    ensures { IfErr result (λ _. E.failed messages.new ≤ E.failed messages.old + 1) }
{
    let trouble = Cell::new(None);
    let input = Input::new(rt, job.file, &trouble);
    let course = course_of(rt, &input);
    let mut input = Preview::new(rt.alloc(), input);
    if let Some(advice) = advice_on_other(input.first(FIRST_LEN)?, unit_of_job(job, None)) {
        let text = format!(in rt.alloc(); "aes3-cells: {advice}\n")?;
        say(&text, messages);
        return Ok(NO_LINE);
    }
    let found = match job.bit {
        Some(_) => None,
        None => line_bit(rt.alloc(), &mut input, job.octets, job.period)?,
    };
    let unit = unit_of_job(job, found);
    let look = Look::of(rt.alloc(), input.first(0)?, unit, found.is_none());
    let told = StdSink::new(rt.stderr());
    let input = StdSource::new(input);
    let mut source = Followed::new(rt.alloc(), rt, input, told, shown, course);
    let told = StdSink::new(rt.stderr());
    let is_shown = rt.stdout().is_terminal();
    let output = Clearing::new(StdSink::new(rt.stdout().lock()), told, shown, is_shown);
    let mut sink = BufferedSink::new(rt.alloc(), output)?;
    let sparse = Cell::new(None);
    let status = match job.picture {
        None if job.places => {
            let mut report = StdSource::new(rt.stdin());
            run_places(
                rt.alloc(),
                job,
                found,
                &look,
                &mut report,
                &mut source,
                &mut sink,
                messages,
            )
        }
        Some(name) => run_pictured(
            rt, job, name, found, &look, &sparse, source, &mut sink, messages,
        ),
        None => run_job(
            rt.alloc(),
            job,
            found,
            &look,
            &sparse,
            &mut source,
            &mut sink,
            messages,
        ),
    };
    match sparse.get() {
        Some(sparse) => say_sparse(rt.alloc(), sparse, unit, messages),
        None => say_trouble(rt, job.file, trouble.get(), messages),
    }
    Ok(status)
}

/// The progress of reading the input, from now on, if standard error is a terminal and the input is
/// a file.
fn course_of(rt: &HostRuntime, input: &Input<'_>) -> Option<Course> {
    if !rt.stderr().is_terminal() {
        return None;
    }
    Course::new(rt, input.len(rt)?, Counted::Samples)
}

/// Says why the system did not continue reading the file, if there is one and it did not.
fn say_trouble<E: Sink>(
    rt: &HostRuntime,
    file: Option<&str>,
    trouble: Option<io::Error>,
    messages: &mut E,
)
    requires { E.failed messages.old + 1 < 2 ^ 64 }
{
    if let (Some(name), Some(error)) = (file, trouble)
        && let Ok(text) = format!(in rt.alloc(); "aes3-cells: {name}: {error}\n")
    {
        say(&text, messages);
    }
}

/// Says in which samples the line had too few edges, and how to recover the rest.
fn say_sparse<E: Sink>(alloc: Global, sparse: SparseSamples, unit: Unit, messages: &mut E)
    requires { E.failed messages.old + 1 < 2 ^ 64 }
{
    let SparseSamples { from, to } = sparse;
    let octet = to.saturating_mul(unit.len() as u64).saturating_add(1);
    if let Ok(text) = format!(in alloc;
        "aes3-cells: from sample {from} to {to} the line has too few edges. If its rate dropped, cells are wrong there and after it, and `tail -c +{octet}` gives a capture of the rest\n"
    ) {
        say(&text, messages);
    }
}

/// Writes a text to `messages`, and flushes them. Their own faults change nothing.
pub fn say<E: Sink>(text: &str, messages: &mut E)
    requires { E.failed messages.old + 1 < 2 ^ 64 }
    ensures text { E.failed messages.new ≡ E.failed messages.old
        → Grew (E.taken messages.old) (E.taken messages.new) text.now }
    ensures messages_passed_on { E.failed messages.new ≡ E.failed messages.old
        → E.passed messages.new ≡ E.taken messages.new }
    ensures failed { E.failed messages.new ≤ E.failed messages.old + 1 }
    ensures no_fewer_failures { E.failed messages.old ≤ E.failed messages.new }
{
    let _ = put_text(text, messages);
}

/// Says that there was no memory, and returns the exit status.
pub(crate) fn say_memory<E: Sink>(messages: &mut E) -> u8
    requires { E.failed messages.old + 1 < 2 ^ 64 }
    ensures status { result ≡ 3 }
    ensures text { E.failed messages.new ≡ E.failed messages.old
        → Grew (E.taken messages.old) (E.taken messages.new) memory_text }
    ensures messages_passed_on { E.failed messages.new ≡ E.failed messages.old
        → E.passed messages.new ≡ E.taken messages.new }
    ensures failed { E.failed messages.new ≤ E.failed messages.old + 1 }
    ensures no_fewer_failures { E.failed messages.old ≤ E.failed messages.new }
{
    say("aes3-cells: memory was refused\n", messages);
    REFUSED
}

/// Says what failed in a run, and returns the exit status.
pub(crate) fn say_refusal<E: Sink>(refusal: Refusal, messages: &mut E) -> u8
    requires { E.failed messages.old + 1 < 2 ^ 64 }
    ensures status { result ≡ 3 }
    ensures text { E.failed messages.new ≡ E.failed messages.old
        → Grew (E.taken messages.old) (E.taken messages.new) (refusal_text refusal) }
    ensures messages_passed_on { E.failed messages.new ≡ E.failed messages.old
        → E.passed messages.new ≡ E.taken messages.new }
    ensures failed { E.failed messages.new ≤ E.failed messages.old + 1 }
    ensures no_fewer_failures { E.failed messages.old ≤ E.failed messages.new }
{
    match refusal {
        Refusal::Read => say("aes3-cells: the input can't be read\n", messages),
        Refusal::Write => say("aes3-cells: the output can't be written\n", messages),
    }
    REFUSED
}

/// Writes the line of the bit in which a line was found, and flushes it. It needs no memory.
///
/// # Errors
/// The sink's fault; then it may have taken a front of the line.
fn put_bit<T: Sink>(bit: u8, sink: &mut T) -> Result<(), Fault>
    requires room { T.failed sink.old + 1 < 2 ^ 64 }
    ensures text { IfOk result (λ _. Grew (T.taken sink.old) (T.taken sink.new) (bit_text bit)) }
    ensures passed_on { IfOk result (λ _. T.passed sink.new ≡ T.taken sink.new) }
    ensures no_failure { IfOk result (λ _. T.failed sink.new ≡ T.failed sink.old) }
    ensures err { OnErr result (T.failed sink.new ≡ T.failed sink.old + 1) }
{
    write_all(sink, b"aes3-cells: the AES3 line is in bit ")?;
    write_all(sink, Buffer::new().format(bit).as_bytes())?;
    put_text("\n", sink)
}

/// Says in which bit the line was found, if it is not the lowest.
fn say_bit<E: Sink>(found: Option<u8>, messages: &mut E)
    requires { E.failed messages.old + 1 < 2 ^ 64 }
    ensures text { E.failed messages.new ≡ E.failed messages.old
        → Grew (E.taken messages.old) (E.taken messages.new) (bit_line found) }
    ensures messages_passed_on { E.passed messages.old ≡ E.taken messages.old
        → E.failed messages.new ≡ E.failed messages.old → E.passed messages.new ≡ E.taken messages.new }
    ensures failed { E.failed messages.new ≤ E.failed messages.old + 1 }
    ensures no_fewer_failures { E.failed messages.old ≤ E.failed messages.new }
{
    let Some(bit) = found else {
        return;
    };
    if bit > 0 {
        let _ = put_bit(bit, messages);
    }
}

/// Says what was found so far. Returns whether it could.
fn say_figures<E: Sink>(
    alloc: Global,
    figures: &Figures,
    rate: Option<u64>,
    messages: &mut E,
) -> bool
    requires { E.failed messages.old + 1 < 2 ^ 64 }
    ensures said { IsTrue result → E.failed messages.new ≡ E.failed messages.old }
    ensures text { E.failed messages.new ≡ E.failed messages.old
        → (E.taken messages.new ≡ E.taken messages.old)
        ⊎ ((line : List ℕ) × IsFiguresLine figures.now rate line
        × Grew (E.taken messages.old) (E.taken messages.new) line) }
    ensures line { IsTrue result → (line : List ℕ) × IsFiguresLine figures.now rate line
        × Grew (E.taken messages.old) (E.taken messages.new) line }
    ensures messages_passed_on { E.passed messages.old ≡ E.taken messages.old
        → E.failed messages.new ≡ E.failed messages.old → E.passed messages.new ≡ E.taken messages.new }
    ensures failed { E.failed messages.new ≤ E.failed messages.old + 1 }
    ensures no_fewer_failures { E.failed messages.old ≤ E.failed messages.new }
{
    match figures_line(alloc, figures, rate) {
        Ok(text) => put_text(&text, messages).is_ok(),
        Err(_) => false,
    }
}

/// Recovers the cells of what the source gives, and watches the line's edges. It says during the
/// run what was found of the line, if that is asked for. Once it fails to say it, it says no more,
/// and watches no longer.
///
/// # Errors
/// Whether the input, the output or memory failed.
fn recover_telling<S: Source, T: Sink, E: Sink>(
    alloc: Global,
    job: &Job<'_>,
    unit: Unit,
    recovery: &mut Recovery,
    watch: &mut EdgeWatch,
    source: &mut S,
    sink: &mut T,
    messages: &mut E,
) -> Result<Progress, Refusal>
    requires source_room { S.failed source.old + 1 < 2 ^ 64 }
    requires sink_room { T.failed sink.old + 1 < 2 ^ 64 }
    requires messages_room { E.failed messages.old + 1 < 2 ^ 64 }
    ensures source_count { IfOk result (λ _. S.failed source.new ≡ S.failed source.old) }
    ensures sink_count { IfOk result (λ _. T.failed sink.new ≡ T.failed sink.old) }
    ensures one_failure { IfErr result (λ refusal. FailedAt refusal (S.failed source.old) (S.failed source.new)
        (T.failed sink.old) (T.failed sink.new)) }
    ensures read { ReadSamples unit (S.given source.old) (S.given source.new) (S.has_ended source.new) T.taken
        recovery.old recovery.new sink.old sink.new result }
    ensures to_the_end { IfOk result (λ progress. progress ≡ Ended) }
    ensures passed { IfOk result (λ _. T.passed sink.new ≡ T.taken sink.new) }
    ensures passed_before { S.failed source.new ≡ S.failed source.old + 1
        → T.passed sink.old ≡ T.taken sink.old → T.passed sink.new ≡ T.taken sink.new }
    ensures text { E.failed messages.new ≡ E.failed messages.old
        → LinesTold job.now.rate job.now.tell_each (E.taken messages.old) (E.taken messages.new) }
    ensures messages_passed_on { E.passed messages.old ≡ E.taken messages.old
        → E.failed messages.new ≡ E.failed messages.old → E.passed messages.new ≡ E.taken messages.new }
    ensures failed { E.failed messages.new ≤ E.failed messages.old + 1 }
    ensures no_fewer_failures { E.failed messages.old ≤ E.failed messages.new }
{
    let mut until = job.tell_each;
    'tells: for _ in 0..u64::MAX {
        let before = recovery.figures();
        let pause = next_pause(until, before.samples);
        match recover(source, sink, unit, recovery, Some(pause)) {
            Ok(Progress::Paused) => {}
            end => return end,
        }
        let figures = recovery.figures();
        watch.note(&figures);
        if is_telling_due(until, before.dead, &figures) {
            if !say_figures(alloc, &figures, job.rate, messages) {
                return recover(source, sink, unit, recovery, None);
            }
            until = next_telling(until, job.tell_each, figures.samples);
        }
    }
    recover(source, sink, unit, recovery, None)
}

/// How many samples there will be before the watch counts edges, or before the next report at
/// `until` samples.
fn next_pause(until: Option<u64>, samples: u64) -> u64 {
    let watched = samples.saturating_add(WATCHED);
    until.unwrap_or(watched).min(watched)
}

/// Whether it has to say what was found: `until` samples have come, or another stretch without
/// signal after the first `dead`.
fn is_telling_due(until: Option<u64>, dead: u64, figures: &Figures) -> bool
    ensures { until ≡ None → result ≡ false }
{
    match until {
        Some(until) => figures.samples >= until || figures.dead != dead,
        None => false,
    }
}

/// The number of samples at which it reports next, once `until` samples have come.
fn next_telling(until: Option<u64>, each: Option<u64>, samples: u64) -> Option<u64>
    ensures none { until ≡ None → result ≡ None }
{
    match until {
        Some(until) if samples >= until => Some(until.saturating_add(each.unwrap_or(u64::MAX))),
        _ => until,
    }
}

/// That no line was found, and why.
///
/// # Errors
/// `AllocError` if there is no memory.
fn text_of_no_line(
    alloc: Global,
    figures: &Figures,
    period: Option<u64>,
    look: &Look,
) -> Result<String, AllocError>
    ensures { IfOk result (λ text. (why : List ℕ) × (text.bytes.items ≡ no_line_text figures.now period why)) }
{
    let reason = look.reason(alloc)?;
    no_line_text(alloc, figures, period, &reason)
}

/// Says what was found in all, or that no line was found, and returns the exit status.
fn say_end<E: Sink>(
    alloc: Global,
    job: &Job<'_>,
    look: &Look,
    recovery: &Recovery,
    messages: &mut E,
) -> u8
    requires { E.failed messages.old + 1 < 2 ^ 64 }
    ensures said { EndSaid IsNothing job.now recovery.now
        (movement_of E.taken E.failed messages.old messages.new) result }
    ensures messages_passed_on { E.failed messages.new ≡ E.failed messages.old
        → E.passed messages.new ≡ E.taken messages.new }
    ensures failed { E.failed messages.new ≤ E.failed messages.old + 1 }
    ensures no_fewer_failures { E.failed messages.old ≤ E.failed messages.new }
{
    let figures = recovery.figures();
    if figures.measured == 0 {
        match text_of_no_line(alloc, &figures, job.period, look) {
            Ok(text) => {
                say(&text, messages);
                NO_LINE
            }
            Err(_) => say_memory(messages),
        }
    } else {
        match found_text(alloc, &figures, job.rate) {
            Ok(text) => {
                say(&text, messages);
                DONE
            }
            Err(_) => say_memory(messages),
        }
    }
}

/// Recovers the cells of the line in the job's bit, or in the bit that was found. Returns the exit
/// status: 0 if a line was found, 1 if none was, 3 if the input, the output or memory failed.
///
/// Unless the sink failed, it has passed on all that it took, also if the input failed. The last
/// line of what was found is written to `messages`, which are flushed. Faults of `messages` change
/// nothing. If the line had too few edges in some samples, `sparse` has the first of them.
pub fn run_job<S: Source, T: Sink, E: Sink>(
    alloc: Global,
    job: &Job<'_>,
    found: Option<u8>,
    look: &Look,
    sparse: &Cell<Option<SparseSamples>>,
    source: &mut S,
    sink: &mut T,
    messages: &mut E,
) -> u8
    requires source_room { S.failed source.old + 1 < 2 ^ 64 }
    requires sink_room { T.failed sink.old + 1 < 2 ^ 64 }
    requires messages_room { E.failed messages.old + 3 < 2 ^ 64 }
    ensures ran { JobRan job.now found (S.has_ended source.new)
        (movement_of S.given S.failed source.old source.new)
        (movement_of T.taken T.failed sink.old sink.new)
        (movement_of E.taken E.failed messages.old messages.new) result }
    // With status 0 neither input nor output failed, and the sink has passed on all that it took.
    ensures well { result ≡ 0 → (S.failed source.new ≡ S.failed source.old)
        × (T.failed sink.new ≡ T.failed sink.old) × (T.passed sink.new ≡ T.taken sink.new) }
    ensures passed_on { T.passed sink.old ≡ T.taken sink.old → T.failed sink.new ≡ T.failed sink.old
        → T.passed sink.new ≡ T.taken sink.new }
    ensures messages { E.failed messages.new ≤ E.failed messages.old + 3 }
    ensures messages_passed_on { E.failed messages.new ≡ E.failed messages.old
        → E.passed messages.new ≡ E.taken messages.new }
{
    let unit = unit_of_job(job, found);
    say_bit(found, messages);
    let mut recovery = Recovery::new(job.form, job.period);
    let mut watch = EdgeWatch::new();
    match recover_telling(
        alloc,
        job,
        unit,
        &mut recovery,
        &mut watch,
        source,
        sink,
        messages,
    ) {
        Ok(_) => {
            sparse.set(watch.sparse());
            say_end(alloc, job, look, &recovery, messages)
        }
        Err(refusal) => say_refusal(refusal, messages),
    }
}

/// Says why words have no job to run, and returns the exit status: 0 for help, which is written to
/// the sink; 2 for a usage error; 3 if there is no memory or help can't be written.
pub fn report_fault<T: Sink, E: Sink>(fault: LineFault, sink: &mut T, messages: &mut E) -> u8
    requires sink_room { T.failed sink.old + 1 < 2 ^ 64 }
    requires messages_room { E.failed messages.old + 1 < 2 ^ 64 }
    ensures ran { FaultRan fault
        (movement_of T.taken T.failed sink.old sink.new)
        (movement_of E.taken E.failed messages.old messages.new) result }
    ensures passed_on { T.passed sink.old ≡ T.taken sink.old → T.failed sink.new ≡ T.failed sink.old
        → T.passed sink.new ≡ T.taken sink.new }
    ensures failed { E.failed messages.new ≤ E.failed messages.old + 1 }
    ensures messages_passed_on { E.passed messages.old ≡ E.taken messages.old
        → E.failed messages.new ≡ E.failed messages.old → E.passed messages.new ≡ E.taken messages.new }
{
    match fault {
        LineFault::Usage { text } => {
            say(&text, messages);
            USAGE
        }
        LineFault::Help { text } => match put_text(&text, sink) {
            Ok(()) => DONE,
            Err(_) => say_refusal(Refusal::Write, messages),
        },
        LineFault::Memory => say_memory(messages),
    }
}

/// Says why the words could not be read, or that there is no memory, and returns the exit status.
pub fn report_unread<E: Sink>(fault: Unread, messages: &mut E) -> u8
    requires { E.failed messages.old + 1 < 2 ^ 64 }
    ensures said { UnreadSaid fault
        (movement_of E.taken E.failed messages.old messages.new) result }
    ensures failed { E.failed messages.new ≤ E.failed messages.old + 1 }
    ensures messages_passed_on { E.failed messages.new ≡ E.failed messages.old
        → E.passed messages.new ≡ E.taken messages.new }
{
    match fault {
        Unread::NotUtf8 => {
            say("aes3-cells: the words are not UTF-8\n", messages);
            USAGE
        }
        Unread::Memory => say_memory(messages),
    }
}
