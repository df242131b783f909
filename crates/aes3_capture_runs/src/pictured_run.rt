//! A picture of the capture of a job.

ghost use Rattle.std.specs.Prelude.{◌≡◌, ◌+◌, ◌<◌, ◌≤◌, ◌^◌, codes};
ghost use Rattle.std.specs.Option.{option_map};
ghost use Rattle.aes3_cli.specs.Options.{options_of};
ghost use Rattle.clap.specs.Walk.{first_of};

use crate::capture_job::{Job, unit_of_job};
use crate::edge_watch::SparseSamples;
use crate::job_run::{NO_LINE, run_job, say, say_memory};
use crate::look::Look;
use aes3_capture_picture::{Picture, PictureFault, PictureFile, Pictured};
use aes3_cell::{Sink, Source};
use aes3_cli::REFUSED;
use clap::ArgMatches;
use std::alloc::Global;
use std::cell::Cell;

/// The name of the file to which a picture is written, if an option names it.
pub(crate) fn picture_of_options<'a>(options: &ArgMatches<'a>) -> Option<&'a str>
    ensures { option_map (λ name. name.now) result ≡ first_of (codes "picture") (options_of options.now) }
{
    options.get_str("picture")
}

/// Runs the job as `run_job` does, draws a picture of the capture into the file of this name, and
/// returns the exit status. If the picture can't be written, the cells are written all the same,
/// and the status is 3.
pub(crate) fn run_pictured<S: Source + Drop, T: Sink, E: Sink>(
    rt: &HostRuntime,
    job: &Job<'_>,
    name: &str,
    found: Option<u8>,
    look: &Look,
    sparse: &Cell<Option<SparseSamples>>,
    source: S,
    sink: &mut T,
    messages: &mut E,
) -> u8
    requires source_room { S.failed source + 1 < 2 ^ 64 }
    requires sink_room { T.failed sink.old + 1 < 2 ^ 64 }
    requires messages_room { E.failed messages.old + 4 < 2 ^ 64 }
    ensures messages { E.failed messages.new ≤ E.failed messages.old + 4 }
{
    let file = match PictureFile::create(rt, name) {
        Ok(file) => file,
        Err(fault) => {
            say_fault(rt.alloc(), name, fault, messages);
            let mut source = source;
            run_job(
                rt.alloc(),
                job,
                found,
                look,
                sparse,
                &mut source,
                sink,
                messages,
            );
            return REFUSED;
        }
    };
    let picture = Picture::new(unit_of_job(job, found), job.period);
    let mut source = Pictured::new(source, picture);
    let status = run_job(
        rt.alloc(),
        job,
        found,
        look,
        sparse,
        &mut source,
        sink,
        messages,
    );
    if status > NO_LINE {
        file.remove(rt);
        return status;
    }
    draw(rt, job, name, source.into_picture(), file, status, messages)
}

/// Writes the picture, and returns the exit status: 3 if it can't be written, and else this one.
fn draw<E: Sink>(
    rt: &HostRuntime,
    job: &Job<'_>,
    name: &str,
    picture: Picture,
    file: PictureFile,
    status: u8,
    messages: &mut E,
) -> u8
    requires { E.failed messages.old + 1 < 2 ^ 64 }
    ensures messages { E.failed messages.new ≤ E.failed messages.old + 1 }
{
    let mut picture = picture;
    picture.finish();
    match picture.drawing(rt.alloc(), job.rate) {
        Ok(text) => match file.finish(rt, &text) {
            Ok(()) => status,
            Err(error) => {
                say_fault(rt.alloc(), name, PictureFault::System(error), messages);
                REFUSED
            }
        },
        Err(_) => {
            file.remove(rt);
            say_memory(messages)
        }
    }
}

/// Says why there is no picture.
fn say_fault<E: Sink>(alloc: Global, name: &str, fault: PictureFault, messages: &mut E)
    requires { E.failed messages.old + 1 < 2 ^ 64 }
    ensures messages { E.failed messages.new ≤ E.failed messages.old + 1 }
{
    let text = match fault {
        PictureFault::System(error) => {
            format!(in alloc; "aes3-cells: no picture was written to {name}: {error}\n")
        }
        PictureFault::Other => {
            format!(in alloc;
                "aes3-cells: {name} exists and is no SVG picture, so it was not replaced\n"
            )
        }
        PictureFault::Taken => {
            format!(in alloc;
                "aes3-cells: no picture was written to {name}: {name}.part exists, so remove or rename it, unless a run is writing it\n"
            )
        }
        PictureFault::Standard => {
            format!(in alloc;
                "aes3-cells: --picture needs the name of a file; standard output has the cells\n"
            )
        }
        PictureFault::Memory => format!(in alloc; "aes3-cells: memory was refused\n"),
    };
    if let Ok(text) = text {
        say(&text, messages);
    }
}
