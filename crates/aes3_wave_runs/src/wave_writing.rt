//! Cells to a WAV file.

ghost use Rattle.std.specs.Prelude.{◌≡◌, ◌≢◌, ℕ, ◌+◌, ◌<◌, ◌≤◌, ◌^◌, ◌++◌, List, [], IfOk, false, true};
ghost use Rattle.aes3_cell.specs.Ends.{Grew, Told};
ghost use Rattle.aes3_forms_samples.specs.Formats.{narrowed};
ghost use Rattle.aes3_input.specs.Inputs.{cells_of};
ghost use Rattle.aes3_input.specs.Running.{InputRun, ends_of};
ghost use Rattle.aes3_lock.specs.Reports.{blocks};
ghost use Rattle.aes3_wave.specs.declared.header_writing.Depth.TheVariants.{Sixteen};
ghost use Rattle.aes3_wave_runs.specs.HeadedSamples.{IsQuiet, headed_cells};
ghost use Rattle.aes3_wave_runs.specs.ToWav.{exact_pcm, exact_wave_cells, file_by, filled_pcm};
ghost use Rattle.aes3_wave_runs.specs.ToWav.{filled_wave_cells, format_of, valid_pcm};
ghost use Rattle.aes3_wave_runs.specs.ToWav.{valid_wave_cells, wave_cells, wave_of};

use crate::headed::{GivenBlocks, Headed};
use crate::options::{ExactWave, FilledWave, WaveWritten};
use aes3_cell::{Form, RunError, Sink, Source};
use aes3_engine::{
    BlockReporter, Exact, ExactBlocks, Fill, Filled, FilledBlocks, Listener, MendedBlocks,
    ReportListener, SampleBlocks, ValidSampleBlocks, run_cells,
};
use aes3_forms_samples::SampleFormat;
use aes3_wave::Depth;

/// The form of the samples.
fn format_of(depth: Depth) -> SampleFormat
    ensures { result ≡ format_of depth }
{
    match depth {
        Depth::Sixteen => SampleFormat::S16,
        Depth::TwentyFour => SampleFormat::S24,
        Depth::ThirtyTwo => SampleFormat::S32,
    }
}

/// Reads cells, and writes the header of a file and after it the samples that a listener makes of
/// the cells.
///
/// # Errors
/// Those of `run_cells`.
fn run_headed<S: Source, T: Sink, L: Listener + GivenBlocks + Drop>(
    source: &mut S,
    sink: &mut T,
    max_bytes: u64,
    input: Form,
    depth: Depth,
    rate: Option<u32>,
    samples: L,
) -> Result<(WaveWritten, L), RunError>
    requires source_room { S.failed source.old + 1 < 2 ^ 64 }
    requires sink_room { T.failed sink.old + 1 < 2 ^ 64 }
    requires limit { max_bytes ≤ 2 ^ 40 }
    requires start { L.follows samples [] }
    requires quiet { IsQuiet L.marked (L.writes samples) }
    ensures { InputRun (headed_cells input depth rate L.marked (L.writes samples) L.finished)
        max_bytes (ends_of S.Source source.old source.new T.Sink sink.old sink.new) result }
{
    let headed: Headed<L> = Headed::new(depth, rate, samples);
    let (counts, headed) = run_cells(source, sink, max_bytes, input, headed)?;
    let written = WaveWritten {
        counts,
        named: headed.header.named,
    };
    Ok((written, headed.samples))
}

/// Reads cells from any cell on, and writes a WAV file of the samples of the whole, closed blocks
/// in them. The file is a header, whose lengths say that they are not known, and then exactly what
/// `to_pcm` writes. The header is written with the first block.
///
/// The sampling frequency is `rate` in hertz. If that is `None`, it is the frequency that the
/// channel status of channel 1 in the first block names, or else 48,000 Hz.
///
/// # Errors
/// Those of `to_pcm`. The header and the samples of the blocks that were decided before are
/// written; after `Write`, a front of them.
pub fn to_wav<S: Source, T: Sink>(
    source: &mut S,
    sink: &mut T,
    max_bytes: u64,
    input: Form,
    depth: Depth,
    rate: Option<u32>,
) -> Result<WaveWritten, RunError>
    requires source_room { S.failed source.old + 1 < 2 ^ 64 }
    requires sink_room { T.failed sink.old + 1 < 2 ^ 64 }
    requires limit { max_bytes ≤ 2 ^ 40 }

    // If it returns Ok, the file of exactly the whole, closed blocks in the input is written.
    ensures file { IfOk result (λ _. (b : List ℕ) → Told (S.given source.old) (S.given source.new) b
        → Grew (T.taken sink.old) (T.taken sink.new) (wave_of depth rate (blocks (cells_of input b)))) }

    // What it returns for every input, and what it has written then.
    ensures run { InputRun (wave_cells input depth rate) max_bytes
        (ends_of S.Source source.old source.new T.Sink sink.old sink.new) result }
{
    let writer = SampleBlocks {
        format: format_of(depth),
    };
    let samples = ReportListener {
        reporter: BlockReporter { writer },
    };
    let (written, _) = run_headed(source, sink, max_bytes, input, depth, rate, samples)?;
    Ok(written)
}

/// Does what [`to_wav`] does with the samples of `to_valid_pcm`: zero for each that is not valid.
///
/// # Errors
/// Those of `to_wav`.
pub fn to_valid_wav<S: Source, T: Sink>(
    source: &mut S,
    sink: &mut T,
    max_bytes: u64,
    input: Form,
    depth: Depth,
    rate: Option<u32>,
) -> Result<WaveWritten, RunError>
    requires source_room { S.failed source.old + 1 < 2 ^ 64 }
    requires sink_room { T.failed sink.old + 1 < 2 ^ 64 }
    requires limit { max_bytes ≤ 2 ^ 40 }

    // If it returns Ok, the file of these samples is written.
    ensures file { IfOk result (λ _. (b : List ℕ) → Told (S.given source.old) (S.given source.new) b
        → Grew (T.taken sink.old) (T.taken sink.new)
        (file_by depth rate false (valid_pcm depth) (cells_of input b))) }

    // What it returns for every input, and what it has written then.
    ensures run { InputRun (valid_wave_cells input depth rate) max_bytes
        (ends_of S.Source source.old source.new T.Sink sink.old sink.new) result }
{
    let writer = ValidSampleBlocks {
        format: format_of(depth),
    };
    let samples = ReportListener {
        reporter: BlockReporter { writer },
    };
    let (valid, _) = run_headed(source, sink, max_bytes, input, depth, rate, samples)?;
    Ok(valid)
}

/// Does what [`to_exact_wav`] does, in 16 bits.
fn to_exact_16<S: Source, T: Sink>(
    source: &mut S,
    sink: &mut T,
    max_bytes: u64,
    input: Form,
    rate: Option<u32>,
) -> Result<ExactWave, RunError>
    requires source_room { S.failed source.old + 1 < 2 ^ 64 }
    requires sink_room { T.failed sink.old + 1 < 2 ^ 64 }
    requires limit { max_bytes ≤ 2 ^ 40 }
    ensures { InputRun (exact_wave_cells input Sixteen rate) max_bytes
        (ends_of S.Source source.old source.new T.Sink sink.old sink.new) result }
{
    let samples = ReportListener {
        reporter: ExactBlocks::new(),
    };
    let (written, samples) = run_headed(
        source,
        sink,
        max_bytes,
        input,
        Depth::Sixteen,
        rate,
        samples,
    )?;
    Ok(ExactWave {
        exact: Exact {
            counts: written.counts,
            refused: samples.reporter.refused,
        },
        named: written.named,
    })
}

/// Does what [`to_exact_wav`] does, in a width that holds 24 bits, so that no sample loses any.
fn to_exact_24<S: Source, T: Sink>(
    source: &mut S,
    sink: &mut T,
    max_bytes: u64,
    input: Form,
    depth: Depth,
    rate: Option<u32>,
) -> Result<ExactWave, RunError>
    requires source_room { S.failed source.old + 1 < 2 ^ 64 }
    requires sink_room { T.failed sink.old + 1 < 2 ^ 64 }
    requires limit { max_bytes ≤ 2 ^ 40 }
    requires wide { depth ≢ Sixteen }
    ensures { InputRun (exact_wave_cells input depth rate) max_bytes
        (ends_of S.Source source.old source.new T.Sink sink.old sink.new) result }
{
    let written = to_wav(source, sink, max_bytes, input, depth, rate)?;
    Ok(ExactWave {
        exact: Exact {
            counts: written.counts,
            refused: None,
        },
        named: written.named,
    })
}

/// Does what [`to_wav`] does with the samples of `to_exact_pcm`: up to the first block whose
/// samples would lose bits in this width. The place of that block is returned at the end.
///
/// # Errors
/// Those of `to_wav`.
pub fn to_exact_wav<S: Source, T: Sink>(
    source: &mut S,
    sink: &mut T,
    max_bytes: u64,
    input: Form,
    depth: Depth,
    rate: Option<u32>,
) -> Result<ExactWave, RunError>
    requires source_room { S.failed source.old + 1 < 2 ^ 64 }
    requires sink_room { T.failed sink.old + 1 < 2 ^ 64 }
    requires limit { max_bytes ≤ 2 ^ 40 }

    // If it returns Ok, the file of these samples is written.
    ensures file { IfOk result (λ _. (b : List ℕ) → Told (S.given source.old) (S.given source.new) b
        → Grew (T.taken sink.old) (T.taken sink.new)
        (file_by depth rate false (exact_pcm depth) (cells_of input b))) }

    // What it returns for every input, and what it has written then.
    ensures run { InputRun (exact_wave_cells input depth rate) max_bytes
        (ends_of S.Source source.old source.new T.Sink sink.old sink.new) result }
{
    match depth {
        Depth::Sixteen => to_exact_16(source, sink, max_bytes, input, rate),
        Depth::TwentyFour => to_exact_24(source, sink, max_bytes, input, depth, rate),
        Depth::ThirtyTwo => to_exact_24(source, sink, max_bytes, input, depth, rate),
    }
}

/// Does what [`to_filled_wav`] does, and gives no marked block.
fn to_filled_whole<S: Source, T: Sink>(
    source: &mut S,
    sink: &mut T,
    max_bytes: u64,
    input: Form,
    depth: Depth,
    rate: Option<u32>,
    fill: Fill,
) -> Result<FilledWave, RunError>
    requires source_room { S.failed source.old + 1 < 2 ^ 64 }
    requires sink_room { T.failed sink.old + 1 < 2 ^ 64 }
    requires limit { max_bytes ≤ 2 ^ 40 }
    ensures { InputRun (filled_wave_cells input depth rate fill false) max_bytes
        (ends_of S.Source source.old source.new T.Sink sink.old sink.new) result }
{
    let samples = ReportListener {
        reporter: FilledBlocks::new(fill, format_of(depth)),
    };
    let (written, samples) = run_headed(source, sink, max_bytes, input, depth, rate, samples)?;
    Ok(FilledWave {
        filled: Filled {
            counts: written.counts,
            frames: samples.reporter.frames(written.counts.blocks, 0),
            marked: 0,
        },
        named: written.named,
    })
}

/// Does what [`to_filled_wav`] does, and gives the marked blocks.
fn to_filled_marked<S: Source, T: Sink>(
    source: &mut S,
    sink: &mut T,
    max_bytes: u64,
    input: Form,
    depth: Depth,
    rate: Option<u32>,
    fill: Fill,
) -> Result<FilledWave, RunError>
    requires source_room { S.failed source.old + 1 < 2 ^ 64 }
    requires sink_room { T.failed sink.old + 1 < 2 ^ 64 }
    requires limit { max_bytes ≤ 2 ^ 40 }
    ensures { InputRun (filled_wave_cells input depth rate fill true) max_bytes
        (ends_of S.Source source.old source.new T.Sink sink.old sink.new) result }
{
    let samples = MendedBlocks::new(fill, format_of(depth));
    let (written, samples) = run_headed(source, sink, max_bytes, input, depth, rate, samples)?;
    Ok(FilledWave {
        filled: Filled {
            counts: written.counts,
            frames: samples.filled.frames(written.counts.blocks, samples.marked),
            marked: samples.marked,
        },
        named: written.named,
    })
}

/// Does what [`to_wav`] does with the samples of `to_filled_pcm`: frames between them fill the time
/// that no block covers. If `marked` is true, marked blocks are given too. A marked block names no
/// sampling frequency, as its channel status may be wrong.
///
/// # Errors
/// Those of `to_wav`.
pub fn to_filled_wav<S: Source, T: Sink>(
    source: &mut S,
    sink: &mut T,
    max_bytes: u64,
    input: Form,
    depth: Depth,
    rate: Option<u32>,
    fill: Fill,
    marked: bool,
) -> Result<FilledWave, RunError>
    requires source_room { S.failed source.old + 1 < 2 ^ 64 }
    requires sink_room { T.failed sink.old + 1 < 2 ^ 64 }
    requires limit { max_bytes ≤ 2 ^ 40 }

    // If it returns Ok, the file of these samples is written.
    ensures file { IfOk result (λ _. (b : List ℕ) → Told (S.given source.old) (S.given source.new) b
        → Grew (T.taken sink.old) (T.taken sink.new)
        (file_by depth rate marked (filled_pcm depth fill marked) (cells_of input b))) }

    // What it returns for every input, and what it has written then.
    ensures run { InputRun (filled_wave_cells input depth rate fill marked) max_bytes
        (ends_of S.Source source.old source.new T.Sink sink.old sink.new) result }
{
    if marked {
        to_filled_marked(source, sink, max_bytes, input, depth, rate, fill)
    } else {
        to_filled_whole(source, sink, max_bytes, input, depth, rate, fill)
    }
}
