//! The result of a job that read its input to the end.

ghost use Rattle.std.specs.Prelude.{◌≡◌, [], ◌∷◌, Some, replicate};
ghost use Rattle.std.specs.Option.{unwrap_or};
ghost use Rattle.aes3_engine.specs.RewritingRuns.{taken_of};
ghost use Rattle.aes3_program.specs.Outcomes.{answer_as, exactness, of_counts, of_exact, of_filled};
ghost use Rattle.aes3_program.specs.Outcomes.{bits_of, of_converted, of_rewritten, of_samples, of_wave, of_words};
ghost use Rattle.aes3_program.specs.Outcomes.{exact_or, filled_remark, of_exact_wave, of_filled_wave, rate_remark};
ghost use Rattle.aes3_program.specs.Outcomes.{cut_remark, is_placeholder, missing_in, missing_of};
ghost use Rattle.aes3_program.specs.Outcomes.{refusal_of, run_answer, unsaid_format, wave_answer};
ghost use Rattle.aes3_wave_runs.specs.Status.{status_for};

use aes3_cell::{Counts, RunError};
use aes3_cli_jobs::Refusal;
use aes3_engine::{EncodedWords, Exact, Filled, Rewritten};
use aes3_status::{Change, Settings, Taken};
use aes3_wave::{WaveFormat, Width};
use aes3_wave_runs::{
    Converted, ExactWave, FilledWave, WaveError, WaveOptions, WaveWritten, missing_codes, status_of,
};

/// The settings of a channel, and which of them some block took.
#[derive(Clone, Copy, PartialEq, Eq)]
pub struct Met {
    /// The settings, if there are any.
    pub settings: Option<Settings>,
    /// Which of them some block took.
    pub taken: Taken,
}

/// The parts of a WAV file's format that a channel status has no code for.
#[derive(Clone, Copy, PartialEq, Eq)]
pub struct UnsaidFormat {
    /// The sampling frequency in hertz.
    pub rate: Option<u32>,
    /// How many bits of a sample are valid.
    pub bits: Option<u8>,
}

/// The remarks on standard error about a job that read its input to the end.
#[derive(Clone, Copy, PartialEq, Eq)]
pub enum Remark {
    /// Nothing.
    Nothing,
    /// This number of frames fill the time between blocks.
    Filled {
        frames: u64,
    },
    /// This number of words before the first block are left out.
    LeftOut {
        words: u64,
    },
    /// These settings were given for channel 1 and channel 2; those that no block took are
    /// reported.
    Settings {
        first: Met,
        second: Met,
    },
    /// Neither an option nor the first block names the sampling frequency of the WAV file that is
    /// written.
    UsualRate,
    /// The same, and this number of frames fill the time between blocks.
    FilledAtUsualRate {
        frames: u64,
    },
    /// The WAV file has no sample, and ends this number of bytes before its header says.
    CutShort {
        missing: u64,
    },
    /// The WAV file ends this number of bytes before its header says. The channel status has no
    /// code for these parts of its format. These settings were given for channel 1 and channel 2;
    /// those that the status did not take are reported.
    Wave {
        missing: Option<u64>,
        unsaid: UnsaidFormat,
        first: Met,
        second: Met,
    },
    /// The block at this place could not be written exactly. Neither this block nor the following
    /// ones are written, and the job ends with an error.
    Inexact {
        at: u64,
    },
}

/// The result of a job that read its input to the end.
#[derive(Clone, Copy, PartialEq, Eq)]
pub struct Outcome {
    /// Its counts.
    pub counts: Counts,
    /// The remarks on it.
    pub remark: Remark,
}

/// The result of a job without remarks.
pub(crate) fn plain(ran: Result<Counts, RunError>) -> Result<Outcome, RunError>
    ensures { result ≡ answer_as of_counts ran }
{
    Ok(Outcome {
        counts: ran?,
        remark: Remark::Nothing,
    })
}

/// The result of a job that fills time.
pub(crate) fn outcome_of_fill(ran: Result<Filled, RunError>) -> Result<Outcome, RunError>
    ensures { result ≡ answer_as of_filled ran }
{
    let filled = ran?;
    Ok(Outcome {
        counts: filled.counts,
        remark: Remark::Filled {
            frames: filled.frames,
        },
    })
}

/// The result of a job that reads words which may begin inside a block.
pub(crate) fn outcome_of_words(ran: Result<EncodedWords, RunError>) -> Result<Outcome, RunError>
    ensures { result ≡ answer_as of_words ran }
{
    let encoded = ran?;
    Ok(Outcome {
        counts: encoded.counts,
        remark: if encoded.left_out == 0 {
            Remark::Nothing
        } else {
            Remark::LeftOut {
                words: encoded.left_out,
            }
        },
    })
}

/// The remark on a job that gives blocks exactly, up to the first one that it can't give.
fn exactness(refused: Option<u64>) -> Remark
    ensures { result ≡ exactness refused }
{
    match refused {
        Some(at) => Remark::Inexact { at },
        None => Remark::Nothing,
    }
}

/// The result of such a job.
pub(crate) fn exact(ran: Result<Exact, RunError>) -> Result<Outcome, RunError>
    ensures { result ≡ answer_as of_exact ran }
{
    let exact = ran?;
    Ok(Outcome {
        counts: exact.counts,
        remark: exactness(exact.refused),
    })
}

/// The result of a job that changes the channel status of blocks.
pub(crate) fn outcome_of_rewrite(
    ran: Result<Rewritten, RunError>,
    change: &Change,
) -> Result<Outcome, RunError>
    ensures { result ≡ answer_as (of_rewritten change.now) ran }
{
    let rewritten = ran?;
    if rewritten.counts.blocks == 0 {
        return plain(Ok(rewritten.counts));
    }
    Ok(Outcome {
        counts: rewritten.counts,
        remark: Remark::Settings {
            first: Met {
                settings: change.settings1,
                taken: rewritten.first,
            },
            second: Met {
                settings: change.settings2,
                taken: rewritten.second,
            },
        },
    })
}

/// Which settings the status of blocks of samples takes, if there are any.
fn taken_of(status: &Option<[u8; 24]>, settings: &Option<Settings>) -> Taken
    ensures { result ≡ taken_of settings.now
        (unwrap_or status.now (replicate 24 0) ∷ []) }
{
    match settings {
        None => Taken::NOTHING,
        Some(settings) => {
            let mut taken = Taken::NOTHING;
            taken.add(&status.unwrap_or([0; 24]), settings);
            taken
        }
    }
}

/// The result of a job that makes blocks from samples: their status is the same in all.
pub(crate) fn outcome_of_samples(
    ran: Result<Counts, RunError>,
    change: &Change,
) -> Result<Outcome, RunError>
    ensures { result ≡ answer_as (of_samples change.now) ran }
{
    let counts = ran?;
    if counts.bytes == 0 {
        return plain(Ok(counts));
    }
    Ok(Outcome {
        counts,
        remark: Remark::Settings {
            first: Met {
                settings: change.settings1,
                taken: taken_of(&change.status1, &change.settings1),
            },
            second: Met {
                settings: change.settings2,
                taken: taken_of(&change.status2, &change.settings2),
            },
        },
    })
}

/// The remark on a WAV file, by the sampling frequency that an option gives and the one that its
/// first block names.
fn rate_remark(rate: Option<u32>, named: Option<u32>) -> Remark
    ensures { result ≡ rate_remark rate named }
{
    if rate.is_some() || named.is_some() {
        Remark::Nothing
    } else {
        Remark::UsualRate
    }
}

/// The remark on a WAV file with this number of frames that fill time.
fn filled_remark(frames: u64, rate: Option<u32>, named: Option<u32>) -> Remark
    ensures { result ≡ filled_remark frames rate named }
{
    if rate.is_some() || named.is_some() {
        Remark::Filled { frames }
    } else {
        Remark::FilledAtUsualRate { frames }
    }
}

/// The remark on a job that gives blocks exactly: that it ends with an error, or else this remark.
fn exact_or(refused: Option<u64>, remark: Remark) -> Remark
    ensures { result ≡ exact_or refused remark }
{
    match refused {
        Some(at) => Remark::Inexact { at },
        None => remark,
    }
}

/// The result of a job that writes a WAV file; `rate` is its sampling frequency, if one is given.
pub(crate) fn outcome_of_wave(
    ran: Result<WaveWritten, RunError>,
    rate: Option<u32>,
) -> Result<Outcome, RunError>
    ensures { result ≡ answer_as (of_wave rate) ran }
{
    let written = ran?;
    Ok(Outcome {
        counts: written.counts,
        remark: rate_remark(rate, written.named),
    })
}

/// The result of such a job that gives blocks exactly.
pub(crate) fn outcome_of_exact_wave(
    ran: Result<ExactWave, RunError>,
    rate: Option<u32>,
) -> Result<Outcome, RunError>
    ensures { result ≡ answer_as (of_exact_wave rate) ran }
{
    let written = ran?;
    Ok(Outcome {
        counts: written.exact.counts,
        remark: exact_or(written.exact.refused, rate_remark(rate, written.named)),
    })
}

/// The result of such a job that fills time.
pub(crate) fn outcome_of_filled_wave(
    ran: Result<FilledWave, RunError>,
    rate: Option<u32>,
) -> Result<Outcome, RunError>
    ensures { result ≡ answer_as (of_filled_wave rate) ran }
{
    let written = ran?;
    Ok(Outcome {
        counts: written.filled.counts,
        remark: filled_remark(written.filled.frames, rate, written.named),
    })
}

/// How many bits of a sample are valid.
fn bits_of(width: Width) -> u8
    ensures { result ≡ bits_of width }
{
    match width {
        Width::Bits8 => 8,
        Width::Bits16 => 16,
        Width::Bits20 => 20,
        Width::Bits24 => 24,
        Width::Bits32 => 32,
    }
}

/// What the status made for a format does not say of it; nothing if none is made for it.
fn unsaid_format(options: &WaveOptions, format: &WaveFormat) -> UnsaidFormat
    ensures { result ≡ unsaid_format options.now format.now }
{
    let missing = missing_codes(format, options.status_use);
    let is_made = options.change.status1.is_none() || options.change.status2.is_none();
    UnsaidFormat {
        rate: if is_made && missing.rate {
            Some(format.rate)
        } else {
            None
        },
        bits: if is_made && missing.width {
            Some(bits_of(format.width))
        } else {
            None
        },
    }
}

/// Whether a program that writes a WAV file to a pipe gives this length, as it can't know the right
/// one yet (sox and mplayer 0x7ffff000, arecord 0x7fffff00).
fn is_placeholder(len: u64) -> bool
    ensures { result ≡ is_placeholder len }
{
    (0x7fff_f000..0x8000_0000).contains(&len)
}

/// How many bytes of samples a file lacks that has `found` of them, if the header gives this length.
fn missing_in(len: Option<u64>, found: u64) -> Option<u64>
    ensures { result ≡ missing_in len found }
{
    match len {
        Some(len) if found < len && !is_placeholder(len) => Some(len - found),
        _ => None,
    }
}

/// How many bytes of samples a WAV file lacks that was read to its end.
fn missing_of(ran: &Converted) -> Option<u64>
    ensures { result ≡ missing_of ran.now }
{
    let found = ran.counts.bytes.saturating_sub(ran.header.start);
    missing_in(ran.header.len, found)
}

/// The remark on a WAV file without samples.
fn cut_remark(missing: Option<u64>) -> Remark
    ensures { result ≡ cut_remark missing }
{
    match missing {
        Some(missing) => Remark::CutShort { missing },
        None => Remark::Nothing,
    }
}

/// The status that blocks of a WAV file begin with: the given one, else the one for its format.
fn wave_status(
    given: Option<[u8; 24]>,
    options: &WaveOptions,
    format: &WaveFormat,
) -> Option<[u8; 24]>
    ensures { result ≡ Some (unwrap_or given (status_for options.now.status_use format.now)) }
{
    match given {
        Some(status) => Some(status),
        None => Some(status_of(format, options.status_use)),
    }
}

/// The result of a job that makes blocks from a WAV file: their status is the same in all.
fn outcome_of_conversion(ran: &Converted, options: &WaveOptions) -> Outcome
    ensures { result ≡ of_converted options.now ran.now }
{
    let format = &ran.header.format;
    let change = &options.change;
    let status1 = wave_status(change.status1, options, format);
    let status2 = wave_status(change.status2, options, format);
    let missing = missing_of(ran);
    if ran.counts.blocks == 0 {
        return Outcome {
            counts: ran.counts,
            remark: cut_remark(missing),
        };
    }
    Outcome {
        counts: ran.counts,
        remark: Remark::Wave {
            missing,
            unsaid: unsaid_format(options, format),
            first: Met {
                settings: change.settings1,
                taken: taken_of(&status1, &change.settings1),
            },
            second: Met {
                settings: change.settings2,
                taken: taken_of(&status2, &change.settings2),
            },
        },
    }
}

/// The error of a job, from the error of a run over a WAV file.
fn refusal_of(error: WaveError) -> Refusal
    ensures { result ≡ refusal_of error }
{
    match error {
        WaveError::Header(error) => Refusal::Header(error),
        WaveError::NoChannel { channels } => Refusal::NoChannel { channels },
        WaveError::Run(error) => Refusal::Run(error),
    }
}

/// The result of a run over a WAV file.
pub(crate) fn of_file(
    ran: Result<Converted, WaveError>,
    options: &WaveOptions,
) -> Result<Outcome, Refusal>
    ensures { result ≡ wave_answer options.now ran }
{
    match ran {
        Ok(converted_file) => Ok(outcome_of_conversion(&converted_file, options)),
        Err(error) => Err(refusal_of(error)),
    }
}

/// The result of any other job.
pub(crate) fn of_run(ran: Result<Outcome, RunError>) -> Result<Outcome, Refusal>
    ensures { result ≡ run_answer ran }
{
    match ran {
        Ok(outcome) => Ok(outcome),
        Err(error) => Err(Refusal::Run(error)),
    }
}
