//! The job of a command with its options.

ghost use Rattle.std.specs.Prelude.{◌≡◌, ℕ, List, None, codes, IfOk, IfErr, map};
ghost use Rattle.clap.specs.Walk.{first_of};
ghost use Rattle.aes3_cli_arguments.specs.Jobs.{AreSettings, AsksFor, AsksToRead, AsksToStream, HasStatus};
ghost use Rattle.aes3_cli_arguments.specs.Jobs.{IsBadOptionOf, IsBadStatus};
ghost use Rattle.aes3_cli_arguments.specs.Jobs.{AreTaken, IsChange, IsChangeFaultOf, misuse_by};
ghost use Rattle.aes3_cli_arguments.specs.Jobs.{IsSettingsFaultOf, IsStatus, MayBeFlag, StandsIn};
ghost use Rattle.aes3_cli_arguments.specs.Jobs.{TellsSettings, form_by, input_by, is_set, lines_by, options_of};
ghost use Rattle.aes3_cli_arguments.specs.Jobs.{IsInexact, IsSampleChange, mends, option_at, refused_text, takes_change};
ghost use Rattle.aes3_cli_arguments.specs.Jobs.{takes_settings};
ghost use Rattle.aes3_cli_arguments.specs.declared.command_job.LineFault.TheVariants.{Refused};
ghost use Rattle.aes3_refusals.specs.declared.run_error.RunError.TheVariants.{BadStatusText, Inexact, Memory};

use crate::event_style::notation;
use crate::format::format;
use crate::preset::{Beginning, preset, preset_or};
use crate::setting_errors::settings_refused;
use crate::setting_texts::texts_for;
use crate::show::show;
use crate::status_digits::status_of_text;
use crate::to_bits::to_bits;
use crate::to_pcm::to_pcm;
use crate::value::{bit, flag, number};
use crate::watch::watch;
use crate::wave::{channels, is_professional, mono, to_wav};
use crate::words::words;
use aes3_cell::{Form, RunError};
use aes3_cli::help;
use aes3_cli_jobs::{Job, ReadWork, StreamWork};
use aes3_status::{Change, Lines, Settings, SettingsFault, settings_of_texts, takes_all};
use clap::ArgMatches;
use std::alloc::{AllocError, Global};

/// Why a command line is no job.
#[derive(Drop)]
pub enum LineFault {
    /// The words are a usage error; the text says why.
    Usage { text: String },
    /// The words ask for help, the version or the meaning of errors; the text is the answer.
    Help { text: String },
    /// A status text is invalid, or there is no memory.
    Refused(RunError),
}

impl From<AllocError> for LineFault {
    ghost from_gives = { λ _ fault. fault ≡ Refused Memory };

    fn from(_error: AllocError) -> LineFault {
        LineFault::Refused(RunError::Memory)
    }
}

/// The job of a command with its options.
pub(crate) fn job_of_command(
    alloc: Global,
    name: &str,
    options: &ArgMatches<'_>,
) -> Result<Job, LineFault>
    requires stands { (words : List (List ℕ)) × StandsIn words name.now (options_of options.now) }
    requires fit { misuse_by (options_of options.now) ≡ None }
    ensures job { IfOk result (AsksFor name.now (options_of options.now)) }
    ensures fault { IfErr result (IsBadOptionOf name.now (options_of options.now)) }
{
    let input = input_form(options);
    let output = form(options, "packed-out");
    match name {
        "encode" => Ok(Job::Encode {
            output,
            words: words(options),
        }),
        "decode" => Ok(Job::Read {
            input,
            work: ReadWork::Decode {
                words: words(options),
            },
        }),
        "normal" => Ok(Job::Stream {
            input,
            output,
            work: StreamWork::Normal,
        }),
        "check" => Ok(Job::Read {
            input,
            work: check(options),
        }),
        "watch" => Ok(Job::Read {
            input,
            work: watch(options),
        }),
        "info" => Ok(Job::Read {
            input,
            work: ReadWork::Info {
                notation: notation(options),
            },
        }),
        "show" => Ok(Job::Read {
            input,
            work: show(options),
        }),
        "scan" => Ok(Job::Read {
            input,
            work: ReadWork::Scan,
        }),
        "to-pcm" => Ok(Job::Read {
            input,
            work: to_pcm(options),
        }),
        "from-pcm" => from_pcm(alloc, options),
        "to-wav" => Ok(Job::Read {
            input,
            work: to_wav(options),
        }),
        "from-wav" => from_wav(alloc, options),
        "cut" => Ok(Job::Stream {
            input,
            output,
            work: StreamWork::Cut {
                from: number(options, "FROM"),
                count: number(options, "COUNT"),
            },
        }),
        "rewrite" => rewrite(alloc, options, input, output),
        "to-bits" => Ok(Job::Read {
            input,
            work: to_bits(options),
        }),
        _ => unreachable!(),
    }
}

/// The form of cells by a flag.
fn form(options: &ArgMatches<'_>, flag: &str) -> Form
    requires { MayBeFlag (options_of options.now) flag.now }
    ensures { result ≡ form_by (options_of options.now) flag.now }
{
    if options.get_flag(flag) {
        Form::Packed
    } else {
        Form::Text
    }
}

/// The form of the cells that are read: raw octets are read as packed cells.
fn input_form(options: &ArgMatches<'_>) -> Form
    requires raw { MayBeFlag (options_of options.now) (codes "raw-in") }
    requires packed { MayBeFlag (options_of options.now) (codes "packed-in") }
    ensures { result ≡ input_by (options_of options.now) }
{
    match form(options, "raw-in") {
        Form::Packed => Form::Packed,
        Form::Text => form(options, "packed-in"),
    }
}

/// Which reports get a line.
fn lines(options: &ArgMatches<'_>) -> Lines
    requires { MayBeFlag (options_of options.now) (codes "faults") }
    ensures { result ≡ lines_by (options_of options.now) }
{
    if options.get_flag("faults") {
        Lines::Faults
    } else {
        Lines::All
    }
}

/// What `check` does, with its options.
fn check(options: &ArgMatches<'_>) -> ReadWork
    requires faults { MayBeFlag (options_of options.now) (codes "faults") }
    requires gaps { MayBeFlag (options_of options.now) (codes "gaps") }
    ensures { AsksToRead (codes "check") (options_of options.now) result }
{
    let lines = lines(options);
    if options.get_flag("gaps") {
        ReadWork::Account { lines }
    } else {
        ReadWork::Check { lines }
    }
}

/// The job of `from-pcm` with its options.
fn from_pcm(alloc: Global, options: &ArgMatches<'_>) -> Result<Job, LineFault>
    requires { AreTaken (options_of options.now) }
    ensures job { IfOk result (AsksFor (codes "from-pcm") (options_of options.now)) }
    ensures fault { IfErr result (IsBadOptionOf (codes "from-pcm") (options_of options.now)) }
{
    let change = change(alloc, options, Beginning::Unclaimed, help::FROM_PCM.usage)?;
    sampling(options, change)
}

/// The job of `from-pcm` with this change. If all settings have to be taken and the status does not
/// take one, no block would; so the first block is an error.
fn sampling(options: &ArgMatches<'_>, change: Change) -> Result<Job, LineFault>
    requires taken { AreTaken (options_of options.now) }
    requires change { IsSampleChange (options_of options.now) change }
    ensures job { IfOk result (AsksFor (codes "from-pcm") (options_of options.now)) }
    ensures fault { IfErr result (λ fault. (fault ≡ Refused (Inexact 0))
        × IsInexact (options_of options.now)) }
{
    let exact = flag(options, "exact");
    let takes = takes_change(&change);
    if exact && !takes {
        return Err(LineFault::Refused(RunError::Inexact { at: 0 }));
    }
    Ok(Job::FromPcm {
        format: format(options),
        exact,
        change,
        words: words(options),
    })
}

/// The job of `from-wav` with its options. If no option gives a status, it is made for the header.
fn from_wav(alloc: Global, options: &ArgMatches<'_>) -> Result<Job, LineFault>
    requires { AreTaken (options_of options.now) }
    ensures job { IfOk result (AsksFor (codes "from-wav") (options_of options.now)) }
    ensures fault { IfErr result (IsBadOptionOf (codes "from-wav") (options_of options.now)) }
{
    let change = change(alloc, options, Beginning::OfEachBlock, help::FROM_WAV.usage)?;
    Ok(Job::FromWav {
        channels: channels(options),
        mono: mono(options),
        exact: flag(options, "exact"),
        professional: is_professional(options),
        change,
        words: words(options),
    })
}

/// Whether the status of a channel takes all its settings.
fn takes_settings(status: &Option<[u8; 24]>, settings: &Option<Settings>) -> bool
    ensures { result ≡ takes_settings status.now settings.now }
{
    match (status, settings) {
        (Some(status), Some(settings)) => takes_all(status, settings),
        (Some(_), None) => true,
        (None, _) => true,
    }
}

/// Whether the statuses of a change take all its settings.
fn takes_change(change: &Change) -> bool
    ensures { result ≡ takes_change change.now }
{
    takes_settings(&change.status1, &change.settings1)
        & takes_settings(&change.status2, &change.settings2)
}

/// The job of `rewrite` with its options.
fn rewrite(
    alloc: Global,
    options: &ArgMatches<'_>,
    input: Form,
    output: Form,
) -> Result<Job, LineFault>
    requires taken { AreTaken (options_of options.now) }
    requires input { input ≡ input_by (options_of options.now) }
    requires output { output ≡ form_by (options_of options.now) (codes "packed-out") }
    ensures job { IfOk result (AsksFor (codes "rewrite") (options_of options.now)) }
    ensures fault { IfErr result (IsBadOptionOf (codes "rewrite") (options_of options.now)) }
{
    let exact = flag(options, "exact");
    let change = change(alloc, options, Beginning::OfEachBlock, help::REWRITE.usage)?;
    Ok(Job::Stream {
        input,
        output,
        work: StreamWork::Rewrite { change, exact },
    })
}

/// The change of the options of `rewrite`, `from-pcm` and `from-wav`. `beginning` is the status of
/// a channel for which they give none; `usage` is the usage of the command. An invalid setting is
/// reported before an invalid status.
fn change(
    alloc: Global,
    options: &ArgMatches<'_>,
    beginning: Beginning,
    usage: &str,
) -> Result<Change, LineFault>
    requires { AreTaken (options_of options.now) }
    ensures change { IfOk result (IsChange beginning (options_of options.now)) }
    ensures fault { IfErr result (IsChangeFaultOf (options_of options.now) usage.now) }
{
    let settings1 = settings(alloc, options, "set1", usage)?;
    let settings2 = settings(alloc, options, "set2", usage)?;
    let mend = mends(options, &settings1, &settings2);
    let other1 = beginning.status(&settings1);
    let other2 = beginning.status(&settings2);
    Ok(Change {
        status1: status(options, "status1", other1)?,
        status2: status(options, "status2", other2)?,
        settings1,
        settings2,
        validity1: bit(options, "valid1"),
        validity2: bit(options, "valid2"),
        clear_user1: flag(options, "clear-user1"),
        clear_user2: flag(options, "clear-user2"),
        mend,
    })
}

/// Whether check bytes are written: if asked, if a preset is named, or if a field is set.
fn mends(
    options: &ArgMatches<'_>,
    settings1: &Option<Settings>,
    settings2: &Option<Settings>,
) -> bool
    requires { MayBeFlag (options_of options.now) (codes "mend-check") }
    ensures { result ≡ mends (options_of options.now) settings1.now settings2.now }
{
    flag(options, "mend-check")
        || preset(options).is_some()
        || settings1.is_some()
        || settings2.is_some()
}

/// The channel status that an option gives, else that of the preset, else `other`.
fn status(
    options: &ArgMatches<'_>,
    name: &str,
    other: Option<[u8; 24]>,
) -> Result<Option<[u8; 24]>, LineFault>
    ensures status { IfOk result (IsStatus other (options_of options.now) name.now) }
    ensures fault { IfErr result (λ fault. (fault ≡ Refused BadStatusText)
        × IsBadStatus (options_of options.now) name.now) }
{
    let Some(text) = options.get_str(name) else {
        return Ok(preset_or(options, other));
    };
    match status_of_text(text) {
        Some(status) => Ok(Some(status)),
        None => Err(LineFault::Refused(RunError::BadStatusText)),
    }
}

/// The settings in the texts for the channel with this option; `usage` is the usage of the command.
fn settings(
    alloc: Global,
    options: &ArgMatches<'_>,
    name: &str,
    usage: &str,
) -> Result<Option<Settings>, LineFault>
    ensures settings { IfOk result (AreSettings (options_of options.now) name.now) }
    ensures fault { IfErr result (IsSettingsFaultOf (options_of options.now) name.now usage.now) }
{
    let texts = texts_for(alloc, options, name)?;
    if texts.is_empty() {
        return Ok(None);
    }
    match settings_of_texts(texts.as_slice()) {
        Ok(settings) => Ok(Some(settings)),
        Err(fault) => {
            let name = option_at(options, name, fault);
            Err(settings_fault(alloc, name, usage, texts.as_slice(), fault))
        }
    }
}

/// The option whose text is an invalid setting: that for both channels, or the channel's own.
fn option_at<'a>(options: &ArgMatches<'_>, name: &'a str, fault: SettingsFault) -> &'a str
    ensures { result.now ≡ option_at (options_of options.now) name.now fault }
{
    let both = options.get_strs("set").unwrap_or(&[]);
    match fault {
        SettingsFault::Unknown { at } if at < both.len() => "set",
        SettingsFault::Unknown { .. } => name,
        SettingsFault::TooMany => name,
    }
}

/// The error for texts that have no settings.
fn settings_fault(
    alloc: Global,
    name: &str,
    usage: &str,
    texts: &[&str],
    fault: SettingsFault,
) -> LineFault
    ensures { TellsSettings (refused_text name.now usage.now (map (λ text. text.now) texts.now)
        fault) result }
{
    match settings_refused(alloc, name, usage, texts, fault) {
        Ok(text) => LineFault::Usage { text },
        Err(_) => LineFault::Refused(RunError::Memory),
    }
}
