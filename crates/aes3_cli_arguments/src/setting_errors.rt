//! The errors for invalid settings on a command line.

ghost use Rattle.std.specs.Prelude.{◌≡◌, ◌++◌, [], IfOk, get_or, map};
ghost use Rattle.aes3_cli_arguments.specs.Jobs.{fault_text, invalid_text, many_text, option_text, refused_text};
ghost use Rattle.aes3_cli_arguments.specs.Jobs.{value_text};

use aes3_status::{SettingsFault, add_choices};
use std::alloc::{AllocError, Global};

/// The text of this number, from 0; empty if there is none.
fn text_at<'a>(texts: &[&'a str], at: usize) -> &'a str
    ensures { result.now ≡ get_or (map (λ text. text.now) texts.now) at [] }
{
    match texts.get(at) {
        Some(text) => text,
        None => "",
    }
}

/// Appends that a text is no setting.
#[tactic(auto, unfolding(crate::specs::Jobs::value_text))]
fn add_value(text: &mut String, setting: &str) -> Result<(), AllocError>
    ensures { IfOk result (λ _. text.new.bytes.items ≡ text.old.bytes.items
        ++ value_text setting.now) }
{
    text.push_str("error: invalid value '")?;
    text.push_str(setting)?;
    text.push_str("' for ")?;
    Ok(())
}

/// Appends the option `--name` and ends the line.
#[tactic(auto, unfolding(crate::specs::Jobs::option_text))]
fn add_option(text: &mut String, name: &str) -> Result<(), AllocError>
    ensures { IfOk result (λ _. text.new.bytes.items ≡ text.old.bytes.items ++ option_text name.now) }
{
    text.push_str("'--")?;
    text.push_str(name)?;
    text.push_str(" <NAME=WORD>'\n")?;
    Ok(())
}

/// Appends that a text of the option `--name` is no setting, and the possible texts.
fn add_invalid(text: &mut String, name: &str, setting: &str) -> Result<(), AllocError>
    ensures { IfOk result (λ _. text.new.bytes.items
        ≡ text.old.bytes.items ++ invalid_text name.now setting.now) }
{
    add_value(text, setting)?;
    add_option(text, name)?;
    add_choices(text, setting)
}

/// Appends that the option `--name` has too many texts.
#[tactic(auto, unfolding(crate::specs::Jobs::many_text))]
fn add_many(text: &mut String, name: &str) -> Result<(), AllocError>
    ensures { IfOk result (λ _. text.new.bytes.items ≡ text.old.bytes.items ++ many_text name.now) }
{
    text.push_str("error: more than 32 of '--")?;
    text.push_str(name)?;
    text.push_str(" <NAME=WORD>'\n")
}

/// Appends why the texts of the option `--name` have no settings.
fn add_fault(
    text: &mut String,
    name: &str,
    texts: &[&str],
    fault: SettingsFault,
) -> Result<(), AllocError>
    ensures { IfOk result (λ _. text.new.bytes.items
        ≡ text.old.bytes.items ++ fault_text name.now (map (λ text. text.now) texts.now) fault) }
{
    match fault {
        SettingsFault::Unknown { at } => add_invalid(text, name, text_at(texts, at)),
        SettingsFault::TooMany => add_many(text, name),
    }
}

/// The text for texts of the option `--name` that have no settings, in the form of `clap`'s usage
/// errors; `usage` is the usage of the command.
///
/// # Errors
/// `AllocError` if there is no memory.
#[tactic(auto, unfolding(crate::specs::Jobs::refused_text))]
pub(crate) fn settings_refused(
    alloc: Global,
    name: &str,
    usage: &str,
    texts: &[&str],
    fault: SettingsFault,
) -> Result<String, AllocError>
    ensures { IfOk result (λ text. text.bytes.items
        ≡ refused_text name.now usage.now (map (λ text. text.now) texts.now) fault) }
{
    let mut text = String::new(alloc);
    add_fault(&mut text, name, texts, fault)?;
    text.push_str("\nUsage: ")?;
    text.push_str(usage)?;
    text.push_str("\n\nFor more information, try '--help'.\n")?;
    Ok(text)
}
