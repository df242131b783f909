//! The texts of usage errors.

ghost use Rattle.std.specs.Prelude.{◌≡◌, ◌++◌, IfOk};
ghost use Rattle.aes3_cli.specs.Wording.{EndsWithUsage, usage_end, usage_of};

use crate::help;
use std::alloc::{AllocError, Global};

/// The texts of `clap` before the usage, before the pointer to help, and before the tip that a word
/// can be passed as a value. No command here takes such a value.
const ENDS: [&str; 3] = [
    "\n\nUsage: ",
    "\n\nFor more information, try",
    "\n  tip: to pass '",
];

/// The beginning of `clap`'s text for an invalid value, and the text before the reason.
const INVALID: &str = "error: invalid value '";

const REASON: &str = "': ";

/// What each value is that `clap` reads as a number, by the name that `clap` has for it.
const NUMBERS: [(&str, &str); 7] = [
    ("<FROM>", "it is the number of a block, from 0 on"),
    ("<COUNT>", "it is a number of blocks, from 0 on"),
    ("<CHANNEL>", "it is 1 or 2"),
    (
        "<HZ>",
        "it is a number of frames a second, from 1 to 1,000,000",
    ),
    ("<CELLS>", "it is a number of cells, from 1 to 2^40"),
    ("<N>", "it is a number of seconds, from 1 to 3,600"),
    ("<0|1>", "it is 0 or 1"),
];

/// The usage of the command of this name; if there is no such command, the usage of the program.
pub fn usage_of(name: &str) -> &'static str
    ensures { result.now ≡ usage_of name.now }
{
    match name {
        "encode" => help::ENCODE.usage,
        "decode" => help::DECODE.usage,
        "normal" => help::NORMAL.usage,
        "check" => help::CHECK.usage,
        "watch" => help::WATCH.usage,
        "info" => help::INFO.usage,
        "show" => help::SHOW.usage,
        "scan" => help::SCAN.usage,
        "cut" => help::CUT.usage,
        "rewrite" => help::REWRITE.usage,
        "to-pcm" => help::TO_PCM.usage,
        "from-pcm" => help::FROM_PCM.usage,
        "to-wav" => help::TO_WAV.usage,
        "from-wav" => help::FROM_WAV.usage,
        "to-bits" => help::TO_BITS.usage,
        _ => help::PROGRAM.usage,
    }
}

/// Appends the usage of a command, and a pointer to the help.
///
/// # Errors
/// `AllocError` if there is no memory.
#[tactic(auto, unfolding(crate::specs::Wording::usage_end))]
pub fn add_usage(text: &mut String, usage: &str) -> Result<(), AllocError>
    ensures { IfOk result (λ _. text.new.bytes.items
        ≡ text.old.bytes.items ++ usage_end usage.now) }
{
    text.push_str("\n\nUsage: ")?;
    text.push_str(usage)?;
    text.push_str("\n\nFor more information, try '--help'.\n")
}

/// The text for words that `clap` rejects with this text. It says what a number has to be instead
/// of why it could not be read. It has no tip how to pass a word as a value. It has the usage of
/// the command, which `clap` leaves out of some texts.
///
/// # Errors
/// `AllocError` if there is no memory.
pub fn own_text(alloc: Global, text: &str, usage: &str) -> Result<String, AllocError>
    ensures { IfOk result (λ own. EndsWithUsage usage.now own.bytes.items) }
{
    let mut own = String::new(alloc);
    add_wrong(&mut own, wrong_of(text))?;
    add_usage(&mut own, usage)?;
    Ok(own)
}

/// What a text of `clap` says is wrong, without what follows.
fn wrong_of(text: &str) -> &str {
    let mut wrong = text;
    for end in ENDS {
        if let Some((before, _)) = wrong.rsplit_once(end) {
            wrong = before;
        }
    }
    wrong.trim_end()
}

/// Appends what is wrong; for a number, what it has to be instead of why it could not be read.
fn add_wrong(own: &mut String, wrong: &str) -> Result<(), AllocError> {
    match wrong.rsplit_once(REASON) {
        Some((front, reason)) if wrong.starts_with(INVALID) => {
            own.push_str(front)?;
            own.push_str(REASON)?;
            own.push_str(number_of(front).unwrap_or(reason))
        }
        _ => own.push_str(wrong),
    }
}

/// What the number has to be whose name is at the end of the text.
fn number_of(text: &str) -> Option<&'static str> {
    for (name, is) in NUMBERS {
        if text.ends_with(name) {
            return Some(is);
        }
    }
    None
}
