//! What the errors mean, and what to do: the texts of `--explain`.

ghost use Rattle.std.specs.Prelude.{◌≡◌, ◌++◌, [], ◌∷◌, List, ℕ, None, IfOk, IfSome, codes, map, ◌<◌};
ghost use Rattle.aes3_cli_arguments.specs.Explained.{CanBeExplained, IsExplanation, IsRefusalNumber, advice_of};
ghost use Rattle.aes3_cli_arguments.specs.Explained.{asks_to_explain};

use crate::command_job::LineFault;
use itoa::Buffer;
use std::alloc::{AllocError, Global};

/// How many errors there are.
const REFUSALS: u8 = 15;

/// The word that asks for these texts.
const EXPLAIN: &str = "--explain";

/// The beginning of the same word with a number.
const EXPLAIN_NUMBER: &str = "--explain=";

/// The text if the words after it are not the number of an error.
const UNKNOWN: &str = "error: the refusals have the numbers 1 to 15

Usage: aes3 --explain [NUMBER]

For more information, try '--help'.
";

/// What to do about the error of this number.
pub fn advice(number: u8) -> &'static str
    ensures { result.now ≡ advice_of number }
{
    match number {
        1 => "packed cells need `--packed-in`; a block file is for `aes3 encode`",
        2 => "cut or pad a block file to a multiple of 1,536 bytes, samples to whole frames",
        3 => "ALSA's words need `--words alsa`; in other words set these bits to 0",
        4 => "write the lowest byte of each word first, and the sample in bits 4 to 27",
        5 => "is it a folder, is it closed, or is the disk broken?",
        6 =>
            "make room on the disk; nothing is wrong if the reader of the output ended early, as `head` does",
        7 => "start a new run for the rest",
        8 => "it needs 2 MB",
        9 => "`--status1` and `--status2` take 24 bytes, two digits each",
        10 =>
            "the last octet counts the unused cells before it, 0 to 7, and these are 0; if it is missing, use `--raw-in`",
        11 =>
            "leave out `--exact` to drop these bits, or make samples of 24 bits first (`sox IN -b 24 OUT`)",
        12 =>
            "`aes3 from-wav` reads a WAV file; `sox FILE -t s32 -c 2 - | aes3 from-pcm` reads others",
        13 => {
            "leave out `--exact` to drop the bits or the setting, or set first what the setting needs (`greatest=24` before `word=24`)"
        }
        14 => "`sox FILE -b 24 -e signed NEW.wav` converts most WAV files to one that can be read",
        15 => "name two of its channels, counted from 1, as `--channels 1,1`",
        _ => "",
    }
}

/// What was wrong if the error of this number was reported; PLACE is the place in its line.
fn wrong(number: u8) -> &'static str {
    match number {
        1 => "a byte of cell text is neither `0`, `1` nor a separator; PLACE is its number",
        2 =>
            "the block file ends inside a block, or samples inside a frame; PLACE is how many bytes are left over",
        3 => "bits 0 to 3 of word PLACE are not zero",
        4 => "bit 31 of word PLACE is not the right parity",
        5 => "the input can't be read",
        6 => "the output can't be written",
        7 => "the input has more than 2^40 bytes",
        8 => "memory was refused",
        9 => "a status on the command line is not 48 hexadecimal digits",
        10 => "packed cells end wrongly, at octet PLACE",
        11 =>
            "with `--exact`, the sample word that begins at byte PLACE has bits below the highest 24",
        12 => "the input of `from-pcm` is a sound file and not bare samples",
        13 => {
            "with `--exact`, the block that begins at cell PLACE would lose bits of its samples, or can't take a setting"
        }
        14 => "the header of a WAV file is wrong at octet PLACE, or its samples are not PCM",
        15 => "the WAV file has only PLACE channels, and `--channels` names another",
        _ => "",
    }
}

/// Whether the words ask what errors mean.
pub fn asks_to_explain(words: &[&str]) -> bool
    ensures { result ≡ asks_to_explain (map (λ word. word.now) words.now) }
{
    match words.first() {
        Some(word) => *word == EXPLAIN,
        None => false,
    }
}

/// The number in the word `--explain=NUMBER`, if it is the only word.
pub(crate) fn explained_number<'a>(words: &[&'a str]) -> Option<&'a str>
    ensures some { IfSome result (λ number. map (λ word. word.now) words.now
        ≡ (codes "--explain=" ++ number.now) ∷ []) }
    ensures none { result ≡ None → (number : List ℕ) → ¬ (map (λ word. word.now) words.now
        ≡ (codes "--explain=" ++ number) ∷ []) }
{
    if words.len() == 1 {
        words[0].strip_prefix(EXPLAIN_NUMBER)
    } else {
        None
    }
}

/// The number of an error in the text.
fn refusal_number(text: &str) -> Option<u8>
    ensures some { IfSome result (IsRefusalNumber text.now) }
    ensures none { result ≡ None → (n : ℕ) → ¬ IsRefusalNumber text.now n }
{
    for number in 1..REFUSALS + 1 {
        if Buffer::new().format(number) == text {
            return Some(number);
        }
    }
    None
}

/// Appends what the error of this number means.
fn add(text: &mut String, number: u8) -> Result<(), AllocError> {
    text.push_str(Buffer::new().format(number))?;
    text.push_str(": ")?;
    text.push_str(wrong(number))?;
    text.push_str("\n    ")?;
    text.push_str(advice(number))?;
    text.push_str("\n")
}

/// What the errors of these numbers mean.
fn meanings(alloc: Global, first: u8, last: u8) -> Result<String, AllocError>
    requires { last < 255 }
{
    let mut text = String::new(alloc);
    for number in first..last + 1 {
        add(&mut text, number)?;
    }
    Ok(text)
}

/// The first and the last number of the errors that these words ask to explain.
fn asked_numbers(words: &[&str]) -> Option<(u8, u8)>
    ensures some { IfSome result (λ _. CanBeExplained (map (λ word. word.now) words.now)) }
    ensures few { IfSome result (λ numbers. numbers.1 < 255) }
    ensures none { result ≡ None → ¬ CanBeExplained (map (λ word. word.now) words.now) }
{
    if words.is_empty() {
        return Some((1, REFUSALS));
    }
    if words.len() > 1 {
        return None;
    }
    let number = refusal_number(words[0])?;
    Some((number, number))
}

/// The answer to the words after `--explain`: what the error of this number means, or without a
/// number what each error means. For other words it is the usage.
///
/// # Errors
/// `AllocError` if there is no memory.
pub fn explanation(alloc: Global, words: &[&str]) -> Result<LineFault, AllocError>
    ensures { IfOk result (IsExplanation (map (λ word. word.now) words.now)) }
{
    match asked_numbers(words) {
        Some((first, last)) => {
            let text = meanings(alloc, first, last)?;
            Ok(LineFault::Help { text })
        }
        None => {
            let text = String::from_str(alloc, UNKNOWN)?;
            Ok(LineFault::Usage { text })
        }
    }
}
