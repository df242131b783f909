//! The values of options.

ghost use Rattle.std.specs.Prelude.{◌≡◌, ◌≤◌, ◌<◌, ◌^◌};
ghost use Rattle.std.specs.Option.{option_map};
ghost use Rattle.aes3_capture_runs.specs.Values.{before_in, bit_in, frequency_in, hertz_in, last_bit, octets_in};
ghost use Rattle.aes3_capture_runs.specs.Values.{hertz, parts_in, period_in, scaled_in, whole_in};

use aes3_capture_recovery::{LONGEST_PERIOD, SHORTEST_PERIOD};
use aes3_cli::number_of_text;

/// The number of octets of a sample in this text.
pub(crate) fn octets_of_text(text: &str) -> Option<usize>
    ensures { result ≡ octets_in text.now }
{
    match text {
        "1" => Some(1),
        "2" => Some(2),
        _ => None,
    }
}

/// The last bit of samples of this number of octets.
fn last_bit(octets: usize) -> u64
    ensures bit { result ≡ last_bit octets }
    ensures few { result ≤ 15 }
{
    if octets == 1 { 7 } else { 15 }
}

/// The bit in this text, for samples of this number of octets.
pub(crate) fn bit_of_text(text: &str, octets: usize) -> Option<u8>
    ensures { result ≡ bit_in octets text.now }
{
    let bit = number_of_text(text, 0, last_bit(octets))?;
    Some(bit as u8)
}

/// The text before the first occurrence of this character, and the text after it.
fn parts_of_text(text: &str, mark: char) -> Option<(&str, &str)>
    requires { mark < 128 }
    ensures { option_map (λ parts. (parts.0.now, parts.1.now)) result ≡ parts_in mark text.now }
{
    text.split_once(mark)
}

/// The text before this letter at the end of the text.
fn before_letter(text: &str, letter: char) -> Option<&str>
    requires { letter < 128 }
    ensures { option_map (λ number. number.now) result ≡ before_in letter text.now }
{
    match parts_of_text(text, letter) {
        Some((number, rest)) if rest.is_empty() => Some(number),
        _ => None,
    }
}

/// A number, and the number of digits by which its unit moves the decimal point.
fn scaled_of_text(text: &str) -> (&str, usize)
    ensures scaled { (result.0.now, result.1) ≡ scaled_in text.now }
    ensures few { result.1 ≤ 6 }
{
    if let Some(number) = before_letter(text, 'M') {
        return (number, 6);
    }
    if let Some(number) = before_letter(text, 'm') {
        return (number, 6);
    }
    if let Some(number) = before_letter(text, 'k') {
        return (number, 3);
    }
    match before_letter(text, 'K') {
        Some(number) => (number, 3),
        None => (text, 0),
    }
}

/// The number in a text of decimal digits without a sign.
fn whole_of_text(text: &str) -> Option<u64>
    ensures { result ≡ whole_in text.now }
{
    if text.starts_with('+') {
        None
    } else {
        number_of_text(text, 0, u64::MAX)
    }
}

/// The number 1 followed by `zeros` zeros.
fn power_of_ten(zeros: usize) -> u64
    requires { zeros ≤ 6 }
    ensures { result ≡ 10 ^ zeros }
{
    match zeros {
        0 => 1,
        1 => 10,
        2 => 100,
        3 => 1000,
        4 => 10_000,
        5 => 100_000,
        _ => 1_000_000,
    }
}

/// `whole` times `unit` plus `part` times `small`: a number from 1 to 2^64 - 1.
fn hertz(whole: u64, unit: u64, part: u64, small: u64) -> Option<u64>
    ensures { result ≡ hertz whole unit part small }
{
    let frequency = whole
        .checked_mul(unit)?
        .checked_add(part.checked_mul(small)?)?;
    if frequency == 0 {
        None
    } else {
        Some(frequency)
    }
}

/// The frequency of a number whose decimal point is moved by this number of digits.
fn hertz_of_text(number: &str, digits: usize) -> Option<u64>
    requires { digits ≤ 6 }
    ensures { result ≡ hertz_in digits number.now }
{
    match parts_of_text(number, '.') {
        None => hertz(whole_of_text(number)?, power_of_ten(digits), 0, 1),
        Some((whole, part)) => {
            if part.len() > digits {
                return None;
            }
            hertz(
                whole_of_text(whole)?,
                power_of_ten(digits),
                whole_of_text(part)?,
                power_of_ten(digits - part.len()),
            )
        }
    }
}

/// The frequency in Hz in a text: `24000000`, `24M`, `24m`, `24000k`, `44.1k`. It is not 0.
pub(crate) fn frequency_of_text(text: &str) -> Option<u64>
    ensures { result ≡ frequency_in text.now }
{
    let (number, digits) = scaled_of_text(text);
    hertz_of_text(number, digits)
}

/// The length of a cell in parts of a sample: a frame has 128 cells.
pub(crate) fn period_of(rate: u64, at: u64) -> Option<u64>
    ensures { result ≡ period_in rate at }
{
    if at == 0 {
        return None;
    }
    let period = (u128::from(rate) * 512 + u128::from(at / 2)) / u128::from(at);
    if period < u128::from(SHORTEST_PERIOD) || period > u128::from(LONGEST_PERIOD) {
        None
    } else {
        Some(period as u64)
    }
}
