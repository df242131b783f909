//! The channel status for a format of samples (AES3-2, IEC 60958-3).

ghost use Rattle.std.specs.Prelude.{◌≡◌, ◌<◌};
ghost use Rattle.aes3_status.specs.Bits.{status_bits};
ghost use Rattle.aes3_status.specs.Check.{CheckHolds};
ghost use Rattle.aes3_wave_runs.specs.Status.{Says, consumer_rate, consumer_status, greatest_code};
ghost use Rattle.aes3_wave_runs.specs.Status.{lacks_rate, lacks_width, professional_frequency};
ghost use Rattle.aes3_wave_runs.specs.Status.{professional_rate, professional_status, rate_of_status};
ghost use Rattle.aes3_wave_runs.specs.Status.{rate_of_consumer, rate_of_frequency};
ghost use Rattle.aes3_wave_runs.specs.Status.{rate_of_professional, status_for, word_code};

use aes3_status::{Status, with_check};
use aes3_wave::{WaveFormat, Width};

/// The use of a channel status.
#[derive(Clone, Copy, PartialEq, Eq)]
pub enum StatusUse {
    /// Consumer use (IEC 60958-3).
    Consumer,
    /// Professional use (AES3-2).
    Professional,
}

/// What a channel status can't say of a format.
#[derive(Clone, Copy, PartialEq, Eq)]
pub struct MissingCodes {
    /// Its sampling frequency, which has no code.
    pub rate: bool,
    /// Its width: 8 bits have no code, and of 32 bits only 24 are left.
    pub width: bool,
}

/// The code of a sampling frequency for consumer use (IEC 60958-3, byte 3 bits 0 to 3).
fn consumer_rate(rate: u32) -> u8
    ensures code { result ≡ consumer_rate rate }
    ensures few { result < 16 }
{
    match rate {
        44_100 => 0,
        48_000 => 2,
        32_000 => 3,
        22_050 => 4,
        24_000 => 6,
        88_200 => 8,
        768_000 => 9,
        96_000 => 10,
        176_400 => 12,
        192_000 => 14,
        _ => 1,
    }
}

/// The code of a sampling frequency for professional use (AES3-2, byte 0 bits 6 and 7).
fn professional_rate(rate: u32) -> u8
    ensures code { result ≡ professional_rate rate }
    ensures few { result < 4 }
{
    match rate {
        44_100 => 1,
        48_000 => 2,
        32_000 => 3,
        _ => 0,
    }
}

/// The code of the other sampling frequencies for professional use (AES3-2, byte 4 bits 3 to 6).
fn professional_frequency(rate: u32) -> u8
    ensures code { result ≡ professional_frequency rate }
    ensures few { result < 16 }
{
    match rate {
        24_000 => 1,
        96_000 => 2,
        192_000 => 3,
        22_050 => 9,
        88_200 => 10,
        176_400 => 11,
        _ => 0,
    }
}

/// The code of the greatest sample word length (IEC 60958-3, byte 4 bit 0).
fn greatest_code(width: Width) -> u8
    ensures code { result ≡ greatest_code width }
    ensures few { result < 2 }
{
    match width {
        Width::Bits8 => 0,
        Width::Bits16 => 0,
        Width::Bits20 => 0,
        Width::Bits24 => 1,
        Width::Bits32 => 1,
    }
}

/// The code of the sample word length under that greatest length (IEC 60958-3, byte 4 bits 1 to 3;
/// AES3-2, byte 2 bits 3 to 5).
fn word_code(width: Width) -> u8
    ensures code { result ≡ word_code width }
    ensures few { result < 8 }
{
    match width {
        Width::Bits8 => 0,
        Width::Bits16 => 1,
        Width::Bits20 => 5,
        Width::Bits24 => 5,
        Width::Bits32 => 5,
    }
}

/// The status for consumer use.
fn consumer_status(format: &WaveFormat) -> [u8; 24]
    ensures { result ≡ consumer_status format.now }
{
    let rate = consumer_rate(format.rate);
    let length = greatest_code(format.width) + 2 * word_code(format.width);
    [
        4, 0, 0, rate, length, 0, 0, 0, 0, 0, 0, 0, 0, 0, 0, 0, 0, 0, 0, 0, 0, 0, 0, 0,
    ]
}

/// The status for professional use, with its check byte.
fn professional_status(format: &WaveFormat) -> [u8; 24]
    ensures status { result ≡ professional_status format.now }
    ensures holds { CheckHolds (status_bits result) }
{
    let first = 5 + 64 * professional_rate(format.rate);
    let length = 4 * greatest_code(format.width) + 8 * word_code(format.width);
    let frequency = 8 * professional_frequency(format.rate);
    with_check([
        first, 8, length, 0, frequency, 0, 0, 0, 0, 0, 0, 0, 0, 0, 0, 0, 0, 0, 0, 0, 0, 0, 0, 0,
    ])
}

/// The channel status that describes samples of this format: linear PCM, their sampling frequency
/// and their length. For consumer use it also says that no copyright is asserted. For professional
/// use it says that there are two channels and no emphasis, and it has a check byte.
///
/// What it can't say is not indicated: see [`missing_codes`].
pub fn status_of(format: &WaveFormat, status_use: StatusUse) -> [u8; 24]
    ensures status { result ≡ status_for status_use format.now }
    ensures says { Says status_use format.now result }
{
    match status_use {
        StatusUse::Consumer => consumer_status(format),
        StatusUse::Professional => professional_status(format),
    }
}

/// Whether such a status has no code for a sampling frequency.
fn lacks_rate(rate: u32, status_use: StatusUse) -> bool
    ensures { result ≡ lacks_rate status_use rate }
{
    match status_use {
        StatusUse::Consumer => consumer_rate(rate) == 1,
        StatusUse::Professional => professional_rate(rate) == 0
            && professional_frequency(rate) == 0,
    }
}

/// Whether such a status has no code for the width of samples.
fn lacks_width(width: Width) -> bool
    ensures { result ≡ lacks_width width }
{
    match width {
        Width::Bits8 => true,
        Width::Bits16 => false,
        Width::Bits20 => false,
        Width::Bits24 => false,
        Width::Bits32 => true,
    }
}

/// What the status of [`status_of`] doesn't say of a format.
pub fn missing_codes(format: &WaveFormat, status_use: StatusUse) -> MissingCodes
    ensures rate { result.rate ≡ lacks_rate status_use format.now.rate }
    ensures width { result.width ≡ lacks_width format.now.width }
{
    MissingCodes {
        rate: lacks_rate(format.rate, status_use),
        width: lacks_width(format.width),
    }
}

/// The sampling frequency of a code for consumer use, in hertz.
fn rate_of_consumer(code: u8) -> Option<u32>
    ensures { result ≡ rate_of_consumer code }
{
    match code {
        0 => Some(44_100),
        2 => Some(48_000),
        3 => Some(32_000),
        4 => Some(22_050),
        6 => Some(24_000),
        8 => Some(88_200),
        9 => Some(768_000),
        10 => Some(96_000),
        12 => Some(176_400),
        14 => Some(192_000),
        _ => None,
    }
}

/// The sampling frequency of a code in byte 4 for professional use, in hertz.
fn rate_of_frequency(code: u8) -> Option<u32>
    ensures { result ≡ rate_of_frequency code }
{
    match code {
        1 => Some(24_000),
        2 => Some(96_000),
        3 => Some(192_000),
        9 => Some(22_050),
        10 => Some(88_200),
        11 => Some(176_400),
        _ => None,
    }
}

/// The sampling frequency of a code in byte 0 for professional use, or else of a code in byte 4, in
/// hertz.
fn rate_of_professional(code: u8, frequency: u8) -> Option<u32>
    ensures { result ≡ rate_of_professional code frequency }
{
    match code {
        1 => Some(44_100),
        2 => Some(48_000),
        3 => Some(32_000),
        _ => rate_of_frequency(frequency),
    }
}

/// The sampling frequency that a channel status names, in hertz; `None` if it names no frequency.
pub fn rate_of_status(status: &[u8; 24]) -> Option<u32>
    ensures { result ≡ rate_of_status status.now }
{
    match Status::read(status) {
        Status::Professional(status) => rate_of_professional(status.rate(), status.frequency()),
        Status::Consumer(status) => rate_of_consumer(status.rate()),
    }
}
