//! The format of the samples.

ghost use Rattle.std.specs.Prelude.{◌≡◌, ◌≤◌, ◌<◌, ◌^◌, false, length, IfErr, IfOk};
ghost use Rattle.aes3_wave.specs.Formats.{container_len, container_of, format_number, format_of};
ghost use Rattle.aes3_wave.specs.Formats.{format_with, frame_len, has_number};
ghost use Rattle.aes3_wave.specs.Formats.{is_extensible, is_short, valid_bits, width_in, width_of};

use crate::header_error::{Cause, HeaderError};
use crate::octets::{u16_at, u32_at};

/// How many octets of a `fmt ` chunk describe PCM samples, with the eight before its content.
const PLAIN_LEN: usize = 24;

/// How many octets do if the format is extensible.
const EXTENSIBLE_LEN: usize = 48;

/// The number of an extensible format, which has its actual number in its GUID.
const EXTENSIBLE: u16 = 65_534;

/// The number of PCM.
const PCM: u16 = 1;

/// The end of a GUID that holds the number of a format, from its third octet on.
const GUID_END: [u8; 14] = [0, 0, 0, 0, 16, 0, 128, 0, 0, 170, 0, 56, 155, 113];

/// How many octets a sample has, the lowest first. A sample of one octet is unsigned, with 128 as
/// zero.
#[derive(Clone, Copy, PartialEq, Eq)]
pub enum Container {
    Octets1,
    Octets2,
    Octets3,
    Octets4,
}

/// How many of a sample's bits are valid, the highest ones.
#[derive(Clone, Copy, PartialEq, Eq)]
pub enum Width {
    Bits8,
    Bits16,
    Bits20,
    Bits24,
    Bits32,
}

/// The format of PCM samples.
#[derive(Clone, Copy, PartialEq, Eq)]
pub struct WaveFormat {
    /// How many channels a frame has, at least one.
    pub channels: u16,
    /// How many frames a second has.
    pub rate: u32,
    /// How many octets a sample has.
    pub container: Container,
    /// How many of the sample's bits are valid.
    pub width: Width,
}

impl Container {
    /// The number of octets.
    pub fn len(self) -> usize
        ensures len { result ≡ container_len self }
        ensures few { result ≤ 4 }
        ensures some { 0 < result }
    {
        match self {
            Container::Octets1 => 1,
            Container::Octets2 => 2,
            Container::Octets3 => 3,
            Container::Octets4 => 4,
        }
    }
}

impl WaveFormat {
    /// How many octets a frame has.
    pub fn frame_len(self) -> usize
        ensures len { result ≡ frame_len self }
        ensures few { result < 2 ^ 18 }
    {
        self.channels as usize * self.container.len()
    }
}

/// The container of a sample of this number of bits, at most 32.
fn container_of(bits: u16) -> Container
    ensures { result ≡ container_of bits }
{
    if bits <= 8 {
        Container::Octets1
    } else if bits <= 16 {
        Container::Octets2
    } else if bits <= 24 {
        Container::Octets3
    } else {
        Container::Octets4
    }
}

/// The width of this number of bits.
fn width_of(bits: u16) -> Option<Width>
    ensures { result ≡ width_of bits }
{
    match bits {
        8 => Some(Width::Bits8),
        16 => Some(Width::Bits16),
        20 => Some(Width::Bits20),
        24 => Some(Width::Bits24),
        32 => Some(Width::Bits32),
        _ => None,
    }
}

/// Whether a `fmt ` chunk that begins like this has an extensible format.
fn is_extensible(chunk: &[u8]) -> bool
    requires { PLAIN_LEN ≤ length chunk.now }
    ensures { result ≡ is_extensible chunk.now }
{
    u16_at(chunk, 8) == EXTENSIBLE
}

/// Whether a chunk has too few octets for its format.
fn is_short(chunk: &[u8]) -> bool
    ensures { result ≡ is_short chunk.now }
{
    chunk.len() < PLAIN_LEN || is_extensible(chunk) && chunk.len() < EXTENSIBLE_LEN
}

/// Whether the GUID of an extensible format holds a number.
fn has_number(chunk: &[u8]) -> bool
    requires { length chunk.now ≡ EXTENSIBLE_LEN }
    ensures { result ≡ has_number chunk.now }
{
    chunk[34..].starts_with(&GUID_END)
}

/// The number of the format.
fn format_number(chunk: &[u8]) -> u16
    requires long { is_short chunk.now ≡ false }
    requires few { length chunk.now ≤ EXTENSIBLE_LEN }
    ensures { result ≡ format_number chunk.now }
{
    if is_extensible(chunk) && has_number(chunk) {
        u16_at(chunk, 32)
    } else {
        u16_at(chunk, 8)
    }
}

/// How many bits of a sample are valid.
fn valid_bits(chunk: &[u8]) -> u16
    requires { is_short chunk.now ≡ false }
    ensures { result ≡ valid_bits chunk.now }
{
    if is_extensible(chunk) && u16_at(chunk, 26) != 0 {
        u16_at(chunk, 26)
    } else {
        u16_at(chunk, 22)
    }
}

/// The width of a sample with this number of valid bits.
fn width_in(chunk: &[u8], valid: u16) -> Option<Width>
    requires long { is_short chunk.now ≡ false }
    requires valid { valid ≡ valid_bits chunk.now }
    ensures { result ≡ width_in chunk.now }
{
    let bits = u16_at(chunk, 22);
    if bits < valid || bits > 32 {
        None
    } else {
        width_of(valid)
    }
}

/// The format of samples of this width.
fn format_with(chunk: &[u8], width: Width) -> Result<WaveFormat, HeaderError>
    requires long { is_short chunk.now ≡ false }
    requires width { width_in chunk.now ≡ Some width }
    ensures format { result ≡ format_with chunk.now (Some width) }
    ensures frame { IfOk result (λ format. frame_len format < 2 ^ 16) }
    ensures near { IfErr result (λ e. e.at ≤ 48) }
{
    let channels = u16_at(chunk, 10);
    let octets = u16_at(chunk, 20);
    let container = container_of(u16_at(chunk, 22));
    if octets as usize != channels as usize * container.len() {
        let cause = Cause::WrongFrame { octets };
        return Err(HeaderError { cause, at: 20 });
    }
    Ok(WaveFormat {
        channels,
        rate: u32_at(chunk, 12),
        container,
        width,
    })
}

/// The format that the first octets of a `fmt ` chunk describe.
///
/// # Errors
/// What is wrong with it, and where in the chunk.
#[tactic(auto, unfolding(crate::specs::Formats::format_of))]
pub(crate) fn format_of(chunk: &[u8]) -> Result<WaveFormat, HeaderError>
    requires { length chunk.now ≤ EXTENSIBLE_LEN }
    ensures format { result ≡ format_of chunk.now }
    ensures frame { IfOk result (λ format. frame_len format < 2 ^ 16) }
    ensures near { IfErr result (λ e. e.at ≤ 48) }
{
    if is_short(chunk) {
        return Err(HeaderError {
            cause: Cause::ShortFormat,
            at: 0,
        });
    }
    let format = format_number(chunk);
    if format != PCM {
        let cause = Cause::NotPcm { format };
        return Err(HeaderError { cause, at: 8 });
    }
    if u16_at(chunk, 10) == 0 {
        let cause = Cause::NoChannels;
        return Err(HeaderError { cause, at: 10 });
    }
    let bits = valid_bits(chunk);
    match width_in(chunk, bits) {
        Some(width) => format_with(chunk, width),
        None => Err(HeaderError {
            cause: Cause::WrongBits { bits },
            at: 22,
        }),
    }
}
