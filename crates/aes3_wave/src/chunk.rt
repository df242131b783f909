//! The chunks before the samples.

ghost use Rattle.std.specs.Prelude.{◌≡◌, ◌≤◌, ◌<◌, ◌+◌, ◌^◌, None, false, length, IfErr, IfOk};
ghost use Rattle.aes3_wave.specs.Chunks.{chunk_len, content_len, head_len, is_data, is_format};
ghost use Rattle.aes3_wave.specs.Chunks.{is_sizes, known_with, with_sizes};
ghost use Rattle.aes3_wave.specs.Formats.{frame_len};
ghost use Rattle.aes3_wave.specs.Frames.{known_len};
ghost use Rattle.aes3_wave.specs.Headers.{first_known, header_in, is_long, is_riff};
ghost use Rattle.aes3_wave.specs.Headers.{is_wave, named, samples_len};

use crate::header_error::{Cause, HeaderError};
use crate::octets::{u32_at, u64_at};
use crate::wave_format::{WaveFormat, format_of};

/// How many octets come before the content of a chunk: its name and its length.
pub(crate) const HEAD_LEN: usize = 8;

/// How many octets come before the first chunk of a file.
pub(crate) const FIRST_LEN: usize = 12;

/// How many octets of a chunk's content are needed at most: those of an extensible format.
const MOST_CONTENT: u32 = 40;

/// The same, including the octets before the content.
pub(crate) const MOST_HEAD: usize = 48;

/// The length that means that the length is not known, or is in `ds64`.
const NOT_NAMED: u64 = 4_294_967_295;

/// The header of a WAV file.
#[derive(Clone, Copy, PartialEq, Eq)]
pub struct WaveHeader {
    pub format: WaveFormat,
    /// The octet of the file at which the samples begin.
    pub start: u64,
    /// How many octets they have; `None` if they go on to the end of the file.
    pub len: Option<u64>,
}

/// What is known of a file before a chunk.
#[derive(Clone, Copy)]
pub(crate) struct Known {
    /// It is RF64 or BW64, whose lengths have 64 bits and are in a chunk `ds64`.
    pub is_long: bool,
    /// How many octets its samples have, by `ds64`.
    pub sizes: Option<u64>,
    pub format: Option<WaveFormat>,
}

/// What is decided by the first octets of a chunk.
#[derive(Clone, Copy)]
pub(crate) enum Step {
    /// Nothing, until more of them are there.
    More,
    /// What is known after the chunk, and how many octets it has.
    Next { known: Known, len: u64 },
    /// The samples come next.
    Samples(WaveHeader),
}

/// How long the content of a chunk is.
fn content_len(chunk: &[u8]) -> u32
    requires { HEAD_LEN ≤ length chunk.now }
    ensures { result ≡ content_len chunk.now }
{
    u32_at(chunk, 4)
}

/// How long a chunk is, with the octet that is added if its content has an odd length.
pub(crate) fn chunk_len(chunk: &[u8]) -> u64
    requires { HEAD_LEN ≤ length chunk.now }
    ensures len { result ≡ chunk_len chunk.now }
    ensures few { result < 2 ^ 33 }
{
    let len = content_len(chunk) as u64;
    HEAD_LEN as u64 + len + len % 2
}

/// Whether it is the chunk of the samples.
pub(crate) fn is_data(chunk: &[u8]) -> bool
    ensures { result ≡ is_data chunk.now }
{
    chunk.starts_with(b"data")
}

/// Whether a file that begins like this has 32-bit lengths.
fn is_riff(first: &[u8]) -> bool
    ensures { result ≡ is_riff first.now }
{
    first.starts_with(b"RIFF")
}

/// Whether it has 64-bit lengths.
fn is_long(first: &[u8]) -> bool
    ensures { result ≡ is_long first.now }
{
    first.starts_with(b"RF64") || first.starts_with(b"BW64")
}

/// Whether it is a sound file.
fn is_wave(first: &[u8]) -> bool
    requires { length first.now ≡ FIRST_LEN }
    ensures { result ≡ is_wave first.now }
{
    first[8..].starts_with(b"WAVE")
}

/// A length, if it is known.
fn named_len(greatest: u64, len: u64) -> Option<u64>
    ensures { result ≡ named greatest len }
{
    if len == 0 || len == greatest {
        None
    } else {
        Some(len)
    }
}

impl Known {
    /// What the first octets of a file say.
    ///
    /// # Errors
    /// `NotRiff` and `NotWave`.
    pub(crate) fn of_first(first: &[u8]) -> Result<Self, HeaderError>
        requires { length first.now ≡ FIRST_LEN }
        ensures known { result ≡ first_known first.now }
        ensures frame { IfOk result (λ known. known.format ≡ None) }
        ensures near { IfErr result (λ e. e.at ≤ MOST_HEAD) }
    {
        let is_long = is_long(first);
        if !is_riff(first) && !is_long {
            let cause = Cause::NotRiff;
            return Err(HeaderError { cause, at: 0 });
        }
        if !is_wave(first) {
            let cause = Cause::NotWave;
            return Err(HeaderError { cause, at: 8 });
        }
        Ok(Known {
            is_long,
            sizes: None,
            format: None,
        })
    }

    /// Whether it is the first chunk of the format.
    fn is_format(&self, chunk: &[u8]) -> bool
        ensures { result ≡ is_format self.now chunk.now }
    {
        chunk.starts_with(b"fmt ") && self.format.is_none()
    }

    /// Whether it is the first chunk of 64-bit lengths in a file with such lengths.
    fn is_sizes(&self, chunk: &[u8]) -> bool
        ensures { result ≡ is_sizes self.now chunk.now }
    {
        chunk.starts_with(b"ds64") && self.is_long && self.sizes.is_none()
    }

    /// How many of a chunk's first octets are needed.
    pub(crate) fn head_len(&self, chunk: &[u8]) -> usize
        requires { HEAD_LEN ≤ length chunk.now }
        ensures len { result ≡ head_len self.now chunk.now }
        ensures few { result ≤ MOST_HEAD }
        ensures some { HEAD_LEN ≤ result }
    {
        if self.is_format(chunk) || self.is_sizes(chunk) {
            HEAD_LEN + content_len(chunk).min(MOST_CONTENT) as usize
        } else {
            HEAD_LEN
        }
    }

    /// What is known after this chunk of 64-bit lengths.
    fn with_sizes(&self, head: &[u8]) -> Result<Self, HeaderError>
        ensures known { result ≡ with_sizes self.now head.now }
        ensures frame { IfOk result (λ known. known.format ≡ self.now.format) }
        ensures near { IfErr result (λ e. e.at ≤ MOST_HEAD) }
    {
        if head.len() < 24 {
            let cause = Cause::ShortSizes;
            return Err(HeaderError { cause, at: 0 });
        }
        Ok(Known {
            is_long: self.is_long,
            sizes: Some(u64_at(head, 16)),
            format: self.format,
        })
    }

    /// What is known after a chunk with these first octets.
    ///
    /// # Errors
    /// What is wrong with the chunk, and where in it.
    #[tactic(auto, unfolding(crate::specs::Chunks::known_with))]
    pub(crate) fn with(&self, head: &[u8]) -> Result<Self, HeaderError>
        requires { length head.now ≤ MOST_HEAD }
        ensures known { result ≡ known_with self.now head.now }
        ensures frame { known_len self.now.format < 2 ^ 16
            → IfOk result (λ known. known_len known.format < 2 ^ 16) }
        ensures near { IfErr result (λ e. e.at ≤ MOST_HEAD) }
    {
        if self.is_format(head) {
            return Ok(Known {
                is_long: self.is_long,
                sizes: self.sizes,
                format: Some(format_of(head)?),
            });
        }
        if self.is_sizes(head) {
            return self.with_sizes(head);
        }
        Ok(*self)
    }

    /// How many octets the samples have, if the length of their chunk is `len`.
    fn samples_len(&self, len: u32) -> Option<u64>
        ensures { result ≡ samples_len self.now len }
    {
        let len = len as u64;
        if len == NOT_NAMED && self.is_long {
            match self.sizes {
                Some(len) => named_len(u64::MAX, len),
                None => None,
            }
        } else {
            named_len(NOT_NAMED, len)
        }
    }

    /// The header whose last chunk begins at place `at`, with these octets.
    ///
    /// # Errors
    /// `NoFormat`.
    pub(crate) fn header(&self, at: u64, chunk: &[u8]) -> Result<WaveHeader, HeaderError>
        requires long { HEAD_LEN ≤ length chunk.now }
        requires room { at + 8 < 2 ^ 64 }
        ensures header { result ≡ header_in at self.now chunk.now }
        ensures frame { known_len self.now.format < 2 ^ 16
            → IfOk result (λ header. frame_len header.format < 2 ^ 16) }
    {
        match self.format {
            Some(format) => Ok(WaveHeader {
                format,
                start: at + HEAD_LEN as u64,
                len: self.samples_len(content_len(chunk)),
            }),
            None => Err(HeaderError {
                cause: Cause::NoFormat,
                at,
            }),
        }
    }
}
