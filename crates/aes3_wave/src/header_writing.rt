//! Writing the header.

use arrayvec::ArrayVec;
use std::marker::Model;

/// How many octets a header has at most.
const MOST_LEN: usize = 104;

/// How many bits a written sample has.
#[derive(Clone, Copy, PartialEq, Eq)]
pub enum Depth {
    Sixteen,
    TwentyFour,
    ThirtyTwo,
}

/// The octets of a header.
#[derive(Drop)]
pub struct HeaderOctets {
    octets: ArrayVec<u8, MOST_LEN>,
}

impl Model for HeaderOctets {
    ghost use Rattle.std.specs.Prelude.{List, ℕ};

    ghost Value = { List ℕ };

    ghost view = { λ header. header.octets.items };
}

impl HeaderOctets {
    ghost use Rattle.std.specs.Prelude.{◌≡◌, ◌≤◌, ◌+◌, [], ◌++◌, length};

    /// No octets.
    fn new() -> Self
        ensures { result ≡ [] }
    {
        HeaderOctets {
            octets: ArrayVec::new(),
        }
    }

    /// Appends octets.
    fn put(&mut self, octets: &[u8])
        requires { length self.old + length octets.now ≤ MOST_LEN }
        ensures octets { self.new ≡ self.old ++ octets.now }
        ensures len { length self.new ≡ length self.old + length octets.now }
    {
        let _ = self.octets.try_extend_from_slice(octets);
    }

    /// All octets of the header.
    pub fn as_slice(&self) -> &[u8]
        ensures octets { result.now ≡ self.now }
        ensures len { length result.now ≤ MOST_LEN }
    {
        self.octets.as_slice()
    }
}

ghost use Rattle.std.specs.Prelude.{◌≡◌, ◌<◌, ◌≤◌, ◌+◌, ◌^◌, length};
ghost use Rattle.std.specs.Option.{ForSome};
ghost use Rattle.aes3_wave.specs.Written.{data_head, depth_bits, extension, file_len, format_chunk};
ghost use Rattle.aes3_wave.specs.Written.{format_len, format_tag, frame_octets, junk, per_second};
ghost use Rattle.aes3_wave.specs.Written.{rf64, riff, sizes, written, written_known};

/// The greatest number of 32 bits, for a length that is not known or needs 64 bits.
const NOT_NAMED: u32 = u32::MAX;

impl Depth {
    /// How many octets two samples have.
    fn frame_octets(self) -> u16
        ensures len { result ≡ frame_octets self }
        ensures few { result ≤ 8 }
        ensures some { 0 < result }
    {
        match self {
            Depth::Sixteen => 4,
            Depth::TwentyFour => 6,
            Depth::ThirtyTwo => 8,
        }
    }

    /// How many bits a sample has.
    fn bits(self) -> u16
        ensures { result ≡ depth_bits self }
    {
        match self {
            Depth::Sixteen => 16,
            Depth::TwentyFour => 24,
            Depth::ThirtyTwo => 32,
        }
    }

    /// How long the content of its `fmt ` chunk is.
    fn format_len(self) -> u32
        ensures len { result ≡ format_len self }
        ensures few { result ≤ 40 }
    {
        match self {
            Depth::Sixteen => 16,
            Depth::TwentyFour => 40,
            Depth::ThirtyTwo => 40,
        }
    }

    /// The number of its format: PCM, or extensible.
    fn format_tag(self) -> u16
        ensures { result ≡ format_tag self }
    {
        match self {
            Depth::Sixteen => 1,
            Depth::TwentyFour => 65_534,
            Depth::ThirtyTwo => 65_534,
        }
    }

    /// How many octets a second has, or the greatest number if it is less.
    fn per_second(self, rate: u32) -> u32
        ensures { result ≡ per_second self rate }
    {
        (rate as u64 * self.frame_octets() as u64).min(NOT_NAMED as u64) as u32
    }

    /// The part of an extensible format that a plain one doesn't have.
    fn extension(self) -> HeaderOctets
        ensures octets { result ≡ extension self }
        ensures len { length result + 16 ≡ format_len self }
    {
        let mut octets = HeaderOctets::new();
        match self {
            Depth::Sixteen => {}
            Depth::TwentyFour => octets.put(&EXTENSION_24),
            Depth::ThirtyTwo => octets.put(&EXTENSION_32),
        }
        octets
    }

    /// The `fmt ` chunk.
    fn format_chunk(self, rate: u32) -> HeaderOctets
        ensures chunk { result ≡ format_chunk self rate }
        ensures len { length result ≤ 48 }
    {
        let mut chunk = HeaderOctets::new();
        chunk.put(b"fmt ");
        chunk.put(&self.format_len().to_le_bytes());
        chunk.put(&self.format_tag().to_le_bytes());
        chunk.put(&[2, 0]);
        chunk.put(&rate.to_le_bytes());
        chunk.put(&self.per_second(rate).to_le_bytes());
        chunk.put(&self.frame_octets().to_le_bytes());
        chunk.put(&self.bits().to_le_bytes());
        chunk.put(self.extension().as_slice());
        chunk
    }
}

/// The part of the format of 24 bits that a plain one doesn't have: the length of what follows, the
/// number of valid bits, the two front speakers, and the GUID of PCM.
const EXTENSION_24: [u8; 24] = [
    22, 0, 24, 0, 3, 0, 0, 0, 1, 0, 0, 0, 0, 0, 16, 0, 128, 0, 0, 170, 0, 56, 155, 113,
];

/// The same part of the format of 32 bits.
const EXTENSION_32: [u8; 24] = [
    22, 0, 32, 0, 3, 0, 0, 0, 1, 0, 0, 0, 0, 0, 16, 0, 128, 0, 0, 170, 0, 56, 155, 113,
];

/// The first twelve octets of a file with 32-bit lengths.
fn riff(len: u32) -> HeaderOctets
    ensures octets { result ≡ riff len }
    ensures len { length result ≡ 12 }
{
    let mut octets = HeaderOctets::new();
    octets.put(b"RIFF");
    octets.put(&len.to_le_bytes());
    octets.put(b"WAVE");
    octets
}

/// The first twelve octets of a file with 64-bit lengths.
fn rf64() -> HeaderOctets
    ensures octets { result ≡ rf64 }
    ensures len { length result ≡ 12 }
{
    let mut octets = HeaderOctets::new();
    octets.put(b"RF64");
    octets.put(&NOT_NAMED.to_le_bytes());
    octets.put(b"WAVE");
    octets
}

/// A chunk that readers skip.
fn junk() -> HeaderOctets
    ensures octets { result ≡ junk }
    ensures len { length result ≡ 36 }
{
    let mut octets = HeaderOctets::new();
    octets.put(b"JUNK");
    octets.put(&[28, 0, 0, 0]);
    octets.put(&[0; 28]);
    octets
}

/// The chunk of 64-bit lengths.
fn sizes(all: u64, len: u64, frames: u64) -> HeaderOctets
    ensures octets { result ≡ sizes all len frames }
    ensures len { length result ≡ 36 }
{
    let mut octets = HeaderOctets::new();
    octets.put(b"ds64");
    octets.put(&[28, 0, 0, 0]);
    octets.put(&all.to_le_bytes());
    octets.put(&len.to_le_bytes());
    octets.put(&frames.to_le_bytes());
    octets.put(&[0; 4]);
    octets
}

/// The head of the chunk of the samples.
fn data_head(len: u32) -> HeaderOctets
    ensures octets { result ≡ data_head len }
    ensures len { length result ≡ 8 }
{
    let mut octets = HeaderOctets::new();
    octets.put(b"data");
    octets.put(&len.to_le_bytes());
    octets
}

/// The header of samples of `len` octets.
fn header_of_file(depth: Depth, rate: u32, len: u64) -> HeaderOctets
    requires { len < 2 ^ 63 }
    ensures { result ≡ written_known depth rate len }
{
    let all = len + (56 + depth.format_len() as u64);
    if all < NOT_NAMED as u64 {
        let mut header = riff(all as u32);
        header.put(junk().as_slice());
        header.put(depth.format_chunk(rate).as_slice());
        header.put(data_head(len as u32).as_slice());
        header
    } else {
        let mut header = rf64();
        let frames = len / depth.frame_octets() as u64;
        header.put(sizes(all, len, frames).as_slice());
        header.put(depth.format_chunk(rate).as_slice());
        header.put(data_head(NOT_NAMED).as_slice());
        header
    }
}

/// The header of a WAV file with samples of two channels, of `len` octets if that is known. From 4
/// GiB on it is RF64 (EBU Tech 3306). All headers of one depth have the same length. So the header
/// with the actual length can be written over the first one.
pub fn header_of(depth: Depth, rate: u32, len: Option<u64>) -> HeaderOctets
    requires { ForSome len (λ n. n < 2 ^ 63) }
    ensures { result ≡ written depth rate len }
{
    match len {
        Some(len) => header_of_file(depth, rate, len),
        None => {
            let mut header = riff(NOT_NAMED);
            header.put(junk().as_slice());
            header.put(depth.format_chunk(rate).as_slice());
            header.put(data_head(NOT_NAMED).as_slice());
            header
        }
    }
}
