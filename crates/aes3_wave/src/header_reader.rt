//! What the reader of a header keeps.

ghost use Rattle.std.specs.Prelude.{◌≡◌, ◌<◌, ◌+◌};
ghost use Rattle.aes3_wave.specs.Frames.{stage_len};

use crate::chunk::{Known, MOST_HEAD, WaveHeader};

/// The part of a header that the next octet is in.
#[derive(Clone, Copy)]
pub(crate) enum Stage {
    /// The first twelve octets.
    First,
    /// Chunks before that of the samples.
    Chunks(Known),
    /// After the header.
    Whole(WaveHeader),
}

/// Reads the header of a WAV file in pieces of any size, in fixed memory.
#[derive(Drop)]
pub struct HeaderReader {
    /// How many octets it has taken.
    pub(crate) seen: u64,
    pub(crate) stage: Stage,
    /// The place in the file where the current chunk begins, or else the next one.
    pub(crate) at: u64,
    /// The octets of that chunk that were taken, and how many there are.
    pub(crate) held: [u8; MOST_HEAD],
    pub(crate) len: usize,
    /// How many octets to skip before the next chunk.
    pub(crate) left: u64,
    ghost few: { len < 48 },
    ghost place: { at + len ≡ seen + left },
    ghost frame: { stage_len stage < 65536 },
}
