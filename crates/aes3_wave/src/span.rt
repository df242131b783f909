//! The octets of a file that are its samples.

ghost use Rattle.std.specs.Prelude.{◌≡◌, ◌≤◌, ◌++◌, List, ℕ, length, take};
ghost use Rattle.aes3_wave.specs.Samples.{up_to};

use crate::chunk::WaveHeader;

/// How many of the coming octets are samples, in pieces of any size.
#[derive(Clone, Copy, PartialEq, Eq)]
pub struct SampleSpan {
    /// How many are left; `None` if they go on to the end of the file.
    pub left: Option<u64>,
}

impl SampleSpan {
    /// All samples of a file with this header.
    pub fn of(header: &WaveHeader) -> Self
        ensures { result.left ≡ header.now.len }
    {
        SampleSpan { left: header.len }
    }

    /// Takes a piece of `len` octets, and returns how many of its first ones are samples.
    pub fn take(&mut self, len: usize) -> usize
        ensures within { result ≤ len }
        ensures samples { (piece more : List ℕ) → length piece ≡ len
            → up_to self.old.left (piece ++ more) ≡ take result piece ++ up_to self.new.left more }
    {
        match self.left {
            Some(left) => {
                let taken = left.min(len as u64);
                self.left = Some(left - taken);
                taken as usize
            }
            None => len,
        }
    }
}
