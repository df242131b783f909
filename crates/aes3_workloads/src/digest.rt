//! A sink that keeps a digest of its bytes.

ghost use Rattle.std.specs.Prelude.{ℕ, List, ◌≡◌, ◌+◌, ◌<◌, ◌≤◌, ◌^◌};
ghost use Rattle.std.specs.Prelude.{IfOk, OnErr, length, take};
ghost use Rattle.std.specs.Option.{is_some};
ghost use Rattle.aes3_cell.specs.Ends.{Grew, untold};

use aes3_cell::{Fault, Sink};

/// How many bytes are digested at once.
const CHUNK: usize = 64;

/// Takes bytes in pieces of any size; its digest depends on their order and not on the pieces.
#[derive(Drop)]
pub struct Digest {
    lanes: [u64; 8],
    /// The bytes that wait for a whole chunk.
    held: [u8; CHUNK],
    waiting: usize,
    bytes: u64,
    ghost few: { waiting < 64 },
}

impl Digest {
    /// A digest of no bytes.
    pub fn new() -> Self {
        Digest {
            lanes: [1, 2, 3, 4, 5, 6, 7, 8],
            held: [0; CHUNK],
            waiting: 0,
            bytes: 0,
        }
    }

    /// How many bytes it took.
    pub fn count(&self) -> u64 {
        self.bytes
    }

    /// The digest of all bytes.
    pub fn sum(&self) -> u64 {
        let mut sum = self.bytes;
        for lane in self.lanes.iter() {
            sum = (sum.rotate_left(31) ^ *lane).wrapping_mul(0x9e37_79b9_7f4a_7c15);
        }
        for byte in self.held[..self.waiting].iter() {
            sum = (sum.rotate_left(31) ^ u64::from(*byte)).wrapping_mul(0x9e37_79b9_7f4a_7c15);
        }
        sum ^ sum >> 32
    }

    /// Takes a number as eight bytes.
    pub fn note(&mut self, number: u64) {
        self.take(&number.to_le_bytes());
    }

    /// Takes the bytes of a whole chunk.
    #[inline(always)]
    fn take_chunk(&mut self, chunk: &[u8; CHUNK]) {
        for i in 0..8 {
            let at = 8 * i;
            let word = u64::from_le_bytes([
                chunk[at],
                chunk[at + 1],
                chunk[at + 2],
                chunk[at + 3],
                chunk[at + 4],
                chunk[at + 5],
                chunk[at + 6],
                chunk[at + 7],
            ]);
            self.lanes[i] = self.lanes[i].rotate_left(23).wrapping_add(word);
        }
    }

    /// Appends bytes to those that wait, and returns how many.
    fn fill(&mut self, bytes: &[u8]) -> usize
        ensures { result ≤ length bytes.now }
    {
        let n = bytes.len().min(CHUNK - self.waiting);
        let end = self.waiting + n;
        self.held[self.waiting..end].copy_from_slice(&bytes[..n]);
        if end == CHUNK {
            let chunk = self.held;
            self.take_chunk(&chunk);
            self.waiting = 0;
        } else {
            self.waiting = end;
        }
        n
    }

    /// Takes bytes.
    pub fn take(&mut self, bytes: &[u8]) {
        self.bytes = self.bytes.wrapping_add(bytes.len() as u64);
        let at = if self.waiting > 0 {
            self.fill(bytes)
        } else {
            0
        };
        if self.waiting > 0 {
            return;
        }
        let rest = &bytes[at..];
        for chunk in rest.chunks_exact(CHUNK) {
            if let Some(chunk) = chunk.first_chunk() {
                self.take_chunk(chunk);
            }
        }
        self.fill(&rest[rest.len() / CHUNK * CHUNK..]);
    }
}

impl Sink for Digest {
    ghost taken = { λ _. untold };

    ghost passed = { λ _. untold };

    ghost failed = { λ _. 0 };

    fn write(&mut self, buf: &[u8]) -> Result<usize, Fault> {
        self.take(buf);
        Ok(buf.len())
    }

    fn flush(&mut self) -> Result<(), Fault> {
        Ok(())
    }

    fn failures(&self) -> u64 {
        0
    }

    fn takes_much(&self) -> bool {
        true
    }
}
