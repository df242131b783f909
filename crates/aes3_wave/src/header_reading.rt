//! Reading a header.

ghost use Rattle.std.specs.Prelude.{◌≡◌, ◌<◌, ◌≤◌, ◌+◌, ◌++◌, ◌^◌, List, ℕ, [], None, Ok, length};
ghost use Rattle.std.specs.Prelude.{IfOk, IfSome, take};
ghost use Rattle.aes3_wave.specs.Following.{Decided, Follows, TookFront, TookOctet, TookPiece};
ghost use Rattle.aes3_wave.specs.Following.{header_of, missing};
ghost use Rattle.aes3_wave.specs.Formats.{frame_len};
ghost use Rattle.aes3_wave.specs.Frames.{known_len, step_len};
ghost use Rattle.aes3_wave.specs.Headers.{judged, judged_at_end};

use crate::chunk::{FIRST_LEN, HEAD_LEN, Known, MOST_HEAD, Step, WaveHeader, chunk_len, is_data};
use crate::header_error::{Cause, HeaderError};
use crate::header_reader::{HeaderReader, Stage};

impl Known {
    /// What is decided by the first octets of a chunk at place `at`.
    ///
    /// # Errors
    /// What is wrong with it, and where in the file.
    fn step(&self, at: u64, front: &[u8]) -> Result<Step, HeaderError>
        requires few { length front.now ≤ MOST_HEAD }
        requires room { at + MOST_HEAD < 2 ^ 64 }
        ensures decided { Decided (Stage.Chunks self.now) at front.now result }
        ensures frame { known_len self.now.format < 2 ^ 16
            → IfOk result (λ step. step_len step < 2 ^ 16) }
    {
        if front.len() < HEAD_LEN {
            return Ok(Step::More);
        }
        if is_data(front) {
            return Ok(Step::Samples(self.header(at, front)?));
        }
        let head_len = self.head_len(front);
        if front.len() < head_len {
            return Ok(Step::More);
        }
        match self.with(&front[..head_len]) {
            Ok(known) => Ok(Step::Next {
                known,
                len: chunk_len(front),
            }),
            Err(error) => Err(error.behind(at)),
        }
    }
}

/// What is decided by the first octets of a file.
///
/// # Errors
/// `NotRiff` and `NotWave`.
fn first_step(front: &[u8]) -> Result<Step, HeaderError>
    requires { length front.now ≤ MOST_HEAD }
    ensures decided { (at : ℕ) → Decided Stage.First at front.now result }
    ensures frame { IfOk result (λ step. step_len step < 2 ^ 16) }
{
    if front.len() < FIRST_LEN {
        return Ok(Step::More);
    }
    Ok(Step::Next {
        known: Known::of_first(&front[..FIRST_LEN])?,
        len: FIRST_LEN as u64,
    })
}

impl HeaderReader {
    /// A reader that has taken nothing.
    pub fn new() -> Self
        ensures { Follows result [] }
    {
        HeaderReader {
            seen: 0,
            stage: Stage::First,
            at: 0,
            held: [0; MOST_HEAD],
            len: 0,
            left: 0,
        }
    }

    /// The header, once it is whole. Then the next octet is the first one of the samples.
    pub fn header(&self) -> Option<WaveHeader>
        ensures stage { result ≡ header_of self.now.stage }
        ensures judged { (b : List ℕ) → Follows self.now b → judged b ≡ Ok result }
        ensures frame { IfSome result (λ header. frame_len header.format < 2 ^ 16) }
    {
        match self.stage {
            Stage::First => None,
            Stage::Chunks(_) => None,
            Stage::Whole(header) => Some(header),
        }
    }

    /// How many octets of a chunk's head are still to come.
    fn missing(&self, known: &Known) -> usize
        ensures missing { result ≡ missing known.now (take self.now.len self.now.held) }
        ensures few { result ≤ MOST_HEAD }
    {
        let front = &self.held[..self.len];
        if front.len() < HEAD_LEN {
            HEAD_LEN - front.len()
        } else {
            known.head_len(front).saturating_sub(front.len())
        }
    }

    /// The least number of octets that it takes until the header is whole or rejected; 0 once it is
    /// whole. A read of at most this number of octets goes no further than the header.
    pub fn wanted(&self) -> u64
        ensures some { (b : List ℕ) → Follows self.now b → judged b ≡ Ok None → 0 < result }
        ensures open { (b piece : List ℕ) → Follows self.now b → length piece < result
            → judged (b ++ piece) ≡ Ok None }
    {
        match self.stage {
            Stage::First => FIRST_LEN.saturating_sub(self.len) as u64,
            Stage::Chunks(known) => self.left.saturating_add(self.missing(&known) as u64),
            Stage::Whole(_) => 0,
        }
    }

    /// Takes the end of the file.
    ///
    /// # Errors
    /// `Ended` if the header is not whole.
    pub fn end(&self) -> Result<WaveHeader, HeaderError>
        ensures judged { (b : List ℕ) → Follows self.now b → result ≡ judged_at_end b }
        ensures frame { IfOk result (λ header. frame_len header.format < 2 ^ 16) }
    {
        match self.header() {
            Some(header) => Ok(header),
            None => Err(HeaderError {
                cause: Cause::Ended,
                at: self.seen,
            }),
        }
    }

    /// What is decided by the octets that it would hold with the next one.
    fn decide(&self, front: &[u8]) -> Result<Step, HeaderError>
        requires few { length front.now ≤ MOST_HEAD }
        requires room { self.now.at + MOST_HEAD < 2 ^ 64 }
        ensures decided { header_of self.now.stage ≡ None
            → Decided self.now.stage self.now.at front.now result }
        ensures frame { IfOk result (λ step. step_len step < 2 ^ 16) }
    {
        match self.stage {
            Stage::First => first_step(front),
            Stage::Chunks(known) => known.step(self.at, front),
            Stage::Whole(header) => Ok(Step::Samples(header)),
        }
    }

    /// Takes an octet of a header that is not whole, if no octets are being skipped.
    fn take_octet(&mut self, octet: u8) -> Result<(), HeaderError>
        requires room { self.old.seen < 2 ^ 63 }
        requires open { header_of self.old.stage ≡ None }
        requires none { self.old.left ≡ 0 }
        ensures took { (b : List ℕ) → Follows self.old b → TookOctet self.new b octet result }
        ensures seen { IfOk result (λ _. self.new.seen ≡ self.old.seen + 1) }
    {
        let mut held = self.held;
        held[self.len] = octet;
        let len = self.len + 1;
        match self.decide(&held[..len])? {
            Step::More => {
                self.seen += 1;
                self.held = held;
                self.len = len;
            }
            Step::Next { known, len: part } => {
                self.seen += 1;
                self.stage = Stage::Chunks(known);
                self.len = 0;
                self.left = part.saturating_sub(len as u64);
                self.at = self.seen + self.left;
            }
            Step::Samples(header) => {
                self.seen += 1;
                self.stage = Stage::Whole(header);
                self.len = 0;
                self.at = self.seen;
            }
        }
        Ok(())
    }

    /// Takes at least one octet from the front of a piece, if the header is not whole.
    fn take_front(&mut self, piece: &[u8]) -> Result<usize, HeaderError>
        requires some { 0 < length piece.now }
        requires room { self.old.seen + length piece.now ≤ 2 ^ 63 }
        requires open { header_of self.old.stage ≡ None }
        ensures took { (b : List ℕ) → Follows self.old b → TookFront self.new b piece.now result }
        ensures some { IfOk result (λ n. 0 < n) }
        ensures within { IfOk result (λ n. n ≤ length piece.now) }
        ensures seen { IfOk result (λ n. self.new.seen ≡ self.old.seen + n) }
    {
        if self.left == 0 {
            self.take_octet(piece[0])?;
            return Ok(1);
        }
        let n = self.left.min(piece.len() as u64);
        self.seen += n;
        self.left -= n;
        Ok(n as usize)
    }

    /// Takes octets of a file up to its samples, and returns how many: all, if the header is not
    /// whole with them. After an error the reader can't be used any more.
    ///
    /// # Errors
    /// What is wrong with the header, and where.
    pub fn take(&mut self, piece: &[u8]) -> Result<usize, HeaderError>
        requires { self.old.seen + length piece.now ≤ 2 ^ 63 }
        ensures took { (b : List ℕ) → Follows self.old b → TookPiece self.new b piece.now result }
        ensures within { IfOk result (λ n. n ≤ length piece.now) }
        ensures seen { IfOk result (λ n. self.new.seen ≡ self.old.seen + n) }
    {
        let mut at = 0;
        while at < piece.len() {
            if self.header().is_some() {
                return Ok(at);
            }
            at += self.take_front(&piece[at..])?;
        }
        Ok(at)
    }
}
