//! Packed cells with the first cell of each octet in the lowest bit, as they are read.

ghost use Rattle.std.specs.Prelude.{◌≡◌, ◌∷◌, ◌+◌, ◌-◌, ◌<◌, ◌≤◌, ◌^◌, length, map, take, None, Some};
ghost use Rattle.std.specs.Prelude.{IfOk, IsTrue, OnErr};
ghost use Rattle.aes3_cell.specs.Ends.{Grew};
ghost use Rattle.aes3_cell_octets.specs.Octets.{reversed};
ghost use Rattle.aes3_cell_octets.specs.Told.{only, reversed_told};

use crate::reversing::reverse_bits;
use aes3_cell::{Fault, Source};

/// Reads one octet; `None` if the source has ended.
///
/// # Errors
/// The source's fault.
pub fn first_octet<S: Source>(source: &mut S) -> Result<Option<u8>, Fault>
    requires room { S.failed source.old + 1 < 2 ^ 64 }
    ensures octet { IfOk result (λ first. Grew (S.given source.old) (S.given source.new) (only first)) }
    ensures end { IfOk result (λ first. first ≡ None → IsTrue (S.has_ended source.new)) }
    ensures no_failure { IfOk result (λ _. S.failed source.new ≡ S.failed source.old) }
    ensures err { OnErr result ((S.failed source.new ≡ S.failed source.old + 1)
        × (S.given source.new ≡ S.given source.old)) }
{
    let mut first = [0];
    match source.read(&mut first)? {
        0 => Ok(None),
        _ => Ok(Some(first[0])),
    }
}

/// Puts an octet before the others, drops the last of them, and reverses all.
fn reverse_behind(octet: u8, octets: &mut [u8])
    requires some { 0 < length octets.old }
    ensures { octets.new ≡ map reversed (octet ∷ take (length octets.old - 1) octets.old) }
{
    octets.copy_within(..octets.len() - 1, 1);
    octets[0] = octet;
    reverse_bits(octets);
}

/// Gives the packed cells of an inner source, whose octets have their first cell in the lowest bit.
/// Each octet is reversed but the last, which is a number and is given unchanged.
///
/// An octet is held back until it is known whether another follows. So reading is late by one
/// octet, and never by more.
#[derive(Drop)]
pub struct ReversedSource<S: Source + Drop> {
    source: S,
    /// The octet that is held back: the last one, unless another follows.
    held: Option<u8>,
    /// Whether the end was reported.
    is_ended: bool,
    ghost source_ended: { held ≡ None → IsTrue (S.has_ended source) },
    ghost none_held: { IsTrue is_ended → held ≡ None },
}

impl<S: Source + Drop> ReversedSource<S> {
    /// The packed cells of a source whose octet `first` was read by [`first_octet`].
    pub fn new(source: S, first: Option<u8>) -> Self
        requires end { first ≡ None → IsTrue (S.has_ended source) }
        ensures source { result.source ≡ source }
        ensures held { result.held ≡ first }
    {
        ReversedSource {
            source,
            held: first,
            is_ended: false,
        }
    }

    /// The inner source. If no octet is held back, it has ended; if the end was reported, no octet
    /// is held back.
    pub fn into_source(self) -> S
        ensures source { result ≡ self.source }
        ensures behind_all { self.held ≡ None → IsTrue (S.has_ended result) }
        ensures before_end { IsTrue self.is_ended → self.held ≡ None }
    {
        self.source
    }

    /// Gives the octet that is held back and those that follow, reversed, but holds back the last
    /// of these. If none follows, it gives the held octet unchanged.
    fn read_behind(&mut self, octet: u8, buf: &mut [u8]) -> Result<usize, Fault>
        requires room { S.failed self.old.source + 1 < 2 ^ 64 }
        requires held { self.old.held ≡ Some octet }
        requires some { 0 < length buf.old }
        ensures bound { IfOk result (λ n. n ≤ length buf.new) }
        ensures some { IfOk result (λ n. 0 < n) }
        ensures bytes { IfOk result (λ n. Grew (reversed_told self.old.held (S.given self.old.source))
            (reversed_told self.new.held (S.given self.new.source)) (take n buf.new)) }
        ensures no_failure { IfOk result (λ _. S.failed self.new.source ≡ S.failed self.old.source) }
        ensures err { OnErr result ((S.failed self.new.source ≡ S.failed self.old.source + 1)
            × (reversed_told self.new.held (S.given self.new.source)
            ≡ reversed_told self.old.held (S.given self.old.source))) }
        ensures unchanged { self.new.is_ended ≡ self.old.is_ended }
    {
        let n = self.source.read(buf)?;
        if n == 0 {
            buf[0] = octet;
            self.held = None;
            return Ok(1);
        }
        self.held = Some(buf[n - 1]);
        reverse_behind(octet, &mut buf[..n]);
        Ok(n)
    }
}

impl<S: Source + Drop> Source for ReversedSource<S> {
    ghost given = { λ s. reversed_told s.held (S.given s.source) };

    ghost has_ended = { λ s. s.is_ended };

    ghost failed = { λ s. S.failed s.source };

    fn read(&mut self, buf: &mut [u8]) -> Result<usize, Fault> {
        if buf.is_empty() {
            return Ok(0);
        }
        match self.held {
            Some(octet) => self.read_behind(octet, buf),
            None => {
                self.is_ended = true;
                Ok(0)
            }
        }
    }

    fn failures(&self) -> u64 {
        self.source.failures()
    }
}
