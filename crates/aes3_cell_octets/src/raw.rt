//! Octets of cells without the last octet, as a shift register or a serial port gives them.

ghost use Rattle.std.specs.Prelude.{◌≡◌, ◌+◌, ◌<◌, ◌≤◌, ◌^◌, ◌↔◌, length, take, false};
ghost use Rattle.std.specs.Prelude.{IfOk, IsTrue, OnErr};
ghost use Rattle.aes3_cell.specs.Ends.{Grew};
ghost use Rattle.std.specs.Option.{option_map};
ghost use Rattle.aes3_cell_octets.specs.Octets.{packed_of_raw};
ghost use Rattle.aes3_cell_octets.specs.Told.{raw_told};

use aes3_cell::{Fault, Source};

/// The last octet: no cell is unused.
const NONE_UNUSED: u8 = 0;

/// Gives the packed cells of an inner source, which gives octets of eight cells each and no last
/// octet: these octets, and the last octet at their end.
#[derive(Drop)]
pub struct RawSource<S: Source + Drop> {
    source: S,
    /// Whether the last octet was given.
    is_counted: bool,
    /// Whether the end was reported too.
    is_ended: bool,
    ghost counted: { IsTrue is_ended → IsTrue is_counted },
    ghost source_ended: { IsTrue is_counted → IsTrue (S.has_ended source) },
}

impl<S: Source + Drop> RawSource<S> {
    /// The packed cells of this source.
    pub fn new(source: S) -> Self
        ensures source { result.source ≡ source }
        ensures uncounted { result.is_counted ≡ false }
    {
        RawSource {
            source,
            is_counted: false,
            is_ended: false,
        }
    }

    /// The inner source. If the last octet was given, it has ended. The last octet is given before
    /// the end is reported.
    pub fn into_source(self) -> S
        ensures source { result ≡ self.source }
        ensures behind_all { IsTrue self.is_counted → IsTrue (S.has_ended result) }
        ensures before_end { IsTrue self.is_ended → IsTrue self.is_counted }
    {
        self.source
    }
}

impl<S: Source + Drop> Source for RawSource<S> {
    ghost given = { λ r. raw_told r.is_counted (S.given r.source) };

    ghost has_ended = { λ r. r.is_ended };

    ghost failed = { λ r. S.failed r.source };

    fn read(&mut self, buf: &mut [u8]) -> Result<usize, Fault>
        requires room { S.failed self.old.source + 1 < 2 ^ 64 }
        ensures bound { IfOk result (λ n. n ≤ length buf.new) }
        ensures bytes { IfOk result (λ n. Grew (raw_told self.old.is_counted (S.given self.old.source))
            (raw_told self.new.is_counted (S.given self.new.source)) (take n buf.new)) }
        ensures end { IfOk result (λ n. 0 < length buf.new → (n ≡ 0 ↔ IsTrue self.new.is_ended)) }
        ensures no_failure { IfOk result (λ _. S.failed self.new.source ≡ S.failed self.old.source) }
        ensures err { OnErr result ((S.failed self.new.source ≡ S.failed self.old.source + 1)
            × (raw_told self.new.is_counted (S.given self.new.source)
            ≡ raw_told self.old.is_counted (S.given self.old.source))) }

        // The end is reported after the packed form of all octets of the source.
        ensures whole { IfOk result (λ n. 0 < length buf.new → n ≡ 0
            → (raw_told self.new.is_counted (S.given self.new.source)
            ≡ option_map packed_of_raw (S.given self.new.source)) × IsTrue (S.has_ended self.new.source)) }
    {
        if buf.is_empty() {
            return Ok(0);
        }
        if self.is_counted {
            self.is_ended = true;
            return Ok(0);
        }
        match self.source.read(buf) {
            Ok(0) => {
                buf[0] = NONE_UNUSED;
                self.is_counted = true;
                Ok(1)
            }
            answer => answer,
        }
    }

    fn failures(&self) -> u64 {
        self.source.failures()
    }
}
