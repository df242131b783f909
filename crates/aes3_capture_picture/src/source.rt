//! A source that shows what it gives to a picture.

ghost use Rattle.std.specs.Prelude.{◌≡◌, ◌≤◌, ◌<◌, ◌+◌, ◌^◌, ◌↔◌, IsTrue, IfOk, OnErr, length, take};
ghost use Rattle.aes3_cell.specs.Ends.{Grew};

use crate::picture::Picture;
use aes3_cell::{Fault, Source};

/// A source of samples, all of which a picture takes too.
#[derive(Drop)]
pub struct Pictured<S: Drop> {
    source: S,
    picture: Picture,
}

impl<S: Source + Drop> Pictured<S> {
    /// Gives what this source gives, and shows it to the picture.
    pub fn new(source: S, picture: Picture) -> Self
        ensures source { result.source ≡ source }
        ensures picture { result.picture ≡ picture }
    {
        Pictured { source, picture }
    }

    /// The picture of what was given.
    pub fn into_picture(self) -> Picture
        ensures { result ≡ self.picture }
    {
        let Pictured { picture, .. } = self;
        picture
    }
}

impl<S: Source + Drop> Source for Pictured<S> {
    ghost given = { λ p. S.given p.source };

    ghost has_ended = { λ p. S.has_ended p.source };

    ghost failed = { λ p. S.failed p.source };

    fn read(&mut self, buf: &mut [u8]) -> Result<usize, Fault>
        requires room { S.failed self.old.source + 1 < 2 ^ 64 }
        ensures bound { IfOk result (λ n. n ≤ length buf.new) }
        ensures bytes { IfOk result (λ n. Grew (S.given self.old.source) (S.given self.new.source) (take n buf.new)) }
        ensures end { IfOk result (λ n. 0 < length buf.new
            → (n ≡ 0 ↔ IsTrue (S.has_ended self.new.source))) }
        ensures no_failure { IfOk result (λ _. S.failed self.new.source ≡ S.failed self.old.source) }
        ensures err { OnErr result ((S.failed self.new.source ≡ S.failed self.old.source + 1)
            × (S.given self.new.source ≡ S.given self.old.source)) }
    {
        let answer = self.source.read(buf);
        if let Ok(n) = answer {
            self.picture.take(&buf[..n]);
        }
        answer
    }

    fn failures(&self) -> u64 {
        self.source.failures()
    }
}
