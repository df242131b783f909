//! Reading packed cells.
use std::marker::Model;

/// Reads packed cells octet by octet, or eight octets at once.
///
/// A contract sees how many octets it has taken and the last two of them. Before the end it is not
/// known which octet is the last, nor how many cells of the octet before it are used.
#[derive(Drop)]
pub struct PackedIn {
    seen: u64,
    before_last: u8,
    last: u8,
}

impl Model for PackedIn {
    ghost use Rattle.aes3_cell.specs.PackedReading.{PackedReader};

    ghost Value = { PackedReader };

    ghost view = { λ p. record { seen = p.seen; before_last = p.before_last; last = p.last } };
}

ghost use Rattle.std.specs.Prelude.{◌≡◌, ◌+◌, ◌*◌, ◌<◌, ◌≤◌, ◌^◌, ◌-◌, ◌↔◌, ℕ, List, [], length};
ghost use Rattle.std.specs.Prelude.{IsOk, IfErr, IsSome, IfSome, OnSome, IfNone};
ghost use Rattle.std.specs.List.{flat_map};
ghost use Rattle.aes3_cell.specs.Packed.{IsPacked, is_padded};
ghost use Rattle.aes3_cell.specs.PackedFeeding.{cells_fed, octets_fed};
ghost use Rattle.aes3_cell.specs.PackedReading.{packed_answer, packed_next, packed_end};
ghost use Rattle.aes3_cell.specs.PackedReading.{packed_reader_of, end_answer};
ghost use Rattle.aes3_level.specs.Words.{word_cells};

use crate::packed_words::words_of_octets;
use crate::word::word_of_octets;

/// Packed cells that end wrongly.
#[derive(Clone, Copy, PartialEq, Eq)]
pub struct BadPadding {
    /// The place of the last octet, counted from 0; 0 if there is no octet.
    pub at: u64,
}

/// Whether the last `unused` cells of an octet, fewer than eight, are Low.
fn is_rightly_padded(octet: u8, unused: u8) -> bool
    ensures { result ≡ is_padded octet unused }
{
    unused < 8 && octet % (1 << unused) == 0
}

/// The answer at the end after `seen` octets, given the last two of them.
fn end_behind(seen: u64, octet: u8, last: u8) -> Result<Option<(u8, u8)>, BadPadding>
    ensures { result ≡ end_answer seen octet last }
{
    match seen {
        0 => Err(BadPadding { at: 0 }),
        1 if last == 0 => Ok(None),
        1 => Err(BadPadding { at: 0 }),
        _ if is_rightly_padded(octet, last) => Ok(Some((octet, 8 - last))),
        _ => Err(BadPadding { at: seen - 1 }),
    }
}

impl PackedIn {
    /// A reader that has taken nothing.
    #[tactic(auto, unfolding(crate::specs::PackedReading::packed_reader_of))]
    pub fn new() -> Self
        ensures start { result ≡ packed_reader_of [] }
        ensures seen { result.seen ≡ 0 }
    {
        PackedIn {
            seen: 0,
            before_last: 0,
            last: 0,
        }
    }

    /// How many octets it has taken.
    pub fn seen(&self) -> u64
        ensures { result ≡ self.now.seen }
    {
        self.seen
    }

    /// Takes one more octet, and returns the one that came two octets before, all of whose eight
    /// cells are used.
    pub fn feed_byte(&mut self, octet: u8) -> Option<u8>
        requires { self.old.seen < 2 ^ 40 }
        ensures answer { result ≡ packed_answer self.old }
        ensures next { self.new ≡ packed_next self.old octet }
    {
        let whole = if self.seen < 2 {
            None
        } else {
            Some(self.before_last)
        };
        self.before_last = self.last;
        self.last = octet;
        self.seen += 1;
        whole
    }

    /// Takes eight more octets for each word, after two or more others. Then the words are the
    /// cells of the two octets before, and of all these but the last two. The first cell of each
    /// word is in the lowest bit.
    pub fn feed_words(&mut self, octets: &[u8], words: &mut [u64])
        requires begun { 2 ≤ self.old.seen }
        requires room { self.old.seen + length octets.now ≤ 2 ^ 40 }
        requires len { length octets.now ≡ 8 * length words.old }
        ensures len { length words.new ≡ length words.old }
        ensures cells { flat_map word_cells words.new ≡ cells_fed self.old octets.now }
        ensures next { self.new ≡ octets_fed self.old octets.now }
    {
        if words.is_empty() {
            return;
        }
        let end = octets.len();
        words[0] = word_of_octets(&[
            self.before_last,
            self.last,
            octets[0],
            octets[1],
            octets[2],
            octets[3],
            octets[4],
            octets[5],
        ]);
        words_of_octets(&octets[6..end - 2], &mut words[1..]);
        self.seen += end as u64;
        self.before_last = octets[end - 2];
        self.last = octets[end - 1];
    }

    /// Takes the end, and returns the octet before the last and how many of its cells are used, 1
    /// to 8. The first cell is in the highest bit. For the octet 0 alone, which means no cells, it
    /// returns `None`.
    ///
    /// # Errors
    /// The place of the last octet if the octets are not packed cells; 0 if there is no octet.
    pub fn end(&self) -> Result<Option<(u8, u8)>, BadPadding>
        ensures answer { result ≡ packed_end self.now }
        ensures place { IfErr result (λ fault. fault.at ≡ self.now.seen - 1) }
        ensures lawful { (octets : List ℕ) → self.now ≡ packed_reader_of octets
            → (IsOk result ↔ IsPacked octets) }
    {
        end_behind(self.seen, self.before_last, self.last)
    }
}
