//! The places of the first status of each kind.

ghost use Rattle.std.specs.Prelude.{◌≡◌, ◌<◌, ◌++◌, ℕ, List, [], ◌∷◌, Bool, true, false, not};
ghost use Rattle.std.specs.Prelude.{get_or, length};
ghost use Rattle.std.specs.List.{All};
ghost use Rattle.aes3_status.specs.KindPlaces.{AreFirstsOf, Met, Rising, earlier, first_met};
ghost use Rattle.aes3_status.specs.Taken.{example_of, kind_of, telling_bits};
ghost use Rattle.aes3_status.specs.TakingAll.{takes_all};

use crate::setting::Settings;
use crate::taken::{KINDS, TELLING_BITS, example, number_of};
use crate::taking_all::takes_all;

/// The earlier of two places, if there are any.
pub fn earlier(first: Option<u64>, second: Option<u64>) -> Option<u64>
    ensures { result ≡ earlier first second }
{
    match (first, second) {
        (None, _) => second,
        (Some(_), None) => first,
        (Some(first), Some(second)) => Some(first.min(second)),
    }
}

/// For each kind of status, whether it does not take all settings.
fn refusing_kinds(settings: &Settings) -> [bool; KINDS]
    ensures { (kind : ℕ) → kind < 64
        → get_or result kind false ≡ not (takes_all settings.now (example_of kind)) }
{
    let mut refusing = [false; KINDS];
    for kind in 0..KINDS {
        refusing[kind] = !takes_all(&example(kind), settings);
    }
    refusing
}

/// The place of the first status of each kind that occurred (`Kinds`).
#[derive(Clone, Copy, PartialEq, Eq)]
pub struct KindPlaces {
    first: [Option<u64>; KINDS],
}

impl KindPlaces {
    /// The places if there is no status.
    pub fn new() -> Self
        ensures { AreFirstsOf result [] }
    {
        KindPlaces {
            first: [None; KINDS],
        }
    }

    /// Notes one more status at a place, given its bits as in `Kinds::add`.
    pub fn add(&mut self, bits: [bool; TELLING_BITS], at: u64)
        ensures { (met : List Met) (status : List ℕ) → telling_bits status ≡ bits
            → AreFirstsOf self.old met
            → AreFirstsOf self.new (met ++ record { place = at; status = status } ∷ []) }
    {
        let kind = number_of(bits);
        match self.first[kind] {
            Some(_) => {}
            None => self.first[kind] = Some(at),
        }
    }

    /// The place of the first status of one of these kinds.
    fn first_of(&self, kinds: &[bool; KINDS]) -> Option<u64>
        ensures { (met : List Met) → Rising (λ (x : Met). x.place) 0 met → AreFirstsOf self.now met
            → result ≡ first_met (λ status. get_or kinds.now (kind_of status) false) met }
    {
        let mut first = None;
        for kind in 0..KINDS {
            if kinds[kind] {
                first = earlier(first, self.first[kind]);
            }
        }
        first
    }

    /// The place of the first status.
    pub fn first(&self) -> Option<u64>
        ensures { (met : List Met) → Rising (λ (x : Met). x.place) 0 met → AreFirstsOf self.now met
            → result ≡ first_met (λ _. true) met }
    {
        self.first_of(&[true; KINDS])
    }

    /// The place of the first status that does not take all settings.
    pub fn first_refusing(&self, settings: &Settings) -> Option<u64>
        ensures { (met : List Met) → Rising (λ (x : Met). x.place) 0 met
            → All (λ (x : Met). length x.status ≡ 24) met → AreFirstsOf self.now met
            → result ≡ first_met (λ status. not (takes_all settings.now status)) met }
    {
        self.first_of(&refusing_kinds(settings))
    }
}
