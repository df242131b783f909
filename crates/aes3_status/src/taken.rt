//! Which settings statuses take.

ghost use Rattle.std.specs.Prelude.{◌≡◌, ◌<◌, ◌++◌, ℕ, List, [], ◌∷◌, Bool, length};
ghost use Rattle.std.specs.List.{All};
ghost use Rattle.aes3_bits.specs.Bits.{number};
ghost use Rattle.aes3_status.specs.Taken.{AreKindsOf, example_of, has_code, taken_by, telling_bits};

use crate::field::is_for_professional_use;
use crate::setting::{SETTINGS, Setting, Settings, code_for, set_field};

/// How many bits of a status determine which settings it takes.
pub const TELLING_BITS: usize = 6;

/// How many kinds of status there are.
pub(crate) const KINDS: usize = 64;

/// Which settings some status took: those that had a code for it when they were applied.
#[derive(Clone, Copy, PartialEq, Eq)]
pub struct Taken {
    /// For each of the codes, whether it was written.
    pub codes: [bool; SETTINGS],
    /// Whether the fields of four bytes were set: some status was professional after the codes were
    /// written.
    pub wide: bool,
}

impl Taken {
    /// Nothing, as without any status.
    pub const NOTHING: Taken = Taken {
        codes: [false; SETTINGS],
        wide: false,
    };

    /// Adds what one more status takes.
    pub fn add(&mut self, status: &[u8; 24], settings: &Settings)
        ensures { (statuses : List (List ℕ)) → self.old ≡ taken_by settings.now statuses
            → self.new ≡ taken_by settings.now (statuses ++ status.now ∷ []) }
    {
        let mut left = *status;
        for i in 0..SETTINGS {
            self.codes[i] |= has_code(&left, &settings.codes[i]);
            set_field(&mut left, &settings.codes[i]);
        }
        self.wide |= is_for_professional_use(&left);
    }
}

/// Whether a setting has a code for a status.
fn has_code(bytes: &[u8; 24], setting: &Setting) -> bool
    ensures { result ≡ has_code setting.now bytes.now }
{
    code_for(bytes, setting).is_some()
}

/// The number made of these bits, the first of weight 1.
pub(crate) fn number_of(bits: [bool; TELLING_BITS]) -> usize
    ensures value { result ≡ number bits }
    ensures few { result < 64 }
{
    usize::from(bits[0])
        + 2 * usize::from(bits[1])
        + 4 * usize::from(bits[2])
        + 8 * usize::from(bits[3])
        + 16 * usize::from(bits[4])
        + 32 * usize::from(bits[5])
}

/// A status of this kind.
pub(crate) fn example(kind: usize) -> [u8; 24]
    requires { kind < 64 }
    ensures { result ≡ example_of kind }
{
    let mut status = [0; 24];
    status[0] = (kind % 4) as u8;
    status[2] = (kind / 4 % 8) as u8;
    status[4] = (kind / 32) as u8;
    status
}

/// Which kinds of status occurred. Statuses of one kind take the same settings, whatever these are.
/// Three things make the kind: the use of the status, what its sample words carry, and what
/// determines the meaning of its sample word length. The last is the use of the auxiliary bits or
/// the greatest length (AES3-2, IEC 60958-3).
#[derive(Clone, Copy, PartialEq, Eq)]
pub struct Kinds {
    met: [bool; KINDS],
}

impl Kinds {
    /// The kinds if there is no status.
    pub fn new() -> Self
        ensures { AreKindsOf result [] }
    {
        Kinds {
            met: [false; KINDS],
        }
    }

    /// Notes one more status, given these bits: 0 and 1 of byte 0, 0 to 2 of byte 2, and 0 of byte
    /// 4.
    pub fn add(&mut self, bits: [bool; TELLING_BITS])
        ensures { (statuses : List (List ℕ)) (status : List ℕ) → telling_bits status ≡ bits
            → AreKindsOf self.old statuses → AreKindsOf self.new (statuses ++ status ∷ []) }
    {
        self.met[number_of(bits)] = true;
    }

    /// What the statuses so far take of settings.
    pub fn taken_by(&self, settings: &Settings) -> Taken
        ensures { (statuses : List (List ℕ)) → All (λ status. length status ≡ 24) statuses
            → AreKindsOf self.now statuses → result ≡ taken_by settings.now statuses }
    {
        let mut taken = Taken::NOTHING;
        for kind in 0..KINDS {
            if self.met[kind] {
                taken.add(&example(kind), settings);
            }
        }
        taken
    }
}
