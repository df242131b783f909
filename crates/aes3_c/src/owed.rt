//! Octets for which there was no room yet.

ghost use Rattle.std.specs.Prelude.{◌≡◌, ◌≤◌, ◌<◌, ◌++◌, ◌∷◌, [], IfSome, IfNone, IsTrue, drop, false, length, take};
ghost use Rattle.aes3_c.specs.Owed.{HasFewest, owed_in, stretched};

/// How many stretches of equal octets are kept.
pub(crate) const STRETCHES: usize = 1024;

/// Octets that are still to be written, as stretches of equal ones. Any numbers stand for some octets.
#[repr(C)]
#[derive(Clone, Copy)]
pub struct Aes3Owed {
    /// How many stretches there are, and how many of them were written.
    pub len: u32,
    pub first: u32,
    /// The octet of each, and how often it is still to be written.
    pub counts: [u32; STRETCHES],
    pub octets: [u8; STRETCHES],
}

/// Takes the first of the octets that are still to be written.
fn next_owed(owed: &mut Aes3Owed) -> Option<u8>
    ensures some { IfSome result (λ octet. owed_in owed.old ≡ octet ∷ owed_in owed.new) }
    ensures none { IfNone result ((owed_in owed.old ≡ []) × (owed_in owed.new ≡ [])) }
{
    let len = owed.len.min(STRETCHES as u32);
    while owed.first < len {
        let first = owed.first as usize;
        let count = owed.counts[first];
        if count > 0 {
            owed.counts[first] = count - 1;
            return Some(owed.octets[first]);
        }
        owed.first += 1;
    }
    None
}

/// Writes octets from octet `at` of memory on, as many as there is room for. Returns where it ended.
pub(crate) fn put_owed(owed: &mut Aes3Owed, cells: &mut [u8], at: usize) -> usize
    requires within { at ≤ length cells.old }
    ensures least { at ≤ result }
    ensures within { result ≤ length cells.new }
    ensures long { length cells.new ≡ length cells.old }
    ensures put { take result cells.new ++ owed_in owed.new ≡ take at cells.old ++ owed_in owed.old }
    ensures rest { drop result cells.new ≡ drop result cells.old }
    ensures all { result < length cells.new → owed_in owed.new ≡ [] }
{
    for i in at..cells.len() {
        let Some(octet) = next_owed(owed) else {
            return i;
        };
        cells[i] = octet;
    }
    cells.len()
}

/// How many octets are still to be written.
pub(crate) fn owed_len(owed: &Aes3Owed) -> u64
    ensures { result ≡ length (owed_in owed.now) }
{
    let len = owed.len.min(STRETCHES as u32);
    let mut octets = 0;
    for i in owed.first..len {
        octets += u64::from(owed.counts[i as usize]);
    }
    octets
}

/// A count of 0 for each stretch.
fn no_counts() -> [u32; STRETCHES] {
    [0; STRETCHES]
}

/// An octet of 0 for each stretch.
fn no_octets() -> [u8; STRETCHES] {
    [0; STRETCHES]
}

/// No octets.
pub(crate) fn no_owed() -> Aes3Owed
    ensures first { result.first ≡ 0 }
    ensures fewest { HasFewest result }
    ensures none { owed_in result ≡ [] }
{
    Aes3Owed {
        len: 0,
        first: 0,
        counts: no_counts(),
        octets: no_octets(),
    }
}

/// Owes nothing.
pub(crate) fn owe_nothing(owed: &mut Aes3Owed)
    ensures first { owed.new.first ≡ 0 }
    ensures len { owed.new.len ≡ 0 }
    ensures none { owed_in owed.new ≡ [] }
{
    owed.first = 0;
    owed.len = 0;
}

/// Owes one octet more, after all others. Returns false if that needs more than 1,024 stretches.
pub(crate) fn owe(owed: &mut Aes3Owed, octet: u8) -> bool
    requires first { owed.old.first ≡ 0 }
    requires fewest { HasFewest owed.old }
    ensures first { owed.new.first ≡ 0 }
    ensures fewest { HasFewest owed.new }
    ensures owes { IsTrue result → owed_in owed.new ≡ owed_in owed.old ++ octet ∷ [] }
    ensures full { result ≡ false → owed.new ≡ owed.old }
    ensures many { result ≡ false → 1024 < (stretched (owed_in owed.old ++ octet ∷ [])).many }
{
    let len = owed.len as usize;
    if len > STRETCHES {
        return false;
    }
    if len > 0 && owed.octets[len - 1] == octet && owed.counts[len - 1] < u32::MAX {
        owed.counts[len - 1] += 1;
        return true;
    }
    if len == STRETCHES {
        return false;
    }
    owed.octets[len] = octet;
    owed.counts[len] = 1;
    owed.len += 1;
    true
}

/// Owes these octets too, after all others. Returns whether it owes all of them.
pub(crate) fn owe_all(owed: &mut Aes3Owed, octets: &[u8]) -> bool
    requires first { owed.old.first ≡ 0 }
    requires fewest { HasFewest owed.old }
    ensures first { owed.new.first ≡ 0 }
    ensures fewest { HasFewest owed.new }
    ensures owes { IsTrue result → owed_in owed.new ≡ owed_in owed.old ++ octets.now }
    ensures many { result ≡ false → 1024 < (stretched (owed_in owed.old ++ octets.now)).many }
{
    for i in 0..octets.len() {
        if !owe(owed, octets[i]) {
            return false;
        }
    }
    true
}

/// Owes these octets too, if all before them are owed. Returns whether it owes all.
pub(crate) fn owe_rest(owed: &mut Aes3Owed, fits: bool, octets: &[u8]) -> bool
    requires first { owed.old.first ≡ 0 }
    requires fewest { HasFewest owed.old }
    ensures first { owed.new.first ≡ 0 }
    ensures fewest { HasFewest owed.new }
    ensures fits { IsTrue result → IsTrue fits }
    ensures owes { IsTrue result → owed_in owed.new ≡ owed_in owed.old ++ octets.now }
    ensures many { result ≡ false → IsTrue fits → 1024 < (stretched (owed_in owed.old ++ octets.now)).many }
{
    fits && owe_all(owed, octets)
}
