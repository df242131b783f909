//! The bits of octets in reversed order, eight octets at once.

ghost use Rattle.std.specs.Prelude.{◌≡◌, ◌≤◌, length, map};
ghost use Rattle.aes3_cell_octets.specs.Octets.{reversed};

use aes3_cell::octets_of_word;

/// How many octets are reversed at once.
const EIGHT: usize = 8;

/// Reverses the bits of each octet: the lowest becomes the highest.
pub(crate) fn reverse_bits(octets: &mut [u8])
    ensures { octets.new ≡ map reversed octets.old }
{
    let eights = octets.len() / EIGHT;
    for i in 0..eights {
        reverse_few(&mut octets[EIGHT * i..EIGHT * i + EIGHT]);
    }
    reverse_few(&mut octets[EIGHT * eights..]);
}

/// Reverses the bits of at most eight octets.
#[inline(always)]
fn reverse_few(octets: &mut [u8])
    requires { length octets.old ≤ EIGHT }
    ensures { octets.new ≡ map reversed octets.old }
{
    let n = octets.len();
    let mut eight = [0; EIGHT];
    eight[..n].copy_from_slice(octets);
    octets.copy_from_slice(&reversed_eight(&eight)[..n]);
}

/// The octets with the bits of each reversed. A word has its earliest cell in the lowest bit, and
/// the octets of that word have theirs in the highest.
#[inline(always)]
fn reversed_eight(octets: &[u8; EIGHT]) -> [u8; EIGHT]
    ensures { result ≡ map reversed octets.now }
{
    octets_of_word(u64::from_le_bytes(*octets))
}
