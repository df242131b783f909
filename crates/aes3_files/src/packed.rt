//! Packed cells by their first octets.

ghost use Rattle.std.specs.Prelude.{◌≡◌, ◌∷◌, []};
ghost use Rattle.std.specs.Int.{bit_at};
ghost use Rattle.aes3_files.specs.Packed.{are_equal, are_packed, are_reversed, has_long_run};
ghost use Rattle.aes3_files.specs.Packed.{highest_first};

/// Whether the four lowest bits are equal.
fn are_equal(bits: u16) -> bool
    ensures { result ≡ are_equal (bit_at bits 3) (bit_at bits 2) (bit_at bits 1) (bit_at bits 0) }
{
    matches!(bits & 15, 0 | 15)
}

/// Whether two octets, the highest bit first, have four equal bits in a row; cells have at most
/// three.
fn has_long_run(first: u8, second: u8) -> bool
    ensures { result ≡ has_long_run (highest_first (first ∷ second ∷ [])) }
{
    let bits = u16::from(first) << 8 | u16::from(second);
    for at in 0u32..13 {
        if are_equal(bits >> at) {
            return true;
        }
    }
    false
}

/// Whether the octets can be packed cells: there are at least two, and they have no four equal bits
/// in a row.
pub fn are_packed(first: &[u8]) -> bool
    ensures { result ≡ are_packed first.now }
{
    for at in 1..first.len() {
        if has_long_run(first[at - 1], first[at]) {
            return false;
        }
    }
    first.len() > 1
}

/// Whether the octets can be packed cells only with the first cell in the lowest bit. Some two
/// neighbours then have such a run, and none have one with the lowest bit of each octet first.
pub fn are_reversed(first: &[u8]) -> bool
    ensures { result ≡ are_reversed first.now }
{
    let mut is_long = false;
    let mut is_long_reversed = false;
    for at in 1..first.len() {
        let (before, octet) = (first[at - 1], first[at]);
        is_long |= has_long_run(before, octet);
        is_long_reversed |= has_long_run(before.reverse_bits(), octet.reverse_bits());
    }
    is_long && !is_long_reversed
}
