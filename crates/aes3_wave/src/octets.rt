//! Numbers in octets, the lowest octet first.

ghost use Rattle.std.specs.Prelude.{◌≡◌, ◌+◌, ◌≤◌, length};
ghost use Rattle.aes3_wave.specs.Octets.{u16_at, u32_at, u64_at};

/// The number of the two octets from `at` on.
pub(crate) fn u16_at(octets: &[u8], at: usize) -> u16
    requires { at + 2 ≤ length octets.now }
    ensures { result ≡ u16_at octets.now at }
{
    octets[at] as u16 + 256 * octets[at + 1] as u16
}

/// The number of the four octets from `at` on.
pub(crate) fn u32_at(octets: &[u8], at: usize) -> u32
    requires { at + 4 ≤ length octets.now }
    ensures { result ≡ u32_at octets.now at }
{
    u16_at(octets, at) as u32 + 65_536 * u16_at(octets, at + 2) as u32
}

/// The number of the eight octets from `at` on.
pub(crate) fn u64_at(octets: &[u8], at: usize) -> u64
    requires { at + 8 ≤ length octets.now }
    ensures { result ≡ u64_at octets.now at }
{
    u32_at(octets, at) as u64 + 4_294_967_296 * u32_at(octets, at + 4) as u64
}
