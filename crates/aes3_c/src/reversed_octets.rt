//! Octets of cells with the first cell in the lowest bit.

ghost use Rattle.std.specs.Prelude.{◌≡◌, map};
ghost use Rattle.std.specs.List.{flat_map};
ghost use Rattle.aes3_cell.specs.Packed.{cells_of_octets};
ghost use Rattle.aes3_cell_octets.specs.Octets.{reversed, reversed_cells};

/// Reverses the bits of each octet: the lowest becomes the highest. So octets that have their first
/// cell in the lowest bit have it in the highest one then, and the other way round.
#[unsafe(no_mangle)]
pub extern "C" fn aes3_reverse_octets(octets: &mut [u8])
    ensures octets { octets.new ≡ map reversed octets.old }

    // Read with the first cell in the highest bit, they have the cells that they had with it in the lowest.
    ensures cells { cells_of_octets octets.new ≡ flat_map reversed_cells octets.old }
{
    for i in 0..octets.len() {
        octets[i] = octets[i].reverse_bits();
    }
}
