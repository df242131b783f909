//! Counts that stop at the greatest number.

ghost use Rattle.std.specs.Prelude.{◌≡◌};
ghost use Rattle.aes3_info.specs.Facts.{more, more_energy};

/// The sum of two counts, which stops at the greatest number.
#[tactic(auto, unfolding(crate::specs::Facts::more, crate::specs::Facts::most_count))]
pub(crate) fn more(count: u64, new: u64) -> u64
    ensures { result ≡ more count new }
{
    count.saturating_add(new)
}

/// The sum of squares with more of them, which stops at the greatest number.
#[tactic(auto, unfolding(crate::specs::Facts::more_energy, crate::specs::Facts::most_energy))]
pub(crate) fn more_energy(energy: u128, new: u64) -> u128
    ensures { result ≡ more_energy energy new }
{
    energy.saturating_add(u128::from(new))
}
