//! Levels below full scale, in tenths of a decibel.

ghost use Rattle.std.specs.Prelude.{◌≡◌, ◌<◌, ◌≤◌, ◌^◌};
ghost use Rattle.aes3_info.specs.Levels.{decade, half_step, level_of, steps_below, times};
ghost use Rattle.aes3_info.specs.Pages.{full_energy};

use aes3_frame::FRAMES;

/// The square of the greatest magnitude of a sample of 24 bits.
pub const FULL_POWER: u128 = 1 << 46;

/// How many samples of a channel a block has.
const SAMPLES: u64 = FRAMES as u64;

/// The number for 1 in the two powers below.
const UNIT: u64 = 1 << 31;

/// A level of half a tenth of a decibel less than full scale, as a power: 10^(-1/200).
const HALF_STEP: u64 = 2_122_901_606;

/// A level of a tenth of a decibel less: 10^(-1/100).
const STEP: u64 = 2_098_600_952;

/// A ratio of ten of the power, in tenths of a decibel.
const DECADE: u64 = 100;

/// How many ratios of ten are tried.
const DECADES: u64 = 30;

/// The product, or the greatest number if it is less.
#[tactic(auto, unfolding(crate::specs::Levels::times))]
fn times(power: u128, factor: u64) -> u128
    ensures { result ≡ times power factor }
{
    power.saturating_mul(u128::from(factor))
}

/// How many steps a power is below full scale, if it is less than a decade below.
fn steps_below(power: u128, full: u128) -> u64
    ensures steps { result ≡ steps_below decade half_step power full }
    ensures few { result ≤ DECADE }
{
    let power = times(power, UNIT);
    let mut limit = HALF_STEP;
    for steps in 0..DECADE {
        if power >= times(full, limit) {
            return steps;
        }
        limit = limit * STEP / UNIT;
    }
    DECADE
}

/// How many tenths of a decibel a power is below the full one, to the nearest.
pub fn level_of(power: u128, full: u128) -> u64
    ensures level { result ≡ level_of power full }
    ensures few { result ≤ 3100 }
{
    let mut power = power;
    for decade in 0..DECADES {
        let more = times(power, 10);
        if times(more, UNIT) >= times(full, HALF_STEP) {
            return DECADE * decade + steps_below(power, full);
        }
        power = more;
    }
    DECADE * DECADES + steps_below(power, full)
}

/// The square of full scale in each sample of a channel of so many blocks.
pub fn full_energy(blocks: u64) -> u128
    ensures { result ≡ full_energy blocks }
{
    times(times(FULL_POWER, SAMPLES), blocks)
}
