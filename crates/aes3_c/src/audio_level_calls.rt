//! The levels of each channel's samples: peak and RMS.

ghost use Rattle.std.specs.Prelude.{◌≡◌, ◌-◌, ◌^◌, ◌++◌, ◌∷◌, [], List, Bool, false, map, true};
ghost use Rattle.aes3_frame.specs.Files.{payload_of};
ghost use Rattle.aes3_lock.specs.declared.report.Report.{Report};
ghost use Rattle.aes3_lock.specs.Reports.{wholes};
ghost use Rattle.aes3_info.specs.Facts.{report_facts, with_samples};
ghost use Rattle.aes3_info.specs.Pages.{full_energy};
ghost use Rattle.aes3_c.specs.Codes.{channel_of, is_channel};
ghost use Rattle.aes3_c.specs.Levels.{HasLevels, energy_in, kept_levels, level_number, peak_number};
ghost use Rattle.aes3_c.specs.Levels.{rms_number, rms_number_of, samples_in};

use crate::block_calls::{channel_of_number, is_channel};
use aes3_block::Channel;
use aes3_info::{FULL_POWER, SampleFacts, full_energy, level_of, square};

/// The level if all samples are zero, or for a number that is no channel's.
const SILENT: u32 = u32::MAX;

/// What the high part of an energy counts.
const HIGH: u128 = 1 << 64;

/// What is counted of a channel's samples.
#[repr(C)]
#[derive(Clone, Copy)]
pub struct Aes3ChannelLevels {
    /// The sum of the squares of the samples: its low 64 bits, and the high ones.
    pub energy_low: u64,
    pub energy_high: u64,
    /// The greatest magnitude of a sample of 24 bits.
    pub peak: u32,
}

// As the header has it.
const _: () = prove!(size_of::<Aes3ChannelLevels>() == 24);

const _: () = prove!(align_of::<Aes3ChannelLevels>() == 8);

/// What is counted of the samples of blocks.
#[repr(C)]
#[derive(Clone, Copy)]
pub struct Aes3Levels {
    /// How many blocks were added.
    pub blocks: u64,
    /// The first channel.
    pub first: Aes3ChannelLevels,
    /// The second channel.
    pub second: Aes3ChannelLevels,
}

// As the header has it.
const _: () = prove!(size_of::<Aes3Levels>() == 56);

const _: () = prove!(align_of::<Aes3Levels>() == 8);

/// The counts that are kept.
fn samples_of(kept: &Aes3ChannelLevels) -> SampleFacts
    ensures { result ≡ samples_in kept.now }
{
    SampleFacts {
        greatest: kept.peak,
        energy: u128::from(kept.energy_high) * HIGH + u128::from(kept.energy_low),
    }
}

/// Keeps the counts.
fn keep_samples(samples: SampleFacts, kept: &mut Aes3ChannelLevels)
    ensures peak { kept.new.peak ≡ samples.greatest }
    ensures energy { energy_in kept.new ≡ samples.energy }
{
    kept.peak = samples.greatest;
    kept.energy_low = (samples.energy % HIGH) as u64;
    kept.energy_high = (samples.energy / HIGH) as u64;
}

/// Counts the samples of a channel of the block of these words.
fn count_samples(kept: &mut Aes3ChannelLevels, words: &[u32; 384], channel: Channel)
    ensures { samples_in kept.new
        ≡ with_samples (samples_in kept.old) channel (map payload_of words.now) }
{
    let mut samples = samples_of(kept);
    samples.count(words, channel);
    keep_samples(samples, kept);
}

/// What is kept of a channel, as counts.
fn samples_of_channel(levels: &Aes3Levels, channel: Channel) -> SampleFacts
    ensures { result ≡ samples_in (kept_levels levels.now channel) }
{
    match channel {
        Channel::First => samples_of(&levels.first),
        Channel::Second => samples_of(&levels.second),
    }
}

/// How many tenths of a decibel a power is below the full one.
fn number_of(power: u128, full: u128) -> u32
    ensures { result ≡ level_number power full }
{
    if power == 0 {
        SILENT
    } else {
        level_of(power, full) as u32
    }
}

/// Makes the counts without any block.
#[unsafe(no_mangle)]
pub extern "C" fn aes3_levels_init(levels: &mut Aes3Levels)
    ensures { HasLevels levels.new [] }
{
    levels.blocks = 0;
    keep_samples(SampleFacts::none(Channel::First), &mut levels.first);
    keep_samples(SampleFacts::none(Channel::Second), &mut levels.second);
}

/// Counts the samples of the block of these words.
#[unsafe(no_mangle)]
pub extern "C" fn aes3_levels_add(levels: &mut Aes3Levels, words: &[u32; 384])
    ensures { (blocks : List (List (List Bool))) → HasLevels levels.old blocks
        → HasLevels levels.new (blocks ++ map payload_of words.now ∷ []) }
{
    levels.blocks = levels.blocks.saturating_add(1);
    count_samples(&mut levels.first, words, Channel::First);
    count_samples(&mut levels.second, words, Channel::Second);
}

/// The peak of a channel, 1 or 2, in tenths of a decibel below full scale, to the nearest. 2^32 - 1
/// if all its samples are zero, or if the number is no channel's.
#[unsafe(no_mangle)]
pub extern "C" fn aes3_levels_peak(levels: &Aes3Levels, channel: u8) -> u32
    ensures level { is_channel channel ≡ true → (blocks : List (List (List Bool)))
        → HasLevels levels.now blocks → result ≡ peak_number (channel_of channel) blocks }
    ensures other { is_channel channel ≡ false → result ≡ 2 ^ 32 - 1 }
{
    if !is_channel(channel) {
        return SILENT;
    }
    let samples = samples_of_channel(levels, channel_of_number(channel));
    number_of(u128::from(square(samples.greatest)), FULL_POWER)
}

/// The RMS of a channel, 1 or 2, likewise.
#[unsafe(no_mangle)]
pub extern "C" fn aes3_levels_rms(levels: &Aes3Levels, channel: u8) -> u32
    ensures level { is_channel channel ≡ true → (blocks : List (List (List Bool)))
        → HasLevels levels.now blocks → result ≡ rms_number (channel_of channel) blocks }
    ensures page { is_channel channel ≡ true → (r : List Report)
        → HasLevels levels.now (wholes r) → result
        ≡ rms_number_of (channel_of channel) (wholes r) (report_facts r).whole }
    ensures other { is_channel channel ≡ false → result ≡ 2 ^ 32 - 1 }
{
    if !is_channel(channel) {
        return SILENT;
    }
    let samples = samples_of_channel(levels, channel_of_number(channel));
    number_of(samples.energy, full_energy(levels.blocks))
}
