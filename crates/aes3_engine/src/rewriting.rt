//! Blocks with changed channel status, V and U bits.

ghost use Rattle.std.specs.Prelude.{◌≡◌, length};
ghost use Rattle.aes3_frame.specs.Blocks.{IsBlock};
ghost use Rattle.aes3_frame.specs.Statuses.{status_of};
ghost use Rattle.aes3_engine.specs.Rewriting.{IsStatus, all_bits, cleared, mended_status};
ghost use Rattle.aes3_engine.specs.Rewriting.{rewritten, set_user, set_validity};
ghost use Rattle.aes3_engine.specs.Rewriting.{with_bits_given, with_status_changed};

use aes3_block::{Block, Channel};
use aes3_status::{Change, Settings, Status, set_fields, with_check};

/// The bytes of a channel's bits that all have this value.
#[tactic(auto, unfolding(aes3_frame::specs::Statuses::status_len))]
fn all_bits(bit: bool) -> [u8; 24]
    ensures { result ≡ all_bits bit }
{
    if bit { [u8::MAX; 24] } else { [0; 24] }
}

/// Sets all validity bits of a channel to a value, if one is given.
fn set_validity(block: &mut Block, channel: Channel, bit: Option<bool>)
    ensures { block.new ≡ set_validity channel bit block.old }
{
    if let Some(bit) = bit {
        block.set_validity(channel, &all_bits(bit));
    }
}

/// Clears the user bits of a channel, if asked.
fn clear_user(block: &mut Block, channel: Channel, asked: bool)
    ensures { block.new ≡ set_user channel (cleared asked) block.old }
{
    if asked {
        block.set_user(channel, &all_bits(false));
    }
}

/// Sets the validity bits and the user bits of a block.
fn set_bits(block: &mut Block, change: &Change)
    ensures { block.new ≡ with_bits_given change.now block.old }
{
    set_validity(block, Channel::First, change.validity1);
    set_validity(block, Channel::Second, change.validity2);
    clear_user(block, Channel::First, change.clear_user1);
    clear_user(block, Channel::Second, change.clear_user2);
}

/// The channel status of a channel. The contract also says that the block is whole.
fn channel_status(block: &Block, channel: Channel) -> [u8; 24]
    ensures status { result ≡ status_of block.now channel }
    ensures whole { IsBlock block.now }
{
    let _words = block.words();
    block.channel_status(channel)
}

/// Gives a proof the fact that this status has 24 bytes. It does nothing.
fn know_status(status: &[u8])
    requires { length status.now ≡ 24 }
    ensures { IsStatus status.now }
{}

/// A status with the right check byte, if it is for professional use.
fn mended_status(status: [u8; 24]) -> [u8; 24]
    ensures { result ≡ mended_status status }
{
    match Status::read(&status) {
        Status::Professional(_) => with_check(status),
        Status::Consumer(_) => status,
    }
}

/// Changes the status of a channel. It is read and written once, whatever is set in it, and not
/// written if it does not change.
fn change_status(
    block: &mut Block,
    channel: Channel,
    status: &Option<[u8; 24]>,
    settings: &Option<Settings>,
    mend: bool,
)
    ensures { block.new
        ≡ with_status_changed channel status.now settings.now mend block.old }
{
    if status.is_none() && settings.is_none() && !mend {
        return;
    }
    let old = channel_status(block, channel);
    let mut new = status.unwrap_or(old);
    know_status(&new);
    if let Some(settings) = settings {
        set_fields(&mut new, settings);
    }
    know_status(&new);
    if mend {
        new = mended_status(new);
    }
    if new != old {
        block.set_channel_status(channel, &new);
    }
}

/// Changes the validity bits, the user bits and the channel status of a block.
pub(crate) fn rewrite_block(block: &mut Block, change: &Change)
    ensures { block.new ≡ rewritten change.now block.old }
{
    set_bits(block, change);
    change_status(
        block,
        Channel::First,
        &change.status1,
        &change.settings1,
        change.mend,
    );
    change_status(
        block,
        Channel::Second,
        &change.status2,
        &change.settings2,
        change.mend,
    );
}
