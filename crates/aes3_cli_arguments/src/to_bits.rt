//! What `to-bits` does.

ghost use Rattle.std.specs.Prelude.{◌≡◌, Some, codes};
ghost use Rattle.aes3_frame.specs.declared.block.Channel.{Channel};
ghost use Rattle.aes3_frame.specs.declared.block.CarriedBits.{CarriedBits};
ghost use Rattle.aes3_cli_arguments.specs.Jobs.{AsksToRead, IsNumber, bits_by, bits_in, number_of};
ghost use Rattle.aes3_cli_arguments.specs.Jobs.{options_of};

use crate::choice::{Choice, chosen};
use crate::value::number;
use aes3_cli_jobs::ReadWork;
use aes3_frame::{CarriedBits, Channel};
use clap::ArgMatches;

/// What `to-bits` does, with its options.
pub(crate) fn to_bits(options: &ArgMatches<'_>) -> ReadWork
    requires bits { (bits : CarriedBits) × (bits_by (options_of options.now) ≡ Some bits) }
    requires channel { (channel : Channel)
        × IsNumber (options_of options.now) (codes "CHANNEL") (number_of channel) }
    ensures { AsksToRead (codes "to-bits") (options_of options.now) result }
{
    ReadWork::ToBits {
        bits: chosen(options, "BITS").unwrap(),
        channel: channel(options),
    }
}

impl Choice for CarriedBits {
    ghost chosen_by = { bits_in };

    fn of_word(word: &str) -> Option<Self> {
        match word {
            "user" => Some(CarriedBits::User),
            "validity" => Some(CarriedBits::Validity),
            "status" => Some(CarriedBits::Status),
            _ => None,
        }
    }
}

/// The channel of the number that the options give.
fn channel(options: &ArgMatches<'_>) -> Channel
    requires { (channel : Channel)
        × IsNumber (options_of options.now) (codes "CHANNEL") (number_of channel) }
    ensures { IsNumber (options_of options.now) (codes "CHANNEL") (number_of result) }
{
    match number(options, "CHANNEL") {
        1 => Channel::First,
        _ => Channel::Second,
    }
}
