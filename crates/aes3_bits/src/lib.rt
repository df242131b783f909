//! The bits of a number, in the terms of the contracts of time slots and of channel status.
#![tactic(auto)]

ghost use Rattle.aes3_bits.specs.Laws.{BitsOfTheirNumber, NumberOfItsBits};

/// A number that fits into n bits is the number of these bits. A list of bits is the bits of its
/// number.
pub fn bits_and_numbers()
    ensures number { NumberOfItsBits }
    ensures bits { BitsOfTheirNumber }
{}
