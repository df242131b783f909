//! Laws of whole runs: the contract of each function is a law over all samples or all blocks.

ghost use Rattle.aes3_engine.specs.Carrying.{BitsComeBack};
ghost use Rattle.aes3_engine.specs.SampleLaws.{SamplesComeBack};

/// Samples of 24 bits come back in any form through `from_pcm_words`, `encode` and `to_pcm`. In the
/// form of 16 bits, samples of 16 bits do.
pub fn samples_come_back()
    ensures { SamplesComeBack }
{}

/// Validity and user bits that `rewrite` sets come back through `to_bits`, in each channel by
/// itself. Those that it does not set come back unchanged.
pub fn bits_come_back()
    ensures { BitsComeBack }
{}
