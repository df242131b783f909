//! Laws of sound files: the contract of each function is a law over all samples or all formats.

ghost use Rattle.aes3_wave_runs.specs.Laws.{SamplesComeBack};
ghost use Rattle.aes3_wave_runs.specs.Status.{RateIsNamed};

/// The sampling frequency that a status is made for is read back from it, if it has a code.
pub fn rate_is_named()
    ensures { RateIsNamed }
{}

/// The samples of a WAV file that `to_wav` writes are those of its blocks, in the number of bits
/// that the file has.
pub fn samples_come_back()
    ensures { SamplesComeBack }
{}
