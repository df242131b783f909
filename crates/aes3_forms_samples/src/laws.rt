//! Laws of samples in other forms: the contract of each function is a law over all samples.

ghost use Rattle.aes3_forms_samples.specs.Laws.{FittingComeBack, WidenedAreNarrowed};

/// Samples in a form are unchanged after conversion to samples of 32 bits and back.
pub fn widened_are_narrowed()
    ensures { WidenedAreNarrowed }
{}

/// Samples of 24 bits that lose nothing in a form are unchanged after conversion to it and back.
pub fn fitting_come_back()
    ensures { FittingComeBack }
{}
