// Tapes, and what they mean.
ghost use Rattle.tape_source.specs.Examples.{TapeExamples};

/// The worked examples of tapes hold.
pub fn tape_examples_stand()
    ensures { TapeExamples }
{}
