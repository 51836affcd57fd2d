// Texts with what they mean.
ghost use Rattle.text_source.specs.Examples.{TextExamples};

/// The examples of texts and what they mean stand.
pub fn text_examples_stand()
    ensures { TextExamples }
{}
