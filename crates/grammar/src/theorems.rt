// What is true of the definitions alone: each function bears a theorem in its contract.
ghost use Rattle.grammar.specs.Examples.{Examples};
ghost use Rattle.grammar.specs.Progress.{ProductionsTake, RepetitionsUnfold};

/// Every production takes a token where it succeeds, and every repetition is one turn and then the repetition again.
pub fn reading_goes_on()
    ensures { ProductionsTake × RepetitionsUnfold }
{}

/// The worked examples hold of the definitions, from the bytes of a text to words or refusal.
pub fn examples_stand()
    ensures { Examples }
{}
