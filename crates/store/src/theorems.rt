// What holds of every table, borne by a function so that a reader finds it beside the code.
ghost use Rattle.store.specs.Means.{PartsStandAfter};

/// The parts of a record stand after it in the table, and so does what follows it: a walk along the links ends.
pub fn parts_stand_after()
    ensures { PartsStandAfter }
{}
