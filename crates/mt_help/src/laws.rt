//! What is true of all examples. The function does nothing: its contract is the law.
ghost use Rattle.mt_help.specs.Laws.{ExamplesAreRead};

/// The example of each verb is read as a request of that verb.
pub fn examples_are_read()
    ensures { ExamplesAreRead }
{}
