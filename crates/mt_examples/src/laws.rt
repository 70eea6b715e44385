//! What is true of what a session answers and a client reads. The function does nothing: its contract is the law.
ghost use Rattle.mt_examples.specs.AnswersAreRead.{AnswersAreRead};

/// What a session answers is an answer as a client reads it, in each form, and so is a refusal in the place of each.
pub fn answers_are_read()
    ensures { AnswersAreRead }
{}
