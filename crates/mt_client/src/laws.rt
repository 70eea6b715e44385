//! What is true of all refusals. The function does nothing: its contract is the law.
ghost use Rattle.mt_client.specs.Laws.{RefusalsAreRead};

/// The line of each refusal of a server is read as a refusal.
pub fn refusals_are_read()
    ensures { RefusalsAreRead }
{}
