//! What is true of all refusals. The function does nothing: its contract is the law.
ghost use Rattle.mt_protocol.specs.Laws.{NamesTellRefusals};

/// The name of each refusal is read as that refusal.
pub fn names_tell_refusals()
    ensures { NamesTellRefusals }
{}
