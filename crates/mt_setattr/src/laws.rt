//! What is true of changes of mounts, however they are made. The functions do nothing: their
//! contracts are the laws.
ghost use Rattle.mt_setattr.specs.Laws.{ChangingKeeps, ChangingKeepsContained, ChangingStaysInside};

/// Changed attributes and changed propagation leave a well-formed world well-formed: its mounts are
/// the same trees, its groups and masters are in order, and the mounts of a group show one
/// filesystem.
pub fn changing_keeps_worlds()
    ensures { ChangingKeeps }
{}

/// A contained family of namespaces stays contained when mounts are changed, in whichever namespace (`kept`). A change in it
/// changes nothing outside: the mounts to which it applies are in it, and so is each mount that loses a master by it
/// (`inside`).
pub fn changing_stays_inside()
    ensures kept { ChangingKeepsContained }
    ensures inside { ChangingStaysInside }
{}
