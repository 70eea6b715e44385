//! What is true of an unmount and of a detach, however the mounts that go are found. The functions
//! do nothing: their contracts are the laws.
ghost use Rattle.mt_unmount.specs.Laws.{UnmountingKeeps, UnmountingKeepsContained, UnmountingStaysInside};
ghost use Rattle.mt_unmount.specs.Laws.{DetachingKeeps, DetachingKeepsContained, DetachingStaysInside};
ghost use Rattle.mt_unmount.specs.Laws.{DetachingTakesWhole, DetachingRevealsNothing, DetachingTakesMost};

/// An accepted unmount leaves a well-formed world well-formed: no two mounts slide to one place, each
/// stands on a mount that stays, and no mount is left with a master that has no member.
pub fn unmounting_keeps_worlds()
    ensures { UnmountingKeeps }
{}

/// A contained namespace stays contained through an accepted unmount, in whichever namespace (`kept`). An unmount in it
/// changes nothing outside: what goes is in it, and so is everything that slides or loses a master by that (`inside`).
pub fn unmounting_stays_inside()
    ensures kept { UnmountingKeepsContained }
    ensures inside { UnmountingStaysInside }
{}

/// An accepted detach leaves a well-formed world well-formed: with each mount goes everything inside it, so that what
/// stays stands on a mount that stays.
pub fn detaching_keeps_worlds()
    ensures { DetachingKeeps }
{}

/// A contained namespace stays contained through an accepted detach, in whichever namespace (`kept`). A detach in it
/// changes nothing outside: the tree is in it, and so is everything that is received (`inside`).
pub fn detaching_stays_inside()
    ensures kept { DetachingKeepsContained }
    ensures inside { DetachingStaysInside }
{}

/// With each mount that a detach takes away goes everything inside it, and none that goes is a root mount (`whole`). One
/// that is locked on its place goes only with the mount on which it stands, unless the named mount receives it
/// (`reveals`). No set of candidates for which both are true has a mount that the detach leaves (`most`).
pub fn detaching_takes_most()
    ensures whole { DetachingTakesWhole }
    ensures reveals { DetachingRevealsNothing }
    ensures most { DetachingTakesMost }
{}
