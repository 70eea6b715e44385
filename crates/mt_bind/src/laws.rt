//! What is true of new namespaces, of their end, and of the commands that make mounts stand,
//! however they are carried out. The functions do nothing: their contracts are the laws.
ghost use Rattle.mt_bind.specs.Laws.{MountKeeps, BindKeeps, MoveKeeps, PivotKeeps, CopyingKeeps, EndingKeeps};
ghost use Rattle.mt_bind.specs.Laws.{LessIsContained, MountKeepsContained, BindKeepsContained, MoveKeepsContained, PivotKeepsContained, MakingKeepsContained, CopyKeepsContained, OpenKeepsContained, TreeKeepsContained, AttachKeepsContained, EndKeepsContained};
ghost use Rattle.mt_bind.specs.Laws.{MountStaysInside, BindStaysInside, MoveStaysInside, PivotStaysInside, AttachStaysInside, EndStaysInside, CopyStaysInside, OpenStaysInside};

/// A well-formed world stays so through a mount that is accepted, through a bind, of one mount or of
/// a tree, through a move, and through a pivot.
pub fn mounting_keeps_worlds()
    ensures mounted { MountKeeps }
    ensures bound { BindKeeps }
    ensures moved { MoveKeeps }
    ensures pivoted { PivotKeeps }
{}

/// When a namespace is copied, a well-formed world stays well-formed: the new namespace has one tree, and each copy
/// shows the filesystem of the group that it joins or receives from. It also does when all mounts of a namespace
/// vanish: the other namespaces keep their trees, and slaves of groups that are gone have masters that live.
pub fn spaces_keep_worlds()
    ensures copied { CopyingKeeps }
    ensures ended { EndingKeeps }
{}

/// A less privileged copy of a namespace is contained: none of its mounts has a group, so nothing
/// outside receives from it.
pub fn less_privileged_copies_are_contained()
    ensures { LessIsContained }
{}

/// A contained family of namespaces stays contained through a mount that is accepted, a bind, a move and a
/// pivot, in whichever namespace they are; when a namespace or a detached tree is made, when one is copied,
/// opened, attached, and when one vanishes. What is copied from the family, or opened in it, counts as one of
/// it. What is attached comes from the side of the place, or has no group and no master.
pub fn contained_namespaces_stay_contained()
    ensures mounted { MountKeepsContained }
    ensures bound { BindKeepsContained }
    ensures moved { MoveKeepsContained }
    ensures pivoted { PivotKeepsContained }
    ensures made { MakingKeepsContained }
    ensures copied { CopyKeepsContained }
    ensures opened { OpenKeepsContained }
    ensures tree { TreeKeepsContained }
    ensures attached { AttachKeepsContained }
    ensures ended { EndKeepsContained }
{}

/// In a contained family a mount, a bind, a move and a pivot change nothing outside it: every other
/// namespace has the mounts that it had, at the same places, with the same attributes, groups and
/// masters. Nor does a tree of the family that is attached in it, the end of one of its namespaces, a copy of
/// one or a tree that is opened in one.
pub fn contained_changes_stay_inside()
    ensures mounted { MountStaysInside }
    ensures bound { BindStaysInside }
    ensures moved { MoveStaysInside }
    ensures pivoted { PivotStaysInside }
    ensures attached { AttachStaysInside }
    ensures ended { EndStaysInside }
    ensures copied { CopyStaysInside }
    ensures opened { OpenStaysInside }
{}
