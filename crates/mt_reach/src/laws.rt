//! What is true of the answers about the rows of a world. The functions do nothing: their contracts are the laws.
ghost use Rattle.mt_reach.specs.Laws.{WalksAgree, ReachedAreHits, NoneIsMissing, MountsComeWhereReached, BusyIsWitnessed, SharedIsWitnessed, UnbindableIsWitnessed, IntoIsWitnessed, OffRootIsWitnessed, RootPlaceIsWitnessed, OutsideIsWitnessed};

/// The mounts that are reached from a directory of a mount are those that receive what happens there, where the rows are those
/// of all namespaces of a well-formed world.
pub fn reached_are_hits()
    ensures { ReachedAreHits }
{}

/// From the rows of a well-formed world it is told of each mount whether it gets what happens in a group: no group above it is
/// without a member.
pub fn none_is_missing()
    ensures { NoneIsMissing }
{}

/// A mount that is accepted makes new mounts just where its path ends, and at that directory of those of the mounts that are
/// reached from there which are in no detached tree.
pub fn mounts_come_where_reached()
    ensures { MountsComeWhereReached }
{}

/// A walk of the rows of a well-formed world ends on the mount and in the directory that the path leads to.
pub fn walks_agree()
    ensures { WalksAgree }
{}

/// The mounts that are named for a refusal are none exactly where the refusal does not hold: for `Busy`, `SharedParent`,
/// `UnbindableInside`, `NotMountRoot` and `RootPlace`, and for `IntoItself` of a move and of a pivot.
pub fn refusals_are_witnessed()
    ensures busy { BusyIsWitnessed }
    ensures shared { SharedIsWitnessed }
    ensures unbindable { UnbindableIsWitnessed }
    ensures into { IntoIsWitnessed }
    ensures off { OffRootIsWitnessed }
    ensures place { RootPlaceIsWitnessed }
    ensures outside { OutsideIsWitnessed }
{}
