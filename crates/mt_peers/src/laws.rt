//! What is true of all peers, however they are found or changed. The functions do nothing: their
//! contracts are the laws.
ghost use Rattle.mt_peers.specs.Laws.{ClosureIsReach, MakingKeeps, LeavingKeeps};

/// Who receives what happens in a peer group `g`: a set of groups that holds `g`, that holds with a
/// group each group whose master it is, and that holds only groups from which `g` is reached, is
/// the set of all groups from which `g` is reached. So a scan that is repeated until nothing is
/// added finds the same as a list of groups to be visited.
pub fn closure_is_reach()
    ensures { ClosureIsReach }
{}

/// A change of the states of any mounts at once, to any kind, keeps groups and masters in order.
pub fn making_keeps_order()
    ensures { MakingKeeps }
{}

/// When mounts leave, and others get the masters above a group that has gone, groups and masters
/// stay in order.
pub fn leaving_keeps_order()
    ensures { LeavingKeeps }
{}
