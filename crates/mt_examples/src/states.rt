//! What becomes of a mount that is made shared, a slave, private or unbindable: the table of states of the kernel's
//! document on shared subtrees; and what a mount that goes leaves behind.
use mt_mounts::mount::MountId;
use mt_peers::peers::Peers;
use mt_peers::state::{GroupId, Kind, State};
use mt_skel::fault::Fault;
use std::alloc::Global;
use std::test::Fail;

/// The mount that is made something else.
const MOUNT: MountId = 1;

/// Another member of its group, which is group 1, if there is one.
const PEER: MountId = 2;

/// The member of the group that is its master, if there is one.
const MASTER: MountId = 9;

/// The group of [`MASTER`].
const ABOVE: GroupId = 3;

/// The group that a mount gets that is made shared and has none: the first one, since no other was made.
const NEW: GroupId = 1;

/// The kinds, in the order of the table.
const KINDS: [Kind; 4] = [Kind::Shared, Kind::Slave, Kind::Private, Kind::Unbindable];

/// A state with this group and this master.
fn state(group: Option<GroupId>, master: Option<GroupId>) -> State {
    State {
        group,
        master,
        unbindable: false,
    }
}

/// Neither shared nor a slave.
const PRIVATE: State = State {
    group: None,
    master: None,
    unbindable: false,
};

/// Private, and cannot be bound.
const UNBINDABLE: State = State {
    group: None,
    master: None,
    unbindable: true,
};

/// Each state with what becomes of it by each kind: of a shared mount with a peer, and of one without; of a slave; of one
/// that is both, with a peer and without; of a private one; and of an unbindable one.
fn table() -> [(State, bool, [State; 4]); 7] {
    [
        (
            state(Some(1), None),
            true,
            [
                state(Some(1), None),
                state(None, Some(1)),
                PRIVATE,
                UNBINDABLE,
            ],
        ),
        (
            state(Some(1), None),
            false,
            [state(Some(1), None), PRIVATE, PRIVATE, UNBINDABLE],
        ),
        (
            state(None, Some(ABOVE)),
            false,
            [
                state(Some(NEW), Some(ABOVE)),
                state(None, Some(ABOVE)),
                PRIVATE,
                UNBINDABLE,
            ],
        ),
        (
            state(Some(1), Some(ABOVE)),
            true,
            [
                state(Some(1), Some(ABOVE)),
                state(None, Some(1)),
                PRIVATE,
                UNBINDABLE,
            ],
        ),
        (
            state(Some(1), Some(ABOVE)),
            false,
            [
                state(Some(1), Some(ABOVE)),
                state(None, Some(ABOVE)),
                PRIVATE,
                UNBINDABLE,
            ],
        ),
        (
            PRIVATE,
            false,
            [state(Some(NEW), None), PRIVATE, PRIVATE, UNBINDABLE],
        ),
        (
            UNBINDABLE,
            false,
            [state(Some(NEW), None), UNBINDABLE, PRIVATE, UNBINDABLE],
        ),
    ]
}

/// Puts a mount with its state in.
fn add(peers: &mut Peers, id: MountId, state: State) -> Result<(), Fault> {
    if peers.state(id).is_some() {
        return Err(Fault::Busy);
    }
    peers.reserve(1)?;
    peers.join(id, state);
    Ok(())
}

/// A mount of this state, with a peer or without one, below its master.
fn family(alloc: Global, before: State, with_peer: bool) -> Result<Peers, Fault> {
    let mut peers = Peers::new(alloc);
    add(&mut peers, MASTER, state(Some(ABOVE), None))?;
    add(&mut peers, MOUNT, before)?;
    if with_peer {
        add(&mut peers, PEER, before)?;
    }
    Ok(peers)
}

/// What becomes of the mount by a kind.
fn made(alloc: Global, before: State, with_peer: bool, kind: Kind) -> Result<Option<State>, Fault> {
    let mut peers = family(alloc, before, with_peer)?;
    let count = peers.len();
    peers.reserve(count)?;
    if peers.next_group() > NEW {
        return Err(Fault::TooMany);
    }
    peers.make(MOUNT, kind);
    Ok(peers.state(MOUNT))
}

#[test]
fn each_state_becomes_what_the_table_says(rt: HostRuntime) -> Result<(), Fail> {
    for (before, with_peer, after) in table() {
        for (kind, wanted) in KINDS.iter().zip(after) {
            let found = made(rt.alloc(), before, with_peer, *kind)?;
            assert!(rt; found == Some(wanted), "{before:?} {kind:?}: {found:?}");
        }
    }
    Ok(())
}

#[test]
fn a_last_member_leaves_its_slaves_to_its_master(rt: HostRuntime) -> Result<(), Fail> {
    let mut peers = family(rt.alloc(), state(Some(1), Some(ABOVE)), false)?;
    add(&mut peers, PEER, state(None, Some(1)))?;
    let count = peers.len();
    peers.reserve(count)?;
    peers.leave(MOUNT);
    assert!(rt; peers.state(MOUNT).is_none());
    assert!(rt; peers.state(PEER) == Some(state(None, Some(ABOVE))));
    Ok(())
}
