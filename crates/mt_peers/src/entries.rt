//! Mounts with their states, in a list by rising ID.
ghost use Rattle.std.specs.Prelude.{◌≡◌, ◌+◌, ◌<◌, ◌≤◌, ◌^◌, map, length, cond, not, ◌&&◌, is_none, nat_eq, nat_lt, None, true, IsTrue, vec_capacity, vec_len};
ghost use Rattle.std.specs.List.{filter, position_or_len};
ghost use Rattle.mt_skel.specs.Keyed.{put, rises, among};
ghost use Rattle.mt_peers.specs.Peers.{mount_of, state_at};
ghost use Rattle.mt_peers.specs.Making.{changed, is_shared, groupless};
ghost use Rattle.mt_peers.specs.Entries.{now_peers, changed_entry, given_entry};

use crate::chosen::Chosen;
use crate::state::{GroupId, Kind, State};
use mt_mounts::mount::MountId;

/// A mount's state, and the state that it had when the last change began.
#[derive(Clone, Copy)]
pub(crate) struct Entry {
    pub(crate) mount: MountId,
    pub(crate) state: State,
    pub(crate) was: State,
}

/// The state of a mount, found by halving the list.
pub(crate) fn find_state(entries: &[Entry], id: MountId) -> Option<State>
    requires { IsTrue (rises mount_of (now_peers entries.now)) }
    ensures { result ≡ state_at (now_peers entries.now) id }
{
    match entries.binary_search_by_key(&id, |entry| entry.mount) {
        Ok(at) => Some(entries[at].state),
        Err(_) => None,
    }
}

/// Whether the last mount of the list is this one or has a lower ID.
fn ends_by(entries: &[Entry], id: MountId) -> bool
    requires { IsTrue (rises mount_of (now_peers entries.now)) }
    ensures { result ≡ true → position_or_len (λ e. nat_lt id e.mount) entries.now ≡ length entries.now }
{
    match entries.last() {
        Some(last) => last.mount <= id,
        None => false,
    }
}

/// Where an entry of this mount goes: at the end, or found by halving the list.
fn place_for(entries: &[Entry], id: MountId) -> usize
    requires { IsTrue (rises mount_of (now_peers entries.now)) }
    ensures place { result ≡ position_or_len (λ e. nat_lt id e.mount) entries.now }
    ensures within { result ≤ length entries.now }
{
    if ends_by(entries, id) {
        return entries.len();
    }
    entries.partition_point(|entry| entry.mount <= id)
}

/// Adds a mount that is not there yet, for which there is room.
pub(crate) fn add_entry(entries: &mut Vec<Entry>, id: MountId, state: State)
    requires rising { IsTrue (rises mount_of (now_peers entries.old.items)) }
    requires absent { state_at (now_peers entries.old.items) id ≡ None }
    requires room { vec_len entries.old < vec_capacity entries.old }
    ensures peers { now_peers entries.new.items ≡ put mount_of (record { mount = id; state = state }) (now_peers entries.old.items) }
    ensures len { vec_len entries.new ≡ vec_len entries.old + 1 }
    ensures capacity { vec_capacity entries.new ≡ vec_capacity entries.old }
{
    let place = place_for(entries, id);
    let entry = Entry {
        mount: id,
        state,
        was: state,
    };
    entries.insert(place, entry).unwrap();
}

/// Gives the mount with this ID, if it is there, this state. Answers the state that it had.
pub(crate) fn give_state(entries: &mut [Entry], id: MountId, state: State) -> Option<State>
    requires { IsTrue (rises mount_of (now_peers entries.old)) }
    ensures entries { entries.new ≡ map (given_entry id state) entries.old }
    ensures was { result ≡ state_at (now_peers entries.old) id }
{
    match entries.binary_search_by_key(&id, |entry| entry.mount) {
        Ok(at) => {
            let was = entries[at].state;
            entries[at].state = state;
            Some(was)
        }
        Err(_) => None,
    }
}

/// Takes the mount with this ID, if it is there, out of the list.
pub(crate) fn drop_entry(entries: &mut Vec<Entry>, id: MountId)
    requires { IsTrue (rises mount_of (now_peers entries.old.items)) }
    ensures entries { entries.new.items ≡ filter (λ e. not (nat_eq id e.mount)) entries.old.items }
    ensures len { vec_len entries.new ≤ vec_len entries.old }
    ensures capacity { vec_capacity entries.new ≡ vec_capacity entries.old }
{
    if let Ok(at) = entries.binary_search_by_key(&id, |entry| entry.mount) {
        entries.remove(at);
    }
}

/// Takes these mounts, as far as they are there, out of the list.
pub(crate) fn drop_entries(entries: &mut Vec<Entry>, ids: &Chosen<'_>)
    ensures entries { entries.new.items ≡ filter (λ e. not (among ids.now e.mount)) entries.old.items }
    ensures len { vec_len entries.new ≤ vec_len entries.old }
    ensures capacity { vec_capacity entries.new ≡ vec_capacity entries.old }
{
    entries.retain(|entry| !ids.has(entry.mount));
}

/// The state after a change. A mount without group would get the group `fresh`.
pub(crate) fn state_after(kind: Kind, fresh: GroupId, state: State) -> State
    ensures { result ≡ changed kind fresh state }
{
    match kind {
        Kind::Shared => State {
            group: state.group.or(Some(fresh)),
            master: state.master,
            unbindable: false,
        },
        Kind::Private => State {
            group: None,
            master: None,
            unbindable: false,
        },
        Kind::Slave => State {
            group: None,
            master: state.group.or(state.master),
            unbindable: state.unbindable,
        },
        Kind::Unbindable => State {
            group: None,
            master: None,
            unbindable: true,
        },
    }
}

/// A mount's entry after a change, if the change chooses it, with the state that it had before.
fn entry_after(kind: Kind, chosen: bool, fresh: GroupId, entry: &Entry) -> Entry
    ensures { result ≡ record { mount = entry.now.mount; state = cond chosen (changed kind fresh entry.now.state) entry.now.state; was = entry.now.state } }
{
    let state = if chosen {
        state_after(kind, fresh, entry.state)
    } else {
        entry.state
    };
    Entry {
        mount: entry.mount,
        state,
        was: entry.state,
    }
}

/// The next new group after a mount's change, which may have taken `fresh`.
pub(crate) fn fresh_after(kind: Kind, chosen: bool, fresh: GroupId, was: &State) -> GroupId
    requires numbered { IsTrue (is_shared kind) → fresh + 1 < 2 ^ 64 }
    ensures { result ≡ cond (is_shared kind && (chosen && is_none was.now.group)) (fresh + 1) fresh }
{
    let is_new = chosen && was.group.is_none();
    match kind {
        Kind::Shared if is_new => fresh + 1,
        _ => fresh,
    }
}

/// Changes the states of these mounts and keeps what all states were. Returns the next new group.
pub(crate) fn change_all(
    entries: &mut [Entry],
    ids: &Chosen<'_>,
    kind: Kind,
    next: GroupId,
) -> GroupId
    requires rising { IsTrue (rises mount_of (now_peers entries.old)) }
    requires numbered { IsTrue (is_shared kind) → next + length entries.old < 2 ^ 64 }
    ensures entries { entries.new ≡ map (changed_entry kind ids.now next entries.old) entries.old }
    ensures next { result ≡ cond (is_shared kind) (next + length (groupless (among ids.now) (now_peers entries.old))) next }
{
    let mut fresh = next;
    for i in 0..entries.len() {
        let chosen = ids.has(entries[i].mount);
        let after = entry_after(kind, chosen, fresh, &entries[i]);
        fresh = fresh_after(kind, chosen, fresh, &entries[i].state);
        entries[i] = after;
    }
    fresh
}
