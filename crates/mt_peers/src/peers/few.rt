//! A change that settles no master, and is written mount by mount.
ghost use Rattle.std.specs.Prelude.{◌≡◌, ◌+◌, ◌<◌, ◌≤◌, ◌^◌, length, Some, true, nat_eq, IsTrue};
ghost use Rattle.std.specs.List.Sorted.{IsNonDecreasing};
ghost use Rattle.std.specs.Option.{option_map_or};
ghost use Rattle.mt_skel.specs.Keyed.{among};
ghost use Rattle.mt_peers.specs.Peers.{peering_of, state_at, with_state};
ghost use Rattle.mt_peers.specs.Making.{made, is_shared};
ghost use Rattle.mt_peers.specs.Few.{gains, unsettled};

use crate::chosen::Chosen;
use crate::entries::{Entry, fresh_after, give_state, state_after};
use crate::leaving::loses_none;
use crate::noting::is_changed;
use crate::peers::Peers;
use crate::state::{Kind, State};
use mt_mounts::mount::MountId;

/// How many states are gone over in about the time in which one is looked up and written.
const SWEEP: usize = 8;

/// Whether a mount that gets another state keeps its master, and its group if it has one.
fn gains(was: &State, state: &State) -> bool
    ensures { result ≡ gains was.now state.now }
{
    was.master == state.master && (was.group.is_none() || was.group == state.group)
}

/// Whether it is known that each master still has a member once a mount has this state in place of the one that it had,
/// if it is there.
pub(crate) fn stays_live(live: bool, was: Option<State>, state: &State) -> bool
    ensures live { IsTrue result → IsTrue live }
    ensures gains { IsTrue result → IsTrue (option_map_or (λ s. gains s state.now) was true) }
{
    match was {
        Some(was) if live => gains(&was, state),
        _ => live,
    }
}

impl Peers {
    /// Gives a mount this state, answers the one that it had, and forgets what is known of masters.
    pub(crate) fn give(&mut self, id: MountId, state: State) -> Option<State>
        requires room { 0 < self.old.room }
        ensures was { result ≡ state_at self.old.peers id }
        ensures peers { self.new.peers ≡ with_state id state self.old.peers }
        ensures next { self.new.next ≡ self.old.next }
        ensures since { self.new.since ≡ self.old.since }
        ensures room { self.old.room ≤ self.new.room + 1 }
    {
        self.masters_live = false;
        let was = give_state(&mut self.entries, id, state);
        if was.is_some() {
            self.members.set(id, state.group);
            self.slaves.set(id, state.master);
            self.log.add(id);
        }
        was
    }

    /// Whether these mounts can be made so one after the other: they are few beside all, in order, and it is known that no
    /// master is settled then.
    pub(crate) fn is_local(&self, ids: &[MountId], kind: Kind) -> bool
        ensures few { IsTrue result → length ids.now ≤ length self.now.peers }
        ensures sorted { IsTrue result → IsNonDecreasing ids.now }
        ensures same { IsTrue result → made kind (among ids.now) (peering_of self.now) ≡ unsettled kind (among ids.now) (peering_of self.now) }
    {
        if ids.len() > self.len() / SWEEP {
            return false;
        }
        if !self.masters_live {
            return false;
        }
        let chosen = Chosen::new(ids);
        if !chosen.is_sorted() {
            return false;
        }
        loses_none(&self.members, &self.slaves, ids, &chosen, kind)
    }

    /// Gives a mount that is there another state, unless it is the one that it has.
    fn bring(&mut self, entry: &Entry)
        requires there { state_at self.old.peers entry.now.mount ≡ Some entry.now.was }
        requires room { 0 < self.old.room }
        ensures peers { self.new.peers ≡ with_state entry.now.mount entry.now.state self.old.peers }
        ensures next { self.new.next ≡ self.old.next }
        ensures since { self.new.since ≡ self.old.since }
        ensures room { self.old.room ≤ self.new.room + 1 }
    {
        let _alloc = self.allocator();
        if !is_changed(entry) {
            return;
        }
        self.give(entry.mount, entry.state);
    }

    /// Makes a mount so, and settles no master.
    fn change_one(&mut self, id: MountId, kind: Kind)
        requires room { 0 < self.old.room }
        requires numbered { IsTrue (is_shared kind) → self.old.next + 1 < 2 ^ 64 }
        ensures unsettled { peering_of self.new ≡ unsettled kind (nat_eq id) (peering_of self.old) }
        ensures numbers { self.new.next ≤ self.old.next + 1 }
        ensures since { self.new.since ≡ self.old.since }
        ensures room { self.old.room ≤ self.new.room + 1 }
    {
        let _alloc = self.allocator();
        let Some(was) = self.state(id) else {
            return;
        };
        let fresh = self.next_group();
        let state = state_after(kind, fresh, was);
        let entry = Entry {
            mount: id,
            state,
            was,
        };
        self.bring(&entry);
        self.next = fresh_after(kind, true, fresh, &was);
    }

    /// Makes these mounts so, one after the other, and settles no master.
    pub(crate) fn change_each(&mut self, ids: &[MountId], kind: Kind)
        requires sorted { IsNonDecreasing ids.now }
        requires room { length ids.now ≤ self.old.room }
        requires numbered { IsTrue (is_shared kind) → self.old.next + length ids.now < 2 ^ 64 }
        ensures unsettled { peering_of self.new ≡ unsettled kind (among ids.now) (peering_of self.old) }
        ensures since { self.new.since ≡ self.old.since }
        ensures room { self.old.room ≤ self.new.room + length ids.now }
    {
        let _alloc = self.allocator();
        for id in ids {
            self.change_one(*id, kind);
        }
    }
}
