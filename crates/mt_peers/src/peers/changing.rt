//! Changes of many mounts at once: groups are made and left, masters are settled, and states are taken over from other
//! peers.
ghost use Rattle.std.specs.Prelude.{◌≡◌, ◌+◌, ◌<◌, ◌≤◌, ◌^◌, length, nat_eq, IsTrue, OnOk, IsOkUnless};
ghost use Rattle.mt_skel.specs.Keyed.{among, without};
ghost use Rattle.mt_lists.specs.Log.{AreAlikeBut};
ghost use Rattle.mt_peers.specs.Peers.{peering_of, state_at};
ghost use Rattle.mt_peers.specs.Loss.{left};
ghost use Rattle.mt_peers.specs.Making.{made, is_shared};
ghost use Rattle.mt_peers.specs.WellFormed.{IsPeering};

use crate::chosen::Chosen;
use crate::following::{follow_entries, follow_lists};
use crate::leaving::{drop_all, may_all_go, take_out};
use crate::noting::{note_all, note_changes};
use crate::peers::Peers;
use crate::settling::make_entries;
use crate::state::Kind;
use mt_lists::earlier::Earlier;
use mt_mounts::mount::MountId;
use mt_skel::fault::Fault;

impl Peers {
    /// Makes these mounts so, whatever that does to masters: it goes over all states.
    fn change_all(&mut self, ids: &[MountId], kind: Kind)
        requires room { length self.old.peers ≤ self.old.room }
        requires numbered { IsTrue (is_shared kind) → self.old.next < 2 ^ 63 }
        ensures made { peering_of self.new ≡ made kind (among ids.now) (peering_of self.old) }
        ensures since { self.new.since ≡ self.old.since }
        ensures room { self.old.room ≤ self.new.room + length self.old.peers }
        ensures kept { IsPeering (peering_of self.old) → IsPeering (peering_of self.new) }
    {
        let chosen = Chosen::new(ids);
        let next = make_entries(
            &mut self.entries,
            &mut self.members,
            &mut self.slaves,
            &mut self.vanished,
            &chosen,
            kind,
            self.next,
        );
        note_changes(&self.entries, &Chosen::new(&[]), &mut self.log);
        self.next = next;
        self.masters_live = true;
    }

    /// Makes these mounts so. Only new groups need numbers.
    fn change(&mut self, ids: &[MountId], kind: Kind)
        requires room { length self.old.peers ≤ self.old.room }
        requires numbered { IsTrue (is_shared kind) → self.old.next < 2 ^ 63 }
        ensures made { peering_of self.new ≡ made kind (among ids.now) (peering_of self.old) }
        ensures since { self.new.since ≡ self.old.since }
        ensures room { self.old.room ≤ self.new.room + length self.old.peers }
        ensures kept { IsPeering (peering_of self.old) → IsPeering (peering_of self.new) }
    {
        let _alloc = self.allocator();
        if !self.is_local(ids, kind) {
            return self.change_all(ids, kind);
        }
        self.change_each(ids, kind);
        self.masters_live = true;
    }

    /// Makes a mount shared, private, a slave or unbindable. An ID that is not there changes nothing. It needs no
    /// memory: [`reserve`](Peers::reserve) has made room for as many as there are.
    pub fn make(&mut self, id: MountId, kind: Kind)
        requires room { length self.old.peers ≤ self.old.room }
        requires numbered { self.old.next < 2 ^ 63 }
        ensures made { peering_of self.new ≡ made kind (nat_eq id) (peering_of self.old) }
        ensures since { self.new.since ≡ self.old.since }
        ensures room { self.old.room ≤ self.new.room + length self.old.peers }
        ensures kept { IsPeering (peering_of self.old) → IsPeering (peering_of self.new) }
    {
        self.change(&[id], kind);
    }

    /// Makes all mounts with these IDs so at once, before any gets another master. The IDs may be in
    /// any order; new groups are numbered by rising ID. It needs room as [`make`](Peers::make) does.
    pub fn make_all(&mut self, ids: &[MountId], kind: Kind)
        requires room { length self.old.peers ≤ self.old.room }
        requires numbered { self.old.next < 2 ^ 63 }
        ensures made { peering_of self.new ≡ made kind (among ids.now) (peering_of self.old) }
        ensures since { self.new.since ≡ self.old.since }
        ensures room { self.old.room ≤ self.new.room + length self.old.peers }
        ensures kept { IsPeering (peering_of self.old) → IsPeering (peering_of self.new) }
    {
        self.change(ids, kind);
    }

    /// Takes a mount away, out of its group. An ID that is not there changes nothing. It needs room as
    /// [`make`](Peers::make) does.
    pub fn leave(&mut self, id: MountId)
        requires room { length self.old.peers ≤ self.old.room }
        ensures left { peering_of self.new ≡ left (nat_eq id) (peering_of self.old) }
        ensures since { self.new.since ≡ self.old.since }
        ensures room { self.old.room ≤ self.new.room + length self.old.peers }
        ensures kept { IsPeering (peering_of self.old) → IsPeering (peering_of self.new) }
    {
        self.leave_all(&[id]);
    }

    /// Takes all mounts with these IDs away at once, out of their groups, before any other gets
    /// another master. The IDs may be in any order; one that is not there changes nothing. It needs room
    /// as [`make`](Peers::make) does.
    pub fn leave_all(&mut self, ids: &[MountId])
        requires room { length self.old.peers ≤ self.old.room }
        ensures left { peering_of self.new ≡ left (among ids.now) (peering_of self.old) }
        ensures since { self.new.since ≡ self.old.since }
        ensures room { self.old.room ≤ self.new.room + length self.old.peers }
        ensures kept { IsPeering (peering_of self.old) → IsPeering (peering_of self.new) }
    {
        let gone = Chosen::new(ids);
        let next = make_entries(
            &mut self.entries,
            &mut self.members,
            &mut self.slaves,
            &mut self.vanished,
            &gone,
            Kind::Private,
            self.next,
        );
        self.next = next;
        note_changes(&self.entries, &gone, &mut self.log);
        drop_all(&mut self.entries, ids);
        self.masters_live = true;
    }

    /// Takes these mounts away, and settles no master. There is room to note as many.
    fn take_away(&mut self, ids: &[MountId])
        requires room { length ids.now ≤ self.old.room }
        ensures peers { self.new.peers ≡ without (λ e. among ids.now e.mount) self.old.peers }
        ensures next { self.new.next ≡ self.old.next }
        ensures since { self.new.since ≡ self.old.since }
        ensures room { self.old.room ≤ self.new.room + length ids.now }
    {
        take_out(&mut self.entries, &mut self.members, &mut self.slaves, ids);
        note_all(ids, &mut self.log);
        self.masters_live = false;
    }

    /// Takes mounts away as [`leave_all`](Peers::leave_all) does, if groups and masters are in order: it settles no
    /// master if no group goes that has slaves that stay, and no more mounts are named than there are.
    pub fn leave_in_order(&mut self, ids: &[MountId])
        requires order { IsPeering (peering_of self.old) }
        requires room { length self.old.peers ≤ self.old.room }
        ensures left { peering_of self.new ≡ left (among ids.now) (peering_of self.old) }
        ensures since { self.new.since ≡ self.old.since }
        ensures room { self.old.room ≤ self.new.room + length self.old.peers }
        ensures kept { IsPeering (peering_of self.new) }
    {
        if ids.len() > self.entries.len() {
            return self.leave_all(ids);
        }
        if may_all_go(&self.members, &self.slaves, ids, &Chosen::new(ids)) {
            self.take_away(ids);
            self.masters_live = true;
        } else {
            self.leave_all(ids);
        }
    }

    /// Brings the states of these mounts to what they are in other peers, from which no other differs, takes over the
    /// number of the next group, and begins; nothing is noted on the way. If many are named, the list of states is
    /// copied as a whole. A refusal comes before anything has changed.
    pub fn follow(&mut self, other: &Peers, ids: &[MountId]) -> Result<(), Fault>
        requires alike { AreAlikeBut ids.now (state_at self.old.peers) (state_at other.now.peers) }
        ensures peering { OnOk result (peering_of self.new ≡ peering_of other.now) }
        ensures since { OnOk result (self.new.since ≡ other.now.peers) }
        ensures memory { IsOkUnless result Fault.NoMemory }
    {
        let _alloc = other.allocator();
        self.reserve(ids.len())?;
        let more = other.entries.len().saturating_sub(self.entries.len());
        self.entries.reserve(more)?;
        follow_lists(&mut self.members, &mut self.slaves, &other.entries, ids);
        follow_entries(&mut self.entries, &other.entries, ids);
        self.next = other.next;
        self.masters_live = other.masters_live;
        self.log.clear();
        self.since = Earlier::of(&self.entries);
        Ok(())
    }
}
