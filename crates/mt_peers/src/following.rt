//! Mounts whose states become what others have of them, in the list of states and in those of members and slaves.
ghost use Rattle.std.specs.Prelude.{◌≡◌, ℕ, ◌+◌, ◌<◌, ◌≤◌, ◌∷◌, [], length, IsTrue, vec_capacity, vec_len};
ghost use Rattle.std.specs.Option.{option_and_then};
ghost use Rattle.mt_skel.specs.Keyed.{rises};
ghost use Rattle.mt_lists.specs.Lists.{listed_id, listed_number};
ghost use Rattle.mt_lists.specs.Log.{AreAlikeBut};
ghost use Rattle.mt_peers.specs.Peers.{mount_of, state_at};
ghost use Rattle.mt_peers.specs.Members.{group_at, master_at};
ghost use Rattle.mt_peers.specs.Entries.{now_peers};

use crate::entries::{Entry, add_entry, drop_entry, find_state, give_state};
use crate::state::State;
use mt_lists::lists::Lists;
use mt_mounts::mount::MountId;

/// How many states can be copied in about the time in which one is looked up and written.
const SWEEP: usize = 32;

/// How many states are taken out one after another at most: each moves all behind it.
const MOST_TAKEN: usize = 4;

/// Lists a mount by its group and its master, or takes it out of both lists if it has no state.
fn list_state(members: &mut Lists, slaves: &mut Lists, id: MountId, state: Option<State>)
    requires members_room { 0 < members.old.room }
    requires slaves_room { 0 < slaves.old.room }
    ensures group { listed_number members.new.rows id ≡ option_and_then (λ s. s.group) state }
    ensures other_groups { AreAlikeBut (id ∷ []) (listed_number members.old.rows) (listed_number members.new.rows) }
    ensures master { listed_number slaves.new.rows id ≡ option_and_then (λ s. s.master) state }
    ensures other_masters { AreAlikeBut (id ∷ []) (listed_number slaves.old.rows) (listed_number slaves.new.rows) }
    ensures members_left { members.old.room ≤ members.new.room + 1 }
    ensures slaves_left { slaves.old.room ≤ slaves.new.room + 1 }
{
    let _rising = (members.len(), slaves.len());
    match state {
        Some(state) => {
            members.set(id, state.group);
            slaves.set(id, state.master);
        }
        None => {
            members.remove(id);
            slaves.remove(id);
        }
    }
}

/// Lists these mounts as others have them.
pub(crate) fn follow_lists(
    members: &mut Lists,
    slaves: &mut Lists,
    others: &[Entry],
    ids: &[MountId],
)
    requires rising { IsTrue (rises mount_of (now_peers others.now)) }
    requires members_room { length ids.now ≤ members.old.room }
    requires slaves_room { length ids.now ≤ slaves.old.room }
    requires groups { AreAlikeBut ids.now (listed_number members.old.rows) (group_at (now_peers others.now)) }
    requires masters { AreAlikeBut ids.now (listed_number slaves.old.rows) (master_at (now_peers others.now)) }
    ensures members { IsTrue (rises listed_id members.new.rows) × ((i : ℕ) → listed_number members.new.rows i ≡ group_at (now_peers others.now) i) }
    ensures slaves { IsTrue (rises listed_id slaves.new.rows) × ((i : ℕ) → listed_number slaves.new.rows i ≡ master_at (now_peers others.now) i) }
{
    for id in ids {
        let state = find_state(others, *id);
        list_state(members, slaves, *id, state);
    }
    let _rising = (members.len(), slaves.len());
}

/// Gives a mount, whether it is there or not, this state, or takes it out if it has none.
fn bring(entries: &mut Vec<Entry>, id: MountId, state: Option<State>)
    requires rising { IsTrue (rises mount_of (now_peers entries.old.items)) }
    requires room { vec_len entries.old < vec_capacity entries.old }
    ensures here { state_at (now_peers entries.new.items) id ≡ state }
    ensures others { AreAlikeBut (id ∷ []) (state_at (now_peers entries.old.items)) (state_at (now_peers entries.new.items)) }
    ensures rising { IsTrue (rises mount_of (now_peers entries.new.items)) }
    ensures len { vec_len entries.new ≤ vec_len entries.old + 1 }
    ensures capacity { vec_capacity entries.new ≡ vec_capacity entries.old }
{
    let Some(state) = state else {
        return drop_entry(entries, id);
    };
    if find_state(entries, id).is_some() {
        give_state(entries, id, state);
    } else {
        add_entry(entries, id, state);
    }
}

/// Makes the states of these mounts, one after another, what they are in others.
fn follow_each(entries: &mut Vec<Entry>, others: &[Entry], ids: &[MountId])
    requires rising { IsTrue (rises mount_of (now_peers entries.old.items)) }
    requires others_rising { IsTrue (rises mount_of (now_peers others.now)) }
    requires room { vec_len entries.old + length ids.now ≤ vec_capacity entries.old }
    requires alike { AreAlikeBut ids.now (state_at (now_peers entries.old.items)) (state_at (now_peers others.now)) }
    ensures peers { now_peers entries.new.items ≡ now_peers others.now }
{
    for id in ids {
        let state = find_state(others, *id);
        bring(entries, *id, state);
    }
}

/// Makes the states equal to others, from which only those of these mounts differ: each of them is written, or, where they
/// are many or several go, all states are copied in one pass.
pub(crate) fn follow_entries(entries: &mut Vec<Entry>, others: &[Entry], ids: &[MountId])
    requires rising { IsTrue (rises mount_of (now_peers entries.old.items)) }
    requires others_rising { IsTrue (rises mount_of (now_peers others.now)) }
    requires room { vec_len entries.old + length ids.now ≤ vec_capacity entries.old }
    requires enough { length others.now ≤ vec_capacity entries.old }
    requires alike { AreAlikeBut ids.now (state_at (now_peers entries.old.items)) (state_at (now_peers others.now)) }
    ensures peers { now_peers entries.new.items ≡ now_peers others.now }
{
    let is_no_less = entries.len() <= others.len();
    if (is_no_less || ids.len() <= MOST_TAKEN) && ids.len() < others.len() / SWEEP {
        return follow_each(entries, others, ids);
    }
    entries.clear();
    entries.extend_from_slice(others).unwrap();
}
