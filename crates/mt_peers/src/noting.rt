//! The mounts that a change of states touched.
ghost use Rattle.std.specs.Prelude.{◌≡◌, ◌+◌, ◌<◌, ◌≤◌, [], ◌∷◌, ◌++◌, length};
ghost use Rattle.mt_skel.specs.Keyed.{among};
ghost use Rattle.mt_peers.specs.Entries.{differs, is_changed, noted_of};

use crate::chosen::Chosen;
use crate::entries::Entry;
use mt_lists::log::Log;
use mt_mounts::mount::MountId;

/// Whether two flags differ.
fn differs(left: bool, right: bool) -> bool
    ensures { result ≡ differs left right }
{
    left != right
}

/// Whether a mount's state is not the one that it had when the last change began.
pub(crate) fn is_changed(entry: &Entry) -> bool
    ensures { result ≡ is_changed entry.now }
{
    entry.state.group != entry.was.group
        || entry.state.master != entry.was.master
        || differs(entry.state.unbindable, entry.was.unbindable)
}

/// Notes a mount whose state has changed, or that leaves.
fn note_change(entry: &Entry, leaving: &Chosen<'_>, log: &mut Log)
    requires room { 0 < log.old.room }
    ensures ids { log.new.ids ≡ log.old.ids ++ noted_of (among leaving.now) (entry.now ∷ []) }
    ensures room { log.old.room ≤ log.new.room + 1 }
{
    if is_changed(entry) || leaving.has(entry.mount) {
        log.add(entry.mount);
    }
}

/// Notes each mount whose state is not the one that it had when the last change began, and each that leaves.
pub(crate) fn note_changes(entries: &[Entry], leaving: &Chosen<'_>, log: &mut Log)
    requires room { length entries.now ≤ log.old.room }
    ensures ids { log.new.ids ≡ log.old.ids ++ noted_of (among leaving.now) entries.now }
    ensures room { log.old.room ≤ log.new.room + length entries.now }
{
    for entry in entries {
        note_change(entry, leaving, log);
    }
}

/// Notes all of these mounts.
pub(crate) fn note_all(ids: &[MountId], log: &mut Log)
    requires room { length ids.now ≤ log.old.room }
    ensures ids { log.new.ids ≡ log.old.ids ++ ids.now }
    ensures room { log.old.room ≤ log.new.room + length ids.now }
{
    for id in ids {
        log.add(*id);
    }
}
