//! Where the stacks of mounts lead: from the first place of a stack to its last, in one look.
ghost use Rattle.std.specs.Prelude.{◌≡◌, ◌≢◌, ℕ, suc, ◌+◌, ◌<◌, ◌≤◌, Option, Some, None, OnOk, IfOk, IfSome, IsOkUnless, IsTrue, cond, is_some};
ghost use Rattle.std.specs.Option.{ForSome};
ghost use Rattle.indexmap.specs.IndexMap.{get, spare};
ghost use Rattle.mt_skel.specs.Chain.{follow};
ghost use Rattle.mt_mounts.specs.declared.mount.Place.{Place};
ghost use Rattle.mt_mounts.specs.declared.stacks.Reach.{Reach};
ghost use Rattle.mt_mounts.specs.Forest.{is_at, place_eq, root_place};
ghost use Rattle.mt_mounts.specs.declared.mount.Mount.{Mount};
ghost use Rattle.mt_mounts.specs.Stacks.{IsStacked, leads, reach, IsBare, StandsOnly, IsShortened, linked, unlinked, come_to, gone_from, stack_room};

use crate::mount::{Mount, Place, root_place};
use indexmap::IndexMap;
use mt_skel::fault::Fault;
use std::alloc::Global;

/// The place at the other end of some steps along a stack, each from a place to the root of the mount that stands there.
#[derive(Clone, Copy, PartialEq, Eq)]
pub(crate) struct Reach {
    pub(crate) place: Place,
    pub(crate) steps: usize,
}

/// Stacks of mounts, as far as they are known.
///
/// A stack is known from a place on, over the roots of mounts that stand on each other. What is not known is walked
/// step by step, and so is the rest of a stack that was cut in the middle. Two stacks that meet, because a mount was
/// put below another, remain two.
pub(crate) struct Stacks {
    /// From the first place of a stack to its last.
    pub(crate) ends: IndexMap<Place, Reach>,
    /// From each later place of a stack to its first. There may be others, which are in no stack.
    pub(crate) starts: IndexMap<Place, Reach>,
}

impl Drop for Stacks {
    fn drop(self) {
        let Stacks {
            ends: _ends,
            starts: _starts,
        } = self;
    }
}

/// What a table has of a place.
fn reach_at(table: &IndexMap<Place, Reach>, place: Place) -> Option<Reach>
    ensures { result ≡ get place_eq table.now place }
{
    table.get(&place).copied()
}

/// Writes what a table has of a place.
fn write(table: &mut IndexMap<Place, Reach>, place: Place, reach: Reach)
    requires room { 0 < spare table.old }
    ensures table { (p : Place) → get place_eq table.new p ≡ cond (place_eq place p) (Some reach) (get place_eq table.old p) }
    ensures room { spare table.old ≤ spare table.new + 1 }
{
    table.insert(place, reach).unwrap();
}

/// Replaces what a table has of a place that is there.
fn write_again(table: &mut IndexMap<Place, Reach>, place: Place, reach: Reach)
    requires there { IsTrue (is_some (get place_eq table.old place)) }
    ensures table { (p : Place) → get place_eq table.new p ≡ cond (place_eq place p) (Some reach) (get place_eq table.old p) }
    ensures room { spare table.old ≤ spare table.new }
{
    if let Some(here) = table.get_mut(&place) {
        *here = reach;
    }
}

/// Takes away what a table has of a place.
fn forget(table: &mut IndexMap<Place, Reach>, place: Place)
    ensures table { (p : Place) → get place_eq table.new p ≡ cond (place_eq place p) None (get place_eq table.old p) }
    ensures room { spare table.old ≤ spare table.new }
{
    table.swap_remove(&place);
}

/// Writes what a table has from now on of a place that is there, or takes it away.
fn set(table: &mut IndexMap<Place, Reach>, place: Place, reach: Option<Reach>)
    requires there { IsTrue (is_some (get place_eq table.old place)) }
    ensures table { (p : Place) → get place_eq table.new p ≡ cond (place_eq place p) reach (get place_eq table.old p) }
    ensures room { spare table.old ≤ spare table.new }
{
    match reach {
        Some(reach) => write_again(table, place, reach),
        None => forget(table, place),
    }
}

/// What is left of a stack that goes on from its start to a place and ends at this root, or is not known.
fn rest(end: Reach, start: Reach, place: Place, root: Place) -> Option<Reach>
    ensures { IfSome result (λ e. (end ≡ reach root (suc start.steps)) × (e ≡ reach place start.steps) × (start.place ≢ place)) }
{
    if start.place != place && end.place == root && 0 < end.steps && end.steps - 1 == start.steps {
        return Some(Reach {
            place,
            steps: start.steps,
        });
    }
    None
}

/// The mount with this root has gone from a place to which a stack goes on from this start: the rest is known only if
/// it was the last of the stack.
fn shorten(ends: &mut IndexMap<Place, Reach>, start: Option<Reach>, place: Place, root: Place)
    ensures ends { (s : Place) (e : Reach) → get place_eq ends.new s ≡ Some e → IsShortened place root start s (get place_eq ends.old s) e }
    ensures room { spare ends.old ≤ spare ends.new }
{
    if let Some(start) = start {
        if let Some(end) = reach_at(ends, start.place) {
            let rest = rest(end, start, place, root);
            set(ends, start.place, rest);
        }
    }
}

impl Stacks {
    /// No stacks. Their memory will come from `alloc`.
    pub(crate) fn new(alloc: Global) -> Self
        ensures { (next : Place → Option Place) → IsStacked next result }
    {
        Stacks {
            ends: IndexMap::new(alloc),
            starts: IndexMap::new(alloc),
        }
    }

    /// The same stacks.
    pub(crate) fn copy(&self) -> Result<Stacks, Fault>
        ensures copy { IfOk result (λ copy. (next : Place → Option Place) → IsStacked next self.now → IsStacked next copy) }
        ensures memory { IsOkUnless result Fault.NoMemory }
    {
        Ok(Stacks {
            ends: self.ends.clone()?,
            starts: self.starts.clone()?,
        })
    }

    /// Makes room for this many more mounts.
    pub(crate) fn reserve(&mut self, additional: usize) -> Result<(), Fault>
        ensures room { OnOk result (additional ≤ stack_room self.new) }
        ensures memory { IsOkUnless result Fault.NoMemory }
        ensures keeps { stack_room self.old ≤ stack_room self.new }
        ensures stacked { (next : Place → Option Place) → IsStacked next self.old → IsStacked next self.new }
    {
        self.ends.reserve(additional)?;
        self.starts.reserve(additional)?;
        Ok(())
    }

    /// How many mounts there is room for.
    pub(crate) fn room(&self) -> usize
        ensures { result ≡ stack_room self.now }
    {
        let ends = self.ends.capacity() - self.ends.len();
        let starts = self.starts.capacity() - self.starts.len();
        ends.min(starts)
    }

    /// The first place of the known stack that ends at this one, which is free, and how many steps lead from there.
    fn begun(&self, place: Place) -> Reach
        ensures { (next : Place → Option Place) → IsStacked next self.now → leads next (get place_eq self.now.starts) result.place 0 result.steps result.place place }
    {
        if let Some(start) = reach_at(&self.starts, place) {
            if let Some(end) = reach_at(&self.ends, start.place) {
                if end.place == place {
                    return Reach {
                        place: start.place,
                        steps: end.steps,
                    };
                }
            }
        }
        Reach { place, steps: 0 }
    }

    /// A mount with this root has come to a place that was free, for which there is room.
    fn link(&mut self, place: Place, root: Place)
        requires room { 0 < stack_room self.old }
        ensures stacked { (next : Place → Option Place) → next place ≡ None → IsBare root next → IsStacked next self.old → IsStacked (linked place root next) self.new }
        ensures room { stack_room self.old ≤ stack_room self.new + 1 }
    {
        let begun = self.begun(place);
        if begun.steps < usize::MAX {
            let steps = begun.steps + 1;
            let end = Reach { place: root, steps };
            let start = Reach {
                place: begun.place,
                steps,
            };
            write(&mut self.ends, begun.place, end);
            write(&mut self.starts, root, start);
        }
    }

    /// The mount with this root has gone from its place.
    fn cut(&mut self, place: Place, root: Place)
        ensures stacked { (next : Place → Option Place) → StandsOnly place root next → IsStacked next self.old → IsStacked (unlinked place next) self.new }
        ensures room { stack_room self.old ≤ stack_room self.new }
    {
        if self.ends.is_empty() && self.starts.is_empty() {
            return;
        }
        let start = reach_at(&self.starts, place);
        shorten(&mut self.ends, start, place, root);
        forget(&mut self.ends, place);
        forget(&mut self.starts, root);
    }

    /// A mount has come, for which there is room, to the root of another or not.
    pub(crate) fn enter(&mut self, mount: Mount, on_root: bool)
        requires room { 0 < stack_room self.old }
        ensures stacked { (next : Place → Option Place) → ForSome mount.place (λ p. next p ≡ None) → IsBare (root_place mount) next → IsStacked next self.old → IsStacked (come_to mount next) self.new }
        ensures room { stack_room self.old ≤ stack_room self.new + 1 }
    {
        if let Some(place) = mount.place {
            if on_root {
                self.link(place, root_place(&mount));
            }
        }
    }

    /// A mount has gone from its place.
    pub(crate) fn leave(&mut self, mount: Mount)
        ensures stacked { (next : Place → Option Place) → ((q : Place) → next q ≡ Some (root_place mount) → IsTrue (is_at q mount)) → IsStacked next self.old → IsStacked (gone_from mount next) self.new }
        ensures room { stack_room self.old ≤ stack_room self.new }
    {
        if let Some(place) = mount.place {
            self.cut(place, root_place(&mount));
        }
    }

    /// A mount has gone from its place to one that is free, the root of another or not.
    pub(crate) fn go(&mut self, mount: Mount, place: Place, on_root: bool)
        requires room { 0 < stack_room self.old }
        ensures stacked { (next : Place → Option Place) → gone_from mount next place ≡ None → ((q : Place) → next q ≡ Some (root_place mount) → IsTrue (is_at q mount)) → IsStacked next self.old → IsStacked (linked place (root_place mount) (gone_from mount next)) self.new }
        ensures room { stack_room self.old ≤ stack_room self.new + 1 }
    {
        self.leave(mount);
        if on_root {
            self.link(place, root_place(&mount));
        }
    }

    /// The place that is known to be farthest along the stack from a place, where a mount with this root stands,
    /// and how many steps lead there: this many at most.
    pub(crate) fn along(&self, place: Place, root: Place, most: usize) -> Reach
        requires some { 0 < most }
        ensures steps { (0 < result.steps) × (result.steps ≤ most) }
        ensures follows { (next : Place → Option Place) (n m : ℕ) → IsStacked next self.now → next place ≡ Some root → m ≡ result.steps + n → follow next m place ≡ follow next n result.place }
    {
        if let Some(end) = reach_at(&self.ends, place) {
            if 0 < end.steps && end.steps <= most {
                return end;
            }
        }
        Reach {
            place: root,
            steps: 1,
        }
    }
}
