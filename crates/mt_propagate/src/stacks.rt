//! Stacks of source mounts, and where one ends.
ghost use Rattle.std.specs.Prelude.{◌≡◌, Some, None, cond, IsTrue, IfOk, OnOk, IsOkUnless};
ghost use Rattle.std.specs.Option.{option_or};
ghost use Rattle.indexmap.specs.IndexMap.{get};
ghost use Rattle.mt_skel.specs.Chain.{follow};
ghost use Rattle.mt_mounts.specs.declared.mount.Place.{Place as AnyPlace};
ghost use Rattle.mt_mounts.specs.Forest.{on, is_at, place_eq, root_place};
ghost use Rattle.mt_propagate.specs.Places.{stack_last};

use indexmap::IndexMap;
use mt_mounts::mount::{Mount, Place};
use mt_skel::fault::Fault;
use std::alloc::Global;

/// Adds a mount by its place, unless another one is known to stand there.
fn add_standing(standing: &mut IndexMap<Place, Mount>, mount: Mount) -> Result<(), Fault>
    ensures standing { OnOk result ((p : AnyPlace) → get place_eq standing.new p ≡ option_or (get place_eq standing.old p) (cond (is_at p mount) (Some mount) None)) }
    ensures memory { IsOkUnless result Fault.NoMemory }
{
    let Some(place) = mount.place else {
        return Ok(());
    };
    if !standing.contains_key(&place) {
        standing.insert(place, mount)?;
    }
    Ok(())
}

/// These mounts by their places; the first one at a place counts.
fn standing_by_place(alloc: Global, mounts: &[Mount]) -> Result<IndexMap<Place, Mount>, Fault>
    ensures standing { IfOk result (λ standing. (p : AnyPlace) → get place_eq standing p ≡ on mounts.now p) }
    ensures memory { IsOkUnless result Fault.NoMemory }
{
    let mut standing = IndexMap::with_capacity(alloc, mounts.len())?;
    for mount in mounts {
        add_standing(&mut standing, *mount)?;
    }
    Ok(standing)
}

/// The mount to which this many steps lead at most, each to the mount that stands at the root of
/// the one before.
fn last_within(standing: &IndexMap<Place, Mount>, steps: usize, first: Mount) -> Mount
    ensures { result ≡ follow (λ m. get place_eq standing.now (root_place m)) steps first }
{
    let mut here = first;
    'stack: for _step in 0..steps {
        let root = Place {
            mount: here.id,
            dir: here.root,
        };
        let Some(next) = standing.get(&root).copied() else {
            return here;
        };
        here = next;
    }
    here
}

/// Whether these are a single mount, which does not stand on the root of this one.
fn is_unstacked(mounts: &[Mount], first: Mount) -> bool
    ensures { IsTrue result → stack_last mounts.now first ≡ first }
{
    let root = Place {
        mount: first.id,
        dir: first.root,
    };
    match mounts {
        [only] => only.place != Some(root),
        _ => false,
    }
}

/// The topmost mount of the stack of these mounts that begins with one of them.
pub(crate) fn stack_last(alloc: Global, mounts: &[Mount], first: Mount) -> Result<Mount, Fault>
    ensures last { IfOk result (λ last. last ≡ stack_last mounts.now first) }
    ensures memory { IsOkUnless result Fault.NoMemory }
{
    if is_unstacked(mounts, first) {
        return Ok(first);
    }
    let standing = standing_by_place(alloc, mounts)?;
    Ok(last_within(&standing, mounts.len(), first))
}
