//! Mirrors of several namespaces, by rising number.
ghost use Rattle.std.specs.Prelude.{cond, ◌++◌, ◌≡◌, ◌≢◌, ◌<◌, ◌≤◌, ◌==◌, false, true, nat_le, length, slice_get, IsTrue, OnOk, Some, Err};
ghost use Rattle.std.specs.List.{insert, remove, position_from, position_or_len};
ghost use Rattle.std.specs.Option.{option_map_or};
ghost use Rattle.mt_skel.specs.Keyed.{rises};
ghost use Rattle.mt_events.specs.Mirrors.{MirrorView};
ghost use Rattle.mt_render.specs.Events.{told_as};
ghost use Rattle.mt_client.specs.Limits.{most_spaces};
ghost use Rattle.mt_client.specs.Finding.{mirror_space};
ghost use Rattle.mt_client.specs.Telling.{mirror_begun, mirror_in, mirrors_with, fits};

use crate::fault::ClientFault;
use crate::opening::MOST_SPACES;
use crate::posts::apply_next;
use mt_events::mirror::Mirror;
use mt_events::post::Post;
use mt_info::table::Table;
use mt_mounts::mount::SpaceId;
use mt_render::telling::{Telling, told_as};
use std::alloc::Global;

/// The index of the first mirror that is not of a lesser namespace.
fn first_from(mirrors: &[Mirror], space: SpaceId) -> Option<usize>
    ensures { result ≡ position_from (λ (m : MirrorView). nat_le space m.space) 0 mirrors.now }
{
    mirrors.iter().position(|mirror| space <= mirror.space())
}

/// Where the mirror of a namespace goes.
fn place_for(mirrors: &[Mirror], space: SpaceId) -> usize
    ensures place { result ≡ position_or_len (λ (m : MirrorView). nat_le space m.space) mirrors.now }
    ensures within { result ≤ length mirrors.now }
{
    match first_from(mirrors, space) {
        Some(place) => place,
        None => mirrors.len(),
    }
}

/// Whether the mirror at this place is of this namespace.
fn is_at(mirrors: &[Mirror], place: usize, space: SpaceId) -> bool
    ensures { result ≡ option_map_or (λ (m : MirrorView). m.space == space) (slice_get mirrors.now place) false }
{
    match mirrors.get(place) {
        Some(mirror) => mirror.space() == space,
        None => false,
    }
}

/// The mirror of a namespace that came later.
fn begun(alloc: Global, space: SpaceId) -> Mirror
    ensures { result ≡ mirror_begun space }
{
    Mirror::new(space, 0, Table::new(Vec::new(alloc)))
}

/// Takes out the mirror at this place, if it is of this namespace, or else begins one.
fn take_at(alloc: Global, mirrors: &mut Vec<Mirror>, place: usize, space: SpaceId) -> Mirror
    requires { place ≤ length mirrors.old.items }
    ensures there { option_map_or (λ (m : MirrorView). m.space == space) (slice_get mirrors.old.items place) false ≡ true → slice_get mirrors.old.items place ≡ Some result }
    ensures begun { option_map_or (λ (m : MirrorView). m.space == space) (slice_get mirrors.old.items place) false ≡ false → result ≡ mirror_begun space }
    ensures taken { mirrors.new.items ≡ cond (option_map_or (λ (m : MirrorView). m.space == space) (slice_get mirrors.old.items place) false) (remove mirrors.old.items place) mirrors.old.items }
    ensures within { place ≤ length mirrors.new.items }
{
    if is_at(mirrors.as_slice(), place, space) {
        mirrors.remove(place)
    } else {
        begun(alloc, space)
    }
}

/// Puts a mirror into this place, unless its table is empty: its namespace was dropped then. Refused as `Connection` where
/// there are as many others as there may be namespaces, and else as `NoMemory` alone.
fn put_at(mirrors: &mut Vec<Mirror>, place: usize, mirror: Mirror) -> Result<(), ClientFault>
    requires { place ≤ length mirrors.old.items }
    ensures put { OnOk result (mirrors.new.items ≡ cond (length mirror.rows == 0) mirrors.old.items (insert mirrors.old.items place mirror)) }
    ensures few { OnOk result (length mirror.rows ≢ 0 → length mirrors.old.items < most_spaces) }
    ensures refused { result ≡ Err ClientFault.Connection → (length mirror.rows ≢ 0) × (most_spaces ≤ length mirrors.old.items) }
    ensures kind { result ≢ Err ClientFault.Output }
{
    if mirror.table().rows().is_empty() {
        return Ok(());
    }
    if mirrors.len() as u64 >= MOST_SPACES {
        return Err(ClientFault::Connection);
    }
    mirrors.insert(place, mirror)?;
    Ok(())
}

/// Tells a post, with the name of its namespace, and applies it to the mirror of that; one that came later
/// begins at 0 with the empty table, and one whose table is empty then was dropped, and goes. Refused as `Connection` where
/// the post does not fit, and else as `NoMemory` alone.
pub(crate) fn apply_told(
    alloc: Global,
    text: &mut Vec<u8>,
    telling: Telling,
    mirrors: &mut Vec<Mirror>,
    post: &Post,
    name: &[u8],
) -> Result<(), ClientFault>
    requires rising { IsTrue (rises mirror_space mirrors.old.items) }
    ensures told { OnOk result (text.new.items ≡ text.old.items ++ told_as telling name.now (mirror_in mirrors.old.items post.now.space) post.now) }
    ensures applied { OnOk result (mirrors.new.items ≡ mirrors_with mirrors.old.items post.now) }
    ensures next { OnOk result (fits mirrors.old.items post.now ≡ true) }
    ensures refused { result ≡ Err ClientFault.Connection → fits mirrors.old.items post.now ≡ false }
    ensures rising { OnOk result (IsTrue (rises mirror_space mirrors.new.items)) }
    ensures kind { result ≢ Err ClientFault.Output }
{
    let place = place_for(mirrors.as_slice(), post.space);
    let mut mirror = take_at(alloc, mirrors, place, post.space);
    let told = told_as(alloc, telling, &mirror, post, name)?;
    text.extend_from_slice(told.as_slice())?;
    apply_next(&mut mirror, post)?;
    put_at(mirrors, place, mirror)?;
    Ok(())
}
