//! The copies of a mount that come to other mounts, as JSON.
ghost use Rattle.std.specs.Prelude.{◌≡◌, ◌++◌, codes, OnOk};
ghost use Rattle.std.specs.List.{flat_map};
ghost use Rattle.mt_questions.specs.Json.{items_json, list_json, under_name, spot_json, way_json, shows_copy, behind_of, behind_copy_of, seen_json, hidden_by_copy_json, sight_json, by_json, stops_json, copy_json};

use crate::copies::{ReachedMount, Sight, Spot, Way};
use crate::json_values::{
    push_hidden, push_mount, push_named, push_named_bool, push_named_numbers, push_named_option,
    push_where,
};
use crate::table::SeenTables;
use mt_mounts::mount::MountId;
use std::alloc::AllocError;

/// Appends where a mount stands, or would stand.
#[tactic(auto, unfolding(crate::specs::Json::spot_json))]
pub(crate) fn push_spot(
    text: &mut Vec<u8>,
    tables: &SeenTables,
    spot: &Spot,
) -> Result<(), AllocError>
    ensures { OnOk result (text.new.items ≡ text.old.items ++ spot_json tables.now spot.now) }
{
    push_where(text, tables, spot.space, &spot.point)?;
    push_mount(text, spot.mount)
}

/// How a mount gets what happens at the place.
fn way_json(way: Way) -> &'static [u8]
    ensures { result.now ≡ way_json way }
{
    match way {
        Way::Peer => b"\"peer\"",
        Way::Masters => b"\"slave\"",
        Way::Told => b"\"told\"",
    }
}

/// Whether a path leads to a copy.
fn shows_copy(sight: Sight) -> bool
    ensures { result ≡ shows_copy sight }
{
    matches!(sight, Sight::Seen)
}

/// The mount that hides a copy.
fn behind_of(sight: Sight) -> Option<MountId>
    ensures { result ≡ behind_of sight }
{
    match sight {
        Sight::Behind(id) => Some(id),
        Sight::Seen | Sight::NoRoot | Sight::AtRoot | Sight::BehindCopy(_) => None,
    }
}

/// The mount whose copy hides another one.
fn behind_copy_of(sight: Sight) -> Option<MountId>
    ensures { result ≡ behind_copy_of sight }
{
    match sight {
        Sight::BehindCopy(id) => Some(id),
        Sight::Seen | Sight::NoRoot | Sight::AtRoot | Sight::Behind(_) => None,
    }
}

/// Appends whether a path leads to a copy.
#[tactic(auto, unfolding(crate::specs::Json::seen_json))]
fn push_seen(text: &mut Vec<u8>, sight: Sight) -> Result<(), AllocError>
    ensures { OnOk result (text.new.items ≡ text.old.items ++ seen_json sight) }
{
    push_named_bool(text, b",\"seen\":", shows_copy(sight))
}

/// Appends which copy hides a copy.
#[tactic(auto, unfolding(crate::specs::Json::hidden_by_copy_json))]
fn push_hidden_by_copy(text: &mut Vec<u8>, sight: Sight) -> Result<(), AllocError>
    ensures { OnOk result (text.new.items ≡ text.old.items ++ hidden_by_copy_json sight) }
{
    push_named_option(text, b",\"hidden-by-copy-on\":", behind_copy_of(sight))
}

/// Appends what a path leads to.
#[tactic(auto, unfolding(crate::specs::Json::sight_json))]
fn push_sight(text: &mut Vec<u8>, sight: Sight) -> Result<(), AllocError>
    ensures { OnOk result (text.new.items ≡ text.old.items ++ sight_json sight) }
{
    push_seen(text, sight)?;
    push_hidden(text, behind_of(sight))?;
    push_hidden_by_copy(text, sight)
}

/// Appends how the mount of a copy gets it.
#[tactic(auto, unfolding(crate::specs::Json::by_json))]
fn push_way(text: &mut Vec<u8>, copy: &ReachedMount) -> Result<(), AllocError>
    ensures { OnOk result (text.new.items ≡ text.old.items ++ by_json copy.now) }
{
    push_named(text, b",\"by\":", way_json(copy.way))?;
    push_named_numbers(text, b",\"masters\":", copy.between.as_slice())?;
    Ok(())
}

/// Appends whether a copy can be kept from coming.
#[tactic(auto, unfolding(crate::specs::Json::stops_json))]
fn push_stops(text: &mut Vec<u8>, stops: bool) -> Result<(), AllocError>
    ensures { OnOk result (text.new.items ≡ text.old.items ++ stops_json stops) }
{
    push_named_bool(text, b",\"can-be-stopped\":", stops)
}

/// Appends a copy.
#[tactic(auto, unfolding(crate::specs::Json::copy_json))]
fn push_copy(text: &mut Vec<u8>, tables: &SeenTables, copy: &ReachedMount) -> Result<(), AllocError>
    ensures { OnOk result (text.new.items ≡ text.old.items ++ copy_json tables.now copy.now) }
{
    push_spot(text, tables, &copy.spot)?;
    push_way(text, copy)?;
    push_sight(text, copy.sight)?;
    push_stops(text, copy.stops)?;
    text.extend_from_slice(b"}")
}

/// Appends further copies, each behind a comma.
fn push_more_copies(
    text: &mut Vec<u8>,
    tables: &SeenTables,
    copies: &[ReachedMount],
) -> Result<(), AllocError>
    ensures { OnOk result (text.new.items ≡ text.old.items ++ flat_map (λ y. codes "," ++ copy_json tables.now y) copies.now) }
{
    'copies: for copy in copies {
        text.extend_from_slice(b",")?;
        push_copy(text, tables, copy)?;
    }
    Ok(())
}

/// Appends copies between commas.
fn push_copy_items(
    text: &mut Vec<u8>,
    tables: &SeenTables,
    copies: &[ReachedMount],
) -> Result<(), AllocError>
    ensures { OnOk result (text.new.items ≡ text.old.items ++ items_json (copy_json tables.now) copies.now) }
{
    let Some((first, rest)) = copies.split_first() else {
        return Ok(());
    };
    push_copy(text, tables, first)?;
    push_more_copies(text, tables, rest)
}

/// Appends a list of copies.
#[tactic(auto, unfolding(crate::specs::Json::list_json))]
fn push_copies(
    text: &mut Vec<u8>,
    tables: &SeenTables,
    copies: &[ReachedMount],
) -> Result<(), AllocError>
    ensures { OnOk result (text.new.items ≡ text.old.items ++ list_json (copy_json tables.now) copies.now) }
{
    text.extend_from_slice(b"[")?;
    push_copy_items(text, tables, copies)?;
    text.extend_from_slice(b"]")
}

/// Appends the name of a list of copies, and the list.
#[tactic(auto, unfolding(crate::specs::Json::under_name))]
pub(crate) fn push_named_copies(
    text: &mut Vec<u8>,
    name: &[u8],
    tables: &SeenTables,
    copies: &[ReachedMount],
) -> Result<(), AllocError>
    ensures { OnOk result (text.new.items ≡ text.old.items ++ under_name name.now (list_json (copy_json tables.now) copies.now)) }
{
    text.extend_from_slice(name)?;
    push_copies(text, tables, copies)
}
