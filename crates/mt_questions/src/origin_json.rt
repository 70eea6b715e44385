//! What is answered to the questions where a mount comes from, and what pins a filesystem, as JSON.
ghost use Rattle.std.specs.Prelude.{◌≡◌, ◌++◌, codes, OnOk, IfOk};
ghost use Rattle.std.specs.List.{flat_map};
ghost use Rattle.mt_questions.specs.Json.{items_json, list_json, under_name, is_mount_json, is_root_json, marks_json, peers_json, masters_json, goes_json, ties_json, origin_json, held_json, standing_json, holder_json, asked_json, all_holders_json, holders_json};

use crate::holders::Holder;
use crate::json_values::{
    push_hidden, push_mount, push_named_bool, push_named_number, push_named_numbers,
    push_named_string, push_where,
};
use crate::origin::MountOrigin;
use crate::table::SeenTables;
use mt_mounts::mount::MountId;
use mt_peers::state::GroupId;
use std::alloc::{AllocError, Global};

/// Appends whether a path names a mount.
#[tactic(auto, unfolding(crate::specs::Json::is_mount_json))]
fn push_is_mount(text: &mut Vec<u8>, is: bool) -> Result<(), AllocError>
    ensures { OnOk result (text.new.items ≡ text.old.items ++ is_mount_json is) }
{
    push_named_bool(text, b",\"is-mount\":", is)
}

/// Appends whether a mount stands on none.
#[tactic(auto, unfolding(crate::specs::Json::is_root_json))]
fn push_is_root(text: &mut Vec<u8>, is: bool) -> Result<(), AllocError>
    ensures { OnOk result (text.new.items ≡ text.old.items ++ is_root_json is) }
{
    push_named_bool(text, b",\"is-root\":", is)
}

/// Appends what is told of the mount of an origin.
#[tactic(auto, unfolding(crate::specs::Json::marks_json))]
fn push_marks(text: &mut Vec<u8>, answer: &MountOrigin) -> Result<(), AllocError>
    ensures { OnOk result (text.new.items ≡ text.old.items ++ marks_json answer.now) }
{
    push_mount(text, answer.mount)?;
    push_is_mount(text, answer.is_mount)?;
    push_is_root(text, answer.is_root)
}

/// Appends the other members of the group of a mount.
#[tactic(auto, unfolding(crate::specs::Json::peers_json))]
fn push_peers(text: &mut Vec<u8>, ids: &[MountId]) -> Result<(), AllocError>
    ensures { OnOk result (text.new.items ≡ text.old.items ++ peers_json ids.now) }
{
    push_named_numbers(text, b",\"peers\":", ids)
}

/// Appends the masters of a mount.
#[tactic(auto, unfolding(crate::specs::Json::masters_json))]
fn push_masters(text: &mut Vec<u8>, groups: &[GroupId]) -> Result<(), AllocError>
    ensures { OnOk result (text.new.items ≡ text.old.items ++ masters_json groups.now) }
{
    push_named_numbers(text, b",\"masters\":", groups)
}

/// Appends the mounts with which a mount goes.
#[tactic(auto, unfolding(crate::specs::Json::goes_json))]
fn push_goes(text: &mut Vec<u8>, ids: &[MountId]) -> Result<(), AllocError>
    ensures { OnOk result (text.new.items ≡ text.old.items ++ goes_json ids.now) }
{
    push_named_numbers(text, b",\"goes-with\":", ids)
}

/// Appends what a mount gets from, and with what it goes.
#[tactic(auto, unfolding(crate::specs::Json::ties_json))]
fn push_ties(text: &mut Vec<u8>, answer: &MountOrigin) -> Result<(), AllocError>
    ensures { OnOk result (text.new.items ≡ text.old.items ++ ties_json answer.now) }
{
    push_peers(text, answer.peers.as_slice())?;
    push_masters(text, answer.masters.as_slice())?;
    push_goes(text, answer.takers.as_slice())?;
    text.extend_from_slice(b"}\n")
}

/// Where a mount comes from, as an object. Fails for want of memory alone.
#[tactic(auto, unfolding(crate::specs::Json::origin_json))]
pub fn origin_json(
    alloc: Global,
    tables: &SeenTables,
    answer: &MountOrigin,
) -> Result<Vec<u8>, AllocError>
    ensures text { IfOk result (λ text. text.items ≡ origin_json tables.now answer.now) }
{
    let mut text = Vec::new(alloc);
    push_where(&mut text, tables, answer.space, &answer.path)?;
    push_marks(&mut text, answer)?;
    push_ties(&mut text, answer)?;
    Ok(text)
}

/// Appends the beginning of an object of a mount that pins.
#[tactic(auto, unfolding(crate::specs::Json::held_json))]
fn push_held(text: &mut Vec<u8>, id: MountId) -> Result<(), AllocError>
    ensures { OnOk result (text.new.items ≡ text.old.items ++ held_json id) }
{
    push_named_number(text, b"{\"mount\":", id)
}

/// Appends how many mounts stand on one.
#[tactic(auto, unfolding(crate::specs::Json::standing_json))]
fn push_count(text: &mut Vec<u8>, count: usize) -> Result<(), AllocError>
    ensures { OnOk result (text.new.items ≡ text.old.items ++ standing_json count) }
{
    push_named_number(text, b",\"standing\":", count as u64)
}

/// Appends a mount that pins.
#[tactic(auto, unfolding(crate::specs::Json::holder_json))]
fn push_holder(text: &mut Vec<u8>, holder: &Holder) -> Result<(), AllocError>
    ensures { OnOk result (text.new.items ≡ text.old.items ++ holder_json holder.now) }
{
    push_held(text, holder.mount)?;
    push_hidden(text, holder.front)?;
    push_count(text, holder.standing)?;
    push_goes(text, holder.takers.as_slice())?;
    text.extend_from_slice(b"}")
}

/// Appends further mounts that pin, each behind a comma.
fn push_more_holders(text: &mut Vec<u8>, holders: &[Holder]) -> Result<(), AllocError>
    ensures { OnOk result (text.new.items ≡ text.old.items ++ flat_map (λ y. codes "," ++ holder_json y) holders.now) }
{
    'holders: for holder in holders {
        text.extend_from_slice(b",")?;
        push_holder(text, holder)?;
    }
    Ok(())
}

/// Appends mounts that pin between commas.
fn push_holder_items(text: &mut Vec<u8>, holders: &[Holder]) -> Result<(), AllocError>
    ensures { OnOk result (text.new.items ≡ text.old.items ++ items_json holder_json holders.now) }
{
    let Some((first, rest)) = holders.split_first() else {
        return Ok(());
    };
    push_holder(text, first)?;
    push_more_holders(text, rest)
}

/// Appends a list of mounts that pin.
#[tactic(auto, unfolding(crate::specs::Json::list_json))]
fn push_holders(text: &mut Vec<u8>, holders: &[Holder]) -> Result<(), AllocError>
    ensures { OnOk result (text.new.items ≡ text.old.items ++ list_json holder_json holders.now) }
{
    text.extend_from_slice(b"[")?;
    push_holder_items(text, holders)?;
    text.extend_from_slice(b"]")
}

/// Appends the name of a list of mounts that pin, and the list.
#[tactic(auto, unfolding(crate::specs::Json::under_name))]
fn push_named_holders(text: &mut Vec<u8>, name: &[u8], holders: &[Holder]) -> Result<(), AllocError>
    ensures { OnOk result (text.new.items ≡ text.old.items ++ under_name name.now (list_json holder_json holders.now)) }
{
    text.extend_from_slice(name)?;
    push_holders(text, holders)
}

/// Appends the beginning of an object under a title.
#[tactic(auto, unfolding(crate::specs::Json::asked_json))]
fn push_asked(text: &mut Vec<u8>, title: &[u8]) -> Result<(), AllocError>
    ensures { OnOk result (text.new.items ≡ text.old.items ++ asked_json title.now) }
{
    push_named_string(text, b"{\"asked\":", title)
}

/// Appends the mounts that pin.
#[tactic(auto, unfolding(crate::specs::Json::all_holders_json))]
fn push_holders_of(text: &mut Vec<u8>, holders: &[Holder]) -> Result<(), AllocError>
    ensures { OnOk result (text.new.items ≡ text.old.items ++ all_holders_json holders.now) }
{
    push_named_holders(text, b",\"holders\":", holders)
}

/// The mounts that pin, under a title, as an object. Fails for want of memory alone.
#[tactic(auto, unfolding(crate::specs::Json::holders_json))]
pub fn holders_json(alloc: Global, title: &[u8], holders: &[Holder]) -> Result<Vec<u8>, AllocError>
    ensures text { IfOk result (λ text. text.items ≡ holders_json title.now holders.now) }
{
    let mut text = Vec::new(alloc);
    push_asked(&mut text, title)?;
    push_holders_of(&mut text, holders)?;
    text.extend_from_slice(b"}\n")?;
    Ok(text)
}
