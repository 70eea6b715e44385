//! A mount as members of a JSON object, with the keys of findmnt(8).
ghost use Rattle.std.specs.Prelude.{◌≡◌, ◌++◌, [], cond, is_some, codes, decimal, OnOk, IfOk};
ghost use Rattle.serde_json.specs.Data.{put};
ghost use Rattle.serde_json.specs.View.{members_view};
ghost use Rattle.mt_render.specs.Members.{text_data, number_data, path_bytes, source_bytes, kinds_text, with_name, with_standing, with_shown, with_kinds, with_group, with_groups, with_mount};

use mt_info::print::{push_number, push_options};
use mt_info::row::Row;
use mt_peers::state::GroupId;
use mt_skel::names::Names;
use serde_json::{Map, Value, put};
use std::alloc::{AllocError, Global};

/// The members of an object, by their keys.
pub type Members = Map<String, Value>;

/// Puts a text in, with U+FFFD in the place of each sequence of bytes that is no UTF-8.
pub(crate) fn put_text(
    members: &mut Members,
    alloc: Global,
    key: &str,
    bytes: &[u8],
) -> Result<(), AllocError>
    ensures { OnOk result (members_view members.new.entries ≡ put key.now (text_data bytes.now) (members_view members.old.entries)) }
{
    let text = String::from_utf8_lossy(alloc, bytes)?;
    put(members, alloc, key, Value::from(text))
}

/// Puts a number in.
pub(crate) fn put_number(
    members: &mut Members,
    alloc: Global,
    key: &str,
    number: u64,
) -> Result<(), AllocError>
    ensures { OnOk result (members_view members.new.entries ≡ put key.now (number_data number) (members_view members.old.entries)) }
{
    put(members, alloc, key, Value::from(number))
}

/// Puts in the name of a namespace, but for one that is empty.
pub(crate) fn put_name(members: &mut Members, alloc: Global, name: &[u8]) -> Result<(), AllocError>
    ensures { OnOk result (members_view members.new.entries ≡ with_name name.now (members_view members.old.entries)) }
{
    match name {
        [] => Ok(()),
        [_, ..] => put_text(members, alloc, "name", name),
    }
}

/// The bytes of a path.
fn path_bytes(path: &Names) -> &[u8]
    ensures { result.now ≡ path_bytes path.now }
{
    let names = path.text();
    if names.is_empty() { b"/" } else { names }
}

/// The bytes of the source of a mount, and behind them in brackets which directory is shown, where that is not the root of
/// its filesystem.
fn source_bytes(alloc: Global, row: &Row) -> Result<Vec<u8>, AllocError>
    ensures { IfOk result (λ bytes. bytes.items ≡ source_bytes row.now.source row.now.root) }
{
    let mut bytes = Vec::from_slice(alloc, row.source.bytes())?;
    let root = row.root.text();
    if root.is_empty() {
        return Ok(bytes);
    }
    bytes.extend_from_slice(b"[")?;
    bytes.extend_from_slice(root)?;
    bytes.extend_from_slice(b"]")?;
    Ok(bytes)
}

/// Appends a word where something holds.
fn push_if(text: &mut Vec<u8>, holds: bool, word: &[u8]) -> Result<(), AllocError>
    ensures { OnOk result (text.new.items ≡ text.old.items ++ cond holds word.now []) }
{
    if holds {
        text.extend_from_slice(word)?;
    }
    Ok(())
}

/// Whether a mount is in a peer group.
fn shared_word(shared: Option<GroupId>) -> &'static [u8]
    ensures { result.now ≡ cond (is_some shared) (codes "shared") (codes "private") }
{
    if shared.is_some() {
        b"shared"
    } else {
        b"private"
    }
}

/// How a mount propagates, in words that say nothing of its groups.
fn kinds_of(alloc: Global, row: &Row) -> Result<Vec<u8>, AllocError>
    ensures { IfOk result (λ words. words.items ≡ kinds_text row.now) }
{
    let mut words = Vec::from_slice(alloc, shared_word(row.shared))?;
    push_if(&mut words, row.master.is_some(), b",slave")?;
    push_if(&mut words, row.unbindable, b",unbindable")?;
    Ok(words)
}

/// Puts in where a mount is.
fn put_place(members: &mut Members, alloc: Global, row: &Row) -> Result<(), AllocError>
    ensures { OnOk result (members_view members.new.entries ≡ with_standing row.now (members_view members.old.entries)) }
{
    put_number(members, alloc, "id", row.id)?;
    put_number(members, alloc, "parent", row.parent)?;
    put_text(members, alloc, "target", path_bytes(&row.point))?;
    Ok(())
}

/// The numbers of the device of a mount.
fn device_of(alloc: Global, row: &Row) -> Result<Vec<u8>, AllocError>
    ensures { IfOk result (λ device. device.items ≡ codes "0:" ++ decimal row.now.minor) }
{
    let mut device = Vec::from_slice(alloc, b"0:")?;
    push_number(&mut device, row.minor)?;
    Ok(device)
}

/// Puts in what a mount shows.
fn put_shown(members: &mut Members, alloc: Global, row: &Row) -> Result<(), AllocError>
    ensures { OnOk result (members_view members.new.entries ≡ with_shown row.now (members_view members.old.entries)) }
{
    let source = source_bytes(alloc, row)?;
    let device = device_of(alloc, row)?;
    put_text(members, alloc, "source", source.as_slice())?;
    put_text(members, alloc, "fstype", row.kind.bytes())?;
    put_text(members, alloc, "maj:min", device.as_slice())?;
    put_text(members, alloc, "fsroot", path_bytes(&row.root))?;
    Ok(())
}

/// Puts in the attributes of a mount, and how it propagates.
fn put_state(members: &mut Members, alloc: Global, row: &Row) -> Result<(), AllocError>
    ensures { OnOk result (members_view members.new.entries ≡ with_kinds row.now (members_view members.old.entries)) }
{
    let mut options = Vec::new(alloc);
    push_options(&mut options, &row.attrs)?;
    let kinds = kinds_of(alloc, row)?;
    put_text(members, alloc, "options", options.as_slice())?;
    put_text(members, alloc, "propagation", kinds.as_slice())?;
    Ok(())
}

/// Puts in a group, if there is one.
fn put_group(
    members: &mut Members,
    alloc: Global,
    key: &str,
    group: Option<GroupId>,
) -> Result<(), AllocError>
    ensures { OnOk result (members_view members.new.entries ≡ with_group key.now group (members_view members.old.entries)) }
{
    match group {
        Some(group) => put_number(members, alloc, key, group),
        None => Ok(()),
    }
}

/// Puts in the groups of a mount.
fn put_groups(members: &mut Members, alloc: Global, row: &Row) -> Result<(), AllocError>
    ensures { OnOk result (members_view members.new.entries ≡ with_groups row.now (members_view members.old.entries)) }
{
    put_group(members, alloc, "shared", row.shared)?;
    put_group(members, alloc, "master", row.master)?;
    put_group(members, alloc, "propagate_from", row.via)?;
    Ok(())
}

/// Puts a mount in.
#[tactic(auto, unfolding(crate::specs::Members::with_mount))]
pub(crate) fn put_row(members: &mut Members, alloc: Global, row: &Row) -> Result<(), AllocError>
    ensures { OnOk result (members_view members.new.entries ≡ with_mount row.now (members_view members.old.entries)) }
{
    put_place(members, alloc, row)?;
    put_shown(members, alloc, row)?;
    put_state(members, alloc, row)?;
    put_groups(members, alloc, row)?;
    Ok(())
}
