//! What tables do not tell of a change: whether a peer group has mounts in namespaces that were not read.
ghost use Rattle.std.specs.Prelude.{◌≡◌, ◌++◌, OnOk, IsTrue};
ghost use Rattle.mt_skel.specs.Keyed.{rises};
ghost use Rattle.mt_info.specs.Table.{row_id};
ghost use Rattle.mt_what_if.specs.Unsure.{is_left, if_read, if_unset, kept_if, unsure_line, line_if_left, line_of_master, unsure_of, unsure_lines};

use crate::lines::push_mount;
use crate::numbers::Numbers;
use mt_info::row::Row;
use mt_info::table::find_row;
use mt_peers::peers::Peers;
use mt_peers::state::GroupId;
use mt_render::wording::push_shown;
use std::alloc::AllocError;

/// Whether a peer group is one of the tables that no mount is in any more.
fn is_left(numbers: Numbers, peers: &Peers, group: GroupId) -> bool
    ensures { result ≡ is_left numbers peers.now.peers group }
{
    group <= numbers.groups && peers.first_member(group).is_none()
}

/// Appends a peer group, and that a mount has to be in it which was not read.
#[tactic(auto, unfolding(crate::specs::Unsure::if_read))]
fn push_if_read(line: &mut Vec<u8>, numbers: Numbers, group: GroupId) -> Result<(), AllocError>
    ensures { OnOk result (line.new.items ≡ line.old.items ++ if_read numbers group) }
{
    numbers.push_group(line, group)?;
    line.extend_from_slice(b", if group ")?;
    numbers.push_group(line, group)?;
    line.extend_from_slice(b" has a mount in a namespace that was not read")
}

/// Appends that no line has to have made a mount private, where lines may have done so.
fn push_if_unset(line: &mut Vec<u8>, named: bool) -> Result<(), AllocError>
    ensures { OnOk result (line.new.items ≡ line.old.items ++ if_unset named) }
{
    if named {
        line.extend_from_slice(b", and no line made it private")?;
    }
    Ok(())
}

/// Appends a peer group, and when it is kept as a master.
#[tactic(auto, unfolding(crate::specs::Unsure::kept_if))]
fn push_kept_if(
    line: &mut Vec<u8>,
    numbers: Numbers,
    named: bool,
    group: GroupId,
) -> Result<(), AllocError>
    ensures { OnOk result (line.new.items ≡ line.old.items ++ kept_if numbers named group) }
{
    push_if_read(line, numbers, group)?;
    push_if_unset(line, named)
}

/// Appends that a mount keeps a master, if that has a mount which was not read.
#[tactic(auto, unfolding(crate::specs::Unsure::unsure_line))]
fn push_line(
    text: &mut Vec<u8>,
    numbers: Numbers,
    named: bool,
    row: &Row,
    group: GroupId,
) -> Result<(), AllocError>
    ensures { OnOk result (text.new.items ≡ text.old.items ++ unsure_line numbers named row.now group) }
{
    let mut line = Vec::new(*text.allocator());
    line.extend_from_slice(b"    ? ")?;
    push_mount(&mut line, numbers, row)?;
    line.extend_from_slice(b" keeps master:")?;
    push_kept_if(&mut line, numbers, named, group)?;
    push_shown(text, &line)
}

/// Appends the line of a mount and its master, if no mount is in that any more.
fn push_if_left(
    text: &mut Vec<u8>,
    numbers: Numbers,
    peers: &Peers,
    named: bool,
    row: &Row,
    group: GroupId,
) -> Result<(), AllocError>
    ensures { OnOk result (text.new.items ≡ text.old.items ++ line_if_left numbers peers.now.peers named row.now group) }
{
    if is_left(numbers, peers, group) {
        push_line(text, numbers, named, row, group)?;
    }
    Ok(())
}

/// The same, for the master that it had before.
fn push_of_master(
    text: &mut Vec<u8>,
    numbers: Numbers,
    peers: &Peers,
    named: bool,
    row: &Row,
    was: &Row,
) -> Result<(), AllocError>
    ensures { OnOk result (text.new.items ≡ text.old.items ++ line_of_master numbers peers.now.peers named row.now was.now) }
{
    match was.master {
        Some(group) => push_if_left(text, numbers, peers, named, row, group),
        None => Ok(()),
    }
}

/// The same, if it was there before.
#[tactic(auto, unfolding(crate::specs::Unsure::unsure_of))]
fn push_unsure(
    text: &mut Vec<u8>,
    numbers: Numbers,
    peers: &Peers,
    named: bool,
    before: &[Row],
    row: &Row,
) -> Result<(), AllocError>
    requires { IsTrue (rises row_id before.now) }
    ensures { OnOk result (text.new.items ≡ text.old.items ++ unsure_of numbers peers.now.peers named before.now row.now) }
{
    match find_row(before, row.id) {
        Some(was) => push_of_master(text, numbers, peers, named, row, was),
        None => Ok(()),
    }
}

/// Appends a line of each mount that had a master in which no mount is any more: it keeps it, if that has a mount which was not
/// read, and in a namespace that lines may be of, if none of them made it private. The states are those of the second table.
pub(crate) fn push_unsures(
    text: &mut Vec<u8>,
    numbers: Numbers,
    peers: &Peers,
    named: bool,
    before: &[Row],
    after: &[Row],
) -> Result<(), AllocError>
    requires { IsTrue (rises row_id before.now) }
    ensures { OnOk result (text.new.items ≡ text.old.items ++ unsure_lines numbers peers.now.peers named before.now after.now) }
{
    'rows: for row in after {
        push_unsure(text, numbers, peers, named, before, row)?;
    }
    Ok(())
}
