//! The edges of peer groups in a graph: rings of members, and arrows to slaves.
ghost use Rattle.std.specs.Prelude.{◌≡◌, ◌+◌, ◌≤◌, [], ◌++◌, drop, length, slice_get, OnOk, IfOk, Some, None, MatchOption};
ghost use Rattle.std.specs.List.{filter, filter_map, find, flat_map};
ghost use Rattle.std.specs.Option.{option_and_then};
ghost use Rattle.mt_lists.specs.Numbered.{rows_by};
ghost use Rattle.mt_render.specs.Placed.{at_places, own_place, own_group};
ghost use Rattle.mt_render.specs.Groups.{part_nodes, nodes, node_name, is_member, closing, next_in_ring, peer_edge, ring_edge, ring_edges, master_name, slave_edge, group_edges};

use crate::children::lists_for;
use crate::edges::{push_arrow, push_name};
use crate::palette::Palette;
use mt_events::mirror::Mirror;
use mt_info::print::push_number;
use mt_info::row::Row;
use mt_lists::lists::Lists;
use mt_mounts::mount::SpaceId;
use mt_peers::state::GroupId;
use std::alloc::{AllocError, Global};
use std::marker::Model;

/// A mount in a graph.
#[derive(Drop)]
pub(crate) struct Node<'a> {
    space: SpaceId,
    row: &'a Row,
}

impl<'a> Model for Node<'a> {
    ghost use Rattle.mt_render.specs.Groups.{NodeView, node_code};

    ghost Value = { NodeView };

    ghost use Rattle.mt_info.specs.contracts.row.Row as table_row;

    ghost coded = { node_code table_row.the_row.coded };

    ghost view = { λ n. record { space = n.space; row = n.row.now } };
}

/// Appends the mounts of a namespace.
fn push_part_nodes<'a>(nodes: &mut Vec<Node<'a>>, part: &'a Mirror) -> Result<(), AllocError>
    ensures { OnOk result (nodes.new.items ≡ nodes.old.items ++ part_nodes part.now) }
{
    let space = part.space();
    'rows: for row in part.table().rows() {
        nodes.push(Node { space, row })?;
    }
    Ok(())
}

/// The mounts of all parts.
fn nodes_of(alloc: Global, parts: &[Mirror]) -> Result<Vec<Node<'_>>, AllocError>
    ensures { IfOk result (λ found. found.items ≡ nodes parts.now) }
{
    let mut nodes = Vec::new(alloc);
    'parts: for part in parts {
        push_part_nodes(&mut nodes, part)?;
    }
    Ok(nodes)
}

impl<'a> Node<'a> {
    /// The peer group of the mount.
    fn shared(&self) -> Option<GroupId>
        ensures { result ≡ self.now.row.shared }
    {
        self.row.shared
    }

    /// The peer group from which the mount receives.
    fn master(&self) -> Option<GroupId>
        ensures { result ≡ self.now.row.master }
    {
        self.row.master
    }

    /// Whether the mount is in a peer group.
    fn is_member(&self, group: GroupId) -> bool
        ensures { result ≡ is_member group self.now }
    {
        match self.row.shared {
            Some(own) => own == group,
            None => false,
        }
    }

    /// Appends the name of the mount.
    fn push_name(&self, text: &mut Vec<u8>) -> Result<(), AllocError>
        ensures { OnOk result (text.new.items ≡ text.old.items ++ node_name self.now) }
    {
        push_name(text, self.space, self.row.id)
    }

    /// Appends the edge to the member that follows in the ring of a group.
    fn push_peer(
        &self,
        text: &mut Vec<u8>,
        palette: &Palette,
        group: GroupId,
        next: &Node<'_>,
    ) -> Result<(), AllocError>
        ensures { OnOk result (text.new.items ≡ text.old.items ++ peer_edge palette.now self.now group next.now) }
    {
        let mut mark = Vec::new(*text.allocator());
        palette.push_mark(&mut mark, group)?;
        self.push_name(text)?;
        push_arrow(
            text,
            next.space,
            next.row.id,
            b"dir=none, constraint=false, style=bold",
            &mark,
        )
    }
}

/// Enters the peer groups of mounts, each by its place.
fn enter_groups(members: &mut Lists, nodes: &[Node<'_>])
    requires empty { members.old.rows ≡ [] }
    requires room { length nodes.now ≤ members.old.room }
    ensures { members.new.rows ≡ rows_by own_place own_group (at_places 0 nodes.now) }
{
    'nodes: for (at, node) in nodes.iter().enumerate() {
        members.enter(at as u64, node.row.shared);
    }
}

/// Appends the groups of which mounts are members.
fn push_shared(groups: &mut Vec<GroupId>, nodes: &[Node<'_>]) -> Result<(), AllocError>
    ensures { OnOk result (groups.new.items ≡ groups.old.items ++ filter_map (λ n. n.row.shared) nodes.now) }
{
    'nodes: for node in nodes {
        if let Some(group) = node.shared() {
            groups.push(group)?;
        }
    }
    Ok(())
}

/// Appends the groups of which mounts are slaves.
fn push_masters(groups: &mut Vec<GroupId>, nodes: &[Node<'_>]) -> Result<(), AllocError>
    ensures { OnOk result (groups.new.items ≡ groups.old.items ++ filter_map (λ n. n.row.master) nodes.now) }
{
    'nodes: for node in nodes {
        if let Some(group) = node.master() {
            groups.push(group)?;
        }
    }
    Ok(())
}

/// The mounts of a graph, with lists of those that are in the same peer group.
#[derive(Drop)]
pub(crate) struct Nodes<'a> {
    nodes: Vec<Node<'a>>,
    members: Lists,
}

impl<'a> Model for Nodes<'a> {
    ghost use Rattle.std.specs.Prelude.{List};
    ghost use Rattle.std.specs.Coded.{coded_list};
    ghost use Rattle.mt_render.specs.Groups.{NodeView, node_code};
    ghost use Rattle.mt_render.specs.Placed.{IsGrouped};

    ghost Value = { List NodeView };

    ghost use Rattle.mt_info.specs.contracts.row.Row as table_row;

    ghost coded = { coded_list (node_code table_row.the_row.coded) };

    ghost view = { λ n. n.nodes.items };

    ghost invariant = { λ n. IsGrouped n.nodes.items n.members.rows };
}

impl<'a> Nodes<'a> {
    /// The mounts of all parts.
    pub(crate) fn of(alloc: Global, parts: &'a [Mirror]) -> Result<Nodes<'a>, AllocError>
        ensures { IfOk result (λ found. found ≡ nodes parts.now) }
    {
        let nodes = nodes_of(alloc, parts)?;
        let mut members = lists_for(alloc, nodes.len())?;
        enter_groups(&mut members, &nodes);
        Ok(Nodes { nodes, members })
    }

    /// The groups of which the mounts are members, and those of which they are slaves.
    pub(crate) fn groups(&self, alloc: Global) -> Result<Vec<GroupId>, AllocError>
        ensures { IfOk result (λ groups. groups.items ≡ filter_map (λ n. n.row.shared) self.now ++ filter_map (λ n. n.row.master) self.now) }
    {
        let mut groups = Vec::new(alloc);
        push_shared(&mut groups, &self.nodes)?;
        push_masters(&mut groups, &self.nodes)?;
        Ok(groups)
    }

    /// How many members a group has.
    pub(crate) fn count(&self, group: GroupId) -> usize
        ensures { result ≡ length (filter (is_member group) self.now) }
    {
        self.members.count(group)
    }

    /// The first member of a group.
    fn first_member(&self, group: GroupId) -> Option<&Node<'a>>
        ensures { MatchOption result (find (is_member group) self.now ≡ None) (λ node. find (is_member group) self.now ≡ Some node.now) }
    {
        let at = self.members.first(group)?;
        self.nodes.get(at as usize)
    }

    /// The first member of a group, which follows the last one in the ring of three or more.
    fn closing(&self, group: GroupId) -> Option<&Node<'a>>
        ensures { MatchOption result (closing self.now group ≡ None) (λ node. closing self.now group ≡ Some node.now) }
    {
        if self.members.count(group) < 3 {
            return None;
        }
        self.first_member(group)
    }

    /// The next member of the group of the mount at this place.
    fn next_member(&self, at: usize, group: GroupId) -> Option<&Node<'a>>
        requires { option_and_then (λ n. n.row.shared) (slice_get self.now at) ≡ Some group }
        ensures { MatchOption result (find (is_member group) (drop (at + 1) self.now) ≡ None) (λ node. find (is_member group) (drop (at + 1) self.now) ≡ Some node.now) }
    {
        let next = self.members.after(at as u64)?;
        self.nodes.get(next as usize)
    }

    /// The member that follows in the ring of a group, behind the mount at this place.
    fn next_in_ring(&self, at: usize, group: GroupId) -> Option<&Node<'a>>
        requires { option_and_then (λ n. n.row.shared) (slice_get self.now at) ≡ Some group }
        ensures { MatchOption result (next_in_ring self.now (drop (at + 1) self.now) group ≡ None) (λ node. next_in_ring self.now (drop (at + 1) self.now) group ≡ Some node.now) }
    {
        match self.next_member(at, group) {
            Some(next) => Some(next),
            None => self.closing(group),
        }
    }
}

/// Appends the edge from the mount at this place to the member that follows it in the ring of its group.
fn push_ring_edge(
    text: &mut Vec<u8>,
    palette: &Palette,
    nodes: &Nodes<'_>,
    at: usize,
    node: &Node<'_>,
) -> Result<(), AllocError>
    requires { slice_get nodes.now at ≡ Some node.now }
    ensures { OnOk result (text.new.items ≡ text.old.items ++ ring_edge palette.now nodes.now (drop (at + 1) nodes.now) node.now) }
{
    let Some(group) = node.row.shared else {
        return Ok(());
    };
    match nodes.next_in_ring(at, group) {
        Some(next) => node.push_peer(text, palette, group, next),
        None => Ok(()),
    }
}

/// Appends the rings of all peer groups.
fn push_rings(text: &mut Vec<u8>, palette: &Palette, nodes: &Nodes<'_>) -> Result<(), AllocError>
    ensures { OnOk result (text.new.items ≡ text.old.items ++ ring_edges palette.now nodes.now nodes.now) }
{
    'nodes: for (at, node) in nodes.nodes.iter().enumerate() {
        push_ring_edge(text, palette, nodes, at, node)?;
    }
    Ok(())
}

/// Appends the name where the edges to the slaves of a group begin.
fn push_master(text: &mut Vec<u8>, nodes: &Nodes<'_>, group: GroupId) -> Result<(), AllocError>
    ensures { OnOk result (text.new.items ≡ text.old.items ++ master_name nodes.now group) }
{
    if let Some(member) = nodes.first_member(group) {
        return member.push_name(text);
    }
    text.extend_from_slice(b"\"group ")?;
    push_number(text, group)?;
    text.extend_from_slice(b"\"")?;
    Ok(())
}

/// Appends the edge to a mount from its master, if it has one.
fn push_slave_edge(
    text: &mut Vec<u8>,
    palette: &Palette,
    nodes: &Nodes<'_>,
    node: &Node<'_>,
) -> Result<(), AllocError>
    ensures { OnOk result (text.new.items ≡ text.old.items ++ slave_edge palette.now nodes.now node.now) }
{
    let Some(group) = node.row.master else {
        return Ok(());
    };
    let mut mark = Vec::new(*text.allocator());
    palette.push_mark(&mut mark, group)?;
    push_master(text, nodes, group)?;
    push_arrow(text, node.space, node.row.id, b"style=dashed", &mark)
}

/// Appends the edges to all slaves.
fn push_slaves(text: &mut Vec<u8>, palette: &Palette, nodes: &Nodes<'_>) -> Result<(), AllocError>
    ensures { OnOk result (text.new.items ≡ text.old.items ++ flat_map (slave_edge palette.now nodes.now) nodes.now) }
{
    'nodes: for node in &nodes.nodes {
        push_slave_edge(text, palette, nodes, node)?;
    }
    Ok(())
}

/// Appends the edges of all groups.
pub(crate) fn push_groups(
    text: &mut Vec<u8>,
    palette: &Palette,
    nodes: &Nodes<'_>,
) -> Result<(), AllocError>
    ensures { OnOk result (text.new.items ≡ text.old.items ++ group_edges palette.now nodes.now) }
{
    push_rings(text, palette, nodes)?;
    push_slaves(text, palette, nodes)?;
    Ok(())
}
