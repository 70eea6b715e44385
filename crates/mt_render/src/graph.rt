//! Tables as a graph for Graphviz.
ghost use Rattle.std.specs.Prelude.{◌≡◌, ◌++◌, OnOk, IsTrue};
ghost use Rattle.std.specs.List.{flat_map};
ghost use Rattle.mt_skel.specs.Keyed.{rises};
ghost use Rattle.mt_info.specs.Table.{row_id};
ghost use Rattle.mt_render.specs.Graphs.{outline, node_line, box_label, box, cluster, child_edge, parent_edge, parent_edges, graph_of, graph_text};

use crate::edges::{push_arrow, push_name};
use crate::forest::is_top;
use crate::groups::{Nodes, push_groups};
use crate::labels::{push_label_bytes, push_node_label};
use crate::legend::push_legend;
use crate::named::{SpaceName, name_in, push_name_words};
use crate::palette::Palette;
use mt_events::mirror::Mirror;
use mt_info::print::push_number;
use mt_info::row::Row;
use mt_mounts::mount::{MountId, SpaceId};
use mt_peers::state::GroupId;
use std::alloc::{AllocError, Global};

/// Appends the outline of a mount, if it is in a peer group.
fn push_outline(
    text: &mut Vec<u8>,
    palette: &Palette,
    shared: Option<GroupId>,
) -> Result<(), AllocError>
    ensures { OnOk result (text.new.items ≡ text.old.items ++ outline palette.now shared) }
{
    if let Some(group) = shared {
        text.extend_from_slice(b", penwidth=2, color=")?;
        text.extend_from_slice(palette.colour(group))?;
    }
    Ok(())
}

/// Appends the line of a mount.
#[tactic(auto, unfolding(crate::specs::Graphs::node_line))]
fn push_node(
    text: &mut Vec<u8>,
    palette: &Palette,
    space: SpaceId,
    row: &Row,
) -> Result<(), AllocError>
    ensures { OnOk result (text.new.items ≡ text.old.items ++ node_line palette.now space row.now) }
{
    push_name(text, space, row.id)?;
    text.extend_from_slice(b" [label=\"")?;
    push_node_label(text, row)?;
    text.extend_from_slice(b"\"")?;
    push_outline(text, palette, row.shared)?;
    text.extend_from_slice(b"];\n")?;
    Ok(())
}

/// Appends the lines of the mounts of a namespace.
fn push_nodes(
    text: &mut Vec<u8>,
    palette: &Palette,
    space: SpaceId,
    rows: &[Row],
) -> Result<(), AllocError>
    ensures { OnOk result (text.new.items ≡ text.old.items ++ flat_map (node_line palette.now space) rows.now) }
{
    for row in rows {
        push_node(text, palette, space, row)?;
    }
    Ok(())
}

/// Appends what stands above the mounts of a namespace.
fn push_box_label(text: &mut Vec<u8>, space: SpaceId, name: &[u8]) -> Result<(), AllocError>
    ensures { OnOk result (text.new.items ≡ text.old.items ++ box_label space name.now) }
{
    let mut words = Vec::new(*text.allocator());
    push_name_words(&mut words, name)?;
    text.extend_from_slice(b"\" {\nlabel=\"namespace ")?;
    push_number(text, space)?;
    push_label_bytes(text, &words)?;
    text.extend_from_slice(b"\";\n")?;
    Ok(())
}

/// Appends the box of a namespace with these mounts.
fn push_box(
    text: &mut Vec<u8>,
    palette: &Palette,
    space: SpaceId,
    name: &[u8],
    rows: &[Row],
) -> Result<(), AllocError>
    ensures { OnOk result (text.new.items ≡ text.old.items ++ box palette.now space name.now rows.now) }
{
    text.extend_from_slice(b"subgraph \"cluster_")?;
    push_number(text, space)?;
    push_box_label(text, space, name)?;
    push_nodes(text, palette, space, rows)?;
    text.extend_from_slice(b"}\n")?;
    Ok(())
}

/// Appends the box of a namespace.
#[tactic(auto, unfolding(crate::specs::Graphs::cluster))]
fn push_cluster(
    text: &mut Vec<u8>,
    palette: &Palette,
    names: &[SpaceName<'_>],
    part: &Mirror,
) -> Result<(), AllocError>
    ensures { OnOk result (text.new.items ≡ text.old.items ++ cluster palette.now names.now part.now) }
{
    let space = part.space();
    push_box(
        text,
        palette,
        space,
        name_in(names, space),
        part.table().rows(),
    )
}

/// Appends the edge from a mount to a child.
fn push_child(
    text: &mut Vec<u8>,
    space: SpaceId,
    parent: MountId,
    child: MountId,
) -> Result<(), AllocError>
    ensures { OnOk result (text.new.items ≡ text.old.items ++ child_edge space parent child) }
{
    push_name(text, space, parent)?;
    push_arrow(text, space, child, b"arrowhead=none", b"black")?;
    Ok(())
}

/// Appends the edge from the row below which a row is drawn.
fn push_parent(
    text: &mut Vec<u8>,
    space: SpaceId,
    rows: &[Row],
    row: &Row,
) -> Result<(), AllocError>
    requires { IsTrue (rises row_id rows.now) }
    ensures { OnOk result (text.new.items ≡ text.old.items ++ parent_edge space rows.now row.now) }
{
    if !is_top(rows, row) {
        push_child(text, space, row.parent, row.id)?;
    }
    Ok(())
}

/// Appends the edges from parents to children in a namespace.
#[tactic(auto, unfolding(crate::specs::Graphs::parent_edges))]
fn push_parents(text: &mut Vec<u8>, part: &Mirror) -> Result<(), AllocError>
    ensures { OnOk result (text.new.items ≡ text.old.items ++ parent_edges part.now) }
{
    let rows = part.table().rows();
    'rows: for row in rows {
        push_parent(text, part.space(), rows, row)?;
    }
    Ok(())
}

/// Appends the boxes of all namespaces.
fn push_clusters(
    text: &mut Vec<u8>,
    palette: &Palette,
    names: &[SpaceName<'_>],
    parts: &[Mirror],
) -> Result<(), AllocError>
    ensures { OnOk result (text.new.items ≡ text.old.items ++ flat_map (cluster palette.now names.now) parts.now) }
{
    'parts: for part in parts {
        push_cluster(text, palette, names, part)?;
    }
    Ok(())
}

/// Appends the edges from parents to children in all namespaces.
fn push_all_parents(text: &mut Vec<u8>, parts: &[Mirror]) -> Result<(), AllocError>
    ensures { OnOk result (text.new.items ≡ text.old.items ++ flat_map parent_edges parts.now) }
{
    'parts: for part in parts {
        push_parents(text, part)?;
    }
    Ok(())
}

/// Appends tables as a graph, of these mounts and groups.
fn push_graph_of(
    text: &mut Vec<u8>,
    palette: &Palette,
    nodes: &Nodes<'_>,
    names: &[SpaceName<'_>],
    parts: &[Mirror],
) -> Result<(), AllocError>
    ensures { OnOk result (text.new.items ≡ text.old.items ++ graph_of palette.now nodes.now names.now parts.now) }
{
    text.extend_from_slice(
        b"digraph mounts {\nnode [shape=box, fontsize=10, height=0];\nedge [fontsize=10];\n",
    )?;
    push_clusters(text, palette, names, parts)?;
    push_all_parents(text, parts)?;
    push_groups(text, palette, nodes)?;
    push_legend(text, palette, nodes)?;
    text.extend_from_slice(b"}\n")?;
    Ok(())
}

/// Appends tables as a graph. Fails for want of memory alone.
pub(crate) fn push_graph(
    text: &mut Vec<u8>,
    alloc: Global,
    names: &[SpaceName<'_>],
    parts: &[Mirror],
) -> Result<(), AllocError>
    ensures { OnOk result (text.new.items ≡ text.old.items ++ graph_text names.now parts.now) }
{
    let nodes = Nodes::of(alloc, parts)?;
    let palette = Palette::of(alloc, &nodes)?;
    push_graph_of(text, &palette, &nodes, names, parts)
}
