//! Tables and places as JSON, an object a line.
ghost use Rattle.std.specs.Prelude.{◌≡◌, ◌++◌, false, map, OnOk, IfOk};
ghost use Rattle.std.specs.List.{filter, flat_map};
ghost use Rattle.serde_json.specs.View.{view, members_view};
ghost use Rattle.serde_json.specs.Written.{has_float};
ghost use Rattle.mt_render.specs.Forest.{is_top};
ghost use Rattle.mt_render.specs.Steps.{stands_deep};
ghost use Rattle.mt_render.specs.Objects.{value_line, with_children, node_with, flat_node, node, most_generations, tree_nodes, listing, flat_line, nested_line, place_line};

use crate::children::Children;
use crate::forest::{Step, is_top, strays, tree};
use crate::members::{Members, put_name, put_number, put_row, put_text};
use crate::named::{SpaceName, name_in};
use mt_events::mirror::Mirror;
use mt_info::row::Row;
use mt_info::table::Table;
use mt_mounts::mount::SpaceId;
use mt_terminal::json::quoted_text;
use serde_json::{Map, Value, push, put};
use std::alloc::{AllocError, Global};

/// How many generations of mounts stand within each other below a top row, this project's rule. With what stands around
/// them that is less than 256 objects and arrays within each other, which common readers take.
const MOST_GENERATIONS: usize = 100;

/// A value as a line of its own, with no character that a terminal obeys.
pub(crate) fn value_line(alloc: Global, value: &Value) -> Result<Vec<u8>, AllocError>
    requires { has_float (view value.now) ≡ false }
    ensures { IfOk result (λ line. line.items ≡ value_line (view value.now)) }
{
    let mut line = quoted_text(alloc, &value.to_vec(alloc)?)?;
    line.push(b'\n')?;
    Ok(line)
}

/// Appends a value as a line of its own.
pub(crate) fn push_value(text: &mut Vec<u8>, value: &Value) -> Result<(), AllocError>
    requires { has_float (view value.now) ≡ false }
    ensures { OnOk result (text.new.items ≡ text.old.items ++ value_line (view value.now)) }
{
    text.extend_from_slice(&value_line(*text.allocator(), value)?)
}

/// Puts in the objects of the children of a row, where it has some.
fn put_children(
    members: &mut Members,
    alloc: Global,
    children: Vec<Value>,
) -> Result<(), AllocError>
    ensures { OnOk result (members_view members.new.entries ≡ with_children (map view children.items) (members_view members.old.entries)) }
{
    if children.is_empty() {
        return Ok(());
    }
    put(members, alloc, "children", Value::from(children))
}

/// A row as an object, with those of its children.
fn node_with(alloc: Global, row: &Row, children: Vec<Value>) -> Result<Value, AllocError>
    ensures { IfOk result (λ value. view value ≡ node_with row.now (map view children.items)) }
{
    let mut members = Map::new(alloc);
    put_row(&mut members, alloc, row)?;
    put_children(&mut members, alloc, children)?;
    Ok(Value::from(members))
}

/// A row as an object without its children.
pub(crate) fn flat_node(alloc: Global, row: &Row) -> Result<Value, AllocError>
    ensures { IfOk result (λ value. view value ≡ flat_node row.now) }
{
    node_with(alloc, row, Vec::new(alloc))
}

/// A row as an object with all below it, so many generations at most.
fn node(
    alloc: Global,
    children: &Children<'_>,
    generations: usize,
    row: &Row,
) -> Result<Value, AllocError>
    ensures { IfOk result (λ value. view value ≡ node children.now generations row.now) }
{
    let mut values = Vec::new(alloc);
    if generations == 0 {
        return node_with(alloc, row, values);
    }
    'below: for child in &children.below(alloc, row)? {
        push(&mut values, node(alloc, children, generations - 1, child)?)?;
    }
    node_with(alloc, row, values)
}

/// Each top row as an object, with so many generations below it as stand within each other.
fn top_nodes(alloc: Global, children: &Children<'_>) -> Result<Vec<Value>, AllocError>
    ensures { IfOk result (λ values. map view values.items ≡ map (node children.now most_generations) (filter (is_top children.now) children.now)) }
{
    let rows = children.rows();
    let mut values = Vec::new(alloc);
    'rows: for row in rows {
        if is_top(rows, row) {
            push(&mut values, node(alloc, children, MOST_GENERATIONS, row)?)?;
        }
    }
    Ok(values)
}

/// Appends the objects of rows of trees that stand too deep to stand within their parents.
fn push_deep(values: &mut Vec<Value>, alloc: Global, drawn: &[Step<'_>]) -> Result<(), AllocError>
    ensures { OnOk result (map view values.new.items ≡ map view values.old.items ++ map (λ s. flat_node s.row) (filter stands_deep drawn.now)) }
{
    'drawn: for step in drawn {
        if step.depth() > MOST_GENERATIONS {
            push(values, flat_node(alloc, step.row())?)?;
        }
    }
    Ok(())
}

/// Appends the objects of rows that are in no tree.
fn push_strays(
    values: &mut Vec<Value>,
    alloc: Global,
    others: &[Step<'_>],
) -> Result<(), AllocError>
    ensures { OnOk result (map view values.new.items ≡ map view values.old.items ++ map (λ s. flat_node s.row) others.now) }
{
    'others: for step in others {
        push(values, flat_node(alloc, step.row())?)?;
    }
    Ok(())
}

/// The rows of a table as objects, each within its parent's, but for those that stand too deep.
fn tree_nodes(table: &Table) -> Result<Vec<Value>, AllocError>
    ensures { IfOk result (λ values. map view values.items ≡ tree_nodes table.now) }
{
    let alloc = table.allocator();
    let children = Children::of(table)?;
    let drawn = tree(alloc, &children)?;
    let others = strays(alloc, &children, &drawn)?;
    let mut values = top_nodes(alloc, &children)?;
    push_deep(&mut values, alloc, &drawn)?;
    push_strays(&mut values, alloc, &others)?;
    Ok(values)
}

/// The rows of a table as objects, by rising ID.
fn flat_nodes(alloc: Global, rows: &[Row]) -> Result<Vec<Value>, AllocError>
    ensures { IfOk result (λ values. map view values.items ≡ map flat_node rows.now) }
{
    let mut values = Vec::new(alloc);
    'rows: for row in rows {
        push(&mut values, flat_node(alloc, row)?)?;
    }
    Ok(values)
}

/// The members of an object of mounts of a namespace.
fn listing(
    alloc: Global,
    space: SpaceId,
    name: &[u8],
    values: Vec<Value>,
) -> Result<Members, AllocError>
    ensures { IfOk result (λ members. members_view members.entries ≡ listing space name.now (map view values.items)) }
{
    let mut members = Map::new(alloc);
    put_number(&mut members, alloc, "namespace", space)?;
    put_name(&mut members, alloc, name)?;
    put(&mut members, alloc, "filesystems", Value::from(values))?;
    Ok(members)
}

/// Appends the line of a namespace, with all its mounts by rising ID.
#[tactic(auto, unfolding(crate::specs::Objects::flat_line))]
fn push_flat(
    text: &mut Vec<u8>,
    alloc: Global,
    names: &[SpaceName<'_>],
    part: &Mirror,
) -> Result<(), AllocError>
    ensures { OnOk result (text.new.items ≡ text.old.items ++ flat_line names.now part.now) }
{
    let values = flat_nodes(alloc, part.table().rows())?;
    let space = part.space();
    let value = Value::from(listing(alloc, space, name_in(names, space), values)?);
    push_value(text, &value)
}

/// Appends the line of a namespace, with each of its mounts within its parent.
#[tactic(auto, unfolding(crate::specs::Objects::nested_line))]
fn push_nested(
    text: &mut Vec<u8>,
    alloc: Global,
    names: &[SpaceName<'_>],
    part: &Mirror,
) -> Result<(), AllocError>
    ensures { OnOk result (text.new.items ≡ text.old.items ++ nested_line names.now part.now) }
{
    let values = tree_nodes(part.table())?;
    let space = part.space();
    let value = Value::from(listing(alloc, space, name_in(names, space), values)?);
    push_value(text, &value)
}

/// Appends the lines of namespaces, each with all its mounts by rising ID. Fails for want of memory alone.
pub(crate) fn push_flat_lines(
    text: &mut Vec<u8>,
    alloc: Global,
    names: &[SpaceName<'_>],
    parts: &[Mirror],
) -> Result<(), AllocError>
    ensures { OnOk result (text.new.items ≡ text.old.items ++ flat_map (flat_line names.now) parts.now) }
{
    'parts: for part in parts {
        push_flat(text, alloc, names, part)?;
    }
    Ok(())
}

/// Appends the lines of namespaces, each with its mounts within their parents. Fails for want of memory alone.
pub(crate) fn push_nested_lines(
    text: &mut Vec<u8>,
    alloc: Global,
    names: &[SpaceName<'_>],
    parts: &[Mirror],
) -> Result<(), AllocError>
    ensures { OnOk result (text.new.items ≡ text.old.items ++ flat_map (nested_line names.now) parts.now) }
{
    'parts: for part in parts {
        push_nested(text, alloc, names, part)?;
    }
    Ok(())
}

/// The line of where a path ends: a mount of a namespace, and a directory of its filesystem, as it stands in an answer
/// without its escapes. Fails for want of memory alone.
#[tactic(auto, unfolding(crate::specs::Objects::place_line))]
pub fn place_line(
    alloc: Global,
    space: SpaceId,
    directory: &[u8],
    row: &Row,
) -> Result<Vec<u8>, AllocError>
    ensures { IfOk result (λ line. line.items ≡ place_line space directory.now row.now) }
{
    let mut values = Vec::new(alloc);
    push(&mut values, flat_node(alloc, row)?)?;
    let mut members = listing(alloc, space, &[], values)?;
    put_text(&mut members, alloc, "directory", directory)?;
    value_line(alloc, &Value::from(members))
}
