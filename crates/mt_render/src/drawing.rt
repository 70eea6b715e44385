//! Drawings of tables.
ghost use Rattle.std.specs.Prelude.{◌≡◌, IfOk};
ghost use Rattle.mt_render.specs.Drawings.{drawing_text};

use crate::graph::push_graph;
use crate::leads::Strokes;
use crate::named::SpaceName;
use crate::objects::{push_flat_lines, push_nested_lines};
use crate::trees::push_trees;
use mt_events::mirror::Mirror;
use std::alloc::{AllocError, Global};

/// How a drawing looks.
#[derive(Clone, Copy, PartialEq, Eq, Debug)]
pub enum Drawing {
    /// A tree for each table, with lines of UTF-8, as findmnt(8) draws it.
    Tree,
    /// A tree for each table, in ASCII where names are.
    PlainTree,
    /// One graph of all tables for Graphviz, in ASCII.
    Graph,
    /// A line of JSON for each table, with its rows by rising ID.
    FlatJson,
    /// A line of JSON for each table, with each row within that of its parent, as findmnt(8) nests them.
    NestedJson,
}

/// A drawing of the tables of namespaces, which stand in it in their order. Each of them should be of another namespace, whose
/// name among these, if it has one, stands beside its number. Fails for want of memory alone.
#[tactic(auto, unfolding(crate::specs::Drawings::drawing_text))]
pub fn drawing_text(
    alloc: Global,
    drawing: Drawing,
    names: &[SpaceName<'_>],
    parts: &[Mirror],
) -> Result<Vec<u8>, AllocError>
    ensures drawn { IfOk result (λ text. text.items ≡ drawing_text drawing names.now parts.now) }
{
    let mut text = Vec::new(alloc);
    match drawing {
        Drawing::Tree => push_trees(&mut text, alloc, Strokes::Lines, names, parts)?,
        Drawing::PlainTree => push_trees(&mut text, alloc, Strokes::Ascii, names, parts)?,
        Drawing::Graph => push_graph(&mut text, alloc, names, parts)?,
        Drawing::FlatJson => push_flat_lines(&mut text, alloc, names, parts)?,
        Drawing::NestedJson => push_nested_lines(&mut text, alloc, names, parts)?,
    }
    Ok(text)
}
