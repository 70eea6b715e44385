//! The rows of a table in the order of a tree: each below its parent's.
ghost use Rattle.std.specs.Prelude.{◌≡◌, ℕ, ◌++◌, map, reverse, length, nat_eq, IfOk, OnOk, IsTrue};
ghost use Rattle.std.specs.HashSet.{contains};
ghost use Rattle.mt_skel.specs.Keyed.{rises};
ghost use Rattle.mt_info.specs.Table.{row_id};
ghost use Rattle.mt_render.specs.Forest.{without_lines, is_top, drawn_from, tree, strays};
ghost use Rattle.mt_render.specs.Steps.{step_of, top_step, steps_at, next_steps, steps_from, has_step};

use crate::children::Children;
use mt_info::row::Row;
use mt_info::table::find_row;
use mt_mounts::mount::MountId;
use std::alloc::{AllocError, Global};
use std::collections::HashSet;
use std::marker::Model;

/// A step of the way through a tree: a row, and where it stands.
#[derive(Drop)]
pub(crate) struct Step<'a> {
    /// How many rows stand above it.
    depth: usize,
    /// Whether it is the last child of its parent.
    is_last: bool,
    row: &'a Row,
}

impl<'a> Model for Step<'a> {
    ghost use Rattle.mt_render.specs.Steps.{StepView, step_code};

    ghost Value = { StepView };

    ghost use Rattle.mt_info.specs.contracts.row.Row as table_row;

    ghost coded = { step_code table_row.the_row.coded };

    ghost view = { λ s. record { depth = s.depth; is_last = s.is_last; row = s.row.now } };
}

impl<'a> Step<'a> {
    /// A row that stands below no other.
    fn top(row: &'a Row) -> Step<'a>
        ensures { result ≡ top_step row.now }
    {
        Step {
            depth: 0,
            is_last: false,
            row,
        }
    }

    /// How many rows stand above it.
    pub(crate) fn depth(&self) -> usize
        ensures { result ≡ self.now.depth }
    {
        self.depth
    }

    /// Whether it is the last child of its parent.
    pub(crate) fn is_last(&self) -> bool
        ensures { result ≡ self.now.is_last }
    {
        self.is_last
    }

    /// The row.
    pub(crate) fn row(&self) -> &'a Row
        ensures { result.now ≡ self.now.row }
    {
        self.row
    }
}

/// Whether a row is drawn below no other.
pub(crate) fn is_top(rows: &[Row], row: &Row) -> bool
    requires { IsTrue (rises row_id rows.now) }
    ensures { result ≡ is_top rows.now row.now }
{
    row.parent == row.id || find_row(rows, row.parent).is_none()
}

/// Pushes the children of a row at this depth, so that the first of them lies on top.
fn push_steps<'a>(
    stack: &mut Vec<Step<'a>>,
    depth: usize,
    children: &[&'a Row],
) -> Result<(), AllocError>
    ensures { OnOk result (stack.new.items ≡ stack.old.items ++ reverse (steps_at depth (map (λ row. row.now) children.now))) }
{
    'children: for step in 0..children.len() {
        stack.push(Step {
            depth,
            is_last: step == 0,
            row: children[children.len() - 1 - step],
        })?;
    }
    Ok(())
}

/// Pushes the children of a row, unless as many rows stand above it as there are.
fn push_below<'a>(
    stack: &mut Vec<Step<'a>>,
    alloc: Global,
    children: &Children<'a>,
    parent: &Step<'a>,
) -> Result<(), AllocError>
    ensures { OnOk result (stack.new.items ≡ stack.old.items ++ reverse (next_steps children.now parent.now)) }
{
    if parent.depth < children.rows().len() {
        push_steps(stack, parent.depth + 1, &children.below(alloc, parent.row)?)?;
    }
    Ok(())
}

/// Appends a top row and all below it.
fn push_grown<'a>(
    drawn: &mut Vec<Step<'a>>,
    alloc: Global,
    children: &Children<'a>,
    top: &'a Row,
) -> Result<(), AllocError>
    ensures { OnOk result (drawn.new.items ≡ drawn.old.items ++ steps_from children.now (length children.now) (top_step top.now)) }
{
    let mut stack = Vec::new(alloc);
    stack.push(Step::top(top))?;
    'steps: while let Some(step) = stack.pop() {
        push_below(&mut stack, alloc, children, &step)?;
        drawn.push(step)?;
    }
    Ok(())
}

/// A row and all below it.
pub(crate) fn grown<'a>(
    alloc: Global,
    children: &Children<'a>,
    top: &'a Row,
) -> Result<Vec<Step<'a>>, AllocError>
    ensures { IfOk result (λ drawn. drawn.items ≡ map step_of (drawn_from children.now (length children.now) (without_lines top.now))) }
{
    let mut drawn = Vec::new(alloc);
    push_grown(&mut drawn, alloc, children, top)?;
    Ok(drawn)
}

/// The rows of all trees: each top row, by rising ID, and all below it.
pub(crate) fn tree<'a>(alloc: Global, children: &Children<'a>) -> Result<Vec<Step<'a>>, AllocError>
    ensures { IfOk result (λ drawn. drawn.items ≡ map step_of (tree children.now)) }
{
    let rows = children.rows();
    let mut drawn = Vec::new(alloc);
    'rows: for row in rows {
        if is_top(rows, row) {
            push_grown(&mut drawn, alloc, children, row)?;
        }
    }
    Ok(drawn)
}

/// The mounts that have a row among these.
pub(crate) fn drawn_ids(alloc: Global, drawn: &[Step<'_>]) -> Result<HashSet<MountId>, AllocError>
    ensures { IfOk result (λ ids. (i : ℕ) → contains nat_eq ids i ≡ has_step drawn.now i) }
{
    let mut ids = HashSet::new(alloc);
    'drawn: for step in drawn {
        ids.insert(step.row.id)?;
    }
    Ok(ids)
}

/// The rows that are in no tree, by rising ID.
pub(crate) fn strays<'a>(
    alloc: Global,
    children: &Children<'a>,
    drawn: &[Step<'a>],
) -> Result<Vec<Step<'a>>, AllocError>
    requires { drawn.now ≡ map step_of (tree children.now) }
    ensures { IfOk result (λ others. others.items ≡ map step_of (strays children.now)) }
{
    let rows = children.rows();
    let ids = drawn_ids(alloc, drawn)?;
    let mut others = Vec::new(alloc);
    'rows: for row in rows {
        if !ids.contains(&row.id) {
            others.push(Step::top(row))?;
        }
    }
    Ok(others)
}
