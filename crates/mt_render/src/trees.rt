//! Tables as trees of text, as findmnt(8) draws them.
ghost use Rattle.std.specs.Prelude.{◌≡◌, [], ◌++◌, map, OnOk, IfOk};
ghost use Rattle.mt_skel.specs.Escapes.{escaped};
ghost use Rattle.mt_info.specs.RowLine.{path_text};
ghost use Rattle.mt_terminal.specs.Terminal.{terminal_text};
ghost use Rattle.mt_render.specs.Trees.{lead, shown_root, cells, header, heading, strays_text, fitted_text, part_tree, apart, trees_text};
ghost use Rattle.mt_render.specs.Steps.{led, unrolled};
ghost use Rattle.mt_render.specs.Leads.{IsBarred, HasGoneOn};

use crate::children::Children;
use crate::columns::{Cell, Cells, Widths, push_lines};
use crate::forest::{Step, strays, tree};
use crate::leads::{Path, Strokes};
use crate::named::{SpaceName, name_in, push_shown_name};
use crate::propagation::push_propagation;
use mt_events::mirror::Mirror;
use mt_info::print::{push_label, push_number, push_options, push_path};
use mt_info::row::Row;
use mt_mounts::mount::SpaceId;
use mt_terminal::terminal::terminal_text;
use std::alloc::{AllocError, Global};

/// Appends the directory that a mount shows at its root, in brackets, where that is not the root of its filesystem.
pub(crate) fn push_shown_root(text: &mut Vec<u8>, row: &Row) -> Result<(), AllocError>
    ensures { OnOk result (text.new.items ≡ text.old.items ++ shown_root row.now.root) }
{
    if row.root.text().is_empty() {
        return Ok(());
    }
    text.extend_from_slice(b"[")?;
    push_path(text, &row.root)?;
    text.extend_from_slice(b"]")?;
    Ok(())
}

/// A mount point as a terminal is given it.
fn point_of(alloc: Global, row: &Row) -> Result<Vec<u8>, AllocError>
    ensures { IfOk result (λ point. point.items ≡ terminal_text (path_text row.now.point)) }
{
    let mut point = Vec::new(alloc);
    push_path(&mut point, &row.point)?;
    terminal_text(alloc, &point)
}

/// The cell of a mount point, behind the lines that lead to it.
fn target_of(alloc: Global, path: &mut Path, step: &Step<'_>) -> Result<Cell, AllocError>
    requires barred { IsBarred path.old }
    ensures cell { IfOk result (λ cell. cell ≡ lead path.old.strokes (led path.old.lasts.items step.now) ++ terminal_text (path_text step.now.row.point)) }
    ensures path { OnOk result (HasGoneOn path.old step.now path.new) }
{
    let point = point_of(alloc, step.row())?;
    let most_bytes = path.most_bytes().saturating_add(point.len());
    let mut text = Vec::with_capacity(alloc, most_bytes)?;
    let width = path.push_lead(&mut text, step)?;
    text.extend_from_slice(&point)?;
    Ok(Cell::behind(width, &point, text))
}

/// The cell of a source, and of the directory that is shown.
fn source_of(alloc: Global, row: &Row) -> Result<Cell, AllocError>
    ensures { IfOk result (λ cell. cell ≡ terminal_text (escaped row.now.source ++ shown_root row.now.root)) }
{
    let mut source = Vec::new(alloc);
    push_label(&mut source, &row.source)?;
    push_shown_root(&mut source, row)?;
    Ok(Cell::new(terminal_text(alloc, &source)?))
}

/// The cell of a type.
fn kind_of(alloc: Global, row: &Row) -> Result<Cell, AllocError>
    ensures { IfOk result (λ cell. cell ≡ terminal_text (escaped row.now.kind)) }
{
    let mut kind = Vec::new(alloc);
    push_label(&mut kind, &row.kind)?;
    Ok(Cell::new(terminal_text(alloc, &kind)?))
}

/// The cells of a row.
fn cells_of(alloc: Global, path: &mut Path, step: &Step<'_>) -> Result<Cells, AllocError>
    requires barred { IsBarred path.old }
    ensures cells { IfOk result (λ found. found ≡ cells path.old.strokes (record { lasts = led path.old.lasts.items step.now; row = step.now.row })) }
    ensures path { OnOk result (HasGoneOn path.old step.now path.new) }
{
    let row = step.row();
    let mut id = Vec::new(alloc);
    push_number(&mut id, row.id)?;
    let target = target_of(alloc, path, step)?;
    let source = source_of(alloc, row)?;
    let kind = kind_of(alloc, row)?;
    let mut options = Vec::new(alloc);
    push_options(&mut options, &row.attrs)?;
    let mut propagation = Vec::new(alloc);
    push_propagation(&mut propagation, row)?;
    Ok(Cells {
        id: Cell::new(id),
        target,
        source,
        kind,
        options: Cell::new(options),
        propagation,
    })
}

/// The cells of the line above the rows.
fn header(alloc: Global) -> Result<Cells, AllocError>
    ensures { IfOk result (λ found. found ≡ header) }
{
    Ok(Cells {
        id: Cell::new(Vec::from_slice(alloc, b"ID")?),
        target: Cell::new(Vec::from_slice(alloc, b"TARGET")?),
        source: Cell::new(Vec::from_slice(alloc, b"SOURCE")?),
        kind: Cell::new(Vec::from_slice(alloc, b"FSTYPE")?),
        options: Cell::new(Vec::from_slice(alloc, b"OPTIONS")?),
        propagation: Vec::from_slice(alloc, b"PROPAGATION")?,
    })
}

/// Appends the cells of rows.
fn push_cells(
    lines: &mut Vec<Cells>,
    alloc: Global,
    strokes: Strokes,
    steps: &[Step<'_>],
) -> Result<(), AllocError>
    ensures { OnOk result (lines.new.items ≡ lines.old.items ++ map (cells strokes) (unrolled [] steps.now)) }
{
    let mut path = Path::new(alloc, strokes);
    'steps: for step in steps {
        lines.push(cells_of(alloc, &mut path, step)?)?;
    }
    Ok(())
}

/// Appends the lines of the rows that are in no tree, behind a line that says so.
fn push_strays(text: &mut Vec<u8>, widths: Widths, others: &[Cells]) -> Result<(), AllocError>
    ensures { OnOk result (text.new.items ≡ text.old.items ++ strays_text widths others.now) }
{
    if !others.is_empty() {
        text.extend_from_slice(b"not in a tree:\n")?;
        push_lines(text, widths, others)?;
    }
    Ok(())
}

/// Appends lines in columns that fit them all.
fn push_columns(text: &mut Vec<u8>, lines: &[Cells], others: &[Cells]) -> Result<(), AllocError>
    ensures { OnOk result (text.new.items ≡ text.old.items ++ fitted_text lines.now others.now) }
{
    let widths = Widths::none().widened(lines).widened(others);
    push_lines(text, widths, lines)?;
    push_strays(text, widths, others)?;
    Ok(())
}

/// Appends the line above the table of a namespace.
fn push_heading(text: &mut Vec<u8>, space: SpaceId, name: &[u8]) -> Result<(), AllocError>
    ensures { OnOk result (text.new.items ≡ text.old.items ++ heading space name.now) }
{
    text.extend_from_slice(b"namespace ")?;
    push_number(text, space)?;
    push_shown_name(text, name)?;
    text.extend_from_slice(b"\n")?;
    Ok(())
}

/// Appends the table of a namespace as a tree, behind its number and its name.
#[tactic(auto, unfolding(crate::specs::Trees::part_tree))]
fn push_part(
    text: &mut Vec<u8>,
    alloc: Global,
    strokes: Strokes,
    names: &[SpaceName<'_>],
    part: &Mirror,
) -> Result<(), AllocError>
    ensures { OnOk result (text.new.items ≡ text.old.items ++ part_tree strokes names.now part.now) }
{
    let children = Children::of(part.table())?;
    let drawn = tree(alloc, &children)?;
    let strays = strays(alloc, &children, &drawn)?;
    let mut lines = Vec::new(alloc);
    lines.push(header(alloc)?)?;
    push_cells(&mut lines, alloc, strokes, &drawn)?;
    let mut others = Vec::new(alloc);
    push_cells(&mut others, alloc, strokes, &strays)?;
    let space = part.space();
    push_heading(text, space, name_in(names, space))?;
    push_columns(text, &lines, &others)?;
    Ok(())
}

/// Appends tables as trees, each behind an empty line.
fn push_apart(
    text: &mut Vec<u8>,
    alloc: Global,
    strokes: Strokes,
    names: &[SpaceName<'_>],
    parts: &[Mirror],
) -> Result<(), AllocError>
    ensures { OnOk result (text.new.items ≡ text.old.items ++ apart strokes names.now parts.now) }
{
    'parts: for part in parts {
        text.extend_from_slice(b"\n")?;
        push_part(text, alloc, strokes, names, part)?;
    }
    Ok(())
}

/// Appends tables as trees, with an empty line between them. Fails for want of memory alone.
pub(crate) fn push_trees(
    text: &mut Vec<u8>,
    alloc: Global,
    strokes: Strokes,
    names: &[SpaceName<'_>],
    parts: &[Mirror],
) -> Result<(), AllocError>
    ensures { OnOk result (text.new.items ≡ text.old.items ++ trees_text strokes names.now parts.now) }
{
    let [part, later @ ..] = parts else {
        return Ok(());
    };
    push_part(text, alloc, strokes, names, part)?;
    push_apart(text, alloc, strokes, names, later)?;
    Ok(())
}
