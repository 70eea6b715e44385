//! Columns: cells that are padded with spaces to the widest one below each other, up to 60 cells of a line.
ghost use Rattle.std.specs.Prelude.{◌≡◌, ◌+◌, ◌++◌, OnOk, replicate};
ghost use Rattle.std.specs.List.{fold, flat_map};
ghost use Rattle.mt_terminal.specs.Terminal.{cells_of_text};
ghost use Rattle.mt_render.specs.Columns.{no_widths, width_for, widened, padded, cells_line};

use mt_terminal::terminal::cells_of_text;
use std::alloc::AllocError;
use std::marker::Model;

/// What stands in a column.
#[derive(Drop)]
pub(crate) struct Cell {
    text: Vec<u8>,
    /// How many cells of a line it takes.
    width: usize,
}

impl Model for Cell {
    ghost use Rattle.std.specs.Prelude.{◌≡◌, ℕ, List};
    ghost use Rattle.mt_terminal.specs.Terminal.{cells_of_text};

    ghost Value = { List ℕ };

    ghost view = { λ c. c.text.items };

    ghost invariant = { λ c. c.width ≡ cells_of_text c.text.items };
}

/// The cells of one line.
#[derive(Drop)]
pub(crate) struct Cells {
    pub(crate) id: Cell,
    pub(crate) target: Cell,
    pub(crate) source: Cell,
    pub(crate) kind: Cell,
    pub(crate) options: Cell,
    pub(crate) propagation: Vec<u8>,
}

impl Model for Cells {
    ghost use Rattle.mt_render.specs.Columns.{CellsView, cells_code};

    ghost Value = { CellsView };

    ghost coded = { cells_code };

    ghost view = { λ c. record { id = c.id; target = c.target; source = c.source; kind = c.kind; options = c.options; propagation = c.propagation.items } };
}

/// How wide the columns in front of the last one are.
#[derive(Clone, Copy)]
pub(crate) struct Widths {
    id: usize,
    target: usize,
    source: usize,
    kind: usize,
    options: usize,
}

/// How wide a column is at most, in cells of a line: what is wider pushes the cells behind it to the right.
const MOST_WIDTH: usize = 60;

/// Appends so many spaces.
fn push_spaces(text: &mut Vec<u8>, count: usize) -> Result<(), AllocError>
    ensures { OnOk result (text.new.items ≡ text.old.items ++ replicate count 32) }
{
    'spaces: for _step in 0..count {
        text.push(b' ')?;
    }
    Ok(())
}

impl Cell {
    /// This text.
    pub(crate) fn new(text: Vec<u8>) -> Cell
        ensures { result ≡ text.items }
    {
        let width = cells_of_text(&text);
        Cell { text, width }
    }

    /// A text that ends with this one, behind what takes so many cells of a line.
    pub(crate) fn behind(width: usize, end: &[u8], text: Vec<u8>) -> Cell
        requires { cells_of_text text.items ≡ width + cells_of_text end.now }
        ensures { result ≡ text.items }
    {
        let _text = text.as_slice();
        let width = width + cells_of_text(end);
        Cell { text, width }
    }

    /// How wide a column is for it.
    fn width(&self) -> usize
        ensures { result ≡ width_for self.now }
    {
        self.width.min(MOST_WIDTH)
    }

    /// Appends the cell, in a column of this width that others follow.
    fn push(&self, text: &mut Vec<u8>, width: usize) -> Result<(), AllocError>
        ensures { OnOk result (text.new.items ≡ text.old.items ++ padded width self.now) }
    {
        text.extend_from_slice(&self.text)?;
        push_spaces(text, width.saturating_sub(self.width))?;
        text.extend_from_slice(b" ")?;
        Ok(())
    }
}

impl Cells {
    /// Columns that are wide enough for these cells too, as far as a column may be.
    fn widened(&self, widths: Widths) -> Widths
        ensures { result ≡ widened widths self.now }
    {
        Widths {
            id: widths.id.max(self.id.width()),
            target: widths.target.max(self.target.width()),
            source: widths.source.max(self.source.width()),
            kind: widths.kind.max(self.kind.width()),
            options: widths.options.max(self.options.width()),
        }
    }

    /// Appends the line of these cells.
    #[tactic(auto, unfolding(crate::specs::Columns::cells_line))]
    fn push(&self, text: &mut Vec<u8>, widths: Widths) -> Result<(), AllocError>
        ensures { OnOk result (text.new.items ≡ text.old.items ++ cells_line widths self.now) }
    {
        self.id.push(text, widths.id)?;
        self.target.push(text, widths.target)?;
        self.source.push(text, widths.source)?;
        self.kind.push(text, widths.kind)?;
        self.options.push(text, widths.options)?;
        text.extend_from_slice(&self.propagation)?;
        text.extend_from_slice(b"\n")?;
        Ok(())
    }
}

impl Widths {
    /// No column has a cell yet.
    pub(crate) fn none() -> Widths
        ensures { result ≡ no_widths }
    {
        Widths {
            id: 0,
            target: 0,
            source: 0,
            kind: 0,
            options: 0,
        }
    }

    /// Columns that are wide enough for the cells of these lines too, as far as a column may be.
    pub(crate) fn widened(self, lines: &[Cells]) -> Widths
        ensures { result ≡ fold widened self lines.now }
    {
        let mut widths = self;
        'lines: for line in lines {
            widths = line.widened(widths);
        }
        widths
    }
}

/// Appends the lines of these cells.
pub(crate) fn push_lines(
    text: &mut Vec<u8>,
    widths: Widths,
    lines: &[Cells],
) -> Result<(), AllocError>
    ensures { OnOk result (text.new.items ≡ text.old.items ++ flat_map (cells_line widths) lines.now) }
{
    for line in lines {
        line.push(text, widths)?;
    }
    Ok(())
}
