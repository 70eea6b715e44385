//! The lines that lead to the rows of a tree, as findmnt(8) draws them.
ghost use Rattle.std.specs.Prelude.{◌≡◌, ◌-◌, [], ◌∷◌, ◌++◌, take, length, cond, codes, OnOk, IfOk};
ghost use Rattle.mt_render.specs.Trees.{tee, corner, bar, lead};
ghost use Rattle.mt_render.specs.Steps.{led};
ghost use Rattle.mt_render.specs.Leads.{IsBarred, HasWidth, HasGoneOn};

use crate::forest::Step;
use mt_terminal::terminal::cells_of_text;
use std::alloc::{AllocError, Global};

/// What the lines of a tree are made of.
#[derive(Clone, Copy)]
pub(crate) enum Strokes {
    /// Characters for drawing boxes, in UTF-8.
    Lines,
    /// ASCII alone.
    Ascii,
}

/// What stands in front of a row that is not the last child of its parent.
fn tee(strokes: Strokes) -> &'static [u8]
    ensures { result.now ≡ tee strokes }
{
    match strokes {
        Strokes::Lines => b"\xe2\x94\x9c\xe2\x94\x80",
        Strokes::Ascii => b"|-",
    }
}

/// What stands in front of the last child of its parent.
fn corner(strokes: Strokes) -> &'static [u8]
    ensures { result.now ≡ corner strokes }
{
    match strokes {
        Strokes::Lines => b"\xe2\x94\x94\xe2\x94\x80",
        Strokes::Ascii => b"`-",
    }
}

/// What stands in front of all below a row that is not the last child of its parent.
fn bar(strokes: Strokes) -> &'static [u8]
    ensures { result.now ≡ bar strokes }
{
    match strokes {
        Strokes::Lines => b"\xe2\x94\x82 ",
        Strokes::Ascii => b"| ",
    }
}

/// The piece in front of a row.
fn own_piece(strokes: Strokes, is_last: bool) -> &'static [u8]
    ensures { result.now ≡ cond is_last (corner strokes) (tee strokes) }
{
    if is_last {
        corner(strokes)
    } else {
        tee(strokes)
    }
}

/// The piece in front of all below a row.
fn piece_below(strokes: Strokes, is_last: bool) -> &'static [u8]
    ensures { result.now ≡ cond is_last (codes "  ") (bar strokes) }
{
    if is_last { b"  " } else { bar(strokes) }
}

/// How many bytes a piece has at most.
const MOST_BYTES: usize = 6;

/// The way to the row of a tree that was drawn last.
#[derive(Drop)]
pub(crate) struct Path {
    strokes: Strokes,
    /// Of each row on it but the top one, whether it is the last child of its parent.
    lasts: Vec<bool>,
    /// What stands in front of all below that row.
    bars: Vec<u8>,
    /// How many cells of a line that takes.
    width: usize,
}

impl Path {
    /// The way to a top row.
    pub(crate) fn new(alloc: Global, strokes: Strokes) -> Path
        ensures strokes { result.strokes ≡ strokes }
        ensures lasts { result.lasts.items ≡ [] }
        ensures barred { IsBarred result }
    {
        Path {
            strokes,
            lasts: Vec::new(alloc),
            bars: Vec::new(alloc),
            width: 0,
        }
    }

    /// How many bytes lead to a row below that one, at most.
    pub(crate) fn most_bytes(&self) -> usize {
        self.bars.len().saturating_add(MOST_BYTES)
    }

    /// Leaves the lowest row.
    fn leave(&mut self)
        requires barred { IsBarred self.old }
        ensures strokes { self.new.strokes ≡ self.old.strokes }
        ensures lasts { self.new.lasts.items ≡ take (length self.old.lasts.items - 1) self.old.lasts.items }
        ensures barred { IsBarred self.new }
    {
        if let Some(is_last) = self.lasts.pop() {
            let piece = piece_below(self.strokes, is_last);
            let bars = self.bars.as_slice();
            let rest = bars.len() - piece.len();
            self.bars.truncate(rest);
            self.width -= cells_of_text(piece);
        }
    }

    /// Goes up to where so many rows stand above.
    fn rise(&mut self, depth: usize)
        requires barred { IsBarred self.old }
        ensures strokes { self.new.strokes ≡ self.old.strokes }
        ensures lasts { self.new.lasts.items ≡ take depth self.old.lasts.items }
        ensures barred { IsBarred self.new }
    {
        'levels: while self.lasts.len() > depth {
            self.leave();
        }
    }

    /// Goes down to a child.
    fn enter(&mut self, is_last: bool) -> Result<(), AllocError>
        requires barred { IsBarred self.old }
        ensures strokes { OnOk result (self.new.strokes ≡ self.old.strokes) }
        ensures lasts { OnOk result (self.new.lasts.items ≡ self.old.lasts.items ++ is_last ∷ []) }
        ensures barred { OnOk result (IsBarred self.new) }
    {
        let piece = piece_below(self.strokes, is_last);
        self.lasts.push(is_last)?;
        self.bars.extend_from_slice(piece)?;
        let _bars = self.bars.as_slice();
        self.width += cells_of_text(piece);
        Ok(())
    }

    /// Goes to a child of the row that so many rows stand above, and appends the lines that lead to it: how many cells of a
    /// line they take.
    fn push_child(
        &mut self,
        text: &mut Vec<u8>,
        above: usize,
        is_last: bool,
    ) -> Result<usize, AllocError>
        requires barred { IsBarred self.old }
        ensures text { OnOk result (text.new.items ≡ text.old.items ++ lead self.old.strokes (take above self.old.lasts.items ++ is_last ∷ [])) }
        ensures width { IfOk result (λ width. HasWidth width (lead self.old.strokes (take above self.old.lasts.items ++ is_last ∷ []))) }
        ensures strokes { OnOk result (self.new.strokes ≡ self.old.strokes) }
        ensures lasts { OnOk result (self.new.lasts.items ≡ take above self.old.lasts.items ++ is_last ∷ []) }
        ensures barred { OnOk result (IsBarred self.new) }
    {
        self.rise(above);
        let piece = own_piece(self.strokes, is_last);
        text.extend_from_slice(&self.bars)?;
        text.extend_from_slice(piece)?;
        let _text = text.as_slice();
        let width = self.width + cells_of_text(piece);
        self.enter(is_last)?;
        Ok(width)
    }

    /// Goes to the next row of a tree, and appends the lines that lead to it: how many cells of a line they take. Fails for
    /// want of memory alone.
    pub(crate) fn push_lead(
        &mut self,
        text: &mut Vec<u8>,
        step: &Step<'_>,
    ) -> Result<usize, AllocError>
        requires barred { IsBarred self.old }
        ensures text { OnOk result (text.new.items ≡ text.old.items ++ lead self.old.strokes (led self.old.lasts.items step.now)) }
        ensures width { IfOk result (λ width. HasWidth width (lead self.old.strokes (led self.old.lasts.items step.now))) }
        ensures path { OnOk result (HasGoneOn self.old step.now self.new) }
    {
        match step.depth().checked_sub(1) {
            Some(above) => self.push_child(text, above, step.is_last()),
            None => {
                self.rise(0);
                Ok(0)
            }
        }
    }
}
