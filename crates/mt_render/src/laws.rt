//! What is true of every tree.
ghost use Rattle.mt_render.specs.Laws.{EachRowIsDrawnOnce, OnlyRowsAreDrawn, TreesHaveTops, ChildrenStandBelow};

/// Each row of a table stands in its tree or below it, once, and nothing else does. A row stands in the tree exactly if
/// its parents lead to a top row.
pub fn trees_have_each_row_once()
    ensures once { EachRowIsDrawnOnce }
    ensures only { OnlyRowsAreDrawn }
    ensures tops { TreesHaveTops }
{}

/// A row of a tree that is no top row stands below that of its parent.
pub fn children_stand_below()
    ensures { ChildrenStandBelow }
{}
