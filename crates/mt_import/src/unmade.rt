//! The script of tables of which none can be made: comments on all rows.
ghost use Rattle.std.specs.Prelude.{◌≡◌, map, IfOk};
ghost use Rattle.mt_import.specs.Import.{IsImport};
ghost use Rattle.mt_import.specs.Unmade.{IsUnmade, AreUnmade};

use crate::groups::Groups;
use crate::host_space::HostSpace;
use crate::reason::Reason;
use crate::script::Script;
use crate::space::Space;
use crate::telling::{tell_spaces, tell_tables};
use crate::tree::Tree;
use crate::writer::Allocated;
use std::alloc::Global;

/// A table of a number, of which no mount is made.
fn unmade_space<'a>(alloc: Global, table: usize, told: &'a HostSpace) -> Allocated<Space<'a>>
    ensures told { IfOk result (λ space. space.tree.told ≡ told.now) }
    ensures unmade { IfOk result (IsUnmade table) }
{
    let tree = Tree::new(alloc, table, told, Reason::Unmade)?;
    let ways = Vec::new(alloc);
    Ok(Space {
        original: 1,
        number: 1,
        tree,
        ways,
    })
}

/// The tables, of which no mount is made.
fn unmade_spaces<'a>(alloc: Global, tables: &'a [HostSpace]) -> Allocated<Vec<Space<'a>>>
    ensures told { IfOk result (λ spaces. map (λ space. space.tree.told) spaces.items ≡ tables.now) }
    ensures unmade { IfOk result (λ spaces. AreUnmade 1 spaces.items) }
{
    let mut spaces: Vec<Space<'a>> = Vec::new(alloc);
    'tables: for (before, told) in tables.iter().enumerate() {
        let space = unmade_space(alloc, before + 1, told)?;
        spaces.push(space)?;
    }
    Ok(spaces)
}

/// The script that tells all rows of tables, and makes nothing.
pub(crate) fn told_script(alloc: Global, tables: &[HostSpace]) -> Allocated<Script>
    ensures { IfOk result (IsImport tables.now) }
{
    let spaces = unmade_spaces(alloc, tables)?;
    let (_groups, mut script) = (Groups::new(alloc), Script::new(alloc));
    tell_tables(&mut script, spaces.as_slice())?;
    tell_spaces(&mut script, spaces.as_slice())?;
    let _text = script.text();
    Ok(script)
}
