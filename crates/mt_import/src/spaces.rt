//! The namespaces that a script makes.
ghost use Rattle.std.specs.Prelude.{◌≡◌, ◌++◌, nat_lt, OnOk};
ghost use Rattle.std.specs.List.{flat_map};
ghost use Rattle.mt_import.specs.Spaces.{mounts_made, copied_if, locked_if, space_text, made_if_shown, AreMade};

use crate::covers::covers_of;
use crate::groups::Groups;
use crate::path::STAGE;
use crate::plan::Plan;
use crate::script::Script;
use crate::site::Site;
use crate::space::Space;
use crate::writer::{Written, command, digits_of, table_comment};

impl<'s, 'a> Site<'s, 'a> {
    /// Makes the mounts of a table.
    fn make_mounts(self, script: &mut Script, space: &Space<'_>) -> Written
        ensures { OnOk result (script.new ≡ script.old ++ mounts_made self.entry.groups.now.all self.entry.space.now self.entry.stage.now space.now) }
    {
        let mounts = space.tree.mounts();
        let covers = covers_of(self.alloc, mounts, space.ways.as_slice())?;
        self.make_tree(script, space, mounts)?;
        self.cover(script, mounts, covers.as_slice())?;
        self.finish(script, mounts)?;
        Ok(())
    }
}

/// Copies the first namespace, for any other one.
fn copy_for(script: &mut Script, number: usize) -> Written
    ensures { OnOk result (script.new ≡ script.old ++ copied_if (nat_lt 1 number)) }
{
    if number > 1 {
        command(script, &[b"copyns", b"1"])?;
    }
    Ok(())
}

/// Puts a less privileged copy in which all is locked in the place of the namespace of a number, if the locks are known.
#[tactic(auto, using(crate::proofs::CommandLaws::locked_pushed))]
fn lock_copy(script: &mut Script, has_locks: bool, original: &[u8]) -> Written
    ensures { OnOk result (script.new ≡ script.old ++ locked_if has_locks original.now) }
{
    if !has_locks {
        return Ok(());
    }
    command(script, &[b"copyns", original, b"less", b"lock"])?;
    command(script, &[b"dropns", original])?;
    Ok(())
}

/// Makes the namespace of a table.
#[tactic(auto, unfolding(crate::specs::Spaces::space_text))]
fn make_space(script: &mut Script, groups: &Groups<'_>, space: &Space<'_>) -> Written
    ensures { OnOk result (script.new ≡ script.old ++ space_text groups.now.all space.now) }
{
    let alloc = script.alloc();
    let number = digits_of(alloc, space.number as u64)?;
    let original = digits_of(alloc, space.original as u64)?;
    let site = Site {
        alloc,
        groups,
        space: original.as_slice(),
        stage: STAGE,
    };
    let tree = &space.tree;
    table_comment(script, tree.table, b" is namespace ", number.as_slice())?;
    copy_for(script, space.original)?;
    site.make_mounts(script, space)?;
    lock_copy(script, space.has_locks(), original.as_slice())?;
    Ok(())
}

/// Makes the namespaces of the tables of which the root mount is made.
fn make_shown(script: &mut Script, groups: &Groups<'_>, spaces: &[Space<'_>]) -> Written
    ensures { OnOk result (script.new ≡ script.old ++ flat_map (made_if_shown groups.now.all) spaces.now) }
{
    'spaces: for space in spaces {
        if space.is_shown() {
            make_space(script, groups, space)?;
        }
    }
    Ok(())
}

/// Makes the namespaces of all tables of which the root mount is made, that of the first one last: it is the one of which the
/// others are copies.
pub(crate) fn make_spaces(script: &mut Script, plan: &Plan<'_>, spaces: &[Space<'_>]) -> Written
    ensures { OnOk result (AreMade plan.now.groups.all spaces.now script.old script.new) }
{
    let Some((first, others)) = spaces.split_first() else {
        return Ok(());
    };
    if !first.is_shown() {
        return make_spaces(script, plan, others);
    }
    let keeper = plan.keeper_of(others)?;
    make_shown(script, &plan.groups, others)?;
    script.append(&keeper)?;
    make_space(script, &plan.groups, first)?;
    Ok(())
}
