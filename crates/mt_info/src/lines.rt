//! The lines of a table, printed from the world: no row is made, and a list of names only on a long way.
//!
//! If there is not enough memory, what stood in the text stays in it.
ghost use Rattle.std.specs.Prelude.{◌≡◌, ◌++◌, Some, IsTrue, OnOk, IsOkUnless};
ghost use Rattle.std.specs.List.{flat_map};
ghost use Rattle.mt_skel.specs.Front.{IsFront};
ghost use Rattle.mt_skel.specs.Skeleton.{is_directory, directory};
ghost use Rattle.mt_mounts.specs.Forest.{mount_at};
ghost use Rattle.mt_propagate.specs.World.{world_view};
ghost use Rattle.mt_propagate.specs.WellFormed.{IsWellFormed};
ghost use Rattle.mt_info.specs.RowLine.{line, whole_line, path_text};
ghost use Rattle.mt_info.specs.Table.{table_of, row_of};

use crate::findings::Findings;
use crate::points::push_root;
use crate::print::{push_end, push_numbers, push_options, push_tags};
use crate::table::parent_or_itself;
use mt_mounts::mount::{Mount, SpaceId};
use mt_propagate::world::{World, state_of};
use mt_skel::fault::Fault;
use mt_skel::skel::{Dir, Skel};
use std::alloc::AllocError;

/// How many bytes a line is expected to have; room for these is made at once.
const LINE_ROOM: usize = 64;

/// Appends the lines of the table of a namespace, each with its line end; none if there is no such namespace.
pub fn push_table(text: &mut Vec<u8>, world: &World, space: SpaceId) -> Result<(), Fault>
    requires well_formed { IsWellFormed (world_view world.now) }
    ensures lines { OnOk result (text.new.items ≡ text.old.items ++ flat_map whole_line (table_of (world_view world.now) space)) }
    ensures kept { IsFront text.old.items text.new.items }
    ensures memory { IsOkUnless result Fault.NoMemory }
{
    let mounts = world.forest.mounts_in(space)?;
    text.reserve(mounts.len().saturating_mul(LINE_ROOM))?;
    let mut seen = Findings::new(world);
    'mounts: for mount in &mounts {
        push_line(text, &mut seen, mount)?;
        text.push(b'\n')?;
    }
    Ok(())
}

/// Appends the line of a mount of the world, without its line end.
fn push_line(text: &mut Vec<u8>, seen: &mut Findings<'_>, mount: &Mount) -> Result<(), Fault>
    requires well_formed { IsWellFormed (world_view seen.old) }
    requires there { mount_at seen.old.forest.mounts mount.now.id ≡ Some mount.now }
    ensures line { OnOk result (text.new.items ≡ text.old.items ++ line (row_of (world_view seen.old) mount.now)) }
    ensures kept { IsFront text.old.items text.new.items }
    ensures seen { seen.new ≡ seen.old }
    ensures memory { IsOkUnless result Fault.NoMemory }
{
    let world = seen.world();
    let minor = world.skel.fs_of(mount.root);
    let state = state_of(world, mount.id);
    let via = seen.from_group(mount.id, &state)?;
    push_numbers(text, mount.id, parent_or_itself(mount), minor)?;
    push_dir(text, &world.skel, mount.root)?;
    text.push(b' ')?;
    seen.push_point(text, mount)?;
    text.push(b' ')?;
    push_options(text, &mount.attrs)?;
    push_tags(text, b' ', state.group, state.master, via, state.unbindable)?;
    push_end(text, world.skel.kind(minor), world.skel.source(minor))?;
    Ok(())
}

/// Appends the path of a directory from the root of its filesystem down.
fn push_dir(text: &mut Vec<u8>, skel: &Skel, dir: Dir) -> Result<(), AllocError>
    requires { IsTrue (is_directory skel.now dir) }
    ensures text { OnOk result (text.new.items ≡ text.old.items ++ path_text (directory skel.now dir).path) }
    ensures kept { IsFront text.old.items text.new.items }
{
    let start = text.len();
    skel.push_path(text, dir, skel.depth(dir))?;
    push_root(text, start)
}
