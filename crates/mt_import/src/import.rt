//! The script that makes namespaces.
ghost use Rattle.std.specs.Prelude.{◌≡◌, map, IfOk, IsOkUnless};
ghost use Rattle.mt_import.specs.Front.{StandsInFront};
ghost use Rattle.std.specs.List.{list_any};
ghost use Rattle.mt_import.specs.Import.{IsImport};
ghost use Rattle.mt_import.specs.Telling.{is_shown};

use crate::host_mount::HostMount;
use crate::host_space::HostSpace;
use crate::plan::{Plan, plan_with_room};
use crate::script::Script;
use crate::soundness::is_sound;
use crate::space::{Space, spaces_of};
use crate::spaces::make_spaces;
use crate::telling::{tell_spaces, tell_tables};
use crate::tree::{Refused, Tree, tree_of};
use crate::unmade::told_script;
use crate::writer::{Allocated, Unmade};
use mt_skel::fault::Fault;
use std::alloc::Global;

/// The script that makes namespaces, and the least room of a server that does it.
#[derive(Drop)]
pub struct Import {
    /// The script.
    pub script: Script,
    /// The room, from 1: by what the limits of a server are multiplied.
    pub room: usize,
}

/// Whether two tables have the same lines.
fn are_same(left: &[HostMount], right: &[HostMount]) -> bool {
    left.len() == right.len()
        && left.iter().zip(right).all(|(row, other)| row.line.as_slice() == other.line.as_slice())
}

/// How often, at most, rows that are left out make room for others.
const MOST_ROUNDS: usize = 64;

/// The trees of tables.
fn trees_of<'a>(
    alloc: Global,
    tables: &'a [HostSpace],
    refused: &Refused,
) -> Allocated<Vec<Tree<'a>>>
    ensures told { IfOk result (λ trees. map (λ tree. tree.told) trees.items ≡ tables.now) }
{
    let mut trees = Vec::new(alloc);
    'tables: for (before, told) in tables.iter().enumerate() {
        let number = before.saturating_add(1);
        let is_told = tables[..before].iter().any(|other| are_same(
            other.rows.as_slice(),
            told.rows.as_slice(),
        ));
        trees.push(tree_of(alloc, number, told, is_told, refused)?)?;
    }
    Ok(trees)
}

/// The trees of tables, and what is planned of them for a server of this room. If a row stands in the place of one that is
/// left out, it is tried in that place.
fn planned<'a>(
    alloc: Global,
    tables: &'a [HostSpace],
    room: usize,
) -> Allocated<(Vec<Tree<'a>>, Plan<'a>)>
    ensures told { IfOk result (λ (trees, plan). map (λ tree. tree.told) trees.items ≡ tables.now) }
{
    let mut refused = Refused::new(alloc);
    for _round in 0..MOST_ROUNDS {
        let trees = trees_of(alloc, tables, &refused)?;
        let plan = plan_with_room(alloc, trees.as_slice(), room)?;
        let count = refused.len();
        plan.refuse(trees.as_slice(), &mut refused)?;
        if refused.len() == count {
            return Ok((trees, plan));
        }
    }
    let trees = trees_of(alloc, tables, &refused)?;
    let plan = plan_with_room(alloc, trees.as_slice(), room)?;
    Ok((trees, plan))
}

/// Whether a namespace is made.
fn is_any_shown(spaces: &[Space<'_>]) -> bool
    ensures { result ≡ list_any is_shown spaces.now }
{
    spaces.iter().any(|space| space.is_shown())
}

/// What makes the filesystems and their directories, and what is staged, if there is a namespace to make.
#[tactic(auto, using(crate::proofs::FrontLaws::none_in_front, crate::proofs::FrontLaws::some_in_front))]
fn front_of(alloc: Global, plan: &Plan<'_>, spaces: &[Space<'_>]) -> Result<Script, Unmade>
    ensures { IfOk result (λ front. StandsInFront plan.now.groups.all spaces.now front) }
{
    let mut script = Script::new(alloc);
    if !is_any_shown(spaces) {
        return Ok(script);
    }
    plan.make_front(&mut script)?;
    Ok(script)
}

/// The script of tables of which this is planned, if it is what they tell.
fn script_with(alloc: Global, plan: &Plan<'_>, spaces: &[Space<'_>]) -> Result<Script, Unmade>
    ensures { IfOk result (IsImport (map (λ space. space.tree.told) spaces.now)) }
{
    let is_right = is_sound(alloc, &plan.groups, spaces)?;
    if !is_right {
        return Err(Unmade::Refused);
    }
    let front = front_of(alloc, plan, spaces)?;
    let mut script = Script::new(alloc);
    tell_tables(&mut script, spaces)?;
    tell_spaces(&mut script, spaces)?;
    script.append(&front)?;
    make_spaces(&mut script, plan, spaces)?;
    let _text = script.text();
    Ok(script)
}

/// The script without what it tells of rows: the numbers that the server gives groups are known from it, and not told in
/// it.
fn counting(alloc: Global, plan: &Plan<'_>, spaces: &[Space<'_>]) -> Result<Script, Unmade> {
    let mut counted = front_of(alloc, plan, spaces)?;
    make_spaces(&mut counted, plan, spaces)?;
    Ok(counted)
}

/// The script that makes the namespaces of tables, unless a line of it is not one that the server reads.
fn made_script(alloc: Global, tables: &[HostSpace], room: usize) -> Result<Import, Unmade>
    ensures { IfOk result (λ import. IsImport tables.now import.script) }
{
    let (trees, mut plan) = planned(alloc, tables, room)?;
    let spaces = spaces_of(alloc, trees, &plan)?;
    let counted = counting(alloc, &plan, spaces.as_slice())?;
    plan.groups.number(counted.numbers.named.as_slice());
    let script = script_with(alloc, &plan, spaces.as_slice())?;
    Ok(Import {
        script,
        room: plan.room,
    })
}

/// The script that makes the namespaces of which these are the tables, each with its rows.
///
/// A newly started server of the room that is answered, which is no greater than this one, makes a namespace of each table,
/// numbered as they are, with a table that tells what the rows tell, up to the numbers of mounts, groups and devices; peer
/// groups and masters that tables have in common are common there too. If a peer group has slaves among the rows but no
/// member, one more namespace has one. What cannot be made is told in comments: all rows are, if a line that makes them is
/// not one that the server reads; no table is known that leads to this.
///
/// In a foreign namespace all places and attributes are locked, if the first table has a row of each of its mounts, by
/// mount point, root and device, and none of them is in a peer group (mount_namespaces(7), restrictions on mount
/// namespaces; that such mounts came with a copy of the first namespace is this project's rule). It then takes two numbers,
/// of which the first is free again. Otherwise nothing is locked there, which a comment tells.
///
/// Where the tables have more than a server of this room, 1 to 256, holds, the last mounts are told in comments, and not
/// made. Refused as `NoMemory` alone.
pub fn script_of(alloc: Global, tables: &[HostSpace], room: usize) -> Result<Import, Fault>
    ensures made { IfOk result (λ import. IsImport tables.now import.script) }
    ensures memory { IsOkUnless result Fault.NoMemory }
{
    match made_script(alloc, tables, room) {
        Ok(import) => Ok(import),
        Err(Unmade::NoMemory) => Err(Fault::NoMemory),
        Err(Unmade::Refused) => Ok(Import {
            script: told_script(alloc, tables)?,
            room: 1,
        }),
    }
}
