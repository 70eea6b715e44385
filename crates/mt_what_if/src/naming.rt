//! The namespaces of tables, and those that lines make.
ghost use Rattle.std.specs.Prelude.{◌≡◌, ◌++◌, ◌+◌, ◌-◌, map, IfOk, OnOk};
ghost use Rattle.std.specs.List.{range_with_len};
ghost use Rattle.mt_propagate.specs.World.{world_view};
ghost use Rattle.mt_what_if.specs.Naming.{is_named_by, marked, made_space, spaces_told, numbers_of};

use crate::asked::AskedLine;
use crate::known_space::KnownSpace;
use crate::numbers::{Numbers, push_numbered};
use mt_mounts::mount::SpaceId;
use mt_propagate::world::World;
use std::alloc::{AllocError, Global};

/// Up to which numbers mounts and peer groups are those of a world, where later ones are told apart.
pub(crate) fn numbers_of(world: &World) -> Numbers
    ensures { result ≡ numbers_of (world_view world.now) }
{
    Numbers {
        mounts: world.next_mount.saturating_sub(1),
        groups: world.peers.next_group().saturating_sub(1),
        counted: true,
    }
}

/// Whether one of these lines is of a namespace.
fn is_named_by(lines: &[AskedLine<'_>], number: SpaceId) -> bool
    ensures { result ≡ is_named_by lines.now number }
{
    lines.iter().any(|line| line.space == number)
}

/// A namespace, which is named if one of these lines is of it.
fn marked(name: &KnownSpace, lines: &[AskedLine<'_>]) -> Result<KnownSpace, AllocError>
    ensures { IfOk result (λ space. space ≡ marked lines.now name.now) }
{
    Ok(KnownSpace {
        number: name.number,
        name: name.name.clone()?,
        is_named: is_named_by(lines, name.number),
        is_new: name.is_new,
    })
}

/// Namespaces, each of which is named if one of these lines is of it.
fn all_marked(
    alloc: Global,
    names: &[KnownSpace],
    lines: &[AskedLine<'_>],
) -> Result<Vec<KnownSpace>, AllocError>
    ensures { IfOk result (λ spaces. spaces.items ≡ map (marked lines.now) names.now) }
{
    let mut spaces = Vec::new(alloc);
    'names: for name in names {
        spaces.push(marked(name, lines)?)?;
    }
    Ok(spaces)
}

/// A namespace that lines make, where the greatest number of those before is this one.
fn made_space(alloc: Global, last: SpaceId, number: SpaceId) -> Result<KnownSpace, AllocError>
    ensures { IfOk result (λ space. space ≡ made_space last number) }
{
    let mut name = Vec::new(alloc);
    push_numbered(&mut name, true, last, number)?;
    Ok(KnownSpace {
        number,
        name,
        is_named: false,
        is_new: true,
    })
}

/// Adds the namespaces that lines make, those with numbers above the last one of those before.
fn push_made(
    alloc: Global,
    spaces: &mut Vec<KnownSpace>,
    last: SpaceId,
    next: SpaceId,
) -> Result<(), AllocError>
    ensures { OnOk result (spaces.new.items ≡ spaces.old.items ++ map (made_space last) (range_with_len (last + 1) (next - (last + 1)))) }
{
    if last >= next {
        return Ok(());
    }
    'numbers: for number in last + 1..next {
        spaces.push(made_space(alloc, last, number)?)?;
    }
    Ok(())
}

/// The namespaces of which it is told what lines change from one world to another one: those of the tables, and those that the lines make.
#[tactic(auto, unfolding(crate::specs::Naming::spaces_told))]
pub(crate) fn spaces_told(
    alloc: Global,
    names: &[KnownSpace],
    lines: &[AskedLine<'_>],
    before: &World,
    after: &World,
) -> Result<Vec<KnownSpace>, AllocError>
    ensures { IfOk result (λ spaces. spaces.items ≡ spaces_told names.now lines.now (world_view before.now) (world_view after.now)) }
{
    let mut spaces = all_marked(alloc, names, lines)?;
    let last = before.next_space.saturating_sub(1);
    push_made(alloc, &mut spaces, last, after.next_space)?;
    Ok(spaces)
}
