//! What commands do to the world: how mounts come, go and change, and of which namespaces.
ghost use Rattle.std.specs.Prelude.{◌≡◌, ◌≢◌, ◌<◌, ◌^◌, IfOk, IfErr, OnErr, Ok, Err};
ghost use Rattle.mt_propagate.specs.World.{world_view};
ghost use Rattle.mt_propagate.specs.WellFormed.{IsWellFormed};
ghost use Rattle.mt_propagate.specs.Touched.{since_view};
ghost use Rattle.mt_book.specs.Step.{act};
ghost use Rattle.mt_book.specs.declared.command.Command.TheVariants as command;

use crate::command::{Command, Reply};
use mt_bind::attaching::move_tree;
use mt_bind::binding::bind;
use mt_bind::copying::copy_space;
use mt_bind::dropping::drop_space;
use mt_bind::mounting::{mount, mount_with_attrs};
use mt_bind::moving::move_mount;
use mt_bind::opening::{new_tree, open_tree};
use mt_bind::pivoting::pivot_root;
use mt_bind::spaces::new_space;
use mt_mounts::mount::SpaceId;
use mt_propagate::world::World;
use mt_setattr::change::{Change, SetWords};
use mt_setattr::setting::set_attr;
use mt_skel::fault::Fault;
use mt_skel::name::Label;
use mt_skel::names::Names;
use mt_unmount::detaching::detach;
use mt_unmount::unmounting::unmount;

/// Gives a world another room.
#[tactic(auto, unfolding(crate::specs::Step::act))]
fn give_room(world: &mut World, room: usize) -> Result<Reply, Fault>
    requires well_formed { IsWellFormed (world_view world.old) }
    ensures done { IfOk result (λ reply. act (world_view world.old) (command.Room room) ≡ Ok (world_view world.new, reply)) }
    ensures refused { IfErr result (λ fault. fault ≢ Fault.NoMemory → act (world_view world.old) (command.Room room) ≡ Err fault) }
    ensures unchanged { OnErr result (world_view world.new ≡ world_view world.old) }
    ensures kept { IsWellFormed (world_view world.new) }
    ensures since { since_view world.new ≡ since_view world.old }
{
    world.skel.give_room(room)?;
    Ok(Reply::Done)
}

/// Makes a filesystem.
#[tactic(auto, unfolding(crate::specs::Step::act))]
fn make_fs(world: &mut World, name: &Label, kind: &Label, source: &Label) -> Result<Reply, Fault>
    requires well_formed { IsWellFormed (world_view world.old) }
    ensures done { IfOk result (λ reply. act (world_view world.old) (command.MakeFs name.now kind.now source.now) ≡ Ok (world_view world.new, reply)) }
    ensures refused { IfErr result (λ fault. fault ≢ Fault.NoMemory → act (world_view world.old) (command.MakeFs name.now kind.now source.now) ≡ Err fault) }
    ensures unchanged { OnErr result (world_view world.new ≡ world_view world.old) }
    ensures kept { IsWellFormed (world_view world.new) }
    ensures since { since_view world.new ≡ since_view world.old }
{
    let name = name.copy()?;
    let kind = kind.copy()?;
    let source = source.copy()?;
    let fs = world.skel.add_fs(name, kind, source)?;
    Ok(Reply::Number(fs))
}

/// Makes a directory.
#[tactic(auto, unfolding(crate::specs::Step::act))]
fn make_dir(world: &mut World, fs: &Label, path: &Names) -> Result<Reply, Fault>
    requires well_formed { IsWellFormed (world_view world.old) }
    ensures done { IfOk result (λ reply. act (world_view world.old) (command.MakeDir fs.now path.now) ≡ Ok (world_view world.new, reply)) }
    ensures refused { IfErr result (λ fault. fault ≢ Fault.NoMemory → act (world_view world.old) (command.MakeDir fs.now path.now) ≡ Err fault) }
    ensures unchanged { OnErr result (world_view world.new ≡ world_view world.old) }
    ensures kept { IsWellFormed (world_view world.new) }
    ensures since { since_view world.new ≡ since_view world.old }
{
    let names = path.to_vec()?;
    world.skel.add_dir(fs, names.as_slice())?;
    Ok(Reply::Done)
}

/// Binds a mount, or with `recursive` a tree of mounts.
#[tactic(auto, unfolding(crate::specs::Step::act))]
fn bind_tree(
    world: &mut World,
    space: SpaceId,
    src: &Names,
    dst: &Names,
    recursive: bool,
) -> Result<Reply, Fault>
    requires well_formed { IsWellFormed (world_view world.old) }
    requires numbers { (world.old.next_mount < 2 ^ 63) × (world.old.peers.next < 2 ^ 63) }
    ensures done { IfOk result (λ reply. act (world_view world.old) (command.Bind space src.now dst.now recursive) ≡ Ok (world_view world.new, reply)) }
    ensures refused { IfErr result (λ fault. fault ≢ Fault.NoMemory → act (world_view world.old) (command.Bind space src.now dst.now recursive) ≡ Err fault) }
    ensures unchanged { OnErr result (world_view world.new ≡ world_view world.old) }
    ensures kept { IsWellFormed (world_view world.new) }
    ensures since { since_view world.new ≡ since_view world.old }
{
    let (src, dst) = (src.to_vec()?, dst.to_vec()?);
    let id = bind(world, space, recursive, src.as_slice(), dst.as_slice())?;
    Ok(Reply::Number(id))
}

/// Mounts a filesystem.
#[tactic(auto, unfolding(crate::specs::Step::act))]
fn mount_fs(world: &mut World, space: SpaceId, fs: &Label, path: &Names) -> Result<Reply, Fault>
    requires well_formed { IsWellFormed (world_view world.old) }
    requires numbers { (world.old.next_mount < 2 ^ 63) × (world.old.peers.next < 2 ^ 63) }
    ensures done { IfOk result (λ reply. act (world_view world.old) (command.Mount space fs.now path.now) ≡ Ok (world_view world.new, reply)) }
    ensures refused { IfErr result (λ fault. fault ≢ Fault.NoMemory → act (world_view world.old) (command.Mount space fs.now path.now) ≡ Err fault) }
    ensures unchanged { OnErr result (world_view world.new ≡ world_view world.old) }
    ensures kept { IsWellFormed (world_view world.new) }
    ensures since { since_view world.new ≡ since_view world.old }
{
    let names = path.to_vec()?;
    let id = mount(world, space, fs, names.as_slice())?;
    Ok(Reply::Number(id))
}

/// Mounts a filesystem with attributes.
#[tactic(auto, unfolding(crate::specs::Step::act))]
fn mount_fs_with(
    world: &mut World,
    space: SpaceId,
    fs: &Label,
    path: &Names,
    set: &SetWords,
) -> Result<Reply, Fault>
    requires well_formed { IsWellFormed (world_view world.old) }
    requires numbers { (world.old.next_mount < 2 ^ 63) × (world.old.peers.next < 2 ^ 63) }
    ensures done { IfOk result (λ reply. act (world_view world.old) (command.MountWith space fs.now path.now set.now) ≡ Ok (world_view world.new, reply)) }
    ensures refused { IfErr result (λ fault. fault ≢ Fault.NoMemory → act (world_view world.old) (command.MountWith space fs.now path.now set.now) ≡ Err fault) }
    ensures unchanged { OnErr result (world_view world.new ≡ world_view world.old) }
    ensures kept { IsWellFormed (world_view world.new) }
    ensures since { since_view world.new ≡ since_view world.old }
{
    let names = path.to_vec()?;
    let id = mount_with_attrs(world, space, fs, names.as_slice(), set)?;
    Ok(Reply::Number(id))
}

/// Moves a mount with all below it.
#[tactic(auto, unfolding(crate::specs::Step::act))]
fn move_one(world: &mut World, space: SpaceId, src: &Names, dst: &Names) -> Result<Reply, Fault>
    requires well_formed { IsWellFormed (world_view world.old) }
    requires numbers { (world.old.next_mount < 2 ^ 63) × (world.old.peers.next < 2 ^ 63) }
    ensures done { IfOk result (λ reply. act (world_view world.old) (command.Move space src.now dst.now) ≡ Ok (world_view world.new, reply)) }
    ensures refused { IfErr result (λ fault. fault ≢ Fault.NoMemory → act (world_view world.old) (command.Move space src.now dst.now) ≡ Err fault) }
    ensures unchanged { OnErr result (world_view world.new ≡ world_view world.old) }
    ensures kept { IsWellFormed (world_view world.new) }
    ensures since { since_view world.new ≡ since_view world.old }
{
    let (src, dst) = (src.to_vec()?, dst.to_vec()?);
    move_mount(world, space, src.as_slice(), dst.as_slice())?;
    Ok(Reply::Done)
}

/// Makes a mount the root of a namespace.
#[tactic(auto, unfolding(crate::specs::Step::act))]
fn pivot(world: &mut World, space: SpaceId, new: &Names, old: &Names) -> Result<Reply, Fault>
    requires well_formed { IsWellFormed (world_view world.old) }
    ensures done { IfOk result (λ reply. act (world_view world.old) (command.Pivot space new.now old.now) ≡ Ok (world_view world.new, reply)) }
    ensures refused { IfErr result (λ fault. fault ≢ Fault.NoMemory → act (world_view world.old) (command.Pivot space new.now old.now) ≡ Err fault) }
    ensures unchanged { OnErr result (world_view world.new ≡ world_view world.old) }
    ensures kept { IsWellFormed (world_view world.new) }
    ensures since { since_view world.new ≡ since_view world.old }
{
    let (new, old) = (new.to_vec()?, old.to_vec()?);
    pivot_root(world, space, new.as_slice(), old.as_slice())?;
    Ok(Reply::Done)
}

/// Unmounts a mount.
#[tactic(auto, unfolding(crate::specs::Step::act))]
fn unmount_one(world: &mut World, space: SpaceId, path: &Names) -> Result<Reply, Fault>
    requires well_formed { IsWellFormed (world_view world.old) }
    ensures done { IfOk result (λ reply. act (world_view world.old) (command.Unmount space path.now) ≡ Ok (world_view world.new, reply)) }
    ensures refused { IfErr result (λ fault. fault ≢ Fault.NoMemory → act (world_view world.old) (command.Unmount space path.now) ≡ Err fault) }
    ensures unchanged { OnErr result (world_view world.new ≡ world_view world.old) }
    ensures kept { IsWellFormed (world_view world.new) }
    ensures since { since_view world.new ≡ since_view world.old }
{
    unmount(world, space, path.to_vec()?.as_slice())?;
    Ok(Reply::Done)
}

/// Detaches a tree of mounts.
#[tactic(auto, unfolding(crate::specs::Step::act))]
fn detach_tree(world: &mut World, space: SpaceId, path: &Names) -> Result<Reply, Fault>
    requires well_formed { IsWellFormed (world_view world.old) }
    ensures done { IfOk result (λ reply. act (world_view world.old) (command.Detach space path.now) ≡ Ok (world_view world.new, reply)) }
    ensures refused { IfErr result (λ fault. fault ≢ Fault.NoMemory → act (world_view world.old) (command.Detach space path.now) ≡ Err fault) }
    ensures unchanged { OnErr result (world_view world.new ≡ world_view world.old) }
    ensures kept { IsWellFormed (world_view world.new) }
    ensures since { since_view world.new ≡ since_view world.old }
{
    detach(world, space, path.to_vec()?.as_slice())?;
    Ok(Reply::Done)
}

/// Changes attributes and propagation.
#[tactic(auto, unfolding(crate::specs::Step::act))]
fn change_attrs(
    world: &mut World,
    space: SpaceId,
    path: &Names,
    change: &Change,
) -> Result<Reply, Fault>
    requires well_formed { IsWellFormed (world_view world.old) }
    requires numbered { world.old.peers.next < 2 ^ 63 }
    ensures done { IfOk result (λ reply. act (world_view world.old) (command.SetAttr space path.now change.now) ≡ Ok (world_view world.new, reply)) }
    ensures refused { IfErr result (λ fault. fault ≢ Fault.NoMemory → act (world_view world.old) (command.SetAttr space path.now change.now) ≡ Err fault) }
    ensures unchanged { OnErr result (world_view world.new ≡ world_view world.old) }
    ensures kept { IsWellFormed (world_view world.new) }
    ensures since { since_view world.new ≡ since_view world.old }
{
    set_attr(world, space, path.to_vec()?.as_slice(), change)?;
    Ok(Reply::Done)
}

/// Copies what is seen at a path into a detached tree.
#[tactic(auto, unfolding(crate::specs::Step::act))]
fn open_copy(
    world: &mut World,
    space: SpaceId,
    path: &Names,
    recursive: bool,
) -> Result<Reply, Fault>
    requires well_formed { IsWellFormed (world_view world.old) }
    requires numbers { (world.old.next_mount < 2 ^ 63) × (world.old.next_space < 2 ^ 63) }
    ensures done { IfOk result (λ reply. act (world_view world.old) (command.OpenTree space path.now recursive) ≡ Ok (world_view world.new, reply)) }
    ensures refused { IfErr result (λ fault. fault ≢ Fault.NoMemory → act (world_view world.old) (command.OpenTree space path.now recursive) ≡ Err fault) }
    ensures unchanged { OnErr result (world_view world.new ≡ world_view world.old) }
    ensures kept { IsWellFormed (world_view world.new) }
    ensures since { since_view world.new ≡ since_view world.old }
{
    let tree = open_tree(world, space, path.to_vec()?.as_slice(), recursive)?;
    Ok(Reply::Number(tree))
}

/// Attaches a detached tree.
#[tactic(auto, unfolding(crate::specs::Step::act))]
fn attach(world: &mut World, tree: SpaceId, space: SpaceId, path: &Names) -> Result<Reply, Fault>
    requires well_formed { IsWellFormed (world_view world.old) }
    requires numbers { (world.old.next_mount < 2 ^ 63) × (world.old.peers.next < 2 ^ 63) }
    ensures done { IfOk result (λ reply. act (world_view world.old) (command.MoveTree tree space path.now) ≡ Ok (world_view world.new, reply)) }
    ensures refused { IfErr result (λ fault. fault ≢ Fault.NoMemory → act (world_view world.old) (command.MoveTree tree space path.now) ≡ Err fault) }
    ensures unchanged { OnErr result (world_view world.new ≡ world_view world.old) }
    ensures kept { IsWellFormed (world_view world.new) }
    ensures since { since_view world.new ≡ since_view world.old }
{
    move_tree(world, tree, space, path.to_vec()?.as_slice())?;
    Ok(Reply::Done)
}

/// Does a command to the mounts, or refuses it, but not for a lock. What is locked stays as it is.
///
/// Refused as the command's other refusals say, and as `NoMemory`; then nothing has changed.
#[tactic(auto, unfolding(crate::specs::Step::act))]
pub(crate) fn act(world: &mut World, command: &Command) -> Result<Reply, Fault>
    requires well_formed { IsWellFormed (world_view world.old) }
    requires numbers { (world.old.next_mount < 2 ^ 63) × (world.old.peers.next < 2 ^ 63) × (world.old.next_space < 2 ^ 63) }
    ensures done { IfOk result (λ reply. act (world_view world.old) command.now ≡ Ok (world_view world.new, reply)) }
    ensures refused { IfErr result (λ fault. fault ≢ Fault.NoMemory → act (world_view world.old) command.now ≡ Err fault) }
    ensures unchanged { OnErr result (world_view world.new ≡ world_view world.old) }
    ensures kept { IsWellFormed (world_view world.new) }
    ensures since { since_view world.new ≡ since_view world.old }
{
    match command {
        Command::Room { room } => give_room(world, *room),
        Command::MakeFs { name, kind, source } => make_fs(world, name, kind, source),
        Command::MakeDir { fs, path } => make_dir(world, fs, path),
        Command::NewSpace { fs } => {
            let space = new_space(world, fs)?;
            Ok(Reply::Number(space))
        }
        Command::CopySpace { space, privilege } => {
            let copy = copy_space(world, *space, privilege.is_less())?;
            Ok(Reply::Number(copy))
        }
        Command::DropSpace { space } => {
            drop_space(world, *space)?;
            Ok(Reply::Done)
        }
        Command::Mount { space, fs, path } => mount_fs(world, *space, fs, path),
        Command::MountWith {
            space,
            fs,
            path,
            set,
        } => mount_fs_with(world, *space, fs, path, set),
        Command::Bind {
            space,
            src,
            dst,
            recursive,
        } => bind_tree(world, *space, src, dst, *recursive),
        Command::Move { space, src, dst } => move_one(world, *space, src, dst),
        Command::Pivot { space, new, old } => pivot(world, *space, new, old),
        Command::Unmount { space, path } => unmount_one(world, *space, path),
        Command::Detach { space, path } => detach_tree(world, *space, path),
        Command::SetAttr {
            space,
            path,
            change,
        } => change_attrs(world, *space, path, change),
        Command::OpenTree {
            space,
            path,
            recursive,
        } => open_copy(world, *space, path, *recursive),
        Command::NewTree { fs } => {
            let tree = new_tree(world, fs)?;
            Ok(Reply::Number(tree))
        }
        Command::MoveTree { tree, space, path } => attach(world, *tree, *space, path),
    }
}
