//! The namespace and the paths of a command.
ghost use Rattle.std.specs.Prelude.{◌≡◌, None, Some, MatchOption};
ghost use Rattle.mt_refused.specs.Asked.{asked_space, asked_tree, first_path, second_path, asked_path, copies_mounts, is_pivot, is_detach, takes_mounts, is_set, is_of_tree, either, path_name};

use mt_book::command::Command;
use mt_mounts::mount::SpaceId;
use mt_skel::names::Names;

/// One of the paths of a command.
#[derive(Clone, Copy, PartialEq, Eq, Debug)]
pub enum Which {
    /// Its only path, or the first of two: what is bound or moved, or the new root.
    First,
    /// The second of two: where to, or where the old root goes; of a tree that is attached, where to.
    Second,
}

/// The namespace of a command, in which its paths are looked up, if it has one.
pub fn asked_space(command: &Command) -> Option<SpaceId>
    ensures { result ≡ asked_space command.now }
{
    match command {
        Command::CopySpace { space, .. } => Some(*space),
        Command::DropSpace { space } => Some(*space),
        Command::Mount { space, .. } => Some(*space),
        Command::MountWith { space, .. } => Some(*space),
        Command::Bind { space, .. } => Some(*space),
        Command::Move { space, .. } => Some(*space),
        Command::Pivot { space, .. } => Some(*space),
        Command::Unmount { space, .. } => Some(*space),
        Command::Detach { space, .. } => Some(*space),
        Command::SetAttr { space, .. } => Some(*space),
        Command::OpenTree { space, .. } => Some(*space),
        Command::MoveTree { space, .. } => Some(*space),
        _ => None,
    }
}

/// The namespace that a command attaches, if it does that.
pub fn asked_tree(command: &Command) -> Option<SpaceId>
    ensures { result ≡ asked_tree command.now }
{
    match command {
        Command::MoveTree { tree, .. } => Some(*tree),
        _ => None,
    }
}

/// The first path of a command in a namespace, if it has one.
fn first_path(command: &Command) -> Option<&Names>
    ensures { MatchOption result (first_path command.now ≡ None) (λ path. first_path command.now ≡ Some path.now) }
{
    match command {
        Command::Mount { path, .. } => Some(path),
        Command::MountWith { path, .. } => Some(path),
        Command::Bind { src, .. } => Some(src),
        Command::Move { src, .. } => Some(src),
        Command::Pivot { new, .. } => Some(new),
        Command::Unmount { path, .. } => Some(path),
        Command::Detach { path, .. } => Some(path),
        Command::SetAttr { path, .. } => Some(path),
        Command::OpenTree { path, .. } => Some(path),
        _ => None,
    }
}

/// The second path of a command, if it has two, or that of a tree that is attached.
fn second_path(command: &Command) -> Option<&Names>
    ensures { MatchOption result (second_path command.now ≡ None) (λ path. second_path command.now ≡ Some path.now) }
{
    match command {
        Command::Bind { dst, .. } => Some(dst),
        Command::Move { dst, .. } => Some(dst),
        Command::Pivot { old, .. } => Some(old),
        Command::MoveTree { path, .. } => Some(path),
        _ => None,
    }
}

/// A path of a command, if it has that.
pub fn asked_path(command: &Command, which: Which) -> Option<&Names>
    ensures { MatchOption result (asked_path command.now which ≡ None) (λ path. asked_path command.now which ≡ Some path.now) }
{
    match which {
        Which::First => first_path(command),
        Which::Second => second_path(command),
    }
}

/// Whether a command copies what is at its first path, which may be any directory: a bind, or what opens a tree.
pub(crate) fn copies_mounts(command: &Command) -> bool
    ensures { result ≡ copies_mounts command.now }
{
    match command {
        Command::Bind { .. } => true,
        Command::OpenTree { .. } => true,
        _ => false,
    }
}

/// Whether it is a pivot.
pub(crate) fn is_pivot(command: &Command) -> bool
    ensures { result ≡ is_pivot command.now }
{
    match command {
        Command::Pivot { .. } => true,
        _ => false,
    }
}

/// Whether it is a detach, which names the topmost mount where its path ends.
pub(crate) fn is_detach(command: &Command) -> bool
    ensures { result ≡ is_detach command.now }
{
    match command {
        Command::Detach { .. } => true,
        _ => false,
    }
}

/// Whether it takes mounts away.
pub(crate) fn takes_mounts(command: &Command) -> bool
    ensures { result ≡ takes_mounts command.now }
{
    match command {
        Command::Unmount { .. } => true,
        Command::Detach { .. } => true,
        _ => false,
    }
}

/// Whether it changes attributes or propagation, of a root mount too.
pub(crate) fn is_set(command: &Command) -> bool
    ensures { result ≡ is_set command.now }
{
    match command {
        Command::SetAttr { .. } => true,
        _ => false,
    }
}

/// Whether it is of a whole tree: with `rec`, or as an `rbind`.
pub(crate) fn is_of_tree(command: &Command) -> bool
    ensures { result ≡ is_of_tree command.now }
{
    match command {
        Command::Bind { recursive, .. } => *recursive,
        Command::OpenTree { recursive, .. } => *recursive,
        Command::SetAttr { change, .. } => change.recursive,
        _ => false,
    }
}

/// One of two names.
fn either(which: Which, first: &'static [u8], second: &'static [u8]) -> &'static [u8]
    ensures { result.now ≡ either which first.now second.now }
{
    match which {
        Which::First => first,
        Which::Second => second,
    }
}

/// What a path of a command with two is called, with a comma and a space behind it; empty where there is one.
pub(crate) fn path_name(command: &Command, which: Which) -> &'static [u8]
    ensures { result.now ≡ path_name command.now which }
{
    match command {
        Command::Bind { .. } => either(which, b"SRC, ", b"DST, "),
        Command::Move { .. } => either(which, b"SRC, ", b"DST, "),
        Command::Pivot { .. } => either(which, b"NEW, ", b"OLD, "),
        _ => b"",
    }
}
