//! Of what kind a command is: whether it gives room, makes directories, namespaces or locks, or ends a namespace.

ghost use Rattle.std.specs.Prelude.{◌≡◌};
ghost use Rattle.mt_book.specs.Step.{gives_room, makes_locks, makes_directories, makes_space, drops_space};

use crate::command::Command;

impl Command {
    /// Whether it gives the world another room.
    pub fn gives_room(&self) -> bool
        ensures { result ≡ gives_room self.now }
    {
        matches!(self, Command::Room { .. })
    }

    /// Whether it locks mounts as they come.
    pub(crate) fn makes_locks(&self) -> bool
        ensures { result ≡ makes_locks self.now }
    {
        match self {
            Command::CopySpace { privilege, .. } => privilege.locks(),
            _ => false,
        }
    }

    /// Whether it makes a filesystem or a directory, which no table shows before a mount does, or gives room for them.
    pub(crate) fn makes_directories(&self) -> bool
        ensures { result ≡ makes_directories self.now }
    {
        match self {
            Command::Room { .. } | Command::MakeFs { .. } | Command::MakeDir { .. } => true,
            Command::NewSpace { .. }
            | Command::CopySpace { .. }
            | Command::DropSpace { .. }
            | Command::Mount { .. }
            | Command::MountWith { .. }
            | Command::Bind { .. }
            | Command::Move { .. }
            | Command::Pivot { .. }
            | Command::Unmount { .. }
            | Command::Detach { .. }
            | Command::SetAttr { .. }
            | Command::OpenTree { .. }
            | Command::NewTree { .. }
            | Command::MoveTree { .. } => false,
        }
    }

    /// Whether it makes a namespace, which may be a detached tree.
    pub(crate) fn makes_space(&self) -> bool
        ensures { result ≡ makes_space self.now }
    {
        match self {
            Command::NewSpace { .. }
            | Command::CopySpace { .. }
            | Command::OpenTree { .. }
            | Command::NewTree { .. } => true,
            Command::Room { .. }
            | Command::MakeFs { .. }
            | Command::MakeDir { .. }
            | Command::DropSpace { .. }
            | Command::Mount { .. }
            | Command::MountWith { .. }
            | Command::Bind { .. }
            | Command::Move { .. }
            | Command::Pivot { .. }
            | Command::Unmount { .. }
            | Command::Detach { .. }
            | Command::SetAttr { .. }
            | Command::MoveTree { .. } => false,
        }
    }

    /// Whether it ends a namespace: one that is dropped, or a tree that is attached.
    pub(crate) fn drops_space(&self) -> bool
        ensures { result ≡ drops_space self.now }
    {
        match self {
            Command::DropSpace { .. } | Command::MoveTree { .. } => true,
            Command::Room { .. }
            | Command::MakeFs { .. }
            | Command::MakeDir { .. }
            | Command::NewSpace { .. }
            | Command::CopySpace { .. }
            | Command::Mount { .. }
            | Command::MountWith { .. }
            | Command::Bind { .. }
            | Command::Move { .. }
            | Command::Pivot { .. }
            | Command::Unmount { .. }
            | Command::Detach { .. }
            | Command::SetAttr { .. }
            | Command::OpenTree { .. }
            | Command::NewTree { .. } => false,
        }
    }
}
