//! What one mount is: its ID, its namespace, the place that it is mounted on and its attributes.
ghost use Rattle.std.specs.Prelude.{◌≡◌};
ghost use Rattle.mt_mounts.specs.Attrs.{new_attrs};
ghost use Rattle.mt_mounts.specs.Forest.{root_place};

use mt_skel::skel::Dir;

/// The number of a mount, which no other mount has.
pub type MountId = u64;

/// The number of a namespace.
pub type SpaceId = u64;

/// A directory as it is seen under one mount: where another mount can be mounted.
#[derive(Clone, Copy, PartialEq, Eq, Debug, Hash)]
pub struct Place {
    /// The mount.
    pub mount: MountId,
    /// A directory of that mount's filesystem.
    pub dir: Dir,
}

/// When a read of a file updates its time of access.
#[derive(Clone, Copy, PartialEq, Eq, Debug)]
pub enum Atime {
    /// If it is not later than the last change, or a day old: what a new mount has.
    Relatime,
    /// Never.
    Noatime,
    /// Always.
    Strictatime,
}

/// The attributes of one mount; the other mounts of its filesystem may have others.
#[derive(Clone, Copy, PartialEq, Eq, Debug)]
pub struct Attrs {
    /// Nothing can be written.
    pub ro: bool,
    /// The set-user-ID and set-group-ID bits of programs are ignored.
    pub nosuid: bool,
    /// Device files cannot be opened.
    pub nodev: bool,
    /// Programs cannot be run.
    pub noexec: bool,
    /// Symbolic links are not followed.
    pub nosymfollow: bool,
    /// The times of access of directories are not updated.
    pub nodiratime: bool,
    /// When the times of access are updated.
    pub atime: Atime,
}

impl Attrs {
    /// The attributes of a new mount, `rw,relatime`: no flag is set.
    pub fn new() -> Attrs
        ensures { result ≡ new_attrs }
    {
        Attrs {
            ro: false,
            nosuid: false,
            nodev: false,
            noexec: false,
            nosymfollow: false,
            nodiratime: false,
            atime: Atime::Relatime,
        }
    }
}

/// One mount.
#[derive(Clone, Copy, PartialEq, Eq, Debug)]
pub struct Mount {
    /// Its number.
    pub id: MountId,
    /// The namespace that it is in.
    pub space: SpaceId,
    /// The place that it is mounted on, or `None` for the root mount of its namespace.
    pub place: Option<Place>,
    /// The directory that is seen at its root.
    pub root: Dir,
    /// Its attributes.
    pub attrs: Attrs,
}

/// The place at the root of a mount, where the next mount of a stack stands.
pub fn root_place(mount: &Mount) -> Place
    ensures { result ≡ root_place mount.now }
{
    Place {
        mount: mount.id,
        dir: mount.root,
    }
}
