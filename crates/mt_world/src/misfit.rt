//! Why a row is left out, or its mount is private.

/// Why a row of a table is left out, or why its mount is private though the row tells a peer group or a master.
#[derive(Clone, Copy, PartialEq, Eq, Debug)]
pub enum Misfit {
    /// A number of it is none that a mount, a namespace or a peer group can have: 0, or above 2^62 - 1.
    NoNumber,
    /// Another row with its ID is kept.
    SameId,
    /// What it stands on is no row of its table that is kept: it is in no row, or is left out, or its parents go round in
    /// a ring.
    NoParent,
    /// It stands elsewhere than below its parent.
    Elsewhere,
    /// Another mount stands in its place.
    SamePlace,
    /// Its namespace has a root mount already.
    SecondRoot,
    /// The directory that it shows, or the one on which it stands, has too many names on its way from the root of its filesystem.
    TooDeep,
    /// As many filesystems, directories, mounts or namespaces are made as there can be.
    NoRoom,
    /// It is told to be unbindable, and to have a peer group or a master.
    Unbindable,
    /// A row that is kept tells another master for its peer group.
    OtherMaster,
    /// Its peer group, or its master, is one of mounts of another filesystem.
    OtherFilesystem,
    /// Its master is a peer group of which no mount is a member: all rows of that are left out or private, or the masters
    /// go round in a ring.
    NoMaster,
}
