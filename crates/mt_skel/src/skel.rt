//! The directories of all filesystems.
ghost use Rattle.std.specs.Prelude.{◌≡◌, ◌≢◌, ◌-◌, ◌<◌, [], ◌∷◌, ◌++◌, ◌≤◌, nat_le, None, IsTrue, IfOk, IfErr, IfSome, OnErr, OnOk, IsOkUnless, Ok, Err, length, drop};
ghost use Rattle.std.specs.List.{flat_map};
ghost use Rattle.mt_skel.specs.Front.{IsFront};
ghost use Rattle.mt_skel.specs.Escapes.{escaped};
ghost use Rattle.mt_skel.specs.Skeleton.{Skeleton, IsSkeleton, empty_skeleton, room_limit, skel_room, filesystems_at_most, directories_at_most, given_room, is_filesystem, is_directory, filesystem, directory, fs_named, directory_number, root_of, child, holds, added_fs, added_dir, with_dir};

use crate::children::Children;
use crate::escape::push_escaped;
use crate::fault::Fault;
use crate::name::{Label, Name};
use crate::names::Names;
use std::alloc::{AllocError, Global};
use std::marker::Model;

/// The number of a filesystem, counted from 1 in the order of making: the minor number of its
/// device.
pub type FsId = u64;

/// The number of a directory, counted from 0 in the order of making.
pub type Dir = u64;

/// The most filesystems, where the room is 1.
const MOST_FILESYSTEMS: usize = 256;

/// The most directories including the roots, where the room is 1.
const MOST_DIRECTORIES: usize = 16_384;

/// The most names from a root down, whatever the room is.
const MOST_DEPTH: usize = 32;

/// The greatest room.
pub const MOST_ROOM: usize = 256;

#[derive(Clone)]
struct Filesystem {
    root: Dir,
    name: Label,
    kind: Label,
    source: Label,
}

impl Drop for Filesystem {
    fn drop(self) {
        let Filesystem {
            root: _root,
            name: _name,
            kind: _kind,
            source: _source,
        } = self;
    }
}

/// The parent of a directory, and its name in it.
#[derive(Drop, Clone)]
struct Link {
    dir: Dir,
    name: Name,
}

#[derive(Drop, Clone)]
struct Node {
    fs: FsId,
    up: Option<Link>,
}

/// The filesystems and their directories, which are only added to.
///
/// There are at most 256 filesystems and 16,384 directories including the roots for each unit of its room, which is
/// 1 to 256, and 32 names from a root down. The directory of a name in another is found by a table of the names in that
/// one.
pub struct Skel {
    filesystems: Vec<Filesystem>,
    nodes: Vec<Node>,
    children: Children,
    /// By what the limits are multiplied that are not of a single path, 1 to 256.
    room: usize,
    alloc: Global,
}

impl Drop for Skel {
    fn drop(self) {
        let Skel {
            filesystems: _filesystems,
            nodes: _nodes,
            children: _children,
            room: _room,
            alloc: _alloc,
        } = self;
    }
}

impl Model for Skel {
    ghost use Rattle.mt_skel.specs.Skeleton.{Skeleton};
    ghost use Rattle.mt_skel.specs.Nodes.{skeleton_with, IsKeptSkeleton};

    ghost Value = { Skeleton };

    ghost view = { λ s. skeleton_with s.filesystems.items s.nodes.items s.room };

    ghost invariant = { λ s. IsKeptSkeleton s.filesystems.items s.nodes.items s.children };
}

impl Skel {
    /// No filesystem and no directory, with a room of 1.
    pub fn new(alloc: Global) -> Skel
        ensures { result ≡ empty_skeleton }
    {
        Skel {
            filesystems: Vec::new(alloc),
            nodes: Vec::new(alloc),
            children: Children::new(alloc),
            room: 1,
            alloc,
        }
    }

    /// An equal skeleton.
    pub fn copy(&self) -> Result<Skel, Fault>
        ensures copy { IfOk result (λ skel. skel ≡ self.now) }
        ensures sound { IsSkeleton self.now }
        ensures memory { IsOkUnless result Fault.NoMemory }
    {
        Ok(Skel {
            filesystems: self.filesystems.clone()?,
            nodes: self.nodes.clone()?,
            children: self.children.copy()?,
            room: self.room,
            alloc: self.alloc,
        })
    }

    /// By what the limits are multiplied that are not of a single path, 1 to 256: those of filesystems and directories here,
    /// and those of mounts and namespaces in a world.
    pub fn room(&self) -> usize
        ensures room { result ≡ skel_room self.now }
        ensures most { result ≤ room_limit }
    {
        self.room.min(MOST_ROOM)
    }

    /// Gives it another room. Refused as `TooMany` unless that is 1 to 256 and there is no filesystem yet; then nothing has
    /// changed. Takes no memory.
    pub fn give_room(&mut self, room: usize) -> Result<(), Fault>
        ensures done { OnOk result (given_room self.old room ≡ Ok self.new) }
        ensures refused { IfErr result (λ fault. given_room self.old room ≡ Err fault) }
        ensures unchanged { OnErr result (self.new ≡ self.old) }
    {
        if room < 1 || room > MOST_ROOM || !self.filesystems.is_empty() {
            return Err(Fault::TooMany);
        }
        self.room = room;
        Ok(())
    }

    /// Whether there is no room for one more filesystem.
    fn has_most_filesystems(&self) -> bool
        ensures { result ≡ nat_le (filesystems_at_most self.now) (length self.now.filesystems) }
    {
        self.filesystems.len() >= MOST_FILESYSTEMS * self.room()
    }

    /// Whether there is no room for one more directory.
    fn has_most_directories(&self) -> bool
        ensures { result ≡ nat_le (directories_at_most self.now) (length self.now.directories) }
    {
        self.nodes.len() >= MOST_DIRECTORIES * self.room()
    }

    /// Adds a filesystem with its root directory, and answers its number.
    ///
    /// Refused as `FilesystemExists` if the name is taken, as `TooMany` at the limit of filesystems
    /// or directories, 256 and 16,384 times the room, and as `NoMemory`; then nothing has changed.
    pub fn add_fs(&mut self, name: Label, kind: Label, source: Label) -> Result<FsId, Fault>
        ensures done { IfOk result (λ fs. (added_fs self.old (record { name = name; kind = kind; source = source }) ≡ Ok self.new) × (fs ≡ length self.new.filesystems)) }
        ensures refused { IfErr result (λ fault. fault ≢ Fault.NoMemory → added_fs self.old (record { name = name; kind = kind; source = source }) ≡ Err fault) }
        ensures unchanged { OnErr result (self.new ≡ self.old) }
    {
        let root = self.nodes.len() as u64;
        let filesystem = Filesystem {
            root,
            name,
            kind,
            source,
        };
        if self.fs(&filesystem.name).is_some() {
            return Err(Fault::FilesystemExists);
        }
        if self.has_most_filesystems() || self.has_most_directories() {
            return Err(Fault::TooMany);
        }
        self.nodes.reserve(1)?;
        self.filesystems.reserve(1)?;
        self.children.push_root()?;
        let fs = self.filesystems.len() as u64 + 1;
        self.nodes.push(Node { fs, up: None }).unwrap();
        self.filesystems.push(filesystem).unwrap();
        Ok(fs)
    }

    /// Adds the directory of this path in the filesystem of this name, and answers its number.
    ///
    /// Refused as `NoFilesystem`, as `NoEntry` if its parent is not there, as `EntryExists` if it is
    /// there, as the root always is, as `TooMany` beyond 32 names or at the limit of directories, 16,384
    /// times the room, and as `NoMemory`; then nothing has changed.
    pub fn add_dir(&mut self, fs: &Label, path: &[Name]) -> Result<Dir, Fault>
        ensures done { IfOk result (λ dir. (added_dir self.old fs.now path.now ≡ Ok self.new) × (dir ≡ length self.old.directories)) }
        ensures refused { IfErr result (λ fault. fault ≢ Fault.NoMemory → added_dir self.old fs.now path.now ≡ Err fault) }
        ensures unchanged { OnErr result (self.new ≡ self.old) }
    {
        let _nodes = &self.nodes;
        let Some(fs) = self.fs(fs) else {
            return Err(Fault::NoFilesystem);
        };
        let Some((name, above)) = path.split_last() else {
            return Err(Fault::EntryExists);
        };
        let Some(parent) = self.find(fs, above) else {
            return Err(Fault::NoEntry);
        };
        if self.child(parent, name).is_some() {
            return Err(Fault::EntryExists);
        }
        if path.len() > MOST_DEPTH || self.has_most_directories() {
            return Err(Fault::TooMany);
        }
        let name = name.copy()?;
        self.push_node(fs, parent, name)
    }

    /// The number of the filesystem of this name.
    pub fn fs(&self, name: &Label) -> Option<FsId>
        ensures number { result ≡ fs_named self.now name.now }
        ensures there { IfSome result (λ fs. IsTrue (is_filesystem self.now fs)) }
    {
        let at = self
            .filesystems
            .iter()
            .position(|f| f.name.bytes() == name.bytes())?;
        Some(at as u64 + 1)
    }

    /// The type of a filesystem.
    pub fn kind(&self, fs: FsId) -> &Label
        requires { IsTrue (is_filesystem self.now fs) }
        ensures { result.now ≡ (filesystem self.now fs).kind }
    {
        &self.filesystems[(fs - 1) as usize].kind
    }

    /// The source of a filesystem.
    pub fn source(&self, fs: FsId) -> &Label
        requires { IsTrue (is_filesystem self.now fs) }
        ensures { result.now ≡ (filesystem self.now fs).source }
    {
        &self.filesystems[(fs - 1) as usize].source
    }

    /// The root directory of a filesystem.
    pub fn root(&self, fs: FsId) -> Dir
        requires { IsTrue (is_filesystem self.now fs) }
        ensures root { result ≡ root_of self.now fs }
        ensures there { IsTrue (is_directory self.now result) }
    {
        self.filesystems[(fs - 1) as usize].root
    }

    /// The filesystem of a directory.
    pub fn fs_of(&self, dir: Dir) -> FsId
        requires { IsTrue (is_directory self.now dir) }
        ensures fs { result ≡ (directory self.now dir).fs }
        ensures there { IsTrue (is_filesystem self.now result) }
    {
        self.nodes[dir as usize].fs
    }

    /// The directory of this name in a directory; `None` if there is none, or if that directory is
    /// not there.
    #[tactic(auto, using(crate::proofs::IndexLaws::child_is))]
    pub fn child(&self, dir: Dir, name: &Name) -> Option<Dir>
        ensures child { result ≡ child self.now dir name.now }
        ensures there { IfSome result (λ below. IsTrue (is_directory self.now below)) }
    {
        self.children.child(dir, name)
    }

    /// Whether the outer directory is the inner one, or above it; false if the inner one is not
    /// there.
    pub fn holds(&self, outer: Dir, inner: Dir) -> bool
        ensures { result ≡ holds self.now outer inner }
    {
        if inner as usize >= self.nodes.len() {
            return false;
        }
        let mut here = inner;
        'up: while here != outer {
            match &self.nodes[here as usize].up {
                None => return false,
                Some(link) => here = link.dir,
            }
        }
        true
    }

    /// The names from the root of its filesystem down to a directory.
    pub fn path_of(&self, dir: Dir) -> Result<Vec<Name>, Fault>
        requires { IsTrue (is_directory self.now dir) }
        ensures path { IfOk result (λ path. path.items ≡ (directory self.now dir).path) }
        ensures memory { IsOkUnless result Fault.NoMemory }
    {
        let mut path = Vec::new(self.alloc);
        let mut here = dir;
        'up: while let Some(link) = &self.nodes[here as usize].up {
            path.push(link.name.copy()?)?;
            here = link.dir;
        }
        path.reverse();
        Ok(path)
    }

    /// How many names lead from the root of its filesystem down to a directory. Takes no memory.
    pub fn depth(&self, dir: Dir) -> usize
        requires { IsTrue (is_directory self.now dir) }
        ensures { result ≡ length (directory self.now dir).path }
    {
        let mut depth = 0usize;
        let mut here = dir;
        'up: while let Some(link) = &self.nodes[here as usize].up {
            depth += 1;
            here = link.dir;
        }
        depth
    }

    /// Appends the last `count` of the names from the root of its filesystem down to a directory, each after a slash
    /// and with its escapes; all of them if there are no more.
    pub fn push_path(&self, text: &mut Vec<u8>, dir: Dir, count: usize) -> Result<(), AllocError>
        requires { IsTrue (is_directory self.now dir) }
        ensures text { OnOk result (text.new.items ≡ text.old.items ++ flat_map (λ n. 47 ∷ escaped n) (drop (length (directory self.now dir).path - count) (directory self.now dir).path)) }
        ensures kept { IsFront text.old.items text.new.items }
    {
        if count == 0 {
            return Ok(());
        }
        let Some(link) = &self.nodes[dir as usize].up else {
            return Ok(());
        };
        self.push_path(text, link.dir, count - 1)?;
        text.push(b'/')?;
        push_escaped(text, link.name.bytes())?;
        Ok(())
    }

    /// A path with the last `count` of the names from the root of its filesystem down to a directory at its end; all of
    /// them if there are no more.
    pub fn add_path(&self, path: Names, dir: Dir, count: usize) -> Result<Names, AllocError>
        requires { IsTrue (is_directory self.now dir) }
        ensures { IfOk result (λ names. names ≡ path ++ drop (length (directory self.now dir).path - count) (directory self.now dir).path) }
    {
        if count == 0 {
            return Ok(path);
        }
        let Some(link) = &self.nodes[dir as usize].up else {
            return Ok(path);
        };
        let above = self.add_path(path, link.dir, count - 1)?;
        let names = above.with(&link.name)?;
        Ok(names)
    }

    /// The number of the directory with this path.
    fn find(&self, fs: FsId, path: &[Name]) -> Option<Dir>
        requires { IsTrue (is_filesystem self.now fs) }
        ensures { result ≡ directory_number self.now (record { fs = fs; path = path.now }) }
    {
        let mut here = self.filesystems[(fs - 1) as usize].root;
        for name in path {
            here = self.child(here, name)?;
        }
        Some(here)
    }

    /// Adds the directory of this name to a directory that has none of this name.
    fn push_node(&mut self, fs: FsId, parent: Dir, name: Name) -> Result<Dir, Fault>
        requires there { IsTrue (is_directory self.old parent) }
        requires same { fs ≡ (directory self.old parent).fs }
        requires absent { child self.old parent name ≡ None }
        ensures done { IfOk result (λ dir. (self.new ≡ with_dir self.old (record { fs = fs; path = (directory self.old parent).path ++ name ∷ [] })) × (dir ≡ length self.old.directories)) }
        ensures memory { IsOkUnless result Fault.NoMemory }
        ensures unchanged { OnErr result (self.new ≡ self.old) }
    {
        let dir = self.nodes.len() as u64;
        self.nodes.reserve(1)?;
        self.children.push_child(parent, name.copy()?, dir)?;
        let up = Some(Link { dir: parent, name });
        self.nodes.push(Node { fs, up }).unwrap();
        Ok(dir)
    }
}
