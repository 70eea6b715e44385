//! The namespaces that a trace meets.

use crate::process_spaces::SpaceKind;
use mt_mounts::mount::SpaceId;
use mt_skel::skel::FsId;
use std::alloc::{AllocError, Global};
use std::collections::BTreeMap;

/// A namespace of mounts.
#[derive(Drop)]
struct MountSpace {
    name: Vec<u8>,
    owner: u64,
}

/// The namespace that the system calls by a number, which is no other one's of any kind: `mnt:[4026532205]`.
#[derive(Clone, Copy, PartialEq, Eq, Debug)]
struct Tag {
    kind: SpaceKind,
    number: u64,
}

/// A filesystem that a file of a namespace was bound as.
#[derive(Clone, Copy, PartialEq, Eq, Debug)]
struct SpaceFile {
    fs: FsId,
    kind: SpaceKind,
    number: u64,
}

/// The namespaces that a trace meets: those of mounts with their names and owners, what the system calls those of all kinds, and the
/// filesystems that their files are bound as.
#[derive(Drop)]
pub struct Spaces {
    alloc: Global,
    mounts: BTreeMap<SpaceId, MountSpace>,
    last_given: SpaceId,
    tags: BTreeMap<u64, Tag>,
    files: Vec<SpaceFile>,
    trees: Vec<SpaceId>,
}

/// The most namespaces of which it is kept what the system calls them, by this project's rule.
const MOST_TAGS: usize = 65_536;

impl Spaces {
    /// None.
    pub fn new(alloc: Global) -> Spaces {
        Spaces {
            alloc,
            mounts: BTreeMap::new(alloc),
            last_given: 0,
            tags: BTreeMap::new(alloc),
            files: Vec::new(alloc),
            trees: Vec::new(alloc),
        }
    }

    /// Enters the namespace of a table, which does not end with its last process.
    pub fn give(&mut self, space: SpaceId, name: &[u8], owner: u64) -> Result<(), AllocError> {
        self.last_given = self.last_given.max(space);
        self.enter(space, name, owner)
    }

    /// Enters a namespace of mounts.
    pub fn enter(&mut self, space: SpaceId, name: &[u8], owner: u64) -> Result<(), AllocError> {
        let name = Vec::from_slice(self.alloc, name)?;
        let _was = self.mounts.insert(space, MountSpace { name, owner })?;
        Ok(())
    }

    /// Enters a detached tree.
    pub fn enter_tree(&mut self, space: SpaceId, name: &[u8]) -> Result<(), AllocError> {
        self.trees.push(space)?;
        self.enter(space, name, 0)
    }

    /// Forgets a namespace of mounts that has ended.
    pub fn end(&mut self, space: SpaceId) {
        let _was = self.mounts.remove(&space);
        self.trees.retain(|tree| *tree != space);
    }

    /// The detached trees.
    pub fn trees(&self) -> &[SpaceId] {
        self.trees.as_slice()
    }

    /// Whether a namespace of mounts is one of a table, or was made by a call.
    pub fn has(&self, space: SpaceId) -> bool {
        self.mounts.contains_key(&space)
    }

    /// What a namespace of mounts is called.
    pub fn name(&self, space: SpaceId) -> &[u8] {
        match self.mounts.get(&space) {
            Some(known) => known.name.as_slice(),
            None => b"",
        }
    }

    /// The user namespace that owns a namespace of mounts.
    pub fn owner(&self, space: SpaceId) -> u64 {
        match self.mounts.get(&space) {
            Some(known) => known.owner,
            None => 0,
        }
    }

    /// Whether a namespace of mounts ends with its last process: it is none of a table, and no file of it is bound.
    pub fn may_end(&self, space: SpaceId) -> bool {
        space > self.last_given
            && self.has(space)
            && !self.trees.contains(&space)
            && !self.is_bound(space)
    }

    /// Whether the file of a namespace of mounts is bound.
    fn is_bound(&self, space: SpaceId) -> bool {
        self.files.iter().any(|file| file.kind == SpaceKind::Mount && file.number == space)
    }

    /// Notes what the system calls a namespace.
    pub fn tag(&mut self, kind: SpaceKind, told: u64, number: u64) -> Result<(), AllocError> {
        if self.tags.len() < MOST_TAGS || self.tags.contains_key(&told) {
            let _was = self.tags.insert(told, Tag { kind, number })?;
        }
        Ok(())
    }

    /// The namespace that the system calls so.
    pub fn tagged(&self, kind: SpaceKind, told: u64) -> Option<u64> {
        match self.tags.get(&told) {
            Some(tag) if tag.kind == kind => Some(tag.number),
            _ => None,
        }
    }

    /// Notes that the file of a namespace is bound as a filesystem.
    pub fn bind_file(&mut self, fs: FsId, kind: SpaceKind, number: u64) -> Result<(), AllocError> {
        self.files.push(SpaceFile { fs, kind, number })?;
        Ok(())
    }

    /// The namespace whose file is bound as a filesystem.
    pub fn of_file(&self, fs: FsId) -> Option<(SpaceKind, u64)> {
        let file = self.files.iter().find(|file| file.fs == fs)?;
        Some((file.kind, file.number))
    }

    /// Forgets the files that are bound as other filesystems than these.
    pub fn keep_files(&mut self, shown: &[FsId]) {
        self.files.retain(|file| shown.contains(&file.fs));
    }

    /// The namespaces of mounts of which files are bound.
    pub fn bound(&self) -> Result<Vec<SpaceId>, AllocError> {
        let mut spaces = Vec::new(self.alloc);
        for file in &self.files {
            if file.kind == SpaceKind::Mount {
                spaces.push(file.number)?;
            }
        }
        Ok(spaces)
    }
}
