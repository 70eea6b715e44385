//! The filesystems of a world, and which of them a mount of a type shows.

use crate::process_spaces::ProcessSpaces;
use crate::spots::filesystems_shown;
use mt_info::print::push_number;
use mt_info::row::Row;
use mt_lines::words::Pieces;
use mt_propagate::world::World;
use mt_skel::fault::Fault;
use mt_skel::name::Label;
use mt_skel::skel::FsId;
use std::alloc::{AllocError, Global};
use std::collections::BTreeMap;

/// The types of which each mount is a new filesystem (filesystems(5)).
const NEW_EACH_TIME: [&[u8]; 10] = [
    b"nsfs",
    b"proc",
    b"tmpfs",
    b"ramfs",
    b"devpts",
    b"overlay",
    b"fuse",
    b"bpf",
    b"rootfs",
    b"hugetlbfs",
];

/// The controllers of control groups of version 1, of which each hierarchy is a filesystem (cgroups(7)), in alphabetical order.
const CONTROLLERS: [&[u8]; 13] = [
    b"blkio",
    b"cpu",
    b"cpuacct",
    b"cpuset",
    b"devices",
    b"freezer",
    b"hugetlb",
    b"memory",
    b"net_cls",
    b"net_prio",
    b"perf_event",
    b"pids",
    b"rdma",
];

/// The longest piece of a type in the name of a filesystem.
const LONGEST_KIND: usize = 200;

/// From how many filesystems on one that nothing shows any more is taken again, by this project's rule: a world has room for few.
const FEW: usize = 128;

/// The filesystems of a world: their names, and those that are shown again by mounts of their types.
#[derive(Drop)]
pub struct Filesystems {
    alloc: Global,
    names: BTreeMap<FsId, Label>,
    known: BTreeMap<Vec<u8>, FsId>,
    spent: Vec<FsId>,
    made: u64,
}

/// Whether a word is one of these.
fn is_among(word: &[u8], words: &[&[u8]]) -> bool {
    words.iter().any(|other| *other == word)
}

/// Whether the filesystem of a name has a type and a source.
fn is_alike(world: &World, name: &Label, kind: &[u8], source: &[u8]) -> bool {
    match world.skel.fs(name) {
        Some(fs) => {
            world.skel.kind(fs).bytes() == kind && world.skel.source(fs).bytes() == source
        }
        None => false,
    }
}

/// What tells one filesystem of a type from others, behind the type.
fn keyed(alloc: Global, kind: &[u8], detail: &[u8]) -> Result<Vec<u8>, AllocError> {
    let mut key = Vec::from_slice(alloc, kind)?;
    key.push(0)?;
    key.extend_from_slice(detail)?;
    Ok(key)
}

/// What tells the filesystems of a number from others.
fn numbered(alloc: Global, kind: &[u8], number: u64) -> Result<Vec<u8>, AllocError> {
    keyed(alloc, kind, &number.to_be_bytes())
}

/// Appends those of the controllers that are among words, each behind a comma.
fn push_controllers(
    key: &mut Vec<u8>,
    controllers: &[&[u8]],
    options: &[u8],
) -> Result<(), AllocError> {
    for controller in controllers {
        if is_option(controller, options) {
            key.push(b',')?;
            key.extend_from_slice(controller)?;
        }
    }
    Ok(())
}

/// Whether a word is among options.
fn is_option(word: &[u8], options: &[u8]) -> bool {
    Pieces::new(b',', options).any(|option| option == word)
}

/// The name of a hierarchy that options tell, if they do.
fn name_told<'o>(options: &'o [u8]) -> Option<&'o [u8]> {
    for option in Pieces::new(b',', options) {
        if let Some(name) = option.strip_prefix(b"name=".as_slice()) {
            return Some(name);
        }
    }
    None
}

/// What tells a hierarchy of control groups from others: its name, or its controllers.
fn hierarchy(alloc: Global, options: &[u8]) -> Result<Vec<u8>, AllocError> {
    if let Some(name) = name_told(options) {
        return keyed(alloc, b"cgroup", name);
    }
    let mut detail = Vec::new(alloc);
    push_controllers(&mut detail, &CONTROLLERS, options)?;
    if detail.is_empty() {
        detail.extend_from_slice(options)?;
    }
    keyed(alloc, b"cgroup", &detail)
}

/// What tells the filesystem that a mount shows from others; `None` if each such mount shows a new one.
fn key_of(
    alloc: Global,
    kind: &[u8],
    source: &[u8],
    options: &[u8],
    spaces: ProcessSpaces,
) -> Result<Option<Vec<u8>>, AllocError> {
    if is_among(kind, &NEW_EACH_TIME) {
        return Ok(None);
    }
    if kind == b"sysfs".as_slice() {
        return Ok(Some(numbered(alloc, kind, spaces.network)?));
    }
    if kind == b"mqueue".as_slice() {
        return Ok(Some(numbered(alloc, kind, spaces.ipc)?));
    }
    if kind == b"cgroup".as_slice() {
        return Ok(Some(hierarchy(alloc, options)?));
    }
    if source.starts_with(b"/dev/") {
        return Ok(Some(keyed(alloc, kind, source)?));
    }
    Ok(Some(Vec::from_slice(alloc, kind)?))
}

/// The last name of a mount point.
fn last_name(point: &[u8]) -> &[u8] {
    let mut last = point;
    for name in Pieces::new(b'/', point) {
        last = name;
    }
    last
}

impl Filesystems {
    /// The filesystems of a world that have these names, of which rows of the first table tell what they show.
    pub fn new(
        alloc: Global,
        world: &World,
        names: &[Label],
        rows: &[Row],
        spaces: ProcessSpaces,
    ) -> Result<Filesystems, AllocError> {
        let mut all = Filesystems {
            alloc,
            names: BTreeMap::new(alloc),
            known: BTreeMap::new(alloc),
            spent: Vec::new(alloc),
            made: 0,
        };
        for name in names {
            if let Some(fs) = world.skel.fs(name) {
                let _was = all.names.insert(fs, name.clone()?)?;
            }
        }
        for row in rows {
            all.know_row(row, spaces)?;
        }
        Ok(all)
    }

    /// Notes the filesystem of a key, unless there is one.
    fn know(&mut self, key: Vec<u8>, fs: FsId) -> Result<(), AllocError> {
        if self.known.get(&key).is_none() {
            let _was = self.known.insert(key, fs)?;
        }
        Ok(())
    }

    /// Notes the filesystem that a row tells.
    fn know_row(&mut self, row: &Row, spaces: ProcessSpaces) -> Result<(), AllocError> {
        let (kind, source) = (row.kind.bytes(), row.source.bytes());
        let options = last_name(row.point.text());
        if let Some(key) = key_of(self.alloc, kind, source, options, spaces)? {
            self.know(key, row.minor)?;
        }
        if let Some(key) = key_of(self.alloc, kind, b"", options, spaces)? {
            self.know(key, row.minor)?;
        }
        Ok(())
    }

    /// The filesystem that a mount of a type, a source and options shows, for a process of these namespaces; `None` if that is a new one.
    pub fn shown(
        &self,
        kind: &[u8],
        source: &[u8],
        options: &[u8],
        spaces: ProcessSpaces,
    ) -> Result<Option<FsId>, AllocError> {
        let Some(key) = key_of(self.alloc, kind, source, options, spaces)? else {
            return Ok(None);
        };
        Ok(self.known.get(&key).copied())
    }

    /// The name of the first filesystem, if there is one.
    pub fn first_name(&self) -> Result<Option<Label>, AllocError> {
        match self.names.values().next() {
            Some(name) => Ok(Some(name.clone()?)),
            None => Ok(None),
        }
    }

    /// The name of a filesystem.
    pub fn name(&self, fs: FsId) -> Result<Option<Label>, AllocError> {
        match self.names.get(&fs) {
            Some(name) => Ok(Some(name.clone()?)),
            None => Ok(None),
        }
    }

    /// A name for a new filesystem of a type, of which a world has no other one.
    pub fn new_name(&mut self, world: &World, kind: &[u8]) -> Result<Option<Label>, AllocError> {
        for _try in 0..=self.names.len() {
            self.made = self.made.saturating_add(1);
            let mut name = Vec::from_slice(self.alloc, kind.get(..LONGEST_KIND).unwrap_or(kind))?;
            name.push(b'.')?;
            push_number(&mut name, self.made)?;
            let Ok(label) = Label::new(name) else {
                return Ok(None);
            };
            if world.skel.fs(&label).is_none() {
                return Ok(Some(label));
            }
        }
        Ok(None)
    }

    /// Enters a filesystem that was made for a mount of a type, a source and options.
    pub fn enter(
        &mut self,
        fs: FsId,
        name: Label,
        kind: &[u8],
        source: &[u8],
        options: &[u8],
        spaces: ProcessSpaces,
    ) -> Result<(), AllocError> {
        let _was = self.names.insert(fs, name)?;
        match key_of(self.alloc, kind, source, options, spaces)? {
            Some(key) => self.know(key, fs),
            None => {
                self.spent.push(fs)?;
                Ok(())
            }
        }
    }

    /// A filesystem of a type and a source that was made for one mount, and that nothing shows any more, if there is one and there are many
    /// filesystems: a system gives the number of its device again too.
    pub fn unused(&self, world: &World, kind: &[u8], source: &[u8]) -> Result<Option<FsId>, Fault> {
        if self.names.len() < FEW {
            return Ok(None);
        }
        let shown = filesystems_shown(world)?;
        for fs in &self.spent {
            if !shown.contains(fs) && self.is_named_alike(world, *fs, kind, source) {
                return Ok(Some(*fs));
            }
        }
        Ok(None)
    }

    /// Whether a filesystem has a name, a type and a source.
    fn is_named_alike(&self, world: &World, fs: FsId, kind: &[u8], source: &[u8]) -> bool {
        match self.names.get(&fs) {
            Some(name) => is_alike(world, name, kind, source),
            None => false,
        }
    }
}
