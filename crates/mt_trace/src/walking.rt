//! Where the paths of a process lead.

use crate::covers::Covers;
use crate::links::Links;
use crate::magic::{MagicFile, magic_file};
use crate::process::Directories;
use crate::process_spaces::ProcessSpaces;
use crate::processes::Processes;
use crate::spots::{
    child_standing, is_of_kind, names_inside, names_to, settled_standing, shown_filesystem,
    space_root, standing_above,
};
use crate::standing::{Reached, Standing};
use crate::told::{Halt, Told};
use mt_lines::words::Pieces;
use mt_propagate::world::World;
use mt_skel::name::Name;
use std::alloc::{AllocError, Global};

/// The most symbolic links that are followed in a path (path_resolution(7)).
const MOST_LINKS: u32 = 40;

/// What the paths of a process are looked up in.
#[derive(Clone, Copy)]
pub struct Lookup<'a> {
    /// Where new standings have their memory from.
    pub alloc: Global,
    /// The world.
    pub world: &'a World,
    /// The processes.
    pub processes: &'a Processes,
    /// The symbolic links that are known.
    pub links: &'a Links,
    /// What stands where the world cannot have it.
    pub covers: &'a Covers,
    /// The process.
    pub number: u64,
}

/// What the names of a path have led to so far.
#[derive(Drop)]
enum Arrival {
    /// This is reached.
    At(Reached),
    /// A symbolic link: the directory that it is in, and what comes from there on: its target, or that and the rest of the path.
    Link(Standing, Vec<u8>),
}

/// Whether no name is left.
fn are_over(names: &Pieces<'_>) -> bool {
    let mut left = names.again();
    left.all(|name| name.is_empty())
}

/// The target of a link, and the rest of the path that it is in.
fn with_rest(target: Vec<u8>, rest: &Pieces<'_>) -> Result<Vec<u8>, AllocError> {
    let mut text = target;
    for name in rest.again() {
        text.push(b'/')?;
        text.extend_from_slice(name)?;
    }
    Ok(text)
}

impl<'a> Lookup<'a> {
    /// Where the process stands.
    fn directories(&self) -> Result<&'a Directories, Halt> {
        match self.processes.directories(self.number) {
            Some(directories) => Ok(directories),
            None => Err(Halt::Told(Told::DescriptorUnknown)),
        }
    }

    /// The name of these bytes. Told as [`Told::NoName`] if they are none.
    pub fn name(&self, bytes: &[u8]) -> Result<Name, Halt> {
        match Name::new(Vec::from_slice(self.alloc, bytes)?) {
            Ok(name) => Ok(name),
            Err(_bytes) => Err(Halt::Told(Told::NoName)),
        }
    }

    /// A standing, and the top of what is mounted there.
    pub fn topped(&self, standing: Standing) -> Standing {
        if !standing.is_made() {
            return standing;
        }
        Standing::at(self.alloc, self.covers.top(self.world, standing.place))
    }

    /// Refuses a standing of which the mount was taken away.
    fn check(&self, standing: &Standing) -> Result<(), Halt> {
        match self.world.forest.get(standing.place.mount) {
            Some(_mount) => Ok(()),
            None => Err(Halt::Told(Told::Gone)),
        }
    }

    /// What the link of a directory is known to lead to, if nothing is mounted there.
    fn link_at(&self, there: &Standing) -> Result<Option<Vec<u8>>, Halt> {
        if self.links.is_empty() || there.is_made() && self.covers.has(self.world, there.place) {
            return Ok(None);
        }
        let Some(fs) = shown_filesystem(self.world, there.place.mount) else {
            return Ok(None);
        };
        let Some(inside) = names_inside(self.world, there)? else {
            return Ok(None);
        };
        match self.links.target(fs, &inside)? {
            Some(target) => Ok(Some(Vec::from_slice(self.alloc, target)?)),
            None => Ok(None),
        }
    }

    /// Where a name leads that is neither `.` nor `..`; with `follows` a link of this name is followed, also one of proc that no text
    /// tells.
    fn named(&self, standing: Standing, name: &Name, follows: bool) -> Result<Arrival, Halt> {
        if follows && is_of_kind(self.world, standing.place.mount, b"proc") {
            if let Some(reached) = self.magic(&standing, name)? {
                return Ok(Arrival::At(reached));
            }
        }
        let there = child_standing(self.world, &standing, name)?;
        if follows {
            if let Some(target) = self.link_at(&there)? {
                return Ok(Arrival::Link(standing, target));
            }
        }
        Ok(Arrival::At(Reached::Standing(self.topped(there))))
    }

    /// Where one name leads.
    fn step(&self, here: Reached, name: &[u8], follows: bool) -> Result<Arrival, Halt> {
        let Reached::Standing(standing) = here else {
            return Err(Halt::Told(Told::BelowFile));
        };
        self.check(&standing)?;
        if name == b"..".as_slice() {
            let root = &self.directories()?.root;
            let up = standing_above(self.world, root, standing)?;
            return Ok(Arrival::At(Reached::Standing(self.topped(up))));
        }
        let name = self.name(name)?;
        self.named(standing, &name, follows)
    }

    /// Where the names of a path lead, one after another, up to the first link that is followed.
    fn walk_to_link(&self, start: &Standing, path: &[u8], follows: bool) -> Result<Arrival, Halt> {
        let mut here = Reached::Standing(settled_standing(self.world, start)?);
        let mut names = Pieces::new(b'/', path);
        'names: while let Some(name) = names.next() {
            if !name.is_empty() && name != b".".as_slice() {
                match self.step(here, name, follows || !are_over(&names))? {
                    Arrival::At(reached) => here = reached,
                    Arrival::Link(standing, target) => {
                        return Ok(Arrival::Link(standing, with_rest(target, &names)?));
                    }
                }
            }
        }
        Ok(Arrival::At(here))
    }

    /// Where a path leads. Told as [`Told::TooManyLinks`] above 40 links.
    fn walk(&self, start: Standing, path: &[u8], follows: bool) -> Result<Reached, Halt> {
        let mut start = start;
        let mut text = Vec::from_slice(self.alloc, path)?;
        for _link in 0..=MOST_LINKS {
            match self.walk_to_link(&start, &text, follows)? {
                Arrival::At(reached) => return Ok(reached),
                Arrival::Link(standing, rest) => {
                    start = self.link_start(standing, &rest)?;
                    text = rest;
                }
            }
        }
        Err(Halt::Told(Told::TooManyLinks))
    }

    /// Where the target of a link begins that is in a directory: at the root of the process, if it begins with a slash.
    fn link_start(&self, standing: Standing, target: &[u8]) -> Result<Standing, Halt> {
        if target.starts_with(b"/") {
            Ok(self.directories()?.root.copy()?)
        } else {
            Ok(standing)
        }
    }

    /// What a path leads to that begins at what a descriptor leads to, or the current directory: a path that begins with a slash does
    /// at the root of the process. An empty one leads to that itself. Told as the reasons of [`Told`] say.
    pub fn reached(&self, start: Reached, path: &[u8], follows: bool) -> Result<Reached, Halt> {
        if path.starts_with(b"/") {
            let root = self.directories()?.root.copy()?;
            self.check(&root)?;
            return self.walk(root, path, follows);
        }
        if path.is_empty() {
            return Ok(start);
        }
        match start {
            Reached::Standing(standing) => {
                self.check(&standing)?;
                self.walk(standing, path, follows)
            }
            Reached::Space(_, _) | Reached::Context(_) => Err(Halt::Told(Told::BelowFile)),
        }
    }

    /// The root from which the paths that strace tells are looked up: that of the namespace, or that of the process where its root
    /// was moved there.
    fn told_root(&self, spaces: ProcessSpaces) -> Result<Standing, Halt> {
        let root = &self.directories()?.root;
        if self.covers.is_moved(root.place.mount) {
            return Ok(root.copy()?);
        }
        match space_root(self.world, spaces.mount) {
            Some(place) => Ok(Standing::at(self.alloc, place)),
            None => Err(Halt::Told(Told::Gone)),
        }
    }

    /// What a path leads to that strace tells of a descriptor: one without links, from the root of the namespace.
    pub fn told(&self, path: &[u8]) -> Result<Standing, Halt> {
        let mut here = self.told_root(self.processes.spaces(self.number))?;
        for bytes in Pieces::new(b'/', path) {
            if !bytes.is_empty() {
                let name = self.name(bytes)?;
                here = self.topped(child_standing(self.world, &here, &name)?);
            }
        }
        Ok(here)
    }

    /// The path of a standing as strace tells it. `None` if its mount was taken away.
    pub fn path_told(&self, standing: &Standing) -> Result<Option<Vec<u8>>, Halt> {
        let Some((_space, names)) = names_to(self.world, standing)? else {
            return Ok(None);
        };
        let root = &self.directories()?.root;
        if !self.covers.is_moved(root.place.mount) {
            return Ok(Some(Vec::from_slice(self.alloc, names.text())?));
        }
        let Some((_space, above)) = names_to(self.world, root)? else {
            return Ok(Some(Vec::from_slice(self.alloc, names.text())?));
        };
        let text = without_front(names.text(), above.text());
        Ok(Some(Vec::from_slice(self.alloc, text)?))
    }

    /// What a name of the directory of a proc filesystem leads to, if it is no directory of it and no link by text.
    fn magic(&self, standing: &Standing, name: &Name) -> Result<Option<Reached>, Halt> {
        let Some(inside) = names_inside(self.world, standing)? else {
            return Ok(None);
        };
        let mut text = Vec::from_slice(self.alloc, inside.text())?;
        text.push(b'/')?;
        text.extend_from_slice(name.bytes())?;
        let Some((number, file)) = magic_file(self.processes, self.number, &text) else {
            return Ok(None);
        };
        self.magic_reached(number, file)
    }

    /// What such a file of a process leads to.
    fn magic_reached(&self, number: u64, file: MagicFile) -> Result<Option<Reached>, Halt> {
        let Some(process) = self.processes.process(number) else {
            return Ok(None);
        };
        match file {
            MagicFile::Descriptor(n) => {
                match self.processes.opened(number, n) {
                    Some(opened) => Ok(Some(opened.reached.copy()?)),
                    None => Err(Halt::Told(Told::DescriptorUnknown)),
                }
            }
            MagicFile::Program => match &process.program {
                Some(reached) => Ok(Some(reached.copy()?)),
                None => Err(Halt::Told(Told::ProgramUnknown)),
            },
            MagicFile::Root => match self.processes.directories(number) {
                Some(directories) => Ok(Some(Reached::Standing(directories.root.copy()?))),
                None => Ok(None),
            },
            MagicFile::Current => match self.processes.directories(number) {
                Some(directories) => Ok(Some(Reached::Standing(directories.current.copy()?))),
                None => Ok(None),
            },
            MagicFile::Space(kind) => Ok(Some(Reached::Space(kind, process.spaces.of_kind(kind)))),
        }
    }
}

/// The text of a path without that of a directory above it, if that is one.
fn without_front<'t>(text: &'t [u8], front: &[u8]) -> &'t [u8] {
    match text.strip_prefix(front) {
        Some(behind) if behind.is_empty() || behind.starts_with(b"/") => behind,
        _ => text,
    }
}
