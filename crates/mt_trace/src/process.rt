//! A process, and where it stands.

use crate::process_spaces::ProcessSpaces;
use crate::standing::{Reached, Standing};
use mt_mounts::mount::Place;
use mt_skel::fault::Fault;
use std::alloc::Global;

/// The root and the current directory of a process, or of several that share them.
#[derive(Drop)]
pub struct Directories {
    /// The root.
    pub root: Standing,
    /// The current directory.
    pub current: Standing,
    /// Whether the current directory is known: that of a process which was there before strace is not.
    pub is_known: bool,
}

impl Directories {
    /// The same again. Refused as `NoMemory` alone.
    pub fn copy(&self) -> Result<Directories, Fault> {
        Ok(Directories {
            root: self.root.copy()?,
            current: self.current.copy()?,
            is_known: self.is_known,
        })
    }

    /// Where they are this root, they become another place.
    pub fn move_root(&mut self, alloc: Global, root: &Standing, to: Place) {
        if self.root.is_same(root) {
            self.root = Standing::at(alloc, to);
        }
        if self.current.is_same(root) {
            self.current = Standing::at(alloc, to);
        }
    }
}

/// A process.
#[derive(Drop)]
pub struct Process {
    /// Its namespaces.
    pub spaces: ProcessSpaces,
    /// The number of its root and current directory.
    pub directories: u64,
    /// The number of its open descriptors.
    pub files: u64,
    /// Its program, if it is known.
    pub program: Option<Reached>,
}

impl Process {
    /// The same again. Refused as `NoMemory` alone.
    pub fn copy(&self) -> Result<Process, Fault> {
        let program = match &self.program {
            Some(reached) => Some(reached.copy()?),
            None => None,
        };
        Ok(Process {
            spaces: self.spaces,
            directories: self.directories,
            files: self.files,
            program,
        })
    }
}
