//! The processes that a trace follows: where they stand, and what they have open.

use crate::call_flags::CloneWords;
use crate::inner_numbers::InnerNumbers;
use crate::open_files::{OpenFiles, Opened};
use crate::process::{Directories, Process};
use crate::process_spaces::{ProcessSpaces, SpaceKind};
use crate::sharing::{Shared, enter, join, release};
use crate::standing::{Reached, Standing};
use crate::told::{Halt, Told};
use mt_mounts::mount::{MountId, Place, SpaceId};
use std::alloc::{AllocError, Global};
use std::collections::BTreeMap;

/// The most processes at once, by this project's rule.
const MOST_PROCESSES: usize = 65_536;

/// The most open descriptors at once, by this project's rule.
const MOST_DESCRIPTORS: usize = 1_048_576;

/// The processes, by the numbers that strace has for them.
///
/// What processes may share has numbers of its own: the root and the current directory, and the open descriptors.
#[derive(Drop)]
pub struct Processes {
    alloc: Global,
    processes: BTreeMap<u64, Process>,
    directories: BTreeMap<u64, Shared<Directories>>,
    files: BTreeMap<u64, Shared<OpenFiles>>,
    inner: InnerNumbers,
    descriptors: usize,
    fresh: u64,
}

/// The namespaces of a process of which nothing is known: those of the first table.
fn first_spaces() -> ProcessSpaces {
    ProcessSpaces {
        mount: 1,
        user: 0,
        process: 0,
        for_children: 0,
        network: 0,
        ipc: 0,
        control_group: 0,
    }
}

impl Processes {
    /// None.
    pub fn new(alloc: Global) -> Processes {
        Processes {
            alloc,
            processes: BTreeMap::new(alloc),
            directories: BTreeMap::new(alloc),
            files: BTreeMap::new(alloc),
            inner: InnerNumbers::new(alloc),
            descriptors: 0,
            fresh: 1,
        }
    }

    /// A number that nothing has yet: no namespace but one of mounts, and nothing that processes share.
    pub fn take_number(&mut self) -> u64 {
        let number = self.fresh;
        self.fresh = self.fresh.saturating_add(1);
        number
    }

    /// Whether there is a process of this number.
    pub fn has(&self, number: u64) -> bool {
        self.processes.contains_key(&number)
    }

    /// The process of a number.
    pub fn process(&self, number: u64) -> Option<&Process> {
        self.processes.get(&number)
    }

    /// The namespaces of a process.
    pub fn spaces(&self, number: u64) -> ProcessSpaces {
        match self.processes.get(&number) {
            Some(process) => process.spaces,
            None => first_spaces(),
        }
    }

    /// Says of which namespaces a process is.
    pub fn set_spaces(&mut self, number: u64, spaces: ProcessSpaces) {
        if let Some(process) = self.processes.get_mut(&number) {
            process.spaces = spaces;
        }
    }

    /// Where a process stands.
    pub fn directories(&self, number: u64) -> Option<&Directories> {
        let process = self.processes.get(&number)?;
        let shared = self.directories.get(&process.directories)?;
        Some(&shared.value)
    }

    /// Says what the current directory of a process is, and of all that share it.
    pub fn set_current(&mut self, number: u64, current: Standing) {
        if let Some(process) = self.processes.get(&number) {
            if let Some(shared) = self.directories.get_mut(&process.directories) {
                shared.value.current = current;
                shared.value.is_known = true;
            }
        }
    }

    /// Says what the root of a process is, and of all that share it.
    pub fn set_root(&mut self, number: u64, root: Standing) {
        if let Some(process) = self.processes.get(&number) {
            if let Some(shared) = self.directories.get_mut(&process.directories) {
                shared.value.root = root;
            }
        }
    }

    /// All roots and current directories that are this one become another place.
    pub fn move_roots(&mut self, root: &Standing, to: Place) {
        for shared in self.directories.values_mut() {
            shared.value.move_root(self.alloc, root, to);
        }
    }

    /// What a process has open.
    pub fn files(&self, number: u64) -> Option<&OpenFiles> {
        let process = self.processes.get(&number)?;
        let shared = self.files.get(&process.files)?;
        Some(&shared.value)
    }

    /// What a descriptor of a process leads to. `None` if it is closed, or that is not known.
    pub fn opened(&self, number: u64, descriptor: u64) -> Option<&Opened> {
        self.files(number)?.opened(descriptor)
    }

    /// What a process has open, to be changed for all that share it.
    fn files_mut(&mut self, number: u64) -> Option<&mut OpenFiles> {
        let process = self.processes.get(&number)?;
        let shared = self.files.get_mut(&process.files)?;
        Some(&mut shared.value)
    }

    /// Counts the descriptors of a process anew, of which there were so many.
    fn recount(&mut self, number: u64, before: usize) {
        let after = match self.files(number) {
            Some(files) => files.len(),
            None => 0,
        };
        self.descriptors = self
            .descriptors
            .saturating_sub(before)
            .saturating_add(after);
    }

    /// How many descriptors a process has.
    fn count(&self, number: u64) -> usize {
        match self.files(number) {
            Some(files) => files.len(),
            None => 0,
        }
    }

    /// Enters a process of which nothing is known: it stands at this root.
    pub fn meet(&mut self, number: u64, root: Standing) -> Result<(), Halt> {
        if self.processes.len() >= MOST_PROCESSES {
            return Err(Halt::Told(Told::NoRoom));
        }
        let shared = self.take_number();
        let current = root.copy()?;
        let directories = Directories {
            root,
            current,
            is_known: false,
        };
        enter(&mut self.directories, shared, directories)?;
        enter(&mut self.files, shared, OpenFiles::new(self.alloc))?;
        let process = Process {
            spaces: first_spaces(),
            directories: shared,
            files: shared,
            program: None,
        };
        let _was = self.processes.insert(number, process)?;
        Ok(())
    }

    /// Opens a descriptor of a process. Told as [`Told::NoRoom`] above 1,048,576 descriptors.
    pub fn open(&mut self, number: u64, descriptor: u64, opened: Opened) -> Result<(), Halt> {
        if self.descriptors >= MOST_DESCRIPTORS {
            return Err(Halt::Told(Told::NoRoom));
        }
        let before = self.count(number);
        if let Some(files) = self.files_mut(number) {
            files.open(descriptor, opened)?;
        }
        self.recount(number, before);
        Ok(())
    }

    /// Closes a descriptor of a process, or forgets what it leads to.
    pub fn close(&mut self, number: u64, descriptor: u64) {
        self.close_between(number, descriptor, descriptor);
    }

    /// Closes the descriptors of a process from one to another.
    pub fn close_between(&mut self, number: u64, first: u64, last: u64) {
        let before = self.count(number);
        if let Some(files) = self.files_mut(number) {
            if first == last {
                files.close(first);
            } else {
                files.close_between(first, last);
            }
        }
        self.recount(number, before);
    }

    /// Says whether descriptors of a process are closed when it runs another program.
    pub fn set_closing(&mut self, number: u64, first: u64, last: u64, closes: bool) {
        if let Some(files) = self.files_mut(number) {
            files.set_closing(first, last, closes);
        }
    }

    /// The descriptors of a process get a table of their own.
    pub fn own_files(&mut self, number: u64) -> Result<(), Halt> {
        let Some(files) = self.files(number) else {
            return Ok(());
        };
        let copy = files.copy(self.alloc)?;
        let more = copy.len();
        if self.descriptors.saturating_add(more) > MOST_DESCRIPTORS {
            return Err(Halt::Told(Told::NoRoom));
        }
        let fresh = self.take_number();
        enter(&mut self.files, fresh, copy)?;
        self.descriptors = self.descriptors.saturating_add(more);
        let was = match self.processes.get_mut(&number) {
            Some(process) => {
                let was = process.files;
                process.files = fresh;
                was
            }
            None => fresh,
        };
        self.release_files(was);
        Ok(())
    }

    /// Lets one user less share a table of descriptors.
    fn release_files(&mut self, files: u64) {
        if let Some(released) = release(&mut self.files, files) {
            self.descriptors = self.descriptors.saturating_sub(released.len());
        }
    }

    /// The root and the current directory of a process are shared with no other one from now on.
    pub fn own_directories(&mut self, number: u64) -> Result<(), Halt> {
        let Some(directories) = self.directories(number) else {
            return Ok(());
        };
        let copy = directories.copy()?;
        self.put_directories(number, copy)
    }

    /// Gives a process a root and a current directory of its own.
    pub fn put_directories(&mut self, number: u64, directories: Directories) -> Result<(), Halt> {
        let fresh = self.take_number();
        enter(&mut self.directories, fresh, directories)?;
        let was = match self.processes.get_mut(&number) {
            Some(process) => {
                let was = process.directories;
                process.directories = fresh;
                was
            }
            None => fresh,
        };
        let _released = release(&mut self.directories, was);
        Ok(())
    }

    /// A process runs another program: it has descriptors of its own, without those that are closed then (execve(2)).
    pub fn execute(&mut self, number: u64, program: Option<Reached>) -> Result<(), Halt> {
        self.own_files(number)?;
        let before = self.count(number);
        if let Some(files) = self.files_mut(number) {
            files.execute();
        }
        self.recount(number, before);
        if let Some(process) = self.processes.get_mut(&number) {
            process.program = program;
        }
        Ok(())
    }

    /// A process has a child (clone(2)): it shares what these words say, and has copies of the rest. A process that had its number
    /// has ended unseen.
    pub fn bear(&mut self, words: CloneWords, parent: u64, child: u64) -> Result<(), Halt> {
        if self.processes.len() >= MOST_PROCESSES {
            return Err(Halt::Told(Told::NoRoom));
        }
        let Some(process) = self.processes.get(&parent) else {
            return Ok(());
        };
        let mut born = process.copy()?;
        let fresh = self.take_number();
        born.spaces = born.spaces.cloned(words, fresh);
        self.end(child);
        join(&mut self.directories, born.directories);
        join(&mut self.files, born.files);
        let _was = self.processes.insert(child, born)?;
        if !words.directories {
            self.own_directories(child)?;
        }
        if !words.files {
            self.own_files(child)?;
        }
        Ok(())
    }

    /// A process has ended.
    pub fn end(&mut self, number: u64) {
        let Some(process) = self.processes.remove(&number) else {
            return;
        };
        let _released = release(&mut self.directories, process.directories);
        self.release_files(process.files);
    }

    /// A thread goes on under the number of its process (execve(2)).
    pub fn supersede(&mut self, number: u64, by: u64) -> Result<(), AllocError> {
        let Some(process) = self.processes.remove(&by) else {
            return Ok(());
        };
        self.end(number);
        let _was = self.processes.insert(number, process)?;
        Ok(())
    }

    /// Says which number a process has in a namespace of processes.
    pub fn name_inside(&mut self, space: u64, inside: u64, number: u64) -> Result<(), AllocError> {
        self.inner.note(space, inside, number)
    }

    /// The process that another one calls by a number: that of its namespace of processes, or else of strace.
    pub fn called(&self, space: u64, number: u64) -> u64 {
        self.inner.called(space, number)
    }

    /// Forgets the numbers of processes that have ended.
    pub fn forget_names(&mut self) -> Result<(), AllocError> {
        let there = self.numbers()?;
        self.inner.keep(&there);
        Ok(())
    }

    /// Whether a process is in a namespace of mounts, or has a file of it open.
    pub fn hold_space(&self, space: SpaceId) -> bool {
        self.are_in(space) || self.have_space_open(space)
    }

    /// Whether a process is in a namespace of mounts.
    fn are_in(&self, space: SpaceId) -> bool {
        self.processes
            .values()
            .any(|process| process.spaces.mount == space)
    }

    /// Whether a descriptor leads to the file of a namespace of mounts.
    fn have_space_open(&self, space: SpaceId) -> bool {
        self.files.values().any(|shared| shared.value.lead_to_space(SpaceKind::Mount, space))
    }

    /// Whether a descriptor leads to one of these mounts.
    pub fn have_mount_open(&self, mounts: &[MountId]) -> bool {
        self.files
            .values()
            .any(|shared| shared.value.lead_to_mount(mounts))
    }

    /// The numbers of the processes, rising.
    pub fn numbers(&self) -> Result<Vec<u64>, AllocError> {
        let mut numbers = Vec::new(self.alloc);
        for (number, _process) in self.processes.iter() {
            numbers.push(*number)?;
        }
        Ok(numbers)
    }
}
