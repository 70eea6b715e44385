//! What the descriptors of a process lead to.
ghost use Rattle.std.specs.Prelude.{◌≡◌, [], None, OnOk};
ghost use Rattle.std.specs.BTreeMap.{insert_entry};
ghost use Rattle.std.specs.Option.{option_copied};
ghost use Rattle.std.specs.Ordering.{nat_cmp};
ghost use Rattle.mt_trace.specs.OpenFiles.{opened_at, without_descriptor, closed_between, executed};

use crate::process_spaces::SpaceKind;
use crate::standing::Reached;
use mt_mounts::mount::MountId;
use mt_skel::fault::Fault;
use std::alloc::{AllocError, Global};
use std::collections::BTreeMap;
use std::marker::Model;

/// What a descriptor leads to.
#[derive(Drop)]
pub struct Opened {
    /// What it leads to.
    pub reached: Reached,
    /// Whether it is closed when another program is run.
    pub closes_on_exec: bool,
}

/// The open descriptors of a process, or of several that share them, as far as it is known what they lead to.
#[derive(Drop)]
pub struct OpenFiles {
    open: BTreeMap<u64, Opened>,
}

impl Model for OpenFiles {
    ghost use Rattle.mt_trace.specs.OpenFiles.{Files};

    ghost Value = { Files };

    ghost view = { λ f. f.open.entries };
}

impl OpenFiles {
    /// No descriptors.
    pub fn new(alloc: Global) -> OpenFiles
        ensures { result ≡ [] }
    {
        OpenFiles {
            open: BTreeMap::new(alloc),
        }
    }

    /// How many there are.
    pub fn len(&self) -> usize {
        self.open.len()
    }

    /// The same again. Refused as `NoMemory` alone.
    pub fn copy(&self, alloc: Global) -> Result<OpenFiles, Fault> {
        let mut open = BTreeMap::new(alloc);
        for (number, opened) in self.open.iter() {
            let copy = Opened {
                reached: opened.reached.copy()?,
                closes_on_exec: opened.closes_on_exec,
            };
            let _was = open.insert(*number, copy)?;
        }
        Ok(OpenFiles { open })
    }

    /// What a descriptor leads to. `None` if it is closed, or that is not known.
    pub fn opened(&self, n: u64) -> Option<&Opened>
        ensures { option_copied result ≡ opened_at n self.now }
    {
        self.open.get(&n)
    }

    /// Opens a descriptor, whatever it was before.
    pub fn open(&mut self, n: u64, opened: Opened) -> Result<(), AllocError>
        ensures { OnOk result (self.new ≡ insert_entry nat_cmp self.old n opened) }
    {
        let _was = self.open.insert(n, opened)?;
        Ok(())
    }

    /// Closes a descriptor, if it is open.
    pub fn close(&mut self, n: u64)
        ensures files { self.new ≡ without_descriptor n self.old }
        ensures gone { opened_at n self.new ≡ None }
    {
        let _was = self.open.remove(&n);
    }

    /// Closes all descriptors from one to another, both among them.
    pub fn close_between(&mut self, first: u64, last: u64)
        ensures { self.new ≡ closed_between first last self.old }
    {
        self.open.retain(|n, _opened| !(first <= *n && *n <= last));
    }

    /// Closes those that are closed when another program is run.
    pub fn execute(&mut self)
        ensures { self.new ≡ executed self.old }
    {
        self.open.retain(|_n, opened| !opened.closes_on_exec);
    }

    /// Says of the descriptors from one to another that they are closed when another program is run, or are not.
    pub fn set_closing(&mut self, first: u64, last: u64, closes: bool) {
        for (number, opened) in self.open.iter_mut() {
            if first <= *number && *number <= last {
                opened.closes_on_exec = closes;
            }
        }
    }

    /// Whether one of them leads to the file of this namespace.
    pub fn lead_to_space(&self, kind: SpaceKind, number: u64) -> bool {
        self.open
            .values()
            .any(|opened| opened.reached.is_space(kind, number))
    }

    /// Whether one of them leads to one of these mounts.
    pub fn lead_to_mount(&self, mounts: &[MountId]) -> bool {
        self.open
            .values()
            .any(|opened| opened.reached.is_on(mounts))
    }
}
