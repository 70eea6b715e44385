//! The directories in each directory, found by their names.
ghost use Rattle.std.specs.Prelude.{◌≡◌, ℕ, ◌+◌, ◌<◌, ◌==◌, ◌&&◌, List, [], cond, length, Some, OnOk, OnErr, IfOk, IsOkUnless};
ghost use Rattle.std.specs.Str.{bytes_eq};
ghost use Rattle.mt_skel.specs.Children.{child_in};

use crate::fault::Fault;
use crate::name::Name;
use crate::skel::Dir;
use indexmap::IndexMap;
use std::alloc::Global;
use std::marker::Model;

/// For each directory, from number 0 on, the numbers of the directories in it by their names.
pub(crate) struct Children {
    maps: Vec<IndexMap<Name, Dir>>,
    alloc: Global,
}

impl Drop for Children {
    fn drop(self) {
        let Children {
            maps: _maps,
            alloc: _alloc,
        } = self;
    }
}

impl Model for Children {
    ghost use Rattle.std.specs.Prelude.{ℕ, List, map};

    ghost Value = { List (List (List ℕ × ℕ)) };

    ghost view = { λ c. map (λ m. m.entries) c.maps.items };
}

impl Children {
    /// No directory.
    pub(crate) fn new(alloc: Global) -> Children
        ensures { result ≡ [] }
    {
        Children {
            maps: Vec::new(alloc),
            alloc,
        }
    }

    /// An equal table.
    pub(crate) fn copy(&self) -> Result<Children, Fault>
        ensures copy { IfOk result (λ children. children ≡ self.now) }
        ensures memory { IsOkUnless result Fault.NoMemory }
    {
        Ok(Children {
            maps: self.maps.clone()?,
            alloc: self.alloc,
        })
    }

    /// The directory of this name in a directory; `None` if there is none, or if that directory is
    /// not there.
    pub(crate) fn child(&self, dir: Dir, name: &Name) -> Option<Dir>
        ensures { result ≡ child_in self.now dir name.now }
    {
        self.maps.get(dir as usize)?.get(name).copied()
    }

    /// Adds a directory with none in it.
    pub(crate) fn push_root(&mut self) -> Result<(), Fault>
        ensures length { OnOk result (length self.new ≡ length self.old + 1) }
        ensures child { OnOk result ((d : ℕ) (other : List ℕ) → child_in self.new d other ≡ child_in self.old d other) }
        ensures memory { IsOkUnless result Fault.NoMemory }
        ensures unchanged { OnErr result (self.new ≡ self.old) }
    {
        self.maps.push(IndexMap::new(self.alloc))?;
        Ok(())
    }

    /// Adds a directory with none in it, which has this number, and this name in one that is there.
    pub(crate) fn push_child(&mut self, dir: Dir, name: Name, child: Dir) -> Result<(), Fault>
        requires { dir < length self.old }
        ensures length { OnOk result (length self.new ≡ length self.old + 1) }
        ensures child { OnOk result ((d : ℕ) (other : List ℕ) → child_in self.new d other ≡ cond ((dir == d) && bytes_eq name other) (Some child) (child_in self.old d other)) }
        ensures memory { IsOkUnless result Fault.NoMemory }
        ensures unchanged { OnErr result (self.new ≡ self.old) }
    {
        self.maps.reserve(1)?;
        self.maps[dir as usize].insert(name, child)?;
        self.maps.push(IndexMap::new(self.alloc))?;
        Ok(())
    }
}
