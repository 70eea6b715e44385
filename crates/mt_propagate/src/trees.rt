//! The namespaces that are detached trees.
ghost use Rattle.std.specs.Prelude.{◌≡◌, ◌==◌, [], ◌∷◌, ◌++◌, length, IfOk, OnOk, OnErr, IsOkUnless};
ghost use Rattle.mt_skel.specs.Keyed.{among, without};

use mt_mounts::mount::SpaceId;
use mt_skel::fault::Fault;
use mt_skel::list::is_among;
use std::alloc::Global;
use std::marker::Model;

/// Numbers of namespaces, rising: those that are detached trees, the mounts of which are attached to no place yet
/// (open_tree(2), fsmount(2)).
pub struct Trees {
    spaces: Vec<SpaceId>,
}

impl Drop for Trees {
    fn drop(self) {
        let Trees { spaces: _spaces } = self;
    }
}

impl Model for Trees {
    ghost use Rattle.std.specs.Prelude.{ℕ, List};

    ghost Value = { List ℕ };

    ghost view = { λ t. t.spaces.items };
}

impl Trees {
    /// None. Their memory will come from `alloc`.
    pub(crate) fn new(alloc: Global) -> Self
        ensures { result ≡ [] }
    {
        Trees {
            spaces: Vec::new(alloc),
        }
    }

    /// The same ones.
    pub(crate) fn copy(&self) -> Result<Trees, Fault>
        ensures copy { IfOk result (λ trees. trees ≡ self.now) }
        ensures memory { IsOkUnless result Fault.NoMemory }
    {
        let spaces = Vec::from_slice(*self.spaces.allocator(), &self.spaces)?;
        Ok(Trees { spaces })
    }

    /// Becomes the same as others. After a refusal there may be none.
    pub(crate) fn follow(&mut self, other: &Trees) -> Result<(), Fault>
        ensures trees { OnOk result (self.new ≡ other.now) }
        ensures memory { IsOkUnless result Fault.NoMemory }
    {
        self.spaces.clear();
        self.spaces.extend_from_slice(&other.spaces)?;
        Ok(())
    }

    /// Whether there is none.
    pub(crate) fn is_empty(&self) -> bool
        ensures { result ≡ (length self.now == 0) }
    {
        self.spaces.is_empty()
    }

    /// Whether a namespace is one of them.
    pub(crate) fn has(&self, space: SpaceId) -> bool
        ensures { result ≡ among self.now space }
    {
        is_among(&self.spaces, space)
    }

    /// Adds one, which is above all that are there.
    pub(crate) fn add(&mut self, space: SpaceId) -> Result<(), Fault>
        ensures added { OnOk result (self.new ≡ self.old ++ space ∷ []) }
        ensures unchanged { OnErr result (self.new ≡ self.old) }
        ensures memory { IsOkUnless result Fault.NoMemory }
    {
        self.spaces.push(space)?;
        Ok(())
    }

    /// Takes one out. Takes no memory.
    pub(crate) fn end(&mut self, space: SpaceId)
        ensures { self.new ≡ without (λ n. n == space) self.old }
    {
        self.spaces.retain(|other| *other != space);
    }
}
