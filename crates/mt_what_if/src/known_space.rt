//! A namespace, and what people call it.
ghost use Rattle.std.specs.Prelude.{◌≡◌, false, IfOk};
ghost use Rattle.mt_what_if.specs.KnownSpaces.{is_unnamed};

use mt_mounts::mount::SpaceId;
use std::alloc::{AllocError, Global};
use std::marker::Model;

/// A namespace, and what people call it.
#[derive(Drop)]
pub struct KnownSpace {
    /// Its number in the world.
    pub number: SpaceId,
    /// What people call it.
    pub name: Vec<u8>,
    /// Whether a line names it, or is of it since it names none.
    pub is_named: bool,
    /// Whether a line makes it.
    pub is_new: bool,
}

impl Model for KnownSpace {
    ghost use Rattle.mt_what_if.specs.KnownSpaces.{TitledSpace};

    ghost Value = { TitledSpace };

    ghost view = { λ s. record { number = s.number; name = s.name.items; is_named = s.is_named; is_new = s.is_new } };
}

impl KnownSpace {
    /// The namespace of a number, under a name. No line names it, and none makes it.
    pub fn new(alloc: Global, number: SpaceId, name: &[u8]) -> Result<KnownSpace, AllocError>
        ensures { IfOk result (λ space. space ≡ record { number = number; name = name.now; is_named = false; is_new = false }) }
    {
        Ok(KnownSpace {
            number,
            name: Vec::from_slice(alloc, name)?,
            is_named: false,
            is_new: false,
        })
    }

    /// The same again.
    pub(crate) fn copy(&self) -> Result<KnownSpace, AllocError>
        ensures { IfOk result (λ space. space ≡ self.now) }
    {
        Ok(KnownSpace {
            number: self.number,
            name: self.name.clone()?,
            is_named: self.is_named,
            is_new: self.is_new,
        })
    }

    /// Whether it was there before, and no line names it.
    pub(crate) fn is_unnamed(&self) -> bool
        ensures { result ≡ is_unnamed self.now }
    {
        !self.is_named && !self.is_new
    }
}
