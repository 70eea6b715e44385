//! Where a process stands, or what a descriptor leads to.
ghost use Rattle.std.specs.Prelude.{◌≡◌, ◌==◌, length, IfOk, IsOkUnless};
ghost use Rattle.mt_trace.specs.Standings.{spot_at, spot_eq};

use crate::process_spaces::SpaceKind;
use mt_mounts::mount::{MountId, Place};
use mt_skel::fault::Fault;
use mt_skel::names::Names;
use std::alloc::{AllocError, Global};

/// A directory or a file of a mount: a directory that is there, and the names below it of those that are not made yet.
///
/// It stays where it is when mounts come and go. Files are directories, as in an import.
#[derive(Drop)]
pub struct Standing {
    /// The lowest directory that was there when the spot was found.
    pub place: Place,
    /// The names from there down.
    pub below: Names,
}

impl Standing {
    /// A directory that is there.
    pub fn at(alloc: Global, place: Place) -> Standing
        ensures { result ≡ spot_at place }
    {
        Standing {
            place,
            below: Names::root(alloc),
        }
    }

    /// The same again. Refused as `NoMemory` alone.
    pub fn copy(&self) -> Result<Standing, Fault>
        ensures copy { IfOk result (λ copy. copy ≡ self.now) }
        ensures memory { IsOkUnless result Fault.NoMemory }
    {
        Ok(Standing {
            place: self.place,
            below: self.below.copy()?,
        })
    }

    /// Whether its directory is there.
    #[tactic(auto, using(crate::proofs::SpotLaws::empty_text))]
    pub fn is_made(&self) -> bool
        ensures { result ≡ (length self.now.below == 0) }
    {
        self.below.text().is_empty()
    }

    /// Whether another one was found at the same place, with the same names below it.
    pub fn is_same(&self, other: &Standing) -> bool
        ensures { result ≡ spot_eq self.now other.now }
    {
        self.place == other.place && self.below.is_same(&other.below)
    }
}

/// What fsopen(2) has begun: a filesystem that is not mounted yet.
#[derive(Drop)]
pub struct Context {
    /// Its type.
    pub kind: Vec<u8>,
    /// Its source.
    pub source: Vec<u8>,
    /// Its options, each behind a comma.
    pub options: Vec<u8>,
}

impl Context {
    /// The same again.
    pub fn copy(&self) -> Result<Context, AllocError> {
        Ok(Context {
            kind: self.kind.clone()?,
            source: self.source.clone()?,
            options: self.options.clone()?,
        })
    }
}

/// What a path leads to, or a descriptor.
#[derive(Drop)]
pub enum Reached {
    /// A directory or a file.
    Standing(Standing),
    /// A file of `/proc/PID/ns`: the kind of the namespace, and its number.
    Space(SpaceKind, u64),
    /// A filesystem that fsopen(2) has begun.
    Context(Context),
}

impl Reached {
    /// The same again. Refused as `NoMemory` alone.
    pub fn copy(&self) -> Result<Reached, Fault> {
        match self {
            Reached::Standing(standing) => Ok(Reached::Standing(standing.copy()?)),
            Reached::Space(kind, number) => Ok(Reached::Space(*kind, *number)),
            Reached::Context(context) => Ok(Reached::Context(context.copy()?)),
        }
    }

    /// Whether it is a directory or a file of a mount.
    pub fn is_standing(&self) -> bool {
        match self {
            Reached::Standing(_standing) => true,
            Reached::Space(_, _) | Reached::Context(_) => false,
        }
    }

    /// Whether it is the file of this namespace.
    pub fn is_space(&self, kind: SpaceKind, number: u64) -> bool {
        match self {
            Reached::Space(own, n) => *own == kind && *n == number,
            Reached::Standing(_) | Reached::Context(_) => false,
        }
    }

    /// Whether it is a directory or a file of one of these mounts.
    pub fn is_on(&self, mounts: &[MountId]) -> bool {
        match self {
            Reached::Standing(standing) => mounts.contains(&standing.place.mount),
            Reached::Space(_, _) | Reached::Context(_) => false,
        }
    }
}
