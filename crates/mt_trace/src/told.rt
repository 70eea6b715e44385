//! Why a call is not played.

use crate::string_argument::StringFault;
use crate::unknown::Unknown;
use mt_skel::fault::Fault;
use std::alloc::{AllocError, AllocFailed};

/// Why a call is not played.
#[derive(Clone, Copy, PartialEq, Eq, Debug)]
pub enum Told {
    /// It is not known what it asks for.
    Unknown(Unknown),
    /// A path among its arguments is not known.
    PathUnknown(StringFault),
    /// A descriptor is closed, or it is not known what it leads to: strace came later.
    DescriptorUnknown,
    /// It is not known which program the process runs.
    ProgramUnknown,
    /// It is not known which namespace is meant.
    SpaceUnknown,
    /// A path has more than 40 symbolic links (path_resolution(7)).
    TooManyLinks,
    /// A name of a path is no name: it has more than 255 bytes.
    NoName,
    /// A path goes on below a file that names a namespace.
    BelowFile,
    /// What a path leads to is no directory or file of a mount.
    NoPlace,
    /// The directory is on a mount that was taken away.
    Gone,
    /// No path leads to the place.
    Covered,
    /// The two paths are of two namespaces.
    OtherSpace,
    /// Something would be mounted at the root place of a namespace.
    RootPlace,
    /// The process that calls pivot_root has another root than its namespace.
    OtherRoot,
    /// The result of the call is not known.
    NoResult,
    /// There is no more room for directories, processes or descriptors.
    NoRoom,
    /// The kernel did it, and the model refuses it.
    Refused(Fault),
}

impl Told {
    /// The same in words, to come after "not played: ".
    pub fn text(self) -> &'static str {
        match self {
            Told::Unknown(why) => why.text(),
            Told::PathUnknown(StringFault::Missing) => "a path is NULL",
            Told::PathUnknown(StringFault::Cut) => "a path is cut off: record with strace -s 4096",
            Told::PathUnknown(StringFault::Address) => "strace tells the address of a path alone",
            Told::DescriptorUnknown => "it is not known what a descriptor leads to",
            Told::ProgramUnknown => "it is not known which program the process runs",
            Told::SpaceUnknown => "a namespace that is not known",
            Told::TooManyLinks => "more than 40 symbolic links",
            Told::NoName => "a name of more than 255 bytes",
            Told::BelowFile => "a path below the file of a namespace",
            Told::NoPlace => "no directory or file of a mount",
            Told::Gone => "the directory is on a mount that was taken away",
            Told::Covered => "no path leads there: it is covered",
            Told::OtherSpace => "from one namespace to another",
            Told::RootPlace => "the root place is no destination in the model",
            Told::OtherRoot => "the root of the process is not that of its namespace",
            Told::NoResult => "its result is not known",
            Told::NoRoom => "there is no more room",
            Told::Refused(_) => "the model refuses it",
        }
    }
}

/// Why a call is not played to its end.
#[derive(Clone, Copy, PartialEq, Eq, Debug)]
pub enum Halt {
    /// It is told why.
    Told(Told),
    /// There is no memory for it.
    NoMemory,
}

impl From<Told> for Halt {
    fn from(told: Told) -> Halt {
        Halt::Told(told)
    }
}

impl From<Fault> for Halt {
    fn from(fault: Fault) -> Halt {
        match fault {
            Fault::NoMemory => Halt::NoMemory,
            other => Halt::Told(Told::Refused(other)),
        }
    }
}

impl From<AllocError> for Halt {
    fn from(_error: AllocError) -> Halt {
        Halt::NoMemory
    }
}

impl<T: Drop> From<AllocFailed<T>> for Halt {
    fn from(_error: AllocFailed<T>) -> Halt {
        Halt::NoMemory
    }
}
