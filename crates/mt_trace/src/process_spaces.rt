//! The namespaces of a process.
ghost use Rattle.std.specs.Prelude.{◌≡◌};
ghost use Rattle.std.specs.Str.{bytes_eq};
ghost use Rattle.mt_forms.specs.Lookup.{looked_up};
ghost use Rattle.mt_trace.specs.ProcessSpaces.{kind_of_file, space_of_kind, spaces_entered, renewed, spaces_renewed, spaces_unshared, spaces_cloned};

use crate::call_flags::CloneWords;

/// A kind of namespaces, of which a process is in one (namespaces(7)).
#[derive(Clone, Copy, PartialEq, Eq, Debug)]
pub enum SpaceKind {
    /// Of mounts.
    Mount,
    /// Of users.
    User,
    /// Of processes.
    Process,
    /// Of processes, that of the children to come.
    ForChildren,
    /// Of the network.
    Network,
    /// Of System V's IPC and POSIX message queues.
    Ipc,
    /// Of control groups.
    ControlGroup,
}

/// The numbers of the namespaces of a process, each among those of its kind.
#[derive(Clone, Copy, PartialEq, Eq, Debug)]
pub struct ProcessSpaces {
    /// That of mounts.
    pub mount: u64,
    /// That of users.
    pub user: u64,
    /// That of processes.
    pub process: u64,
    /// That of processes of its next children.
    pub for_children: u64,
    /// That of the network.
    pub network: u64,
    /// That of IPC.
    pub ipc: u64,
    /// That of control groups.
    pub control_group: u64,
}

/// A kind of namespaces, and the file of `/proc/PID/ns` that names one of it.
#[derive(Clone, Copy)]
struct SpaceFile(SpaceKind, &'static [u8]);

/// All files of `/proc/PID/ns` that are followed.
const SPACE_FILES: [SpaceFile; 7] = [
    SpaceFile(SpaceKind::Mount, b"mnt"),
    SpaceFile(SpaceKind::User, b"user"),
    SpaceFile(SpaceKind::Process, b"pid"),
    SpaceFile(SpaceKind::ForChildren, b"pid_for_children"),
    SpaceFile(SpaceKind::Network, b"net"),
    SpaceFile(SpaceKind::Ipc, b"ipc"),
    SpaceFile(SpaceKind::ControlGroup, b"cgroup"),
];

/// The kind that a file names, if it is in one of these rows.
fn kind_among(name: &[u8], rows: &[SpaceFile]) -> Option<SpaceKind>
    ensures { result ≡ looked_up (λ row. bytes_eq row.1.now name.now) (λ row. row.0) rows.now }
{
    for row in rows {
        if row.1 == name {
            return Some(row.0);
        }
    }
    None
}

/// The kind of namespaces that a file of `/proc/PID/ns` names. `None` if it is another one.
#[tactic(auto, unfolding(crate::specs::ProcessSpaces::kind_of_file))]
pub fn kind_of_file(name: &[u8]) -> Option<SpaceKind>
    ensures { result ≡ kind_of_file name.now }
{
    kind_among(name, &SPACE_FILES)
}

/// A new number where a namespace is asked for.
fn renewed(is_new: bool, fresh: u64, old: u64) -> u64
    ensures { result ≡ renewed is_new fresh old }
{
    if is_new { fresh } else { old }
}

impl ProcessSpaces {
    /// The number of the namespace of a kind.
    pub fn of_kind(self, kind: SpaceKind) -> u64
        ensures { result ≡ space_of_kind kind self }
    {
        match kind {
            SpaceKind::Mount => self.mount,
            SpaceKind::User => self.user,
            SpaceKind::Process => self.process,
            SpaceKind::ForChildren => self.for_children,
            SpaceKind::Network => self.network,
            SpaceKind::Ipc => self.ipc,
            SpaceKind::ControlGroup => self.control_group,
        }
    }

    /// The same once the process has entered a namespace. One of processes is for its children alone.
    pub fn entered(self, kind: SpaceKind, number: u64) -> ProcessSpaces
        ensures { result ≡ spaces_entered kind number self }
    {
        match kind {
            SpaceKind::Mount => ProcessSpaces {
                mount: number,
                ..self
            },
            SpaceKind::User => ProcessSpaces {
                user: number,
                ..self
            },
            SpaceKind::Process => ProcessSpaces {
                for_children: number,
                ..self
            },
            SpaceKind::ForChildren => ProcessSpaces {
                for_children: number,
                ..self
            },
            SpaceKind::Network => ProcessSpaces {
                network: number,
                ..self
            },
            SpaceKind::Ipc => ProcessSpaces {
                ipc: number,
                ..self
            },
            SpaceKind::ControlGroup => ProcessSpaces {
                control_group: number,
                ..self
            },
        }
    }

    /// The same with the namespaces that a call makes, but for those of mounts and processes. Each has the number
    /// that is given, which no earlier namespace of its kind has.
    fn renewed(self, words: CloneWords, fresh: u64) -> ProcessSpaces
        ensures { result ≡ spaces_renewed words fresh self }
    {
        ProcessSpaces {
            user: renewed(words.user, fresh, self.user),
            network: renewed(words.network, fresh, self.network),
            ipc: renewed(words.ipc, fresh, self.ipc),
            control_group: renewed(words.control_group, fresh, self.control_group),
            ..self
        }
    }

    /// Those of a process that has called unshare for these, but for that of mounts. Each new one has the number that is
    /// given.
    pub fn unshared(self, words: CloneWords, fresh: u64) -> ProcessSpaces
        ensures { result ≡ spaces_unshared words fresh self }
    {
        ProcessSpaces {
            for_children: renewed(words.process, fresh, self.for_children),
            ..self.renewed(words, fresh)
        }
    }

    /// Those of a child that was made with these, but for that of mounts. Each new one has the number that is given.
    pub fn cloned(self, words: CloneWords, fresh: u64) -> ProcessSpaces
        ensures { result ≡ spaces_cloned words fresh self }
    {
        let process = renewed(words.process, fresh, self.for_children);
        ProcessSpaces {
            process,
            for_children: process,
            ..self.renewed(words, fresh)
        }
    }
}
