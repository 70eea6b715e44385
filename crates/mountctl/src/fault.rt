//! Why a run of the program did not end with an answer, and what is said of it.

use mt_arguments::program::{OUT_OF_MEMORY, WRITE_FAULT};
use mt_client::fault::ClientFault;
use mt_lines::line::ReadFault;
use mt_skel::fault::Fault as Refusal;
use std::alloc::{AllocError, AllocFailed};

/// What is said where there is no whole answer. Behind it stand the socket's path and the reason.
pub(crate) const CONNECTION_FAULT: &str = "connection fault";

/// What is said where a watcher has lost changes. Before it stands the socket's path.
pub(crate) const LOST: &str = "changes were lost";

/// Why a task was not done to its end.
#[derive(Clone, Copy)]
pub(crate) enum Fault {
    /// The connection failed or ended early, or what came over it is no answer.
    Connection,
    /// Standard input could not be read.
    Input,
    /// What was to be printed did not go out.
    Output,
    /// A growth was refused for want of memory.
    NoMemory,
    /// The server did not tell all changes: the queue of the watcher was full when one came.
    Lost,
}

impl Fault {
    /// What is said on standard error.
    pub(crate) fn message(self) -> &'static str {
        match self {
            Fault::Connection => CONNECTION_FAULT,
            Fault::Input => "read fault",
            Fault::Output => WRITE_FAULT,
            Fault::NoMemory => OUT_OF_MEMORY,
            Fault::Lost => LOST,
        }
    }

    /// What a fault of the reader of standard input is.
    pub(crate) fn of_input(fault: ReadFault) -> Fault {
        match fault {
            ReadFault::NoMemory => Fault::NoMemory,
            ReadFault::Device | ReadFault::Interrupted | ReadFault::Endless => Fault::Input,
        }
    }

    /// What it is that a line of an answer is refused by its reader: no answer of a server, but for want of memory.
    pub(crate) fn of_line(fault: Refusal) -> Fault {
        match fault {
            Refusal::NoMemory => Fault::NoMemory,
            _ => Fault::Connection,
        }
    }
}

impl From<ClientFault> for Fault {
    fn from(fault: ClientFault) -> Fault {
        match fault {
            ClientFault::Connection => Fault::Connection,
            ClientFault::Output => Fault::Output,
            ClientFault::NoMemory => Fault::NoMemory,
        }
    }
}

impl From<AllocError> for Fault {
    fn from(_error: AllocError) -> Fault {
        Fault::NoMemory
    }
}

impl<T: Drop> From<AllocFailed<T>> for Fault {
    fn from(_error: AllocFailed<T>) -> Fault {
        Fault::NoMemory
    }
}
