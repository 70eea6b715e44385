//! Why a call of a client did not end with an answer.
ghost use Rattle.std.specs.Prelude.{◌≡◌};
ghost use Rattle.mt_client.specs.declared.fault.ClientFault.TheVariants.{NoMemory};

use std::alloc::{AllocError, AllocFailed};

/// Why a call did not end with an answer.
#[derive(Clone, Copy, Debug, PartialEq, Eq)]
pub enum ClientFault {
    /// The connection failed or ended early, or what came over it is no answer to the request.
    Connection,
    /// What was to be printed did not go out.
    Output,
    /// A growth was refused for want of memory.
    NoMemory,
}

impl From<AllocError> for ClientFault {
    ghost from_gives = { λ _ fault. fault ≡ NoMemory };

    fn from(_error: AllocError) -> ClientFault {
        ClientFault::NoMemory
    }
}

impl<T: Drop> From<AllocFailed<T>> for ClientFault {
    ghost from_gives = { λ _ fault. fault ≡ NoMemory };

    fn from(_error: AllocFailed<T>) -> ClientFault {
        ClientFault::NoMemory
    }
}
