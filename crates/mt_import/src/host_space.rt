//! What is told of a mount namespace of a host.

use crate::host_mount::HostMount;
use std::marker::Model;

/// A mount namespace: its mounts, and whether it is foreign.
#[derive(Drop)]
pub struct HostSpace {
    /// What the lines of its mountinfo tell (proc_pid_mountinfo(5)), in their order.
    pub rows: Vec<HostMount>,
    /// Whether it is foreign: its user namespace is another one than that of the first namespace (user_namespaces(7)).
    pub is_foreign: bool,
}

impl Model for HostSpace {
    ghost use Rattle.mt_import.specs.Reading.{ToldSpace};

    ghost Value = { ToldSpace };

    ghost view = { λ s. record { rows = s.rows.items; is_foreign = s.is_foreign } };
}
