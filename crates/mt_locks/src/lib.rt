//! What is locked of mounts (mount_namespaces(7), restrictions on mount namespaces).
//!
//! [`mount_locks`] has what is locked of one mount, [`locks`] what is locked of all mounts, and the owners of namespaces.
#![tactic(auto)]

pub mod locks;
pub mod mount_locks;
