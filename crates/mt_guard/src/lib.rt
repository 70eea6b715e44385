//! What locks refuse, and what comes locked (mount_namespaces(7), restrictions on mount namespaces).
//!
//! A command that locks may refuse, or that changes what is locked, has a call here, which is made before the command is done:
//! it refuses what comes first of the refusals of names and paths and of those of locks, or answers what will be locked.
//! [`relock`](relocking::relock) then puts that into the world that the command led to.
//!
//! [`placing`] has the commands by which mounts come to a place, [`leaving`] those by which they go, [`standing`] those that
//! change mounts where they are, and [`copying`] those that make namespaces of copies. [`refusing`] has what they refuse,
//! [`coming`] what comes locked.
#![tactic(auto)]

mod coming;
pub mod copying;
pub mod leaving;
pub mod placing;
mod refusing;
pub mod relocking;
pub mod standing;
