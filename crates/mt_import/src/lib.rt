//! The script of commands that makes the namespaces of which tables of mounts tell.
//!
//! [`read`] reads the lines of a mountinfo, each as a [`host_mount::HostMount`]; those of a namespace are a
//! [`host_space::HostSpace`]. [`import`] makes the script in three steps.
//!
//! - Each table becomes a [`tree`] of mounts, in the order in which they are made: [`mount`] finds where each one stands. A row
//!   that has no mount in it is left out for a [`reason`].
//! - [`plan`] leaves out the mounts that do not agree on their peer groups ([`groups`], [`agreement`], [`choice`]), and
//!   those for which a server has no room. [`space`] says how the others get to their places.
//! - The script tells what is left out ([`telling`]), makes filesystems and directories and stages what others are bound from
//!   ([`front`]), and makes the namespaces one after another ([`spaces`]): each mount at its [`turns`], at a place that a hook
//!   isolates where others would get it, and those at the root of the namespace by pivots ([`covers`]). A namespace of another
//!   user namespace, all mounts of which came with a copy, becomes a copy with locks ([`locking`]). The script is made twice:
//!   the first time the groups are counted to which the server gives [`numbers`].
//!
//! What is planned is made only if it is what the tables tell ([`soundness`]), and each line of a command is one that the server
//! reads; otherwise all rows are told, and nothing is made ([`unmade`]).
//!
//! A [`script::Script`] has only comments and lines that the server reads as commands.
#![tactic(auto)]

mod agreement;
mod choice;
mod covers;
mod front;
mod groups;
pub mod host_mount;
pub mod host_space;
pub mod import;
pub mod laws;
mod locking;
mod making;
mod mount;
mod numbers;
mod options;
mod path;
mod plan;
pub mod read;
mod reason;
pub mod script;
mod site;
mod soundness;
mod space;
mod spaces;
mod telling;
mod tree;
mod turns;
mod unmade;
mod writer;

pub use mt_skel::fault;
