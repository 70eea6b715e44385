//! Where a mount made at a path comes, by the rows of several tables alone, and why it comes nowhere else.
//!
//! - [`text`] and [`path`] are the bytes and names of rows, [`row`] has what a table tells of one mount, and [`rows`] those of all
//!   tables that were read, by rising ID.
//! - [`upward`] goes from groups to their masters and from mounts to those that they stand on, [`walking`] from a root mount down
//!   a path.
//! - [`reached`] finds which mounts get what happens at a place and show its directory, [`missing`] where rows do not tell that, [`reason`] why another one does not, and
//!   [`origin`] what ties mounts together; [`sight`] finds whether a path leads to a new mount and to its copies.
//! - [`refusals`] names the mounts for which a command is refused.
//!
//! [`laws`] has what is true of these answers about the rows of a world.
#![tactic(auto)]

pub mod laws;
mod masters;
pub mod missing;
pub mod origin;
pub mod path;
pub mod reached;
pub mod reason;
pub mod refusals;
pub mod row;
pub mod rows;
pub mod sight;
pub mod text;
mod upward;
pub mod walking;

pub use mt_skel::fault;
