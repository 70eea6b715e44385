//! New namespaces and their end, and the commands that put mounts where none stood: mount, bind, rbind, move and pivot, and
//! those that make and attach detached trees.
//!
//! [`mounting`], [`binding`] and [`moving`] have the commands that put mounts in place; [`members`] finds which mounts
//! of a tree a recursive bind copies. [`pivoting`] gives a namespace another root mount. [`spaces`] makes namespaces,
//! [`copying`] copies them, [`dropping`] ends them. [`opening`] makes detached trees, and [`attaching`] puts them in place. [`laws`] has what all of these keep.
#![tactic(auto)]

pub mod attaching;
pub mod binding;
pub mod copying;
pub mod dropping;
pub mod laws;
mod members;
pub mod mounting;
pub mod moving;
pub mod opening;
pub mod pivoting;
pub mod spaces;
