//! Why a command is refused: a sentence that names what is in the way, the rows of those mounts, and what would change it.
//!
//! - [`hindrance`] finds the hindrance, by the rows of the tables alone, and [`witness`] the mounts that are named for it.
//! - [`missing`] is of a path that is not there, which rows do not tell.
//! - [`text`] puts all of it into lines: [`sentence`] has the first one, [`listing`] the rows, [`remedy`] what would help;
//!   [`locked`] has both of these where something is locked.
//! - [`titles`] says what namespaces, mounts and peer groups are called; a [`page`] is what is told of, and [`part`] a piece of
//!   a line.
#![tactic(auto)]

pub mod asked;
mod ending;
pub mod hindrance;
mod listing;
mod locked;
pub mod missing;
mod page;
mod part;
mod remedy;
mod sentence;
pub mod text;
pub mod titles;
mod witness;

pub use mt_skel::fault;
