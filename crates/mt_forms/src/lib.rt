//! Lines of mount(8), umount(8), unshare(1), nsenter(1) and pivot_root(8), as people write them, and what they ask for.
//!
//! [`line::read_line`] makes a [`operation::Operation`] of the words of a line, or says which [`slip::Slip`] is in it, and
//! [`script::session_lines`] writes what it asks for as lines of a session. [`split::split_line`] makes words of a text, as a
//! shell does.
//!
//! The words after a program are read by its table of options ([`table`]), one after another ([`reading`]), into what is
//! given ([`given`]); the list of `-o` has a table of its own ([`listed`]), and so have first words ([`command`]).
//! [`attribute`] has what is said of attributes, and [`setting`] what a line does to those of a mount. [`nearest`] finds the
//! word that was meant.
#![tactic(auto)]

pub mod attribute;
pub mod command;
mod given;
pub mod line;
mod listed;
pub mod nearest;
pub mod operation;
mod operations;
mod reading;
pub mod script;
pub mod setting;
pub mod slip;
pub mod split;
mod table;
pub mod word;
