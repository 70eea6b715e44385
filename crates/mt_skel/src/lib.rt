//! Names, directories and refusals, on which every layer of the mount server is built.
//!
//! A [`Skel`] is the directory skeleton of all filesystems. It is made once and only grows: mounts
//! never change a directory.
//!
//! [`name`] has labels and names, whose bytes lie in the value itself if they are few ([`inline`]), [`names`] has
//! paths, and [`escape`] says how all of them are written in lines. [`skel`] has the directories, which [`children`]
//! finds by their names. [`fault`] has the refusals, and [`list`] has questions about lists of numbers.
#![tactic(auto)]

mod children;
pub mod escape;
pub mod fault;
mod inline;
pub mod list;
pub mod name;
pub mod names;
pub mod skel;
