//! Commands, watchers and their posts in one order, to which all schedules of sessions come down.
//!
//! [`floor`] has the calls, and [`event`] what can happen and what is answered. [`watch`] has what is told of a
//! watcher, and [`finding`] what the book shows to one that begins. Inside, [`row`] and [`rows`] have what is kept
//! of watchers, and [`due`] the posts that are due to them. [`laws`] has what is true of every list of events.
#![tactic(auto)]

mod due;
pub mod event;
pub mod finding;
pub mod floor;
pub mod laws;
mod row;
mod rows;
pub mod watch;

pub use mt_events::opening::{Opening, Part, Parts, Scope};
