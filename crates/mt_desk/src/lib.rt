//! The book, and the queues of its watchers, under one lock.
//!
//! A command's posts are sent before its answer; each watcher takes its own from its own queue, without the lock.
//! What the calls of a desk do is what a floor does (`mt_floor`), with each watcher's takes placed as late as they can
//! be (`specs/Late.antt`).
//!
//! [`desk`] has the calls, [`lines`] the queues, made before the name that ties them to one desk, and [`watcher`]
//! the half that a session owns. Inside, [`board`] has a desk without the history of who did what, [`places`] what
//! stands at each line, [`row`] what is kept of one watcher, and [`due`] which posts go to which rows. [`laws`] has what is
//! true of every list of calls.
//!
//! The [`history`] is one log of each [`act`] of each session, under the rule of [`history_rule`]; it has no bytes.
#![tactic(auto)]

pub mod act;
mod board;
pub mod desk;
mod due;
pub mod history;
mod history_rule;
pub mod laws;
pub mod lines;
mod places;
mod row;
pub mod watcher;
