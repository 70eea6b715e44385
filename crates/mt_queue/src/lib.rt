//! The queue of one watcher: posts that wait to be taken, sent by one thread and taken by another, in order.
//!
//! A line is opened for a watcher, which makes its two halves: a sender and a receiver, each owned by one thread. The
//! halves meet, and in the end are put together; what is left is taken, and the line can be opened again. That all this
//! preserves the order is a rule of the queue (`specs/Rule.antt`), which each step of either thread keeps, whatever the
//! other thread does in between.
//!
//! [`line`] has lines that are not in use, [`sender`] and [`receiver`] their halves, [`meeting`] both together, and
//! [`tail`] what is left to be taken at the end. [`rule`] has the rule, and the steps that keep it.
#![tactic(auto)]

pub mod line;
pub mod meeting;
pub mod receiver;
mod rule;
pub mod sender;
pub mod tail;

pub use rule::Item;
