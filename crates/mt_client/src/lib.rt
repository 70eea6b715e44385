//! What a client of the mount server does over a connection: it asks, passes answers on, follows the table of a
//! namespace, draws tables, and tells posts in words or as JSON ([`named`]).
//!
//! A request is a line ([`request`]). How many lines answer it is known by its form and by the first line of the answer
//! ([`answer`]). [`ask`] sends a request and prints its answer, [`mirror`] applies posts to the table
//! that a watcher found, [`picture`] prints a drawing of the tables that it found, and [`telling`] prints the posts that
//! it is sent. [`effects`] prints what a line changes.
#![tactic(auto)]

mod answer;
pub mod ask;
mod block;
pub mod effects;
pub mod fault;
pub mod laws;
pub mod mirror;
mod mirrors;
pub mod named;
mod opening;
mod parts;
pub mod picture;
mod posts;
pub mod relay;
pub mod request;
mod sending;
pub mod telling;
pub mod watch;
