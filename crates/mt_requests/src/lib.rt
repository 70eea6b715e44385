//! Requests, as the lines of a session say them.
//!
//! [`request::read_request`] makes a [`request::Request`] of a line, or says why there is none: the table of lines
//! (mt_protocol) says what each word behind the verb is, and [`arguments`] whether it can stand there.
//!
//! Labels and paths are read by [`label`] and [`path`], and the options of a `setattr` line by [`options`]. [`print`] makes lines
//! of commands. [`laws`] has what is true of all lines.
#![tactic(auto)]

pub mod arguments;
mod label;
pub mod laws;
mod listing;
pub mod options;
mod path;
pub mod print;
pub mod request;
