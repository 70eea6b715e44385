//! Pages of help, and why a line of a session is bad, in words.
//!
//! - [`page`] is the text of a page: how something is written, what it does, how it is answered, an example, and its refusals.
//! - [`lines`] has that of each line of a session, by the table of lines (mt_protocol), with what its [`refusals`] say.
//! - [`laws`] says that the examples are lines.
//! - [`finding`] finds the [`reason`] why a line is bad, by the table of lines and as a line is read (mt_requests); [`options`]
//!   looks at those of a `setattr` line, [`nearest`] finds the word that was meant, and [`usage`] is how the line is written.
#![tactic(auto)]

pub mod finding;
pub mod laws;
pub mod lines;
pub mod nearest;
pub mod options;
pub mod page;
pub mod reason;
pub mod refusals;
pub mod usage;
