//! What a server and its clients both know of lines: the verbs that they begin with, the words behind these, the forms of
//! their answers, and the refusals.
//!
//! The first word of a line is a [`verb`]. [`verb::Verb::row`] is the table of lines, in which each has a [`line_row`]: which
//! [`argument`] each word after the verb is, which [`form`] an answer has that does not refuse, and as which [`refusal`]s one does.
//! [`refusal::refusal_row`] is the table of refusals, with the [`errno`] of Linux that stands in the place of each. The rows of
//! both stand in `line_table` and `refusal_table`. [`help`] has the lines in words, and [`laws`] what is true of all refusals.
#![tactic(auto)]

pub mod argument;
pub mod errno;
pub mod form;
pub mod help;
pub mod laws;
pub mod line_row;
mod line_table;
pub mod refusal;
mod refusal_table;
pub mod verb;
