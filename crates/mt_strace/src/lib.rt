//! Lines of what strace(1) writes, read.
//!
//! [`line::read_strace_line`] says what a line is: a call with its arguments and its result, the beginning or the end of one, the end
//! of a process, nothing that a table could follow from, or none of strace's, and why. A beginning and its end, one after the
//! other, are read by [`line::read_call`]. Nothing is guessed: what is not known is told.
//!
//! An argument is a part of its line. [`string`], [`descriptor`] and [`arguments`] read strings, descriptors, and the fields of
//! structures; flags stand between `|`, for [`mt_lines::words::Pieces`].
#![tactic(auto)]

pub mod arguments;
pub mod call;
mod cut;
pub mod descriptor;
pub mod excerpt;
pub mod laws;
pub mod line;
pub mod result;
mod scan;
pub mod string;
pub mod unread;
