//! Bytes in and bytes out: streams that count their failed calls, the lines of what is read, the
//! words of a line, and a send that says how much went out.
//!
//! A session reads its lines with a [`line::LineReader`], takes a line apart with
//! [`words::words`], and writes its answers with [`stream::send`]. [`memory`] has streams over
//! bytes in memory, for tests.
#![tactic(auto)]

pub mod line;
pub mod memory;
pub mod stream;
pub mod words;
