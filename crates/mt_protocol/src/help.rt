//! The lines of a session in words, for the helps of programs.

use crate::line_table::Entry;
use crate::verb::VERBS;
use std::alloc::{AllocError, Global};

/// The longest usage that has its sentence beside it.
const LONGEST_USAGE: usize = 23;

/// Appends a line and what it does: beside its usage, or below a long one. Fails for want of memory alone.
fn push_row(text: &mut String, row: &Entry) -> Result<(), AllocError> {
    text.push_str("  ")?;
    text.push_str(row.usage)?;
    let mut width = row.usage.len();
    if width > LONGEST_USAGE {
        text.push_str("\n  ")?;
        width = 0;
    }
    for _space in width..LONGEST_USAGE + 2 {
        text.push(' ')?;
    }
    text.push_str(row.help)?;
    text.push('\n')
}

/// All lines of a session, each with what it does, and how they are answered. The last line has no line end. Fails for want
/// of memory alone.
pub fn lines(alloc: Global) -> Result<String, AllocError> {
    let mut text = String::from_str(alloc, "Lines of a session:\n")?;
    for verb in &VERBS {
        push_row(&mut text, verb.entry())?;
    }
    text.push_str(
        "A line is answered with `ok` and what it asks for, or with `no` and the reason.",
    )?;
    Ok(text)
}
