//! What sessions do to a desk, and who did it. No value of these is made.
use mt_book::command::Command;

/// What changes what every session finds.
#[derive(Drop)]
pub enum Act {
    /// A command that was accepted.
    Apply(Command),
    /// A stop.
    Stop,
}

/// An act, and the number of its session.
#[derive(Drop)]
pub struct LogEntry {
    pub by: u64,
    pub act: Act,
}
