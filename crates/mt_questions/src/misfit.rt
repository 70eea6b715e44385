//! Why the rows of tables are not put together.

use mt_mounts::mount::MountId;

/// A line of a table, both counted from 1.
#[derive(Clone, Copy)]
pub struct LineAt {
    /// The table.
    pub table: usize,
    /// Its line.
    pub line: usize,
}

/// Why the rows of tables were not put together.
#[derive(Clone, Copy)]
pub enum SeeingFault {
    /// A path of this line does not begin with a slash or has a backslash that begins no escape, or its device is not two numbers.
    Unread(LineAt),
    /// Several lines are of this mount.
    Twice(MountId),
    /// A growth was refused for want of memory.
    NoMemory,
}
