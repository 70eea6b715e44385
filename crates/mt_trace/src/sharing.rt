//! What several processes may share (clone(2)).

use std::alloc::AllocError;
use std::collections::BTreeMap;

/// What several processes may share, and how many do.
#[derive(Drop)]
pub(crate) struct Shared<T> {
    /// How many do.
    pub(crate) users: u64,
    /// What they share.
    pub(crate) value: T,
}

/// Lets one user less share something, and answers it if none is left.
pub(crate) fn release<T: Drop>(all: &mut BTreeMap<u64, Shared<T>>, number: u64) -> Option<T> {
    let shared = all.get_mut(&number)?;
    shared.users = shared.users.saturating_sub(1);
    if shared.users > 0 {
        return None;
    }
    let Shared {
        users: _users,
        value,
    } = all.remove(&number)?;
    Some(value)
}

/// Lets one user more share something.
pub(crate) fn join<T: Drop>(all: &mut BTreeMap<u64, Shared<T>>, number: u64) {
    if let Some(shared) = all.get_mut(&number) {
        shared.users = shared.users.saturating_add(1);
    }
}

/// Enters something that one process uses.
pub(crate) fn enter<T: Drop>(
    all: &mut BTreeMap<u64, Shared<T>>,
    number: u64,
    value: T,
) -> Result<(), AllocError> {
    let _was = all.insert(number, Shared { users: 1, value })?;
    Ok(())
}
