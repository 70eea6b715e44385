//! The room of a server: by what its limits of filesystems, directories, namespaces and mounts are multiplied.

use mt_book::command::Command;
use mt_desk::desk::Desk;
use mt_desk::lines::{Host, Naming};
use mt_session::floor::Floor;
use mt_skel::fault::Fault;
use std::sync::Wait;

/// The room that a world has from its beginning.
pub(crate) const FIRST_ROOM: usize = 1;

/// Gives a floor on which nothing was done another room, 1 to 256, as its first command; none is done where it has this
/// room. Refused as `NoMemory`, and as `TooMany` where there is no such room.
pub(crate) fn give_floor_room(floor: &mut Floor, room: usize) -> Result<(), Fault> {
    if room == FIRST_ROOM {
        return Ok(());
    }
    floor.apply(&Command::Room { room })?;
    Ok(())
}

/// Gives a desk with nothing done another room, 1 to 256, as its first command, which is done by nobody who has a session;
/// none is done where it has this room. Refused as `NoMemory`, and as `TooMany` where there is no such room.
pub(crate) fn give_desk_room<J: Naming, R: Wait>(
    rt: &R,
    desk: &mut Desk<J>,
    host: &Host<J>,
    room: usize,
) -> Result<(), Fault> {
    if room == FIRST_ROOM {
        return Ok(());
    }
    let mut witness = desk.admit(host);
    desk.apply(rt, &mut witness, &Command::Room { room })?;
    Ok(())
}
