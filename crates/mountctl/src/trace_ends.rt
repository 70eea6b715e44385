//! The tables at the end of a trace.

use mt_info::lines::push_table;
use mt_info::print::{push_number, push_path};
use mt_mounts::mount::SpaceId;
use mt_render::wording::push_shown;
use mt_skel::fault::Fault as Refusal;
use mt_trace::player::Player;
use mt_trace::spots::names_inside;
use mt_trace::standing::Standing;

/// The first number that is none of a namespace that a model may have.
const MOST_SPACES: u64 = 1_048_576;

/// Appends the table of a namespace, if it is there.
fn push_space(text: &mut Vec<u8>, player: &Player, space: SpaceId) -> Result<(), Refusal> {
    if player.world().forest.root(space).is_none() {
        return Ok(());
    }
    let mut line = Vec::new(*text.allocator());
    line.extend_from_slice(b"# namespace ")?;
    push_number(&mut line, space)?;
    line.extend_from_slice(b" (")?;
    line.extend_from_slice(player.spaces().name(space))?;
    line.extend_from_slice(b")")?;
    push_shown(text, &line)?;
    push_table(text, player.world(), space)
}

/// Appends where a process has its root: its namespace, and the mount and the directory of its filesystem.
fn push_process(text: &mut Vec<u8>, player: &Player, process: u64) -> Result<(), Refusal> {
    let (Some(space), Some(root)) = (player.space_of(process), player.process_root(process)) else {
        return Ok(());
    };
    text.extend_from_slice(b"# process ")?;
    push_number(text, process)?;
    text.extend_from_slice(b" in namespace ")?;
    push_number(text, space)?;
    text.extend_from_slice(b" root ")?;
    push_number(text, root.place.mount)?;
    text.extend_from_slice(b" ")?;
    push_root(text, player, root)?;
    text.extend_from_slice(b"\n")?;
    Ok(())
}

/// Appends the directory of a root in its filesystem, if its mount is there.
fn push_root(text: &mut Vec<u8>, player: &Player, root: &Standing) -> Result<(), Refusal> {
    if player.world().forest.get(root.place.mount).is_none() {
        return Ok(text.extend_from_slice(b"gone")?);
    }
    match names_inside(player.world(), root)? {
        Some(names) => Ok(push_path(text, &names)?),
        None => Ok(text.extend_from_slice(b"gone")?),
    }
}

/// Appends the tables of all namespaces, and where the processes have their roots.
pub(crate) fn push_ends(text: &mut Vec<u8>, player: &Player) -> Result<(), Refusal> {
    let last = player.world().next_space.min(MOST_SPACES);
    for space in 1..last {
        push_space(text, player, space)?;
    }
    for process in &player.processes_met()? {
        push_process(text, player, *process)?;
    }
    Ok(())
}
