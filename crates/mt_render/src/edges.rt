//! Names of mounts and lines of edges in a graph.
ghost use Rattle.std.specs.Prelude.{◌≡◌, ◌++◌, OnOk};
ghost use Rattle.mt_render.specs.Edges.{name, arrow};

use mt_info::print::push_number;
use mt_mounts::mount::{MountId, SpaceId};
use std::alloc::AllocError;

/// Appends the name of a mount.
pub(crate) fn push_name(text: &mut Vec<u8>, space: SpaceId, id: MountId) -> Result<(), AllocError>
    ensures { OnOk result (text.new.items ≡ text.old.items ++ name space id) }
{
    text.extend_from_slice(b"\"")?;
    push_number(text, space)?;
    text.extend_from_slice(b".")?;
    push_number(text, id)?;
    text.extend_from_slice(b"\"")?;
    Ok(())
}

/// Appends the rest of the line of an edge, behind the name where it begins.
pub(crate) fn push_arrow(
    text: &mut Vec<u8>,
    space: SpaceId,
    id: MountId,
    form: &[u8],
    colour: &[u8],
) -> Result<(), AllocError>
    ensures { OnOk result (text.new.items ≡ text.old.items ++ arrow space id form.now colour.now) }
{
    text.extend_from_slice(b" -> ")?;
    push_name(text, space, id)?;
    text.extend_from_slice(b" [")?;
    text.extend_from_slice(form)?;
    text.extend_from_slice(b", color=")?;
    text.extend_from_slice(colour)?;
    text.extend_from_slice(b"];\n")?;
    Ok(())
}
