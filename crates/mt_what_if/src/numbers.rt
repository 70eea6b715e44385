//! Numbers of mounts and peer groups, as they are told.
ghost use Rattle.std.specs.Prelude.{◌≡◌, ◌++◌, false, OnOk};
ghost use Rattle.mt_what_if.specs.Numbers.{new_word, number_word, mount_word, group_word};

use mt_info::print::push_number;
use mt_mounts::mount::MountId;
use mt_peers::state::GroupId;
use std::alloc::AllocError;

/// Up to which numbers mounts and peer groups are those of tables, and how later ones are told.
#[derive(Clone, Copy, PartialEq, Eq, Debug)]
pub struct Numbers {
    /// The greatest number of a mount that was there before.
    pub mounts: MountId,
    /// The greatest number of a peer group that was there before.
    pub groups: GroupId,
    /// Whether new ones are told apart: `new:1`, `new:2` and so on, in the order in which they are made, or all of them `new`.
    pub counted: bool,
}

/// Appends a new number, by its place among the new ones.
fn push_new(text: &mut Vec<u8>, counted: bool, place: u64) -> Result<(), AllocError>
    ensures { OnOk result (text.new.items ≡ text.old.items ++ new_word counted place) }
{
    if counted {
        text.extend_from_slice(b"new:")?;
        push_number(text, place)?;
    } else {
        text.extend_from_slice(b"new")?;
    }
    Ok(())
}

/// Appends a number, which is new above the last one of those before.
pub(crate) fn push_numbered(
    text: &mut Vec<u8>,
    counted: bool,
    last: u64,
    number: u64,
) -> Result<(), AllocError>
    ensures { OnOk result (text.new.items ≡ text.old.items ++ number_word counted last number) }
{
    if number <= last {
        push_number(text, number)?;
    } else {
        push_new(text, counted, number - last)?;
    }
    Ok(())
}

impl Numbers {
    /// The same, where new numbers are not told apart.
    pub(crate) fn uncounted(self) -> Numbers
        ensures { result ≡ record self { counted = false } }
    {
        Numbers {
            counted: false,
            ..self
        }
    }

    /// Appends the number of a mount.
    pub(crate) fn push_mount(self, text: &mut Vec<u8>, id: MountId) -> Result<(), AllocError>
        ensures { OnOk result (text.new.items ≡ text.old.items ++ mount_word self id) }
    {
        push_numbered(text, self.counted, self.mounts, id)
    }

    /// Appends the number of a peer group.
    pub(crate) fn push_group(self, text: &mut Vec<u8>, group: GroupId) -> Result<(), AllocError>
        ensures { OnOk result (text.new.items ≡ text.old.items ++ group_word self group) }
    {
        push_numbered(text, self.counted, self.groups, group)
    }
}
