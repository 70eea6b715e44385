//! What namespaces, mounts and peer groups are called.
ghost use Rattle.std.specs.Prelude.{◌≡◌, ◌++◌, OnOk};
ghost use Rattle.mt_refused.specs.Titles.{number_text, space_name, name_text, space_told};

use mt_info::print::push_number;
use mt_mounts::mount::{MountId, SpaceId};
use mt_peers::state::GroupId;
use mt_reach::text::SeenText;
use mt_skel::escape::push_escaped;
use std::alloc::AllocError;
use std::marker::Model;

/// What people call namespaces, and which mounts and groups no table has.
pub struct Titles {
    spaces: Vec<SeenText>,
    last_mount: MountId,
    last_group: GroupId,
}

impl Drop for Titles {
    fn drop(self) {
        let Titles {
            spaces: _spaces,
            last_mount: _last_mount,
            last_group: _last_group,
        } = self;
    }
}

impl Model for Titles {
    ghost use Rattle.mt_refused.specs.Titles.{TitlesView};

    ghost Value = { TitlesView };

    ghost view = { λ n. record { spaces = n.spaces.items; last_mount = n.last_mount; last_group = n.last_group } };
}

/// Appends a number, or where it is above the last one that tables have, `new:` and how far above.
fn push_numbered(text: &mut Vec<u8>, last: u64, number: u64) -> Result<(), AllocError>
    ensures { OnOk result (text.new.items ≡ text.old.items ++ number_text last number) }
{
    if number <= last {
        return push_number(text, number);
    }
    text.extend_from_slice(b"new:")?;
    push_number(text, number - last)
}

/// Appends a name in parentheses behind a space, unless it is empty.
fn push_name(text: &mut Vec<u8>, name: &[u8]) -> Result<(), AllocError>
    ensures { OnOk result (text.new.items ≡ text.old.items ++ name_text name.now) }
{
    if name.is_empty() {
        return Ok(());
    }
    text.extend_from_slice(b" (")?;
    push_escaped(text, name)?;
    text.extend_from_slice(b")")
}

impl Titles {
    /// The namespaces 1, 2 and so on have these names: one that is empty, or is not there, goes by its number alone. A mount or a
    /// peer group above the last one of the tables is new: the first of them is `new:1`.
    pub fn new(spaces: Vec<SeenText>, last_mount: MountId, last_group: GroupId) -> Titles
        ensures { result ≡ record { spaces = spaces.items; last_mount = last_mount; last_group = last_group } }
    {
        Titles {
            spaces,
            last_mount,
            last_group,
        }
    }

    /// The name of a namespace, empty where it has none.
    fn space_name(&self, space: SpaceId) -> &[u8]
        ensures { result.now ≡ space_name self.now space }
    {
        if 1 <= space && space <= self.spaces.len() as u64 {
            self.spaces[(space - 1) as usize].bytes()
        } else {
            b""
        }
    }

    /// Appends the number of a namespace, and its name.
    pub(crate) fn push_space(&self, text: &mut Vec<u8>, space: SpaceId) -> Result<(), AllocError>
        ensures { OnOk result (text.new.items ≡ text.old.items ++ space_told self.now space) }
    {
        text.extend_from_slice(b"namespace ")?;
        push_number(text, space)?;
        push_name(text, self.space_name(space))
    }

    /// Appends the number of a mount.
    pub(crate) fn push_mount(&self, text: &mut Vec<u8>, id: MountId) -> Result<(), AllocError>
        ensures { OnOk result (text.new.items ≡ text.old.items ++ number_text self.now.last_mount id) }
    {
        push_numbered(text, self.last_mount, id)
    }

    /// Appends the number of a peer group.
    pub(crate) fn push_group(&self, text: &mut Vec<u8>, group: GroupId) -> Result<(), AllocError>
        ensures { OnOk result (text.new.items ≡ text.old.items ++ number_text self.now.last_group group) }
    {
        push_numbered(text, self.last_group, group)
    }
}
