//! A namespace whose mounts the script makes, and the paths there of mounts that are taken away again, or are not at
//! their places yet.
ghost use Rattle.std.specs.Prelude.{◌≡◌, ◌∷◌, ◌++◌, [], IfOk, OnOk};
ghost use Rattle.mt_import.specs.Commands.{umount_text};
ghost use Rattle.mt_import.specs.Script.{command_text};
ghost use Rattle.mt_import.specs.Slots.{slot, apart_path, path_from};

use crate::groups::Groups;
use crate::mount::Mount;
use crate::script::Script;
use crate::writer::{Text, Written, command, digits_of, joined};
use std::alloc::Global;

/// The words that change the propagation of a mount.
pub(crate) const PRIVATE: &[u8] = b"prop=private";

pub(crate) const SLAVE: &[u8] = b"prop=slave";

pub(crate) const SHARED: &[u8] = b"prop=shared";

pub(crate) const UNBINDABLE: &[u8] = b"prop=unbindable";

/// The name of the filesystem of what is staged.
pub(crate) const STAGE_FS: &[u8] = b"import";

/// Where the root mount of a namespace is made.
pub(crate) const NEW: &[u8] = b"/new";

/// Where the peer of a mount at the root of a namespace stands.
pub(crate) const PEER: &[u8] = b"/peer";

/// Where a mount stands on one that isolates a place, and spares it.
pub(crate) const SPARED: &[u8] = b"/spared";

/// How the names of the slots begin at which mounts of a level are made with all that stands on
/// them.
pub(crate) const APART: &[u8] = b"/apart-";

/// The names of those for mounts that come to the root of a namespace.
pub(crate) const COVER: &[u8] = b"/cover-";

/// And of those for members of groups.
pub(crate) const GROUP: &[u8] = b"/";

/// What the parts of a script that make a namespace have in common.
#[derive(Clone, Copy)]
pub(crate) struct Site<'s, 'a> {
    /// Where memory comes from.
    pub(crate) alloc: Global,
    /// The peer groups of all tables.
    pub(crate) groups: &'s Groups<'a>,
    /// The number of the namespace, in digits.
    pub(crate) space: &'s [u8],
    /// The path of what is staged.
    pub(crate) stage: &'s [u8],
}

impl<'s, 'a> Site<'s, 'a> {
    /// Appends a command on the namespace, of this word and two others.
    pub(crate) fn run(self, script: &mut Script, word: &[u8], first: &[u8], last: &[u8]) -> Written
        ensures { OnOk result (script.new ≡ script.old ++ command_text (word.now ∷ self.entry.space.now ∷ first.now ∷ last.now ∷ [])) }
    {
        command(script, &[word, self.space, first, last])
    }

    /// Appends an unmount of a mount of the namespace.
    pub(crate) fn unmount(self, script: &mut Script, path: &[u8]) -> Written
        ensures { OnOk result (script.new ≡ script.old ++ umount_text self.entry.space.now path.now) }
    {
        command(script, &[b"umount", self.space, path])
    }

    /// The path of a slot of two names, and of what is below it.
    pub(crate) fn staged(self, name: &[u8], second: &[u8], below: &[u8]) -> Text
        ensures { IfOk result (λ path. path.items ≡ self.entry.stage.now ++ (name.now ++ (second.now ++ below.now))) }
    {
        joined(self.alloc, &[self.stage, name, second, below])
    }

    /// The path of a slot of a name and a number, and of what is below it.
    pub(crate) fn slot(self, name: &[u8], number: u64, below: &[u8]) -> Text
        ensures { IfOk result (λ path. path.items ≡ slot self.entry.stage.now name.now number below.now) }
    {
        let digits = digits_of(self.alloc, number)?;
        self.staged(name, digits.as_slice(), below)
    }

    /// The path where a mount is made with all that stands on it.
    pub(crate) fn apart_path(self, mount: &Mount<'_>) -> Text
        ensures { IfOk result (λ path. path.items ≡ apart_path self.entry.stage.now mount.now.level) }
    {
        self.slot(APART, mount.level.saturating_sub(1) as u64, b"")
    }

    /// The path to which names lead from what the stack of a mount stands on: one at the root of the namespace, or one of the
    /// level below.
    pub(crate) fn path_from(self, mount: &Mount<'_>, names: &[u8]) -> Text
        ensures { IfOk result (λ path. path.items ≡ path_from self.entry.stage.now mount.now.level mount.now.base names.now) }
    {
        if mount.level > 1 {
            return self.slot(APART, (mount.level - 2) as u64, names);
        }
        if mount.base > 0 {
            return self.slot(COVER, mount.base as u64, names);
        }
        Vec::from_slice(self.alloc, names)
    }
}
