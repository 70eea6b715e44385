//! How a mount is made where nothing propagates.
ghost use Rattle.std.specs.Prelude.{◌≡◌, ◌++◌, OnOk};
ghost use Rattle.std.specs.Option.{option_map};
ghost use Rattle.mt_import.specs.Making.{attributes_text, made_text, first_kind, waits, bare_text, late_options, share_text};

use crate::groups::Groups;
use crate::host_mount::HostMount;
use crate::mount::Mount;
use crate::options::{Kind, options_of};
use crate::path::path_word;
use crate::script::Script;
use crate::site::{GROUP, SHARED, SLAVE, Site, UNBINDABLE};
use crate::writer::{Written, group_comment, joined, push_command};

/// The options that are those of a new mount.
const UNCHANGED: &[u8] = b"relatime";

/// How the propagation of a mount that was just made has to change: not at all if it is already a member of its group.
#[tactic(auto, unfolding(crate::specs::Making::first_kind))]
fn first_kind(groups: &Groups<'_>, row: &HostMount) -> Kind
    ensures { option_map (λ word. word.now) result ≡ first_kind groups.now.all row.now }
{
    if groups.receiving(row.shared).is_some() {
        return None;
    }
    if row.master.is_some() {
        return Some(SLAVE);
    }
    if row.unbindable {
        return Some(UNBINDABLE);
    }
    None
}

/// Whether the options of a mount are set once it is made shared.
#[tactic(auto, unfolding(crate::specs::Making::waits))]
fn waits(groups: &Groups<'_>, row: &HostMount) -> bool
    ensures { result ≡ waits groups.now.all row.now }
{
    groups.lone_group(row.shared).is_some() && row.master.is_none()
}

/// The options of a mount that are set when it is made shared.
fn late_options(waits: bool, options: &[u8]) -> &[u8]
    ensures { result.now ≡ late_options waits options.now }
{
    if waits { options } else { UNCHANGED }
}

impl<'s, 'a> Site<'s, 'a> {
    /// Sets options and the propagation of the mount at a path, if there is anything to set.
    #[tactic(auto, unfolding(crate::specs::Making::attributes_text))]
    fn set_attributes(self, script: &mut Script, options: &[u8], path: &[u8], kind: Kind) -> Written
        ensures { OnOk result (script.new ≡ script.old ++ attributes_text self.entry.space.now options.now path.now (option_map (λ word. word.now) kind.entry)) }
    {
        let words = options_of(self.alloc, options, kind)?;
        if words.is_empty() {
            return Ok(());
        }
        let (path, words) = (path_word(path), words.as_slice());
        let line = joined(self.alloc, &[b"setattr ", self.space, b" ", path, words])?;
        push_command(script, line.as_slice())
    }

    /// Binds a directory of the staged member of a group, if there is a group, or of a filesystem, or else mounts the
    /// filesystem: the directory is empty for the root.
    #[tactic(auto, unfolding(crate::specs::Making::made_text))]
    fn make(
        self,
        script: &mut Script,
        source: Option<u64>,
        mount: &Mount<'_>,
        path: &[u8],
    ) -> Written
        ensures { OnOk result (script.new ≡ script.old ++ made_text self.entry.space.now self.entry.stage.now source mount.now.row.now.device mount.now.root.now path.now) }
    {
        if let Some(group) = source {
            let from = self.slot(GROUP, group, mount.root)?;
            return self.run(script, b"bind", from.as_slice(), path);
        }
        let row = mount.row;
        let device = row.device.as_slice();
        if mount.root.is_empty() {
            return self.run(script, b"mount", device, path);
        }
        let from = self.staged(b"/", device, mount.root)?;
        self.run(script, b"bind", from.as_slice(), path)
    }

    /// Makes a mount at a path, where nothing propagates, with its options, unless these wait until it is made shared.
    #[tactic(auto, unfolding(crate::specs::Making::bare_text))]
    pub(crate) fn make_bare(self, script: &mut Script, mount: &Mount<'_>, path: &[u8]) -> Written
        ensures { OnOk result (script.new ≡ script.old ++ bare_text self.entry.groups.now.all self.entry.space.now self.entry.stage.now mount.now path.now) }
    {
        let row = mount.row;
        let source = self.groups.source_of(row.shared, row.master);
        self.make(script, source, mount, path)?;
        if waits(self.groups, row) {
            return Ok(());
        }
        let kind = first_kind(self.groups, row);
        self.set_attributes(script, row.options.as_slice(), path, kind)?;
        Ok(())
    }

    /// Makes a mount at a path a member of its group, if it is alone in that, with the options that wait for it.
    #[tactic(auto, unfolding(crate::specs::Making::share_text))]
    pub(crate) fn share_alone(self, script: &mut Script, mount: &Mount<'_>, path: &[u8]) -> Written
        ensures { OnOk result (script.new ≡ script.old ++ share_text self.entry.groups.now.all self.entry.space.now mount.now.row.now path.now) }
    {
        let row = mount.row;
        let Some(group) = self.groups.lone_group(row.shared) else {
            return Ok(());
        };
        script.count_group(self.groups, group, mount.root)?;
        group_comment(script, group, self.groups.here(group))?;
        let options = late_options(waits(self.groups, row), row.options.as_slice());
        self.set_attributes(script, options, path, Some(SHARED))?;
        Ok(())
    }
}
