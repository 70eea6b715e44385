//! What a script makes before the namespaces: filesystems, one for each device, with their directories, and what is
//! staged: a mount of each filesystem of which directories are bound, and a member of each peer group from which mounts
//! are bound.
ghost use Rattle.std.specs.Prelude.{◌≡◌, ◌++◌, map, IfOk, OnOk};
ghost use Rattle.std.specs.List.{flat_map};
ghost use Rattle.mt_import.specs.Front.{plain_text, member_path, stage_below_text, member_text, stage_text, IsFronted};

use crate::choice::Candidate;
use crate::groups::{Group, Groups, Staged};
use crate::host_mount::HostMount;
use crate::path::{SECOND, STAGE};
use crate::plan::Plan;
use crate::script::Script;
use crate::site::{APART, COVER, GROUP, NEW, PEER, SHARED, SLAVE, SPARED, STAGE_FS};
use crate::space::Space;
use crate::writer::{
    Allocated, Done, Text, Unmade, Written, command, comment, digits_of, group_comment, joined,
    note, one_behind, spaced,
};
use std::alloc::Global;
use std::collections::BTreeSet;

/// The directories of what is staged, each after its filesystem: the slots of root mounts, of what hooks spare, and of groups.
pub(crate) fn slots_of(alloc: Global, staged: &Staged) -> Allocated<BTreeSet<Vec<u8>>> {
    let mut slots = BTreeSet::new(alloc);
    slots.insert(one_behind(alloc, STAGE_FS, NEW)?)?;
    slots.insert(one_behind(alloc, STAGE_FS, SPARED)?)?;
    for group in staged.iter() {
        let digits = digits_of(alloc, group.1)?;
        slots.insert(joined(alloc, &[STAGE_FS, GROUP, digits.as_slice()])?)?;
    }
    Ok(slots)
}

impl<'a> Plan<'a> {
    /// Adds the filesystem of a row of a table.
    fn add_filesystem(&mut self, table: usize, row: &'a HostMount) -> Done {
        let device = row.device.as_slice();
        let Some((_, first)) = self.filesystems.get(&device) else {
            self.filesystems.insert(device, (table, row))?;
            return Ok(());
        };
        if first.kind.as_slice() != row.kind.as_slice()
            || first.source.as_slice() != row.source.as_slice()
        {
            self.others.push((table, row))?;
        }
        Ok(())
    }

    /// Adds the directory of a filesystem of which these texts are the path, and those above it.
    fn add_directory(&mut self, filesystem: &[u8], texts: &[&[u8]]) -> Done {
        let path = joined(self.alloc, texts)?;
        for end in 1..=path.len() {
            if end == path.len() || path[end] == b'/' {
                let directory = joined(self.alloc, &[filesystem, &path[..end]])?;
                self.directories.insert(directory)?;
            }
        }
        Ok(())
    }

    /// Adds a slot of a number.
    fn add_slot(&mut self, name: &[u8], number: u64) -> Done {
        let digits = digits_of(self.alloc, number)?;
        self.add_directory(STAGE_FS, &[name, digits.as_slice()])
    }

    /// Adds the filesystem of a mount to those that are staged, if a directory of it is bound without a group.
    fn add_plain(&mut self, row: &'a HostMount, root: &[u8]) -> Done {
        if root.is_empty() || self.groups.source_of(row.shared, row.master).is_some() {
            return Ok(());
        }
        let device = row.device.as_slice();
        self.plains.insert(device)?;
        self.add_directory(STAGE_FS, &[b"/", device])
    }

    /// Adds what the root mount needs, or one that comes to the root of the namespace: where the old root stands in the
    /// meantime.
    fn add_base(&mut self, device: &[u8], root: &[u8], base: usize) -> Done {
        self.add_directory(device, &[root, STAGE])?;
        if base == 0 {
            return Ok(());
        }
        self.add_directory(device, &[root, SECOND])?;
        self.add_directory(STAGE_FS, &[PEER])?;
        self.add_slot(COVER, base as u64)
    }

    /// Adds what a mount needs: what it shows, where it stands, and a slot for it.
    pub(crate) fn add(&mut self, candidate: &Candidate<'_, 'a>) -> Done {
        let (row, mount, below) = (candidate.row, candidate.mount, candidate.below);
        let (device, lower) = (row.device.as_slice(), below.row);
        self.add_filesystem(candidate.table, row)?;
        self.add_plain(row, mount.root)?;
        self.add_directory(device, &[mount.root])?;
        self.add_directory(lower.device.as_slice(), &[mount.place.as_slice()])?;
        if mount.level > 0 {
            return self.add_slot(APART, (mount.level - 1) as u64);
        }
        self.add_base(device, mount.root, mount.base)
    }

    /// What makes the filesystems of the mounts, and tells the rows that have another type or source than the first one
    /// of their device.
    fn filesystems_made(&self) -> Result<Script, Unmade> {
        let mut script = Script::new(self.alloc);
        for (before, first) in self.filesystems.values().enumerate() {
            let (table, row) = *first;
            make_filesystem(&mut script, table, row, before.saturating_add(1))?;
        }
        for other in self.others.iter() {
            let (table, row) = *other;
            let text = b"tells another type or source of its device";
            note(&mut script, table, row, text)?;
        }
        Ok(script)
    }

    /// What makes the directories, each after those above it.
    fn directories_made(&self) -> Result<Script, Unmade> {
        let mut script = Script::new(self.alloc);
        for directory in self.directories.iter() {
            let text = directory.as_slice();
            if let Some(end) = text.iter().position(|byte| *byte == b'/') {
                command(&mut script, &[b"mkdir", &text[..end], &text[end..]])?;
            }
        }
        Ok(script)
    }

    /// The devices of the filesystems of which directories are bound.
    fn devices(&self) -> Allocated<Vec<&'a [u8]>> {
        let mut devices = Vec::new(self.alloc);
        for device in self.plains.iter() {
            devices.push(*device)?;
        }
        Ok(devices)
    }

    /// The groups of which a member is staged, those above others first.
    fn members(&self) -> Allocated<Vec<u64>> {
        let mut members = Vec::new(self.alloc);
        for staged in self.staged.iter() {
            members.push(staged.1)?;
        }
        Ok(members)
    }

    /// Makes everything that comes before the namespaces.
    pub(crate) fn make_front(&self, script: &mut Script) -> Written
        ensures { OnOk result (IsFronted self.now.groups.all script.old script.new) }
    {
        let filesystems = self.filesystems_made()?;
        let directories = self.directories_made()?;
        let devices = self.devices()?;
        let members = self.members()?;
        script.append(&filesystems)?;
        command(script, &[b"mkfs", STAGE_FS, b"import", b"none"])?;
        script.append(&directories)?;
        command(script, &[b"newns", STAGE_FS])?;
        stage_devices(script, devices.as_slice())?;
        stage_members(script, &self.groups, members.as_slice())?;
        Ok(())
    }

    /// Unmounts the staged members of groups in a namespace, except those of groups of which no
    /// table has a member.
    fn unstage_groups(&self, script: &mut Script, space: &[u8]) -> Written {
        for staged in self.staged.iter() {
            if self.groups.is_seen(staged.1) {
                let path = numbered(self.alloc, staged.1)?;
                command(script, &[b"umount", space, path.as_slice()])?;
            }
        }
        Ok(())
    }

    /// Unmounts the staged filesystems there.
    fn unstage_plains(&self, script: &mut Script, space: &[u8]) -> Written {
        for device in self.plains.iter() {
            let path = one_behind(self.alloc, b"/", device)?;
            command(script, &[b"umount", space, path.as_slice()])?;
        }
        Ok(())
    }

    /// What makes one more namespace, beside that of the first table and these, which keeps members of groups of which
    /// no table has one, if there are any.
    pub(crate) fn keeper_of(&self, others: &[Space<'_>]) -> Result<Script, Unmade> {
        let mut script = Script::new(self.alloc);
        if !self.has_unseen() {
            return Ok(script);
        }
        let last = last_number(others);
        let space = digits_of(self.alloc, (last as u64).saturating_add(1))?;
        let space = space.as_slice();
        comment(
            &mut script,
            &[
                b"# namespace ",
                space,
                b" keeps masters of which no table has a mount",
            ],
        )?;
        command(&mut script, &[b"copyns", b"1"])?;
        self.unstage_groups(&mut script, space)?;
        self.unstage_plains(&mut script, space)?;
        Ok(script)
    }
}

/// The number of the last namespace that is made, beside that of the first table, if these are the others.
fn last_number(others: &[Space<'_>]) -> usize {
    let mut last = 1_usize;
    for space in others {
        last = space.last_number(last);
    }
    last
}

/// Stages the filesystems of devices.
fn stage_devices(script: &mut Script, devices: &[&[u8]]) -> Written
    ensures { OnOk result (script.new ≡ script.old ++ flat_map plain_text (map (λ device. device.now) devices.now)) }
{
    'devices: for device in devices {
        stage_device(script, device)?;
    }
    Ok(())
}

/// Stages the filesystem of a device.
fn stage_device(script: &mut Script, device: &[u8]) -> Written
    ensures { OnOk result (script.new ≡ script.old ++ plain_text device.now) }
{
    let path = one_behind(script.alloc(), b"/", device)?;
    command(script, &[b"mount", b"1", device, path.as_slice()])
}

/// Stages members of groups, of those above others first.
fn stage_members(script: &mut Script, groups: &Groups<'_>, members: &[u64]) -> Written
    ensures { OnOk result (script.new ≡ script.old ++ flat_map (stage_text groups.now.all) members.now) }
{
    'members: for number in members {
        stage_group(script, groups, *number)?;
    }
    Ok(())
}

/// Stages a member of a group, if the tables name it.
#[tactic(auto, using(crate::proofs::FrontLaws::group_staged, crate::proofs::FrontLaws::none_staged))]
fn stage_group(script: &mut Script, groups: &Groups<'_>, number: u64) -> Written
    ensures { OnOk result (script.new ≡ script.old ++ stage_text groups.now.all number) }
{
    let Some(group) = groups.get(number) else {
        return Ok(());
    };
    stage_member(script, groups, number, &group)?;
    Ok(())
}

/// Stages a member of a group of the tables.
#[tactic(auto, unfolding(crate::specs::Front::member_text))]
fn stage_member(script: &mut Script, groups: &Groups<'_>, number: u64, group: &Group<'_>) -> Written
    ensures { OnOk result (script.new ≡ script.old ++ member_text number group.now) }
{
    let path = numbered(script.alloc(), number)?;
    let path = path.as_slice();
    script.count_group(groups, number, b"")?;
    group_comment(script, number, group.here)?;
    stage_below(script, group, path)?;
    command(script, &[b"setattr", b"1", path, SHARED])?;
    Ok(())
}

/// Makes a member of a group from that of its master, as a slave, or else from its filesystem.
fn stage_below(script: &mut Script, group: &Group<'_>, path: &[u8]) -> Written
    ensures { OnOk result (script.new ≡ script.old ++ stage_below_text group.now.master group.now.device.now path.now) }
{
    let Some(master) = group.master else {
        return command(script, &[b"mount", b"1", group.device, path]);
    };
    let source = numbered(script.alloc(), master)?;
    command(script, &[b"bind", b"1", source.as_slice(), path])?;
    command(script, &[b"setattr", b"1", path, SLAVE])?;
    Ok(())
}

/// The slot of a group.
fn numbered(alloc: Global, group: u64) -> Text
    ensures { IfOk result (λ path. path.items ≡ member_path group) }
{
    let digits = digits_of(alloc, group)?;
    one_behind(alloc, GROUP, digits.as_slice())
}

/// A source as a word of a command: the kernel escapes `#` in a source, and a command does not.
fn source_word(alloc: Global, source: &[u8]) -> Text {
    let mut word = Vec::new(alloc);
    let mut passed = 0_usize;
    for (place, byte) in source.iter().enumerate() {
        if passed > 0 {
            passed -= 1;
        } else if source[place..].starts_with(b"\\043") {
            word.push(b'#')?;
            passed = 3;
        } else {
            word.push(*byte)?;
        }
    }
    Ok(word)
}

/// Appends the command that makes a filesystem, if the server would read it, and answers whether it
/// would.
fn push_mkfs(script: &mut Script, device: &[u8], kind: &[u8], source: &[u8]) -> Allocated<bool> {
    let line = spaced(script.alloc(), &[b"mkfs", device, kind, source])?;
    script.push(line.as_slice())
}

/// Makes the filesystem of a device. A type or source that no filesystem can have is told in a comment, and `none` in its
/// place.
fn make_device(script: &mut Script, table: usize, row: &HostMount) -> Written {
    let (device, kind) = (row.device.as_slice(), row.kind.as_slice());
    let source = source_word(script.alloc(), row.source.as_slice())?;
    if push_mkfs(script, device, kind, source.as_slice())? {
        return Ok(());
    }
    let text = b"has a type or source that no filesystem can have";
    note(script, table, row, text)?;
    if push_mkfs(script, device, kind, b"none")?
        || push_mkfs(script, device, b"none", source.as_slice())?
    {
        return Ok(());
    }
    command(script, &[b"mkfs", device, b"none", b"none"])
}

/// Makes the filesystem of a row, the one of a number here. Its super options are told with its first mount, if they
/// are not `rw`: they are the last word of a line.
fn make_filesystem(script: &mut Script, table: usize, row: &HostMount, here: usize) -> Written {
    let (device, here) = (
        row.device.as_slice(),
        digits_of(script.alloc(), here as u64)?,
    );
    comment(
        script,
        &[b"# ", device, b" is filesystem ", here.as_slice()],
    )?;
    make_device(script, table, row)?;
    if row.line.as_slice().ends_with(b" rw") {
        return Ok(());
    }
    note(script, table, row, b"has super options that are left out")?;
    Ok(())
}
