//! Forms as lines of a session.
ghost use Rattle.std.specs.Prelude.{◌≡◌, ◌++◌, IfOk, OnOk};
ghost use Rattle.std.specs.List.{flat_map};
ghost use Rattle.mt_lines.specs.Words.{pieces};
ghost use Rattle.mt_forms.specs.Scripts.{has_no_name, behind_slash, behind_word, behind_path, one_path_line, two_paths_line, propagation_text, then_made, changed_lines, change_line, bind_line, new_mount_line, told_attributes, umount_at_path, umount_line, copy_words, copy_line, own_line, script_text, later_text};

use crate::attribute::Attributes;
use crate::given::nothing_given;
use crate::operation::{Operation, Propagation, PropagationKind, Reach};
use crate::setting::{Setting, for_bind, for_new, for_remount, push_set, push_setting};
use crate::word::is_rooted;
use mt_lines::words::{Pieces, Words};
use mt_skel::escape::push_escaped;
use std::alloc::{AllocError, Global};

/// What a call answers that fails for want of memory alone.
type Done = Result<(), AllocError>;

/// Whether a path has no name, so that it is the root.
fn has_no_name(path: &[u8]) -> bool
    ensures { result ≡ has_no_name path.now }
{
    Pieces::new(b'/', path).all(|name| name.is_empty())
}

/// Appends a name of a path after a slash, if it has a byte.
fn push_name(text: &mut Vec<u8>, name: &[u8]) -> Done
    ensures { OnOk result (text.new.items ≡ text.old.items ++ behind_slash name.now) }
{
    if name.is_empty() {
        return Ok(());
    }
    text.push(b'/')?;
    push_escaped(text, name)?;
    Ok(())
}

/// Appends the names of a path, each after one slash.
fn push_names(text: &mut Vec<u8>, path: &[u8]) -> Done
    ensures { OnOk result (text.new.items ≡ text.old.items ++ flat_map behind_slash (pieces 47 path.now)) }
{
    let mut names = Pieces::new(b'/', path);
    'names: while let Some(name) = names.next() {
        push_name(text, name)?;
    }
    Ok(())
}

/// Appends a word after a space, with its escapes.
pub(crate) fn push_word(text: &mut Vec<u8>, word: &[u8]) -> Done
    ensures { OnOk result (text.new.items ≡ text.old.items ++ behind_word word.now) }
{
    text.extend_from_slice(b" ")?;
    push_escaped(text, word)?;
    Ok(())
}

/// Appends a path after a space, with one slash before each name.
pub(crate) fn push_path(text: &mut Vec<u8>, path: &[u8]) -> Done
    ensures { OnOk result (text.new.items ≡ text.old.items ++ behind_path path.now) }
{
    if has_no_name(path) {
        text.extend_from_slice(b" /")?;
        return Ok(());
    }
    text.push(b' ')?;
    push_names(text, path)?;
    Ok(())
}

/// Appends a line of a namespace and a path.
fn push_one_path(text: &mut Vec<u8>, verb: &[u8], space: &[u8], path: &[u8]) -> Done
    ensures { OnOk result (text.new.items ≡ text.old.items ++ one_path_line verb.now space.now path.now) }
{
    text.extend_from_slice(verb)?;
    push_word(text, space)?;
    push_path(text, path)?;
    text.push(b'\n')?;
    Ok(())
}

/// Appends a line of a namespace and two paths.
fn push_two_paths(
    text: &mut Vec<u8>,
    verb: &[u8],
    space: &[u8],
    first: &[u8],
    second: &[u8],
) -> Done
    ensures { OnOk result (text.new.items ≡ text.old.items ++ two_paths_line verb.now space.now first.now second.now) }
{
    text.extend_from_slice(verb)?;
    push_word(text, space)?;
    push_path(text, first)?;
    push_path(text, second)?;
    text.push(b'\n')?;
    Ok(())
}

/// What the options of a `setattr` line say of a propagation.
fn propagation_words(propagation: Propagation) -> &'static [u8]
    ensures { result.now ≡ propagation_text propagation }
{
    match (propagation.kind, propagation.recursive) {
        (PropagationKind::Shared, false) => b" prop=shared",
        (PropagationKind::Private, false) => b" prop=private",
        (PropagationKind::Slave, false) => b" prop=slave",
        (PropagationKind::Unbindable, false) => b" prop=unbindable",
        (PropagationKind::Shared, true) => b" rec prop=shared",
        (PropagationKind::Private, true) => b" rec prop=private",
        (PropagationKind::Slave, true) => b" rec prop=slave",
        (PropagationKind::Unbindable, true) => b" rec prop=unbindable",
    }
}

/// Appends the line that changes the propagation of a mount, if there is a change.
fn push_made(text: &mut Vec<u8>, space: &[u8], to: &[u8], propagation: Option<Propagation>) -> Done
    ensures { OnOk result (text.new.items ≡ text.old.items ++ then_made space.now to.now propagation) }
{
    let Some(propagation) = propagation else {
        return Ok(());
    };
    text.extend_from_slice(b"setattr")?;
    push_word(text, space)?;
    push_path(text, to)?;
    text.extend_from_slice(propagation_words(propagation))?;
    text.push(b'\n')?;
    Ok(())
}

/// Appends the line that changes the attributes of a mount, if there is a change.
fn push_change(text: &mut Vec<u8>, space: &[u8], to: &[u8], setting: Setting) -> Done
    ensures { OnOk result (text.new.items ≡ text.old.items ++ change_line space.now to.now setting) }
{
    if setting.is_empty() {
        return Ok(());
    }
    text.extend_from_slice(b"setattr")?;
    push_word(text, space)?;
    push_path(text, to)?;
    let alloc = *text.allocator();
    push_setting(text, alloc, setting)?;
    text.push(b'\n')?;
    Ok(())
}

/// Appends the lines after a new mount: its attributes, and its propagation.
fn push_attributes(
    text: &mut Vec<u8>,
    space: &[u8],
    to: &[u8],
    setting: Setting,
    propagation: Option<Propagation>,
) -> Done
    ensures { OnOk result (text.new.items ≡ text.old.items ++ changed_lines space.now to.now setting propagation) }
{
    push_change(text, space, to, setting)?;
    push_made(text, space, to, propagation)?;
    Ok(())
}

/// Appends the lines of a bind.
fn push_bind(text: &mut Vec<u8>, space: &[u8], from: &[u8], to: &[u8], recursive: bool) -> Done
    ensures { OnOk result (text.new.items ≡ text.old.items ++ bind_line space.now from.now to.now recursive) }
{
    if recursive {
        push_two_paths(text, b"rbind", space, from, to)?;
    } else {
        push_two_paths(text, b"bind", space, from, to)?;
    }
    Ok(())
}

/// Appends the line of a new mount of a filesystem, with these attributes.
fn push_mount(
    text: &mut Vec<u8>,
    space: &[u8],
    filesystem: &[u8],
    to: &[u8],
    set: Attributes,
) -> Done
    ensures { OnOk result (text.new.items ≡ text.old.items ++ new_mount_line space.now filesystem.now to.now set) }
{
    text.extend_from_slice(b"mount")?;
    push_word(text, space)?;
    push_word(text, filesystem)?;
    push_path(text, to)?;
    let alloc = *text.allocator();
    push_set(text, alloc, set)?;
    text.push(b'\n')?;
    Ok(())
}

/// The attributes that the options of a mount in a table tell.
fn attributes_in(options: &[u8]) -> Attributes
    ensures { result ≡ told_attributes options.now }
{
    nothing_given().with_list(options).said.set
}

/// Appends the line of an unmount at a path, if it is of one mount alone.
fn push_umount_at(text: &mut Vec<u8>, space: &[u8], path: &[u8], lazy: bool, reach: Reach) -> Done
    ensures { OnOk result (text.new.items ≡ text.old.items ++ umount_at_path space.now path.now lazy reach) }
{
    match (reach, lazy) {
        (Reach::One, false) => push_one_path(text, b"umount", space, path),
        (Reach::One, true) => push_one_path(text, b"detach", space, path),
        (Reach::Below, _) => Ok(()),
        (Reach::Filesystem, _) => Ok(()),
    }
}

/// Appends the line of an unmount, if it is of one mount alone, at a path.
fn push_umount(text: &mut Vec<u8>, space: &[u8], target: &[u8], lazy: bool, reach: Reach) -> Done
    ensures { OnOk result (text.new.items ≡ text.old.items ++ umount_line space.now target.now lazy reach) }
{
    if is_rooted(target) {
        push_umount_at(text, space, target, lazy, reach)?;
    }
    Ok(())
}

/// What comes after the number of a namespace in the line that copies it.
fn copy_words(less: bool) -> &'static [u8]
    ensures { result.now ≡ copy_words less }
{
    if less { b" less lock\n" } else { b"\n" }
}

/// Appends the line that copies a namespace.
fn push_copy(text: &mut Vec<u8>, space: &[u8], less: bool) -> Done
    ensures { OnOk result (text.new.items ≡ text.old.items ++ copy_line space.now less) }
{
    text.extend_from_slice(b"copyns")?;
    push_word(text, space)?;
    text.extend_from_slice(copy_words(less))?;
    Ok(())
}

/// Appends a line of a session.
fn push_line(text: &mut Vec<u8>, verb: &[u8], words: Words<'_>) -> Done
    ensures { OnOk result (text.new.items ≡ text.old.items ++ own_line verb.now words.entry) }
{
    push_escaped(text, verb)?;
    let mut words = words;
    'words: while let Some(word) = words.next() {
        push_word(text, word)?;
    }
    text.push(b'\n')?;
    Ok(())
}

/// Appends the lines of a form.
fn push_operation(
    text: &mut Vec<u8>,
    operation: &Operation<'_>,
    space: &[u8],
    filesystem: &[u8],
    options: &[u8],
) -> Done
    ensures { OnOk result (text.new.items ≡ text.old.items ++ script_text operation.now space.now filesystem.now options.now) }
{
    match operation {
        Operation::Bind {
            from,
            to,
            recursive,
            said,
            propagation,
        } => {
            push_bind(text, space, from.bytes(), to.bytes(), *recursive)?;
            push_attributes(text, space, to.bytes(), for_bind(*said), *propagation)
        }
        Operation::Move {
            from,
            to,
            propagation,
        } => {
            push_two_paths(text, b"move", space, from.bytes(), to.bytes())?;
            push_made(text, space, to.bytes(), *propagation)
        }
        Operation::Mount {
            to,
            said,
            propagation,
            ..
        } => {
            push_mount(text, space, filesystem, to.bytes(), for_new(*said))?;
            push_made(text, space, to.bytes(), *propagation)
        }
        Operation::Remount {
            to,
            said,
            propagation,
        } => {
            let setting = for_remount(*said, attributes_in(options));
            push_attributes(text, space, to.bytes(), setting, *propagation)
        }
        Operation::Propagation { to, propagation } => push_made(
            text,
            space,
            to.bytes(),
            Some(*propagation),
        ),
        Operation::Umount {
            target,
            lazy,
            reach,
        } => push_umount(text, space, target.bytes(), *lazy, *reach),
        Operation::Pivot { new, old } => push_two_paths(
            text,
            b"pivot",
            space,
            new.bytes(),
            old.bytes(),
        ),
        Operation::CopySpace { less, .. } => push_copy(text, space, *less),
        Operation::Mkdir => Ok(()),
        Operation::Line { verb, words } => push_line(text, verb.bytes(), words.again()),
    }
}

/// The lines of a session that a form asks for, each with its end, in the namespace of a number. Fails for want of memory
/// alone.
///
/// `filesystem` is the name of the one that is mounted, and `options` are those of the mount in its table, which a remount
/// changes; other forms need neither. Paths have one slash before each name.
///
/// There are no lines for an unmount of more mounts than one, or of a source, which a table has to tell first, and for `mkdir`. What the
/// mounts of a copied namespace are made is told by [`later_session_lines`].
pub fn session_lines(
    alloc: Global,
    operation: &Operation<'_>,
    space: &[u8],
    filesystem: &[u8],
    options: &[u8],
) -> Result<Vec<u8>, AllocError>
    ensures { IfOk result (λ script. script.items ≡ script_text operation.now space.now filesystem.now options.now) }
{
    let mut text = Vec::new(alloc);
    push_operation(&mut text, operation, space, filesystem, options)?;
    Ok(text)
}

/// The lines of a session that a form asks for once its namespace is made, which has this number. Fails for want of memory
/// alone. Only a copy of a namespace has any.
pub fn later_session_lines(
    alloc: Global,
    operation: &Operation<'_>,
    made: &[u8],
) -> Result<Vec<u8>, AllocError>
    ensures { IfOk result (λ script. script.items ≡ later_text operation.now made.now) }
{
    let mut text = Vec::new(alloc);
    if let Operation::CopySpace { propagation, .. } = operation {
        push_made(&mut text, made, b"/", *propagation)?;
    }
    Ok(text)
}
