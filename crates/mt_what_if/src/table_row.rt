//! Rows of tables, as their lines tell them.
ghost use Rattle.std.specs.Prelude.{◌≡◌, [], take, IfOk, IsOkUnless};
ghost use Rattle.mt_lines.specs.Words.{pieces};
ghost use Rattle.mt_questions.specs.Seeing.{text_in};
ghost use Rattle.mt_what_if.specs.TableRows.{strict_attrs, with_mount_option, attrs_told, name_said, names_said_from, names_after_slash, path_told, undeleted, rooted, root_in, label_or_none, label_told, device_label, row_of_line};

use mt_import::host_mount::HostMount;
use mt_lines::words::Pieces;
use mt_mounts::mount::{Atime, Attrs, SpaceId};
use mt_peers::state::State;
use mt_skel::escape::unescape;
use mt_skel::fault::Fault;
use mt_skel::name::{Label, Name};
use mt_skel::names::Names;
use mt_world::row::TableRow;
use std::alloc::Global;

/// The most bytes of a label.
const MOST_LABEL: usize = 255;

/// The bytes that a word stands for; the word itself, where a backslash in it begins none of the four escapes. Refused as
/// `NoMemory` alone.
pub(crate) fn plain_bytes(alloc: Global, word: &[u8]) -> Result<Vec<u8>, Fault>
    ensures bytes { IfOk result (λ bytes. bytes.items ≡ text_in word.now) }
    ensures memory { IsOkUnless result Fault.NoMemory }
{
    match unescape(alloc, word) {
        Ok(bytes) => Ok(bytes),
        Err(Fault::BadLine) => Ok(Vec::from_slice(alloc, word)?),
        Err(_) => Err(Fault::NoMemory),
    }
}

/// The attributes of a mount of which no option is told: times of access are always updated.
fn strict_attrs() -> Attrs
    ensures { result ≡ strict_attrs }
{
    Attrs {
        atime: Atime::Strictatime,
        ..Attrs::new()
    }
}

/// Attributes with one more option. One that is not known changes nothing.
fn with_mount_option(attrs: Attrs, option: &[u8]) -> Attrs
    ensures { result ≡ with_mount_option attrs option.now }
{
    if option == b"ro".as_slice() {
        Attrs { ro: true, ..attrs }
    } else if option == b"nosuid".as_slice() {
        Attrs {
            nosuid: true,
            ..attrs
        }
    } else if option == b"nodev".as_slice() {
        Attrs {
            nodev: true,
            ..attrs
        }
    } else if option == b"noexec".as_slice() {
        Attrs {
            noexec: true,
            ..attrs
        }
    } else if option == b"nosymfollow".as_slice() {
        Attrs {
            nosymfollow: true,
            ..attrs
        }
    } else if option == b"nodiratime".as_slice() {
        Attrs {
            nodiratime: true,
            ..attrs
        }
    } else if option == b"relatime".as_slice() {
        Attrs {
            atime: Atime::Relatime,
            ..attrs
        }
    } else if option == b"noatime".as_slice() {
        Attrs {
            atime: Atime::Noatime,
            ..attrs
        }
    } else {
        attrs
    }
}

/// The attributes that the options of a row tell.
fn attrs_told(options: &[u8]) -> Attrs
    ensures { result ≡ attrs_told options.now }
{
    let mut attrs = strict_attrs();
    let mut pieces = Pieces::new(b',', options);
    'options: while let Some(option) = pieces.next() {
        attrs = with_mount_option(attrs, option);
    }
    attrs
}

/// The name that a piece of a path says, if it is one.
fn name_said(alloc: Global, piece: &[u8]) -> Result<Option<Name>, Fault>
    ensures name { IfOk result (λ name. name ≡ name_said piece.now) }
    ensures memory { IsOkUnless result Fault.NoMemory }
{
    match Name::new(plain_bytes(alloc, piece)?) {
        Ok(name) => Ok(Some(name)),
        Err(_bytes) => Ok(None),
    }
}

/// The names between the slashes of a text, if all of them are names.
fn names_in(alloc: Global, text: &[u8]) -> Result<Option<Names>, Fault>
    ensures names { IfOk result (λ names. names ≡ names_said_from [] (pieces 47 text.now)) }
    ensures memory { IsOkUnless result Fault.NoMemory }
{
    let mut names = Names::root(alloc);
    let mut pieces = Pieces::new(b'/', text);
    'pieces: while let Some(piece) = pieces.next() {
        let Some(name) = name_said(alloc, piece)? else {
            return Ok(None);
        };
        names = names.with(&name)?;
    }
    Ok(Some(names))
}

/// The names after the slash that a path begins with. The root alone has none.
fn names_after_slash(alloc: Global, text: &[u8]) -> Result<Option<Names>, Fault>
    ensures names { IfOk result (λ names. names ≡ names_after_slash text.now) }
    ensures memory { IsOkUnless result Fault.NoMemory }
{
    match text {
        [] => Ok(Some(Names::root(alloc))),
        [_first, ..] => names_in(alloc, text),
    }
}

/// The names of a path from the root down, if it is one.
fn path_told(alloc: Global, word: &[u8]) -> Result<Option<Names>, Fault>
    ensures names { IfOk result (λ names. names ≡ path_told word.now) }
    ensures memory { IsOkUnless result Fault.NoMemory }
{
    let [first, text @ ..] = word else {
        return Ok(None);
    };
    if *first != b'/' {
        return Ok(None);
    }
    names_after_slash(alloc, text)
}

/// The path of a directory that was deleted, which ends so (proc_pid_mountinfo(5), field 4), as one of none that is there.
fn undeleted(alloc: Global, word: &[u8]) -> Result<Vec<u8>, Fault>
    ensures word { IfOk result (λ path. path.items ≡ undeleted word.now) }
    ensures memory { IsOkUnless result Fault.NoMemory }
{
    let Some(path) = word.strip_suffix(b"//deleted") else {
        return Ok(Vec::from_slice(alloc, word)?);
    };
    let mut text = Vec::from_slice(alloc, path)?;
    text.extend_from_slice(b"\\040(deleted)")?;
    Ok(text)
}

/// A word as one that begins with a slash.
fn rooted(alloc: Global, word: &[u8]) -> Result<Vec<u8>, Fault>
    ensures word { IfOk result (λ path. path.items ≡ rooted word.now) }
    ensures memory { IsOkUnless result Fault.NoMemory }
{
    let mut text = Vec::new(alloc);
    if !word.starts_with(b"/") {
        text.extend_from_slice(b"/")?;
    }
    text.extend_from_slice(word)?;
    Ok(text)
}

/// The directory that a mount shows at its root, if the word is that of one.
fn root_in(alloc: Global, word: &[u8]) -> Result<Option<Names>, Fault>
    ensures names { IfOk result (λ names. names ≡ root_in word.now) }
    ensures memory { IsOkUnless result Fault.NoMemory }
{
    let path = undeleted(alloc, word)?;
    let path = rooted(alloc, &path)?;
    path_told(alloc, &path)
}

/// The first bytes of a text, so many at most.
fn first_of(bytes: &[u8], most: usize) -> &[u8]
    ensures { result.now ≡ take most bytes.now }
{
    if most < bytes.len() {
        return &bytes[..most];
    }
    bytes
}

/// The first bytes of a label, as many as it may have.
fn first_bytes(bytes: &[u8]) -> &[u8]
    ensures { result.now ≡ take 255 bytes.now }
{
    first_of(bytes, MOST_LABEL)
}

/// The label of these bytes, or `none` where they are none.
fn label_or_none(alloc: Global, bytes: &[u8]) -> Result<Label, Fault>
    ensures label { IfOk result (λ label. label ≡ label_or_none bytes.now) }
    ensures memory { IsOkUnless result Fault.NoMemory }
{
    match Label::new(Vec::from_slice(alloc, bytes)?) {
        Ok(label) => Ok(label),
        Err(_bytes) => Label::of(alloc, b"none"),
    }
}

/// The type or the source that a word tells: the first 255 bytes of it.
fn label_told(alloc: Global, word: &[u8]) -> Result<Label, Fault>
    ensures label { IfOk result (λ label. label ≡ label_told word.now) }
    ensures memory { IsOkUnless result Fault.NoMemory }
{
    let bytes = plain_bytes(alloc, word)?;
    label_or_none(alloc, first_bytes(&bytes))
}

/// The device that a word tells, if it is one.
fn device_label(alloc: Global, word: &[u8]) -> Result<Option<Label>, Fault>
    ensures device { IfOk result (λ device. device ≡ device_label word.now) }
    ensures memory { IsOkUnless result Fault.NoMemory }
{
    match Label::new(Vec::from_slice(alloc, word)?) {
        Ok(label) => Ok(Some(label)),
        Err(_bytes) => Ok(None),
    }
}

/// The row of the table of a number that a line tells. `None` where its directory is told by no path, or where no path tells
/// where it stands. Refused as `NoMemory` alone.
#[tactic(auto, unfolding(crate::specs::TableRows::row_of_line))]
pub(crate) fn row_of_line(
    alloc: Global,
    space: SpaceId,
    mount: &HostMount,
) -> Result<Option<TableRow>, Fault>
    ensures row { IfOk result (λ row. row ≡ row_of_line space mount.now) }
    ensures memory { IsOkUnless result Fault.NoMemory }
{
    let Some(root) = root_in(alloc, &mount.root)? else {
        return Ok(None);
    };
    let Some(point) = path_told(alloc, &mount.point)? else {
        return Ok(None);
    };
    let Some(device) = device_label(alloc, &mount.device)? else {
        return Ok(None);
    };
    Ok(Some(TableRow {
        space,
        id: mount.id,
        parent: mount.parent,
        device,
        root,
        point,
        attrs: attrs_told(&mount.options),
        state: State {
            group: mount.shared,
            master: mount.master,
            unbindable: mount.unbindable,
        },
        kind: label_told(alloc, &mount.kind)?,
        source: label_told(alloc, &mount.source)?,
    }))
}
