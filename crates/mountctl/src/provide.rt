//! What a line needs and no table tells of: a filesystem that is mounted, and directories to mount on.
ghost use Rattle.std.specs.Prelude.{◌≡◌, None, OnOk};
ghost use Rattle.mt_lines.specs.Reading.{fault_of};

use crate::fault::Fault;
use crate::kept::Kept;
use crate::quiet::Quiet;
use mt_client::ask::{ask, ask_line};
use mt_client::fault::ClientFault;
use mt_client::request::request_line;
use mt_lines::line::LineReader;
use mt_lines::stream::{Input, Output};
use mt_lines::words::{Pieces, number, words};
use mt_protocol::verb::Verb;
use std::alloc::{AllocError, Global};

/// The text of the answer to a request of these words, or None where it is refused.
fn answer_to<R: Input + Drop, W: Output>(
    alloc: Global,
    request: &[&[u8]],
    lines: &mut LineReader<R>,
    writer: &mut W,
) -> Result<Option<Kept>, Fault>
    requires fresh { fault_of lines.old ≡ None }
    ensures fresh { OnOk result (fault_of lines.new ≡ None) }
{
    let mut kept = Kept::new(alloc);
    match ask(alloc, lines, writer, request, &mut kept) {
        Ok(true) => Ok(Some(kept)),
        Ok(false) => Ok(None),
        Err(ClientFault::Output) => Err(Fault::NoMemory),
        Err(fault) => Err(Fault::from(fault)),
    }
}

/// The mount and the directory of it that an answer to `find` tells.
fn place_in(answer: &[u8]) -> Option<(&[u8], &[u8])> {
    let mut words = words(answer.strip_suffix(b"\n")?);
    let (Some(_), Some(mount), Some(directory), None) = (
        words.next(),
        words.next(),
        words.next(),
        words.next(),
    ) else {
        return None;
    };
    Some((mount, directory))
}

/// The number of the filesystem that a row shows, if it is that of a mount.
fn filesystem_in(row: &[u8], mount: &[u8]) -> Option<u64> {
    let mut words = words(row);
    if words.next()? != mount {
        return None;
    }
    let _parent = words.next()?;
    number(words.next()?.strip_prefix(b"0:")?)
}

/// The number of the filesystem that a mount shows in a table.
fn filesystem_of(table: &[u8], mount: &[u8]) -> Option<u64> {
    for row in Pieces::new(b'\n', table) {
        if let Some(number) = filesystem_in(row, mount) {
            return Some(number);
        }
    }
    None
}

/// The name of a filesystem that a line of a script makes, with its escapes.
fn made_name(line: &[u8]) -> Option<&[u8]> {
    let mut words = words(line);
    if words.next()? != Verb::Mkfs.word() {
        return None;
    }
    words.next()
}

/// The name of the filesystem of a number, as its script makes it.
fn name_of<'a>(script: &'a [u8], number: u64) -> Option<&'a [u8]> {
    let mut left = number;
    for line in Pieces::new(b'\n', script) {
        if let Some(name) = made_name(line) {
            left = left.checked_sub(1)?;
            if left == 0 {
                return Some(name);
            }
        }
    }
    None
}

/// The line that makes a directory: in one of a filesystem, both told with their escapes, and of this name. Fails for want
/// of memory alone.
fn directory_line(
    alloc: Global,
    filesystem: &[u8],
    above: &[u8],
    name: &[u8],
) -> Result<Vec<u8>, AllocError> {
    let mut line = Vec::new(alloc);
    line.extend_from_slice(Verb::Mkdir.word())?;
    line.extend_from_slice(b" ")?;
    line.extend_from_slice(filesystem)?;
    line.extend_from_slice(b" ")?;
    if above != b"/".as_slice() {
        line.extend_from_slice(above)?;
    }
    line.extend_from_slice(b"/")?;
    let name = request_line(alloc, &[name])?;
    line.extend_from_slice(name.as_slice())?;
    Ok(line)
}

/// Makes a directory of this name in a directory of a namespace, if that is one of a filesystem of the script.
fn provide_directory<R: Input + Drop, W: Output>(
    alloc: Global,
    script: &[u8],
    space: &[u8],
    above: &[u8],
    name: &[u8],
    lines: &mut LineReader<R>,
    writer: &mut W,
) -> Result<(), Fault>
    requires fresh { fault_of lines.old ≡ None }
    ensures fresh { OnOk result (fault_of lines.new ≡ None) }
{
    let Some(found) = answer_to(alloc, &[b"find", space, above], lines, writer)? else {
        return Ok(());
    };
    let Some(table) = answer_to(alloc, &[b"show", space], lines, writer)? else {
        return Ok(());
    };
    let Some((mount, directory)) = place_in(found.text()) else {
        return Ok(());
    };
    let Some(number) = filesystem_of(table.text(), mount) else {
        return Ok(());
    };
    let Some(filesystem) = name_of(script, number) else {
        return Ok(());
    };
    let line = directory_line(alloc, filesystem, directory, name)?;
    let _made = ask_line(alloc, lines, writer, line.as_slice(), &mut Quiet)?;
    Ok(())
}

/// Makes the directory that the next name of a path leads to, if there is none.
fn provide_next<R: Input + Drop, W: Output>(
    alloc: Global,
    script: &[u8],
    space: &[u8],
    path: &mut Vec<u8>,
    name: &[u8],
    lines: &mut LineReader<R>,
    writer: &mut W,
) -> Result<(), Fault>
    requires fresh { fault_of lines.old ≡ None }
    ensures fresh { OnOk result (fault_of lines.new ≡ None) }
{
    let mut above = Vec::new(alloc);
    above.extend_from_slice(path.as_slice())?;
    path.extend_from_slice(b"/")?;
    path.extend_from_slice(name)?;
    if answer_to(alloc, &[b"find", space, path.as_slice()], lines, writer)?.is_some() {
        return Ok(());
    }
    if above.is_empty() {
        above.extend_from_slice(b"/")?;
    }
    provide_directory(alloc, script, space, above.as_slice(), name, lines, writer)
}

/// Makes the directories on a path that are not there, each in the filesystem of the mount that the path leads to.
fn provide_path<R: Input + Drop, W: Output>(
    alloc: Global,
    script: &[u8],
    space: &[u8],
    path: &[u8],
    lines: &mut LineReader<R>,
    writer: &mut W,
) -> Result<(), Fault>
    requires fresh { fault_of lines.old ≡ None }
    ensures fresh { OnOk result (fault_of lines.new ≡ None) }
{
    let Some(names) = path.strip_prefix(b"/") else {
        return Ok(());
    };
    let mut there = Vec::new(alloc);
    'names: for name in Pieces::new(b'/', names) {
        provide_next(alloc, script, space, &mut there, name, lines, writer)?;
    }
    Ok(())
}

/// Makes what a line of these words needs and no table tells of: the filesystem of a `mount`, if it has a name that none
/// has, and the directories that lead to where a mount is to stand. What cannot be made is left to the line.
pub(crate) fn provide<R: Input + Drop, W: Output>(
    alloc: Global,
    script: &[u8],
    words: &[&str],
    lines: &mut LineReader<R>,
    writer: &mut W,
) -> Result<(), Fault>
    requires fresh { fault_of lines.old ≡ None }
    ensures fresh { OnOk result (fault_of lines.new ≡ None) }
{
    let Some((verb, behind)) = words.split_first() else {
        return Ok(());
    };
    match (Verb::of(verb.as_bytes()), behind) {
        (Some(Verb::Mount), [space, filesystem, path, ..]) => {
            let name = filesystem.as_bytes();
            let _made = answer_to(alloc, &[b"mkfs", name, name, b"none"], lines, writer)?;
            provide_path(
                alloc,
                script,
                space.as_bytes(),
                path.as_bytes(),
                lines,
                writer,
            )
        }
        (Some(Verb::Bind | Verb::Rbind | Verb::Move), [space, _, path]) => {
            provide_path(
                alloc,
                script,
                space.as_bytes(),
                path.as_bytes(),
                lines,
                writer,
            )
        }
        _ => Ok(()),
    }
}
