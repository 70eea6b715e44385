//! Which component of a path is not there.
ghost use Rattle.std.specs.Prelude.{◌≡◌, ◌++◌, None, Some, OnOk, IfOk, IsOkUnless, MatchOption};
ghost use Rattle.mt_refused.specs.Listings.{told_line};
ghost use Rattle.mt_refused.specs.Missing.{absent_text, without_text, missing_line, mkdir_line, lacking_text, missing_text};

use crate::asked::{Which, asked_path, asked_space};
use crate::listing::push_line;
use crate::page::Page;
use crate::part::{Part, push_parts};
use crate::titles::Titles;
use mt_book::command::Command;
use mt_reach::path::Path;
use mt_reach::row::SeenRow;
use mt_reach::rows::SeenRows;
use mt_reach::text::SeenText;
use mt_reach::walking::{directory_at, end_of};
use mt_skel::fault::Fault;
use std::alloc::{AllocError, Global};

/// The path of these names. Refused as `NoMemory` alone.
fn path_of(alloc: Global, names: &[SeenText]) -> Result<Path, Fault>
    ensures path { IfOk result (λ path. path ≡ names.now) }
    ensures memory { IsOkUnless result Fault.NoMemory }
{
    let mut path = Path::root(alloc);
    'names: for name in names {
        path = path.with(name.copy()?)?;
    }
    Ok(path)
}

/// Appends which path is not there, and the names of it that are.
#[tactic(auto, unfolding(crate::specs::Missing::absent_text))]
fn push_absent(
    text: &mut Vec<u8>,
    page: &Page<'_>,
    which: Which,
    front: &Path,
) -> Result<(), AllocError>
    ensures { OnOk result (text.new.items ≡ text.old.items ++ absent_text page.now which front.now) }
{
    push_parts(
        text,
        page,
        &[
            Part::Text(b"NoEntry: "),
            Part::Asked(which),
            Part::Text(b" is not there: "),
            Part::Names(front),
        ],
    )
}

/// Appends that a directory of a mount has no such name.
#[tactic(auto, unfolding(crate::specs::Missing::without_text))]
fn push_without<'a>(
    text: &mut Vec<u8>,
    page: &Page<'_>,
    row: &SeenRow,
    directory: &'a Path,
    name: &'a [u8],
) -> Result<(), AllocError>
    ensures { OnOk result (text.new.items ≡ text.old.items ++ without_text page.now row.now directory.now name.now) }
{
    push_parts(
        text,
        page,
        &[
            Part::Text(b" is directory "),
            Part::Names(directory),
            Part::Text(b" of "),
            Part::Mount(row.id),
            Part::Text(b", and has no "),
            Part::Name(name),
            Part::Text(b"\n"),
        ],
    )
}

/// Appends which path is not there, the directory to which the names lead that are, and the name that this has not.
fn push_missing(
    text: &mut Vec<u8>,
    page: &Page<'_>,
    which: Which,
    row: &SeenRow,
    front: &Path,
    directory: &Path,
    name: &SeenText,
) -> Result<(), AllocError>
    ensures { OnOk result (text.new.items ≡ text.old.items ++ missing_line page.now which row.now front.now directory.now name.now) }
{
    push_absent(text, page, which, front)?;
    push_without(text, page, row, directory, name.bytes())
}

/// Appends the line that makes a directory in the filesystem of a mount.
#[tactic(auto, unfolding(crate::specs::Missing::mkdir_line))]
fn push_mkdir(
    text: &mut Vec<u8>,
    page: &Page<'_>,
    row: &SeenRow,
    directory: &Path,
) -> Result<(), AllocError>
    ensures { OnOk result (text.new.items ≡ text.old.items ++ mkdir_line row.now directory.now) }
{
    push_parts(
        text,
        page,
        &[
            Part::Text(b"  to change that: mkdir FS "),
            Part::Names(directory),
            Part::Text(b", where FS is the filesystem "),
            Part::Number(row.root.device.major),
            Part::Text(b":"),
            Part::Number(row.root.device.minor),
            Part::Text(b"\n"),
        ],
    )
}

/// Appends what is told of a path whose first names lead to a directory of a mount, which has no such name; what has it, and is to
/// be made, is `below`. Refused as `NoMemory` alone.
fn push_lacking(
    text: &mut Vec<u8>,
    page: &Page<'_>,
    which: Which,
    row: &SeenRow,
    front: &Path,
    directory: &Path,
    name: &SeenText,
    below: &Path,
) -> Result<(), Fault>
    ensures text { OnOk result (text.new.items ≡ text.old.items ++ (missing_line page.now which row.now front.now directory.now name.now ++ (told_line page.now row.now.id ++ mkdir_line row.now below.now))) }
    ensures memory { IsOkUnless result Fault.NoMemory }
{
    push_missing(text, page, which, row, front, directory, name)?;
    push_line(text, page, row.id)?;
    push_mkdir(text, page, row, below)?;
    Ok(())
}

/// What is told of a path whose first names lead to a directory of a mount, which has no such name. Refused as `NoMemory` alone.
#[tactic(auto, unfolding(crate::specs::Missing::lacking_text))]
fn lacking_text(
    alloc: Global,
    page: &Page<'_>,
    which: Which,
    row: &SeenRow,
    front: &Path,
    name: &SeenText,
) -> Result<Vec<u8>, Fault>
    ensures text { IfOk result (λ text. text.items ≡ lacking_text page.now which row.now front.now name.now) }
    ensures memory { IsOkUnless result Fault.NoMemory }
{
    let mut text = Vec::new(alloc);
    let directory = directory_at(row, front)?;
    let below = directory.path.copy()?.with(name.copy()?)?;
    push_lacking(
        &mut text,
        page,
        which,
        row,
        front,
        &directory.path,
        name,
        &below,
    )?;
    Ok(text)
}

/// What is told of a command that is refused as `NoEntry`, where so many names of one of its paths lead to a directory, and the
/// next one leads no further: the path, that directory with its mount, and the `mkdir` that makes the next one. Lines as
/// [`refused_text`](crate::text::refused_text) has them. `None` where the command has no such name, or no table is that of its
/// namespace. Refused as `NoMemory` alone.
pub fn missing_text(
    alloc: Global,
    rows: &SeenRows,
    titles: &Titles,
    command: &Command,
    which: Which,
    there: usize,
) -> Result<Option<Vec<u8>>, Fault>
    ensures told { IfOk result (λ text. MatchOption text (missing_text rows.now titles.now command.now which there ≡ None) (λ told. missing_text rows.now titles.now command.now which there ≡ Some told.items)) }
    ensures memory { IsOkUnless result Fault.NoMemory }
{
    let Some(space) = asked_space(command) else {
        return Ok(None);
    };
    let Some(names) = asked_path(command, which) else {
        return Ok(None);
    };
    let path = Path::of(names, alloc)?;
    let names = path.names();
    if there >= names.len() {
        return Ok(None);
    }
    let name = &names[there];
    let front = path_of(alloc, &names[..there])?;
    let Some(row) = end_of(rows, space, &front)? else {
        return Ok(None);
    };
    let page = Page::new(rows, titles, command);
    let text = lacking_text(alloc, &page, which, row, &front, name)?;
    Ok(Some(text))
}
