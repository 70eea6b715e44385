//! What is told of that which a line is given: it is taken to be there.
ghost use Rattle.std.specs.Prelude.{◌≡◌, ◌++◌, codes, OnOk, IfOk, IsOkUnless};
ghost use Rattle.std.specs.List.{starts_with};
ghost use Rattle.std.specs.Str.{bytes_eq};
ghost use Rattle.mt_skel.specs.Escapes.{escaped};
ghost use Rattle.mt_info.specs.RowLine.{path_text};
ghost use Rattle.mt_what_if.specs.Taken.{taken_words, encloses_directory, encloses, encloses_next, taken_if, taken_told};

use mt_book::command::Command;
use mt_info::print::{push_label, push_path};
use mt_reach::path::Path;
use mt_skel::fault::Fault;
use mt_skel::name::Label;
use mt_skel::names::Names;
use std::alloc::{AllocError, Global};

/// Appends a filesystem, by its name.
fn push_filesystem(text: &mut Vec<u8>, name: &Label) -> Result<(), AllocError>
    ensures { OnOk result (text.new.items ≡ text.old.items ++ (codes "filesystem " ++ escaped name.now ++ codes "\n")) }
{
    text.extend_from_slice(b"filesystem ")?;
    push_label(text, name)?;
    text.extend_from_slice(b"\n")
}

/// Appends a directory, by its path in its filesystem.
fn push_directory(text: &mut Vec<u8>, fs: &Label, path: &Names) -> Result<(), AllocError>
    ensures { OnOk result (text.new.items ≡ text.old.items ++ (codes "directory " ++ path_text path.now ++ codes " of " ++ escaped fs.now ++ codes "\n")) }
{
    text.extend_from_slice(b"directory ")?;
    push_path(text, path)?;
    text.extend_from_slice(b" of ")?;
    push_label(text, fs)?;
    text.extend_from_slice(b"\n")
}

/// Appends what a command makes.
#[tactic(auto, unfolding(crate::specs::Taken::taken_words))]
fn push_words(text: &mut Vec<u8>, command: &Command) -> Result<(), AllocError>
    ensures { OnOk result (text.new.items ≡ text.old.items ++ taken_words command.now) }
{
    match command {
        Command::MakeFs { name, .. } => push_filesystem(text, name),
        Command::MakeDir { fs, path } => push_directory(text, fs, path),
        _ => Ok(()),
    }
}

/// Whether the first names of a path are all those of another one.
fn begins_with(alloc: Global, below: &Names, path: &Names) -> Result<bool, Fault>
    ensures begins { IfOk result (λ begins. begins ≡ starts_with bytes_eq below.now path.now) }
    ensures memory { IsOkUnless result Fault.NoMemory }
{
    let below = Path::of(below, alloc)?;
    let path = Path::of(path, alloc)?;
    Ok(below.starts_with(&path))
}

/// Whether a command makes a directory which is this one, or above it.
fn encloses_directory(
    alloc: Global,
    command: &Command,
    other: &Label,
    below: &Names,
) -> Result<bool, Fault>
    ensures above { IfOk result (λ above. above ≡ encloses_directory command.now other.now below.now) }
    ensures memory { IsOkUnless result Fault.NoMemory }
{
    match command {
        Command::MakeDir { fs, path } => {
            let begins = begins_with(alloc, below, path)?;
            Ok(fs.bytes() == other.bytes() && begins)
        }
        _ => Ok(false),
    }
}

/// Whether a command makes a directory above that of another one.
fn encloses(alloc: Global, command: &Command, next: &Command) -> Result<bool, Fault>
    ensures above { IfOk result (λ above. above ≡ encloses command.now next.now) }
    ensures memory { IsOkUnless result Fault.NoMemory }
{
    match next {
        Command::MakeDir { fs, path } => encloses_directory(alloc, command, fs, path),
        _ => Ok(false),
    }
}

/// Whether a command makes a directory above that of the first of these.
fn encloses_next(alloc: Global, command: &Command, later: &[Command]) -> Result<bool, Fault>
    ensures above { IfOk result (λ above. above ≡ encloses_next command.now later.now) }
    ensures memory { IsOkUnless result Fault.NoMemory }
{
    match later {
        [] => Ok(false),
        [next, ..] => encloses(alloc, command, next),
    }
}

/// Appends what a command makes, unless it is a directory in which the first of the later commands makes one.
fn push_if(text: &mut Vec<u8>, command: &Command, later: &[Command]) -> Result<(), Fault>
    ensures text { OnOk result (text.new.items ≡ text.old.items ++ taken_if command.now later.now) }
    ensures memory { IsOkUnless result Fault.NoMemory }
{
    let alloc = *text.allocator();
    if encloses_next(alloc, command, later)? {
        return Ok(());
    }
    push_words(text, command)?;
    Ok(())
}

/// What is taken to be there where these commands were given, a line each: filesystems and directories, and of directories that are
/// made one in the other the last one alone. Refused as `NoMemory` alone.
pub(crate) fn taken_told(alloc: Global, given: &[Command]) -> Result<Vec<u8>, Fault>
    ensures text { IfOk result (λ text. text.items ≡ taken_told given.now) }
    ensures memory { IsOkUnless result Fault.NoMemory }
{
    let mut text = Vec::new(alloc);
    'given: for (place, command) in given.iter().enumerate() {
        push_if(&mut text, command, &given[place + 1..])?;
    }
    Ok(text)
}
