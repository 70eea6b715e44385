//! The lines of commands: each is read as its command.
ghost use Rattle.std.specs.Prelude.{◌≡◌, ◌++◌, ◌∷◌, [], codes, decimal, OnOk};
ghost use Rattle.mt_info.specs.Building.{behind};
ghost use Rattle.mt_info.specs.RowLine.{word_if};
ghost use Rattle.mt_requests.specs.Requests.{command_verb};
ghost use Rattle.mt_requests.specs.Printed.{sent_byte, sent, sent_path, said_set, change_options, privilege_words, command_words, line_of_command, commands_text};

use crate::listing::{push_changes, push_set};
use mt_book::command::{Command, Privilege};
use mt_info::print::push_number;
use mt_mounts::mount::SpaceId;
use mt_protocol::verb::Verb;
use mt_setattr::change::{Change, SetWords};
use mt_skel::name::Label;
use mt_skel::names::Names;
use std::alloc::AllocError;

/// Appends a byte as it stands in a line.
fn push_byte(line: &mut Vec<u8>, byte: u8) -> Result<(), AllocError>
    ensures { OnOk result (line.new.items ≡ line.old.items ++ sent_byte byte) }
{
    match byte {
        b' ' => line.extend_from_slice(b"\\040"),
        b'\n' => line.extend_from_slice(b"\\012"),
        b'\\' => line.extend_from_slice(b"\\134"),
        _ => Ok(line.push(byte)?),
    }
}

/// Appends bytes as they stand in a line.
fn push_bytes(line: &mut Vec<u8>, bytes: &[u8]) -> Result<(), AllocError>
    ensures { OnOk result (line.new.items ≡ line.old.items ++ sent bytes.now) }
{
    for byte in bytes {
        push_byte(line, *byte)?;
    }
    Ok(())
}

/// Appends a label behind a space.
fn push_label(line: &mut Vec<u8>, label: &Label) -> Result<(), AllocError>
    ensures { OnOk result (line.new.items ≡ line.old.items ++ behind 32 (sent label.now ∷ [])) }
{
    line.push(b' ')?;
    push_bytes(line, label.bytes())?;
    Ok(())
}

/// Appends the word of a path.
#[tactic(auto, using(crate::proofs::SentWordLaws::root_lies))]
fn push_names(line: &mut Vec<u8>, path: &Names) -> Result<(), AllocError>
    ensures { OnOk result (line.new.items ≡ line.old.items ++ sent_path path.now) }
{
    let names = path.text();
    if names.is_empty() {
        line.extend_from_slice(b"/")?;
        return Ok(());
    }
    push_bytes(line, names)?;
    Ok(())
}

/// Appends a path behind a space.
fn push_path(line: &mut Vec<u8>, path: &Names) -> Result<(), AllocError>
    ensures { OnOk result (line.new.items ≡ line.old.items ++ behind 32 (sent_path path.now ∷ [])) }
{
    line.push(b' ')?;
    push_names(line, path)?;
    Ok(())
}

/// Appends the number of a namespace behind a space.
fn push_space(line: &mut Vec<u8>, space: SpaceId) -> Result<(), AllocError>
    ensures { OnOk result (line.new.items ≡ line.old.items ++ behind 32 (decimal space ∷ [])) }
{
    line.push(b' ')?;
    push_number(line, space)?;
    Ok(())
}

/// Appends a word behind a space, if something holds.
fn push_word_if(line: &mut Vec<u8>, holds: bool, word: &[u8]) -> Result<(), AllocError>
    ensures { OnOk result (line.new.items ≡ line.old.items ++ behind 32 (word_if holds word.now)) }
{
    if holds {
        line.push(b' ')?;
        line.extend_from_slice(word)?;
    }
    Ok(())
}

/// Appends three labels.
fn push_labels(
    line: &mut Vec<u8>,
    first: &Label,
    second: &Label,
    third: &Label,
) -> Result<(), AllocError>
    ensures { OnOk result (line.new.items ≡ line.old.items ++ behind 32 (sent first.now ∷ sent second.now ∷ sent third.now ∷ [])) }
{
    push_label(line, first)?;
    push_label(line, second)?;
    push_label(line, third)?;
    Ok(())
}

/// Appends a label and a path.
fn push_label_path(line: &mut Vec<u8>, fs: &Label, path: &Names) -> Result<(), AllocError>
    ensures { OnOk result (line.new.items ≡ line.old.items ++ behind 32 (sent fs.now ∷ sent_path path.now ∷ [])) }
{
    push_label(line, fs)?;
    push_path(line, path)?;
    Ok(())
}

/// Appends how a copy of a namespace stands to it.
fn push_privilege(line: &mut Vec<u8>, privilege: Privilege) -> Result<(), AllocError>
    ensures { OnOk result (line.new.items ≡ line.old.items ++ behind 32 (privilege_words privilege)) }
{
    match privilege {
        Privilege::Same => Ok(()),
        Privilege::Less => line.extend_from_slice(b" less"),
        Privilege::LessLocked => line.extend_from_slice(b" less lock"),
    }
}

/// Appends a namespace, and how its copy stands to it.
fn push_copy(line: &mut Vec<u8>, space: SpaceId, privilege: Privilege) -> Result<(), AllocError>
    ensures { OnOk result (line.new.items ≡ line.old.items ++ behind 32 (decimal space ∷ privilege_words privilege)) }
{
    push_space(line, space)?;
    push_privilege(line, privilege)?;
    Ok(())
}

/// Appends a namespace and a path.
fn push_place(line: &mut Vec<u8>, space: SpaceId, path: &Names) -> Result<(), AllocError>
    ensures { OnOk result (line.new.items ≡ line.old.items ++ behind 32 (decimal space ∷ sent_path path.now ∷ [])) }
{
    push_space(line, space)?;
    push_path(line, path)?;
    Ok(())
}

/// Appends a namespace and two paths.
fn push_two_places(
    line: &mut Vec<u8>,
    space: SpaceId,
    first: &Names,
    second: &Names,
) -> Result<(), AllocError>
    ensures { OnOk result (line.new.items ≡ line.old.items ++ behind 32 (decimal space ∷ sent_path first.now ∷ sent_path second.now ∷ [])) }
{
    push_place(line, space, first)?;
    push_path(line, second)?;
    Ok(())
}

/// Appends a namespace, a filesystem and a path.
fn push_mount(
    line: &mut Vec<u8>,
    space: SpaceId,
    fs: &Label,
    path: &Names,
) -> Result<(), AllocError>
    ensures { OnOk result (line.new.items ≡ line.old.items ++ behind 32 (decimal space ∷ sent fs.now ∷ sent_path path.now ∷ [])) }
{
    push_space(line, space)?;
    push_label_path(line, fs, path)?;
    Ok(())
}

/// Appends the same with attributes.
fn push_mount_with(
    line: &mut Vec<u8>,
    space: SpaceId,
    fs: &Label,
    path: &Names,
    set: SetWords,
) -> Result<(), AllocError>
    ensures { OnOk result (line.new.items ≡ line.old.items ++ behind 32 (decimal space ∷ sent fs.now ∷ sent_path path.now ∷ said_set set)) }
{
    push_mount(line, space, fs, path)?;
    push_set(line, set)?;
    Ok(())
}

/// Appends a namespace, a path and the options of a change.
fn push_setattr(
    line: &mut Vec<u8>,
    space: SpaceId,
    path: &Names,
    change: Change,
) -> Result<(), AllocError>
    ensures { OnOk result (line.new.items ≡ line.old.items ++ behind 32 (decimal space ∷ sent_path path.now ∷ change_options change)) }
{
    push_place(line, space, path)?;
    push_word_if(line, change.recursive, b"rec")?;
    push_changes(line, change)?;
    Ok(())
}

/// Appends a namespace and a path, and `rec` if all below comes too.
fn push_opentree(
    line: &mut Vec<u8>,
    space: SpaceId,
    path: &Names,
    recursive: bool,
) -> Result<(), AllocError>
    ensures { OnOk result (line.new.items ≡ line.old.items ++ behind 32 (decimal space ∷ sent_path path.now ∷ word_if recursive (codes "rec"))) }
{
    push_place(line, space, path)?;
    push_word_if(line, recursive, b"rec")?;
    Ok(())
}

/// Appends two namespaces and a path.
fn push_movetree(
    line: &mut Vec<u8>,
    tree: SpaceId,
    space: SpaceId,
    path: &Names,
) -> Result<(), AllocError>
    ensures { OnOk result (line.new.items ≡ line.old.items ++ behind 32 (decimal tree ∷ decimal space ∷ sent_path path.now ∷ [])) }
{
    push_space(line, tree)?;
    push_place(line, space, path)?;
    Ok(())
}

/// Appends the words of a command behind its verb.
fn push_words(line: &mut Vec<u8>, command: &Command) -> Result<(), AllocError>
    ensures { OnOk result (line.new.items ≡ line.old.items ++ behind 32 (command_words command.now)) }
{
    match command {
        Command::Room { .. } => Ok(()),
        Command::MakeFs { name, kind, source } => push_labels(line, name, kind, source),
        Command::MakeDir { fs, path } => push_label_path(line, fs, path),
        Command::NewSpace { fs } => push_label(line, fs),
        Command::CopySpace { space, privilege } => push_copy(line, *space, *privilege),
        Command::DropSpace { space } => push_space(line, *space),
        Command::Mount { space, fs, path } => push_mount(line, *space, fs, path),
        Command::MountWith {
            space,
            fs,
            path,
            set,
        } => push_mount_with(line, *space, fs, path, *set),
        Command::Bind {
            space,
            src,
            dst,
            ..
        } => push_two_places(line, *space, src, dst),
        Command::Move { space, src, dst } => push_two_places(line, *space, src, dst),
        Command::Pivot { space, new, old } => push_two_places(line, *space, new, old),
        Command::Unmount { space, path } => push_place(line, *space, path),
        Command::Detach { space, path } => push_place(line, *space, path),
        Command::SetAttr {
            space,
            path,
            change,
        } => push_setattr(line, *space, path, *change),
        Command::OpenTree {
            space,
            path,
            recursive,
        } => push_opentree(line, *space, path, *recursive),
        Command::NewTree { fs } => push_label(line, fs),
        Command::MoveTree { tree, space, path } => push_movetree(line, *tree, *space, path),
    }
}

/// The verb of a command. No line asks for a room: its verb is one with the same form of answer.
fn verb_of(command: &Command) -> Verb
    ensures { result ≡ command_verb command.now }
{
    match command {
        Command::MakeFs { .. } => Verb::Mkfs,
        Command::Room { .. } | Command::MakeDir { .. } => Verb::Mkdir,
        Command::NewSpace { .. } => Verb::Newns,
        Command::CopySpace { .. } => Verb::Copyns,
        Command::DropSpace { .. } => Verb::Dropns,
        Command::Mount { .. } | Command::MountWith { .. } => Verb::Mount,
        Command::Bind { recursive, .. } => { if *recursive { Verb::Rbind } else { Verb::Bind } }
        Command::Move { .. } => Verb::Move,
        Command::Pivot { .. } => Verb::Pivot,
        Command::Unmount { .. } => Verb::Umount,
        Command::Detach { .. } => Verb::Detach,
        Command::SetAttr { .. } => Verb::Setattr,
        Command::OpenTree { .. } => Verb::Opentree,
        Command::NewTree { .. } => Verb::Newtree,
        Command::MoveTree { .. } => Verb::Movetree,
    }
}

/// Appends the line of a command, without its line end. Where a line has said the command, this one is read as the same
/// command ([`crate::laws`]), and is no longer.
#[tactic(auto, unfolding(crate::specs::Printed::line_of_command))]
pub fn push_command(line: &mut Vec<u8>, command: &Command) -> Result<(), AllocError>
    ensures { OnOk result (line.new.items ≡ line.old.items ++ line_of_command command.now) }
{
    line.extend_from_slice(verb_of(command).word())?;
    push_words(line, command)?;
    Ok(())
}

/// Appends the lines of commands, each with its line end.
pub fn push_commands(text: &mut Vec<u8>, commands: &[Command]) -> Result<(), AllocError>
    ensures { OnOk result (text.new.items ≡ text.old.items ++ commands_text commands.now) }
{
    for command in commands {
        push_command(text, command)?;
        text.push(b'\n')?;
    }
    Ok(())
}
