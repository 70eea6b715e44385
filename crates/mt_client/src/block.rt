//! The rows, namespaces, posts and commands of an answer, which are printed once they are known for such.
ghost use Rattle.std.specs.Prelude.{◌≡◌, ◌≢◌, [], ◌∷◌, None, Err, IfOk, IfErr, OnOk};
ghost use Rattle.mt_lines.specs.Reading.{fault_of, last_line};
ghost use Rattle.mt_client.specs.Calls.{IsPassFault, PassesOn};
ghost use Rattle.mt_client.specs.Awaited.{IsRowAbove, AreRowLines};
ghost use Rattle.mt_client.specs.Locked.{IsLockOf, IsLockAbove, AreLockLines};
ghost use Rattle.mt_client.specs.Replies.{IsRowOf, IsPartLines, IsPostLines, IsCommandLines, IsBlock, IsBlockOf, AreBlockLines, AreBehind};

use crate::fault::ClientFault;
use crate::opening::{MOST_ROWS, is_beyond, read_heading, row_above};
use crate::posts::{lines_of_event, push_line, push_lines, read_text};
use crate::relay::{next_text, print, print_line};
use mt_info::lock_line::read_lock_line;
use mt_lines::line::LineReader;
use mt_lines::stream::{Input, Output};
use mt_mounts::mount::MountId;
use mt_protocol::form::{Form, has_command_verb};
use mt_skel::list::is_above;
use std::alloc::Global;

/// What the lines behind the first line of an answer are.
#[derive(Clone, Copy, Debug, PartialEq, Eq)]
pub enum Block {
    /// A line that tells a namespace, and its rows.
    Namespace,
    /// A line that begins a post, and the lines of the post.
    Post,
    /// The line of a command.
    Command,
}

/// The ID of the row of which a text is the line, where it is above the last one: refused as `Connection` where the text
/// is the line of none such, and else as `NoMemory`.
fn id_above(alloc: Global, text: &[u8], last: Option<MountId>) -> Result<MountId, ClientFault>
    ensures row { IfOk result (λ id. IsRowOf last id (text.now ∷ [])) }
    ensures refused { result ≡ Err ClientFault.Connection → IsRowAbove last (text.now ∷ []) → ⊥ }
    ensures kind { result ≢ Err ClientFault.Output }
{
    let row = row_above(alloc, text, last)?;
    Ok(row.id)
}

/// Reads the line of a row with an ID above the last one, and prints it: its ID.
fn pass_row<R: Input + Drop, O: Output>(
    alloc: Global,
    lines: &mut LineReader<R>,
    last: Option<MountId>,
    out: &mut O,
) -> Result<MountId, ClientFault>
    requires fresh { fault_of lines.old ≡ None }
    ensures passed { IfOk result (λ id. PassesOn O.Output [] (IsRowOf last id) lines.old lines.new out.old out.new) }
    ensures fault { IfErr result (λ fault. IsPassFault O.Output fault (IsRowAbove last) [] lines.old lines.new out.old out.new) }
{
    next_text(lines)?;
    let id = id_above(alloc, lines.line(), last)?;
    print_line(out, lines.line())?;
    Ok(id)
}

/// Reads the lines of so many rows, by rising ID, and prints each.
fn pass_rows<R: Input + Drop, O: Output>(
    alloc: Global,
    lines: &mut LineReader<R>,
    count: u64,
    out: &mut O,
) -> Result<(), ClientFault>
    requires fresh { fault_of lines.old ≡ None }
    ensures passed { OnOk result (PassesOn O.Output [] (AreRowLines count) lines.old lines.new out.old out.new) }
    ensures fault { IfErr result (λ fault. IsPassFault O.Output fault (AreRowLines count) [] lines.old lines.new out.old out.new) }
{
    let mut last = None;
    'rows: for _row in 0..count {
        last = Some(pass_row(alloc, lines, last, out)?);
    }
    Ok(())
}

/// Reads a line that tells what is locked of a mount with an ID above the last one, and prints it: that ID.
fn pass_lock<R: Input + Drop, O: Output>(
    lines: &mut LineReader<R>,
    last: Option<MountId>,
    out: &mut O,
) -> Result<MountId, ClientFault>
    requires fresh { fault_of lines.old ≡ None }
    ensures passed { IfOk result (λ id. PassesOn O.Output [] (IsLockOf last id) lines.old lines.new out.old out.new) }
    ensures fault { IfErr result (λ fault. IsPassFault O.Output fault (IsLockAbove last) [] lines.old lines.new out.old out.new) }
{
    next_text(lines)?;
    let id = lock_above(lines.line(), last)?;
    print_line(out, lines.line())?;
    Ok(id)
}

/// The ID of the mount of which a text tells what is locked, where it is above the last one: refused as `Connection` where
/// the text tells no such thing.
fn lock_above(text: &[u8], last: Option<MountId>) -> Result<MountId, ClientFault>
    ensures lock { IfOk result (λ id. IsLockOf last id (text.now ∷ [])) }
    ensures refused { result ≡ Err ClientFault.Connection → IsLockAbove last (text.now ∷ []) → ⊥ }
    ensures kind { result ≢ Err ClientFault.Output }
{
    let Ok(locks) = read_lock_line(text) else {
        return Err(ClientFault::Connection);
    };
    if is_above(last, locks.mount) {
        Ok(locks.mount)
    } else {
        Err(ClientFault::Connection)
    }
}

/// Reads so many lines that tell what is locked of mounts, by rising ID, and prints each.
fn pass_locks<R: Input + Drop, O: Output>(
    lines: &mut LineReader<R>,
    count: u64,
    out: &mut O,
) -> Result<(), ClientFault>
    requires fresh { fault_of lines.old ≡ None }
    ensures passed { OnOk result (PassesOn O.Output [] (AreLockLines count) lines.old lines.new out.old out.new) }
    ensures fault { IfErr result (λ fault. IsPassFault O.Output fault (AreLockLines count) [] lines.old lines.new out.old out.new) }
{
    let mut last = None;
    'locking: for _row in 0..count {
        last = Some(pass_lock(lines, last, out)?);
    }
    Ok(())
}

/// Prints the first line of a namespace, which the reader lends, reads its rows and prints each: how many they are.
fn pass_part<R: Input + Drop, O: Output>(
    alloc: Global,
    lines: &mut LineReader<R>,
    out: &mut O,
) -> Result<u64, ClientFault>
    requires fresh { fault_of lines.old ≡ None }
    ensures passed { IfOk result (λ behind. PassesOn O.Output (last_line lines.old ∷ []) (IsBlockOf Block.Namespace behind) lines.old lines.new out.old out.new) }
    ensures fault { IfErr result (λ fault. IsPassFault O.Output fault IsPartLines (last_line lines.old ∷ []) lines.old lines.new out.old out.new) }
{
    let Some(heading) = read_heading(lines.line()) else {
        return Err(ClientFault::Connection);
    };
    if is_beyond(heading.count, MOST_ROWS) {
        return Err(ClientFault::Connection);
    }
    print_line(out, lines.line())?;
    pass_rows(alloc, lines, heading.count, out)?;
    Ok(heading.count)
}

/// Reads the lines behind the first one of a post, which the reader lends, and prints them all once they are known for
/// a post: how many stand behind the first.
pub(crate) fn pass_post<R: Input + Drop, O: Output>(
    alloc: Global,
    lines: &mut LineReader<R>,
    out: &mut O,
) -> Result<u64, ClientFault>
    requires fresh { fault_of lines.old ≡ None }
    ensures passed { IfOk result (λ behind. PassesOn O.Output (last_line lines.old ∷ []) (IsBlockOf Block.Post behind) lines.old lines.new out.old out.new) }
    ensures fault { IfErr result (λ fault. IsPassFault O.Output fault IsPostLines (last_line lines.old ∷ []) lines.old lines.new out.old out.new) }
{
    let Some(count) = lines_of_event(lines.line()) else {
        return Err(ClientFault::Connection);
    };
    let mut text = Vec::new(alloc);
    push_line(&mut text, lines.line())?;
    push_lines(&mut text, lines, count)?;
    read_text(alloc, &text)?;
    print(out, &text)?;
    Ok(count)
}

/// Prints the line of a command, which the reader lends: none stands behind it.
fn pass_command<R: Input + Drop, O: Output>(
    lines: &mut LineReader<R>,
    out: &mut O,
) -> Result<u64, ClientFault>
    requires fresh { fault_of lines.old ≡ None }
    ensures passed { IfOk result (λ behind. PassesOn O.Output (last_line lines.old ∷ []) (IsBlockOf Block.Command behind) lines.old lines.new out.old out.new) }
    ensures fault { IfErr result (λ fault. IsPassFault O.Output fault IsCommandLines (last_line lines.old ∷ []) lines.old lines.new out.old out.new) }
{
    if !has_command_verb(lines.line()) {
        return Err(ClientFault::Connection);
    }
    print_line(out, lines.line())?;
    Ok(0)
}

/// Reads a namespace, a post or a command and prints its lines: how many stand behind its first one.
fn pass_block<R: Input + Drop, O: Output>(
    alloc: Global,
    lines: &mut LineReader<R>,
    block: Block,
    out: &mut O,
) -> Result<u64, ClientFault>
    requires fresh { fault_of lines.old ≡ None }
    ensures passed { IfOk result (λ behind. PassesOn O.Output [] (IsBlockOf block behind) lines.old lines.new out.old out.new) }
    ensures fault { IfErr result (λ fault. IsPassFault O.Output fault (IsBlock block) [] lines.old lines.new out.old out.new) }
{
    next_text(lines)?;
    match block {
        Block::Namespace => pass_part(alloc, lines, out),
        Block::Post => pass_post(alloc, lines, out),
        Block::Command => pass_command(lines, out),
    }
}

/// Reads so many lines of namespaces, of posts or of commands, and prints them.
fn pass_blocks<R: Input + Drop, O: Output>(
    alloc: Global,
    lines: &mut LineReader<R>,
    block: Block,
    count: u64,
    out: &mut O,
) -> Result<(), ClientFault>
    requires fresh { fault_of lines.old ≡ None }
    ensures passed { OnOk result (PassesOn O.Output [] (AreBlockLines block count) lines.old lines.new out.old out.new) }
    ensures fault { IfErr result (λ fault. IsPassFault O.Output fault (AreBlockLines block count) [] lines.old lines.new out.old out.new) }
{
    let mut left = count;
    'passing: while left > 0 {
        let behind = pass_block(alloc, lines, block, out)?;
        let Some(rest) = (left - 1).checked_sub(behind) else {
            return Err(ClientFault::Connection);
        };
        left = rest;
    }
    Ok(())
}

/// Reads so many lines as come behind the first line of an answer of this form, and prints them.
pub(crate) fn pass_behind<R: Input + Drop, O: Output>(
    alloc: Global,
    lines: &mut LineReader<R>,
    form: Form,
    count: u64,
    out: &mut O,
) -> Result<(), ClientFault>
    requires fresh { fault_of lines.old ≡ None }
    ensures passed { OnOk result (PassesOn O.Output [] (AreBehind form count) lines.old lines.new out.old out.new) }
    ensures fault { IfErr result (λ fault. IsPassFault O.Output fault (AreBehind form count) [] lines.old lines.new out.old out.new) }
{
    match form {
        Form::Table => pass_rows(alloc, lines, count, out),
        Form::Locks => pass_locks(lines, count, out),
        Form::Opening => pass_blocks(alloc, lines, Block::Namespace, count, out),
        Form::Posts => pass_blocks(alloc, lines, Block::Post, count, out),
        Form::Commands => pass_blocks(alloc, lines, Block::Command, count, out),
        Form::Done | Form::Number | Form::Place | Form::Followed | Form::Never => {
            if count == 0 {
                Ok(())
            } else {
                Err(ClientFault::Connection)
            }
        }
    }
}
