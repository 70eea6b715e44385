//! Posts as they are followed.
ghost use Rattle.std.specs.Prelude.{◌≡◌, ◌≢◌, ℕ, ◌≤◌, List, ◌++◌, length, true, false, None, Err, IfOk, IfErr, OnOk, MatchBool};
ghost use Rattle.mt_lines.specs.Reading.{fault_of, last_line};
ghost use Rattle.mt_lines.specs.Words.{words};
ghost use Rattle.mt_events.specs.Posts.{PostView, IsPost, post_text, ended};
ghost use Rattle.mt_events.specs.Mirrors.{is_next, mirrored};
ghost use Rattle.mt_client.specs.Requests.{event_count};
ghost use Rattle.mt_client.specs.Reading.{known_lines, printed, AreSoMany};
ghost use Rattle.mt_client.specs.Calls.{ReadsOn, AreRead, IsReadFault};
ghost use Rattle.mt_client.specs.Limits.{most_rows};
ghost use Rattle.mt_client.specs.Mirroring.{IsPosted, IsSentPost, may_come};
ghost use Rattle.mt_client.specs.Awaited.{IsPostBehind, IsOnlyPost};

use crate::answer::at_most;
use crate::fault::ClientFault;
use crate::opening::{MOST_POST_LINES, MOST_ROWS, is_beyond};
use crate::relay::next_text;
use mt_events::mirror::Mirror;
use mt_events::post::Post;
use mt_events::read::read_post;
use mt_lines::line::LineReader;
use mt_lines::stream::Input;
use mt_lines::words::{number, words};
use mt_skel::fault::Fault;
use std::alloc::{AllocError, Global};

/// How many lines follow the first line of a post, no more than there may be: the number that is its fourth word, where
/// its first is `event`.
pub(crate) fn lines_of_event(line: &[u8]) -> Option<u64>
    ensures { result ≡ event_count (words line.now) }
{
    let mut words = words(line);
    let (Some(first), Some(_), Some(_), Some(count)) = (
        words.next(),
        words.next(),
        words.next(),
        words.next(),
    ) else {
        return None;
    };
    if first != b"event".as_slice() {
        return None;
    }
    at_most(MOST_POST_LINES, number(count))
}

/// Appends a line and its line end.
pub(crate) fn push_line(text: &mut Vec<u8>, line: &[u8]) -> Result<(), AllocError>
    ensures { OnOk result (text.new.items ≡ text.old.items ++ ended line.now) }
{
    text.extend_from_slice(line)?;
    text.extend_from_slice(b"\n")?;
    Ok(())
}

/// Appends so many lines that are read, each with its line end.
pub(crate) fn push_lines<R: Input + Drop>(
    text: &mut Vec<u8>,
    lines: &mut LineReader<R>,
    count: u64,
) -> Result<(), ClientFault>
    requires fresh { fault_of lines.old ≡ None }
    ensures text { OnOk result ((all : List (List ℕ)) × (length all ≡ count) × AreRead all lines.old lines.new
        × (text.new.items ≡ text.old.items ++ printed all)) }
    ensures fault { IfErr result (λ fault. IsReadFault fault (AreSoMany count) (known_lines lines.old) lines.old lines.new) }
{
    'lines: for _line in 0..count {
        next_text(lines)?;
        push_line(text, lines.line())?;
    }
    Ok(())
}

/// What a fault of the mirror's calls is to a client.
fn client_fault(fault: Fault) -> ClientFault
    ensures kind { result ≢ ClientFault.Output }
    ensures cause { result ≡ ClientFault.Connection → fault ≢ Fault.NoMemory }
{
    match fault {
        Fault::NoMemory => ClientFault::NoMemory,
        _ => ClientFault::Connection,
    }
}

/// Reads the post of which the reader lends the first line.
pub(crate) fn read_posted<R: Input + Drop>(
    alloc: Global,
    lines: &mut LineReader<R>,
) -> Result<Post, ClientFault>
    requires fresh { fault_of lines.old ≡ None }
    ensures posted { IfOk result (λ post. IsPosted (last_line lines.old) (known_lines lines.old) (known_lines lines.new) post) }
    ensures valid { IfOk result (λ post. IsSentPost post) }
    ensures only { IfOk result (λ post. IsOnlyPost (last_line lines.old) (known_lines lines.old) (known_lines lines.new) post) }
    ensures on { OnOk result (ReadsOn lines.old lines.new) }
    ensures fault { IfErr result (λ fault. IsReadFault fault (IsPostBehind (last_line lines.old)) (known_lines lines.old) lines.old lines.new) }
{
    let Some(count) = lines_of_event(lines.line()) else {
        return Err(ClientFault::Connection);
    };
    let mut text = Vec::new(alloc);
    push_line(&mut text, lines.line())?;
    push_lines(&mut text, lines, count)?;
    read_text(alloc, &text)
}

/// Whether a post tells no more mounts that left, and no more rows, than there may be.
fn is_within(post: &Post) -> bool
    ensures { MatchBool result ((length post.now.gone ≤ most_rows) × (length post.now.rows ≤ most_rows))
        ((length post.now.gone ≤ most_rows) × (length post.now.rows ≤ most_rows) → ⊥) }
{
    let gone = post.gone.as_slice().len() as u64;
    let rows = post.rows.rows().len() as u64;
    gone <= MOST_ROWS && rows <= MOST_ROWS
}

/// The post that a text says: refused as `Connection` where a server sends none such, and else as `NoMemory`.
pub(crate) fn read_text(alloc: Global, text: &[u8]) -> Result<Post, ClientFault>
    ensures post { IfOk result (λ post. text.now ≡ post_text post) }
    ensures valid { IfOk result (λ post. IsSentPost post) }
    ensures refused { result ≡ Err ClientFault.Connection → (post : PostView) → IsSentPost post → text.now ≢ post_text post }
    ensures kind { result ≢ Err ClientFault.Output }
{
    let post = post_said(alloc, text)?;
    if is_within(&post) {
        Ok(post)
    } else {
        Err(ClientFault::Connection)
    }
}

/// The post that a text says, with as many mounts and rows as it may be.
fn post_said(alloc: Global, text: &[u8]) -> Result<Post, ClientFault>
    ensures post { IfOk result (λ post. text.now ≡ post_text post) }
    ensures valid { IfOk result (λ post. IsPost post) }
    ensures refused { result ≡ Err ClientFault.Connection → (post : PostView) → IsPost post → text.now ≢ post_text post }
    ensures kind { result ≢ Err ClientFault.Output }
{
    match read_post(alloc, text) {
        Ok(post) => Ok(post),
        Err(fault) => Err(client_fault(fault)),
    }
}

/// Applies a post to a mirror, where it is the next one.
fn apply_post(mirror: &mut Mirror, post: &Post) -> Result<(), ClientFault>
    ensures applied { OnOk result ((is_next mirror.old post.now ≡ true) × (mirror.new ≡ mirrored mirror.old post.now)) }
    ensures refused { result ≡ Err ClientFault.Connection → is_next mirror.old post.now ≡ false }
    ensures kind { result ≢ Err ClientFault.Output }
{
    match mirror.apply(post) {
        Ok(()) => Ok(()),
        Err(fault) => Err(client_fault(fault)),
    }
}

/// Applies a post to a mirror, where it is the next one, and the table has no more rows then than there may be.
pub(crate) fn apply_next(mirror: &mut Mirror, post: &Post) -> Result<(), ClientFault>
    ensures applied { OnOk result ((may_come mirror.old post.now ≡ true) × (mirror.new ≡ mirrored mirror.old post.now)) }
    ensures refused { result ≡ Err ClientFault.Connection → may_come mirror.old post.now ≡ false }
    ensures kind { result ≢ Err ClientFault.Output }
{
    apply_post(mirror, post)?;
    if is_beyond(mirror.table().rows().len() as u64, MOST_ROWS) {
        Err(ClientFault::Connection)
    } else {
        Ok(())
    }
}
