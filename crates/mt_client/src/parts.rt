//! The namespaces that a watcher found.
ghost use Rattle.std.specs.Prelude.{◌≡◌, ◌≢◌, ◌+◌, ◌≤◌, [], ◌∷◌, map, length, None, IfOk, IfErr, IfSome, OnOk, IsTrue, MatchBool, MatchOption};
ghost use Rattle.std.specs.List.{AllByRecursion};
ghost use Rattle.mt_skel.specs.Keyed.{rises};
ghost use Rattle.mt_lines.specs.Reading.{fault_of, last_line};
ghost use Rattle.mt_client.specs.Reading.{known_lines, NoneFirst};
ghost use Rattle.mt_client.specs.Calls.{ReadsOn, AreRead, IsReadFault};
ghost use Rattle.mt_client.specs.Mirroring.{IsShown, part_lines, HasRefused};
ghost use Rattle.mt_client.specs.Awaited.{IsOneRefusal, IsRefusedOr};
ghost use Rattle.mt_client.specs.Finding.{mirror_space, parts_lines, AreOf, HasFound, IsFinding, IsPartWithin, ArePartLines};

use crate::answer::is_refusal;
use crate::fault::ClientFault;
use crate::opening::{
    MOST_LINES, MOST_ROWS, MOST_SPACES, is_beyond, read_count, read_heading, read_rows,
};
use crate::relay::next_text;
use mt_events::mirror::Mirror;
use mt_events::opening::Scope;
use mt_info::table::Table;
use mt_lines::line::LineReader;
use mt_lines::stream::Input;
use mt_mounts::mount::SpaceId;
use mt_skel::list::is_above;
use std::alloc::Global;

/// The next namespace, which has at most so many lines.
fn read_next<R: Input + Drop>(
    alloc: Global,
    lines: &mut LineReader<R>,
    left: u64,
) -> Result<Mirror, ClientFault>
    requires fresh { fault_of lines.old ≡ None }
    ensures part { IfOk result (λ mirror. AreRead (part_lines mirror) lines.old lines.new) }
    ensures within { IfOk result (λ mirror. 1 + length mirror.rows ≤ left) }
    ensures shown { IfOk result (λ mirror. IsShown mirror) }
    ensures fault { IfErr result (λ fault. IsReadFault fault (IsPartWithin left) (known_lines lines.old) lines.old lines.new) }
{
    next_text(lines)?;
    let Some(heading) = read_heading(lines.line()) else {
        return Err(ClientFault::Connection);
    };
    if heading.count >= left {
        return Err(ClientFault::Connection);
    }
    if is_beyond(heading.count, MOST_ROWS) {
        return Err(ClientFault::Connection);
    }
    let rows = read_rows(alloc, lines, heading.count)?;
    Ok(Mirror::new(heading.space, heading.number, Table::new(rows)))
}

/// The namespaces that so many lines show.
fn read_parts<R: Input + Drop>(
    alloc: Global,
    lines: &mut LineReader<R>,
    count: u64,
) -> Result<Vec<Mirror>, ClientFault>
    requires fresh { fault_of lines.old ≡ None }
    ensures parts { IfOk result (λ parts. AreRead (parts_lines parts.items) lines.old lines.new) }
    ensures many { IfOk result (λ parts. length (parts_lines parts.items) ≡ count) }
    ensures shown { IfOk result (λ parts. AllByRecursion IsShown parts.items) }
    ensures fault { IfErr result (λ fault. IsReadFault fault (ArePartLines count) (known_lines lines.old) lines.old lines.new) }
{
    let mut parts = Vec::new(alloc);
    let mut left = count;
    'parts: while left > 0 {
        let part = read_next(alloc, lines, left)?;
        left = left - 1 - part.table().rows().len() as u64;
        parts.push(part)?;
    }
    Ok(parts)
}

/// Whether the numbers of namespaces strictly rise.
fn is_rising(parts: &[Mirror]) -> bool
    ensures { result ≡ rises mirror_space parts.now }
{
    let mut last = None;
    'parts: for part in parts {
        let space = part.space();
        if !is_above(last, space) {
            return false;
        }
        last = Some(space);
    }
    true
}

/// Whether this is one namespace, of this number.
fn is_one(parts: &[Mirror], space: SpaceId) -> bool
    ensures { MatchBool result (map mirror_space parts.now ≡ space ∷ []) (map mirror_space parts.now ≢ space ∷ []) }
{
    match parts {
        [part] => part.space() == space,
        _ => false,
    }
}

/// Whether these are namespaces of this scope: the one, or any by rising number, and no more than there may be.
fn are_of(scope: Scope, parts: &[Mirror]) -> bool
    ensures { MatchBool result (AreOf scope parts.now) (AreOf scope parts.now → ⊥) }
{
    match scope {
        Scope::One(space) => is_one(parts, space),
        Scope::All => is_rising(parts) && parts.len() as u64 <= MOST_SPACES,
    }
}

/// What a watcher of a scope found, or None where a refusal stands in its place, which the reader lends.
pub(crate) fn read_found<R: Input + Drop>(
    alloc: Global,
    lines: &mut LineReader<R>,
    scope: Scope,
) -> Result<Option<Vec<Mirror>>, ClientFault>
    requires fresh { fault_of lines.old ≡ None }
    ensures found { IfOk result (λ found. MatchOption found
        (HasRefused (last_line lines.new) (known_lines lines.old) (known_lines lines.new))
        (λ parts. HasFound scope (known_lines lines.old) (known_lines lines.new) parts.items)) }
    ensures rising { IfOk result (λ found. IfSome found (λ parts. IsTrue (rises mirror_space parts.items))) }
    ensures unrefused { IfOk result (λ found. IfSome found (λ parts. NoneFirst IsOneRefusal (known_lines lines.old))) }
    ensures on { OnOk result (ReadsOn lines.old lines.new) }
    ensures fault { IfErr result (λ fault. IsReadFault fault (IsRefusedOr (IsFinding scope)) (known_lines lines.old) lines.old lines.new) }
{
    next_text(lines)?;
    if is_refusal(lines.line()) {
        return Ok(None);
    }
    let Some(count) = read_count(lines.line()) else {
        return Err(ClientFault::Connection);
    };
    if is_beyond(count, MOST_LINES) {
        return Err(ClientFault::Connection);
    }
    let parts = read_parts(alloc, lines, count)?;
    if are_of(scope, parts.as_slice()) {
        Ok(Some(parts))
    } else {
        Err(ClientFault::Connection)
    }
}
