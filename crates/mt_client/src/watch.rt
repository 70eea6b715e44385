//! Watching: the request of a watcher, and what it found.
ghost use Rattle.std.specs.Prelude.{◌≡◌, None, Ok, IfOk, IfErr, IfSome, OnOk, IsTrue};
ghost use Rattle.mt_skel.specs.Keyed.{rises};
ghost use Rattle.mt_lines.specs.Reading.{fault_of};
ghost use Rattle.mt_events.specs.Posts.{ended};
ghost use Rattle.mt_client.specs.Reading.{known_lines, IsSentPart, NoneFirst};
ghost use Rattle.mt_client.specs.Awaited.{IsOneRefusal, IsRefusedOr};
ghost use Rattle.mt_client.specs.Finding.{mirror_space, watch_text, HasFound, IsFinding};
ghost use Rattle.mt_client.specs.Calls.{ReadsOn, WritesOn, IsOut, IsTurnedAway, IsAskFault};

use crate::fault::ClientFault;
use crate::parts::read_found;
use crate::relay::print_line;
use crate::request::numbered_line;
use crate::sending::send_request;
use mt_events::mirror::Mirror;
use mt_events::opening::Scope;
use mt_lines::line::LineReader;
use mt_lines::stream::{Input, Output};
use std::alloc::{AllocError, Global};

/// The line of the request of a watcher, with its line end. Fails for want of memory alone.
fn watch_line(alloc: Global, scope: Scope) -> Result<Vec<u8>, AllocError>
    ensures { IfOk result (λ line. line.items ≡ ended (watch_text scope)) }
{
    match scope {
        Scope::One(space) => numbered_line(alloc, b"watch", space),
        Scope::All => {
            let mut line = Vec::new(alloc);
            line.extend_from_slice(b"watch all\n")?;
            Ok(line)
        }
    }
}

/// Watches a scope: the tables that the watcher found, by rising number of their namespaces, or None where a refusal was
/// printed.
///
/// The reader has met no fault, and serves what comes over the connection. The session has the watcher for as long as the
/// connection stays, or up to a `close`. Refused as `Connection` where the connection fails or ends early, or where what comes
/// is no such opening, as `Output` where the refusal does not go out, and else as `NoMemory`.
pub fn watch<R: Input + Drop, W: Output, O: Output>(
    alloc: Global,
    lines: &mut LineReader<R>,
    writer: &mut W,
    scope: Scope,
    out: &mut O,
) -> Result<Option<Vec<Mirror>>, ClientFault>
    requires fresh { fault_of lines.old ≡ None }
    ensures found { IfOk result (λ found. IfSome found (λ parts. HasFound scope (known_lines lines.old) (known_lines lines.new) parts.items)) }
    ensures unrefused { IfOk result (λ found. IfSome found (λ parts. NoneFirst IsOneRefusal (known_lines lines.old))) }
    ensures sent { IfOk result (λ found. IfSome found (λ parts. IsOut W.Output (ended (watch_text scope)) writer.old writer.new)) }
    ensures unprinted { IfOk result (λ found. IfSome found (λ parts. out.new ≡ out.old)) }
    ensures rising { IfOk result (λ found. IfSome found (λ parts. IsTrue (rises mirror_space parts.items))) }
    ensures refused { result ≡ Ok None → IsTurnedAway W.Output O.Output (ended (watch_text scope)) lines.old lines.new writer.old writer.new out.old out.new }
    ensures part { IsSentPart (ended (watch_text scope)) (W.contents writer.old) (W.contents writer.new) }
    ensures on { OnOk result (ReadsOn lines.old lines.new) }
    ensures prints { OnOk result (WritesOn O.Output out.old out.new) }
    ensures fault { IfErr result (λ fault. IsAskFault W.Output O.Output fault (IsRefusedOr (IsFinding scope)) lines.old lines.new writer.old writer.new out.old out.new) }
{
    let line = watch_line(alloc, scope)?;
    if !send_request(lines, writer, line.as_slice(), out)? {
        return Ok(None);
    }
    let Some(parts) = read_found(alloc, lines, scope)? else {
        print_line(out, lines.line())?;
        return Ok(None);
    };
    Ok(Some(parts))
}
