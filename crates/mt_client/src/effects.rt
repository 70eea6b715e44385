//! What a line changes, told.
ghost use Rattle.std.specs.Prelude.{◌≡◌, ℕ, ◌+◌, ◌⊎◌, List, [], ◌∷◌, ◌++◌, true, false, Option, None, Ok, Err, IfOk, IfErr, OnOk, IsTrue};
ghost use Rattle.std.specs.Io.KnownBytes.{Appends};
ghost use Rattle.mt_skel.specs.Keyed.{rises};
ghost use Rattle.mt_lines.specs.Reading.{failed_calls, last_faults, fault_of, limit_of};
ghost use Rattle.mt_lines.specs.Lines.{Item};
ghost use Rattle.mt_events.specs.Posts.{ended};
ghost use Rattle.mt_protocol.specs.Verbs.{form_of};
ghost use Rattle.mt_client.specs.Replies.{IsAnswer};
ghost use Rattle.mt_client.specs.Reading.{known_lines, HasBroken, IsSentPart, HasPassed};
ghost use Rattle.mt_client.specs.Calls.{ReadsOn, WritesOn, IsOut, IsOutOrBroken, AreOutOrBroken, IsTellFault, IsEffectFault};
ghost use Rattle.mt_client.specs.Awaited.{IsRefusedOr, IsSuchPost};
ghost use Rattle.mt_client.specs.Finding.{mirror_space, watch_text};
ghost use Rattle.mt_client.specs.Telling.{is_due, IsStopped};
ghost use Rattle.mt_client.specs.Effects.{taking_text, effects_text, HasToldLines, HasToldTaken, HasEffects, IsRefusedOut, IsRefusedLine, IsRefusedEffect, IsToldShort, IsTakenShort, IsAnsweredShort, IsEffectShort};
ghost use Rattle.mt_client.specs.Missing.{AreDueLines, IsWaiting, IsMissing, IsMissingAnswer, IsMissingEffect, IsOnlyCounted};
ghost use Rattle.mt_events.specs.declared.opening.Scope.TheVariants.{All};

use crate::answer::{is_refusal, waiting_count};
use crate::fault::ClientFault;
use crate::named::NamedTelling;
use crate::posts::{lines_of_event, read_posted};
use crate::relay::{next_text, pass_answer, print_line};
use crate::request::ended_line;
use crate::sending::send_request;
use crate::telling::tell_due;
use crate::watch::watch;
use mt_events::mirror::Mirror;
use mt_events::opening::Scope;
use mt_lines::line::LineReader;
use mt_lines::stream::{Input, Output};
use mt_protocol::form::form_of;
use std::alloc::Global;

/// Tells the next post: how many lines stood behind its first one.
fn tell_next<R: Input + Drop, O: Output>(
    alloc: Global,
    lines: &mut LineReader<R>,
    named: &NamedTelling<'_>,
    mirrors: &mut Vec<Mirror>,
    out: &mut O,
) -> Result<u64, ClientFault>
    requires fresh { fault_of lines.old ≡ None }
    requires rising { IsTrue (rises mirror_space mirrors.old.items) }
    ensures told { IfOk result (λ behind. HasToldLines named.now (1 + behind) mirrors.old.items mirrors.new.items (known_lines lines.old) (known_lines lines.new) (O.contents out.old) (O.contents out.new)) }
    ensures rising { OnOk result (IsTrue (rises mirror_space mirrors.new.items)) }
    ensures broken { IfErr result
        (λ fault. IsStopped named.now fault All mirrors.old.items (known_lines lines.old) (O.contents out.old) (O.contents out.new)) }
    ensures only { IfOk result (λ behind. IsOnlyCounted behind mirrors.old.items mirrors.new.items (known_lines lines.old) (known_lines lines.new)) }
    ensures on { OnOk result (ReadsOn lines.old lines.new) }
    ensures prints { OnOk result (WritesOn O.Output out.old out.new) }
    ensures fault { IfErr result (λ fault. IsTellFault O.Output fault (IsSuchPost (is_due All mirrors.old.items)) lines.old lines.new out.old out.new) }
{
    next_text(lines)?;
    let Some(behind) = lines_of_event(lines.line()) else {
        return Err(ClientFault::Connection);
    };
    let post = read_posted(alloc, lines)?;
    tell_due(alloc, Scope::All, named, mirrors, &post, out)?;
    Ok(behind)
}

/// Tells the posts that are so many lines.
fn tell_lines<R: Input + Drop, O: Output>(
    alloc: Global,
    lines: &mut LineReader<R>,
    count: u64,
    named: &NamedTelling<'_>,
    mirrors: &mut Vec<Mirror>,
    out: &mut O,
) -> Result<(), ClientFault>
    requires fresh { fault_of lines.old ≡ None }
    requires rising { IsTrue (rises mirror_space mirrors.old.items) }
    ensures told { OnOk result (HasToldLines named.now count mirrors.old.items mirrors.new.items (known_lines lines.old) (known_lines lines.new) (O.contents out.old) (O.contents out.new)) }
    ensures rising { OnOk result (IsTrue (rises mirror_space mirrors.new.items)) }
    ensures broken { IfErr result
        (λ fault. IsToldShort named.now fault mirrors.old.items (known_lines lines.old) (O.contents out.old) (O.contents out.new)) }
    ensures on { OnOk result (ReadsOn lines.old lines.new) }
    ensures prints { OnOk result (WritesOn O.Output out.old out.new) }
    ensures fault { IfErr result (λ fault. IsTellFault O.Output fault (AreDueLines count mirrors.old.items) lines.old lines.new out.old out.new) }
{
    let mut left = count;
    'telling: while left > 0 {
        let behind = tell_next(alloc, lines, named, mirrors, out)?;
        let Some(rest) = (left - 1).checked_sub(behind) else {
            return Err(ClientFault::Connection);
        };
        left = rest;
    }
    Ok(())
}

/// Reads the answer to the request for the posts that wait, and tells them: false where it is a refusal, which is printed.
fn tell_taken<R: Input + Drop, O: Output>(
    alloc: Global,
    lines: &mut LineReader<R>,
    named: &NamedTelling<'_>,
    mirrors: &mut Vec<Mirror>,
    out: &mut O,
) -> Result<bool, ClientFault>
    requires fresh { fault_of lines.old ≡ None }
    requires rising { IsTrue (rises mirror_space mirrors.old.items) }
    ensures told { result ≡ Ok true → HasToldTaken named.now mirrors.old.items mirrors.new.items (known_lines lines.old) (known_lines lines.new) (O.contents out.old) (O.contents out.new) }
    ensures rising { OnOk result (IsTrue (rises mirror_space mirrors.new.items)) }
    ensures refused { result ≡ Ok false → IsRefusedOut (known_lines lines.old) (known_lines lines.new) (O.contents out.old) (O.contents out.new) }
    ensures broken { IfErr result
        (λ fault. IsTakenShort named.now fault mirrors.old.items (known_lines lines.old) (O.contents out.old) (O.contents out.new)) }
    ensures on { OnOk result (ReadsOn lines.old lines.new) }
    ensures prints { OnOk result (WritesOn O.Output out.old out.new) }
    ensures fault { IfErr result (λ fault. IsTellFault O.Output fault (IsRefusedOr (IsWaiting mirrors.old.items)) lines.old lines.new out.old out.new) }
{
    next_text(lines)?;
    if is_refusal(lines.line()) {
        print_line(out, lines.line())?;
        return Ok(false);
    }
    let Some(count) = waiting_count(lines.line()) else {
        return Err(ClientFault::Connection);
    };
    tell_lines(alloc, lines, count, named, mirrors, out)?;
    Ok(true)
}

/// Takes the posts that wait for the session's watcher of all namespaces, up to 1,024, tells
/// them in this manner, and applies them to the tables that it has found: false where a refusal was printed. A watcher that
/// has lost posts refuses as `Lagged` once it has given what its queue holds.
///
/// The reader has met no fault, and serves what comes over the connection; the tables rise by the number of their
/// namespace, as those that [`crate::watch::watch`] found and those that this call leaves. Refused as `Connection` where
/// the connection fails or ends early, or where what comes are no posts, each the next one of its namespace, or more than a
/// server has; as `Output` where what was to be told does not go out, and else as `NoMemory`.
pub fn tell_changes<R: Input + Drop, W: Output, O: Output>(
    alloc: Global,
    lines: &mut LineReader<R>,
    writer: &mut W,
    named: &NamedTelling<'_>,
    mirrors: &mut Vec<Mirror>,
    out: &mut O,
) -> Result<bool, ClientFault>
    requires fresh { fault_of lines.old ≡ None }
    requires rising { IsTrue (rises mirror_space mirrors.old.items) }
    ensures told { result ≡ Ok true → HasToldTaken named.now mirrors.old.items mirrors.new.items (known_lines lines.old) (known_lines lines.new) (O.contents out.old) (O.contents out.new) }
    ensures rising { OnOk result (IsTrue (rises mirror_space mirrors.new.items)) }
    ensures part { IsSentPart (ended taking_text) (W.contents writer.old) (W.contents writer.new) }
    ensures refused { result ≡ Ok false → IsRefusedOut (known_lines lines.old) (known_lines lines.new) (O.contents out.old) (O.contents out.new) }
    ensures broken { IfErr result
        (λ fault. IsTakenShort named.now fault mirrors.old.items (known_lines lines.old) (O.contents out.old) (O.contents out.new)) }
    ensures sent { result ≡ Ok true → IsOut W.Output (ended taking_text) writer.old writer.new }
    ensures asked { OnOk result (IsOutOrBroken W.Output (ended taking_text) writer.old writer.new) }
    ensures on { OnOk result (ReadsOn lines.old lines.new) }
    ensures prints { OnOk result (WritesOn O.Output out.old out.new) }
    ensures fault { IfErr result (λ fault. IsEffectFault W.Output O.Output fault (λ unsent. IsMissing unsent (IsRefusedOr (IsWaiting mirrors.old.items)) (known_lines lines.old)) lines.old lines.new writer.old writer.new out.old out.new) }
{
    if !send_request(lines, writer, b"take 1024\n", out)? {
        return Ok(false);
    }
    tell_taken(alloc, lines, named, mirrors, out)
}

/// Sends a line and prints its answer, takes the posts that wait, and tells them: false where a refusal was printed.
fn tell_answered<R: Input + Drop, W: Output, O: Output>(
    alloc: Global,
    lines: &mut LineReader<R>,
    writer: &mut W,
    line: &[u8],
    named: &NamedTelling<'_>,
    mirrors: &mut Vec<Mirror>,
    out: &mut O,
) -> Result<bool, ClientFault>
    requires fresh { fault_of lines.old ≡ None }
    requires rising { IsTrue (rises mirror_space mirrors.old.items) }
    ensures told { result ≡ Ok true → (answered : Option (List Item)) × (between : Option (List ℕ))
        × HasPassed (λ all. IsAnswer (form_of line.now) all true) (known_lines lines.old) answered (O.contents out.old) between
        × HasToldTaken named.now mirrors.old.items mirrors.new.items answered (known_lines lines.new) between (O.contents out.new) }
    ensures refused { result ≡ Ok false → IsRefusedLine line.now (known_lines lines.old) (known_lines lines.new) (O.contents out.old) (O.contents out.new) }
    ensures broken { IfErr result
        (λ fault. IsAnsweredShort named.now fault line.now mirrors.old.items (known_lines lines.old) (O.contents out.old) (O.contents out.new)) }
    ensures sent { result ≡ Ok true → IsOut W.Output (ended line.now ++ ended taking_text) writer.old writer.new }
    ensures asked { result ≡ Ok false → AreOutOrBroken W.Output (line.now ∷ taking_text ∷ []) writer.old writer.new }
    ensures part { IsSentPart (ended line.now ++ ended taking_text) (W.contents writer.old) (W.contents writer.new) }
    ensures on { OnOk result (ReadsOn lines.old lines.new) }
    ensures prints { OnOk result (WritesOn O.Output out.old out.new) }
    ensures fault { IfErr result (λ fault. IsEffectFault W.Output O.Output fault (λ unsent. IsMissingAnswer unsent line.now mirrors.old.items (known_lines lines.old)) lines.old lines.new writer.old writer.new out.old out.new) }
{
    let request = ended_line(alloc, line)?;
    if !send_request(lines, writer, request.as_slice(), out)? {
        return Ok(false);
    }
    if !pass_answer(alloc, lines, form_of(line), out)? {
        return Ok(false);
    }
    tell_changes(alloc, lines, writer, named, mirrors, out)
}

/// Watches all namespaces, sends a line and prints its answer, and then tells what has changed since, in this manner: each
/// post that waits then, up to 1,024. The watcher stays, and says by `take` whether it has
/// lost some of them.
///
/// The reader has met no fault, and serves what comes over the connection. The line is none that is about its session, as
/// `close` and `quit`. What the watcher found is read and not printed; a namespace that comes later begins with the empty
/// table.
///
/// Answers whether the line was answered `ok`, and its changes were told; where not, a refusal was printed, and nothing
/// behind it. Refused as `Connection` where the connection fails or ends early, or where what comes is no opening, no
/// answer to the line, or no posts, each the next one of its namespace, or more than a server has; as `Output` where what
/// was to be printed does not go out, and else as `NoMemory`. But for `Output` whole lines of the answer were printed then,
/// and behind a whole answer posts that had come, each whole.
pub fn tell_effects<R: Input + Drop, W: Output, O: Output>(
    alloc: Global,
    lines: &mut LineReader<R>,
    writer: &mut W,
    line: &[u8],
    named: &NamedTelling<'_>,
    out: &mut O,
) -> Result<bool, ClientFault>
    requires fresh { fault_of lines.old ≡ None }

    // The lines that were read are what a watcher of all namespaces finds, a whole answer to the line, which was printed,
    // and the posts that waited behind it, which were told.
    ensures told { result ≡ Ok true → HasEffects named.now line.now (known_lines lines.old) (known_lines lines.new) (O.contents out.old) (O.contents out.new) }

    // Else a refusal was printed, and nothing behind it: that in the place of what the watcher finds, that of the line or
    // in the place of its answer, or one in the place of the posts.
    ensures refused { result ≡ Ok false → IsRefusedEffect line.now (known_lines lines.old) (known_lines lines.new) (O.contents out.old) (O.contents out.new) }

    // Up to a fault nothing was printed, or whole lines of the answer, or all of it and what is told of posts that had
    // come, from the first one on, each whole. Where the output failed, a part of one more text was printed, of lines
    // that had come or of a post that is the next one of its namespace.
    ensures broken { IfErr result
        (λ fault. IsEffectShort named.now fault line.now (known_lines lines.old) (O.contents out.old) (O.contents out.new)) }

    // The request of the watcher went out, then the line, and then that for the posts; or a part of these, and nothing
    // else. Where a refusal was printed, some of them did, each whole, or calls of the writer failed.
    ensures sent { result ≡ Ok true → Appends (W.contents writer.old) (W.contents writer.new) (effects_text line.now) }
    ensures part { IsSentPart (effects_text line.now) (W.contents writer.old) (W.contents writer.new) }
    ensures asked { result ≡ Ok false → AreOutOrBroken W.Output (watch_text All ∷ line.now ∷ taking_text ∷ []) writer.old writer.new }

    // `Connection` only where calls of the reader failed, or the lines do not begin with what a watcher of all namespaces
    // finds, or behind that with an answer to the line, or behind that with the posts that wait, nor with a refusal in the
    // place of one of these; or where calls of the writer failed, and no refusal comes there.
    ensures connection { result ≡ Err ClientFault.Connection → IsTrue R.counts → IsTrue W.counts
        → HasBroken (failed_calls lines.old) (failed_calls lines.new) (last_faults lines.old) (last_faults lines.new)
        ⊎ IsMissingEffect (HasBroken (W.failed writer.old) (W.failed writer.new) (W.faults writer.old) (W.faults writer.new)) line.now (known_lines lines.old) }

    // `Output` comes only where calls of the output failed. Where no fault of it stood, the last call failed then, or
    // was the last of as many interrupted ones in succession as end a send.
    ensures output { result ≡ Err ClientFault.Output → IsTrue O.counts
        → HasBroken (O.failed out.old) (O.failed out.new) (O.faults out.old) (O.faults out.new) }

    // What the next call finds: a reader that has met no fault, and where none of a stream stood, none.
    ensures fresh { OnOk result (fault_of lines.new ≡ None) }
    ensures reads { OnOk result (IsTrue R.counts → last_faults lines.old ≡ [] → last_faults lines.new ≡ []) }
    ensures prints { OnOk result (IsTrue O.counts → O.faults out.old ≡ [] → O.faults out.new ≡ []) }
    ensures limit { limit_of lines.new ≡ limit_of lines.old }
{
    let Some(mut mirrors) = watch(alloc, lines, writer, Scope::All, out)? else {
        return Ok(false);
    };
    tell_answered(alloc, lines, writer, line, named, &mut mirrors, out)
}
