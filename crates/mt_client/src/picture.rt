//! A drawing of the tables that a watcher found.
ghost use Rattle.std.specs.Prelude.{◌≡◌, ◌≢◌, ◌⊎◌, List, ℕ, [], true, false, None, Ok, Err, IfOk, IfErr, OnOk, OnErr, IsTrue};
ghost use Rattle.std.specs.Io.KnownBytes.{Appends, Keeps};
ghost use Rattle.mt_lines.specs.Reading.{last_faults, fault_of, limit_of};
ghost use Rattle.mt_events.specs.Mirrors.{MirrorView};
ghost use Rattle.mt_events.specs.Posts.{ended};
ghost use Rattle.mt_render.specs.Drawings.{drawing_text};
ghost use Rattle.mt_client.specs.Reading.{known_lines, HasBroken, IsSentPart, IsCut};
ghost use Rattle.mt_client.specs.Calls.{IsOut, IsOutOrBroken};
ghost use Rattle.mt_client.specs.Mirroring.{HasRefused};
ghost use Rattle.mt_client.specs.Awaited.{IsOneRefusal, IsRefusedOr};
ghost use Rattle.mt_client.specs.Finding.{watch_text, HasWatched, IsFinding};

use crate::fault::ClientFault;
use crate::relay::print;
use crate::watch::watch;
use mt_events::mirror::Mirror;
use mt_events::opening::Scope;
use mt_lines::line::LineReader;
use mt_lines::stream::{Input, Output};
use mt_render::drawing::{Drawing, drawing_text};
use mt_render::named::SpaceName;
use std::alloc::Global;

/// Prints a drawing of tables.
fn print_drawing<O: Output>(
    alloc: Global,
    out: &mut O,
    drawing: Drawing,
    names: &[SpaceName<'_>],
    parts: &[Mirror],
) -> Result<(), ClientFault>
    ensures kept { OnErr result (result ≢ Err ClientFault.Output → Keeps (O.contents out.old) (O.contents out.new)) }
    ensures kind { result ≢ Err ClientFault.Connection }
    ensures cause { result ≡ Err ClientFault.Output → IsTrue O.counts
        → HasBroken (O.failed out.old) (O.failed out.new) (O.faults out.old) (O.faults out.new) }
    ensures out { OnOk result (IsOut O.Output (drawing_text drawing names.now parts.now) out.old out.new) }
{
    let text = drawing_text(alloc, drawing, names, parts)?;
    print(out, text.as_slice())
}

/// Watches a scope and prints a drawing of the tables that the watcher found, with these names of their namespaces.
///
/// The reader has met no fault, and serves what comes over the connection. Nothing is sent behind the request, so the
/// session has a watcher for as long as the connection stays. Answers true where the drawing was printed, and false
/// where the refusal of the request was, also one that was sent before the server ended a connection over which the
/// request did not go out.
///
/// Refused as `Connection` where the connection fails or ends early, or where what comes is neither: namespaces that
/// are not those of the scope or do not rise by number, other lines than were counted, or rows that are not well-formed
/// or do not rise by ID. Refused as `Output` where what was to be printed does not go out, and else as `NoMemory`.
/// But for `Output` nothing was printed then.
pub fn draw<R: Input + Drop, W: Output, O: Output>(
    alloc: Global,
    lines: &mut LineReader<R>,
    writer: &mut W,
    scope: Scope,
    drawing: Drawing,
    names: &[SpaceName<'_>],
    out: &mut O,
) -> Result<bool, ClientFault>
    requires fresh { fault_of lines.old ≡ None }

    // Where a drawing is printed, the lines that were read are the text of an opening that a server can show to a
    // watcher of the scope, and it is the drawing of all that it has.
    ensures drawn { result ≡ Ok true → (parts : List MirrorView)
        × HasWatched scope (known_lines lines.old) (known_lines lines.new) parts
        × Appends (O.contents out.old) (O.contents out.new) (drawing_text drawing names.now parts) }

    // Else the refusal was printed that stands in the place of the opening.
    ensures refused { result ≡ Ok false → (refusal : List ℕ)
        × HasRefused refusal (known_lines lines.old) (known_lines lines.new)
        × Appends (O.contents out.old) (O.contents out.new) (ended refusal) }

    // The request went out, or calls of the writer failed, and then a part of it did; and nothing else.
    ensures sent { result ≡ Ok true → Appends (W.contents writer.old) (W.contents writer.new) (ended (watch_text scope)) }
    ensures part { IsSentPart (ended (watch_text scope)) (W.contents writer.old) (W.contents writer.new) }
    ensures asked { OnOk result (IsOutOrBroken W.Output (ended (watch_text scope)) writer.old writer.new) }

    // `Connection` only where calls of the reader failed, or the lines begin neither with such an opening nor with a
    // refusal, or where calls of the writer failed and no refusal comes first. Where no fault of the stream stood, the last call failed then, or was the last of as
    // many interrupted ones in succession as end a read or a send. So it is with `Output`.
    ensures connection { result ≡ Err ClientFault.Connection → IsTrue R.counts → IsTrue W.counts
        → (HasBroken (W.failed writer.old) (W.failed writer.new) (W.faults writer.old) (W.faults writer.new) × IsCut IsOneRefusal lines.old lines.new) ⊎ IsCut (IsRefusedOr (IsFinding scope)) lines.old lines.new }

    // Nothing was printed where the output did not fail, and `Output` comes only where calls of it failed.
    ensures kept { IfErr result (λ fault. fault ≢ ClientFault.Output → Keeps (O.contents out.old) (O.contents out.new)) }
    ensures output { result ≡ Err ClientFault.Output → IsTrue O.counts
        → HasBroken (O.failed out.old) (O.failed out.new) (O.faults out.old) (O.faults out.new) }
    // What the next call finds: a reader that has met no fault, and where none of a stream stood, none, but where calls
    // of the writer failed.
    ensures fresh { OnOk result (fault_of lines.new ≡ None) }
    ensures reads { OnOk result (IsTrue R.counts → last_faults lines.old ≡ [] → last_faults lines.new ≡ []) }
    ensures writes { IfOk result (λ told. IsTrue W.counts → W.faults writer.old ≡ []
        → (W.faults writer.new ≡ []) ⊎ ((told ≡ false) × HasBroken (W.failed writer.old) (W.failed writer.new) (W.faults writer.old) (W.faults writer.new))) }
    ensures prints { OnOk result (IsTrue O.counts → O.faults out.old ≡ [] → O.faults out.new ≡ []) }
    ensures limit { limit_of lines.new ≡ limit_of lines.old }
{
    let Some(parts) = watch(alloc, lines, writer, scope, out)? else {
        return Ok(false);
    };
    print_drawing(alloc, out, drawing, names, parts.as_slice())?;
    Ok(true)
}
