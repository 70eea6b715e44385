//! Requests, sent over a connection that its server may have ended already.
//!
//! A server that turns a client away tells it so at once and ends the connection. A client that is slower than that
//! cannot send its request any more, but it can still read why.
ghost use Rattle.std.specs.Prelude.{◌≡◌, ◌≢◌, [], true, false, None, Ok, Err, IfErr, OnOk, OnErr, IsTrue};
ghost use Rattle.std.specs.Io.KnownBytes.{Keeps};
ghost use Rattle.mt_lines.specs.Reading.{fault_of};
ghost use Rattle.mt_client.specs.Reading.{HasBroken, IsSentPart};
ghost use Rattle.mt_client.specs.Calls.{ReadsOn, WritesOn, IsOut, IsOutInPart, IsPassFault, PassesRefusal};
ghost use Rattle.mt_client.specs.Awaited.{IsOneRefusal};

use crate::answer::is_refusal;
use crate::fault::ClientFault;
use crate::relay::{next_text, print_line};
use mt_lines::line::LineReader;
use mt_lines::stream::{Cut, Input, Output, send};

/// Reads a line that is a refusal, and prints it.
fn pass_refusal<R: Input + Drop, O: Output>(
    lines: &mut LineReader<R>,
    out: &mut O,
) -> Result<(), ClientFault>
    requires fresh { fault_of lines.old ≡ None }
    ensures passed { OnOk result (PassesRefusal O.Output lines.old lines.new out.old out.new) }
    ensures fault { IfErr result (λ fault. IsPassFault O.Output fault IsOneRefusal [] lines.old lines.new out.old out.new) }
    ensures kept { OnErr result (result ≢ Err ClientFault.Output → Keeps (O.contents out.old) (O.contents out.new)) }
{
    next_text(lines)?;
    if !is_refusal(lines.line()) {
        return Err(ClientFault::Connection);
    }
    print_line(out, lines.line())
}

/// Sends a text. After a cut, a part of it went out, and not all.
fn send_whole<W: Output>(writer: &mut W, text: &[u8]) -> Result<(), Cut>
    ensures out { OnOk result (IsOut W.Output text.now writer.old writer.new) }
    ensures part { OnErr result (IsOutInPart W.Output text.now writer.old writer.new) }
{
    send(writer, text)
}

/// Sends a request, which is a line with its line end, in one call of the writer if that takes all of it: true where it
/// went out whole. Where it does not, a refusal that was sent before is read and printed: false then.
pub(crate) fn send_request<R: Input + Drop, W: Output, O: Output>(
    lines: &mut LineReader<R>,
    writer: &mut W,
    request: &[u8],
    out: &mut O,
) -> Result<bool, ClientFault>
    requires fresh { fault_of lines.old ≡ None }
    ensures sent { result ≡ Ok true → IsOut W.Output request.now writer.old writer.new }
    ensures part { IsSentPart request.now (W.contents writer.old) (W.contents writer.new) }
    // Nothing was read or printed where the request went out, and else a refusal was.
    ensures unread { result ≡ Ok true → lines.new ≡ lines.old }
    ensures unprinted { result ≡ Ok true → out.new ≡ out.old }
    ensures passed { result ≡ Ok false → PassesRefusal O.Output lines.old lines.new out.old out.new }
    ensures on { OnOk result (ReadsOn lines.old lines.new) }
    ensures prints { OnOk result (WritesOn O.Output out.old out.new) }
    // It did not go out only where calls of the writer failed.
    ensures cause { result ≢ Ok true → IsTrue W.counts
        → HasBroken (W.failed writer.old) (W.failed writer.new) (W.faults writer.old) (W.faults writer.new) }
    ensures fault { IfErr result (λ fault. IsPassFault O.Output fault IsOneRefusal [] lines.old lines.new out.old out.new) }
    ensures kept { OnErr result (result ≢ Err ClientFault.Output → Keeps (O.contents out.old) (O.contents out.new)) }
{
    if send_whole(writer, request).is_ok() {
        return Ok(true);
    }
    pass_refusal(lines, out)?;
    Ok(false)
}
