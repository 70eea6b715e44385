//! One request and its answer.
ghost use Rattle.std.specs.Prelude.{◌≡◌, Bool, true, false, [], ◌⊎◌, map, None, Ok, Err, IfOk, IfErr, OnOk, IsTrue};
ghost use Rattle.std.specs.Io.KnownBytes.{Appends};
ghost use Rattle.mt_lines.specs.Reading.{last_faults, fault_of, limit_of};
ghost use Rattle.mt_events.specs.Posts.{ended};
ghost use Rattle.mt_protocol.specs.Verbs.{form_of};
ghost use Rattle.mt_client.specs.Requests.{request_text};
ghost use Rattle.mt_client.specs.Calls.{IsOutOrBroken};
ghost use Rattle.mt_client.specs.Awaited.{IsOneRefusal};
ghost use Rattle.mt_client.specs.Replies.{IsAnswer};
ghost use Rattle.mt_client.specs.Reading.{known_lines, HasPassed, HasBroken, IsBroken, IsSentPart, IsCut};

use crate::fault::ClientFault;
use crate::relay::pass_answer;
use crate::request::{ended_line, request_line};
use crate::sending::send_request;
use mt_lines::line::LineReader;
use mt_lines::stream::{Input, Output};
use mt_protocol::form::form_of;
use std::alloc::Global;

/// Sends a line as it stands, with the line end that it is given without, and prints the lines that answer it.
///
/// The reader has met no fault, and serves what comes over the connection. As many lines are read as answer the
/// request, and each is printed with its line end as it is read, a refusal too. Where the request does not go out, since
/// the server has ended the connection, a refusal that it sent before is the answer.
///
/// Answers whether the line that tells begins with `ok`, and not with `no`. Refused as `Connection` where the
/// connection fails or ends early, or where what comes is no answer to the request, as `Output` where a line cannot
/// be printed, and as `NoMemory` where there is none for the request, or for a line of more than 8,192 bytes.
pub fn ask_line<R: Input + Drop, W: Output, O: Output>(
    alloc: Global,
    lines: &mut LineReader<R>,
    writer: &mut W,
    line: &[u8],
    out: &mut O,
) -> Result<bool, ClientFault>
    requires fresh { fault_of lines.old ≡ None }

    // The whole line of the request went out, or calls of the writer failed, and then a part of it did.
    ensures sent { result ≡ Ok true → Appends (W.contents writer.old) (W.contents writer.new) (ended line.now) }
    ensures part { IsSentPart (ended line.now) (W.contents writer.old) (W.contents writer.new) }
    ensures asked { OnOk result (IsOutOrBroken W.Output (ended line.now) writer.old writer.new) }

    // The lines that were read are a whole answer to the request, `ok` or `no` as is told, and these lines were
    // printed. Up to a fault those that were read whole were printed, of the last a part where the output failed.
    ensures answer { IfOk result (λ told. HasPassed (λ all. IsAnswer (form_of line.now) all told) (known_lines lines.old) (known_lines lines.new) (O.contents out.old) (O.contents out.new)) }
    ensures broken { IfErr result
        (λ fault. IsBroken fault (known_lines lines.old) (O.contents out.old) (O.contents out.new)) }

    // `Connection` only where calls of the reader failed, or no whole answer to the request comes first, or where calls of
    // the writer failed and no refusal comes first, and `Output` only where calls of the output failed; where no fault of
    // the stream stood, the last call failed then, or was the last of as many interrupted ones in succession as end a
    // read or a send.
    ensures connection { result ≡ Err ClientFault.Connection → IsTrue R.counts → IsTrue W.counts
        → (HasBroken (W.failed writer.old) (W.failed writer.new) (W.faults writer.old) (W.faults writer.new) × IsCut IsOneRefusal lines.old lines.new) ⊎ IsCut (λ all. (told : Bool) × IsAnswer (form_of line.now) all told) lines.old lines.new }
    ensures output { result ≡ Err ClientFault.Output → IsTrue O.counts
        → HasBroken (O.failed out.old) (O.failed out.new) (O.faults out.old) (O.faults out.new) }

    // What the next request finds: a reader that has met no fault, and where none of a stream stood, none, but where
    // calls of the writer failed.
    ensures fresh { OnOk result (fault_of lines.new ≡ None) }
    ensures reads { OnOk result (IsTrue R.counts → last_faults lines.old ≡ [] → last_faults lines.new ≡ []) }
    ensures writes { IfOk result (λ told. IsTrue W.counts → W.faults writer.old ≡ []
        → (W.faults writer.new ≡ []) ⊎ ((told ≡ false) × HasBroken (W.failed writer.old) (W.failed writer.new) (W.faults writer.old) (W.faults writer.new))) }
    ensures prints { OnOk result (IsTrue O.counts → O.faults out.old ≡ [] → O.faults out.new ≡ []) }
    ensures limit { limit_of lines.new ≡ limit_of lines.old }
{
    let request = ended_line(alloc, line)?;
    if !send_request(lines, writer, request.as_slice(), out)? {
        return Ok(false);
    }
    pass_answer(alloc, lines, form_of(line), out)
}

/// Sends the request of these words, each with its escapes, and prints the lines that answer it.
///
/// The reader has met no fault, and serves what comes over the connection. As many lines are read as answer the
/// request, and each is printed with its line end as it is read, a refusal too. Where the request does not go out, since
/// the server has ended the connection, a refusal that it sent before is the answer.
///
/// Answers whether the line that tells begins with `ok`, and not with `no`. Refused as `Connection` where the
/// connection fails or ends early, or where what comes is no answer to the request, as `Output` where a line cannot
/// be printed, and as `NoMemory` where there is none for the request, or for a line of more
/// than 8,192 bytes.
pub fn ask<R: Input + Drop, W: Output, O: Output>(
    alloc: Global,
    lines: &mut LineReader<R>,
    writer: &mut W,
    words: &[&[u8]],
    out: &mut O,
) -> Result<bool, ClientFault>
    requires fresh { fault_of lines.old ≡ None }

    // The whole line of the request went out, or calls of the writer failed, and then a part of it did.
    ensures sent { result ≡ Ok true → Appends (W.contents writer.old) (W.contents writer.new) (ended (request_text (map (λ word. word.now) words.now))) }
    ensures part { IsSentPart (ended (request_text (map (λ word. word.now) words.now))) (W.contents writer.old) (W.contents writer.new) }
    ensures asked { OnOk result (IsOutOrBroken W.Output (ended (request_text (map (λ word. word.now) words.now))) writer.old writer.new) }

    // The lines that were read are a whole answer to the request, `ok` or `no` as is told, and these lines were
    // printed. Up to a fault those that were read whole were printed, of the last a part where the output failed.
    ensures answer { IfOk result (λ told. HasPassed (λ all. IsAnswer (form_of (request_text (map (λ word. word.now) words.now))) all told) (known_lines lines.old) (known_lines lines.new) (O.contents out.old) (O.contents out.new)) }
    ensures broken { IfErr result
        (λ fault. IsBroken fault (known_lines lines.old) (O.contents out.old) (O.contents out.new)) }

    // `Connection` only where calls of the reader failed, or no whole answer to the request comes first, or where calls of
    // the writer failed and no refusal comes first, and `Output` only where calls of the output failed; where no fault of
    // the stream stood, the last call failed then, or was the last of as many interrupted ones in succession as end a
    // read or a send.
    ensures connection { result ≡ Err ClientFault.Connection → IsTrue R.counts → IsTrue W.counts
        → (HasBroken (W.failed writer.old) (W.failed writer.new) (W.faults writer.old) (W.faults writer.new) × IsCut IsOneRefusal lines.old lines.new) ⊎ IsCut (λ all. (told : Bool) × IsAnswer (form_of (request_text (map (λ word. word.now) words.now))) all told) lines.old lines.new }
    ensures output { result ≡ Err ClientFault.Output → IsTrue O.counts
        → HasBroken (O.failed out.old) (O.failed out.new) (O.faults out.old) (O.faults out.new) }

    // What the next request finds: a reader that has met no fault, and where none of a stream stood, none, but where
    // calls of the writer failed.
    ensures fresh { OnOk result (fault_of lines.new ≡ None) }
    ensures reads { OnOk result (IsTrue R.counts → last_faults lines.old ≡ [] → last_faults lines.new ≡ []) }
    ensures writes { IfOk result (λ told. IsTrue W.counts → W.faults writer.old ≡ []
        → (W.faults writer.new ≡ []) ⊎ ((told ≡ false) × HasBroken (W.failed writer.old) (W.failed writer.new) (W.faults writer.old) (W.faults writer.new))) }
    ensures prints { OnOk result (IsTrue O.counts → O.faults out.old ≡ [] → O.faults out.new ≡ []) }
    ensures limit { limit_of lines.new ≡ limit_of lines.old }
{
    let line = request_line(alloc, words)?;
    ask_line(alloc, lines, writer, line.as_slice(), out)
}
