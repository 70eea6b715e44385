//! Lines of answers, printed as they are read.
ghost use Rattle.std.specs.Prelude.{◌≡◌, Bool, ◌≤◌, [], ◌∷◌, None, IfOk, IfErr, OnOk, OnErr, IsTrue, MatchBool};
ghost use Rattle.std.specs.Io.KnownBytes.{Appends};
ghost use Rattle.mt_lines.specs.Reading.{fault_of, last_line};
ghost use Rattle.mt_events.specs.Posts.{ended};
ghost use Rattle.mt_client.specs.Replies.{IsHeaded, IsEnding, IsFollowAnswer, IsAnswer};
ghost use Rattle.mt_client.specs.Reading.{known_lines, IsCutOff, HasBroken, AreSoMany, reading_fault};
ghost use Rattle.mt_client.specs.Calls.{AreRead, IsOut, IsOutInPart, IsReadFault, IsPassFault, PassesOn};

use crate::answer::{is_refusal, lines_behind, verdict};
use crate::block::{pass_behind, pass_post};
use crate::fault::ClientFault;
use crate::mirror::is_end;
use mt_lines::line::{Line, LineReader, ReadFault};
use mt_lines::stream::{Cut, Input, Output, send};
use mt_protocol::form::Form;
use std::alloc::Global;

/// The most posts of an answer that is followed, this project's rule.
const MOST_POSTS: u64 = u64::MAX;

/// What a fault of the reader is to a client.
fn reading_fault(fault: ReadFault) -> ClientFault
    ensures { result ≡ reading_fault fault }
{
    match fault {
        ReadFault::NoMemory => ClientFault::NoMemory,
        ReadFault::Device | ReadFault::Interrupted | ReadFault::Endless => ClientFault::Connection,
    }
}

/// Reads a whole line, which the reader then lends.
pub(crate) fn next_text<R: Input + Drop>(lines: &mut LineReader<R>) -> Result<(), ClientFault>
    requires fresh { fault_of lines.old ≡ None }
    ensures read { OnOk result (AreRead (last_line lines.new ∷ []) lines.old lines.new) }
    ensures fault { IfErr result (λ fault. IsReadFault fault (AreSoMany 1) (known_lines lines.old) lines.old lines.new) }
{
    match lines.next() {
        Ok(Line::Text) => Ok(()),
        Ok(Line::TooLong) => Err(ClientFault::Connection),
        Ok(Line::Unended) => Err(ClientFault::Connection),
        Ok(Line::End) => Err(ClientFault::Connection),
        Err(fault) => Err(reading_fault(fault)),
    }
}

/// Prints a text. Refused as `Output` where a write fails, and then a part of it, not all, is out.
pub fn print_text<O: Output>(out: &mut O, text: &[u8]) -> Result<(), ClientFault>
    ensures printed { OnOk result (Appends (O.contents out.old) (O.contents out.new) text.now) }
    ensures cut { OnErr result (IsCutOff text.now (O.contents out.old) (O.contents out.new)) }
    ensures kind { IfErr result (λ fault. fault ≡ ClientFault.Output) }
    ensures cause { OnErr result (IsTrue O.counts → HasBroken (O.failed out.old) (O.failed out.new) (O.faults out.old) (O.faults out.new)) }
    ensures counted { IsTrue O.counts → O.failed out.old ≤ O.failed out.new }
    ensures prints { OnOk result (IsTrue O.counts → O.faults out.old ≡ [] → O.faults out.new ≡ []) }
{
    print(out, text)
}

/// Prints a text, as [`print_text`].
pub(crate) fn print<O: Output>(out: &mut O, text: &[u8]) -> Result<(), ClientFault>
    ensures out { OnOk result (IsOut O.Output text.now out.old out.new) }
    ensures part { IfErr result (λ fault. (fault ≡ ClientFault.Output) × IsOutInPart O.Output text.now out.old out.new) }
{
    match send(out, text) {
        Ok(()) => Ok(()),
        Err(_) => Err(ClientFault::Output),
    }
}

/// Sends a line and its line end. After a cut, a part of them went out, and not all.
fn send_line<W: Output>(writer: &mut W, line: &[u8]) -> Result<(), Cut>
    ensures out { OnOk result (IsOut W.Output (ended line.now) writer.old writer.new) }
    ensures part { OnErr result (IsOutInPart W.Output (ended line.now) writer.old writer.new) }
{
    send(writer, line)?;
    send(writer, b"\n")?;
    Ok(())
}

/// Prints a line and its line end.
pub(crate) fn print_line<O: Output>(out: &mut O, line: &[u8]) -> Result<(), ClientFault>
    ensures out { OnOk result (IsOut O.Output (ended line.now) out.old out.new) }
    ensures part { IfErr result (λ fault. (fault ≡ ClientFault.Output) × IsOutInPart O.Output (ended line.now) out.old out.new) }
{
    match send_line(out, line) {
        Ok(()) => Ok(()),
        Err(_) => Err(ClientFault::Output),
    }
}

/// Reads an answer of which the first line tells how many follow, and prints its lines, each once it is known for one
/// of the answer.
fn pass_headed<R: Input + Drop, O: Output>(
    alloc: Global,
    lines: &mut LineReader<R>,
    form: Form,
    out: &mut O,
) -> Result<bool, ClientFault>
    requires fresh { fault_of lines.old ≡ None }
    ensures passed { IfOk result (λ told. PassesOn O.Output [] (λ all. IsHeaded form all told) lines.old lines.new out.old out.new) }
    ensures fault { IfErr result (λ fault. IsPassFault O.Output fault (λ all. (told : Bool) × IsHeaded form all told) [] lines.old lines.new out.old out.new) }
{
    next_text(lines)?;
    let Some(told) = verdict(lines.line()) else {
        return Err(ClientFault::Connection);
    };
    let Some(count) = lines_behind(form, told, lines.line()) else {
        return Err(ClientFault::Connection);
    };
    print_line(out, lines.line())?;
    pass_behind(alloc, lines, form, count, out)?;
    Ok(told)
}

/// Whether a line that tells this is the end of so many posts: `ok` and their count, or a refusal.
fn is_ending(told: bool, line: &[u8], taken: u64) -> bool
    ensures { MatchBool result (IsEnding told taken line.now) (IsEnding told taken line.now → ⊥) }
{
    if told {
        is_end(line, taken)
    } else {
        is_refusal(line)
    }
}

/// Reads posts up to a line that begins with `ok` or `no`, and prints each once it is read whole, and the line.
fn pass_followed<R: Input + Drop, O: Output>(
    alloc: Global,
    lines: &mut LineReader<R>,
    out: &mut O,
) -> Result<bool, ClientFault>
    requires fresh { fault_of lines.old ≡ None }
    ensures passed { IfOk result (λ told. PassesOn O.Output [] (λ all. IsFollowAnswer all told) lines.old lines.new out.old out.new) }
    ensures fault { IfErr result (λ fault. IsPassFault O.Output fault (λ all. (told : Bool) × IsFollowAnswer all told) [] lines.old lines.new out.old out.new) }
{
    'following: for taken in 0..MOST_POSTS {
        next_text(lines)?;
        if let Some(told) = verdict(lines.line()) {
            if !is_ending(told, lines.line(), taken) {
                return Err(ClientFault::Connection);
            }
            print_line(out, lines.line())?;
            return Ok(told);
        }
        pass_post(alloc, lines, out)?;
    }
    Err(ClientFault::Connection)
}

/// Reads the answer to a request and prints its lines: whether it is `ok`.
pub(crate) fn pass_answer<R: Input + Drop, O: Output>(
    alloc: Global,
    lines: &mut LineReader<R>,
    form: Form,
    out: &mut O,
) -> Result<bool, ClientFault>
    requires fresh { fault_of lines.old ≡ None }
    ensures passed { IfOk result (λ told. PassesOn O.Output [] (λ all. IsAnswer form all told) lines.old lines.new out.old out.new) }
    ensures fault { IfErr result (λ fault. IsPassFault O.Output fault (λ all. (told : Bool) × IsAnswer form all told) [] lines.old lines.new out.old out.new) }
{
    match form {
        Form::Followed => pass_followed(alloc, lines, out),
        Form::Done
        | Form::Number
        | Form::Place
        | Form::Table
        | Form::Locks
        | Form::Opening
        | Form::Posts
        | Form::Commands
        | Form::Never => pass_headed(alloc, lines, form, out),
    }
}
