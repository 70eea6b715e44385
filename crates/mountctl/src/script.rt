//! Scripts: the lines of standard input, sent one after another.
ghost use Rattle.std.specs.Prelude.{◌≡◌, None, OnOk};
ghost use Rattle.mt_lines.specs.Reading.{fault_of};

use crate::fault::Fault;
use crate::lines::tell_refused_line;
use crate::messages::tell_refused;
use mt_client::ask::ask_line;
use mt_client::relay::print_text;
use mt_lines::line::{Line, LineReader};
use mt_lines::stream::{Input, Output};
use mt_protocol::verb::Verb;
use std::alloc::Global;
use std::io::Eprint;

/// The longest line of a script, in bytes before its line end: that of a session.
pub(crate) const SCRIPT_LIMIT: u32 = 8_192;

/// The most lines of a script.
const MOST_LINES: u64 = u64::MAX;

/// What comes of a line.
#[derive(Clone, Copy)]
enum Outcome {
    /// The script goes on.
    Next,
    /// It was refused, and the script may go on.
    Refused,
    /// It was accepted, and ended its session.
    Ended,
}

/// Whether a line is for the reader of a script alone: it is empty, or begins with `#`.
pub(crate) fn is_comment(line: &[u8]) -> bool {
    match line.first() {
        Some(byte) => *byte == b'#',
        None => true,
    }
}

/// Whether a line that was answered `ok` has ended its session.
fn ends_session(line: &[u8]) -> bool {
    matches!(Verb::of(line), Some(Verb::Quit | Verb::Stop))
}

/// Sends a line, unless it is a comment, and prints what answers it. A refusal is told, with the line and its number.
fn send_line<E: Eprint, R: Input + Drop, W: Output, O: Output>(
    rt: &E,
    alloc: Global,
    number: u64,
    line: &[u8],
    lines: &mut LineReader<R>,
    writer: &mut W,
    out: &mut O,
) -> Result<Outcome, Fault>
    requires fresh { fault_of lines.old ≡ None }
    ensures fresh { OnOk result (fault_of lines.new ≡ None) }
{
    if is_comment(line) {
        return Ok(Outcome::Next);
    }
    if !ask_line(alloc, lines, writer, line, out)? {
        tell_refused_line(rt, alloc, number, line, lines, writer)?;
        return Ok(Outcome::Refused);
    }
    if ends_session(line) {
        Ok(Outcome::Ended)
    } else {
        Ok(Outcome::Next)
    }
}

/// Prints the refusal of a line that is not sent, and tells it.
fn refuse_line<E: Eprint, O: Output>(
    rt: &E,
    number: u64,
    refusal: &[u8],
    out: &mut O,
) -> Result<(), Fault> {
    print_text(out, refusal)?;
    print_text(out, b"\n")?;
    tell_refused(rt, number, b"", refusal);
    Ok(())
}

/// Sends the lines of an input but for its comments, one after another, and prints what answers each: whether each was
/// answered `ok`. Each refusal is told on standard error too, with the number of its line; where the script is `strict`,
/// it ends with the first one. So many lines of the script came before those of the input.
pub(crate) fn run_script<E: Eprint, I: Input + Drop, R: Input + Drop, W: Output, O: Output>(
    rt: &E,
    alloc: Global,
    strict: bool,
    done: u64,
    input: &mut LineReader<I>,
    lines: &mut LineReader<R>,
    writer: &mut W,
    out: &mut O,
) -> Result<bool, Fault>
    requires fresh { fault_of lines.old ≡ None }
    ensures fresh { OnOk result (fault_of lines.new ≡ None) }
{
    let mut all = true;
    'lines: for before in done..MOST_LINES {
        let number = before + 1;
        match input.next() {
            Ok(Line::Text) => {
                match send_line(rt, alloc, number, input.line(), lines, writer, out)? {
                    Outcome::Next => {}
                    Outcome::Refused => all = false,
                    Outcome::Ended => return Ok(all),
                }
            }
            Ok(Line::TooLong) => {
                refuse_line(rt, number, b"no TooLong", out)?;
                all = false;
            }
            Ok(Line::Unended) => {
                refuse_line(rt, number, b"no BadLine", out)?;
                return Ok(false);
            }
            Ok(Line::End) => return Ok(all),
            Err(fault) => return Err(Fault::of_input(fault)),
        }
        if strict && !all {
            return Ok(false);
        }
    }
    Ok(all)
}
