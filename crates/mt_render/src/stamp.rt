//! What mountctl(1) adds to told lines: the time of a line, and a refusal as JSON.
ghost use Rattle.std.specs.Prelude.{◌≡◌, IfOk};
ghost use Rattle.mt_render.specs.Stamps.{behind_brace, timed_line, refusal_line};

use crate::members::put_text;
use crate::objects::value_line;
use crate::telling::Telling;
use serde_json::{Map, Value};
use std::alloc::{AllocError, Global};

/// A line behind the brace that it begins with, if it does.
fn behind_brace(line: &[u8]) -> &[u8]
    ensures { result.now ≡ behind_brace line.now }
{
    match line {
        [b'{', rest @ ..] => rest,
        _ => line,
    }
}

/// A told line with a time: in front of words, and as the first member of an object. Fails for want of memory alone.
pub fn timed_line(
    alloc: Global,
    telling: Telling,
    time: &[u8],
    line: &[u8],
) -> Result<Vec<u8>, AllocError>
    ensures { IfOk result (λ text. text.items ≡ timed_line telling time.now line.now) }
{
    let mut text = Vec::new(alloc);
    match telling {
        Telling::Words => {
            text.extend_from_slice(time)?;
            text.extend_from_slice(b" ")?;
            text.extend_from_slice(line)?;
        }
        Telling::Json => {
            text.extend_from_slice(b"{\"time\":\"")?;
            text.extend_from_slice(time)?;
            text.extend_from_slice(b"\",")?;
            text.extend_from_slice(behind_brace(line))?;
        }
    }
    Ok(text)
}

/// A refusal as an object, a line of its own. Fails for want of memory alone.
#[tactic(auto, unfolding(crate::specs::Stamps::refusal_line))]
pub fn refusal_line(alloc: Global, name: &[u8]) -> Result<Vec<u8>, AllocError>
    ensures { IfOk result (λ line. line.items ≡ refusal_line name.now) }
{
    let mut members = Map::new(alloc);
    put_text(&mut members, alloc, "refusal", name)?;
    value_line(alloc, &Value::from(members))
}
