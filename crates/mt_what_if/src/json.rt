//! What is told of lines, as JSON: an object a line.
ghost use Rattle.std.specs.Prelude.{◌≡◌, ◌++◌, OnOk};
ghost use Rattle.mt_what_if.specs.Json.{json_text, asked_object, taken_object, refusal_member, reason_member, reason_object, further_texts, listed_texts, elsewhere_object};

use crate::known_space::KnownSpace;
use mt_info::print::push_number;
use mt_terminal::json::quoted_text;
use serde_json::Value;
use std::alloc::AllocError;

/// Appends bytes as a string, with U+FFFD in the place of each sequence that is no UTF-8.
fn push_text(text: &mut Vec<u8>, bytes: &[u8]) -> Result<(), AllocError>
    ensures { OnOk result (text.new.items ≡ text.old.items ++ json_text bytes.now) }
{
    let alloc = *text.allocator();
    let value = Value::from(String::from_utf8_lossy(alloc, bytes)?);
    let bytes = value.to_vec(alloc)?;
    text.extend_from_slice(&quoted_text(alloc, &bytes)?)
}

/// Appends a line that is tried: its number, and the line.
#[tactic(auto, unfolding(crate::specs::Json::asked_object))]
pub(crate) fn push_asked_object(
    text: &mut Vec<u8>,
    number: u64,
    line: &[u8],
) -> Result<(), AllocError>
    ensures { OnOk result (text.new.items ≡ text.old.items ++ asked_object number line.now) }
{
    text.extend_from_slice(b"{\"line\":")?;
    push_number(text, number)?;
    text.extend_from_slice(b",\"asked\":")?;
    push_text(text, line)?;
    text.extend_from_slice(b"}\n")?;
    Ok(())
}

/// Appends what is taken to be there.
#[tactic(auto, unfolding(crate::specs::Json::taken_object))]
pub(crate) fn push_taken_object(text: &mut Vec<u8>, taken: &[u8]) -> Result<(), AllocError>
    ensures { OnOk result (text.new.items ≡ text.old.items ++ taken_object taken.now) }
{
    text.extend_from_slice(b"{\"taken\":")?;
    push_text(text, taken)?;
    text.extend_from_slice(b"}\n")?;
    Ok(())
}

/// Appends bytes as a string, behind others as they are.
fn push_behind(text: &mut Vec<u8>, front: &[u8], bytes: &[u8]) -> Result<(), AllocError>
    ensures { OnOk result (text.new.items ≡ text.old.items ++ (front.now ++ json_text bytes.now)) }
{
    text.extend_from_slice(front)?;
    push_text(text, bytes)
}

/// Appends the name of a refusal, as the first member of an object.
#[tactic(auto, unfolding(crate::specs::Json::refusal_member))]
fn push_refusal_member(text: &mut Vec<u8>, name: &[u8]) -> Result<(), AllocError>
    ensures { OnOk result (text.new.items ≡ text.old.items ++ refusal_member name.now) }
{
    push_behind(text, b"{\"refusal\":", name)
}

/// Appends why a line is refused, as another member.
#[tactic(auto, unfolding(crate::specs::Json::reason_member))]
fn push_reason_member(text: &mut Vec<u8>, reason: &[u8]) -> Result<(), AllocError>
    ensures { OnOk result (text.new.items ≡ text.old.items ++ reason_member reason.now) }
{
    push_behind(text, b",\"reason\":", reason)
}

/// Appends the name of a refusal, and why the line is refused.
#[tactic(auto, unfolding(crate::specs::Json::reason_object))]
pub(crate) fn push_reason_object(
    text: &mut Vec<u8>,
    name: &[u8],
    reason: &[u8],
) -> Result<(), AllocError>
    ensures { OnOk result (text.new.items ≡ text.old.items ++ reason_object name.now reason.now) }
{
    push_refusal_member(text, name)?;
    push_reason_member(text, reason)?;
    text.extend_from_slice(b"}\n")?;
    Ok(())
}

/// Appends each of these names after a comma.
fn push_further(text: &mut Vec<u8>, spaces: &[KnownSpace]) -> Result<(), AllocError>
    ensures { OnOk result (text.new.items ≡ text.old.items ++ further_texts spaces.now) }
{
    'spaces: for space in spaces {
        text.extend_from_slice(b",")?;
        push_text(text, &space.name)?;
    }
    Ok(())
}

/// Appends these names with commas between them.
fn push_listed(text: &mut Vec<u8>, spaces: &[KnownSpace]) -> Result<(), AllocError>
    ensures { OnOk result (text.new.items ≡ text.old.items ++ listed_texts spaces.now) }
{
    match spaces {
        [] => Ok(()),
        [first, more @ ..] => {
            push_text(text, &first.name)?;
            push_further(text, more)
        }
    }
}

/// Appends which of so many other namespaces change.
#[tactic(auto, unfolding(crate::specs::Json::elsewhere_object))]
pub(crate) fn push_elsewhere_object(
    text: &mut Vec<u8>,
    others: u64,
    changed: &[KnownSpace],
) -> Result<(), AllocError>
    ensures { OnOk result (text.new.items ≡ text.old.items ++ elsewhere_object others changed.now) }
{
    text.extend_from_slice(b"{\"elsewhere\":[")?;
    push_listed(text, changed)?;
    text.extend_from_slice(b"],\"others\":")?;
    push_number(text, others)?;
    text.extend_from_slice(b"}\n")?;
    Ok(())
}
