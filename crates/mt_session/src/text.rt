//! The lines of an answer.
ghost use Rattle.std.specs.Prelude.{◌≡◌, ◌+◌, ◌≤◌, ◌++◌, length, IfOk, IsOkUnless};
ghost use Rattle.mt_events.specs.Texts.{count_text, opening_text};
ghost use Rattle.mt_session.specs.Answers.{refusal, reply_text, place_text};

use arrayvec::ArrayVec;
use itoa::Buffer;
use mt_book::command::Reply;
use mt_events::opening::Opening;
use mt_events::texts::{counted_lines, lines_of_opening};
use mt_info::print::{push_names, push_number};
use mt_mounts::mount::MountId;
use mt_skel::fault::Fault;
use mt_skel::name::Name;
use std::alloc::{AllocError, Global};
use std::marker::Model;

/// A line of at most 64 bytes, which takes no memory, or more lines.
#[derive(Drop)]
enum Body {
    Short(ArrayVec<u8, 64>),
    Long(Vec<u8>),
}

/// The lines of an answer, each with its line end.
pub struct Text {
    body: Body,
}

// Written out, so that whoever owns one lets it go as one thing.
impl Drop for Text {
    fn drop(self) {
        let Text { body: _body } = self;
    }
}

impl Model for Text {
    ghost use Rattle.std.specs.Prelude.{ℕ, List};
    ghost use Rattle.mt_session.specs.Text.{body_bytes};

    ghost Value = { List ℕ };

    ghost view = { λ t. body_bytes t.body };
}

/// Appends bytes for which there is room.
fn put(line: &mut ArrayVec<u8, 64>, bytes: &[u8])
    requires { length line.old.items + length bytes.now ≤ 64 }
    ensures { line.new.items ≡ line.old.items ++ bytes.now }
{
    let _ = line.try_extend_from_slice(bytes);
}

impl Text {
    /// The line of a refusal, `no` and its name. Takes no memory.
    pub fn refusal(fault: Fault) -> Text
        ensures { result ≡ refusal fault }
    {
        let mut line = ArrayVec::new();
        put(&mut line, b"no ");
        put(&mut line, fault.name());
        put(&mut line, b"\n");
        Text {
            body: Body::Short(line),
        }
    }

    /// The line of an accepted command: `ok`, and the number that it answers, if it does. Takes no
    /// memory.
    pub fn reply(reply: Reply) -> Text
        ensures { result ≡ reply_text reply }
    {
        let mut line = ArrayVec::new();
        match reply {
            Reply::Done => put(&mut line, b"ok\n"),
            Reply::Number(number) => {
                let mut buffer = Buffer::new();
                put(&mut line, b"ok ");
                put(&mut line, buffer.format(number).as_bytes());
                put(&mut line, b"\n");
            }
        }
        Text {
            body: Body::Short(line),
        }
    }

    /// The line that says where a path ends: `ok`, the ID of the mount, and the path of the directory
    /// in the mount's filesystem. Fails for want of memory alone.
    pub fn place(alloc: Global, mount: MountId, names: &[Name]) -> Result<Text, AllocError>
        ensures { IfOk result (λ text. text ≡ place_text mount names.now) }
    {
        let mut line = Vec::new(alloc);
        line.extend_from_slice(b"ok ")?;
        push_number(&mut line, mount)?;
        line.extend_from_slice(b" ")?;
        push_names(&mut line, names)?;
        line.extend_from_slice(b"\n")?;
        Ok(Text {
            body: Body::Long(line),
        })
    }

    /// These lines.
    pub fn lines(lines: Vec<u8>) -> Text
        ensures { result ≡ lines.items }
    {
        Text {
            body: Body::Long(lines),
        }
    }

    /// Lines behind `ok` and how many they are. Fails for want of memory alone.
    pub fn counted(alloc: Global, count: u64, lines: &[u8]) -> Result<Text, AllocError>
        ensures { IfOk result (λ text. text ≡ count_text count ++ lines.now) }
    {
        Ok(Text::lines(counted_lines(alloc, count, lines)?))
    }

    /// The lines that tell what a watcher finds. Refused as `NoMemory` alone.
    pub fn opening(alloc: Global, opening: &Opening) -> Result<Text, Fault>
        ensures text { IfOk result (λ text. text ≡ opening_text opening.now) }
        ensures memory { IsOkUnless result Fault.NoMemory }
    {
        Ok(Text::lines(lines_of_opening(alloc, opening)?))
    }

    /// The bytes of the lines.
    pub fn bytes(&self) -> &[u8]
        ensures { result.now ≡ self.now }
    {
        match &self.body {
            Body::Short(bytes) => bytes.as_slice(),
            Body::Long(bytes) => bytes.as_slice(),
        }
    }
}
