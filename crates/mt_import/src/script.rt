//! The script: comments and commands.
ghost use Rattle.std.specs.Prelude.{◌≡◌, not, ◌==◌, [], ◌++◌, IfOk, OnOk};
ghost use Rattle.std.specs.List.{list_all};
ghost use Rattle.mt_requests.specs.Requests.{request_of};
ghost use Rattle.mt_import.specs.Script.{is_run, is_script_line, IsScript, line_text};

use crate::numbers::Numbers;
use crate::writer::{Allocated, Done, one_behind};
use mt_requests::request::{Request, read_request};
use mt_skel::fault::Fault;
use std::alloc::{AllocError, Global};
use std::marker::Model;

/// The lines of a script, each with its line end: comments, which begin with `#`, and lines that the server reads as
/// commands.
#[derive(Drop)]
pub struct Script {
    text: Vec<u8>,
    /// The peer groups that it makes.
    pub(crate) numbers: Numbers,
}

impl Model for Script {
    ghost use Rattle.std.specs.Prelude.{ℕ, List};
    ghost use Rattle.mt_import.specs.Script.{IsScript};

    ghost Value = { List ℕ };

    ghost view = { λ s. s.text.items };

    ghost invariant = { λ s. IsScript s.text.items };
}

/// Whether no byte ends a line.
fn is_one_line(line: &[u8]) -> bool
    ensures { result ≡ list_all (λ b. not (b == 10)) line.now }
{
    line.iter().all(|byte| *byte != b'\n')
}

/// Whether the server reads a line as a command.
fn is_command(alloc: Global, line: &[u8]) -> Allocated<bool>
    ensures { IfOk result (λ is. is ≡ is_run (request_of line.now)) }
{
    match read_request(alloc, line) {
        Ok(Request::Run(_)) => Ok(true),
        Err(Fault::NoMemory) => Err(AllocError),
        _ => Ok(false),
    }
}

/// Whether a line can stand in a script.
fn is_script_line(alloc: Global, line: &[u8]) -> Allocated<bool>
    ensures { IfOk result (λ is. is ≡ is_script_line line.now) }
{
    if !is_one_line(line) {
        return Ok(false);
    }
    if line.starts_with(b"#") {
        return Ok(true);
    }
    is_command(alloc, line)
}

impl Script {
    /// A script without lines.
    pub fn new(alloc: Global) -> Script
        ensures { result ≡ [] }
    {
        Script {
            text: Vec::new(alloc),
            numbers: Numbers {
                count: 0,
                named: Vec::new(alloc),
                masters: Vec::new(alloc),
            },
        }
    }

    /// The text of the script.
    pub fn text(&self) -> &[u8]
        ensures text { result.now ≡ self.now }
        ensures lines { IsScript self.now }
    {
        self.text.as_slice()
    }

    /// Appends a line with a line end, if it is a comment or a command, and answers whether it is.
    #[tactic(auto, unfolding(crate::specs::Script::line_text))]
    pub(crate) fn push(&mut self, line: &[u8]) -> Allocated<bool>
        ensures told { IfOk result (λ is. is ≡ is_script_line line.now) }
        ensures pushed { OnOk result (self.new ≡ self.old ++ line_text line.now) }
    {
        let alloc = self.alloc();
        if !is_script_line(alloc, line)? {
            return Ok(false);
        }
        let text = one_behind(alloc, line, b"\n")?;
        self.text.extend_from_slice(text.as_slice())?;
        Ok(true)
    }

    /// Appends the lines of another script.
    pub(crate) fn append(&mut self, other: &Script) -> Done
        ensures { OnOk result (self.new ≡ self.old ++ other.now) }
    {
        self.text.extend_from_slice(other.text())?;
        Ok(())
    }

    /// Where its memory comes from.
    pub(crate) fn alloc(&self) -> Global {
        *self.text.allocator()
    }
}
