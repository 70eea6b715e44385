//! Calls of which beginning and end stand on two lines.
ghost use Rattle.std.specs.Prelude.{◌≡◌, [], ◌∷◌, ◌++◌, length, IfOk, OnOk, IfSome, IfNone};
ghost use Rattle.std.specs.BTreeMap.{insert_entry};
ghost use Rattle.std.specs.Ordering.{nat_cmp};
ghost use Rattle.mt_trace.specs.declared.joining.JoinedLine.{JoinedLine};
ghost use Rattle.mt_trace.specs.Joining.{Waiting, waiting_number, waiting_at, not_waiting, begins_call, ended_line, taken_over, joined_line};

use mt_strace::line::StraceLine;
use std::alloc::{AllocError, Global};
use std::collections::BTreeMap;
use std::marker::Model;

/// The beginning of a call, or a whole one.
#[derive(Drop)]
pub struct CallText {
    bytes: Vec<u8>,
}

impl Model for CallText {
    ghost use Rattle.std.specs.Prelude.{ℕ, List};

    ghost Value = { List ℕ };

    ghost view = { λ t. t.bytes.items };
}

impl CallText {
    /// A copy of these bytes.
    fn copy_of(alloc: Global, bytes: &[u8]) -> Result<CallText, AllocError>
        ensures { IfOk result (λ text. text ≡ bytes.now) }
    {
        Ok(CallText {
            bytes: Vec::from_slice(alloc, bytes)?,
        })
    }

    /// Its bytes.
    pub fn bytes(&self) -> &[u8]
        ensures { result.now ≡ self.now }
    {
        self.bytes.as_slice()
    }

    /// The text with an end behind it.
    fn with_end(self, end: &[u8]) -> Result<CallText, AllocError>
        ensures { IfOk result (λ text. text ≡ self ++ end.now) }
    {
        let mut bytes = self.bytes;
        bytes.extend_from_slice(end)?;
        Ok(CallText { bytes })
    }
}

/// What a line is, once beginnings and ends are joined.
#[derive(Drop)]
pub enum JoinedLine {
    /// The line says all itself.
    Whole,
    /// It is the beginning of a call, which waits for its end. An earlier one of the process has no end.
    Begun(Option<CallText>),
    /// It is the end of a call: this is the whole call, for [`mt_strace::line::read_call`].
    Ended(CallText),
    /// It is an end without a beginning.
    Unbegun,
    /// The process goes on as another one, or has ended. A call that it had begun has no end.
    Over(Option<CallText>),
}

/// The beginnings that wait for their ends: at most one of each process.
#[derive(Drop)]
pub struct Beginnings {
    alloc: Global,
    waiting: BTreeMap<u64, CallText>,
}

impl Model for Beginnings {
    ghost use Rattle.mt_trace.specs.Joining.{Waiting};

    ghost Value = { Waiting };

    ghost view = { λ b. b.waiting.entries };
}

/// The number under which the beginning of a process waits.
fn waiting_number(process: Option<u64>) -> u64
    ensures { result ≡ waiting_number process }
{
    match process {
        Some(n) => n,
        None => 0,
    }
}

/// Whether a beginning is one of a call of this name.
fn begins_call(name: &[u8], beginning: &[u8]) -> bool
    ensures { result ≡ begins_call name.now beginning.now }
{
    match beginning.strip_prefix(name) {
        Some(behind) => behind.starts_with(b"("),
        None => false,
    }
}

/// Whether a beginning is one of a call of one of these names.
fn begins_one_of(names: &[&[u8]], beginning: &[u8]) -> bool {
    for name in names {
        if begins_call(name, beginning) {
            return true;
        }
    }
    false
}

impl Beginnings {
    /// None.
    pub fn new(alloc: Global) -> Beginnings
        ensures { result ≡ [] }
    {
        Beginnings {
            alloc,
            waiting: BTreeMap::new(alloc),
        }
    }

    /// How many there are.
    pub fn len(&self) -> usize
        ensures { result ≡ length self.now }
    {
        self.waiting.len()
    }

    /// Keeps the beginning of a process, and answers the one that it had.
    fn put(&mut self, n: u64, beginning: CallText) -> Result<Option<CallText>, AllocError>
        ensures old { IfOk result (λ old. old ≡ waiting_at n self.old) }
        ensures new { OnOk result (self.new ≡ insert_entry nat_cmp self.old n beginning) }
    {
        Ok(self.waiting.insert(n, beginning)?)
    }

    /// Takes the beginning of a process out.
    fn take(&mut self, n: u64) -> Option<CallText>
        ensures old { result ≡ waiting_at n self.old }
        ensures new { self.new ≡ not_waiting n self.old }
    {
        self.waiting.remove(&n)
    }

    /// The call of a process that has begun, with this end behind it. `None` if no call of this name has begun.
    pub fn with_end(
        &self,
        process: Option<u64>,
        name: &[u8],
        end: &[u8],
    ) -> Result<Option<Vec<u8>>, AllocError> {
        let Some(beginning) = self.waiting.get(&waiting_number(process)) else {
            return Ok(None);
        };
        if !begins_call(name, beginning.bytes()) {
            return Ok(None);
        }
        let mut text = Vec::from_slice(self.alloc, beginning.bytes())?;
        text.extend_from_slice(end)?;
        Ok(Some(text))
    }

    /// The process and the beginning of the only call that has begun of these names. `None` if none has, or several.
    pub fn only_of(&self, names: &[&[u8]]) -> Option<(u64, &[u8])> {
        let mut found = None;
        for (process, beginning) in self.waiting.iter() {
            if begins_one_of(names, beginning.bytes()) {
                if found.is_some() {
                    return None;
                }
                found = Some((*process, beginning.bytes()));
            }
        }
        found
    }

    /// Takes one of them out, with its process. `None` if there is none.
    pub fn take_any(&mut self) -> Option<(u64, CallText)>
        ensures some { IfSome result (λ first. self.old ≡ first ∷ self.new) }
        ensures none { IfNone result (self.old ≡ []) }
    {
        self.waiting.pop_first()
    }

    /// Joins an end with its beginning.
    fn end(&mut self, n: u64, name: &[u8], end: &[u8]) -> Result<JoinedLine, AllocError>
        ensures { IfOk result (λ said. ◌≡◌ {A = JoinedLine × Waiting} (said, self.new) (ended_line n name.now end.now self.old (waiting_at n self.old))) }
    {
        let Some(beginning) = self.waiting.get(&n) else {
            return Ok(JoinedLine::Unbegun);
        };
        if !begins_call(name, beginning.bytes()) {
            return Ok(JoinedLine::Unbegun);
        }
        match self.take(n) {
            Some(beginning) => Ok(JoinedLine::Ended(beginning.with_end(end)?)),
            None => Ok(JoinedLine::Unbegun),
        }
    }

    /// Lets a thread go on under the number of its process.
    fn supersede(&mut self, n: u64, by: u64) -> Result<JoinedLine, AllocError>
        ensures { IfOk result (λ said. ◌≡◌ {A = JoinedLine × Waiting} (said, self.new) (taken_over n by self.old)) }
    {
        match self.take(by) {
            Some(beginning) => Ok(JoinedLine::Over(self.put(n, beginning)?)),
            None => Ok(JoinedLine::Over(self.take(n))),
        }
    }

    /// What a line is, once beginnings and ends are joined: each line of a trace is given once, in order. Fails for want of memory
    /// alone; a beginning may be lost then.
    pub fn join(&mut self, line: &StraceLine<'_>) -> Result<JoinedLine, AllocError>
        ensures { IfOk result (λ said. ◌≡◌ {A = JoinedLine × Waiting} (said, self.new) (joined_line line.now self.old)) }
    {
        match line {
            StraceLine::Unfinished {
                process,
                name: _name,
                beginning,
            } => {
                let beginning = CallText::copy_of(self.alloc, beginning.bytes())?;
                Ok(JoinedLine::Begun(self.put(waiting_number(*process), beginning)?))
            }
            StraceLine::Resumed { process, name, end } => {
                self.end(waiting_number(*process), name.bytes(), end.bytes())
            }
            StraceLine::Exited { process } => {
                Ok(JoinedLine::Over(self.take(waiting_number(*process))))
            }
            StraceLine::Superseded { process, by } => {
                self.supersede(waiting_number(*process), *by)
            }
            StraceLine::Call(_) | StraceLine::Silent | StraceLine::Bad(_) => Ok(JoinedLine::Whole),
        }
    }
}
