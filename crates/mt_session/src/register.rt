//! Who has a session, and who is let in.
ghost use Rattle.std.specs.Prelude.{◌≡◌, ◌+◌, ◌-◌, ◌<◌, ◌==◌, cond, nat_lt, nat_eq, is_ok, true, IfOk, IfErr, OnOk, OnErr, length};
ghost use Rattle.std.specs.List.{position_from};
ghost use Rattle.std.specs.Option.{option_map, IfSome};
ghost use Rattle.mt_session.specs.declared.register.Entry.{Entry};
ghost use Rattle.mt_skel.specs.Keyed.{row_at};
ghost use Rattle.mt_session.specs.Register.{IsRegister, entry_kept, entry_number, lets_in, no_sessions, with_session, without_session};

use mt_skel::fault::Fault;
use std::alloc::{AllocError, Global};
use std::marker::Model;

/// One that has a session.
#[derive(Drop)]
pub struct Entry<T> {
    /// The number of its session.
    pub number: u64,
    /// What is kept of it.
    pub kept: T,
}

/// Those that have a session, how many are turned away, and whether the server stops.
#[derive(Drop)]
pub struct Register<T> {
    entries: Vec<Entry<T>>,
    most: usize,
    last: u64,
    parting: usize,
    stopping: bool,
}

impl<T> Model for Register<T> {
    ghost use Rattle.mt_session.specs.Register.{RegisterView};

    ghost Value = { RegisterView T };

    ghost use Rattle.mt_session.specs.Seen.{register_view, IsKept};

    ghost view = { λ r. register_view r };

    ghost invariant = { λ r. IsKept r };
}

impl<T: Drop> Register<T> {
    /// Nobody has a session yet, and `most` may have one at once. Refused for want of memory alone.
    pub fn new(alloc: Global, most: usize) -> Result<Register<T>, AllocError>
        ensures { IfOk result (λ r. r ≡ no_sessions most) }
    {
        Ok(Register {
            entries: Vec::with_capacity(alloc, most)?,
            most,
            last: 0,
            parting: 0,
            stopping: false,
        })
    }

    /// Those that have a session, in the order in which they came.
    pub fn entries(&self) -> &[Entry<T>]
        ensures entries { result.now ≡ self.now.entries }
        ensures register { IsRegister self.now }
    {
        self.entries.as_slice()
    }

    /// Whether nobody has a session.
    pub fn is_empty(&self) -> bool
        ensures { result ≡ (length self.now.entries == 0) }
    {
        self.entries.is_empty()
    }

    /// Whether one more may have a session: fewer have one than may, and not all numbers were given, up to 2^64 - 1.
    pub fn lets_in(&self) -> bool
        ensures { result ≡ lets_in self.now }
    {
        self.entries.len() < self.most && self.last < u64::MAX
    }

    /// Counts one as having a session, and answers its number, which is one above that of the session before; the first
    /// is 1. Refused as `TooMany` exactly where the register lets nobody in ([`lets_in`](Register::lets_in)), and then nothing
    /// has changed.
    pub fn enter(&mut self, kept: T) -> Result<u64, Fault>
        ensures number { IfOk result (λ number. number ≡ self.old.last + 1) }
        ensures entered { OnOk result (self.new ≡ with_session self.old kept) }
        ensures refused { is_ok result ≡ lets_in self.old }
        ensures fault { IfErr result (λ fault. fault ≡ Fault.TooMany) }
        ensures unchanged { OnErr result (self.new ≡ self.old) }
    {
        if !self.lets_in() {
            return Err(Fault::TooMany);
        }
        let number = self.last + 1;
        self.entries.push(Entry { number, kept }).unwrap();
        self.last = number;
        Ok(number)
    }

    /// The session of this number is over: what was kept of it, if there is one.
    pub fn leave(&mut self, number: u64) -> Option<T>
        ensures kept { result ≡ option_map entry_kept (row_at entry_number number self.old.entries) }
        ensures left { self.new ≡ without_session number self.old }
    {
        let Some(place) = place_of(self.entries.as_slice(), number) else {
            return None;
        };
        Some(self.entries.remove(place).kept)
    }

    /// Counts one more that is turned away, unless as many are as there may be sessions. Whether it is counted.
    pub fn begin_parting(&mut self) -> bool
        ensures begun { result ≡ nat_lt self.old.parting self.old.most }
        ensures counted { self.new ≡ record self.old { parting = cond result (self.old.parting + 1) self.old.parting } }
    {
        if self.most <= self.parting {
            return false;
        }
        self.parting += 1;
        true
    }

    /// Counts one less that is turned away; none where none was counted.
    pub fn end_parting(&mut self)
        ensures { self.new ≡ record self.old { parting = self.old.parting - 1 } }
    {
        self.parting = self.parting.saturating_sub(1);
    }

    /// The server stops from now on.
    pub fn stop(&mut self)
        ensures { self.new ≡ record self.old { stopping = true } }
    {
        self.stopping = true;
    }

    /// Whether the server stops.
    pub fn is_stopping(&self) -> bool
        ensures { result ≡ self.now.stopping }
    {
        self.stopping
    }
}

/// Where the session of this number stands among them.
fn place_of<T>(entries: &[Entry<T>], number: u64) -> Option<usize>
    ensures place { result ≡ position_from (λ (e : Entry T). nat_eq e.number number) 0 entries.now }
    ensures within { IfSome result (λ place. place < length entries.now) }
{
    entries.iter().position(|entry| entry.number == number)
}
