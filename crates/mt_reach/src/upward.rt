//! What is met on the ways up: from peer group to master, or from a mount to the one that it stands on.
//!
//! A way up ends at a number of which it is known already whether a goal is met from it. What is found is kept for all numbers
//! on the way, so that no way is gone twice.
ghost use Rattle.std.specs.Prelude.{◌≡◌, ◌==◌, false, None, IfOk, IfSome, IsOkUnless, IsTrue};
ghost use Rattle.std.specs.List.{list_all};
ghost use Rattle.mt_info.specs.SameRow.{bool_eq};
ghost use Rattle.mt_reach.specs.Tree.{told_above, seen_or_told, step_up, leads_up};

use crate::rows::SeenRows;
use indexmap::IndexMap;
use mt_peers::state::GroupId;
use mt_skel::fault::Fault;
use std::marker::Model;

/// A step up.
#[derive(Clone, Copy)]
pub(crate) enum Step {
    /// From a peer group to its master.
    ToMaster,
    /// From a peer group to its master, or where no row tells a member of that, to the group above it that a row tells.
    ToTold,
    /// From a mount to the one that it stands on.
    ToParent,
}

/// The group above one without a member that a slave of it tells. Takes no memory.
fn told_above(rows: &SeenRows, group: GroupId) -> Option<GroupId>
    ensures { result ≡ told_above rows.now group }
{
    'rows: for row in rows.rows() {
        if row.master == Some(group) && row.via.is_some() {
            return row.via;
        }
    }
    None
}

/// A group, if a row tells a member of it, and else the group above it that is told. Takes no memory.
pub(crate) fn seen_or_told(rows: &SeenRows, group: GroupId) -> Option<GroupId>
    ensures { result ≡ seen_or_told rows.now group }
{
    if rows.has_member(group) {
        return Some(group);
    }
    told_above(rows, group)
}

/// A step up from the peer group or mount of a number. Takes no memory.
pub(crate) fn step_up(rows: &SeenRows, step: Step, number: u64) -> Option<u64>
    ensures { result ≡ step_up rows.now step number }
{
    match step {
        Step::ToMaster => rows.master_of(number),
        Step::ToTold => seen_or_told(rows, rows.master_of(number)?),
        Step::ToParent => rows.parent_of(number),
    }
}

/// Rows, a goal, and what was found: whether the goal is met on the way up from a number.
pub(crate) struct Upward<'a> {
    rows: &'a SeenRows,
    step: Step,
    goal: u64,
    found: IndexMap<u64, bool>,
}

impl<'a> Model for Upward<'a> {
    ghost use Rattle.mt_reach.specs.Upward.{UpwardView, AreMet};

    ghost Value = { UpwardView };

    ghost view = { λ u. record { rows = u.rows.now; step = u.step; goal = u.goal } };

    ghost invariant = { λ u. AreMet u.rows.now u.step u.goal u.found };
}

// Written out, so that whoever owns what was found lets it go as one thing.
impl<'a> Drop for Upward<'a> {
    fn drop(self) {
        let Upward {
            rows: _rows,
            step: _step,
            goal: _goal,
            found: _found,
        } = self;
    }
}

impl<'a> Upward<'a> {
    /// Nothing is found yet. Takes no memory.
    pub(crate) fn new(rows: &'a SeenRows, step: Step, goal: u64) -> Self
        ensures { result ≡ record { rows = rows.now; step = step; goal = goal } }
    {
        Upward {
            rows,
            step,
            goal,
            found: IndexMap::new(rows.allocator()),
        }
    }

    /// The goal.
    pub(crate) fn goal(&self) -> u64
        ensures { result ≡ self.now.goal }
    {
        self.goal
    }

    /// Whether the goal is met on the way up from a number, if that is known already.
    fn known(&self, number: u64) -> Option<bool>
        ensures known { IfSome result (λ met. met ≡ leads_up self.now.rows self.now.step self.now.goal number) }
        ensures other { result ≡ None → (number == self.now.goal) ≡ false }
    {
        if number == self.goal {
            return Some(true);
        }
        self.found.get(&number).copied()
    }

    /// Goes the way up from a number, and answers whether the goal is met: from it, and from all numbers on the way, which it
    /// puts into `way`. Refused as `NoMemory` alone.
    #[tactic(auto, using(crate::proofs::WayLaws::way_start))]
    fn go_up(&self, number: u64, way: &mut Vec<u64>) -> Result<bool, Fault>
        ensures met { IfOk result (λ met. met ≡ leads_up self.now.rows self.now.step self.now.goal number) }
        ensures way { IfOk result (λ met. IsTrue (list_all (λ h. bool_eq (leads_up self.now.rows self.now.step self.now.goal h) met) way.new.items)) }
        ensures memory { IsOkUnless result Fault.NoMemory }
    {
        way.clear();
        let mut here = number;
        'up: for _step in 0..=self.rows.len() {
            if let Some(met) = self.known(here) {
                return Ok(met);
            }
            way.push(here)?;
            let Some(above) = step_up(self.rows, self.step, here) else {
                return Ok(false);
            };
            here = above;
        }
        Ok(false)
    }

    /// Keeps what was found of a number. Refused as `NoMemory` alone.
    fn keep_one(&mut self, number: u64, met: bool) -> Result<(), Fault>
        requires { met ≡ leads_up self.old.rows self.old.step self.old.goal number }
        ensures kept { self.new ≡ self.old }
        ensures memory { IsOkUnless result Fault.NoMemory }
    {
        self.found.insert(number, met)?;
        Ok(())
    }

    /// Keeps what was found of the numbers on a way. Refused as `NoMemory` alone.
    fn keep(&mut self, way: &[u64], met: bool) -> Result<(), Fault>
        requires { IsTrue (list_all (λ h. bool_eq (leads_up self.old.rows self.old.step self.old.goal h) met) way.now) }
        ensures kept { self.new ≡ self.old }
        ensures memory { IsOkUnless result Fault.NoMemory }
    {
        'numbers: for number in way {
            self.keep_one(*number, met)?;
        }
        Ok(())
    }

    /// Whether the goal is met on the way up from a number. Refused as `NoMemory` alone.
    pub(crate) fn is_met(&mut self, number: u64) -> Result<bool, Fault>
        ensures met { IfOk result (λ met. met ≡ leads_up self.old.rows self.old.step self.old.goal number) }
        ensures kept { self.new ≡ self.old }
        ensures memory { IsOkUnless result Fault.NoMemory }
    {
        if let Some(met) = self.known(number) {
            return Ok(met);
        }
        let mut way = Vec::new(self.rows.allocator());
        let met = self.go_up(number, &mut way)?;
        self.keep(way.as_slice(), met)?;
        Ok(met)
    }
}
