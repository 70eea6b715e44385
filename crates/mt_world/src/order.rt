//! In which order things are tried that may stand on one another: what stands on nothing first.
//!
//! The order is good for speed alone: who tries them tests whether what a thing stands on is there, and tries it once more if not.
ghost use Rattle.std.specs.Prelude.{◌≡◌, true, ℕ, ◌<◌, [], ◌∷◌, ◌++◌, cond, length, map, IfOk, OnOk, IsOkUnless};
ghost use Rattle.std.specs.List.{range_with_len};
ghost use Rattle.mt_skel.specs.Keyed.{among};
ghost use Rattle.mt_world.specs.declared.order.Turn.{Turn as TurnOf};

use indexmap::IndexMap;
use mt_skel::fault::Fault;
use std::alloc::Global;

/// What one thing is called, if others can stand on it, and what it stands on.
#[derive(Clone, Copy)]
pub(crate) struct Tie {
    pub(crate) name: Option<u64>,
    pub(crate) below: Option<u64>,
}

/// How many things are below one, and which it is.
#[derive(Clone, Copy)]
struct Turn {
    depth: usize,
    number: usize,
}

/// The first thing of each name.
fn named(alloc: Global, ties: &[Tie]) -> Result<IndexMap<u64, usize>, Fault>
    ensures memory { IsOkUnless result Fault.NoMemory }
{
    let mut all = IndexMap::new(alloc);
    for (number, tie) in ties.iter().enumerate() {
        if let Some(name) = tie.name {
            if all.get(&name).is_none() {
                all.insert(name, number)?;
            }
        }
    }
    Ok(all)
}

/// The way down from a thing, to one of which the depth is known.
fn way_down(
    ties: &[Tie],
    names: &IndexMap<u64, usize>,
    depths: &mut Vec<usize>,
    way: &mut Vec<usize>,
    start: usize,
) -> Result<usize, Fault>
    ensures memory { IsOkUnless result Fault.NoMemory }
{
    way.clear();
    let mut here = start;
    'down: for _step in 0..ties.len() {
        let (Some(tie), Some(depth)) = (ties.get(here), depths.get_mut(here)) else {
            return Ok(0);
        };
        if *depth > 0 {
            return Ok(*depth);
        }
        *depth = 1;
        way.push(here)?;
        let Some(below) = tie.below.and_then(|name| names.get(&name)) else {
            return Ok(0);
        };
        here = *below;
    }
    Ok(0)
}

/// How many things are below each, at least 1 of all, and any number in a ring.
fn depths_of(alloc: Global, ties: &[Tie]) -> Result<Vec<usize>, Fault>
    ensures memory { IsOkUnless result Fault.NoMemory }
{
    let names = named(alloc, ties)?;
    let mut depths = vec![in alloc; 0_usize; ties.len()]?;
    let mut way = Vec::new(alloc);
    for start in 0..ties.len() {
        let mut below = way_down(ties, &names, &mut depths, &mut way, start)?;
        'up: while let Some(here) = way.pop() {
            below = below.saturating_add(1);
            if let Some(depth) = depths.get_mut(here) {
                *depth = below;
            }
        }
    }
    Ok(depths)
}

/// So many turns, each with the depth of its thing.
fn turns_of(alloc: Global, count: usize, depths: &[usize]) -> Result<Vec<Turn>, Fault>
    ensures turns { IfOk result (λ turns. map (λ (t : TurnOf). t.number) turns.items ≡ range_with_len 0 count) }
    ensures memory { IsOkUnless result Fault.NoMemory }
{
    let mut turns = Vec::new(alloc);
    'turns: for number in 0..count {
        let depth = match depths.get(number) {
            Some(depth) => *depth,
            None => 0,
        };
        turns.push(Turn { depth, number })?;
    }
    Ok(turns)
}

/// The numbers of turns.
fn numbers_of(alloc: Global, turns: &[Turn]) -> Result<Vec<usize>, Fault>
    ensures numbers { IfOk result (λ numbers. numbers.items ≡ map (λ (t : TurnOf). t.number) turns.now) }
    ensures memory { IsOkUnless result Fault.NoMemory }
{
    let mut numbers = Vec::with_capacity(alloc, turns.len())?;
    'turns: for turn in turns {
        numbers.push(turn.number)?;
    }
    Ok(numbers)
}

/// The numbers of all things, each after what it stands on, but in rings.
pub(crate) fn order_of(alloc: Global, ties: &[Tie]) -> Result<Vec<usize>, Fault>
    ensures all { IfOk result (λ order. (k : ℕ) → k < length ties.now → among order.items k ≡ true) }
    ensures memory { IsOkUnless result Fault.NoMemory }
{
    let depths = depths_of(alloc, ties)?;
    let mut turns = turns_of(alloc, ties.len(), depths.as_slice())?;
    turns.sort_unstable_by_key(|turn| (turn.depth, turn.number));
    let order = numbers_of(alloc, turns.as_slice())?;
    Ok(order)
}

/// Appends a number to a list, if it is to be there.
pub(crate) fn push_if(list: &mut Vec<usize>, is_there: bool, number: usize) -> Result<(), Fault>
    ensures list { OnOk result (list.new.items ≡ list.old.items ++ cond is_there (number ∷ []) []) }
    ensures memory { IsOkUnless result Fault.NoMemory }
{
    if !is_there {
        return Ok(());
    }
    list.push(number)?;
    Ok(())
}
