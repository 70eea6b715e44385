//! Watchers of a desk: one that lags, one that keeps up, watchers after a stop, and as many as there may be.
ghost use Rattle.std.specs.Prelude.{◌≡◌};

use crate::fixture::{are_done, commands_of};
use mt_book::command::{Command, Reply};
use mt_desk::desk::{Desk, DeskWitness};
use mt_desk::lines::{Host, Lines, Naming};
use mt_desk::watcher::Watcher;
use mt_events::opening::Scope;
use mt_events::post::Post;
use mt_floor::watch::{Meeting, Phase};
use mt_skel::fault::Fault;
use std::alloc::Global;
use std::marker::Brand;
use std::sync::{Arc, Wait};
use std::test::Fail;

/// A filesystem that is the root of namespace 1, whose first post this gives.
const START: &[u8] = b"mkfs a tmpfs none
mkfs d ext4 /dev/x
mkdir a /m
newns a";

/// Two commands, each of which changes the table of namespace 1 when it comes after the other.
const TURNS: &[u8] = b"setattr 1 / set=ro
setattr 1 / clr=ro";

/// How often both are done while a watcher keeps up.
const ROUNDS: u64 = 500;

/// Whether a command is done.
fn is_done<J: Naming, R: Wait>(
    rt: &R,
    desk: &mut Desk<J>,
    witness: &mut DeskWitness<J>,
    command: &Command,
) -> bool {
    matches!(desk.apply(rt, witness, command), Ok(Reply::Done))
}

/// The number of a post; 0 if there is none.
fn number_of(post: Option<Arc<Post>>) -> u64 {
    match post {
        Some(post) => post.number,
        None => 0,
    }
}

/// Whether a meeting of a watcher with its desk tells this.
pub(crate) fn meets<J: Naming>(
    desk: &mut Desk<J>,
    watcher: &mut Watcher<J>,
    posted: u64,
    taken: u64,
    state: Phase,
) -> bool {
    let wanted = Meeting {
        posted,
        taken,
        state,
    };
    match desk.meet(watcher) {
        Ok(meeting) => meeting == wanted,
        Err(_) => false,
    }
}

/// How many posts a watcher had not taken when it was closed, if it could be.
fn left_at_close<J: Naming, R: Wait>(
    rt: &R,
    desk: &mut Desk<J>,
    watcher: Watcher<J>,
) -> Option<usize> {
    match desk.close(rt, watcher) {
        Ok(posts) => Some(posts.as_slice().len()),
        Err(_) => None,
    }
}

/// Whether a watcher with room for two posts lags at the third, is sent nothing after that, and gets the first two.
fn lags<J: Naming, R: Wait>(
    rt: &R,
    desk: &mut Desk<J>,
    witness: &mut DeskWitness<J>,
    watcher: &mut Watcher<J>,
    turns: &[Command],
) -> bool {
    let [first, second] = turns else {
        return false;
    };
    if !are_done(rt, desk, witness, turns) || !meets(desk, watcher, 2, 0, Phase::Open) {
        return false;
    }
    if !is_done(rt, desk, witness, first) || !meets(desk, watcher, 2, 0, Phase::Lagged) {
        return false;
    }
    if !is_done(rt, desk, witness, second) {
        return false;
    }
    let numbers = (
        number_of(watcher.take(rt)),
        number_of(watcher.take(rt)),
        number_of(watcher.take(rt)),
    );
    numbers == (2, 3, 0) && meets(desk, watcher, 2, 2, Phase::Lagged)
}

/// Whether a watcher takes the post of each command, if the first has this number.
fn takes_each<J: Naming, R: Wait>(
    rt: &R,
    desk: &mut Desk<J>,
    witness: &mut DeskWitness<J>,
    watcher: &mut Watcher<J>,
    turns: &[Command],
    first: u64,
) -> bool {
    let mut number = first;
    'turns: for turn in turns {
        if desk.apply(rt, witness, turn).is_err() || number_of(watcher.take(rt)) != number {
            return false;
        }
        number = number.wrapping_add(1);
    }
    true
}

/// Whether a watcher with room for two posts never lags if it takes after each command.
fn keeps_up<J: Naming, R: Wait>(
    rt: &R,
    desk: &mut Desk<J>,
    witness: &mut DeskWitness<J>,
    watcher: &mut Watcher<J>,
    turns: &[Command],
) -> bool {
    'rounds: for round in 0..ROUNDS {
        if !takes_each(rt, desk, witness, watcher, turns, 2 * round + 2) {
            return false;
        }
    }
    meets(desk, watcher, 2 * ROUNDS, 2 * ROUNDS, Phase::Open)
}

/// Whether a stop refuses commands and watchers, a second one changes nothing, and an earlier watcher goes on.
fn stops<J: Naming, R: Wait>(
    rt: &R,
    desk: &mut Desk<J>,
    witness: &mut DeskWitness<J>,
    watcher: &mut Watcher<J>,
    turns: &[Command],
) -> bool {
    let [first, second] = turns else {
        return false;
    };
    if !is_done(rt, desk, witness, first) {
        return false;
    }
    desk.stop(witness);
    desk.stop(witness);
    let refused = match desk.apply(rt, witness, second) {
        Ok(_) => false,
        Err(fault) => fault == Fault::Stopped,
    };
    refused && begins_not(desk, Fault::Stopped) && meets(desk, watcher, 1, 0, Phase::Ended)
}

/// Whether a watcher of namespace 1 is refused for this reason.
fn begins_not<J: Naming>(desk: &mut Desk<J>, wanted: Fault) -> bool {
    match desk.open(Scope::One(1)) {
        Ok(_) => false,
        Err(fault) => fault == wanted,
    }
}

/// What is tried of one watcher.
#[derive(Clone, Copy)]
enum Trial {
    Lags,
    KeepsUp,
    Stops,
}

/// Whether a trial of a watcher goes as it should.
fn goes_well<J: Naming, R: Wait>(
    rt: &R,
    desk: &mut Desk<J>,
    witness: &mut DeskWitness<J>,
    watcher: &mut Watcher<J>,
    turns: &[Command],
    trial: Trial,
) -> bool {
    match trial {
        Trial::Lags => lags(rt, desk, witness, watcher, turns),
        Trial::KeepsUp => keeps_up(rt, desk, witness, watcher, turns),
        Trial::Stops => stops(rt, desk, witness, watcher, turns),
    }
}

/// How many posts are left when a watcher is closed after a trial that goes as it should.
fn left_on<J: Naming, R: Wait>(
    rt: &R,
    alloc: Global,
    lines: Lines,
    trial: Trial,
) -> Result<Option<usize>, Fault>
    requires lines { lines.lines ≡ J.lines }
    requires history { lines.history ≡ J.history }
{
    let host: Host<J> = lines.host();
    let mut desk: Desk<J> = Desk::new(lines);
    let mut witness = desk.admit(&host);
    let start = commands_of(alloc, START)?;
    let turns = commands_of(alloc, TURNS)?;
    if !are_done(rt, &mut desk, &mut witness, &start) {
        return Ok(None);
    }
    let mut watcher = desk.open(Scope::One(1))?;
    if !goes_well(rt, &mut desk, &mut witness, &mut watcher, &turns, trial) {
        return Ok(None);
    }
    Ok(left_at_close(rt, &mut desk, watcher))
}

/// The same on lines for two posts each.
fn left_after<R: Wait>(rt: &R, alloc: Global, trial: Trial) -> Result<Option<usize>, Fault> {
    let lines = Lines::new(alloc, 2)?;
    left_on::<Brand, R>(rt, alloc, lines, trial)
}

#[test]
fn a_watcher_that_takes_late_lags(rt: HostRuntime) -> Result<(), Fail> {
    let left = left_after(&rt, rt.alloc(), Trial::Lags)?;
    assert!(rt; left == Some(0));
    Ok(())
}

#[test]
fn a_watcher_that_keeps_up_never_lags(rt: HostRuntime) -> Result<(), Fail> {
    let left = left_after(&rt, rt.alloc(), Trial::KeepsUp)?;
    assert!(rt; left == Some(0));
    Ok(())
}

#[test]
fn a_stop_leaves_watchers_what_was_sent(rt: HostRuntime) -> Result<(), Fail> {
    let left = left_after(&rt, rt.alloc(), Trial::Stops)?;
    assert!(rt; left == Some(1));
    Ok(())
}

/// As many watchers of namespace 1 as there may be.
pub(crate) fn all_watchers<J: Naming>(
    alloc: Global,
    desk: &mut Desk<J>,
) -> Result<Vec<Watcher<J>>, Fault> {
    let mut watchers = Vec::new(alloc);
    'watchers: for _count in 0..64usize {
        watchers.push(desk.open(Scope::One(1))?)?;
    }
    Ok(watchers)
}

/// Whether all these watchers lag, each with one post that it has not taken.
fn all_lag<J: Naming>(desk: &mut Desk<J>, watchers: &mut Vec<Watcher<J>>) -> bool {
    'watchers: for place in 0..watchers.len() {
        if !meets(desk, &mut watchers[place], 1, 0, Phase::Lagged) {
            return false;
        }
    }
    true
}

/// Whether 64 watchers are the most, including those that lag, and one more may begin once one is
/// closed.
fn is_full_at_64<J: Naming, R: Wait>(rt: &R, alloc: Global, lines: Lines) -> Result<bool, Fault>
    requires lines { lines.lines ≡ J.lines }
    requires history { lines.history ≡ J.history }
{
    let host: Host<J> = lines.host();
    let mut desk: Desk<J> = Desk::new(lines);
    let mut witness = desk.admit(&host);
    let start = commands_of(alloc, START)?;
    let turns = commands_of(alloc, TURNS)?;
    if !are_done(rt, &mut desk, &mut witness, &start) {
        return Ok(false);
    }
    let mut watchers = all_watchers(alloc, &mut desk)?;
    let open = begins_not(&mut desk, Fault::TooManyWatchers);
    if !are_done(rt, &mut desk, &mut witness, &turns) {
        return Ok(false);
    }
    let lagged = all_lag(&mut desk, &mut watchers) && begins_not(&mut desk, Fault::TooManyWatchers);
    let Some(last) = watchers.pop() else {
        return Ok(false);
    };
    let left = left_at_close(rt, &mut desk, last) == Some(1);
    let _newcomer = desk.open(Scope::One(1))?;
    Ok(open && lagged && left && begins_not(&mut desk, Fault::TooManyWatchers))
}

/// The same on lines for one post each.
fn are_full_at_64<R: Wait>(rt: &R, alloc: Global) -> Result<bool, Fault> {
    let lines = Lines::new(alloc, 1)?;
    is_full_at_64::<Brand, R>(rt, alloc, lines)
}

#[test]
fn there_are_64_watchers_at_most(rt: HostRuntime) -> Result<(), Fail> {
    let full = are_full_at_64(&rt, rt.alloc())?;
    assert!(rt; full);
    Ok(())
}
